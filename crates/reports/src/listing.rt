//! The listing of bytes, written line by line.

ghost use Rattle.std.specs.Prelude.{◌≡◌, ◌≤◌, ◌<◌, ◌+◌, ◌*◌, ◌++◌, ◌∷◌, ◌^◌, [], length, codes, OnOk, OnErr};
ghost use Rattle.arrayvec.specs.ArrayVec.{array_vec_len};
ghost use Rattle.host_io.specs.declared.host.OutSlot.TheVariants.{Report};
ghost use Rattle.host_io.specs.declared.host.Slot.TheVariants.{Out};
ghost use Rattle.host_io.specs.Causes.{HasCause};
ghost use Rattle.host_io.specs.Promises.{IsSure, IsFull};
ghost use Rattle.host_io.specs.Slots.{Same, SameBut};
ghost use Rattle.mdl_insn.specs.Text.{hex};
ghost use Rattle.mdl_insn.specs.Listing.{bytes_text};
ghost use Rattle.reports.specs.Lines.{IsLine, AppendsListing, AppendsListingPrefix};

use crate::texts::{ROOM, push_byte, push_hex, push_text};
use arrayvec::ArrayVec;
use host_io::{Failed, Host, OutSlot, write_all};
use insn_decode::{SliceError, decode_slice};
use insn_print::print;

/// A line of a listing.
#[derive(Drop)]
pub struct Line {
    pub text: ArrayVec<u8, ROOM>,
    /// How many bytes it covers.
    pub covered: usize,
}

/// Bytes in two digits each.
fn push_bytes(text: &mut ArrayVec<u8, ROOM>, bytes: &[u8])
    requires { array_vec_len text.old + 2 * length bytes.now ≤ ROOM }
    ensures text { text.new.items ≡ text.old.items ++ bytes_text bytes.now }
    ensures length { array_vec_len text.new ≡ array_vec_len text.old + 2 * length bytes.now }
{
    for byte in bytes {
        push_byte(text, *byte);
    }
}

/// The line of these bytes at an address, with this text.
pub fn line_with(at: u32, bytes: &[u8], name: &[u8]) -> Line
    requires bytes { length bytes.now ≤ 15 }
    requires text { length name.now ≤ 96 }
    ensures text { result.text.items ≡ hex 8 at ++ codes " " ++ bytes_text bytes.now ++ codes " " ++ name.now ++ 0x0A ∷ [] }
    ensures length { array_vec_len result.text ≤ 137 }
    ensures covered { result.covered ≡ length bytes.now }
{
    let mut text = ArrayVec::new();
    push_hex(&mut text, 8, at);
    push_text(&mut text, b" ");
    push_bytes(&mut text, bytes);
    push_text(&mut text, b" ");
    push_text(&mut text, name);
    push_text(&mut text, b"\n");
    Line {
        text,
        covered: bytes.len(),
    }
}

/// The line of what stands in front of the bytes, of which the first is at an address.
fn line_at(bytes: &[u8], big: bool, at: u32) -> Line
    requires { at < 2 ^ 31 }
    ensures { IsLine bytes.now big at result.text.items result.covered }
{
    match decode_slice(bytes, big) {
        Ok((insn, length)) => {
            let name = print(&insn, at + u32::from(length));
            line_with(at, &bytes[..usize::from(length)], name.as_str().as_bytes())
        }
        Err(SliceError::Undefined) => line_with(at, &bytes[..1], b"undefined"),
        Err(SliceError::TooLong) => line_with(at, &bytes[..1], b"too long"),
        Err(SliceError::Short) => line_with(at, bytes, b"short"),
    }
}

/// Writes the listing of the bytes from an offset, with at most so many lines.
pub fn write_listing<H: Host>(
    host: &mut H,
    bytes: &[u8],
    from: u64,
    count: u64,
    big: bool,
) -> Result<(), Failed>
    requires { length bytes.now ≤ 0x40000 }
    ensures ok { OnOk result (AppendsListing bytes.now from count big (H.took host.old Report) (H.took host.new Report)) }
    ensures err { OnErr result (AppendsListingPrefix bytes.now from count big (H.took host.old Report) (H.took host.new Report)) }
    ensures outputs { SameBut Report (H.took host.old) (H.took host.new) }
    ensures paths { Same (H.path host.old) (H.path host.new) }
    ensures left { Same (H.left host.old) (H.left host.new) }
    ensures cause { HasCause (H.faults host.old) (H.faults host.new) (Out Report) result }
    ensures promise { H.promise host.new ≡ H.promise host.old }
    ensures sure { OnErr result (IsSure (H.promise host.old) (Out Report) → IsFull (H.promise host.old) Report (H.took host.new Report)) }
{
    let mut at = from as usize;
    for _line in 0..count {
        if at >= bytes.len() {
            return Ok(());
        }
        let line = line_at(&bytes[at..], big, at as u32);
        write_all(host, OutSlot::Report, line.text.as_slice())?;
        at += line.covered;
    }
    Ok(())
}
