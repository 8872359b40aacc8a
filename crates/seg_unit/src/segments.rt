//! Segment registers, and the mode that says how they count.

ghost use Rattle.std.specs.Prelude.{◌≡◌, true};
ghost use Rattle.mdl_state.specs.Registers.{seg_of, with_seg};
ghost use Rattle.mdl_state.specs.Bytes.{bit};
ghost use Rattle.mdl_cpu.specs.Access.{is_allowed};
ghost use Rattle.mdl_cpu.specs.Segments.{is_protected, who_of};
ghost use Rattle.mdl_cpu.specs.Segments.{is_code, grows_down, is_big};

use mdl_state::{Hidden, Regs, Seg, Who};

/// PE of CR0.
const PROTECTION: u32 = 0x1;

/// VM of EFLAGS.
const VIRTUAL_8086: u32 = 0x2_0000;

/// Bit 3 of an access byte: code, and not data.
const CODE: u16 = 0x8;

/// Bit 2 of the access byte of data: the segment grows down.
const EXPAND_DOWN: u16 = 0x4;

/// Bit 1 of an access byte: data can be written, code can be read.
const WRITABLE_OR_READABLE: u16 = 0x2;

/// D or B of a descriptor, at its place in the rights.
const BIG: u16 = 0x4000;

/// A segment register with its hidden part.
#[tactic(auto, unfolding(mdl_state::specs::Registers::seg_of))]
pub fn segment(regs: &Regs, seg: Seg) -> Hidden
    ensures { result ≡ seg_of regs.now seg }
{
    match seg {
        Seg::Es => regs.seg[0],
        Seg::Cs => regs.seg[1],
        Seg::Ss => regs.seg[2],
        Seg::Ds => regs.seg[3],
        Seg::Fs => regs.seg[4],
        Seg::Gs => regs.seg[5],
    }
}

/// Sets a segment register with its hidden part.
#[tactic(auto, unfolding(mdl_state::specs::Registers::with_seg))]
pub fn set_segment(regs: &mut Regs, seg: Seg, hidden: Hidden)
    ensures { regs.new ≡ with_seg regs.old seg hidden }
{
    match seg {
        Seg::Es => regs.seg[0] = hidden,
        Seg::Cs => regs.seg[1] = hidden,
        Seg::Ss => regs.seg[2] = hidden,
        Seg::Ds => regs.seg[3] = hidden,
        Seg::Fs => regs.seg[4] = hidden,
        Seg::Gs => regs.seg[5] = hidden,
    }
}

/// Protected mode without V86.
pub fn is_protected(regs: &Regs) -> bool
    ensures { result ≡ is_protected regs.now }
{
    regs.cr0 / PROTECTION % 2 == 1 && regs.eflags / VIRTUAL_8086 % 2 == 0
}

/// For whom the accesses of an instruction are made.
pub fn who(regs: &Regs) -> Who
    ensures { result ≡ who_of regs.now }
{
    if regs.cpl == 3 {
        Who::User
    } else {
        Who::Supervisor
    }
}

/// Code, and not data.
fn is_code(hidden: &Hidden) -> bool
    ensures { result ≡ is_code hidden.now }
{
    hidden.rights / CODE % 2 == 1
}

/// The bit that allows the access that not every segment of its kind allows.
fn is_writable_or_readable(hidden: &Hidden) -> bool
    ensures { result ≡ bit hidden.now.rights 1 }
{
    hidden.rights / WRITABLE_OR_READABLE % 2 == 1
}

/// Data, the offsets of which lie above the limit.
pub(crate) fn grows_down(hidden: &Hidden) -> bool
    ensures { result ≡ grows_down hidden.now }
{
    !is_code(hidden) && hidden.rights / EXPAND_DOWN % 2 == 1
}

/// D or B of a descriptor is set: 32 bits.
pub fn is_big(hidden: &Hidden) -> bool
    ensures { result ≡ is_big hidden.now }
{
    hidden.rights / BIG % 2 == 1
}

/// The rights of protected mode allow a write, or a read.
pub(crate) fn is_permitted(hidden: &Hidden, write: bool) -> bool
    ensures { result ≡ is_allowed true hidden.now write }
{
    if hidden.rights == 0 {
        return false;
    }
    if write {
        return !is_code(hidden) && is_writable_or_readable(hidden);
    }
    !is_code(hidden) || is_writable_or_readable(hidden)
}
