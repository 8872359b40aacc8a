//! The code at a linear address, and what stands in front of it.

ghost use Rattle.std.specs.Prelude.{◌≡◌, ◌≤◌, ◌<◌, length, IfSome};
ghost use Rattle.mdl_step.specs.Fetching.{is_wide};
ghost use Rattle.monitor.specs.Places.{IsCode};
ghost use Rattle.monitor.specs.Reading.{IsNamed};

use crate::target::Target;
use arrayvec::{ArrayString, ArrayVec};
use insn_decode::{SliceError, decode_slice};
use insn_print::print;
use mdl_state::{Regs, Seg};
use seg_unit::{is_big, is_protected, segment};

/// The most bytes of an instruction.
const MOST_CODE: u32 = 15;

/// Whether the code of these registers has 32 bits unless a prefix says otherwise.
pub(crate) fn is_wide(regs: &Regs) -> bool
    ensures { result ≡ is_wide regs.now }
{
    is_protected(regs) && is_big(&segment(regs, Seg::Cs))
}

/// The bytes of code from a linear address on: fifteen, or those before the first without a page.
pub(crate) fn code_at<T: Target>(target: &T, at: u32) -> ArrayVec<u8, 15>
    ensures { IsCode (T.machine target.now).state.mem at result.items }
{
    let mut code = ArrayVec::new();
    for place in 0..MOST_CODE {
        let Some(byte) = target.lin_byte(at.wrapping_add(place)) else {
            return code;
        };
        code.push(byte);
    }
    code
}

/// What stands in front of some code.
#[derive(Drop)]
pub(crate) struct Named {
    pub(crate) name: ArrayString<96>,
    /// How many bytes it covers, or none where it goes on behind the code.
    pub(crate) covered: Option<usize>,
}

/// A word in place of an instruction's text.
pub(crate) fn word(text: &str) -> ArrayString<96>
    requires { length text.now ≤ 96 }
    ensures { result.bytes ≡ text.now }
{
    let mut name = ArrayString::new();
    name.push_str(text);
    name
}

/// The text of what stands in front of some code, of which the first byte has this address.
pub(crate) fn name_of(code: &[u8], big: bool, at: u32) -> Named
    ensures named { IsNamed code.now big at result.name.bytes result.covered }
    ensures inside { IfSome result.covered (λ n. n ≤ length code.now) }
{
    match decode_slice(code, big) {
        Ok((insn, length)) => Named {
            name: print(&insn, at.wrapping_add(u32::from(length))),
            covered: Some(usize::from(length)),
        },
        Err(SliceError::Undefined) => Named {
            name: word("undefined"),
            covered: Some(1),
        },
        Err(SliceError::TooLong) => Named {
            name: word("too long"),
            covered: Some(1),
        },
        Err(SliceError::Short) => Named {
            name: word("no page"),
            covered: None,
        },
    }
}
