//! Where the machine stands.

ghost use Rattle.std.specs.Prelude.{◌≡◌, ◌≤◌, ◌+◌, ◌++◌, length};
ghost use Rattle.arrayvec.specs.ArrayVec.{array_vec_len};
ghost use Rattle.monitor.specs.Moves.{code_address};
ghost use Rattle.monitor.specs.Places.{IsWord, IsPlace};

use crate::code::{code_at, is_wide, name_of, word};
use crate::target::Target;
use arrayvec::{ArrayString, ArrayVec};
use mdl_state::{Activity, Regs, Seg};
use reports::{ROOM, push_decimal, push_hex, push_text};
use seg_unit::segment;

/// The linear address of the next instruction.
pub(crate) fn code_address(regs: &Regs) -> u32
    ensures { result ≡ code_address regs.now }
{
    segment(regs, Seg::Cs).base.wrapping_add(regs.eip)
}

/// The instruction at the place where the machine stands.
fn instruction<T: Target>(target: &T) -> ArrayString<96>
    ensures { IsWord Activity.Running (T.machine target.now) result.bytes }
{
    let regs = target.regs();
    let code = code_at(target, code_address(&regs));
    name_of(code.as_slice(), is_wide(&regs), regs.eip).name
}

/// What is said of the place.
fn word_of<T: Target>(target: &T) -> ArrayString<96>
    ensures { IsWord (T.machine target.now).state.core.activity (T.machine target.now) result.bytes }
{
    match target.activity() {
        Activity::Running => instruction(target),
        Activity::Halted => word("halted"),
        Activity::Shutdown => word("shutdown"),
    }
}

/// The line of the place where the machine stands.
pub(crate) fn place_line<T: Target>(target: &T) -> ArrayVec<u8, ROOM>
    ensures line { IsPlace (T.machine target.now) result.items }
    ensures length { array_vec_len result ≤ 140 }
{
    let regs = target.regs();
    let mut text = ArrayVec::new();
    push_decimal(&mut text, target.steps());
    push_text(&mut text, b" ");
    push_hex(&mut text, 4, u32::from(segment(&regs, Seg::Cs).sel));
    push_text(&mut text, b":");
    push_hex(&mut text, 8, regs.eip);
    push_text(&mut text, b" ");
    push_text(&mut text, word_of(target).as_str().as_bytes());
    push_text(&mut text, b"\n");
    text
}
