//! The stack: numbers on it and off it. SS:SP, or SS:ESP where protected mode's SS has B set.

ghost use Rattle.std.specs.Prelude.{◌≡◌, ◌<◌, ◌≤◌, ◌+◌, ◌^◌, length, IfOk, OnOk, OnErr};
ghost use Rattle.mdl_state.specs.Bytes.{bytes_of, bound_of};
ghost use Rattle.mdl_state.specs.Serving.{by_pick};
ghost use Rattle.mdl_state.specs.Accesses.{Keeps, HasRoom};
ghost use Rattle.mdl_state.specs.Attempt.{tried};
ghost use Rattle.mdl_cpu.specs.Loads.{answered};
ghost use Rattle.mdl_cpu.specs.Stack.{stack_size, stack_top, with_top, above_top, below_top, push_plan, pop_plan};
ghost use Rattle.seg_unit.specs.Stack.{popped};

use crate::memory::{load, store};
use crate::segments::{is_big, is_protected, segment};
use mdl_num::{bound, low};
use mdl_state::{Fault, Regs, Seg, Size};
use mem_iface::{Linear, bytes_of};

/// The number of SP and ESP among the general registers.
const STACK: usize = 4;

/// The size of the stack pointer: that of ESP or of SP.
pub fn stack_size(regs: &Regs) -> Size
    ensures size { result ≡ stack_size regs.now }
    ensures least { 2 ^ 16 ≤ bound_of result }
{
    if is_protected(regs) && is_big(&segment(regs, Seg::Ss)) {
        Size::B4
    } else {
        Size::B2
    }
}

/// The stack pointer.
#[tactic(auto, unfolding(mdl_state::specs::Registers::reg_of))]
fn stack_top(regs: &Regs) -> u32
    ensures { result ≡ stack_top regs.now }
{
    match stack_size(regs) {
        Size::B4 => regs.gpr[STACK],
        _ => regs.gpr[STACK] % 0x1_0000,
    }
}

/// So many bytes above the stack pointer, to which a pop moves it.
pub fn above_top(regs: &Regs, bytes: u32) -> u32
    ensures top { result ≡ above_top regs.now bytes }
    ensures bound { result < bound_of (stack_size regs.now) }
{
    low(stack_top(regs) as u64 + bytes as u64, stack_size(regs))
}

/// So many bytes below the stack pointer, to which a push moves it.
fn below_top(regs: &Regs, bytes: u32) -> u32
    requires { bytes ≤ 2 ^ 16 }
    ensures top { result ≡ below_top regs.now bytes }
    ensures bound { result < bound_of (stack_size regs.now) }
{
    let size = stack_size(regs);
    low(stack_top(regs) as u64 + (bound(size) - bytes as u64), size)
}

/// Sets the stack pointer.
#[tactic(auto, unfolding(mdl_state::specs::Registers::with_reg))]
pub fn set_top(regs: &mut Regs, top: u32)
    requires { top < bound_of (stack_size regs.old) }
    ensures { regs.new ≡ with_top regs.old top }
{
    match stack_size(regs) {
        Size::B4 => regs.gpr[STACK] = top,
        _ => {
            let old = regs.gpr[STACK];
            regs.gpr[STACK] = old - old % 0x1_0000 + top;
        }
    }
}

/// A number pushed. The stack pointer moves after the last check.
#[tactic(auto, using(mdl_state::specs::Rules::attempts), unfolding(mdl_cpu::specs::Stack::push_plan))]
pub fn push<L: Linear>(regs: &mut Regs, lin: &mut L, size: Size, value: u32) -> Result<(), Fault>
    requires bound { value < bound_of size }
    requires room { HasRoom (L.seen lin.old) (bytes_of size) }
    ensures run { (answered result regs.new, L.seen lin.new)
        ≡ tried (by_pick L.pick) 0 (push_plan regs.old size value) (L.seen lin.old) }
    ensures unchanged { OnErr result (regs.new ≡ regs.old) }
    ensures keeps { Keeps (L.seen lin.old) (L.seen lin.new) }
    ensures room { OnOk result (length (L.seen lin.new).held ≡ length (L.seen lin.old).held + bytes_of size) }
    ensures refused { OnErr result ((L.seen lin.new).held ≡ (L.seen lin.old).held) }
{
    let top = below_top(regs, bytes_of(size));
    store(regs, lin, Seg::Ss, top, size, value)?;
    set_top(regs, top);
    Ok(())
}

/// A number popped.
#[tactic(auto, using(mdl_state::specs::Rules::attempts), unfolding(mdl_cpu::specs::Stack::pop_plan))]
pub fn pop<L: Linear>(regs: &mut Regs, lin: &mut L, size: Size) -> Result<u32, Fault>
    ensures run { (popped result regs.new, L.seen lin.new)
        ≡ tried (by_pick L.pick) 0 (pop_plan regs.old size) (L.seen lin.old) }
    ensures bound { IfOk result (λ value. value < bound_of size) }
    ensures unchanged { OnErr result (regs.new ≡ regs.old) }
    ensures keeps { Keeps (L.seen lin.old) (L.seen lin.new) }
    ensures held { (L.seen lin.new).held ≡ (L.seen lin.old).held }
{
    let value = load(regs, lin, Seg::Ss, stack_top(regs), size)?;
    let top = above_top(regs, bytes_of(size));
    set_top(regs, top);
    Ok(value)
}
