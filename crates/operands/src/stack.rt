//! The stack: numbers on it and off it. SS:SP, or SS:ESP where protected mode's SS has B set.

ghost use Rattle.std.specs.Prelude.{◌≡◌, ◌<◌, ◌≤◌, ◌+◌, ◌^◌, ℕ, length, IfOk, OnOk, OnErr};
ghost use Rattle.mdl_state.specs.Bytes.{bytes_of, bound_of};
ghost use Rattle.mdl_state.specs.Serving.{by_pick};
ghost use Rattle.mdl_state.specs.Accesses.{Keeps, HasRoom};
ghost use Rattle.mdl_state.specs.Attempt.{tried};
ghost use Rattle.mdl_cpu.specs.Loads.{answered};
ghost use Rattle.mdl_cpu.specs.Stack.{stack_size, stack_top, with_top, above_top, below_top, push_plan, pop_plan};
ghost use Rattle.operands.specs.Whole.{whole, KeepsOther};
ghost use Rattle.seg_unit.specs.Stack.{popped};

use crate::memory::{load, store};
use crate::registers::{STACK, reg, set_reg};
use mdl_num::{bound, low};
use mdl_state::{Fault, Regs, Seg, Size};
use mem_iface::{Linear, bytes_of};

/// The size of the stack pointer: that of ESP or of SP.
#[tactic(auto, using(crate::proofs::Modes::modes))]
#[inline(always)]
pub fn stack_size(regs: &Regs) -> Size
    ensures own { result ≡ stack_size regs.now }
    ensures value { (flags : ℕ) → result ≡ stack_size (whole regs.now flags) }
    ensures least { 2 ^ 16 ≤ bound_of result }
{
    seg_unit::stack_size(regs)
}

/// The stack pointer.
#[inline(always)]
pub fn stack_top(regs: &Regs) -> u32
    ensures { (flags : ℕ) → result ≡ stack_top (whole regs.now flags) }
{
    reg(regs, STACK, stack_size(regs))
}

/// So many bytes above the stack pointer, to which a pop moves it.
#[inline(always)]
pub fn above_top(regs: &Regs, bytes: u32) -> u32
    ensures value { (flags : ℕ) → result ≡ above_top (whole regs.now flags) bytes }
    ensures bound { result < bound_of (stack_size regs.now) }
{
    low(stack_top(regs) as u64 + bytes as u64, stack_size(regs))
}

/// So many bytes below the stack pointer, to which a push moves it.
#[inline(always)]
pub fn below_top(regs: &Regs, bytes: u32) -> u32
    requires { bytes ≤ 2 ^ 16 }
    ensures value { (flags : ℕ) → result ≡ below_top (whole regs.now flags) bytes }
    ensures bound { result < bound_of (stack_size regs.now) }
{
    let size = stack_size(regs);
    low(stack_top(regs) as u64 + (bound(size) - bytes as u64), size)
}

/// Sets the stack pointer.
#[inline(always)]
pub fn set_top(regs: &mut Regs, top: u32)
    requires { top < bound_of (stack_size regs.old) }
    ensures value { (flags : ℕ) → whole regs.new flags ≡ with_top (whole regs.old flags) top }
    ensures kept { KeepsOther regs.old regs.new }
{
    set_reg(regs, STACK, stack_size(regs), top);
}

/// PUSH of a number. The stack pointer moves after the last check.
#[tactic(auto, using(mdl_state::specs::Rules::attempts), unfolding(mdl_cpu::specs::Stack::push_plan))]
#[inline(always)]
pub fn push<L: Linear>(regs: &mut Regs, lin: &mut L, size: Size, value: u32) -> Result<(), Fault>
    requires bound { value < bound_of size }
    requires room { HasRoom (L.seen lin.old) (bytes_of size) }
    ensures run { (flags : ℕ) → (answered result (whole regs.new flags), L.seen lin.new)
        ≡ tried (by_pick L.pick) 0 (push_plan (whole regs.old flags) size value) (L.seen lin.old) }
    ensures kept { KeepsOther regs.old regs.new }
    ensures unchanged { OnErr result (regs.new ≡ regs.old) }
    ensures keeps { Keeps (L.seen lin.old) (L.seen lin.new) }
    ensures room { OnOk result (length (L.seen lin.new).held ≡ length (L.seen lin.old).held + bytes_of size) }
    ensures refused { OnErr result ((L.seen lin.new).held ≡ (L.seen lin.old).held) }
{
    let top = below_top(regs, bytes_of(size));
    store(regs, lin, Seg::Ss, top, size, value)?;
    set_top(regs, top);
    Ok(())
}

/// POP of a number.
#[tactic(auto, using(mdl_state::specs::Rules::attempts), unfolding(mdl_cpu::specs::Stack::pop_plan))]
#[inline(always)]
pub fn pop<L: Linear>(regs: &mut Regs, lin: &mut L, size: Size) -> Result<u32, Fault>
    ensures run { (flags : ℕ) → (popped result (whole regs.new flags), L.seen lin.new)
        ≡ tried (by_pick L.pick) 0 (pop_plan (whole regs.old flags) size) (L.seen lin.old) }
    ensures bound { IfOk result (λ value. value < bound_of size) }
    ensures kept { KeepsOther regs.old regs.new }
    ensures unchanged { OnErr result (regs.new ≡ regs.old) }
    ensures keeps { Keeps (L.seen lin.old) (L.seen lin.new) }
    ensures held { (L.seen lin.new).held ≡ (L.seen lin.old).held }
{
    let value = load(regs, lin, Seg::Ss, stack_top(regs), size)?;
    set_top(regs, above_top(regs, bytes_of(size)));
    Ok(value)
}
