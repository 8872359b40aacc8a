//! The stack of an inner level, and what goes onto it from the old one.

ghost use Rattle.std.specs.Prelude.{◌≡◌, ◌≢◌, ◌≤◌, ◌<◌, ◌+◌, ◌*◌, ◌^◌, length};
ghost use Rattle.mdl_state.specs.declared.Size.TheVariants.{B1};
ghost use Rattle.mdl_state.specs.Bytes.{bound_of};
ghost use Rattle.mdl_state.specs.Registers.{reg_of};
ghost use Rattle.mdl_state.specs.Serving.{by_pick};
ghost use Rattle.mdl_state.specs.Accesses.{Keeps, HasRoom};
ghost use Rattle.mdl_state.specs.Attempt.{tried};
ghost use Rattle.mdl_cpu.specs.Faults.{first_of};
ghost use Rattle.mdl_cpu.specs.Loads.{answered};
ghost use Rattle.mdl_cpu.specs.TaskSegments.{level_end, level_rows, level_stack_plan};
ghost use Rattle.mdl_cpu.specs.InnerStacks.{on_stack, inner_stack_plan, push_stack_plan, parameter_plan, parameters_plan};
ghost use Rattle.gate_transfer.specs.Ways.{level_stack_of, turned};

use desc_load::{fault_at, has_wide_tss, hidden_of, stack_descriptor};
use mdl_cpu::{Desc, StackSegment};
use mdl_state::{Fault, Regs, Seg, Size, Who};
use mem_iface::{Linear, bytes_of};
use seg_unit::{above_top, load, push, segment, set_segment};

/// The vector of an invalid TSS.
const INVALID_TSS: u8 = 10;

/// The number of ESP among the general registers.
const ESP: usize = 4;

/// ESP and SS as a TSS has them for a level.
#[derive(Clone, Copy)]
pub(crate) struct LevelStack {
    pub(crate) esp: u32,
    pub(crate) selector: u16,
}

/// Where the last byte of SS of a level lies in a TSS.
fn level_end(wide: bool, level: u8) -> u32
    ensures { result ≡ level_end wide level }
{
    if wide {
        8 * level as u32 + 9
    } else {
        4 * level as u32 + 5
    }
}

/// The TSS has a stack for the level.
fn level_rows(regs: &Regs, level: u8) -> Result<(), Fault>
    ensures { result ≡ first_of (level_rows regs.now level) }
{
    if regs.tr.limit < level_end(has_wide_tss(regs), level) {
        return Err(fault_at(INVALID_TSS, regs.tr.sel));
    }
    Ok(())
}

/// ESP and SS of a level, from the TSS.
#[tactic(auto, unfolding(mdl_cpu::specs::TaskSegments::level_stack_plan))]
fn level_stack<L: Linear>(regs: &Regs, lin: &mut L, level: u8) -> Result<LevelStack, Fault>
    ensures run { (level_stack_of result, L.seen lin.new)
        ≡ tried (by_pick L.pick) 0 (level_stack_plan regs.now level) (L.seen lin.old) }
    ensures held { (L.seen lin.new).held ≡ (L.seen lin.old).held }
    ensures keeps { Keeps (L.seen lin.old) (L.seen lin.new) }
{
    level_rows(regs, level)?;
    let base = regs.tr.base;
    let level = level as u32;
    if has_wide_tss(regs) {
        let esp = lin.read(base.wrapping_add(8 * level + 4), Size::B4, Who::Tables)?;
        let selector = lin.read(base.wrapping_add(8 * level + 8), Size::B2, Who::Tables)? as u16;
        Ok(LevelStack { esp, selector })
    } else {
        let esp = lin.read(base.wrapping_add(4 * level + 2), Size::B2, Who::Tables)?;
        let selector = lin.read(base.wrapping_add(4 * level + 4), Size::B2, Who::Tables)? as u16;
        Ok(LevelStack { esp, selector })
    }
}

/// The registers turned to a level and its stack.
#[tactic(auto, unfolding(mdl_cpu::specs::InnerStacks::on_stack))]
fn turn_to(regs: &mut Regs, level: u8, esp: u32, selector: u16, desc: &Desc)
    ensures { regs.new ≡ on_stack regs.old level (record { esp = esp; selector = selector }) desc.now }
{
    regs.cpl = level;
    regs.gpr[ESP] = esp;
    set_segment(regs, Seg::Ss, hidden_of(selector, desc));
}

/// The registers turned to the stack of an inner level, which is tested first.
#[tactic(auto, using(mdl_state::specs::Rules::attempts), unfolding(mdl_cpu::specs::InnerStacks::inner_stack_plan))]
pub(crate) fn turn_inward<L: Linear>(
    regs: &mut Regs,
    lin: &mut L,
    level: u8,
) -> Result<StackSegment, Fault>
    ensures run { (turned result regs.new, L.seen lin.new)
        ≡ tried (by_pick L.pick) 0 (inner_stack_plan regs.old level) (L.seen lin.old) }
    ensures held { (L.seen lin.new).held ≡ (L.seen lin.old).held }
    ensures keeps { Keeps (L.seen lin.old) (L.seen lin.new) }
{
    let stack = level_stack(regs, lin, level)?;
    let selector = stack.selector;
    let desc = stack_descriptor(regs, lin, selector, level, INVALID_TSS)?;
    turn_to(regs, level, stack.esp, selector, &desc);
    Ok(StackSegment { selector, desc })
}

/// ESP or SP.
#[tactic(auto, unfolding(mdl_state::specs::Registers::reg_of))]
fn stack_pointer(regs: &Regs, size: Size) -> u32
    requires size { size ≢ B1 }
    ensures value { result ≡ reg_of regs.now 4 size }
    ensures bound { result < bound_of size }
{
    match size {
        Size::B4 => regs.gpr[ESP],
        _ => regs.gpr[ESP] % 0x1_0000,
    }
}

/// SS and ESP of the old stack pushed on the new one.
#[tactic(auto, using(mdl_state::specs::Rules::attempts), unfolding(mdl_cpu::specs::InnerStacks::push_stack_plan))]
pub(crate) fn push_stack<L: Linear>(
    regs: &mut Regs,
    lin: &mut L,
    old: &Regs,
    size: Size,
) -> Result<(), Fault>
    requires size { size ≢ B1 }
    requires room { HasRoom (L.seen lin.old) 8 }
    ensures run { (answered result regs.new, L.seen lin.new)
        ≡ tried (by_pick L.pick) 0 (push_stack_plan old.now regs.old size) (L.seen lin.old) }
    ensures room { length (L.seen lin.new).held ≤ length (L.seen lin.old).held + 8 }
    ensures keeps { Keeps (L.seen lin.old) (L.seen lin.new) }
{
    let selector = segment(old, Seg::Ss).sel as u32;
    push(regs, lin, size, selector)?;
    push(regs, lin, size, stack_pointer(old, size))
}

/// One parameter, from the old stack to the new one.
#[tactic(auto, using(mdl_state::specs::Rules::attempts), unfolding(mdl_cpu::specs::InnerStacks::parameter_plan))]
fn copy_parameter<L: Linear>(
    regs: &mut Regs,
    lin: &mut L,
    n: u32,
    old: &Regs,
    size: Size,
) -> Result<(), Fault>
    requires number { n < 2 ^ 5 }
    requires room { HasRoom (L.seen lin.old) 4 }
    ensures run { (answered result regs.new, L.seen lin.new)
        ≡ tried (by_pick L.pick) 0 (parameter_plan n old.now regs.old size) (L.seen lin.old) }
    ensures room { length (L.seen lin.new).held ≤ length (L.seen lin.old).held + 4 }
    ensures keeps { Keeps (L.seen lin.old) (L.seen lin.new) }
{
    let value = load(old, lin, Seg::Ss, above_top(old, n * bytes_of(size)), size)?;
    push(regs, lin, size, value)
}

/// The parameters, that of the highest address first.
#[tactic(auto, using(crate::proofs::Parameters::parameters))]
pub(crate) fn copy_parameters<L: Linear>(
    regs: &mut Regs,
    lin: &mut L,
    count: u32,
    old: &Regs,
    size: Size,
) -> Result<(), Fault>
    requires number { count < 2 ^ 5 }
    requires room { HasRoom (L.seen lin.old) (count * 4) }
    ensures run { (answered result regs.new, L.seen lin.new)
        ≡ tried (by_pick L.pick) 0 (parameters_plan count old.now regs.old size) (L.seen lin.old) }
    ensures room { length (L.seen lin.new).held ≤ length (L.seen lin.old).held + count * 4 }
    ensures keeps { Keeps (L.seen lin.old) (L.seen lin.new) }
{
    let mut left = count;
    while 0 < left {
        left -= 1;
        copy_parameter(regs, lin, left, old, size)?;
    }
    Ok(())
}
