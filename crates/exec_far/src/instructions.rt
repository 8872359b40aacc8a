//! One instruction, by its mnemonic.

ghost use Rattle.std.specs.Prelude.{◌≡◌, ◌≢◌, ◌≤◌, ◌||◌, ℕ, Bool, List, [], IsTrue, true, false, IfOk, OnErr};
ghost use Rattle.mdl_insn.specs.Spelling.{Spelt};
ghost use Rattle.mdl_state.specs.declared.Size.TheVariants.{B1, B2};
ghost use Rattle.mdl_state.specs.Serving.{by_pick};
ghost use Rattle.mdl_state.specs.Accesses.{Keeps, KeepsPhysical};
ghost use Rattle.mdl_state.specs.Attempt.{tried};
ghost use Rattle.mdl_cpu.specs.Addresses.{HasAddress};
ghost use Rattle.mdl_cpu.specs.Segments.{has_protection};
ghost use Rattle.mdl_cpu.specs.Steady.{Agree, IsSound, StaysSound};
ghost use Rattle.mdl_cpu.specs.Deliveries.{KeepsWatch};
ghost use Rattle.mdl_cpu.specs.Transfers.{IfSwitch};
ghost use Rattle.mdl_cpu.specs.Switch.{left};
ghost use Rattle.mdl_cpu.specs.declared.Outcome.TheVariants.{Done};
ghost use Rattle.mdl_state.specs.declared.Regs.{Regs as Registers};
ghost use Rattle.mdl_effect.specs.Operands.{is_nothing, value_of};
ghost use Rattle.mdl_effect.specs.FarEffects.{is_far, runs_far, names_task, far_call_plan, far_jump_plan, far_return_plan, iret_plan, far_transfer, far_run};
ghost use Rattle.mdl_effect.specs.Kinds.{is_number, is_far_target};
ghost use Rattle.mdl_effect.specs.Forms.{IsOf, IsFormed};
ghost use Rattle.operands.specs.Whole.{ran};
ghost use Rattle.exec_far.specs.Arrivals.{Arrives, StaysInMode, IsOfEitherTask};
ghost use Rattle.exec_far.specs.Transfers.{far_transferred};

use crate::pointers::target;
use crate::tasks::{enter_task, far_request};
use gate_transfer::{Outcome, call_far, interrupt_return, jump_far, return_far};
use mdl_insn::{Insn, Op, Operand};
use mdl_state::{Fault, Next, Regs};
use mem_iface::Linear;

fn is_far(op: Op) -> bool
    ensures { result ≡ is_far op }
{
    match op {
        Op::Callf | Op::Jmpf | Op::Retf | Op::Iret => true,
        _ => false,
    }
}

/// Whether `run` runs an instruction.
pub fn runs_far(insn: &Insn) -> bool
    ensures { result ≡ runs_far insn.now }
{
    is_far(insn.op)
}

/// What the transfer of an instruction comes to, and whether its own selector names the task that it
/// leads to.
#[derive(Clone, Copy)]
pub(crate) struct Far {
    pub(crate) outcome: Outcome,
    pub(crate) direct: bool,
}

/// Whether a selector names the task that a transfer leads to.
fn names_task(selector: u16, outcome: Outcome) -> bool
    ensures { result ≡ names_task selector outcome }
{
    match outcome {
        Outcome::Done => false,
        Outcome::Switch(task) => task == selector,
    }
}

/// CALL to a selector and an offset.
#[tactic(auto, using(mdl_state::specs::Rules::attempts), unfolding(mdl_effect::specs::FarEffects::far_call_plan))]
fn call<L: Linear>(regs: &mut Regs, lin: &mut L, insn: &Insn, back: u32) -> Result<Far, Fault>
    requires level { has_protection regs.old ≡ true → regs.old.cpl ≤ 3 }
    requires size { insn.now.size ≢ B1 }
    requires target { is_far_target insn.now.a ≡ true }
    requires address { HasAddress insn.now.a }
    requires held { (L.seen lin.old).held ≡ [] }
    ensures run { (far_transferred result regs.new, L.seen lin.new)
        ≡ tried (by_pick L.pick) 0 (far_call_plan insn.now regs.old back) (L.seen lin.old) }
    ensures real { has_protection regs.old ≡ false → IfOk result (λ far. far.outcome ≡ Done) }
    ensures switched { IfOk result (λ far. IfSwitch far.outcome (regs.new ≡ regs.old)) }
    ensures stays { StaysSound regs.old regs.new }
    ensures unchanged { OnErr result (regs.new ≡ regs.old) }
    ensures keeps { Keeps (L.seen lin.old) (L.seen lin.new) }
{
    let to = target(regs, lin, insn)?;
    let outcome = call_far(regs, lin, to.selector, to.offset, insn.size, back)?;
    let direct = names_task(to.selector, outcome);
    Ok(Far { outcome, direct })
}

/// JMP to a selector and an offset.
#[tactic(auto, using(mdl_state::specs::Rules::attempts), unfolding(mdl_effect::specs::FarEffects::far_jump_plan))]
fn jump<L: Linear>(regs: &mut Regs, lin: &mut L, insn: &Insn) -> Result<Far, Fault>
    requires level { has_protection regs.old ≡ true → regs.old.cpl ≤ 3 }
    requires held { (L.seen lin.old).held ≡ [] }
    requires target { is_far_target insn.now.a ≡ true }
    requires address { HasAddress insn.now.a }
    ensures run { (far_transferred result regs.new, L.seen lin.new)
        ≡ tried (by_pick L.pick) 0 (far_jump_plan insn.now regs.old) (L.seen lin.old) }
    ensures real { has_protection regs.old ≡ false → IfOk result (λ far. far.outcome ≡ Done) }
    ensures switched { IfOk result (λ far. IfSwitch far.outcome (regs.new ≡ regs.old)) }
    ensures stays { StaysSound regs.old regs.new }
    ensures unchanged { OnErr result (regs.new ≡ regs.old) }
    ensures keeps { Keeps (L.seen lin.old) (L.seen lin.new) }
{
    let to = target(regs, lin, insn)?;
    let outcome = jump_far(regs, lin, to.selector, to.offset, insn.size)?;
    let direct = names_task(to.selector, outcome);
    Ok(Far { outcome, direct })
}

/// How many bytes more RETF takes off the stack.
fn dropped(operand: &Operand) -> u16
    requires form { IsOf B2 operand.now }
    requires immediate { (is_number operand.now || is_nothing operand.now) ≡ true }
    ensures { (r : Registers) → result ≡ value_of r operand.now }
{
    match operand {
        Operand::Imm(bytes, _) => *bytes as u16,
        _ => 0,
    }
}

/// RETF.
#[tactic(auto, using(mdl_state::specs::Rules::attempts), unfolding(mdl_effect::specs::FarEffects::far_return_plan))]
fn return_to<L: Linear>(regs: &mut Regs, lin: &mut L, insn: &Insn) -> Result<Far, Fault>
    requires held { (L.seen lin.old).held ≡ [] }
    requires form { IsOf B2 insn.now.a }
    requires immediate { (is_number insn.now.a || is_nothing insn.now.a) ≡ true }
    ensures run { (far_transferred result regs.new, L.seen lin.new)
        ≡ tried (by_pick L.pick) 0 (far_return_plan insn.now regs.old) (L.seen lin.old) }
    ensures real { has_protection regs.old ≡ false → IfOk result (λ far. far.outcome ≡ Done) }
    ensures switched { IfOk result (λ far. IfSwitch far.outcome (regs.new ≡ regs.old)) }
    ensures stays { StaysSound regs.old regs.new }
    ensures unchanged { OnErr result (regs.new ≡ regs.old) }
    ensures keeps { Keeps (L.seen lin.old) (L.seen lin.new) }
{
    return_far(regs, lin, insn.size, dropped(&insn.a))?;
    Ok(Far {
        outcome: Outcome::Done,
        direct: false,
    })
}

/// IRET.
#[tactic(auto, using(mdl_state::specs::Rules::attempts), unfolding(mdl_effect::specs::FarEffects::iret_plan))]
fn return_from_interrupt<L: Linear>(regs: &mut Regs, lin: &mut L, insn: &Insn) -> Result<Far, Fault>
    requires held { (L.seen lin.old).held ≡ [] }
    ensures run { (far_transferred result regs.new, L.seen lin.new)
        ≡ tried (by_pick L.pick) 0 (iret_plan insn.now regs.old) (L.seen lin.old) }
    ensures real { has_protection regs.old ≡ false → IfOk result (λ far. far.outcome ≡ Done) }
    ensures switched { IfOk result (λ far. IfSwitch far.outcome (regs.new ≡ regs.old)) }
    ensures stays { StaysSound regs.old regs.new }
    ensures unchanged { OnErr result (regs.new ≡ regs.old) }
    ensures keeps { Keeps (L.seen lin.old) (L.seen lin.new) }
{
    let outcome = interrupt_return(regs, lin, insn.size)?;
    Ok(Far {
        outcome,
        direct: false,
    })
}

/// The transfer of an instruction whose operands have the form of its mnemonic.
#[tactic(auto, unfolding(mdl_effect::specs::FarEffects::far_transfer))]
fn transfer<L: Linear>(regs: &mut Regs, lin: &mut L, insn: &Insn, back: u32) -> Result<Far, Fault>
    requires runs { runs_far insn.now ≡ true }
    requires formed { IsFormed insn.now }
    requires address { HasAddress insn.now.a }
    requires level { has_protection regs.old ≡ true → regs.old.cpl ≤ 3 }
    requires held { (L.seen lin.old).held ≡ [] }
    ensures run { (far_transferred result regs.new, L.seen lin.new)
        ≡ tried (by_pick L.pick) 0 (far_transfer insn.now regs.old back) (L.seen lin.old) }
    ensures real { has_protection regs.old ≡ false → IfOk result (λ far. far.outcome ≡ Done) }
    ensures switched { IfOk result (λ far. IfSwitch far.outcome (regs.new ≡ regs.old)) }
    ensures stays { StaysSound regs.old regs.new }
    ensures unchanged { OnErr result (regs.new ≡ regs.old) }
    ensures keeps { Keeps (L.seen lin.old) (L.seen lin.new) }
{
    match insn.op {
        Op::Callf => call(regs, lin, insn, back),
        Op::Jmpf => jump(regs, lin, insn),
        Op::Retf => return_to(regs, lin, insn),
        Op::Iret => return_from_interrupt(regs, lin, insn),
        _ => unreachable!(),
    }
}

/// The whole instruction.
#[tactic(auto, unfolding(mdl_effect::specs::FarEffects::far_run))]
fn run_formed<L: Linear>(
    regs: &mut Regs,
    lin: &mut L,
    insn: &Insn,
    back: u32,
) -> Result<Next, Fault>
    requires runs { runs_far insn.now ≡ true }
    requires formed { IsFormed insn.now }
    requires address { HasAddress insn.now.a }
    requires sound { IsSound regs.old }
    requires tables { Agree regs.old (L.seen lin.old) }
    requires held { (L.seen lin.old).held ≡ [] }
    ensures run { left (ran result regs.new) regs.new (L.seen lin.new)
        ≡ far_run (by_pick L.pick) insn.now regs.old back (L.seen lin.old) }
    ensures sound { IsSound regs.new }
    ensures tables { Agree regs.new (L.seen lin.new) }
    ensures real { has_protection regs.old ≡ false → StaysInMode regs.old result regs.new }
    ensures unchanged { OnErr result (IsOfEitherTask regs.old regs.new) }
    ensures keeps { KeepsPhysical (L.seen lin.old).physical (L.seen lin.new).physical }
    ensures held { (L.seen lin.new).held ≡ [] }
    ensures follows { IfOk result Arrives }
{
    match transfer(regs, lin, insn, back) {
        Ok(far) => {
            lin.commit();
            match far.outcome {
                Outcome::Done => Ok(Next::Landed),
                Outcome::Switch(task) => {
                    let request = far_request(insn.op, task, far.direct, back);
                    enter_task(regs, lin, request)
                }
            }
        }
        Err(fault) => {
            lin.discard();
            Err(fault)
        }
    }
}

/// One of these instructions that some bytes spell, in every mode: the new place, or the T bit of the task
/// that was entered, or its fault. `back` is the EIP behind it.
///
/// EFLAGS has its status flags. All is placed, or dropped at a fault: a fault leaves the registers, unless it
/// is raised in a task that was entered, which then has its own.
pub fn run<L: Linear>(regs: &mut Regs, lin: &mut L, insn: &Insn, back: u32) -> Result<Next, Fault>
    requires spelt { (bytes : List ℕ) × (big : Bool) × Spelt bytes big insn.now }
    requires runs { IsTrue (runs_far insn.now) }
    requires sound { IsSound regs.old }
    requires tables { Agree regs.old (L.seen lin.old) }
    requires held { (L.seen lin.old).held ≡ [] }
    ensures run { left (ran result regs.new) regs.new (L.seen lin.new)
        ≡ far_run (by_pick L.pick) insn.now regs.old back (L.seen lin.old) }
    ensures sound { IsSound regs.new }
    ensures tables { Agree regs.new (L.seen lin.new) }
    ensures real { has_protection regs.old ≡ false → StaysInMode regs.old result regs.new }
    ensures unchanged { OnErr result (IsOfEitherTask regs.old regs.new) }
    ensures keeps { KeepsPhysical (L.seen lin.old).physical (L.seen lin.new).physical }
    ensures watch { KeepsWatch (L.seen lin.old) (L.seen lin.new) }
    ensures held { (L.seen lin.new).held ≡ [] }
    ensures follows { IfOk result Arrives }
{
    run_formed(regs, lin, insn, back)
}
