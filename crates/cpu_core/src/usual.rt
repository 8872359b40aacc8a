//! One instruction of a processor that is calm: most leave nothing more to be done.

ghost use Rattle.std.specs.Prelude.{◌≡◌, ℕ, Bool, true, false, List, Ok};
ghost use Rattle.mdl_insn.specs.Spelling.{Spelt};
ghost use Rattle.mdl_effect.specs.DataEffects.{runs_data};
ghost use Rattle.mdl_effect.specs.FlowEffects.{runs_flow};
ghost use Rattle.mdl_effect.specs.StringEffects.{runs_string};
ghost use Rattle.mem_iface.specs.Rules.{rules_of};
ghost use Rattle.operands.specs.Whole.{whole};
ghost use Rattle.cpu_core.specs.Families.{is_port_string};
ghost use Rattle.cpu_core.specs.Plain.{IsSettled};
ghost use Rattle.cpu_core.specs.Ran.{marked, ended};
ghost use Rattle.cpu_core.specs.Ends.{ended_by, left_behind, Ends};

use crate::code::Code;
use crate::dispatch::{Ran, run_data, run_data_kind, run_flow, run_flow_kind, run_string};
use crate::execute::{execute, land};
use exec_data::{Changes, Comparisons, DataKind, Moves, Shifts, Sums, runs_data};
use exec_flow::{Calls, FlowKind, Jumps, Returns, runs_flow};
use lazy_flags::Flags;
use mdl_insn::{Insn, Op};
use mdl_state::{Fault, Next, Regs};
use mem_iface::{Linear, Ports};

/// How an instruction ended. A usual one stood alone and left the registers as they are behind it: EIP goes
/// on, or was set. Behind any other `rest` is still to be done.
#[derive(Clone, Copy)]
pub(crate) struct Ended {
    pub(crate) usual: bool,
    pub(crate) rest: Result<Ran, Fault>,
}

/// An instruction that was usual.
#[inline(always)]
fn usual(next: Next) -> Ended
    ensures { result ≡ record { usual = true; rest = Ok (record { next = next; alone = true }) } }
{
    Ended {
        usual: true,
        rest: Ok(Ran { next, alone: true }),
    }
}

/// One that was not.
#[inline(always)]
fn other(rest: Result<Ran, Fault>) -> Ended
    ensures { result ≡ record { usual = false; rest = rest } }
{
    Ended { usual: false, rest }
}

/// Ends an instruction that stands alone. What mostly follows comes first, and once for each family of
/// mnemonics, so that no answer is put down and asked for again.
#[inline(always)]
fn end<L: Linear>(
    regs: &mut Regs,
    lin: &mut L,
    op: Op,
    answer: Result<Next, Fault>,
    back: u32,
) -> Ended
    ensures ends { result ≡ ended_by answer }
    ensures regs { (flags : ℕ) → whole regs.new flags ≡ left_behind op answer back (whole regs.old flags) }
    ensures memory { L.seen lin.new ≡ ended (marked answer true) (L.seen lin.old) }
    ensures a20 { (L.seen lin.new).physical.a20 ≡ (L.seen lin.old).physical.a20 }
{
    match answer {
        Ok(next) => match next {
            Next::Follow => {
                lin.commit();
                land(regs, op, Next::Follow, back);
                usual(Next::Follow)
            }
            Next::Landed => {
                lin.commit();
                land(regs, op, Next::Landed, back);
                usual(Next::Landed)
            }
            Next::Again => {
                lin.commit();
                land(regs, op, Next::Again, back);
                usual(Next::Again)
            }
            _ => {
                lin.commit();
                other(Ok(Ran { next, alone: true }))
            }
        },
        Err(fault) => {
            lin.discard();
            other(Err(fault))
        }
    }
}

/// A data instruction.
#[inline(always)]
fn end_data<L: Linear, P: Ports>(
    regs: &mut Regs,
    flags: &mut Flags,
    lin: &mut L,
    ports: &P,
    insn: &Insn,
    back: u32,
) -> Ended
    requires runs { runs_data insn.now ≡ true }
    requires spelt { (bytes : List ℕ) × (big : Bool) × Spelt bytes big insn.now }
    requires ready { IsSettled (whole regs.old flags.old) (L.seen lin.old) }
    ensures ends { Ends (rules_of P.Ports) L.pick insn.now (whole regs.old flags.old) back (L.seen lin.old) ports.now result (whole regs.new flags.new) (L.seen lin.new) ports.now }
    ensures a20 { (L.seen lin.new).physical.a20 ≡ (L.seen lin.old).physical.a20 }
{
    let answer = run_data(regs, flags, lin, ports, insn, back);
    end(regs, lin, insn.op, answer, back)
}

/// One of a kind.
#[inline(always)]
fn end_data_kind<K: DataKind, L: Linear, P: Ports>(
    regs: &mut Regs,
    flags: &mut Flags,
    lin: &mut L,
    ports: &P,
    insn: &Insn,
    back: u32,
) -> Ended
    requires kind { K.takes insn.now.op ≡ true }
    requires runs { runs_data insn.now ≡ true }
    requires spelt { (bytes : List ℕ) × (big : Bool) × Spelt bytes big insn.now }
    requires ready { IsSettled (whole regs.old flags.old) (L.seen lin.old) }
    ensures ends { Ends (rules_of P.Ports) L.pick insn.now (whole regs.old flags.old) back (L.seen lin.old) ports.now result (whole regs.new flags.new) (L.seen lin.new) ports.now }
    ensures a20 { (L.seen lin.new).physical.a20 ≡ (L.seen lin.old).physical.a20 }
{
    let answer = run_data_kind::<K, L, P>(regs, flags, lin, ports, insn, back);
    end(regs, lin, insn.op, answer, back)
}

/// An instruction of near flow, the stack or the flags.
#[inline(always)]
fn end_flow<L: Linear, P: Ports>(
    regs: &mut Regs,
    flags: &mut Flags,
    lin: &mut L,
    ports: &P,
    insn: &Insn,
    back: u32,
) -> Ended
    requires runs { runs_flow insn.now ≡ true }
    requires spelt { (bytes : List ℕ) × (big : Bool) × Spelt bytes big insn.now }
    requires ready { IsSettled (whole regs.old flags.old) (L.seen lin.old) }
    ensures ends { Ends (rules_of P.Ports) L.pick insn.now (whole regs.old flags.old) back (L.seen lin.old) ports.now result (whole regs.new flags.new) (L.seen lin.new) ports.now }
    ensures a20 { (L.seen lin.new).physical.a20 ≡ (L.seen lin.old).physical.a20 }
{
    let answer = run_flow(regs, flags, lin, ports, insn, back);
    end(regs, lin, insn.op, answer, back)
}

/// One of a kind.
#[inline(always)]
fn end_flow_kind<K: FlowKind, L: Linear, P: Ports>(
    regs: &mut Regs,
    flags: &mut Flags,
    lin: &mut L,
    ports: &P,
    insn: &Insn,
    back: u32,
) -> Ended
    requires kind { K.takes insn.now.op ≡ true }
    requires runs { runs_flow insn.now ≡ true }
    requires spelt { (bytes : List ℕ) × (big : Bool) × Spelt bytes big insn.now }
    requires ready { IsSettled (whole regs.old flags.old) (L.seen lin.old) }
    ensures ends { Ends (rules_of P.Ports) L.pick insn.now (whole regs.old flags.old) back (L.seen lin.old) ports.now result (whole regs.new flags.new) (L.seen lin.new) ports.now }
    ensures a20 { (L.seen lin.new).physical.a20 ≡ (L.seen lin.old).physical.a20 }
{
    let answer = run_flow_kind::<K, L, P>(regs, flags, lin, ports, insn, back);
    end(regs, lin, insn.op, answer, back)
}

/// A string instruction that uses no port.
#[inline(always)]
fn end_string<L: Linear, P: Ports>(
    regs: &mut Regs,
    flags: &mut Flags,
    lin: &mut L,
    ports: &mut P,
    insn: &Insn,
    back: u32,
) -> Ended
    requires runs { runs_string insn.now.op ≡ true }
    requires portless { is_port_string insn.now.op ≡ false }
    requires spelt { (bytes : List ℕ) × (big : Bool) × Spelt bytes big insn.now }
    requires ready { IsSettled (whole regs.old flags.old) (L.seen lin.old) }
    ensures ends { Ends (rules_of P.Ports) L.pick insn.now (whole regs.old flags.old) back (L.seen lin.old) ports.old result (whole regs.new flags.new) (L.seen lin.new) ports.new }
    ensures a20 { (L.seen lin.new).physical.a20 ≡ (L.seen lin.old).physical.a20 }
{
    let answer = run_string(regs, flags, lin, ports, insn, back);
    end(regs, lin, insn.op, answer, back)
}

/// Any instruction.
#[inline(always)]
fn end_any<L: Linear, P: Ports>(
    regs: &mut Regs,
    flags: &mut Flags,
    lin: &mut L,
    ports: &mut P,
    insn: &Insn,
    back: u32,
) -> Ended
    requires spelt { (bytes : List ℕ) × (big : Bool) × Spelt bytes big insn.now }
    requires ready { IsSettled (whole regs.old flags.old) (L.seen lin.old) }
    ensures ends { Ends (rules_of P.Ports) L.pick insn.now (whole regs.old flags.old) back (L.seen lin.old) ports.old result (whole regs.new flags.new) (L.seen lin.new) ports.new }
    ensures a20 { (L.seen lin.new).physical.a20 ≡ (L.seen lin.old).physical.a20 }
{
    other(execute(regs, flags, lin, ports, insn, back))
}

/// Executes an instruction. Those of most programs come at once, each kind for itself. `back` is the EIP
/// behind it.
#[rattlefmt::skip]
#[tactic(auto, using(crate::proofs::Arithmetic::arithmetic_runs))]
#[inline(always)]
pub(crate) fn execute_usual<L: Linear, P: Ports>(
    regs: &mut Regs,
    flags: &mut Flags,
    code: &mut Code<L>,
    ports: &mut P,
    insn: &Insn,
    back: u32,
) -> Ended
    requires spelt { (bytes : List ℕ) × (big : Bool) × Spelt bytes big insn.now }
    requires ready { IsSettled (whole regs.old flags.old) (L.seen code.old.lin) }
    ensures ends { Ends (rules_of P.Ports) L.pick insn.now (whole regs.old flags.old) back (L.seen code.old.lin) ports.old result (whole regs.new flags.new) (L.seen code.new.lin) ports.new }
    ensures a20 { (L.seen code.new.lin).physical.a20 ≡ (L.seen code.old.lin).physical.a20 }
{
    match insn.op {
        Op::Mov => if runs_data(insn) {
            return end_data_kind::<Moves, L, P>(regs, flags, &mut code.lin, ports, insn, back);
        }
        Op::Add | Op::Or | Op::Adc | Op::Sbb | Op::And | Op::Sub | Op::Xor => {
            return end_data_kind::<Sums, L, P>(regs, flags, &mut code.lin, ports, insn, back);
        }
        Op::Cmp | Op::Test => return end_data_kind::<Comparisons, L, P>(regs, flags, &mut code.lin, ports, insn, back),
        Op::Inc | Op::Dec | Op::Neg | Op::Not => {
            return end_data_kind::<Changes, L, P>(regs, flags, &mut code.lin, ports, insn, back);
        }
        Op::Shl | Op::Shr | Op::Sar => return end_data_kind::<Shifts, L, P>(regs, flags, &mut code.lin, ports, insn, back),
        Op::Setcc(_) => return end_data_kind::<exec_data::Conditions, L, P>(regs, flags, &mut code.lin, ports, insn, back),
        Op::Movzx | Op::Movsx => return end_data(regs, flags, &mut code.lin, ports, insn, back),
        Op::Jmp => return end_flow_kind::<Jumps, L, P>(regs, flags, &mut code.lin, ports, insn, back),
        Op::Jcc(_) => return end_flow_kind::<exec_flow::Conditions, L, P>(regs, flags, &mut code.lin, ports, insn, back),
        Op::Call => return end_flow_kind::<Calls, L, P>(regs, flags, &mut code.lin, ports, insn, back),
        Op::Ret => return end_flow_kind::<Returns, L, P>(regs, flags, &mut code.lin, ports, insn, back),
        Op::Loop | Op::Push => return end_flow(regs, flags, &mut code.lin, ports, insn, back),
        Op::Pop => if runs_flow(insn) {
            return end_flow(regs, flags, &mut code.lin, ports, insn, back);
        }
        Op::Movs | Op::Cmps | Op::Stos | Op::Lods | Op::Scas => {
            return end_string(regs, flags, &mut code.lin, ports, insn, back);
        }
        _ => {}
    }
    end_any(regs, flags, code, ports, insn, back)
}
