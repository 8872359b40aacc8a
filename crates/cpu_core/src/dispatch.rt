//! An instruction by the family of its mnemonic.

ghost use Rattle.std.specs.Prelude.{◌≡◌, ◌&&◌, ℕ, Bool, true, false, List, IsTrue, not};
ghost use Rattle.mdl_insn.specs.Spelling.{Spelt};
ghost use Rattle.mdl_effect.specs.DataEffects.{runs_data};
ghost use Rattle.mdl_effect.specs.FlowEffects.{runs_flow};
ghost use Rattle.mdl_effect.specs.StringEffects.{runs_string};
ghost use Rattle.mdl_effect.specs.FarEffects.{runs_far};
ghost use Rattle.mdl_effect.specs.SystemEffects.{runs_system};
ghost use Rattle.mem_iface.specs.Rules.{rules_of};
ghost use Rattle.operands.specs.Whole.{whole};
ghost use Rattle.cpu_core.specs.Families.{is_port_string};
ghost use Rattle.cpu_core.specs.Plain.{IsSettled};
ghost use Rattle.cpu_core.specs.Ran.{marked, Runs};

use exec_data::{DataKind, runs_data};
use exec_far::runs_far;
use exec_flow::{FlowKind, runs_flow};
use exec_system::runs_system;
use lazy_flags::Flags;
use mdl_insn::{Insn, Op};
use mdl_state::{Fault, Next, Regs};
use mem_iface::{Linear, Ports};
use operands::no_such;
use string_ops::runs_string;

/// What follows an instruction that ran, and whether it stands alone: it used no port, and left the
/// control registers that memory goes by.
#[derive(Clone, Copy)]
pub(crate) struct Ran {
    pub(crate) next: Next,
    pub(crate) alone: bool,
}

/// An answer with that mark.
#[inline(always)]
fn marked(answer: Result<Next, Fault>, alone: bool) -> Result<Ran, Fault>
    ensures { result ≡ marked answer alone }
{
    match answer {
        Ok(next) => Ok(Ran { next, alone }),
        Err(fault) => Err(fault),
    }
}

/// Whether it is INS or OUTS.
fn is_port_string(op: Op) -> bool
    ensures { result ≡ is_port_string op }
{
    match op {
        Op::Ins | Op::Outs => true,
        _ => false,
    }
}

/// A data instruction.
#[inline(always)]
pub(crate) fn run_data<L: Linear, P: Ports>(
    regs: &mut Regs,
    flags: &mut Flags,
    lin: &mut L,
    ports: &P,
    insn: &Insn,
    back: u32,
) -> Result<Next, Fault>
    requires spelt { (bytes : List ℕ) × (big : Bool) × Spelt bytes big insn.now }
    requires runs { runs_data insn.now ≡ true }
    requires ready { IsSettled (whole regs.old flags.old) (L.seen lin.old) }
    ensures { Runs (rules_of P.Ports) L.pick insn.now (whole regs.old flags.old) back (L.seen lin.old) ports.now (marked result true) (whole regs.new flags.new) (L.seen lin.new) ports.now }
{
    exec_data::run(regs, flags, lin, insn, back)
}

/// One of a kind.
#[inline(always)]
pub(crate) fn run_data_kind<K: DataKind, L: Linear, P: Ports>(
    regs: &mut Regs,
    flags: &mut Flags,
    lin: &mut L,
    ports: &P,
    insn: &Insn,
    back: u32,
) -> Result<Next, Fault>
    requires kind { K.takes insn.now.op ≡ true }
    requires spelt { (bytes : List ℕ) × (big : Bool) × Spelt bytes big insn.now }
    requires runs { runs_data insn.now ≡ true }
    requires ready { IsSettled (whole regs.old flags.old) (L.seen lin.old) }
    ensures { Runs (rules_of P.Ports) L.pick insn.now (whole regs.old flags.old) back (L.seen lin.old) ports.now (marked result true) (whole regs.new flags.new) (L.seen lin.new) ports.now }
{
    exec_data::run_kind::<K, L>(regs, flags, lin, insn)
}

/// An instruction of near flow, the stack or the flags.
#[inline(always)]
pub(crate) fn run_flow<L: Linear, P: Ports>(
    regs: &mut Regs,
    flags: &mut Flags,
    lin: &mut L,
    ports: &P,
    insn: &Insn,
    back: u32,
) -> Result<Next, Fault>
    requires spelt { (bytes : List ℕ) × (big : Bool) × Spelt bytes big insn.now }
    requires runs { runs_flow insn.now ≡ true }
    requires ready { IsSettled (whole regs.old flags.old) (L.seen lin.old) }
    ensures { Runs (rules_of P.Ports) L.pick insn.now (whole regs.old flags.old) back (L.seen lin.old) ports.now (marked result true) (whole regs.new flags.new) (L.seen lin.new) ports.now }
{
    exec_flow::run(regs, flags, lin, insn, back)
}

/// One of a kind.
#[inline(always)]
pub(crate) fn run_flow_kind<K: FlowKind, L: Linear, P: Ports>(
    regs: &mut Regs,
    flags: &mut Flags,
    lin: &mut L,
    ports: &P,
    insn: &Insn,
    back: u32,
) -> Result<Next, Fault>
    requires kind { K.takes insn.now.op ≡ true }
    requires spelt { (bytes : List ℕ) × (big : Bool) × Spelt bytes big insn.now }
    requires runs { runs_flow insn.now ≡ true }
    requires ready { IsSettled (whole regs.old flags.old) (L.seen lin.old) }
    ensures { Runs (rules_of P.Ports) L.pick insn.now (whole regs.old flags.old) back (L.seen lin.old) ports.now (marked result true) (whole regs.new flags.new) (L.seen lin.new) ports.now }
{
    exec_flow::run_kind::<K, L>(regs, flags, lin, insn, back)
}

/// A string instruction.
#[inline(always)]
pub(crate) fn run_string<L: Linear, P: Ports>(
    regs: &mut Regs,
    flags: &mut Flags,
    lin: &mut L,
    ports: &mut P,
    insn: &Insn,
    back: u32,
) -> Result<Next, Fault>
    requires spelt { (bytes : List ℕ) × (big : Bool) × Spelt bytes big insn.now }
    requires runs { runs_string insn.now.op ≡ true }
    requires ready { IsSettled (whole regs.old flags.old) (L.seen lin.old) }
    ensures { Runs (rules_of P.Ports) L.pick insn.now (whole regs.old flags.old) back (L.seen lin.old) ports.old (marked result (not (is_port_string insn.now.op))) (whole regs.new flags.new) (L.seen lin.new) ports.new }
{
    string_ops::run(regs, flags, lin, ports, insn)
}

/// A far instruction, which has EFLAGS whole, and has placed what it writes.
#[inline(never)]
fn run_far<L: Linear, P: Ports>(
    regs: &mut Regs,
    flags: &mut Flags,
    lin: &mut L,
    ports: &P,
    insn: &Insn,
    back: u32,
) -> Result<Ran, Fault>
    requires spelt { (bytes : List ℕ) × (big : Bool) × Spelt bytes big insn.now }
    requires runs { runs_far insn.now ≡ true }
    requires ready { IsSettled (whole regs.old flags.old) (L.seen lin.old) }
    ensures { Runs (rules_of P.Ports) L.pick insn.now (whole regs.old flags.old) back (L.seen lin.old) ports.now result (whole regs.new flags.new) (L.seen lin.new) ports.now }
{
    regs.eflags = flags.pack(regs.eflags);
    let answer = exec_far::run(regs, lin, insn, back);
    *flags = Flags::unpack(regs.eflags);
    marked(answer, true)
}

/// An instruction of the system, which has EFLAGS whole.
#[inline(never)]
fn run_system<L: Linear, P: Ports>(
    regs: &mut Regs,
    flags: &mut Flags,
    lin: &mut L,
    ports: &mut P,
    insn: &Insn,
    back: u32,
) -> Result<Ran, Fault>
    requires spelt { (bytes : List ℕ) × (big : Bool) × Spelt bytes big insn.now }
    requires runs { runs_system insn.now ≡ true }
    requires ready { IsSettled (whole regs.old flags.old) (L.seen lin.old) }
    ensures { Runs (rules_of P.Ports) L.pick insn.now (whole regs.old flags.old) back (L.seen lin.old) ports.old result (whole regs.new flags.new) (L.seen lin.new) ports.new }
{
    regs.eflags = flags.pack(regs.eflags);
    let answer = exec_system::run(regs, lin, ports, insn, back);
    *flags = Flags::unpack(regs.eflags);
    marked(answer, false)
}

/// Runs an instruction, up to where what it holds is placed or dropped: it is asked for its family.
/// `back` is the EIP behind it.
#[inline(never)]
pub(crate) fn run_any<L: Linear, P: Ports>(
    regs: &mut Regs,
    flags: &mut Flags,
    lin: &mut L,
    ports: &mut P,
    insn: &Insn,
    back: u32,
) -> Result<Ran, Fault>
    requires spelt { (bytes : List ℕ) × (big : Bool) × Spelt bytes big insn.now }
    requires ready { IsSettled (whole regs.old flags.old) (L.seen lin.old) }
    ensures { Runs (rules_of P.Ports) L.pick insn.now (whole regs.old flags.old) back (L.seen lin.old) ports.old result (whole regs.new flags.new) (L.seen lin.new) ports.new }
{
    if runs_data(insn) {
        return marked(run_data(regs, flags, lin, ports, insn, back), true);
    }
    if runs_flow(insn) {
        return marked(run_flow(regs, flags, lin, ports, insn, back), true);
    }
    if runs_string(insn.op) {
        let answer = run_string(regs, flags, lin, ports, insn, back);
        return marked(answer, !is_port_string(insn.op));
    }
    if runs_far(insn) {
        return run_far(regs, flags, lin, ports, insn, back);
    }
    if runs_system(insn) {
        return run_system(regs, flags, lin, ports, insn, back);
    }
    Err(no_such())
}
