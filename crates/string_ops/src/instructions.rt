//! One step of a string instruction, over any memory.

ghost use Rattle.std.specs.Prelude.{◌≡◌, ℕ, IsTrue, true, OnErr};
ghost use Rattle.mdl_state.specs.Serving.{by_pick};
ghost use Rattle.mdl_state.specs.Accesses.{Keeps, HasRoom};
ghost use Rattle.mdl_state.specs.Attempt.{tried};
ghost use Rattle.mem_iface.specs.Rules.{rules_of};
ghost use Rattle.mdl_effect.specs.Operands.{PortUse};
ghost use Rattle.mdl_effect.specs.Ports.{Accesses};
ghost use Rattle.mdl_effect.specs.StringEffects.{runs_string, string_plan};
ghost use Rattle.mdl_cpu.specs.Steady.{Steady};
ghost use Rattle.operands.specs.Whole.{whole, ran_at, KeepsOther};

use crate::kinds::{AnyString, Loads, Moves, Stores, StringKind};
use crate::repeats::repeat;
use lazy_flags::Flags;
use mdl_insn::{Insn, Op, Rep};
use mdl_state::{Fault, Next, Regs};
use mem_iface::{Linear, Ports};

/// Whether `run` does the instructions of this mnemonic.
#[inline(always)]
pub fn runs_string(op: Op) -> bool
    ensures { result ≡ runs_string op }
{
    match op {
        Op::Movs | Op::Cmps | Op::Stos | Op::Lods | Op::Scas | Op::Ins | Op::Outs => true,
        _ => false,
    }
}

/// The instruction by its repeat prefix.
#[inline(always)]
#[tactic(auto, unfolding(mdl_effect::specs::StringEffects::string_plan))]
fn run_by_prefix<K: StringKind, L: Linear, P: Ports>(
    regs: &mut Regs,
    flags: &mut Flags,
    lin: &mut L,
    ports: &mut P,
    insn: &Insn,
) -> Result<Next, Fault>
    requires kind { K.takes insn.now.op ≡ true }
    requires runs { runs_string insn.now.op ≡ true }
    requires room { HasRoom (L.seen lin.old) 4 }
    ensures run { (given : ℕ) × (access : PortUse) × Accesses (rules_of P.Ports) access given ports.old ports.new
        × ((ran_at result access (whole regs.new flags.new), L.seen lin.new)
        ≡ tried (by_pick L.pick) given (string_plan insn.now (whole regs.old flags.old) (whole regs.new flags.new).eflags) (L.seen lin.old)) }
    ensures kept { KeepsOther regs.old regs.new }
    ensures unchanged { OnErr result ((regs.new ≡ regs.old) × (flags.new ≡ flags.old) × (ports.new ≡ ports.old)) }
    ensures keeps { Keeps (L.seen lin.old) (L.seen lin.new) }
{
    match insn.rep {
        Rep::Plain => K::iterate(regs, flags, lin, ports, insn),
        Rep::Equal | Rep::NotEqual => repeat::<K, L, P>(regs, flags, lin, ports, insn),
    }
}

/// The same in two copies, each of which is compiled for one address size.
#[inline(always)]
fn run_by_width<K: StringKind, L: Linear, P: Ports>(
    regs: &mut Regs,
    flags: &mut Flags,
    lin: &mut L,
    ports: &mut P,
    insn: &Insn,
) -> Result<Next, Fault>
    requires kind { K.takes insn.now.op ≡ true }
    requires runs { runs_string insn.now.op ≡ true }
    requires room { HasRoom (L.seen lin.old) 4 }
    ensures run { (given : ℕ) × (access : PortUse) × Accesses (rules_of P.Ports) access given ports.old ports.new
        × ((ran_at result access (whole regs.new flags.new), L.seen lin.new)
        ≡ tried (by_pick L.pick) given (string_plan insn.now (whole regs.old flags.old) (whole regs.new flags.new).eflags) (L.seen lin.old)) }
    ensures kept { KeepsOther regs.old regs.new }
    ensures unchanged { OnErr result ((regs.new ≡ regs.old) × (flags.new ≡ flags.old) × (ports.new ≡ ports.old)) }
    ensures keeps { Keeps (L.seen lin.old) (L.seen lin.new) }
{
    if insn.wide {
        return run_by_prefix::<K, L, P>(regs, flags, lin, ports, insn);
    }
    run_by_prefix::<K, L, P>(regs, flags, lin, ports, insn)
}

/// One iteration of a string instruction in an attempt: its registers and held writes and the port
/// that it uses, or its first fault.
///
/// `Next::Again` asks for the next iteration of a repeat, with EIP still at the instruction. The
/// status flags of EFLAGS are those of `flags`. A fault leaves what was held before it to be
/// dropped.
#[inline(never)]
pub fn run<L: Linear, P: Ports>(
    regs: &mut Regs,
    flags: &mut Flags,
    lin: &mut L,
    ports: &mut P,
    insn: &Insn,
) -> Result<Next, Fault>
    requires runs { IsTrue (runs_string insn.now.op) }
    requires room { HasRoom (L.seen lin.old) 4 }
    ensures run { (given : ℕ) × (access : PortUse) × Accesses (rules_of P.Ports) access given ports.old ports.new
        × ((ran_at result access (whole regs.new flags.new), L.seen lin.new)
        ≡ tried (by_pick L.pick) given (string_plan insn.now (whole regs.old flags.old) (whole regs.new flags.new).eflags) (L.seen lin.old)) }
    ensures unchanged { OnErr result ((regs.new ≡ regs.old) × (flags.new ≡ flags.old) × (ports.new ≡ ports.old)) }
    ensures steady { Steady (whole regs.old flags.old) (whole regs.new flags.new) }
    ensures keeps { Keeps (L.seen lin.old) (L.seen lin.new) }
{
    match insn.op {
        Op::Movs => run_by_width::<Moves, L, P>(regs, flags, lin, ports, insn),
        Op::Stos => run_by_width::<Stores, L, P>(regs, flags, lin, ports, insn),
        Op::Lods => run_by_width::<Loads, L, P>(regs, flags, lin, ports, insn),
        _ => run_by_prefix::<AnyString, L, P>(regs, flags, lin, ports, insn),
    }
}
