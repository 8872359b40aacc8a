//! Repeats: the count, and what ends them.

ghost use Rattle.std.specs.Prelude.{◌≡◌, ℕ, true, OnErr};
ghost use Rattle.mdl_state.specs.declared.Next.{Next};
ghost use Rattle.mdl_state.specs.Serving.{by_pick};
ghost use Rattle.mdl_state.specs.Accesses.{Keeps, HasRoom};
ghost use Rattle.mdl_state.specs.Attempt.{tried};
ghost use Rattle.mdl_insn.specs.declared.instruction.Rep.TheVariants.{Equal};
ghost use Rattle.mem_iface.specs.Rules.{rules_of};
ghost use Rattle.mdl_effect.specs.Operands.{PortUse};
ghost use Rattle.mdl_effect.specs.Ports.{Accesses};
ghost use Rattle.mdl_effect.specs.StringEffects.{runs_string, compares, is_wanted, repeating};
ghost use Rattle.operands.specs.Whole.{whole, ran_at, KeepsOther};
ghost use Rattle.string_ops.specs.Repeats.{goes_on, counted};

use crate::kinds::StringKind;
use lazy_flags::Flags;
use mdl_insn::{Insn, Op, Rep};
use mdl_num::ZF;
use mdl_state::{Fault, Next, Regs};
use mem_iface::{Linear, Ports};
use operands::{count_down, count_of};

/// Whether the instruction compares.
#[inline(always)]
fn compares(op: Op) -> bool
    ensures { result ≡ compares op }
{
    match op {
        Op::Cmps | Op::Scas => true,
        _ => false,
    }
}

/// Whether the repeat goes on behind numbers that are equal, or not.
#[inline(always)]
fn is_wanted(rep: Rep, equal: bool) -> bool
    ensures { result ≡ is_wanted rep equal }
{
    match rep {
        Rep::NotEqual => !equal,
        _ => equal,
    }
}

/// Whether more iterations follow.
#[tactic(auto, using(operands::proofs::Statuses::packed_bits))]
#[inline(always)]
fn goes_on(regs: &Regs, flags: &Flags, rep: Rep, compares: bool, wide: bool) -> bool
    ensures { result ≡ goes_on rep compares wide (whole regs.now flags.now) }
{
    if count_of(regs, wide) == 0 {
        return false;
    }
    !compares || is_wanted(rep, flags.get(ZF))
}

/// Counts an iteration, and says whether EIP stays at the instruction.
#[inline(always)]
fn count(regs: &mut Regs, flags: &Flags, rep: Rep, compares: bool, wide: bool) -> Next
    ensures value { (next : Next) (access : PortUse) →
        (record { regs = whole regs.new flags.now; next = result; access = access })
        ≡ counted rep compares wide (record { regs = whole regs.old flags.now; next = next; access = access }) }
    ensures kept { KeepsOther regs.old regs.new }
{
    count_down(regs, wide);
    if goes_on(regs, flags, rep, compares, wide) {
        Next::Again
    } else {
        Next::Follow
    }
}

/// One iteration of an instruction with a repeat prefix, unless the count is 0.
// `Equal` stands for either prefix; which one it is counts in `goes_on` alone.
#[inline(always)]
pub(crate) fn repeat<K: StringKind, L: Linear, P: Ports>(
    regs: &mut Regs,
    flags: &mut Flags,
    lin: &mut L,
    ports: &mut P,
    insn: &Insn,
) -> Result<Next, Fault>
    requires kind { K.takes insn.now.op ≡ true }
    requires runs { runs_string insn.now.op ≡ true }
    requires room { HasRoom (L.seen lin.old) 4 }
    ensures run { (given : ℕ) × (access : PortUse) × Accesses (rules_of P.Ports) access given ports.old ports.new
        × ((ran_at result access (whole regs.new flags.new), L.seen lin.new)
        ≡ tried (by_pick L.pick) given (repeating Equal insn.now (whole regs.old flags.old) (whole regs.new flags.new).eflags) (L.seen lin.old)) }
    ensures kept { KeepsOther regs.old regs.new }
    ensures unchanged { OnErr result ((regs.new ≡ regs.old) × (flags.new ≡ flags.old) × (ports.new ≡ ports.old)) }
    ensures keeps { Keeps (L.seen lin.old) (L.seen lin.new) }
{
    let (rep, wide) = (insn.rep, insn.wide);
    let compares = compares(insn.op);
    if count_of(regs, wide) == 0 {
        return Ok(Next::Follow);
    }
    K::iterate(regs, flags, lin, ports, insn)?;
    Ok(count(regs, flags, rep, compares, wide))
}
