//! One iteration of any string instruction.

ghost use Rattle.std.specs.Prelude.{◌≡◌, ℕ, true, OnErr};
ghost use Rattle.mdl_state.specs.Serving.{by_pick};
ghost use Rattle.mdl_state.specs.Accesses.{Keeps, HasRoom};
ghost use Rattle.mdl_state.specs.Attempt.{tried};
ghost use Rattle.mem_iface.specs.Rules.{rules_of};
ghost use Rattle.mdl_effect.specs.Operands.{PortUse};
ghost use Rattle.mdl_effect.specs.Ports.{Accesses};
ghost use Rattle.mdl_effect.specs.StringEffects.{runs_string, iterate_plan};
ghost use Rattle.operands.specs.Whole.{whole, ran_at, KeepsOther};

use crate::port_strings::{input_string, output_string};
use crate::strings::iterate_in_memory;
use lazy_flags::Flags;
use mdl_insn::{Insn, Op};
use mdl_state::{Fault, Next, Regs};
use mem_iface::{Linear, Ports};

/// One iteration of the instruction by its mnemonic.
#[inline(always)]
pub(crate) fn iterate<L: Linear, P: Ports>(
    regs: &mut Regs,
    flags: &mut Flags,
    lin: &mut L,
    ports: &mut P,
    insn: &Insn,
) -> Result<Next, Fault>
    requires runs { runs_string insn.now.op ≡ true }
    requires room { HasRoom (L.seen lin.old) 4 }
    ensures run { (given : ℕ) × (access : PortUse) × Accesses (rules_of P.Ports) access given ports.old ports.new
        × ((ran_at result access (whole regs.new flags.new), L.seen lin.new)
        ≡ tried (by_pick L.pick) given (iterate_plan insn.now (whole regs.old flags.old) (whole regs.new flags.new).eflags) (L.seen lin.old)) }
    ensures kept { KeepsOther regs.old regs.new }
    ensures unchanged { OnErr result ((regs.new ≡ regs.old) × (flags.new ≡ flags.old) × (ports.new ≡ ports.old)) }
    ensures keeps { Keeps (L.seen lin.old) (L.seen lin.new) }
{
    match insn.op {
        Op::Ins => input_string(regs, lin, ports, insn),
        Op::Outs => output_string(regs, lin, ports, insn),
        _ => {
            iterate_in_memory(regs, flags, lin, insn)?;
            Ok(Next::Follow)
        }
    }
}
