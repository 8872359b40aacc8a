//! IN and OUT. Each makes one access of the board, where the port is permitted.

ghost use Rattle.std.specs.Prelude.{◌≡◌, ℕ, OnErr};
ghost use Rattle.mdl_state.specs.Serving.{by_pick};
ghost use Rattle.mdl_state.specs.Accesses.{Keeps};
ghost use Rattle.mdl_state.specs.Attempt.{tried};
ghost use Rattle.mem_iface.specs.Rules.{rules_of};
ghost use Rattle.mdl_effect.specs.Operands.{PortUse, value_of};
ghost use Rattle.mdl_effect.specs.Ports.{Accesses};
ghost use Rattle.mdl_effect.specs.PortEffects.{in_plan, out_plan};
ghost use Rattle.mdl_effect.specs.Kinds.{IsPort};
ghost use Rattle.operands.specs.Whole.{ran_at};

use crate::registers::{reg, set_reg};
use mdl_insn::{Insn, Operand};
use mdl_state::{Fault, Next, Regs, Size};
use mem_iface::{Linear, Ports};
use operands::{ACCUMULATOR, DATA};
use v86_mode::port_allowed;

/// The port of an operand: a byte, or DX.
fn port(regs: &Regs, operand: &Operand) -> u16
    requires { IsPort operand.now }
    ensures { result ≡ value_of regs.now operand.now }
{
    match operand {
        Operand::Gpr(_, _) => reg(regs, DATA, Size::B2) as u16,
        Operand::Imm(value, _) => *value as u16,
        _ => unreachable!(),
    }
}

/// IN.
pub(crate) fn input<L: Linear, P: Ports>(
    regs: &mut Regs,
    lin: &mut L,
    ports: &mut P,
    insn: &Insn,
) -> Result<Next, Fault>
    requires { IsPort insn.now.b }
    ensures run { (given : ℕ) × (access : PortUse) × Accesses (rules_of P.Ports) access given ports.old ports.new
        × ((ran_at result access regs.new, L.seen lin.new) ≡ tried (by_pick L.pick) given (in_plan insn.now regs.old) (L.seen lin.old)) }
    ensures unchanged { OnErr result ((regs.new ≡ regs.old) × (ports.new ≡ ports.old)) }
    ensures keeps { Keeps (L.seen lin.old) (L.seen lin.new) }
    ensures a20 { P.gate ports.new ≡ P.gate ports.old }
    ensures reset { P.asks ports.new ≡ P.asks ports.old }
{
    let port = port(regs, &insn.b);
    port_allowed(regs, lin, port, insn.size)?;
    let value = ports.input(port, insn.size);
    set_reg(regs, ACCUMULATOR, insn.size, value);
    Ok(Next::Follow)
}

/// OUT.
pub(crate) fn output<L: Linear, P: Ports>(
    regs: &Regs,
    lin: &mut L,
    ports: &mut P,
    insn: &Insn,
) -> Result<Next, Fault>
    requires { IsPort insn.now.a }
    ensures run { (given : ℕ) × (access : PortUse) × Accesses (rules_of P.Ports) access given ports.old ports.new
        × ((ran_at result access regs.now, L.seen lin.new) ≡ tried (by_pick L.pick) given (out_plan insn.now regs.now) (L.seen lin.old)) }
    ensures unchanged { OnErr result (ports.new ≡ ports.old) }
    ensures keeps { Keeps (L.seen lin.old) (L.seen lin.new) }
{
    let port = port(regs, &insn.a);
    port_allowed(regs, lin, port, insn.size)?;
    ports.output(port, insn.size, reg(regs, ACCUMULATOR, insn.size));
    Ok(Next::Follow)
}
