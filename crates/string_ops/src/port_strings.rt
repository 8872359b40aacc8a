//! One iteration of INS and of OUTS, by the port that DX names, where that is permitted.

ghost use Rattle.std.specs.Prelude.{◌≡◌, ◌<◌, ◌^◌, ℕ, true, IfOk, IfErr, OnErr};
ghost use Rattle.mdl_state.specs.declared.Place.{Place};
ghost use Rattle.mdl_state.specs.declared.Access.TheVariants.{Write};
ghost use Rattle.mdl_state.specs.declared.Seg.TheVariants.{Es};
ghost use Rattle.mdl_state.specs.Serving.{by_pick, Failed};
ghost use Rattle.mdl_state.specs.Accesses.{Keeps, IsPlace, HasRoom};
ghost use Rattle.mdl_state.specs.Attempt.{Plan, Translate, checked, tried};
ghost use Rattle.mem_iface.specs.Rules.{rules_of};
ghost use Rattle.mdl_cpu.specs.Access.{legal};
ghost use Rattle.mdl_cpu.specs.Segments.{who_of};
ghost use Rattle.mdl_effect.specs.Operands.{After, PortUse};
ghost use Rattle.mdl_effect.specs.Ports.{Accesses};
ghost use Rattle.mdl_effect.specs.StringEffects.{destination_index, string_port, input_string_plan, output_string_plan};
ghost use Rattle.operands.specs.Whole.{whole, ran_at, KeepsOther};

use crate::indexes::{destination_index, pass_destination, pass_source};
use crate::strings::read_source;
use mdl_insn::Insn;
use mdl_state::{Access, Fault, Next, Place, Regs, Seg, Size};
use mem_iface::{Linear, Ports};
use operands::{DATA, reg};
use seg_unit::{check, who};
use v86_mode::port_allowed;

/// The port, in DX.
fn string_port(regs: &Regs) -> u16
    ensures { (flags : ℕ) → result ≡ string_port (whole regs.now flags) }
{
    reg(regs, DATA, Size::B2) as u16
}

/// The place of the destination, checked and translated for writing.
#[tactic(auto, using(operands::proofs::Modes::modes))]
fn open_destination<L: Linear>(regs: &Regs, lin: &mut L, insn: &Insn) -> Result<Place, Fault>
    ensures passed { IfOk result (λ place. (flags given : ℕ) (k : Place → Plan After) →
        tried (by_pick L.pick) given (checked (legal (whole regs.now flags) Es (destination_index (whole regs.now flags) insn.now.wide) insn.now.size true)
        (λ at. Translate at insn.now.size (Write (who_of (whole regs.now flags))) k)) (L.seen lin.old) ≡ tried (by_pick L.pick) given (k place) (L.seen lin.new)) }
    ensures refused { IfErr result (λ fault. (flags given : ℕ) (k : Place → Plan After) →
        tried (by_pick L.pick) given (checked (legal (whole regs.now flags) Es (destination_index (whole regs.now flags) insn.now.wide) insn.now.size true)
        (λ at. Translate at insn.now.size (Write (who_of (whole regs.now flags))) k)) (L.seen lin.old) ≡ (Failed fault, L.seen lin.new)) }
    ensures form { IfOk result (λ place. IsPlace place insn.now.size) }
    ensures keeps { Keeps (L.seen lin.old) (L.seen lin.new) }
    ensures held { (L.seen lin.new).held ≡ (L.seen lin.old).held }
{
    let index = destination_index(regs, insn.wide);
    let at = check(regs, Seg::Es, index, insn.size, true)?;
    let place = lin.translate(at, insn.size, Access::Write(who(regs)))?;
    Ok(place)
}

/// INS: the port is read where it is permitted and the destination has passed, and what it gives is held there.
#[inline(never)]
pub(crate) fn input_string<L: Linear, P: Ports>(
    regs: &mut Regs,
    lin: &mut L,
    ports: &mut P,
    insn: &Insn,
) -> Result<Next, Fault>
    requires room { HasRoom (L.seen lin.old) 4 }
    ensures run { (given : ℕ) × (access : PortUse) × Accesses (rules_of P.Ports) access given ports.old ports.new
        × ((flags : ℕ) → (ran_at result access (whole regs.new flags), L.seen lin.new)
        ≡ tried (by_pick L.pick) given (input_string_plan insn.now (whole regs.old flags)) (L.seen lin.old)) }
    ensures kept { KeepsOther regs.old regs.new }
    ensures unchanged { OnErr result ((regs.new ≡ regs.old) × (ports.new ≡ ports.old)) }
    ensures keeps { Keeps (L.seen lin.old) (L.seen lin.new) }
{
    let port = string_port(regs);
    port_allowed(regs, lin, port, insn.size)?;
    let place = open_destination(regs, lin, insn)?;
    let value = ports.input(port, insn.size);
    lin.hold(place, insn.size, value);
    pass_destination(regs, insn.wide, insn.size);
    Ok(Next::Follow)
}

/// OUTS: the port is written where it is permitted and the source has passed.
#[inline(never)]
pub(crate) fn output_string<L: Linear, P: Ports>(
    regs: &mut Regs,
    lin: &mut L,
    ports: &mut P,
    insn: &Insn,
) -> Result<Next, Fault>
    ensures run { (given : ℕ) × (access : PortUse) × Accesses (rules_of P.Ports) access given ports.old ports.new
        × ((flags : ℕ) → (ran_at result access (whole regs.new flags), L.seen lin.new)
        ≡ tried (by_pick L.pick) given (output_string_plan insn.now (whole regs.old flags)) (L.seen lin.old)) }
    ensures kept { KeepsOther regs.old regs.new }
    ensures unchanged { OnErr result ((regs.new ≡ regs.old) × (ports.new ≡ ports.old)) }
    ensures keeps { Keeps (L.seen lin.old) (L.seen lin.new) }
{
    let port = string_port(regs);
    port_allowed(regs, lin, port, insn.size)?;
    let value = read_source(regs, lin, insn)?;
    ports.output(port, insn.size, value);
    pass_source(regs, insn.wide, insn.size);
    Ok(Next::Follow)
}
