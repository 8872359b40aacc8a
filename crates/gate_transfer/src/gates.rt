//! The way of an interrupt or exception to its handler: that of real mode, and by the mode.

ghost use Rattle.std.specs.Prelude.{◌≡◌, ◌≤◌, ◌+◌, ◌%◌, ◌^◌, [], length, IfOk, OnErr, true, false};
ghost use Rattle.mdl_state.specs.Serving.{by_pick};
ghost use Rattle.mdl_state.specs.Accesses.{Keeps, HasRoom};
ghost use Rattle.mdl_state.specs.Attempt.{then_plan, tried};
ghost use Rattle.mdl_cpu.specs.Steady.{StaysSound};
ghost use Rattle.mdl_cpu.specs.Deliveries.{KeepsWatch};
ghost use Rattle.mdl_cpu.specs.Faults.{extended, first_of};
ghost use Rattle.mdl_cpu.specs.Loads.{answered};
ghost use Rattle.mdl_cpu.specs.Causes.{saved_eip};
ghost use Rattle.mdl_cpu.specs.Segments.{has_protection};
ghost use Rattle.mdl_cpu.specs.declared.Outcome.TheVariants.{Done};
ghost use Rattle.mdl_cpu.specs.Transfers.{IfSwitch, made, transferred};
ghost use Rattle.mdl_cpu.specs.Gates.{entry_rows, handler_flags, at_handler, frame_plan, real_gate_plan, gate_way_plan, with_ext};

use crate::interrupt_gates::through_protected_gate;
use desc_load::{has_protection, load_real};
use mdl_cpu::{Cause, Outcome};
use mdl_num::with_bit;
use mdl_state::{Fault, Regs, Seg, Size, Who};
use mem_iface::Linear;
use seg_unit::{push, segment};

/// The places of TF, IF and RF in EFLAGS.
const TF: u8 = 8;

const IF: u8 = 9;

const RF: u8 = 16;

/// The fault of an entry that the table does not have, as real mode knows it.
const DOUBLE_FAULT: Fault = Fault {
    vector: 8,
    code: 0,
    addr: 0,
};

/// EXT in the code of a fault that comes on the way of an external cause.
pub fn extended(external: bool, fault: Fault) -> Fault
    ensures { result ≡ extended external fault }
{
    if external && fault.vector != 14 && fault.vector != 8 {
        Fault {
            code: fault.code - fault.code % 2 + 1,
            ..fault
        }
    } else {
        fault
    }
}

/// The rows of a vector's entry.
fn entry_rows(regs: &Regs, vector: u8) -> Result<(), Fault>
    ensures { result ≡ first_of (entry_rows regs.now vector) }
{
    if (regs.idt_limit as u32) < 4 * vector as u32 + 3 {
        return Err(DOUBLE_FAULT);
    }
    Ok(())
}

/// The EIP that is saved.
pub fn saved_eip(regs: &Regs, cause: Cause) -> u32
    ensures { result ≡ saved_eip regs.now cause }
{
    if cause.fault { regs.eip } else { cause.back }
}

/// The flags of the handler.
fn handler_flags(cause: Cause, flags: u32) -> u32
    ensures { result ≡ handler_flags cause flags }
{
    let resumed = if cause.soft {
        with_bit(flags, RF, false)
    } else {
        flags
    };
    with_bit(with_bit(resumed, IF, false), TF, false)
}

/// FLAGS, CS and IP pushed. Where one faults, those before it have moved the stack pointer.
#[tactic(auto, using(mdl_state::specs::Rules::attempts), unfolding(mdl_cpu::specs::Gates::frame_plan))]
fn push_frame<L: Linear>(regs: &mut Regs, lin: &mut L, cause: Cause) -> Result<(), Fault>
    requires room { HasRoom (L.seen lin.old) 6 }
    ensures run { (answered result regs.new, L.seen lin.new)
        ≡ tried (by_pick L.pick) 0 (frame_plan cause regs.old) (L.seen lin.old) }
    ensures keeps { Keeps (L.seen lin.old) (L.seen lin.new) }
{
    let flags = regs.eflags % 0x1_0000;
    let selector = segment(regs, Seg::Cs).sel as u32;
    let ip = saved_eip(regs, cause) % 0x1_0000;
    push(regs, lin, Size::B2, flags)?;
    push(regs, lin, Size::B2, selector)?;
    push(regs, lin, Size::B2, ip)?;
    Ok(())
}

/// The registers turned to the handler.
fn turn_to(regs: &mut Regs, cause: Cause, ip: u32, sel: u16)
    ensures { regs.new ≡ at_handler cause regs.old ip sel }
{
    regs.eip = ip;
    regs.eflags = handler_flags(cause, regs.eflags);
    load_real(regs, Seg::Cs, sel);
}

/// The way in real mode, with the code of a fault as the rows have it.
#[tactic(auto, using(mdl_state::specs::Rules::attempts), unfolding(mdl_cpu::specs::Gates::real_gate_plan))]
fn enter_real<L: Linear>(regs: &mut Regs, lin: &mut L, cause: Cause) -> Result<Outcome, Fault>
    requires room { HasRoom (L.seen lin.old) 6 }
    ensures run { (transferred result regs.new, L.seen lin.new)
        ≡ tried (by_pick L.pick) 0 (then_plan (real_gate_plan cause regs.old) made) (L.seen lin.old) }
    ensures made { IfOk result (λ way. way ≡ Done) }
    ensures switched { IfOk result (λ way. IfSwitch way (regs.new ≡ regs.old)) }
    ensures keeps { Keeps (L.seen lin.old) (L.seen lin.new) }
{
    entry_rows(regs, cause.vector)?;
    let entry = 4 * cause.vector as u32;
    let ip = lin.read(regs.idt_base.wrapping_add(entry), Size::B2, Who::Tables)?;
    let sel = lin.read(regs.idt_base.wrapping_add(entry + 2), Size::B2, Who::Tables)?;
    push_frame(regs, lin, cause)?;
    turn_to(regs, cause, ip, sel as u16);
    Ok(Outcome::Done)
}

/// The way in each mode, with the code of a fault as the rows have it. At a fault the registers may be on
/// the way.
#[tactic(auto, unfolding(mdl_cpu::specs::Gates::gate_way_plan))]
fn enter<L: Linear>(regs: &mut Regs, lin: &mut L, cause: Cause) -> Result<Outcome, Fault>
    requires level { has_protection regs.old ≡ true → regs.old.cpl ≤ 3 }
    requires room { HasRoom (L.seen lin.old) 42 }
    ensures run { (transferred result regs.new, L.seen lin.new)
        ≡ tried (by_pick L.pick) 0 (gate_way_plan cause regs.old) (L.seen lin.old) }
    ensures switched { IfOk result (λ way. IfSwitch way (regs.new ≡ regs.old)) }
    ensures real { has_protection regs.old ≡ false → IfOk result (λ way. way ≡ Done) }
    ensures keeps { Keeps (L.seen lin.old) (L.seen lin.new) }
{
    if has_protection(regs) {
        through_protected_gate(regs, lin, cause)
    } else {
        enter_real(regs, lin, cause)
    }
}

/// The way in each mode. A refused one leaves the registers.
fn try_enter<L: Linear>(regs: &mut Regs, lin: &mut L, cause: Cause) -> Result<Outcome, Fault>
    requires level { has_protection regs.old ≡ true → regs.old.cpl ≤ 3 }
    requires room { HasRoom (L.seen lin.old) 42 }
    ensures run { (transferred result regs.new, L.seen lin.new)
        ≡ tried (by_pick L.pick) 0 (gate_way_plan cause regs.old) (L.seen lin.old) }
    ensures switched { IfOk result (λ way. IfSwitch way (regs.new ≡ regs.old)) }
    ensures real { has_protection regs.old ≡ false → IfOk result (λ way. way ≡ Done) }
    ensures unchanged { OnErr result (regs.new ≡ regs.old) }
    ensures keeps { Keeps (L.seen lin.old) (L.seen lin.new) }
{
    let mut next = *regs;
    let outcome = enter(&mut next, lin, cause)?;
    *regs = next;
    Ok(outcome)
}

/// The way of a cause to its handler. In real mode: FLAGS, CS and IP on the stack, and then the entry of its
/// vector in CS:IP. In protected mode and in V86 the gate of its vector leads to the handler, or to another
/// task, to which a switch is to follow: the registers are then as they were. It is made, or it is refused
/// with a fault and leaves the registers.
///
/// Its writes stay held: the caller commits them, or discards them at a fault.
pub fn through_gate<L: Linear>(regs: &mut Regs, lin: &mut L, cause: Cause) -> Result<Outcome, Fault>
    requires level { has_protection regs.old ≡ true → regs.old.cpl ≤ 3 }
    requires held { (L.seen lin.old).held ≡ [] }
    ensures run { (transferred result regs.new, L.seen lin.new)
        ≡ with_ext cause.ext (tried (by_pick L.pick) 0 (gate_way_plan cause regs.old) (L.seen lin.old)) }
    ensures switched { IfOk result (λ way. IfSwitch way (regs.new ≡ regs.old)) }
    ensures real { has_protection regs.old ≡ false → IfOk result (λ way. way ≡ Done) }
    ensures unchanged { OnErr result (regs.new ≡ regs.old) }
    ensures sound { StaysSound regs.old regs.new }
    ensures keeps { Keeps (L.seen lin.old) (L.seen lin.new) }
    ensures watch { KeepsWatch (L.seen lin.old) (L.seen lin.new) }
{
    match try_enter(regs, lin, cause) {
        Ok(outcome) => Ok(outcome),
        Err(fault) => Err(extended(cause.ext, fault)),
    }
}
