//! One step, by the crate that runs its instruction.

ghost use Rattle.std.specs.Prelude.{◌≡◌, ◌<◌, ℕ, List, [], Bool, true, false, IsTrue, IfSome, IfOk, OnOk, OnErr};
ghost use Rattle.std.specs.Bool.{OnTrue};
ghost use Rattle.mdl_insn.specs.Spelling.{Spelt};
ghost use Rattle.mdl_state.specs.Serving.{by_pick};
ghost use Rattle.mdl_state.specs.Accesses.{committed, discarded};
ghost use Rattle.mdl_state.specs.Attempt.{tried};
ghost use Rattle.mem_iface.specs.Rules.{rules_of};
ghost use Rattle.mdl_cpu.specs.Segments.{has_protection};
ghost use Rattle.mdl_cpu.specs.SystemFlags.{AreFlags};
ghost use Rattle.mdl_state.specs.Bytes.{bit};
ghost use Rattle.mdl_effect.specs.FarEffects.{runs_far};
ghost use Rattle.mdl_effect.specs.SystemEffects.{runs_system, system_effect};
ghost use Rattle.mdl_effect.specs.Operands.{PortUse};
ghost use Rattle.mdl_effect.specs.Ports.{Accesses};
ghost use Rattle.mdl_step.specs.Effects.{effect};
ghost use Rattle.mdl_step.specs.Step.{landed};
ghost use Rattle.operands.specs.Whole.{whole, ran_at};
ghost use Rattle.step_lines.specs.Families.{Belongs, is_of_real_mode};

use exec_data::runs_data;
use exec_far::runs_far;
use exec_flow::runs_flow;
use exec_system::runs_system;
use insn_decode::{SliceError, decode_slice};
use lazy_flags::Flags;
use mdl_insn::Insn;
use mdl_state::{Fault, Next, Regs};
use mem_iface::{Linear, NoPorts, Ports};
use operands::{general_protection, no_such};
use string_ops::runs_string;

/// How many bytes may be held: so many where none is.
pub const ROOM: u16 = 256;

/// PE of CR0.
pub const PROTECTION: u32 = 1;

/// The instructions of one crate, but the far ones.
#[derive(Clone, Copy)]
enum Family {
    Data,
    Flow,
    Strings,
    System,
}

/// The crate that runs an instruction that is not a far one.
fn family_of(insn: &Insn) -> Option<Family>
    ensures { IfSome result (λ family. Belongs family insn.now) }
{
    if runs_data(insn) {
        return Some(Family::Data);
    }
    if runs_flow(insn) {
        return Some(Family::Flow);
    }
    if runs_string(insn.op) {
        return Some(Family::Strings);
    }
    if runs_system(insn) {
        return Some(Family::System);
    }
    None
}

/// The instruction at the front of these bytes and its length, or the fault of bytes that are none.
fn instruction_of(code: &[u8], big: bool) -> Option<Result<(Insn, u8), Fault>>
    ensures { IfSome result (λ found. IfOk found (λ x. (bytes : List ℕ) × (size : Bool) × Spelt bytes size x.0)) }
{
    match decode_slice(code, big) {
        Ok((insn, count)) => Some(Ok((insn, count))),
        Err(SliceError::Undefined) => Some(Err(no_such())),
        Err(SliceError::TooLong) => Some(Err(general_protection(0))),
        Err(SliceError::Short) => None,
    }
}

/// Data instructions run in real mode. The others run in protected mode where code and stack are
/// of 32 bits; else those of the system and of strings run where CR0 says, and those of flow in real mode.
fn set_mode(regs: &mut Regs, family: Family, big: bool)
    ensures { is_of_real_mode family ≡ true → has_protection regs.new ≡ false }
{
    regs.cr0 = match family {
        Family::Data => 0,
        Family::Flow => { if big { PROTECTION } else { 0 } }
        Family::Strings | Family::System => { if big { PROTECTION } else { regs.cr0 } }
    };
}

/// Whether a bit is 1.
fn has(number: u32, place: u8) -> bool
    requires { place < 32 }
    ensures { result ≡ bit number place }
{
    (number >> place) & 1 == 1
}

/// Whether the bits of EFLAGS that are no flags are as they always are, and VM is 0.
fn are_flags(eflags: u32) -> bool
    ensures flags { OnTrue result (AreFlags eflags) }
    ensures real { OnTrue result (bit eflags 17 ≡ false) }
{
    has(eflags, 1)
        && !has(eflags, 3)
        && !has(eflags, 5)
        && !has(eflags, 15)
        && !has(eflags, 17)
        && eflags < 0x40000
}

/// A far instruction, in real mode and all of it placed; nothing where EFLAGS has bits that real mode does
/// not have.
fn run_far<L: Linear>(
    regs: &mut Regs,
    lin: &mut L,
    insn: &Insn,
    back: u32,
) -> Option<Result<Next, Fault>>
    requires spelt { (bytes : List ℕ) × (big : Bool) × Spelt bytes big insn.now }
    requires runs { IsTrue (runs_far insn.now) }
    requires held { (L.seen lin.old).held ≡ [] }
{
    if !are_flags(regs.eflags) {
        return None;
    }
    regs.cr0 = 0;
    regs.cpl = 0;
    lin.set_paging(false);
    lin.load_cr3(regs.cr3);
    Some(exec_far::run(regs, lin, insn, back))
}

/// An instruction of the system, which has EFLAGS whole.
#[tactic(auto, using(crate::proofs::Packed::packed))]
fn run_system<L: Linear, P: Ports>(
    regs: &mut Regs,
    flags: &mut Flags,
    lin: &mut L,
    ports: &mut P,
    insn: &Insn,
    back: u32,
) -> Result<Next, Fault>
    requires spelt { (bytes : List ℕ) × (big : Bool) × Spelt bytes big insn.now }
    requires runs { IsTrue (runs_system insn.now) }
    requires held { (L.seen lin.old).held ≡ [] }
    ensures run { (given : ℕ) × (access : PortUse) × Accesses (rules_of P.Ports) access given ports.old ports.new
        × ((ran_at result access (whole regs.new flags.new), L.seen lin.new)
        ≡ tried (by_pick L.pick) given (system_effect insn.now (whole regs.old flags.old) back) (L.seen lin.old)) }
    ensures unchanged { OnErr result ((regs.new ≡ regs.old) × (flags.new ≡ flags.old) × (ports.new ≡ ports.old)) }
{
    let mut packed = *regs;
    packed.eflags = flags.pack(regs.eflags);
    let next = exec_system::run(&mut packed, lin, ports, insn, back)?;
    *flags = Flags::unpack(packed.eflags);
    *regs = packed;
    Ok(next)
}

/// An instruction in an attempt, by its crate. `back` is the EIP behind it.
#[tactic(auto, using(mdl_step::proofs::EffectLaws::effects))]
fn execute<L: Linear, P: Ports>(
    regs: &mut Regs,
    flags: &mut Flags,
    lin: &mut L,
    ports: &mut P,
    insn: &Insn,
    family: Family,
    back: u32,
) -> Result<Next, Fault>
    requires spelt { (bytes : List ℕ) × (big : Bool) × Spelt bytes big insn.now }
    requires family { Belongs family insn.now }
    requires mode { is_of_real_mode family ≡ true → has_protection regs.old ≡ false }
    requires held { (L.seen lin.old).held ≡ [] }
    ensures run { (given : ℕ) × (access : PortUse) × Accesses (rules_of P.Ports) access given ports.old ports.new
        × ((ran_at result access (whole regs.new flags.new), L.seen lin.new)
        ≡ tried (by_pick L.pick) given (effect insn.now (whole regs.old flags.old) back (whole regs.new flags.new).eflags) (L.seen lin.old)) }
    ensures unchanged { OnErr result ((regs.new ≡ regs.old) × (flags.new ≡ flags.old) × (ports.new ≡ ports.old)) }
{
    match family {
        Family::Data => exec_data::run(regs, flags, lin, insn, back),
        Family::Flow => exec_flow::run(regs, flags, lin, insn, back),
        Family::Strings => string_ops::run(regs, flags, lin, ports, insn),
        Family::System => run_system(regs, flags, lin, ports, insn, back),
    }
}

/// Puts EIP behind an instruction that did not set it and does not go on.
fn land(regs: &mut Regs, next: Next, back: u32)
    ensures { regs.new ≡ landed next regs.old back }
{
    match next {
        Next::Landed | Next::Again | Next::Soft(_) | Next::Task(_) => {}
        _ => regs.eip = back,
    }
}

/// Places what was held, or drops it at a fault.
fn finish<L: Linear>(lin: &mut L, ran: &Result<Next, Fault>)
    ensures passed { OnOk ran.now (L.seen lin.new ≡ committed (L.seen lin.old)) }
    ensures failed { OnErr ran.now (L.seen lin.new ≡ discarded (L.seen lin.old)) }
{
    match ran {
        Ok(_) => lin.commit(),
        Err(_) => lin.discard(),
    }
}

/// A step: what follows its instruction, or its fault, and the EIP behind it.
#[derive(Clone, Copy)]
pub struct Stepped {
    pub ran: Result<Next, Fault>,
    pub back: u32,
}

/// An instruction that is not a far one, placed or dropped; nothing where no crate runs it.
fn run_near<L: Linear>(
    regs: &mut Regs,
    lin: &mut L,
    insn: &Insn,
    big: bool,
    back: u32,
) -> Option<Result<Next, Fault>>
    requires spelt { (bytes : List ℕ) × (big : Bool) × Spelt bytes big insn.now }
    requires held { (L.seen lin.old).held ≡ [] }
{
    let family = family_of(insn)?;
    set_mode(regs, family, big);
    let mut flags = Flags::unpack(regs.eflags);
    let ran = execute(regs, &mut flags, lin, &mut NoPorts, insn, family, back);
    finish(lin, &ran);
    regs.eflags = flags.pack(regs.eflags);
    Some(ran)
}

/// One step of the instruction at the front of these bytes; nothing where no crate runs it.
pub fn step<L: Linear>(regs: &mut Regs, lin: &mut L, code: &[u8], big: bool) -> Option<Stepped> {
    let (insn, count) = match instruction_of(code, big)? {
        Ok(found) => found,
        Err(fault) => {
            let back = regs.eip;
            return Some(Stepped {
                ran: Err(fault),
                back,
            });
        }
    };
    if lin.room() < ROOM {
        return None;
    }
    let back = regs.eip.wrapping_add(count as u32);
    let ran = if runs_far(&insn) {
        run_far(regs, lin, &insn, back)?
    } else {
        run_near(regs, lin, &insn, big, back)?
    };
    if let Ok(next) = ran {
        land(regs, next, back);
    }
    Some(Stepped { ran, back })
}
