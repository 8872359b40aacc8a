//! The boundary between two instructions. Manual, chapters 9 and 10.

ghost use Rattle.std.specs.Prelude.{◌≡◌, ◌<◌, ℕ, false, if◌then◌else◌};
ghost use Rattle.std.specs.Bool.{OnTrue, OnFalse};
ghost use Rattle.mdl_state.specs.Bytes.{bit};
ghost use Rattle.mdl_step.specs.Boundary as rows;
ghost use Rattle.mdl_step.specs.Boundary.{takes_nmi, takes_trap, takes_break, takes_line, boundary_rows, hits_here};
ghost use Rattle.mdl_cpu.specs.SystemFlags.{IF};
ghost use Rattle.mdl_step.specs.Step.{hold_after, activity_after};
ghost use Rattle.operands.specs.Whole.{whole};
ghost use Rattle.cpu_core.specs.Rows.{told};

use debug_regs::execute_hit;
use mdl_state::{Activity, Latches, Next, Regs, Seg};
use seg_unit::segment;

/// The number of IF in EFLAGS.
const INTERRUPTS: u8 = 9;

/// The number of RF in EFLAGS.
pub(crate) const RESUME: u8 = 16;

/// Every interrupt and debug trap is held back for one instruction.
const HOLD_ALL: u8 = 1;

/// The interrupt line is held back for one instruction.
const HOLD_INTERRUPTS: u8 = 2;

/// What the next step is. A breakpoint comes with the bits of DR6 of those that are met.
#[derive(Clone, Copy)]
pub(crate) enum Row {
    Idle,
    Trap,
    Break(u32),
    Nmi,
    Line,
    Execute,
}

/// Whether a bit is 1.
#[inline(always)]
pub(crate) fn has(number: u32, place: u8) -> bool
    requires { place < 32 }
    ensures { result ≡ bit number place }
{
    (number >> place) & 1 == 1
}

/// Whether IF lets interrupts in.
#[tactic(auto, using(crate::proofs::Modes::whole_interrupts))]
#[inline(always)]
pub(crate) fn lets_in(regs: &Regs) -> bool
    ensures { (flags : ℕ) → result ≡ bit (whole regs.now flags).eflags IF }
{
    has(regs.eflags, INTERRUPTS)
}

/// An NMI waits, is not masked, and nothing holds it back.
fn takes_nmi(latches: &Latches) -> bool
    ensures { result ≡ takes_nmi latches.now }
{
    latches.nmi && !latches.masked && latches.hold != HOLD_ALL
}

/// A debug trap is pending, and nothing holds it back.
fn takes_trap(latches: &Latches) -> bool
    ensures { result ≡ takes_trap latches.now }
{
    latches.pending != 0 && latches.hold != HOLD_ALL
}

/// An execution breakpoint is met, RF lets it break, and nothing holds it back.
#[tactic(auto, using(crate::proofs::Modes::modes))]
fn takes_break(regs: &Regs, latches: &Latches, hits: u32) -> bool
    ensures { (flags : ℕ) → result ≡ takes_break (whole regs.now flags) latches.now hits }
{
    hits != 0 && !has(regs.eflags, RESUME) && latches.hold != HOLD_ALL
}

/// The board wants an interrupt, which IF lets in, and nothing holds it back.
#[tactic(auto, using(crate::proofs::Modes::modes))]
fn takes_line(wants: bool, regs: &Regs, latches: &Latches) -> bool
    ensures { (flags : ℕ) → result ≡ takes_line wants (whole regs.now flags) latches.now }
{
    wants && has(regs.eflags, INTERRUPTS) && latches.hold == 0
}

/// What is taken between two instructions, or else `rest`.
#[inline(always)]
fn between(wants: bool, regs: &Regs, latches: &Latches, rest: Row) -> Row
    ensures { (flags : ℕ) → told result ≡ (if takes_trap latches.now then rows.Trap else if takes_nmi latches.now then rows.Nmi
        else if takes_line wants (whole regs.now flags) latches.now then rows.Line else told rest) }
{
    if takes_trap(latches) {
        Row::Trap
    } else if takes_nmi(latches) {
        Row::Nmi
    } else if takes_line(wants, regs, latches) {
        Row::Line
    } else {
        rest
    }
}

/// The same, but a breakpoint comes before an NMI, and else an instruction is executed.
fn before(wants: bool, hits: u32, regs: &Regs, latches: &Latches) -> Row
    ensures { (flags : ℕ) → told result ≡ (if takes_trap latches.now then rows.Trap else if takes_break (whole regs.now flags) latches.now hits then rows.Break hits
        else if takes_nmi latches.now then rows.Nmi else if takes_line wants (whole regs.now flags) latches.now then rows.Line else rows.Execute) }
{
    if takes_trap(latches) {
        Row::Trap
    } else if takes_break(regs, latches, hits) {
        Row::Break(hits)
    } else if takes_nmi(latches) {
        Row::Nmi
    } else if takes_line(wants, regs, latches) {
        Row::Line
    } else {
        Row::Execute
    }
}

/// The first row that holds. `hits` are the bits of DR6 of the breakpoints at CS:EIP.
pub(crate) fn boundary(
    activity: Activity,
    wants: bool,
    hits: u32,
    regs: &Regs,
    latches: &Latches,
) -> Row
    ensures { (flags : ℕ) → told result ≡ boundary_rows activity wants hits (whole regs.now flags) latches.now }
{
    match activity {
        Activity::Running => before(wants, hits, regs, latches),
        Activity::Halted => between(wants, regs, latches, Row::Idle),
        Activity::Shutdown => {
            if takes_nmi(latches) {
                Row::Nmi
            } else {
                Row::Idle
            }
        }
    }
}

/// The bits of DR6 of the execution breakpoints at CS:EIP.
#[tactic(auto, unfolding(mdl_state::specs::Registers::seg_of), using(crate::proofs::Breakpoints::whole_hits))]
pub(crate) fn hits_here(regs: &Regs) -> u32
    ensures { (flags : ℕ) → result ≡ hits_here (whole regs.now flags) }
{
    let code = segment(regs, Seg::Cs);
    execute_hit(regs, code.base.wrapping_add(regs.eip))
}

/// Whether nothing happens in a step.
#[inline(always)]
pub(crate) fn is_idle(row: Row) -> bool
    ensures idle { OnTrue result (told row ≡ rows.Idle) }
    ensures busy { OnFalse result (told row ≡ rows.Idle → ⊥) }
{
    match row {
        Row::Idle => true,
        _ => false,
    }
}

/// Whether an instruction is executed in a step.
pub(crate) fn is_execution(row: Row) -> bool
    ensures executes { OnTrue result (told row ≡ rows.Execute) }
    ensures other { OnFalse result (told row ≡ rows.Execute → ⊥) }
{
    match row {
        Row::Execute => true,
        _ => false,
    }
}

/// What the processor does after an instruction.
#[inline(always)]
pub(crate) fn activity_after(next: Next) -> Activity
    ensures { result ≡ activity_after next }
{
    match next {
        Next::Halt => Activity::Halted,
        _ => Activity::Running,
    }
}

/// What is held back after an instruction.
#[inline(always)]
pub(crate) fn hold_after(next: Next) -> u8
    ensures { result ≡ hold_after next }
{
    match next {
        Next::HoldAll => HOLD_ALL,
        Next::HoldIntr => HOLD_INTERRUPTS,
        _ => 0,
    }
}
