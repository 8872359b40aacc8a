//! The old part of a switch: what is tested, and what is saved.

ghost use Rattle.std.specs.Prelude.{◌≡◌};
ghost use Rattle.mdl_state.specs.Serving.{by_pick, outcome};
ghost use Rattle.mdl_state.specs.Accesses.{Keeps, HasRoom};
ghost use Rattle.mdl_state.specs.Attempt.{tried};
ghost use Rattle.mdl_cpu.specs.Faults.{first_of};
ghost use Rattle.mdl_cpu.specs.OldTask.{is_return, wrong_task, is_target, needs_privilege, selector_rows, task_rows, old_flags, old_plan};

use crate::busy_bits::{set_busy_bits, set_link};
use crate::images::{image_of, read_image, save_image};
use crate::kinds::{is_available_tss, is_busy_tss, is_wide_tss, least_limit};
use desc_load::{fault_at, fetch_descriptor, has_wide_tss, in_ldt, is_beyond, is_null, is_present};
use mdl_cpu::{Desc, Reason, Request, Task};
use mdl_num::with_bit;
use mdl_state::{Fault, Regs};
use mem_iface::Linear;

/// The vector of a wrong TSS.
const WRONG_TSS: u8 = 10;

/// The vector of a segment that is not present.
const NOT_PRESENT: u8 = 11;

/// The vector of a general protection fault.
const GENERAL_PROTECTION: u8 = 13;

/// The places of NT and RF in EFLAGS.
const NT: u8 = 14;

const RF: u8 = 16;

/// IRET returns to the task of a link.
fn is_return(reason: Reason) -> bool
    ensures { result ≡ is_return reason }
{
    match reason {
        Reason::Return => true,
        _ => false,
    }
}

/// The vector of a wrong selector.
fn wrong_task(reason: Reason) -> u8
    ensures { result ≡ wrong_task reason }
{
    match reason {
        Reason::Return => WRONG_TSS,
        _ => GENERAL_PROTECTION,
    }
}

/// A TSS that may be switched to for this reason.
fn is_target(reason: Reason, desc: &Desc) -> bool
    ensures { result ≡ is_target reason desc.now }
{
    match reason {
        Reason::Return => is_busy_tss(desc),
        _ => is_available_tss(desc),
    }
}

/// An instruction that names a TSS needs its privilege.
fn needs_privilege(reason: Reason, direct: bool) -> bool
    ensures { result ≡ needs_privilege reason direct }
{
    match reason {
        Reason::Jump | Reason::Call => direct,
        _ => false,
    }
}

/// The rows of the selector.
fn selector_rows(request: Request) -> Result<(), Fault>
    ensures { result ≡ first_of (selector_rows request) }
{
    let wrong = wrong_task(request.reason);
    if is_null(request.selector) {
        return Err(fault_at(wrong, request.selector));
    }
    if in_ldt(request.selector) {
        return Err(fault_at(wrong, request.selector));
    }
    Ok(())
}

/// The rows of both TSS.
fn task_rows(regs: &Regs, request: Request, desc: &Desc) -> Result<(), Fault>
    ensures { result ≡ first_of (task_rows regs.now request desc.now) }
{
    let (sel, reason) = (request.selector, request.reason);
    if !is_target(reason, desc) {
        return Err(fault_at(wrong_task(reason), sel));
    }
    if needs_privilege(reason, request.direct) && is_beyond(desc, sel, regs.cpl) {
        return Err(fault_at(GENERAL_PROTECTION, sel));
    }
    if !is_present(desc) {
        return Err(fault_at(NOT_PRESENT, sel));
    }
    if desc.limit < least_limit(is_wide_tss(desc)) {
        return Err(fault_at(WRONG_TSS, sel));
    }
    if regs.tr.limit < least_limit(has_wide_tss(regs)) {
        return Err(fault_at(WRONG_TSS, regs.tr.sel));
    }
    Ok(())
}

/// The flags that are saved.
fn old_flags(request: Request, flags: u32) -> u32
    ensures { result ≡ old_flags request flags }
{
    let left = if is_return(request.reason) {
        with_bit(flags, NT, false)
    } else {
        flags
    };
    if request.fault {
        with_bit(left, RF, true)
    } else {
        left
    }
}

/// The new task is tested and read, and the old one is saved: its image, the busy bits and the link are
/// held.
#[tactic(auto, using(mdl_state::specs::Rules::attempts), unfolding(mdl_cpu::specs::OldTask::old_plan))]
pub(crate) fn leave<L: Linear>(regs: &Regs, lin: &mut L, request: Request) -> Result<Task, Fault>
    requires room { HasRoom (L.seen lin.old) 56 }
    ensures run { (outcome result, L.seen lin.new)
        ≡ tried (by_pick L.pick) 0 (old_plan regs.now request) (L.seen lin.old) }
    ensures keeps { Keeps (L.seen lin.old) (L.seen lin.new) }
{
    selector_rows(request)?;
    let desc = fetch_descriptor(regs, lin, request.selector, wrong_task(request.reason))?;
    task_rows(regs, request, &desc)?;
    let image = read_image(lin, is_wide_tss(&desc), desc.base)?;
    let saved = image_of(regs, request.back, old_flags(request, regs.eflags));
    save_image(lin, has_wide_tss(regs), regs.tr.base, &saved)?;
    set_busy_bits(regs, lin, request.reason, &desc)?;
    set_link(regs, lin, request.reason, &desc)?;
    Ok(Task { desc, image })
}
