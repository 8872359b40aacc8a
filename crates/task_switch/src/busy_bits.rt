//! The busy bits of the two tasks, and the link of the new one.

ghost use Rattle.std.specs.Prelude.{◌≡◌, ◌≤◌, ◌<◌, ◌+◌, ◌^◌, length};
ghost use Rattle.mdl_state.specs.Serving.{by_pick, outcome};
ghost use Rattle.mdl_state.specs.Accesses.{Keeps, HasRoom};
ghost use Rattle.mdl_state.specs.Attempt.{tried};
ghost use Rattle.mdl_num.specs.Flags.{with_bit};
ghost use Rattle.mdl_cpu.specs.Tasks.{free_plan, busy_bits_plan, is_linked, link_plan};

use desc_load::{place_of, set_busy};
use mdl_cpu::{Desc, Reason};
use mdl_num::with_bit;
use mdl_state::{Access, Fault, Regs, Size, Who};
use mem_iface::Linear;

/// The access byte lies so many bytes behind the first of the descriptor.
const ACCESS_BYTE: u32 = 5;

/// The place in it of the bit of a TSS that is in use.
const BUSY: u8 = 1;

/// An access byte with that bit clear.
#[tactic(auto, unfolding(mdl_num::specs::Flags::with_bit))]
fn freed(byte: u32) -> u32
    requires { byte < 2 ^ 8 }
    ensures value { result ≡ with_bit byte 1 0 }
    ensures bound { result < 2 ^ 8 }
{
    with_bit(byte, BUSY, false)
}

/// The TSS of TR is not busy.
#[tactic(auto, unfolding(mdl_cpu::specs::Tasks::free_plan))]
fn free<L: Linear>(regs: &Regs, lin: &mut L) -> Result<(), Fault>
    requires room { HasRoom (L.seen lin.old) 1 }
    ensures run { (outcome result, L.seen lin.new) ≡ tried (by_pick L.pick) 0 (free_plan regs.now) (L.seen lin.old) }
    ensures room { length (L.seen lin.new).held ≤ length (L.seen lin.old).held + 1 }
    ensures keeps { Keeps (L.seen lin.old) (L.seen lin.new) }
{
    let at = place_of(regs, regs.tr.sel).wrapping_add(ACCESS_BYTE);
    let place = lin.translate(at, Size::B1, Access::Write(Who::Tables))?;
    let byte = lin.get(place, Size::B1);
    lin.hold(place, Size::B1, freed(byte));
    Ok(())
}

/// The busy bits of the old task and of the new one.
#[tactic(auto, using(mdl_state::specs::Rules::attempts), unfolding(mdl_cpu::specs::Tasks::busy_bits_plan))]
pub(crate) fn set_busy_bits<L: Linear>(
    regs: &Regs,
    lin: &mut L,
    reason: Reason,
    desc: &Desc,
) -> Result<(), Fault>
    requires room { HasRoom (L.seen lin.old) 2 }
    ensures run { (outcome result, L.seen lin.new) ≡ tried (by_pick L.pick) 0 (busy_bits_plan regs.now reason desc.now) (L.seen lin.old) }
    ensures room { length (L.seen lin.new).held ≤ length (L.seen lin.old).held + 2 }
    ensures keeps { Keeps (L.seen lin.old) (L.seen lin.new) }
{
    match reason {
        Reason::Jump => {
            free(regs, lin)?;
            set_busy(lin, desc)
        }
        Reason::Call | Reason::Interrupt => set_busy(lin, desc),
        Reason::Return => free(regs, lin),
    }
}

/// The new task is linked to the one that it returns to.
pub(crate) fn is_linked(reason: Reason) -> bool
    ensures { result ≡ is_linked reason }
{
    match reason {
        Reason::Call | Reason::Interrupt => true,
        Reason::Jump | Reason::Return => false,
    }
}

/// The link of the new task.
#[tactic(auto, unfolding(mdl_cpu::specs::Tasks::link_plan))]
pub(crate) fn set_link<L: Linear>(
    regs: &Regs,
    lin: &mut L,
    reason: Reason,
    desc: &Desc,
) -> Result<(), Fault>
    requires room { HasRoom (L.seen lin.old) 2 }
    ensures run { (outcome result, L.seen lin.new) ≡ tried (by_pick L.pick) 0 (link_plan regs.now reason desc.now) (L.seen lin.old) }
    ensures keeps { Keeps (L.seen lin.old) (L.seen lin.new) }
{
    if !is_linked(reason) {
        return Ok(());
    }
    lin.write(desc.base, Size::B2, regs.tr.sel as u32, Who::Tables)
}
