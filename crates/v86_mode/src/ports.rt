//! The permission bitmap of a TSS, which has a bit for each port.

ghost use Rattle.std.specs.Prelude.{◌≡◌, ◌<◌, ◌≤◌, ◌^◌, ℕ};
ghost use Rattle.mdl_state.specs.Bytes.{bytes_of};
ghost use Rattle.mdl_state.specs.Serving.{by_pick, outcome};
ghost use Rattle.mdl_state.specs.Accesses.{Keeps};
ghost use Rattle.mdl_state.specs.Attempt.{tried};
ghost use Rattle.mdl_cpu.specs.Faults.{first_of};
ghost use Rattle.mdl_cpu.specs.Virtual.{asks_bitmap, bitmap_rows, reach_rows, permission_rows, port_plan};

use desc_load::{fault_at, has_protection, has_wide_tss, is_virtual};
use mdl_state::{Fault, Regs, Size, Who};
use mem_iface::Linear;
use privilege_checks::iopl_allows;

/// The vector of a general protection fault.
const GENERAL_PROTECTION: u8 = 13;

/// The word of a TSS that says where in it the bitmap begins.
const BITMAP_BASE: u32 = 0x66;

/// A byte of the bitmap has the bits of so many ports.
const PORTS: u16 = 8;

/// Whether an access to a port asks the bitmap.
fn asks_bitmap(regs: &Regs) -> bool
    ensures { result ≡ asks_bitmap regs.now }
{
    has_protection(regs) && (is_virtual(regs) || !iopl_allows(regs))
}

/// The row of a TSS without a bitmap.
fn bitmap_rows(regs: &Regs) -> Result<(), Fault>
    ensures { result ≡ first_of (bitmap_rows regs.now) }
{
    if !has_wide_tss(regs) {
        return Err(fault_at(GENERAL_PROTECTION, 0));
    }
    Ok(())
}

/// The row of a bitmap that begins at `base` and ends before the second byte for a port.
fn reach_rows(regs: &Regs, base: u32, port: u16) -> Result<(), Fault>
    requires { base < 2 ^ 16 }
    ensures { result ≡ first_of (reach_rows regs.now base port) }
{
    if regs.tr.limit < base + (port / PORTS) as u32 + 1 {
        return Err(fault_at(GENERAL_PROTECTION, 0));
    }
    Ok(())
}

/// How many numbers the bits of an access make, one for each of its ports.
fn combinations(size: Size) -> u32
    ensures value { result ≡ 2 ^ bytes_of size }
    ensures some { 1 ≤ result }
{
    match size {
        Size::B1 => 0x2,
        Size::B2 => 0x4,
        Size::B4 => 0x10,
    }
}

/// The row of an access one of whose ports has a 1.
fn permission_rows(port: u16, size: Size, bits: u32) -> Result<(), Fault>
    ensures { result ≡ first_of (permission_rows port size bits) }
{
    if (bits >> (port % PORTS)) % combinations(size) != 0 {
        return Err(fault_at(GENERAL_PROTECTION, 0));
    }
    Ok(())
}

/// Whether an access to a port is permitted, by IOPL or by the bitmap of the current TSS, with its fault:
/// #GP(0), or the page fault of a part of the TSS. The port is not used yet. Chapters 8 and 15.
#[tactic(auto, using(mdl_state::specs::Rules::attempts), unfolding(mdl_cpu::specs::Virtual::port_plan))]
pub fn port_allowed<L: Linear>(regs: &Regs, lin: &mut L, port: u16, size: Size) -> Result<(), Fault>
    ensures run { (given : ℕ) → (outcome result, L.seen lin.new) ≡ tried (by_pick L.pick) given (port_plan regs.now port size) (L.seen lin.old) }
    ensures keeps { Keeps (L.seen lin.old) (L.seen lin.new) }
    ensures held { (L.seen lin.new).held ≡ (L.seen lin.old).held }
{
    if !asks_bitmap(regs) {
        return Ok(());
    }
    bitmap_rows(regs)?;
    let base = lin.read(
        regs.tr.base.wrapping_add(BITMAP_BASE),
        Size::B2,
        Who::Tables,
    )?;
    reach_rows(regs, base, port)?;
    let place = base + (port / PORTS) as u32;
    let bits = lin.read(regs.tr.base.wrapping_add(place), Size::B2, Who::Tables)?;
    permission_rows(port, size, bits)
}
