//! The new CS and EIP of a transfer.

ghost use Rattle.std.specs.Prelude.{◌≡◌, ◌≤◌, ◌+◌, length};
ghost use Rattle.mdl_state.specs.State.{Mem};
ghost use Rattle.mdl_state.specs.Serving.{Serve, by_pick};
ghost use Rattle.mdl_state.specs.Accesses.{Keeps, HasRoom};
ghost use Rattle.mdl_state.specs.Attempt.{tried};
ghost use Rattle.mdl_cpu.specs.Faults.{general_protection};
ghost use Rattle.mdl_cpu.specs.Descriptors.{with_rpl};
ghost use Rattle.mdl_cpu.specs.Loads.{answered};
ghost use Rattle.mdl_cpu.specs.Transfers.{land_plan, enter_plan};
ghost use Rattle.gate_transfer.specs.Ways.{plain_code_plan};

use desc_load::{Desc, load_known, load_real, load_v86, rpl};
use mdl_state::{Fault, Regs, Seg};
use mem_iface::Linear;
use seg_unit::segment;

/// The vector of a general protection fault.
pub(crate) const GENERAL_PROTECTION: u8 = 13;

/// A mode in which a selector says by itself where its segment lies.
#[derive(Clone, Copy)]
pub(crate) enum PlainMode {
    Real,
    Virtual,
}

/// Where a transfer leads: a selector, and an EIP in its segment.
#[derive(Clone, Copy)]
pub(crate) struct Pointer {
    pub(crate) selector: u16,
    pub(crate) eip: u32,
}

/// A general protection fault, as that of an EIP past the limit of CS.
pub(crate) fn general_protection(code: u16) -> Fault
    ensures { result ≡ general_protection code }
{
    Fault {
        vector: GENERAL_PROTECTION,
        code,
        addr: 0,
    }
}

/// The selector with this RPL.
pub(crate) fn with_rpl(sel: u16, level: u8) -> u16
    requires { level ≤ 3 }
    ensures { result ≡ with_rpl sel level }
{
    sel - rpl(sel) as u16 + level as u16
}

/// EIP, tested against the limit of CS.
#[tactic(auto, unfolding(mdl_cpu::specs::Transfers::land_plan))]
fn land(regs: &mut Regs, eip: u32) -> Result<(), Fault>
    ensures { (serve : Serve) (m : Mem) → (answered result regs.new, m) ≡ tried serve 0 (land_plan regs.old eip) m }
{
    if eip > segment(regs, Seg::Cs).limit {
        return Err(general_protection(0));
    }
    regs.eip = eip;
    Ok(())
}

/// CS and EIP without a descriptor. At a fault CS is set already: who calls drops these registers then.
#[tactic(auto, unfolding(mdl_cpu::specs::Transfers::real_code_plan, mdl_cpu::specs::Transfers::virtual_code_plan))]
pub(crate) fn set_code(regs: &mut Regs, mode: PlainMode, sel: u16, eip: u32) -> Result<(), Fault>
    ensures { (serve : Serve) (m : Mem) → (answered result regs.new, m) ≡ tried serve 0 (plain_code_plan mode regs.old sel eip) m }
{
    match mode {
        PlainMode::Real => {
            load_real(regs, Seg::Cs, sel);
            land(regs, eip)
        }
        PlainMode::Virtual => {
            load_v86(regs, Seg::Cs, sel);
            land(regs, eip)
        }
    }
}

/// CS with a descriptor that was tested, and EIP: the last check, and then the accessed bit.
#[tactic(auto, using(mdl_state::specs::Rules::attempts), unfolding(mdl_cpu::specs::Transfers::enter_plan))]
pub(crate) fn enter<L: Linear>(
    regs: &mut Regs,
    lin: &mut L,
    sel: u16,
    desc: &Desc,
    eip: u32,
) -> Result<(), Fault>
    requires room { HasRoom (L.seen lin.old) 1 }
    ensures run { (answered result regs.new, L.seen lin.new)
        ≡ tried (by_pick L.pick) 0 (enter_plan regs.old sel desc.now eip) (L.seen lin.old) }
    ensures room { length (L.seen lin.new).held ≤ length (L.seen lin.old).held + 1 }
    ensures keeps { Keeps (L.seen lin.old) (L.seen lin.new) }
{
    if desc.limit < eip {
        return Err(general_protection(0));
    }
    load_known(regs, lin, Seg::Cs, sel, *desc)?;
    regs.eip = eip;
    Ok(())
}
