//! The instructions of the flags: CLC, STC, CMC, CLD, STD, LAHF and SAHF.

ghost use Rattle.std.specs.Prelude.{◌≡◌, ℕ};
ghost use Rattle.mdl_state.specs.State.{Mem};
ghost use Rattle.mdl_state.specs.Serving.{Serve};
ghost use Rattle.mdl_state.specs.Attempt.{tried};
ghost use Rattle.mdl_num.specs.declared.status.TheConstants.{CF};
ghost use Rattle.mdl_effect.specs.Operands.{DF, with_flags};
ghost use Rattle.mdl_effect.specs.FlagEffects.{flag_plan, flags_to_ah_plan, ah_to_flags_plan};
ghost use Rattle.operands.specs.Whole.{whole};
ghost use Rattle.exec_flow.specs.Followed.{followed};

use lazy_flags::Flags;
use mdl_num::{AF, CF, Flag, PF, SF, Status, ZF, bit, settle, untouched, with_bit};
use mdl_state::{Regs, Size};
use operands::{AH, DF, keep, reg, set_reg};

/// The status flags as these rules say.
fn keep_status(regs: &Regs, flags: &mut Flags, status: Status)
    ensures { whole regs.now flags.new ≡ with_flags (whole regs.now flags.old) status (whole regs.now flags.new).eflags }
{
    keep(flags, settle(status, flags.pack(regs.eflags)));
}

/// CLC, STC and CMC, by what CF becomes.
#[tactic(auto, unfolding(mdl_effect::specs::FlagEffects::flag_plan, mdl_num::specs::Flags::flags_after, mdl_num::specs::Flags::untouched_status))]
pub(crate) fn set_carry(regs: &Regs, flags: &mut Flags, on: bool)
    ensures { (serve : Serve) (m : Mem) → (followed (whole regs.now flags.new), m)
        ≡ tried serve 0 (flag_plan CF on (whole regs.now flags.old)) m }
{
    let status = Status {
        carry: Flag::Tells(on),
        ..untouched()
    };
    keep_status(regs, flags, status);
}

/// CLD and STD, by what DF becomes.
#[tactic(auto, using(crate::proofs::Direction::direction), unfolding(mdl_effect::specs::FlagEffects::flag_plan))]
pub(crate) fn set_direction(regs: &mut Regs, on: bool)
    ensures { (flags : ℕ) (serve : Serve) (m : Mem) → (followed (whole regs.new flags), m)
        ≡ tried serve 0 (flag_plan DF on (whole regs.old flags)) m }
{
    regs.eflags = with_bit(regs.eflags, DF, on);
}

/// LAHF.
#[tactic(auto, unfolding(mdl_effect::specs::FlagEffects::flags_to_ah_plan))]
pub(crate) fn load_ah(regs: &mut Regs, flags: &Flags)
    ensures { (serve : Serve) (m : Mem) → (followed (whole regs.new flags.now), m)
        ≡ tried serve 0 (flags_to_ah_plan (whole regs.old flags.now)) m }
{
    set_reg(regs, AH, Size::B1, flags.pack(regs.eflags) % 0x100);
}

/// SAHF.
#[tactic(auto, using(lazy_flags::proofs::Packing::bits), unfolding(mdl_effect::specs::FlagEffects::ah_to_flags_plan, mdl_num::specs::Flags::flags_after, mdl_num::specs::Flags::untouched_status))]
pub(crate) fn store_ah(regs: &Regs, flags: &mut Flags)
    ensures { (serve : Serve) (m : Mem) → (followed (whole regs.now flags.new), m)
        ≡ tried serve 0 (ah_to_flags_plan (whole regs.now flags.old)) m }
{
    let ah = reg(regs, AH, Size::B1);
    let status = Status {
        carry: Flag::Tells(bit(ah, CF)),
        parity: Flag::Tells(bit(ah, PF)),
        adjust: Flag::Tells(bit(ah, AF)),
        zero: Flag::Tells(bit(ah, ZF)),
        sign: Flag::Tells(bit(ah, SF)),
        ..untouched()
    };
    keep_status(regs, flags, status);
}
