//! The flags that an operation leaves.

ghost use Rattle.std.specs.Prelude.{◌≡◌};
ghost use Rattle.mdl_state.specs.declared.Regs.{Regs};
ghost use Rattle.mdl_num.specs.Flags.{flags_after};
ghost use Rattle.mdl_num.specs.declared.status.Status.{Status};
ghost use Rattle.mdl_effect.specs.Operands.{with_flags};
ghost use Rattle.operands.specs.Whole.{whole};

use lazy_flags::Flags;

/// The number of DF in EFLAGS.
pub const DF: u8 = 10;

/// Keeps the status flags of EFLAGS as an operation leaves it.
#[tactic(auto, using(crate::proofs::Statuses::unpacked))]
pub fn keep(flags: &mut Flags, eflags: u32)
    ensures { (r : Regs) (status : Status) → eflags ≡ flags_after status (whole r flags.old).eflags eflags
        → whole r flags.new ≡ with_flags (whole r flags.old) status (whole r flags.new).eflags }
{
    *flags = Flags::unpack(eflags);
}
