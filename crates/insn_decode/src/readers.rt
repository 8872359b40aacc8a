//! Readers of operands, each of some forms. Where the row is a constant one is only what that form needs.

ghost use Rattle.std.specs.Prelude.{◌≡◌, ◌≤◌, ◌&&◌, ◌||◌, not, true};
ghost use Rattle.mdl_insn.specs.Addresses.{may_address as may_address_of};
ghost use Rattle.mdl_insn.specs.declared.rows.Form.{Form as AnyForm};
ghost use Rattle.mdl_insn.specs.declared.rows.Row.{Row as AnyRow};
ghost use Rattle.std.specs.Prelude.{Bool};
ghost use Rattle.insn_decode.specs.Reading.{Runs, left};
ghost use Rattle.insn_decode.specs.Selection.{operand_tree};
ghost use Rattle.insn_decode.specs.Shapes.{is_register, is_named, is_count, is_number, is_distance};

use crate::addresses::reg_of;
use crate::operands::{Selected, distance, modrm, number, own_any};
use crate::refusals::Undecoded;
use mdl_insn::rows::Form;
use mdl_insn::{Fetch, Operand};
use mdl_state::Size;

/// How an operand is read.
pub(crate) trait Reader {
    /// Which forms it reads in which rows.
    ghost reads: { AnyRow → AnyForm → Bool };

    /// The operand, written in place.
    fn read<F: Fetch>(
        fetch: &mut F,
        count: &mut u8,
        k: &Selected,
        form: Form,
        to: &mut Operand,
    ) -> Result<(), Undecoded>
        requires room { count.old ≤ 15 }
        requires form { reads k.now.row.now form ≡ true }
        ensures runs { Runs F.gives (operand_tree k.now form) count.old fetch.old (left result to.new) count.new fetch.new }
        ensures count { count.new ≤ 15 };
}

/// A register or memory by the ModRM byte.
pub(crate) struct Addressed;

impl Reader for Addressed {
    ghost reads = { λ r f. may_address_of f && (may_address_of r.a || may_address_of r.b) };

    #[tactic(auto, using(crate::proofs::Asked::addressed_form, crate::proofs::Asked::addressed_row))]
    #[inline(always)]
    fn read<F: Fetch>(
        fetch: &mut F,
        count: &mut u8,
        k: &Selected,
        form: Form,
        to: &mut Operand,
    ) -> Result<(), Undecoded> {
        modrm(fetch, count, k, form, to)
    }
}

/// A register by the reg field.
pub(crate) struct Register;

impl Reader for Register {
    ghost reads = { λ _ f. is_register f };

    #[tactic(auto, using(crate::proofs::Placing::own_fixed), unfolding(crate::specs::Reading::Runs))]
    #[inline(always)]
    fn read<F: Fetch>(
        _fetch: &mut F,
        _count: &mut u8,
        k: &Selected,
        form: Form,
        to: &mut Operand,
    ) -> Result<(), Undecoded> {
        match form {
            Form::Gb => {
                *to = Operand::Gpr(reg_of(k.modrm), Size::B1);
                Ok(())
            }
            Form::Gv => {
                *to = Operand::Gpr(reg_of(k.modrm), k.setting.size);
                Ok(())
            }
            _ => Err(Undecoded::Undefined),
        }
    }
}

/// A register that the opcode names.
pub(crate) struct Named;

impl Reader for Named {
    ghost reads = { λ _ f. is_named f };

    #[tactic(auto, using(crate::proofs::Placing::own_fixed), unfolding(crate::specs::Reading::Runs))]
    #[inline(always)]
    fn read<F: Fetch>(
        _fetch: &mut F,
        _count: &mut u8,
        k: &Selected,
        form: Form,
        to: &mut Operand,
    ) -> Result<(), Undecoded> {
        match form {
            Form::Al => {
                *to = Operand::Gpr(0, Size::B1);
                Ok(())
            }
            Form::Ax => {
                *to = Operand::Gpr(0, k.setting.size);
                Ok(())
            }
            Form::Rb => {
                *to = Operand::Gpr(k.opcode % 8, Size::B1);
                Ok(())
            }
            Form::Rv => {
                *to = Operand::Gpr(k.opcode % 8, k.setting.size);
                Ok(())
            }
            _ => Err(Undecoded::Undefined),
        }
    }
}

/// Nothing, or the count of a shift.
pub(crate) struct Count;

impl Reader for Count {
    ghost reads = { λ _ f. is_count f };

    #[tactic(auto, using(crate::proofs::Placing::own_fixed), unfolding(crate::specs::Reading::Runs))]
    #[inline(always)]
    fn read<F: Fetch>(
        _fetch: &mut F,
        _count: &mut u8,
        _k: &Selected,
        form: Form,
        to: &mut Operand,
    ) -> Result<(), Undecoded> {
        match form {
            Form::No => {
                *to = Operand::Nothing;
                Ok(())
            }
            Form::Once => {
                *to = Operand::Imm(1, Size::B1);
                Ok(())
            }
            Form::Cl => {
                *to = Operand::Gpr(1, Size::B1);
                Ok(())
            }
            _ => Err(Undecoded::Undefined),
        }
    }
}

/// A number behind the opcode or the address.
pub(crate) struct Number;

impl Reader for Number {
    ghost reads = { λ _ f. is_number f };

    #[inline(always)]
    fn read<F: Fetch>(
        fetch: &mut F,
        count: &mut u8,
        k: &Selected,
        form: Form,
        to: &mut Operand,
    ) -> Result<(), Undecoded> {
        number(fetch, count, k, form, to)
    }
}

/// The distance of a branch.
pub(crate) struct Distance;

impl Reader for Distance {
    ghost reads = { λ _ f. is_distance f };

    #[inline(always)]
    fn read<F: Fetch>(
        fetch: &mut F,
        count: &mut u8,
        k: &Selected,
        form: Form,
        to: &mut Operand,
    ) -> Result<(), Undecoded> {
        distance(fetch, count, k, form, to)
    }
}

/// Any but a register or memory by the ModRM byte.
pub(crate) struct Other;

impl Reader for Other {
    ghost reads = { λ _ f. not (may_address_of f) };

    #[tactic(auto, using(crate::proofs::Asked::other_form))]
    #[inline(always)]
    fn read<F: Fetch>(
        fetch: &mut F,
        count: &mut u8,
        k: &Selected,
        form: Form,
        to: &mut Operand,
    ) -> Result<(), Undecoded> {
        own_any(fetch, count, k, form, to)
    }
}
