//! Which rows and which ModRM bytes are legal.

ghost use Rattle.std.specs.Prelude.{◌≡◌, ◌&&◌, IsTrue};
ghost use Rattle.mdl_insn.specs.Addresses.{has_modrm as has_modrm_of, may_address as may_address_of};
ghost use Rattle.mdl_insn.specs.Operands as spec;
ghost use Rattle.mdl_insn.specs.Fits.{IsEntry, row_fits};
ghost use Rattle.mdl_insn.specs.RowTree.{starts};

use crate::addresses::{mod_of, reg_of};
use mdl_insn::Op;
use mdl_insn::lookups::group_locks;
use mdl_insn::rows::{Entry, Form, Kind, Row, Setting};

/// An operand that may be memory by the ModRM byte.
#[inline(always)]
pub fn may_address(form: Form) -> bool
    ensures { result ≡ may_address_of form }
{
    matches!(form, Form::Eb | Form::Ev | Form::Ew | Form::M)
}

#[tactic(auto, using(crate::proofs::RowKinds::bare_modrm, crate::proofs::RowKinds::first_modrm, crate::proofs::RowKinds::second_modrm, crate::proofs::RowKinds::address_modrm, crate::proofs::RowKinds::odd_modrm))]
#[inline(always)]
pub fn has_modrm(row: &Row) -> bool
    requires { IsTrue (row_fits row.now) }
    ensures { result ≡ has_modrm_of row.now }
{
    match row.kind {
        Kind::Bare => false,
        Kind::First => true,
        Kind::Second => true,
        Kind::Address => true,
        Kind::Odd => true,
    }
}

/// Which ModRM bytes an operand allows.
#[inline(always)]
fn form_allows(form: Form, m: u8) -> bool
    ensures { result ≡ spec.form_allows form m }
{
    match form {
        Form::M => mod_of(m) < 3,
        Form::S => reg_of(m) < 6,
        Form::Sd => reg_of(m) < 6 && reg_of(m) != 1,
        Form::Cd => reg_of(m) == 0 || reg_of(m) == 2 || reg_of(m) == 3,
        Form::Dd => reg_of(m) != 4 && reg_of(m) != 5,
        _ => true,
    }
}

/// The instructions that LOCK may stand before.
#[inline(always)]
fn locks(op: Op) -> bool
    ensures { result ≡ spec.locks op }
{
    matches!(
        op,
        Op::Add
            | Op::Or
            | Op::Adc
            | Op::Sbb
            | Op::And
            | Op::Sub
            | Op::Xor
            | Op::Not
            | Op::Neg
            | Op::Inc
            | Op::Dec
            | Op::Xchg
            | Op::Bt
            | Op::Bts
            | Op::Btr
            | Op::Btc
    )
}

/// And then only where the first operand is memory.
#[inline(always)]
fn lockable(row: &Row) -> bool
    ensures { result ≡ spec.lockable row.now }
{
    locks(row.op) && may_address(row.a)
}

/// Which ModRM bytes the operands of a row allow.
#[tactic(auto, using(crate::proofs::RowKinds::bare_allows, crate::proofs::RowKinds::first_allows, crate::proofs::RowKinds::second_allows, crate::proofs::RowKinds::address_allows))]
#[inline(always)]
fn forms_allow(row: &Row, m: u8) -> bool
    requires { IsTrue (row_fits row.now) }
    ensures { result ≡ (spec.form_allows row.now.a m && spec.form_allows row.now.b m) }
{
    match row.kind {
        Kind::Bare => true,
        Kind::First => true,
        Kind::Second => true,
        Kind::Address => mod_of(m) < 3,
        Kind::Odd => form_allows(row.a, m) && form_allows(row.b, m),
    }
}

/// Which a row allows, with LOCK and without.
#[inline(always)]
pub fn allows(s: &Setting, row: &Row, m: u8) -> bool
    requires { IsTrue (row_fits row.now) }
    ensures { result ≡ spec.allows s.now row.now m }
{
    forms_allow(row, m) && (!s.lock || (lockable(row) && mod_of(m) < 3))
}

/// Whether some row of the entry may follow the prefixes.
#[inline(always)]
pub fn is_start(lock: bool, entry: &Entry) -> bool
    requires { IsEntry entry.now }
    ensures { result ≡ starts lock entry.now }
{
    match entry {
        Entry::Undefined => false,
        Entry::One(row) => !lock || lockable(row),
        Entry::Group(group) => !lock || group_locks(*group),
    }
}
