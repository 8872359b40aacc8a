//! A row, from its opcode to its last operand.

ghost use Rattle.std.specs.Prelude.{◌≡◌, ◌≤◌, IsTrue, IfOk, true, false};
ghost use Rattle.mdl_insn.specs.Addresses.{may_address as may_address_of};
ghost use Rattle.mdl_insn.specs.Operands as operand_spec;
ghost use Rattle.mdl_insn.specs.Spelling as spec;
ghost use Rattle.mdl_insn.specs.Fits.{IsEntry, row_fits};
ghost use Rattle.mdl_insn.specs.RowTree.{behind_tree, row_tree};
ghost use Rattle.insn_decode.specs.Reading.{Runs, left, three, three_tree, pick_tree, found_tree};
ghost use Rattle.insn_decode.specs.Selection.{chosen_by, picked};

use crate::addresses::reg_of;
use crate::bytes::byte;
use crate::legality::{allows, has_modrm, is_start};
use crate::operands::{Selected, any, last, modrm, rest};
use crate::refusals::Undecoded;
use mdl_insn::lookups::{member_entry, one_entry, two_entry};
use mdl_insn::rows::{Entry, Kind, Row, Setting, Width};
use mdl_insn::{Fetch, Insn, Op, Operand, Rep};
use mdl_state::Size;

/// The operands of a row with no memory by a ModRM byte.
#[tactic(auto, using(crate::proofs::Running::runs_err, crate::proofs::Running::runs_ok), unfolding(crate::specs::Reading::Runs, crate::specs::Reading::three_tree))]
#[inline(always)]
fn bare<F: Fetch>(
    fetch: &mut F,
    count: &mut u8,
    k: &Selected,
    a: &mut Operand,
    b: &mut Operand,
    c: &mut Operand,
) -> Result<(), Undecoded>
    requires room { count.old ≤ 15 }
    requires a { may_address_of k.now.row.now.a ≡ false }
    requires b { may_address_of k.now.row.now.b ≡ false }
    requires c { may_address_of k.now.row.now.c ≡ false }
    ensures runs { Runs F.gives (three_tree k.now.setting.now (chosen_by k.now)) count.old fetch.old (left result (three a.new b.new c.new)) count.new fetch.new }
    ensures count { count.new ≤ 15 }
{
    rest(fetch, count, k, k.row.a, a)?;
    rest(fetch, count, k, k.row.b, b)?;
    last(fetch, count, k, k.row.c, c)
}

/// The operands where the first is a register or memory.
#[tactic(auto, using(crate::proofs::Running::runs_err, crate::proofs::Running::runs_ok), unfolding(crate::specs::Reading::Runs, crate::specs::Reading::three_tree))]
#[inline(always)]
fn first<F: Fetch>(
    fetch: &mut F,
    count: &mut u8,
    k: &Selected,
    a: &mut Operand,
    b: &mut Operand,
    c: &mut Operand,
) -> Result<(), Undecoded>
    requires room { count.old ≤ 15 }
    requires a { may_address_of k.now.row.now.a ≡ true }
    requires b { may_address_of k.now.row.now.b ≡ false }
    requires c { may_address_of k.now.row.now.c ≡ false }
    ensures runs { Runs F.gives (three_tree k.now.setting.now (chosen_by k.now)) count.old fetch.old (left result (three a.new b.new c.new)) count.new fetch.new }
    ensures count { count.new ≤ 15 }
{
    modrm(fetch, count, k, k.row.a, a)?;
    rest(fetch, count, k, k.row.b, b)?;
    last(fetch, count, k, k.row.c, c)
}

/// The operands where the second is a register or memory.
#[tactic(auto, using(crate::proofs::Running::runs_err, crate::proofs::Running::runs_ok), unfolding(crate::specs::Reading::Runs, crate::specs::Reading::three_tree))]
#[inline(always)]
fn second<F: Fetch>(
    fetch: &mut F,
    count: &mut u8,
    k: &Selected,
    a: &mut Operand,
    b: &mut Operand,
    c: &mut Operand,
) -> Result<(), Undecoded>
    requires room { count.old ≤ 15 }
    requires a { may_address_of k.now.row.now.a ≡ false }
    requires b { may_address_of k.now.row.now.b ≡ true }
    requires c { may_address_of k.now.row.now.c ≡ false }
    ensures runs { Runs F.gives (three_tree k.now.setting.now (chosen_by k.now)) count.old fetch.old (left result (three a.new b.new c.new)) count.new fetch.new }
    ensures count { count.new ≤ 15 }
{
    rest(fetch, count, k, k.row.a, a)?;
    modrm(fetch, count, k, k.row.b, b)?;
    last(fetch, count, k, k.row.c, c)
}

/// The operands of any row.
#[tactic(auto, using(crate::proofs::Running::runs_err, crate::proofs::Running::runs_ok), unfolding(crate::specs::Reading::Runs, crate::specs::Reading::three_tree))]
#[inline(never)]
fn odd<F: Fetch>(
    fetch: &mut F,
    count: &mut u8,
    k: &Selected,
    a: &mut Operand,
    b: &mut Operand,
    c: &mut Operand,
) -> Result<(), Undecoded>
    requires room { count.old ≤ 15 }
    requires c { may_address_of k.now.row.now.c ≡ false }
    ensures runs { Runs F.gives (three_tree k.now.setting.now (chosen_by k.now)) count.old fetch.old (left result (three a.new b.new c.new)) count.new fetch.new }
    ensures count { count.new ≤ 15 }
{
    any(fetch, count, k, k.row.a, a)?;
    any(fetch, count, k, k.row.b, b)?;
    last(fetch, count, k, k.row.c, c)
}

/// The three operands of a row.
#[tactic(auto, using(crate::proofs::RowKinds::fits_c, crate::proofs::RowKinds::first_a, crate::proofs::RowKinds::first_b, crate::proofs::RowKinds::second_a, crate::proofs::RowKinds::second_b, crate::proofs::RowKinds::address_a, crate::proofs::RowKinds::address_b, crate::proofs::RowKinds::bare_a, crate::proofs::RowKinds::bare_b))]
#[inline(always)]
fn operands<F: Fetch>(
    fetch: &mut F,
    count: &mut u8,
    k: &Selected,
    a: &mut Operand,
    b: &mut Operand,
    c: &mut Operand,
) -> Result<(), Undecoded>
    requires room { count.old ≤ 15 }
    requires fits { IsTrue (row_fits k.now.row.now) }
    ensures runs { Runs F.gives (three_tree k.now.setting.now (chosen_by k.now)) count.old fetch.old (left result (three a.new b.new c.new)) count.new fetch.new }
    ensures count { count.new ≤ 15 }
{
    match k.row.kind {
        Kind::First => first(fetch, count, k, a, b, c),
        Kind::Second => second(fetch, count, k, a, b, c),
        Kind::Address => second(fetch, count, k, a, b, c),
        Kind::Bare => bare(fetch, count, k, a, b, c),
        Kind::Odd => odd(fetch, count, k, a, b, c),
    }
}

#[inline(always)]
pub(crate) fn size_of(s: &Setting, width: Width) -> Size
    ensures { result ≡ spec.size_of s.now width }
{
    match width {
        Width::Byte => Size::B1,
        Width::Full => s.size,
        Width::Four => Size::B4,
    }
}

#[inline(always)]
fn is_string(op: Op) -> bool
    ensures { result ≡ operand_spec.is_string op }
{
    matches!(
        op,
        Op::Ins | Op::Outs | Op::Movs | Op::Cmps | Op::Stos | Op::Lods | Op::Scas
    )
}

/// A repeat prefix counts before a string instruction alone.
#[inline(always)]
pub(crate) fn rep_of(op: Op, rep: Rep) -> Rep
    ensures { result ≡ spec.rep_of op rep }
{
    match rep {
        Rep::Plain => Rep::Plain,
        Rep::Equal => { if is_string(op) { rep } else { Rep::Plain } }
        Rep::NotEqual => { if is_string(op) { rep } else { Rep::Plain } }
    }
}

/// What follows the ModRM byte.
#[tactic(auto, using(crate::proofs::Placing::behind_left))]
#[inline(always)]
fn behind<F: Fetch>(
    fetch: &mut F,
    count: &mut u8,
    k: &Selected,
    insn: &mut Insn,
) -> Result<(), Undecoded>
    requires room { count.old ≤ 15 }
    requires fits { IsTrue (row_fits k.now.row.now) }
    requires allowed { IsTrue (operand_spec.allows k.now.setting.now k.now.row.now k.now.modrm) }
    ensures runs { Runs F.gives (behind_tree k.now.setting.now (chosen_by k.now)) count.old fetch.old (left result insn.new) count.new fetch.new }
    ensures count { count.new ≤ 15 }
{
    insn.op = k.row.op;
    insn.size = size_of(k.setting, k.row.width);
    insn.wide = k.setting.wide;
    insn.over = k.setting.over;
    insn.lock = k.setting.lock;
    insn.rep = rep_of(k.row.op, k.setting.rep);
    operands(fetch, count, k, &mut insn.a, &mut insn.b, &mut insn.c)
}

/// What follows the ModRM byte of any row.
#[inline(never)]
fn behind_any<F: Fetch>(
    fetch: &mut F,
    count: &mut u8,
    k: &Selected,
    insn: &mut Insn,
) -> Result<(), Undecoded>
    requires room { count.old ≤ 15 }
    requires fits { IsTrue (row_fits k.now.row.now) }
    requires allowed { IsTrue (operand_spec.allows k.now.setting.now k.now.row.now k.now.modrm) }
    ensures runs { Runs F.gives (behind_tree k.now.setting.now (chosen_by k.now)) count.old fetch.old (left result insn.new) count.new fetch.new }
    ensures count { count.new ≤ 15 }
{
    behind(fetch, count, k, insn)
}

/// The row of an entry. `modrm` is the ModRM byte that chooses it or that it has, or 0.
#[tactic(auto, using(crate::proofs::Picking::none, crate::proofs::Picking::bare, crate::proofs::Picking::one, crate::proofs::Picking::one_err, crate::proofs::Picking::member, crate::proofs::Picking::member_undefined, crate::proofs::Picking::member_group, crate::proofs::Picking::member_err))]
#[inline(always)]
fn pick<'a, F: Fetch>(
    fetch: &mut F,
    count: &mut u8,
    entry: &'a Entry,
    modrm: &mut u8,
) -> Result<&'a Row, Undecoded>
    requires room { count.old ≤ 15 }
    requires entry { IsEntry entry.now }
    ensures runs { Runs F.gives (pick_tree entry.now) count.old fetch.old (picked result modrm.new) count.new fetch.new }
    ensures fits { IfOk result (λ r. IsTrue (row_fits r.now)) }
    ensures count { count.new ≤ 15 }
{
    match entry {
        Entry::Undefined => Err(Undecoded::Undefined),
        Entry::One(row) => {
            if has_modrm(row) {
                *modrm = byte(fetch, count)?;
                Ok(row)
            } else {
                *modrm = 0;
                Ok(row)
            }
        }
        Entry::Group(group) => {
            *modrm = byte(fetch, count)?;
            match member_entry(*group, reg_of(*modrm)) {
                Entry::One(row) => Ok(row),
                Entry::Undefined => Err(Undecoded::Undefined),
                Entry::Group(_) => Err(Undecoded::Undefined),
            }
        }
    }
}

/// What follows the opcode.
#[tactic(auto, using(crate::proofs::Placing::found_not, crate::proofs::Picking::found_err, crate::proofs::Picking::found_refused, crate::proofs::Picking::found_allowed))]
#[inline(always)]
pub fn found<F: Fetch>(
    fetch: &mut F,
    count: &mut u8,
    setting: &Setting,
    entry: &Entry,
    opcode: u8,
    insn: &mut Insn,
) -> Result<(), Undecoded>
    requires room { count.old ≤ 15 }
    requires entry { IsEntry entry.now }
    ensures runs { Runs F.gives (found_tree setting.now entry.now opcode) count.old fetch.old (left result insn.new) count.new fetch.new }
    ensures count { count.new ≤ 15 }
{
    if !is_start(setting.lock, entry) {
        return Err(Undecoded::Undefined);
    }
    let mut modrm = 0;
    let row = pick(fetch, count, entry, &mut modrm)?;
    if !allows(setting, row, modrm) {
        return Err(Undecoded::Undefined);
    }
    let k = Selected {
        setting,
        row,
        opcode,
        modrm,
    };
    behind_any(fetch, count, &k, insn)
}

/// What follows some prefixes, or a first byte 0F.
#[tactic(auto, using(crate::proofs::Placing::row_one, crate::proofs::Placing::row_two, crate::proofs::Placing::row_two_err))]
#[inline(never)]
pub fn row<F: Fetch>(
    fetch: &mut F,
    count: &mut u8,
    setting: &Setting,
    first: u8,
    insn: &mut Insn,
) -> Result<(), Undecoded>
    requires { count.old ≤ 15 }
    ensures runs { Runs F.gives (row_tree setting.now first) count.old fetch.old (left result insn.new) count.new fetch.new }
    ensures count { count.new ≤ 15 }
{
    if first == 0x0f {
        let second = byte(fetch, count)?;
        found(fetch, count, setting, two_entry(second), second, insn)
    } else {
        found(fetch, count, setting, one_entry(first), first, insn)
    }
}
