//! Decoding of the instructions that are most frequent: by the shape of their rows.
//!
//! The row stands in each arm as a constant.

ghost use Rattle.std.specs.Prelude.{◌≡◌, ◌≤◌, ◌<◌, Ok, IfSome, true, false, []};
ghost use Rattle.std.specs.Bool.{OnTrue};
ghost use Rattle.mdl_insn.specs.declared.rows.Entry.TheVariants.{One};
ghost use Rattle.mdl_insn.specs.Addresses.{has_modrm};
ghost use Rattle.mdl_insn.specs.Fits.{IsEntry};
ghost use Rattle.mdl_insn.specs.Rows.{two_entry};
ghost use Rattle.mdl_insn.specs.Prefixes.{is_prefix as is_prefix_of, setting};
ghost use Rattle.mdl_insn.specs.RowTree.{chosen_of, row_tree, behind_tree};
ghost use Rattle.mdl_insn.specs.Operands as operand_spec;
ghost use Rattle.insn_decode.specs.Decoded.{Takes};
ghost use Rattle.insn_decode.specs.Reading.{Runs, found_tree};
ghost use Rattle.insn_decode.specs.Shapes.{is_row, is_group, lead_fits, shape_row, shape_fits};

use crate::addresses::{mod_of, reg_of};
use crate::bytes::byte;
use crate::given::Prefixes;
use crate::prefixes::first_prefix;
use crate::readers::{Addressed, Count, Distance, Named, Number, Other, Register};
use crate::shapes::{Shape, is_row, member_shape, one_shape, two_shape};
use crate::told::{Front, told};
use mdl_insn::lookups::{member_entry, one_entry, two_entry};
use mdl_insn::rows::{Entry, Form, Kind, Row, Setting, Width};
use mdl_insn::{Fetch, Insn, Op};

macro_rules! row {
    ($op:expr, $width:ident, $kind:ident, $a:ident, $b:ident) => {
        Row {
            op: $op,
            width: Width::$width,
            kind: Kind::$kind,
            a: Form::$a,
            b: Form::$b,
            c: Form::No,
        }
    };
}

/// What follows the ModRM byte of a row that is alone at its opcode, by its shape. Answers whether that is an
/// instruction of one.
#[tactic(auto, using(crate::proofs::Shaped::is_one, crate::proofs::Shaped::freely))]
#[rattlefmt::skip]
#[inline(always)]
fn behind_modrm<F: Fetch>(fetch: &mut F, count: &mut u8, front: &Front, op: Op, shape: Shape, insn: &mut Insn) -> bool
    requires room { count.old ≤ 15 }
    requires lock { front.now.setting.now.lock ≡ false }
    ensures shape { OnTrue result (is_row shape ≡ true) }
    ensures modrm { OnTrue result (has_modrm (shape_row shape op) ≡ true) }
    ensures allowed { OnTrue result (operand_spec.allows front.now.setting.now (shape_row shape op) front.now.modrm ≡ true) }
    ensures runs { OnTrue result (Runs F.gives (behind_tree front.now.setting.now (chosen_of (shape_row shape op) front.now.opcode front.now.modrm)) count.old fetch.old (Ok insn.new) count.new fetch.new) }
    ensures count { count.new ≤ 15 }
{
    match shape {
        Shape::EbGb => told::<F, Addressed, Register>(fetch, count, front, row!(op, Byte, First, Eb, Gb), insn),
        Shape::EvGv => told::<F, Addressed, Register>(fetch, count, front, row!(op, Full, First, Ev, Gv), insn),
        Shape::GbEb => told::<F, Register, Addressed>(fetch, count, front, row!(op, Byte, Second, Gb, Eb), insn),
        Shape::GvEv => told::<F, Register, Addressed>(fetch, count, front, row!(op, Full, Second, Gv, Ev), insn),
        Shape::GvEb => told::<F, Register, Addressed>(fetch, count, front, row!(op, Full, Second, Gv, Eb), insn),
        Shape::GvEw => told::<F, Register, Addressed>(fetch, count, front, row!(op, Full, Second, Gv, Ew), insn),
        Shape::GvM => mod_of(front.modrm) < 3 && told::<F, Register, Addressed>(fetch, count, front, row!(op, Full, Address, Gv, M), insn),
        Shape::Eb => told::<F, Addressed, Count>(fetch, count, front, row!(op, Byte, First, Eb, No), insn),
        _ => false,
    }
}

/// What follows the opcode of a mnemonic, by its shape. Answers whether that is an instruction of one.
#[tactic(auto, using(crate::proofs::Shaped::is_one, crate::proofs::Shaped::freely, crate::proofs::Shaped::told_bare, crate::proofs::Shaped::told_modrm))]
#[rattlefmt::skip]
#[inline(always)]
fn shaped<F: Fetch, G: Prefixes>(fetch: &mut F, count: &mut u8, given: &G, op: Op, shape: Shape, opcode: u8, insn: &mut Insn) -> bool
    requires room { count.old ≤ 15 }
    requires row { is_row shape ≡ true }
    requires lock { (G.gives given.now).lock ≡ false }
    ensures runs { OnTrue result (Runs F.gives (found_tree (G.gives given.now) (One (shape_row shape op)) opcode) count.old fetch.old (Ok insn.new) count.new fetch.new) }
    ensures count { count.new ≤ 15 }
{
    let setting = given.setting();
    let front = Front { setting: &setting, opcode, modrm: 0 };
    match shape {
        Shape::AlIb => told::<F, Named, Number>(fetch, count, &front, row!(op, Byte, Bare, Al, Ib), insn),
        Shape::AxIv => told::<F, Named, Number>(fetch, count, &front, row!(op, Full, Bare, Ax, Iv), insn),
        Shape::RbIb => told::<F, Named, Number>(fetch, count, &front, row!(op, Byte, Bare, Rb, Ib), insn),
        Shape::RvIv => told::<F, Named, Number>(fetch, count, &front, row!(op, Full, Bare, Rv, Iv), insn),
        Shape::Rv => told::<F, Named, Count>(fetch, count, &front, row!(op, Full, Bare, Rv, No), insn),
        Shape::Jb => told::<F, Distance, Count>(fetch, count, &front, row!(op, Full, Bare, Jb, No), insn),
        Shape::Jv => told::<F, Distance, Count>(fetch, count, &front, row!(op, Full, Bare, Jv, No), insn),
        Shape::Bare => told::<F, Count, Count>(fetch, count, &front, row!(op, Full, Bare, No, No), insn),
        Shape::BareByte => told::<F, Count, Count>(fetch, count, &front, row!(op, Byte, Bare, No, No), insn),
        Shape::AxOv => told::<F, Other, Other>(fetch, count, &front, row!(op, Full, Bare, Ax, Ov), insn),
        Shape::OvAx => told::<F, Other, Other>(fetch, count, &front, row!(op, Full, Bare, Ov, Ax), insn),
        Shape::AlOb => told::<F, Other, Other>(fetch, count, &front, row!(op, Byte, Bare, Al, Ob), insn),
        Shape::ObAl => told::<F, Other, Other>(fetch, count, &front, row!(op, Byte, Bare, Ob, Al), insn),
        Shape::IsNo => told::<F, Number, Count>(fetch, count, &front, row!(op, Full, Bare, Is, No), insn),
        Shape::IvNo => told::<F, Number, Count>(fetch, count, &front, row!(op, Full, Bare, Iv, No), insn),
        _ => match byte(fetch, count) {
            Ok(modrm) => behind_modrm(fetch, count, &Front { setting: &setting, opcode, modrm }, op, shape, insn),
            Err(_) => false,
        },
    }
}

/// What follows the ModRM byte of a member of a group, by its shape. Answers whether that is an
/// instruction of one.
#[tactic(auto, using(crate::proofs::Shaped::is_one, crate::proofs::Shaped::freely))]
#[rattlefmt::skip]
#[inline(never)]
fn shaped_member<F: Fetch>(fetch: &mut F, count: &mut u8, front: &Front, op: Op, shape: Shape, insn: &mut Insn) -> bool
    requires room { count.old ≤ 15 }
    requires lock { front.now.setting.now.lock ≡ false }
    ensures shape { OnTrue result (is_row shape ≡ true) }
    ensures allowed { OnTrue result (operand_spec.allows front.now.setting.now (shape_row shape op) front.now.modrm ≡ true) }
    ensures runs { OnTrue result (Runs F.gives (behind_tree front.now.setting.now (chosen_of (shape_row shape op) front.now.opcode front.now.modrm)) count.old fetch.old (Ok insn.new) count.new fetch.new) }
    ensures count { count.new ≤ 15 }
{
    match shape {
        Shape::Eb => told::<F, Addressed, Count>(fetch, count, front, row!(op, Byte, First, Eb, No), insn),
        Shape::Ev => told::<F, Addressed, Count>(fetch, count, front, row!(op, Full, First, Ev, No), insn),
        Shape::EbIb => told::<F, Addressed, Number>(fetch, count, front, row!(op, Byte, First, Eb, Ib), insn),
        Shape::EvIb => told::<F, Addressed, Number>(fetch, count, front, row!(op, Full, First, Ev, Ib), insn),
        Shape::EvIs => told::<F, Addressed, Number>(fetch, count, front, row!(op, Full, First, Ev, Is), insn),
        Shape::EvIv => told::<F, Addressed, Number>(fetch, count, front, row!(op, Full, First, Ev, Iv), insn),
        Shape::EbOnce => told::<F, Addressed, Count>(fetch, count, front, row!(op, Byte, First, Eb, Once), insn),
        Shape::EvOnce => told::<F, Addressed, Count>(fetch, count, front, row!(op, Full, First, Ev, Once), insn),
        Shape::EbCl => told::<F, Addressed, Count>(fetch, count, front, row!(op, Byte, First, Eb, Cl), insn),
        Shape::EvCl => told::<F, Addressed, Count>(fetch, count, front, row!(op, Full, First, Ev, Cl), insn),
        _ => false,
    }
}

/// What follows the opcode of a group. Answers whether that is an instruction of a shape.
#[tactic(auto, using(crate::proofs::Shaped::grouped_member))]
#[inline(always)]
fn grouped<F: Fetch>(
    fetch: &mut F,
    count: &mut u8,
    setting: &Setting,
    entry: &Entry,
    opcode: u8,
    insn: &mut Insn,
) -> bool
    requires room { count.old ≤ 15 }
    requires entry { IsEntry entry.now }
    requires group { is_group entry.now ≡ true }
    requires lock { setting.now.lock ≡ false }
    ensures runs { OnTrue result (Runs F.gives (found_tree setting.now entry.now opcode) count.old fetch.old (Ok insn.new) count.new fetch.new) }
    ensures count { count.new ≤ 15 }
{
    let Entry::Group(group) = *entry else {
        unreachable!();
    };
    let modrm = match byte(fetch, count) {
        Ok(b) => b,
        Err(_) => return false,
    };
    match member_entry(group, reg_of(modrm)) {
        Entry::One(row) => {
            let shape = member_shape(group, reg_of(modrm));
            let front = Front {
                setting,
                opcode,
                modrm,
            };
            shaped_member(fetch, count, &front, row.op, shape, insn)
        }
        _ => false,
    }
}

/// What follows the opcode of a row, of these entry and shape. Answers whether that is an instruction of it.
#[tactic(auto, using(crate::proofs::Shaped::entered_row, crate::proofs::Shaped::no_row_undefined, crate::proofs::Shaped::no_row_group))]
#[inline(always)]
fn entered<F: Fetch, G: Prefixes>(
    fetch: &mut F,
    count: &mut u8,
    given: &G,
    entry: &Entry,
    shape: Shape,
    opcode: u8,
    insn: &mut Insn,
) -> bool
    requires room { count.old ≤ 15 }
    requires row { is_row shape ≡ true }
    requires shape { shape_fits entry.now shape ≡ true }
    requires lock { (G.gives given.now).lock ≡ false }
    ensures runs { OnTrue result (Runs F.gives (found_tree (G.gives given.now) entry.now opcode) count.old fetch.old (Ok insn.new) count.new fetch.new) }
    ensures count { count.new ≤ 15 }
{
    match entry {
        Entry::One(row) => shaped(fetch, count, given, row.op, shape, opcode, insn),
        _ => unreachable!(),
    }
}

/// What follows the second byte behind 0F. Answers whether that is an instruction of a shape.
#[inline(never)]
fn behind_two<F: Fetch>(
    fetch: &mut F,
    count: &mut u8,
    setting: &Setting,
    second: u8,
    insn: &mut Insn,
) -> bool
    requires room { count.old ≤ 15 }
    requires lock { setting.now.lock ≡ false }
    ensures runs { OnTrue result (Runs F.gives (found_tree setting.now (two_entry second) second) count.old fetch.old (Ok insn.new) count.new fetch.new) }
    ensures count { count.new ≤ 15 }
{
    let entry = two_entry(second);
    let shape = two_shape(second);
    if is_row(shape) {
        return entered(fetch, count, setting, entry, shape, second, insn);
    }
    match shape {
        Shape::Group => grouped(fetch, count, setting, entry, second, insn),
        _ => false,
    }
}

/// What follows the prefixes: a first byte, and what stands there. Answers whether that is an instruction
/// of a shape.
#[tactic(auto, using(crate::proofs::Shaped::opened_one, crate::proofs::Shaped::opened_two, crate::proofs::Shaped::row_there, crate::proofs::Shaped::row_lead, crate::proofs::Shaped::group_lead))]
#[inline(always)]
fn opened<F: Fetch, G: Prefixes>(
    fetch: &mut F,
    count: &mut u8,
    given: &G,
    first: u8,
    shape: Shape,
    insn: &mut Insn,
) -> bool
    requires room { count.old ≤ 15 }
    requires fits { lead_fits first shape ≡ true }
    requires lock { (G.gives given.now).lock ≡ false }
    ensures runs { OnTrue result (Runs F.gives (row_tree (G.gives given.now) first) count.old fetch.old (Ok insn.new) count.new fetch.new) }
    ensures count { count.new ≤ 15 }
{
    if is_row(shape) {
        return entered(fetch, count, given, one_entry(first), shape, first, insn);
    }
    match shape {
        Shape::Group => grouped(
            fetch,
            count,
            &given.setting(),
            one_entry(first),
            first,
            insn,
        ),
        Shape::TwoBytes => match byte(fetch, count) {
            Ok(second) => behind_two(fetch, count, &given.setting(), second, insn),
            Err(_) => false,
        },
        _ => false,
    }
}

/// Puts an instruction behind one prefix into `insn`, as `decode_frequent` does.
#[tactic(auto, using(crate::proofs::Shaped::second_takes))]
#[inline(never)]
fn prefixed<F: Fetch>(fetch: &mut F, big: bool, prefix: u8, insn: &mut Insn) -> Option<u8>
    requires { is_prefix_of prefix ≡ true }
    ensures { IfSome result (λ n. (start : F) → F.gives start (Ok prefix) fetch.old → Takes F.gives big start insn.new n fetch.new) }
{
    let setting = first_prefix(big, prefix);
    if setting.lock {
        return None;
    }
    let first = match fetch.next() {
        Ok(b) => b,
        Err(_) => return None,
    };
    let mut count = 2;
    if opened(fetch, &mut count, &setting, first, one_shape(first), insn) {
        Some(count)
    } else {
        None
    }
}

/// Puts the instruction at the front of what is fetched into `insn`, where it is one of the most frequent
/// kinds. `given` tells the size of code as `big` does. The answer is its length; nothing says what is
/// left in place of another.
#[tactic(auto, using(crate::proofs::Shaped::first_takes))]
#[inline(always)]
pub fn decode_frequent<F: Fetch, G: Prefixes>(
    fetch: &mut F,
    big: bool,
    given: &G,
    insn: &mut Insn,
) -> Option<u8>
    requires { G.gives given.now ≡ setting big [] }
    ensures takes { IfSome result (λ n. Takes F.gives big fetch.old insn.new n fetch.new) }
{
    let lead = match fetch.next() {
        Ok(b) => b,
        Err(_) => return None,
    };
    let shape = one_shape(lead);
    if let Shape::Prefix = shape {
        return prefixed(fetch, big, lead, insn);
    }
    let mut count = 1;
    if opened(fetch, &mut count, given, lead, shape, insn) {
        Some(count)
    } else {
        None
    }
}
