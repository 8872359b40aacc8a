//! What follows an opcode of a row that is known, by what its operands are.

ghost use Rattle.std.specs.Prelude.{◌≡◌, ◌≤◌, Ok, IsTrue, true, false};
ghost use Rattle.std.specs.Bool.{OnTrue};
ghost use Rattle.mdl_insn.specs.Fits.{row_fits};
ghost use Rattle.mdl_insn.specs.RowTree.{chosen_of, behind_tree};
ghost use Rattle.mdl_insn.specs.Operands as operand_spec;
ghost use Rattle.insn_decode.specs.Reading.{Runs, three, insn_from};
ghost use Rattle.insn_decode.specs.Shapes.{is_count};

use crate::operands::Selected;
use crate::readers::{Count, Reader};
use crate::rows::{rep_of, size_of};
use mdl_insn::rows::{Row, Setting};
use mdl_insn::{Fetch, Insn};

/// What stands in front of the operands. `modrm` is 0 where there is none.
#[derive(Clone, Copy)]
pub(crate) struct Front<'a> {
    pub(crate) setting: &'a Setting,
    pub(crate) opcode: u8,
    pub(crate) modrm: u8,
}

/// What a row and its prefixes tell of the instruction without its operands.
#[inline(always)]
fn begin(setting: &Setting, row: &Row, insn: &mut Insn)
    ensures { insn.new ≡ insn_from setting.now row.now (three insn.old.a insn.old.b insn.old.c) }
{
    insn.op = row.op;
    insn.size = size_of(setting, row.width);
    insn.wide = setting.wide;
    insn.over = setting.over;
    insn.lock = setting.lock;
    insn.rep = rep_of(row.op, setting.rep);
}

/// What follows, in a row whose two operands these readers read. Answers whether that is an instruction.
///
/// In line, with the row as a constant, it is what that row needs.
#[tactic(auto, using(crate::proofs::Placing::behind_three))]
#[inline(always)]
pub(crate) fn told<F: Fetch, A: Reader, B: Reader>(
    fetch: &mut F,
    count: &mut u8,
    front: &Front,
    row: Row,
    insn: &mut Insn,
) -> bool
    requires room { count.old ≤ 15 }
    requires fits { IsTrue (row_fits row) }
    requires a { A.reads row row.a ≡ true }
    requires b { B.reads row row.b ≡ true }
    requires c { is_count row.c ≡ true }
    requires allowed { IsTrue (operand_spec.allows front.now.setting.now row front.now.modrm) }
    ensures runs { OnTrue result (Runs F.gives (behind_tree front.now.setting.now (chosen_of row front.now.opcode front.now.modrm)) count.old fetch.old (Ok insn.new) count.new fetch.new) }
    ensures count { count.new ≤ 15 }
{
    begin(front.setting, &row, insn);
    let k = Selected {
        setting: front.setting,
        row: &row,
        opcode: front.opcode,
        modrm: front.modrm,
    };
    match A::read(fetch, count, &k, row.a, &mut insn.a) {
        Ok(()) => (),
        Err(_) => return false,
    }
    match B::read(fetch, count, &k, row.b, &mut insn.b) {
        Ok(()) => (),
        Err(_) => return false,
    }
    match Count::read(fetch, count, &k, row.c, &mut insn.c) {
        Ok(()) => true,
        Err(_) => false,
    }
}
