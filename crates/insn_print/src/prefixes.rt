//! What stands in front of the mnemonic.

ghost use Rattle.std.specs.Prelude.{◌≡◌, ◌≤◌, ◌+◌, ◌++◌, length};
ghost use Rattle.arrayvec.specs.ArrayString.{array_string_len};
ghost use Rattle.mdl_insn.specs.Text as spec;

use crate::numbers::Text;
use crate::registers::segment_name;
use mdl_insn::{Insn, Op, Rep};
use mdl_state::Seg;

fn compares(op: Op) -> bool
    ensures { result ≡ spec.compares op }
{
    matches!(op, Op::Cmps | Op::Scas)
}

fn repeat_word(op: Op, rep: Rep) -> &'static str
    ensures name { result.now ≡ spec.repeat_text op rep }
    ensures short { length result.now ≤ 6 }
{
    match rep {
        Rep::Plain => "",
        Rep::Equal => if compares(op) { "repe " } else { "rep " },
        Rep::NotEqual => if compares(op) { "repne " } else { "rep " },
    }
}

fn hides_memory(op: Op) -> bool
    ensures { result ≡ spec.hides_memory op }
{
    matches!(
        op,
        Op::Xlat | Op::Ins | Op::Outs | Op::Movs | Op::Cmps | Op::Stos | Op::Lods | Op::Scas
    )
}

fn override_word(text: &mut Text, op: Op, over: Option<Seg>)
    requires { array_string_len text.old + 3 ≤ 96 }
    ensures text { text.new.bytes ≡ text.old.bytes ++ spec.override_text op over }
    ensures room { array_string_len text.new ≤ array_string_len text.old + 3 }
{
    if let Some(seg) = over {
        if hides_memory(op) {
            text.push_str(segment_name(seg));
            text.push_str(" ");
        }
    }
}

/// Appends what stands in front of the mnemonic.
pub fn prefixes(text: &mut Text, insn: &Insn)
    requires { array_string_len text.old + 14 ≤ 96 }
    ensures text { text.new.bytes ≡ text.old.bytes ++ spec.prefix_text insn.now }
    ensures room { array_string_len text.new ≤ array_string_len text.old + 14 }
{
    if insn.lock {
        text.push_str("lock ");
    }
    text.push_str(repeat_word(insn.op, insn.rep));
    override_word(text, insn.op, insn.over);
}
