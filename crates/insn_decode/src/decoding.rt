//! Decoding, from the first prefix to the end.

ghost use Rattle.std.specs.Prelude.{◌≡◌, ◌≤◌, IfOk, IfErr, []};
ghost use Rattle.mdl_insn.specs.Rows as rows_of;
ghost use Rattle.mdl_insn.specs.Prefixes.{setting as setting_of};
ghost use Rattle.mdl_insn.specs.Fits.{IsEntry};
ghost use Rattle.mdl_insn.specs.RowTree.{row_tree};
ghost use Rattle.insn_decode.specs.Reading.{Runs, left};
ghost use Rattle.insn_decode.specs.Decoded.{Takes, Refused};

use crate::prefixes::{first_prefix, is_prefix, start, with_prefix};
use crate::refusals::Undecoded;
use crate::rows::{found, row};
use mdl_insn::lookups::one_entry;
use mdl_insn::rows::Entry;
use mdl_insn::{Fetch, Insn, Op, Operand, Rep};
use mdl_state::Size;

/// What follows no prefix.
#[tactic(auto, using(crate::proofs::Placing::row_one, crate::proofs::Placing::row_two, crate::proofs::Placing::row_two_err))]
#[inline(always)]
fn plain<F: Fetch>(
    fetch: &mut F,
    count: &mut u8,
    big: bool,
    first: u8,
    entry: &'static Entry,
    insn: &mut Insn,
) -> Result<(), Undecoded>
    requires room { count.old ≤ 15 }
    requires entry { entry.now ≡ rows_of.one_entry first }
    requires fits { IsEntry entry.now }
    ensures runs { Runs F.gives (row_tree (setting_of big []) first) count.old fetch.old (left result insn.new) count.new fetch.new }
    ensures count { count.new ≤ 15 }
{
    if first == 0x0f {
        row(fetch, count, &start(big), first, insn)
    } else {
        found(fetch, count, &start(big), entry, first, insn)
    }
}

/// Puts the instruction at the front of what is fetched into `insn`. The answer is its length.
pub fn decode_into<F: Fetch>(fetch: &mut F, big: bool, insn: &mut Insn) -> Result<u8, Undecoded>
    ensures ok { IfOk result (λ n. Takes F.gives big fetch.old insn.new n fetch.new) }
    ensures err { IfErr result (λ x. Refused F.gives big fetch.old x fetch.new) }
{
    let lead = match fetch.next() {
        Ok(b) => b,
        Err(fault) => return Err(Undecoded::Fetch(fault)),
    };
    let entry = one_entry(lead);
    if !is_prefix(lead, entry) {
        let mut count = 1;
        return match plain(fetch, &mut count, big, lead, entry, insn) {
            Ok(()) => Ok(count),
            Err(cause) => Err(cause),
        };
    }
    let mut s = first_prefix(big, lead);
    for taken in 1..15u8 {
        let first = match fetch.next() {
            Ok(b) => b,
            Err(fault) => return Err(Undecoded::Fetch(fault)),
        };
        match with_prefix(&s, big, first) {
            Some(next) => s = next,
            None => {
                let mut count = taken + 1;
                return match row(fetch, &mut count, &s, first, insn) {
                    Ok(()) => Ok(count),
                    Err(cause) => Err(cause),
                };
            }
        }
    }
    Err(Undecoded::TooLong)
}

/// The instruction that does nothing, to be written over.
pub fn blank() -> Insn {
    Insn {
        op: Op::Xchg,
        size: Size::B1,
        wide: false,
        over: None,
        lock: false,
        rep: Rep::Plain,
        a: Operand::Nothing,
        b: Operand::Nothing,
        c: Operand::Nothing,
    }
}

/// The instruction at the front of what is fetched, and its length.
pub fn decode<F: Fetch>(fetch: &mut F, big: bool) -> Result<(Insn, u8), Undecoded>
    ensures ok { IfOk result (λ x. Takes F.gives big fetch.old x.0 x.1 fetch.new) }
    ensures err { IfErr result (λ x. Refused F.gives big fetch.old x fetch.new) }
{
    let mut insn = blank();
    let len = decode_into(fetch, big, &mut insn)?;
    Ok((insn, len))
}
