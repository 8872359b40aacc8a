//! One byte after the other, and numbers of several bytes.

ghost use Rattle.std.specs.Prelude.{◌≤◌, ◌<◌, ◌+◌, ◌*◌, IfOk};
ghost use Rattle.mdl_insn.specs.Tree.{byte_tree, number_tree};
ghost use Rattle.mdl_state.specs.Bytes.{bytes_of, bound_of};
ghost use Rattle.insn_decode.specs.Reading.{Runs};

use crate::refusals::Undecoded;
use mdl_insn::Fetch;
use mdl_state::Size;

/// The next byte. `count` is the number of bytes that were taken.
#[tactic(auto, unfolding(crate::specs::Reading::Runs))]
#[inline(always)]
pub fn byte<F: Fetch>(fetch: &mut F, count: &mut u8) -> Result<u8, Undecoded>
    requires { count.old ≤ 15 }
    ensures runs { Runs F.gives byte_tree count.old fetch.old result count.new fetch.new }
    ensures count { count.new ≤ 15 }
{
    if *count == 15 {
        return Err(Undecoded::TooLong);
    }
    match fetch.next() {
        Ok(b) => {
            *count += 1;
            Ok(b)
        }
        Err(fault) => Err(Undecoded::Fetch(fault)),
    }
}

/// A number of one byte.
#[tactic(auto, using(crate::proofs::Running::number_more, crate::proofs::Running::number_low, crate::proofs::Running::number_high, crate::proofs::Running::number_none, crate::proofs::Running::number_one))]
#[inline(always)]
pub fn number_1<F: Fetch>(fetch: &mut F, count: &mut u8) -> Result<u64, Undecoded>
    requires { count.old ≤ 15 }
    ensures runs { Runs F.gives (number_tree 1) count.old fetch.old result count.new fetch.new }
    ensures fits { IfOk result (λ v. v < 0x100) }
    ensures count { count.new ≤ 15 }
{
    let low = byte(fetch, count)?;
    Ok(u64::from(low))
}

/// A number of two bytes, the lowest first.
#[tactic(auto, using(crate::proofs::Running::number_more, crate::proofs::Running::number_low, crate::proofs::Running::number_high, crate::proofs::Running::number_none, crate::proofs::Running::number_one))]
#[inline(always)]
pub fn number_2<F: Fetch>(fetch: &mut F, count: &mut u8) -> Result<u64, Undecoded>
    requires { count.old ≤ 15 }
    ensures runs { Runs F.gives (number_tree 2) count.old fetch.old result count.new fetch.new }
    ensures fits { IfOk result (λ v. v < 0x10000) }
    ensures count { count.new ≤ 15 }
{
    let low = byte(fetch, count)?;
    let high = number_1(fetch, count)?;
    Ok(u64::from(low) + 256 * high)
}

/// Of three bytes.
#[tactic(auto, using(crate::proofs::Running::number_more, crate::proofs::Running::number_low, crate::proofs::Running::number_high, crate::proofs::Running::number_none, crate::proofs::Running::number_one))]
#[inline(always)]
pub fn number_3<F: Fetch>(fetch: &mut F, count: &mut u8) -> Result<u64, Undecoded>
    requires { count.old ≤ 15 }
    ensures runs { Runs F.gives (number_tree 3) count.old fetch.old result count.new fetch.new }
    ensures fits { IfOk result (λ v. v < 0x1000000) }
    ensures count { count.new ≤ 15 }
{
    let low = byte(fetch, count)?;
    let high = number_2(fetch, count)?;
    Ok(u64::from(low) + 256 * high)
}

/// Of four bytes.
#[tactic(auto, using(crate::proofs::Running::number_more, crate::proofs::Running::number_low, crate::proofs::Running::number_high, crate::proofs::Running::number_none, crate::proofs::Running::number_one))]
#[inline(always)]
pub fn number_4<F: Fetch>(fetch: &mut F, count: &mut u8) -> Result<u64, Undecoded>
    requires { count.old ≤ 15 }
    ensures runs { Runs F.gives (number_tree 4) count.old fetch.old result count.new fetch.new }
    ensures fits { IfOk result (λ v. v < 0x100000000) }
    ensures count { count.new ≤ 15 }
{
    let low = byte(fetch, count)?;
    let high = number_3(fetch, count)?;
    Ok(u64::from(low) + 256 * high)
}

/// Of five bytes.
#[tactic(auto, using(crate::proofs::Running::number_more, crate::proofs::Running::number_low, crate::proofs::Running::number_high, crate::proofs::Running::number_none, crate::proofs::Running::number_one))]
#[inline(always)]
pub fn number_5<F: Fetch>(fetch: &mut F, count: &mut u8) -> Result<u64, Undecoded>
    requires { count.old ≤ 15 }
    ensures runs { Runs F.gives (number_tree 5) count.old fetch.old result count.new fetch.new }
    ensures fits { IfOk result (λ v. v < 0x10000000000) }
    ensures count { count.new ≤ 15 }
{
    let low = byte(fetch, count)?;
    let high = number_4(fetch, count)?;
    Ok(u64::from(low) + 256 * high)
}

/// Of six bytes.
#[tactic(auto, using(crate::proofs::Running::number_more, crate::proofs::Running::number_low, crate::proofs::Running::number_high, crate::proofs::Running::number_none, crate::proofs::Running::number_one))]
#[inline(always)]
pub fn number_6<F: Fetch>(fetch: &mut F, count: &mut u8) -> Result<u64, Undecoded>
    requires { count.old ≤ 15 }
    ensures runs { Runs F.gives (number_tree 6) count.old fetch.old result count.new fetch.new }
    ensures fits { IfOk result (λ v. v < 0x1000000000000) }
    ensures count { count.new ≤ 15 }
{
    let low = byte(fetch, count)?;
    let high = number_5(fetch, count)?;
    Ok(u64::from(low) + 256 * high)
}

/// A number of so many bytes as the size has.
#[inline(always)]
pub fn number_of<F: Fetch>(fetch: &mut F, count: &mut u8, size: Size) -> Result<u64, Undecoded>
    requires { count.old ≤ 15 }
    ensures runs { Runs F.gives (number_tree (bytes_of size)) count.old fetch.old result count.new fetch.new }
    ensures fits { IfOk result (λ v. v < bound_of size) }
    ensures count { count.new ≤ 15 }
{
    match size {
        Size::B1 => number_1(fetch, count),
        Size::B2 => number_2(fetch, count),
        Size::B4 => number_4(fetch, count),
    }
}

/// An offset of the size, and a selector above it.
#[inline(always)]
pub fn far_number<F: Fetch>(fetch: &mut F, count: &mut u8, size: Size) -> Result<u64, Undecoded>
    requires { count.old ≤ 15 }
    ensures runs { Runs F.gives (number_tree (2 + bytes_of size)) count.old fetch.old result count.new fetch.new }
    ensures fits { IfOk result (λ v. v < 0x10000 * bound_of size) }
    ensures count { count.new ≤ 15 }
{
    match size {
        Size::B1 => number_3(fetch, count),
        Size::B2 => number_4(fetch, count),
        Size::B4 => number_6(fetch, count),
    }
}
