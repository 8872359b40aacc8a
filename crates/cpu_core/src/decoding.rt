//! The instruction at CS:EIP.

ghost use Rattle.std.specs.Prelude.{◌≡◌, ℕ, [], true, false, IfOk, IfErr, IfSome};
ghost use Rattle.mdl_insn.specs.Prefixes.{setting};
ghost use Rattle.mdl_state.specs.Accesses.{Keeps};
ghost use Rattle.mdl_state.specs.Serving.{by_pick};
ghost use Rattle.mdl_step.specs.Fetching.{Instruction, Refused, Fetches, is_wide};
ghost use Rattle.operands.specs.Whole.{whole};
ghost use Rattle.cpu_core.specs.Window.{Spells, fault_of};

use crate::code::{Code, Eight};
use insn_decode::{Plain16, Plain32, Prefixes, Undecoded, decode_frequent, decode_into};
use mdl_insn::Insn;
use mdl_state::{Fault, Regs, Seg};
use mem_iface::Linear;
use operands::{general_protection, no_such};
use seg_unit::{is_big, is_protected, segment};

/// The fault of code that is no instruction.
fn fault_of(cause: Undecoded) -> Fault
    ensures { result ≡ fault_of cause }
{
    match cause {
        Undecoded::Undefined => no_such(),
        Undecoded::TooLong => general_protection(0),
        Undecoded::Fetch(fault) => fault,
    }
}

/// The code has 32 bits unless a prefix says otherwise.
#[inline(always)]
#[tactic(auto, unfolding(mdl_state::specs::Registers::seg_of))]
fn is_wide(regs: &Regs) -> bool
    ensures { result ≡ is_wide regs.now }
{
    is_big(&segment(regs, Seg::Cs)) && is_protected(regs)
}

/// Any instruction at the front of eight bytes, where it has no more. The answer is its length.
#[inline(never)]
fn decode_any(bytes: u64, big: bool, insn: &mut Insn) -> Option<u8>
    ensures { IfSome result (λ count. Spells bytes big insn.new count) }
{
    let mut eight = Eight::new(bytes);
    match decode_into(&mut eight, big, insn) {
        Ok(count) if count <= 8 => Some(count),
        _ => None,
    }
}

/// The same, one of the frequent kinds first. `given` tells the size of code as `big` does.
#[inline(always)]
fn decode_sized<G: Prefixes>(bytes: u64, big: bool, given: &G, insn: &mut Insn) -> Option<u8>
    requires { G.gives given.now ≡ setting big [] }
    ensures { IfSome result (λ count. Spells bytes big insn.new count) }
{
    let mut eight = Eight::new(bytes);
    match decode_frequent(&mut eight, big, given, insn) {
        Some(count) if count <= 8 => Some(count),
        _ => decode_any(bytes, big, insn),
    }
}

/// The same in code of 16 bits.
#[inline(never)]
fn decode_16(bytes: u64, insn: &mut Insn) -> Option<u8>
    ensures { IfSome result (λ count. Spells bytes false insn.new count) }
{
    decode_sized(bytes, false, &Plain16, insn)
}

/// The same in code of 32 bits.
#[inline(never)]
fn decode_32(bytes: u64, insn: &mut Insn) -> Option<u8>
    ensures { IfSome result (λ count. Spells bytes true insn.new count) }
{
    decode_sized(bytes, true, &Plain32, insn)
}

/// The instruction at the front of eight bytes, where it has no more. The answer is its length.
#[inline(always)]
fn decode_eight(bytes: u64, big: bool, insn: &mut Insn) -> Option<u8>
    ensures { IfSome result (λ count. Spells bytes big insn.new count) }
{
    if big {
        decode_32(bytes, insn)
    } else {
        decode_16(bytes, insn)
    }
}

/// The instruction at CS:EIP, where it is among eight bytes that memory has at hand.
#[inline(always)]
fn decode_near<L: Linear>(code: &Code<L>, regs: &Regs, insn: &mut Insn) -> Option<u8>
    ensures { IfSome result (λ count. (flags : ℕ) →
        Fetches (by_pick L.pick) (whole regs.now flags) (L.seen code.now.lin) (Instruction insn.new count) (L.seen code.now.lin)) }
{
    match code.eight(regs) {
        Some(bytes) => decode_eight(bytes, is_wide(regs), insn),
        None => None,
    }
}

/// The instruction at CS:EIP, fetched byte by byte.
#[inline(never)]
pub(crate) fn decode_far<L: Linear>(
    code: &mut Code<L>,
    regs: &Regs,
    insn: &mut Insn,
) -> Result<u8, Fault>
    ensures found { IfOk result (λ count. (flags : ℕ) →
        Fetches (by_pick L.pick) (whole regs.now flags) (L.seen code.old.lin) (Instruction insn.new count) (L.seen code.new.lin)) }
    ensures refused { IfErr result (λ fault. (flags : ℕ) →
        Fetches (by_pick L.pick) (whole regs.now flags) (L.seen code.old.lin) (Refused fault) (L.seen code.new.lin)) }
    ensures keeps { Keeps (L.seen code.old.lin) (L.seen code.new.lin) }
    ensures held { (L.seen code.new.lin).held ≡ (L.seen code.old.lin).held }
    ensures served { (L.seen code.new.lin).served ≡ (L.seen code.old.lin).served }
{
    code.start(regs);
    match decode_into(code, is_wide(regs), insn) {
        Ok(count) => Ok(count),
        Err(cause) => Err(fault_of(cause)),
    }
}

/// The instruction at CS:EIP is fetched and put into `insn`. The answer is its length, or the fault of
/// what is no instruction.
#[inline(always)]
#[tactic(auto, using(crate::proofs::Windows::keeps_all))]
pub(crate) fn decode<L: Linear>(
    code: &mut Code<L>,
    regs: &Regs,
    insn: &mut Insn,
) -> Result<u8, Fault>
    ensures found { IfOk result (λ count. (flags : ℕ) →
        Fetches (by_pick L.pick) (whole regs.now flags) (L.seen code.old.lin) (Instruction insn.new count) (L.seen code.new.lin)) }
    ensures refused { IfErr result (λ fault. (flags : ℕ) →
        Fetches (by_pick L.pick) (whole regs.now flags) (L.seen code.old.lin) (Refused fault) (L.seen code.new.lin)) }
    ensures keeps { Keeps (L.seen code.old.lin) (L.seen code.new.lin) }
    ensures held { (L.seen code.new.lin).held ≡ (L.seen code.old.lin).held }
    ensures served { (L.seen code.new.lin).served ≡ (L.seen code.old.lin).served }
{
    if let Some(count) = decode_near(code, regs, insn) {
        return Ok(count);
    }
    decode_far(code, regs, insn)
}
