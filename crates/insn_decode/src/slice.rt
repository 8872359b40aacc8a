//! Decoding from a slice.

ghost use Rattle.std.specs.Prelude.{◌≡◌, ◌<◌, ◌≤◌, [], ℕ, IfOk, IfErr, IsOkAnd, take, length};
ghost use Rattle.mdl_insn.specs.Spelling.{Spelt};
ghost use Rattle.mdl_insn.specs.declared.instruction.Insn.{Insn};
ghost use Rattle.insn_decode.specs.Slices.{gives_byte, TakesFront, SliceRefused};

use crate::decoding::decode;
use crate::refusals::{SliceError, Undecoded};
use mdl_insn::{Fetch, Insn};
use mdl_state::Fault;

#[derive(Drop)]
struct Bytes<'a> {
    rest: &'a [u8],
}

impl Fetch for Bytes<'_> {
    ghost gives = { λ s r t. gives_byte s.rest.now r t.rest.now };

    fn next(&mut self) -> Result<u8, Fault> {
        match self.rest {
            [first, rest @ ..] => {
                self.rest = rest;
                Ok(*first)
            }
            [] => Err(Fault {
                vector: 0,
                code: 0,
                addr: 0,
            }),
        }
    }
}

/// The instruction at the front of the bytes, and its length.
pub fn decode_slice(bytes: &[u8], big: bool) -> Result<(Insn, u8), SliceError>
    ensures ok { IfOk result (λ x. TakesFront bytes.now big x.0 x.1) }
    ensures err { IfErr result (λ x. SliceRefused bytes.now big x) }
    ensures only { (n : ℕ) (i : Insn) → n ≤ 15 → n ≤ length bytes.now → Spelt (take n bytes.now) big i → IsOkAnd result (λ x. (x.0 ≡ i) × (x.1 ≡ n)) }
{
    let mut fetch = Bytes { rest: bytes };
    match decode(&mut fetch, big) {
        Ok(found) => Ok(found),
        Err(Undecoded::Undefined) => Err(SliceError::Undefined),
        Err(Undecoded::TooLong) => Err(SliceError::TooLong),
        Err(Undecoded::Fetch(_)) => Err(SliceError::Short),
    }
}
