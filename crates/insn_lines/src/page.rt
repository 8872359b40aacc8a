//! A page that ends with some bytes.

use mdl_insn::Fetch;
use mdl_state::Fault;

/// What is met behind the page.
const ABSENT: Fault = Fault {
    vector: 14,
    code: 4,
    addr: 0x1000,
};

/// Bytes, and a fault behind them.
#[derive(Drop)]
pub struct Page<'a> {
    rest: &'a [u8],
    /// How many bytes were taken.
    pub taken: u32,
    /// How often the end was met.
    pub ends: u32,
}

impl<'a> Page<'a> {
    pub fn ending_with(bytes: &'a [u8]) -> Page<'a> {
        Page {
            rest: bytes,
            taken: 0,
            ends: 0,
        }
    }
}

impl Fetch for Page<'_> {
    ghost gives = { λ s r t. Unit {0} };

    fn next(&mut self) -> Result<u8, Fault> {
        match self.rest {
            [first, rest @ ..] => {
                self.rest = rest;
                self.taken = self.taken.wrapping_add(1);
                Ok(*first)
            }
            [] => {
                self.ends = self.ends.wrapping_add(1);
                Err(ABSENT)
            }
        }
    }
}
