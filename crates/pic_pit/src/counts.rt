//! Counts, as they are written and read.

ghost use Rattle.std.specs.Prelude.{◌≡◌, ◌<◌, ◌≤◌};
ghost use Rattle.mdl_dev.specs.Counter.{count_of, digits_of, digits_sum, full, modulus_of, word_of};

use crate::control::modulus_of;

/// The four decimal digits of a count as it is written; each may be above 9.
fn digits_sum(word: u16) -> u32
    ensures { result ≡ digits_sum word }
{
    let word = u32::from(word);
    1000 * (word / 4096) + 100 * (word / 256 % 16) + 10 * (word / 16 % 16) + word % 16
}

/// The digits of a number, each in four bits.
fn digits_of(n: u32) -> u16
    requires { n < 10000 }
    ensures { result ≡ digits_of n }
{
    (4096 * (n / 1000) + 256 * (n / 100 % 10) + 16 * (n / 10 % 10) + n % 10) as u16
}

/// A count, where 0 stands for the highest.
fn full(bcd: bool, n: u32) -> u32
    ensures { result ≡ full bcd n }
{
    if n == 0 { modulus_of(bcd) } else { n }
}

/// The count that is written as 16 bits.
pub(crate) fn count_of(bcd: bool, word: u16) -> u32
    ensures value { result ≡ count_of bcd word }
    ensures least { 1 ≤ result }
    ensures most { result ≤ modulus_of bcd }
{
    if bcd {
        full(bcd, digits_sum(word) % 10_000)
    } else {
        full(bcd, u32::from(word))
    }
}

/// The 16 bits as which a count is read.
pub(crate) fn word_of(bcd: bool, n: u32) -> u16
    ensures { result ≡ word_of bcd n }
{
    if bcd {
        digits_of(n % 10_000)
    } else {
        (n % 65_536) as u16
    }
}
