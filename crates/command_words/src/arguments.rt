//! The arguments of the commands.

ghost use Rattle.std.specs.Prelude.{◌≡◌, false};
ghost use Rattle.clap.specs.Words.{rule_of};
ghost use Rattle.command_words.specs.Commands.{path_rule, rom_rule, ram_rule, steps_rule, from_rule, count_rule, big_rule, number_rule};

use clap::{Arg, ArgAction};
use std::alloc::Global;

/// Mebibytes of RAM: the most, and how many there are where the words do not say it.
const MOST_RAM: i64 = 64;

const DEFAULT_RAM: &str = "4";

/// The most steps of a run, and how many it makes where the words do not say it.
const MOST_STEPS: i64 = 1_000_000_000_000_000;

const DEFAULT_STEPS: &str = "10000000";

/// The greatest offset of a listing's first line, and where a listing begins where the words do not
/// say it.
const MOST_FROM: i64 = 0x3FFFF;

const DEFAULT_FROM: &str = "0";

/// The most lines of a listing, and how many it has where the words do not say it.
const MOST_COUNT: i64 = 0x10000;

const DEFAULT_COUNT: &str = "20";

/// `--NAME PATH`.
pub(crate) fn path_arg<'a>(alloc: Global, name: &'a str) -> Arg<'a>
    ensures rule { rule_of result ≡ path_rule name.entry.now }
    ensures local { result.global ≡ false }
{
    Arg::new(alloc, name).long(name).action(ArgAction::Set)
}

/// `--rom PATH`, which has to be there.
pub(crate) fn rom_arg<'a>(alloc: Global) -> Arg<'a>
    ensures rule { rule_of result ≡ rom_rule }
    ensures local { result.global ≡ false }
{
    Arg::new(alloc, "rom")
        .long("rom")
        .action(ArgAction::Set)
        .required(true)
}

/// `--ram N`.
pub(crate) fn ram_arg<'a>(alloc: Global) -> Arg<'a>
    ensures rule { rule_of result ≡ ram_rule }
    ensures local { result.global ≡ false }
{
    Arg::new(alloc, "ram")
        .long("ram")
        .action(ArgAction::Set)
        .value_parser(clap::value_parser!(u8).range(1..=MOST_RAM))
        .default_value(DEFAULT_RAM)
}

/// `--steps N`.
pub(crate) fn steps_arg<'a>(alloc: Global) -> Arg<'a>
    ensures rule { rule_of result ≡ steps_rule }
    ensures local { result.global ≡ false }
{
    Arg::new(alloc, "steps")
        .long("steps")
        .action(ArgAction::Set)
        .value_parser(clap::value_parser!(u64).range(0..=MOST_STEPS))
        .default_value(DEFAULT_STEPS)
}

/// `--from N`.
pub(crate) fn from_arg<'a>(alloc: Global) -> Arg<'a>
    ensures rule { rule_of result ≡ from_rule }
    ensures local { result.global ≡ false }
{
    Arg::new(alloc, "from")
        .long("from")
        .action(ArgAction::Set)
        .value_parser(clap::value_parser!(u32).range(0..=MOST_FROM))
        .default_value(DEFAULT_FROM)
}

/// `--count N`.
pub(crate) fn count_arg<'a>(alloc: Global) -> Arg<'a>
    ensures rule { rule_of result ≡ count_rule }
    ensures local { result.global ≡ false }
{
    Arg::new(alloc, "count")
        .long("count")
        .action(ArgAction::Set)
        .value_parser(clap::value_parser!(u32).range(1..=MOST_COUNT))
        .default_value(DEFAULT_COUNT)
}

/// The flag `--big`.
pub(crate) fn big_arg<'a>(alloc: Global) -> Arg<'a>
    ensures rule { rule_of result ≡ big_rule }
    ensures local { result.global ≡ false }
{
    Arg::new(alloc, "big")
        .long("big")
        .action(ArgAction::SetTrue)
        .value_parser(clap::value_parser!(bool))
}

/// The number of a demo, a word of its own.
pub(crate) fn number_arg<'a>(alloc: Global) -> Arg<'a>
    ensures rule { rule_of result ≡ number_rule }
    ensures local { result.global ≡ false }
{
    Arg::new(alloc, "number")
        .action(ArgAction::Set)
        .required(true)
        .value_parser(clap::value_parser!(u32))
}
