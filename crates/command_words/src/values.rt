//! The values that a command's matches have.

ghost use Rattle.std.specs.Prelude.{◌≡◌, Some, option_map, codes};
ghost use Rattle.clap.specs.Words.{found_of, first_of, rows_of};
ghost use Rattle.command_words.specs.Jobs.{GivesMachine, flag_at, number_at, machine_of, text_of};
ghost use Rattle.command_words.specs.Parses.{HasText, HasNumber, HasMachine, IsFlag};

use crate::jobs::Machine;
use clap::ArgMatches;

/// The path of an argument that may be left out.
pub(crate) fn path_at<'a>(matches: &ArgMatches<'a>, id: &str) -> Option<&'a str>
    ensures { text_of result ≡ first_of id.now (rows_of (found_of matches.now)) }
{
    matches.get_str(id)
}

/// The path of the ROM.
pub(crate) fn rom_of<'a>(matches: &ArgMatches<'a>) -> &'a str
    requires { HasText (codes "rom") (rows_of (found_of matches.now)) }
    ensures { first_of (codes "rom") (rows_of (found_of matches.now)) ≡ Some result.now }
{
    path_at(matches, "rom").unwrap()
}

/// The mebibytes of RAM.
pub(crate) fn ram_of(matches: &ArgMatches) -> u8
    requires { HasNumber 1 64 (codes "ram") (rows_of (found_of matches.now)) }
    ensures { number_at (codes "ram") (rows_of (found_of matches.now)) ≡ Some result }
{
    matches.get_one::<u8>("ram").unwrap()
}

/// A number of 32 bits.
pub(crate) fn number_of(matches: &ArgMatches, id: &str) -> u32
    requires { HasNumber 0 4294967295 id.now (rows_of (found_of matches.now)) }
    ensures { number_at id.now (rows_of (found_of matches.now)) ≡ Some result }
{
    matches.get_one::<u32>(id).unwrap()
}

/// How many steps a run makes.
pub(crate) fn steps_of(matches: &ArgMatches) -> u64
    requires { HasNumber 0 1000000000000000 (codes "steps") (rows_of (found_of matches.now)) }
    ensures { number_at (codes "steps") (rows_of (found_of matches.now)) ≡ Some result }
{
    matches.get_one::<u64>("steps").unwrap()
}

/// Whether the flag `--big` is given.
pub(crate) fn big_of(matches: &ArgMatches) -> bool
    requires { IsFlag (codes "big") (rows_of (found_of matches.now)) }
    ensures { flag_at (codes "big") (rows_of (found_of matches.now)) ≡ result }
{
    matches.get_flag("big")
}

/// The machine that the words ask for.
pub(crate) fn machine<'a>(matches: &ArgMatches<'a>) -> Machine<'a>
    requires { HasMachine (rows_of (found_of matches.now)) }
    ensures gives { GivesMachine (rows_of (found_of matches.now)) (machine_of result) }
{
    Machine {
        rom: rom_of(matches),
        disk: path_at(matches, "disk"),
        script: path_at(matches, "script"),
        ram: ram_of(matches),
    }
}
