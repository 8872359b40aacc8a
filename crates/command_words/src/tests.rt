//! What the clauses do not say: what the commands make of words as users write them.

use crate::{DisJob, Job, Machine, Refused, RunJob, read_words};
use std::alloc::Global;
use std::test::Fail;

/// The machine of a ROM, with all else left out.
const MACHINE: Machine<'static> = Machine {
    rom: "a.rom",
    disk: None,
    script: None,
    ram: 4,
};

/// Its run.
const RUN: RunJob<'static> = RunJob {
    machine: MACHINE,
    steps: 10_000_000,
    mem: None,
    save: None,
};

/// Its listing.
const DIS: DisJob<'static> = DisJob {
    rom: "a.rom",
    from: 0,
    count: 20,
    big: false,
};

/// Reads words whose texts live longer than their list.
fn read<'a>(alloc: Global, words: &'a [&str]) -> Result<Job<'a>, Refused> {
    read_words(alloc, words)
}

#[test]
fn words_in_any_order_ask_for_their_job(rt: HostRuntime) -> Result<(), Fail> {
    let whole = Job::Run(RunJob {
        machine: Machine {
            rom: "a.rom",
            disk: Some("d.img"),
            script: Some("keys"),
            ram: 64,
        },
        steps: 7,
        mem: Some("m.bin"),
        save: Some("s.img"),
    });
    let wide = Job::Dis(DisJob {
        rom: "a.rom",
        from: 262_143,
        count: 65_536,
        big: true,
    });
    let table: [(&[&str], Job); 9] = [
        (&["run", "--rom", "a.rom"], Job::Run(RUN)),
        (&["run", "--ram=+4", "--rom=a.rom", "--"], Job::Run(RUN)),
        (
            &["run", "--steps", "010000000", "--rom", "a.rom"],
            Job::Run(RUN),
        ),
        (
            &[
                "run",
                "--save",
                "s.img",
                "--mem=m.bin",
                "--ram",
                "64",
                "--script",
                "keys",
                "--steps=7",
                "--disk",
                "d.img",
                "--rom",
                "a.rom",
            ],
            whole,
        ),
        (&["dis", "--rom", "a.rom"], Job::Dis(DIS)),
        (
            &[
                "dis",
                "--big",
                "--count",
                "65536",
                "--from=262143",
                "--rom",
                "a.rom",
            ],
            wide,
        ),
        (&["demo", "4294967295"], Job::Demo(4_294_967_295)),
        (&["demo", "--", "7"], Job::Demo(7)),
        (&["monitor", "--rom", "a.rom"], Job::Monitor(MACHINE)),
    ];
    for (words, job) in table {
        assert_eq!(rt; read(rt.alloc(), words), Ok(job));
    }
    Ok(())
}

#[test]
fn all_other_words_are_refused(rt: HostRuntime) {
    let table: [&[&str]; 17] = [
        &[],
        &["--help"],
        &["boot", "--rom", "a.rom"],
        &["run"],
        &["run", "--help"],
        &["run", "--rom", "a.rom", "--rom", "a.rom"],
        &["run", "--rom", "a.rom", "--cpu", "486"],
        &["run", "--rom", "a.rom", "7"],
        &["run", "--rom", "a.rom", "--steps"],
        &["run", "--rom", "a.rom", "--steps", "7h"],
        &["run", "--rom", "a.rom", "--steps", "1000000000000001"],
        &["run", "--rom", "a.rom", "--ram", "0"],
        &["run", "--rom", "a.rom", "--ram", "65"],
        &["monitor", "--rom", "a.rom", "--steps", "7"],
        &["dis", "--rom", "a.rom", "--count", "0"],
        &["demo"],
        &["demo", "4294967296"],
    ];
    for words in table {
        assert_eq!(rt; read(rt.alloc(), words), Err(Refused::Usage));
    }
}
