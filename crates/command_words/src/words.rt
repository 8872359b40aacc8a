//! The job that the words ask for.

ghost use Rattle.std.specs.Prelude.{◌≡◌, ◌↔◌, IfOk, IsTrue, codes};
ghost use Rattle.clap.specs.Words.{matches_of};
ghost use Rattle.command_words.specs.Commands.{run_app, monitor_app, dis_app, demo_app};
ghost use Rattle.command_words.specs.Jobs.{texts, StartsWith, Matched, NoneMatched, NonePromised, NoneTakes, IsRun, IsDis, IsDemo, IsMonitor, IsWithinLimits, job_of, run_of, dis_of, machine_of};
ghost use Rattle.command_words.specs.Jobs as asked;
ghost use Rattle.command_words.specs.Parses.{IsParsedBy, IsUnfit, HasRun, HasDis, HasDemo, HasMachine};

use crate::commands::{demo_command, dis_command, monitor_command, parse, run_command};
use crate::jobs::{DisJob, Job, Machine, Refused, RunJob};
use crate::values::{big_of, machine, number_of, path_at, rom_of, steps_of};
use clap::ArgMatches;
use std::alloc::Global;

/// The matches of `run`.
fn run_matches<'a>(alloc: Global, words: &'a [&'a str]) -> Result<ArgMatches<'a>, Refused>
    ensures ok { IfOk result (IsParsedBy run_app (texts words.entry.now)) }
    ensures values { IfOk result (λ _. HasRun (matches_of run_app (texts words.entry.now))) }
    ensures usage { result ≡ Err Refused.Usage → IsUnfit run_app (texts words.entry.now) }
{
    let command = run_command(alloc)?;
    parse(command, words)
}

/// The matches of `monitor`.
fn monitor_matches<'a>(alloc: Global, words: &'a [&'a str]) -> Result<ArgMatches<'a>, Refused>
    ensures ok { IfOk result (IsParsedBy monitor_app (texts words.entry.now)) }
    ensures values { IfOk result (λ _. HasMachine (matches_of monitor_app (texts words.entry.now))) }
    ensures usage { result ≡ Err Refused.Usage → IsUnfit monitor_app (texts words.entry.now) }
{
    let command = monitor_command(alloc)?;
    parse(command, words)
}

/// The matches of `dis`.
fn dis_matches<'a>(alloc: Global, words: &'a [&'a str]) -> Result<ArgMatches<'a>, Refused>
    ensures ok { IfOk result (IsParsedBy dis_app (texts words.entry.now)) }
    ensures values { IfOk result (λ _. HasDis (matches_of dis_app (texts words.entry.now))) }
    ensures usage { result ≡ Err Refused.Usage → IsUnfit dis_app (texts words.entry.now) }
{
    let command = dis_command(alloc)?;
    parse(command, words)
}

/// The matches of `demo`.
fn demo_matches<'a>(alloc: Global, words: &'a [&'a str]) -> Result<ArgMatches<'a>, Refused>
    ensures ok { IfOk result (IsParsedBy demo_app (texts words.entry.now)) }
    ensures values { IfOk result (λ _. HasDemo (matches_of demo_app (texts words.entry.now))) }
    ensures usage { result ≡ Err Refused.Usage → IsUnfit demo_app (texts words.entry.now) }
{
    let command = demo_command(alloc)?;
    parse(command, words)
}

/// The run that the words ask for.
fn run_job<'a>(alloc: Global, words: &'a [&'a str]) -> Result<RunJob<'a>, Refused>
    requires { StartsWith (codes "run") (texts words.now) }
    ensures ok { IfOk result (λ job. IsRun (texts words.entry.now) (run_of job)) }
    ensures limits { IfOk result (λ job. IsWithinLimits (asked.Run (run_of job))) }
    ensures usage { result ≡ Err Refused.Usage → IsUnfit run_app (texts words.entry.now) }
{
    let matches = run_matches(alloc, words)?;
    Ok(RunJob {
        machine: machine(&matches),
        steps: steps_of(&matches),
        mem: path_at(&matches, "mem"),
        save: path_at(&matches, "save"),
    })
}

/// The machine that the words ask for under commands.
fn monitor_job<'a>(alloc: Global, words: &'a [&'a str]) -> Result<Machine<'a>, Refused>
    requires { StartsWith (codes "monitor") (texts words.now) }
    ensures ok { IfOk result (λ job. IsMonitor (texts words.entry.now) (machine_of job)) }
    ensures limits { IfOk result (λ job. IsWithinLimits (asked.Monitor (machine_of job))) }
    ensures usage { result ≡ Err Refused.Usage → IsUnfit monitor_app (texts words.entry.now) }
{
    let matches = monitor_matches(alloc, words)?;
    Ok(machine(&matches))
}

/// The listing that the words ask for.
fn dis_job<'a>(alloc: Global, words: &'a [&'a str]) -> Result<DisJob<'a>, Refused>
    requires { StartsWith (codes "dis") (texts words.now) }
    ensures ok { IfOk result (λ job. IsDis (texts words.entry.now) (dis_of job)) }
    ensures limits { IfOk result (λ job. IsWithinLimits (asked.Dis (dis_of job))) }
    ensures usage { result ≡ Err Refused.Usage → IsUnfit dis_app (texts words.entry.now) }
{
    let matches = dis_matches(alloc, words)?;
    Ok(DisJob {
        rom: rom_of(&matches),
        from: number_of(&matches, "from"),
        count: number_of(&matches, "count"),
        big: big_of(&matches),
    })
}

/// The number of the demo that the words ask for.
fn demo_job<'a>(alloc: Global, words: &'a [&'a str]) -> Result<u32, Refused>
    requires { StartsWith (codes "demo") (texts words.now) }
    ensures ok { IfOk result (λ number. IsDemo (texts words.entry.now) number) }
    ensures usage { result ≡ Err Refused.Usage → IsUnfit demo_app (texts words.entry.now) }
{
    let matches = demo_matches(alloc, words)?;
    Ok(number_of(&matches, "number"))
}

/// Whether a word is this text.
fn is_word(word: &str, text: &str) -> bool
    ensures { IsTrue result ↔ (word.now ≡ text.now) }
{
    word == text
}

/// Whether the first of the words is this one.
fn starts_with(words: &[&str], name: &str) -> bool
    ensures { IsTrue result ↔ StartsWith name.now (texts words.now) }
{
    !words.is_empty() && is_word(words[0], name)
}

/// The job that the words ask for, the words behind the program's name. `clap` reads the rest of the
/// words for the command that the first one names.
pub fn read_words<'a>(alloc: Global, words: &'a [&'a str]) -> Result<Job<'a>, Refused>
    ensures ok { IfOk result (λ job. Matched (texts words.entry.now) (job_of job)) }
    ensures only { IfOk result (λ job. (other : asked.Job) → Matched (texts words.entry.now) other → other ≡ job_of job) }
    ensures limits { IfOk result (λ job. IsWithinLimits (job_of job)) }
    ensures usage { result ≡ Err Refused.Usage → NoneTakes (texts words.entry.now) }
    ensures none { result ≡ Err Refused.Usage → NoneMatched (texts words.entry.now) }
    ensures promised { result ≡ Err Refused.Usage → NonePromised (texts words.entry.now) }
{
    if starts_with(words, "run") {
        return Ok(Job::Run(run_job(alloc, words)?));
    }
    if starts_with(words, "dis") {
        return Ok(Job::Dis(dis_job(alloc, words)?));
    }
    if starts_with(words, "demo") {
        return Ok(Job::Demo(demo_job(alloc, words)?));
    }
    if starts_with(words, "monitor") {
        return Ok(Job::Monitor(monitor_job(alloc, words)?));
    }
    Err(Refused::Usage)
}
