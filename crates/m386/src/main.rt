//! `m386`: an Intel 80386 PC in software. The program reads what the words ask for, over files,
//! standard input and standard output.
//!
//! The one contract used above is the headline on the top call `m386`. Read `specs/Headline.antt`
//! first, then `specs/Listed.antt`, `specs/Inputs.antt`, `specs/Causes.antt` and `specs/Answers.antt`.
#![tactic(auto)]

ghost use Rattle.std.specs.Prelude.{IfOk, OnErr};
ghost use Rattle.host_io.specs.Slots.{Same};
ghost use Rattle.m386.specs.FileHost.{faults_of};
ghost use Rattle.m386.specs.Ending.{IsEnd, KeepsCounts};

mod demo_command;
mod dis_command;
#[cfg(test)]
mod fault_tests;
mod file_host;
mod inputs;
mod machine;
mod monitor_command;
mod outputs;
mod refusals;
mod run_command;
mod status;
mod top;
mod view;

use file_host::FileHost;
use status::Status;
use std::alloc::AllocError;
use std::process::ExitCode;
use std::{env, io};
use top::m386;

/// Does what the words of the command line ask for.
fn command(rt: HostRuntime, host: &mut FileHost) -> io::Result<Status>
    ensures ok { IfOk result (λ status. KeepsCounts status (faults_of host.old) (faults_of host.new)) }
    ensures err { OnErr result (Same (faults_of host.old) (faults_of host.new)) }
{
    let mut texts = Vec::new(rt.alloc());
    for text in env::args(&rt)? {
        texts.push(text).map_err(AllocError::from)?;
    }
    let mut words = Vec::new(rt.alloc());
    for text in texts.iter().skip(1) {
        words.push(text.as_str()).map_err(AllocError::from)?;
    }
    Ok(m386(rt.alloc(), words.as_slice(), host))
}

/// The same, where a word that is no text is as wrong as no words are.
fn answer(rt: HostRuntime, host: &mut FileHost) -> Status
    ensures { KeepsCounts result (faults_of host.old) (faults_of host.new) }
{
    match command(rt, host) {
        Ok(status) => status,
        Err(error) if error.kind() == io::ErrorKind::OutOfMemory => Status::Memory,
        Err(_) => m386(rt.alloc(), &[], host),
    }
}

/// The end of the program.
fn end(rt: HostRuntime, host: &mut FileHost) -> ExitCode
    ensures { IsEnd result (faults_of host.old) (faults_of host.new) }
{
    answer(rt, host).code()
}

fn main(rt: HostRuntime) -> ExitCode {
    let mut host = FileHost::new(rt);
    end(rt, &mut host)
}
