//! The host of the program: the files that the words name, standard input and standard output.
//!
//! The slot `Commands` opened with the empty path is standard input, and `Report` opened with the
//! empty path standard output. Nothing is told of contents and paths, and no
//! call is sure to succeed.

ghost use Rattle.std.specs.Prelude.{◌≡◌, ◌≤◌, ◌<◌, None, ⊤, length, IfOk};
ghost use Rattle.std.specs.Borrow.{sem};
ghost use Rattle.host_io.specs.Promises.{no_promise};
ghost use Rattle.m386.specs.FileHost.{IsCounted, LendsEnd, end_of, faults_of};

use host_io::{Failed, Host, InSlot, OutSlot, Slot};
use std::fs::File;
use std::io;
use std::io::{Read, Write};

/// What a slot is opened to.
#[derive(Drop)]
pub enum Stream {
    Closed,
    File(File),
    Standard,
}

impl Stream {
    fn read(&mut self, rt: HostRuntime, buffer: &mut [u8]) -> io::Result<usize>
        ensures { IfOk result (λ n. n ≤ length buffer.old) }
    {
        match self {
            Stream::Closed => Err(io::Error::from(io::ErrorKind::NotConnected)),
            Stream::File(file) => file.read(buffer),
            Stream::Standard => rt.stdin().read(buffer),
        }
    }

    fn write(&mut self, rt: HostRuntime, bytes: &[u8]) -> io::Result<usize>
        ensures { IfOk result (λ n. n ≤ length bytes.now) }
    {
        match self {
            Stream::Closed => Err(io::Error::from(io::ErrorKind::NotConnected)),
            Stream::File(file) => file.write(bytes),
            Stream::Standard => rt.stdout().write(bytes),
        }
    }
}

/// A slot: what it is opened to, and how often its calls failed.
#[derive(Drop)]
pub struct End {
    stream: Stream,
    faults: u64,
}

impl End {
    fn new() -> End
        ensures { result.faults ≡ 0 }
    {
        End {
            stream: Stream::Closed,
            faults: 0,
        }
    }

    /// Counts a call that fails.
    fn failed(&mut self) -> Failed
        ensures { IsCounted {T = ⊤} self.old.faults self.new.faults (Err result) }
    {
        self.faults = self.faults.saturating_add(1);
        Failed
    }

    fn open(&mut self, opened: io::Result<Stream>) -> Result<(), Failed>
        ensures { IsCounted self.old.faults self.new.faults result }
    {
        match opened {
            Ok(stream) => {
                self.stream = stream;
                Ok(())
            }
            Err(_) => Err(self.failed()),
        }
    }

    fn read(&mut self, rt: HostRuntime, buffer: &mut [u8]) -> Result<usize, Failed>
        ensures bound { IfOk result (λ n. n ≤ length buffer.old) }
        ensures counted { IsCounted self.old.faults self.new.faults result }
    {
        match self.stream.read(rt, buffer) {
            Ok(count) => Ok(count),
            Err(_) => Err(self.failed()),
        }
    }

    fn write(&mut self, rt: HostRuntime, bytes: &[u8]) -> Result<usize, Failed>
        ensures bound { IfOk result (λ n. n ≤ length bytes.now) }
        ensures some { 0 < length bytes.now → IfOk result (λ n. 0 < n) }
        ensures counted { IsCounted self.old.faults self.new.faults result }
    {
        match self.stream.write(rt, bytes) {
            Ok(count) if count > 0 || bytes.is_empty() => Ok(count),
            _ => Err(self.failed()),
        }
    }
}

/// The files of a run.
#[derive(Drop)]
pub struct FileHost {
    rt: HostRuntime,
    rom: End,
    disk: End,
    script: End,
    commands: End,
    report: End,
    mem: End,
    save: End,
}

impl FileHost {
    /// A host with nothing opened.
    pub fn new(rt: HostRuntime) -> FileHost
        ensures { (slot : Slot) → faults_of result slot ≡ 0 }
    {
        FileHost {
            rt,
            rom: End::new(),
            disk: End::new(),
            script: End::new(),
            commands: End::new(),
            report: End::new(),
            mem: End::new(),
            save: End::new(),
        }
    }

    fn end(&mut self, slot: Slot) -> &mut End
        ensures* lends { sem 𝓛 (LendsEnd self.entry slot result) }
        ensures value { result.now ≡ end_of self.old slot }
    {
        match slot {
            Slot::In(InSlot::Rom) => &mut self.rom,
            Slot::In(InSlot::Disk) => &mut self.disk,
            Slot::In(InSlot::Script) => &mut self.script,
            Slot::In(InSlot::Commands) => &mut self.commands,
            Slot::Out(OutSlot::Report) => &mut self.report,
            Slot::Out(OutSlot::Mem) => &mut self.mem,
            Slot::Out(OutSlot::Save) => &mut self.save,
        }
    }
}

impl Host for FileHost {
    ghost left = { λ _ _. None };

    ghost took = { λ _ _. None };

    ghost path = { λ _ _. None };

    ghost faults = { faults_of };

    ghost promise = { λ _. no_promise };

    fn open_in(&mut self, slot: InSlot, name: &str) -> Result<(), Failed> {
        let opened = match slot {
            InSlot::Commands if name.is_empty() => Ok(Stream::Standard),
            _ => File::open(&self.rt, name).map(Stream::File),
        };
        self.end(Slot::In(slot)).open(opened)
    }

    fn read(&mut self, slot: InSlot, buffer: &mut [u8]) -> Result<usize, Failed> {
        let rt = self.rt;
        self.end(Slot::In(slot)).read(rt, buffer)
    }

    fn open_out(&mut self, slot: OutSlot, name: &str) -> Result<(), Failed> {
        let opened = match slot {
            OutSlot::Report if name.is_empty() => Ok(Stream::Standard),
            _ => File::create(&self.rt, name).map(Stream::File),
        };
        self.end(Slot::Out(slot)).open(opened)
    }

    fn write(&mut self, slot: OutSlot, bytes: &[u8]) -> Result<usize, Failed> {
        let rt = self.rt;
        self.end(Slot::Out(slot)).write(rt, bytes)
    }
}
