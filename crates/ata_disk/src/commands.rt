//! The commands.

ghost use Rattle.std.specs.Prelude.{◌≡◌, ◌<◌, ◌≤◌, length, IfSome};
ghost use Rattle.mdl_dev.specs.Disk.{done, dropped, signature};
ghost use Rattle.mdl_dev.specs.DiskAddresses.{address};
ghost use Rattle.mdl_dev.specs.DiskCommands.{command_of, sectors_asked, on_sector, read_sectors, write_sectors, verify_sectors, initialized, diagnosed, identified, obeyed, commanded};

use crate::addresses::addressed;
use crate::disk::{Disk, IDLE};
use crate::identify::identify;
use crate::registers::signature;
use mdl_dev::disk::{ABORTED, Command, Geometry, ID_NOT_FOUND, Work};

/// The byte of a diagnosis, which is made also where no drive answers.
const DIAGNOSE: u8 = 0x90;

/// The command of a byte.
fn command_of(byte: u8) -> Option<Command>
    ensures { result ≡ command_of byte }
{
    match byte {
        0x10 => Some(Command::Recalibrate),
        0x20 | 0x21 => Some(Command::ReadSectors),
        0x30 | 0x31 => Some(Command::WriteSectors),
        0x40 | 0x41 => Some(Command::VerifySectors),
        DIAGNOSE => Some(Command::Diagnose),
        0x91 => Some(Command::InitializeParameters),
        0xEC => Some(Command::IdentifyDrive),
        0xE7 => Some(Command::FlushCache),
        _ => None,
    }
}

impl Disk {
    /// How many sectors the command is for.
    pub(crate) fn sectors_asked(&self) -> u16
        ensures asked { result ≡ sectors_asked self.now.registers }
        ensures some { 1 ≤ result }
        ensures most { result ≤ 256 }
    {
        if self.registers.count == 0 {
            256
        } else {
            u16::from(self.registers.count)
        }
    }

    /// The sector that the registers name.
    pub(crate) fn address(&self) -> Option<u32>
        ensures address { result ≡ address self.now }
        ensures there { IfSome result (λ lba. lba < length self.now.sectors) }
    {
        addressed(self.total(), self.geometry, self.registers)
    }

    /// Offers the first sector.
    fn read_sectors(&mut self) -> bool
        ensures state { self.new ≡ (on_sector read_sectors self.old (address self.old)).state }
        ensures raised { result ≡ (on_sector read_sectors self.old (address self.old)).raised }
    {
        match self.address() {
            None => self.fail(ID_NOT_FOUND),
            Some(lba) => {
                self.begin(Work::Reading, self.sectors_asked(), lba);
                self.may_raise()
            }
        }
    }

    /// Wants the first sector.
    fn write_sectors(&mut self) -> bool
        ensures state { self.new ≡ (on_sector write_sectors self.old (address self.old)).state }
        ensures raised { result ≡ (on_sector write_sectors self.old (address self.old)).raised }
    {
        match self.address() {
            None => self.fail(ID_NOT_FOUND),
            Some(lba) => {
                self.begin(Work::Writing, self.sectors_asked(), lba);
                false
            }
        }
    }

    /// Sets the registers that tell of no fault.
    fn diagnose(&mut self) -> bool
        ensures state { self.new ≡ (diagnosed self.old).state }
        ensures raised { result ≡ (diagnosed self.old).raised }
    {
        self.registers = signature(self.registers.status, self.registers.control);
        self.done()
    }

    /// Sets the geometry by the registers.
    fn initialize(&mut self) -> bool
        ensures state { self.new ≡ (initialized self.old).state }
        ensures raised { result ≡ (initialized self.old).raised }
    {
        if self.registers.count == 0 {
            return self.fail(ABORTED);
        }
        self.geometry = Geometry {
            heads: self.registers.head % 16 + 1,
            sectors: self.registers.count,
        };
        self.done()
    }

    /// Offers the identify block.
    fn identify(&mut self) -> bool
        requires { 0 < length self.old.sectors }
        ensures state { self.new ≡ (identified self.old).state }
        ensures raised { result ≡ (identified self.old).raised }
    {
        let total = self.total();
        identify(&mut self.block, self.geometry, total);
        self.begin(Work::Identifying, 1, 0);
        self.may_raise()
    }

    /// Obeys a command when nothing is in work.
    fn obey(&mut self, command: Option<Command>) -> bool
        requires { 0 < length self.old.sectors }
        ensures state { self.new ≡ (obeyed command self.old).state }
        ensures raised { result ≡ (obeyed command self.old).raised }
    {
        match command {
            Some(Command::Recalibrate) | Some(Command::FlushCache) => self.done(),
            Some(Command::ReadSectors) => self.read_sectors(),
            Some(Command::WriteSectors) => self.write_sectors(),
            Some(Command::VerifySectors) => self.verify_sectors(),
            Some(Command::Diagnose) => self.diagnose(),
            Some(Command::InitializeParameters) => self.initialize(),
            Some(Command::IdentifyDrive) => self.identify(),
            None => self.fail(ABORTED),
        }
    }

    /// Nothing is in work.
    pub(crate) fn drop_work(&mut self)
        ensures { self.new ≡ dropped self.old }
    {
        self.transfer = IDLE;
    }

    /// A byte written to the command register.
    pub(crate) fn command(&mut self, byte: u8) -> bool
        ensures state { self.new ≡ (commanded self.old byte).state }
        ensures raised { result ≡ (commanded self.old byte).raised }
    {
        if self.answers() {
            self.drop_work();
            return self.obey(command_of(byte));
        }
        if byte == DIAGNOSE {
            self.drop_work();
            return self.diagnose();
        }
        false
    }
}
