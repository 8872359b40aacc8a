//! Sectors that move through the data port.

ghost use Rattle.std.specs.Prelude.{◌≡◌, ◌≢◌, ◌≤◌, ◌<◌, ◌-◌, length, IsTrue};
ghost use Rattle.mdl_state.specs.Bytes.{bytes_of, bound_of};
ghost use Rattle.mdl_dev.specs.Disk.{done, failed};
ghost use Rattle.mdl_dev.specs.DiskAddresses.{showing};
ghost use Rattle.mdl_dev.specs.DiskTransfer.{taken_up, in_work, counted, after_sector, stored, block_ended, moved, offers, data_value, data_read, data_written};
ghost use Rattle.ata_disk.specs.Sound.{CanBegin, moves_sectors};

use crate::addresses::shown;
use crate::block::{block_number, fill, load_sector, store_sector};
use crate::disk::{Disk, IDLE};
use mdl_dev::disk::{DATA_REQUEST, FAILED, ID_NOT_FOUND, READY, SECTOR_BYTES, Transfer, Work};
use mdl_state::Size;

/// Whether a block is offered to the guest.
fn offers(work: Work) -> bool
    ensures { result ≡ offers work }
{
    match work {
        Work::Reading | Work::Identifying => true,
        Work::Writing | Work::Nothing => false,
    }
}

/// How many bytes a size has.
fn bytes_of(size: Size) -> u16
    ensures { result ≡ bytes_of size }
{
    match size {
        Size::B1 => 1,
        Size::B2 => 2,
        Size::B4 => 4,
    }
}

/// What an open port reads, in a size.
fn all_ones(size: Size) -> u32
    ensures value { result ≡ bound_of size - 1 }
    ensures bound { result < bound_of size }
{
    match size {
        Size::B1 => 0xFF,
        Size::B2 => 0xFFFF,
        Size::B4 => 0xFFFF_FFFF,
    }
}

impl Disk {
    /// The command ends well.
    pub(crate) fn done(&mut self) -> bool
        ensures state { self.new ≡ (done self.old).state }
        ensures raised { result ≡ (done self.old).raised }
    {
        self.transfer = IDLE;
        self.registers.status = READY;
        self.may_raise()
    }

    /// The command ends in an error.
    pub(crate) fn fail(&mut self, error: u8) -> bool
        ensures state { self.new ≡ (failed error self.old).state }
        ensures raised { result ≡ (failed error self.old).raised }
    {
        self.transfer = IDLE;
        self.registers.error = error;
        self.registers.status = FAILED;
        self.may_raise()
    }

    /// The count falls by one.
    pub(crate) fn count_down(&mut self)
        ensures { self.new ≡ counted self.old }
    {
        self.registers.count = ((u16::from(self.registers.count) + 255) % 256) as u8;
    }

    /// The registers show a sector.
    pub(crate) fn show(&mut self, lba: u32)
        ensures { self.new ≡ showing lba self.old }
    {
        self.registers = shown(self.geometry, lba, self.registers);
    }

    /// A sector that is read fills the block.
    #[tactic(auto, using(crate::proofs::Sectors::sector_laws))]
    fn take_up(&mut self, work: Work, left: u16, lba: u32)
        requires { CanBegin (length self.old.sectors) work left lba }
        ensures { self.new ≡ taken_up work lba self.old }
    {
        match work {
            Work::Reading => {
                load_sector(&mut self.block, &self.bytes, lba);
            }
            Work::Writing | Work::Identifying | Work::Nothing => {}
        }
    }

    /// A sector comes into work, with so many left.
    #[tactic(auto, using(crate::proofs::Sectors::sector_laws))]
    pub(crate) fn begin(&mut self, work: Work, left: u16, lba: u32)
        requires { CanBegin (length self.old.sectors) work left lba }
        ensures { self.new ≡ in_work work left lba self.old }
    {
        self.take_up(work, left, lba);
        self.transfer = Transfer {
            work,
            left,
            place: 0,
            lba,
        };
        self.registers.status = DATA_REQUEST;
    }

    /// The block becomes the sector in work.
    #[tactic(auto, using(crate::proofs::Sectors::sector_laws))]
    fn store(&mut self)
        requires { self.old.transfer.work ≡ Work.Writing }
        ensures { self.new ≡ stored self.old }
    {
        store_sector(&mut self.bytes, self.transfer.lba, &self.block);
    }

    /// A sector is finished.
    #[tactic(auto, unfolding(mdl_dev::specs::DiskTransfer::after_sector))]
    fn after_sector(&mut self, work: Work) -> bool
        requires works { IsTrue (moves_sectors work) }
        requires work { self.old.transfer.work ≡ work }
        ensures state { self.new ≡ (after_sector self.old).state }
        ensures raised { result ≡ (after_sector self.old).raised }
    {
        let left = self.transfer.left - 1;
        let lba = self.transfer.lba + 1;
        self.count_down();
        if left == 0 {
            return self.done();
        }
        self.show(lba);
        if lba >= self.total() {
            return self.fail(ID_NOT_FOUND);
        }
        self.begin(work, left, lba);
        self.may_raise()
    }

    /// The block's last byte has moved.
    #[tactic(auto, unfolding(mdl_dev::specs::DiskTransfer::block_ended))]
    fn block_ended(&mut self) -> bool
        ensures state { self.new ≡ (block_ended self.old.transfer.work self.old).state }
        ensures raised { result ≡ (block_ended self.old.transfer.work self.old).raised }
    {
        match self.transfer.work {
            Work::Reading => self.after_sector(Work::Reading),
            Work::Writing => {
                self.store();
                self.after_sector(Work::Writing)
            }
            Work::Identifying => self.done(),
            Work::Nothing => false,
        }
    }

    /// So many bytes have moved.
    fn moved(&mut self, count: u16) -> bool
        requires count { count ≤ 4 }
        requires works { self.old.transfer.work ≢ Work.Nothing }
        ensures state { self.new ≡ (moved count self.old).state }
        ensures raised { result ≡ (moved count self.old).raised }
    {
        let place = self.transfer.place + count;
        if place as usize >= SECTOR_BYTES {
            return self.block_ended();
        }
        self.transfer.place = place;
        false
    }

    /// A read of the data port.
    pub(crate) fn data_read(&mut self, size: Size) -> (u32, bool)
        ensures value { result.0 ≡ data_value self.old size }
        ensures bound { result.0 < bound_of size }
        ensures state { self.new ≡ (data_read self.old size).state }
        ensures raised { result.1 ≡ (data_read self.old size).raised }
    {
        if !offers(self.transfer.work) {
            return (all_ones(size), false);
        }
        let value = block_number(&self.block, self.transfer.place, size);
        (value, self.moved(bytes_of(size)))
    }

    /// A write to the data port.
    pub(crate) fn data_written(&mut self, size: Size, value: u32) -> bool
        ensures state { self.new ≡ (data_written self.old size value).state }
        ensures raised { result ≡ (data_written self.old size value).raised }
    {
        if self.transfer.work != Work::Writing {
            return false;
        }
        fill(&mut self.block, self.transfer.place, size, value);
        self.moved(bytes_of(size))
    }
}
