//! Sectors tested without moving any.

ghost use Rattle.std.specs.Prelude.{◌≡◌, ◌≤◌, ◌<◌, ◌+◌, ◌%◌, ◌-◌, length};
ghost use Rattle.mdl_dev.specs.DiskAddresses.{address};
ghost use Rattle.mdl_dev.specs.DiskCommands.{on_sector, verified, verify_sectors};
ghost use Rattle.ata_disk.specs.Counted.{counted_by};

use crate::disk::Disk;
use mdl_dev::disk::ID_NOT_FOUND;

impl Disk {
    /// The count falls by so many.
    fn count_down_by(&mut self, sectors: u16)
        requires { sectors ≤ 256 }
        ensures { self.new ≡ counted_by sectors self.old }
    {
        self.registers.count = ((256 + u16::from(self.registers.count) - sectors) % 256) as u8;
    }

    /// Tests sectors from one on, up to the first that the disk has not.
    #[tactic(auto, using(crate::proofs::Verified::tested_all, crate::proofs::Verified::tested_some))]
    fn verify(&mut self, left: u16, lba: u32) -> bool
        requires some { 1 ≤ left }
        requires most { left ≤ 256 }
        requires there { lba < length self.old.sectors }
        ensures state { self.new ≡ (verified left lba self.old).state }
        ensures raised { result ≡ (verified left lba self.old).raised }
    {
        let _ = &self.geometry;
        let behind = self.total() - lba;
        if u32::from(left) <= behind {
            self.show(lba + u32::from(left) - 1);
            self.count_down_by(left);
            return self.done();
        }
        self.show(lba + behind);
        self.count_down_by(behind as u16);
        self.fail(ID_NOT_FOUND)
    }

    /// Tests the sectors that the registers name.
    pub(crate) fn verify_sectors(&mut self) -> bool
        ensures state { self.new ≡ (on_sector verify_sectors self.old (address self.old)).state }
        ensures raised { result ≡ (on_sector verify_sectors self.old (address self.old)).raised }
    {
        match self.address() {
            None => self.fail(ID_NOT_FOUND),
            Some(lba) => self.verify(self.sectors_asked(), lba),
        }
    }
}
