//! One access of the disk's ports.

ghost use Rattle.std.specs.Prelude.{◌≡◌, ◌<◌, ◌≤◌, IsTrue};
ghost use Rattle.mdl_state.specs.Bytes.{bound_of};
ghost use Rattle.mdl_dev.specs.DiskPorts.{is_disk_port, status_read, register_read, registers_value, controlled, register_written, registers_output, disk_value, disk_input, disk_output};
ghost use Rattle.ata_disk.specs.Stored.{sectors_after};

use crate::disk::Disk;
use crate::registers::{bit, register_set, signature};
use mdl_dev::disk::{
    ALL_ONES, COMMAND_PORT, CONTROL_PORT, COUNT_PORT, CYLINDER_HIGH_PORT, CYLINDER_LOW_PORT,
    DATA_PORT, ERROR_PORT, HEAD_PORT, READY, RESET, SECTOR_PORT,
};
use mdl_state::Size;

impl Disk {
    /// Status, which is 0 where no drive answers.
    fn status(&self) -> u8
        ensures { result ≡ status_read self.now }
    {
        if self.answers() {
            self.registers.status
        } else {
            0
        }
    }

    /// A register, as a byte reads it.
    fn register_read(&self, port: u16) -> u8
        ensures { result ≡ register_read self.now port }
    {
        match port {
            ERROR_PORT => self.registers.error,
            COUNT_PORT => self.registers.count,
            SECTOR_PORT => self.registers.sector,
            CYLINDER_LOW_PORT => self.registers.cylinder_low,
            CYLINDER_HIGH_PORT => self.registers.cylinder_high,
            HEAD_PORT => self.registers.head,
            COMMAND_PORT | CONTROL_PORT => self.status(),
            _ => ALL_ONES,
        }
    }

    /// The registers of a size from a port on.
    fn registers_read(&self, port: u16, size: Size) -> u32
        requires { port ≤ CONTROL_PORT }
        ensures value { result ≡ registers_value self.now port size }
        ensures bound { result < bound_of size }
    {
        let first = u32::from(self.register_read(port));
        match size {
            Size::B1 => first,
            Size::B2 => first + 0x100 * u32::from(self.register_read(port + 1)),
            Size::B4 => {
                first
                    + 0x100 * u32::from(self.register_read(port + 1))
                    + 0x10000 * u32::from(self.register_read(port + 2))
                    + 0x1000000 * u32::from(self.register_read(port + 3))
            }
        }
    }

    /// A byte written to the control register.
    fn control(&mut self, byte: u8) -> bool
        ensures state { self.new ≡ (controlled self.old byte).state }
        ensures raised { result ≡ (controlled self.old byte).raised }
    {
        if bit(byte, RESET) {
            self.registers = signature(READY, byte);
            self.drop_work();
        } else {
            self.registers.control = byte;
        }
        false
    }

    /// A byte written to a register.
    #[tactic(auto, unfolding(mdl_dev::specs::DiskPorts::register_written))]
    fn register_written(&mut self, port: u16, byte: u8) -> bool
        ensures state { self.new ≡ (register_written self.old port byte).state }
        ensures raised { result ≡ (register_written self.old port byte).raised }
    {
        match port {
            COMMAND_PORT => self.command(byte),
            CONTROL_PORT => self.control(byte),
            _ => {
                self.registers = register_set(self.registers, port, byte);
                false
            }
        }
    }

    /// The bytes of a size written to registers from a port on, the lowest byte first.
    fn registers_written(&mut self, port: u16, size: Size, value: u32) -> bool
        requires { port ≤ CONTROL_PORT }
        ensures state { self.new ≡ (registers_output self.old port size value).state }
        ensures raised { result ≡ (registers_output self.old port size value).raised }
    {
        let [first, second, third, fourth] = value.to_le_bytes();
        let raised = self.register_written(port, first);
        match size {
            Size::B1 => raised,
            Size::B2 => raised | self.register_written(port + 1, second),
            Size::B4 => {
                let raised = raised | self.register_written(port + 1, second);
                let raised = raised | self.register_written(port + 2, third);
                raised | self.register_written(port + 3, fourth)
            }
        }
    }

    /// Reads a number of a size at a port: 1F0h to 1F7h, or 3F6h. The second answer tells whether
    /// the disk raised its line, 14. A size of two or four bytes reads successive ports, but at
    /// 1F0h, where it takes as many bytes of the block.
    #[tactic(auto, unfolding(mdl_dev::specs::DiskPorts::disk_value, mdl_dev::specs::DiskPorts::disk_input), using(crate::proofs::Kept::read_leaves))]
    pub fn input(&mut self, port: u16, size: Size) -> (u32, bool)
        requires { IsTrue (is_disk_port port) }
        ensures value { result.0 ≡ disk_value self.old port size }
        ensures bound { result.0 < bound_of size }
        ensures state { self.new ≡ (disk_input self.old port size).state }
        ensures raised { result.1 ≡ (disk_input self.old port size).raised }
        ensures sectors { self.new.sectors ≡ self.old.sectors }
    {
        if port == DATA_PORT {
            return self.data_read(size);
        }
        (self.registers_read(port, size), false)
    }

    /// Writes the low bytes of a number, as many as the size has, at a port: 1F0h to 1F7h, or 3F6h.
    /// The answer tells whether the disk raised its line, 14. A size of two or four bytes writes
    /// successive ports, but at 1F0h, where it puts as many bytes into the block.
    #[tactic(auto, unfolding(mdl_dev::specs::DiskPorts::disk_output), using(crate::proofs::Kept::written_stores, crate::proofs::Kept::others_leave))]
    pub fn output(&mut self, port: u16, size: Size, value: u32) -> bool
        requires { IsTrue (is_disk_port port) }
        ensures state { self.new ≡ (disk_output self.old port size value).state }
        ensures raised { result ≡ (disk_output self.old port size value).raised }
        ensures sectors { self.new.sectors ≡ sectors_after self.old port size value }
    {
        if port == DATA_PORT {
            return self.data_written(size, value);
        }
        self.registers_written(port, size, value)
    }
}
