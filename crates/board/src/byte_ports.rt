//! Accesses of one byte: which device a port belongs to, and what that does.

ghost use Rattle.std.specs.Prelude.{◌≡◌, ◌<◌, ◌≤◌, ◌*◌, ◌^◌, IsTrue};
ghost use Rattle.mdl_state.specs.Bytes.{bit, bound_of};
ghost use Rattle.mdl_dev.specs.Counter.{flag};
ghost use Rattle.mdl_dev.specs.Keyboard.{is_keyboard_port};
ghost use Rattle.mdl_dev.specs.DiskPorts.{is_disk_port, disk_value, disk_input, disk_output};
ghost use Rattle.mdl_board.specs.Board.{gate_of};
ghost use Rattle.mdl_board.specs.BytePorts.{device_at, control_read, control_written, disk_reacted, byte_from, after_byte_from, byte_to, byte_read, after_byte_read, byte_written};
ghost use Rattle.mdl_board.specs.declared.Device.TheVariants.{Keyboard};
ghost use Rattle.board.specs.Owned.{IsPortOf};

use crate::board::Board;
use mdl_board::{
    ALL_ONES, COUNTER_0, DISK_LINE, Device, GATE_2, KEYBOARD_LINE, OUT_1, OUT_2, SPEAKER,
    SYSTEM_CONTROL, TIMER_CONTROL,
};
use mdl_dev::pic::{FIRST_COMMAND, FIRST_DATA, SECOND_COMMAND, SECOND_DATA};
use mdl_dev::screen::{INDEX_PORT, REGISTER_PORT};
use mdl_dev::{disk, keyboard};
use mdl_state::Size;

/// What a port belongs to.
#[tactic(auto, unfolding(mdl_board::specs::BytePorts::device_at))]
fn device_at(port: u16) -> Device
    ensures device { result ≡ device_at port }
    ensures port { IsPortOf result port }
{
    match port {
        FIRST_COMMAND | FIRST_DATA | SECOND_COMMAND | SECOND_DATA => Device::InterruptControllers,
        COUNTER_0..=TIMER_CONTROL => Device::Timer,
        SYSTEM_CONTROL => Device::SystemControl,
        keyboard::DATA_PORT | keyboard::COMMAND_PORT => Device::Keyboard,
        INDEX_PORT | REGISTER_PORT => Device::Screen,
        disk::DATA_PORT..=disk::COMMAND_PORT | disk::CONTROL_PORT => Device::Disk,
        _ => Device::Nothing,
    }
}

/// Whether a bit of a byte is 1.
fn bit(byte: u8, place: u8) -> bool
    requires { place < 8 }
    ensures { result ≡ bit byte place }
{
    (byte >> place) & 1 == 1
}

/// A byte with one bit where something is so, else 0.
fn bit_if(is: bool, place: u8) -> u8
    requires { place < 8 }
    ensures value { result ≡ 2 ^ place * flag is }
    ensures bound { result ≤ 2 ^ place }
{
    if is { 1 << place } else { 0 }
}

impl Board {
    /// Port 61h is read.
    fn read_control(&self) -> u8
        ensures { result ≡ control_read self.now }
    {
        bit_if(self.timer.is_gate2_high(), GATE_2)
            + bit_if(self.speaker, SPEAKER)
            + bit_if(self.timer.out(1), OUT_1)
            + bit_if(self.timer.out(2), OUT_2)
    }

    /// Port 61h is written.
    fn write_control(&mut self, byte: u8)
        ensures { self.new ≡ control_written self.old byte }
    {
        self.timer.gate2(bit(byte, GATE_2));
        self.speaker = bit(byte, SPEAKER);
    }

    /// A port of the keyboard controller is read.
    #[tactic(auto, using(crate::proofs::Kept::reading_keeps_a20))]
    fn read_keyboard(&mut self, port: u16) -> u8
        requires { IsTrue (is_keyboard_port port) }
        ensures value { result ≡ byte_from Keyboard self.old port }
        ensures after { self.new ≡ after_byte_from Keyboard self.old port }
        ensures a20 { gate_of self.new ≡ gate_of self.old }
    {
        let (byte, line) = self.keyboard.input(port);
        self.raise_if(KEYBOARD_LINE, line);
        byte
    }

    /// A port of the keyboard controller is written.
    fn write_keyboard(&mut self, port: u16, byte: u8)
        requires { IsTrue (is_keyboard_port port) }
        ensures { self.new ≡ byte_to Keyboard self.old port byte }
    {
        let told = self.keyboard.output(port, byte);
        self.asks |= told.reset;
        self.raise_if(KEYBOARD_LINE, told.line);
    }

    /// A port of the disk is read, by a number of a size.
    pub(crate) fn read_disk(&mut self, port: u16, size: Size) -> u32
        requires { IsTrue (is_disk_port port) }
        ensures value { result ≡ disk_value self.old.disk port size }
        ensures bound { result < bound_of size }
        ensures after { self.new ≡ disk_reacted self.old (disk_input self.old.disk port size) }
    {
        let (value, line) = self.disk.input(port, size);
        self.raise_if(DISK_LINE, line);
        value
    }

    /// A port of the disk is written, by a number of a size.
    pub(crate) fn write_disk(&mut self, port: u16, size: Size, value: u32)
        requires { IsTrue (is_disk_port port) }
        ensures { self.new ≡ disk_reacted self.old (disk_output self.old.disk port size value) }
    {
        let line = self.disk.output(port, size, value);
        self.raise_if(DISK_LINE, line);
    }

    /// A byte is read. Where no device is, it is all ones.
    #[tactic(auto, unfolding(mdl_board::specs::BytePorts::byte_read, mdl_board::specs::BytePorts::after_byte_read))]
    pub(crate) fn read_byte(&mut self, port: u16) -> u8
        ensures value { result ≡ byte_read self.old port }
        ensures after { self.new ≡ after_byte_read self.old port }
        ensures a20 { gate_of self.new ≡ gate_of self.old }
        ensures asks { self.new.asks ≡ self.old.asks }
    {
        match device_at(port) {
            Device::InterruptControllers => self.pics.input(port),
            Device::Timer => self.timer.input(port),
            Device::SystemControl => self.read_control(),
            Device::Keyboard => self.read_keyboard(port),
            Device::Screen => self.screen.input(port),
            Device::Disk => self.read_disk(port, Size::B1) as u8,
            Device::Nothing => ALL_ONES,
        }
    }

    /// A byte is written. Where no device is, it is lost.
    #[tactic(auto, unfolding(mdl_board::specs::BytePorts::byte_written))]
    pub(crate) fn write_byte(&mut self, port: u16, byte: u8)
        ensures { self.new ≡ byte_written self.old port byte }
    {
        match device_at(port) {
            Device::InterruptControllers => self.pics.output(port, byte),
            Device::Timer => self.timer.output(port, byte),
            Device::SystemControl => self.write_control(byte),
            Device::Keyboard => self.write_keyboard(port, byte),
            Device::Screen => self.screen.output(port, byte),
            Device::Disk => self.write_disk(port, Size::B1, u32::from(byte)),
            Device::Nothing => {}
        }
    }
}
