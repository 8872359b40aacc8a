//! Registers by themselves.

ghost use Rattle.std.specs.Prelude.{◌≡◌, ◌<◌};
ghost use Rattle.mdl_state.specs.Bytes.{bit};
ghost use Rattle.mdl_dev.specs.Disk.{signature};
ghost use Rattle.mdl_dev.specs.DiskPorts.{register_set};

use mdl_dev::disk::{
    COUNT_PORT, CYLINDER_HIGH_PORT, CYLINDER_LOW_PORT, HEAD_PORT, NO_FAULT_FOUND, Registers,
    SECTOR_PORT,
};

/// Whether a bit of a register is 1.
pub(crate) fn bit(register: u8, place: u8) -> bool
    requires { place < 8 }
    ensures { result ≡ bit register place }
{
    (register >> place) & 1 == 1
}

/// The registers after a diagnosis, with this status and this control.
pub(crate) fn signature(status: u8, control: u8) -> Registers
    ensures { result ≡ signature status control }
{
    Registers {
        error: NO_FAULT_FOUND,
        count: 1,
        sector: 1,
        cylinder_low: 0,
        cylinder_high: 0,
        head: 0,
        status,
        control,
    }
}

/// The registers with a byte in one of those that only hold what is written.
pub(crate) fn register_set(registers: Registers, port: u16, byte: u8) -> Registers
    ensures { result ≡ register_set registers port byte }
{
    let mut registers = registers;
    match port {
        COUNT_PORT => registers.count = byte,
        SECTOR_PORT => registers.sector = byte,
        CYLINDER_LOW_PORT => registers.cylinder_low = byte,
        CYLINDER_HIGH_PORT => registers.cylinder_high = byte,
        HEAD_PORT => registers.head = byte,
        _ => {}
    }
    registers
}
