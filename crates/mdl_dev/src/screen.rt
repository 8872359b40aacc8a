//! The screen's ports and registers, by the names of the 6845.

/// The port of the index.
pub const INDEX_PORT: u16 = 0x3D4;
/// The port of the register that the index chooses.
pub const REGISTER_PORT: u16 = 0x3D5;

/// The cell at the screen's top left corner, high byte.
pub const START_HIGH: u8 = 0x0C;
/// The same, low byte.
pub const START_LOW: u8 = 0x0D;
/// The cell of the cursor, high byte.
pub const CURSOR_HIGH: u8 = 0x0E;
/// The same, low byte.
pub const CURSOR_LOW: u8 = 0x0F;
