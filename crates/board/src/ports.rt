//! The board as the processor reaches it: accesses of each size, interrupts, and the reset that the
//! keyboard controller asks for.

ghost use Rattle.std.specs.Prelude.{◌≡◌, ◌<◌};
ghost use Rattle.mdl_state.specs.Bytes.{bytes_of, bound_of, little, little_bytes};
ghost use Rattle.mdl_board.specs.Board.{gate_of};
ghost use Rattle.mdl_board.specs.WideAccesses.{next_port, bytes_read, after_bytes_read, bytes_written};
ghost use Rattle.mdl_board.specs.Wiring.{board_gives, board_takes, board_tells, board_forgets, board_wants};

use crate::board::Board;
use mdl_dev::disk::DATA_PORT;
use mdl_state::Size;
use mem_iface::Ports;

/// The port behind one; behind the last comes port 0.
fn next_port(port: u16) -> u16
    ensures { result ≡ next_port port }
{
    port.wrapping_add(1)
}

impl Board {
    /// The bytes of a size are read at successive ports.
    fn read_bytes(&mut self, port: u16, size: Size) -> u32
        ensures value { result ≡ little (bytes_read (bytes_of size) self.old port) }
        ensures bound { result < bound_of size }
        ensures after { self.new ≡ after_bytes_read (bytes_of size) self.old port }
        ensures a20 { gate_of self.new ≡ gate_of self.old }
        ensures asks { self.new.asks ≡ self.old.asks }
    {
        let first = u32::from(self.read_byte(port));
        match size {
            Size::B1 => first,
            Size::B2 => first + 0x100 * u32::from(self.read_byte(next_port(port))),
            Size::B4 => {
                let port = next_port(port);
                let second = u32::from(self.read_byte(port));
                let port = next_port(port);
                let third = u32::from(self.read_byte(port));
                let fourth = u32::from(self.read_byte(next_port(port)));
                first + 0x100 * second + 0x10000 * third + 0x1000000 * fourth
            }
        }
    }

    /// The low bytes of a number are written at successive ports, as many as the size has.
    fn write_bytes(&mut self, port: u16, size: Size, value: u32)
        ensures { self.new ≡ bytes_written self.old port (little_bytes (bytes_of size) value) }
    {
        let [first, second, third, fourth] = value.to_le_bytes();
        self.write_byte(port, first);
        match size {
            Size::B1 => {}
            Size::B2 => self.write_byte(next_port(port), second),
            Size::B4 => {
                let port = next_port(port);
                self.write_byte(port, second);
                let port = next_port(port);
                self.write_byte(port, third);
                self.write_byte(next_port(port), fourth);
            }
        }
    }
}

impl Ports for Board {
    ghost gives = { λ before port size answer after. board_gives before port size answer after };

    ghost takes = { λ before port size value after. board_takes before port size value after };

    ghost tells = { λ before vector after. board_tells before vector after };

    ghost forgets = { λ before after. board_forgets before after };

    ghost wants = { λ before. board_wants before };

    ghost gate = { λ before. gate_of before };

    ghost asks = { λ before. before.asks };

    /// A number of a size is read: at the disk's data port all its bytes at once, else each byte at
    /// a port of its own, the lowest first.
    #[tactic(auto, unfolding(mdl_board::specs::WideAccesses::input_value, mdl_board::specs::WideAccesses::after_input))]
    fn input(&mut self, port: u16, size: Size) -> u32 {
        if port == DATA_PORT {
            self.read_disk(port, size)
        } else {
            self.read_bytes(port, size)
        }
    }

    #[tactic(auto, unfolding(mdl_board::specs::WideAccesses::after_output))]
    fn output(&mut self, port: u16, size: Size, value: u32) {
        if port == DATA_PORT {
            self.write_disk(port, size, value);
        } else {
            self.write_bytes(port, size, value);
        }
    }

    fn wants_interrupt(&self) -> bool {
        self.pics.wants()
    }

    #[tactic(auto, unfolding(mdl_board::specs::Board::after_acknowledge))]
    fn acknowledge(&mut self) -> u8 {
        self.pics.acknowledge()
    }

    fn a20(&self) -> bool {
        self.keyboard.a20()
    }

    fn take_reset(&mut self) -> bool {
        let asked = self.asks;
        self.asks = false;
        asked
    }
}
