//! A law of the board, stated by a function that does nothing.

ghost use Rattle.std.specs.Prelude.{◌≡◌, ◌<◌, ℕ};
ghost use Rattle.mdl_state.specs.declared.Size.TheVariants.{B1};
ghost use Rattle.mdl_board.specs.Board.{BoardState};
ghost use Rattle.mdl_board.specs.BytePorts.{byte_read, after_byte_read, byte_written};
ghost use Rattle.mdl_board.specs.WideAccesses.{input_value, after_input, after_output};

/// An access of one byte is that of the device that its port belongs to, at the data port of the
/// disk as at every other.
#[tactic(auto, using(crate::proofs::Bytes::bytes))]
pub fn a_byte_is_that_of_its_port()
    ensures value { (b : BoardState) (port : ℕ) → input_value b port B1 ≡ byte_read b port }
    ensures after { (b : BoardState) (port : ℕ) → after_input b port B1 ≡ after_byte_read b port }
    ensures written { (b : BoardState) (port byte : ℕ) → byte < 256 → after_output b port B1 byte ≡ byte_written b port byte }
{}
