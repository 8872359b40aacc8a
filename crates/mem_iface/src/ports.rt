//! The ports of the board.

ghost use Rattle.std.specs.Prelude.{◌≡◌, ◌<◌, ◌-◌, ℕ, Bool, true, false};
ghost use Rattle.std.specs.Bool.{OnTrue, OnFalse};
ghost use Rattle.mdl_state.specs.declared.Size.{Size};
ghost use Rattle.mdl_state.specs.Bytes.{bound_of};

use mdl_state::Size;

/// The board behind the ports.
///
/// A call has as its meaning the relation of the board before it, its arguments, its answer and the
/// board after it. Only `output` changes the line A20 or asks for a reset.
pub trait Ports {
    /// One call of `input`.
    ghost gives: { Self → ℕ → Size → ℕ → Self → Type 0 };

    /// One call of `output`.
    ghost takes: { Self → ℕ → Size → ℕ → Self → Type 0 };

    /// One call of `acknowledge`.
    ghost tells: { Self → ℕ → Self → Type 0 };

    /// One call of `take_reset`: the board before it, and after it.
    ghost forgets: { Self → Self → Type 0 };

    /// Whether an interrupt is requested.
    ghost wants: { Self → Bool };

    /// Whether the line A20 is on.
    ghost gate: { Self → Bool };

    /// Whether a reset is asked for.
    ghost asks: { Self → Bool };

    fn input(&mut self, port: u16, size: Size) -> u32
        ensures value { gives self.old port size result self.new }
        ensures bound { result < bound_of size }
        ensures a20 { gate self.new ≡ gate self.old }
        ensures reset { asks self.new ≡ asks self.old };

    fn output(&mut self, port: u16, size: Size, value: u32)
        ensures { takes self.old port size value self.new };

    fn wants_interrupt(&self) -> bool
        ensures { result ≡ wants self.now };

    /// The vector of the interrupt that is requested, which is then in service.
    fn acknowledge(&mut self) -> u8
        requires { wants self.old ≡ true }
        ensures vector { tells self.old result self.new }
        ensures a20 { gate self.new ≡ gate self.old }
        ensures reset { asks self.new ≡ asks self.old };

    /// Whether the line A20 is on.
    fn a20(&self) -> bool
        ensures { result ≡ gate self.now };

    /// Whether a reset is asked for, which then no longer is. Where none is, nothing changes.
    fn take_reset(&mut self) -> bool
        ensures asked { result ≡ asks self.old }
        ensures taken { asks self.new ≡ false }
        ensures a20 { gate self.new ≡ gate self.old }
        ensures forgotten { OnTrue result (forgets self.old self.new) }
        ensures same { OnFalse result (self.new ≡ self.old) };
}

/// A board with nothing on it: a read gives all ones, a write is lost, the line A20 is on, and no
/// interrupt and no reset ever comes.
#[derive(Clone, Copy, Debug, PartialEq, Eq)]
pub struct NoPorts;

impl Ports for NoPorts {
    ghost gives = { λ before port size answer after. (answer ≡ bound_of size - 1) × (after ≡ before) };

    ghost takes = { λ before port size value after. after ≡ before };

    ghost tells = { λ before vector after. after ≡ before };

    ghost forgets = { λ before after. after ≡ before };

    ghost wants = { λ before. false };

    ghost gate = { λ before. true };

    ghost asks = { λ before. false };

    fn input(&mut self, _port: u16, size: Size) -> u32 {
        match size {
            Size::B1 => 0xFF,
            Size::B2 => 0xFFFF,
            Size::B4 => 0xFFFF_FFFF,
        }
    }

    fn output(&mut self, _port: u16, _size: Size, _value: u32) {}

    fn wants_interrupt(&self) -> bool {
        false
    }

    /// None is ever requested, so nobody who keeps to the trait calls this.
    fn acknowledge(&mut self) -> u8
        ensures { self.new ≡ self.old }
    {
        0
    }

    fn a20(&self) -> bool {
        true
    }

    fn take_reset(&mut self) -> bool {
        false
    }
}

#[cfg(test)]
mod tests {
    use super::*;

    #[test]
    fn an_empty_port_reads_all_ones_and_asks_for_nothing(rt: HostRuntime) {
        let mut ports = NoPorts;
        for (size, ones) in [
            (Size::B1, 0xFF),
            (Size::B2, 0xFFFF),
            (Size::B4, 0xFFFF_FFFF),
        ] {
            ports.output(0x80, size, 0);
            assert_eq!(rt; ports.input(0x80, size), ones);
        }
        assert!(rt; ports.a20());
        assert!(rt; !ports.wants_interrupt());
        assert!(rt; !ports.take_reset());
    }
}
