//! The timer, at its ports.

ghost use Rattle.std.specs.Prelude.{◌≡◌, ◌<◌, IsTrue};
ghost use Rattle.mdl_dev.specs.Pit.{behind_read, boot, command_of, commanded, counter_of, gate_set, has_risen, pulses, read, read_back_all, select_of, with_counter, written};
ghost use Rattle.mdl_dev.specs.PitImage.{is_in_range};

use crate::bursts::pulse_many;
use crate::control::{command_of, port_of, select_of};
use crate::counter::{latch_count, read_back, read_byte, set_up, write_byte};
use crate::modes::{drop_gate, raise_gate};
use mdl_dev::pit::{Command, Counter, Port, Select, Stage, Timer};
use std::marker::Model;

/// What a port without a counter reads.
const ALL_ONES: u8 = 0xFF;

/// A counter before any program: mode 0, low then high byte, binary, and no count.
const BOOT: Counter = Counter {
    control: 0x30,
    out: false,
    null: false,
    stage: Stage::Stopped,
    low_written: false,
    low: 0,
    high_next: false,
    count_latched: false,
    latched_count: 0,
    status_latched: false,
    latched_status: 0,
    written: 0,
    loaded: 0,
    value: 0,
};

/// The programmable interval timer of the 8254 data sheet: counters 0 to 2 at ports 40h to 42h, and
/// the control port 43h, each of 8 bits. The gates of counters 0 and 1 are always high. Contracts
/// see a `Pit` as a `Timer`.
#[derive(Drop)]
pub struct Pit {
    pub(crate) timer: Timer,
}

impl Model for Pit {
    ghost use Rattle.mdl_dev.specs.declared.pit.Timer.{Timer};
    ghost use Rattle.mdl_dev.specs.PitImage.{IsSound};

    ghost Value = { Timer };

    ghost view = { λ p. p.timer };

    ghost invariant = { λ p. IsSound p.timer };
}

impl Pit {
    /// The timer before any program: no counter has a count, and gate 2 is low.
    #[tactic(auto, unfolding(mdl_dev::specs::PitImage::is_in_range))]
    pub fn new() -> Pit
        ensures { result ≡ boot }
    {
        Pit {
            timer: Timer {
                counter0: BOOT,
                counter1: BOOT,
                counter2: BOOT,
                gate2: false,
            },
        }
    }

    fn counter(&self, which: Select) -> Counter
        ensures value { result ≡ counter_of self.now which }
        ensures range { IsTrue (is_in_range result) }
    {
        match which {
            Select::Counter0 => self.timer.counter0,
            Select::Counter1 => self.timer.counter1,
            Select::Counter2 => self.timer.counter2,
        }
    }

    fn put(&mut self, which: Select, counter: Counter)
        requires { IsTrue (is_in_range counter) }
        ensures { self.new ≡ with_counter self.old which counter }
    {
        match which {
            Select::Counter0 => self.timer.counter0 = counter,
            Select::Counter1 => self.timer.counter1 = counter,
            Select::Counter2 => self.timer.counter2 = counter,
        }
    }

    /// A command, which is a byte written to the control port.
    fn command(&mut self, byte: u8)
        ensures { self.new ≡ commanded self.old (command_of byte) }
    {
        match command_of(byte) {
            Command::CounterLatch(which) => {
                let mut counter = self.counter(which);
                latch_count(&mut counter);
                self.put(which, counter);
            }
            Command::ControlWord(which, control) => {
                let mut counter = self.counter(which);
                set_up(&mut counter, control);
                self.put(which, counter);
            }
            Command::ReadBack(byte) => self.read_back_all(byte),
        }
    }

    /// A read-back: bit 1 chooses counter 0, bit 2 counter 1, bit 3 counter 2.
    fn read_back_all(&mut self, byte: u8)
        ensures { self.new ≡ read_back_all byte self.old }
    {
        if byte / 2 % 2 == 1 {
            read_back(&mut self.timer.counter0, byte);
        }
        if byte / 4 % 2 == 1 {
            read_back(&mut self.timer.counter1, byte);
        }
        if byte / 8 % 2 == 1 {
            read_back(&mut self.timer.counter2, byte);
        }
    }

    /// A byte read from a port. A counter gives a latched status first, which is OUT in bit 7, null
    /// count in bit 6 and the control word below, and else the next byte of its latched or running
    /// count. Every other port gives all ones.
    pub fn input(&mut self, port: u16) -> u8
        ensures value { result ≡ read self.old port }
        ensures after { self.new ≡ behind_read self.old port }
    {
        match port_of(port) {
            None | Some(Port::Control) => ALL_ONES,
            Some(Port::Count(which)) => {
                let mut counter = self.counter(which);
                let byte = read_byte(&mut counter);
                self.put(which, counter);
                byte
            }
        }
    }

    /// A byte written to a port: to a counter's the next byte of a count, to the control port a
    /// control word, a latch or a read-back. Other ports take nothing.
    pub fn output(&mut self, port: u16, value: u8)
        ensures { self.new ≡ written self.old port value }
    {
        match port_of(port) {
            None => {}
            Some(Port::Control) => self.command(value),
            Some(Port::Count(which)) => {
                let mut counter = self.counter(which);
                write_byte(&mut counter, value);
                self.put(which, counter);
            }
        }
    }

    /// Sets the gate of counter 2. A rise or a fall of it does at once what the mode says.
    pub fn gate2(&mut self, high: bool)
        ensures { self.new ≡ gate_set self.old high }
    {
        if high && !self.timer.gate2 {
            raise_gate(&mut self.timer.counter2);
        }
        if !high && self.timer.gate2 {
            drop_gate(&mut self.timer.counter2);
        }
        self.timer.gate2 = high;
    }

    /// Whether the gate of counter 2 is high.
    pub fn is_gate2_high(&self) -> bool
        ensures { result ≡ self.now.gate2 }
    {
        self.timer.gate2
    }

    /// Whether OUT of a counter, 0 to 2, is high.
    pub fn out(&self, counter: u8) -> bool
        requires { counter < 3 }
        ensures { result ≡ (counter_of self.now (select_of counter)).out }
    {
        self.counter(select_of(counter)).out
    }

    /// So many pulses of the clock of all three counters. It tells whether OUT 0 rose in one of
    /// them, which asks for the interrupt of the timer.
    #[tactic(auto, using(crate::proofs::Periods::pulses_apart, crate::proofs::Periods::risen_apart))]
    pub fn pulse(&mut self, n: u32) -> bool
        ensures rose { result ≡ has_risen n self.old }
        ensures new { self.new ≡ pulses n self.old }
    {
        let rose = pulse_many(&mut self.timer.counter0, true, n);
        pulse_many(&mut self.timer.counter1, true, n);
        pulse_many(&mut self.timer.counter2, self.timer.gate2, n);
        rose
    }
}
