//! What a processor shows, and the ports that it lends.

ghost use Rattle.std.specs.Prelude.{◌≡◌};
ghost use Rattle.std.specs.Borrow.{Lends, sem};
ghost use Rattle.mdl_state.specs.Machine.{Machine};
ghost use Rattle.mdl_state.specs.Watches.{unwatched};
ghost use Rattle.cpu_core.specs.contracts.cpu.Cpu.{the_row};

use crate::cpu::Cpu;
use mdl_state::{Activity, Latches, Regs};
use mem_iface::{Linear, Ports};

impl<L: Linear, P: Ports> Cpu<L, P> {
    /// The registers, EFLAGS with its status flags.
    pub fn regs(&self) -> Regs
        ensures { result ≡ self.now.state.core.regs }
    {
        let mut regs = self.regs;
        regs.eflags = self.flags.pack(regs.eflags);
        regs
    }

    /// What the processor remembers between two steps.
    pub fn latches(&self) -> Latches
        ensures { result ≡ self.now.state.core.latches }
    {
        self.between.latches
    }

    /// What the processor does.
    pub fn activity(&self) -> Activity
        ensures { result ≡ self.now.state.core.activity }
    {
        self.between.activity
    }

    /// How many steps were made.
    pub fn steps(&self) -> u64
        ensures { result ≡ self.now.state.core.steps }
    {
        self.steps
    }

    /// The memory. What it looks for itself is not seen.
    pub fn lin(&self) -> &L
        ensures { unwatched (L.seen result.now) ≡ self.now.state.mem }
    {
        &self.code.inside.lin
    }

    /// The ports.
    pub fn ports(&self) -> &P
        ensures { result.now ≡ self.now.board }
    {
        &self.ports
    }

    /// The ports, to be changed. Whoever changes the line A20 there calls `reset` next.
    pub fn ports_mut(&mut self) -> &mut P
        ensures* lends { sem 𝓛 (Lends (the_row L.row P.row L.Linear P.Ports) P.row self.entry result (λ (w : P). let m : Machine P = record { state = self.old.state; board = w } in m)) }
        ensures value { result.now ≡ self.old.board }
    {
        &mut self.ports
    }
}
