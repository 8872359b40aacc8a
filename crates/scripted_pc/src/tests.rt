//! What a user sees of a script in a session, by values that are worked out by hand.

ghost use Rattle.std.specs.Prelude.{◌≡◌, IfOk};
ghost use Rattle.mdl_text.specs.Script.{RisesFrom};

use crate::Guest;
use mdl_state::{Event, EventKind};
use monitor::Target;
use pc_machine::Pc;
use std::alloc::{AllocError, Global};
use std::test::Fail;

/// NOP.
const NO_OPERATION: u8 = 0x90;

/// A machine of one mebibyte whose ROM has NOP everywhere, with a script.
fn guest(alloc: Global, events: &[Event]) -> Result<Guest, AllocError>
    requires { RisesFrom 0 events.now }
    ensures { IfOk result (λ guest. guest.machine.state.core.steps ≡ 0) }
{
    let events = Vec::from_slice(alloc, events)?;
    let rom = vec![in alloc; NO_OPERATION; 4096]?;
    match Pc::new(alloc, 1, rom, Vec::new(alloc)) {
        Ok(pc) => Ok(Guest::new(pc, events)),
        Err(_) => Err(AllocError),
    }
}

// The machine starts at FFF0h, and again behind the second step.
#[test]
fn a_reset_comes_once_however_its_count_is_reached(rt: HostRuntime) -> Result<(), Fail> {
    let script = [Event {
        at: 2,
        kind: EventKind::Reset,
    }];
    let mut by_run = guest(rt.alloc(), &script)?;
    by_run.advance(3);
    assert_eq!(rt; by_run.regs().eip, 0xFFF1);
    let mut by_step = guest(rt.alloc(), &script)?;
    by_step.advance(1);
    assert_eq!(rt; by_step.regs().eip, 0xFFF1);
    by_step.advance(2);
    assert_eq!(rt; by_step.regs().eip, 0xFFF0);
    by_step.advance(2);
    assert_eq!(rt; by_step.regs().eip, 0xFFF0);
    by_step.advance(3);
    assert_eq!(rt; by_step.regs().eip, 0xFFF1);
    Ok(())
}

// The NMI of the count 0 is delivered in the first step, to 0000:0000.
#[test]
fn the_events_of_power_on_are_applied(rt: HostRuntime) -> Result<(), Fail> {
    let mut guest = guest(
        rt.alloc(),
        &[Event {
            at: 0,
            kind: EventKind::Nmi,
        }],
    )?;
    guest.step();
    assert_eq!(rt; guest.regs().eip, 0);
    Ok(())
}
