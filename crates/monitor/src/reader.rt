//! The input byte by byte, read in pieces.

ghost use Rattle.std.specs.Prelude.{◌≡◌, ◌≤◌, [], IfOk, OnErr};
ghost use Rattle.std.specs.Io.KnownBytes.{Keeps, prepend_known};
ghost use Rattle.host_io.specs.declared.host.InSlot.TheVariants.{Commands};
ghost use Rattle.host_io.specs.declared.host.Slot.TheVariants.{In};
ghost use Rattle.host_io.specs.Causes.{HasCause};
ghost use Rattle.host_io.specs.Promises.{IsSure};
ghost use Rattle.host_io.specs.Slots.{Same, SameBut};

use host_io::{Failed, Host, InSlot};

/// How many bytes of the input are read at a time.
const PIECE: usize = 4096;

/// A piece of the input, and how many of its bytes were taken.
#[derive(Drop)]
pub(crate) struct Reader {
    piece: [u8; PIECE],
    from: usize,
    to: usize,
    ghost within: { from ≤ to },
    ghost most: { to ≤ 4096 },
}

impl Reader {
    ghost use Rattle.monitor.specs.Unread.{unread, IsNext};

    /// Nothing was read yet.
    pub(crate) fn new() -> Reader
        ensures { unread result ≡ [] }
    {
        Reader {
            piece: [0; PIECE],
            from: 0,
            to: 0,
        }
    }

    /// Takes the next byte, and reads more where all that was read is taken. None is the end.
    pub(crate) fn next<H: Host>(&mut self, host: &mut H) -> Result<Option<u8>, Failed>
        ensures next { IfOk result (λ byte. IsNext byte (prepend_known (unread self.old) (H.left host.old Commands)) (prepend_known (unread self.new) (H.left host.new Commands))) }
        ensures failed { OnErr result (Keeps (prepend_known (unread self.old) (H.left host.old Commands)) (H.left host.new Commands)) }
        ensures inputs { SameBut Commands (H.left host.old) (H.left host.new) }
        ensures took { Same (H.took host.old) (H.took host.new) }
        ensures paths { Same (H.path host.old) (H.path host.new) }
        ensures cause { HasCause (H.faults host.old) (H.faults host.new) (In Commands) result }
        ensures promise { H.promise host.new ≡ H.promise host.old }
        ensures sure { OnErr result (¬ (IsSure (H.promise host.old) (In Commands))) }
    {
        if self.from == self.to {
            let Ok(count) = host.read(InSlot::Commands, &mut self.piece) else {
                return Err(Failed);
            };
            self.from = 0;
            self.to = count;
            if count == 0 {
                return Ok(None);
            }
        }
        let byte = self.piece[self.from];
        self.from += 1;
        Ok(Some(byte))
    }
}
