//! An input read whole, and a piece written whole.

ghost use Rattle.std.specs.Prelude.{◌≡◌, ◌≢◌, ◌+◌, ◌≤◌, ◌<◌, length, IfOk, OnOk, OnErr};
ghost use Rattle.std.specs.Io.KnownBytes.{Appends, IsAtEnd};
ghost use Rattle.host_io.specs.declared.host.Slot.TheVariants.{In, Out};
ghost use Rattle.host_io.specs.Causes.{HasCause, HasReadCause};
ghost use Rattle.host_io.specs.Promises.{IsSure, IsFull};
ghost use Rattle.host_io.specs.Slots.{Same, SameBut, TellsAlike};
ghost use Rattle.host_io.specs.Transfers.{AppendsPrefix, IsOver, IsWhole, Takes, TakesAtMost};

use crate::host::{Failed, Host, InSlot, OutSlot};
use std::alloc::Global;

/// Why an input was not read whole.
#[derive(Clone, Copy, Debug, PartialEq, Eq)]
pub enum InError {
    /// Memory was wanting.
    Memory,
    /// A call of the host failed.
    HostFault,
    /// It has more bytes than the limit.
    TooLong,
}

/// The most bytes that one call of `read_all` asks for.
const PIECE: usize = 4096;

/// Reads an open input to its end, at most `limit` bytes.
pub fn read_all<H: Host>(
    alloc: Global,
    host: &mut H,
    slot: InSlot,
    limit: u32,
) -> Result<Vec<u8>, InError>
    ensures whole { IfOk result (λ bytes. IsWhole (H.left host.old slot) bytes.items) }
    ensures limit { IfOk result (λ bytes. length bytes.items ≤ limit) }
    ensures end { OnOk result (IsAtEnd (H.left host.new slot)) }
    ensures long { result ≡ Err InError.TooLong → IsOver limit (H.left host.old slot) }
    ensures one_over { result ≡ Err InError.TooLong → Takes (limit + 1) (H.left host.old slot) (H.left host.new slot) }
    ensures taken { TakesAtMost (limit + 1) (H.left host.old slot) (H.left host.new slot) }
    ensures within { result ≢ Err InError.TooLong → TakesAtMost limit (H.left host.old slot) (H.left host.new slot) }
    ensures tells { TellsAlike (H.left host.old slot) (H.left host.new slot) }
    ensures inputs { SameBut slot (H.left host.old) (H.left host.new) }
    ensures took { Same (H.took host.old) (H.took host.new) }
    ensures paths { Same (H.path host.old) (H.path host.new) }
    ensures cause { HasReadCause (H.faults host.old) (H.faults host.new) (In slot) result }
    ensures promise { H.promise host.new ≡ H.promise host.old }
    ensures sure { result ≡ Err InError.HostFault → ¬ (IsSure (H.promise host.old) (In slot)) }
{
    let most = limit as usize + 1;
    let mut bytes = Vec::new(alloc);
    let mut piece = [0u8; PIECE];
    while bytes.len() < most {
        let room = PIECE.min(most - bytes.len());
        let Ok(count) = host.read(slot, &mut piece[..room]) else {
            return Err(InError::HostFault);
        };
        if count == 0 {
            return Ok(bytes);
        }
        if bytes.len() + count == most {
            return Err(InError::TooLong);
        }
        if bytes.extend_from_slice(&piece[..count]).is_err() {
            return Err(InError::Memory);
        }
    }
    Err(InError::TooLong)
}

/// Writes all of a piece to an open output.
pub fn write_all<H: Host>(host: &mut H, slot: OutSlot, bytes: &[u8]) -> Result<(), Failed>
    ensures ok { OnOk result (Appends (H.took host.old slot) (H.took host.new slot) bytes.now) }
    ensures err { OnErr result (AppendsPrefix (H.took host.old slot) (H.took host.new slot) bytes.now) }
    ensures tells { TellsAlike (H.took host.old slot) (H.took host.new slot) }
    ensures outputs { SameBut slot (H.took host.old) (H.took host.new) }
    ensures left { Same (H.left host.old) (H.left host.new) }
    ensures paths { Same (H.path host.old) (H.path host.new) }
    ensures cause { HasCause (H.faults host.old) (H.faults host.new) (Out slot) result }
    ensures promise { H.promise host.new ≡ H.promise host.old }
    ensures sure { OnErr result (IsSure (H.promise host.old) (Out slot) → IsFull (H.promise host.old) slot (H.took host.new slot)) }
{
    let mut at = 0;
    while at < bytes.len() {
        at += host.write(slot, &bytes[at..])?;
    }
    Ok(())
}
