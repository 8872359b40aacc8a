//! The check of an access against its segment.

ghost use Rattle.std.specs.Prelude.{◌≡◌, ◌<◌, ◌+◌, ◌-◌, ◌^◌, ◌&&◌};
ghost use Rattle.mdl_state.specs.Bytes.{bytes_of};
ghost use Rattle.mdl_cpu.specs.Segments.{is_protected};
ghost use Rattle.mdl_cpu.specs.Access.{top_of, all_inside, is_allowed, segment_fault, legal};

use crate::segments::{grows_down, is_big, is_permitted, is_protected, segment};
use mdl_state::{Fault, Hidden, Regs, Seg, Size};
use mem_iface::bytes_of;

/// The vector of a fault of the stack segment.
const STACK_FAULT: u8 = 12;

/// The vector of a general protection fault.
const GENERAL_PROTECTION: u8 = 13;

/// The offset of the last byte of an access, which does not wrap.
fn last_of(offset: u64, size: Size) -> u64
    requires { offset < 2 ^ 33 }
    ensures { result ≡ offset + (bytes_of size - 1) }
{
    offset + bytes_of(size) as u64 - 1
}

/// The highest offset of a segment that grows down.
fn top_of(hidden: &Hidden) -> u32
    ensures { result ≡ top_of hidden.now }
{
    if is_big(hidden) { u32::MAX } else { 0xFFFF }
}

/// Each byte of an access lies within the segment.
#[tactic(auto, using(crate::proofs::Inside::inside))]
fn is_inside(protected: bool, hidden: &Hidden, offset: u64, size: Size) -> bool
    requires { offset < 2 ^ 33 }
    ensures { result ≡ all_inside protected hidden.now offset (bytes_of size) }
{
    let last = last_of(offset, size);
    if protected && grows_down(hidden) {
        return offset > hidden.limit as u64 && last <= top_of(hidden) as u64;
    }
    last <= hidden.limit as u64
}

/// The fault of an access that is not allowed.
fn segment_fault(seg: Seg) -> Fault
    ensures { result ≡ segment_fault seg }
{
    let vector = match seg {
        Seg::Ss => STACK_FAULT,
        _ => GENERAL_PROTECTION,
    };
    Fault {
        vector,
        code: 0,
        addr: 0,
    }
}

/// The segment may be used so, and the access lies within it.
fn is_legal(protected: bool, hidden: &Hidden, offset: u64, size: Size, write: bool) -> bool
    requires { offset < 2 ^ 33 }
    ensures { result ≡ (is_allowed protected hidden.now write && all_inside protected hidden.now offset (bytes_of size)) }
{
    if protected && !is_permitted(hidden, write) {
        return false;
    }
    is_inside(protected, hidden, offset, size)
}

/// The linear address of an access at a whole number, or its fault.
#[tactic(auto, unfolding(mdl_cpu::specs::Access::legal))]
fn legal(regs: &Regs, seg: Seg, offset: u64, size: Size, write: bool) -> Result<u32, Fault>
    requires { offset < 2 ^ 33 }
    ensures { result ≡ legal regs.now seg offset size write }
{
    let hidden = segment(regs, seg);
    if is_legal(is_protected(regs), &hidden, offset, size, write) {
        Ok(((hidden.base as u64 + offset) % 0x1_0000_0000) as u32)
    } else {
        Err(segment_fault(seg))
    }
}

/// The linear address of an access, or its fault.
pub fn check(regs: &Regs, seg: Seg, offset: u32, size: Size, write: bool) -> Result<u32, Fault>
    ensures { result ≡ legal regs.now seg offset size write }
{
    legal(regs, seg, offset as u64, size, write)
}

/// The same for a part of an operand so many bytes behind its offset, as the selector of a far
/// pointer. The part's own offset may lie past the highest of 32 bits.
pub fn check_part(
    regs: &Regs,
    seg: Seg,
    offset: u32,
    behind: u32,
    size: Size,
    write: bool,
) -> Result<u32, Fault>
    ensures { result ≡ legal regs.now seg (offset + behind) size write }
{
    legal(regs, seg, offset as u64 + behind as u64, size, write)
}
