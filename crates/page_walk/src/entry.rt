//! The entries of the page tables, and the fault of a walk.

ghost use Rattle.std.specs.Prelude.{◌≡◌, ◌<◌};
ghost use Rattle.mdl_state.specs.Bytes.{bit};
ghost use Rattle.mdl_state.specs.PageWalk.{frame_of, is_present, is_writable, is_for_users, is_dirty, is_write, permits, page_fault, touched};

use mdl_state::{Access, Fault, Who};

/// The vector of a page fault.
const PAGE_FAULT: u8 = 14;

/// The bits of an entry, as numbers.
const PRESENT: u32 = 0x01;

const WRITABLE: u32 = 0x02;

const FOR_USERS: u32 = 0x04;

const ACCESSED: u8 = 0x20;

const DIRTY: u8 = 0x40;

/// The bits of a page fault's code.
const OF_RIGHTS: u16 = 1;

const OF_A_WRITE: u16 = 2;

const OF_A_USER: u16 = 4;

/// A number without its bits below the twelfth.
pub(crate) fn frame_of(n: u32) -> u32
    ensures frame { result ≡ frame_of n }
{
    n - n % 0x1000
}

pub(crate) fn is_present(entry: u32) -> bool
    ensures { result ≡ is_present entry }
{
    entry / PRESENT % 2 == 1
}

pub(crate) fn is_writable(entry: u32) -> bool
    ensures { result ≡ is_writable entry }
{
    entry / WRITABLE % 2 == 1
}

pub(crate) fn is_for_users(entry: u32) -> bool
    ensures { result ≡ is_for_users entry }
{
    entry / FOR_USERS % 2 == 1
}

pub(crate) fn is_dirty(entry: u32) -> bool
    ensures { result ≡ is_dirty entry }
{
    entry / u32::from(DIRTY) % 2 == 1
}

pub(crate) fn is_write(access: Access) -> bool
    ensures { result ≡ is_write access }
{
    match access {
        Access::Read(_) => false,
        Access::Write(_) => true,
    }
}

/// Whether entries with these rights permit an access.
pub(crate) fn permits(user: bool, write: bool, access: Access) -> bool
    ensures { result ≡ permits user write access }
{
    match access {
        Access::Read(Who::User) => user,
        Access::Write(Who::User) => user && write,
        _ => true,
    }
}

/// The page fault of an access; `present` where both entries were.
pub(crate) fn page_fault(lin: u32, present: bool, access: Access) -> Fault
    ensures { result ≡ page_fault lin present access }
{
    let rights = if present { OF_RIGHTS } else { 0 };
    let code = match access {
        Access::Read(Who::User) => OF_A_USER + rights,
        Access::Write(Who::User) => OF_A_USER + OF_A_WRITE + rights,
        Access::Read(_) => rights,
        Access::Write(_) => OF_A_WRITE + rights,
    };
    Fault {
        vector: PAGE_FAULT,
        code,
        addr: lin,
    }
}

/// An entry's low byte, accessed, and where it is written dirty.
pub(crate) fn touched(byte: u8, written: bool) -> u8
    ensures { result ≡ touched byte written }
{
    let accessed = if byte / ACCESSED % 2 == 1 {
        byte
    } else {
        byte + ACCESSED
    };
    if !written || accessed / DIRTY % 2 == 1 {
        accessed
    } else {
        accessed + DIRTY
    }
}
