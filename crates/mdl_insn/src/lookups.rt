//! What stands at an opcode.

ghost use Rattle.std.specs.Prelude.{◌≡◌, ◌<◌, ◌&&◌, map, slice_index_or, IsTrue};
ghost use Rattle.std.specs.List.{range_with_len};
ghost use Rattle.mdl_insn.specs.Entries.{entry_at, are_apart};
ghost use Rattle.mdl_insn.specs.Rows.{one_byte, two_bytes, groups};
ghost use Rattle.mdl_insn.specs.Rows as spec;
ghost use Rattle.mdl_insn.specs.Fits.{IsEntry};
ghost use Rattle.mdl_insn.specs.Operands.{group_locks as group_locks_of};

use crate::rows::Entry;
use crate::table::{GROUP_LOCKS, GROUPS, ONE_BYTE, TWO_BYTES};

/// The tables hold the written rows, and no place has two rows.
pub fn tables_hold_the_rows()
    ensures one { map (entry_at one_byte) (range_with_len 0 256) ≡ ONE_BYTE }
    ensures two { map (entry_at two_bytes) (range_with_len 0 256) ≡ TWO_BYTES }
    ensures groups { map (entry_at groups) (range_with_len 0 152) ≡ GROUPS }
    ensures group_locks { map group_locks_of (range_with_len 0 19) ≡ GROUP_LOCKS }
    ensures apart { IsTrue (are_apart one_byte && are_apart two_bytes && are_apart groups) }
{}

#[inline(always)]
fn one_at(b: u8) -> &'static Entry
    ensures { result.now ≡ slice_index_or ONE_BYTE b result.now }
{
    &ONE_BYTE[b as usize]
}

/// What stands at a one-byte opcode.
#[inline(always)]
pub fn one_entry(b: u8) -> &'static Entry
    ensures entry { result.now ≡ spec.one_entry b }
    ensures fits { IsEntry result.now }
{
    one_at(b)
}

#[inline(always)]
fn two_at(b: u8) -> &'static Entry
    ensures { result.now ≡ slice_index_or TWO_BYTES b result.now }
{
    &TWO_BYTES[b as usize]
}

/// What stands at the second byte behind 0F.
#[inline(always)]
pub fn two_entry(b: u8) -> &'static Entry
    ensures entry { result.now ≡ spec.two_entry b }
    ensures fits { IsEntry result.now }
{
    two_at(b)
}

#[inline(always)]
fn member_at(n: u8) -> &'static Entry
    requires { n < 152 }
    ensures { result.now ≡ slice_index_or GROUPS n result.now }
{
    &GROUPS[n as usize]
}

/// The member of a group that a reg field chooses.
#[inline(always)]
pub fn member_entry(group: u8, reg: u8) -> &'static Entry
    requires group { group < 19 }
    requires reg { reg < 8 }
    ensures entry { result.now ≡ spec.member_entry group reg }
    ensures fits { IsEntry result.now }
{
    member_at(8 * group + reg)
}

#[inline(always)]
fn lock_at(group: u8) -> bool
    requires { group < 19 }
    ensures { result ≡ slice_index_or GROUP_LOCKS group result }
{
    GROUP_LOCKS[group as usize]
}

/// Whether a group has a member that LOCK may stand before.
#[inline(always)]
pub fn group_locks(group: u8) -> bool
    requires { group < 19 }
    ensures { result ≡ group_locks_of group }
{
    lock_at(group)
}
