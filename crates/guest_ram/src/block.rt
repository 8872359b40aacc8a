//! The block that RAM lies in, by a raw pointer.
//!
//! The pointer to the first byte owns nothing. A `Bytes` owns the bytes behind it, and a `Shell` is
//! what is left of the `Vec` that made them, which frees them once they are back.

ghost use Rattle.std.specs.Prelude.{◌≡◌, ℕ, ◌<◌, List, length, slice_index, slice_set};
ghost use Rattle.std.specs.Vec.{with_items};
ghost use base.Fml.{ftrue, fex, fall, fwand, fsep, feq};
ghost use denote.RawPtr.{Ptr};
ghost use Rattle.guest_ram.specs.Block.{Extent, extent_code, bytes_owned, bytes_lent};

use std::alloc::Allocator;
use std::marker::{Model, Move, Owns};

/// The bytes of a block, which nothing else reaches. It takes no space.
pub(crate) struct Bytes {
    ghost at: { Ptr },
    ghost list: { List ℕ },
}

impl Model for Bytes {
    ghost also_owns = { λ bytes. bytes_owned bytes.at bytes.list };

    ghost also_shares = { λ bytes _ κ. bytes_lent bytes.at bytes.list κ };
}

/// A `Vec` whose bytes are out as a `Bytes`.
pub(crate) struct Shell<A: Allocator> {
    vec: Vec<u8, A>,
}

impl<A: Allocator> Owns for Shell<A> {
    ghost Value = { Extent };

    ghost coded = { extent_code };

    ghost shr_at = { λ _ _ _. ftrue };
}

impl<A: Allocator> Move for Shell<A> {
    ghost own_val = { λ e vs. fex Inside (λ shell. fsep (feq ℕ shell.vec.len e.count) (fall (List ℕ) (λ list. fwand (fsep (feq ℕ (length list) e.count) (bytes_owned e.at list)) (Fields.own_val (record { vec = with_items shell.vec list }) vs)))) };
}

/// The bytes of a `Vec`, and the `Vec` without them.
pub(crate) fn emptied<A: Allocator>(vec: Vec<u8, A>) -> (Bytes, Shell<A>)
    ensures bytes { (result.0.at ≡ vec.ptr) × (result.0.list ≡ vec.items) }
    ensures shell { (result.1.at ≡ vec.ptr) × (result.1.count ≡ length vec.items) }
{
    (Bytes {}, Shell { vec })
}

/// The `Vec` with its bytes again.
pub(crate) fn refilled<A: Allocator>(bytes: Bytes, shell: Shell<A>) -> Vec<u8, A>
    requires { (shell.at ≡ bytes.at) × (shell.count ≡ length bytes.list) }
    ensures { result.items ≡ bytes.list }
{
    let Bytes {} = bytes;
    let Shell { vec } = shell;
    vec
}

impl Bytes {
    /// The byte at a place.
    #[inline(always)]
    pub(crate) fn get(&self, start: *mut u8, index: usize) -> &u8
        requires { (start ≡ self.now.at) × (index < length self.now.list) }
        ensures { result.now ≡ slice_index self.now.list index }
    {
        unsafe { &*start.add(index) }
    }

    /// Puts a byte at a place.
    #[inline(always)]
    pub(crate) fn set(&mut self, start: *mut u8, index: usize, byte: u8)
        requires { (start ≡ self.old.at) × (index < length self.old.list) }
        ensures { (self.new.at ≡ self.old.at) × (self.new.list ≡ slice_set self.old.list index byte) }
    {
        unsafe { *start.add(index) = byte }
    }
}
