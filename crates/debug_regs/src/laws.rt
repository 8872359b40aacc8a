//! What the definitions say of bytes. The function states it and does nothing.

ghost use Rattle.std.specs.Prelude.{◌≡◌, ◌<◌, ◌≤◌, ◌+◌, ◌%◌, ◌^◌, ◌↔◌, ℕ, true};
ghost use Rattle.mdl_state.specs.Watches.{overlaps};
ghost use Rattle.debug_regs.specs.Overlapping.{HaveCommon};

/// Two runs of bytes overlap where a byte of the one is a byte of the other, by linear addresses
/// modulo 2^32.
pub fn an_overlap_is_a_byte_in_common()
    ensures { (a count b more : ℕ) → a < 2 ^ 32 → b < 2 ^ 32 → count ≤ 2 ^ 32 → more ≤ 2 ^ 32 → 1 ≤ count → 1 ≤ more
        → (overlaps a count b more ≡ true) ↔ HaveCommon a count b more }
{}
