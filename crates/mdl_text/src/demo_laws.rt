//! The law of the demo guest. The function states it and does nothing.

ghost use Rattle.std.specs.Prelude.{◌≡◌, ℕ, length};
ghost use Rattle.mdl_text.specs.Demo.{Demo};

/// The demo guest of every number has 65,536 bytes, so it is a ROM.
pub fn a_demo_guest_is_a_rom()
    ensures { (number : ℕ) → length (Demo number) ≡ 65536 }
{}
