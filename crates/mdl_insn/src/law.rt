//! The laws of the spelling and of the listing.

ghost use Rattle.std.specs.Prelude.{◌≡◌, ◌++◌, [], Bool, List, ℕ};
ghost use Rattle.mdl_insn.specs.Spelling.{Spelt};
ghost use Rattle.mdl_insn.specs.Listing.{IsListing};
ghost use Rattle.mdl_insn.specs.declared.instruction.Insn.{Insn};

/// No bytes spell two instructions, and no spelling is a proper prefix of another, whatever the
/// default size.
pub fn spelling_is_a_prefix_code()
    ensures one { (bytes : List ℕ) (big : Bool) (i j : Insn) → Spelt bytes big i → Spelt bytes big j → i ≡ j }
    ensures prefix { (bytes more : List ℕ) (big : Bool) (i j : Insn) → Spelt bytes big i → Spelt (bytes ++ more) big j → more ≡ [] }
{}

/// Some bytes have one listing.
pub fn listing_is_one()
    ensures { (bytes : List ℕ) (from count : ℕ) (big : Bool) (s t : List ℕ) → IsListing bytes from count big s → IsListing bytes from count big t → s ≡ t }
{}
