//! Where instruction bytes come from.

ghost use Rattle.std.specs.Prelude.{ℕ, Result};
ghost use Rattle.mdl_state.specs.declared.Fault.{Fault};

use mdl_state::Fault;

/// A source of instruction bytes, one after the other.
///
/// `gives` is the relation of one call: the source before it, what it answered, the source after it.
pub trait Fetch {
    ghost gives: { Self → Result ℕ Fault → Self → Type 0 };

    /// The next byte, or the fault of fetching it.
    fn next(&mut self) -> Result<u8, Fault>
        ensures { gives self.old result self.new };
}
