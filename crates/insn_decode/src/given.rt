//! Prefixes, as what stands behind them is given them.

ghost use Rattle.std.specs.Prelude.{◌≡◌, [], true, false};
ghost use Rattle.mdl_insn.specs.declared.rows.Setting.{Setting as AnySetting};
ghost use Rattle.mdl_insn.specs.Prefixes.{setting};

use crate::prefixes::start;
use mdl_insn::rows::Setting;

/// Prefixes in front of an opcode. Where a type tells them, they are a constant in what is behind it.
pub trait Prefixes {
    /// What they and the mode give.
    ghost gives: { Self → AnySetting };

    /// What they and the mode give.
    fn setting(&self) -> Setting
        ensures { result ≡ gives self.now };
}

/// No prefix, in code of 16 bits.
pub struct Plain16;

impl Prefixes for Plain16 {
    ghost gives = { λ _. setting false [] };

    #[inline(always)]
    fn setting(&self) -> Setting {
        start(false)
    }
}

/// No prefix, in code of 32 bits.
pub struct Plain32;

impl Prefixes for Plain32 {
    ghost gives = { λ _. setting true [] };

    #[inline(always)]
    fn setting(&self) -> Setting {
        start(true)
    }
}

/// Those that were read.
impl Prefixes for Setting {
    ghost gives = { λ s. s };

    #[inline(always)]
    fn setting(&self) -> Setting {
        *self
    }
}
