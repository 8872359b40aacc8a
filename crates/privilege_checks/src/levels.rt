//! Privilege levels of selectors and of the program.

ghost use Rattle.std.specs.Prelude.{◌≡◌};
ghost use Rattle.mdl_cpu.specs.SystemFlags.{io_level};
ghost use Rattle.mdl_cpu.specs.Visibility.{arpl, iopl_allows};

use desc_load::rpl;
use mdl_state::Regs;

/// The place of IOPL in EFLAGS.
const IOPL: u32 = 0x1000;

/// The selector with the RPL of another one; nothing where its own is not below that.
pub fn arpl(dest: u16, source: u16) -> Option<u16>
    ensures { result ≡ arpl dest source }
{
    let own = rpl(dest);
    let other = rpl(source);
    if own < other {
        Some(dest - own as u16 + other as u16)
    } else {
        None
    }
}

/// IOPL: the level that may still use ports, and set IF.
pub fn io_level(regs: &Regs) -> u32
    ensures { result ≡ io_level regs.now }
{
    regs.eflags / IOPL % 4
}

/// CPL is at most IOPL.
pub fn iopl_allows(regs: &Regs) -> bool
    ensures { result ≡ iopl_allows regs.now }
{
    regs.cpl as u32 <= io_level(regs)
}
