//! The kinds of a TSS.

ghost use Rattle.std.specs.Prelude.{◌≡◌};
ghost use Rattle.mdl_cpu.specs.Descriptors.{is_available_tss};
ghost use Rattle.mdl_cpu.specs.TaskSegments.{is_wide_tss, is_busy_tss};
ghost use Rattle.mdl_cpu.specs.OldTask.{least_limit};

use desc_load::system_type;
use mdl_cpu::Desc;

/// The types of a TSS of the 80286, available and busy.
const AVAILABLE_286: u8 = 0x1;

const BUSY_286: u8 = 0x3;

/// Those of a TSS of the 80386.
const AVAILABLE_386: u8 = 0x9;

const BUSY_386: u8 = 0xB;

/// The last byte of the fields that a switch uses, in a TSS of the 80386.
const LAST_386: u32 = 103;

/// The same in one of the 80286.
const LAST_286: u32 = 43;

/// A TSS of the 80386.
pub(crate) fn is_wide_tss(desc: &Desc) -> bool
    ensures { result ≡ is_wide_tss desc.now }
{
    let kind = system_type(desc);
    kind == AVAILABLE_386 || kind == BUSY_386
}

/// A TSS that is not busy.
pub(crate) fn is_available_tss(desc: &Desc) -> bool
    ensures { result ≡ is_available_tss desc.now }
{
    let kind = system_type(desc);
    kind == AVAILABLE_286 || kind == AVAILABLE_386
}

/// A TSS that is busy.
pub(crate) fn is_busy_tss(desc: &Desc) -> bool
    ensures { result ≡ is_busy_tss desc.now }
{
    let kind = system_type(desc);
    kind == BUSY_286 || kind == BUSY_386
}

/// The least limit of a TSS, of the 80386 or of the 80286.
pub(crate) fn least_limit(wide: bool) -> u32
    ensures { result ≡ least_limit wide }
{
    if wide { LAST_386 } else { LAST_286 }
}
