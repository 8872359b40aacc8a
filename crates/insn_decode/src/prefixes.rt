//! Prefixes, and what they and the mode give.

ghost use Rattle.std.specs.Prelude.{◌≡◌, true, Some, []};
ghost use Rattle.mdl_insn.specs.Prefixes as spec;
ghost use Rattle.mdl_insn.specs.Rows.{one_entry};
ghost use Rattle.insn_decode.specs.Reading.{prefix_step};

use mdl_insn::Rep;
use mdl_insn::rows::{Entry, Setting};
use mdl_state::{Seg, Size};

/// What the mode gives alone.
#[inline(always)]
pub fn start(big: bool) -> Setting
    ensures { result ≡ spec.setting big [] }
{
    Setting {
        size: if big { Size::B4 } else { Size::B2 },
        wide: big,
        over: None,
        lock: false,
        rep: Rep::Plain,
    }
}

/// Whether the byte is a prefix.
#[inline(always)]
fn tells_prefix(b: u8) -> bool
    ensures { result ≡ spec.is_prefix b }
{
    match b {
        0x26 => true,
        0x2e => true,
        0x36 => true,
        0x3e => true,
        0x64 => true,
        0x65 => true,
        0x66 => true,
        0x67 => true,
        0xf0 => true,
        0xf2 => true,
        0xf3 => true,
        _ => false,
    }
}

macro_rules! with {
    ($s:expr, $field:ident: $value:expr) => {
        Some(Setting {
            $field: $value,
            ..*$s
        })
    };
}

/// The setting behind one more prefix, or nothing where the byte is none.
#[inline(always)]
pub fn with_prefix(s: &Setting, big: bool, b: u8) -> Option<Setting>
    ensures { result ≡ prefix_step big s.now b }
{
    match b {
        0x26 => with!(s, over: Some(Seg::Es)),
        0x2e => with!(s, over: Some(Seg::Cs)),
        0x36 => with!(s, over: Some(Seg::Ss)),
        0x3e => with!(s, over: Some(Seg::Ds)),
        0x64 => with!(s, over: Some(Seg::Fs)),
        0x65 => with!(s, over: Some(Seg::Gs)),
        0x66 => with!(s, size: if big { Size::B2 } else { Size::B4 }),
        0x67 => with!(s, wide: !big),
        0xf0 => with!(s, lock: true),
        0xf2 => with!(s, rep: Rep::NotEqual),
        0xf3 => with!(s, rep: Rep::Equal),
        _ => None,
    }
}

/// The setting behind one prefix.
#[inline(always)]
pub fn first_prefix(big: bool, b: u8) -> Setting
    requires { spec.is_prefix b ≡ true }
    ensures { Some result ≡ prefix_step big (spec.setting big []) b }
{
    match with_prefix(&start(big), big, b) {
        Some(s) => s,
        None => start(big),
    }
}

/// Whether the byte is a prefix. No row begins with one, so only a byte with no entry has to be looked at.
#[tactic(auto, using(mdl_insn::proofs::PrefixEnds::one_no_prefix, mdl_insn::proofs::PrefixEnds::group_no_prefix))]
#[inline(always)]
pub fn is_prefix(b: u8, entry: &Entry) -> bool
    requires { entry.now ≡ one_entry b }
    ensures { result ≡ spec.is_prefix b }
{
    match entry {
        Entry::Undefined => tells_prefix(b),
        Entry::One(_) => false,
        Entry::Group(_) => false,
    }
}
