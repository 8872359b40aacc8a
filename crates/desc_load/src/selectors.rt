//! Selectors.

ghost use Rattle.std.specs.Prelude.{◌≡◌, ◌≤◌};
ghost use Rattle.mdl_cpu.specs.Faults.{fault_at};
ghost use Rattle.mdl_cpu.specs.Descriptors.{is_null, rpl, in_ldt, table_offset};

use mdl_state::Fault;

/// The index of a selector, bits 3 to 15, counts descriptors of so many bytes.
const DESCRIPTOR_BYTES: u16 = 8;

/// TI of a selector: the local table.
const LOCAL_TABLE: u16 = 4;

/// The RPL of a selector is what it leaves by this.
const LEVELS: u16 = 4;

/// It names the first descriptor of the global table, which is none.
pub fn is_null(sel: u16) -> bool
    ensures { result ≡ is_null sel }
{
    sel < LEVELS
}

/// The requested privilege level.
pub fn rpl(sel: u16) -> u8
    ensures level { result ≡ rpl sel }
    ensures bound { result ≤ 3 }
{
    (sel % LEVELS) as u8
}

/// It names the local table.
pub fn in_ldt(sel: u16) -> bool
    ensures { result ≡ in_ldt sel }
{
    sel / LOCAL_TABLE % 2 == 1
}

/// How far from the start of its table the descriptor begins.
pub(crate) fn table_offset(sel: u16) -> u32
    ensures offset { result ≡ table_offset sel }
    ensures bound { result ≤ 0xFFF8 }
{
    (sel - sel % DESCRIPTOR_BYTES) as u32
}

/// A fault with a selector as its code.
pub fn fault_at(vector: u8, sel: u16) -> Fault
    ensures { result ≡ fault_at vector sel }
{
    Fault {
        vector,
        code: sel - sel % LEVELS,
        addr: 0,
    }
}
