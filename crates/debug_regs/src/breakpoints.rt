//! The breakpoints that the debug registers name. Manual, chapter 12.

ghost use Rattle.std.specs.Prelude.{◌≡◌, ◌<◌, ◌-◌, ◌%◌, ◌==◌, [], ℕ, not};
ghost use Rattle.std.specs.Bool.{OnFalse};
ghost use Rattle.mdl_state.specs.declared.Who.TheVariants.{Supervisor, User};
ghost use Rattle.mdl_state.specs.Watches.{hits_after};
ghost use Rattle.mdl_cpu.specs.Breakpoints.{breakpoint, data_breakpoints, execution_hits, is_enabled, kind_of, size_by};
ghost use Rattle.arrayvec.specs.ArrayVec.{array_vec_len};
ghost use Rattle.debug_regs.specs.Asked.{access_by};
ghost use Rattle.debug_regs.specs.Enabled.{with_data, with_execution};

use crate::meeting::{hits_after, overlaps, watch_start};
use arrayvec::ArrayVec;
use mdl_state::{Access, Regs, Size, Watch, Who};
use mem_iface::bytes_of;

/// Breakpoints, in the order of their numbers.
pub type Watches = ArrayVec<Watch, 4>;

/// L0 to G3 of DR7 lie below this bit.
const ENABLED: u32 = 0x100;

/// R/W of a breakpoint on execution, on writes, and on reads and writes.
const EXECUTION: u32 = 0;

const WRITES: u32 = 1;

const READS_AND_WRITES: u32 = 3;

/// LEN of a breakpoint of two bytes and of four.
const TWO_BYTES: u32 = 1;

const FOUR_BYTES: u32 = 3;

/// Whether L or G of some breakpoint is 1.
#[inline(always)]
pub fn is_any_enabled(regs: &Regs) -> bool
    ensures value { result ≡ not (regs.now.dr7 % 0x100 == 0) }
    ensures data { OnFalse result (data_breakpoints regs.now ≡ []) }
    ensures execution { OnFalse result ((lin : ℕ) → execution_hits regs.now lin ≡ 0) }
{
    regs.dr7 % ENABLED != 0
}

/// L or G of a breakpoint.
fn is_enabled(regs: &Regs, n: u8) -> bool
    requires { n < 4 }
    ensures { result ≡ is_enabled regs.now n }
{
    (regs.dr7 >> (2 * n)) & 1 == 1 || (regs.dr7 >> (2 * n + 1)) & 1 == 1
}

/// R/W of a breakpoint.
fn kind_of(regs: &Regs, n: u8) -> u32
    requires { n < 4 }
    ensures { result ≡ kind_of regs.now n }
{
    (regs.dr7 >> (16 + 4 * n)) % 4
}

/// The number of bytes that LEN says.
fn size_by(len: u32) -> Size
    ensures { result ≡ size_by len }
{
    if len == TWO_BYTES {
        Size::B2
    } else if len == FOUR_BYTES {
        Size::B4
    } else {
        Size::B1
    }
}

/// The bytes of a breakpoint, with its bit of DR6.
fn breakpoint(regs: &Regs, n: u8) -> Watch
    requires { n < 4 }
    ensures { result ≡ breakpoint regs.now n }
{
    Watch {
        lin: regs.dr[n as usize],
        size: size_by((regs.dr7 >> (18 + 4 * n)) % 4),
        reads: kind_of(regs, n) == READS_AND_WRITES,
        bits: 1 << n,
    }
}

/// A breakpoint that is enabled for data is put before those of higher numbers.
fn add_data(list: &mut Watches, regs: &Regs, n: u8)
    requires number { n < 4 }
    requires room { array_vec_len list.old < 4 - n }
    ensures items { list.new.items ≡ with_data regs.now n list.old.items }
    ensures room { array_vec_len list.new < 5 - n }
{
    let kind = kind_of(regs, n);
    if is_enabled(regs, n) && (kind == WRITES || kind == READS_AND_WRITES) {
        list.insert(0, breakpoint(regs, n));
    }
}

/// The breakpoints that are enabled for data.
pub fn data_breakpoints(regs: &Regs) -> Watches
    ensures { result.items ≡ data_breakpoints regs.now }
{
    let mut list = ArrayVec::new();
    add_data(&mut list, regs, 3);
    add_data(&mut list, regs, 2);
    add_data(&mut list, regs, 1);
    add_data(&mut list, regs, 0);
    list
}

/// The bits of DR6 with that of a breakpoint, where it is enabled for execution and a byte lies in it.
fn with_execution(regs: &Regs, n: u8, lin: u32, bits: u16) -> u16
    requires { n < 4 }
    ensures { result ≡ with_execution regs.now n lin bits }
{
    if is_enabled(regs, n) && kind_of(regs, n) == EXECUTION {
        let watch = breakpoint(regs, n);
        if overlaps(lin, 1, watch_start(watch), bytes_of(watch.size)) {
            return watch.bits | bits;
        }
    }
    bits
}

/// The bits of DR6 of the execution breakpoints that the first byte of an instruction meets.
pub fn execute_hit(regs: &Regs, lin: u32) -> u32
    ensures { result ≡ execution_hits regs.now lin }
{
    let third = with_execution(regs, 3, lin, 0);
    let second = with_execution(regs, 2, lin, third);
    let first = with_execution(regs, 1, lin, second);
    with_execution(regs, 0, lin, first) as u32
}

/// A write, or else a read.
fn access_by(write: bool, who: Who) -> Access
    ensures { result ≡ access_by write who }
{
    if write {
        Access::Write(who)
    } else {
        Access::Read(who)
    }
}

/// The bits of DR6 of the data breakpoints that an access of a program meets.
pub fn access_hit(regs: &Regs, lin: u32, size: Size, write: bool) -> u32
    ensures supervisor { result ≡ hits_after (data_breakpoints regs.now) lin size (access_by write Supervisor) 0 }
    ensures user { result ≡ hits_after (data_breakpoints regs.now) lin size (access_by write User) 0 }
{
    let access = access_by(write, Who::User);
    hits_after(data_breakpoints(regs).as_slice(), lin, size, access, 0) as u32
}
