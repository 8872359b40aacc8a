//! What the machine shows. None of these calls changes it.

ghost use Rattle.std.specs.Prelude.{◌≡◌, ◌<◌, ◌*◌, ◌+◌, length, slice_index};
ghost use Rattle.mdl_state.specs.Memory.{byte_at};
ghost use Rattle.mdl_state.specs.PageWalk.{frame_of, is_present, entry_word};
ghost use Rattle.mdl_dev.specs.DiskImage.{disk_bytes};
ghost use Rattle.mdl_dev.specs.Screen.{register_of};
ghost use Rattle.mdl_step.specs.Report.{cell_address};
ghost use Rattle.mdl_step.specs.Computer.{start_of, paged_byte, linear_byte};

use crate::pc::Pc;
use mdl_dev::screen::{START_HIGH, START_LOW};
use mdl_state::{Activity, Regs, SCREEN_BASE, Size};
use mem_iface::{Linear, Phys};
use phys_map::PhysMap;

/// How many cells a row of the screen has.
const COLUMNS: u32 = 80;

/// How many cells the screen's memory has.
const CELLS: u32 = 0x4000;

/// The bytes of a page.
const PAGE: u32 = 0x1000;

/// Bits of a linear address below the number of an entry of the directory.
const DIRECTORY_SHIFT: u32 = 22;

/// The number of entries of a table.
const ENTRIES: u32 = 0x400;

/// Bit of an entry: present.
const PRESENT: u32 = 1;

/// A number without its bits below the twelfth.
fn frame_of(n: u32) -> u32
    ensures { result ≡ frame_of n }
{
    n - n % PAGE
}

/// Whether an entry is present.
fn is_present(entry: u32) -> bool
    ensures { result ≡ is_present entry }
{
    entry % 2 == PRESENT
}

/// The entry at a physical address that a table has.
#[tactic(auto, unfolding(mem_iface::specs::Numbers::loaded, mdl_state::specs::PageWalk::entry_word))]
fn entry(phys: &PhysMap, table: u32, number: u32) -> u32
    requires { number < 0x400 }
    ensures { result ≡ entry_word phys.now (frame_of table + 4 * number) }
{
    phys.load(frame_of(table) + 4 * number, Size::B4)
}

/// The byte at a linear address by the page tables as they stand.
#[tactic(auto, unfolding(mdl_step::specs::Computer::paged_byte))]
fn paged_byte(phys: &PhysMap, cr3: u32, lin: u32) -> Option<u8>
    ensures { result ≡ paged_byte phys.now cr3 lin }
{
    let first = entry(phys, cr3, lin >> DIRECTORY_SHIFT);
    let second = entry(phys, first, lin / PAGE % ENTRIES);
    if is_present(first) && is_present(second) {
        Some(phys.byte(frame_of(second) + lin % PAGE))
    } else {
        None
    }
}

impl Pc {
    /// The registers, EFLAGS with its status flags.
    pub fn regs(&self) -> Regs
        ensures { result ≡ self.now.state.core.regs }
    {
        self.cpu.regs()
    }

    /// The general register of a number, in the order of the instruction's fields.
    pub fn reg(&self, n: u8) -> u32
        requires { n < 8 }
        ensures { result ≡ slice_index self.now.state.core.regs.gpr n }
    {
        self.cpu.regs().gpr[n as usize]
    }

    /// What the processor does.
    pub fn activity(&self) -> Activity
        ensures { result ≡ self.now.state.core.activity }
    {
        self.cpu.activity()
    }

    /// How many steps were made.
    pub fn steps(&self) -> u64
        ensures { result ≡ self.now.state.core.steps }
    {
        self.cpu.steps()
    }

    /// How many walks of the page tables were made, up to the last number.
    pub fn walks(&self) -> u64
        ensures { result ≡ self.now.state.mem.walks }
    {
        self.cpu.lin().walks()
    }

    /// How many bytes of RAM there are.
    pub fn ram_len(&self) -> u32
        ensures { result ≡ length self.now.state.mem.physical.ram }
    {
        self.cpu.lin().phys().ram_len()
    }

    /// The byte at a place of RAM, whatever the line A20 is.
    pub fn byte(&self, at: u32) -> u8
        requires { at < length self.now.state.mem.physical.ram }
        ensures { result ≡ slice_index self.now.state.mem.physical.ram at }
    {
        self.cpu.lin().phys().ram_byte(at)
    }

    /// The byte at a physical address, by the memory map.
    pub fn phys_byte(&self, at: u32) -> u8
        ensures { result ≡ byte_at self.now.state.mem.physical at }
    {
        self.cpu.lin().phys().byte(at)
    }

    /// The byte at a linear address, or none where paging is on and an entry of its page is not
    /// present. Nothing is marked.
    pub fn lin_byte(&self, at: u32) -> Option<u8>
        ensures { result ≡ linear_byte self.now.state.mem at }
    {
        let memory = self.cpu.lin();
        if memory.is_paged() {
            paged_byte(memory.phys(), memory.cr3(), at)
        } else {
            Some(memory.phys().byte(at))
        }
    }

    /// The character and the attribute at a row and a column of the screen.
    pub fn screen_cell(&self, row: u8, col: u8) -> (u8, u8)
        requires row { row < 25 }
        requires column { col < 80 }
        ensures { result ≡ (
          byte_at self.now.state.mem.physical (cell_address (start_of self.now.board) (80 * row + col)),
          byte_at self.now.state.mem.physical (cell_address (start_of self.now.board) (80 * row + col) + 1),
        ) }
    {
        let start = 0x100 * u32::from(self.crt(START_HIGH)) + u32::from(self.crt(START_LOW));
        let cell = COLUMNS * u32::from(row) + u32::from(col);
        let at = SCREEN_BASE + 2 * ((start + cell) % CELLS);
        (self.phys_byte(at), self.phys_byte(at + 1))
    }

    /// The screen register of a number; 0 outside 0Ch to 0Fh.
    pub fn crt(&self, n: u8) -> u8
        ensures { result ≡ register_of self.now.board.screen n }
    {
        self.cpu.ports().crt(n)
    }

    /// How many bytes the disk has.
    pub fn disk_len(&self) -> u32
        ensures { result ≡ length (disk_bytes self.now.board.disk) }
    {
        self.cpu.ports().disk_len()
    }

    /// The byte at a place of the disk.
    pub fn disk_byte(&self, at: u32) -> u8
        requires { at < length (disk_bytes self.now.board.disk) }
        ensures { result ≡ slice_index (disk_bytes self.now.board.disk) at }
    {
        self.cpu.ports().disk_byte(at)
    }
}
