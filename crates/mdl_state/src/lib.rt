//! The processor's state and its memory as they are written down: the plain types here, and in
//! `specs/` the state, the memory map, the walk of the page tables, accesses and attempts.
//!
//! The one contract used above is the definitions themselves: `byte_at`, `walk`, the accesses and
//! `attempt`. Read `specs/State.antt` first, then `Memory`, `PageWalk`, `Serving`, `Accesses`,
//! `Attempt`.
#![tactic(auto)]

mod laws;

pub use laws::{a_fault_leaves_memory, a_plan_after_a_plan, a_rule_is_some_choice};

/// The physical address of the screen memory.
pub const SCREEN_BASE: u32 = 0xB8000;

/// The size of an operand or of an access: one, two or four bytes.
#[derive(Clone, Copy, Debug, PartialEq, Eq)]
pub enum Size {
    B1,
    B2,
    B4,
}

/// A segment register, in the order of its number in the instructions' encoding.
#[derive(Clone, Copy, Debug, PartialEq, Eq)]
pub enum Seg {
    Es,
    Cs,
    Ss,
    Ds,
    Fs,
    Gs,
}

/// For whom an access is made: privilege level 3, the other levels, or the processor itself for a
/// descriptor, a page table or a task image, which has the rights of a supervisor.
#[derive(Clone, Copy, Debug, PartialEq, Eq)]
pub enum Who {
    User,
    Supervisor,
    Tables,
}

/// An access, as translation sees it.
#[derive(Clone, Copy, Debug, PartialEq, Eq)]
pub enum Access {
    Read(Who),
    Write(Who),
}

/// Where an access lies: the physical address of its first byte, that of its first byte on a second
/// page, and how many bytes lie on the first page.
#[derive(Clone, Copy, Debug, PartialEq, Eq)]
pub struct Place {
    pub first: u32,
    pub second: u32,
    pub cut: u8,
}

/// What the processor does.
#[derive(Clone, Copy, Debug, PartialEq, Eq)]
pub enum Activity {
    Running,
    Halted,
    Shutdown,
}

/// A segment register with its hidden part.
///
/// `limit` is in bytes, after the granularity was applied. `rights` has the descriptor's access
/// byte in bits 0 to 7, D/B in bit 14 and G in bit 15. An unusable segment has base, limit and
/// rights 0.
#[derive(Clone, Copy, Debug, PartialEq, Eq)]
pub struct Hidden {
    pub sel: u16,
    pub base: u32,
    pub limit: u32,
    pub rights: u16,
}

/// The registers that a program can see, with the hidden parts of the segment registers.
///
/// `gpr` is in the order EAX, ECX, EDX, EBX, ESP, EBP, ESI, EDI; `seg` in the order of `Seg`.
#[derive(Clone, Copy, Debug, PartialEq, Eq)]
pub struct Regs {
    pub gpr: [u32; 8],
    pub eip: u32,
    pub eflags: u32,
    pub seg: [Hidden; 6],
    pub ldtr: Hidden,
    pub tr: Hidden,
    pub gdt_base: u32,
    pub gdt_limit: u16,
    pub idt_base: u32,
    pub idt_limit: u16,
    pub cr0: u32,
    pub cr2: u32,
    pub cr3: u32,
    pub dr: [u32; 4],
    pub dr6: u32,
    pub dr7: u32,
    pub cpl: u8,
}

/// A fault with its vector and error code. `addr` is the linear address where the vector is that
/// of a page fault, else 0.
#[derive(Clone, Copy, Debug, PartialEq, Eq)]
pub struct Fault {
    pub vector: u8,
    pub code: u16,
    pub addr: u32,
}

/// What a walk of the page tables finds: the address of the frame, and the rights of both levels
/// together.
#[derive(Clone, Copy, Debug, PartialEq, Eq)]
pub struct Entry {
    pub frame: u32,
    pub user: bool,
    pub write: bool,
    pub dirty: bool,
}

/// A data breakpoint: where it is, how many bytes it watches, whether reads count beside writes, and
/// the bits of DR6 that a match sets.
#[derive(Clone, Copy, Debug, PartialEq, Eq)]
pub struct Watch {
    pub lin: u32,
    pub size: Size,
    pub reads: bool,
    pub bits: u16,
}

impl Default for Watch {
    /// No bits, so that it meets nothing that shows.
    fn default() -> Watch {
        Watch {
            lin: 0,
            size: Size::B1,
            reads: false,
            bits: 0,
        }
    }
}

/// What happens to the machine between two steps.
#[derive(Clone, Copy, Debug, PartialEq, Eq)]
pub enum EventKind {
    /// A byte from the keyboard.
    Key(u8),
    /// So many pulses of the timer's clock.
    Pulse(u32),
    /// A non-maskable interrupt is latched.
    Nmi,
    /// The processor and every chip are reset.
    Reset,
}

/// An event, with the count of steps at which it is applied.
#[derive(Clone, Copy, Debug, PartialEq, Eq)]
pub struct Event {
    pub at: u64,
    pub kind: EventKind,
}

/// What the processor remembers between two steps beside its registers.
#[derive(Clone, Copy, Debug, PartialEq, Eq)]
pub struct Latches {
    /// A non-maskable interrupt waits.
    pub nmi: bool,
    /// Such interrupts are masked, from the delivery of one until an IRET completes.
    pub masked: bool,
    /// What is held back for one instruction: 0 nothing, 1 every interrupt and debug trap,
    /// 2 the interrupt line.
    pub hold: u8,
    /// The bits of DR6 that a pending debug trap sets.
    pub pending: u16,
}

/// What follows an instruction.
#[derive(Clone, Copy, Debug, PartialEq, Eq)]
pub enum Next {
    /// EIP goes on behind the instruction.
    Follow,
    /// EIP was set.
    Landed,
    /// A repeated instruction goes on.
    Again,
    /// The processor halts.
    Halt,
    /// Every interrupt and debug trap is held back for one instruction.
    HoldAll,
    /// The interrupt line is held back for one instruction.
    HoldIntr,
    /// A software interrupt of this vector follows, and the registers are unchanged.
    Soft(u8),
    /// A task switch was made, to a task whose T bit is this.
    Task(bool),
}
