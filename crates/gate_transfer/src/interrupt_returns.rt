//! IRET.

ghost use Rattle.std.specs.Prelude.{◌≡◌, ◌≤◌, ◌<◌, ◌+◌, ◌%◌, ◌^◌, length, IfOk, OnErr, false};
ghost use Rattle.mdl_state.specs.Serving.{by_pick};
ghost use Rattle.mdl_state.specs.Bytes.{bit};
ghost use Rattle.mdl_state.specs.Accesses.{Keeps, HasRoom};
ghost use Rattle.mdl_state.specs.Attempt.{Done, then_plan, tried};
ghost use Rattle.mdl_cpu.specs.Steady.{StaysSound};
ghost use Rattle.mdl_cpu.specs.Faults.{first_of};
ghost use Rattle.mdl_cpu.specs.SystemFlags.{NT, with_flags_from};
ghost use Rattle.mdl_cpu.specs.Loads.{answered};
ghost use Rattle.mdl_cpu.specs.Segments.{has_protection};
ghost use Rattle.mdl_cpu.specs.declared.Outcome.TheVariants as outcome;
ghost use Rattle.mdl_cpu.specs.Transfers.{IfSwitch, transferred};
ghost use Rattle.mdl_cpu.specs.Returns.{returned_flags, plain_interrupt_return_plan, virtual_interrupt_return_plan, virtual_segments, at_virtual, virtual_rows, return_to_virtual_plan, gives_virtual, return_to_plan, popped_return_plan, protected_interrupt_return_plan, interrupt_return_plan};
ghost use Rattle.gate_transfer.specs.Ways.{plain_code_plan};

use crate::code::{PlainMode, Pointer, general_protection, set_code};
use crate::returns::return_to;
use desc_load::{has_protection, is_virtual, virtual_segment};
use mdl_cpu::Outcome;
use mdl_state::{Fault, Regs, Size, Who};
use mem_iface::Linear;
use privilege_checks::iopl_allows;
use seg_unit::pop;
use v86_mode::sensitive;

/// CF, PF, AF, ZF, SF, TF, DF, OF and NT, which an image gives at every privilege level.
const COMMON_FLAGS: u32 = 0x4DD5;

/// Both bits of IOPL.
const IO_LEVEL: u32 = 0x3000;

/// IF.
const INTERRUPT: u32 = 0x200;

/// NT.
const NESTED_TASK: u32 = 0x4000;

/// RF.
const RESUME: u32 = 0x1_0000;

/// VM.
const VIRTUAL_8086: u32 = 0x2_0000;

/// The highest EIP of V86.
const VIRTUAL_LIMIT: u32 = 0xFFFF;

/// The number of ESP among the general registers.
const ESP: usize = 4;

/// The level of V86.
const VIRTUAL_LEVEL: u8 = 3;

/// The flags that IRET takes from an image.
fn returned_flags(regs: &Regs, size: Size) -> u32
    ensures flags { result ≡ returned_flags regs.now size }
    ensures bound { result < 2 ^ 17 }
{
    let level = if regs.cpl == 0 { IO_LEVEL } else { 0 };
    let interrupt = if iopl_allows(regs) { INTERRUPT } else { 0 };
    let taken = COMMON_FLAGS + level + interrupt;
    match size {
        Size::B4 => taken + RESUME,
        _ => taken,
    }
}

/// EFLAGS with these of its flags as the image has them.
fn with_flags_from(image: u32, flags: u32, eflags: u32) -> u32
    ensures { result ≡ with_flags_from image flags eflags }
{
    image & flags | eflags & !flags
}

/// IRET without a descriptor. EIP, CS and EFLAGS are popped before the new EIP is tested.
#[tactic(auto, using(mdl_state::specs::Rules::attempts))]
fn return_plain<L: Linear>(
    regs: &mut Regs,
    lin: &mut L,
    mode: PlainMode,
    size: Size,
) -> Result<Outcome, Fault>
    ensures run { (transferred result regs.new, L.seen lin.new)
        ≡ tried (by_pick L.pick) 0 (plain_interrupt_return_plan (plain_code_plan mode) regs.old size) (L.seen lin.old) }
    ensures made { IfOk result (λ way. way ≡ outcome.Done) }
    ensures switched { IfOk result (λ way. IfSwitch way (regs.new ≡ regs.old)) }
    ensures held { (L.seen lin.new).held ≡ (L.seen lin.old).held }
    ensures keeps { Keeps (L.seen lin.old) (L.seen lin.new) }
{
    let old = *regs;
    let eip = pop(regs, lin, size)?;
    let sel = (pop(regs, lin, size)? % 0x1_0000) as u16;
    let image = pop(regs, lin, size)?;
    set_code(regs, mode, sel, eip)?;
    regs.eflags = with_flags_from(image, returned_flags(&old, size), old.eflags);
    Ok(Outcome::Done)
}

/// IRET in V86.
#[tactic(auto, unfolding(mdl_cpu::specs::Returns::virtual_interrupt_return_plan))]
fn return_in_virtual<L: Linear>(regs: &mut Regs, lin: &mut L, size: Size) -> Result<Outcome, Fault>
    ensures run { (transferred result regs.new, L.seen lin.new)
        ≡ tried (by_pick L.pick) 0 (virtual_interrupt_return_plan regs.old size) (L.seen lin.old) }
    ensures switched { IfOk result (λ way. IfSwitch way (regs.new ≡ regs.old)) }
    ensures held { (L.seen lin.new).held ≡ (L.seen lin.old).held }
    ensures keeps { Keeps (L.seen lin.old) (L.seen lin.new) }
{
    sensitive(regs)?;
    return_plain(regs, lin, PlainMode::Virtual, size)
}

/// The selectors of the six segment registers.
#[derive(Clone, Copy)]
struct Selectors {
    es: u16,
    cs: u16,
    ss: u16,
    ds: u16,
    fs: u16,
    gs: u16,
}

/// The six segment registers as V86 has them.
#[tactic(auto, unfolding(mdl_cpu::specs::Returns::virtual_segments))]
fn load_virtual(regs: &mut Regs, all: Selectors)
    ensures { regs.new ≡ virtual_segments regs.old all.es all.cs all.ss all.ds all.fs all.gs }
{
    regs.seg = [
        virtual_segment(all.es),
        virtual_segment(all.cs),
        virtual_segment(all.ss),
        virtual_segment(all.ds),
        virtual_segment(all.fs),
        virtual_segment(all.gs),
    ];
}

/// The registers turned to V86.
fn turn_virtual(regs: &mut Regs, eip: u32, esp: u32, eflags: u32)
    ensures { regs.new ≡ at_virtual regs.old eip esp eflags }
{
    regs.cpl = VIRTUAL_LEVEL;
    regs.eip = eip;
    regs.eflags = eflags;
    regs.gpr[ESP] = esp;
}

/// An EIP of V86 has 16 bits.
fn virtual_rows(eip: u32) -> Result<(), Fault>
    ensures { result ≡ first_of (virtual_rows eip) }
{
    if eip > VIRTUAL_LIMIT {
        return Err(general_protection(0));
    }
    Ok(())
}

/// To V86, behind EIP, CS and EFLAGS.
#[tactic(auto, using(mdl_state::specs::Rules::attempts), unfolding(mdl_cpu::specs::Returns::return_to_virtual_plan))]
fn return_to_virtual<L: Linear>(
    regs: &mut Regs,
    lin: &mut L,
    old: &Regs,
    eip: u32,
    cs: u32,
    image: u32,
) -> Result<(), Fault>
    ensures run { (answered result regs.new, L.seen lin.new)
        ≡ tried (by_pick L.pick) 0 (return_to_virtual_plan old.now regs.old eip cs image) (L.seen lin.old) }
    ensures held { (L.seen lin.new).held ≡ (L.seen lin.old).held }
    ensures keeps { Keeps (L.seen lin.old) (L.seen lin.new) }
{
    let esp = pop(regs, lin, Size::B4)?;
    let ss = (pop(regs, lin, Size::B4)? % 0x1_0000) as u16;
    let es = (pop(regs, lin, Size::B4)? % 0x1_0000) as u16;
    let ds = (pop(regs, lin, Size::B4)? % 0x1_0000) as u16;
    let fs = (pop(regs, lin, Size::B4)? % 0x1_0000) as u16;
    let gs = (pop(regs, lin, Size::B4)? % 0x1_0000) as u16;
    virtual_rows(eip)?;
    let flags = returned_flags(old, Size::B4) + VIRTUAL_8086;
    turn_virtual(regs, eip, esp, with_flags_from(image, flags, old.eflags));
    let cs = (cs % 0x1_0000) as u16;
    load_virtual(
        regs,
        Selectors {
            es,
            cs,
            ss,
            ds,
            fs,
            gs,
        },
    );
    Ok(())
}

/// The image leads to V86.
fn gives_virtual(regs: &Regs, size: Size, image: u32) -> bool
    ensures { result ≡ gives_virtual regs.now size image }
{
    match size {
        Size::B4 => regs.cpl == 0 && image / VIRTUAL_8086 % 2 == 1,
        _ => false,
    }
}

/// To code with a descriptor, with the flags that the image gives at the old level.
#[tactic(auto, using(mdl_state::specs::Rules::attempts))]
fn return_with_flags<L: Linear>(
    regs: &mut Regs,
    lin: &mut L,
    old: &Regs,
    size: Size,
    to: Pointer,
    image: u32,
) -> Result<(), Fault>
    requires room { HasRoom (L.seen lin.old) 2 }
    ensures run { (answered result regs.new, L.seen lin.new)
        ≡ tried (by_pick L.pick) 0 (then_plan (return_to_plan regs.old size 0 to.eip to.selector) (λ q. Done (record q { eflags = with_flags_from image (returned_flags old.now size) old.now.eflags }))) (L.seen lin.old) }
    ensures room { length (L.seen lin.new).held ≤ length (L.seen lin.old).held + 2 }
    ensures keeps { Keeps (L.seen lin.old) (L.seen lin.new) }
{
    return_to(regs, lin, size, 0, to)?;
    regs.eflags = with_flags_from(image, returned_flags(old, size), old.eflags);
    Ok(())
}

/// EIP, CS and EFLAGS are popped, and the image decides.
#[tactic(auto, using(mdl_state::specs::Rules::attempts), unfolding(mdl_cpu::specs::Returns::popped_return_plan))]
fn return_popped<L: Linear>(regs: &mut Regs, lin: &mut L, size: Size) -> Result<(), Fault>
    requires room { HasRoom (L.seen lin.old) 2 }
    ensures run { (answered result regs.new, L.seen lin.new)
        ≡ tried (by_pick L.pick) 0 (popped_return_plan regs.old size) (L.seen lin.old) }
    ensures room { length (L.seen lin.new).held ≤ length (L.seen lin.old).held + 2 }
    ensures keeps { Keeps (L.seen lin.old) (L.seen lin.new) }
{
    let old = *regs;
    let eip = pop(regs, lin, size)?;
    let cs = pop(regs, lin, size)?;
    let image = pop(regs, lin, size)?;
    if gives_virtual(&old, size, image) {
        return_to_virtual(regs, lin, &old, eip, cs, image)
    } else {
        let selector = (cs % 0x1_0000) as u16;
        return_with_flags(regs, lin, &old, size, Pointer { selector, eip }, image)
    }
}

/// IRET in protected mode. With NT the link of the TSS says to which task.
#[tactic(auto, using(mdl_state::specs::Rules::attempts), unfolding(mdl_cpu::specs::Returns::protected_interrupt_return_plan))]
fn return_protected<L: Linear>(regs: &mut Regs, lin: &mut L, size: Size) -> Result<Outcome, Fault>
    requires room { HasRoom (L.seen lin.old) 2 }
    ensures run { (transferred result regs.new, L.seen lin.new)
        ≡ tried (by_pick L.pick) 0 (protected_interrupt_return_plan regs.old size) (L.seen lin.old) }
    ensures switched { IfOk result (λ way. IfSwitch way (regs.new ≡ regs.old)) }
    ensures room { length (L.seen lin.new).held ≤ length (L.seen lin.old).held + 2 }
    ensures keeps { Keeps (L.seen lin.old) (L.seen lin.new) }
{
    if regs.eflags / NESTED_TASK % 2 == 1 {
        let link = lin.read(regs.tr.base, Size::B2, Who::Tables)?;
        return Ok(Outcome::Switch(link as u16));
    }
    return_popped(regs, lin, size)?;
    Ok(Outcome::Done)
}

/// IRET in each mode. At a fault the registers may be on the way.
#[tactic(auto, unfolding(mdl_cpu::specs::Returns::interrupt_return_plan))]
fn return_by_mode<L: Linear>(regs: &mut Regs, lin: &mut L, size: Size) -> Result<Outcome, Fault>
    requires room { HasRoom (L.seen lin.old) 2 }
    ensures run { (transferred result regs.new, L.seen lin.new)
        ≡ tried (by_pick L.pick) 0 (interrupt_return_plan regs.old size) (L.seen lin.old) }
    ensures switched { IfOk result (λ way. IfSwitch way (regs.new ≡ regs.old)) }
    ensures real { has_protection regs.old ≡ false → IfOk result (λ way. way ≡ outcome.Done) }
    ensures room { length (L.seen lin.new).held ≤ length (L.seen lin.old).held + 2 }
    ensures keeps { Keeps (L.seen lin.old) (L.seen lin.new) }
{
    if !has_protection(regs) {
        return return_plain(regs, lin, PlainMode::Real, size);
    }
    if is_virtual(regs) {
        return return_in_virtual(regs, lin, size);
    }
    return_protected(regs, lin, size)
}

/// IRET: back from a handler, into V86, or by the link of the TSS to another task.
///
/// Where a switch to another task is to follow, the registers are as they were. Up to two accessed bits
/// are held, also where the IRET is refused.
pub fn interrupt_return<L: Linear>(
    regs: &mut Regs,
    lin: &mut L,
    size: Size,
) -> Result<Outcome, Fault>
    requires room { HasRoom (L.seen lin.old) 2 }
    ensures run { (transferred result regs.new, L.seen lin.new)
        ≡ tried (by_pick L.pick) 0 (interrupt_return_plan regs.old size) (L.seen lin.old) }
    ensures switched { IfOk result (λ way. IfSwitch way (regs.new ≡ regs.old)) }
    ensures real { has_protection regs.old ≡ false → IfOk result (λ way. way ≡ outcome.Done) }
    ensures unchanged { OnErr result (regs.new ≡ regs.old) }
    ensures sound { StaysSound regs.old regs.new }
    ensures room { length (L.seen lin.new).held ≤ length (L.seen lin.old).held + 2 }
    ensures keeps { Keeps (L.seen lin.old) (L.seen lin.new) }
{
    let mut next = *regs;
    let outcome = return_by_mode(&mut next, lin, size)?;
    *regs = next;
    Ok(outcome)
}
