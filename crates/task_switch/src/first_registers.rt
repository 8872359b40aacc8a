//! The registers with which a task begins.

ghost use Rattle.std.specs.Prelude.{◌≡◌, ◌<◌, ◌%◌, ◌^◌, if◌then◌else◌, slice_index};
ghost use Rattle.mdl_state.specs.declared.Seg.TheVariants.{Cs};
ghost use Rattle.mdl_state.specs.Bytes.{bit};
ghost use Rattle.mdl_cpu.specs.Descriptors.{rpl};
ghost use Rattle.mdl_cpu.specs.TaskSegments.{is_wide_tss};
ghost use Rattle.mdl_cpu.specs.Tasks.{image_cr3, image_selector, image_ldt, image_trap};
ghost use Rattle.mdl_cpu.specs.NewTask.{new_flags, is_virtual_image, without_locals, unloaded, begun};

use crate::busy_bits::is_linked;
use crate::kinds::is_wide_tss;
use desc_load::{hidden_of, null_segment, rpl};
use mdl_cpu::{Reason, Request, Task};
use mdl_num::with_bit;
use mdl_state::{Hidden, Regs, Seg};

/// The places of the numbers of an image.
const CR3: usize = 0;

const EIP: usize = 1;

const EFLAGS: usize = 2;

const LDTR: usize = 17;

const TRAP: usize = 18;

/// CF, PF, AF, ZF, SF, TF, IF, DF, OF, IOPL, NT, RF and VM.
const EVERY_FLAG: u32 = 0x3_7FD5;

/// What EFLAGS has beside the flags: bit 1.
const ALWAYS: u32 = 0x2;

/// The place of NT.
const NT: u8 = 14;

/// VM.
const VIRTUAL_8086: u32 = 0x2_0000;

/// The place of TS in CR0.
const TASK_SWITCHED: u8 = 3;

/// The level of V86.
const VIRTUAL_LEVEL: u8 = 3;

/// The low word of a number of an image.
fn word(image: &[u32; 19], place: usize) -> u16
    requires { place < 19 }
    ensures { result ≡ slice_index image.now place % 2 ^ 16 }
{
    (image[place] % 0x1_0000) as u16
}

/// The selector of a segment register.
pub(crate) fn selector(image: &[u32; 19], seg: Seg) -> u16
    ensures { result ≡ image_selector image.now seg }
{
    match seg {
        Seg::Es => word(image, 11),
        Seg::Cs => word(image, 12),
        Seg::Ss => word(image, 13),
        Seg::Ds => word(image, 14),
        Seg::Fs => word(image, 15),
        Seg::Gs => word(image, 16),
    }
}

/// The selector of LDTR.
pub(crate) fn ldt_selector(image: &[u32; 19]) -> u16
    ensures { result ≡ image_ldt image.now }
{
    word(image, LDTR)
}

/// The flags of the new task.
fn new_flags(reason: Reason, image: u32) -> u32
    ensures { result ≡ new_flags reason image }
{
    let flags = image & EVERY_FLAG | ALWAYS & !EVERY_FLAG;
    if is_linked(reason) {
        with_bit(flags, NT, true)
    } else {
        flags
    }
}

/// The image is one of V86.
pub(crate) fn is_virtual_image(image: &[u32; 19]) -> bool
    ensures { result ≡ is_virtual_image image.now }
{
    image[EFLAGS] / VIRTUAL_8086 % 2 == 1
}

/// T of the new task.
pub(crate) fn has_trap(image: &[u32; 19]) -> bool
    ensures { result ≡ bit (image_trap image.now) 0 }
{
    image[TRAP] % 2 == 1
}

/// DR7 without L0 to L3 and LE.
fn without_locals(dr7: u32) -> u32
    ensures { result ≡ without_locals dr7 }
{
    let dr7 = with_bit(dr7, 0, false);
    let dr7 = with_bit(dr7, 2, false);
    let dr7 = with_bit(dr7, 4, false);
    let dr7 = with_bit(dr7, 6, false);
    with_bit(dr7, 8, false)
}

/// A segment register with its selector alone.
fn unloaded(image: &[u32; 19], seg: Seg) -> Hidden
    ensures { result ≡ unloaded image.now seg }
{
    null_segment(selector(image, seg))
}

/// The level at which the new task runs.
fn level(image: &[u32; 19]) -> u8
    ensures { result ≡ (if is_virtual_image image.now then 3 else rpl (image_selector image.now Cs)) }
{
    if is_virtual_image(image) {
        VIRTUAL_LEVEL
    } else {
        rpl(selector(image, Seg::Cs))
    }
}

/// The page directory of the new task.
fn directory(old: u32, task: &Task) -> u32
    ensures { result ≡ (if is_wide_tss task.now.desc then image_cr3 task.now.image else old) }
{
    if is_wide_tss(&task.desc) {
        task.image[CR3]
    } else {
        old
    }
}

/// The registers become those of the new task, with no segment loaded.
#[tactic(auto, unfolding(mdl_cpu::specs::NewTask::begun))]
pub(crate) fn begin(regs: &mut Regs, request: Request, task: &Task)
    ensures { regs.new ≡ begun regs.old request task.now }
{
    let image = &task.image;
    regs.tr = hidden_of(request.selector, &task.desc);
    regs.eflags = new_flags(request.reason, image[EFLAGS]);
    regs.eip = image[EIP];
    regs.gpr = [
        image[3], image[4], image[5], image[6], image[7], image[8], image[9], image[10],
    ];
    regs.seg = [
        unloaded(image, Seg::Es),
        unloaded(image, Seg::Cs),
        unloaded(image, Seg::Ss),
        unloaded(image, Seg::Ds),
        unloaded(image, Seg::Fs),
        unloaded(image, Seg::Gs),
    ];
    regs.ldtr = null_segment(ldt_selector(image));
    regs.cr3 = directory(regs.cr3, task);
    regs.cr0 = with_bit(regs.cr0, TASK_SWITCHED, true);
    regs.dr7 = without_locals(regs.dr7);
    regs.cpl = level(image);
}
