//! The image of a task in its TSS.

ghost use Rattle.std.specs.Prelude.{◌≡◌, ◌≤◌, ◌<◌, ◌+◌, ◌*◌, ◌%◌, ◌^◌, length};
ghost use Rattle.mdl_state.specs.Bytes.{bytes_of, bound_of};
ghost use Rattle.mdl_state.specs.Serving.{by_pick, outcome};
ghost use Rattle.mdl_state.specs.Accesses.{Keeps, HasRoom};
ghost use Rattle.mdl_state.specs.Attempt.{tried};
ghost use Rattle.mdl_cpu.specs.Tasks.{reads_plan, writes_plan, read_image_plan, save_image_plan, image_of};

use mdl_state::{Fault, Regs, Seg, Size, Who};
use mem_iface::Linear;
use seg_unit::segment;

/// Numbers of an image that stand in a row: the offset of the first in the TSS, their size, how many bytes
/// each stands above the last, how many they are, and the place of the first in the image.
#[derive(Clone, Copy)]
struct Row {
    offset: u32,
    size: Size,
    step: u32,
    count: usize,
    place: usize,
}

/// CR3 to EDI of the 80386.
const DOUBLEWORDS: Row = Row {
    offset: 0x1C,
    size: Size::B4,
    step: 4,
    count: 11,
    place: 0,
};

/// ES to GS, LDTR and the word with T.
const WORDS: Row = Row {
    offset: 0x48,
    size: Size::B2,
    step: 4,
    count: 8,
    place: 11,
};

/// Of the 80386 EIP to EDI are saved,
const SAVED_DOUBLEWORDS: Row = Row {
    offset: 0x20,
    size: Size::B4,
    step: 4,
    count: 10,
    place: 1,
};

/// and ES to GS.
const SAVED_WORDS: Row = Row {
    offset: 0x48,
    size: Size::B2,
    step: 4,
    count: 6,
    place: 11,
};

/// IP to DS of the 80286, all of which is saved too.
const NARROW_WORDS: Row = Row {
    offset: 0x0E,
    size: Size::B2,
    step: 2,
    count: 14,
    place: 1,
};

/// LDTR of the 80286.
const NARROW_LDT: Row = Row {
    offset: 0x2A,
    size: Size::B2,
    step: 2,
    count: 1,
    place: 17,
};

/// A row read into an image.
#[tactic(auto, using(crate::proofs::Rows::rows))]
fn read_row<L: Linear>(
    lin: &mut L,
    base: u32,
    row: Row,
    before: [u32; 19],
) -> Result<[u32; 19], Fault>
    requires { row.place + row.count ≤ 19 }
    ensures run { (outcome result, L.seen lin.new)
        ≡ tried (by_pick L.pick) 0 (reads_plan row.count ((base + row.offset) % 2 ^ 32) row.size row.step row.place before) (L.seen lin.old) }
    ensures held { (L.seen lin.new).held ≡ (L.seen lin.old).held }
    ensures keeps { Keeps (L.seen lin.old) (L.seen lin.new) }
{
    let mut image = before;
    let mut at = base.wrapping_add(row.offset);
    let mut place = row.place;
    let mut left = row.count;
    while 0 < left {
        image[place] = lin.read(at, row.size, Who::Tables)?;
        at = at.wrapping_add(row.step);
        place += 1;
        left -= 1;
    }
    Ok(image)
}

/// A number cut to a size.
fn cut(value: u32, size: Size) -> u32
    ensures value { result ≡ value % bound_of size }
    ensures bound { result < bound_of size }
{
    match size {
        Size::B1 => value % 0x100,
        Size::B2 => value % 0x1_0000,
        Size::B4 => value,
    }
}

/// A row of an image written.
#[tactic(auto, using(crate::proofs::Rows::rows))]
fn write_row<L: Linear>(lin: &mut L, base: u32, row: Row, image: &[u32; 19]) -> Result<(), Fault>
    requires within { row.place + row.count ≤ 19 }
    requires room { HasRoom (L.seen lin.old) (row.count * bytes_of row.size) }
    ensures run { (outcome result, L.seen lin.new)
        ≡ tried (by_pick L.pick) 0 (writes_plan row.count ((base + row.offset) % 2 ^ 32) row.size row.step row.place image.now) (L.seen lin.old) }
    ensures room { length (L.seen lin.new).held ≤ length (L.seen lin.old).held + row.count * bytes_of row.size }
    ensures keeps { Keeps (L.seen lin.old) (L.seen lin.new) }
{
    let mut at = base.wrapping_add(row.offset);
    let mut place = row.place;
    let mut left = row.count;
    while 0 < left {
        lin.write(at, row.size, cut(image[place], row.size), Who::Tables)?;
        at = at.wrapping_add(row.step);
        place += 1;
        left -= 1;
    }
    Ok(())
}

/// The image in a TSS, of the 80386 or of the 80286. What that has not is 0.
#[tactic(auto, using(mdl_state::specs::Rules::attempts), unfolding(mdl_cpu::specs::Tasks::read_image_plan))]
pub(crate) fn read_image<L: Linear>(lin: &mut L, wide: bool, base: u32) -> Result<[u32; 19], Fault>
    ensures run { (outcome result, L.seen lin.new)
        ≡ tried (by_pick L.pick) 0 (read_image_plan wide base) (L.seen lin.old) }
    ensures held { (L.seen lin.new).held ≡ (L.seen lin.old).held }
    ensures keeps { Keeps (L.seen lin.old) (L.seen lin.new) }
{
    let none = [0; 19];
    if wide {
        let image = read_row(lin, base, DOUBLEWORDS, none)?;
        read_row(lin, base, WORDS, image)
    } else {
        let image = read_row(lin, base, NARROW_WORDS, none)?;
        read_row(lin, base, NARROW_LDT, image)
    }
}

/// What a switch saves of an image, in a TSS of the 80386 or of the 80286.
#[tactic(auto, using(mdl_state::specs::Rules::attempts), unfolding(mdl_cpu::specs::Tasks::save_image_plan))]
pub(crate) fn save_image<L: Linear>(
    lin: &mut L,
    wide: bool,
    base: u32,
    image: &[u32; 19],
) -> Result<(), Fault>
    requires room { HasRoom (L.seen lin.old) 52 }
    ensures run { (outcome result, L.seen lin.new)
        ≡ tried (by_pick L.pick) 0 (save_image_plan wide base image.now) (L.seen lin.old) }
    ensures room { length (L.seen lin.new).held ≤ length (L.seen lin.old).held + 52 }
    ensures keeps { Keeps (L.seen lin.old) (L.seen lin.new) }
{
    if wide {
        write_row(lin, base, SAVED_DOUBLEWORDS, image)?;
        write_row(lin, base, SAVED_WORDS, image)
    } else {
        write_row(lin, base, NARROW_WORDS, image)
    }
}

/// The image of the registers, with this EIP and these flags.
#[tactic(auto, unfolding(mdl_cpu::specs::Tasks::image_of))]
pub(crate) fn image_of(regs: &Regs, eip: u32, flags: u32) -> [u32; 19]
    ensures { result ≡ image_of regs.now eip flags }
{
    let [eax, ecx, edx, ebx, esp, ebp, esi, edi] = regs.gpr;
    let es = segment(regs, Seg::Es).sel as u32;
    let cs = segment(regs, Seg::Cs).sel as u32;
    let ss = segment(regs, Seg::Ss).sel as u32;
    let ds = segment(regs, Seg::Ds).sel as u32;
    let fs = segment(regs, Seg::Fs).sel as u32;
    let gs = segment(regs, Seg::Gs).sel as u32;
    [
        0, eip, flags, eax, ecx, edx, ebx, esp, ebp, esi, edi, es, cs, ss, ds, fs, gs, 0, 0,
    ]
}
