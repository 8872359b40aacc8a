//! Moves and pops of segment registers.

ghost use Rattle.std.specs.Prelude.{◌≡◌, ◌≢◌, ◌<◌, ◌^◌, ℕ, true, false, OnErr};
ghost use Rattle.mdl_state.specs.declared.Size.TheVariants.{B1, B2};
ghost use Rattle.mdl_state.specs.Registers.{seg_of};
ghost use Rattle.mdl_state.specs.Serving.{by_pick};
ghost use Rattle.mdl_state.specs.Accesses.{Keeps, HasRoom};
ghost use Rattle.mdl_state.specs.Attempt.{tried};
ghost use Rattle.mdl_cpu.specs.Addresses.{HasAddress};
ghost use Rattle.mdl_cpu.specs.Loads.{load_plan, answered};
ghost use Rattle.mdl_effect.specs.Moves.{after_load, load_segment_plan, store_segment_plan, pop_segment_plan};
ghost use Rattle.mdl_effect.specs.Operands.{is_segment};
ghost use Rattle.mdl_effect.specs.Kinds.{is_place};
ghost use Rattle.mdl_effect.specs.Forms.{IsOf};
ghost use Rattle.operands.specs.Whole.{whole, after, ran, KeepsOther};

use mdl_insn::{Insn, Operand};
use mdl_state::{Fault, Next, Regs, Seg, Size};
use mem_iface::Linear;
use operands::{is_plain, pop, read_sized, set_reg, value, write};
use seg_unit::segment;

/// A load of a segment register.
pub(crate) fn load_segment<L: Linear>(
    regs: &mut Regs,
    lin: &mut L,
    seg: Seg,
    sel: u16,
) -> Result<(), Fault>
    requires room { HasRoom (L.seen lin.old) 1 }
    ensures run { (flags : ℕ) → (answered result (whole regs.new flags), L.seen lin.new)
        ≡ tried (by_pick L.pick) 0 (load_plan (whole regs.old flags) seg sel) (L.seen lin.old) }
    ensures unchanged { OnErr result (regs.new ≡ regs.old) }
    ensures keeps { Keeps (L.seen lin.old) (L.seen lin.new) }
{
    desc_load::load_segment(regs, lin, seg, sel)
}

/// What follows such a load.
fn after_load(seg: Seg) -> Next
    ensures { result ≡ after_load seg }
{
    match seg {
        Seg::Ss => Next::HoldAll,
        _ => Next::Follow,
    }
}

/// MOV to a segment register.
#[tactic(auto, using(mdl_state::specs::Rules::attempts, operands::proofs::OperandKinds::kinds), unfolding(mdl_effect::specs::Moves::load_segment_plan))]
pub(crate) fn move_to_segment<L: Linear>(
    regs: &mut Regs,
    lin: &mut L,
    insn: &Insn,
    seg: Seg,
) -> Result<Next, Fault>
    requires place { is_place insn.now.b ≡ true }
    requires b { IsOf B2 insn.now.b }
    requires address { HasAddress insn.now.b }
    requires room { HasRoom (L.seen lin.old) 1 }
    ensures run { (flags : ℕ) → (ran result (whole regs.new flags), L.seen lin.new)
        ≡ tried (by_pick L.pick) 0 (load_segment_plan seg insn.now (whole regs.old flags)) (L.seen lin.old) }
    ensures unchanged { OnErr result (regs.new ≡ regs.old) }
    ensures keeps { Keeps (L.seen lin.old) (L.seen lin.new) }
{
    if is_plain(&insn.b) {
        let sel = value(regs, &insn.b, Size::B2) as u16;
        load_segment(regs, lin, seg, sel)?;
        return Ok(after_load(seg));
    }
    let sel = read_sized(regs, lin, &insn.b, Size::B2)? as u16;
    load_segment(regs, lin, seg, sel)?;
    Ok(after_load(seg))
}

/// The selector of a segment register.
#[tactic(auto, unfolding(mdl_state::specs::Registers::seg_of))]
fn selector(regs: &Regs, seg: Seg) -> u32
    ensures value { (flags : ℕ) → result ≡ (seg_of (whole regs.now flags) seg).sel }
    ensures bound { result < 2 ^ 16 }
{
    segment(regs, seg).sel as u32
}

/// MOV from a segment register: a doubleword register is zero extended, and memory gets a word.
#[tactic(auto, using(mdl_state::specs::Rules::attempts, operands::proofs::OperandKinds::kinds), unfolding(mdl_effect::specs::Moves::store_segment_plan))]
pub(crate) fn move_from_segment<L: Linear>(
    regs: &mut Regs,
    lin: &mut L,
    insn: &Insn,
    seg: Seg,
) -> Result<(), Fault>
    requires size { insn.now.size ≢ B1 }
    requires place { is_place insn.now.a ≡ true }
    requires a { IsOf B2 insn.now.a }
    requires address { HasAddress insn.now.a }
    requires room { HasRoom (L.seen lin.old) 4 }
    ensures run { (flags : ℕ) → (after result (whole regs.new flags), L.seen lin.new)
        ≡ tried (by_pick L.pick) 0 (store_segment_plan seg insn.now (whole regs.old flags)) (L.seen lin.old) }
    ensures kept { KeepsOther regs.old regs.new }
    ensures unchanged { OnErr result (regs.new ≡ regs.old) }
    ensures keeps { Keeps (L.seen lin.old) (L.seen lin.new) }
{
    let sel = selector(regs, seg);
    match &insn.a {
        Operand::Gpr(n, _) => {
            set_reg(regs, *n, insn.size, sel);
            Ok(())
        }
        _ => {
            write(regs, lin, &insn.a, Size::B2, sel)?;
            Ok(())
        }
    }
}

/// POP of a segment register, of which the operand size is read.
#[tactic(auto, using(mdl_state::specs::Rules::attempts), unfolding(mdl_effect::specs::Moves::pop_segment_plan))]
pub(crate) fn pop_segment<L: Linear>(
    regs: &mut Regs,
    lin: &mut L,
    insn: &Insn,
) -> Result<Next, Fault>
    requires segment { is_segment insn.now.a ≡ true }
    requires room { HasRoom (L.seen lin.old) 1 }
    ensures run { (flags : ℕ) → (ran result (whole regs.new flags), L.seen lin.new)
        ≡ tried (by_pick L.pick) 0 (pop_segment_plan insn.now (whole regs.old flags)) (L.seen lin.old) }
    ensures unchanged { OnErr result (regs.new ≡ regs.old) }
    ensures keeps { Keeps (L.seen lin.old) (L.seen lin.new) }
{
    let Operand::Sreg(seg) = insn.a else {
        unreachable!();
    };
    let mut popped = *regs;
    let value = pop(&mut popped, lin, insn.size)?;
    load_segment(&mut popped, lin, seg, (value % 0x1_0000) as u16)?;
    *regs = popped;
    Ok(after_load(seg))
}
