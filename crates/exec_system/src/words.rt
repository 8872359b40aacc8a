//! Words that instructions of the system read and store.

ghost use Rattle.std.specs.Prelude.{◌≡◌, ◌≢◌, ◌<◌, ◌^◌, ℕ, true, IfOk, OnErr};
ghost use Rattle.mdl_state.specs.declared.Size.TheVariants.{B1, B2};
ghost use Rattle.mdl_state.specs.Serving.{by_pick, outcome, on};
ghost use Rattle.mdl_state.specs.Accesses.{Keeps, HasRoom};
ghost use Rattle.mdl_state.specs.Attempt.{Plan, tried};
ghost use Rattle.mdl_cpu.specs.Addresses.{HasAddress};
ghost use Rattle.mdl_effect.specs.Operands.{After, reading, memory_write};
ghost use Rattle.mdl_effect.specs.Moves.{with_sized, storing_word};
ghost use Rattle.mdl_effect.specs.Kinds.{is_place, is_memory};
ghost use Rattle.mdl_effect.specs.Forms.{IsOf};
ghost use Rattle.operands.specs.Whole.{ran};

use crate::registers::{set_reg, value};
use mdl_insn::{Insn, Operand};
use mdl_state::{Fault, Next, Regs, Size};
use mem_iface::Linear;
use operands::is_plain;
use seg_unit::{address, load, store};

/// A word of a register or of memory.
#[tactic(auto, using(mdl_state::specs::Rules::attempts), unfolding(mdl_effect::specs::Operands::memory_read))]
pub(crate) fn read_word<L: Linear>(
    regs: &Regs,
    lin: &mut L,
    operand: &Operand,
) -> Result<u32, Fault>
    requires place { is_place operand.now ≡ true }
    requires form { IsOf B2 operand.now }
    requires address { HasAddress operand.now }
    ensures run { (k : ℕ → Plan After) → tried (by_pick L.pick) 0 (reading regs.now operand.now k) (L.seen lin.old)
        ≡ on (outcome result, L.seen lin.new) (λ value m. tried (by_pick L.pick) 0 (k value) m) }
    ensures bound { IfOk result (λ value. value < 2 ^ 16) }
    ensures keeps { Keeps (L.seen lin.old) (L.seen lin.new) }
    ensures held { (L.seen lin.new).held ≡ (L.seen lin.old).held }
{
    match operand {
        Operand::At(mem, _) => load(regs, lin, mem.seg, address(regs, mem), Size::B2),
        Operand::Gpr(_, _) => Ok(value(regs, operand, Size::B2)),
        _ => unreachable!(),
    }
}

/// A register set in the size of the instruction.
fn set_sized(regs: &mut Regs, operand: &Operand, size: Size, word: u32)
    requires size { size ≢ B1 }
    requires form { IsOf B2 operand.now }
    requires word { word < 2 ^ 16 }
    ensures { regs.new ≡ with_sized regs.old operand.now size word }
{
    if let Operand::Gpr(n, _) = operand {
        set_reg(regs, *n, size, word);
    }
}

/// A word put into memory.
#[tactic(auto, unfolding(mdl_effect::specs::Operands::memory_write))]
fn write_word<L: Linear>(
    regs: &Regs,
    lin: &mut L,
    operand: &Operand,
    word: u32,
) -> Result<(), Fault>
    requires memory { is_memory operand.now ≡ true }
    requires form { IsOf B2 operand.now }
    requires address { HasAddress operand.now }
    requires word { word < 2 ^ 16 }
    requires room { HasRoom (L.seen lin.old) 6 }
    ensures run { (outcome result, L.seen lin.new)
        ≡ tried (by_pick L.pick) 0 (memory_write regs.now operand.now word) (L.seen lin.old) }
    ensures keeps { Keeps (L.seen lin.old) (L.seen lin.new) }
{
    match operand {
        Operand::At(mem, _) => store(regs, lin, mem.seg, address(regs, mem), Size::B2, word),
        _ => unreachable!(),
    }
}

/// A word stored: into memory, or into a register in the size of the instruction.
#[tactic(auto, using(mdl_state::specs::Rules::attempts, operands::proofs::OperandKinds::kinds))]
pub(crate) fn store_word<L: Linear>(
    regs: &mut Regs,
    lin: &mut L,
    insn: &Insn,
    word: u32,
) -> Result<Next, Fault>
    requires size { insn.now.size ≢ B1 }
    requires place { is_place insn.now.a ≡ true }
    requires form { IsOf B2 insn.now.a }
    requires address { HasAddress insn.now.a }
    requires word { word < 2 ^ 16 }
    requires room { HasRoom (L.seen lin.old) 6 }
    ensures run { (ran result regs.new, L.seen lin.new)
        ≡ tried (by_pick L.pick) 0 (storing_word insn.now regs.old word) (L.seen lin.old) }
    ensures unchanged { OnErr result (regs.new ≡ regs.old) }
    ensures keeps { Keeps (L.seen lin.old) (L.seen lin.new) }
{
    if is_plain(&insn.a) {
        set_sized(regs, &insn.a, insn.size, word);
        return Ok(Next::Follow);
    }
    write_word(regs, lin, &insn.a, word)?;
    Ok(Next::Follow)
}
