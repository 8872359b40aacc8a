//! Instructions with an operand that is no register and no number.

ghost use Rattle.std.specs.Prelude.{◌≡◌, ◌&&◌, ℕ, true, false, OnErr};
ghost use Rattle.mdl_state.specs.Serving.{by_pick};
ghost use Rattle.mdl_state.specs.Accesses.{Keeps, HasRoom};
ghost use Rattle.mdl_state.specs.Attempt.{tried};
ghost use Rattle.mdl_cpu.specs.Addresses.{HasAddress, HasAddresses};
ghost use Rattle.mdl_effect.specs.Operands.{is_plain, is_nothing, is_segment};
ghost use Rattle.mdl_effect.specs.Moves.{mov_plan};
ghost use Rattle.mdl_effect.specs.Kinds.{is_memory};
ghost use Rattle.mdl_effect.specs.DataEffects.{is_data, is_special, runs_data, is_plain_data, data_effect};
ghost use Rattle.mdl_effect.specs.Forms.{IsFormed, IsMove};
ghost use Rattle.operands.specs.Whole.{whole, after, ran};
ghost use Rattle.exec_data.specs.Places.{placed, is_placed};
ghost use Rattle.exec_data.specs.Reads.{is_move};

use crate::addresses::{load_address, translate_byte};
use crate::arithmetic::{change_memory, combine_memory};
use crate::bit_strings::{bit_change_memory, bit_test_memory};
use crate::bounds::check_bounds;
use crate::conditions::set_place;
use crate::far_pointers::load_pointer;
use crate::moves::{copy, exchange_memory, move_value};
use crate::plain::{is_data, is_move};
use crate::reads::{run_first, run_second};
use crate::segments::{move_from_segment, move_to_segment, pop_segment};
use crate::shifts::{double_shift_memory, shift_memory};
use lazy_flags::Flags;
use mdl_insn::{Insn, Op, Operand};
use mdl_num::BitOp;
use mdl_state::{Fault, Next, Regs, Seg};
use mem_iface::Linear;
use operands::is_plain;

/// The instruction by its mnemonic, where its first operand is memory.
#[rattlefmt::skip]
#[tactic(auto, unfolding(mdl_effect::specs::DataEffects::data_effect))]
fn run_changed<L: Linear>(regs: &mut Regs, flags: &mut Flags, lin: &mut L, insn: &Insn) -> Result<(), Fault>
    requires data { is_data insn.now.op ≡ true }
    requires other { is_move insn.now.op ≡ false }
    requires formed { IsFormed insn.now }
    requires a { is_plain insn.now.a ≡ false }
    requires memory { is_memory insn.now.a ≡ true }
    requires b { is_plain insn.now.b ≡ true }
    requires c { is_plain insn.now.c ≡ true }
    requires placed { placed insn.now.op false true (is_nothing insn.now.b) ≡ true }
    requires address { HasAddress insn.now.a }
    requires room { HasRoom (L.seen lin.old) 4 }
    ensures run { (after result (whole regs.new flags.new), L.seen lin.new)
        ≡ tried (by_pick L.pick) 0 (data_effect insn.now (whole regs.old flags.old) (whole regs.new flags.new).eflags) (L.seen lin.old) }
    ensures unchanged { OnErr result ((regs.new ≡ regs.old) × (flags.new ≡ flags.old)) }
    ensures keeps { Keeps (L.seen lin.old) (L.seen lin.new) }
{
    match insn.op {
        Op::Xchg => exchange_memory(regs, lin, insn),
        Op::Add | Op::Or | Op::Adc | Op::Sbb | Op::And | Op::Sub | Op::Xor => combine_memory(regs, flags, lin, insn),
        Op::Inc | Op::Dec | Op::Neg | Op::Not => change_memory(regs, flags, lin, insn),
        Op::Cmp | Op::Test | Op::Mul | Op::Imul | Op::Div | Op::Idiv => run_first(regs, flags, lin, insn),
        Op::Rol | Op::Ror | Op::Rcl | Op::Rcr | Op::Shl | Op::Shr | Op::Sar => shift_memory(regs, flags, lin, insn),
        Op::Shld => double_shift_memory(regs, flags, lin, insn, true),
        Op::Shrd => double_shift_memory(regs, flags, lin, insn, false),
        Op::Bt => bit_test_memory(regs, flags, lin, insn),
        Op::Bts => bit_change_memory(regs, flags, lin, insn, BitOp::Bts),
        Op::Btr => bit_change_memory(regs, flags, lin, insn, BitOp::Btr),
        Op::Btc => bit_change_memory(regs, flags, lin, insn, BitOp::Btc),
        Op::Setcc(number) => set_place(regs, flags, lin, insn, number),
        _ => unreachable!(),
    }
}

/// The instruction by which of its operands is memory.
#[tactic(auto, using(crate::proofs::PlaceLaws::places, crate::proofs::Memories::memories))]
fn run_data<L: Linear>(
    regs: &mut Regs,
    flags: &mut Flags,
    lin: &mut L,
    insn: &Insn,
) -> Result<(), Fault>
    requires data { is_data insn.now.op ≡ true }
    requires other { is_move insn.now.op ≡ false }
    requires formed { IsFormed insn.now }
    requires memory { is_plain_data insn.now ≡ false }
    requires placed { is_placed insn.now ≡ true }
    requires addresses { HasAddresses insn.now }
    requires room { HasRoom (L.seen lin.old) 4 }
    ensures run { (after result (whole regs.new flags.new), L.seen lin.new)
        ≡ tried (by_pick L.pick) 0 (data_effect insn.now (whole regs.old flags.old) (whole regs.new flags.new).eflags) (L.seen lin.old) }
    ensures unchanged { OnErr result ((regs.new ≡ regs.old) × (flags.new ≡ flags.old)) }
    ensures keeps { Keeps (L.seen lin.old) (L.seen lin.new) }
{
    if is_plain(&insn.b) {
        run_changed(regs, flags, lin, insn)
    } else {
        run_second(regs, flags, lin, insn)
    }
}

/// MOV of which the first operand is no segment register.
#[inline(always)]
#[tactic(auto, using(crate::proofs::MoveLaws::operands_of_moves))]
fn move_out<L: Linear>(regs: &mut Regs, lin: &mut L, insn: &Insn) -> Result<Next, Fault>
    requires form { IsMove insn.now.a insn.now.b insn.now.size }
    requires a { is_segment insn.now.a ≡ false }
    requires special_a { is_special insn.now.a ≡ false }
    requires special_b { is_special insn.now.b ≡ false }
    requires address_a { HasAddress insn.now.a }
    requires address_b { HasAddress insn.now.b }
    requires room { HasRoom (L.seen lin.old) 4 }
    ensures run { (flags : ℕ) → (ran result (whole regs.new flags), L.seen lin.new)
        ≡ tried (by_pick L.pick) 0 (mov_plan insn.now (whole regs.old flags)) (L.seen lin.old) }
    ensures unchanged { OnErr result (regs.new ≡ regs.old) }
    ensures keeps { Keeps (L.seen lin.old) (L.seen lin.new) }
{
    match insn.b {
        Operand::Sreg(seg) => move_from_segment(regs, lin, insn, seg)?,
        _ => move_value(regs, lin, insn)?,
    }
    Ok(Next::Follow)
}

/// MOV.
#[inline(always)]
pub(crate) fn run_move<L: Linear>(regs: &mut Regs, lin: &mut L, insn: &Insn) -> Result<Next, Fault>
    requires form { IsMove insn.now.a insn.now.b insn.now.size }
    requires special_a { is_special insn.now.a ≡ false }
    requires special_b { is_special insn.now.b ≡ false }
    requires address_a { HasAddress insn.now.a }
    requires address_b { HasAddress insn.now.b }
    requires room { HasRoom (L.seen lin.old) 4 }
    ensures run { (flags : ℕ) → (ran result (whole regs.new flags), L.seen lin.new)
        ≡ tried (by_pick L.pick) 0 (mov_plan insn.now (whole regs.old flags)) (L.seen lin.old) }
    ensures unchanged { OnErr result (regs.new ≡ regs.old) }
    ensures keeps { Keeps (L.seen lin.old) (L.seen lin.new) }
{
    if let Operand::Gpr(_, _) = insn.a {
        match insn.b {
            Operand::Imm(_, _) => {
                copy(regs, insn);
                return Ok(Next::Follow);
            }
            Operand::Gpr(_, _) => {
                copy(regs, insn);
                return Ok(Next::Follow);
            }
            _ => {}
        }
    }
    match insn.a {
        Operand::Sreg(seg) => move_to_segment(regs, lin, insn, seg),
        _ => move_out(regs, lin, insn),
    }
}

/// The instruction by its mnemonic, where that takes memory or a segment register alone.
#[tactic(auto, using(crate::proofs::Memories::segment_popped), unfolding(mdl_effect::specs::DataEffects::data_effect))]
fn run_address<L: Linear>(regs: &mut Regs, lin: &mut L, insn: &Insn) -> Result<Next, Fault>
    requires data { is_data insn.now.op ≡ false }
    requires runs { runs_data insn.now ≡ true }
    requires formed { IsFormed insn.now }
    requires addresses { HasAddresses insn.now }
    requires room { HasRoom (L.seen lin.old) 4 }
    ensures run { (flags : ℕ) → (free : ℕ) → (ran result (whole regs.new flags), L.seen lin.new)
        ≡ tried (by_pick L.pick) 0 (data_effect insn.now (whole regs.old flags) free) (L.seen lin.old) }
    ensures unchanged { OnErr result (regs.new ≡ regs.old) }
    ensures keeps { Keeps (L.seen lin.old) (L.seen lin.new) }
{
    match insn.op {
        Op::Pop => return pop_segment(regs, lin, insn),
        Op::Lea => load_address(regs, lin, insn)?,
        Op::Xlat => translate_byte(regs, lin, insn)?,
        Op::Les => load_pointer(regs, lin, insn, Seg::Es)?,
        Op::Lds => load_pointer(regs, lin, insn, Seg::Ds)?,
        Op::Lss => load_pointer(regs, lin, insn, Seg::Ss)?,
        Op::Lfs => load_pointer(regs, lin, insn, Seg::Fs)?,
        Op::Lgs => load_pointer(regs, lin, insn, Seg::Gs)?,
        Op::Bound => check_bounds(regs, lin, insn)?,
        _ => unreachable!(),
    }
    Ok(Next::Follow)
}

/// The instruction where its operands have the form of its mnemonic, and not all of them are
/// registers and numbers.
#[tactic(auto, using(crate::proofs::MoveLaws::moves))]
pub(crate) fn run_memory<L: Linear>(
    regs: &mut Regs,
    flags: &mut Flags,
    lin: &mut L,
    insn: &Insn,
) -> Result<Next, Fault>
    requires runs { runs_data insn.now ≡ true }
    requires memory { is_plain_data insn.now ≡ false }
    requires formed { IsFormed insn.now }
    requires placed { is_data insn.now.op ≡ true → is_placed insn.now ≡ true }
    requires addresses { HasAddresses insn.now }
    requires room { HasRoom (L.seen lin.old) 4 }
    ensures run { (ran result (whole regs.new flags.new), L.seen lin.new)
        ≡ tried (by_pick L.pick) 0 (data_effect insn.now (whole regs.old flags.old) (whole regs.new flags.new).eflags) (L.seen lin.old) }
    ensures unchanged { OnErr result ((regs.new ≡ regs.old) × (flags.new ≡ flags.old)) }
    ensures keeps { Keeps (L.seen lin.old) (L.seen lin.new) }
{
    if is_move(insn.op) {
        return run_move(regs, lin, insn);
    }
    if is_data(insn.op) {
        run_data(regs, flags, lin, insn)?;
        return Ok(Next::Follow);
    }
    run_address(regs, lin, insn)
}
