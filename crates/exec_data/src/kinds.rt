//! Kinds of data instructions: each is the mnemonics that run alike, and holds what runs these alone.

ghost use Rattle.std.specs.Prelude.{◌≡◌, Bool, true, OnErr};
ghost use Rattle.mdl_insn.specs.declared.mnemonics.Op.{Op as AnyOp};
ghost use Rattle.mdl_state.specs.Serving.{by_pick};
ghost use Rattle.mdl_state.specs.Accesses.{Keeps, HasRoom};
ghost use Rattle.mdl_state.specs.Attempt.{tried};
ghost use Rattle.mdl_effect.specs.DataEffects.{is_data, runs_data, data_effect};
ghost use Rattle.mdl_effect.specs.Forms.{IsFormed};
ghost use Rattle.mdl_cpu.specs.Addresses.{HasAddresses};
ghost use Rattle.operands.specs.Whole.{whole, ran};
ghost use Rattle.exec_data.specs.Kinds.{is_sum, is_comparison, is_change, is_shift, is_condition};
ghost use Rattle.exec_data.specs.Places.{is_placed};
ghost use Rattle.exec_data.specs.Reads.{is_move};

use crate::arithmetic::{change_place, combine_place, compare_values};
use crate::conditions::set_place;
use crate::memory_run::run_move;
use crate::shifts::shift_place;
use lazy_flags::Flags;
use mdl_insn::{Insn, Op};
use mdl_state::{Fault, Next, Regs};
use mem_iface::Linear;

/// Mnemonics of data instructions that run alike.
pub trait DataKind {
    /// Which they are.
    ghost takes: { AnyOp → Bool };

    /// One of these instructions, whose operands have the form of its mnemonic.
    fn execute<L: Linear>(
        regs: &mut Regs,
        flags: &mut Flags,
        lin: &mut L,
        insn: &Insn,
    ) -> Result<Next, Fault>
        requires kind { takes insn.now.op ≡ true }
        requires runs { runs_data insn.now ≡ true }
        requires formed { IsFormed insn.now }
        requires placed { is_data insn.now.op ≡ true → is_placed insn.now ≡ true }
        requires addresses { HasAddresses insn.now }
        requires room { HasRoom (L.seen lin.old) 4 }
        ensures run { (ran result (whole regs.new flags.new), L.seen lin.new)
            ≡ tried (by_pick L.pick) 0 (data_effect insn.now (whole regs.old flags.old) (whole regs.new flags.new).eflags) (L.seen lin.old) }
        ensures unchanged { OnErr result ((regs.new ≡ regs.old) × (flags.new ≡ flags.old)) }
        ensures keeps { Keeps (L.seen lin.old) (L.seen lin.new) };
}

/// MOV.
pub struct Moves;

impl DataKind for Moves {
    ghost takes = { λ op. is_move op };

    #[tactic(auto, using(crate::proofs::MoveLaws::moves), unfolding(mdl_effect::specs::DataEffects::data_effect))]
    #[inline(always)]
    fn execute<L: Linear>(
        regs: &mut Regs,
        _flags: &mut Flags,
        lin: &mut L,
        insn: &Insn,
    ) -> Result<Next, Fault> {
        match insn.op {
            Op::Mov => run_move(regs, lin, insn),
            _ => unreachable!(),
        }
    }
}

/// ADD, OR, ADC, SBB, AND, SUB and XOR.
pub struct Sums;

impl DataKind for Sums {
    ghost takes = { λ op. is_sum op };

    #[tactic(auto, unfolding(mdl_effect::specs::DataEffects::data_effect))]
    #[inline(always)]
    fn execute<L: Linear>(
        regs: &mut Regs,
        flags: &mut Flags,
        lin: &mut L,
        insn: &Insn,
    ) -> Result<Next, Fault> {
        match insn.op {
            Op::Add | Op::Or | Op::Adc | Op::Sbb | Op::And | Op::Sub | Op::Xor => {
                combine_place(regs, flags, lin, insn)?;
                Ok(Next::Follow)
            }
            _ => unreachable!(),
        }
    }
}

/// CMP and TEST.
pub struct Comparisons;

impl DataKind for Comparisons {
    ghost takes = { λ op. is_comparison op };

    #[tactic(auto, unfolding(mdl_effect::specs::DataEffects::data_effect))]
    #[inline(always)]
    fn execute<L: Linear>(
        regs: &mut Regs,
        flags: &mut Flags,
        lin: &mut L,
        insn: &Insn,
    ) -> Result<Next, Fault> {
        match insn.op {
            Op::Cmp | Op::Test => {
                compare_values(regs, flags, lin, insn)?;
                Ok(Next::Follow)
            }
            _ => unreachable!(),
        }
    }
}

/// INC, DEC, NEG and NOT.
pub struct Changes;

impl DataKind for Changes {
    ghost takes = { λ op. is_change op };

    #[tactic(auto, unfolding(mdl_effect::specs::DataEffects::data_effect))]
    #[inline(always)]
    fn execute<L: Linear>(
        regs: &mut Regs,
        flags: &mut Flags,
        lin: &mut L,
        insn: &Insn,
    ) -> Result<Next, Fault> {
        match insn.op {
            Op::Inc | Op::Dec | Op::Neg | Op::Not => {
                change_place(regs, flags, lin, insn)?;
                Ok(Next::Follow)
            }
            _ => unreachable!(),
        }
    }
}

/// Shifts and rotates of one operand.
pub struct Shifts;

impl DataKind for Shifts {
    ghost takes = { λ op. is_shift op };

    #[tactic(auto, unfolding(mdl_effect::specs::DataEffects::data_effect))]
    #[inline(always)]
    fn execute<L: Linear>(
        regs: &mut Regs,
        flags: &mut Flags,
        lin: &mut L,
        insn: &Insn,
    ) -> Result<Next, Fault> {
        match insn.op {
            Op::Rol | Op::Ror | Op::Rcl | Op::Rcr | Op::Shl | Op::Shr | Op::Sar => {
                shift_place(regs, flags, lin, insn)?;
                Ok(Next::Follow)
            }
            _ => unreachable!(),
        }
    }
}

/// SETcc.
pub struct Conditions;

impl DataKind for Conditions {
    ghost takes = { λ op. is_condition op };

    #[tactic(auto, unfolding(mdl_effect::specs::DataEffects::data_effect))]
    #[inline(always)]
    fn execute<L: Linear>(
        regs: &mut Regs,
        flags: &mut Flags,
        lin: &mut L,
        insn: &Insn,
    ) -> Result<Next, Fault> {
        match insn.op {
            Op::Setcc(number) => {
                set_place(regs, flags, lin, insn, number)?;
                Ok(Next::Follow)
            }
            _ => unreachable!(),
        }
    }
}
