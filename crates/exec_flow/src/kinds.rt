//! Kinds of near flow: each is the mnemonics that run alike, and holds what runs these alone.

ghost use Rattle.std.specs.Prelude.{◌≡◌, Bool, true, OnErr};
ghost use Rattle.mdl_insn.specs.declared.mnemonics.Op.{Op as AnyOp};
ghost use Rattle.mdl_state.specs.Serving.{by_pick};
ghost use Rattle.mdl_state.specs.Accesses.{Keeps, HasRoom};
ghost use Rattle.mdl_state.specs.Attempt.{tried};
ghost use Rattle.mdl_cpu.specs.Addresses.{HasAddress};
ghost use Rattle.mdl_effect.specs.FlowEffects.{runs_flow, flow_effect};
ghost use Rattle.mdl_effect.specs.Forms.{IsFormed};
ghost use Rattle.operands.specs.Whole.{whole, ran};
ghost use Rattle.exec_flow.specs.Near.{is_jump, is_call, is_return, is_condition};

use crate::calls::{call, return_near};
use crate::jumps::{jump, jump_if};
use lazy_flags::Flags;
use mdl_insn::{Insn, Op};
use mdl_state::{Fault, Next, Regs};
use mem_iface::Linear;

/// Mnemonics of near flow that run alike.
pub trait FlowKind {
    /// Which they are.
    ghost takes: { AnyOp → Bool };

    /// One of these instructions, whose operands have the form of its mnemonic.
    fn execute<L: Linear>(
        regs: &mut Regs,
        flags: &mut Flags,
        lin: &mut L,
        insn: &Insn,
        back: u32,
    ) -> Result<Next, Fault>
        requires kind { takes insn.now.op ≡ true }
        requires runs { runs_flow insn.now ≡ true }
        requires formed { IsFormed insn.now }
        requires address { HasAddress insn.now.a }
        requires room { HasRoom (L.seen lin.old) 128 }
        ensures run { (ran result (whole regs.new flags.new), L.seen lin.new)
            ≡ tried (by_pick L.pick) 0 (flow_effect insn.now (whole regs.old flags.old) back) (L.seen lin.old) }
        ensures unchanged { OnErr result ((regs.new ≡ regs.old) × (flags.new ≡ flags.old)) }
        ensures keeps { Keeps (L.seen lin.old) (L.seen lin.new) };
}

/// JMP within a segment.
pub struct Jumps;

impl FlowKind for Jumps {
    ghost takes = { λ op. is_jump op };

    #[tactic(auto, using(operands::proofs::OperandKinds::kinds), unfolding(mdl_effect::specs::FlowEffects::flow_effect))]
    #[inline(always)]
    fn execute<L: Linear>(
        regs: &mut Regs,
        _flags: &mut Flags,
        lin: &mut L,
        insn: &Insn,
        back: u32,
    ) -> Result<Next, Fault> {
        match insn.op {
            Op::Jmp => jump(regs, lin, insn, back),
            _ => unreachable!(),
        }
    }
}

/// CALL within a segment.
pub struct Calls;

impl FlowKind for Calls {
    ghost takes = { λ op. is_call op };

    #[tactic(auto, using(operands::proofs::OperandKinds::kinds), unfolding(mdl_effect::specs::FlowEffects::flow_effect))]
    #[inline(always)]
    fn execute<L: Linear>(
        regs: &mut Regs,
        _flags: &mut Flags,
        lin: &mut L,
        insn: &Insn,
        back: u32,
    ) -> Result<Next, Fault> {
        match insn.op {
            Op::Call => call(regs, lin, insn, back),
            _ => unreachable!(),
        }
    }
}

/// RET within a segment.
pub struct Returns;

impl FlowKind for Returns {
    ghost takes = { λ op. is_return op };

    #[tactic(auto, using(operands::proofs::OperandKinds::kinds), unfolding(mdl_effect::specs::FlowEffects::flow_effect))]
    #[inline(always)]
    fn execute<L: Linear>(
        regs: &mut Regs,
        _flags: &mut Flags,
        lin: &mut L,
        insn: &Insn,
        _back: u32,
    ) -> Result<Next, Fault> {
        match insn.op {
            Op::Ret => return_near(regs, lin, insn),
            _ => unreachable!(),
        }
    }
}

/// Jcc.
pub struct Conditions;

impl FlowKind for Conditions {
    ghost takes = { λ op. is_condition op };

    #[tactic(auto, using(operands::proofs::OperandKinds::kinds), unfolding(mdl_effect::specs::FlowEffects::flow_effect))]
    #[inline(always)]
    fn execute<L: Linear>(
        regs: &mut Regs,
        flags: &mut Flags,
        _lin: &mut L,
        insn: &Insn,
        back: u32,
    ) -> Result<Next, Fault> {
        match insn.op {
            Op::Jcc(number) => jump_if(number, regs, flags, insn, back),
            _ => unreachable!(),
        }
    }
}
