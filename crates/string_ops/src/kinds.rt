//! Kinds of string instructions: each is the mnemonics that are iterated alike, and holds what iterates
//! these alone.

ghost use Rattle.std.specs.Prelude.{◌≡◌, ℕ, Bool, true, OnErr};
ghost use Rattle.mdl_insn.specs.declared.mnemonics.Op.{Op as AnyOp};
ghost use Rattle.mdl_state.specs.Serving.{by_pick};
ghost use Rattle.mdl_state.specs.Accesses.{Keeps, HasRoom};
ghost use Rattle.mdl_state.specs.Attempt.{tried};
ghost use Rattle.mem_iface.specs.Rules.{rules_of};
ghost use Rattle.mdl_effect.specs.Operands.{PortUse};
ghost use Rattle.mdl_effect.specs.Ports.{Accesses};
ghost use Rattle.mdl_effect.specs.StringEffects.{runs_string, iterate_plan};
ghost use Rattle.operands.specs.Whole.{whole, ran_at, KeepsOther};
ghost use Rattle.string_ops.specs.Kinds.{is_move, is_store, is_load};

use crate::iterations::iterate;
use crate::strings::{iterate_load, iterate_move, iterate_store};
use lazy_flags::Flags;
use mdl_insn::Insn;
use mdl_state::{Fault, Next, Regs};
use mem_iface::{Linear, Ports};

/// Mnemonics of string instructions that are iterated alike.
pub(crate) trait StringKind {
    /// Which they are.
    ghost takes: { AnyOp → Bool };

    /// One iteration of one of these.
    fn iterate<L: Linear, P: Ports>(
        regs: &mut Regs,
        flags: &mut Flags,
        lin: &mut L,
        ports: &mut P,
        insn: &Insn,
    ) -> Result<Next, Fault>
        requires kind { takes insn.now.op ≡ true }
        requires runs { runs_string insn.now.op ≡ true }
        requires room { HasRoom (L.seen lin.old) 4 }
        ensures run { (given : ℕ) × (access : PortUse) × Accesses (rules_of P.Ports) access given ports.old ports.new
            × ((ran_at result access (whole regs.new flags.new), L.seen lin.new)
            ≡ tried (by_pick L.pick) given (iterate_plan insn.now (whole regs.old flags.old) (whole regs.new flags.new).eflags) (L.seen lin.old)) }
        ensures kept { KeepsOther regs.old regs.new }
        ensures unchanged { OnErr result ((regs.new ≡ regs.old) × (flags.new ≡ flags.old) × (ports.new ≡ ports.old)) }
        ensures keeps { Keeps (L.seen lin.old) (L.seen lin.new) };
}

/// MOVS.
pub(crate) struct Moves;

impl StringKind for Moves {
    ghost takes = { λ op. is_move op };

    #[inline(always)]
    fn iterate<L: Linear, P: Ports>(
        regs: &mut Regs,
        flags: &mut Flags,
        lin: &mut L,
        _ports: &mut P,
        insn: &Insn,
    ) -> Result<Next, Fault> {
        iterate_move(regs, flags, lin, insn)?;
        Ok(Next::Follow)
    }
}

/// STOS.
pub(crate) struct Stores;

impl StringKind for Stores {
    ghost takes = { λ op. is_store op };

    #[inline(always)]
    fn iterate<L: Linear, P: Ports>(
        regs: &mut Regs,
        flags: &mut Flags,
        lin: &mut L,
        _ports: &mut P,
        insn: &Insn,
    ) -> Result<Next, Fault> {
        iterate_store(regs, flags, lin, insn)?;
        Ok(Next::Follow)
    }
}

/// LODS.
pub(crate) struct Loads;

impl StringKind for Loads {
    ghost takes = { λ op. is_load op };

    #[inline(always)]
    fn iterate<L: Linear, P: Ports>(
        regs: &mut Regs,
        flags: &mut Flags,
        lin: &mut L,
        _ports: &mut P,
        insn: &Insn,
    ) -> Result<Next, Fault> {
        iterate_load(regs, flags, lin, insn)?;
        Ok(Next::Follow)
    }
}

/// Any.
pub(crate) struct AnyString;

impl StringKind for AnyString {
    ghost takes = { λ _. true };

    #[inline(always)]
    fn iterate<L: Linear, P: Ports>(
        regs: &mut Regs,
        flags: &mut Flags,
        lin: &mut L,
        ports: &mut P,
        insn: &Insn,
    ) -> Result<Next, Fault> {
        iterate(regs, flags, lin, ports, insn)
    }
}
