//! Operands that are only read: their numbers, and instructions that run on these.

ghost use Rattle.std.specs.Prelude.{◌≡◌, ◌<◌, ℕ, true, false, IfOk, OnErr};
ghost use Rattle.mdl_state.specs.Bytes.{bound_of};
ghost use Rattle.mdl_state.specs.Serving.{by_pick, outcome};
ghost use Rattle.mdl_state.specs.Accesses.{Keeps};
ghost use Rattle.mdl_state.specs.Attempt.{tried};
ghost use Rattle.mdl_cpu.specs.Addresses.{HasAddress};
ghost use Rattle.mdl_effect.specs.Operands.{is_plain, is_nothing};
ghost use Rattle.mdl_effect.specs.Kinds.{is_memory, is_value};
ghost use Rattle.mdl_effect.specs.DataEffects.{data_effect};
ghost use Rattle.mdl_effect.specs.Forms.{IsFormed, IsOf};
ghost use Rattle.operands.specs.Whole.{whole, after};
ghost use Rattle.exec_data.specs.Reads.{number_plan, reads_first, reads_second, with_first, with_second};

use crate::plain_run::run_formed;
use lazy_flags::Flags;
use mdl_insn::{Insn, Operand};
use mdl_state::{Fault, Regs, Size};
use mem_iface::Linear;
use operands::{read, read_sized, reg, size_of};

/// The number of an operand.
#[inline(always)]
#[tactic(auto, unfolding(crate::specs::Reads::number_plan))]
pub(crate) fn number<L: Linear>(
    regs: &Regs,
    lin: &mut L,
    operand: &Operand,
    size: Size,
) -> Result<u32, Fault>
    requires value { is_value operand.now ≡ true }
    requires form { IsOf size operand.now }
    requires address { HasAddress operand.now }
    ensures run { (flags : ℕ) → (outcome result, L.seen lin.new)
        ≡ tried (by_pick L.pick) 0 (number_plan (whole regs.now flags) operand.now) (L.seen lin.old) }
    ensures bound { IfOk result (λ value. value < bound_of size) }
    ensures keeps { Keeps (L.seen lin.old) (L.seen lin.new) }
    ensures held { (L.seen lin.new).held ≡ (L.seen lin.old).held }
{
    match operand {
        Operand::Gpr(n, _) => Ok(reg(regs, *n, size)),
        Operand::Imm(value, _) => Ok(*value),
        Operand::At(_, _) => read_sized(regs, lin, operand, size),
        _ => unreachable!(),
    }
}

/// The instruction with a number as its first operand.
fn with_first(insn: &Insn, value: u32) -> Insn
    ensures { result ≡ with_first insn.now value }
{
    Insn {
        a: Operand::Imm(value, size_of(&insn.a)),
        ..*insn
    }
}

/// The same as its second.
fn with_second(insn: &Insn, value: u32) -> Insn
    ensures { result ≡ with_second insn.now value }
{
    Insn {
        b: Operand::Imm(value, size_of(&insn.b)),
        ..*insn
    }
}

/// An instruction that reads its second operand in memory.
#[tactic(auto, using(crate::proofs::Readings::reads))]
pub(crate) fn run_second<L: Linear>(
    regs: &mut Regs,
    flags: &mut Flags,
    lin: &mut L,
    insn: &Insn,
) -> Result<(), Fault>
    requires reads { reads_second insn.now.op ≡ true }
    requires formed { IsFormed insn.now }
    requires a { is_plain insn.now.a ≡ true }
    requires b { is_plain insn.now.b ≡ false }
    requires memory { is_memory insn.now.b ≡ true }
    requires c { is_plain insn.now.c ≡ true }
    requires address { HasAddress insn.now.b }
    ensures run { (after result (whole regs.new flags.new), L.seen lin.new)
        ≡ tried (by_pick L.pick) 0 (data_effect insn.now (whole regs.old flags.old) (whole regs.new flags.new).eflags) (L.seen lin.old) }
    ensures unchanged { OnErr result ((regs.new ≡ regs.old) × (flags.new ≡ flags.old)) }
    ensures keeps { Keeps (L.seen lin.old) (L.seen lin.new) }
{
    match read(regs, lin, &insn.b) {
        Ok(value) => run_formed(regs, flags, &with_second(insn, value)),
        Err(fault) => Err(fault),
    }
}

/// An instruction that only reads its first operand, in memory.
#[tactic(auto, using(crate::proofs::Readings::reads))]
pub(crate) fn run_first<L: Linear>(
    regs: &mut Regs,
    flags: &mut Flags,
    lin: &mut L,
    insn: &Insn,
) -> Result<(), Fault>
    requires reads { reads_first insn.now.op (is_nothing insn.now.b) ≡ true }
    requires formed { IsFormed insn.now }
    requires a { is_plain insn.now.a ≡ false }
    requires memory { is_memory insn.now.a ≡ true }
    requires b { is_plain insn.now.b ≡ true }
    requires c { is_plain insn.now.c ≡ true }
    requires address { HasAddress insn.now.a }
    ensures run { (after result (whole regs.new flags.new), L.seen lin.new)
        ≡ tried (by_pick L.pick) 0 (data_effect insn.now (whole regs.old flags.old) (whole regs.new flags.new).eflags) (L.seen lin.old) }
    ensures unchanged { OnErr result ((regs.new ≡ regs.old) × (flags.new ≡ flags.old)) }
    ensures keeps { Keeps (L.seen lin.old) (L.seen lin.new) }
{
    match read(regs, lin, &insn.a) {
        Ok(value) => run_formed(regs, flags, &with_first(insn, value)),
        Err(fault) => Err(fault),
    }
}
