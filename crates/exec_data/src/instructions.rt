//! One data instruction, over any memory.

ghost use Rattle.std.specs.Prelude.{◌≡◌, ℕ, Bool, List, IsTrue, true, OnErr};
ghost use Rattle.mdl_insn.specs.Spelling.{Spelt};
ghost use Rattle.mdl_state.specs.Serving.{by_pick};
ghost use Rattle.mdl_state.specs.Accesses.{Keeps, HasRoom};
ghost use Rattle.mdl_state.specs.Attempt.{tried};
ghost use Rattle.mdl_effect.specs.DataEffects.{runs_data};
ghost use Rattle.mdl_effect.specs.DataEffects.{data_effect};
ghost use Rattle.mdl_effect.specs.DataEffects.{is_data};
ghost use Rattle.mdl_effect.specs.Forms.{IsFormed};
ghost use Rattle.mdl_cpu.specs.Addresses.{HasAddresses};
ghost use Rattle.mdl_cpu.specs.Steady.{Steady};
ghost use Rattle.operands.specs.Whole.{whole, ran};
ghost use Rattle.exec_data.specs.Places.{is_placed};

use crate::arithmetic::{change_place, combine_place, compare_values};
use crate::conditions::set_place;
use crate::kinds::DataKind;
use crate::memory_run::{run_memory, run_move};
use crate::plain::is_plain_data;
use crate::plain_run::run_formed;
use crate::shifts::shift_place;
use lazy_flags::Flags;
use mdl_insn::{Insn, Op};
use mdl_state::{Fault, Next, Regs};
use mem_iface::Linear;

/// The instruction by whether all its operands are registers and numbers.
#[inline(never)]
#[tactic(auto, using(crate::proofs::Attempts::attempts))]
fn run_by_kinds<L: Linear>(
    regs: &mut Regs,
    flags: &mut Flags,
    lin: &mut L,
    insn: &Insn,
) -> Result<Next, Fault>
    requires runs { runs_data insn.now ≡ true }
    requires formed { IsFormed insn.now }
    requires placed { is_data insn.now.op ≡ true → is_placed insn.now ≡ true }
    requires addresses { HasAddresses insn.now }
    requires room { HasRoom (L.seen lin.old) 4 }
    ensures run { (ran result (whole regs.new flags.new), L.seen lin.new)
        ≡ tried (by_pick L.pick) 0 (data_effect insn.now (whole regs.old flags.old) (whole regs.new flags.new).eflags) (L.seen lin.old) }
    ensures unchanged { OnErr result ((regs.new ≡ regs.old) × (flags.new ≡ flags.old)) }
    ensures keeps { Keeps (L.seen lin.old) (L.seen lin.new) }
{
    if is_plain_data(insn) {
        run_formed(regs, flags, insn)?;
        return Ok(Next::Follow);
    }
    run_memory(regs, flags, lin, insn)
}

/// The instruction by its mnemonic, where that is one of most programs.
#[inline(always)]
#[rattlefmt::skip]
#[tactic(auto, using(crate::proofs::MoveLaws::moves), unfolding(mdl_effect::specs::DataEffects::data_effect))]
fn run_by_mnemonic<L: Linear>(
    regs: &mut Regs,
    flags: &mut Flags,
    lin: &mut L,
    insn: &Insn,
) -> Result<Next, Fault>
    requires runs { runs_data insn.now ≡ true }
    requires formed { IsFormed insn.now }
    requires placed { is_data insn.now.op ≡ true → is_placed insn.now ≡ true }
    requires addresses { HasAddresses insn.now }
    requires room { HasRoom (L.seen lin.old) 4 }
    ensures run { (ran result (whole regs.new flags.new), L.seen lin.new)
        ≡ tried (by_pick L.pick) 0 (data_effect insn.now (whole regs.old flags.old) (whole regs.new flags.new).eflags) (L.seen lin.old) }
    ensures unchanged { OnErr result ((regs.new ≡ regs.old) × (flags.new ≡ flags.old)) }
    ensures keeps { Keeps (L.seen lin.old) (L.seen lin.new) }
{
    match insn.op {
        Op::Mov => return run_move(regs, lin, insn),
        Op::Add | Op::Or | Op::Adc | Op::Sbb | Op::And | Op::Sub | Op::Xor => combine_place(regs, flags, lin, insn)?,
        Op::Cmp | Op::Test => compare_values(regs, flags, lin, insn)?,
        Op::Inc | Op::Dec | Op::Neg | Op::Not => change_place(regs, flags, lin, insn)?,
        Op::Rol | Op::Ror | Op::Rcl | Op::Rcr | Op::Shl | Op::Shr | Op::Sar => shift_place(regs, flags, lin, insn)?,
        Op::Setcc(number) => set_place(regs, flags, lin, insn, number)?,
        _ => return run_by_kinds(regs, flags, lin, insn),
    }
    Ok(Next::Follow)
}

/// One data instruction that some bytes spell, in an attempt: its registers and held writes, or its
/// first fault. `back` is the EIP behind it.
///
/// The status flags of EFLAGS are those of `flags`. A fault leaves what was held before it to be
/// dropped.
#[inline(always)]
pub fn run<L: Linear>(
    regs: &mut Regs,
    flags: &mut Flags,
    lin: &mut L,
    insn: &Insn,
    back: u32,
) -> Result<Next, Fault>
    requires spelt { (bytes : List ℕ) × (big : Bool) × Spelt bytes big insn.now }
    requires runs { IsTrue (runs_data insn.now) }
    requires room { HasRoom (L.seen lin.old) 4 }
    ensures run { (ran result (whole regs.new flags.new), L.seen lin.new)
        ≡ tried (by_pick L.pick) 0 (data_effect insn.now (whole regs.old flags.old) (whole regs.new flags.new).eflags) (L.seen lin.old) }
    ensures unchanged { OnErr result ((regs.new ≡ regs.old) × (flags.new ≡ flags.old)) }
    ensures steady { Steady (whole regs.old flags.old) (whole regs.new flags.new) }
    ensures keeps { Keeps (L.seen lin.old) (L.seen lin.new) }
{
    run_by_mnemonic(regs, flags, lin, insn)
}

/// The same, of a kind: what is compiled runs that alone.
#[inline(always)]
pub fn run_kind<K: DataKind, L: Linear>(
    regs: &mut Regs,
    flags: &mut Flags,
    lin: &mut L,
    insn: &Insn,
) -> Result<Next, Fault>
    requires kind { K.takes insn.now.op ≡ true }
    requires spelt { (bytes : List ℕ) × (big : Bool) × Spelt bytes big insn.now }
    requires runs { IsTrue (runs_data insn.now) }
    requires room { HasRoom (L.seen lin.old) 4 }
    ensures run { (ran result (whole regs.new flags.new), L.seen lin.new)
        ≡ tried (by_pick L.pick) 0 (data_effect insn.now (whole regs.old flags.old) (whole regs.new flags.new).eflags) (L.seen lin.old) }
    ensures unchanged { OnErr result ((regs.new ≡ regs.old) × (flags.new ≡ flags.old)) }
    ensures steady { Steady (whole regs.old flags.old) (whole regs.new flags.new) }
    ensures keeps { Keeps (L.seen lin.old) (L.seen lin.new) }
{
    K::execute(regs, flags, lin, insn)
}
