//! One iteration of each string instruction between registers and memory. The source is in DS or the
//! segment of a prefix, the destination in ES. Registers and flags change behind the last access.

ghost use Rattle.std.specs.Prelude.{◌≡◌, ◌<◌, ℕ, true, false, IfOk, OnErr};
ghost use Rattle.mdl_state.specs.declared.Regs.{Regs};
ghost use Rattle.mdl_state.specs.Bytes.{bound_of};
ghost use Rattle.mdl_state.specs.Serving.{by_pick, outcome};
ghost use Rattle.mdl_state.specs.Accesses.{Keeps, HasRoom};
ghost use Rattle.mdl_state.specs.Attempt.{tried};
ghost use Rattle.mdl_state.specs.declared.Seg.TheVariants.{Es};
ghost use Rattle.mdl_cpu.specs.Access.{store_to};
ghost use Rattle.mdl_cpu.specs.Loads.{answered};
ghost use Rattle.mdl_effect.specs.StringEffects.{read_source, read_destination, destination_index, compared};
ghost use Rattle.mdl_effect.specs.StringEffects.{move_string_plan, compare_strings_plan, store_string_plan, load_string_plan, scan_string_plan, iterate_plan};
ghost use Rattle.mdl_effect.specs.StringEffects.{runs_string};
ghost use Rattle.operands.specs.Whole.{whole, after, KeepsOther};
ghost use Rattle.string_ops.specs.Kinds.{is_move, is_store, is_load};
ghost use Rattle.string_ops.specs.PortStrings.{uses_port};

use crate::indexes::{destination_index, pass_both, pass_destination, pass_source, source_index};
use lazy_flags::{FlagOp, Flags};
use mdl_insn::{Insn, Op};
use mdl_state::{Fault, Regs, Seg, Size};
use mem_iface::Linear;
use operands::{ACCUMULATOR, load, reg, set_reg, store};

/// The number at the source.
#[inline(always)]
pub(crate) fn read_source<L: Linear>(regs: &Regs, lin: &mut L, insn: &Insn) -> Result<u32, Fault>
    ensures run { (flags : ℕ) → (outcome result, L.seen lin.new)
        ≡ tried (by_pick L.pick) 0 (read_source insn.now (whole regs.now flags)) (L.seen lin.old) }
    ensures bound { IfOk result (λ value. value < bound_of insn.now.size) }
    ensures keeps { Keeps (L.seen lin.old) (L.seen lin.new) }
    ensures held { (L.seen lin.new).held ≡ (L.seen lin.old).held }
{
    let seg = insn.over.unwrap_or(Seg::Ds);
    let index = source_index(regs, insn.wide);
    load(regs, lin, seg, index, insn.size)
}

/// The number at the destination.
#[inline(always)]
fn read_destination<L: Linear>(regs: &Regs, lin: &mut L, insn: &Insn) -> Result<u32, Fault>
    ensures run { (flags : ℕ) → (outcome result, L.seen lin.new)
        ≡ tried (by_pick L.pick) 0 (read_destination insn.now (whole regs.now flags)) (L.seen lin.old) }
    ensures bound { IfOk result (λ value. value < bound_of insn.now.size) }
    ensures keeps { Keeps (L.seen lin.old) (L.seen lin.new) }
    ensures held { (L.seen lin.new).held ≡ (L.seen lin.old).held }
{
    let index = destination_index(regs, insn.wide);
    load(regs, lin, Seg::Es, index, insn.size)
}

/// A number put at the destination.
#[inline(always)]
fn write_destination<L: Linear>(
    regs: &Regs,
    lin: &mut L,
    wide: bool,
    size: Size,
    value: u32,
) -> Result<(), Fault>
    requires bound { value < bound_of size }
    requires room { HasRoom (L.seen lin.old) 4 }
    ensures run { (flags : ℕ) → (outcome result, L.seen lin.new)
        ≡ tried (by_pick L.pick) 0 (store_to (whole regs.now flags) Es (destination_index (whole regs.now flags) wide) size value) (L.seen lin.old) }
    ensures keeps { Keeps (L.seen lin.old) (L.seen lin.new) }
{
    let index = destination_index(regs, wide);
    store(regs, lin, Seg::Es, index, size, value)
}

/// The flags of a number less another.
#[tactic(auto, using(operands::proofs::Statuses::statuses))]
#[inline(always)]
fn compare(flags: &mut Flags, size: Size, a: u32, b: u32)
    requires a { a < bound_of size }
    requires b { b < bound_of size }
    ensures { (r : Regs) → whole r flags.new ≡ compared (whole r flags.old) size a b (whole r flags.new).eflags }
{
    flags.set_from(FlagOp::Sub, a, b, size);
}

/// MOVS.
#[tactic(auto, using(mdl_state::specs::Rules::attempts), unfolding(mdl_effect::specs::StringEffects::move_string_plan))]
#[inline(always)]
fn move_string<L: Linear>(regs: &mut Regs, lin: &mut L, insn: &Insn) -> Result<(), Fault>
    requires room { HasRoom (L.seen lin.old) 4 }
    ensures run { (flags : ℕ) → (answered result (whole regs.new flags), L.seen lin.new)
        ≡ tried (by_pick L.pick) 0 (move_string_plan insn.now (whole regs.old flags)) (L.seen lin.old) }
    ensures kept { KeepsOther regs.old regs.new }
    ensures unchanged { OnErr result (regs.new ≡ regs.old) }
    ensures keeps { Keeps (L.seen lin.old) (L.seen lin.new) }
{
    let (wide, size) = (insn.wide, insn.size);
    let value = read_source(regs, lin, insn)?;
    write_destination(regs, lin, wide, size, value)?;
    pass_both(regs, wide, size);
    Ok(())
}

/// CMPS: the flags of the source less the destination.
#[tactic(auto, using(mdl_state::specs::Rules::attempts), unfolding(mdl_effect::specs::StringEffects::compare_strings_plan))]
#[inline(always)]
fn compare_strings<L: Linear>(
    regs: &mut Regs,
    flags: &mut Flags,
    lin: &mut L,
    insn: &Insn,
) -> Result<(), Fault>
    ensures run { (answered result (whole regs.new flags.new), L.seen lin.new)
        ≡ tried (by_pick L.pick) 0 (compare_strings_plan insn.now (whole regs.old flags.old) (whole regs.new flags.new).eflags) (L.seen lin.old) }
    ensures kept { KeepsOther regs.old regs.new }
    ensures unchanged { OnErr result ((regs.new ≡ regs.old) × (flags.new ≡ flags.old)) }
    ensures keeps { Keeps (L.seen lin.old) (L.seen lin.new) }
{
    let a = read_source(regs, lin, insn)?;
    let b = read_destination(regs, lin, insn)?;
    compare(flags, insn.size, a, b);
    pass_both(regs, insn.wide, insn.size);
    Ok(())
}

/// STOS.
#[tactic(auto, using(mdl_state::specs::Rules::attempts), unfolding(mdl_effect::specs::StringEffects::store_string_plan))]
#[inline(always)]
fn store_string<L: Linear>(regs: &mut Regs, lin: &mut L, insn: &Insn) -> Result<(), Fault>
    requires room { HasRoom (L.seen lin.old) 4 }
    ensures run { (flags : ℕ) → (answered result (whole regs.new flags), L.seen lin.new)
        ≡ tried (by_pick L.pick) 0 (store_string_plan insn.now (whole regs.old flags)) (L.seen lin.old) }
    ensures kept { KeepsOther regs.old regs.new }
    ensures unchanged { OnErr result (regs.new ≡ regs.old) }
    ensures keeps { Keeps (L.seen lin.old) (L.seen lin.new) }
{
    let (wide, size) = (insn.wide, insn.size);
    let value = reg(regs, ACCUMULATOR, size);
    write_destination(regs, lin, wide, size, value)?;
    pass_destination(regs, wide, size);
    Ok(())
}

/// LODS.
#[tactic(auto, using(mdl_state::specs::Rules::attempts), unfolding(mdl_effect::specs::StringEffects::load_string_plan))]
#[inline(always)]
fn load_string<L: Linear>(regs: &mut Regs, lin: &mut L, insn: &Insn) -> Result<(), Fault>
    ensures run { (flags : ℕ) → (answered result (whole regs.new flags), L.seen lin.new)
        ≡ tried (by_pick L.pick) 0 (load_string_plan insn.now (whole regs.old flags)) (L.seen lin.old) }
    ensures kept { KeepsOther regs.old regs.new }
    ensures unchanged { OnErr result (regs.new ≡ regs.old) }
    ensures keeps { Keeps (L.seen lin.old) (L.seen lin.new) }
{
    let (wide, size) = (insn.wide, insn.size);
    let value = read_source(regs, lin, insn)?;
    set_reg(regs, ACCUMULATOR, size, value);
    pass_source(regs, wide, size);
    Ok(())
}

/// SCAS: the flags of the accumulator less the destination.
#[tactic(auto, using(mdl_state::specs::Rules::attempts), unfolding(mdl_effect::specs::StringEffects::scan_string_plan))]
#[inline(always)]
fn scan_string<L: Linear>(
    regs: &mut Regs,
    flags: &mut Flags,
    lin: &mut L,
    insn: &Insn,
) -> Result<(), Fault>
    ensures run { (answered result (whole regs.new flags.new), L.seen lin.new)
        ≡ tried (by_pick L.pick) 0 (scan_string_plan insn.now (whole regs.old flags.old) (whole regs.new flags.new).eflags) (L.seen lin.old) }
    ensures kept { KeepsOther regs.old regs.new }
    ensures unchanged { OnErr result ((regs.new ≡ regs.old) × (flags.new ≡ flags.old)) }
    ensures keeps { Keeps (L.seen lin.old) (L.seen lin.new) }
{
    let value = read_destination(regs, lin, insn)?;
    compare(flags, insn.size, reg(regs, ACCUMULATOR, insn.size), value);
    pass_destination(regs, insn.wide, insn.size);
    Ok(())
}

/// MOVS, as it is iterated.
#[tactic(auto, using(mdl_state::specs::Rules::attempts), unfolding(mdl_effect::specs::StringEffects::iterate_plan))]
#[inline(always)]
pub(crate) fn iterate_move<L: Linear>(
    regs: &mut Regs,
    flags: &Flags,
    lin: &mut L,
    insn: &Insn,
) -> Result<(), Fault>
    requires kind { is_move insn.now.op ≡ true }
    requires room { HasRoom (L.seen lin.old) 4 }
    ensures run { (after result (whole regs.new flags.now), L.seen lin.new)
        ≡ tried (by_pick L.pick) 0 (iterate_plan insn.now (whole regs.old flags.now) (whole regs.new flags.now).eflags) (L.seen lin.old) }
    ensures kept { KeepsOther regs.old regs.new }
    ensures unchanged { OnErr result (regs.new ≡ regs.old) }
    ensures keeps { Keeps (L.seen lin.old) (L.seen lin.new) }
{
    match insn.op {
        Op::Movs => move_string(regs, lin, insn),
        _ => unreachable!(),
    }
}

/// STOS, as it is iterated.
#[tactic(auto, using(mdl_state::specs::Rules::attempts), unfolding(mdl_effect::specs::StringEffects::iterate_plan))]
#[inline(always)]
pub(crate) fn iterate_store<L: Linear>(
    regs: &mut Regs,
    flags: &Flags,
    lin: &mut L,
    insn: &Insn,
) -> Result<(), Fault>
    requires kind { is_store insn.now.op ≡ true }
    requires room { HasRoom (L.seen lin.old) 4 }
    ensures run { (after result (whole regs.new flags.now), L.seen lin.new)
        ≡ tried (by_pick L.pick) 0 (iterate_plan insn.now (whole regs.old flags.now) (whole regs.new flags.now).eflags) (L.seen lin.old) }
    ensures kept { KeepsOther regs.old regs.new }
    ensures unchanged { OnErr result (regs.new ≡ regs.old) }
    ensures keeps { Keeps (L.seen lin.old) (L.seen lin.new) }
{
    match insn.op {
        Op::Stos => store_string(regs, lin, insn),
        _ => unreachable!(),
    }
}

/// LODS, as it is iterated.
#[tactic(auto, using(mdl_state::specs::Rules::attempts), unfolding(mdl_effect::specs::StringEffects::iterate_plan))]
#[inline(always)]
pub(crate) fn iterate_load<L: Linear>(
    regs: &mut Regs,
    flags: &Flags,
    lin: &mut L,
    insn: &Insn,
) -> Result<(), Fault>
    requires kind { is_load insn.now.op ≡ true }
    requires room { HasRoom (L.seen lin.old) 4 }
    ensures run { (after result (whole regs.new flags.now), L.seen lin.new)
        ≡ tried (by_pick L.pick) 0 (iterate_plan insn.now (whole regs.old flags.now) (whole regs.new flags.now).eflags) (L.seen lin.old) }
    ensures kept { KeepsOther regs.old regs.new }
    ensures unchanged { OnErr result (regs.new ≡ regs.old) }
    ensures keeps { Keeps (L.seen lin.old) (L.seen lin.new) }
{
    match insn.op {
        Op::Lods => load_string(regs, lin, insn),
        _ => unreachable!(),
    }
}

/// One iteration of an instruction that uses no port, by its mnemonic.
#[tactic(auto, using(mdl_state::specs::Rules::attempts), unfolding(mdl_effect::specs::StringEffects::iterate_plan))]
#[inline(always)]
pub(crate) fn iterate_in_memory<L: Linear>(
    regs: &mut Regs,
    flags: &mut Flags,
    lin: &mut L,
    insn: &Insn,
) -> Result<(), Fault>
    requires runs { runs_string insn.now.op ≡ true }
    requires memory { uses_port insn.now.op ≡ false }
    requires room { HasRoom (L.seen lin.old) 4 }
    ensures run { (after result (whole regs.new flags.new), L.seen lin.new)
        ≡ tried (by_pick L.pick) 0 (iterate_plan insn.now (whole regs.old flags.old) (whole regs.new flags.new).eflags) (L.seen lin.old) }
    ensures kept { KeepsOther regs.old regs.new }
    ensures unchanged { OnErr result ((regs.new ≡ regs.old) × (flags.new ≡ flags.old)) }
    ensures keeps { Keeps (L.seen lin.old) (L.seen lin.new) }
{
    match insn.op {
        Op::Movs => move_string(regs, lin, insn),
        Op::Cmps => compare_strings(regs, flags, lin, insn),
        Op::Stos => store_string(regs, lin, insn),
        Op::Lods => load_string(regs, lin, insn),
        Op::Scas => scan_string(regs, flags, lin, insn),
        _ => unreachable!(),
    }
}
