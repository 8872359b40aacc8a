//! LGDT, LIDT, SGDT and SIDT. The limit is a word, and the base a doubleword behind it.

ghost use Rattle.std.specs.Prelude.{◌≡◌, ◌<◌, ◌^◌, true, IfOk, OnErr};
ghost use Rattle.mdl_state.specs.Serving.{by_pick, outcome};
ghost use Rattle.mdl_state.specs.Accesses.{Keeps, HasRoom};
ghost use Rattle.mdl_state.specs.Attempt.{tried};
ghost use Rattle.mdl_cpu.specs.Addresses.{HasAddress};
ghost use Rattle.mdl_effect.specs.Kinds.{is_memory};
ghost use Rattle.mdl_effect.specs.TableEffects.{table_read, table_write, base_in, load_gdt_plan, load_idt_plan, store_gdt_plan, store_idt_plan};
ghost use Rattle.operands.specs.Whole.{ran};

use mdl_insn::{Insn, Operand};
use mdl_state::{Fault, Next, Regs, Size};
use mem_iface::Linear;
use operands::general_protection;
use seg_unit::{address, check_part, load, store, who};

/// The bytes of the limit.
const LIMIT_BYTES: u32 = 2;

/// The least number that does not fit the 24 bits of a base with an operand size of 16 bits.
const SHORT_BASES: u32 = 0x100_0000;

/// The limit and the base in memory.
#[tactic(auto, using(mdl_state::specs::Rules::attempts), unfolding(mdl_effect::specs::TableEffects::table_read))]
fn read_table<L: Linear>(regs: &Regs, lin: &mut L, operand: &Operand) -> Result<(u32, u32), Fault>
    requires memory { is_memory operand.now ≡ true }
    requires address { HasAddress operand.now }
    ensures run { (outcome result, L.seen lin.new)
        ≡ tried (by_pick L.pick) 0 (table_read regs.now operand.now) (L.seen lin.old) }
    ensures limit { IfOk result (λ table. table.0 < 2 ^ 16) }
    ensures keeps { Keeps (L.seen lin.old) (L.seen lin.new) }
{
    match operand {
        Operand::At(mem, _) => {
            let offset = address(regs, mem);
            let limit = load(regs, lin, mem.seg, offset, Size::B2)?;
            let at = check_part(regs, mem.seg, offset, LIMIT_BYTES, Size::B4, false)?;
            let base = lin.read(at, Size::B4, who(regs))?;
            Ok((limit, base))
        }
        _ => unreachable!(),
    }
}

/// Both written.
#[tactic(auto, using(mdl_state::specs::Rules::attempts), unfolding(mdl_effect::specs::TableEffects::table_write))]
fn write_table<L: Linear>(
    regs: &Regs,
    lin: &mut L,
    operand: &Operand,
    limit: u16,
    base: u32,
) -> Result<(), Fault>
    requires memory { is_memory operand.now ≡ true }
    requires address { HasAddress operand.now }
    requires room { HasRoom (L.seen lin.old) 6 }
    ensures run { (outcome result, L.seen lin.new)
        ≡ tried (by_pick L.pick) 0 (table_write regs.now operand.now limit base) (L.seen lin.old) }
    ensures keeps { Keeps (L.seen lin.old) (L.seen lin.new) }
{
    match operand {
        Operand::At(mem, _) => {
            let offset = address(regs, mem);
            store(regs, lin, mem.seg, offset, Size::B2, limit as u32)?;
            let at = check_part(regs, mem.seg, offset, LIMIT_BYTES, Size::B4, true)?;
            lin.write(at, Size::B4, base, who(regs))
        }
        _ => unreachable!(),
    }
}

/// The base that is loaded.
fn base_in(size: Size, base: u32) -> u32
    ensures { result ≡ base_in size base }
{
    match size {
        Size::B4 => base,
        _ => base % SHORT_BASES,
    }
}

/// LGDT.
#[tactic(auto, using(mdl_state::specs::Rules::attempts), unfolding(mdl_effect::specs::TableEffects::load_gdt_plan))]
pub(crate) fn load_gdt<L: Linear>(regs: &mut Regs, lin: &mut L, insn: &Insn) -> Result<Next, Fault>
    requires memory { is_memory insn.now.a ≡ true }
    requires address { HasAddress insn.now.a }
    ensures run { (ran result regs.new, L.seen lin.new)
        ≡ tried (by_pick L.pick) 0 (load_gdt_plan insn.now regs.old) (L.seen lin.old) }
    ensures unchanged { OnErr result (regs.new ≡ regs.old) }
    ensures keeps { Keeps (L.seen lin.old) (L.seen lin.new) }
{
    if regs.cpl != 0 {
        return Err(general_protection(0));
    }
    let (limit, base) = read_table(regs, lin, &insn.a)?;
    regs.gdt_limit = limit as u16;
    regs.gdt_base = base_in(insn.size, base);
    Ok(Next::Follow)
}

/// LIDT.
#[tactic(auto, using(mdl_state::specs::Rules::attempts), unfolding(mdl_effect::specs::TableEffects::load_idt_plan))]
pub(crate) fn load_idt<L: Linear>(regs: &mut Regs, lin: &mut L, insn: &Insn) -> Result<Next, Fault>
    requires memory { is_memory insn.now.a ≡ true }
    requires address { HasAddress insn.now.a }
    ensures run { (ran result regs.new, L.seen lin.new)
        ≡ tried (by_pick L.pick) 0 (load_idt_plan insn.now regs.old) (L.seen lin.old) }
    ensures unchanged { OnErr result (regs.new ≡ regs.old) }
    ensures keeps { Keeps (L.seen lin.old) (L.seen lin.new) }
{
    if regs.cpl != 0 {
        return Err(general_protection(0));
    }
    let (limit, base) = read_table(regs, lin, &insn.a)?;
    regs.idt_limit = limit as u16;
    regs.idt_base = base_in(insn.size, base);
    Ok(Next::Follow)
}

/// SGDT.
#[tactic(auto, using(mdl_state::specs::Rules::attempts), unfolding(mdl_effect::specs::TableEffects::store_gdt_plan))]
pub(crate) fn store_gdt<L: Linear>(regs: &Regs, lin: &mut L, insn: &Insn) -> Result<Next, Fault>
    requires memory { is_memory insn.now.a ≡ true }
    requires address { HasAddress insn.now.a }
    requires room { HasRoom (L.seen lin.old) 6 }
    ensures run { (ran result regs.now, L.seen lin.new)
        ≡ tried (by_pick L.pick) 0 (store_gdt_plan insn.now regs.now) (L.seen lin.old) }
    ensures keeps { Keeps (L.seen lin.old) (L.seen lin.new) }
{
    write_table(regs, lin, &insn.a, regs.gdt_limit, regs.gdt_base)?;
    Ok(Next::Follow)
}

/// SIDT.
#[tactic(auto, using(mdl_state::specs::Rules::attempts), unfolding(mdl_effect::specs::TableEffects::store_idt_plan))]
pub(crate) fn store_idt<L: Linear>(regs: &Regs, lin: &mut L, insn: &Insn) -> Result<Next, Fault>
    requires memory { is_memory insn.now.a ≡ true }
    requires address { HasAddress insn.now.a }
    requires room { HasRoom (L.seen lin.old) 6 }
    ensures run { (ran result regs.now, L.seen lin.new)
        ≡ tried (by_pick L.pick) 0 (store_idt_plan insn.now regs.now) (L.seen lin.old) }
    ensures keeps { Keeps (L.seen lin.old) (L.seen lin.new) }
{
    write_table(regs, lin, &insn.a, regs.idt_limit, regs.idt_base)?;
    Ok(Next::Follow)
}
