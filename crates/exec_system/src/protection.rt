//! The instructions that only protected mode has: LAR, LSL, VERR, VERW, ARPL, SLDT, STR, LLDT and LTR.

ghost use Rattle.std.specs.Prelude.{◌≡◌, ◌≢◌, ◌<◌, true, Option, OnErr, IfSome};
ghost use Rattle.mdl_state.specs.declared.Size.TheVariants.{B1, B2};
ghost use Rattle.mdl_state.specs.Serving.{by_pick};
ghost use Rattle.mdl_state.specs.Accesses.{Keeps, HasRoom};
ghost use Rattle.mdl_state.specs.Attempt.{tried};
ghost use Rattle.mdl_state.specs.Bytes.{bound_of};
ghost use Rattle.mdl_cpu.specs.Addresses.{HasAddress};
ghost use Rattle.mdl_cpu.specs.Segments.{is_protected};
ghost use Rattle.mdl_cpu.specs.Visibility.{arpl};
ghost use Rattle.mdl_effect.specs.FlagEffects.{with_flag};
ghost use Rattle.mdl_effect.specs.Kinds.{is_place, is_memory};
ghost use Rattle.mdl_effect.specs.Forms.{IsOf, IsFormed};
ghost use Rattle.mdl_effect.specs.ProtectionEffects.{with_shown, raised, lar_plan, lsl_plan, verr_plan, verw_plan, arpl_plan, sldt_plan, str_plan, lldt_plan, ltr_plan, is_protected_only, protected_plan};
ghost use Rattle.mdl_num.specs.declared.status.TheConstants.{ZF as ZERO};
ghost use Rattle.operands.specs.Whole.{ran};

use crate::registers::{set, value};
use crate::words::{read_word, store_word};
use desc_load::{has_protection, is_virtual, load_ldt, load_task};
use mdl_insn::{Insn, Mem, Op, Operand};
use mdl_num::{ZF, with_bit};
use mdl_state::{Access, Fault, Next, Regs, Size};
use mem_iface::Linear;
use operands::{general_protection, no_such};
use privilege_checks::{arpl, lar, lsl, verr, verw};
use seg_unit::{address, check, who};

/// Protected mode, and not V86.
fn is_protected(regs: &Regs) -> bool
    ensures { result ≡ is_protected regs.now }
{
    has_protection(regs) && !is_virtual(regs)
}

/// ZF set or cleared.
fn set_zero(regs: &mut Regs, on: bool)
    ensures { regs.new ≡ with_flag regs.old ZERO on }
{
    regs.eflags = with_bit(regs.eflags, ZF, on);
}

/// ZF says whether there is a number, which is then put into a register.
fn show(regs: &mut Regs, operand: &Operand, size: Size, shown: Option<u32>)
    requires form { IsOf size operand.now }
    requires bound { IfSome shown (λ number. number < bound_of size) }
    ensures { regs.new ≡ with_shown regs.old operand.now shown }
{
    match shown {
        Some(number) => {
            set_zero(regs, true);
            set(regs, operand, size, number);
        }
        None => set_zero(regs, false),
    }
}

/// LAR.
#[tactic(auto, using(mdl_state::specs::Rules::attempts), unfolding(mdl_effect::specs::ProtectionEffects::lar_plan))]
fn show_rights<L: Linear>(regs: &mut Regs, lin: &mut L, insn: &Insn) -> Result<Next, Fault>
    requires size { insn.now.size ≢ B1 }
    requires register { IsOf insn.now.size insn.now.a }
    requires place { is_place insn.now.b ≡ true }
    requires form { IsOf B2 insn.now.b }
    requires address { HasAddress insn.now.b }
    ensures run { (ran result regs.new, L.seen lin.new)
        ≡ tried (by_pick L.pick) 0 (lar_plan insn.now regs.old) (L.seen lin.old) }
    ensures unchanged { OnErr result (regs.new ≡ regs.old) }
    ensures keeps { Keeps (L.seen lin.old) (L.seen lin.new) }
{
    let sel = read_word(regs, lin, &insn.b)?;
    let rights = lar(regs, lin, sel as u16, insn.size)?;
    show(regs, &insn.a, insn.size, rights);
    Ok(Next::Follow)
}

/// LSL.
#[tactic(auto, using(mdl_state::specs::Rules::attempts), unfolding(mdl_effect::specs::ProtectionEffects::lsl_plan))]
fn show_limit<L: Linear>(regs: &mut Regs, lin: &mut L, insn: &Insn) -> Result<Next, Fault>
    requires size { insn.now.size ≢ B1 }
    requires register { IsOf insn.now.size insn.now.a }
    requires place { is_place insn.now.b ≡ true }
    requires form { IsOf B2 insn.now.b }
    requires address { HasAddress insn.now.b }
    ensures run { (ran result regs.new, L.seen lin.new)
        ≡ tried (by_pick L.pick) 0 (lsl_plan insn.now regs.old) (L.seen lin.old) }
    ensures unchanged { OnErr result (regs.new ≡ regs.old) }
    ensures keeps { Keeps (L.seen lin.old) (L.seen lin.new) }
{
    let sel = read_word(regs, lin, &insn.b)?;
    let limit = lsl(regs, lin, sel as u16, insn.size)?;
    show(regs, &insn.a, insn.size, limit);
    Ok(Next::Follow)
}

/// VERR.
#[tactic(auto, using(mdl_state::specs::Rules::attempts), unfolding(mdl_effect::specs::ProtectionEffects::verr_plan))]
fn verify_read<L: Linear>(regs: &mut Regs, lin: &mut L, insn: &Insn) -> Result<Next, Fault>
    requires place { is_place insn.now.a ≡ true }
    requires form { IsOf B2 insn.now.a }
    requires address { HasAddress insn.now.a }
    ensures run { (ran result regs.new, L.seen lin.new)
        ≡ tried (by_pick L.pick) 0 (verr_plan insn.now regs.old) (L.seen lin.old) }
    ensures unchanged { OnErr result (regs.new ≡ regs.old) }
    ensures keeps { Keeps (L.seen lin.old) (L.seen lin.new) }
{
    let sel = read_word(regs, lin, &insn.a)?;
    let good = verr(regs, lin, sel as u16)?;
    set_zero(regs, good);
    Ok(Next::Follow)
}

/// VERW.
#[tactic(auto, using(mdl_state::specs::Rules::attempts), unfolding(mdl_effect::specs::ProtectionEffects::verw_plan))]
fn verify_write<L: Linear>(regs: &mut Regs, lin: &mut L, insn: &Insn) -> Result<Next, Fault>
    requires place { is_place insn.now.a ≡ true }
    requires form { IsOf B2 insn.now.a }
    requires address { HasAddress insn.now.a }
    ensures run { (ran result regs.new, L.seen lin.new)
        ≡ tried (by_pick L.pick) 0 (verw_plan insn.now regs.old) (L.seen lin.old) }
    ensures unchanged { OnErr result (regs.new ≡ regs.old) }
    ensures keeps { Keeps (L.seen lin.old) (L.seen lin.new) }
{
    let sel = read_word(regs, lin, &insn.a)?;
    let good = verw(regs, lin, sel as u16)?;
    set_zero(regs, good);
    Ok(Next::Follow)
}

/// A selector with its RPL raised to that of another one, and ZF.
fn raise(regs: &mut Regs, dest: u16, source: u16) -> u16
    ensures value { result ≡ (raised regs.old dest (arpl dest source)).value }
    ensures flags { regs.new ≡ (raised regs.old dest (arpl dest source)).regs }
{
    match arpl(dest, source) {
        Some(selector) => {
            set_zero(regs, true);
            selector
        }
        None => {
            set_zero(regs, false);
            dest
        }
    }
}

/// ARPL. Memory is opened for writing, and written, also where the selector stays.
#[tactic(auto, using(mdl_state::specs::Rules::attempts), unfolding(mdl_effect::specs::ProtectionEffects::arpl_plan, mdl_effect::specs::Operands::memory_change))]
fn adjust_level<L: Linear>(regs: &mut Regs, lin: &mut L, insn: &Insn) -> Result<Next, Fault>
    requires place { is_place insn.now.a ≡ true }
    requires form { IsOf B2 insn.now.a }
    requires address { HasAddress insn.now.a }
    requires source { IsOf B2 insn.now.b }
    requires room { HasRoom (L.seen lin.old) 6 }
    ensures run { (ran result regs.new, L.seen lin.new)
        ≡ tried (by_pick L.pick) 0 (arpl_plan insn.now regs.old) (L.seen lin.old) }
    ensures unchanged { OnErr result (regs.new ≡ regs.old) }
    ensures keeps { Keeps (L.seen lin.old) (L.seen lin.new) }
{
    let source = value(regs, &insn.b, Size::B2) as u16;
    match &insn.a {
        Operand::At(mem, _) => {
            let at = check(regs, mem.seg, address(regs, mem), Size::B2, true)?;
            let place = lin.translate(at, Size::B2, Access::Write(who(regs)))?;
            let dest = lin.get(place, Size::B2) as u16;
            let selector = raise(regs, dest, source);
            lin.hold(place, Size::B2, selector as u32);
        }
        _ => {
            let dest = value(regs, &insn.a, Size::B2) as u16;
            let selector = raise(regs, dest, source);
            set(regs, &insn.a, Size::B2, selector as u32);
        }
    }
    Ok(Next::Follow)
}

/// SLDT.
#[tactic(auto, unfolding(mdl_effect::specs::ProtectionEffects::sldt_plan))]
fn store_ldt<L: Linear>(regs: &mut Regs, lin: &mut L, insn: &Insn) -> Result<Next, Fault>
    requires size { insn.now.size ≢ B1 }
    requires place { is_place insn.now.a ≡ true }
    requires form { IsOf B2 insn.now.a }
    requires address { HasAddress insn.now.a }
    requires room { HasRoom (L.seen lin.old) 6 }
    ensures run { (ran result regs.new, L.seen lin.new)
        ≡ tried (by_pick L.pick) 0 (sldt_plan insn.now regs.old) (L.seen lin.old) }
    ensures unchanged { OnErr result (regs.new ≡ regs.old) }
    ensures keeps { Keeps (L.seen lin.old) (L.seen lin.new) }
{
    let sel = regs.ldtr.sel as u32;
    store_word(regs, lin, insn, sel)
}

/// STR.
#[tactic(auto, unfolding(mdl_effect::specs::ProtectionEffects::str_plan))]
fn store_task<L: Linear>(regs: &mut Regs, lin: &mut L, insn: &Insn) -> Result<Next, Fault>
    requires size { insn.now.size ≢ B1 }
    requires place { is_place insn.now.a ≡ true }
    requires form { IsOf B2 insn.now.a }
    requires address { HasAddress insn.now.a }
    requires room { HasRoom (L.seen lin.old) 6 }
    ensures run { (ran result regs.new, L.seen lin.new)
        ≡ tried (by_pick L.pick) 0 (str_plan insn.now regs.old) (L.seen lin.old) }
    ensures unchanged { OnErr result (regs.new ≡ regs.old) }
    ensures keeps { Keeps (L.seen lin.old) (L.seen lin.new) }
{
    let sel = regs.tr.sel as u32;
    store_word(regs, lin, insn, sel)
}

/// LLDT.
#[tactic(auto, using(mdl_state::specs::Rules::attempts), unfolding(mdl_effect::specs::ProtectionEffects::lldt_plan))]
fn load_local_table<L: Linear>(regs: &mut Regs, lin: &mut L, insn: &Insn) -> Result<Next, Fault>
    requires place { is_place insn.now.a ≡ true }
    requires form { IsOf B2 insn.now.a }
    requires address { HasAddress insn.now.a }
    ensures run { (ran result regs.new, L.seen lin.new)
        ≡ tried (by_pick L.pick) 0 (lldt_plan insn.now regs.old) (L.seen lin.old) }
    ensures unchanged { OnErr result (regs.new ≡ regs.old) }
    ensures keeps { Keeps (L.seen lin.old) (L.seen lin.new) }
{
    if regs.cpl != 0 {
        return Err(general_protection(0));
    }
    let sel = read_word(regs, lin, &insn.a)?;
    load_ldt(regs, lin, sel as u16)?;
    Ok(Next::Follow)
}

/// LTR.
#[tactic(auto, using(mdl_state::specs::Rules::attempts), unfolding(mdl_effect::specs::ProtectionEffects::ltr_plan))]
fn load_task_register<L: Linear>(regs: &mut Regs, lin: &mut L, insn: &Insn) -> Result<Next, Fault>
    requires place { is_place insn.now.a ≡ true }
    requires form { IsOf B2 insn.now.a }
    requires address { HasAddress insn.now.a }
    requires room { HasRoom (L.seen lin.old) 6 }
    ensures run { (ran result regs.new, L.seen lin.new)
        ≡ tried (by_pick L.pick) 0 (ltr_plan insn.now regs.old) (L.seen lin.old) }
    ensures unchanged { OnErr result (regs.new ≡ regs.old) }
    ensures keeps { Keeps (L.seen lin.old) (L.seen lin.new) }
{
    if regs.cpl != 0 {
        return Err(general_protection(0));
    }
    let sel = read_word(regs, lin, &insn.a)?;
    load_task(regs, lin, sel as u16)?;
    Ok(Next::Follow)
}

/// One of these instructions. Real mode and V86 have none of them.
#[rattlefmt::skip]
pub(crate) fn run_protected<L: Linear>(regs: &mut Regs, lin: &mut L, insn: &Insn) -> Result<Next, Fault>
    requires only { is_protected_only insn.now.op ≡ true }
    requires formed { IsFormed insn.now }
    requires first { HasAddress insn.now.a }
    requires second { HasAddress insn.now.b }
    requires room { HasRoom (L.seen lin.old) 6 }
    ensures run { (ran result regs.new, L.seen lin.new)
        ≡ tried (by_pick L.pick) 0 (protected_plan insn.now.op insn.now regs.old) (L.seen lin.old) }
    ensures unchanged { OnErr result (regs.new ≡ regs.old) }
    ensures keeps { Keeps (L.seen lin.old) (L.seen lin.new) }
{
    if !is_protected(regs) {
        return Err(no_such());
    }
    match insn.op {
        Op::Arpl => adjust_level(regs, lin, insn),
        Op::Lar => show_rights(regs, lin, insn),
        Op::Lsl => show_limit(regs, lin, insn),
        Op::Verr => verify_read(regs, lin, insn),
        Op::Verw => verify_write(regs, lin, insn),
        Op::Sldt => store_ldt(regs, lin, insn),
        Op::Str => store_task(regs, lin, insn),
        Op::Lldt => load_local_table(regs, lin, insn),
        Op::Ltr => load_task_register(regs, lin, insn),
        _ => unreachable!(),
    }
}
