//! The machine status word, the low word of CR0: SMSW, LMSW and CLTS.

ghost use Rattle.std.specs.Prelude.{◌≡◌, ◌≢◌, true, OnErr};
ghost use Rattle.mdl_state.specs.declared.Size.TheVariants.{B1, B2};
ghost use Rattle.mdl_state.specs.declared.Regs.{Regs};
ghost use Rattle.mdl_state.specs.State.{Mem};
ghost use Rattle.mdl_state.specs.Serving.{Serve, by_pick};
ghost use Rattle.mdl_state.specs.Accesses.{Keeps, HasRoom};
ghost use Rattle.mdl_state.specs.Attempt.{tried};
ghost use Rattle.mdl_cpu.specs.Addresses.{HasAddress};
ghost use Rattle.mdl_effect.specs.Kinds.{is_place};
ghost use Rattle.mdl_effect.specs.Forms.{IsOf};
ghost use Rattle.mdl_effect.specs.ControlEffects.{with_status_word, store_status_word_plan, load_status_word_plan, clear_task_switched_plan};
ghost use Rattle.operands.specs.Whole.{ran};

use crate::control::{EMULATION, MONITOR, PROTECTION, TASK_SWITCHED, with_bit_of};
use crate::words::{read_word, store_word};
use mdl_insn::Insn;
use mdl_num::{bit, with_bit};
use mdl_state::{Fault, Next, Regs};
use mem_iface::Linear;
use operands::general_protection;

/// SMSW.
#[tactic(auto, unfolding(mdl_effect::specs::ControlEffects::store_status_word_plan))]
pub(crate) fn store_status_word<L: Linear>(
    regs: &mut Regs,
    lin: &mut L,
    insn: &Insn,
) -> Result<Next, Fault>
    requires size { insn.now.size ≢ B1 }
    requires place { is_place insn.now.a ≡ true }
    requires form { IsOf B2 insn.now.a }
    requires address { HasAddress insn.now.a }
    requires room { HasRoom (L.seen lin.old) 6 }
    ensures run { (ran result regs.new, L.seen lin.new)
        ≡ tried (by_pick L.pick) 0 (store_status_word_plan insn.now regs.old) (L.seen lin.old) }
    ensures unchanged { OnErr result (regs.new ≡ regs.old) }
    ensures keeps { Keeps (L.seen lin.old) (L.seen lin.new) }
{
    let word = regs.cr0 % 0x1_0000;
    store_word(regs, lin, insn, word)
}

/// CR0 with the bits of a machine status word. PE is never cleared.
#[tactic(auto, unfolding(mdl_num::specs::Flags::is_set))]
fn with_status_word(cr0: u32, word: u32) -> u32
    ensures { (r : Regs) → r.cr0 ≡ cr0 → record r { cr0 = result } ≡ with_status_word r word }
{
    let protection = if bit(word, PROTECTION) {
        with_bit_of(word, cr0, PROTECTION)
    } else {
        cr0
    };
    let monitor = with_bit_of(word, protection, MONITOR);
    let emulation = with_bit_of(word, monitor, EMULATION);
    with_bit_of(word, emulation, TASK_SWITCHED)
}

/// LMSW.
#[tactic(auto, using(mdl_state::specs::Rules::attempts), unfolding(mdl_effect::specs::ControlEffects::load_status_word_plan))]
pub(crate) fn load_status_word<L: Linear>(
    regs: &mut Regs,
    lin: &mut L,
    insn: &Insn,
) -> Result<Next, Fault>
    requires place { is_place insn.now.a ≡ true }
    requires form { IsOf B2 insn.now.a }
    requires address { HasAddress insn.now.a }
    ensures run { (ran result regs.new, L.seen lin.new)
        ≡ tried (by_pick L.pick) 0 (load_status_word_plan insn.now regs.old) (L.seen lin.old) }
    ensures unchanged { OnErr result (regs.new ≡ regs.old) }
    ensures keeps { Keeps (L.seen lin.old) (L.seen lin.new) }
{
    if regs.cpl != 0 {
        return Err(general_protection(0));
    }
    let word = read_word(regs, lin, &insn.a)?;
    regs.cr0 = with_status_word(regs.cr0, word);
    Ok(Next::Follow)
}

/// CLTS.
#[tactic(auto, unfolding(mdl_effect::specs::ControlEffects::clear_task_switched_plan))]
pub(crate) fn clear_task_switched(regs: &mut Regs) -> Result<Next, Fault>
    ensures run { (serve : Serve) (m : Mem) → (ran result regs.new, m) ≡ tried serve 0 (clear_task_switched_plan regs.old) m }
    ensures unchanged { OnErr result (regs.new ≡ regs.old) }
{
    if regs.cpl != 0 {
        return Err(general_protection(0));
    }
    regs.cr0 = with_bit(regs.cr0, TASK_SWITCHED, false);
    Ok(Next::Follow)
}
