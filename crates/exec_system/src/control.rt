//! Control registers, and MOV to and from them and the debug registers.

ghost use Rattle.std.specs.Prelude.{◌≡◌, ◌<◌, ◌&&◌, not, [], ◌∷◌, OnErr};
ghost use Rattle.std.specs.Int.{bit_at};
ghost use Rattle.mdl_state.specs.Bytes.{bit};
ghost use Rattle.mdl_state.specs.State.{Mem};
ghost use Rattle.mdl_state.specs.Serving.{Serve};
ghost use Rattle.mdl_state.specs.Attempt.{tried};
ghost use Rattle.mdl_num.specs.Flags.{with_bit};
ghost use Rattle.mdl_effect.specs.ControlEffects.{with_bits_of, PE, MP, EM, TS, PG, control_register, set_control_plan, special_move_plan};
ghost use Rattle.mdl_effect.specs.Forms.{IsMove};
ghost use Rattle.operands.specs.Whole.{ran};

use crate::debug::{debug_register, set_debug_register};
use crate::registers::{set, value};
use mdl_insn::{Insn, Operand};
use mdl_num::{bit, with_bit};
use mdl_state::{Fault, Next, Regs, Size};
use operands::{general_protection, no_such};

/// The numbers of PE, MP, EM, TS and PG in CR0.
pub(crate) const PROTECTION: u8 = 0;

pub(crate) const MONITOR: u8 = 1;

pub(crate) const EMULATION: u8 = 2;

pub(crate) const TASK_SWITCHED: u8 = 3;

const PAGING: u8 = 31;

/// A number with a bit as another number has it.
#[tactic(auto, using(lazy_flags::proofs::Packing::bits))]
pub(crate) fn with_bit_of(from: u32, number: u32, place: u8) -> u32
    requires { place < 32 }
    ensures { result ≡ with_bit number place (bit_at from place) }
{
    with_bit(number, place, bit(from, place))
}

/// The bits of CR0 in a number.
fn cr0_of(value: u32) -> u32
    ensures { result ≡ with_bits_of value 0 (PE ∷ MP ∷ EM ∷ TS ∷ PG ∷ []) }
{
    let protection = with_bit_of(value, 0, PROTECTION);
    let monitor = with_bit_of(value, protection, MONITOR);
    let emulation = with_bit_of(value, monitor, EMULATION);
    let switched = with_bit_of(value, emulation, TASK_SWITCHED);
    with_bit_of(value, switched, PAGING)
}

/// A control register.
fn control_register(regs: &Regs, n: u8) -> u32
    ensures { result ≡ control_register regs.now n }
{
    match n {
        0 => regs.cr0,
        2 => regs.cr2,
        _ => regs.cr3,
    }
}

/// Whether a CR0 pages without protection.
#[tactic(auto, unfolding(mdl_num::specs::Flags::is_set))]
fn pages_unprotected(value: u32) -> bool
    ensures { result ≡ (bit value PG && not (bit value PE)) }
{
    bit(value, PAGING) && !bit(value, PROTECTION)
}

/// MOV to a control register.
fn set_control_register(regs: &mut Regs, n: u8, value: u32) -> Result<Next, Fault>
    ensures run { (serve : Serve) (m : Mem) → (ran result regs.new, m) ≡ tried serve 0 (set_control_plan n value regs.old) m }
    ensures unchanged { OnErr result (regs.new ≡ regs.old) }
{
    match n {
        0 => {
            if pages_unprotected(value) {
                return Err(general_protection(0));
            }
            regs.cr0 = cr0_of(value);
        }
        2 => regs.cr2 = value,
        _ => regs.cr3 = value,
    }
    Ok(Next::Follow)
}

/// MOV to and from control and debug registers.
#[tactic(auto, unfolding(mdl_effect::specs::ControlEffects::special_move_plan))]
pub(crate) fn move_special(regs: &mut Regs, insn: &Insn) -> Result<Next, Fault>
    requires form { IsMove insn.now.a insn.now.b insn.now.size }
    ensures run { (serve : Serve) (m : Mem) → (ran result regs.new, m) ≡ tried serve 0 (special_move_plan insn.now regs.old) m }
    ensures unchanged { OnErr result (regs.new ≡ regs.old) }
{
    if regs.cpl != 0 {
        return Err(general_protection(0));
    }
    match insn.a {
        Operand::Creg(n) => return set_control_register(regs, n, value(regs, &insn.b, Size::B4)),
        Operand::Dreg(n) => set_debug_register(regs, n, value(regs, &insn.b, Size::B4)),
        _ => match insn.b {
            Operand::Creg(n) => set(regs, &insn.a, Size::B4, control_register(regs, n)),
            Operand::Dreg(n) => set(regs, &insn.a, Size::B4, debug_register(regs, n)),
            _ => return Err(no_such()),
        },
    }
    Ok(Next::Follow)
}
