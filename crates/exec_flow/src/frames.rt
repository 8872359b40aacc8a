//! Frames of procedures: ENTER and LEAVE.

ghost use Rattle.std.specs.Prelude.{◌≡◌, ◌<◌, ◌≤◌, ◌+◌, ◌*◌, ℕ, length, OnOk, OnErr};
ghost use Rattle.mdl_state.specs.declared.Size.TheVariants.{B1, B2};
ghost use Rattle.mdl_state.specs.Bytes.{bound_of};
ghost use Rattle.mdl_state.specs.State.{Mem};
ghost use Rattle.mdl_state.specs.Serving.{Serve, by_pick};
ghost use Rattle.mdl_state.specs.Accesses.{Keeps, HasRoom};
ghost use Rattle.mdl_state.specs.Attempt.{tried};
ghost use Rattle.mdl_cpu.specs.Loads.{answered};
ghost use Rattle.mdl_effect.specs.StackEffects.{below_frame, copy_frames, push_frames, allowing_top, enter_plan, leave_plan};
ghost use Rattle.mdl_effect.specs.Forms.{IsOf};
ghost use Rattle.operands.specs.Whole.{whole, ran};

use mdl_insn::Insn;
use mdl_num::{bound, low};
use mdl_state::{Fault, Next, Regs, Seg, Size};
use mem_iface::{Linear, bytes_of};
use operands::{
    FRAME, STACK, below_top, load, pop, push, reg, set_reg, set_top, stack_size, stack_top, value,
};
use seg_unit::check;

/// ENTER takes its level modulo this.
const LEVELS: u32 = 32;

/// The offset so many numbers below the frame pointer.
fn below_frame(regs: &Regs, size: Size, count: u32) -> u32
    requires { count ≤ 32 }
    ensures { (flags : ℕ) → result ≡ below_frame (whole regs.now flags) size count }
{
    let stack = stack_size(regs);
    let bytes = bytes_of(size) * count;
    low(
        reg(regs, FRAME, stack) as u64 + (bound(stack) - bytes as u64),
        stack,
    )
}

/// The frame pointers of so many outer levels, read by the old frame pointer and pushed.
#[tactic(auto, using(mdl_state::specs::Rules::attempts, crate::proofs::Levels::levels))]
fn copy_frames<L: Linear>(
    old: &Regs,
    regs: &mut Regs,
    lin: &mut L,
    size: Size,
    from: u32,
    count: u32,
) -> Result<(), Fault>
    requires levels { from + count ≤ 32 }
    requires room { HasRoom (L.seen lin.old) (4 * count) }
    ensures run { (flags : ℕ) → (answered result (whole regs.new flags), L.seen lin.new)
        ≡ tried (by_pick L.pick) 0 (copy_frames (whole old.now flags) (whole regs.old flags) size from count) (L.seen lin.old) }
    ensures keeps { Keeps (L.seen lin.old) (L.seen lin.new) }
    ensures room { OnOk result (length (L.seen lin.new).held ≤ length (L.seen lin.old).held + 4 * count) }
{
    if count == 0 {
        return Ok(());
    }
    let value = load(regs, lin, Seg::Ss, below_frame(old, size, from), size)?;
    push(regs, lin, size, value)?;
    copy_frames(old, regs, lin, size, from + 1, count - 1)?;
    Ok(())
}

/// The frame pointers of the levels between, and the new one. At level 0 there is none.
#[tactic(auto, using(mdl_state::specs::Rules::attempts, crate::proofs::Levels::levels))]
fn push_frames<L: Linear>(
    old: &Regs,
    regs: &mut Regs,
    lin: &mut L,
    size: Size,
    frame: u32,
    level: u32,
) -> Result<(), Fault>
    requires level { level < 32 }
    requires bound { frame < bound_of size }
    requires room { HasRoom (L.seen lin.old) (4 * level) }
    ensures run { (flags : ℕ) → (answered result (whole regs.new flags), L.seen lin.new)
        ≡ tried (by_pick L.pick) 0 (push_frames (whole old.now flags) (whole regs.old flags) size frame level) (L.seen lin.old) }
    ensures keeps { Keeps (L.seen lin.old) (L.seen lin.new) }
{
    if level == 0 {
        return Ok(());
    }
    copy_frames(old, regs, lin, size, 1, level - 1)?;
    push(regs, lin, size, frame)?;
    Ok(())
}

/// ENTER ends here: the byte at the stack pointer must be one that SS allows to be written.
#[tactic(auto, using(operands::proofs::Modes::modes))]
fn allow_top(regs: &Regs) -> Result<Next, Fault>
    ensures { (flags : ℕ) (serve : Serve) (m : Mem) → (ran result (whole regs.now flags), m)
        ≡ tried serve 0 (allowing_top (whole regs.now flags)) m }
{
    check(regs, Seg::Ss, stack_top(regs), Size::B1, true)?;
    Ok(Next::Follow)
}

/// ENTER. The new stack pointer is tested last.
#[tactic(auto, using(mdl_state::specs::Rules::attempts), unfolding(mdl_effect::specs::StackEffects::enter_plan))]
#[inline(never)]
pub(crate) fn enter<L: Linear>(regs: &mut Regs, lin: &mut L, insn: &Insn) -> Result<Next, Fault>
    requires bytes { IsOf B2 insn.now.a }
    requires level { IsOf B1 insn.now.b }
    requires room { HasRoom (L.seen lin.old) 128 }
    ensures run { (flags : ℕ) → (ran result (whole regs.new flags), L.seen lin.new)
        ≡ tried (by_pick L.pick) 0 (enter_plan insn.now (whole regs.old flags)) (L.seen lin.old) }
    ensures unchanged { OnErr result (regs.new ≡ regs.old) }
    ensures keeps { Keeps (L.seen lin.old) (L.seen lin.new) }
{
    let size = insn.size;
    let bytes = value(regs, &insn.a, Size::B2);
    let level = value(regs, &insn.b, Size::B1) % LEVELS;
    let mut moved = *regs;
    push(&mut moved, lin, size, reg(regs, FRAME, size))?;
    let frame = reg(&moved, STACK, size);
    push_frames(regs, &mut moved, lin, size, frame, level)?;
    let top = below_top(&moved, bytes);
    set_top(&mut moved, top);
    set_reg(&mut moved, FRAME, size, frame);
    let next = allow_top(&moved)?;
    *regs = moved;
    Ok(next)
}

/// LEAVE.
#[tactic(auto, using(mdl_state::specs::Rules::attempts), unfolding(mdl_effect::specs::StackEffects::leave_plan))]
#[inline(never)]
pub(crate) fn leave<L: Linear>(regs: &mut Regs, lin: &mut L, insn: &Insn) -> Result<Next, Fault>
    ensures run { (flags : ℕ) → (ran result (whole regs.new flags), L.seen lin.new)
        ≡ tried (by_pick L.pick) 0 (leave_plan insn.now (whole regs.old flags)) (L.seen lin.old) }
    ensures unchanged { OnErr result (regs.new ≡ regs.old) }
    ensures keeps { Keeps (L.seen lin.old) (L.seen lin.new) }
{
    let mut moved = *regs;
    set_top(&mut moved, reg(regs, FRAME, stack_size(regs)));
    let frame = pop(&mut moved, lin, insn.size)?;
    set_reg(&mut moved, FRAME, insn.size, frame);
    *regs = moved;
    Ok(Next::Follow)
}
