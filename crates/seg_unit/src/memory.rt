//! Numbers in memory, by segment and offset.

ghost use Rattle.std.specs.Prelude.{◌≡◌, ◌<◌, ◌+◌, length, IfOk, OnOk, OnErr};
ghost use Rattle.mdl_state.specs.Bytes.{bytes_of, bound_of};
ghost use Rattle.mdl_state.specs.Serving.{by_pick, outcome};
ghost use Rattle.mdl_state.specs.Accesses.{Keeps, HasRoom};
ghost use Rattle.mdl_state.specs.Attempt.{tried};
ghost use Rattle.mdl_cpu.specs.Access.{load_from, store_to};

use crate::checks::check;
use crate::segments::who;
use mdl_state::{Fault, Regs, Seg, Size};
use mem_iface::Linear;

/// A number of a segment.
pub fn load<L: Linear>(
    regs: &Regs,
    lin: &mut L,
    seg: Seg,
    offset: u32,
    size: Size,
) -> Result<u32, Fault>
    ensures run { (outcome result, L.seen lin.new)
        ≡ tried (by_pick L.pick) 0 (load_from regs.now seg offset size) (L.seen lin.old) }
    ensures bound { IfOk result (λ value. value < bound_of size) }
    ensures keeps { Keeps (L.seen lin.old) (L.seen lin.new) }
    ensures held { (L.seen lin.new).held ≡ (L.seen lin.old).held }
{
    let at = check(regs, seg, offset, size, false)?;
    lin.read(at, size, who(regs))
}

/// A number put into a segment.
pub fn store<L: Linear>(
    regs: &Regs,
    lin: &mut L,
    seg: Seg,
    offset: u32,
    size: Size,
    value: u32,
) -> Result<(), Fault>
    requires bound { value < bound_of size }
    requires room { HasRoom (L.seen lin.old) (bytes_of size) }
    ensures run { (outcome result, L.seen lin.new)
        ≡ tried (by_pick L.pick) 0 (store_to regs.now seg offset size value) (L.seen lin.old) }
    ensures keeps { Keeps (L.seen lin.old) (L.seen lin.new) }
    ensures room { OnOk result (length (L.seen lin.new).held ≡ length (L.seen lin.old).held + bytes_of size) }
    ensures refused { OnErr result ((L.seen lin.new).held ≡ (L.seen lin.old).held) }
{
    let at = check(regs, seg, offset, size, true)?;
    lin.write(at, size, value, who(regs))?;
    Ok(())
}
