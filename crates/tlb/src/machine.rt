//! What the memory has.

ghost use Rattle.std.specs.Prelude.{◌≡◌};
ghost use Rattle.mdl_state.specs.Boot.{plain_mem};

use crate::held::Held;
use phys_map::PhysMap;
use std::marker::Model;

/// Behind the last address of eight bytes of conventional memory.
pub(crate) const DIRECT_END: u32 = 0xA0000 - 7;

/// Memory as the processor sees it. No page entry is kept. An access from an address below `direct` is
/// one of conventional memory as it stands: where paging is on, or something is held, there is none.
#[derive(Drop)]
pub struct Tlb {
    pub(crate) phys: PhysMap,
    pub(crate) paging: bool,
    pub(crate) cr3: u32,
    pub(crate) held: Held,
    pub(crate) walks: u64,
    pub(crate) direct: u32,
}

impl Model for Tlb {
    ghost use Rattle.std.specs.Prelude.{[]};
    ghost use Rattle.std.specs.FinMap.{empty};
    ghost use Rattle.mdl_state.specs.State.{Mem};
    ghost use Rattle.mdl_state.specs.Codes.{mem_code};
    ghost use Rattle.tlb.specs.Direct.{IsDirect};

    ghost Value = { Mem };

    ghost coded = { mem_code };

    ghost view = { λ s. record { physical = s.phys; paging = s.paging; cr3 = s.cr3; cache = empty; held = s.held; walks = s.walks; served = []; watch = []; hits = 0 } };

    ghost invariant = { λ s. IsDirect s.direct s.paging s.held };
}

impl Tlb {
    /// Paging is off, and nothing is held.
    pub fn new(phys: PhysMap) -> Tlb
        ensures { result ≡ plain_mem phys }
    {
        Tlb {
            phys,
            paging: false,
            cr3: 0,
            held: Held::new(),
            walks: 0,
            direct: DIRECT_END,
        }
    }

    /// Whether paging is on.
    pub fn is_paged(&self) -> bool
        ensures { result ≡ self.now.paging }
    {
        self.paging
    }

    /// CR3, as the walks have it.
    pub fn cr3(&self) -> u32
        ensures { result ≡ self.now.cr3 }
    {
        self.cr3
    }

    /// The memory map, as it is under what is held.
    pub fn phys(&self) -> &PhysMap
        ensures { result.now ≡ self.now.physical }
    {
        &self.phys
    }
}
