//! Memory with the code that is fetched from it.

ghost use Rattle.std.specs.Prelude.{◌≡◌, IfSome};
ghost use Rattle.mdl_state.specs.declared.Seg.TheVariants.{Cs};
ghost use Rattle.mdl_state.specs.Registers.{seg_of};
ghost use Rattle.mdl_cpu.specs.Segments.{who_of};
ghost use Rattle.cpu_core.specs.Window.{Gives, HasEight, gives_low};

use mdl_insn::Fetch;
use mdl_state::{Access, Fault, Place, Regs, Seg, Size, Who};
use mem_iface::Linear;
use operands::general_protection;
use seg_unit::{segment, who};

/// Memory, and where in it the next byte of code stands: the base and the limit of CS, for whom it is
/// read, and its offset, which may lie past the last one.
#[derive(Drop)]
pub(crate) struct Code<L> {
    pub(crate) lin: L,
    base: u32,
    limit: u32,
    who: Who,
    offset: u64,
}

impl<L: Linear> Fetch for Code<L> {
    ghost gives = { λ s r t. Gives L.pick
        (record { base = s.base; limit = s.limit; who = s.who; offset = s.offset; mem = L.seen s.lin }) r
        (record { base = t.base; limit = t.limit; who = t.who; offset = t.offset; mem = L.seen t.lin }) };

    #[inline(always)]
    fn next(&mut self) -> Result<u8, Fault> {
        if self.offset > self.limit as u64 {
            return Err(general_protection(0));
        }
        let at = self.base.wrapping_add(self.offset as u32);
        let byte = self.lin.read(at, Size::B1, self.who)?;
        self.offset += 1;
        Ok(byte as u8)
    }
}

/// The memory as an instruction goes on with it.
impl<L: Linear> Linear for Code<L> {
    ghost seen = { λ s. L.seen s.lin };

    ghost pick = { L.pick };

    ghost policy = { L.policy };

    ghost meets = { L.meets };

    #[inline(always)]
    fn translate(&mut self, lin: u32, size: Size, access: Access) -> Result<Place, Fault> {
        self.lin.translate(lin, size, access)
    }

    #[inline(always)]
    fn get(&self, place: Place, size: Size) -> u32 {
        self.lin.get(place, size)
    }

    #[inline(always)]
    fn hold(&mut self, place: Place, size: Size, value: u32) {
        self.lin.hold(place, size, value);
    }

    #[inline(always)]
    fn read(&mut self, lin: u32, size: Size, who: Who) -> Result<u32, Fault> {
        self.lin.read(lin, size, who)
    }

    #[inline(always)]
    fn near(&self, lin: u32, who: Who) -> Option<u64> {
        self.lin.near(lin, who)
    }

    #[inline(always)]
    fn write(&mut self, lin: u32, size: Size, value: u32, who: Who) -> Result<(), Fault> {
        self.lin.write(lin, size, value, who)
    }

    fn room(&self) -> u16 {
        self.lin.room()
    }

    fn commit(&mut self) {
        self.lin.commit();
    }

    fn discard(&mut self) {
        self.lin.discard();
    }

    fn load_cr3(&mut self, value: u32) {
        self.lin.load_cr3(value);
    }

    fn set_paging(&mut self, on: bool) {
        self.lin.set_paging(on);
    }

    fn set_a20(&mut self, on: bool) {
        self.lin.set_a20(on);
    }

    fn walks(&self) -> u64 {
        self.lin.walks()
    }
}

/// Eight bytes of code, or as many as are left, the next one lowest.
#[derive(Drop)]
pub(crate) struct Eight {
    bytes: u64,
}

impl Fetch for Eight {
    ghost gives = { λ s r t. gives_low s.bytes r t.bytes };

    #[inline(always)]
    fn next(&mut self) -> Result<u8, Fault> {
        let byte = (self.bytes % 0x100) as u8;
        self.bytes /= 0x100;
        Ok(byte)
    }
}

impl Eight {
    pub(crate) fn new(bytes: u64) -> Eight
        ensures { result.bytes ≡ bytes }
    {
        Eight { bytes }
    }
}

impl<L: Linear> Code<L> {
    pub(crate) fn new(lin: L) -> Code<L>
        ensures { result.lin ≡ lin }
    {
        Code {
            lin,
            base: 0,
            limit: 0,
            who: Who::Supervisor,
            offset: 0,
        }
    }

    /// The eight bytes at CS:EIP, where they lie within the limit of CS and memory has them at hand.
    #[inline(always)]
    pub(crate) fn eight(&self, regs: &Regs) -> Option<u64>
        ensures { IfSome result (λ word. HasEight L.pick regs.now (L.seen self.now.lin) word) }
    {
        let code = segment(regs, Seg::Cs);
        if regs.eip as u64 + 7 > code.limit as u64 {
            return None;
        }
        match self.lin.near(code.base.wrapping_add(regs.eip), who(regs)) {
            Some(word) => Some(word),
            None => None,
        }
    }

    /// The next byte is that at CS:EIP.
    #[tactic(auto, unfolding(mdl_state::specs::Registers::seg_of))]
    pub(crate) fn start(&mut self, regs: &Regs)
        ensures base { self.new.base ≡ (seg_of regs.now Cs).base }
        ensures limit { self.new.limit ≡ (seg_of regs.now Cs).limit }
        ensures who { self.new.who ≡ who_of regs.now }
        ensures offset { self.new.offset ≡ regs.now.eip }
        ensures memory { self.new.lin ≡ self.old.lin }
    {
        let code = segment(regs, Seg::Cs);
        self.base = code.base;
        self.limit = code.limit;
        self.who = who(regs);
        self.offset = regs.eip as u64;
    }
}
