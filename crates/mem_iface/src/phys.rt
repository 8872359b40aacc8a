//! Physical memory.

ghost use Rattle.std.specs.Prelude.{◌≡◌, ◌<◌, ◌≤◌};
ghost use Rattle.mdl_state.specs.State.{Physical};
ghost use Rattle.mdl_state.specs.Bytes.{bytes_of, bound_of};
ghost use Rattle.mdl_state.specs.Accesses.{KeepsPhysical};
ghost use Rattle.mem_iface.specs.Numbers.{loaded, stored, InPage};

use mdl_state::Size;

/// The number of bytes of a size.
pub fn bytes_of(size: Size) -> u32
    ensures value { result ≡ bytes_of size }
    ensures some { 1 ≤ result }
    ensures bound { result ≤ 4 }
{
    match size {
        Size::B1 => 1,
        Size::B2 => 2,
        Size::B4 => 4,
    }
}

/// Physical memory, by addresses as they are before the line A20. An access lies in one page.
pub trait Phys {
    /// What it is seen as.
    ghost seen: { Self → Physical };

    fn load(&self, at: u32, size: Size) -> u32
        requires { InPage at size }
        ensures value { result ≡ loaded (seen self.now) at size }
        ensures bound { result < bound_of size };

    fn store(&mut self, at: u32, size: Size, value: u32)
        requires page { InPage at size }
        requires bound { value < bound_of size }
        ensures stored { seen self.new ≡ stored (seen self.old) at size value }
        ensures keeps { KeepsPhysical (seen self.old) (seen self.new) };

    /// Sets the line A20.
    fn set_a20(&mut self, on: bool)
        ensures { seen self.new ≡ record (seen self.old) { a20 = on } };
}
