//! The machine's RAM, as a list of bytes.
//!
//! The one contract used above: `load` and `store` are `number_at` and `with_bytes` of that list.
//! Read `mdl_state/specs/Bytes.antt` first. RAM is one block by a raw pointer, freed at its end.
#![tactic(auto)]

mod block;
mod ram;

pub use ram::Ram;

#[cfg(test)]
mod tests {
    use super::*;
    use mdl_state::Size;
    use std::test::Fail;

    // Manual, chapter 2: the byte at the lowest address is the least significant one.
    #[test]
    fn a_doubleword_lies_with_its_lowest_byte_first(rt: HostRuntime) -> Result<(), Fail> {
        let mut ram = Ram::new(rt.alloc(), 8)?;
        ram.store(1, Size::B4, 0x7AFE0636);
        for (at, size, number) in [
            (0, Size::B1, 0x00),
            (1, Size::B1, 0x36),
            (3, Size::B2, 0x7AFE),
            (2, Size::B2, 0xFE06),
            (4, Size::B4, 0x7A),
        ] {
            assert_eq!(rt; ram.load(at, size), number, "at {at}");
        }
        assert_eq!(rt; ram.load_eight(0), 0x7AFE063600);
        Ok(())
    }
}
