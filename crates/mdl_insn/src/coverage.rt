//! The opcode map, written out by hand from the manual, against the table.

ghost use Rattle.mdl_insn.specs.Fits.{IsEntry};

use crate::lookups::{member_entry, one_entry, two_entry};
use crate::rows::Entry;

// The first bytes that begin no row: 0F, the prefixes, D6 and F1.
const NO_ROW: [u8; 14] = [
    0x0f, 0x26, 0x2e, 0x36, 0x3e, 0x64, 0x65, 0x66, 0x67, 0xd6, 0xf0, 0xf1, 0xf2, 0xf3,
];

// The bytes behind 0F that have a row, from the first to the last of each stretch.
const BEHIND_0F: [(u8, u8); 11] = [
    (0x00, 0x03),
    (0x06, 0x06),
    (0x20, 0x23),
    (0x80, 0x9f),
    (0xa0, 0xa1),
    (0xa3, 0xa5),
    (0xa8, 0xa9),
    (0xab, 0xad),
    (0xaf, 0xaf),
    (0xb2, 0xb7),
    (0xba, 0xbf),
];

// The one-byte opcodes with a reg field for a second opcode, and the fields that have a row, 7 first.
const GROUPS: [(u8, u8); 17] = [
    (0x80, 0b1111_1111),
    (0x81, 0b1111_1111),
    (0x82, 0b1111_1111),
    (0x83, 0b1111_1111),
    (0x8f, 0b0000_0001),
    (0xc0, 0b1011_1111),
    (0xc1, 0b1011_1111),
    (0xc6, 0b0000_0001),
    (0xc7, 0b0000_0001),
    (0xd0, 0b1011_1111),
    (0xd1, 0b1011_1111),
    (0xd2, 0b1011_1111),
    (0xd3, 0b1011_1111),
    (0xf6, 0b1111_1101),
    (0xf7, 0b1111_1101),
    (0xfe, 0b0000_0011),
    (0xff, 0b0111_1111),
];

// The same behind 0F.
const GROUPS_BEHIND_0F: [(u8, u8); 3] = [
    (0x00, 0b0011_1111),
    (0x01, 0b0101_1111),
    (0xba, 0b1111_0000),
];

fn has_row(entry: &Entry) -> bool {
    !matches!(entry, Entry::Undefined)
}

fn is_group(entry: &Entry) -> bool {
    matches!(entry, Entry::Group(_))
}

fn members(entry: &Entry) -> u8
    requires { IsEntry entry.now }
{
    let mut found = 0;
    if let Entry::Group(group) = entry {
        for reg in 0..8u8 {
            if has_row(member_entry(*group, reg)) {
                found |= 1 << reg;
            }
        }
    }
    found
}

#[test]
fn each_opcode_of_the_map_has_a_row_and_no_other_byte_has(rt: HostRuntime) {
    for byte in 0..=255u8 {
        let mut behind = false;
        for (from, to) in BEHIND_0F {
            behind |= from <= byte && byte <= to;
        }
        assert_eq!(rt;
            has_row(one_entry(byte)),
            !NO_ROW.contains(&byte),
            "at {byte}"
        );
        assert_eq!(rt; has_row(two_entry(byte)), behind, "at 0F and {byte}");
    }
}

#[test]
fn each_group_has_the_members_of_the_map(rt: HostRuntime) {
    for byte in 0..=255u8 {
        let mut one = false;
        for (group, _) in GROUPS {
            one |= group == byte;
        }
        let mut two = false;
        for (group, _) in GROUPS_BEHIND_0F {
            two |= group == byte;
        }
        assert_eq!(rt; is_group(one_entry(byte)), one, "at {byte}");
        assert_eq!(rt; is_group(two_entry(byte)), two, "at 0F and {byte}");
    }
    for (byte, wanted) in GROUPS {
        assert_eq!(rt; members(one_entry(byte)), wanted, "at {byte}");
    }
    for (byte, wanted) in GROUPS_BEHIND_0F {
        assert_eq!(rt; members(two_entry(byte)), wanted, "at 0F and {byte}");
    }
}
