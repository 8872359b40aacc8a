//! The rows whose operands most instructions have, told by one byte each.

ghost use Rattle.std.specs.Prelude.{◌≡◌, ◌<◌, ◌+◌, ◌*◌, true, slice_index_or};
ghost use Rattle.mdl_insn.specs.Rows.{two_entry, member_entry};
ghost use Rattle.insn_decode.specs.Shapes.{is_row, lead_fits, shape_fits};

/// What stands at an opcode: a prefix, what leads to more opcodes, or a row, by its operands in the letters
/// of the manual's opcode map. `Once` is a count of 1.
#[derive(Clone, Copy)]
pub(crate) enum Shape {
    /// Any other row, or none.
    Odd,
    Prefix,
    /// 0F, the first of two.
    TwoBytes,
    Group,
    EbGb,
    EvGv,
    GbEb,
    GvEv,
    AlIb,
    AxIv,
    RbIb,
    RvIv,
    Rv,
    Jb,
    Jv,
    Bare,
    BareByte,
    GvEb,
    GvEw,
    GvM,
    Eb,
    Ev,
    EbIb,
    EvIb,
    EvIs,
    EvIv,
    EbOnce,
    EvOnce,
    EbCl,
    EvCl,
    AxOv,
    OvAx,
    AlOb,
    ObAl,
    IsNo,
    IvNo,
}

/// Whether a row of these operands stands there.
#[inline(always)]
pub(crate) fn is_row(shape: Shape) -> bool
    ensures { result ≡ is_row shape }
{
    match shape {
        Shape::Odd | Shape::Prefix | Shape::TwoBytes | Shape::Group => false,
        _ => true,
    }
}

macro_rules! shapes {
    ($($name:ident)*) => {
        [$(Shape::$name),*]
    };
}

/// Those of the one-byte opcodes.
#[rattlefmt::skip]
static ONE_BYTE: [Shape; 256] = shapes![
    EbGb EvGv GbEb GvEv AlIb AxIv Odd Odd
    EbGb EvGv GbEb GvEv AlIb AxIv Odd TwoBytes
    EbGb EvGv GbEb GvEv AlIb AxIv Odd Odd
    EbGb EvGv GbEb GvEv AlIb AxIv Odd Odd
    EbGb EvGv GbEb GvEv AlIb AxIv Prefix Bare
    EbGb EvGv GbEb GvEv AlIb AxIv Prefix Bare
    EbGb EvGv GbEb GvEv AlIb AxIv Prefix Bare
    EbGb EvGv GbEb GvEv AlIb AxIv Prefix Bare
    Rv Rv Rv Rv Rv Rv Rv Rv
    Rv Rv Rv Rv Rv Rv Rv Rv
    Rv Rv Rv Rv Rv Rv Rv Rv
    Rv Rv Rv Rv Rv Rv Rv Rv
    Bare Bare GvM Odd Prefix Prefix Prefix Prefix
    IvNo Odd IsNo Odd BareByte Bare BareByte Bare
    Jb Jb Jb Jb Jb Jb Jb Jb
    Jb Jb Jb Jb Jb Jb Jb Jb
    Group Group Group Group EbGb EvGv EbGb EvGv
    EbGb EvGv GbEb GvEv Odd GvM Odd Group
    Bare Odd Odd Odd Odd Odd Odd Odd
    Bare Bare Odd Bare Bare Bare Bare Bare
    AlOb AxOv ObAl OvAx BareByte Bare BareByte Bare
    AlIb AxIv BareByte Bare BareByte Bare BareByte Bare
    RbIb RbIb RbIb RbIb RbIb RbIb RbIb RbIb
    RvIv RvIv RvIv RvIv RvIv RvIv RvIv RvIv
    Group Group Odd Bare GvM GvM Group Group
    Odd Bare Odd Bare Bare Odd Bare Bare
    Group Group Group Group Odd Odd Odd Bare
    Odd Odd Odd Odd Odd Odd Odd Odd
    Jb Jb Jb Jb AlIb Odd Odd Odd
    Jv Jv Odd Jb Odd Odd Odd Odd
    Prefix Odd Prefix Prefix Bare Bare Group Group
    Bare Bare Bare Bare Bare Bare Group Group
];

/// Those of the opcodes behind 0F.
#[rattlefmt::skip]
static TWO_BYTES: [Shape; 256] = shapes![
    Group Group GvEw GvEw Odd Odd Bare Odd
    Odd Odd Odd Odd Odd Odd Odd Odd
    Odd Odd Odd Odd Odd Odd Odd Odd
    Odd Odd Odd Odd Odd Odd Odd Odd
    Odd Odd Odd Odd Odd Odd Odd Odd
    Odd Odd Odd Odd Odd Odd Odd Odd
    Odd Odd Odd Odd Odd Odd Odd Odd
    Odd Odd Odd Odd Odd Odd Odd Odd
    Odd Odd Odd Odd Odd Odd Odd Odd
    Odd Odd Odd Odd Odd Odd Odd Odd
    Odd Odd Odd Odd Odd Odd Odd Odd
    Odd Odd Odd Odd Odd Odd Odd Odd
    Odd Odd Odd Odd Odd Odd Odd Odd
    Odd Odd Odd Odd Odd Odd Odd Odd
    Odd Odd Odd Odd Odd Odd Odd Odd
    Odd Odd Odd Odd Odd Odd Odd Odd
    Jv Jv Jv Jv Jv Jv Jv Jv
    Jv Jv Jv Jv Jv Jv Jv Jv
    Eb Eb Eb Eb Eb Eb Eb Eb
    Eb Eb Eb Eb Eb Eb Eb Eb
    Odd Odd Odd EvGv Odd Odd Odd Odd
    Odd Odd Odd EvGv Odd Odd Odd GvEv
    Odd Odd GvM EvGv GvM GvM GvEb GvEw
    Odd Odd Group EvGv GvEv GvEv GvEb GvEw
    Odd Odd Odd Odd Odd Odd Odd Odd
    Odd Odd Odd Odd Odd Odd Odd Odd
    Odd Odd Odd Odd Odd Odd Odd Odd
    Odd Odd Odd Odd Odd Odd Odd Odd
    Odd Odd Odd Odd Odd Odd Odd Odd
    Odd Odd Odd Odd Odd Odd Odd Odd
    Odd Odd Odd Odd Odd Odd Odd Odd
    Odd Odd Odd Odd Odd Odd Odd Odd
];

/// Those of the members of groups.
#[rattlefmt::skip]
static GROUPS: [Shape; 152] = shapes![
    EbIb EbIb EbIb EbIb EbIb EbIb EbIb EbIb
    EvIv EvIv EvIv EvIv EvIv EvIv EvIv EvIv
    EvIs EvIs EvIs EvIs EvIs EvIs EvIs EvIs
    Ev Odd Odd Odd Odd Odd Odd Odd
    EbIb EbIb EbIb EbIb EbIb EbIb Odd EbIb
    EvIb EvIb EvIb EvIb EvIb EvIb Odd EvIb
    EbIb Odd Odd Odd Odd Odd Odd Odd
    EvIv Odd Odd Odd Odd Odd Odd Odd
    EbOnce EbOnce EbOnce EbOnce EbOnce EbOnce Odd EbOnce
    EvOnce EvOnce EvOnce EvOnce EvOnce EvOnce Odd EvOnce
    EbCl EbCl EbCl EbCl EbCl EbCl Odd EbCl
    EvCl EvCl EvCl EvCl EvCl EvCl Odd EvCl
    EbIb Odd Eb Eb Eb Eb Eb Eb
    EvIv Odd Ev Ev Ev Ev Ev Ev
    Eb Eb Odd Odd Odd Odd Odd Odd
    Ev Ev Ev Odd Ev Odd Ev Odd
    Odd Odd Odd Odd Odd Odd Odd Odd
    Odd Odd Odd Odd Odd Odd Odd Odd
    Odd Odd Odd Odd EvIb EvIb EvIb EvIb
];

#[inline(always)]
fn one_at(b: u8) -> Shape
    ensures { result ≡ slice_index_or ONE_BYTE b result }
{
    ONE_BYTE[b as usize]
}

/// What stands at a first byte.
#[inline(always)]
pub(crate) fn one_shape(b: u8) -> Shape
    ensures { lead_fits b result ≡ true }
{
    one_at(b)
}

#[inline(always)]
fn two_at(b: u8) -> Shape
    ensures { result ≡ slice_index_or TWO_BYTES b result }
{
    TWO_BYTES[b as usize]
}

/// What stands at the second byte behind 0F.
#[inline(always)]
pub(crate) fn two_shape(b: u8) -> Shape
    ensures { shape_fits (two_entry b) result ≡ true }
{
    two_at(b)
}

#[inline(always)]
fn member_at(n: u8) -> Shape
    requires { n < 152 }
    ensures { result ≡ slice_index_or GROUPS n result }
{
    GROUPS[n as usize]
}

/// The member of a group that a reg field chooses.
#[inline(always)]
pub(crate) fn member_shape(group: u8, reg: u8) -> Shape
    requires group { group < 19 }
    requires reg { reg < 8 }
    ensures { shape_fits (member_entry group reg) result ≡ true }
{
    member_at(8 * group + reg)
}
