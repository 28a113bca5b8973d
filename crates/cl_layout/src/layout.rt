//! Layouts of types, where that of the structure or union that they are made of is known (N1570 6.2.5, 6.2.8).

ghost use Rattle.std.specs.Prelude.{◌≡◌, ◌≤◌, IfOk};
ghost use Rattle.cl_layout.specs.Layouts.{array_layout, bytes, of_basic, over, repeated, scalar, tagged, unsized, within};

use cl_types::{Basic, CType, Length, TagWord, basic_of};

/// The layout of a type, in bytes. `Unknown`: it is a function, or it holds a type in error or an array length that isn't
/// constant, pointers and functions aside, or a member of incomplete type that is no last array without a length, or it has more than
/// 2^63 - 1 bytes. `Incomplete`: it is incomplete (6.2.5p19, p22).
#[derive(Clone, Copy)]
pub enum Layout {
    Known { size: u64, align: u64 },
    Unknown,
    Incomplete,
}

/// The most bytes of an object.
pub const LARGEST: u64 = 0x7fff_ffff_ffff_ffff;

/// The size of an arithmetic type, in bytes.
pub fn bytes(basic: Basic) -> u64
    ensures value { result ≡ bytes basic }
    ensures small { result ≤ 16 }
{
    match basic {
        Basic::Bool => 1,
        Basic::Char => 1,
        Basic::SChar => 1,
        Basic::UChar => 1,
        Basic::Short => 2,
        Basic::UShort => 2,
        Basic::Int => 4,
        Basic::UInt => 4,
        Basic::Float => 4,
        Basic::LDouble => 16,
        _ => 8,
    }
}

fn scalar(size: u64) -> Layout
    ensures { result ≡ scalar size }
{
    Layout::Known { size, align: size }
}

/// The layout of this size and alignment, if an object may be so large.
pub fn within(size: u64, align: u64) -> Layout
    ensures { result ≡ within size align }
{
    if size <= LARGEST {
        Layout::Known { size, align }
    } else {
        Layout::Unknown
    }
}

fn repeated(layout: Layout, count: u64) -> Layout
    ensures { result ≡ repeated layout count }
{
    match layout {
        Layout::Known { size, align } => match count.checked_mul(size) {
            Some(size) => within(size, align),
            None => Layout::Unknown,
        },
        other => other,
    }
}

fn unsized_layout(layout: Layout) -> Layout
    ensures { result ≡ unsized layout }
{
    match layout {
        Layout::Unknown => Layout::Unknown,
        _ => Layout::Incomplete,
    }
}

fn array_layout(length: Length, layout: Layout) -> Layout
    ensures { result ≡ array_layout length layout }
{
    match length {
        Length::Fixed(count) => repeated(layout, count),
        Length::Unsized => unsized_layout(layout),
        _ => Layout::Unknown,
    }
}

fn tagged(word: TagWord, inner: Layout) -> Layout
    ensures { result ≡ tagged word inner }
{
    match word {
        TagWord::Enum => scalar(4),
        _ => inner,
    }
}

/// The layout of a type, where that of the structure or union that it is made of is known.
pub fn over(inner: Layout, t: &CType) -> Layout
    ensures { result ≡ over inner t.now }
{
    match t {
        CType::Void => Layout::Incomplete,
        CType::Pointer(_) => scalar(8),
        CType::Array(within, length) => array_layout(*length, over(inner, within.get())),
        CType::Function(_, _) => Layout::Unknown,
        CType::Tag(_, word, _) => tagged(*word, inner),
        CType::Qualified(_, within) => over(inner, within.get()),
        CType::Atomic(within) => over(inner, within.get()),
        other => of_basic(basic_of(other)),
    }
}

fn of_basic(basic: Option<Basic>) -> Layout
    ensures { result ≡ of_basic basic }
{
    match basic {
        Some(basic) => scalar(bytes(basic)),
        None => Layout::Unknown,
    }
}
