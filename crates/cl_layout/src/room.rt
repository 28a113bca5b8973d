//! The room that members take (N1570 6.7.2.1).

ghost use Rattle.std.specs.Prelude.{◌≡◌, ◌≤◌, ◌^◌, max, Some, true};
ghost use Rattle.cl_layout.specs.declared.layout.Layout.TheVariants as make;
ghost use Rattle.cl_layout.specs.Layouts.{emptied, extent, field_start, filled, finished, begins, is_small, is_unsized, member_over, round_up, start, taken_to};

use crate::layout::{LARGEST, Layout, over, within};
use cl_types::{CType, Length};

/// What the members so far take: up to this bit, from 0, with this alignment in bytes.
#[derive(Clone, Copy)]
pub struct Room {
    pub bits: u128,
    pub align: u64,
}

/// The next multiple of a unit from there on.
fn round_up(bit: u128, unit: u128) -> u128
    requires bit { bit ≤ 2 ^ 67 }
    requires unit { unit ≤ 2 ^ 67 }
    ensures value { result ≡ round_up bit unit }
    ensures small { result ≤ 2 ^ 68 }
{
    if unit == 0 {
        bit
    } else {
        (bit + (unit - 1)) / unit * unit
    }
}

/// Where a bit-field begins: it stays if it crosses no multiple of its type's bits there.
fn field_start(bit: u128, unit: u128, width: u64) -> u128
    requires bit { bit ≤ 2 ^ 67 }
    requires unit { unit ≤ 2 ^ 67 }
    ensures value { result ≡ field_start bit unit width }
    ensures small { result ≤ 2 ^ 68 }
{
    if unit == 0 {
        return bit;
    }
    let stays = 0 < width && bit % unit + u128::from(width) <= unit;
    if stays { bit } else { round_up(bit, unit) }
}

/// Where a member begins that comes next behind this bit.
pub fn start(bit: u128, size: u64, align: u64, width: Option<u64>) -> u128
    requires { bit ≤ 2 ^ 67 }
    ensures value { result ≡ start bit size align width }
    ensures small { result ≤ 2 ^ 68 }
{
    match width {
        None => round_up(bit, 8 * u128::from(align)),
        Some(width) => field_start(bit, 8 * u128::from(size), width),
    }
}

/// How many bits a member takes.
fn extent(size: u64, width: Option<u64>) -> u128
    ensures value { result ≡ extent size width }
    ensures small { result ≤ 2 ^ 67 }
{
    match width {
        None => 8 * u128::from(size),
        Some(width) => u128::from(width),
    }
}

fn larger(a: u128, b: u128) -> u128
    ensures { result ≡ max a b }
{
    if a < b { b } else { a }
}

fn taken_to(union: bool, bits: u128, size: u64, align: u64, width: Option<u64>) -> u128
    requires { bits ≤ 2 ^ 67 }
    ensures { result ≡ taken_to union bits size align width }
{
    if union {
        larger(bits, extent(size, width))
    } else {
        start(bits, size, align, width) + extent(size, width)
    }
}

/// Whether the members so far leave room in an object.
fn is_small(room: Room) -> bool
    ensures { result ≡ is_small room }
{
    room.bits <= 8 * u128::from(LARGEST)
}

/// The room with one more member.
pub fn filled(union: bool, room: Option<Room>, layout: Layout, width: Option<u64>) -> Option<Room>
    ensures { result ≡ filled union room layout width }
{
    let room = room?;
    match layout {
        Layout::Known { size, align } => with_member(union, room, size, align, width),
        _ => None,
    }
}

fn with_member(union: bool, room: Room, size: u64, align: u64, width: Option<u64>) -> Option<Room>
    ensures { result ≡ filled union (Some room) (make.Known size align) width }
{
    if is_small(room) {
        Some(Room {
            bits: taken_to(union, room.bits, size, align, width),
            align: larger_align(room.align, align),
        })
    } else {
        None
    }
}

/// Where the next member begins, in bits, behind this room. None comes where that isn't known.
pub fn begins(union: bool, room: Option<Room>, layout: Layout, width: Option<u64>) -> Option<u128>
    ensures { result ≡ begins union room layout width }
{
    let room = room?;
    match layout {
        Layout::Known { size, align } => first_bit(union, room, size, align, width),
        _ => None,
    }
}

fn first_bit(union: bool, room: Room, size: u64, align: u64, width: Option<u64>) -> Option<u128>
    ensures { result ≡ begins union (Some room) (make.Known size align) width }
{
    if !is_small(room) {
        None
    } else if union {
        Some(0)
    } else {
        Some(start(room.bits, size, align, width))
    }
}

fn larger_align(a: u64, b: u64) -> u64
    ensures { result ≡ max a b }
{
    if a < b { b } else { a }
}

/// The layout of a structure or union whose members take this room: its size is rounded up to its alignment.
pub fn finished(room: Option<Room>) -> Layout
    ensures { result ≡ finished room }
{
    match room {
        Some(room) => closed(room),
        None => Layout::Unknown,
    }
}

fn closed(room: Room) -> Layout
    ensures { result ≡ finished (Some room) }
{
    if !is_small(room) {
        return Layout::Unknown;
    }
    let size = round_up(room.bits, 8 * u128::from(room.align)) / 8;
    if size <= u128::from(LARGEST) {
        within(size as u64, room.align)
    } else {
        Layout::Unknown
    }
}

fn emptied(layout: Layout) -> Layout
    ensures { result ≡ emptied layout }
{
    match layout {
        Layout::Known { align, .. } => Layout::Known { size: 0, align },
        _ => Layout::Unknown,
    }
}

fn is_unsized(length: Length) -> bool
    ensures { result ≡ is_unsized length }
{
    match length {
        Length::Unsized => true,
        _ => false,
    }
}

/// The layout of a last member: an array without a length has no bytes, and the alignment of its elements (6.7.2.1p18).
fn last_over(inner: Layout, t: &CType) -> Layout
    ensures { result ≡ member_over inner true t.now }
{
    match t {
        CType::Array(element, length) => {
            if is_unsized(*length) {
                emptied(over(inner, element.get()))
            } else {
                over(inner, t)
            }
        }
        _ => over(inner, t),
    }
}

/// A member's layout, where that of the structure or union that its type is made of is known.
pub fn member_over(inner: Layout, last: bool, t: &CType) -> Layout
    ensures { result ≡ member_over inner last t.now }
{
    if last {
        last_over(inner, t)
    } else {
        over(inner, t)
    }
}
