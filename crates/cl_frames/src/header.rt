ghost use Rattle.std.specs.Prelude.{◌≡◌, ◌≤◌, ◌<◌, ◌^◌};
ghost use Rattle.cl_base.specs.Faults.{HasCause};
ghost use Rattle.cl_frames.specs.Reading.{IsStage, StepsTo, TakesHeader};

use crate::next_byte::{Next, next_byte};
use crate::outside::Source;

/// The longest body of a frame, in bytes.
pub const LONGEST_BODY: u64 = 67_108_864;

/// The number of the byte that a session ends at, from 1.
pub(crate) const LAST_BYTE: u64 = 0x100_0000_0000;

/// What a header begins with.
const NAME: [u8; 16] = *b"Content-Length: ";

/// What a header ends with, after its digits.
const ENDING: [u8; 4] = *b"\r\n\r\n";

/// The most digits of a length.
const MOST_DIGITS: u64 = 8;

/// How far a header has come.
#[derive(Clone, Copy)]
pub(crate) enum Stage {
    /// So many bytes of its name, and not all.
    Name { at: usize },
    /// The name, and so many digits with this value.
    Length { digits: u64, value: u64 },
    /// The name, the digits and so many bytes of its ending, not all.
    Ending { at: usize, digits: u64, value: u64 },
}

/// What one byte more makes of a header.
#[derive(Clone, Copy)]
pub(crate) enum Step {
    /// It goes on.
    More(Stage),
    /// It is whole, and names a body of `size` bytes.
    Whole { digits: u64, size: u64 },
    /// No header begins so.
    Wrong,
}

/// What was found of a header.
#[derive(Clone, Copy)]
pub(crate) enum Header {
    /// A whole one, of 20 bytes and so many digits, that names a body of `size` bytes.
    Whole { digits: u64, size: u64 },
    /// The input had ended before it.
    End,
    /// The input ended within it.
    Short,
    /// No header begins so.
    Wrong,
    /// The source failed.
    Failed,
    /// The session's last byte came within it.
    Long,
}

/// Takes a header, byte by byte. `taken` counts the bytes of the session.
pub(crate) fn read_header<S: Source>(source: &mut S, taken: &mut u64) -> Header
    requires { taken.old < 2 ^ 40 }
    ensures told { TakesHeader taken.old taken.new (S.left source.old) (S.left source.new) result }
    ensures cause { HasCause (S.faults source.old) (S.faults source.new) (result ≡ Header.Failed) }
{
    let start = *taken;
    let mut stage = Stage::Name { at: 0 };
    'bytes: loop {
        let byte = match next_byte(source) {
            Next::Byte(byte) => byte,
            Next::End => return if *taken == start {
                Header::End
            } else {
                Header::Short
            },
            Next::Failed => return Header::Failed,
        };
        *taken += 1;
        if *taken == LAST_BYTE {
            return Header::Long;
        }
        match add_byte(stage, byte) {
            Step::More(next) => stage = next,
            Step::Whole { digits, size } => return Header::Whole { digits, size },
            Step::Wrong => return Header::Wrong,
        }
    }
}

/// One byte more of a header.
fn add_byte(stage: Stage, byte: u8) -> Step
    requires { IsStage stage }
    ensures { StepsTo stage byte result }
{
    match stage {
        Stage::Name { at } => add_to_name(at, byte),
        Stage::Length { digits, value } => add_to_length(digits, value, byte),
        Stage::Ending { at, digits, value } => add_to_ending(at, digits, value, byte),
    }
}

/// One byte more of the name.
fn add_to_name(at: usize, byte: u8) -> Step
    requires { at < 16 }
    ensures { StepsTo (Stage.Name at) byte result }
{
    if byte != NAME[at] {
        return Step::Wrong;
    }
    let stage = if at + 1 < NAME.len() {
        Stage::Name { at: at + 1 }
    } else {
        Stage::Length {
            digits: 0,
            value: 0,
        }
    };
    Step::More(stage)
}

/// One digit more, or the first byte of the ending.
fn add_to_length(digits: u64, value: u64, byte: u8) -> Step
    requires digits { digits ≤ 8 }
    requires value { value ≤ 67108864 }
    ensures { StepsTo (Stage.Length digits value) byte result }
{
    if byte.is_ascii_digit() {
        let value = value * 10 + (byte - b'0') as u64;
        if digits == MOST_DIGITS || value > LONGEST_BODY {
            return Step::Wrong;
        }
        return Step::More(Stage::Length {
            digits: digits + 1,
            value,
        });
    }
    if digits == 0 {
        return Step::Wrong;
    }
    add_to_ending(0, digits, value, byte)
}

/// One byte more of the ending.
fn add_to_ending(at: usize, digits: u64, value: u64, byte: u8) -> Step
    requires at { at < 4 }
    requires digits { digits ≤ 8 }
    requires value { value ≤ 67108864 }
    ensures { StepsTo (Stage.Ending at digits value) byte result }
{
    if byte != ENDING[at] {
        return Step::Wrong;
    }
    if at + 1 < ENDING.len() {
        return Step::More(Stage::Ending {
            at: at + 1,
            digits,
            value,
        });
    }
    Step::Whole {
        digits,
        size: value,
    }
}
