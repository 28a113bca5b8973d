//! Bytes in a line of a table: `\n`, `\r`, `\t`, `\\`, and `\x` with two hexadecimal digits.

use cl_base::Mem;
use std::alloc::Global;

/// What the bytes so far leave open.
#[derive(Clone, Copy, Drop)]
enum State {
    Plain,
    /// Behind a backslash.
    Escaped,
    /// Behind `\x`.
    High,
    /// Behind `\x` and a digit of this value.
    Low(u8),
}

/// The bytes that a text stands for.
pub fn unescaped(alloc: Global, text: &str) -> Mem<Vec<u8>> {
    let mut bytes = Vec::new(alloc);
    let mut state = State::Plain;
    for byte in text.as_bytes() {
        state = unescape(&mut bytes, state, *byte)?;
    }
    Ok(bytes)
}

fn unescape(bytes: &mut Vec<u8>, state: State, byte: u8) -> Mem<State> {
    let one = match state {
        State::Plain => match byte {
            b'\\' => return Ok(State::Escaped),
            other => other,
        },
        State::Escaped => match byte {
            b'x' => return Ok(State::High),
            b'n' => b'\n',
            b'r' => b'\r',
            b't' => b'\t',
            other => other,
        },
        State::High => return Ok(State::Low(digit(byte))),
        State::Low(high) => high.wrapping_mul(16).wrapping_add(digit(byte)),
    };
    bytes.push(one)?;
    Ok(State::Plain)
}

fn digit(byte: u8) -> u8 {
    match byte {
        b'0'..=b'9' => byte - b'0',
        b'a'..=b'f' => byte - b'a' + 10,
        _ => 0,
    }
}

/// The text that stands for bytes.
pub fn escaped(alloc: Global, bytes: &[u8]) -> Mem<String> {
    let mut text = String::new(alloc);
    for byte in bytes {
        match *byte {
            b'\n' => text.push_str("\\n")?,
            b'\r' => text.push_str("\\r")?,
            b'\t' => text.push_str("\\t")?,
            b'\\' => text.push_str("\\\\")?,
            plain @ 0x20..=0x7e => text.push(plain as char)?,
            other => {
                text.push_str("\\x")?;
                text.push(hexadecimal(other / 16))?;
                text.push(hexadecimal(other % 16))?;
            }
        }
    }
    Ok(text)
}

fn hexadecimal(value: u8) -> char {
    match value {
        0..=9 => (b'0' + value) as char,
        10..=15 => (b'a' - 10 + value) as char,
        _ => '?',
    }
}
