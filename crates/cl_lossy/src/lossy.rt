//! Bytes as text.

ghost use Rattle.std.specs.Prelude.{◌≡◌, IfOk, OnOk, ◌++◌, string_bytes};
ghost use Rattle.std.specs.Str.{IsUtf8};
ghost use Rattle.cl_lossy.specs.Lossy.{shown};

use cl_base::Mem;
use std::alloc::Global;

/// The bytes as text. Each byte that is part of no UTF-8 character stands as U+FFFD.
pub fn shown(alloc: Global, bytes: &[u8]) -> Mem<String>
    ensures { IfOk result (λ s. string_bytes s ≡ shown bytes.now) }
{
    let mut text = String::new(alloc);
    let mut left = bytes;
    loop {
        match str::from_utf8(left) {
            Ok(rest) => {
                text.push_str(rest)?;
                return Ok(text);
            }
            Err(error) => {
                let (front, after) = left.split_at(error.valid_up_to());
                push_utf8(&mut text, front)?;
                text.push_str("\u{fffd}")?;
                let (_, after) = after.split_at(1);
                left = after;
            }
        }
    }
}

/// Adds bytes that are UTF-8.
fn push_utf8(text: &mut String, bytes: &[u8]) -> Mem<()>
    requires { IsUtf8 bytes.now }
    ensures { OnOk result (string_bytes text.new ≡ string_bytes text.old ++ bytes.now) }
{
    match str::from_utf8(bytes) {
        Ok(bytes) => {
            text.push_str(bytes)?;
            Ok(())
        }
        Err(_) => unreachable!(),
    }
}
