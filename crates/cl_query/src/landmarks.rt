//! Positions of a text's offsets, each found from a place nearby.

ghost use Rattle.std.specs.Prelude.{◌≡◌, ◌<◌, ◌≤◌, ◌^◌, length, min, List as TheList, ℕ, IfOk};
ghost use Rattle.cl_query.specs.Symbols.{place_of, range_of};
ghost use Rattle.cl_query.specs.code.Places.{AllStand, Stands};

use cl_base::{Cursor, List, Mem, Position, Range};
use std::alloc::Global;

/// How many bytes lie between two landmarks.
const STEP: u32 = 256;

/// Places of a text, one for each 256 bytes.
#[derive(Drop)]
pub(crate) struct Landmarks {
    cursors: List<Cursor>,
}

impl Landmarks {
    /// Those of a text, which is read once.
    pub(crate) fn new(alloc: Global, text: &[u8]) -> Mem<Landmarks>
        requires room { length text.now < 2 ^ 32 }
        ensures { IfOk result (λ it. AllStand text.now it.cursors) }
    {
        let mut cursors = List::new(alloc);
        let mut cursor = Cursor::start();
        while text.len() - cursor.offset as usize >= STEP as usize {
            cursors.push(cursor)?;
            cursor = cursor.moved(text, cursor.offset + STEP);
        }
        cursors.push(cursor)?;
        Ok(Landmarks { cursors })
    }

    /// The position of an offset; one past the text's end counts as the end. At most 256 bytes are read, and a few around.
    fn position(&self, text: &[u8], offset: u32) -> Position
        requires room { length text.now < 2 ^ 32 }
        requires stands { AllStand text.now self.now.cursors }
        ensures { result ≡ place_of text.now offset }
    {
        let place = clamped(text, offset);
        let near = nearest(&self.cursors, place);
        near.moved(text, place).position
    }

    /// The range from one offset to another.
    pub(crate) fn range(&self, text: &[u8], from: u32, to: u32) -> Range
        requires room { length text.now < 2 ^ 32 }
        requires stands { AllStand text.now self.now.cursors }
        ensures { result ≡ range_of text.now from to }
    {
        Range {
            start: self.position(text, from),
            end: self.position(text, to),
        }
    }
}

/// The offset, or the text's end where that comes before it.
fn clamped(text: &[u8], offset: u32) -> u32
    requires room { length text.now < 2 ^ 32 }
    ensures { result ≡ min offset (length text.now) }
{
    if (offset as usize) < text.len() {
        offset
    } else {
        text.len() as u32
    }
}

/// A place up to an offset, near it where there is one.
fn nearest(cursors: &List<Cursor>, offset: u32) -> Cursor
    ensures stands { (text : TheList ℕ) → AllStand text cursors.now → Stands text result }
    ensures order { result.offset ≤ offset }
{
    match cursors.get((offset / STEP) as usize) {
        Some(cursor) => {
            if cursor.offset <= offset {
                *cursor
            } else {
                Cursor::start()
            }
        }
        None => Cursor::start(),
    }
}
