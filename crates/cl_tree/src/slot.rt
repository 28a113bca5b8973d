//! Where a table of spellings has a text, by its length, its first byte and its last one.

ghost use Rattle.std.specs.Prelude.{◌≡◌, ◌<◌};
ghost use Rattle.cl_tree.specs.code.Slots as s;

/// The row of each slot among the keywords; 255 for none.
static KEYWORD_ROWS: [u8; 128] = [
    255, 255, 255, 255, 255, 255, 255, 9, 255, 7, 255, 255, 255, 255, 255, 255, 255, 12, 255, 255,
    255, 15, 255, 0, 255, 255, 11, 10, 255, 18, 255, 255, 8, 255, 255, 255, 255, 19, 4, 255, 255,
    255, 255, 6, 255, 35, 255, 255, 33, 255, 255, 255, 255, 255, 34, 17, 13, 255, 255, 255, 37, 20,
    255, 14, 255, 38, 21, 255, 31, 255, 40, 255, 255, 255, 255, 16, 41, 255, 25, 26, 255, 255, 29,
    42, 255, 23, 255, 24, 30, 255, 43, 255, 255, 22, 255, 32, 36, 39, 255, 255, 255, 255, 2, 5,
    255, 255, 255, 255, 255, 255, 255, 255, 1, 28, 255, 255, 255, 255, 255, 255, 255, 27, 255, 255,
    255, 255, 255, 3,
];

/// The same among the punctuators.
static PUNCTUATOR_ROWS: [u8; 128] = [
    255, 255, 25, 255, 33, 255, 255, 255, 255, 255, 12, 255, 46, 14, 23, 255, 255, 38, 44, 3, 255,
    255, 32, 255, 255, 17, 43, 255, 255, 8, 5, 255, 45, 255, 30, 255, 255, 255, 255, 34, 255, 255,
    255, 255, 255, 49, 255, 255, 255, 255, 9, 10, 255, 255, 255, 255, 24, 255, 255, 255, 255, 255,
    36, 255, 48, 255, 18, 13, 22, 255, 255, 39, 255, 255, 35, 255, 255, 255, 255, 16, 255, 19, 255,
    7, 0, 255, 255, 20, 255, 40, 255, 255, 255, 4, 255, 255, 26, 255, 255, 255, 255, 21, 255, 255,
    2, 28, 47, 37, 41, 29, 15, 255, 255, 255, 27, 255, 255, 6, 255, 255, 31, 1, 255, 255, 255, 11,
    42, 255,
];

fn keyword_rows() -> &'static [u8]
    ensures { result.now ≡ s.keyword_rows }
{
    &KEYWORD_ROWS
}

fn punctuator_rows() -> &'static [u8]
    ensures { result.now ≡ s.punctuator_rows }
{
    &PUNCTUATOR_ROWS
}

/// The byte at a place; 0 past the end.
fn byte_at(text: &[u8], at: usize) -> usize
    ensures value { result ≡ s.byte_at text.now at }
    ensures room { result < 256 }
{
    match text.get(at) {
        Some(byte) => *byte as usize,
        None => 0,
    }
}

/// The row of a slot; 255 for none.
fn row_at(rows: &[u8], slot: usize) -> usize
    ensures { result ≡ s.row_at rows.now slot }
{
    match rows.get(slot) {
        Some(row) => *row as usize,
        None => 255,
    }
}

/// The row of a text if it is a keyword; else any.
pub fn keyword_row(text: &[u8]) -> usize
    ensures { result ≡ s.row_at s.keyword_rows (s.keyword_slot text.now) }
{
    let first = byte_at(text, 0);
    let last = byte_at(text, text.len().saturating_sub(1));
    row_at(
        keyword_rows(),
        (text.len() % 128 + first * 10 + last * 3) % 128,
    )
}

/// The row of a text if it is a punctuator; else any.
pub fn punctuator_row(text: &[u8]) -> usize
    ensures { result ≡ s.row_at s.punctuator_rows (s.punctuator_slot text.now) }
{
    let first = byte_at(text, 0);
    let last = byte_at(text, text.len().saturating_sub(1));
    row_at(
        punctuator_rows(),
        (text.len() % 128 * 12 + first * 9 + last * 28) % 128,
    )
}
