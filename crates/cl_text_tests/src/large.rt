use cl_base::{Cursor, Kind, LineTable, Mem, Name, Position, Text};
use cl_lex::{lex, one_token};
use std::alloc::Global;
use std::test::Fail;

/// How many lines a large text has.
const LINES: u32 = 300_000;

/// A declaration on a line of 67 bytes.
const LINE: &[u8] = b"static unsigned int a_name_of_usual_length = 0x7fff; /* comment */\n";

#[test]
fn large_text(rt: HostRuntime) -> Result<(), Fail> {
    let alloc = rt.alloc();
    let text = lines(alloc)?;
    let text = text.as_slice();
    assert!(rt; tokens(alloc, text)?, "seven tokens a line");
    assert!(rt; places(alloc, text)?, "the last line");
    assert!(rt; names(alloc, text)?, "a name of many bytes");
    assert!(rt; one_token(text).is_none(), "many tokens");
    Ok(())
}

/// The lines, without the last line end.
fn lines(alloc: Global) -> Mem<Vec<u8>> {
    let mut text = Vec::new(alloc);
    for _ in 0..LINES {
        text.extend_from_slice(LINE)?;
    }
    let _end = text.pop();
    Ok(text)
}

/// Whether the text has seven tokens a line, the last one a semicolon, and no fault.
fn tokens(alloc: Global, text: &[u8]) -> Mem<bool> {
    let lexed = lex(alloc, text)?;
    let tokens = lexed.tokens.as_slice();
    let last = match tokens.last() {
        Some(token) => {
            token.text.bytes() == b";".as_slice()
                && token.to as usize == text.len().saturating_sub(14)
        }
        None => false,
    };
    Ok(last && tokens.len() == 7 * LINES as usize && lexed.faults.is_empty())
}

/// Whether the text's end is where it should be, by the table and by a cursor.
fn places(alloc: Global, text: &[u8]) -> Mem<bool> {
    if text.len() >= 0xffff_ffff {
        return Ok(false);
    }
    let end = text.len() as u32;
    let at = Position {
        line: LINES - 1,
        character: 66,
    };
    let table = LineTable::new(alloc, text)?;
    let cursor = Cursor::start().moved(text, end / 2).moved(text, end);
    Ok(
        table.position_of(text, end) == at
            && table.place_of(text, at) == end
            && table.line_of(end) == at.line
            && cursor.position == at,
    )
}

/// Whether a name keeps all bytes of a text, and one cut from it those that were asked.
fn names(alloc: Global, text: &[u8]) -> Mem<bool> {
    let whole = Name::new(alloc, text)?;
    let given = Text::new(alloc, text)?;
    if given.bytes().len() < 6 {
        return Ok(false);
    }
    let word = Name::cut(alloc, &given, 0, 6)?;
    Ok(whole.bytes() == text && one_token(word.bytes()) == Some(Kind::Ident))
}
