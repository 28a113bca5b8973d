//! Copies of tokens, faults and diagnostics equal their sources, with names that are kept in place and longer ones.

use cl_base::{Diag, Duplicate, Fault, Kind, Lexed, List, Mem, Name, PpToken, Span, Token};
use std::alloc::Global;
use std::test::Fail;

const SHORT: &[u8] = b"x";

const LONG: &[u8] = b"a_name_that_is_longer_than_twenty_two_bytes";

#[test]
fn copies_equal_their_sources(rt: HostRuntime) -> Result<(), Fail> {
    let alloc = rt.alloc();
    assert!(rt; of_a_lexed_text(alloc, SHORT)?, "a short name");
    assert!(rt; of_a_lexed_text(alloc, LONG)?, "a long name");
    assert!(rt; of_a_token(alloc, SHORT)?, "a short name");
    assert!(rt; of_a_token(alloc, LONG)?, "a long name");
    assert!(rt; of_a_diagnostic(alloc, LONG)?, "a diagnostic");
    Ok(())
}

fn of_a_lexed_text(alloc: Global, name: &[u8]) -> Mem<bool> {
    let mut tokens = List::new(alloc);
    tokens.push(Token {
        kind: Kind::Ident,
        text: Name::new(alloc, name)?,
        from: 3,
        to: 5,
        space: true,
        first: false,
    })?;
    let mut faults = List::new(alloc);
    let fault = Fault {
        number: 2,
        from: 7,
        to: 9,
    };
    faults.push(fault.duplicate(alloc)?)?;
    let copy = Lexed { tokens, faults }.duplicate(alloc)?;
    Ok(match (copy.tokens.get(0), copy.faults.get(0)) {
        (Some(token), Some(fault)) => {
            matches!(token.kind, Kind::Ident)
                && token.text.bytes() == name
                && (token.from, token.to) == (3, 5)
                && token.space
                && !token.first
                && (fault.number, fault.from, fault.to) == (2, 7, 9)
        }
        _ => false,
    })
}

fn of_a_token(alloc: Global, name: &[u8]) -> Mem<bool> {
    let at = Span {
        file: 1,
        from: 2,
        to: 4,
    };
    let token = PpToken {
        kind: Kind::Number,
        text: Name::new(alloc, name)?,
        space: true,
        spell: None,
        at: at.duplicate(alloc)?,
    };
    let copy = token.duplicate(alloc)?;
    Ok(
        matches!(copy.kind, Kind::Number)
            && copy.text == token.text
            && copy.space
            && copy.spell.is_none()
            && (copy.at.file, copy.at.from, copy.at.to) == (1, 2, 4),
    )
}

fn of_a_diagnostic(alloc: Global, name: &[u8]) -> Mem<bool> {
    let at = Span {
        file: 0,
        from: 2,
        to: 4,
    };
    let diag = Diag {
        number: 15,
        at,
        name: Some(Name::new(alloc, name)?),
    };
    let copy = diag.duplicate(alloc)?;
    Ok(match &copy.name {
        Some(copied) => copied.bytes() == name && copy.number == 15 && copy.at.to == 4,
        None => false,
    })
}
