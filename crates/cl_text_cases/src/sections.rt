//! The if-sections of a file.

use cl_base::{Duplicate, List, Mem, Token};
use cl_cond::{Condition, Part, groups};
use cl_lex::lex;
use std::alloc::Global;

/// The marks of a file's lines, each with the number of the token at which it begins, and the faults with those at which they
/// lie.
pub(crate) fn marks_and_faults(alloc: Global, file: &[u8]) -> Mem<Vec<u8>> {
    let tokens = numbered(alloc, file)?;
    let found = groups(alloc, tokens.as_slice())?;
    let mut out = Vec::new(alloc);
    for mark in found.marks.as_slice() {
        let one = format!(in alloc; "{}{} ", name_of(mark.part), mark.from)?;
        out.extend_from_slice(one.as_bytes())?;
    }
    for fault in found.faults.as_slice() {
        let one = format!(in alloc; "!{}@{} ", fault.number, fault.from)?;
        out.extend_from_slice(one.as_bytes())?;
    }
    let _last = out.pop();
    Ok(out)
}

/// The tokens of a file. The place of each is its number.
fn numbered(alloc: Global, file: &[u8]) -> Mem<List<Token>> {
    let lexed = lex(alloc, file)?;
    let mut tokens = List::new(alloc);
    let mut number = 0u32;
    for token in lexed.tokens.as_slice() {
        tokens.push(Token {
            kind: token.kind,
            text: token.text.duplicate(alloc)?,
            from: number,
            to: number,
            space: token.space,
            first: token.first,
        })?;
        number = number.saturating_add(1);
    }
    Ok(tokens)
}

fn name_of(part: Part) -> &'static str {
    match part {
        Part::Line => "-",
        Part::Branch(Condition::If) => "if",
        Part::Branch(Condition::IfDef) => "ifdef",
        Part::Branch(Condition::IfNDef) => "ifndef",
        Part::Branch(Condition::Elif) => "elif",
        Part::Branch(Condition::Else) => "else",
        Part::End => "end",
    }
}
