//! Texts to tokens, and trees as they are written out.

use cl_base::{Duplicate, List, Mem, Name, PpToken, Span};
use cl_expr::{Parsed, parse_external};
use cl_lex::lex;
use cl_tree::{Lexeme, NameSet, Rule, SharedScope, Tree, brackets, learned, lexemes_to};
use std::alloc::Global;

/// The tokens of a text, where no line is a directive.
pub fn tokens_of(alloc: Global, text: &[u8]) -> Mem<List<PpToken>> {
    let lexed = lex(alloc, text)?;
    let mut all = List::new(alloc);
    for token in lexed.tokens.as_slice() {
        all.push(PpToken {
            kind: token.kind,
            text: token.text.duplicate(alloc)?,
            space: token.space,
            spell: None,
            at: Span {
                file: 0,
                from: token.from,
                to: token.to,
            },
        })?;
    }
    Ok(all)
}

/// The names `T` and `U`.
pub fn two_names(alloc: Global) -> Mem<NameSet> {
    let mut names = NameSet::new(alloc);
    names.add(alloc, &Name::new(alloc, b"T")?)?;
    names.add(alloc, &Name::new(alloc, b"U")?)?;
    Ok(names)
}

/// The tree of an external declaration.
pub fn external(alloc: Global, text: &[u8]) -> Mem<String> {
    let tokens = tokens_of(alloc, text)?;
    let names = two_names(alloc)?;
    let pairs = brackets(alloc, tokens.as_slice())?;
    let all = lexemes_to(
        alloc,
        Vec::new(alloc),
        tokens.as_slice(),
        pairs.as_slice(),
        &names,
        tokens.len(),
    )?;
    let tree = parse_external(alloc, all.as_slice(), &SharedScope::new(), 0)?;
    written(alloc, tokens.as_slice(), tree.map(|reading| reading.tree))
}

/// The tree of what stands from one token to the end of a text, where what stands before it was read as an external declaration.
pub fn after_external(alloc: Global, text: &[u8], from: u32) -> Mem<String> {
    let tokens = tokens_of(alloc, text)?;
    let count = tokens.len();
    let split = from as usize;
    if split > count {
        return Ok(format!(in alloc; "too short")?);
    }
    let names = two_names(alloc)?;
    let pairs = brackets(alloc, tokens.as_slice())?;
    let pairs = pairs.as_slice();
    let first = lexemes_to(
        alloc,
        Vec::new(alloc),
        tokens.as_slice(),
        pairs,
        &names,
        split,
    )?;
    if first.len() > count {
        return Ok(format!(in alloc; "too many")?);
    }
    let Some(reading) = external_at(alloc, first.as_slice(), 0)? else {
        return Ok(format!(in alloc; "not read")?);
    };
    let names = learned(alloc, names, first.as_slice(), reading.scope.changes())?;
    let all = lexemes_to(alloc, first, tokens.as_slice(), pairs, &names, count)?;
    let tree = external_at(alloc, all.as_slice(), from)?;
    written(alloc, tokens.as_slice(), tree.map(|reading| reading.tree))
}

fn external_at(alloc: Global, tokens: &[Lexeme], from: u32) -> Mem<Option<Parsed>> {
    parse_external(alloc, tokens, &SharedScope::new(), from)
}

fn written(alloc: Global, tokens: &[PpToken], tree: Option<Tree>) -> Mem<String> {
    let mut out = String::new(alloc);
    match tree {
        Some(tree) => write_tree(alloc, &mut out, tokens, &tree)?,
        None => out.push_str("none")?,
    }
    Ok(out)
}

/// A token as it is spelled, any other tree as its rule, its choice and its parts in parentheses.
fn write_tree(alloc: Global, out: &mut String, tokens: &[PpToken], tree: &Tree) -> Mem<()> {
    if tree.rule == Rule::Token {
        if let Some(token) = tokens.get(tree.from as usize) {
            let text = String::from_utf8_lossy(alloc, token.text.bytes())?;
            out.push_str(&text)?;
        }
        return Ok(());
    }
    let head = format!(in alloc; "({:?}.{}", tree.rule, tree.choice)?;
    out.push_str(head.as_str())?;
    for part in tree.parts.as_slice() {
        out.push_str(" ")?;
        write_tree(alloc, out, tokens, part)?;
    }
    out.push_str(")")?;
    Ok(())
}
