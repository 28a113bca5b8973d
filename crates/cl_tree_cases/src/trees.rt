//! Texts to tokens, and trees as they are written out.

use cl_base::{Duplicate, List, Mem, PpToken, Span};
use cl_declr::{parse_declaration, parse_type_name};
use cl_expr::{parse, parse_expr};
use cl_lex::lex;
use cl_tree::{NameSet, Nonterminal, Rule, Tree};
use std::alloc::Global;

/// The tree of an expression as it is written out, or `none`.
pub(crate) fn expression(alloc: Global, text: &[u8], typedefs: &NameSet) -> Mem<String> {
    let tokens = tokens_of(alloc, text)?;
    let tree = parse_expr(alloc, tokens.as_slice(), typedefs)?;
    written(alloc, tokens.as_slice(), tree)
}

/// That of a declaration.
pub(crate) fn declaration(alloc: Global, text: &[u8], typedefs: &NameSet) -> Mem<String> {
    let tokens = tokens_of(alloc, text)?;
    let tree = parse_declaration(alloc, tokens.as_slice(), typedefs)?;
    written(alloc, tokens.as_slice(), tree)
}

/// That of a type name.
pub(crate) fn type_name(alloc: Global, text: &[u8], typedefs: &NameSet) -> Mem<String> {
    let tokens = tokens_of(alloc, text)?;
    let tree = parse_type_name(alloc, tokens.as_slice(), typedefs)?;
    written(alloc, tokens.as_slice(), tree)
}

/// That of a statement.
pub(crate) fn statement(alloc: Global, text: &[u8], typedefs: &NameSet) -> Mem<String> {
    let tokens = tokens_of(alloc, text)?;
    let tree = parse(alloc, tokens.as_slice(), typedefs, Nonterminal::Statement)?;
    written(alloc, tokens.as_slice(), tree)
}

/// That of an item of a block.
pub(crate) fn block_item(alloc: Global, text: &[u8], typedefs: &NameSet) -> Mem<String> {
    let tokens = tokens_of(alloc, text)?;
    let tree = parse(alloc, tokens.as_slice(), typedefs, Nonterminal::BlockItem)?;
    written(alloc, tokens.as_slice(), tree)
}

/// The tokens of a text, where no line is a directive.
pub(crate) fn tokens_of(alloc: Global, text: &[u8]) -> Mem<List<PpToken>> {
    let lexed = lex(alloc, text)?;
    let mut all = List::new(alloc);
    for token in lexed.tokens.as_slice() {
        let span = Span {
            file: 0,
            from: token.from,
            to: token.to,
        };
        all.push(PpToken {
            kind: token.kind,
            text: token.text.duplicate(alloc)?,
            space: token.space,
            spell: Some(span),
            at: span,
        })?;
    }
    Ok(all)
}

fn written(alloc: Global, tokens: &[PpToken], tree: Option<Tree>) -> Mem<String> {
    let mut out = String::new(alloc);
    match tree {
        Some(tree) => write_tree(alloc, &mut out, tokens, &tree)?,
        None => out.push_str("none")?,
    }
    Ok(out)
}

/// A token as it is spelled, any other tree as its rule, its choice and its parts in parentheses.
pub(crate) fn write_tree(
    alloc: Global,
    out: &mut String,
    tokens: &[PpToken],
    tree: &Tree,
) -> Mem<()> {
    if tree.rule == Rule::Token {
        if let Some(token) = tokens.get(tree.from as usize) {
            let text = String::from_utf8_lossy(alloc, token.text.bytes())?;
            out.push_str(&text)?;
        }
        return Ok(());
    }
    let head = format!(in alloc; "({:?}.{}", tree.rule, tree.choice)?;
    out.push_str(head.as_str())?;
    if tree.rule == Rule::Bad {
        write_range(alloc, out, tokens, tree.from, tree.to)?;
    }
    for part in tree.parts.as_slice() {
        out.push_str(" ")?;
        write_tree(alloc, out, tokens, part)?;
    }
    out.push_str(")")?;
    Ok(())
}

/// The tokens from one up to another as they are spelled, each after a space.
pub(crate) fn write_range(
    alloc: Global,
    out: &mut String,
    tokens: &[PpToken],
    from: u32,
    to: u32,
) -> Mem<()> {
    for at in from..to {
        if let Some(token) = tokens.get(at as usize) {
            let text = String::from_utf8_lossy(alloc, token.text.bytes())?;
            out.push_str(" ")?;
            out.push_str(&text)?;
        }
    }
    Ok(())
}
