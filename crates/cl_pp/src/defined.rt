//! The tokens of a condition, with `defined` decided.

ghost use Rattle.std.specs.Prelude.{◌≡◌, ◌<◌, ◌≤◌, ◌+◌, ◌++◌, length, is_some, IfOk, OnOk};
ghost use Rattle.std.specs.Option.{option_copied};
ghost use Rattle.cl_pp.specs.Defined.{asked, asked_for, decided, digit, end_after, named_len, number_for, operand_len, operand_name, replaced, taken, text_of};
ghost use Rattle.cl_pp.specs.code.Keeping.{lookup};

use crate::token::{span_at, spread};
use cl_base::{Duplicate, Kind, List, Mem, Name, PpToken, Token};
use cl_macro::{MacroBase, MacroTable};
use std::alloc::Global;

/// The tokens of a condition, where each `defined NAME` and `defined ( NAME )` is 1 or 0 (N1570 6.10.1p1).
pub(crate) fn decided<B: MacroBase>(
    alloc: Global,
    file: u32,
    table: &MacroTable,
    base: &B,
    tokens: &[Token],
) -> Mem<List<PpToken>>
    ensures { IfOk result (λ all. all ≡ decided file (lookup (B.macros base.now) table.now) tokens.now) }
{
    let mut all = List::new(alloc);
    let mut rest = tokens;
    while let Some((token, after)) = rest.split_first() {
        let count = taken(token, after);
        let token = replaced(alloc, file, table, base, token, count, after)?;
        all.push(token)?;
        let (_, left) = after.split_at(count);
        rest = left;
    }
    Ok(all)
}

/// Whether the name is a macro.
pub(crate) fn is_defined<B: MacroBase>(
    alloc: Global,
    table: &MacroTable,
    base: &B,
    name: &Name,
) -> Mem<bool>
    ensures { IfOk result (λ holds. holds ≡ is_some (lookup (B.macros base.now) table.now name.now)) }
{
    let found = table.find(alloc, base, name)?;
    Ok(found.is_some())
}

/// The names that a condition asks for.
pub(crate) fn asked(alloc: Global, tokens: &[Token]) -> Mem<List<Name>>
    ensures { IfOk result (λ names. names ≡ asked tokens.now) }
{
    let mut names = List::new(alloc);
    let mut rest = tokens;
    while let Some((token, after)) = rest.split_first() {
        let count = taken(token, after);
        ask_for(alloc, &mut names, token, count, after)?;
        let (_, left) = after.split_at(count);
        rest = left;
    }
    Ok(names)
}

/// Adds the name that is asked for by the token and those that belong to it, if they ask for one.
fn ask_for(
    alloc: Global,
    names: &mut List<Name>,
    token: &Token,
    count: usize,
    rest: &[Token],
) -> Mem<()>
    requires { count ≡ taken token.now rest.now }
    ensures { OnOk result (names.new ≡ names.old ++ asked_for token.now rest.now) }
{
    if count == 0 {
        return Ok(());
    }
    let name = name_of(alloc, rest)?;
    names.push(name)
}

/// The name in an operand.
fn name_of(alloc: Global, operand: &[Token]) -> Mem<Name>
    ensures { IfOk result (λ name. name ≡ operand_name operand.now) }
{
    match operand_token(operand) {
        Some(token) => token.text.duplicate(alloc),
        None => Name::new(alloc, b"".as_slice()),
    }
}

/// The token that is the name in an operand.
fn operand_token(operand: &[Token]) -> Option<&Token>
    ensures { text_of (option_copied result) ≡ operand_name operand.entry.now }
{
    let (first, rest) = operand.split_first()?;
    if first.kind.is_ident() {
        Some(first)
    } else {
        rest.first()
    }
}

/// How many tokens behind this one belong to it.
fn taken(token: &Token, rest: &[Token]) -> usize
    ensures value { result ≡ taken token.now rest.now }
    ensures within { result ≤ length rest.now }
{
    if token.is_word(b"defined".as_slice()) {
        operand_len(rest)
    } else {
        0
    }
}

/// How many tokens are the operand of a `defined` before them.
fn operand_len(tokens: &[Token]) -> usize
    ensures value { result ≡ operand_len tokens.now }
    ensures within { result ≤ length tokens.now }
{
    let Some((first, rest)) = tokens.split_first() else {
        return 0;
    };
    if first.kind.is_ident() {
        1
    } else if first.text.bytes() == b"(".as_slice() {
        named_len(rest)
    } else {
        0
    }
}

/// The same, behind a parenthesis.
fn named_len(tokens: &[Token]) -> usize
    ensures value { result ≡ named_len tokens.now }
    ensures within { result ≤ length tokens.now + 1 }
{
    let Some((name, rest)) = tokens.split_first() else {
        return 0;
    };
    let Some((close, _)) = rest.split_first() else {
        return 0;
    };
    if name.kind.is_ident() && close.text.bytes() == b")".as_slice() {
        3
    } else {
        0
    }
}

/// The token, or a number for it and those that belong to it.
fn replaced<B: MacroBase>(
    alloc: Global,
    file: u32,
    table: &MacroTable,
    base: &B,
    token: &Token,
    count: usize,
    rest: &[Token],
) -> Mem<PpToken>
    requires { count ≡ taken token.now rest.now }
    ensures { IfOk result (λ it. it ≡ replaced file (lookup (B.macros base.now) table.now) token.now rest.now) }
{
    if count == 0 {
        spread(alloc, file, token)
    } else {
        let name = name_of(alloc, rest)?;
        let holds = is_defined(alloc, table, base, &name)?;
        number_for(alloc, file, holds, token, count, rest)
    }
}

/// The digit of a condition that holds, or doesn't.
fn digit(alloc: Global, holds: bool) -> Mem<Name>
    ensures { IfOk result (λ name. name ≡ digit holds) }
{
    if holds {
        Name::new(alloc, b"1".as_slice())
    } else {
        Name::new(alloc, b"0".as_slice())
    }
}

/// A number for the token and so many behind it.
fn number_for(
    alloc: Global,
    file: u32,
    holds: bool,
    token: &Token,
    count: usize,
    rest: &[Token],
) -> Mem<PpToken>
    requires { 0 < count }
    ensures { IfOk result (λ it. it ≡ number_for file holds token.now count rest.now) }
{
    let text = digit(alloc, holds)?;
    Ok(PpToken {
        kind: Kind::Number,
        text,
        space: token.space,
        spell: None,
        at: span_at(file, token.from, end_after(token, count, rest)),
    })
}

/// Where the last of so many tokens behind this one ends.
fn end_after(token: &Token, count: usize, rest: &[Token]) -> u32
    requires { 0 < count }
    ensures { result ≡ end_after token.now count rest.now }
{
    match rest.get(count - 1) {
        Some(last) => last.to,
        None => token.to,
    }
}
