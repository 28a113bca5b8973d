//! Include lines (N1570 6.10.2).

ghost use Rattle.std.specs.Prelude.{◌≡◌, ◌≤◌, ◌++◌, [], ◌||◌, length, false, IfOk, OnOk};
ghost use Rattle.cl_pp.specs.Acts.{including};
ghost use Rattle.cl_pp.specs.Including.{aim_of, begins_angled, closed, extra_made, first_at, included, inner, is_header, is_written, named_in, space_for};
ghost use Rattle.cl_pp.specs.LineNumbers.{is_plain_string};
ghost use Rattle.cl_pp.specs.Lines.{fault_in, spread_line};
ghost use Rattle.cl_pp.specs.Places.{Within};
ghost use Rattle.cl_pp.specs.Preprocessing.{World, rules_in};
ghost use Rattle.cl_pp.specs.Taking.{Comes};
ghost use Rattle.cl_pp.specs.code.Keeping.{Sees, Suits, lookup, number_of};
ghost use Rattle.cl_pp.specs.code.Operands.{IsOperand};

use crate::aim::{Aim, Named, Target};
use crate::line_number::is_plain_string;
use crate::made::{File, Made, Reach};
use crate::replacing::{replaced, spread_line};
use crate::token::{fault_in, is_header, span_or};
use cl_base::{Diag, List, Mem, Name, Path, PpToken, Span, Token};
use cl_macro::{MacroBase, MacroTable};
use std::alloc::Global;

/// Goes over an `#include`, and answers what it aims at.
pub(crate) fn include<B: MacroBase>(
    alloc: Global,
    file: &File,
    table: &MacroTable,
    base: &B,
    made: &mut Made,
    rest: &[Token],
    line: &[Token],
) -> Mem<Aim>
    requires { Sees made.now }
    ensures done { (w : World) → Suits file.now w → Within (length w.text) rest.now → IfOk result (λ aim. Comes file.now.number (rules_in w (lookup (B.macros base.now) table.now)) (number_of (B.events base.now) table.now) line.now (including file.now.number rest.now made.old.done) false aim made.new.done) }
    ensures events { OnOk result (made.new.done.events ≡ made.old.done.events) }
    ensures sees { OnOk result (Sees made.new) }
{
    let tokens = operand(alloc, file, table, base, made, rest)?;
    let named = named_in(alloc, tokens.as_slice())?;
    let aim = aimed(
        alloc,
        &mut made.done.faults,
        file.number,
        named,
        tokens.as_slice(),
        line,
    )?;
    Ok(aim)
}

/// Whether the operand begins with a header name as it is written.
fn is_written(rest: &[Token]) -> bool
    ensures { result ≡ is_written rest.now }
{
    match rest.split_first() {
        Some((token, _)) => is_header(token.kind),
        None => false,
    }
}

/// The tokens of an operand: as they are written, where they begin with a header name, and else replaced.
fn operand<B: MacroBase>(
    alloc: Global,
    file: &File,
    table: &MacroTable,
    base: &B,
    made: &mut Made,
    rest: &[Token],
) -> Mem<List<PpToken>>
    requires { Sees made.now }
    ensures done { (w : World) → Suits file.now w → Within (length w.text) rest.now → IfOk result (λ tokens. IsOperand (is_written rest.now) (rules_in w (lookup (B.macros base.now) table.now)) (number_of (B.events base.now) table.now) (spread_line file.now.number rest.now) tokens made.old.done made.new.done) }
    ensures events { OnOk result (made.new.done.events ≡ made.old.done.events) }
    ensures sees { OnOk result (Sees made.new) }
{
    let tokens = spread_line(alloc, file.number, rest)?;
    if is_written(rest) {
        return Ok(tokens);
    }
    let reach = Reach::Directive(made.done.tokens.len() as u32);
    let tokens = replaced(alloc, file, table, base, made, reach, tokens.as_slice())?;
    Ok(tokens)
}

/// Whether a header name or a string without a prefix is this token.
fn is_whole(token: &PpToken) -> bool
    ensures { result ≡ (is_header token.now.kind || is_plain_string token.now) }
{
    is_header(token.kind) || is_plain_string(token)
}

/// What stands between the first byte and the last.
fn inner(text: &[u8]) -> &[u8]
    ensures { result.now ≡ inner text.entry.now }
{
    if text.len() < 2 {
        return &[];
    }
    &text[1..text.len() - 1]
}

/// Whether it begins with `<`.
fn begins_angled(text: &[u8]) -> bool
    ensures { result ≡ begins_angled text.now }
{
    match text.split_first() {
        Some((first, _)) => *first == b'<',
        None => false,
    }
}

/// Where the first of these tokens stands, if there is one.
fn first_at(tokens: &[PpToken]) -> Option<Span>
    ensures { result ≡ first_at tokens.now }
{
    match tokens.split_first() {
        Some((token, _)) => Some(token.at),
        None => None,
    }
}

/// The header that tokens name, if they name one.
fn named_in(alloc: Global, tokens: &[PpToken]) -> Mem<Option<Named>>
    ensures { IfOk result (λ named. named ≡ named_in tokens.now) }
{
    let Some((token, rest)) = tokens.split_first() else {
        return Ok(None);
    };
    let text = token.text.bytes();
    if is_whole(token) {
        let name = Name::new(alloc, inner(text))?;
        return Ok(Some(Named {
            angled: begins_angled(text),
            name,
            extra: first_at(rest),
        }));
    }
    if text == b"<".as_slice() {
        let named = closed(alloc, rest)?;
        return Ok(named);
    }
    Ok(None)
}

/// Adds a space, if there is one.
fn push_space(name: &mut Vec<u8>, space: bool) -> Mem<()>
    ensures { OnOk result (name.new.items ≡ name.old.items ++ space_for space) }
{
    if space {
        name.push(b' ')?;
    }
    Ok(())
}

/// The header whose name the tokens up to the first `>` spell.
fn closed(alloc: Global, tokens: &[PpToken]) -> Mem<Option<Named>>
    ensures { IfOk result (λ named. named ≡ closed [] tokens.now) }
{
    let mut text = Vec::new(alloc);
    let mut rest = tokens;
    while let Some((token, behind)) = rest.split_first() {
        rest = behind;
        if token.text.bytes() == b">".as_slice() {
            let name = Name::new(alloc, text.as_slice())?;
            return Ok(Some(Named {
                angled: true,
                name,
                extra: first_at(rest),
            }));
        }
        push_space(&mut text, token.space)?;
        text.extend_from_slice(token.text.bytes())?;
    }
    Ok(None)
}

/// Adds fault 7, if a token stands behind a header's name.
fn extra_made(faults: &mut List<Diag>, extra: Option<Span>) -> Mem<()>
    ensures { OnOk result (faults.new ≡ faults.old ++ extra_made extra) }
{
    match extra {
        Some(at) => faults.push(Diag {
            number: 7,
            at,
            name: None,
        }),
        None => Ok(()),
    }
}

/// The header that is to be entered. Where none is named in UTF-8, fault 8 is added.
fn aimed(
    alloc: Global,
    faults: &mut List<Diag>,
    file: u32,
    named: Option<Named>,
    tokens: &[PpToken],
    line: &[Token],
) -> Mem<Aim>
    ensures aim { IfOk result (λ aim. aim ≡ aim_of file named tokens.now line.now) }
    ensures faults { OnOk result (faults.new ≡ faults.old ++ included file named tokens.now line.now) }
{
    let Some(named) = named else {
        fault_in(faults, file, 8, tokens, 0, line)?;
        return Ok(Aim::Nothing);
    };
    match str::from_utf8(named.name.bytes()) {
        Ok(name) => {
            extra_made(faults, named.extra)?;
            let name = Path::new(alloc, name)?;
            Ok(Aim::Header(Target {
                angled: named.angled,
                name,
                at: span_or(file, tokens, 0, line),
            }))
        }
        Err(_) => {
            fault_in(faults, file, 8, tokens, 0, line)?;
            Ok(Aim::Nothing)
        }
    }
}
