//! The directives that begin no branch (N1570 6.10).

ghost use Rattle.std.specs.Prelude.{◌≡◌, ◌≤◌, ◌++◌, ℕ, List as TheList, Option, None, false, if◌then◌else◌, is_some, length, map, IfOk, OnOk};
ghost use Rattle.cl_base.specs.declared.macros.Macro.{Macro as TheMacro};
ghost use Rattle.cl_base.specs.declared.macros.MacroNo.{MacroNo as TheNo};
ghost use Rattle.cl_macro.specs.Levels.{Within as AreWithin};
ghost use Rattle.cl_macro.specs.Words.{fresh};
ghost use Rattle.cl_pp.specs.declared.aim.Aim.TheVariants.{Nothing, Once};
ghost use Rattle.cl_pp.specs.Acts.{Checks, Gives, checking, directive, is_once, named, plain, undefined, undefining};
ghost use Rattle.cl_pp.specs.LineNumbers.{misfit};
ghost use Rattle.cl_pp.specs.Lines.{bad_line, spread_line};
ghost use Rattle.cl_pp.specs.Places.{Within};
ghost use Rattle.cl_pp.specs.Preprocessing.{World, rules_in};
ghost use Rattle.cl_pp.specs.Standing.{Start, with_event};
ghost use Rattle.cl_pp.specs.Taking.{Comes, IsChecked, Takes};
ghost use Rattle.cl_pp.specs.code.Keeping.{Keeps, Sees, Suits, lookup, number_of};

use crate::aim::Aim;
use crate::define::defining;
use crate::include::include;
use crate::line::{add, extra};
use crate::line_number::misfit;
use crate::looked::look;
use crate::made::{File, Made, Reach};
use crate::replacing::{replaced, spread_line};
use crate::token::fault_in;
use cl_base::{Diag, Duplicate, List, MacroEvent, Mem, Name, PpToken, Token};
use cl_define::is_reserved;
use cl_macro::{MacroBase, MacroTable};
use std::alloc::Global;

/// Goes over a directive, and answers what it aims at.
pub(crate) fn directive<B: MacroBase>(
    alloc: Global,
    file: &File,
    table: &mut MacroTable,
    base: &B,
    made: &mut Made,
    line: &[Token],
) -> Mem<Aim>
    requires { Sees made.now }
    ensures done { (w : World) → Suits file.now w → Within (length w.text) line.now → IfOk result (λ aim. Comes file.now.number (rules_in w (lookup (B.macros base.now) table.old)) (number_of (B.events base.now) table.old) line.now (directive file.now.number line.now made.old.done) false aim made.new.done) }
    ensures keeps { (start : Start) → Keeps (B.macros base.now) (B.events base.now) start table.old made.old.done → OnOk result (Keeps (B.macros base.now) (B.events base.now) start table.new made.new.done) }
    ensures sees { OnOk result (Sees made.new) }
{
    let Some((_, rest)) = line.split_first() else {
        return Ok(Aim::Nothing);
    };
    match rest.split_first() {
        Some((name, rest)) => named(alloc, file, table, base, made, name, rest, line),
        None => Ok(Aim::Nothing),
    }
}

/// Goes over a directive of this name, and answers what it aims at.
fn named<B: MacroBase>(
    alloc: Global,
    file: &File,
    table: &mut MacroTable,
    base: &B,
    made: &mut Made,
    name: &Token,
    rest: &[Token],
    line: &[Token],
) -> Mem<Aim>
    requires { Sees made.now }
    ensures done { (w : World) → Suits file.now w → Within (length w.text) rest.now → IfOk result (λ aim. Comes file.now.number (rules_in w (lookup (B.macros base.now) table.old)) (number_of (B.events base.now) table.old) line.now (named file.now.number name.now rest.now made.old.done) false aim made.new.done) }
    ensures keeps { (start : Start) → Keeps (B.macros base.now) (B.events base.now) start table.old made.old.done → OnOk result (Keeps (B.macros base.now) (B.events base.now) start table.new made.new.done) }
    ensures sees { OnOk result (Sees made.new) }
{
    if name.is_word(b"include".as_slice()) {
        include(alloc, file, table, base, made, rest, line)
    } else if name.is_word(b"pragma".as_slice()) {
        Ok(marking(rest))
    } else {
        plain(alloc, file, table, base, made, name, rest, line)?;
        Ok(Aim::Nothing)
    }
}

/// What a `#pragma` aims at.
fn marking(rest: &[Token]) -> Aim
    ensures { result ≡ (if is_once rest.now then Once else Nothing) }
{
    match rest.split_first() {
        Some((token, _)) => {
            if token.is_word(b"once".as_slice()) {
                Aim::Once
            } else {
                Aim::Nothing
            }
        }
        None => Aim::Nothing,
    }
}

/// Goes over a directive of this name, which isn't `include` or `pragma`.
fn plain<B: MacroBase>(
    alloc: Global,
    file: &File,
    table: &mut MacroTable,
    base: &B,
    made: &mut Made,
    name: &Token,
    rest: &[Token],
    line: &[Token],
) -> Mem<()>
    requires { Sees made.now }
    ensures done { (w : World) → Suits file.now w → Within (length w.text) rest.now → OnOk result (Takes file.now.number (rules_in w (lookup (B.macros base.now) table.old)) (number_of (B.events base.now) table.old) line.now (plain file.now.number name.now rest.now made.old.done) false made.new.done) }
    ensures keeps { (start : Start) → Keeps (B.macros base.now) (B.events base.now) start table.old made.old.done → OnOk result (Keeps (B.macros base.now) (B.events base.now) start table.new made.new.done) }
    ensures sees { OnOk result (Sees made.new) }
{
    if name.is_word(b"define".as_slice()) {
        defining(alloc, file.number, table, base, made, name, rest)
    } else if name.is_word(b"undef".as_slice()) {
        undefining(alloc, file.number, table, made, name, rest)
    } else if name.is_word(b"line".as_slice()) {
        checking(alloc, file, table, base, made, rest, line)
    } else if name.is_word(b"error".as_slice()) {
        add(&mut made.done.faults, file.number, 22, name)
    } else {
        add(&mut made.done.faults, file.number, 5, name)
    }
}

/// Goes over an `#undef`.
fn undefining(
    alloc: Global,
    file: u32,
    table: &mut MacroTable,
    made: &mut Made,
    name: &Token,
    rest: &[Token],
) -> Mem<()>
    requires { Sees made.now }
    ensures done { OnOk result (made.new.done ≡ undefining file name.now rest.now made.old.done) }
    ensures keeps { (macros : TheList ℕ → Option TheMacro) (numbers : TheList ℕ → Option TheNo) (start : Start) → Keeps macros numbers start table.old made.old.done → OnOk result (Keeps macros numbers start table.new made.new.done) }
    ensures sees { OnOk result (Sees made.new) }
{
    let Some((token, more)) = rest.split_first() else {
        return add(&mut made.done.faults, file, 6, name);
    };
    if !token.kind.is_ident() {
        return add(&mut made.done.faults, file, 6, name);
    }
    undefined(alloc, file, table, made, token)?;
    extra(&mut made.done.faults, file, more)?;
    Ok(())
}

/// Takes the token's macro away, unless its name may not be undefined.
fn undefined(
    alloc: Global,
    file: u32,
    table: &mut MacroTable,
    made: &mut Made,
    token: &Token,
) -> Mem<()>
    requires { Sees made.now }
    ensures done { OnOk result (made.new.done ≡ undefined file token.now made.old.done) }
    ensures keeps { (macros : TheList ℕ → Option TheMacro) (numbers : TheList ℕ → Option TheNo) (start : Start) → Keeps macros numbers start table.old made.old.done → OnOk result (Keeps macros numbers start table.new made.new.done) }
    ensures sees { OnOk result (Sees made.new) }
{
    if is_reserved(token.text.bytes()) {
        add(&mut made.done.faults, file, 18, token)
    } else {
        undefine(alloc, table, made, &token.text)
    }
}

/// The name has no macro from here on.
fn undefine(alloc: Global, table: &mut MacroTable, made: &mut Made, name: &Name) -> Mem<()>
    requires { Sees made.now }
    ensures done { OnOk result (made.new.done ≡ with_event name.now None made.old.done) }
    ensures keeps { (macros : TheList ℕ → Option TheMacro) (numbers : TheList ℕ → Option TheNo) (start : Start) → Keeps macros numbers start table.old made.old.done → OnOk result (Keeps macros numbers start table.new made.new.done) }
    ensures sees { OnOk result (Sees made.new) }
{
    look(alloc, made, name)?;
    table.undef(alloc, name)?;
    let name = name.duplicate(alloc)?;
    made.done.events.push(MacroEvent { name, set: None })?;
    Ok(())
}

/// Goes over a `#line`.
fn checking<B: MacroBase>(
    alloc: Global,
    file: &File,
    table: &MacroTable,
    base: &B,
    made: &mut Made,
    rest: &[Token],
    line: &[Token],
) -> Mem<()>
    requires { Sees made.now }
    ensures done { (w : World) → Suits file.now w → Within (length w.text) rest.now → OnOk result (Takes file.now.number (rules_in w (lookup (B.macros base.now) table.now)) (number_of (B.events base.now) table.now) line.now (checking file.now.number rest.now made.old.done) false made.new.done) }
    ensures events { OnOk result (made.new.done.events ≡ made.old.done.events) }
    ensures sees { OnOk result (Sees made.new) }
{
    let tokens = spread_line(alloc, file.number, rest)?;
    let wrong = is_wrong(tokens.as_slice());
    checked_if(
        alloc,
        file,
        table,
        base,
        made,
        wrong,
        tokens.as_slice(),
        line,
    )?;
    Ok(())
}

/// Whether the operand of a `#line` isn't of its form.
fn is_wrong(tokens: &[PpToken]) -> bool
    ensures { result ≡ is_some (misfit tokens.now) }
{
    misfit(tokens).is_some()
}

/// Goes over the operand of a `#line`, if it is wrong as it is written.
fn checked_if<B: MacroBase>(
    alloc: Global,
    file: &File,
    table: &MacroTable,
    base: &B,
    made: &mut Made,
    wrong: bool,
    tokens: &[PpToken],
    line: &[Token],
) -> Mem<()>
    requires { Sees made.now }
    ensures done { (w : World) → Suits file.now w → AreWithin w.text (map fresh tokens.now) → OnOk result (Takes file.now.number (rules_in w (lookup (B.macros base.now) table.now)) (number_of (B.events base.now) table.now) line.now (if wrong then Checks tokens.now made.old.done else Gives false made.old.done) false made.new.done) }
    ensures events { OnOk result (made.new.done.events ≡ made.old.done.events) }
    ensures sees { OnOk result (Sees made.new) }
{
    if wrong {
        checked(alloc, file, table, base, made, tokens, line)
    } else {
        Ok(())
    }
}

/// Goes over the operand of a `#line` that isn't of its form as it is written.
fn checked<B: MacroBase>(
    alloc: Global,
    file: &File,
    table: &MacroTable,
    base: &B,
    made: &mut Made,
    tokens: &[PpToken],
    line: &[Token],
) -> Mem<()>
    requires { Sees made.now }
    ensures done { (w : World) → Suits file.now w → AreWithin w.text (map fresh tokens.now) → OnOk result (IsChecked file.now.number (rules_in w (lookup (B.macros base.now) table.now)) (number_of (B.events base.now) table.now) line.now tokens.now made.old.done made.new.done) }
    ensures events { OnOk result (made.new.done.events ≡ made.old.done.events) }
    ensures sees { OnOk result (Sees made.new) }
{
    let reach = Reach::Directive(made.done.tokens.len() as u32);
    let tokens = replaced(alloc, file, table, base, made, reach, tokens)?;
    let place = misfit(tokens.as_slice());
    bad_line(
        &mut made.done.faults,
        file.number,
        place,
        tokens.as_slice(),
        line,
    )?;
    Ok(())
}

/// Adds fault 23, if the operand of a `#line` is at fault.
fn bad_line(
    faults: &mut List<Diag>,
    file: u32,
    place: Option<usize>,
    made: &[PpToken],
    line: &[Token],
) -> Mem<()>
    ensures { OnOk result (faults.new ≡ faults.old ++ bad_line file place made.now line.now) }
{
    match place {
        Some(place) => fault_in(faults, file, 23, made, place, line),
        None => Ok(()),
    }
}
