//! The lines that begin a branch of an if-section (N1570 6.10.1).

ghost use Rattle.std.specs.Prelude.{◌≡◌, ◌≤◌, ◌++◌, length, IfOk, OnOk};
ghost use Rattle.cl_pp.specs.Acts.{Gives, asking, by_name, is_looked_at, may_take, passed_by, taken, tested};
ghost use Rattle.cl_pp.specs.Lines.{bad_if, is_true, rest_of};
ghost use Rattle.cl_pp.specs.Places.{Within};
ghost use Rattle.cl_pp.specs.Preprocessing.{World, rules_in};
ghost use Rattle.cl_pp.specs.Taking.{Takes};
ghost use Rattle.cl_pp.specs.code.Keeping.{Sees, Suits, lookup, number_of};
ghost use Rattle.cl_pp.specs.code.Stacks.{tell};

use crate::defined::{asked, decided, is_defined};
use crate::line::{extra, nameless, rest_of};
use crate::looked::{look, look_all};
use crate::made::{File, Made, Reach};
use crate::replacing::replaced;
use crate::section::{Section, opens};
use crate::token::fault_in;
use cl_base::{Diag, List, Mem, PpToken, Token};
use cl_cond::{Condition, IfValue, eval_if};
use cl_macro::{MacroBase, MacroTable};
use std::alloc::Global;

/// Whether the branch that begins there may be taken.
pub(crate) fn may_take(condition: Condition, here: Section) -> bool
    ensures { result ≡ may_take condition (tell here) }
{
    if opens(condition) {
        here.active
    } else {
        here.free
    }
}

/// Whether the line is looked at.
pub(crate) fn is_looked_at(condition: Condition, here: Section) -> bool
    ensures { result ≡ is_looked_at condition (tell here) }
{
    if opens(condition) {
        here.active
    } else {
        here.outer
    }
}

/// Goes over the line of a branch that may be taken, and answers whether its condition is fulfilled.
pub(crate) fn taken<B: MacroBase>(
    alloc: Global,
    file: &File,
    table: &MacroTable,
    base: &B,
    made: &mut Made,
    condition: Condition,
    line: &[Token],
) -> Mem<bool>
    requires { Sees made.now }
    ensures done { (w : World) → Suits file.now w → Within (length w.text) line.now → IfOk result (λ held. Takes file.now.number (rules_in w (lookup (B.macros base.now) table.now)) (number_of (B.events base.now) table.now) line.now (taken file.now.number (lookup (B.macros base.now) table.now) condition line.now made.old.done) held made.new.done) }
    ensures events { OnOk result (made.new.done.events ≡ made.old.done.events) }
    ensures sees { OnOk result (Sees made.new) }
{
    match condition {
        Condition::If | Condition::Elif => ask(alloc, file, table, base, made, line),
        Condition::IfDef => tested(alloc, file.number, table, base, made, true, line),
        Condition::IfNDef => tested(alloc, file.number, table, base, made, false, line),
        Condition::Else => {
            extra(&mut made.done.faults, file.number, rest_of(line))?;
            Ok(true)
        }
    }
}

/// Goes over the line of a branch that may not be taken, and answers whether it is an `#else`.
pub(crate) fn passed_by(
    made: &mut Made,
    file: u32,
    condition: Condition,
    line: &[Token],
) -> Mem<bool>
    requires { Sees made.now }
    ensures done { IfOk result (λ held. passed_by file condition line.now made.old.done ≡ Gives held made.new.done) }
    ensures events { OnOk result (made.new.done.events ≡ made.old.done.events) }
    ensures sees { OnOk result (Sees made.new) }
{
    match condition {
        Condition::Else => {
            extra(&mut made.done.faults, file, rest_of(line))?;
            Ok(true)
        }
        Condition::If | Condition::IfDef | Condition::IfNDef | Condition::Elif => Ok(false),
    }
}

/// Whether a condition is fulfilled that looks for a macro, or for none.
fn by_name(wanted: bool, defined: bool) -> bool
    ensures { result ≡ by_name wanted defined }
{
    if wanted { defined } else { !defined }
}

/// Goes over an `#ifdef` or `#ifndef`, and answers whether its condition is fulfilled.
fn tested<B: MacroBase>(
    alloc: Global,
    file: u32,
    table: &MacroTable,
    base: &B,
    made: &mut Made,
    wanted: bool,
    line: &[Token],
) -> Mem<bool>
    requires { Sees made.now }
    ensures done { IfOk result (λ held. tested file (lookup (B.macros base.now) table.now) wanted line.now (rest_of line.now) made.old.done ≡ Gives held made.new.done) }
    ensures events { OnOk result (made.new.done.events ≡ made.old.done.events) }
    ensures sees { OnOk result (Sees made.new) }
{
    let Some((name, rest)) = rest_of(line).split_first() else {
        nameless(&mut made.done.faults, file, line)?;
        return Ok(false);
    };
    if !name.kind.is_ident() {
        nameless(&mut made.done.faults, file, line)?;
        return Ok(false);
    }
    look(alloc, made, &name.text)?;
    extra(&mut made.done.faults, file, rest)?;
    let defined = is_defined(alloc, table, base, &name.text)?;
    Ok(by_name(wanted, defined))
}

/// Goes over an `#if` or `#elif`, and answers whether its condition is fulfilled.
fn ask<B: MacroBase>(
    alloc: Global,
    file: &File,
    table: &MacroTable,
    base: &B,
    made: &mut Made,
    line: &[Token],
) -> Mem<bool>
    requires { Sees made.now }
    ensures done { (w : World) → Suits file.now w → Within (length w.text) line.now → IfOk result (λ held. Takes file.now.number (rules_in w (lookup (B.macros base.now) table.now)) (number_of (B.events base.now) table.now) line.now (asking file.now.number (lookup (B.macros base.now) table.now) line.now made.old.done) held made.new.done) }
    ensures events { OnOk result (made.new.done.events ≡ made.old.done.events) }
    ensures sees { OnOk result (Sees made.new) }
{
    let names = asked(alloc, rest_of(line))?;
    look_all(alloc, made, names.as_slice())?;
    let tokens = decided(alloc, file.number, table, base, rest_of(line))?;
    let reach = Reach::Directive(made.done.tokens.len() as u32);
    let tokens = replaced(alloc, file, table, base, made, reach, tokens.as_slice())?;
    let value = eval_if(alloc, tokens.as_slice())?;
    bad_if(
        &mut made.done.faults,
        file.number,
        value,
        tokens.as_slice(),
        line,
    )?;
    Ok(is_true(value))
}

/// Whether a condition holds that came to this value.
fn is_true(value: IfValue) -> bool
    ensures { result ≡ is_true value }
{
    match value {
        IfValue::Value { bits, .. } => bits != 0,
        IfValue::BadIf { .. } => false,
    }
}

/// Adds fault 15, if a condition is at fault.
fn bad_if(
    faults: &mut List<Diag>,
    file: u32,
    value: IfValue,
    made: &[PpToken],
    line: &[Token],
) -> Mem<()>
    ensures { OnOk result (faults.new ≡ faults.old ++ bad_if file value made.now line.now) }
{
    match value {
        IfValue::BadIf { place } => fault_in(faults, file, 15, made, place as usize, line),
        IfValue::Value { .. } => Ok(()),
    }
}
