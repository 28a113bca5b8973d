//! Macro replacement in the lines of a file.

ghost use Rattle.std.specs.Prelude.{◌≡◌, ◌≤◌, ◌++◌, length, map, reverse, IfOk, OnOk};
ghost use Rattle.cl_macro.specs.Levels.{Within as AreWithin};
ghost use Rattle.cl_macro.specs.Words.{fresh};
ghost use Rattle.cl_pp.specs.Lines.{spread_line};
ghost use Rattle.cl_pp.specs.Places.{Within};
ghost use Rattle.cl_pp.specs.Preprocessing.{World, rules_in};
ghost use Rattle.cl_pp.specs.Standing.{use_at};
ghost use Rattle.cl_pp.specs.Taking.{IsRun};
ghost use Rattle.cl_pp.specs.code.Keeping.{Replaces, Sees, Suits, before_of, lookup, number_of};

use crate::looked::look_all;
use crate::made::{File, Made, Reach};
use crate::token::spread;
use cl_base::{List, Mem, Memory, PpToken, Token};
use cl_macro::{MacroBase, MacroTable, MacroUse};
use std::alloc::Global;

/// How many tokens stand before an outermost invocation that has so many of its run before it.
fn before_of(reach: Reach, count: u32) -> Mem<u32>
    ensures { IfOk result (λ before. before ≡ before_of reach count) }
{
    match reach {
        Reach::Run(base) => match base.checked_add(count) {
            Some(before) => Ok(before),
            None => Err(Memory),
        },
        Reach::Directive(base) => Ok(base),
    }
}

/// Adds these uses.
fn add_uses(uses: &mut List<MacroUse>, reach: Reach, more: &[MacroUse]) -> Mem<()>
    ensures { OnOk result (uses.new ≡ uses.old ++ map (use_at (before_of reach)) more.now) }
{
    for one in more {
        let before = before_of(reach, one.before)?;
        uses.push(MacroUse {
            at: one.at,
            no: one.no,
            before,
        })?;
    }
    Ok(())
}

/// The tokens that these are replaced by. What is told of it is added.
pub(crate) fn replaced<B: MacroBase>(
    alloc: Global,
    file: &File,
    table: &MacroTable,
    base: &B,
    made: &mut Made,
    reach: Reach,
    run: &[PpToken],
) -> Mem<List<PpToken>>
    requires { Sees made.now }
    ensures done { (w : World) → Suits file.now w → AreWithin w.text (map fresh run.now) → IfOk result (λ tokens. Replaces (rules_in w (lookup (B.macros base.now) table.now)) (number_of (B.events base.now) table.now) (before_of reach) run.now tokens made.old.done made.new.done) }
    ensures events { OnOk result (made.new.done.events ≡ made.old.done.events) }
    ensures sees { OnOk result (Sees made.new) }
{
    let all = table.expand(alloc, base, run, file.path, file.lines)?;
    look_all(alloc, made, all.looked.as_slice())?;
    add_uses(&mut made.done.uses, reach, all.uses.as_slice())?;
    append(alloc, &mut made.done.faults, all.faults)?;
    Ok(all.tokens)
}

/// The tokens of a line.
pub(crate) fn spread_line(alloc: Global, file: u32, line: &[Token]) -> Mem<List<PpToken>>
    ensures { IfOk result (λ tokens. tokens ≡ spread_line file line.now) }
{
    let mut tokens = List::new(alloc);
    for token in line {
        let token = spread(alloc, file, token)?;
        tokens.push(token)?;
    }
    Ok(tokens)
}

/// The items, the last one first.
fn reversed<T: Drop>(alloc: Global, items: List<T>) -> Mem<List<T>>
    ensures { IfOk result (λ all. all ≡ reverse items) }
{
    let mut all = List::new(alloc);
    let mut rest = items;
    while let Some(item) = rest.pop() {
        all.push(item)?;
    }
    Ok(all)
}

/// Adds these items at the end.
fn append<T: Drop>(alloc: Global, all: &mut List<T>, more: List<T>) -> Mem<()>
    ensures { OnOk result (all.new ≡ all.old ++ more) }
{
    if all.is_empty() {
        *all = more;
        return Ok(());
    }
    let mut items = reversed(alloc, more)?;
    while let Some(item) = items.pop() {
        all.push(item)?;
    }
    Ok(())
}

/// Adds what a run of text comes to.
pub(crate) fn run_line<B: MacroBase>(
    alloc: Global,
    file: &File,
    table: &MacroTable,
    base: &B,
    made: &mut Made,
    line: &[Token],
) -> Mem<()>
    requires { Sees made.now }
    ensures done { (w : World) → Suits file.now w → Within (length w.text) line.now → OnOk result (IsRun (rules_in w (lookup (B.macros base.now) table.now)) (number_of (B.events base.now) table.now) (spread_line file.now.number line.now) made.old.done made.new.done) }
    ensures events { OnOk result (made.new.done.events ≡ made.old.done.events) }
    ensures sees { OnOk result (Sees made.new) }
{
    let run = spread_line(alloc, file.number, line)?;
    let reach = Reach::Run(made.done.tokens.len() as u32);
    let tokens = replaced(alloc, file, table, base, made, reach, run.as_slice())?;
    append(alloc, &mut made.done.tokens, tokens)?;
    Ok(())
}
