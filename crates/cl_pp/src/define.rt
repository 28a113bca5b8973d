//! Definitions (N1570 6.10.3).

ghost use Rattle.std.specs.Prelude.{◌≡◌, ◌++◌, ◌∷◌, [], List as TheList, Some, false, OnOk};
ghost use Rattle.cl_base.specs.declared.token.Token.{Token as TheToken};
ghost use Rattle.cl_pp.specs.Acts.{defining};
ghost use Rattle.cl_pp.specs.Lines.{invalid, place_of, redefined};
ghost use Rattle.cl_pp.specs.Preprocessing.{World, rules_in};
ghost use Rattle.cl_pp.specs.Taking.{IsDefinition, IsGiven, Takes};
ghost use Rattle.cl_pp.specs.code.Defining.{defined_after, event_of};
ghost use Rattle.cl_pp.specs.Standing.{Start};
ghost use Rattle.cl_pp.specs.code.Keeping.{Keeps, Sees, lookup, number_of};

use crate::line::add;
use crate::looked::look;
use crate::made::Made;
use crate::token::span_at;
use cl_base::{Diag, Duplicate, List, Macro, MacroEvent, Mem, Name, Span, Token};
use cl_define::read_define;
use cl_macro::{Defined, MacroBase, MacroTable};
use std::alloc::Global;

/// Goes over a `#define`.
pub(crate) fn defining<B: MacroBase>(
    alloc: Global,
    file: u32,
    table: &mut MacroTable,
    base: &B,
    made: &mut Made,
    name: &Token,
    rest: &[Token],
) -> Mem<()>
    requires { Sees made.now }
    ensures done { (w : World) (line : TheList TheToken) → OnOk result (Takes file (rules_in w (lookup (B.macros base.now) table.old)) (number_of (B.events base.now) table.old) line (defining file name.now rest.now made.old.done) false made.new.done) }
    ensures keeps { (start : Start) → Keeps (B.macros base.now) (B.events base.now) start table.old made.old.done → OnOk result (Keeps (B.macros base.now) (B.events base.now) start table.new made.new.done) }
    ensures sees { OnOk result (Sees made.new) }
{
    let Some((token, _)) = rest.split_first() else {
        return add(&mut made.done.faults, file, 6, name);
    };
    if !token.kind.is_ident() {
        return add(&mut made.done.faults, file, 6, name);
    }
    define(alloc, file, table, base, made, rest)?;
    Ok(())
}

/// Goes over the tokens behind `define`.
fn define<B: MacroBase>(
    alloc: Global,
    file: u32,
    table: &mut MacroTable,
    base: &B,
    made: &mut Made,
    tokens: &[Token],
) -> Mem<()>
    requires { Sees made.now }
    ensures done { (w : World) → OnOk result (IsDefinition file (rules_in w (lookup (B.macros base.now) table.old)) tokens.now made.old.done made.new.done) }
    ensures keeps { (start : Start) → Keeps (B.macros base.now) (B.events base.now) start table.old made.old.done → OnOk result (Keeps (B.macros base.now) (B.events base.now) start table.new made.new.done) }
    ensures sees { OnOk result (Sees made.new) }
{
    let found = read_define(alloc, tokens, place_of(file, tokens))?;
    match found {
        Some(mac) => give(alloc, file, table, base, made, tokens, mac),
        None => invalid(&mut made.done.faults, file, tokens),
    }
}

/// Where the first of these tokens is written.
fn place_of(file: u32, tokens: &[Token]) -> Span
    ensures { result ≡ place_of file tokens.now }
{
    match tokens.split_first() {
        Some((token, _)) => span_at(file, token.from, token.to),
        None => span_at(file, 0, 0),
    }
}

/// Adds fault 18, at a definition's name.
fn invalid(faults: &mut List<Diag>, file: u32, tokens: &[Token]) -> Mem<()>
    ensures { OnOk result (faults.new ≡ faults.old ++ invalid file tokens.now) }
{
    faults.push(Diag {
        number: 18,
        at: place_of(file, tokens),
        name: None,
    })
}

/// Adds fault 16, at a definition's name.
fn redefined(
    alloc: Global,
    faults: &mut List<Diag>,
    file: u32,
    name: &Name,
    tokens: &[Token],
) -> Mem<()>
    ensures { OnOk result (faults.new ≡ faults.old ++ redefined file name.now tokens.now) }
{
    let name = name.duplicate(alloc)?;
    faults.push(Diag {
        number: 16,
        at: place_of(file, tokens),
        name: Some(name),
    })
}

/// Gives the name its macro from here on.
fn give<B: MacroBase>(
    alloc: Global,
    file: u32,
    table: &mut MacroTable,
    base: &B,
    made: &mut Made,
    tokens: &[Token],
    mac: Macro,
) -> Mem<()>
    requires { Sees made.now }
    ensures done { OnOk result (IsGiven file (lookup (B.macros base.now) table.old) tokens.now mac made.old.done made.new.done) }
    ensures keeps { (start : Start) → Keeps (B.macros base.now) (B.events base.now) start table.old made.old.done → OnOk result (Keeps (B.macros base.now) (B.events base.now) start table.new made.new.done) }
    ensures sees { OnOk result (Sees made.new) }
{
    let name = mac.name.duplicate(alloc)?;
    look(alloc, made, &name)?;
    let copy = mac.duplicate(alloc)?;
    let answer = table.define(alloc, base, mac)?;
    tell_defined(alloc, file, made, answer, name, copy, tokens)?;
    Ok(())
}

/// Adds the event of a definition whose name has been looked at, and its fault.
fn tell_defined(
    alloc: Global,
    file: u32,
    made: &mut Made,
    answer: Defined,
    name: Name,
    mac: Macro,
    tokens: &[Token],
) -> Mem<()>
    ensures done { OnOk result (made.new.done ≡ defined_after file answer name mac tokens.now made.old.done) }
    ensures seen { OnOk result (made.new.seen ≡ made.old.seen) }
    ensures looked { OnOk result (made.new.done.looked ≡ made.old.done.looked) }
{
    match answer {
        Defined::New => add_event(&mut made.done.events, name, mac),
        Defined::Same => Ok(()),
        Defined::Replaced { .. } => {
            redefined(alloc, &mut made.done.faults, file, &name, tokens)?;
            add_event(&mut made.done.events, name, mac)
        }
    }
}

/// Adds the event that gives the name its macro.
fn add_event(events: &mut List<MacroEvent>, name: Name, mac: Macro) -> Mem<()>
    ensures { OnOk result (events.new ≡ events.old ++ event_of name mac ∷ []) }
{
    events.push(MacroEvent {
        name,
        set: Some(mac),
    })
}
