//! What is done with a line.

ghost use Rattle.std.specs.Prelude.{◌≡◌, ◌≤◌, false, if◌then◌else◌, length, IfOk, OnOk};
ghost use Rattle.std.specs.Ordering.{nat_cmp};
ghost use Rattle.std.specs.BTreeMap.{get};
ghost use Rattle.cl_pp.specs.Acts.{Gives, act, at_branch, at_end, at_line, is_looked_at, may_take};
ghost use Rattle.cl_pp.specs.Places.{Within};
ghost use Rattle.cl_pp.specs.Preprocessing.{World, rules_in};
ghost use Rattle.cl_pp.specs.Standing.{Start};
ghost use Rattle.cl_pp.specs.Taking.{Comes, Takes};
ghost use Rattle.cl_pp.specs.code.Keeping.{Keeps, Sees, Suits, lookup, number_of};
ghost use Rattle.cl_pp.specs.code.Stacks.{tell};

use crate::aim::{Aim, Came};
use crate::branch::{is_looked_at, may_take, passed_by, taken};
use crate::directive::directive;
use crate::line::{extra, is_directive, rest_of};
use crate::made::{File, Made};
use crate::replacing::run_line;
use crate::section::Section;
use crate::stray::line_strays;
use cl_base::{Mem, Token};
use cl_cond::{Condition, Part};
use cl_macro::{MacroBase, MacroTable};
use std::alloc::Global;

/// Goes over a line in this section, and answers what it comes to.
pub(crate) fn act<B: MacroBase>(
    alloc: Global,
    file: &File,
    table: &mut MacroTable,
    base: &B,
    made: &mut Made,
    part: Part,
    here: Section,
    line: &[Token],
) -> Mem<Came>
    requires { Sees made.now }
    ensures done { (w : World) → Suits file.now w → Within (length w.text) line.now → IfOk result (λ came. Comes file.now.number (rules_in w (lookup (B.macros base.now) table.old)) (number_of (B.events base.now) table.old) line.now (act file.now.number (get nat_cmp file.now.told.now) (lookup (B.macros base.now) table.old) part (tell here) line.now made.old.done) came.held came.aim made.new.done) }
    ensures keeps { (start : Start) → Keeps (B.macros base.now) (B.events base.now) start table.old made.old.done → OnOk result (Keeps (B.macros base.now) (B.events base.now) start table.new made.new.done) }
    ensures sees { OnOk result (Sees made.new) }
{
    match part {
        Part::Line => {
            let aim = in_line(alloc, file, table, base, made, here.active, line)?;
            Ok(Came { held: false, aim })
        }
        Part::End => {
            in_end(file, made, here.outer, line)?;
            Ok(Came {
                held: false,
                aim: Aim::Nothing,
            })
        }
        Part::Branch(condition) => {
            let held = in_branch(alloc, file, table, base, made, condition, here, line)?;
            Ok(Came {
                held,
                aim: Aim::Nothing,
            })
        }
    }
}

/// Goes over a run of text or a directive, which is active or not, and answers what it aims at.
fn in_line<B: MacroBase>(
    alloc: Global,
    file: &File,
    table: &mut MacroTable,
    base: &B,
    made: &mut Made,
    active: bool,
    line: &[Token],
) -> Mem<Aim>
    requires { Sees made.now }
    ensures done { (w : World) → Suits file.now w → Within (length w.text) line.now → IfOk result (λ aim. Comes file.now.number (rules_in w (lookup (B.macros base.now) table.old)) (number_of (B.events base.now) table.old) line.now (if active then at_line file.now.number (get nat_cmp file.now.told.now) line.now made.old.done else Gives false made.old.done) false aim made.new.done) }
    ensures keeps { (start : Start) → Keeps (B.macros base.now) (B.events base.now) start table.old made.old.done → OnOk result (Keeps (B.macros base.now) (B.events base.now) start table.new made.new.done) }
    ensures sees { OnOk result (Sees made.new) }
{
    if active {
        at_line(alloc, file, table, base, made, line)
    } else {
        Ok(Aim::Nothing)
    }
}

/// Goes over an active line that is a run of text or a directive, and answers what it aims at.
fn at_line<B: MacroBase>(
    alloc: Global,
    file: &File,
    table: &mut MacroTable,
    base: &B,
    made: &mut Made,
    line: &[Token],
) -> Mem<Aim>
    requires { Sees made.now }
    ensures done { (w : World) → Suits file.now w → Within (length w.text) line.now → IfOk result (λ aim. Comes file.now.number (rules_in w (lookup (B.macros base.now) table.old)) (number_of (B.events base.now) table.old) line.now (at_line file.now.number (get nat_cmp file.now.told.now) line.now made.old.done) false aim made.new.done) }
    ensures keeps { (start : Start) → Keeps (B.macros base.now) (B.events base.now) start table.old made.old.done → OnOk result (Keeps (B.macros base.now) (B.events base.now) start table.new made.new.done) }
    ensures sees { OnOk result (Sees made.new) }
{
    line_strays(&mut made.done.faults, file.number, file.told, line)?;
    if is_directive(line) {
        directive(alloc, file, table, base, made, line)
    } else {
        run_line(alloc, file, table, base, made, line)?;
        Ok(Aim::Nothing)
    }
}

/// Goes over the end of a section, which is in active lines or not.
fn in_end(file: &File, made: &mut Made, outer: bool, line: &[Token]) -> Mem<()>
    requires { Sees made.now }
    ensures done { OnOk result ((if outer then at_end file.now.number (get nat_cmp file.now.told.now) line.now made.old.done else Gives false made.old.done) ≡ Gives false made.new.done) }
    ensures events { OnOk result (made.new.done.events ≡ made.old.done.events) }
    ensures sees { OnOk result (Sees made.new) }
{
    if outer {
        at_end(file, made, line)
    } else {
        Ok(())
    }
}

/// Goes over the end of a section in active lines.
fn at_end(file: &File, made: &mut Made, line: &[Token]) -> Mem<()>
    requires { Sees made.now }
    ensures done { OnOk result (at_end file.now.number (get nat_cmp file.now.told.now) line.now made.old.done ≡ Gives false made.new.done) }
    ensures events { OnOk result (made.new.done.events ≡ made.old.done.events) }
    ensures sees { OnOk result (Sees made.new) }
{
    line_strays(&mut made.done.faults, file.number, file.told, line)?;
    extra(&mut made.done.faults, file.number, rest_of(line))
}

/// Goes over the line of a branch in this section, and answers whether its condition is fulfilled.
fn in_branch<B: MacroBase>(
    alloc: Global,
    file: &File,
    table: &MacroTable,
    base: &B,
    made: &mut Made,
    condition: Condition,
    here: Section,
    line: &[Token],
) -> Mem<bool>
    requires { Sees made.now }
    ensures done { (w : World) → Suits file.now w → Within (length w.text) line.now → IfOk result (λ held. Takes file.now.number (rules_in w (lookup (B.macros base.now) table.now)) (number_of (B.events base.now) table.now) line.now (if is_looked_at condition (tell here) then at_branch file.now.number (get nat_cmp file.now.told.now) (lookup (B.macros base.now) table.now) condition (may_take condition (tell here)) line.now made.old.done else Gives false made.old.done) held made.new.done) }
    ensures events { OnOk result (made.new.done.events ≡ made.old.done.events) }
    ensures sees { OnOk result (Sees made.new) }
{
    if is_looked_at(condition, here) {
        let may = may_take(condition, here);
        at_branch(alloc, file, table, base, made, condition, may, line)
    } else {
        Ok(false)
    }
}

/// Goes over the line of a branch in active lines, which may be taken or not.
fn at_branch<B: MacroBase>(
    alloc: Global,
    file: &File,
    table: &MacroTable,
    base: &B,
    made: &mut Made,
    condition: Condition,
    may: bool,
    line: &[Token],
) -> Mem<bool>
    requires { Sees made.now }
    ensures done { (w : World) → Suits file.now w → Within (length w.text) line.now → IfOk result (λ held. Takes file.now.number (rules_in w (lookup (B.macros base.now) table.now)) (number_of (B.events base.now) table.now) line.now (at_branch file.now.number (get nat_cmp file.now.told.now) (lookup (B.macros base.now) table.now) condition may line.now made.old.done) held made.new.done) }
    ensures events { OnOk result (made.new.done.events ≡ made.old.done.events) }
    ensures sees { OnOk result (Sees made.new) }
{
    line_strays(&mut made.done.faults, file.number, file.told, line)?;
    if may {
        taken(alloc, file, table, base, made, condition, line)
    } else {
        passed_by(made, file.number, condition, line)
    }
}
