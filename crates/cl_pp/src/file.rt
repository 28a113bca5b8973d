//! Goes over the lines of a file.

ghost use Rattle.std.specs.Prelude.{◌≡◌, ◌≤◌, false, reverse, length, OnOk, IfOk, List as TheList, ℕ};
ghost use Rattle.cl_pp.specs.Activity.{Passed};
ghost use Rattle.cl_pp.specs.Lines.{line_of};
ghost use Rattle.cl_pp.specs.Places.{Within};
ghost use Rattle.cl_pp.specs.Preprocessing.{World};
ghost use Rattle.cl_pp.specs.Standing.{Start, is_stopped};
ghost use Rattle.cl_pp.specs.code.Going.{ComesBy};
ghost use Rattle.cl_pp.specs.code.Keeping.{Keeps, Sees, Suits};
ghost use Rattle.cl_pp.specs.code.Reaching.{IsLaid};
ghost use Rattle.cl_pp.specs.code.Resuming.{IsAt, Passes};
ghost use Rattle.cl_pp.specs.code.Stacks.{Stand, stacked, tell, top_of};

use crate::act::act;
use crate::aim::{Aim, Came, Target};
use crate::made::{File, Made, Place, Source};
use crate::reach::mark;
use crate::section::{Section, is_skipped, pass, top};
use cl_base::{List, Mem, Token};
use cl_cond::Mark;
use cl_macro::{MacroBase, MacroTable};
use std::alloc::Global;

/// Goes over the lines of a file from a place on, up to the first that names a header, and answers that header.
pub(crate) fn lines<B: MacroBase>(
    alloc: Global,
    source: &Source,
    place: &mut Place,
    table: &mut MacroTable,
    base: &B,
    made: &mut Made,
) -> Mem<Option<Target>>
    requires laid { IsLaid source.now.text source.now.opened.value }
    requires sees { Sees made.now }
    ensures done { (w : World) (past : TheList Passed) → IsAt source.now w → is_stopped made.old.done ≡ false → Stand past (reverse place.old.sections) → Keeps (B.macros base.now) (B.events base.now) w.start table.old made.old.done
        → IfOk result (λ target. Passes w source.now.opened.value past place.old made.old.done place.new made.new.done target) }
    ensures keeps { (start : Start) → Keeps (B.macros base.now) (B.events base.now) start table.old made.old.done → OnOk result (Keeps (B.macros base.now) (B.events base.now) start table.new made.new.done) }
    ensures sees { OnOk result (Sees made.new) }
    ensures deps { OnOk result (made.new.done.deps ≡ made.old.done.deps) }
{
    let opened = &source.opened;
    let file = File {
        number: source.number,
        path: &source.path,
        lines: &opened.lines,
        told: &opened.told,
    };
    let tokens = opened.lexed.tokens.as_slice();
    let marks = opened.marks.as_slice();
    while let Some(line) = marks.get(place.next) {
        place.next += 1;
        if is_skipped(line.part, place.sections.as_slice()) {
            continue;
        }
        let came = take_line(
            alloc,
            &file,
            tokens,
            *line,
            &mut place.sections,
            table,
            base,
            made,
        )?;
        match came.aim {
            Aim::Nothing => {}
            Aim::Once => mark(made, source)?,
            Aim::Header(target) => return Ok(Some(target)),
        }
    }
    Ok(None)
}

/// Goes over a line and passes it, and answers what it comes to.
fn take_line<B: MacroBase>(
    alloc: Global,
    file: &File,
    tokens: &[Token],
    mark: Mark,
    sections: &mut List<Section>,
    table: &mut MacroTable,
    base: &B,
    made: &mut Made,
) -> Mem<Came>
    requires lie { (mark.from ≤ mark.to) × (mark.to ≤ length tokens.now) }
    requires sees { Sees made.now }
    ensures done { (w : World) → Suits file.now w → Within (length w.text) tokens.now → IfOk result (λ came. ComesBy (B.macros base.now) (B.events base.now) file.now w table.old (tell (top_of (reverse sections.old))) mark (line_of tokens.now mark) made.old.done came.held came.aim made.new.done) }
    ensures keeps { (start : Start) → Keeps (B.macros base.now) (B.events base.now) start table.old made.old.done → OnOk result (Keeps (B.macros base.now) (B.events base.now) start table.new made.new.done) }
    ensures sees { OnOk result (Sees made.new) }
    ensures sections { IfOk result (λ came. reverse sections.new ≡ stacked mark.part came.held (reverse sections.old)) }
{
    let line = &tokens[mark.from as usize..mark.to as usize];
    let here = top(sections.as_slice());
    let came = act(alloc, file, table, base, made, mark.part, here, line)?;
    pass(sections, mark.part, came.held)?;
    Ok(came)
}
