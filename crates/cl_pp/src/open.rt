//! A file before its first line is gone over.

ghost use Rattle.std.specs.Prelude.{◌≡◌, ◌++◌, map, OnOk, IfOk};
ghost use Rattle.cl_pp.specs.Lines.{spread_fault};
ghost use Rattle.cl_pp.specs.Preprocessing.{open_comments};
ghost use Rattle.cl_pp.specs.code.Reaching.{IsLaid, IsOpened};

use crate::made::{Made, Opened, Source};
use crate::run::runs;
use crate::stray::told;
use crate::token::diag;
use cl_base::{Diag, Fault, LineTable, List, Mem};
use cl_cond::groups;
use cl_lex::lex;
use std::alloc::Global;

/// The tokens of a text and its lines.
pub(crate) fn open(alloc: Global, text: &[u8]) -> Mem<Opened>
    ensures { IfOk result (λ opened. IsLaid text.now opened) }
{
    let lexed = lex(alloc, text)?;
    let lines = LineTable::new(alloc, text)?;
    let groups = groups(alloc, lexed.tokens.as_slice())?;
    let told = told(alloc, lexed.faults.as_slice())?;
    let marks = runs(alloc, lexed.tokens.as_slice(), groups.marks.as_slice())?;
    Ok(Opened {
        lexed,
        faults: groups.faults,
        marks,
        lines,
        told,
    })
}

/// Adds the faults that stand before the first line of a file.
pub(crate) fn begin(made: &mut Made, source: &Source) -> Mem<()>
    requires { IsLaid source.now.text source.now.opened.value }
    ensures done { OnOk result (IsOpened source.now.number source.now.text made.old.done source.now.opened.value made.new.done) }
    ensures events { OnOk result (made.new.done.events ≡ made.old.done.events) }
    ensures deps { OnOk result (made.new.done.deps ≡ made.old.done.deps) }
    ensures looked { OnOk result (made.new.done.looked ≡ made.old.done.looked) }
    ensures seen { OnOk result (made.new.seen ≡ made.old.seen) }
{
    let opened = &source.opened;
    first_faults(
        &mut made.done.faults,
        source.number,
        opened.lexed.faults.as_slice(),
        opened.faults.as_slice(),
    )?;
    Ok(())
}

/// Adds the faults of comments without an end, and those of sections.
fn first_faults(all: &mut List<Diag>, file: u32, lexed: &[Fault], groups: &[Fault]) -> Mem<()>
    ensures { OnOk result (all.new ≡ all.old ++ (open_comments file lexed.now ++ map (spread_fault file) groups.now)) }
{
    open_comments(all, file, lexed)?;
    add_all(all, file, groups)?;
    Ok(())
}

/// Adds the faults of comments without an end.
fn open_comments(all: &mut List<Diag>, file: u32, faults: &[Fault]) -> Mem<()>
    ensures { OnOk result (all.new ≡ all.old ++ open_comments file faults.now) }
{
    for fault in faults {
        if fault.number == 1 {
            all.push(diag(file, fault))?;
        }
    }
    Ok(())
}

/// Adds these faults.
fn add_all(all: &mut List<Diag>, file: u32, faults: &[Fault]) -> Mem<()>
    ensures { OnOk result (all.new ≡ all.old ++ map (spread_fault file) faults.now) }
{
    for fault in faults {
        all.push(diag(file, fault))?;
    }
    Ok(())
}
