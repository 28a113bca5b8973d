//! The structure of a file.

ghost use Rattle.std.specs.Prelude.{◌≡◌, ◌<◌, ◌^◌, [], ◌++◌, length, IfOk};
ghost use Rattle.cl_cond.specs.Lines.{Lines};
ghost use Rattle.cl_cond.specs.Sections.{GroupsOf, fault_list, faults_of, kept, kept_line};
ghost use Rattle.cl_cond.specs.code.Nesting.{HasName};

use crate::lines::lines;
use crate::mark::{Groups, Mark};
use crate::nesting::{Nesting, ends};
use crate::trouble::Trouble;
use cl_base::{Fault, List, Mem, Token};
use std::alloc::Global;

/// The structure of a file of these tokens, by its lines: their parts, their if-sections, and what is wrong with them
/// (N1570 6.10). 2^32 tokens or more are want of memory.
pub fn groups(alloc: Global, tokens: &[Token]) -> Mem<Groups>
    ensures { IfOk result (λ groups. GroupsOf tokens.now groups) }
{
    let lines = lines(alloc, tokens)?;
    let groups = group_lines(alloc, tokens, lines.as_slice())?;
    Ok(groups)
}

/// The structure of these lines.
fn group_lines(alloc: Global, tokens: &[Token], lines: &[Mark]) -> Mem<Groups>
    requires lines { Lines tokens.now 0 lines.now }
    requires room { length lines.now < 2 ^ 32 }
    ensures marks { IfOk result (λ groups. groups.marks ≡ kept [] lines.now) }
    ensures faults { IfOk result (λ groups. groups.faults ≡ faults_of tokens.now [] lines.now) }
{
    let mut nesting = Nesting {
        levels: List::new(alloc),
        ends: ends(alloc, lines)?,
    };
    let mut marks = List::new(alloc);
    let mut faults = List::new(alloc);
    for line in lines {
        let trouble = nesting.pass(line.part)?;
        keep(&mut marks, *line, trouble)?;
        note(&mut faults, tokens, *line, trouble)?;
    }
    Ok(Groups { marks, faults })
}

/// Keeps a line, if it isn't as if it weren't there.
fn keep(marks: &mut List<Mark>, line: Mark, trouble: Option<Trouble>) -> Mem<()>
    ensures { IfOk result (λ _. marks.new ≡ marks.old ++ kept_line line trouble) }
{
    match trouble {
        Some(Trouble::Outside | Trouble::AfterElse) => Ok(()),
        Some(Trouble::Unended) | None => {
            marks.push(line)?;
            Ok(())
        }
    }
}

/// Notes the fault of a line.
fn note(faults: &mut List<Fault>, tokens: &[Token], line: Mark, trouble: Option<Trouble>) -> Mem<()>
    requires { HasName tokens.now line trouble }
    ensures { IfOk result (λ _. faults.new ≡ faults.old ++ fault_list tokens.now line trouble) }
{
    if let Some(trouble) = trouble {
        let name = &tokens[line.from as usize + 1];
        faults.push(Fault {
            number: trouble.number(),
            from: name.from,
            to: name.to,
        })?;
    }
    Ok(())
}
