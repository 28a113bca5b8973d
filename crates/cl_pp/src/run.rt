//! Runs of text lines.

ghost use Rattle.std.specs.Prelude.{◌≡◌, ◌≤◌, ◌<◌, length, IfOk};
ghost use Rattle.cl_pp.specs.Places.{MarksLie};
ghost use Rattle.cl_pp.specs.Runs.{goes_on, is_line, is_text, runs};

use crate::line::is_directive;
use cl_base::{List, Mem, Token};
use cl_cond::{Mark, Part};
use std::alloc::Global;

/// Whether it is neither a conditional directive nor absent.
fn is_line(part: Part) -> bool
    ensures { result ≡ is_line part }
{
    matches!(part, Part::Line)
}

/// Whether the line, or the run, is text.
fn is_text(tokens: &[Token], mark: Mark) -> bool
    requires { (mark.from ≤ mark.to) × (mark.to ≤ length tokens.now) }
    ensures { result ≡ is_text tokens.now mark }
{
    let line = &tokens[mark.from as usize..mark.to as usize];
    is_line(mark.part) && !is_directive(line)
}

/// Whether the line goes on the run.
fn goes_on(tokens: &[Token], run: Mark, mark: Mark) -> bool
    requires run { (run.from ≤ run.to) × (run.to ≤ length tokens.now) }
    requires mark { (mark.from ≤ mark.to) × (mark.to ≤ length tokens.now) }
    ensures { result ≡ goes_on tokens.now run mark }
{
    is_text(tokens, run) && is_text(tokens, mark) && run.to == mark.from
}

/// The lines of a file, where text lines that follow one another are one.
pub(crate) fn runs(alloc: Global, tokens: &[Token], marks: &[Mark]) -> Mem<List<Mark>>
    requires { MarksLie 0 (length tokens.now) marks.now }
    ensures { IfOk result (λ all. all ≡ runs tokens.now marks.now) }
{
    let mut all = List::new(alloc);
    let Some((first, behind)) = marks.split_first() else {
        return Ok(all);
    };
    let mut run = *first;
    let mut rest = behind;
    while let Some((mark, behind)) = rest.split_first() {
        rest = behind;
        if goes_on(tokens, run, *mark) {
            run = Mark {
                part: Part::Line,
                from: run.from,
                to: mark.to,
            };
            continue;
        }
        all.push(run)?;
        run = *mark;
    }
    all.push(run)?;
    Ok(all)
}
