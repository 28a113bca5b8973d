//! Follows the sections from line to line.

ghost use Rattle.std.specs.Prelude.{◌≡◌, ◌∷◌, ◌<◌, ◌^◌, false, if◌then◌else◌, length, reverse, IfOk};
ghost use Rattle.cl_cond.specs.Sections.{parts};
ghost use Rattle.cl_cond.specs.code.Nesting.{after_line, ends_after, ends_of, noted, of_if, of_section, rest, spare_before, trouble_by, with_else};

use crate::mark::{Condition, Mark, Part};
use crate::trouble::Trouble;
use cl_base::{List, Mem};
use std::alloc::Global;

/// The sections at a place. `levels` has the open ones, the innermost last, and says of each whether it has had its else.
/// `ends` has the if-lines from there on, the next one last, and says of each whether its section has its end.
#[derive(Drop)]
pub struct Nesting {
    pub levels: List<bool>,
    pub ends: List<bool>,
}

impl Nesting {
    /// What is wrong with the next line, and goes past it.
    pub fn pass(&mut self, part: Part) -> Mem<Option<Trouble>>
        ensures trouble { IfOk result (λ t. t ≡ trouble_by part (reverse self.old.levels) (reverse self.old.ends)) }
        ensures levels { IfOk result (λ _. reverse self.new.levels ≡ after_line part (reverse self.old.levels)) }
        ensures ends { IfOk result (λ _. reverse self.new.ends ≡ ends_after part (reverse self.old.ends)) }
    {
        match part {
            Part::Line => Ok(None),
            Part::End => match self.levels.pop() {
                Some(_) => Ok(None),
                None => Ok(Some(Trouble::Outside)),
            },
            Part::Branch(Condition::Elif) => self.pass_branch(false),
            Part::Branch(Condition::Else) => self.pass_branch(true),
            Part::Branch(_) => self.pass_if(),
        }
    }

    /// Passes a branch of the innermost section, which is its else or not.
    fn pass_branch(&mut self, is_else: bool) -> Mem<Option<Trouble>>
        ensures trouble { IfOk result (λ t. t ≡ of_section (reverse self.old.levels)) }
        ensures levels { IfOk result (λ _. reverse self.new.levels ≡ (if is_else then with_else (reverse self.old.levels) else reverse self.old.levels)) }
        ensures ends { self.new.ends ≡ self.old.ends }
    {
        match self.levels.pop() {
            None => Ok(Some(Trouble::Outside)),
            Some(true) => {
                self.levels.push(true)?;
                Ok(Some(Trouble::AfterElse))
            }
            Some(false) => {
                self.levels.push(is_else)?;
                Ok(None)
            }
        }
    }

    /// Passes an if-line.
    fn pass_if(&mut self) -> Mem<Option<Trouble>>
        ensures trouble { IfOk result (λ t. t ≡ of_if (reverse self.old.ends)) }
        ensures levels { IfOk result (λ _. reverse self.new.levels ≡ false ∷ reverse self.old.levels) }
        ensures ends { IfOk result (λ _. reverse self.new.ends ≡ rest (reverse self.old.ends)) }
    {
        self.levels.push(false)?;
        match self.ends.pop() {
            Some(true) => Ok(None),
            _ => Ok(Some(Trouble::Unended)),
        }
    }
}

/// For each if-line, the last one first, whether its section has its end.
pub fn ends(alloc: Global, lines: &[Mark]) -> Mem<List<bool>>
    requires { length lines.now < 2 ^ 32 }
    ensures { IfOk result (λ ends. reverse ends ≡ ends_of (parts lines.now)) }
{
    let mut ends = List::new(alloc);
    let mut spare = 0;
    let mut at = lines.len();
    while at > 0 {
        at -= 1;
        let part = lines[at].part;
        note_end(&mut ends, part, spare)?;
        spare = spare_before(part, spare);
    }
    Ok(ends)
}

/// Notes of an if-line whether one of the ends after it is to spare.
fn note_end(ends: &mut List<bool>, part: Part, spare: usize) -> Mem<()>
    ensures { IfOk result (λ _. reverse ends.new ≡ noted part spare (reverse ends.old)) }
{
    match part {
        Part::Branch(Condition::If | Condition::IfDef | Condition::IfNDef) => ends.push(spare > 0),
        _ => Ok(()),
    }
}

/// How many ends are to spare before this line, where there are this many after it.
fn spare_before(part: Part, spare: usize) -> usize
    requires { spare < 2 ^ 32 }
    ensures { result ≡ spare_before part spare }
{
    match part {
        Part::Line => spare,
        Part::End => spare + 1,
        Part::Branch(Condition::If | Condition::IfDef | Condition::IfNDef) => spare.saturating_sub(
            1,
        ),
        Part::Branch(_) => spare,
    }
}
