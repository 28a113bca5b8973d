//! Which lines are active.

ghost use Rattle.std.specs.Prelude.{◌≡◌, ◌++◌, ◌∷◌, [], ℕ, IfOk, OnOk, slice_index_or, reverse};
ghost use Rattle.cl_cond.specs.Sections.{opens};
ghost use Rattle.cl_pp.specs.code.Stacks.{all_active, is_skipped, stacked, tell, top_of, under};

use cl_base::{List, Mem};
use cl_cond::{Condition, Part};

/// The section that is open at a place.
#[derive(Clone, Copy)]
pub struct Section {
    /// The lines there are active: the branch that is open there is taken, and so is each around it.
    pub active: bool,
    /// The next branch of the section may be taken: none is so far, and the section is in active lines.
    pub free: bool,
    /// The section is in active lines.
    pub outer: bool,
}

/// Outside all sections.
pub(crate) const ALL_ACTIVE: Section = Section {
    active: true,
    free: true,
    outer: true,
};

/// Whether the line begins a section.
pub(crate) fn opens(condition: Condition) -> bool
    ensures { result ≡ opens condition }
{
    matches!(
        condition,
        Condition::If | Condition::IfDef | Condition::IfNDef
    )
}

/// The innermost section that is open.
pub(crate) fn top(sections: &[Section]) -> Section
    ensures { result ≡ top_of (reverse sections.now) }
{
    match sections.last() {
        Some(section) => *section,
        None => ALL_ACTIVE,
    }
}

/// Whether it is a line that nothing is done with: no branch begins or ends there, and it isn't active.
pub(crate) fn is_skipped(part: Part, sections: &[Section]) -> bool
    ensures { result ≡ is_skipped part (top_of (reverse sections.now)) }
{
    match part {
        Part::Line => !top(sections).active,
        Part::End | Part::Branch(_) => false,
    }
}

/// Passes a line: `sections` are those that are open, the innermost last, and `held` says whether its condition holds, if
/// it begins a branch.
pub(crate) fn pass(sections: &mut List<Section>, part: Part, held: bool) -> Mem<()>
    ensures { OnOk result (reverse sections.new ≡ stacked part held (reverse sections.old)) }
{
    match part {
        Part::Line => Ok(()),
        Part::End => {
            sections.pop();
            Ok(())
        }
        Part::Branch(condition) => branch(sections, opens(condition), held),
    }
}

/// Passes a line that begins a branch.
fn branch(sections: &mut List<Section>, opens: bool, held: bool) -> Mem<()>
    ensures { OnOk result (reverse sections.new ≡ under opens held (reverse sections.old)) }
{
    let here = top(sections.as_slice());
    let (may, outer) = if opens {
        (here.active, here.active)
    } else {
        sections.pop();
        (here.free, here.outer)
    };
    sections.push(Section {
        active: held && may,
        free: !held && may,
        outer,
    })
}
