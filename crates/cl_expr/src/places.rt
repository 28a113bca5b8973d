//! What stands in the tables of a place or a nonterminal.

ghost use Rattle.std.specs.Prelude.{◌≡◌, slice_get};
ghost use Rattle.cl_tree.specs.Grammar as g;
ghost use Rattle.cl_expr.specs.code.Table as t;

use crate::edge_rows::all_edges;
use crate::goal_rows::{all_kinds, all_openers, all_suffixes, goal_rows};
use crate::place_rows::rows;
use crate::table::{Edge, GoalRow, Head, Label, Row, Ways};
use cl_tree::{Nonterminal, Terminal};

fn row_at(place: u16) -> Option<Row>
    ensures { result ≡ slice_get t.rows place }
{
    rows().get(place as usize).copied()
}

fn goal_at(goal: Nonterminal) -> Option<GoalRow>
    ensures { result ≡ slice_get t.goal_rows (t.number goal) }
{
    goal_rows().get(goal as usize).copied()
}

/// What may stand at a place.
pub fn edges(place: u16) -> &'static [Edge]
    ensures { result.now ≡ t.edges place }
{
    match row_at(place) {
        Some(row) => &all_edges()[row.first as usize..row.last as usize],
        None => &[],
    }
}

/// The node that may end at a place.
pub fn name_of(place: u16) -> Option<Label>
    ensures { result ≡ t.name_of place }
{
    match row_at(place) {
        Some(row) => row.label,
        None => None,
    }
}

/// The tokens that may not follow it then.
pub fn bar(place: u16) -> Option<Terminal>
    ensures { result ≡ t.bar_of place }
{
    match row_at(place) {
        Some(row) => row.bar,
        None => None,
    }
}

/// Whether the node that may end at a place is a block.
pub fn is_scoped(place: u16) -> bool
    ensures { result ≡ t.scoped place }
{
    match row_at(place) {
        Some(row) => row.scoped,
        None => false,
    }
}

/// The nonterminal that was read before a production was known to begin.
pub fn corner(place: u16) -> Option<Head>
    ensures { result ≡ t.corner place }
{
    match row_at(place) {
        Some(row) => row.corner,
        None => None,
    }
}

/// Whether a tree that ends at a place is a declarator that names something.
fn is_named(place: u16) -> bool
    ensures { result ≡ t.is_named place }
{
    match row_at(place) {
        Some(row) => row.named,
        None => false,
    }
}

/// The places after a part whose kind decides.
fn turning(place: u16) -> Option<Ways>
    ensures { result ≡ t.turning place }
{
    match row_at(place) {
        Some(row) => row.turning,
        None => None,
    }
}

/// The place after a part that ended at a place of its own.
pub fn turn(place: u16, part: u16) -> u16
    ensures { result ≡ t.turn place part }
{
    let Some(ways) = turning(place) else {
        return place;
    };
    let named = is_named(part);
    if named { ways.named } else { ways.other }
}

/// The place after what stands first at a place.
pub fn next_of(place: u16) -> u16
    ensures { result ≡ t.next_by (slice_get (t.edges place) 0) place }
{
    match edges(place).first() {
        Some(edge) => edge.next,
        None => place,
    }
}

/// The places where the trees of a nonterminal end.
pub fn kinds(goal: Nonterminal) -> &'static [u16]
    ensures { result.now ≡ t.kinds goal }
{
    match goal_at(goal) {
        Some(row) => &all_kinds()[row.kinds.from as usize..row.kinds.to as usize],
        None => &[],
    }
}

/// The places at the left end of a nonterminal.
pub fn openers(goal: Nonterminal) -> &'static [u16]
    ensures { result.now ≡ t.openers goal }
{
    match goal_at(goal) {
        Some(row) => &all_openers()[row.openers.from as usize..row.openers.to as usize],
        None => &[],
    }
}

/// The places that go on from there.
pub fn suffixes(goal: Nonterminal) -> &'static [u16]
    ensures { result.now ≡ t.suffixes goal }
{
    match goal_at(goal) {
        Some(row) => &all_suffixes()[row.suffixes.from as usize..row.suffixes.to as usize],
        None => &[],
    }
}

/// The tokens with which no tree of a nonterminal begins.
pub fn shuns(goal: Nonterminal) -> Option<Terminal>
    ensures { result ≡ g.shuns goal }
{
    match goal_at(goal) {
        Some(row) => row.shuns,
        None => None,
    }
}
