//! Puts diagnostics in order.

ghost use Rattle.std.specs.Prelude.{◌≡◌, [], map, IfOk};
ghost use Rattle.cl_diag.specs.Order.{IsInOrder};
ghost use Rattle.cl_diag.specs.code.Ranks.{Taken, diag_of};

use crate::rank::{Rank, diag_of, rank_of};
use cl_base::{Diag, List, Mem};
use std::alloc::Global;
use std::collections::BTreeSet;

/// The diagnostics in order, each of them once: by file, by where the place begins, by number, by where the place ends, and
/// by the bytes of the name, where one without a name goes first.
pub fn ordered(alloc: Global, diags: List<Diag>) -> Mem<List<Diag>>
    ensures { IfOk result (λ all. IsInOrder diags all) }
{
    let ranks = ranks_of(alloc, diags)?;
    let all = diags_of(alloc, ranks)?;
    Ok(all)
}

fn ranks_of(alloc: Global, diags: List<Diag>) -> Mem<BTreeSet<Rank>>
    ensures { IfOk result (λ ranks. Taken diags [] ranks) }
{
    let mut ranks = BTreeSet::new(alloc);
    let mut left = diags;
    while let Some(diag) = left.pop() {
        ranks.insert(rank_of(diag))?;
    }
    Ok(ranks)
}

fn diags_of(alloc: Global, ranks: BTreeSet<Rank>) -> Mem<List<Diag>>
    ensures { IfOk result (λ all. all ≡ map diag_of ranks.keys) }
{
    let mut all = List::new(alloc);
    let mut left = ranks;
    while let Some(rank) = left.pop_first() {
        all.push(diag_of(rank))?;
    }
    Ok(all)
}
