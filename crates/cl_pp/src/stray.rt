//! What lexing tells of tokens that fit nothing (N1570 6.4p3).

ghost use Rattle.std.specs.Prelude.{◌≡◌, ◌++◌, ℕ, OnOk, IfOk};
ghost use Rattle.std.specs.Ordering.{nat_cmp};
ghost use Rattle.std.specs.BTreeMap.{get};
ghost use Rattle.cl_pp.specs.Lines.{is_free_text, line_strays, strays, stray, told};

use crate::line::is_unread;
use crate::token::diag;
use cl_base::{Diag, Fault, Kind, List, Mem, Token};
use std::alloc::Global;
use std::collections::BTreeMap;

/// Adds the faults that lexing tells of a line's tokens, unless they aren't looked at.
pub(crate) fn line_strays(
    faults: &mut List<Diag>,
    file: u32,
    told: &BTreeMap<u32, Fault>,
    line: &[Token],
) -> Mem<()>
    ensures { OnOk result (faults.new ≡ faults.old ++ line_strays file (get nat_cmp told.now) line.now) }
{
    if is_free_text(line) {
        Ok(())
    } else {
        strays(faults, file, told, line)
    }
}

/// Whether the line is an `#error` or a `#pragma`.
fn is_free_text(line: &[Token]) -> bool
    ensures { result ≡ is_free_text line.now }
{
    let Some((hash, rest)) = line.split_first() else {
        return false;
    };
    match rest.split_first() {
        Some((name, _)) => hash.is_hash() && is_unread(name),
        None => false,
    }
}

/// Adds the faults of tokens.
fn strays(
    faults: &mut List<Diag>,
    file: u32,
    told: &BTreeMap<u32, Fault>,
    line: &[Token],
) -> Mem<()>
    ensures { OnOk result (faults.new ≡ faults.old ++ strays file (get nat_cmp told.now) line.now) }
{
    for token in line {
        stray(faults, file, told, token)?;
    }
    Ok(())
}

/// Adds the fault of a token, if it has one.
fn stray(faults: &mut List<Diag>, file: u32, told: &BTreeMap<u32, Fault>, token: &Token) -> Mem<()>
    ensures { OnOk result (faults.new ≡ faults.old ++ stray file (get nat_cmp told.now) token.now.kind token.now) }
{
    match token.kind {
        Kind::Other => match told.get(&token.from) {
            Some(fault) => faults.push(diag(file, fault)),
            None => Ok(()),
        },
        _ => Ok(()),
    }
}

/// The faults of lexing, by the bytes at which they begin.
pub(crate) fn told(alloc: Global, faults: &[Fault]) -> Mem<BTreeMap<u32, Fault>>
    ensures { IfOk result (λ map. (at : ℕ) → get nat_cmp map at ≡ told faults.now at) }
{
    let mut map = BTreeMap::new(alloc);
    for fault in faults {
        map.insert(fault.from, *fault)?;
    }
    Ok(map)
}
