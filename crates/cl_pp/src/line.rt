//! The faults of a line (N1570 6.10).

ghost use Rattle.std.specs.Prelude.{◌≡◌, ◌++◌, OnOk};
ghost use Rattle.cl_pp.specs.Acts.{nameless};
ghost use Rattle.cl_pp.specs.Lines.{extra, fault_at, is_directive, is_unread, rest_of};

use crate::token::span_at;
use cl_base::{Diag, List, Mem, Token};

/// Whether a line is a directive: it begins with `#`.
pub(crate) fn is_directive(line: &[Token]) -> bool
    ensures { result ≡ is_directive line.now }
{
    match line.split_first() {
        Some((first, _)) => first.is_hash(),
        None => false,
    }
}

/// The tokens behind the first two.
pub(crate) fn rest_of(line: &[Token]) -> &[Token]
    ensures { result.now ≡ rest_of line.entry.now }
{
    let Some((_, named)) = line.split_first() else {
        return &[];
    };
    match named.split_first() {
        Some((_, rest)) => rest,
        None => &[],
    }
}

/// Adds a fault of a token.
pub(crate) fn add(faults: &mut List<Diag>, file: u32, number: u8, token: &Token) -> Mem<()>
    ensures { OnOk result (faults.new ≡ faults.old ++ fault_at file number token.now) }
{
    faults.push(Diag {
        number,
        at: span_at(file, token.from, token.to),
        name: None,
    })
}

/// Adds fault 7, if there is a token behind a directive that is complete.
pub(crate) fn extra(faults: &mut List<Diag>, file: u32, rest: &[Token]) -> Mem<()>
    ensures { OnOk result (faults.new ≡ faults.old ++ extra file rest.now) }
{
    match rest.split_first() {
        Some((token, _)) => add(faults, file, 7, token),
        None => Ok(()),
    }
}

/// Adds fault 6, at a directive's name.
pub(crate) fn nameless(faults: &mut List<Diag>, file: u32, line: &[Token]) -> Mem<()>
    ensures { OnOk result (faults.new ≡ faults.old ++ nameless file line.now) }
{
    let Some((_, rest)) = line.split_first() else {
        return Ok(());
    };
    match rest.split_first() {
        Some((name, _)) => add(faults, file, 6, name),
        None => Ok(()),
    }
}

/// Whether the directive's tokens aren't looked at: it is `error` or `pragma`.
pub(crate) fn is_unread(name: &Token) -> bool
    ensures { result ≡ is_unread name.now }
{
    name.is_word(b"error".as_slice()) || name.is_word(b"pragma".as_slice())
}
