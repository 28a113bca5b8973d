//! What a token is.

ghost use Rattle.std.specs.Prelude.{◌≡◌, ◌++◌, slice_get, IfOk, OnOk};
ghost use Rattle.cl_pp.specs.Defined.{span_at, spread};
ghost use Rattle.cl_pp.specs.Including.{is_header};
ghost use Rattle.cl_pp.specs.Lines.{fault_in, span_or, spread_fault};

use cl_base::{Diag, Duplicate, Fault, Kind, List, Mem, PpToken, Span, Token};
use std::alloc::Global;

/// A place in the file of this number.
pub(crate) fn span_at(file: u32, from: u32, to: u32) -> Span
    ensures { result ≡ span_at file from to }
{
    Span { file, from, to }
}

/// A token of a file, where it is written.
pub(crate) fn spread(alloc: Global, file: u32, token: &Token) -> Mem<PpToken>
    ensures { IfOk result (λ it. it ≡ spread file token.now) }
{
    let span = span_at(file, token.from, token.to);
    let text = token.text.duplicate(alloc)?;
    Ok(PpToken {
        kind: token.kind,
        text,
        space: token.space,
        spell: Some(span),
        at: span,
    })
}

/// Whether it is a header name.
pub(crate) fn is_header(kind: Kind) -> bool
    ensures { result ≡ is_header kind }
{
    matches!(kind, Kind::Header)
}

/// A fault of a file.
pub(crate) fn diag(file: u32, fault: &Fault) -> Diag
    ensures { result ≡ spread_fault file fault.now }
{
    Diag {
        number: fault.number,
        at: span_at(file, fault.from, fault.to),
        name: None,
    }
}

/// Where a token lies that was made, or the line's last one, if there is none at this place.
pub(crate) fn span_or(file: u32, made: &[PpToken], place: usize, line: &[Token]) -> Span
    ensures { result ≡ span_or file (slice_get made.now place) line.now }
{
    match made.get(place) {
        Some(token) => token.at,
        None => match line.last() {
            Some(last) => span_at(file, last.from, last.to),
            None => span_at(file, 0, 0),
        },
    }
}

/// Adds a fault at the token of this number, or at the line's last one.
pub(crate) fn fault_in(
    faults: &mut List<Diag>,
    file: u32,
    number: u8,
    made: &[PpToken],
    place: usize,
    line: &[Token],
) -> Mem<()>
    ensures { OnOk result (faults.new ≡ faults.old ++ fault_in file number made.now place line.now) }
{
    faults.push(Diag {
        number,
        at: span_or(file, made, place, line),
        name: None,
    })
}
