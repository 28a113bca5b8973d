//! A diagnostic, by what orders it.

ghost use Rattle.std.specs.Prelude.{◌≡◌};
ghost use Rattle.cl_diag.specs.code.Ranks.{diag_of, rank_of};

use cl_base::{Diag, Name, Span};

/// A diagnostic. It is compared by its fields in order.
#[derive(PartialEq, Eq, PartialOrd, Ord, Drop)]
pub(crate) struct Rank {
    pub file: u32,
    pub from: u32,
    pub number: u8,
    pub to: u32,
    pub name: Option<Name>,
}

pub(crate) fn rank_of(diag: Diag) -> Rank
    ensures { result ≡ rank_of diag }
{
    Rank {
        file: diag.at.file,
        from: diag.at.from,
        number: diag.number,
        to: diag.at.to,
        name: diag.name,
    }
}

pub(crate) fn diag_of(rank: Rank) -> Diag
    ensures { result ≡ diag_of rank }
{
    Diag {
        number: rank.number,
        at: Span {
            file: rank.file,
            from: rank.from,
            to: rank.to,
        },
        name: rank.name,
    }
}
