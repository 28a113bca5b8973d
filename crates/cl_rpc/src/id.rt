ghost use Rattle.std.specs.Prelude.{◌≡◌, ◌↔◌, IsTrue};

use cl_base::{Duplicate, Mem, Text};
use std::alloc::Global;

/// The id of a request: a whole number of 64 bits with sign, or a text (JSON-RPC 2.0, section 4).
/// A number that is spelled with a fraction or an exponent, as `1.0`, is no id.
#[derive(Drop)]
pub enum Id {
    Number(i64),
    Text(Text),
}

impl Id {
    /// Whether this is the same id as the other.
    pub fn same(&self, other: &Id) -> bool
        ensures { IsTrue result ↔ (self.now ≡ other.now) }
    {
        match self {
            Id::Number(number) => match other {
                Id::Number(another) => *number == *another,
                Id::Text(_) => false,
            },
            Id::Text(text) => match other {
                Id::Number(_) => false,
                Id::Text(another) => text.bytes() == another.bytes(),
            },
        }
    }
}

impl Duplicate for Id {
    fn duplicate(&self, alloc: Global) -> Mem<Id> {
        match self {
            Id::Number(number) => Ok(Id::Number(*number)),
            Id::Text(text) => {
                let text = text.duplicate(alloc)?;
                Ok(Id::Text(text))
            }
        }
    }
}
