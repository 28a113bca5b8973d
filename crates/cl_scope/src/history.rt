//! What happens before a place, as far as scopes go.

ghost use Rattle.std.specs.Prelude.{◌≡◌};
ghost use Rattle.cl_scope.specs.Names.{local_of};

use cl_base::Name;
use cl_types::{DeclNo, ScopeKind, Space};

/// A name space in which a name gets its meaning in a scope (N1570 6.2.3), and not in a structure or union.
#[derive(Clone, Copy)]
pub enum Local {
    Ordinary,
    Tags,
    Labels,
}

/// A scope began, or a name got a meaning in it.
#[derive(Drop)]
pub enum Entry {
    Begin,
    Named(Local, Name, DeclNo),
}

/// What a place stands in: a scope, or the content of a structure, union or enumeration. `kind` says which, `scope` is the
/// kind of the innermost scope, and `owner` the declaration in whose content, parameter list or body the place stands.
#[derive(Clone, Copy)]
pub struct Within {
    pub kind: ScopeKind,
    pub scope: ScopeKind,
    pub owner: Option<DeclNo>,
}

/// The name space, if names get their meaning in scopes there.
pub fn local_of(space: Space) -> Option<Local>
    ensures { result ≡ local_of space }
{
    match space {
        Space::Ordinary => Some(Local::Ordinary),
        Space::Tags => Some(Local::Tags),
        Space::Labels => Some(Local::Labels),
        Space::MembersOf(_) => None,
    }
}
