//! The names that a file mentions at file scope.

ghost use Rattle.std.specs.Prelude.{◌≡◌};
ghost use Rattle.cl_outline.specs.Mentions.{is_tag};

/// What a name of a file stands for.
#[derive(Clone, Copy, Debug, PartialEq, Eq)]
pub enum Sort {
    /// A function: the declarator's first derivation round the name is a function's (N1570 6.7.6.3).
    Function,
    /// An object: any other declarator without `typedef`.
    Object,
    /// A typedef name: a declarator with `typedef` (6.7.8).
    Typedef,
    /// The tag of a structure or union (6.7.2.1).
    Structure,
    /// The tag of an enumeration (6.7.2.2).
    Enumeration,
}

/// A name that is declared, or a tag that is named: `at` is the number of its token, from 0, and the item in which it stands
/// goes from the token `from` up to, and without, the token `to`. It `declares` its name whatever stands before it in the
/// file: so does a declarator, a tag with its content, and one that stands alone, as in `struct S;` (6.7.2.3p7).
#[derive(Clone, Copy)]
pub struct Mention {
    pub sort: Sort,
    pub at: u32,
    pub declares: bool,
    pub from: u32,
    pub to: u32,
}

/// Whether it is a tag.
pub(crate) fn is_tag(sort: Sort) -> bool
    ensures { result ≡ is_tag sort }
{
    match sort {
        Sort::Function | Sort::Object | Sort::Typedef => false,
        Sort::Structure | Sort::Enumeration => true,
    }
}
