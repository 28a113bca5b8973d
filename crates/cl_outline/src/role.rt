//! What a node of a tree says of the names in it.

ghost use Rattle.std.specs.Prelude.{◌≡◌};
ghost use Rattle.cl_outline.specs.Roles as r;

use cl_tree::Rule;

/// What a node of a tree says of the names in it.
#[derive(Clone, Copy)]
pub(crate) enum Role {
    /// It has a scope of its own: a list of parameters, or a body.
    Scoped,
    /// It is the name that a declarator declares.
    Name,
    /// It makes a function of what its declarator declares.
    Function,
    /// It makes a pointer or an array of it.
    Other,
    /// It declares members.
    Members,
    /// It is a structure's or union's specifier, with its content or without.
    Structure(bool),
    /// An enumeration's.
    Enumeration(bool),
    /// It says nothing of them.
    Plain,
}

/// What a node says, by its rule and the number of its alternative.
pub(crate) fn role_of(rule: Rule, choice: u8) -> Role
    ensures { result ≡ r.role_of rule choice }
{
    match rule {
        Rule::ParameterTypeList => Role::Scoped,
        Rule::ParameterList => Role::Scoped,
        Rule::CompoundStatement => Role::Scoped,
        Rule::DirectDeclarator => declarator_role(choice),
        Rule::Declarator => Role::Other,
        Rule::StructDeclaration => Role::Members,
        Rule::StructOrUnionSpecifier => Role::Structure(choice == 0),
        Rule::EnumSpecifier => Role::Enumeration(choice != 2),
        _ => Role::Plain,
    }
}

/// What a direct declarator says, by the number of its alternative.
fn declarator_role(choice: u8) -> Role
    ensures { result ≡ r.declarator_role choice }
{
    if choice == 0 {
        Role::Name
    } else if choice == 1 {
        Role::Plain
    } else if choice == 6 || choice == 7 {
        Role::Function
    } else {
        Role::Other
    }
}
