//! Declarations and type names with their one tree.
#![tactic(auto)]

mod declaration;

pub use declaration::{
    DeclTree, one_declaration, one_type_name, parse_declaration, parse_type_name,
};
