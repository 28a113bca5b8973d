use crate::rule::Rule;
use cl_base::List;

/// A tree of the grammar. `choice` is the number of the alternative in N1570 A.2, from 0. It stands over the tokens from
/// `from` up to, and without, `to`, by their numbers from 0. Its parts stand in order; the separators of a list are none of
/// them. A token's tree has the rule `Token`, choice 0 and no parts.
#[derive(Drop)]
pub struct Tree {
    pub rule: Rule,
    pub choice: u8,
    pub from: u32,
    pub to: u32,
    pub parts: List<Tree>,
}
