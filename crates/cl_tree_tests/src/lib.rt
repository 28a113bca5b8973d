//! Tests of the grammar: large inputs, and the table of productions as it is written out. They stand in a crate of their
//! own, since a crate with tests is proved twice.
#![tactic(auto)]

#[cfg(test)]
mod externals;
#[cfg(test)]
mod grammar;
#[cfg(test)]
mod grammar_cases;
#[cfg(test)]
mod large;
#[cfg(test)]
mod reading;
