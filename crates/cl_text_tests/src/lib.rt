//! Tests of the crates that read a text: ground, tokens, macro replacement, conditions, preprocessing: large and deep inputs,
//! copies, orders, laws. Tables of cases stand in `cl_text_cases`.
#![tactic(auto)]

#[cfg(test)]
mod copies;
#[cfg(test)]
mod deep;
#[cfg(test)]
mod diagnostics;
#[cfg(test)]
mod header_sources;
#[cfg(test)]
mod large;
#[cfg(test)]
mod laws;
#[cfg(test)]
mod macros;
#[cfg(test)]
mod over;
#[cfg(test)]
mod places;
#[cfg(test)]
mod values;
