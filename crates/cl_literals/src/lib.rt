//! Constants and string literals as C reads them (N1570 6.4.4, 6.4.5): their values, types and faults.
#![tactic(auto)]

mod finding;
mod floats;
mod numbers;
mod strings;

pub use finding::{elements, faults, literal_prefix};
pub use numbers::{NumberConstant, number};
pub use strings::{Prefix, char_value, has_bad_escape, prefix_of};
