//! Conversions, and what types the operators take and give.
#![tactic(auto)]

mod choices;
mod conversions;
mod laws;
mod members;
mod operands;
mod operators;
mod single;

pub use choices::{assignable, call, conditional, takes_count};
pub use conversions::{of_basic, promote, usual};
pub use laws::{promotions, results_keep_normal_form, usual_conversions};
pub use members::{Access, member_of};
pub use operands::{is_arithmetic, is_integer, is_pointer, is_scalar, target, value_type};
pub use operators::{Outcome, assigns, binary, designated, is_place, value};
pub use single::{cast, is_pointer_type, pointed, size_of, unary};
