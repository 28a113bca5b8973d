//! The constants of C with integer values (N1570 6.4.4), and what operators give of them (N1570 6.5), on integers of 64
//! bits.
#![tactic(auto)]

mod char_type;
mod characters;
mod escape;
mod integers;
mod laws;
mod number;
mod operators;
mod scalars;

pub use char_type::{CharType, fits};
pub use characters::{Constant, c_char_len, character};
pub use escape::{Code, code_of};
pub use integers::{Base, base_of, digit_count, digits_value, front_len, integer};
pub use laws::{characters_by_utf8, integers_by_grammar, results_have_types};
pub use number::Number;
pub use operators::{
    Operator, apply, apply_prefix, infix_level, infix_unsigned, is_prefix, prefix_unsigned,
};
