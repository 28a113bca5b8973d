//! What a token begins, by its class alone.

ghost use Rattle.std.specs.Prelude.{◌≡◌};
ghost use Rattle.cl_expr.specs.code.Looks as l;
ghost use Rattle.cl_expr.specs.code.Table as t;

use crate::look_rows::{number_rows, opener_numbers, place_numbers, suffix_numbers};
use cl_tree::{Class, Nonterminal};

/// The number of a class in a row; 0 for nothing.
fn in_row(row: &[u8], class: Class) -> u8
    ensures { result ≡ l.in_row row.now class }
{
    match row.get(class as usize) {
        Some(digit) => digit.saturating_sub(48),
        None => 0,
    }
}

/// The same in the row of a member of a list.
fn number_at(list: &[u8], at: usize, class: Class) -> u8
    ensures { result ≡ l.number_at list.now at class }
{
    let Some(number) = list.get(at) else {
        return 0;
    };
    match number_rows().get(*number as usize) {
        Some(row) => in_row(row, class),
        None => 0,
    }
}

/// Which edge of a place a token begins, from 1; 0 for none.
pub fn edge_number(place: u16, class: Class) -> u8
    ensures { result ≡ l.number_at l.place_numbers place class }
{
    number_at(place_numbers(), place as usize, class)
}

/// Which place at the left end of a nonterminal a token enters, from 1; 0 for none.
pub fn opener_number(goal: Nonterminal, class: Class) -> u8
    ensures { result ≡ l.number_at l.opener_numbers (t.number goal) class }
{
    number_at(opener_numbers(), goal as usize, class)
}

/// The first place that goes on from a nonterminal with a token, from 1; 0 for none.
pub fn suffix_number(goal: Nonterminal, class: Class) -> u8
    ensures { result ≡ l.number_at l.suffix_numbers (t.number goal) class }
{
    number_at(suffix_numbers(), goal as usize, class)
}
