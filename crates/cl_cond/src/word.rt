//! What the tokens of a condition are in its grammar.

ghost use Rattle.std.specs.Prelude.{◌≡◌};
ghost use Rattle.cl_cond.specs.Words.{class_of, class_of_byte, class_of_constant, class_of_number, class_of_pair, class_of_text};

use cl_base::{Kind, PpToken};
use cl_const::{Constant, Number, Operator, character, integer};

/// What a token of a condition is.
#[derive(Clone, Copy)]
pub enum Class {
    /// A constant, or an identifier, which counts 0.
    Operand(Constant),
    Operator(Operator),
    /// `(`.
    Open,
    /// `)`.
    Close,
    /// `?`.
    Question,
    /// `:`.
    Colon,
    /// A token that no condition has.
    Other,
}

/// A token of a condition, with its number among them, from 0.
#[derive(Clone, Copy)]
pub struct Word {
    pub place: u32,
    pub class: Class,
}

/// What the token is (N1570 6.4, 6.10.1p4).
pub fn class_of(token: &PpToken) -> Class
    ensures { result ≡ class_of token.now }
{
    match token.kind {
        Kind::Ident => Class::Operand(Constant::Known(Number::Signed(0))),
        Kind::Number => class_of_number(integer(token.text.bytes())),
        Kind::Char => class_of_constant(character(token.text.bytes())),
        Kind::Punct => class_of_text(token.text.bytes()),
        Kind::Str | Kind::Header | Kind::Other => Class::Other,
    }
}

fn class_of_number(number: Option<Number>) -> Class
    ensures { result ≡ class_of_number number }
{
    match number {
        Some(number) => Class::Operand(Constant::Known(number)),
        None => Class::Other,
    }
}

fn class_of_constant(constant: Option<Constant>) -> Class
    ensures { result ≡ class_of_constant constant }
{
    match constant {
        Some(constant) => Class::Operand(constant),
        None => Class::Other,
    }
}

fn class_of_text(text: &[u8]) -> Class
    ensures { result ≡ class_of_text text.now }
{
    match text.len() {
        1 => class_of_byte(text[0]),
        2 => class_of_pair(text[0], text[1]),
        _ => Class::Other,
    }
}

fn class_of_byte(byte: u8) -> Class
    ensures { result ≡ class_of_byte byte }
{
    match byte {
        b'(' => Class::Open,
        b')' => Class::Close,
        b'?' => Class::Question,
        b':' => Class::Colon,
        b'|' => Class::Operator(Operator::BitOr),
        b'^' => Class::Operator(Operator::BitXor),
        b'&' => Class::Operator(Operator::BitAnd),
        b'<' => Class::Operator(Operator::Less),
        b'>' => Class::Operator(Operator::Greater),
        b'+' => Class::Operator(Operator::Plus),
        b'-' => Class::Operator(Operator::Minus),
        b'*' => Class::Operator(Operator::Times),
        b'/' => Class::Operator(Operator::Divide),
        b'%' => Class::Operator(Operator::Remainder),
        b'~' => Class::Operator(Operator::Complement),
        b'!' => Class::Operator(Operator::Not),
        _ => Class::Other,
    }
}

fn class_of_pair(first: u8, second: u8) -> Class
    ensures { result ≡ class_of_pair first second }
{
    match (first, second) {
        (b'|', b'|') => Class::Operator(Operator::Or),
        (b'&', b'&') => Class::Operator(Operator::And),
        (b'=', b'=') => Class::Operator(Operator::Equal),
        (b'!', b'=') => Class::Operator(Operator::NotEqual),
        (b'<', b'=') => Class::Operator(Operator::LessEqual),
        (b'>', b'=') => Class::Operator(Operator::GreaterEqual),
        (b'<', b'<') => Class::Operator(Operator::ShiftLeft),
        (b'>', b'>') => Class::Operator(Operator::ShiftRight),
        _ => Class::Other,
    }
}
