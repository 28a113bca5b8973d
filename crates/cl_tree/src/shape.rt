//! What a token is to the grammar, before it is known which names are typedef names.

ghost use Rattle.std.specs.Prelude.{◌≡◌};
ghost use Rattle.cl_tree.specs.Shapes as s;

use crate::class::Class;

/// What a token is by itself.
#[derive(Clone, Copy)]
pub enum Raw {
    /// A token of one class.
    Plain(Class),
    /// An identifier.
    Word,
    /// `(`.
    Paren,
    /// `*`.
    Star,
    /// `,`.
    Comma,
    /// `_Atomic`.
    Atomic,
}

/// What a token is to the one before it.
#[derive(Clone, Copy)]
pub enum Ahead {
    /// Nothing that matters to it.
    Other,
    /// `:`.
    Colon,
    /// `]`.
    Bracket,
    /// `}` or `...`.
    End,
    /// `[` or `.`.
    Designator,
    /// `(`.
    Paren,
    /// A word that may begin a type and is no identifier.
    Type,
}

/// What a token is by itself, and to the one before it.
#[derive(Clone, Copy)]
pub struct Sort {
    pub raw: Raw,
    pub ahead: Ahead,
}

/// What a token is to the grammar, before it is known which names are typedef names.
#[derive(Clone, Copy)]
pub enum Shape {
    /// A token of one class.
    Fixed(Class),
    /// An identifier; whether a `:` stands directly after it.
    Word(bool),
    /// `(`; whether its partner stands directly before `{`, and whether a word that may begin a type stands directly after it.
    Paren(bool, bool),
}

/// The shape of a token, with what stands after it, and whether its partner stands directly before `{`.
pub fn shape_of(raw: Raw, next: Ahead, literal: bool) -> Shape
    ensures { result ≡ s.shape_of raw next literal }
{
    match raw {
        Raw::Plain(class) => Shape::Fixed(class),
        Raw::Word => Shape::Word(matches!(next, Ahead::Colon)),
        Raw::Paren => Shape::Paren(literal, matches!(next, Ahead::Type)),
        Raw::Star => match next {
            Ahead::Bracket => Shape::Fixed(Class::StarBracket),
            _ => Shape::Fixed(Class::Star),
        },
        Raw::Comma => match next {
            Ahead::End => Shape::Fixed(Class::LastComma),
            Ahead::Designator => Shape::Fixed(Class::DesignationComma),
            _ => Shape::Fixed(Class::Comma),
        },
        Raw::Atomic => match next {
            Ahead::Paren => Shape::Fixed(Class::AtomicParen),
            _ => Shape::Fixed(Class::Atomic),
        },
    }
}
