//! Looking into the tables.

ghost use Rattle.std.specs.Prelude.{◌≡◌, ◌<◌, ◌-◌, Some, None, true, false, IfSome, length, slice_get, ℕ};
ghost use Rattle.cl_tree.specs.Scopes as n;
ghost use Rattle.cl_tree.specs.Grammar.{takes};
ghost use Rattle.cl_tree.specs.Derives as d;
ghost use Rattle.cl_tree.specs.Derives.{Has};
ghost use Rattle.cl_tree.specs.declared.class.Class.{Class};
ghost use Rattle.cl_tree.specs.declared.class.Class.TheVariants as cl;
ghost use Rattle.cl_expr.specs.code.Table as t;
ghost use Rattle.cl_expr.specs.code.Parses.{Begins, Enters, GoesOn, GoesWith, type_words};

use crate::looks::{edge_number, opener_number, suffix_number};
use crate::places::{bar, corner, edges, kinds, openers, shuns, suffixes};
use crate::table::Edge;
use cl_tree::{Class, Lexeme, Nonterminal, SharedScope, Terminal, class_at};

/// Whether two classes are one.
pub fn same_class(a: Class, b: Class) -> bool
    ensures yes { result ≡ true → a ≡ b }
    ensures no { result ≡ false → a ≡ b → ⊥ }
{
    a == b
}

/// Whether a class is among these.
pub fn has_class(list: &[Class], class: Class) -> bool
    ensures yes { result ≡ true → Has list.now class }
    ensures no { result ≡ false → Has list.now class → ⊥ }
{
    for one in list {
        let same = same_class(*one, class);
        if same {
            return true;
        }
    }
    false
}

/// Whether a place is among these.
pub fn has_place(list: &[u16], place: u16) -> bool
    ensures yes { result ≡ true → Has list.now place }
    ensures no { result ≡ false → Has list.now place → ⊥ }
{
    for one in list {
        if *one == place {
            return true;
        }
    }
    false
}

/// Whether a terminal takes tokens of a class.
pub fn taken(terminal: Terminal, class: Class) -> bool
    ensures yes { result ≡ true → Has (takes terminal) class }
    ensures no { result ≡ false → Has (takes terminal) class → ⊥ }
{
    match terminal {
        Terminal::Is(own) => has_class(&[own], class),
        Terminal::Name => has_class(
            &[
                Class::Ident,
                Class::IdentColon,
                Class::TypedefName,
                Class::TypedefColon,
            ],
            class,
        ),
        Terminal::Open => has_class(
            &[Class::LeftParen, Class::TypeParen, Class::LiteralParen],
            class,
        ),
        Terminal::TypeOpen => has_class(&[Class::TypeParen, Class::LiteralParen], class),
        Terminal::Typed => has_class(&[Class::TypedefName, Class::TypedefColon], class),
        Terminal::Label => has_class(&[Class::IdentColon, Class::TypedefColon], class),
        Terminal::Marked => has_class(
            &[Class::IdentColon, Class::TypedefName, Class::TypedefColon],
            class,
        ),
    }
}

/// Whether a token of a class may not follow a production that ends at a place.
pub fn bars(place: u16, class: Class) -> bool
    ensures yes { result ≡ true → Has (t.bars place) class }
    ensures no { result ≡ false → Has (t.bars place) class → ⊥ }
{
    match bar(place) {
        Some(terminal) => taken(terminal, class),
        None => false,
    }
}

/// Whether a token is an `else` that may not follow a production that ends at a place.
pub fn dangling(place: u16, class: Class) -> bool
    ensures yes { result ≡ true → (class ≡ cl.Else) × Has (t.bars place) cl.Else }
    ensures no { result ≡ false → class ≡ cl.Else → Has (t.bars place) cl.Else → ⊥ }
{
    let lost = same_class(class, Class::Else);
    lost && bars(place, Class::Else)
}

/// Whether a `}` stands at a number.
pub fn is_brace(tokens: &[Lexeme], scope: &SharedScope, at: u32) -> bool
    ensures yes { result ≡ true → n.class_at tokens.now scope.now at ≡ Some cl.RightBrace }
    ensures no { result ≡ false → n.class_at tokens.now scope.now at ≡ Some cl.RightBrace → ⊥ }
{
    match class_at(tokens, scope, at) {
        Some(class) => same_class(class, Class::RightBrace),
        None => false,
    }
}

/// Whether a type specifier that is no typedef name begins at a number.
pub fn is_type_at(tokens: &[Lexeme], scope: &SharedScope, at: u32) -> bool
    ensures { result ≡ true → (k : Class) × (n.class_at tokens.now scope.now at ≡ Some k) × Has type_words k }
{
    match class_at(tokens, scope, at) {
        Some(class) => has_class(
            &[
                Class::Void,
                Class::Char,
                Class::Short,
                Class::Int,
                Class::Long,
                Class::Float,
                Class::Double,
                Class::Signed,
                Class::Unsigned,
                Class::Bool,
                Class::AtomicParen,
                Class::Struct,
                Class::Union,
                Class::Enum,
            ],
            class,
        ),
        None => false,
    }
}

/// Whether no tree of a nonterminal begins with the token there.
pub fn is_shunned(tokens: &[Lexeme], scope: &SharedScope, goal: Nonterminal, at: u32) -> bool
    ensures yes { result ≡ true → d.Opened tokens.now goal scope.now at → ⊥ }
    ensures no { result ≡ false → d.Opened tokens.now goal scope.now at }
{
    let Some(terminal) = shuns(goal) else {
        return false;
    };
    match class_at(tokens, scope, at) {
        Some(class) => taken(terminal, class),
        None => false,
    }
}

/// An edge of a place, by its number from 1.
fn edge_at(place: u16, number: u8) -> Option<Edge>
    requires { 0 < number }
    ensures { result ≡ slice_get (t.edges place) (number - 1) }
{
    edges(place).get(number as usize - 1).copied()
}

/// A place at the left end of a nonterminal, by its number from 1.
fn opener_at(goal: Nonterminal, number: u8) -> Option<u16>
    requires { 0 < number }
    ensures { result ≡ slice_get (t.openers goal) (number - 1) }
{
    openers(goal).get(number as usize - 1).copied()
}

/// What a token begins at a place.
pub fn look(place: u16, class: Class) -> Option<Edge>
    ensures some { IfSome result (λ e. Has (t.edges place) e × Begins e.before e.symbol class) }
    ensures none { result ≡ None → Enters place class → ⊥ }
{
    let number = edge_number(place, class);
    if number == 0 {
        return None;
    }
    edge_at(place, number)
}

/// Whether a token begins something at a place.
pub fn enters(place: u16, class: Class) -> bool
    ensures yes { result ≡ true → Enters place class }
    ensures no { result ≡ false → Enters place class → ⊥ }
{
    let number = edge_number(place, class);
    number != 0
}

/// The place at the left end of a nonterminal where a token begins something.
pub fn opening(goal: Nonterminal, class: Class) -> Option<u16>
    ensures some { IfSome result (λ s. Has (t.openers goal) s × Enters s class) }
    ensures none { result ≡ None → (s : ℕ) → Has (t.openers goal) s → Enters s class → ⊥ }
{
    let number = opener_number(goal, class);
    if number == 0 {
        return None;
    }
    opener_at(goal, number)
}

/// Whether a production whose first part is of a kind goes on with a token.
fn goes_on(start: u16, kind: u16, class: Class) -> bool
    ensures yes { result ≡ true → GoesWith start kind class }
    ensures no { result ≡ false → GoesWith start kind class → ⊥ }
{
    let Some(cornered) = corner(start) else {
        return false;
    };
    let enters = enters(cornered.next, class);
    if !enters {
        return false;
    }
    has_place(kinds(cornered.goal), kind)
}

/// The production that goes on with a token from a part.
fn goer(goal: Nonterminal, kind: u16, class: Class) -> Option<u16>
    ensures some { IfSome result (λ s. Has (t.suffixes goal) s × GoesWith s kind class) }
    ensures none { result ≡ None → (s : ℕ) → Has (t.suffixes goal) s → GoesWith s kind class → ⊥ }
{
    let all = suffixes(goal);
    for start in all {
        let fits = goes_on(*start, kind, class);
        if fits {
            return Some(*start);
        }
    }
    None
}

/// The same, where most tokens go on from nothing.
fn goer_soon(goal: Nonterminal, kind: u16, class: Class) -> Option<u16>
    ensures some { IfSome result (λ s. Has (t.suffixes goal) s × GoesWith s kind class) }
    ensures none { result ≡ None → (s : ℕ) → Has (t.suffixes goal) s → GoesWith s kind class → ⊥ }
{
    let number = suffix_number(goal, class);
    if number == 0 {
        return None;
    }
    goer(goal, kind, class)
}

/// The production that goes on from a part.
pub fn going(
    tokens: &[Lexeme],
    scope: &SharedScope,
    goal: Nonterminal,
    kind: u16,
    at: u32,
) -> Option<u16>
    ensures some { IfSome result (λ s. Has (t.suffixes goal) s × GoesOn tokens.now scope.now s kind at) }
    ensures none { result ≡ None → (s : ℕ) → Has (t.suffixes goal) s → GoesOn tokens.now scope.now s kind at → ⊥ }
{
    let Some(class) = class_at(tokens, scope, at) else {
        return None;
    };
    goer_soon(goal, kind, class)
}
