//! The tokens ahead of an item, where names change.

ghost use Rattle.std.specs.Prelude.{◌≡◌, ◌<◌, ◌≤◌, ◌^◌, ◌-◌, IfOk, length, slice_get, take};
ghost use Rattle.cl_tree.specs.Sets.{has};
ghost use Rattle.cl_parse.specs.code.Ahead as a;

use cl_base::{Duplicate, List, Mem, Name};
use cl_tree::{Change, Lexeme, NameSet, Shape, text_at};
use std::alloc::Global;
use std::collections::BTreeMap;

/// Where identifiers stand from some token up to, and without, the token `upto`, by what they spell.
#[derive(Drop)]
pub(crate) struct Places {
    upto: usize,
    of: BTreeMap<Name, List<u32>>,
}

/// Whether a token is an identifier.
fn is_word(token: &Lexeme) -> bool
    ensures { result ≡ a.is_word token.now.shape }
{
    match token.shape {
        Shape::Fixed(_) => false,
        Shape::Word(_) => true,
        Shape::Paren(_, _) => false,
    }
}

/// Whether a token is an identifier that is one of these names.
fn is_typed(names: &NameSet, token: &Lexeme) -> bool
    ensures { result ≡ a.typed_for token.now.shape (has names.now token.now.text) }
{
    match token.shape {
        Shape::Fixed(_) => false,
        Shape::Word(_) => names.has(&token.text),
        Shape::Paren(_, _) => false,
    }
}

/// The token at a number, if there is one, where these are the typedef names.
fn retype(names: &NameSet, tokens: &mut Vec<Lexeme>, at: usize)
    ensures { a.IsOneAnew (has names.now) at tokens.old.items tokens.new.items }
{
    if at < tokens.len() {
        let typed = is_typed(names, &tokens[at]);
        tokens[at].typed = typed;
    }
}

/// The tokens at these places, but for those before one.
fn retype_all(names: &NameSet, tokens: &mut Vec<Lexeme>, places: &[u32], to: usize)
    ensures { a.AreTold (has names.now) to places.now (length places.now) tokens.old.items tokens.new.items }
{
    for place in places {
        let at = *place as usize;
        if at >= to {
            retype(names, tokens, at);
        }
    }
}

impl Places {
    /// No places. It takes no memory.
    pub(crate) fn new(alloc: Global) -> Places
        ensures { result.upto ≡ 0 }
    {
        Places {
            upto: 0,
            of: BTreeMap::new(alloc),
        }
    }

    /// Where a name stands.
    fn of(&self, name: &Name) -> &[u32]
        ensures { result.now ≡ a.places_of self.now name.now }
    {
        match self.of.get(name) {
            Some(places) => places.as_slice(),
            None => &[],
        }
    }

    /// One more place of a name.
    fn with(self, alloc: Global, name: &Name, at: u32) -> Mem<Places>
        ensures { IfOk result (λ it. a.IsOneMore self it name.now at) }
    {
        let mut of = self.of;
        let mut places = match of.remove(name) {
            Some(places) => places,
            None => List::new(alloc),
        };
        places.push(at)?;
        of.insert(name.duplicate(alloc)?, places)?;
        Ok(Places {
            upto: self.upto,
            of,
        })
    }

    /// Those of the tokens from one on.
    fn over(alloc: Global, tokens: &[Lexeme], from: usize) -> Mem<Places>
        requires short { length tokens.now < 2 ^ 32 }
        ensures upto { IfOk result (λ it. it.upto ≡ length tokens.now) }
        ensures covers { IfOk result (λ it. a.Covers it tokens.now from) }
    {
        let mut places = Places {
            upto: tokens.len(),
            of: BTreeMap::new(alloc),
        };
        for at in from..tokens.len() {
            let token = &tokens[at];
            if is_word(token) {
                places = places.with(alloc, &token.text, at as u32)?;
            }
        }
        Ok(places)
    }

    /// The same, if they go up to the last token; else those of the tokens from one on. As long as no more tokens are read
    /// they are gone over once.
    pub(crate) fn kept(self, alloc: Global, tokens: &[Lexeme], from: usize) -> Mem<Places>
        requires short { length tokens.now < 2 ^ 32 }
        requires covers { a.Covers self tokens.now from }
        ensures upto { IfOk result (λ it. it.upto ≡ length tokens.now) }
        ensures covers { IfOk result (λ it. a.Covers it tokens.now from) }
    {
        if self.upto == tokens.len() {
            return Ok(self);
        }
        let places = Places::over(alloc, tokens, from)?;
        Ok(places)
    }

    /// The tokens, where these are the typedef names from one on, at the identifiers that spell what one of these changes
    /// does.
    pub(crate) fn learned(
        &self,
        alloc: Global,
        names: &NameSet,
        tokens: Vec<Lexeme>,
        changes: &[Change],
        to: usize,
    ) -> Mem<Vec<Lexeme>>
        requires within { to ≤ length tokens.items }
        requires upto { self.now.upto ≡ length tokens.items }
        requires covers { a.Covers self.now tokens.items to }
        ensures { IfOk result (λ it. a.AreLearned (has names.now) to (take to tokens.items) changes.now (length changes.now) tokens.items it.items) }
    {
        let mut after = tokens;
        for change in changes {
            let read = &after.as_slice()[..to];
            let name = Name::new(alloc, text_at(read, change.at))?;
            let places = self.of(&name);
            retype_all(names, &mut after, places, to);
        }
        Ok(after)
    }
}
