//! The names that are typedef names at a place of a text, and the classes of tokens that follow from them.

ghost use Rattle.std.specs.Prelude.{◌≡◌, ◌∷◌, [], ◌++◌, ◌<◌, ◌^◌, IfOk, length, slice_get, take, drop, List, ℕ, cond, nat_eq, not, ◌&&◌, ◌||◌};
ghost use Rattle.cl_tree.specs.Scopes as s;
ghost use Rattle.cl_tree.specs.Sets.{has, IsAdded, IsTaken};
ghost use Rattle.std.specs.Cmp.Lexicographic.{pointwise};

use crate::class::Class;
use crate::grammar::Act;
use crate::lexeme::Lexeme;
use crate::set::NameSet;
use crate::shape::Shape;
use crate::shared::Shared;
use crate::shared_scope::SharedScope;
use cl_base::{Mem, Name};
use std::alloc::Global;

/// A declaration that changes what a name is: the number of the token that is its name, and whether it is a typedef name
/// from there on.
#[derive(Clone, Copy)]
pub struct Change {
    pub at: u32,
    pub typed: bool,
}

/// What comes back at the end of a list of parameters, members or enumerators.
#[derive(Clone, Copy)]
pub struct Frame {
    pub typing: bool,
    pub pending: Option<u32>,
    pub kept: u32,
}

/// What has been declared at a place: whether the specifiers that are being read have `typedef`, the number of the token that
/// is the name being declared, the declarations that change what a name is, in order, the lists that are being read,
/// innermost last, whether the name that stands in none of them has had a list of parameters, and what that declared.
#[derive(Drop)]
pub struct Scope {
    pub typing: bool,
    pub pending: Option<u32>,
    pub changes: Shared<Change>,
    pub frames: Shared<Frame>,
    pub listed: bool,
    pub aside: Shared<Change>,
}

impl Scope {
    /// Nothing is declared yet. It takes no memory.
    pub(crate) fn new() -> Scope
        ensures { result ≡ s.empty }
    {
        Scope {
            typing: false,
            pending: None,
            changes: Shared::new(),
            frames: Shared::new(),
            listed: false,
            aside: Shared::new(),
        }
    }

    /// The same, which both share.
    pub(crate) fn share(&self) -> Mem<Scope>
        ensures { IfOk result (λ copy. copy ≡ self.now) }
    {
        Ok(Scope {
            typing: self.typing,
            pending: self.pending,
            changes: self.changes.share()?,
            frames: self.frames.share()?,
            listed: self.listed,
            aside: self.aside.share()?,
        })
    }
}

/// What the token at a number spells; past the end nothing.
pub fn text_at(tokens: &[Lexeme], at: u32) -> &[u8]
    ensures { result.now ≡ s.text_at tokens.now at }
{
    match tokens.get(at as usize) {
        Some(token) => token.text.bytes(),
        None => b"".as_slice(),
    }
}

/// Whether a name is a typedef name after these declarations, where it is said whether it was before them.
fn known(tokens: &[Lexeme], changes: &[Change], before: bool, name: &[u8]) -> bool
    ensures { result ≡ s.known tokens.now changes.now before name.now }
{
    let mut typed = before;
    for change in changes {
        if text_at(tokens, change.at) == name {
            typed = change.typed;
        }
    }
    typed
}

/// Whether a token is an identifier that is a typedef name.
fn is_typed(tokens: &[Lexeme], changes: &[Change], token: &Lexeme) -> bool
    ensures { result ≡ s.is_typed tokens.now changes.now token.now }
{
    match token.shape {
        Shape::Fixed(_) => false,
        Shape::Word(_) => known(tokens, changes, token.typed, token.text.bytes()),
        Shape::Paren(_, _) => false,
    }
}

/// Whether the token at a number is an identifier that is a typedef name.
fn typed_at(tokens: &[Lexeme], changes: &[Change], at: usize) -> bool
    ensures { result ≡ s.typed_at tokens.now changes.now at }
{
    match tokens.get(at) {
        Some(token) => is_typed(tokens, changes, token),
        None => false,
    }
}

/// The class of an identifier.
fn word_class(typed: bool, colon: bool) -> Class
    ensures { result ≡ s.word_class typed colon }
{
    if typed {
        if colon {
            Class::TypedefColon
        } else {
            Class::TypedefName
        }
    } else if colon {
        Class::IdentColon
    } else {
        Class::Ident
    }
}

/// The class of a `(`.
fn paren_class(types: bool, literal: bool) -> Class
    ensures { result ≡ s.paren_class types literal }
{
    if types {
        if literal {
            Class::LiteralParen
        } else {
            Class::TypeParen
        }
    } else {
        Class::LeftParen
    }
}

/// The class of the token at a number. None exactly from the length on.
#[tactic(auto, unfolding(crate::specs::Scopes::class_at))]
pub fn class_at(tokens: &[Lexeme], scope: &SharedScope, at: u32) -> Option<Class>
    ensures { result ≡ s.class_at tokens.now scope.now at }
{
    let Some(token) = tokens.get(at as usize) else {
        return None;
    };
    let changes = scope.changes();
    let class = match token.shape {
        Shape::Fixed(class) => class,
        Shape::Word(colon) => word_class(
            known(tokens, changes, token.typed, token.text.bytes()),
            colon,
        ),
        Shape::Paren(literal, types) => {
            paren_class(types || typed_at(tokens, changes, at as usize + 1), literal)
        }
    };
    Some(class)
}

/// The declarations, with one more where it changes what the name is.
fn declared(
    alloc: Global,
    tokens: &[Lexeme],
    changes: Shared<Change>,
    name: Option<u32>,
    typed: bool,
) -> Mem<Shared<Change>>
    ensures { IfOk result (λ after. after ≡ s.declared tokens.now changes name typed) }
{
    let Some(at) = name else {
        return Ok(changes);
    };
    let now = typed_at(tokens, changes.as_slice(), at as usize);
    if now == typed {
        return Ok(changes);
    }
    changes.with(alloc, Change { at, typed })
}

/// A list of parameters, members or enumerators begins.
fn opened(alloc: Global, scope: Scope) -> Mem<Scope>
    ensures { IfOk result (λ after. after ≡ s.opened scope) }
{
    let frame = Frame {
        typing: scope.typing,
        pending: scope.pending,
        kept: scope.changes.as_slice().len() as u32,
    };
    let frames = scope.frames.with(alloc, frame)?;
    Ok(Scope {
        typing: false,
        pending: None,
        changes: scope.changes,
        frames,
        listed: scope.listed,
        aside: scope.aside,
    })
}

/// What is kept aside: the declarations from one on, or what was so before.
fn kept_aside(
    alloc: Global,
    keep: bool,
    changes: &[Change],
    from: u32,
    before: Shared<Change>,
) -> Mem<Shared<Change>>
    ensures { IfOk result (λ after. after ≡ cond keep (drop from changes.now) before) }
{
    if !keep {
        return Ok(before);
    }
    let start = from as usize;
    if start >= changes.len() {
        return Ok(Shared::new());
    }
    let (_, rest) = changes.split_at(start);
    Shared::new().with_all(alloc, rest)
}

/// A list of parameters or a block ends, and its names with it.
fn closed(alloc: Global, scope: Scope) -> Mem<Scope>
    ensures { IfOk result (λ after. after ≡ s.closed scope) }
{
    let mut frames = scope.frames.into_list(alloc)?;
    let changes = scope.changes;
    let listed = scope.listed;
    match frames.pop() {
        Some(frame) => {
            let keep = keeps(frames.as_slice(), listed);
            let aside = kept_aside(alloc, keep, changes.as_slice(), frame.kept, scope.aside)?;
            let had = had_list(keep, listed);
            let changes = changes.front(alloc, frame.kept as usize)?;
            let outer = Shared::of(alloc, frames)?;
            Ok(Scope {
                typing: frame.typing,
                pending: frame.pending,
                changes,
                frames: outer,
                listed: had,
                aside,
            })
        }
        None => Ok(Scope {
            typing: scope.typing,
            pending: scope.pending,
            changes,
            frames: Shared::new(),
            listed,
            aside: scope.aside,
        }),
    }
}

/// Whether no list is being read.
fn is_outermost(frames: &[Frame]) -> bool
    ensures { result ≡ s.is_outermost frames.now }
{
    frames.is_empty()
}

/// Whether a name has had a list of parameters: now or before.
fn had_list(now: bool, before: bool) -> bool
    ensures { result ≡ (now || before) }
{
    now || before
}

/// Whether what a list declared is kept aside, which stands in these.
fn keeps(frames: &[Frame], listed: bool) -> bool
    ensures { result ≡ (s.is_outermost frames.now && not listed) }
{
    let outermost = is_outermost(frames);
    outermost && !listed
}

/// A list of members or enumerators ends, and its names stay.
fn shut(alloc: Global, scope: Scope) -> Mem<Scope>
    ensures { IfOk result (λ after. after ≡ s.shut scope) }
{
    let mut frames = scope.frames.into_list(alloc)?;
    match frames.pop() {
        Some(frame) => {
            let outer = Shared::of(alloc, frames)?;
            Ok(Scope {
                typing: frame.typing,
                pending: frame.pending,
                changes: scope.changes,
                frames: outer,
                listed: scope.listed,
                aside: scope.aside,
            })
        }
        None => Ok(Scope {
            typing: scope.typing,
            pending: scope.pending,
            changes: scope.changes,
            frames: Shared::new(),
            listed: scope.listed,
            aside: scope.aside,
        }),
    }
}

/// The name that is being declared is so from here on, with or without more of the declaration to come.
fn declaring(alloc: Global, tokens: &[Lexeme], scope: Scope, typing: bool) -> Mem<Scope>
    ensures { IfOk result (λ after. after ≡ s.declaring tokens.now scope typing) }
{
    let changes = declared(alloc, tokens, scope.changes, scope.pending, scope.typing)?;
    Ok(Scope {
        typing,
        pending: None,
        changes,
        frames: scope.frames,
        listed: scope.listed,
        aside: scope.aside,
    })
}

/// The token at a number is the name that is being declared.
fn named(scope: Scope, at: u32) -> Scope
    ensures { result ≡ s.named scope at }
{
    let outermost = is_outermost(scope.frames.as_slice());
    Scope {
        typing: scope.typing,
        pending: Some(at),
        changes: scope.changes,
        frames: scope.frames,
        listed: if outermost { false } else { scope.listed },
        aside: if outermost {
            Shared::new()
        } else {
            scope.aside
        },
    }
}

/// The body of a function begins.
fn begun(alloc: Global, tokens: &[Lexeme], scope: Scope) -> Mem<Scope>
    ensures { IfOk result (λ after. after ≡ s.begun tokens.now scope) }
{
    let changes = declared(alloc, tokens, scope.changes, scope.pending, false)?;
    let frame = Frame {
        typing: false,
        pending: None,
        kept: changes.as_slice().len() as u32,
    };
    let frames = scope.frames.with(alloc, frame)?;
    let changes = changes.with_all(alloc, scope.aside.as_slice())?;
    Ok(Scope {
        typing: false,
        pending: None,
        changes,
        frames,
        listed: true,
        aside: scope.aside,
    })
}

/// What is declared after the token at a number was read, which does this to the names.
#[tactic(auto, unfolding(crate::specs::Scopes::pass))]
pub fn pass(
    alloc: Global,
    tokens: &[Lexeme],
    scope: SharedScope,
    act: Act,
    at: u32,
) -> Mem<SharedScope>
    ensures { IfOk result (λ after. after ≡ s.pass tokens.now scope act at) }
{
    match act {
        Act::Stay => Ok(scope),
        _ => {
            let before = scope.into_scope()?;
            let after = acted(alloc, tokens, before, act, at)?;
            SharedScope::of(alloc, after)
        }
    }
}

/// The same, where most acts change something.
#[tactic(auto, unfolding(crate::specs::Scopes::pass))]
fn acted(alloc: Global, tokens: &[Lexeme], scope: Scope, act: Act, at: u32) -> Mem<Scope>
    ensures { IfOk result (λ after. after ≡ s.pass tokens.now scope act at) }
{
    match act {
        Act::Stay => Ok(scope),
        Act::Typedef => Ok(Scope {
            typing: true,
            pending: scope.pending,
            changes: scope.changes,
            frames: scope.frames,
            listed: scope.listed,
            aside: scope.aside,
        }),
        Act::Name => Ok(named(scope, at)),
        Act::Declare => {
            let typing = scope.typing;
            declaring(alloc, tokens, scope, typing)
        }
        Act::Finish => declaring(alloc, tokens, scope, false),
        Act::Forget => Ok(Scope {
            typing: scope.typing,
            pending: None,
            changes: scope.changes,
            frames: scope.frames,
            listed: scope.listed,
            aside: scope.aside,
        }),
        Act::Open => opened(alloc, scope),
        Act::Close => {
            let typing = scope.typing;
            let after = declaring(alloc, tokens, scope, typing)?;
            closed(alloc, after)
        }
        Act::Begin => begun(alloc, tokens, scope),
        Act::Shut => {
            let typing = scope.typing;
            let after = declaring(alloc, tokens, scope, typing)?;
            shut(alloc, after)
        }
    }
}

/// These names and one more.
fn with_name(alloc: Global, names: NameSet, name: &Name) -> Mem<NameSet>
    ensures { IfOk result (λ after. IsAdded names after name.now) }
{
    let mut after = names;
    after.add(alloc, name)?;
    Ok(after)
}

/// These names but for one.
fn without_name(names: NameSet, name: &Name) -> NameSet
    ensures { IsTaken names result name.now }
{
    let mut after = names;
    after.remove(name);
    after
}

/// The typedef names after a declaration, where these are so before it.
fn learn(alloc: Global, names: NameSet, tokens: &[Lexeme], change: Change) -> Mem<NameSet>
    ensures { IfOk result (λ after. (name : List ℕ) → has after name ≡ cond (pointwise nat_eq (s.text_at tokens.now change.at) name) change.typed (has names name)) }
{
    let name = Name::new(alloc, text_at(tokens, change.at))?;
    if change.typed {
        with_name(alloc, names, &name)
    } else {
        Ok(without_name(names, &name))
    }
}

/// The typedef names after these declarations, where these are so before them.
pub fn learned(alloc: Global, names: NameSet, tokens: &[Lexeme], changes: &[Change]) -> Mem<NameSet>
    ensures { IfOk result (λ after. (name : List ℕ) → has after name ≡ s.known tokens.now changes.now (has names name) name) }
{
    let mut after = names;
    for change in changes {
        after = learn(alloc, after, tokens, *change)?;
    }
    Ok(after)
}
