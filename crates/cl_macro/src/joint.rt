//! The operator `##` (N1570 6.10.3.3).

ghost use Rattle.std.specs.Prelude.{◌≡◌, ◌++◌, ◌∷◌, [], false, ℕ, Option, List, IfOk, OnOk};
ghost use Rattle.cl_base.specs.declared.token.Kind.{Kind as TheKind};
ghost use Rattle.cl_macro.specs.declared.part.Part.{Part as ThePart};
ghost use Rattle.cl_macro.specs.Pasting.{glue, joined_word, kept, spaced, unspaced, with_space};
ghost use Rattle.cl_macro.specs.Resuming.{GluedAs, IsOperand, resume};
ghost use Rattle.cl_macro.specs.Rules.{TellsTokens};

use crate::note::Note;
use crate::part::Part;
use crate::word::{Word, made_word};
use cl_base::{Kind, List, Mem, PpToken};
use cl_lex::one_token;
use std::alloc::Global;
use std::mem;

/// The number of the fault that a joined spelling is no token.
const NO_TOKEN: u8 = 21;

/// The parts of a body so far: `words` are joined, `left` is the last part, and `due` says that `##` stands behind it.
#[derive(Drop)]
pub(crate) struct Joint {
    pub(crate) words: List<Word>,
    pub(crate) left: Part,
    pub(crate) due: bool,
}

/// Two parts after they are joined: one, or both where they make no token.
#[derive(Drop)]
pub(crate) enum Glued {
    One(Part),
    Two(Part, Part),
}

/// The token with this space before it.
pub(crate) fn with_space(word: Word, space: bool) -> Word
    ensures { result ≡ with_space space word }
{
    let mut word = word;
    word.token.space = space;
    word
}

/// A part without white space before it.
fn unspaced(part: Part) -> Part
    ensures { result ≡ unspaced part }
{
    match part {
        Part::Token(word) => Part::Token(with_space(word, false)),
        Part::Marker(_) => Part::Marker(false),
        Part::Paste => Part::Paste,
    }
}

/// Keeps a part, unless it is a placemarker.
pub(crate) fn keep(words: &mut List<Word>, part: Part) -> Mem<()>
    ensures { OnOk result (words.new ≡ words.old ++ kept part) }
{
    match part {
        Part::Token(word) => words.push(word)?,
        Part::Marker(_) | Part::Paste => {}
    }
    Ok(())
}

/// The spellings of two tokens, one after the other.
fn joined_text(alloc: Global, left: &Word, right: &Word) -> Mem<Vec<u8>>
    ensures { IfOk result (λ text. text.items ≡ left.now.token.text ++ right.now.token.text) }
{
    let mut text = Vec::from_slice(alloc, left.token.text.bytes())?;
    text.extend_from_slice(right.token.text.bytes())?;
    Ok(text)
}

/// The token that two tokens are joined into.
fn joined_word(alloc: Global, kind: Kind, text: &[u8], left: &Word, right: &Word) -> Mem<Word>
    requires { text.now ≡ left.now.token.text ++ right.now.token.text }
    ensures { IfOk result (λ word. word ≡ joined_word kind left.now right.now) }
{
    let hide = left.hide.both(alloc, &right.hide)?;
    let mut word = made_word(alloc, kind, text, left.token.space)?;
    word.hide = hide;
    Ok(word)
}

/// Joins two tokens.
fn glue_words(alloc: Global, left: Word, right: Word) -> Mem<Glued>
    ensures { (one_token : List ℕ → Option TheKind) → TellsTokens one_token → IfOk result (λ glued. GluedAs (glue one_token (ThePart.Token left) (ThePart.Token right)) (ThePart.Token left) (ThePart.Token right) glued) }
{
    let text = joined_text(alloc, &left, &right)?;
    let Some(kind) = one_token(text.as_slice()) else {
        return Ok(Glued::Two(Part::Token(left), Part::Token(right)));
    };
    let word = joined_word(alloc, kind, text.as_slice(), &left, &right)?;
    Ok(Glued::One(Part::Token(word)))
}

/// Joins two parts.
fn glue(alloc: Global, left: Part, right: Part) -> Mem<Glued>
    ensures { (one_token : List ℕ → Option TheKind) → TellsTokens one_token → IfOk result (λ glued. GluedAs (glue one_token left right) left right glued) }
{
    match (left, right) {
        (Part::Token(left), Part::Token(right)) => {
            let glued = glue_words(alloc, left, right)?;
            Ok(glued)
        }
        (Part::Token(left), Part::Marker(_)) => Ok(Glued::One(Part::Token(left))),
        (Part::Marker(space), Part::Token(right)) => Ok(Glued::One(Part::Token(with_space(
            right, space,
        )))),
        (Part::Marker(space), Part::Marker(_)) => Ok(Glued::One(Part::Marker(space))),
        (left, right) => Ok(Glued::Two(left, right)),
    }
}

impl Joint {
    /// Nothing yet.
    pub(crate) fn new(alloc: Global) -> Joint
        ensures { result ≡ record { words = []; left = ThePart.Marker false; due = false } }
    {
        Joint {
            words: List::new(alloc),
            left: Part::Marker(false),
            due: false,
        }
    }

    /// Adds a part that isn't `##`.
    pub(crate) fn push(&mut self, alloc: Global, notes: &mut List<Note>, part: Part) -> Mem<()>
        requires { IsOperand part }
        ensures { (one_token : List ℕ → Option TheKind) → TellsTokens one_token → (ps : List ThePart) → OnOk result (resume one_token self.old notes.old (part ∷ ps) ≡ resume one_token self.new notes.new ps) }
    {
        let left = mem::replace(&mut self.left, Part::Marker(false));
        if !self.due {
            keep(&mut self.words, left)?;
            self.left = part;
            return Ok(());
        }
        self.due = false;
        match glue(alloc, left, part)? {
            Glued::One(whole) => {
                self.left = whole;
                Ok(())
            }
            Glued::Two(left, right) => {
                notes.push(Note::Faulty(NO_TOKEN, None))?;
                keep(&mut self.words, left)?;
                self.left = unspaced(right);
                Ok(())
            }
        }
    }
}
