//! What the body of a macro becomes (N1570 6.10.3.1).

ghost use Rattle.std.specs.Prelude.{◌≡◌, ◌++◌, ◌∷◌, ◌||◌, ℕ, Option, List, slice_get, IfOk, OnOk};
ghost use Rattle.cl_base.specs.declared.token.Kind.{Kind as TheKind};
ghost use Rattle.cl_macro.specs.declared.part.Part.{Part as ThePart};
ghost use Rattle.cl_macro.specs.Params.{param_at, pastes_next};
ghost use Rattle.cl_macro.specs.Pasting.{arg_by, body_word, joined_body, parts_by, raw_parts, spaced, tokens, words_at};
ghost use Rattle.cl_macro.specs.Resuming.{resume};
ghost use Rattle.cl_macro.specs.Rules.{TellsTokens};

use crate::joint::{Joint, keep, with_space};
use crate::note::Note;
use crate::params::{is_paste, is_string, param_at, pastes_next};
use crate::part::Part;
use crate::spell::string_of;
use crate::word::{Word, spelled};
use cl_base::{BodyToken, Duplicate, List, Macro, Mem};
use std::alloc::Global;

fn body_word(alloc: Global, token: &BodyToken) -> Mem<Word>
    ensures { IfOk result (λ word. word ≡ body_word token.now) }
{
    let text = token.text.duplicate(alloc)?;
    Ok(spelled(token.kind, text, token.space))
}

/// The argument of this number.
fn arg_by(args: &List<List<Word>>, i: Option<usize>) -> &[Word]
    ensures { result.now ≡ arg_by args.now i }
{
    let Some(i) = i else {
        return &[];
    };
    match args.get(i) {
        Some(arg) => arg.as_slice(),
        None => &[],
    }
}

/// Adds copies of these tokens.
fn push_tokens(alloc: Global, joint: &mut Joint, notes: &mut List<Note>, words: &[Word]) -> Mem<()>
    ensures { (one_token : List ℕ → Option TheKind) → TellsTokens one_token → (ps : List ThePart) → OnOk result (resume one_token joint.old notes.old (tokens words.now ++ ps) ≡ resume one_token joint.new notes.new ps) }
{
    let mut rest = words;
    while let Some((word, behind)) = rest.split_first() {
        rest = behind;
        let word = word.duplicate(alloc)?;
        joint.push(alloc, notes, Part::Token(word))?;
    }
    Ok(())
}

/// Adds copies of these tokens, the first with this space before it.
fn push_spaced(
    alloc: Global,
    joint: &mut Joint,
    notes: &mut List<Note>,
    words: &[Word],
    space: bool,
) -> Mem<()>
    ensures { (one_token : List ℕ → Option TheKind) → TellsTokens one_token → (ps : List ThePart) → OnOk result (resume one_token joint.old notes.old (tokens (spaced space words.now) ++ ps) ≡ resume one_token joint.new notes.new ps) }
{
    if let Some((first, behind)) = words.split_first() {
        let first = first.duplicate(alloc)?;
        joint.push(alloc, notes, Part::Token(with_space(first, space)))?;
        push_tokens(alloc, joint, notes, behind)?;
    }
    Ok(())
}

/// Adds an argument that stands beside `##`.
fn push_raw(
    alloc: Global,
    joint: &mut Joint,
    notes: &mut List<Note>,
    words: &[Word],
    space: bool,
) -> Mem<()>
    ensures { (one_token : List ℕ → Option TheKind) → TellsTokens one_token → (ps : List ThePart) → OnOk result (resume one_token joint.old notes.old (raw_parts space words.now ++ ps) ≡ resume one_token joint.new notes.new ps) }
{
    let Some((first, behind)) = words.split_first() else {
        joint.push(alloc, notes, Part::Marker(space))?;
        return Ok(());
    };
    let first = first.duplicate(alloc)?;
    joint.push(alloc, notes, Part::Token(with_space(first, space)))?;
    push_tokens(alloc, joint, notes, behind)?;
    Ok(())
}

/// The arguments of an invocation: `raw` as they stand, and `full` as they are replaced by themselves.
#[derive(Clone, Copy)]
pub(crate) struct Args<'a> {
    pub(crate) mac: &'a Macro,
    pub(crate) raw: &'a List<List<Word>>,
    pub(crate) full: &'a List<List<Word>>,
}

/// Adds what a token of the body stands for.
fn push_part(
    alloc: Global,
    joint: &mut Joint,
    notes: &mut List<Note>,
    args: &Args,
    token: &BodyToken,
    beside: bool,
) -> Mem<()>
    ensures { (one_token : List ℕ → Option TheKind) → TellsTokens one_token → (ps : List ThePart) → OnOk result (resume one_token joint.old notes.old (parts_by beside args.now.raw.now args.now.full.now token.now (param_at args.now.mac.now token.now) ++ ps) ≡ resume one_token joint.new notes.new ps) }
{
    let Some(i) = param_at(args.mac, token) else {
        let word = body_word(alloc, token)?;
        joint.push(alloc, notes, Part::Token(word))?;
        return Ok(());
    };
    if beside {
        push_raw(alloc, joint, notes, arg_by(args.raw, Some(i)), token.space)?;
    } else {
        push_spaced(alloc, joint, notes, arg_by(args.full, Some(i)), token.space)?;
    }
    Ok(())
}

/// Whether a parameter stands beside `##`.
fn is_beside(after: bool, behind: &[BodyToken]) -> bool
    ensures { result ≡ (after || pastes_next behind.now) }
{
    after || pastes_next(behind)
}

/// What the body becomes, with the arguments in place of the parameters, and the operators done.
pub(crate) fn joined_body(alloc: Global, args: &Args, notes: &mut List<Note>) -> Mem<List<Word>>
    ensures words { (one_token : List ℕ → Option TheKind) → TellsTokens one_token → IfOk result (λ words. words ≡ (joined_body one_token args.now.mac.now args.now.raw.now args.now.full.now).words) }
    ensures notes { (one_token : List ℕ → Option TheKind) → TellsTokens one_token → OnOk result (notes.new ≡ notes.old ++ (joined_body one_token args.now.mac.now args.now.raw.now args.now.full.now).notes) }
{
    let mut joint = Joint::new(alloc);
    let mut after = false;
    let mut hash = None;
    let mut rest = args.mac.body.as_slice();
    while let Some((token, behind)) = rest.split_first() {
        rest = behind;
        if let Some(space) = hash {
            let arg = arg_by(args.raw, param_at(args.mac, token));
            let string = string_of(alloc, space, arg)?;
            joint.push(alloc, notes, Part::Token(string))?;
            hash = None;
            after = false;
            continue;
        }
        if is_paste(token) {
            joint.due = true;
            after = true;
            continue;
        }
        if is_string(args.mac, token) {
            hash = Some(token.space);
            continue;
        }
        push_part(
            alloc,
            &mut joint,
            notes,
            args,
            token,
            is_beside(after, behind),
        )?;
        after = false;
    }
    let mut words = joint.words;
    keep(&mut words, joint.left)?;
    Ok(words)
}
