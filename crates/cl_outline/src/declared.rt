//! The declarations of a file.

ghost use Rattle.std.specs.Prelude.{◌≡◌, ◌||◌, ◌&&◌, not, ◌++◌, ◌∷◌, [], List as TheList, ℕ, IfOk, OnOk, if◌then◌else◌};
ghost use Rattle.cl_tree.specs.Sets.{has, is_name};
ghost use Rattle.cl_parse.specs.Tokens.{text_at};
ghost use Rattle.cl_outline.specs.Mentions as m;
ghost use Rattle.cl_outline.specs.Mentions.{is_tag};

use crate::collect::collect_item;
use crate::mention::{Mention, is_tag};
use cl_base::{Duplicate, List, Mem, Name, PpToken};
use cl_parse::Item;
use cl_tree::NameSet;
use std::alloc::Global;

/// What the items of these tokens declare at file scope, in order: each declarator's name, members and parameters aside, and
/// each tag with a name where it is declared: with its content, alone as in `struct S;`, or where no tag of that name was
/// named before in the file (N1570 6.7.2.3). Names in parameter lists and bodies are none of the file's.
pub fn outline(alloc: Global, tokens: &[PpToken], items: &[Item]) -> Mem<List<Mention>>
    ensures { IfOk result (λ all. all ≡ m.outline tokens.now items.now) }
{
    let mut mentions = List::new(alloc);
    for item in items {
        if let Item::Proper(tree) = item {
            collect_item(&mut mentions, tokens, tree)?;
        }
    }
    let all = declaring(alloc, tokens, mentions.as_slice())?;
    Ok(all)
}

/// Those that declare their name.
fn declaring(alloc: Global, tokens: &[PpToken], mentions: &[Mention]) -> Mem<List<Mention>>
    ensures { IfOk result (λ all. all ≡ m.declared tokens.now [] mentions.now) }
{
    let mut tags = NameSet::new(alloc);
    let mut all = List::new(alloc);
    for mention in mentions {
        let name = name_at(alloc, tokens, mention.at)?;
        push_declared(&mut all, *mention, &tags, &name)?;
        add_tag(alloc, &mut tags, *mention, &name)?;
    }
    Ok(all)
}

/// Adds a mention that declares its name, where these tags were named before.
fn push_declared(all: &mut List<Mention>, mention: Mention, tags: &NameSet, name: &Name) -> Mem<()>
    ensures { OnOk result (all.new ≡ all.old ++ (if mention.declares || not (has tags.now name.now) then mention ∷ [] else [])) }
{
    if mention.declares || !tags.has(name) {
        all.push(mention)?;
    }
    Ok(())
}

/// Adds a mention's name to the tags, if it is one.
fn add_tag(alloc: Global, tags: &mut NameSet, mention: Mention, name: &Name) -> Mem<()>
    ensures { OnOk result ((other : TheList ℕ) → has tags.new other ≡ (has tags.old other || (is_tag mention.sort && is_name name.now other))) }
{
    if is_tag(mention.sort) {
        tags.add(alloc, name)?;
    }
    Ok(())
}

/// What the token at a number spells.
fn name_at(alloc: Global, tokens: &[PpToken], at: u32) -> Mem<Name>
    ensures { IfOk result (λ name. name ≡ text_at tokens.now at) }
{
    match tokens.get(at as usize) {
        Some(token) => token.text.duplicate(alloc),
        None => Name::new(alloc, b"".as_slice()),
    }
}
