//! The names that an item mentions at file scope.

ghost use Rattle.std.specs.Prelude.{◌≡◌, ◌++◌, OnOk, slice_get};
ghost use Rattle.std.specs.List.{list_any};
ghost use Rattle.cl_tree.specs.Derives.{parts};
ghost use Rattle.cl_outline.specs.Mentions as m;

use crate::mention::{Mention, Sort};
use crate::role::{Role, role_of};
use cl_base::{List, Mem, Memory, PpToken};
use cl_parse::text_at;
use cl_tree::{Rule, Tree};

/// Where a node stands: in an item that goes from one token up to another, whose specifiers have `typedef` or not; with a
/// function's or another derivation next round it; and among members or not.
#[derive(Clone, Copy)]
pub(crate) struct Place {
    from: u32,
    to: u32,
    typing: bool,
    function: bool,
    members: bool,
}

/// Adds what a tree mentions, in order.
fn collect(out: &mut List<Mention>, tokens: &[PpToken], tree: &Tree, place: Place) -> Mem<()>
    ensures { OnOk result (out.new ≡ out.old ++ m.mentions tokens.now tree.now place) }
{
    let role = role_of(tree.rule, tree.choice);
    if is_scoped(role) {
        return Ok(());
    }
    push_own(out, tokens, place, role, tree.from)?;
    let inner = inner(place, role);
    for part in tree.parts.as_slice() {
        collect(out, tokens, part, inner)?;
    }
    Ok(())
}

/// Adds what an item's tree mentions, in order.
pub(crate) fn collect_item(out: &mut List<Mention>, tokens: &[PpToken], tree: &Tree) -> Mem<()>
    ensures { OnOk result (out.new ≡ out.old ++ m.mentions tokens.now tree.now (m.outermost tree.now)) }
{
    let place = Place {
        from: tree.from,
        to: tree.to,
        typing: has_typedef(tree),
        function: false,
        members: false,
    };
    collect(out, tokens, tree, place)
}

/// Whether the specifiers of an external declaration have `typedef`.
fn has_typedef(tree: &Tree) -> bool
    ensures { result ≡ m.has_typedef (slice_get (parts tree.now) 0) }
{
    match tree.parts.get(0) {
        Some(specifiers) => any_typedef(specifiers.parts.as_slice()),
        None => false,
    }
}

/// Whether one of these trees is the word `typedef`.
fn any_typedef(trees: &[Tree]) -> bool
    ensures { result ≡ list_any m.is_typedef trees.now }
{
    trees.iter().any(|tree| is_typedef(tree))
}

/// Whether a tree is the word `typedef`.
fn is_typedef(tree: &Tree) -> bool
    ensures { result ≡ m.is_typedef tree.now }
{
    is_storage(tree.rule) && tree.choice == 0
}

fn is_storage(rule: Rule) -> bool
    ensures { result ≡ m.is_storage rule }
{
    matches!(rule, Rule::StorageClassSpecifier)
}

fn is_scoped(role: Role) -> bool
    ensures { result ≡ m.is_scoped role }
{
    matches!(role, Role::Scoped)
}

/// Where the parts of a node stand.
fn inner(place: Place, role: Role) -> Place
    ensures { result ≡ m.inner place role }
{
    match role {
        Role::Function => Place {
            function: true,
            ..place
        },
        Role::Other => Place {
            function: false,
            ..place
        },
        Role::Members => Place {
            members: true,
            ..place
        },
        Role::Scoped | Role::Name | Role::Structure(_) | Role::Enumeration(_) | Role::Plain =>
            place,
    }
}

/// Adds what a node itself mentions.
fn push_own(
    out: &mut List<Mention>,
    tokens: &[PpToken],
    place: Place,
    role: Role,
    at: u32,
) -> Mem<()>
    ensures { OnOk result (out.new ≡ out.old ++ m.own tokens.now place role at) }
{
    match role {
        Role::Name => push_name(out, place, at),
        Role::Structure(content) => push_tag(
            out,
            tokens,
            place,
            Sort::Structure,
            content || is_alone(place),
            at,
        ),
        Role::Enumeration(content) => {
            push_tag(out, tokens, place, Sort::Enumeration, content, at)
        }
        Role::Scoped | Role::Function | Role::Other | Role::Members | Role::Plain => Ok(()),
    }
}

/// Adds a declarator's name, unless it is a member's.
fn push_name(out: &mut List<Mention>, place: Place, at: u32) -> Mem<()>
    ensures { OnOk result (out.new ≡ out.old ++ m.named place at) }
{
    if place.members {
        return Ok(());
    }
    out.push(mention(place, name_sort(place), true, at))
}

/// Adds the tag of a specifier, if it has one.
fn push_tag(
    out: &mut List<Mention>,
    tokens: &[PpToken],
    place: Place,
    sort: Sort,
    declares: bool,
    at: u32,
) -> Mem<()>
    ensures { OnOk result (out.new ≡ out.old ++ m.tag tokens.now place sort declares at) }
{
    if at == u32::MAX {
        return Err(Memory);
    }
    let brace = is_brace(tokens, at as usize + 1);
    if brace {
        return Ok(());
    }
    out.push(mention(place, sort, declares, at + 1))
}

fn is_brace(tokens: &[PpToken], at: usize) -> bool
    ensures { result ≡ m.is_brace tokens.now at }
{
    text_at(tokens, at) == b"{".as_slice() || text_at(tokens, at) == b"<%".as_slice()
}

/// Whether the item has three tokens, as `struct S;` has.
fn is_alone(place: Place) -> bool
    ensures { result ≡ m.is_alone place }
{
    place.to as u64 == place.from as u64 + 3
}

fn mention(place: Place, sort: Sort, declares: bool, at: u32) -> Mention
    ensures { result ≡ m.mention place sort declares at }
{
    Mention {
        sort,
        at,
        declares,
        from: place.from,
        to: place.to,
    }
}

/// What the name of a declarator stands for.
fn name_sort(place: Place) -> Sort
    ensures { result ≡ m.name_sort place }
{
    if place.typing {
        Sort::Typedef
    } else if place.function {
        Sort::Function
    } else {
        Sort::Object
    }
}
