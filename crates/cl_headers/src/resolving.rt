//! The search for a header (N1570 6.10.2).

ghost use Rattle.std.specs.Prelude.{◌≡◌, ◌++◌, ◌∷◌, [], IfOk, OnOk, OnErr, MatchOption};
ghost use Rattle.cl_base.specs.declared.headers.Known.TheVariants.{Absent};
ghost use Rattle.cl_paths.specs.Parts.{is_rooted};
ghost use Rattle.cl_headers.specs.Resolving.{Answers, ComesTo, Stops, candidates, named};

use crate::view::HeaderView;
use cl_base::{Config, Known, Mem, Path, Text};
use cl_paths::join;
use std::alloc::Global;

/// Where the search for a header ends: at a file with its text, at a path that can't be read, at one of which nothing is
/// known yet, or nowhere.
#[derive(Debug, Drop, PartialEq, Eq)]
pub enum Resolved {
    File(Path, Text),
    Failed(Path),
    Need(Path),
    Missing,
}

/// Looks for the header that a text names: in the folder `from` of that text, unless the name stands between `<` and `>`
/// (`angled`), and then in the folders of the config, in order. A name that begins with `/` is its own only candidate.
/// The first candidate that isn't absent decides, and the view is asked for the candidates up to it. After want of memory
/// the view was asked for some first candidates, all of them absent.
pub fn resolve<V: HeaderView>(
    alloc: Global,
    from: &Path,
    name: &str,
    angled: bool,
    config: &Config,
    view: &mut V,
) -> Mem<Resolved>
    ensures ok { IfOk result (λ resolved. Answers (V.known view.old) (candidates from.now name.now angled config.now.includes) (V.asked view.old) (V.asked view.new) resolved) }
    ensures err { OnErr result (Stops (V.known view.old) (candidates from.now name.now angled config.now.includes) (V.asked view.old) (V.asked view.new)) }
    ensures fixed { V.known view.new ≡ V.known view.old }
{
    if is_rooted(name) {
        let resolved = look_first(alloc, from, &[], name, view)?;
        return Ok(resolved);
    }
    if angled {
        let resolved = look_in(alloc, config.includes().as_slice(), name, view)?;
        return Ok(resolved);
    }
    let resolved = look_first(alloc, from, config.includes().as_slice(), name, view)?;
    Ok(resolved)
}

/// Whether a name begins with `/`.
pub(crate) fn is_rooted(name: &str) -> bool
    ensures { result ≡ is_rooted name.now }
{
    match name.as_bytes() {
        [first, ..] => *first == b'/',
        [] => false,
    }
}

/// Looks in a folder, and then in others in order.
fn look_first<V: HeaderView>(
    alloc: Global,
    first: &Path,
    others: &[Path],
    name: &str,
    view: &mut V,
) -> Mem<Resolved>
    ensures ok { IfOk result (λ resolved. Answers (V.known view.old) (named (first.now ∷ others.now) name.now) (V.asked view.old) (V.asked view.new) resolved) }
    ensures err { OnErr result (Stops (V.known view.old) (named (first.now ∷ others.now) name.now) (V.asked view.old) (V.asked view.new)) }
    ensures fixed { V.known view.new ≡ V.known view.old }
{
    let path = join(alloc, first, name)?;
    match look_at(alloc, path, view)? {
        Some(resolved) => Ok(resolved),
        None => {
            let resolved = look_in(alloc, others, name, view)?;
            Ok(resolved)
        }
    }
}

/// Looks in folders in order.
fn look_in<V: HeaderView>(
    alloc: Global,
    folders: &[Path],
    name: &str,
    view: &mut V,
) -> Mem<Resolved>
    ensures ok { IfOk result (λ resolved. Answers (V.known view.old) (named folders.now name.now) (V.asked view.old) (V.asked view.new) resolved) }
    ensures err { OnErr result (Stops (V.known view.old) (named folders.now name.now) (V.asked view.old) (V.asked view.new)) }
    ensures fixed { V.known view.new ≡ V.known view.old }
{
    for folder in folders {
        let path = join(alloc, folder, name)?;
        match look_at(alloc, path, view)? {
            Some(resolved) => return Ok(resolved),
            None => {}
        }
    }
    Ok(Resolved::Missing)
}

/// What a path comes to, or `None` where it is absent.
fn look_at<V: HeaderView>(alloc: Global, path: Path, view: &mut V) -> Mem<Option<Resolved>>
    ensures ok { IfOk result (λ found. MatchOption found (V.known view.old path ≡ Absent) (ComesTo path (V.known view.old path))) }
    ensures asked { OnOk result (V.asked view.new ≡ V.asked view.old ++ path ∷ []) }
    ensures err { OnErr result (V.asked view.new ≡ V.asked view.old) }
    ensures fixed { V.known view.new ≡ V.known view.old }
{
    match view.ask(alloc, &path)? {
        Known::Found(text) => Ok(Some(Resolved::File(path, text))),
        Known::Failed => Ok(Some(Resolved::Failed(path))),
        Known::Unknown => Ok(Some(Resolved::Need(path))),
        Known::Absent => Ok(None),
    }
}
