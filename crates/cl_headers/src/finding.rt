//! The search for a header, with what is asked for on the way (N1570 6.10.2).

ghost use Rattle.std.specs.Prelude.{◌≡◌, ◌++◌, ◌∷◌, [], IfOk, OnOk, MatchOption};
ghost use Rattle.cl_base.specs.declared.headers.Known.TheVariants.{Absent};
ghost use Rattle.cl_headers.specs.Noting.{Searches, dep_of};
ghost use Rattle.cl_headers.specs.Resolving.{ComesTo, candidates, named};

use crate::dep::Dep;
use crate::resolving::{Resolved, is_rooted};
use crate::view::HeaderView;
use cl_base::{Config, Duplicate, Known, List, Mem, Path};
use cl_paths::join;
use std::alloc::Global;

/// Looks for a header as `resolve` does, and keeps the paths that are asked for, each with what is known of it. After want
/// of memory some first candidates were asked for, and not all of them need be kept.
pub fn find_header<V: HeaderView>(
    alloc: Global,
    from: &Path,
    name: &str,
    angled: bool,
    config: &Config,
    view: &mut V,
    deps: &mut List<Dep>,
) -> Mem<Resolved>
    ensures ok { IfOk result (λ resolved. Searches (V.known view.old) (candidates from.now name.now angled config.now.includes) deps.old deps.new (V.asked view.old) (V.asked view.new) resolved) }
    ensures fixed { V.known view.new ≡ V.known view.old }
{
    let paths = candidates(alloc, from, name, angled, config)?;
    let resolved = find_in(alloc, paths.as_slice(), view, deps)?;
    Ok(resolved)
}

/// The paths of this name in folders, in order.
fn named(alloc: Global, paths: &mut List<Path>, folders: &[Path], name: &str) -> Mem<()>
    ensures { OnOk result (paths.new ≡ paths.old ++ named folders.now name.now) }
{
    for folder in folders {
        paths.push(join(alloc, folder, name)?)?;
    }
    Ok(())
}

/// The places that are searched, in order.
fn candidates(
    alloc: Global,
    from: &Path,
    name: &str,
    angled: bool,
    config: &Config,
) -> Mem<List<Path>>
    ensures { IfOk result (λ paths. paths ≡ candidates from.now name.now angled config.now.includes) }
{
    let mut paths = List::new(alloc);
    if is_rooted(name) {
        paths.push(join(alloc, from, name)?)?;
        return Ok(paths);
    }
    if angled {
        named(alloc, &mut paths, config.includes().as_slice(), name)?;
        return Ok(paths);
    }
    paths.push(join(alloc, from, name)?)?;
    named(alloc, &mut paths, config.includes().as_slice(), name)?;
    Ok(paths)
}

/// Looks at paths in order.
fn find_in<V: HeaderView>(
    alloc: Global,
    paths: &[Path],
    view: &mut V,
    deps: &mut List<Dep>,
) -> Mem<Resolved>
    ensures ok { IfOk result (λ resolved. Searches (V.known view.old) paths.now deps.old deps.new (V.asked view.old) (V.asked view.new) resolved) }
    ensures fixed { V.known view.new ≡ V.known view.old }
{
    let mut rest = paths;
    while let Some((path, behind)) = rest.split_first() {
        rest = behind;
        if let Some(resolved) = look_noting(alloc, path, view, deps)? {
            return Ok(resolved);
        }
    }
    Ok(Resolved::Missing)
}

/// What a path comes to, or `None` where it is absent.
fn look_noting<V: HeaderView>(
    alloc: Global,
    path: &Path,
    view: &mut V,
    deps: &mut List<Dep>,
) -> Mem<Option<Resolved>>
    ensures ok { IfOk result (λ found. MatchOption found (V.known view.old path.now ≡ Absent) (ComesTo path.now (V.known view.old path.now))) }
    ensures asked { OnOk result (V.asked view.new ≡ V.asked view.old ++ path.now ∷ []) }
    ensures fixed { V.known view.new ≡ V.known view.old }
    ensures noted { OnOk result (deps.new ≡ deps.old ++ dep_of (V.known view.old) path.now ∷ []) }
{
    let known = view.ask(alloc, path)?;
    let dep = Dep {
        path: path.duplicate(alloc)?,
        known: known.duplicate(alloc)?,
    };
    deps.push(dep)?;
    found(alloc, path, known)
}

/// What a path comes to of which this is known.
fn found(alloc: Global, path: &Path, known: Known) -> Mem<Option<Resolved>>
    ensures { IfOk result (λ found. MatchOption found (known ≡ Absent) (ComesTo path.now known)) }
{
    match known {
        Known::Absent => Ok(None),
        Known::Found(text) => {
            let path = path.duplicate(alloc)?;
            Ok(Some(Resolved::File(path, text)))
        }
        Known::Failed => {
            let path = path.duplicate(alloc)?;
            Ok(Some(Resolved::Failed(path)))
        }
        Known::Unknown => {
            let path = path.duplicate(alloc)?;
            Ok(Some(Resolved::Need(path)))
        }
    }
}
