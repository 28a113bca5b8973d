//! Headers that are entered.

ghost use Rattle.std.specs.Prelude.{◌≡◌, ◌<◌, ◌++◌, ◌∷◌, [], None, if◌then◌else◌, IfOk, OnOk};
ghost use Rattle.cl_headers.specs.Noting.{IsNoted};
ghost use Rattle.cl_pp.specs.declared.aim.Target.{Target as TheTarget};
ghost use Rattle.cl_pp.specs.Preprocessing.{World, arrived, header_fault, marked};
ghost use Rattle.cl_headers.specs.declared.resolving.Resolved.TheVariants.{File};
ghost use Rattle.cl_pp.specs.Standing.{first_unknown, is_among, is_file, number_in, with_path};
ghost use Rattle.cl_pp.specs.code.Keeping.{Sees};
ghost use Rattle.cl_pp.specs.code.Reaching.{Arrives, IsDeeper, IsIn, IsKnown, Looks, Reaches, Settles, TellsNeed, deps_after};

use crate::aim::Target;
use crate::made::{Found, Made, Reached, Source};
use cl_base::{Config, Diag, Duplicate, List, Mem, Memory, Path, Text};
use cl_headers::{Dep, HeaderView, Resolved, find_header};
use cl_paths::folder_of;
use std::alloc::Global;

/// The most include lines that lead to a file.
const MOST_DEPTH: u32 = 200;

/// The number of a path's file: its place among the files, from 1; the next one, where it isn't among them.
fn number_in(files: &[Path], path: &Path) -> Mem<u32>
    ensures { IfOk result (λ number. number ≡ number_in files.now path.now) }
{
    let mut number: u32 = 1;
    let mut rest = files;
    while let Some((file, behind)) = rest.split_first() {
        rest = behind;
        if file == path {
            return Ok(number);
        }
        number = match number.checked_add(1) {
            Some(next) => next,
            None => return Err(Memory),
        };
    }
    Ok(number)
}

/// Whether it is one of these numbers.
fn is_among(numbers: &[u32], n: u32) -> bool
    ensures { result ≡ is_among numbers.now n }
{
    numbers.iter().any(|m| *m == n)
}

/// Adds the number, if it isn't there.
fn add_once(once: &mut List<u32>, n: u32) -> Mem<()>
    ensures { OnOk result (once.new ≡ (if is_among once.old n then once.old else once.old ++ n ∷ [])) }
{
    if is_among(once.as_slice(), n) {
        Ok(())
    } else {
        once.push(n)
    }
}

/// Whether it is one of these paths.
fn is_file(files: &[Path], path: &Path) -> bool
    ensures { result ≡ is_file files.now path.now }
{
    files.iter().any(|file| *file == *path)
}

/// Adds the path, if it isn't there.
fn add_file(alloc: Global, files: &mut List<Path>, path: &Path) -> Mem<()>
    ensures { OnOk result (files.new ≡ with_path files.old path.now) }
{
    if is_file(files.as_slice(), path) {
        Ok(())
    } else {
        let path = path.duplicate(alloc)?;
        files.push(path)
    }
}

/// Adds a fault of a line that names a header.
fn header_fault(faults: &mut List<Diag>, number: u8, target: &Target) -> Mem<()>
    ensures { OnOk result (faults.new ≡ faults.old ++ header_fault number target.now) }
{
    faults.push(Diag {
        number,
        at: target.at,
        name: None,
    })
}

/// What a line comes to that names a header. Where nothing is known of one that is asked for, nothing is added.
pub(crate) fn reach<V: HeaderView>(
    alloc: Global,
    config: &Config,
    view: &mut V,
    made: &mut Made,
    source: &Source,
    target: &Target,
) -> Mem<Reached>
    requires { Sees made.now }
    ensures done { (w : World) → IsIn source.now config.now (V.known view.old) w → IfOk result (Reaches w target.now made.old.done made.new.done) }
    ensures deeper { IfOk result (IsDeeper source.now.depth) }
    ensures known { IfOk result (IsKnown (V.known view.old)) }
    ensures told { first_unknown made.old.done.deps ≡ None → IfOk result (TellsNeed made.old.done.deps made.new.done.deps) }
    ensures fixed { V.known view.new ≡ V.known view.old }
    ensures noted { IfOk result (λ reached. IsNoted (V.known view.old) made.old.done.deps (deps_after made.new.done.deps reached) (V.asked view.old) (V.asked view.new)) }
    ensures events { OnOk result (made.new.done.events ≡ made.old.done.events) }
    ensures sees { OnOk result (Sees made.new) }
{
    if source.depth >= MOST_DEPTH {
        header_fault(&mut made.done.faults, 10, target)?;
        return Ok(Reached::Nothing);
    }
    let reached = look(alloc, config, view, made, source, target)?;
    Ok(reached)
}

/// The file is entered once only, unless it is the document.
pub(crate) fn mark(made: &mut Made, source: &Source) -> Mem<()>
    requires { Sees made.now }
    ensures done { (w : World) → w.depth ≡ source.now.depth → w.file ≡ source.now.number → OnOk result (made.new.done ≡ marked w made.old.done) }
    ensures deps { OnOk result (made.new.done.deps ≡ made.old.done.deps) }
    ensures events { OnOk result (made.new.done.events ≡ made.old.done.events) }
    ensures sees { OnOk result (Sees made.new) }
{
    if source.depth == 0 {
        Ok(())
    } else {
        add_once(&mut made.done.once, source.number)
    }
}

/// Looks for a header.
fn look<V: HeaderView>(
    alloc: Global,
    config: &Config,
    view: &mut V,
    made: &mut Made,
    source: &Source,
    target: &Target,
) -> Mem<Reached>
    requires { Sees made.now }
    ensures done { (w : World) → IsIn source.now config.now (V.known view.old) w → IfOk result (Looks w target.now made.old.done made.new.done) }
    ensures known { IfOk result (IsKnown (V.known view.old)) }
    ensures told { first_unknown made.old.done.deps ≡ None → IfOk result (TellsNeed made.old.done.deps made.new.done.deps) }
    ensures fixed { V.known view.new ≡ V.known view.old }
    ensures noted { IfOk result (λ reached. IsNoted (V.known view.old) made.old.done.deps (deps_after made.new.done.deps reached) (V.asked view.old) (V.asked view.new)) }
    ensures events { OnOk result (made.new.done.events ≡ made.old.done.events) }
    ensures sees { OnOk result (Sees made.new) }
{
    let folder = folder_of(alloc, &source.path)?;
    let mut asked = List::new(alloc);
    let resolved = find_header(
        alloc,
        &folder,
        target.name.text(),
        target.angled,
        config,
        view,
        &mut asked,
    )?;
    let reached = arrive(alloc, made, target, asked, resolved)?;
    Ok(reached)
}

/// Where the search comes to that asked for these headers.
fn arrive(
    alloc: Global,
    made: &mut Made,
    target: &Target,
    asked: List<Dep>,
    resolved: Resolved,
) -> Mem<Reached>
    requires { Sees made.now }
    ensures done { IfOk result (Arrives target.now resolved asked made.old.done made.new.done) }
    ensures events { OnOk result (made.new.done.events ≡ made.old.done.events) }
    ensures sees { OnOk result (Sees made.new) }
{
    match resolved {
        Resolved::Need(path) => Ok(Reached::Needs(path, asked)),
        Resolved::File(path, text) => {
            add_deps(alloc, &mut made.done.deps, asked.as_slice())?;
            let reached = enter(alloc, made, path, text)?;
            Ok(reached)
        }
        Resolved::Failed(_) => {
            add_deps(alloc, &mut made.done.deps, asked.as_slice())?;
            header_fault(&mut made.done.faults, 9, target)?;
            Ok(Reached::Nothing)
        }
        Resolved::Missing => {
            add_deps(alloc, &mut made.done.deps, asked.as_slice())?;
            header_fault(&mut made.done.faults, 11, target)?;
            Ok(Reached::Nothing)
        }
    }
}

/// Adds copies of headers that were asked for. Their texts are shared.
pub(crate) fn add_deps(alloc: Global, deps: &mut List<Dep>, asked: &[Dep]) -> Mem<()>
    ensures { OnOk result (deps.new ≡ deps.old ++ asked.now) }
{
    for dep in asked {
        let path = dep.path.duplicate(alloc)?;
        let known = dep.known.duplicate(alloc)?;
        deps.push(Dep { path, known })?;
    }
    Ok(())
}

/// The file of this path, unless it is entered once only and was entered.
fn enter(alloc: Global, made: &mut Made, path: Path, text: Text) -> Mem<Reached>
    requires { Sees made.now }
    ensures done { (target : TheTarget) → IfOk result (Settles (arrived target (File path text) made.old.done) made.new.done) }
    ensures events { OnOk result (made.new.done.events ≡ made.old.done.events) }
    ensures sees { OnOk result (Sees made.new) }
{
    let number = number_in(made.done.files.as_slice(), &path)?;
    if is_among(made.done.once.as_slice(), number) {
        return Ok(Reached::Nothing);
    }
    add_file(alloc, &mut made.done.files, &path)?;
    Ok(Reached::Enters(Found { number, path, text }))
}
