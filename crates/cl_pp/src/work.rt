//! Work on a text, which stops at a header of which nothing is known, and goes on later.

ghost use Rattle.std.specs.Prelude.{◌≡◌, ◌+◌, ◌<◌, ◌++◌, [], None, Some, ℕ, List as TheList, Option as TheOption, false, IfOk, OnOk};
ghost use Rattle.cl_base.specs.declared.headers.Known.{Known};
ghost use Rattle.cl_base.specs.declared.headers.Known.TheVariants as state;
ghost use Rattle.cl_base.specs.declared.macros.Macro.{Macro};
ghost use Rattle.cl_base.specs.declared.macros.MacroNo.{MacroNo};
ghost use Rattle.cl_headers.specs.Noting.{IsNoted};
ghost use Rattle.cl_pp.specs.Before.{before_over};
ghost use Rattle.cl_pp.specs.Preprocessing.{Before};
ghost use Rattle.cl_pp.specs.Resuming.{Agree, GoesOn, IsWork, IsWorkOf, Waits};
ghost use Rattle.cl_pp.specs.code.Reaching.{IsLaid};
ghost use Rattle.cl_pp.specs.code.Resuming.{Followed, IsEntered, RunsTo, deps_by, with_target};
ghost use Rattle.cl_pp.specs.code.Shelving.{IsSound};

use crate::aim::Target;
use crate::done::{PpDone, PpNeed, PpStep};
use crate::file::lines;
use crate::made::{Found, Frame, Made, Place, Reached, Source, Wanted};
use crate::open::{begin, open};
use crate::reach::{add_deps, reach};
use crate::seen::Seen;
use crate::shelf::Shelf;
use crate::start::PpState;
use cl_base::{Config, Duplicate, List, Mem, Memory, Path, Text};
use cl_headers::{Dep, HeaderView};
use cl_macro::{MacroBase, MacroTable};
use std::alloc::Global;
use std::sync::Arc;

/// Work on a text: the macros, what is made so far, the headers that were lexed, the files that are open, the outermost
/// first, and the header that a line of the innermost one names and that wasn't looked for yet.
#[derive(Drop)]
pub struct PpWork {
    pub(crate) table: MacroTable,
    pub(crate) made: Made,
    pub(crate) shelf: Shelf,
    pub(crate) frames: List<Frame>,
    pub(crate) target: Option<Target>,
}

impl PpWork {
    /// The work on a text of which nothing was gone over yet.
    pub fn new(alloc: Global, start: PpState, path: &Path, main: &Text) -> Mem<PpWork>
        requires { start.events ≡ start.macros.events }
        ensures sound { IfOk result IsWork }
        ensures waits { (macros : TheList ℕ → TheOption Macro) (numbers : TheList ℕ → TheOption MacroNo) (folders : TheList (TheList ℕ)) → IfOk result (Waits macros numbers (before_over macros numbers start) folders path.now main.now) }
        ensures asked { IfOk result (λ work. work.made.done.deps ≡ []) }
    {
        let done = PpDone {
            tokens: List::new(alloc),
            events: List::new(alloc),
            files: start.files,
            once: start.once,
            deps: List::new(alloc),
            uses: List::new(alloc),
            looked: List::new(alloc),
            faults: List::new(alloc),
        };
        let opened = open(alloc, main.bytes())?;
        let source = Source {
            number: 0,
            depth: 0,
            path: path.duplicate(alloc)?,
            text: main.duplicate(alloc)?,
            opened: Arc::new(alloc, opened)?,
        };
        let mut work = PpWork {
            table: start.macros,
            made: Made {
                done,
                seen: Seen::new(alloc)?,
            },
            shelf: Shelf::new(alloc),
            frames: List::new(alloc),
            target: None,
        };
        open_file(alloc, &mut work, source)?;
        Ok(work)
    }

    /// The headers that were asked for so far, in order, each with what was known of it.
    pub fn asked(&self) -> &[Dep]
        ensures { result.now ≡ self.now.made.done.deps }
    {
        self.made.done.deps.as_slice()
    }

    /// Goes on over a view that knows of the headers that were asked for what was known then. What comes of the text is
    /// what comes of it where it is preprocessed from its start over this view. The
    /// settings' folders are those of the start.
    pub fn go_on<B: MacroBase, V: HeaderView>(
        self,
        alloc: Global,
        base: &B,
        config: &Config,
        view: &mut V,
    ) -> Mem<PpStep>
        requires sound { IsWork self }
        requires agrees { Agree (V.known view.now) self.made.done.deps }
        ensures done { (before : Before) (path text : TheList ℕ) → Waits (B.macros base.now) (B.events base.now) before config.now.includes path text self
            → IfOk result (GoesOn (B.macros base.now) (B.events base.now) before (V.known view.old) config.now.includes path text self.made.done.deps (V.asked view.old) (V.asked view.new)) }
        ensures sound { IfOk result IsWorkOf }
        ensures fixed { V.known view.new ≡ V.known view.old }
    {
        let mut work = self;
        match run(alloc, base, config, view, &mut work)? {
            None => Ok(PpStep::Done(done_of(work))),
            Some(Wanted { path, seen }) => Ok(PpStep::Need(PpNeed { path, seen, work })),
        }
    }
}

/// What was made.
fn done_of(work: PpWork) -> PpDone
    ensures { result ≡ work.made.done }
{
    let PpWork { made, .. } = work;
    let Made { done, .. } = made;
    done
}

/// Opens a file: the faults that stand before its first line are told.
fn open_file(alloc: Global, work: &mut PpWork, source: Source) -> Mem<()>
    requires { IsLaid source.text source.opened.value }
    ensures { OnOk result (IsEntered source work.old work.new) }
{
    begin(&mut work.made, &source)?;
    let place = Place {
        next: 0,
        sections: List::new(alloc),
    };
    work.frames.push(Frame { source, place })
}

/// Goes on up to the first header of which nothing is known, and answers it; `None` where the text's end is reached. After 2^64 - 1 turns memory is wanting.
fn run<B: MacroBase, V: HeaderView>(
    alloc: Global,
    base: &B,
    config: &Config,
    view: &mut V,
    work: &mut PpWork,
) -> Mem<Option<Wanted>>
    requires sound { IsWork work.now }
    requires agrees { Agree (V.known view.now) work.now.made.done.deps }
    ensures done { (before : Before) (path text : TheList ℕ) → Waits (B.macros base.now) (B.events base.now) before config.now.includes path text work.old
        → IfOk result (RunsTo (B.macros base.now) (B.events base.now) before (V.known view.old) config.now.includes path text work.new) }
    ensures sound { OnOk result (IsWork work.new) }
    ensures fixed { V.known view.new ≡ V.known view.old }
    ensures noted { IfOk result (λ wanted. IsNoted (V.known view.old) work.old.made.done.deps (deps_by wanted work.new) (V.asked view.old) (V.asked view.new)) }
{
    for count in 0..u64::MAX {
        let _ = count;
        match work.target.take() {
            Some(target) => {
                if let Some(wanted) = follow(alloc, config, view, work, target)? {
                    return Ok(Some(wanted));
                }
            }
            None => {
                if !advance(alloc, base, work)? {
                    return Ok(None);
                }
            }
        }
    }
    Err(Memory)
}

/// Goes over the lines of the innermost file up to the next that names a header; where none does, the file is closed.
/// Whether a file was open.
fn advance<B: MacroBase>(alloc: Global, base: &B, work: &mut PpWork) -> Mem<bool>
    requires { IsWork work.now }
    ensures done { (before : Before) (folders : TheList (TheList ℕ)) (path text : TheList ℕ) → work.old.target ≡ None → Waits (B.macros base.now) (B.events base.now) before folders path text work.old
        → OnOk result (Waits (B.macros base.now) (B.events base.now) before folders path text work.new) }
    ensures sound { OnOk result (IsWork work.new) }
    ensures deps { OnOk result (work.new.made.done.deps ≡ work.old.made.done.deps) }
    ensures end { IfOk result (λ more. more ≡ false → (work.new.frames ≡ []) × (work.new.target ≡ work.old.target)) }
{
    let Some(frame) = work.frames.pop() else {
        return Ok(false);
    };
    let Frame { source, place } = frame;
    let mut place = place;
    let target = lines(
        alloc,
        &source,
        &mut place,
        &mut work.table,
        base,
        &mut work.made,
    )?;
    if let Some(target) = target {
        work.frames.push(Frame { source, place })?;
        work.target = Some(target);
    }
    Ok(true)
}

/// Looks for the header that a line of the innermost file names, and opens its file, if it is to be entered. Where nothing
/// is known of one that is asked for, that one is answered, and the work stays as it was.
fn follow<V: HeaderView>(
    alloc: Global,
    config: &Config,
    view: &mut V,
    work: &mut PpWork,
    target: Target,
) -> Mem<Option<Wanted>>
    requires sound { IsWork work.now }
    requires agrees { Agree (V.known view.now) work.now.made.done.deps }
    ensures done { (macros : TheList ℕ → TheOption Macro) (numbers : TheList ℕ → TheOption MacroNo) (before : Before) (path text : TheList ℕ) → Waits macros numbers before config.now.includes path text (with_target (Some target) work.old)
        → work.old.target ≡ None → IfOk result (Followed macros numbers before (V.known view.old) config.now.includes path text work.new) }
    ensures sound { OnOk result (IsWork work.new) }
    ensures fixed { V.known view.new ≡ V.known view.old }
    ensures noted { IfOk result (λ wanted. IsNoted (V.known view.old) work.old.made.done.deps (deps_by wanted work.new) (V.asked view.old) (V.asked view.new)) }
{
    let Some(frame) = work.frames.pop() else {
        return Ok(None);
    };
    let depth = frame.source.depth;
    let reached = reach(alloc, config, view, &mut work.made, &frame.source, &target)?;
    work.frames.push(frame)?;
    match reached {
        Reached::Nothing => Ok(None),
        Reached::Enters(found) => {
            let source = source_of(alloc, &mut work.shelf, found, depth)?;
            open_file(alloc, work, source)?;
            Ok(None)
        }
        Reached::Needs(path, asked) => {
            let seen = seen_with(alloc, work.made.done.deps.as_slice(), asked.as_slice())?;
            work.target = Some(target);
            Ok(Some(Wanted { path, seen }))
        }
    }
}

/// The file of a header that was found, named in a file to which so many include lines lead.
fn source_of(alloc: Global, shelf: &mut Shelf, found: Found, depth: u32) -> Mem<Source>
    requires { depth < 200 }
    ensures is { IfOk result (λ source. (source.number ≡ found.number) × (source.depth ≡ depth + 1) × (source.path ≡ found.path) × (source.text ≡ found.text)) }
    ensures laid { (known : TheList ℕ → Known) → IsSound known shelf.old → known found.path ≡ state.Found found.text → IfOk result (λ source. IsLaid source.text source.opened.value) }
    ensures sound { (known : TheList ℕ → Known) → IsSound known shelf.old → known found.path ≡ state.Found found.text → OnOk result (IsSound known shelf.new) }
{
    let opened = shelf.open(alloc, &found)?;
    Ok(Source {
        number: found.number,
        depth: depth + 1,
        path: found.path,
        text: found.text,
        opened,
    })
}

/// The headers that were asked for, those of the last search behind those before it.
fn seen_with(alloc: Global, deps: &[Dep], asked: &[Dep]) -> Mem<List<Dep>>
    ensures { IfOk result (λ seen. seen ≡ deps.now ++ asked.now) }
{
    let mut seen = List::new(alloc);
    add_deps(alloc, &mut seen, deps)?;
    add_deps(alloc, &mut seen, asked)?;
    Ok(seen)
}
