//! Finds answers.

ghost use Rattle.std.specs.Prelude.{◌≡◌, ◌<◌, ◌^◌, length, IfOk};
ghost use Rattle.cl_query.specs.Finding.{Finds, IsAnsweredBy, IsListed};
ghost use Rattle.cl_query.specs.Keeping.{IsKept};

use crate::job::Job;
use crate::kept::{Kept, work_on};
use crate::symbols::symbols;
use cl_base::{Answer, EmptyBase, List, Mem, Path, PpToken, Query, Symbol};
use cl_headers::{Dep, MapView};
use cl_parse::items;
use cl_pp::{PpDone, PpNeed, PpStep};
use cl_tree::NameSet;
use std::alloc::Global;

/// What work on a job found: its answer, or the header that it needs, with what the work saw of headers.
#[derive(Drop)]
pub enum Found {
    Answer(Answer, List<Dep>),
    Need(Path, List<Dep>),
}

/// Works a job, from the work that is kept, if that is work on it. Where the job needs a header, the work is kept.
pub(crate) fn find(alloc: Global, job: &Job, kept: &mut Kept) -> Mem<Found>
    requires { IsKept kept.now }
    ensures found { IfOk result (Finds job.now) }
    ensures kept { IsKept kept.new }
{
    match job.kind {
        Query::Symbols => {
            let work = work_on(alloc, job, kept)?;
            let mut view = MapView::new(alloc, &job.headers);
            match work.go_on(alloc, &EmptyBase, &job.config, &mut view)? {
                PpStep::Done(done) => {
                    let found = answered(alloc, job.text.bytes(), done)?;
                    Ok(found)
                }
                PpStep::Need(PpNeed { path, seen, work }) => {
                    // no header map holds that nothing is known of a path
                    let _ = job.headers.get(&path);
                    kept.keep(alloc, job, work)?;
                    Ok(Found::Need(path, seen))
                }
            }
        }
    }
}

/// What is answered about symbols.
fn answered(alloc: Global, text: &[u8], done: PpDone) -> Mem<Found>
    requires room { length text.now < 2 ^ 32 }
    ensures { IfOk result (IsAnsweredBy text.now done) }
{
    let listed = listed(alloc, text, done.tokens.as_slice())?;
    let PpDone { deps, .. } = done;
    Ok(Found::Answer(Answer::Symbols(listed), deps))
}

/// The symbols of a text of these tokens.
fn listed(alloc: Global, text: &[u8], tokens: &[PpToken]) -> Mem<List<Symbol>>
    requires room { length text.now < 2 ^ 32 }
    ensures { IfOk result (IsListed text.now tokens.now) }
{
    let items = items(alloc, tokens, NameSet::new(alloc))?;
    let symbols = symbols(alloc, text, tokens, items.as_slice())?;
    Ok(symbols)
}
