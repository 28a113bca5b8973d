//! What became of a job.

ghost use Rattle.cl_query.specs.Seen.{Agrees, Agrees-prop, NeedRests, NeedRests-prop, Rests, Rests-prop};
ghost use Rattle.cl_query.specs.Unknowns.{IsUnknown, IsUnknown-prop};

use crate::job::Job;
use cl_base::{Answer, List, Path};
use cl_headers::Dep;

/// A job with its answer, and what the work saw of headers, in order. There is none with another answer than the one of
/// every job that differs in its headers alone and whose headers say what was seen, as this job's do.
#[derive(Drop)]
pub struct Done {
    pub job: Job,
    pub answer: Answer,
    pub seen: List<Dep>,
    pub ghost valid: { Rests job.kind job.config seen job.path job.text answer } by { Rests-prop job.kind job.config seen job.path job.text answer },
    pub ghost agrees: { Agrees job.headers seen } by { Agrees-prop job.headers seen },
}

/// A job with the first header that it needs and of which nothing is known in its snapshot, and what the work saw of
/// headers, in order. There is none with a path that isn't needed by every job that differs in its headers alone and whose
/// headers say what was seen, as this job's do, or of which something is known.
#[derive(Drop)]
pub struct Need {
    pub job: Job,
    pub path: Path,
    pub seen: List<Dep>,
    pub ghost valid: { NeedRests job.kind job.config seen job.path job.text path } by { NeedRests-prop job.kind job.config seen job.path job.text path },
    pub ghost agrees: { Agrees job.headers seen } by { Agrees-prop job.headers seen },
    pub ghost unknown: { IsUnknown job.headers path } by { IsUnknown-prop job.headers path },
}

/// What became of a job: its answer, the header that it needs, or the job itself where memory was wanting.
#[derive(Drop)]
pub enum JobAnswer {
    Done(Done),
    Need(Need),
    Memory(Job),
}
