//! The work for one query.

ghost use Rattle.std.specs.Prelude.{◌≡◌, ◌↔◌, IsTrue};
ghost use Rattle.cl_query.specs.Keeping.{question_of};
ghost use Rattle.cl_query.specs.Over.{IsOver, work_of};

use crate::seen::agrees;
use cl_base::{Config, Duplicate, Mem, Path, Query, Text};
use cl_headers::{Dep, HeaderMap};
use std::alloc::Global;

/// A query with all that its answer depends on. `number` names the job, `message` is the number of the message that it
/// works for, `mark` is the length of the journal when its snapshot was taken, `path` and `version` are the
/// document's, `text` is the document's text at that time, `config` is the session's, and `headers` is what was known
/// of headers at the mark. Copies share the text, the config and the headers.
#[derive(Drop)]
pub struct Job {
    pub number: u64,
    pub message: u64,
    pub mark: u64,
    pub path: Path,
    pub version: i64,
    pub text: Text,
    pub config: Config,
    pub headers: HeaderMap,
    pub kind: Query,
}

impl Job {
    /// Whether work on this job, which saw this of headers, is work on the other: the two are the same but for what is
    /// known of headers, and the other's headers say what was seen. It takes no memory, time linear in the texts of the
    /// two, and time logarithmic in the other's headers for each of those that were looked at.
    pub fn is_over(&self, seen: &[Dep], other: &Job) -> bool
        ensures { IsTrue result ↔ IsOver self.now seen.now other.now }
    {
        self.is_same_work(other) && agrees(&other.headers, seen)
    }

    /// Whether the other job asks the same of the same text at the same path under the same settings, whatever their numbers
    /// are and whatever is known of headers.
    pub(crate) fn is_same_question(&self, other: &Job) -> bool
        ensures { IsTrue result ↔ (question_of self.now ≡ question_of other.now) }
    {
        self.kind == other.kind
            && self.path == other.path
            && self.text == other.text
            && self.config.same(&other.config)
    }

    /// Whether the other job is the same but for what is known of headers.
    fn is_same_work(&self, other: &Job) -> bool
        ensures { IsTrue result ↔ (work_of self.now ≡ work_of other.now) }
    {
        self.number == other.number
            && self.message == other.message
            && self.mark == other.mark
            && self.version == other.version
            && self.kind == other.kind
            && self.path == other.path
            && self.text == other.text
            && self.config.same(&other.config)
    }
}

impl Duplicate for Job {
    fn duplicate(&self, alloc: Global) -> Mem<Job> {
        let path = self.path.duplicate(alloc)?;
        let text = self.text.duplicate(alloc)?;
        let config = self.config.duplicate(alloc)?;
        let headers = self.headers.duplicate(alloc)?;
        Ok(Job {
            number: self.number,
            message: self.message,
            mark: self.mark,
            path,
            version: self.version,
            text,
            config,
            headers,
            kind: self.kind,
        })
    }
}
