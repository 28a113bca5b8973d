//! The session's core: a state machine over events that alone decides which reply a message gets, which jobs are
//! started, which headers are read and what the journal becomes. It knows no bytes, no JSON, no thread, no single query
//! and nothing of C.
#![tactic(auto)]

mod apply;
mod core_state;
mod decide;
mod decision;
mod ending;
mod event;
mod headers;
mod job_end;
mod jobs;
mod laws;
mod need;
mod note;
mod refusal;
mod replies;
mod step;
mod waiting;
mod work;

pub use cl_history::Entry;
pub use core_state::Core;
pub use event::{Effect, Ending, Event};
pub use laws::{any_run, one_reply, standard_words};
