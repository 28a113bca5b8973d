//! What a query is answered with, from the text, the settings and what is known of headers, and the jobs that find it.
#![tactic(auto)]

mod answers;
mod done;
mod job;
mod kept;
mod landmarks;
mod laws;
mod run;
mod seen;
mod symbols;

pub use done::{Done, JobAnswer, Need};
pub use job::Job;
pub use kept::Kept;
pub use laws::{answer_or_need, one_answer, some_answer};
pub use run::{resume_job, run_job};
