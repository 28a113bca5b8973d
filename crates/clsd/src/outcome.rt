use cl_base::List;
use cl_history::Entry;

/// The status of a sink that failed.
pub const SINK_FAILED: u8 = 5;

/// The status of words that are no command's.
pub const WRONG_WORDS: u8 = 6;

/// The status of want of memory outside a job.
pub const NO_MEMORY: u8 = 7;

/// How a call ended. `status` is the program's: 0 and 1 after `exit`, with and without a `shutdown` before it; 2 at
/// the end of the input; 3 at a bad frame, whose offset in bytes is `at` (0 with every other status); 4 where the
/// source failed; 5 where the sink failed; 6 for words that are no command's; 7 for want of memory outside a job; 8
/// where 2^40 bytes were taken. `links` is how many links of headers were built, and `journal` what happened, in order.
#[derive(Drop)]
pub struct Outcome {
    pub status: u8,
    pub at: u64,
    pub links: u64,
    pub journal: List<Entry>,
}
