use crate::waiting::Waiting;
use cl_base::{Config, Duplicate, List, Mem, Path};
use cl_headers::HeaderMap;
use cl_history::Entry;
use cl_pending::Pending;
use cl_store::Docs;
use std::alloc::Global;
use std::marker::Model;

/// The read that a session awaits: its path, and the message whose job needs it.
#[derive(Drop)]
pub struct Awaited {
    pub message: u64,
    pub path: Path,
}

/// The state of a session: its config, what was accepted so far, the open documents, what is known of headers, the
/// requests that wait for their replies, the read that is awaited, and the journal. `messages`, `loads` and `jobs` are
/// how many there were so far.
#[derive(Drop)]
pub struct State {
    pub(crate) config: Config,
    pub(crate) initialised: bool,
    pub(crate) shut_down: bool,
    pub(crate) docs: Docs,
    pub(crate) headers: HeaderMap,
    pub(crate) pending: Pending<Waiting>,
    pub(crate) awaited: Option<Awaited>,
    pub(crate) messages: u64,
    pub(crate) loads: u64,
    pub(crate) jobs: u64,
    pub(crate) ending: Option<u8>,
    pub(crate) finished: bool,
    pub(crate) journal: List<Entry>,
}

/// A session: its state, in which the messages of those that wait were received.
#[derive(Drop)]
pub struct Core {
    pub(crate) state: State,
}

impl Model for Core {
    ghost use Rattle.cl_core.specs.declared.core_state.State.{State};
    ghost use Rattle.cl_core.specs.contracts.core_state.State.{the_row as state_row};
    ghost use Rattle.cl_core.specs.Numbered.{IsNumbered};

    ghost Value = { State };

    ghost coded = { state_row.coded };

    ghost view = { λ it. it.state };

    ghost invariant = { λ it. IsNumbered it.state };
}

impl Core {
    ghost use Rattle.std.specs.Prelude.{◌≡◌, ℕ, [], List, None, IfOk};
    ghost use Rattle.cl_history.specs.Given.{Given};
    ghost use Rattle.cl_history.specs.Headers.{AreHeadersAt};
    ghost use Rattle.cl_core.specs.Standing.{IsIdle, StandsFor, jobs_started, journal_of, past_of};

    /// A session in which nothing has happened.
    pub fn new(alloc: Global, config: &Config) -> Mem<Core>
        ensures stands { IfOk result (λ core. (given : Given) → given.config ≡ config.now → StandsFor given core) }
        ensures journal { IfOk result (λ core. journal_of core ≡ []) }
        ensures idle { IfOk result (λ core. IsIdle core) }
        ensures jobs { IfOk result (λ core. jobs_started core ≡ 0) }
    {
        let config = config.duplicate(alloc)?;
        let headers = HeaderMap::new(alloc)?;
        Ok(Core {
            state: State {
                config,
                initialised: false,
                shut_down: false,
                docs: Docs::new(alloc),
                headers,
                pending: Pending::new(alloc),
                awaited: None,
                messages: 0,
                loads: 0,
                jobs: 0,
                ending: None,
                finished: false,
                journal: List::new(alloc),
            },
        })
    }

    /// The entries so far, the oldest first.
    pub fn journal(&self) -> &List<Entry>
        ensures { result.now ≡ journal_of self.now }
    {
        &self.state.journal
    }

    /// What is known of headers: the texts of the open documents, and the answers of the reads of other paths with no
    /// change of the header since.
    pub fn headers(&self, alloc: Global) -> Mem<HeaderMap>
        ensures { IfOk result (λ headers. (given : Given) → StandsFor given self.now → AreHeadersAt given (past_of self.now) headers) }
    {
        let headers = self.state.headers.duplicate(alloc)?;
        Ok(headers)
    }

    /// The entries, the oldest first; the session is over.
    pub fn into_journal(self) -> List<Entry>
        ensures { result ≡ journal_of self }
    {
        let state = self.state;
        state.journal
    }
}
