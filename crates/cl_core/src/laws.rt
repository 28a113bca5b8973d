//! What holds of every legal journal, and of every run of events.

ghost use Rattle.std.specs.Prelude.{◌≡◌, List, []};
ghost use Rattle.cl_query.specs.AnswerOf.{NeedsOf};
ghost use Rattle.cl_history.specs.declared.entry.Entry.{Entry};
ghost use Rattle.cl_history.specs.Given.{Given};
ghost use Rattle.cl_history.specs.Legal.{IsLegal};
ghost use Rattle.cl_history.specs.Once.{AreOnce};
ghost use Rattle.cl_history.specs.Accepted.{IsInStandardWords};
ghost use Rattle.cl_core.specs.declared.core_state.Core.{Core};
ghost use Rattle.cl_core.specs.Runs.{HasRun, Put, Runs, effects_of};
ghost use Rattle.cl_core.specs.Ends.{EndsOnce};
ghost use Rattle.cl_core.specs.Jobs.{AllStarted, AreNumberedFrom, EachHasOneOut, jobs_so_far};
ghost use Rattle.cl_core.specs.Standing.{IsIdle, StandsFor, jobs_started, journal_of};

/// In a legal journal no message gets two replies, and once no query is pending each request has one.
pub fn one_reply()
    ensures { (given : Given) (past : List Entry) → IsLegal NeedsOf given past → AreOnce given past }
{}

/// In a legal journal the session is initialised where an `initialize` was accepted, it is shut down where a `shutdown`
/// was, and the queries that are pending are those that were accepted and have no reply.
pub fn standard_words()
    ensures { (given : Given) (past : List Entry) → IsLegal NeedsOf given past → IsInStandardWords given past }
{}

/// Whatever events a new core takes, with memory or without: its journal is legal, no message got two replies, and the
/// replies among the effects are those of the journal. Each job that is started is over the text of its query's
/// document and over the headers at its mark, which is the journal's length; the session ends once, with the status of
/// the event that ended it first, as soon as no query is pending; and for each pending query just one job is out, but
/// for the one that awaits a read. `Core::new` gives a core that is idle and stands for what it is given, with an empty
/// journal, and `Core::step` takes an event as `Steps` says, or leaves the core as it was.
pub fn any_run()
    ensures legal { (given : Given) (puts : List Put) (fresh core : Core)
        → StandsFor given fresh → journal_of fresh ≡ [] → Runs given fresh puts core → HasRun given core (effects_of puts) }
    ensures started { (given : Given) (puts : List Put) (fresh core : Core)
        → StandsFor given fresh → journal_of fresh ≡ [] → Runs given fresh puts core → AllStarted given puts }
    ensures numbers { (given : Given) (puts : List Put) (fresh core : Core)
        → jobs_started fresh ≡ 0 → Runs given fresh puts core → AreNumberedFrom 0 (jobs_so_far puts) }
    ensures ends { (given : Given) (puts : List Put) (fresh core : Core)
        → StandsFor given fresh → journal_of fresh ≡ [] → IsIdle fresh → Runs given fresh puts core → EndsOnce given puts }
    ensures out { (given : Given) (puts : List Put) (fresh core : Core)
        → StandsFor given fresh → journal_of fresh ≡ [] → IsIdle fresh → Runs given fresh puts core → EachHasOneOut given puts }
{}
