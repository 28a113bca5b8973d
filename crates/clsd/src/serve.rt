ghost use Rattle.std.specs.Prelude.{◌≡◌, ◌≢◌, ◌≤◌, ◌⊎◌, ℕ, List, [], Some, None, IfOk, map, string_bytes};
ghost use Rattle.cl_base.specs.Faults.{HasCause};
ghost use Rattle.cl_base.specs.Reads.{Reads};
ghost use Rattle.cl_base.specs.declared.config.Settings.{Settings};
ghost use Rattle.cl_frames.specs.Sessions.{SplitsInto, after_last};
ghost use Rattle.cl_history.specs.Given.{Given};
ghost use Rattle.cl_core.specs.Standing.{IsIdle, StandsFor, journal_of};
ghost use Rattle.clsd.specs.Sessions.{MakesReads, SerialSession, RanToTheEnd, StoodStill, is_last};
ghost use Rattle.clsd.specs.Words.{command_in};

use crate::command::{Command, command_of};
use crate::outcome::{NO_MEMORY, Outcome, WRONG_WORDS};
use crate::session::{Ended, run};
use cl_base::{Config, HeaderSource, List, Mem, Memory};
use cl_core::Core;
use cl_frames::{Frames, Sink, Source};
use cl_history::Entry;
use std::alloc::Global;

/// Serves one session: reads messages from the source and writes replies to the sink, until the session ends. Each job is done
/// before the next message is taken, with a read of each header that it needs and that isn't known. It waits for nobody. With
/// words that are no command's it touches nothing.
pub fn serve_serial<S: Source, K: Sink, H: HeaderSource>(
    alloc: Global,
    words: &[String],
    source: &mut S,
    sink: &mut K,
    headers: &mut H,
) -> Outcome
    ensures session { (config : Settings) (bytes : List ℕ) → command_in (map string_bytes words.now) ≡ Command.Serial config
        → S.left source.old ≡ Some bytes → K.held sink.old ≡ Some []
        → (reads : Reads) × MakesReads (H.reads headers.old) (H.reads headers.new) (H.faults headers.old) (H.faults headers.new) reads
        × SerialSession config bytes reads (S.left source.new) (K.held sink.new) result.journal result.status result.at }
    ensures complete { (config : Settings) (bytes : List ℕ) (bodies : List (List ℕ)) (rest : List ℕ) → command_in (map string_bytes words.now) ≡ Command.Serial config
        → S.left source.old ≡ Some bytes → K.held sink.old ≡ Some []
        → SplitsInto is_last 0 bytes bodies (after_last rest) → StoodStill (S.faults source.old) (S.faults source.new) → StoodStill (K.faults sink.old) (K.faults sink.new) → RanToTheEnd result.status }
    ensures served { (config : Settings) → command_in (map string_bytes words.now) ≡ Command.Serial config → result.status ≢ 6 }
    ensures wrong_words { (n : ℕ) → command_in (map string_bytes words.now) ≡ Command.Bad n
        → ((result.status ≡ 6) ⊎ (result.status ≡ 7)) × (result.at ≡ 0) × (result.journal ≡ []) × (source.new ≡ source.old) × (sink.new ≡ sink.old) × (headers.new ≡ headers.old) }
    ensures source { HasCause (S.faults source.old) (S.faults source.new) (result.status ≡ 4) }
    ensures sink { HasCause (K.faults sink.old) (K.faults sink.new) (result.status ≡ 5) }
    ensures headers { (H.faults headers.old ≤ H.faults headers.new) × (result.links ≡ 0) }
{
    match command_of(alloc, words) {
        Ok(Command::Serial(config)) => serve(alloc, &config, source, sink, headers),
        Ok(Command::Bad(_)) => outcome(
            Ended {
                status: WRONG_WORDS,
                at: 0,
            },
            List::new(alloc),
        ),
        Err(Memory) => outcome(
            Ended {
                status: NO_MEMORY,
                at: 0,
            },
            List::new(alloc),
        ),
    }
}

/// Serves one session with this config and without workers.
fn serve<S: Source, K: Sink, H: HeaderSource>(
    alloc: Global,
    config: &Config,
    source: &mut S,
    sink: &mut K,
    headers: &mut H,
) -> Outcome
    ensures session { (bytes : List ℕ) → S.left source.old ≡ Some bytes → K.held sink.old ≡ Some []
        → (reads : Reads) × MakesReads (H.reads headers.old) (H.reads headers.new) (H.faults headers.old) (H.faults headers.new) reads
        × SerialSession config.now bytes reads (S.left source.new) (K.held sink.new) result.journal result.status result.at }
    ensures complete { (bytes : List ℕ) (bodies : List (List ℕ)) (rest : List ℕ) → S.left source.old ≡ Some bytes → K.held sink.old ≡ Some []
        → SplitsInto is_last 0 bytes bodies (after_last rest) → StoodStill (S.faults source.old) (S.faults source.new) → StoodStill (K.faults sink.old) (K.faults sink.new) → RanToTheEnd result.status }
    ensures served { result.status ≢ 6 }
    ensures source { HasCause (S.faults source.old) (S.faults source.new) (result.status ≡ 4) }
    ensures sink { HasCause (K.faults sink.old) (K.faults sink.new) (result.status ≡ 5) }
    ensures headers { (H.faults headers.old ≤ H.faults headers.new) × (result.links ≡ 0) }
{
    match begin(alloc, config) {
        Ok((frames, core)) => {
            let mut frames = frames;
            let mut core = core;
            let ended = run(alloc, &mut frames, &mut core, source, sink, headers);
            outcome(ended, core.into_journal())
        }
        Err(Memory) => outcome(
            Ended {
                status: NO_MEMORY,
                at: 0,
            },
            List::new(alloc),
        ),
    }
}

/// A session in which nothing has happened, and its frames.
fn begin(alloc: Global, config: &Config) -> Mem<(Frames, Core)>
    ensures frames { IfOk result (λ begun. (begun.0.taken ≡ 0) × (begun.0.last ≡ None)) }
    ensures stands { IfOk result (λ begun. (given : Given) → given.config ≡ config.now → StandsFor given begun.1) }
    ensures journal { IfOk result (λ begun. journal_of begun.1 ≡ []) }
    ensures idle { IfOk result (λ begun. IsIdle begun.1) }
{
    let core = Core::new(alloc, config)?;
    let frames = Frames::new(alloc)?;
    Ok((frames, core))
}

/// The outcome with this end and this journal.
fn outcome(ended: Ended, journal: List<Entry>) -> Outcome
    ensures ended { (result.status ≡ ended.status) × (result.at ≡ ended.at) }
    ensures links { result.links ≡ 0 }
    ensures journal { result.journal ≡ journal }
{
    Outcome {
        status: ended.status,
        at: ended.at,
        links: 0,
        journal,
    }
}
