//! Many requests that wait at once for headers. The first job of each needs a header, and the second, over what is known by
//! then, has the answer. All first jobs are worked before any second one.

use cl_base::{Config, Duplicate, List, Mem, Memory, Path, Read, Text};
use cl_core::{Core, Effect, Event};
use cl_query::{Job, JobAnswer, run_job};
use cl_rpc::{Call, Id, Parsed};
use std::alloc::Global;

/// How many requests wait at once.
const WORKS: u32 = 10_000;

/// A session, the jobs that it started, and how many reads it made and replies it gave.
#[derive(Drop)]
struct Session {
    core: Core,
    jobs: Vec<Job>,
    loads: u32,
    replies: u32,
}

#[test]
fn a_header_that_all_need_is_read_once(rt: HostRuntime) -> Result<(), Memory> {
    let session = worked(rt.alloc(), 1)?;
    assert_eq!(rt; session.loads, 1);
    assert_eq!(rt; session.jobs.len(), 20_000);
    assert_eq!(rt; session.replies, 10_001);
    assert_eq!(rt; session.core.journal().len(), 20_004);
    Ok(())
}

#[test]
fn a_header_of_each_is_read_once(rt: HostRuntime) -> Result<(), Memory> {
    let session = worked(rt.alloc(), WORKS)?;
    assert_eq!(rt; session.loads, 10_000);
    assert_eq!(rt; session.jobs.len(), 20_000);
    assert_eq!(rt; session.replies, 10_001);
    assert_eq!(rt; session.core.journal().len(), 40_002);
    Ok(())
}

/// A session of so many documents, each with a header of its own, after all requests were answered.
fn worked(alloc: Global, documents: u32) -> Mem<Session> {
    let config = Config::new(alloc, List::new(alloc), List::new(alloc))?;
    let mut session = Session {
        core: Core::new(alloc, &config)?,
        jobs: Vec::new(alloc),
        loads: 0,
        replies: 0,
    };
    put(alloc, &mut session, request(0, Call::Initialize))?;
    for number in 0..documents {
        let opened = opened(alloc, number)?;
        put(alloc, &mut session, opened)?;
    }
    for number in 0..WORKS {
        let document = if documents == 1 { 0 } else { number };
        let call = Call::Symbols(path_of(alloc, document, "c")?);
        put(alloc, &mut session, request(number, call))?;
    }
    work_all(alloc, &mut session)?;
    Ok(session)
}

/// Works the jobs in the order of their numbers, those too that are started meanwhile.
fn work_all(alloc: Global, session: &mut Session) -> Mem<()> {
    for number in 0..40_000 {
        let Some(job) = session.jobs.get(number) else {
            break;
        };
        let event = match run_job(alloc, job.duplicate(alloc)?) {
            JobAnswer::Done(done) => Event::Done(done),
            JobAnswer::Need(need) => Event::Need(need),
            JobAnswer::Memory(job) => Event::NoMemory(job),
        };
        put(alloc, session, event)?;
    }
    Ok(())
}

/// Puts an event to the session, and makes the read that it leads to.
fn put(alloc: Global, session: &mut Session, event: Event) -> Mem<()> {
    let effects = session.core.step(alloc, event)?;
    keep(alloc, session, effects.as_slice())?;
    if let Some(path) = path_to_load(effects.as_slice()) {
        let path = path.duplicate(alloc)?;
        let text = Text::new(alloc, b"#define H h\n")?;
        let effects = session
            .core
            .step(alloc, Event::Loaded(path, Read::Found(text)))?;
        keep(alloc, session, effects.as_slice())?;
    }
    Ok(())
}

/// Keeps the jobs that are started, and counts the rest.
fn keep(alloc: Global, session: &mut Session, effects: &[Effect]) -> Mem<()> {
    for effect in effects {
        match effect {
            Effect::Reply(_) => session.replies = session.replies.saturating_add(1),
            Effect::StartJob(job) => session.jobs.push(job.duplicate(alloc)?)?,
            Effect::Load(_) => session.loads = session.loads.saturating_add(1),
            Effect::Finish(_) => {}
        }
    }
    Ok(())
}

/// The header that is to be read.
fn path_to_load(effects: &[Effect]) -> Option<&Path> {
    match effects {
        [Effect::Load(path)] => Some(path),
        _ => None,
    }
}

fn request(id: u32, call: Call) -> Event {
    let id = Id::Number(i64::from(id));
    Event::Message(Parsed::Request { id, call })
}

/// The document of this number is opened: a header's line, and a declaration.
fn opened(alloc: Global, number: u32) -> Mem<Event> {
    let path = path_of(alloc, number, "c")?;
    let text = format!(in alloc; "#include </{number}.h>\nint H;\n")?;
    let text = Text::new(alloc, text.as_bytes())?;
    let call = Call::DidOpen(path, 1, text);
    Ok(Event::Message(Parsed::Notification(call)))
}

/// The path of this number and suffix.
fn path_of(alloc: Global, number: u32, suffix: &str) -> Mem<Path> {
    let path = format!(in alloc; "/{number}.{suffix}")?;
    Path::new(alloc, path.as_str())
}
