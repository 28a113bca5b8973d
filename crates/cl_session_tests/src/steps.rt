//! Worked examples of what a session's core does at each event. In the table a line `new` begins a session, and every
//! other line is an event with what it must give. `ask-text` and `cancel-text` have an id that is a text. `done` and `fail`
//! have the number of a job, from 0. A job is told with its number, its message, its mark, and its document's version and
//! text; a reply with its message, its mark and its id. `loaded`, `absent` and `unread` are reads of a header. `known` asks
//! what is known of a path, and `length` how many entries the journal has.

use crate::step_rows::ROWS;
use cl_base::{Answer, Config, Duplicate, Known, List, Mem, Path, Read, Text};
use cl_core::{Core, Effect, Ending, Event};
use cl_query::{Job, JobAnswer, run_job};
use cl_rpc::{Call, Id, Out, Parsed, Reply};
use std::alloc::Global;
use std::test::Fail;

#[derive(Drop)]
struct Session {
    core: Core,
    jobs: Vec<Job>,
}

#[test]
fn steps(rt: HostRuntime) -> Result<(), Fail> {
    let alloc = rt.alloc();
    let mut session = fresh(alloc)?;
    for line in ROWS.lines() {
        if line == "new" {
            session = fresh(alloc)?;
            continue;
        }
        let (asked, wanted) = line.split_once(" => ").unwrap_or((line, "?"));
        let told = given_at(alloc, &mut session, asked)?;
        assert_eq!(rt; told.as_str(), wanted, "{line}");
    }
    let Session { core, .. } = session;
    let length = core.journal().len();
    assert_eq!(rt; core.into_journal().len(), length);
    Ok(())
}

/// A session in which nothing has happened.
fn fresh(alloc: Global) -> Mem<Session> {
    let config = Config::new(alloc, List::new(alloc), List::new(alloc))?;
    Ok(Session {
        core: Core::new(alloc, &config)?,
        jobs: Vec::new(alloc),
    })
}

/// What a line's event or question gives.
fn given_at(alloc: Global, session: &mut Session, line: &str) -> Mem<String> {
    let (word, rest) = cut(line);
    if word == "known" {
        return known(alloc, &session.core, rest);
    }
    if word == "length" {
        let length = session.core.journal().len();
        return Ok(format!(in alloc; "{length}")?);
    }
    let event = event_of(alloc, session.jobs.as_slice(), word, rest)?;
    let effects = session.core.step(alloc, event)?;
    keep_jobs(alloc, &mut session.jobs, effects.as_slice())?;
    told(alloc, effects.as_slice())
}

/// A line's first word, and the rest.
fn cut(line: &str) -> (&str, &str) {
    line.split_once(' ').unwrap_or((line, ""))
}

/// The text that is known of a path.
fn known(alloc: Global, core: &Core, path: &str) -> Mem<String> {
    let headers = core.headers(alloc)?;
    let path = Path::new(alloc, path)?;
    let text = text_of(headers.get(&path));
    Ok(String::from_str(alloc, text)?)
}

fn text_of(known: Option<&Known>) -> &str {
    match known {
        Some(known) => found_in(known),
        None => "-",
    }
}

fn found_in(known: &Known) -> &str {
    match known {
        Known::Found(text) => str::from_utf8(text.bytes()).unwrap_or("?"),
        _ => "?",
    }
}

/// The event that is told by its word and the rest of its line.
fn event_of(alloc: Global, jobs: &[Job], word: &str, rest: &str) -> Mem<Event> {
    let (first, rest) = cut(rest);
    let (second, text) = cut(rest);
    let id = Id::Number(i64::from(digit_of(first)));
    Ok(match word {
        "init" => request(id, Call::Initialize),
        "shutdown" => request(id, Call::Shutdown),
        "exit" => notification(Call::Exit),
        "ask" => request(id, Call::Symbols(Path::new(alloc, second)?)),
        "ask-text" => request(
            text_id(alloc, first)?,
            Call::Symbols(Path::new(alloc, second)?),
        ),
        "cancel" => notification(Call::Cancel(id)),
        "cancel-text" => notification(Call::Cancel(text_id(alloc, first)?)),
        "open" | "change" | "close" | "watched" => {
            notification(document_call(alloc, word, first, digit_of(second), text)?)
        }
        "loaded" => Event::Loaded(Path::new(alloc, first)?, found(alloc, rest)?),
        "absent" => Event::Loaded(Path::new(alloc, first)?, Read::Absent),
        "unread" => Event::Loaded(Path::new(alloc, first)?, Read::Failed),
        "done" => end_of(alloc, jobs, digit_of(first), true)?,
        "fail" => end_of(alloc, jobs, digit_of(first), false)?,
        _ => Event::End(Ending::Edge),
    })
}

/// A read that gave this text.
fn found(alloc: Global, text: &str) -> Mem<Read> {
    Ok(Read::Found(Text::new(alloc, text.as_bytes())?))
}

fn request(id: Id, call: Call) -> Event {
    Event::Message(Parsed::Request { id, call })
}

fn notification(call: Call) -> Event {
    Event::Message(Parsed::Notification(call))
}

fn text_id(alloc: Global, text: &str) -> Mem<Id> {
    let text = Text::new(alloc, text.as_bytes())?;
    Ok(Id::Text(text))
}

fn digit_of(text: &str) -> u8 {
    match text.as_bytes() {
        [digit, ..] => digit.saturating_sub(48),
        [] => 0,
    }
}

/// What is told of a document.
fn document_call(alloc: Global, word: &str, path: &str, version: u8, text: &str) -> Mem<Call> {
    let path = Path::new(alloc, path)?;
    let version = i64::from(version);
    let text = Text::new(alloc, text.as_bytes())?;
    Ok(match word {
        "open" => Call::DidOpen(path, version, text),
        "change" => Call::DidChange(path, version, Some(text)),
        "close" => Call::DidClose(path),
        _ => {
            let mut paths = List::new(alloc);
            paths.push(path)?;
            Call::Watched(paths)
        }
    })
}

/// The end of the job of this number: its answer, or that memory was wanting.
fn end_of(alloc: Global, jobs: &[Job], number: u8, is_done: bool) -> Mem<Event> {
    let Some(job) = jobs.get(usize::from(number)) else {
        return Ok(Event::Message(Parsed::Ignored));
    };
    let job = job.duplicate(alloc)?;
    if !is_done {
        return Ok(Event::NoMemory(job));
    }
    Ok(match run_job(alloc, job) {
        JobAnswer::Done(done) => Event::Done(done),
        JobAnswer::Need(need) => Event::Need(need),
        JobAnswer::Memory(job) => Event::NoMemory(job),
    })
}

/// Keeps the jobs that are started.
fn keep_jobs(alloc: Global, jobs: &mut Vec<Job>, effects: &[Effect]) -> Mem<()> {
    for effect in effects {
        if let Effect::StartJob(job) = effect {
            jobs.push(job.duplicate(alloc)?)?;
        }
    }
    Ok(())
}

/// The effects, in order.
fn told(alloc: Global, effects: &[Effect]) -> Mem<String> {
    let mut line = String::new(alloc);
    for effect in effects {
        let word = match effect {
            Effect::Reply(reply) => reply_told(alloc, reply)?,
            Effect::StartJob(job) => job_told(alloc, job)?,
            Effect::Load(path) => format!(in alloc; "load {}.", path.text())?,
            Effect::Finish(status) => format!(in alloc; "finish {status}.")?,
        };
        line.push_str(word.as_str())?;
    }
    Ok(line)
}

fn job_told(alloc: Global, job: &Job) -> Mem<String> {
    let (number, message, mark, version) = (job.number, job.message, job.mark, job.version);
    let text = str::from_utf8(job.text.bytes()).unwrap_or("?");
    Ok(format!(in alloc; "job {number} of {message} at {mark}, {version} {text}.")?)
}

fn reply_told(alloc: Global, reply: &Reply) -> Mem<String> {
    let (message, mark) = (reply.message, reply.mark);
    let id = id_told(alloc, &reply.id)?;
    let out = out_told(alloc, &reply.out)?;
    Ok(format!(in alloc; "{message} at {mark} to {id} {out}.")?)
}

fn id_told(alloc: Global, id: &Option<Id>) -> Mem<String> {
    Ok(match id {
        Some(Id::Number(number)) => format!(in alloc; "{number}")?,
        Some(Id::Text(text)) => {
            let text = str::from_utf8(text.bytes()).unwrap_or("?");
            format!(in alloc; "'{text}'")?
        }
        None => String::from_str(alloc, "none")?,
    })
}

fn out_told(alloc: Global, out: &Out) -> Mem<String> {
    Ok(match out {
        Out::Capabilities => String::from_str(alloc, "capabilities")?,
        Out::Null => String::from_str(alloc, "null")?,
        Out::Error(code) => format!(in alloc; "{code}")?,
        Out::Answer(Answer::Symbols(symbols)) => {
            let first = match symbols.get(0) {
                Some(symbol) => str::from_utf8(symbol.name.bytes()).unwrap_or("?"),
                None => "none",
            };
            format!(in alloc; "answer {first}")?
        }
    })
}
