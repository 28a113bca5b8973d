//! Whole sessions against what they must write. In a script a line `> BODY` is a message, and a line `< BODY` a reply;
//! `@ PATH TEXT` is a header, and `! N` a read that fails, numbered from 0.

use crate::outcome::Outcome;
use crate::scripts;
use crate::serve::serve_serial;
use cl_base::{List, Mem, Memory, MemoryHeaders, Path, Read, Text};
use cl_frames::{MemorySink, MemorySource};
use cl_history::Entry;
use cl_rpc::How;
use std::alloc::Global;
use std::process::Abort;
use std::test::Fail;

/// The frames of the lines that begin with this mark.
fn frames_of(alloc: Global, script: &str, mark: &str) -> Result<String, Fail> {
    let mut frames = String::new(alloc);
    for line in script.lines() {
        if let Some(body) = line.strip_prefix(mark) {
            let frame = format!(in alloc; "Content-Length: {}\r\n\r\n{body}", body.len())?;
            frames.push_str(frame.as_str())?;
        }
    }
    Ok(frames)
}

/// The outcome of a session with these words over these bytes, and what it wrote. The words stand between bars.
fn served(
    alloc: Global,
    row: &str,
    source: MemorySource,
    sink: MemorySink,
    headers: MemoryHeaders,
) -> Result<(Outcome, MemorySink), Fail> {
    let mut words = Vec::new(alloc);
    for word in row.split('|') {
        words.push(String::from_str(alloc, word)?)?;
    }
    let mut headers = headers;
    let mut source = source;
    let mut sink = sink;
    let outcome = serve_serial(
        alloc,
        words.as_slice(),
        &mut source,
        &mut sink,
        &mut headers,
    );
    Ok((outcome, sink))
}

/// The headers of a script.
fn headers_of(alloc: Global, script: &str) -> Result<MemoryHeaders, Fail> {
    let mut files = List::new(alloc);
    let mut fails = Vec::new(alloc);
    for line in script.lines() {
        if let Some(file) = line.strip_prefix("@ ") {
            let (path, text) = file.split_once(" ").unwrap_or((file, ""));
            let file = file_of(alloc, path, text).map_err(of_memory)?;
            files.push(file).map_err(of_memory)?;
        } else if let Some(call) = line.strip_prefix("! ") {
            fails.push(call.parse::<u64>().unwrap_or(0))?;
        }
    }
    let headers = MemoryHeaders::new(alloc, files, fails.as_slice()).map_err(of_memory)?;
    Ok(headers)
}

/// A header that is always read with this text.
fn file_of(alloc: Global, path: &str, text: &str) -> Mem<(Path, List<Read>)> {
    let mut reads = List::new(alloc);
    reads.push(Read::Found(Text::new(alloc, text.as_bytes())?))?;
    Ok((Path::new(alloc, path)?, reads))
}

fn of_memory(_memory: Memory) -> &'static str {
    "memory"
}

/// The words of a session without workers.
const SERVE: &str = "serve|--workers=0";

/// Plays a script, with these words, through a source that gives one byte at a time and a sink that takes three.
fn plays(
    rt: &impl Abort,
    alloc: Global,
    words: &str,
    script: &str,
    status: u8,
) -> Result<Outcome, Fail> {
    let input = frames_of(alloc, script, "> ")?;
    let wanted = frames_of(alloc, script, "< ")?;
    let source = MemorySource::new(alloc, input.as_bytes(), 1, &[]).map_err(of_memory)?;
    let sink = MemorySink::new(alloc, 3, &[]).map_err(of_memory)?;
    let headers = headers_of(alloc, script)?;
    let (outcome, sink) = served(alloc, words, source, sink, headers)?;
    assert_eq!(rt; outcome.status, status, "the status of {script}");
    assert!(rt; sink.held() == wanted.as_bytes(), "the replies of {script}");
    Ok(outcome)
}

/// The journal as a line.
fn told(alloc: Global, journal: &List<Entry>) -> Result<String, Fail> {
    let mut line = String::new(alloc);
    for entry in journal.as_slice() {
        let told = match entry {
            Entry::In(message) => format!(in alloc; "in {message}; ")?,
            Entry::Load(read) => format!(in alloc; "load {read}; ")?,
            Entry::Reply { message, mark, how } => {
                let how = how_told(*how);
                format!(in alloc; "reply {message} at {mark} {how}; ")?
            }
            Entry::Notify { message, mark } => format!(in alloc; "notify {message} at {mark}; ")?,
        };
        line.push_str(told.as_str())?;
    }
    Ok(line)
}

fn how_told(how: How) -> &'static str {
    match how {
        How::Answered => "answered",
        How::Cancelled => "cancelled",
        How::Modified => "modified",
        How::Refused => "refused",
        How::Memory => "memory",
    }
}

#[test]
fn first_session(rt: HostRuntime) -> Result<(), Fail> {
    let alloc = rt.alloc();
    let outcome = plays(&rt, alloc, SERVE, scripts::first_session(), 0)?;
    let journal = told(alloc, &outcome.journal)?;
    assert!(rt;
        journal.as_str()
            == "in 0; reply 0 at 1 answered; in 1; in 2; reply 2 at 4 answered; in 3; reply 3 at 6 answered; in 4; "
    );
    assert_eq!(rt; outcome.at, 0);
    assert_eq!(rt; outcome.links, 0);
    Ok(())
}

/// A header is read where it is needed and unknown, and again after a change that is announced.
#[test]
fn headers_are_read(rt: HostRuntime) -> Result<(), Fail> {
    let alloc = rt.alloc();
    let outcome = plays(&rt, alloc, SERVE, scripts::one_header(), 0)?;
    let journal = told(alloc, &outcome.journal)?;
    assert!(rt;
        journal.as_str()
            == "in 0; reply 0 at 1 answered; in 1; in 2; load 0; reply 2 at 5 answered; in 3; reply 3 at 7 answered; in 4; ",
        "{journal}"
    );
    let outcome = plays(&rt, alloc, "serve|-I|/p", scripts::header_that_failed(), 1)?;
    let journal = told(alloc, &outcome.journal)?;
    assert!(rt;
        journal.as_str()
            == "in 0; reply 0 at 1 answered; in 1; in 2; load 0; reply 2 at 5 answered; in 3; reply 3 at 7 answered; in 4; in 5; load 1; reply 5 at 11 answered; in 6; ",
        "{journal}"
    );
    Ok(())
}

#[test]
fn refusals_and_edits(rt: HostRuntime) -> Result<(), Fail> {
    let alloc = rt.alloc();
    plays(&rt, alloc, SERVE, scripts::refusals(), 0)?;
    plays(&rt, alloc, SERVE, scripts::edits(), 1)?;
    plays(&rt, alloc, SERVE, scripts::no_exit(), 2)?;
    plays(&rt, alloc, SERVE, scripts::five_documents(), 0)?;
    plays(&rt, alloc, SERVE, scripts::two_uris(), 1)?;
    let words = "serve|-DM=int m;|-I|/p|-D|M=int n;";
    plays(&rt, alloc, words, scripts::macros(), 1)?;
    Ok(())
}

/// What is left of a session that is cut off within its last frame.
#[test]
fn ends_within_a_frame(rt: HostRuntime) -> Result<(), Fail> {
    let alloc = rt.alloc();
    let input = frames_of(alloc, scripts::no_exit(), "> ")?;
    let wanted = frames_of(alloc, scripts::no_exit(), "< ")?;
    let whole = input.len() as u64;
    let mut bytes = Vec::from_slice(alloc, input.as_bytes())?;
    bytes.extend_from_slice(b"Content-Length: 5\r\n\r\n{}")?;
    let source = MemorySource::new(alloc, bytes.as_slice(), 7, &[]).map_err(of_memory)?;
    let sink = MemorySink::new(alloc, 9, &[]).map_err(of_memory)?;
    let (outcome, sink) = served(alloc, SERVE, source, sink, headers_of(alloc, "")?)?;
    assert_eq!(rt; outcome.status, 3);
    assert_eq!(rt; outcome.at, whole);
    assert!(rt; sink.held() == wanted.as_bytes());
    Ok(())
}

/// The source fails at each read in turn, and the sink at each write.
#[test]
fn each_fault_in_turn(rt: HostRuntime) -> Result<(), Fail> {
    let alloc = rt.alloc();
    let input = frames_of(alloc, scripts::first_session(), "> ")?;
    let wanted = frames_of(alloc, scripts::first_session(), "< ")?;
    let mut past_the_last = false;
    for call in 0..400u64 {
        let fails = [call];
        let source = MemorySource::new(alloc, input.as_bytes(), 64, &fails).map_err(of_memory)?;
        let sink = MemorySink::new(alloc, 1000, &[]).map_err(of_memory)?;
        let (outcome, sink) = served(alloc, SERVE, source, sink, headers_of(alloc, "")?)?;
        if outcome.status == 0 {
            past_the_last = true;
            assert!(rt; sink.held() == wanted.as_bytes(), "no read failed");
        } else {
            assert!(rt; outcome.status == 4 && !past_the_last, "a read that fails");
            assert!(rt; wanted.as_bytes().starts_with(sink.held()));
        }
    }
    assert!(rt; past_the_last, "some call is past the last read");
    for call in 0..9u64 {
        let fails = [call];
        let source = MemorySource::new(alloc, input.as_bytes(), 64, &[]).map_err(of_memory)?;
        let sink = MemorySink::new(alloc, 50, &fails).map_err(of_memory)?;
        let (outcome, sink) = served(alloc, SERVE, source, sink, headers_of(alloc, "")?)?;
        assert_eq!(rt; outcome.status, 5, "a write that fails");
        assert!(rt; wanted.as_bytes().starts_with(sink.held()));
    }
    Ok(())
}

/// Words that are no command's: nothing is read or written.
#[test]
fn wrong_words(rt: HostRuntime) -> Result<(), Fail> {
    let alloc = rt.alloc();
    let source = MemorySource::new(alloc, b"Content", 1, &[]).map_err(of_memory)?;
    let sink = MemorySink::new(alloc, 1, &[]).map_err(of_memory)?;
    let (outcome, sink) = served(
        alloc,
        "serve|-I|include",
        source,
        sink,
        headers_of(alloc, "")?,
    )?;
    assert_eq!(rt; outcome.status, 6);
    assert_eq!(rt; outcome.at, 0);
    assert_eq!(rt; sink.held().len(), 0);
    Ok(())
}
