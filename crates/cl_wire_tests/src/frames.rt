use cl_base::{Mem, Text};
use cl_frames::{
    Frame, Frames, MemorySink, MemorySource, Source, StdSink, StdSource, Written, write_frame,
};
use std::alloc::Global;
use std::test::Fail;

/// The answers of four reads of a frame, and how many bytes were taken.
fn told<S: Source>(alloc: Global, source: &mut S) -> Mem<String> {
    let mut frames = Frames::new(alloc)?;
    let mut told = String::new(alloc);
    for _ in 0..4u8 {
        let answer = match frames.read_frame(alloc, source) {
            Frame::Body(text) => String::from_utf8_lossy(alloc, text.bytes())?,
            Frame::End => String::from_str(alloc, "end")?,
            Frame::Bad { offset } => format!(in alloc; "bad {offset}")?,
            Frame::Failed => String::from_str(alloc, "failed")?,
            Frame::Long => String::from_str(alloc, "long")?,
            Frame::Memory => String::from_str(alloc, "memory")?,
        };
        told.push_str(answer.as_str())?;
        told.push_str(", ")?;
    }
    let taken = format!(in alloc; "{}", frames.taken())?;
    told.push_str(taken.as_str())?;
    Ok(told)
}

#[test]
fn frames_of_sessions(rt: HostRuntime) -> Result<(), Fail> {
    let alloc = rt.alloc();
    let none: [u64; 1] = [1000];
    let two = "Content-Length: 5\r\n\r\nhelloContent-Length: 2\r\n\r\n{}";
    for (input, piece, fails, want) in [
        (two, 1, none, "hello, {}, end, end, 49"),
        (two, 3, none, "hello, {}, end, end, 49"),
        ("", 3, none, "end, end, end, end, 0"),
        ("Content-Length: 0\r\n\r\n", 3, none, ", end, end, end, 21"),
        (
            "Content-Length: 00000002\r\n\r\n{}",
            3,
            none,
            "{}, end, end, end, 30",
        ),
        (
            "Content-Length: 5\r\n\r\nhelloContent-Le",
            3,
            none,
            "hello, bad 26, bad 26, bad 26, 36",
        ),
        (
            "Content-Length: 5\r\n\r\nhel",
            3,
            none,
            "bad 0, bad 0, bad 0, bad 0, 24",
        ),
        (
            "Content-Length: 000000005\r\n\r\nhello",
            3,
            none,
            "bad 0, bad 0, bad 0, bad 0, 25",
        ),
        (
            "Content-Length: \r\n\r\n",
            3,
            none,
            "bad 0, bad 0, bad 0, bad 0, 17",
        ),
        (
            "content-length: 5\r\n\r\nhello",
            3,
            none,
            "bad 0, bad 0, bad 0, bad 0, 1",
        ),
        (
            "Content-Length: 67108865\r\n\r\nx",
            3,
            none,
            "bad 0, bad 0, bad 0, bad 0, 24",
        ),
        (
            "Content-Length: 67108864\r\n\r\nx",
            3,
            none,
            "bad 0, bad 0, bad 0, bad 0, 29",
        ),
        (two, 1, [3], "failed, failed, failed, failed, 3"),
        (two, 1, [23], "failed, failed, failed, failed, 23"),
        (two, 1, [26], "hello, failed, failed, failed, 26"),
    ] {
        let source = MemorySource::new(alloc, input.as_bytes(), piece, fails.as_slice());
        let mut source = source?;
        let answers = told(alloc, &mut source)?;
        assert_eq!(rt; answers.as_str(), want, "of {input}");
        let count = input.len().saturating_sub(source.rest().len());
        let end = format!(in alloc; ", {count}")?;
        assert!(rt; want.ends_with(end.as_str()), "what is left of {input}");
    }
    let mut source = StdSource::new(alloc, two.as_bytes())?;
    let answers = told(alloc, &mut source)?;
    assert_eq!(rt; answers.as_str(), "hello, {}, end, end, 49");
    Ok(())
}

#[test]
fn frames_written(rt: HostRuntime) -> Result<(), Fail> {
    let alloc = rt.alloc();
    let text = Text::new(alloc, b"hello".as_slice())?;
    for (fails, want, held) in [
        (9, Written::All, "hello"),
        (1, Written::Failed { taken: 3 }, "hel"),
        (0, Written::Failed { taken: 0 }, ""),
    ] {
        let mut sink = MemorySink::new(alloc, 3, [fails].as_slice())?;
        assert_eq!(rt; write_frame(&mut sink, &text), want);
        assert!(rt; sink.held() == held.as_bytes());
    }
    let mut sink = StdSink::new(Vec::new(alloc));
    assert_eq!(rt; write_frame(&mut sink, &text), Written::All);
    Ok(())
}
