//! The adapters over a reader and a writer, with more than three buffers of bytes in odd pieces.

use cl_base::{Mem, Text};
use cl_frames::{Got, Source, StdSink, StdSource, Written, write_frame};
use std::alloc::Global;
use std::io::{Error, ErrorKind, Read, Result as IoResult, Write};
use std::test::Fail;

/// More than three buffers of a source.
const MANY: usize = 200_003;

/// A reader that gives odd pieces. Each third call is interrupted, and one call fails.
#[derive(Drop)]
struct OddReader<'a> {
    left: &'a [u8],
    calls: usize,
    fails: usize,
}

impl Read for OddReader<'_> {
    fn read(&mut self, buf: &mut [u8]) -> IoResult<usize> {
        let call = self.calls;
        self.calls = call.saturating_add(1);
        if call == self.fails {
            return Err(Error::from(ErrorKind::Other));
        }
        if call % 3 == 1 {
            return Err(Error::from(ErrorKind::Interrupted));
        }
        let most = call.saturating_mul(7_919) % 70_001 + 1;
        let count = self.left.len().min(buf.len()).min(most);
        let (piece, left) = self.left.split_at(count);
        buf[..count].copy_from_slice(piece);
        self.left = left;
        Ok(count)
    }
}

/// A writer that takes odd pieces. Each third call is interrupted, and one call fails.
#[derive(Drop)]
struct OddWriter<'a> {
    held: &'a mut Vec<u8>,
    calls: usize,
    fails: usize,
}

impl Write for OddWriter<'_> {
    fn write(&mut self, piece: &[u8]) -> IoResult<usize> {
        let call = self.calls;
        self.calls = call.saturating_add(1);
        if call == self.fails {
            return Err(Error::from(ErrorKind::Other));
        }
        if call % 3 == 1 {
            return Err(Error::from(ErrorKind::Interrupted));
        }
        let count = piece.len().min(call.saturating_mul(613) % 9_001 + 1);
        self.held.extend_from_slice(&piece[..count])?;
        Ok(count)
    }

    fn flush(&mut self) -> IoResult<()> {
        Ok(())
    }
}

#[test]
fn a_source_hands_on_what_is_read(rt: HostRuntime) -> Result<(), Fail> {
    let alloc = rt.alloc();
    let bytes = numbered(alloc)?;
    for fails in [usize::MAX, 0, 6, 9] {
        let reader = OddReader {
            left: bytes.as_slice(),
            calls: 0,
            fails,
        };
        let mut source = StdSource::new(alloc, reader)?;
        let (read, faults) = all_of(alloc, &mut source)?;
        assert!(rt; read == bytes, "with a fault at {fails}");
        assert_eq!(rt;
            faults,
            u32::from(fails != usize::MAX),
            "with a fault at {fails}"
        );
    }
    Ok(())
}

#[test]
fn a_sink_hands_down_what_is_written(rt: HostRuntime) -> Result<(), Fail> {
    let alloc = rt.alloc();
    let bytes = numbered(alloc)?;
    let frame = Text::new(alloc, bytes.as_slice())?;
    for fails in [usize::MAX, 0, 6, 9] {
        let mut held = Vec::new(alloc);
        let mut sink = StdSink::new(OddWriter {
            held: &mut held,
            calls: 0,
            fails,
        });
        let taken = match write_frame(&mut sink, &frame) {
            Written::All => bytes.len(),
            Written::Failed { taken } => taken as usize,
        };
        drop(sink);
        assert_eq!(rt;
            taken == bytes.len(),
            fails == usize::MAX,
            "with a fault at {fails}"
        );
        assert_eq!(rt; held.len(), taken, "with a fault at {fails}");
        assert!(rt;
            bytes.as_slice().starts_with(held.as_slice()),
            "with a fault at {fails}"
        );
    }
    Ok(())
}

/// Bytes that tell where they stand.
fn numbered(alloc: Global) -> Mem<Vec<u8>> {
    let mut bytes = Vec::new(alloc);
    for i in 0..MANY {
        bytes.push((i.saturating_mul(31) % 251) as u8)?;
    }
    Ok(bytes)
}

/// All that a source gives, in pieces of four sizes, and how often it failed.
fn all_of<S: Source>(alloc: Global, source: &mut S) -> Mem<(Vec<u8>, u32)> {
    let mut read = Vec::new(alloc);
    let mut faults = 0u32;
    let mut small = [0u8; 7];
    let mut large = vec![in alloc; 0u8; 70_000]?;
    for i in 0..MANY {
        let buf = if i % 4 == 3 {
            large.as_mut_slice()
        } else {
            small.as_mut_slice()
        };
        match source.read(buf) {
            Got::Bytes(0) => break,
            Got::Bytes(count) => read.extend_from_slice(&buf[..count])?,
            Got::Failed => faults = faults.saturating_add(1),
        }
    }
    Ok((read, faults))
}
