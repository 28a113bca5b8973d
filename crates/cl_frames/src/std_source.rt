ghost use Rattle.std.specs.Prelude.{◌≡◌, ◌≤◌, ◌<◌, ℕ, take, length, vec_len, IfOk};
ghost use Rattle.cl_frames.specs.Edges.{HandsOn};

use crate::memory_source::copy_front;
use crate::outside::{Got, Source};
use cl_base::Mem;
use std::alloc::Global;
use std::io::{ErrorKind, Read};

/// The bytes that a reader is asked for at a time.
const ROOM: usize = 65_536;

/// Any reader as a source, which doesn't tell what is left. It reads ahead into a buffer of its own, so that a read of
/// a few bytes mostly makes no call of the reader.
#[derive(Drop)]
pub struct StdSource<R> {
    inner: R,
    buffer: Vec<u8>,
    at: usize,
    end: usize,
    faults: u64,
    ghost ordered: { at ≤ end },
    ghost within: { end ≤ vec_len buffer },
    ghost some: { 0 < vec_len buffer },
}

impl<R: Read + Drop> StdSource<R> {
    ghost use Rattle.cl_frames.specs.Adapters.{source_left};

    /// A source of what the reader gives from here on, with a buffer of 65,536 bytes and no fault so far.
    pub fn new(alloc: Global, inner: R) -> Mem<StdSource<R>>
        ensures faults { IfOk result (λ source. ⟦<StdSource<R> as Source>⟧.faults source ≡ 0) }
        ensures left { IfOk result (λ source. source_left R.remaining source ≡ R.remaining inner) }
    {
        let buffer = vec![in alloc; 0u8; ROOM]?;
        Ok(StdSource {
            inner,
            buffer,
            at: 0,
            end: 0,
            faults: 0,
        })
    }
}

impl<R: Read> Source for StdSource<R> {
    ghost use Rattle.std.specs.Prelude.{None};
    ghost use Rattle.cl_frames.specs.Outside.{Gives, GotCause};
    ghost use Rattle.cl_frames.specs.Adapters.{source_left};

    ghost left = { λ _. None };

    ghost faults = { λ s. s.faults };

    /// Where the reader tells what it has left, the bytes that were read ahead and those are handed on exactly: in
    /// order, none twice and none lost.
    fn read(&mut self, buf: &mut [u8]) -> Got
        ensures bytes { Gives None None buf.new result }
        ensures cause { GotCause self.old.faults self.new.faults result }
        ensures hands_on { HandsOn (source_left R.remaining self.old) (source_left R.remaining self.new) buf.new result }
    {
        let got = self.hand_on(buf);
        if let Got::Failed = got {
            self.faults = self.faults.saturating_add(1);
        }
        got
    }
}

impl<R: Read> StdSource<R> {
    ghost use Rattle.std.specs.Prelude.{IsTrue};
    ghost use Rattle.std.specs.Io.KnownBytes.{Consumes, Keeps, IsAtEnd};
    ghost use Rattle.cl_frames.specs.Outside.{Gives};
    ghost use Rattle.cl_frames.specs.Adapters.{source_left};

    /// A read that counts no fault. With nothing read ahead, a large piece is filled by the reader itself.
    fn hand_on(&mut self, buf: &mut [u8]) -> Got
        ensures bytes { Gives None None buf.new result }
        ensures hands_on { HandsOn (source_left R.remaining self.old) (source_left R.remaining self.new) buf.new result }
        ensures faults { self.new.faults ≡ self.old.faults }
    {
        if self.at == self.end && buf.len() >= self.buffer.len() {
            return read_some(&mut self.inner, buf);
        }
        if !self.fill() {
            return Got::Failed;
        }
        let count = self.take_ahead(buf);
        Got::Bytes(count)
    }

    /// Reads ahead, where nothing is left of what was. It tells whether the reader had no fault.
    fn fill(&mut self) -> bool
        ensures kept { Keeps (source_left R.remaining self.old) (source_left R.remaining self.new) }
        ensures end { IsTrue result → self.new.at ≡ self.new.end → IsAtEnd (source_left R.remaining self.new) }
        ensures faults { self.new.faults ≡ self.old.faults }
    {
        if self.at < self.end {
            return true;
        }
        match read_some(&mut self.inner, self.buffer.as_mut_slice()) {
            Got::Bytes(count) => {
                self.at = 0;
                self.end = count;
                true
            }
            Got::Failed => false,
        }
    }

    /// Hands on the front of what was read ahead.
    fn take_ahead(&mut self, buf: &mut [u8]) -> usize
        ensures within { result ≤ length buf.new }
        ensures front { Consumes (source_left R.remaining self.old) (source_left R.remaining self.new) (take result buf.new) }
        ensures none { result ≡ 0 → 0 < length buf.new → (self.old.at ≡ self.old.end) × (source_left R.remaining self.new ≡ source_left R.remaining self.old) }
        ensures faults { self.new.faults ≡ self.old.faults }
    {
        let ahead = &self.buffer.as_slice()[self.at..self.end];
        let count = ahead.len().min(buf.len());
        copy_front(buf, ahead, count);
        self.at += count;
        count
    }
}

/// One read, made again where a signal broke it off.
fn read_some<R: Read>(reader: &mut R, buf: &mut [u8]) -> Got
    ensures hands_on { HandsOn (R.remaining reader.old) (R.remaining reader.new) buf.new result }
    ensures within { (n : ℕ) → result ≡ Got.Bytes n → n ≤ length buf.new }
{
    for _ in 0..u64::MAX {
        match reader.read(buf) {
            Ok(count) => return Got::Bytes(count),
            Err(error) => {
                if error.kind() != ErrorKind::Interrupted {
                    return Got::Failed;
                }
            }
        }
    }
    Got::Failed
}
