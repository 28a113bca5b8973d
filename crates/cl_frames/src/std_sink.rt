ghost use Rattle.std.specs.Prelude.{◌≡◌, ◌<◌, ◌≤◌, ℕ, length};
ghost use Rattle.cl_frames.specs.Edges.{HandsDown};

use crate::outside::{Sink, Took};
use std::io::{ErrorKind, Write};

/// Any writer as a sink, which doesn't tell what it holds. Each write is flushed, so that what was taken is out.
#[derive(Drop)]
pub struct StdSink<W> {
    inner: W,
    faults: u64,
}

impl<W: Write> StdSink<W> {
    ghost use Rattle.cl_frames.specs.Adapters.{sink_holds};

    /// A sink that passes on to the writer, with no fault so far.
    pub fn new(inner: W) -> StdSink<W>
        ensures faults { ⟦<StdSink<W> as Sink>⟧.faults result ≡ 0 }
        ensures holds { sink_holds W.contents result ≡ W.contents inner }
    {
        StdSink { inner, faults: 0 }
    }
}

impl<W: Write> Sink for StdSink<W> {
    ghost use Rattle.std.specs.Prelude.{None};
    ghost use Rattle.cl_frames.specs.Outside.{Takes, TookCause};
    ghost use Rattle.cl_frames.specs.Adapters.{sink_holds};

    ghost held = { λ _. None };

    ghost faults = { λ s. s.faults };

    /// Where the writer tells what it holds, it gets exactly the bytes that are told to be taken, in order, none twice
    /// and none lost. At a fault it may have taken a front of the piece, since its flush comes after its write.
    fn write(&mut self, piece: &[u8]) -> Took
        ensures bytes { Takes None None piece.now result }
        ensures cause { TookCause self.old.faults self.new.faults piece.now result }
        ensures hands_down { HandsDown (sink_holds W.contents self.old) (sink_holds W.contents self.new) piece.now result }
    {
        let took = write_some(&mut self.inner, piece);
        if let Took::Failed = took {
            self.faults = self.faults.saturating_add(1);
        }
        took
    }
}

/// One write with a flush, made again where a signal broke it off. None of a piece that isn't empty is a fault.
fn write_some<W: Write>(writer: &mut W, piece: &[u8]) -> Took
    ensures hands_down { HandsDown (W.contents writer.old) (W.contents writer.new) piece.now result }
    ensures within { (n : ℕ) → result ≡ Took.Bytes n → (n ≤ length piece.now) × (0 < length piece.now → 0 < n) }
{
    for _ in 0..u64::MAX {
        match writer.write(piece) {
            Ok(count) => {
                if writer.flush().is_err() || (count == 0 && !piece.is_empty()) {
                    return Took::Failed;
                }
                return Took::Bytes(count);
            }
            Err(error) => {
                if error.kind() != ErrorKind::Interrupted {
                    return Took::Failed;
                }
            }
        }
    }
    Took::Failed
}
