ghost use Rattle.std.specs.Prelude.{◌≡◌};
ghost use Rattle.cl_frames.specs.Outside.{Writes, WriteCause};

use crate::outside::{Sink, Took};
use cl_base::Text;

/// What a write of a frame came to.
#[derive(Clone, Copy, Debug, PartialEq, Eq)]
pub enum Written {
    /// The sink took all of it.
    All,
    /// The sink failed after it took so many bytes.
    Failed { taken: u32 },
}

/// Writes a frame to a sink, in pieces as the sink takes them. It takes no memory.
#[tactic(auto, using(crate::proofs::Known::writes_on, crate::proofs::Known::append_known_nil))]
pub fn write_frame<K: Sink>(sink: &mut K, frame: &Text) -> Written
    ensures bytes { Writes (K.held sink.old) (K.held sink.new) frame.now result }
    ensures cause { WriteCause (K.faults sink.old) (K.faults sink.new) result }
{
    let piece = frame.bytes();
    let mut at = 0;
    while at < piece.len() {
        let (_, left) = piece.split_at(at);
        match sink.write(left) {
            Took::Bytes(0) | Took::Failed => return Written::Failed { taken: at as u32 },
            Took::Bytes(count) => at += count,
        }
    }
    Written::All
}
