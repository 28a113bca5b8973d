ghost use Rattle.std.specs.Prelude.{◌≡◌, ◌<◌, [], Some, IfOk};

use crate::outside::{Sink, Took};
use cl_base::Mem;
use std::alloc::Global;

/// A sink that keeps its bytes in memory.
#[derive(Drop)]
pub struct MemorySink {
    bytes: Vec<u8>,
    piece: usize,
    fails: Vec<u64>,
    calls: u64,
    faults: u64,
    ghost some: { 0 < piece },
}

impl MemorySink {
    /// An empty sink, which takes at most `piece` bytes a call. The calls whose numbers, from 0, stand in `fails`
    /// fail, and so does a call for which there is no memory.
    pub fn new(alloc: Global, piece: u32, fails: &[u64]) -> Mem<MemorySink>
        requires { 0 < piece }
        ensures held { IfOk result (λ sink. ⟦<MemorySink as Sink>⟧.held sink ≡ Some []) }
        ensures faults { IfOk result (λ sink. ⟦<MemorySink as Sink>⟧.faults sink ≡ 0) }
    {
        let fails = Vec::from_slice(alloc, fails)?;
        Ok(MemorySink {
            bytes: Vec::new(alloc),
            piece: piece as usize,
            fails,
            calls: 0,
            faults: 0,
        })
    }

    /// The bytes that it holds.
    pub fn held(&self) -> &[u8]
        ensures { ⟦<MemorySink as Sink>⟧.held self.now ≡ Some result.now }
    {
        self.bytes.as_slice()
    }
}

impl Sink for MemorySink {
    ghost use Rattle.std.specs.Prelude.{Some};

    ghost held = { λ s. Some s.bytes.items };

    ghost faults = { λ s. s.faults };

    fn write(&mut self, piece: &[u8]) -> Took {
        let call = self.calls;
        self.calls = call.saturating_add(1);
        let count = piece.len().min(self.piece);
        if self.fails.contains(&call) || self.bytes.extend_from_slice(&piece[..count]).is_err() {
            self.faults = self.faults.saturating_add(1);
            return Took::Failed;
        }
        Took::Bytes(count)
    }
}
