ghost use Rattle.std.specs.Prelude.{◌≡◌, ◌<◌, ◌≤◌, Some, drop, take, length, vec_len, IfOk};

use crate::outside::{Got, Source};
use cl_base::Mem;
use std::alloc::Global;

/// A source over bytes in memory.
#[derive(Drop)]
pub struct MemorySource {
    bytes: Vec<u8>,
    at: usize,
    piece: usize,
    fails: Vec<u64>,
    calls: u64,
    faults: u64,
    ghost within: { at ≤ vec_len bytes },
    ghost some: { 0 < piece },
}

impl MemorySource {
    /// A source of a copy of these bytes, which gives at most `piece` of them a call. The calls whose numbers, from 0,
    /// stand in `fails` fail.
    pub fn new(alloc: Global, bytes: &[u8], piece: u32, fails: &[u64]) -> Mem<MemorySource>
        requires { 0 < piece }
        ensures left { IfOk result (λ source. ⟦<MemorySource as Source>⟧.left source ≡ Some bytes.now) }
        ensures faults { IfOk result (λ source. ⟦<MemorySource as Source>⟧.faults source ≡ 0) }
    {
        let bytes = Vec::from_slice(alloc, bytes)?;
        let fails = Vec::from_slice(alloc, fails)?;
        Ok(MemorySource {
            bytes,
            at: 0,
            piece: piece as usize,
            fails,
            calls: 0,
            faults: 0,
        })
    }

    /// The bytes that are left.
    pub fn rest(&self) -> &[u8]
        ensures { ⟦<MemorySource as Source>⟧.left self.now ≡ Some result.now }
    {
        let (_, left) = self.bytes.split_at(self.at);
        left
    }
}

impl Source for MemorySource {
    ghost use Rattle.std.specs.Prelude.{Some, drop};

    ghost left = { λ s. Some (drop s.at s.bytes.items) };

    ghost faults = { λ s. s.faults };

    #[tactic(auto, using(crate::proofs::Known::split_left, std::proofs::lemmas::List::drop_all))]
    fn read(&mut self, buf: &mut [u8]) -> Got {
        let call = self.calls;
        self.calls = call.saturating_add(1);
        if self.fails.contains(&call) {
            self.faults = self.faults.saturating_add(1);
            return Got::Failed;
        }
        let (_, left) = self.bytes.split_at(self.at);
        let count = left.len().min(buf.len()).min(self.piece);
        copy_front(buf, left, count);
        self.at += count;
        Got::Bytes(count)
    }
}

/// Copies the first `count` bytes.
pub(crate) fn copy_front(buf: &mut [u8], from: &[u8], count: usize)
    requires to_room { count ≤ length buf.old }
    requires from_room { count ≤ length from.now }
    ensures { take count buf.new ≡ take count from.now }
{
    buf[..count].copy_from_slice(&from[..count]);
}
