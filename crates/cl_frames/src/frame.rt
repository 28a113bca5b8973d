ghost use Rattle.std.specs.Prelude.{◌≡◌, ℕ, ◌+◌, ◌≤◌, ◌<◌, ◌^◌, ◌⊎◌, List, ◌++◌, length, take, None, Some, IfOk, IfSome, codes, option_map};
ghost use Rattle.std.specs.Fmt.{decimal};
ghost use Rattle.std.specs.Io.KnownBytes.{IsAtEnd, prepend_known};
ghost use Rattle.cl_base.specs.Faults.{HasCause};
ghost use Rattle.cl_frames.specs.Frames.{HasForm, ReadsFrame, cut, first, last_of, stopped, whole, wrong};
ghost use Rattle.cl_frames.specs.Reading.{TakesBody};

use crate::header::{Header, LAST_BYTE, read_header};
use crate::outside::{Got, Source};
use cl_base::{Mem, Memory, Text};
use std::alloc::Global;
use std::marker::Model;

/// What a read of a frame gave.
#[derive(Drop)]
pub enum Frame {
    /// The body of a whole frame.
    Body(Text),
    /// The input ended where a frame would begin.
    End,
    /// The bytes are no frame, or the input ended within one. The offset, in bytes from the session's first, is that of
    /// the frame's first byte.
    Bad { offset: u64 },
    /// The source failed.
    Failed,
    /// The 2^40th byte of the session was taken, which belongs to no frame.
    Long,
    /// Want of memory.
    Memory,
}

/// Why no frame comes any more.
#[derive(Clone, Copy)]
enum Stop {
    End,
    Bad { offset: u64 },
    Failed,
    Long,
    Memory,
}

/// A session's frames, as far as they were read: how many bytes were taken, and the answer that ended it, if one did.
#[derive(Drop)]
pub struct Frames {
    taken: u64,
    last: Option<Stop>,
}

impl Model for Frames {
    ghost use Rattle.std.specs.Prelude.{◌≡◌, ◌≤◌, ◌<◌, ◌^◌, None, option_map};
    ghost use Rattle.cl_frames.specs.Frames.{FramesState, stopped};

    ghost Value = { FramesState };

    ghost view = { λ it. record { taken = it.taken; last = option_map stopped it.last } };

    ghost invariant = { λ it. (it.taken ≤ 2 ^ 40) × (it.last ≡ None → it.taken < 2 ^ 40) };
}

impl Frames {
    /// The start of a session: no byte was taken. It takes no memory so far.
    pub fn new(_alloc: Global) -> Mem<Frames>
        ensures taken { IfOk result (λ frames. frames.taken ≡ 0) }
        ensures last { IfOk result (λ frames. frames.last ≡ None) }
    {
        Ok(Frames {
            taken: 0,
            last: None,
        })
    }

    /// How many bytes were taken so far, at most 2^40.
    pub fn taken(&self) -> u64
        ensures value { result ≡ self.now.taken }
        ensures room { result ≤ 2 ^ 40 }
    {
        self.taken
    }

    /// Reads the next frame. After any answer but `Body` each later call gives that answer again and reads nothing.
    pub fn read_frame<S: Source>(&mut self, alloc: Global, source: &mut S) -> Frame
        ensures again { IfSome self.old.last (λ frame. (result ≡ frame) × (self.new ≡ self.old) × (source.new ≡ source.old)) }
        ensures reads { (bytes : List ℕ) → self.old.last ≡ None → S.left source.old ≡ Some bytes
            → ReadsFrame self.old.taken self.new.taken bytes (S.left source.new) result }
        ensures last { self.old.last ≡ None → self.new.last ≡ last_of result }
        ensures later { self.old.taken ≤ self.new.taken }
        ensures room { self.new.taken ≤ 2 ^ 40 }
        ensures goes_on { self.old.last ≡ None → last_of result ≡ None → (self.old.taken < self.new.taken) × (self.new.taken < 2 ^ 40) }
        ensures cause { HasCause (S.faults source.old) (S.faults source.new) ((self.old.last ≡ None) × (result ≡ Frame.Failed)) }
    {
        if let Some(stop) = self.last {
            return frame_of(stop);
        }
        let mut taken = self.taken;
        let frame = next_frame(alloc, source, &mut taken);
        self.taken = taken;
        self.last = stop_of(&frame);
        frame
    }
}

/// The answer that a stop is told by.
fn frame_of(stop: Stop) -> Frame
    ensures { result ≡ stopped stop }
{
    match stop {
        Stop::End => Frame::End,
        Stop::Bad { offset } => Frame::Bad { offset },
        Stop::Failed => Frame::Failed,
        Stop::Long => Frame::Long,
        Stop::Memory => Frame::Memory,
    }
}

/// The stop that an answer tells, if it isn't a body.
fn stop_of(frame: &Frame) -> Option<Stop>
    ensures { option_map stopped result ≡ last_of frame.now }
{
    match frame {
        Frame::Body(_) => None,
        Frame::End => Some(Stop::End),
        Frame::Bad { offset } => Some(Stop::Bad { offset: *offset }),
        Frame::Failed => Some(Stop::Failed),
        Frame::Long => Some(Stop::Long),
        Frame::Memory => Some(Stop::Memory),
    }
}

/// Reads the next frame of a session that goes on.
fn next_frame<S: Source>(alloc: Global, source: &mut S, taken: &mut u64) -> Frame
    requires { taken.old < 2 ^ 40 }
    ensures reads { (bytes : List ℕ) → S.left source.old ≡ Some bytes → ReadsFrame taken.old taken.new bytes (S.left source.new) result }
    ensures later { taken.old ≤ taken.new }
    ensures room { taken.new ≤ 2 ^ 40 }
    ensures goes_on { last_of result ≡ None → (taken.old < taken.new) × (taken.new < 2 ^ 40) }
    ensures cause { HasCause (S.faults source.old) (S.faults source.new) (result ≡ Frame.Failed) }
{
    let offset = *taken;
    match read_header(source, taken) {
        Header::Whole { size, .. } => read_body(alloc, source, taken, offset, size),
        Header::End => Frame::End,
        Header::Short => Frame::Bad { offset },
        Header::Wrong => Frame::Bad { offset },
        Header::Failed => Frame::Failed,
        Header::Long => Frame::Long,
    }
}

/// Reads the body of a frame, of `size` bytes, which began at `offset`.
fn read_body<S: Source>(
    alloc: Global,
    source: &mut S,
    taken: &mut u64,
    offset: u64,
    size: u64,
) -> Frame
    requires taken { taken.old < 2 ^ 40 }
    requires size { size ≤ 67108864 }
    ensures told { TakesBody offset size taken.old taken.new (S.left source.old) (S.left source.new) result }
    ensures cause { HasCause (S.faults source.old) (S.faults source.new) (result ≡ Frame.Failed) }
{
    let room = size.min(LAST_BYTE - *taken);
    let Ok(mut bytes) = vec![in alloc; 0u8; room as usize] else {
        return Frame::Memory;
    };
    let filled = fill(source, bytes.as_mut_slice());
    *taken += filled.count as u64;
    match filled.how {
        Filling::Full => {
            if *taken == LAST_BYTE {
                return Frame::Long;
            }
            match Text::from_vec(alloc, bytes) {
                Ok(text) => Frame::Body(text),
                Err(Memory) => Frame::Memory,
            }
        }
        Filling::End => Frame::Bad { offset },
        Filling::Failed => Frame::Failed,
    }
}

/// How the filling of a piece ended.
#[derive(Clone, Copy)]
enum Filling {
    Full,
    End,
    Failed,
}

/// How many bytes were put into a piece, and why no more.
#[derive(Clone, Copy)]
struct Filled {
    count: usize,
    how: Filling,
}

/// Fills a piece, as far as the source gives bytes.
#[tactic(auto, using(crate::proofs::Known::reads_into, crate::proofs::Known::prepend_known_nil))]
fn fill<S: Source>(source: &mut S, piece: &mut [u8]) -> Filled
    ensures read { S.left source.old ≡ prepend_known (take result.count piece.new) (S.left source.new) }
    ensures whole { result.how ≡ Filling.Full → result.count ≡ length piece.new }
    ensures end { result.how ≡ Filling.End → IsAtEnd (S.left source.new) }
    ensures short { (result.how ≡ Filling.End) ⊎ (result.how ≡ Filling.Failed) → result.count < length piece.new }
    ensures within { result.count ≤ length piece.new }
    ensures len { length piece.new ≡ length piece.old }
    ensures cause { HasCause (S.faults source.old) (S.faults source.new) (result.how ≡ Filling.Failed) }
{
    let mut count = 0;
    while count < piece.len() {
        let how = match source.read(&mut piece[count..]) {
            Got::Bytes(0) => Filling::End,
            Got::Bytes(more) => {
                count += more;
                continue;
            }
            Got::Failed => Filling::Failed,
        };
        return Filled { count, how };
    }
    Filled {
        count,
        how: Filling::Full,
    }
}

/// What bytes begin with stays so, whatever comes after them: a whole frame, and what no frame begins with. So each
/// front of a part of a frame is such a part.
pub fn first_is_stable()
    ensures whole { (xs ys body : List ℕ) (n : ℕ) → first xs ≡ whole body n → first (xs ++ ys) ≡ whole body n }
    ensures wrong { (xs ys : List ℕ) → first xs ≡ wrong → first (xs ++ ys) ≡ wrong }
    ensures cut { (xs ys : List ℕ) → first (xs ++ ys) ≡ cut → first xs ≡ cut }
{}

/// A whole frame lies within the bytes, and is longer than its body by 20 bytes or more.
pub fn first_has_room()
    ensures room { (xs body : List ℕ) (n : ℕ) → first xs ≡ whole body n → n ≤ length xs }
    ensures more { (xs body : List ℕ) (n : ℕ) → first xs ≡ whole body n → length body + 20 ≤ n }
{}

/// A part of what may become a frame is the front of some frame. So nothing is called a part, or wrong, too early or
/// too late.
pub fn first_can_go_on()
    ensures { (xs : List ℕ) → first xs ≡ cut → (more : List ℕ) × (body : List ℕ) × (n : ℕ) × (first (xs ++ more) ≡ whole body n) }
{}

/// The header of a body's length in decimal, and the body, are a whole frame.
pub fn first_of_frame()
    ensures { (body : List ℕ) → length body ≤ 67108864
        → first (codes "Content-Length: " ++ decimal (length body) ++ codes "\r\n\r\n" ++ body)
        ≡ whole body (20 + length (decimal (length body)) + length body) }
{}

/// Bytes begin with a whole frame exactly where they are the name, one to eight digits that spell the length of its
/// body, two ends of lines, and the body, in so many bytes.
pub fn first_has_form()
    ensures told { (bytes body : List ℕ) (n : ℕ) → first bytes ≡ whole body n → HasForm bytes body n }
    ensures taken { (bytes body : List ℕ) (n : ℕ) → HasForm bytes body n → first bytes ≡ whole body n }
{}
