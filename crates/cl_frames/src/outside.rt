ghost use Rattle.std.specs.Prelude.{ℕ, List, Option};

/// What a read gave.
#[derive(Clone, Copy)]
pub enum Got {
    /// So many bytes. None into a piece that has room is the end of input.
    Bytes(usize),
    /// A fault: nothing was read.
    Failed,
}

/// What a write took.
#[derive(Clone, Copy)]
pub enum Took {
    /// So many bytes. None of a piece that isn't empty is a fault.
    Bytes(usize),
    /// A fault: nothing was taken.
    Failed,
}

/// Where bytes come from.
pub trait Source {
    ghost use Rattle.cl_frames.specs.Outside.{Gives, GotCause};

    /// The bytes that are left, where it tells them.
    ghost left: { Self → Option (List ℕ) };

    /// How often it has failed. The count never falls.
    ghost faults: { Self → ℕ };

    /// Reads into the front of `buf`. `Failed` comes only where the count of faults rose in this call.
    fn read(&mut self, buf: &mut [u8]) -> Got
        ensures bytes { Gives (left self.old) (left self.new) buf.new result }
        ensures cause { GotCause (faults self.old) (faults self.new) result };
}

/// Where bytes go.
pub trait Sink {
    ghost use Rattle.cl_frames.specs.Outside.{Takes, TookCause};

    /// The bytes that it holds, where it tells them.
    ghost held: { Self → Option (List ℕ) };

    /// How often it has failed. The count never falls.
    ghost faults: { Self → ℕ };

    /// Writes a front of `piece`. `Failed`, and no byte of a piece that isn't empty, come only where the count of
    /// faults rose in this call.
    fn write(&mut self, piece: &[u8]) -> Took
        ensures bytes { Takes (held self.old) (held self.new) piece.now result }
        ensures cause { TookCause (faults self.old) (faults self.new) piece.now result };
}
