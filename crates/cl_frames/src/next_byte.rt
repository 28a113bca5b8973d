ghost use Rattle.std.specs.Prelude.{◌≡◌};
ghost use Rattle.cl_base.specs.Faults.{HasCause};
ghost use Rattle.cl_frames.specs.Reading.{GivesNext};

use crate::outside::{Got, Source};

/// What comes next from a source.
#[derive(Clone, Copy)]
pub(crate) enum Next {
    Byte(u8),
    End,
    Failed,
}

/// Takes the next byte.
pub(crate) fn next_byte<S: Source>(source: &mut S) -> Next
    ensures told { GivesNext (S.left source.old) (S.left source.new) result }
    ensures cause { HasCause (S.faults source.old) (S.faults source.new) (result ≡ Next.Failed) }
{
    let mut piece = [0u8; 1];
    match source.read(&mut piece) {
        Got::Bytes(0) => Next::End,
        Got::Bytes(_) => Next::Byte(piece[0]),
        Got::Failed => Next::Failed,
    }
}
