//! What the meanings of items make.

use cl_base::{Diag, List};
use cl_types::{Decl, DeclNo, Use};

/// What the declaration of a number is. The last one of a number counts.
#[derive(Drop)]
pub struct Settled {
    pub no: DeclNo,
    pub decl: Decl,
}

/// A use of a name, at the place of its token in its item, from 0.
#[derive(Clone, Copy)]
pub struct PlacedUse {
    pub place: u32,
    pub used: Use,
}

/// What was made after a base: what the declarations are, in the order in which that was settled, the count of the numbers
/// that were taken, the uses, and the diagnostics.
#[derive(Drop)]
pub struct Made {
    pub settled: List<Settled>,
    pub taken: u32,
    pub uses: List<PlacedUse>,
    pub facts: List<Diag>,
}

/// Whether a scope had a name already, where the name is bound in it.
#[derive(Clone, Copy)]
pub enum Bound {
    /// It had not.
    First,
    /// It had: this is the last declaration of the name there.
    Again(DeclNo),
}
