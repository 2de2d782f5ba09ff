//! What exports return. The same names stand in the header.

ghost use Rattle.std.specs.Prelude.{◌≡◌};
ghost use Rattle.mesh_page.specs.Statuses.{constraint_status, insertion_status, removal_status};

use dcel_constrained::ConstraintError;
use dcel_delaunay::{InsertionError, RemovalError};
pub(crate) use dcel_exports::status::{DONE, NO_MEMORY, SHORT};
use lent_heap::Heap;

/// A coordinate is below -2^53 or above 2^53.
pub(crate) const OUT_OF_RANGE: u32 = 3;

/// No such thing is kept: none was made, or it was freed.
pub(crate) const NOT_KEPT: u32 = 4;

/// The triangulation isn't whole: there was no memory to flip all edges that have to be. Or the reply to
/// a line isn't written, though the mesh did what it says.
pub(crate) const UNFINISHED: u32 = 5;

/// No vertex has the number.
pub(crate) const NO_SUCH_VERTEX: u32 = 6;

/// There are no numbers for so many elements.
pub(crate) const NO_ROOM: u32 = 7;

/// A segment would cross a constraint.
pub(crate) const CROSSES: u32 = 8;

/// Returns the status of an insertion that failed.
pub(crate) fn status_of_insertion(error: InsertionError) -> u32
    ensures { result ≡ insertion_status error }
{
    match error {
        InsertionError::OutOfRange => OUT_OF_RANGE,
        InsertionError::TooManyPoints => NO_ROOM,
        InsertionError::OutOfMemory => NO_MEMORY,
        InsertionError::Unfinished => UNFINISHED,
    }
}

/// Returns the status of a removal that failed.
pub(crate) fn status_of_removal(error: &RemovalError) -> u32
    ensures { result ≡ removal_status error.now }
{
    match error {
        RemovalError::NoVertex => NO_SUCH_VERTEX,
        RemovalError::TooManyPoints => NO_ROOM,
        RemovalError::OutOfMemory => NO_MEMORY,
        RemovalError::Unfinished(_) => UNFINISHED,
    }
}

/// Returns the status of a segment that was not made one of constraints.
pub(crate) fn status_of_constraint(error: &ConstraintError<&'static Heap>) -> u32
    ensures { result ≡ constraint_status error.now }
{
    match error {
        ConstraintError::NoVertex => NO_SUCH_VERTEX,
        ConstraintError::Blocked(_) => CROSSES,
        ConstraintError::OutOfMemory => NO_MEMORY,
    }
}
