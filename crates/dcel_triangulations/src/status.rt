//! What calls return. The header has the same names.

ghost use Rattle.std.specs.Prelude.{◌≡◌};
ghost use Rattle.dcel_triangulations.specs.Statuses.{buffer_status, insertion_status, removal_status};

use dcel_delaunay::{InsertionError, RemovalError};

/// The call is carried out.
pub const DONE: u32 = 0;

/// The vertex's number is out of range, or there is no vertex.
pub const NO_SUCH_VERTEX: u32 = 1;

/// There are no numbers for so many elements.
pub const NO_ROOM: u32 = 19;

/// There was no memory.
pub const OUT_OF_MEMORY: u32 = 20;

/// There is no triangulation: it was not made, or it was freed.
pub const NO_MESH: u32 = 21;

/// A buffer is short.
pub const SHORT: u32 = 22;

/// A coordinate is below -2^53 or above 2^53.
pub const OUT_OF_RANGE: u32 = 24;

/// The triangulation isn't whole: there was no memory to flip all edges that have to be.
pub const UNFINISHED: u32 = 25;

/// A segment would cross a constraint.
pub const CROSSES: u32 = 26;

/// What answers a call for an element's number where there is none. No element has it.
pub const NONE: u64 = u64::MAX;

/// Returns whether so many items were put into a buffer with so many places.
pub fn done_or_short(needed: u64, room: usize) -> u32
    ensures { result ≡ buffer_status needed room }
{
    if (room as u64) < needed { SHORT } else { DONE }
}

/// Returns the status of an insertion that failed.
pub fn status_of_insertion(error: InsertionError) -> u32
    ensures { result ≡ insertion_status error }
{
    match error {
        InsertionError::OutOfRange => OUT_OF_RANGE,
        InsertionError::TooManyPoints => NO_ROOM,
        InsertionError::OutOfMemory => OUT_OF_MEMORY,
        InsertionError::Unfinished => UNFINISHED,
    }
}

/// Returns the status of a removal that failed.
pub fn status_of_removal(error: &RemovalError) -> u32
    ensures { result ≡ removal_status error.now }
{
    match error {
        RemovalError::NoVertex => NO_SUCH_VERTEX,
        RemovalError::TooManyPoints => NO_ROOM,
        RemovalError::OutOfMemory => OUT_OF_MEMORY,
        RemovalError::Unfinished(_) => UNFINISHED,
    }
}
