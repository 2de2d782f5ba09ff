//! Why a removal was refused, and points of coordinates in range.

ghost use Rattle.std.specs.Prelude.{◌≡◌, ◌≤◌, ◌^◌, ◌↔◌, IfErr, IfOk, IsOk, unsigned_abs};

use crate::removed::Removed;
use dcel_planar::{InsertionError, Point};
use thiserror::Error;

/// Why a vertex was not removed, or not all was done that belongs to it.
///
/// With any other error than `Unfinished` each vertex is as it was, and with any other than
/// `OutOfMemory` and `Unfinished` so is the mesh of a whole triangulation, and nothing is left undone.
#[derive(Clone, Copy, PartialEq, Eq, Debug, Drop, Error)]
pub enum RemovalError {
    /// There is no vertex of this number.
    #[error("there is no such vertex")]
    NoVertex,
    /// The vertex is inside of triangles, and there are no numbers left for the edge and the
    /// triangles that take its place.
    #[error("there are too many points")]
    TooManyPoints,
    /// There was no memory. The vertex is still there; edges may have been flipped, and the next
    /// insertion or removal makes the triangulation whole again first.
    #[error("out of memory")]
    OutOfMemory,
    /// The vertex is gone, but there was no memory to make the triangulation whole again.
    ///
    /// The next insertion or removal goes on with that first.
    #[error("out of memory, with some edges not yet looked at")]
    Unfinished(Removed),
}

/// Returns the point with these coordinates, or [`OutOfRange`](InsertionError::OutOfRange) unless
/// both are from -2^53 to 2^53.
pub fn point(x: i64, y: i64) -> Result<Point, InsertionError>
    ensures in_range { IsOk result ↔ ((unsigned_abs x ≤ 2 ^ 53) × (unsigned_abs y ≤ 2 ^ 53)) }
    ensures x { IfOk result (λ p. p.x ≡ x) }
    ensures y { IfOk result (λ p. p.y ≡ y) }
    ensures refused { IfErr result (λ e. e ≡ InsertionError.OutOfRange) }
{
    Point::new(x, y).ok_or(InsertionError::OutOfRange)
}
