//! Points, as a host gives them.

ghost use Rattle.std.specs.Prelude.{◌≡◌, IfErr, IfNone, IfOk, IfSome};
ghost use Rattle.mesh_page.specs.Given.{AreRead, HasFar, IsFar};

use dcel_delaunay::Point;
use std::alloc::Allocator;

/// A point with whole coordinates.
#[repr(C)]
#[derive(Clone, Copy)]
pub struct MeshPagePoint {
    /// To the right.
    pub x: i64,
    /// Up.
    pub y: i64,
}

/// Why there are no triangles.
#[derive(Clone, Copy, PartialEq, Eq, Debug, Drop)]
pub(crate) enum Failed {
    /// A coordinate is below -2^53 or above 2^53.
    OutOfRange,
    /// There was no memory.
    NoMemory,
}

/// Reads the points.
pub(crate) fn read_points<A: Allocator>(
    alloc: A,
    given: &[MeshPagePoint],
) -> Result<Vec<Point, A>, Failed>
    ensures read { IfOk result (λ points. AreRead given.now points.items) }
    ensures far { IfErr result (λ why. why ≡ Failed.OutOfRange → HasFar given.now) }
{
    let Ok(mut points) = Vec::with_capacity(alloc, given.len()) else {
        return Err(Failed::NoMemory);
    };
    let mut at = 0;
    while at < given.len() {
        let next = given[at];
        let Some(point) = point_of(next) else {
            return Err(Failed::OutOfRange);
        };
        let Ok(()) = points.push(point) else {
            return Err(Failed::NoMemory);
        };
        at += 1;
    }
    Ok(points)
}

/// Returns the point with the same coordinates, or `None` if one is out of range.
pub(crate) fn point_of(given: MeshPagePoint) -> Option<Point>
    ensures x { IfSome result (λ p. p.x ≡ given.x) }
    ensures y { IfSome result (λ p. p.y ≡ given.y) }
    ensures far { IfNone result (IsFar given) }
{
    Point::new(given.x, given.y)
}
