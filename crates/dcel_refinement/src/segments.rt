//! Points at which constraints are split.

use crate::points::side_of;
use crate::quality::dot_product;
use crate::vectors::Vector;
use dcel_constrained::ConstrainedMesh;
use dcel_predicates::Point;
use spade_dcel::handles::FixedDirectedEdgeHandle;
use std::alloc::Allocator;
use std::num::{nearest_isize_to_f64, saturating_f64_to_u64};

/// Returns whether a point is inside the circle whose diameter is a segment.
pub(crate) fn is_encroached(from: Point, to: Point, point: Point) -> bool {
    dot_product(from, to, point) < 0
}

/// Returns a whole point of a half edge at which it is to be split, if there is one between its ends:
/// near the middle, or, where it makes an angle below 60 degrees with another constraint, as far from
/// that corner as a power of two, so that both are split at the same distances (J. Ruppert's concentric
/// shells).
pub(crate) fn split_point<A: Allocator>(
    mesh: &ConstrainedMesh<A>,
    half: FixedDirectedEdgeHandle,
) -> Option<Point> {
    let side = side_of(mesh, half)?;
    let (from, to) = (side.corners.from, side.corners.to);
    let parts = whole_parts(from, to);
    if parts < 2 {
        return None;
    }
    if is_sharp(mesh, half) {
        return at_part(from, to, parts, shell(from, to, parts));
    }
    if is_sharp(mesh, half.rev()) {
        return at_part(to, from, parts, shell(to, from, parts));
    }
    at_part(from, to, parts, parts / 2)
}

// Returns whether a half edge makes an angle below 60 degrees with another constraint where it starts.
fn is_sharp<A: Allocator>(mesh: &ConstrainedMesh<A>, half: FixedDirectedEdgeHandle) -> bool {
    let mut spoke = half;
    for _spoke in 0..mesh.num_directed_edges() {
        let Some(side) = side_of(mesh, spoke) else {
            return false;
        };
        spoke = side.prev.rev();
        if spoke == half {
            return false;
        }
        if is_sharp_between(mesh, half, spoke) {
            return true;
        }
    }
    false
}

// Returns whether the second of two half edges that start at one vertex is a constraint, with an angle
// below 60 degrees between them.
fn is_sharp_between<A: Allocator>(
    mesh: &ConstrainedMesh<A>,
    half: FixedDirectedEdgeHandle,
    other: FixedDirectedEdgeHandle,
) -> bool {
    let (Some(first), Some(second)) = (side_of(mesh, half), side_of(mesh, other)) else {
        return false;
    };
    let way = Vector::between(first.corners.from, first.corners.to);
    let other = Vector::between(second.corners.from, second.corners.to);
    let dot = way.dot(other);
    let cross = way.cross(other);
    second.is_constraint && dot > 0.0 && cross * cross < 3.0 * dot * dot
}

// Returns into how many parts whole points divide a segment: the greatest common divisor of its
// differences.
fn whole_parts(from: Point, to: Point) -> u64 {
    let mut large = (to.x - from.x).unsigned_abs();
    let mut small = (to.y - from.y).unsigned_abs();
    // Two steps halve the larger one, and none is above 2^54.
    for _step in 0..128 {
        if small == 0 {
            return large;
        }
        (large, small) = (small, large % small);
    }
    1
}

// Returns how many parts lead as far as the power of two that is between a third and two thirds of the
// segment's length.
fn shell(from: Point, to: Point, parts: u64) -> u64 {
    let length = Vector::between(from, to).square().sqrt();
    let mut distance = 1.0;
    for _power in 0..64 {
        if distance * 3.0 < length {
            distance *= 2.0;
        }
    }
    let Ok(all) = isize::try_from(parts) else {
        return 1;
    };
    let part = saturating_f64_to_u64(nearest_isize_to_f64(all) * distance / length + 0.5);
    part.min(parts.saturating_sub(1)).max(1)
}

// Returns the point so many of the parts from the start, if it is in range.
fn at_part(from: Point, to: Point, parts: u64, part: u64) -> Option<Point> {
    let x = along(from.x, to.x, parts, part)?;
    let y = along(from.y, to.y, parts, part)?;
    Point::new(x, y)
}

// The same of one coordinate.
fn along(from: i64, to: i64, parts: u64, part: u64) -> Option<i64> {
    let parts = i64::try_from(parts).ok()?;
    let part = i64::try_from(part).ok()?;
    let step = to.checked_sub(from)?.checked_div(parts)?;
    from.checked_add(step.checked_mul(part)?)
}
