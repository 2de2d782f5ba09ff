//! The way from a triangle to a point.

use crate::points::{Corners, side_of};
use crate::segments::is_encroached;
use dcel_constrained::ConstrainedMesh;
use dcel_predicates::{Point, in_circle, orientation};
use spade_dcel::handles::FixedDirectedEdgeHandle;
use std::alloc::{AllocError, Allocator};

// A way this long leads nowhere: the triangle is given up.
const LONGEST: usize = 1000;

/// Where a way ends.
#[derive(Clone, Copy)]
pub(crate) enum End {
    /// In the triangle of this half edge.
    In(FixedDirectedEdgeHandle),
    /// Before this half edge, a constraint or one of the hull.
    Before(FixedDirectedEdgeHandle),
    /// Nowhere, after many steps.
    Nowhere,
}

/// Goes from the triangle of a half edge towards a point, and crosses no constraint.
pub(crate) fn walk<A: Allocator>(
    mesh: &ConstrainedMesh<A>,
    start: FixedDirectedEdgeHandle,
    goal: Point,
) -> End {
    let mut half = start;
    for _step in 0..LONGEST {
        let Some(crossed) = side_towards(mesh, half, goal) else {
            return End::In(half);
        };
        if is_wall(mesh, crossed) {
            return End::Before(crossed);
        }
        half = crossed.rev();
    }
    End::Nowhere
}

// Returns a side of the triangle of a half edge that has the point on its right, if there is one. The
// half edge itself comes last, since the way came across it.
fn side_towards<A: Allocator>(
    mesh: &ConstrainedMesh<A>,
    half: FixedDirectedEdgeHandle,
    goal: Point,
) -> Option<FixedDirectedEdgeHandle> {
    let side = side_of(mesh, half)?;
    let Corners { from, to, opposite } = side.corners;
    if orientation(to, opposite, goal).is_on_right_side() {
        return Some(side.next);
    }
    if orientation(opposite, from, goal).is_on_right_side() {
        return Some(side.prev);
    }
    if orientation(from, to, goal).is_on_right_side() {
        return Some(half);
    }
    None
}

// Returns whether a half edge is a constraint, or the outer face is on its other side.
fn is_wall<A: Allocator>(mesh: &ConstrainedMesh<A>, half: FixedDirectedEdgeHandle) -> bool {
    match side_of(mesh, half.rev()) {
        Some(beyond) => beyond.is_constraint || beyond.face == 0,
        None => true,
    }
}

/// Returns a constraint that a new vertex at this point, in the triangle of a half edge, would see and
/// encroach upon, if there is one. It looks at the triangles whose circles have the point inside.
pub(crate) fn encroached<A: Allocator>(
    mesh: &ConstrainedMesh<A>,
    start: FixedDirectedEdgeHandle,
    point: Point,
    due: &mut Vec<FixedDirectedEdgeHandle, A>,
) -> Result<Option<FixedDirectedEdgeHandle>, AllocError> {
    due.clear();
    let Some(side) = side_of(mesh, start) else {
        return Ok(None);
    };
    due.push(start)?;
    due.push(side.next)?;
    due.push(side.prev)?;
    for _side in 0..mesh.num_directed_edges() {
        let Some(half) = due.pop() else {
            return Ok(None);
        };
        if is_encroached_wall(mesh, half, point) {
            return Ok(Some(half));
        }
        list_beyond(mesh, half, point, due)?;
    }
    Ok(None)
}

// Returns whether a half edge is a constraint whose diametral circle has the point inside.
fn is_encroached_wall<A: Allocator>(
    mesh: &ConstrainedMesh<A>,
    half: FixedDirectedEdgeHandle,
    point: Point,
) -> bool {
    match side_of(mesh, half) {
        Some(side) => {
            side.is_constraint && is_encroached(side.corners.from, side.corners.to, point)
        }
        None => false,
    }
}

// Lists the other two sides of the triangle beyond a half edge, if the point is inside its circle and
// sees it.
fn list_beyond<A: Allocator>(
    mesh: &ConstrainedMesh<A>,
    half: FixedDirectedEdgeHandle,
    point: Point,
    due: &mut Vec<FixedDirectedEdgeHandle, A>,
) -> Result<(), AllocError> {
    let Some(beyond) = side_of(mesh, half.rev()) else {
        return Ok(());
    };
    let Corners { from, to, opposite } = beyond.corners;
    if !beyond.is_constraint && beyond.face > 0 && in_circle(from, to, opposite, point) {
        due.push(beyond.next)?;
        due.push(beyond.prev)?;
    }
    Ok(())
}
