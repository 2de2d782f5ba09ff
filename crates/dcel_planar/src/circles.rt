//! The circle test at an edge.

ghost use Rattle.std.specs.Prelude.{◌≡◌, ◌↔◌, ◌*◌, IsTrue, true};
ghost use Rattle.dcel_maps.specs.Shapes.{edge_is_live};
ghost use Rattle.dcel_maps.specs.Sides.{IsOnHull};
ghost use Rattle.spade_dcel.specs.Handles.{mesh_behind, number_of};
ghost use Rattle.dcel_plane.specs.Plane.{IsCircled, IsInner, TrianglesTurnLeft, point_at};
ghost use Rattle.dcel_planar.specs.Turning.{IsBetweenTriangles};

use crate::points::points_at;
use dcel_predicates::{Point, in_circle, in_circle_across};
use spade_dcel::dcel::Dcel;
use spade_dcel::handles::FixedUndirectedEdgeHandle;
use spade_dcel::laws::every_mesh;
use std::alloc::Allocator;

/// Returns whether an edge is between two inner triangles, and the corner of one inside the
/// circle of the other.
///
/// It doesn't matter which is asked about the other. Given-up edges and numbers out of range are
/// between none.
pub fn is_circled<DE, UE, F, A: Allocator>(
    dcel: &Dcel<Point, DE, UE, F, A>,
    edge: FixedUndirectedEdgeHandle,
) -> bool
    ensures { IsTrue result ↔ (IsInner dcel.now.shape edge × IsCircled (point_at dcel.now) dcel.now.shape edge) }
{
    every_mesh(dcel);
    if !dcel.can_flip(edge) {
        return false;
    }
    if is_on_hull(dcel, edge) {
        return false;
    }
    has_corner_inside(dcel, edge)
}

// Returns the same of a live edge of a mesh in the plane, if the inner faces beside the edge are
// triangles. Then it is enough to read its points: an edge that the circle test finds can be
// flipped.
pub(crate) fn is_illegal<DE, UE, F, A: Allocator>(
    dcel: &Dcel<Point, DE, UE, F, A>,
    edge: FixedUndirectedEdgeHandle,
) -> bool
    requires sides { IsBetweenTriangles dcel.now.shape edge }
    requires plane { TrianglesTurnLeft (point_at dcel.now) dcel.now.shape }
    ensures { IsTrue result ↔ (IsInner dcel.now.shape edge × IsCircled (point_at dcel.now) dcel.now.shape edge) }
{
    every_mesh(dcel);
    if is_on_hull(dcel, edge) {
        return false;
    }
    let points = points_at(dcel, edge);
    in_circle_across(points.from, points.to, points.near, points.far)
}

// Returns whether one of its halves is on the outer face.
fn is_on_hull<DE, UE, F, A: Allocator>(
    dcel: &Dcel<Point, DE, UE, F, A>,
    edge: FixedUndirectedEdgeHandle,
) -> bool
    requires { edge_is_live dcel.now.shape edge ≡ true }
    ensures { IsTrue result ↔ IsOnHull dcel.now.shape (2 * edge) }
{
    dcel.undirected_edge(edge)
        .as_directed()
        .is_part_of_convex_hull()
}

// Returns the result of the circle test alone.
fn has_corner_inside<DE, UE, F, A: Allocator>(
    dcel: &Dcel<Point, DE, UE, F, A>,
    edge: FixedUndirectedEdgeHandle,
) -> bool
    requires { edge_is_live dcel.now.shape edge ≡ true }
    ensures { IsTrue result ↔ IsCircled (point_at dcel.now) dcel.now.shape edge }
{
    let points = points_at(dcel, edge);
    in_circle(points.from, points.to, points.near, points.far)
}
