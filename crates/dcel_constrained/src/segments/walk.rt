//! What a segment between two vertices meets on its way: half edges that it crosses, and vertices.

ghost use Rattle.std.specs.Prelude.{◌≡◌, ◌≢◌, ◌↔◌, ◌<◌, ℕ, IsTrue};
ghost use Rattle.dcel_plane.specs.covering.Covering.{dot};
ghost use Rattle.dcel_maps.specs.Shapes.{IsLive, face_of};
ghost use Rattle.dcel_maps.specs.Walking.{IsOutEdge};
ghost use Rattle.dcel_plane.specs.Plane.{point_at};
ghost use Rattle.dcel_plane.specs.segments.Segments.{AreEnds, LeadsAlong, OpensAt, TriangulatesItsHull};
ghost use Rattle.dcel_constrained.specs.Channels.{HasVertices};
ghost use Rattle.dcel_constrained.specs.Meeting.{IsFirstMet, IsMetAfter};

use crate::segments::flips::is_split;
use crate::segments::offsets::{far_corner, near_corner, offset_of, point_of};
use dcel_predicates::Point;
use spade_dcel::dcel::Dcel;
use spade_dcel::handles::{FixedDirectedEdgeHandle, FixedVertexHandle};
use spade_dcel::laws::every_mesh;
use std::alloc::Allocator;

/// What a segment meets.
#[derive(Clone, Copy)]
pub(crate) enum Met {
    /// A half edge that it crosses from right to left.
    Side(FixedDirectedEdgeHandle),
    /// A vertex: its end, or one that is on it.
    Vertex(FixedVertexHandle),
}

/// Returns what a segment meets first on its way from its start.
pub(crate) fn first_met<DE, UE, F, A: Allocator>(
    dcel: &Dcel<Point, DE, UE, F, A>,
    from: FixedVertexHandle,
    to: FixedVertexHandle,
) -> Met
    requires planar { TriangulatesItsHull (point_at dcel.now) dcel.now }
    requires inner { (h : ℕ) × IsLive dcel.now.shape h × (0 < face_of dcel.now.shape h) }
    requires differ { from ≢ to }
    requires ends { AreEnds dcel.now.shape from to }
    ensures { IsFirstMet (point_at dcel.now) dcel.now.shape from to result }
{
    every_mesh(dcel);
    let mut edges = dcel.vertex(from).out_edges();
    while let Some(edge) = edges.next() {
        let half = edge.fix();
        if leads_along(dcel, from, to, half) {
            return Met::Vertex(edge.to().fix());
        }
        if opens(dcel, from, to, half) {
            return Met::Side(edge.next().fix());
        }
    }
    unreachable!()
}

/// Returns what a segment meets next, once it has crossed a half edge.
pub(crate) fn met_after<DE, UE, F, A: Allocator>(
    dcel: &Dcel<Point, DE, UE, F, A>,
    from: FixedVertexHandle,
    to: FixedVertexHandle,
    edge: FixedDirectedEdgeHandle,
) -> Met
    requires ends { HasVertices dcel.now.shape from to }
    requires live { IsLive dcel.now.shape edge }
    ensures { IsMetAfter (point_at dcel.now) dcel.now.shape from to edge result }
{
    let corner = far_corner(dcel, edge);
    let side = offset_of(dcel, from, to, corner);
    if side == 0 {
        return Met::Vertex(corner);
    }
    every_mesh(dcel);
    let back = dcel.directed_edge(edge).rev();
    if side > 0 {
        return Met::Side(back.next().fix());
    }
    Met::Side(back.prev().fix())
}

/// Returns whether an out edge of a segment's start leads along it, to its end or to a vertex
/// between its ends.
pub(crate) fn leads_along<DE, UE, F, A: Allocator>(
    dcel: &Dcel<Point, DE, UE, F, A>,
    from: FixedVertexHandle,
    to: FixedVertexHandle,
    edge: FixedDirectedEdgeHandle,
) -> bool
    requires ends { HasVertices dcel.now.shape from to }
    requires out { IsOutEdge dcel.now.shape from edge }
    ensures { IsTrue result ↔ LeadsAlong (point_at dcel.now) dcel.now.shape from to edge }
{
    every_mesh(dcel);
    let end = dcel.directed_edge(edge).to().fix();
    if end == to {
        return true;
    }
    if offset_of(dcel, from, to, end) != 0 {
        return false;
    }
    apart(
        point_of(dcel, from),
        point_of(dcel, to),
        point_of(dcel, end),
    ) < 0
}

/// Returns whether a segment leads from its start into the triangle of an out edge.
fn opens<DE, UE, F, A: Allocator>(
    dcel: &Dcel<Point, DE, UE, F, A>,
    from: FixedVertexHandle,
    to: FixedVertexHandle,
    edge: FixedDirectedEdgeHandle,
) -> bool
    requires ends { HasVertices dcel.now.shape from to }
    requires out { IsOutEdge dcel.now.shape from edge }
    ensures { IsTrue result ↔ OpensAt (point_at dcel.now) dcel.now.shape from to edge }
{
    every_mesh(dcel);
    let half = dcel.directed_edge(edge);
    if half.is_outer_edge() {
        return false;
    }
    let right = offset_of(dcel, from, to, half.to().fix());
    let left = offset_of(dcel, from, to, near_corner(dcel, edge));
    is_split(right, left)
}

/// Returns a number that is negative if a point on the line through two others is between them, 0
/// if it is one of them, and positive outside.
pub(crate) fn apart(a: Point, b: Point, p: Point) -> i128
    ensures { result ≡ dot a b p }
{
    let x = (a.x - p.x) as i128 * (b.x - p.x) as i128;
    let y = (a.y - p.y) as i128 * (b.y - p.y) as i128;
    x + y
}
