//! Ways along segments between two vertices: whether one is free, and where one on a line begins.

ghost use Rattle.std.specs.Prelude.{◌≢◌, ◌↔◌, ◌<◌, ℕ, IsTrue};
ghost use Rattle.dcel_plane.specs.hull.Straight.{IsStraight};
ghost use Rattle.dcel_maps.specs.Shapes.{IsLive, face_of};
ghost use Rattle.dcel_plane.specs.Plane.{point_at};
ghost use Rattle.dcel_plane.specs.segments.Segments.{AreEnds, LeadsAlong, TriangulatesItsHull};
ghost use Rattle.dcel_constrained.specs.Constraints.{IsFreeWay};
ghost use Rattle.dcel_constrained.specs.Reached.{IsReachedFreely};

use crate::mesh::is_marked;
use crate::segments::walk::{Met, first_met, leads_along, met_after};
use dcel_predicates::Point;
use dcel_regions::Mark;
use spade_dcel::dcel::Dcel;
use spade_dcel::handles::{FixedDirectedEdgeHandle, FixedVertexHandle};
use spade_dcel::laws::every_mesh;
use std::alloc::Allocator;

/// Returns whether the segment between two vertices crosses no marked edge.
///
/// A marked edge along it, or one that only ends on it, isn't crossed.
pub(crate) fn is_free_way<DE, F, A: Allocator>(
    dcel: &Dcel<Point, DE, Mark, F, A>,
    from: FixedVertexHandle,
    to: FixedVertexHandle,
) -> bool
    requires planar { TriangulatesItsHull (point_at dcel.now) dcel.now }
    requires inner { (h : ℕ) × IsLive dcel.now.shape h × (0 < face_of dcel.now.shape h) }
    requires differ { from ≢ to }
    requires ends { AreEnds dcel.now.shape from to }
    ensures { IsTrue result ↔ IsFreeWay dcel.now from to }
{
    let mut at = from;
    while at != to {
        match next_vertex(dcel, at, to) {
            Some(vertex) => at = vertex,
            None => return false,
        }
    }
    true
}

/// Returns the first vertex that a segment meets on its way, its end or one between its ends, unless
/// it crosses a marked edge before.
fn next_vertex<DE, F, A: Allocator>(
    dcel: &Dcel<Point, DE, Mark, F, A>,
    from: FixedVertexHandle,
    to: FixedVertexHandle,
) -> Option<FixedVertexHandle>
    requires planar { TriangulatesItsHull (point_at dcel.now) dcel.now }
    requires inner { (h : ℕ) × IsLive dcel.now.shape h × (0 < face_of dcel.now.shape h) }
    requires differ { from ≢ to }
    requires ends { AreEnds dcel.now.shape from to }
    ensures { IsReachedFreely dcel.now from to result }
{
    every_mesh(dcel);
    let mut edge = match first_met(dcel, from, to) {
        Met::Side(edge) => edge,
        Met::Vertex(vertex) => return Some(vertex),
    };
    // It crosses no half edge twice.
    for _step in 0..dcel.num_directed_edges() {
        if is_marked(dcel, edge.as_undirected()) {
            return None;
        }
        match met_after(dcel, from, to, edge) {
            Met::Vertex(vertex) => return Some(vertex),
            Met::Side(next) => edge = next,
        }
    }
    unreachable!()
}

/// Returns the out edge of a vertex on a line that leads along it to another vertex.
pub(crate) fn first_along<DE, UE, F, A: Allocator>(
    dcel: &Dcel<Point, DE, UE, F, A>,
    from: FixedVertexHandle,
    to: FixedVertexHandle,
) -> FixedDirectedEdgeHandle
    requires straight { IsStraight (point_at dcel.now) dcel.now.shape }
    requires differ { from ≢ to }
    requires ends { AreEnds dcel.now.shape from to }
    ensures { LeadsAlong (point_at dcel.now) dcel.now.shape from to result }
{
    every_mesh(dcel);
    let mut edges = dcel.vertex(from).out_edges();
    while let Some(edge) = edges.next() {
        let half = edge.fix();
        if leads_along(dcel, from, to, half) {
            return half;
        }
    }
    unreachable!()
}
