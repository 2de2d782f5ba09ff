//! The four points at an edge.

ghost use Rattle.std.specs.Prelude.{◌≡◌, ◌+◌, ◌*◌, true};
ghost use Rattle.dcel_maps.specs.Shapes.{edge_is_live, origin_of, prev_of};
ghost use Rattle.dcel_plane.specs.Plane.{point_at};

use crate::mesh::point_of;
use dcel_predicates::Point;
use spade_dcel::dcel::Dcel;
use spade_dcel::handles::FixedUndirectedEdgeHandle;
use std::alloc::Allocator;

/// The points at an edge: those of its ends, and of the corners opposite it.
#[derive(Clone, Copy)]
pub struct EdgePoints {
    /// Where its normalized half starts.
    pub from: Point,
    /// Where its normalized half ends.
    pub to: Point,
    /// The corner before its normalized half.
    pub near: Point,
    /// The corner before the other half.
    pub far: Point,
}

/// Returns the points at an edge.
///
/// Asks for a live edge ([`is_live_edge`](Dcel::is_live_edge)).
#[inline]
pub fn points_at<DE, UE, F, A: Allocator>(
    dcel: &Dcel<Point, DE, UE, F, A>,
    edge: FixedUndirectedEdgeHandle,
) -> EdgePoints
    requires { edge_is_live dcel.now.shape edge ≡ true }
    ensures from { result.from ≡ point_at dcel.now (origin_of dcel.now.shape (2 * edge)) }
    ensures to { result.to ≡ point_at dcel.now (origin_of dcel.now.shape (2 * edge + 1)) }
    ensures near { result.near ≡ point_at dcel.now (origin_of dcel.now.shape (prev_of dcel.now.shape (2 * edge))) }
    ensures far { result.far ≡ point_at dcel.now (origin_of dcel.now.shape (prev_of dcel.now.shape (2 * edge + 1))) }
{
    let half = dcel.undirected_edge(edge).as_directed();
    EdgePoints {
        from: point_of(half.from()),
        to: point_of(half.to()),
        near: point_of(half.prev().from()),
        far: point_of(half.rev().prev().from()),
    }
}
