//! Flips that keep a mesh simple.

ghost use Rattle.std.specs.Prelude.{◌↔◌, IsTrue};
ghost use Rattle.dcel_convenience.specs.Simple.{CanFlipSimple};

use spade_dcel::dcel::Dcel;
use spade_dcel::handles::FixedUndirectedEdgeHandle;
use std::alloc::Allocator;

/// Returns whether an edge is between two inner triangles, can be flipped
/// ([`can_flip`](Dcel::can_flip)), and no edge joins the corners opposite it yet.
///
/// Such a flip adds no second edge between two vertices, and leaves the outer face alone. The test
/// goes around one of the two corners. Any number may be given.
pub fn can_flip_simple<V, DE, UE, F, A: Allocator>(
    dcel: &Dcel<V, DE, UE, F, A>,
    edge: FixedUndirectedEdgeHandle,
) -> bool
    ensures { IsTrue result ↔ CanFlipSimple dcel.now.shape edge }
{
    if !dcel.can_flip(edge) {
        return false;
    }
    let half = dcel.undirected_edge(edge).as_directed();
    if half.is_part_of_convex_hull() {
        return false;
    }
    let near = half.prev().from().fix();
    let far = half.rev().prev().from().fix();
    dcel.get_edge_from_neighbors(near, far).is_none()
}
