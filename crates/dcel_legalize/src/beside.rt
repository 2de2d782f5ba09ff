//! Listing the other edges of the two triangles at an edge.

ghost use Rattle.std.specs.Prelude.{◌≡◌, ◌+◌, ◌≤◌, ◌++◌, true, vec_len, vec_capacity};
ghost use Rattle.dcel_legalize.specs.Flipping.{edges_beside, sides_beside};
ghost use Rattle.dcel_maps.specs.Shapes.{edge_is_live};

use spade_dcel::dcel::Dcel;
use spade_dcel::handles::FixedUndirectedEdgeHandle;
use std::alloc::Allocator;

/// Appends the other sides of the two triangles at an edge to a list: first the edges after and
/// before its normalized half, then those after and before the other half.
///
/// A flip of the edge changes the triangles at these four, so a legalization tests them again.
///
/// Asks for a live edge ([`is_live_edge`](Dcel::is_live_edge)), and for room in the list for four
/// more, which [`reserve`](Vec::reserve) provides.
pub fn append_sides<V, DE, UE, F, A: Allocator, L: Allocator>(
    dcel: &Dcel<V, DE, UE, F, A>,
    edge: FixedUndirectedEdgeHandle,
    list: &mut Vec<FixedUndirectedEdgeHandle, L>,
)
    requires live { edge_is_live dcel.now.shape edge ≡ true }
    requires room { vec_len list.old + 4 ≤ vec_capacity list.old }
    ensures items { list.new.items ≡ list.old.items ++ sides_beside dcel.now.shape edge }
    ensures len { vec_len list.new ≡ vec_len list.old + 4 }
{
    let half = dcel.undirected_edge(edge).as_directed();
    let facing = half.rev();
    list.push_reserved(half.next().as_undirected().fix());
    list.push_reserved(half.prev().as_undirected().fix());
    list.push_reserved(facing.next().as_undirected().fix());
    list.push_reserved(facing.prev().as_undirected().fix());
}

// Appends the edge too: between its new ends, a test that the caller passes may want it flipped
// again.
pub(crate) fn append_beside<V, DE, UE, F, A: Allocator, L: Allocator>(
    dcel: &Dcel<V, DE, UE, F, A>,
    edge: FixedUndirectedEdgeHandle,
    list: &mut Vec<FixedUndirectedEdgeHandle, L>,
)
    requires live { edge_is_live dcel.now.shape edge ≡ true }
    requires room { vec_len list.old + 5 ≤ vec_capacity list.old }
    ensures { list.new.items ≡ list.old.items ++ edges_beside dcel.now.shape edge }
{
    list.push_reserved(edge);
    append_sides(dcel, edge, list);
}
