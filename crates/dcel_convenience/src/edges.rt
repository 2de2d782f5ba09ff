//! Whether no two edges join the same two vertices.

ghost use Rattle.std.specs.Prelude.{◌≡◌, ◌≢◌, ◌↔◌, ◌*◌, IsTrue, true, ◌<◌};
ghost use Rattle.std.specs.Bool.{OnFalse, OnTrue};
ghost use Rattle.dcel_convenience.specs.Simple.{AreJoined, IsOnly, IsSimple};
ghost use Rattle.dcel_maps.specs.Shapes.{IsLive, edge_is_live, end_of};
ghost use Rattle.spade_dcel.specs.Handles.{mesh_behind, number_of};

use spade_dcel::dcel::Dcel;
use spade_dcel::handles::{
    DirectedEdgeHandle, FixedDirectedEdgeHandle, FixedUndirectedEdgeHandle, FixedVertexHandle,
};
use spade_dcel::laws::every_mesh;
use std::alloc::Allocator;

/// Returns whether a mesh is simple: no two edges join the same two vertices.
///
/// Edges that an open removal has given up don't count. It looks for a second edge around both ends
/// of each edge in turn, until it is around one of them. That is linear time for a simple mesh: the
/// sum of the lower degrees over all edges of a planar graph is (Chiba and Nishizeki, "Arboricity
/// and subgraph listing algorithms", 1985). It allocates nothing.
pub fn is_simple<V, DE, UE, F, A: Allocator>(dcel: &Dcel<V, DE, UE, F, A>) -> bool
    ensures { IsTrue result ↔ IsSimple dcel.now.shape }
{
    for number in 0..dcel.num_undirected_edges() {
        if !is_only_edge(dcel, FixedUndirectedEdgeHandle::new(number)) {
            return false;
        }
    }
    true
}

// Returns whether an edge is given up, or no other one joins its ends.
fn is_only_edge<V, DE, UE, F, A: Allocator>(
    dcel: &Dcel<V, DE, UE, F, A>,
    edge: FixedUndirectedEdgeHandle,
) -> bool
    ensures { IsTrue result ↔ (edge_is_live dcel.now.shape edge ≡ true → IsOnly dcel.now.shape (2 * edge)) }
{
    let Some(edge) = dcel.get_undirected_edge(edge) else {
        return true;
    };
    is_only(dcel, edge.as_directed().fix())
}

/// Returns whether no other half edge leads from where a live one starts to where it ends.
pub(crate) fn is_only<V, DE, UE, F, A: Allocator>(
    dcel: &Dcel<V, DE, UE, F, A>,
    half: FixedDirectedEdgeHandle,
) -> bool
    requires { IsLive dcel.now.shape half }
    ensures { IsTrue result ↔ IsOnly dcel.now.shape half }
{
    every_mesh(dcel);
    let edge = dcel.directed_edge(half);
    let (from, to) = (edge.from().fix(), edge.to().fix());
    let mut here = dcel.vertex(from).out_edges();
    let mut there = dcel.vertex(to).out_edges();
    while let Some(near) = here.next() {
        if is_second(near, to, half) {
            return false;
        }
        let Some(far) = there.next() else {
            return true;
        };
        if is_second(far, from, half.rev()) {
            return false;
        }
    }
    true
}

/// Returns whether an edge joins two vertices.
///
/// It looks around both in turn, until it is around one of them.
pub(crate) fn are_joined<V, DE, UE, F, A: Allocator>(
    dcel: &Dcel<V, DE, UE, F, A>,
    one: FixedVertexHandle,
    other: FixedVertexHandle,
) -> bool
    requires one { one < dcel.now.shape.vertices }
    requires other { other < dcel.now.shape.vertices }
    ensures { IsTrue result ↔ AreJoined dcel.now.shape one other }
{
    every_mesh(dcel);
    let mut here = dcel.vertex(one).out_edges();
    let mut there = dcel.vertex(other).out_edges();
    while let Some(near) = here.next() {
        if near.to().fix() == other {
            return true;
        }
        let Some(far) = there.next() else {
            return false;
        };
        if far.to().fix() == one {
            return true;
        }
    }
    false
}

// Returns whether a half edge ends at a vertex, and is another one than this.
fn is_second<V, DE, UE, F, A: Allocator>(
    edge: DirectedEdgeHandle<'_, V, DE, UE, F, A>,
    to: FixedVertexHandle,
    half: FixedDirectedEdgeHandle,
) -> bool
    requires { IsLive (mesh_behind edge).shape (number_of edge) }
    ensures second { OnTrue result ((end_of (mesh_behind edge.entry).shape (number_of edge.entry) ≡ to) × (number_of edge.entry ≢ half)) }
    ensures other { OnFalse result (end_of (mesh_behind edge.entry).shape (number_of edge.entry) ≡ to → number_of edge.entry ≡ half) }
{
    if edge.to().fix() != to {
        return false;
    }
    edge.fix() != half
}
