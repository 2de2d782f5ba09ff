//! Appending vertices without edges, and the first edge.

ghost use Rattle.std.specs.Prelude.{◌≡◌, ◌≤◌, vec_len};
ghost use Rattle.dcel_maps.specs.edits.DefaultData.{AddsEdge};
ghost use Rattle.dcel_edits.specs.Create.{CanBegin, first_edge_stored, vertices_stored};

use crate::links::links;
use dcel_fixed::{FixedDirectedEdgeHandle, FixedVertexHandle, OUTER_FACE};
use dcel_store::{EdgeData, Store};
use std::alloc::Allocator;

/// Appends a vertex without an anchor for each datum.
pub fn put_vertices<V: Drop, DE, UE, F, A: Allocator>(
    store: &mut Store<V, DE, UE, F, A>,
    vertices: Vec<V, A>,
)
    requires { vec_len vertices ≤ store.old.vertex_room }
    ensures { store.new ≡ vertices_stored store.old vertices.items }
{
    for datum in vertices {
        store.push_vertex(datum, None);
    }
}

/// Writes edge 0, between two vertices, into a store without edges.
pub fn put_first_edge<V, DE: Default, UE: Default, F, A: Allocator>(
    store: &mut Store<V, DE, UE, F, A>,
    first_vertex: FixedVertexHandle,
    second_vertex: FixedVertexHandle,
)
    requires { CanBegin store.old first_vertex second_vertex }
    ensures { AddsEdge DE.is_default UE.is_default store.new (first_edge_stored store.old first_vertex second_vertex) }
{
    let normalized = FixedDirectedEdgeHandle::new_normalized(0);
    let reversed = normalized.rev();
    store.push_edge(
        links(reversed, reversed, OUTER_FACE, first_vertex),
        links(normalized, normalized, OUTER_FACE, second_vertex),
        EdgeData::default(),
    );
    store.set_vertex_anchor(first_vertex, Some(normalized));
    store.set_vertex_anchor(second_vertex, Some(reversed));
    store.set_face_anchor(OUTER_FACE, Some(normalized));
}
