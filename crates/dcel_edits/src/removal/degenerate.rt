//! Taking out a vertex of a degenerate mesh: the only one, or one of a path with an edge of it.

ghost use Rattle.std.specs.Prelude.{◌≡◌, ◌/◌, ◌<◌, length, slice_index_or};
ghost use Rattle.dcel_maps.specs.edits.Degenerate.{anchor_off};
ghost use Rattle.dcel_edits.specs.Degenerate.{CanLoseDegenerate, CanUnlink, CanUnlinkOnPath, degenerate_out, going_from, path_stored, stand_in, unlinked};

use crate::removal::take_out::{take_out_edge, take_out_vertex};
use dcel_fixed::{
    FixedDirectedEdgeHandle, FixedUndirectedEdgeHandle, FixedVertexHandle, OUTER_FACE,
};
use dcel_store::Store;
use std::alloc::Allocator;

/// Takes out the only vertex, or a vertex of a path with one of its edges, and returns the datum of
/// the vertex.
pub fn take_out_degenerate<V, DE: Drop, UE: Drop, F, A: Allocator>(
    store: &mut Store<V, DE, UE, F, A>,
    vertex: FixedVertexHandle,
) -> V
    requires { CanLoseDegenerate store.old vertex }
    ensures datum { result ≡ slice_index_or store.old.vertex_data vertex result }
    ensures lists { store.new ≡ degenerate_out store.old vertex }
{
    if store.num_vertices() == 1 {
        return take_out_vertex(store, vertex);
    }
    let edge = unlink_on_path(store, vertex);
    take_out_edge(store, edge);
    take_out_vertex(store, vertex)
}

// Unlinks a vertex of a path and one of its edges, and returns that edge: the one of the out edge
// after the anchor of the vertex, which is the anchor itself at an end of the path. Elsewhere the
// edge of the anchor joins the two neighbors afterwards.
fn unlink_on_path<V, DE, UE, F, A: Allocator>(
    store: &mut Store<V, DE, UE, F, A>,
    vertex: FixedVertexHandle,
) -> FixedUndirectedEdgeHandle
    requires { CanUnlinkOnPath store.old vertex }
    ensures edge { result ≡ going_from store.old vertex / 2 }
    ensures lists { store.new ≡ path_stored store.old vertex }
{
    let Some(anchor) = store.vertex_anchor(vertex) else {
        unreachable!()
    };
    let going = store.prev(anchor).rev();
    let coming = going.rev();
    let end = store.origin(coming);
    let edge = going.as_undirected();
    let instead = anchor_instead(store, anchor, going);
    unlink(store, going);
    unlink(store, coming);
    store.set_origin(anchor, end);
    let of_end = store.vertex_anchor(end);
    store.set_vertex_anchor(end, off_edge(of_end, edge, &instead));
    let of_face = store.face_anchor(OUTER_FACE);
    store.set_face_anchor(OUTER_FACE, off_edge(of_face, edge, &instead));
    store.set_vertex_anchor(vertex, None);
    edge
}

// Returns what replaces an anchor on the edge that goes: None if no other edge is left, the next
// half edge at an end of the path, and otherwise the other out edge.
fn anchor_instead<V, DE, UE, F, A: Allocator>(
    store: &Store<V, DE, UE, F, A>,
    anchor: FixedDirectedEdgeHandle,
    going: FixedDirectedEdgeHandle,
) -> Option<FixedDirectedEdgeHandle>
    requires { anchor < length store.now.next }
    ensures { result ≡ stand_in store.now anchor going }
{
    if store.num_vertices() == 2 {
        return None;
    }
    if anchor == going {
        return Some(store.next(anchor));
    }
    Some(anchor)
}

// Returns the anchor, or `other` if the anchor is a half of `edge`.
fn off_edge(
    anchor: Option<FixedDirectedEdgeHandle>,
    edge: FixedUndirectedEdgeHandle,
    other: &Option<FixedDirectedEdgeHandle>,
) -> Option<FixedDirectedEdgeHandle>
    ensures { result ≡ anchor_off edge other.now anchor }
{
    let Some(half) = anchor else {
        return None;
    };
    if half.as_undirected() == edge {
        return *other;
    }
    anchor
}

// Links the half edge before `edge` to the one after it.
fn unlink<V, DE, UE, F, A: Allocator>(
    store: &mut Store<V, DE, UE, F, A>,
    edge: FixedDirectedEdgeHandle,
)
    requires { CanUnlink store.old edge }
    ensures { store.new ≡ unlinked store.old edge }
{
    let next = store.next(edge);
    let prev = store.prev(edge);
    store.set_next(prev, next);
    store.set_prev(next, prev);
}
