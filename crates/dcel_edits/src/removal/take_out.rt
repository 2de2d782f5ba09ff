//! Swap-removes: the last element of the kind gets the number, and what named it is renamed in one
//! pass, without allocating.

ghost use Rattle.std.specs.Prelude.{◌≡◌, ◌<◌, ◌^◌, Some, cond, length, reverse, slice_index_or};
ghost use Rattle.dcel_maps.specs.Removals.{is_this};
ghost use Rattle.dcel_maps.specs.Renumbering.{half_of, moved};
ghost use Rattle.dcel_edits.specs.TakingOut.{CanLoseEdge, CanLoseEdges, CanLoseFace, CanLoseFaces, CanLoseVertex, CanRename, anchor_renamed, edge_out, edges_out, face_out, faces_out, half_renamed, links_moved, vertex_out};

use crate::rename::{rename_turn, rename_word};
use dcel_fixed::{
    FixedDirectedEdgeHandle, FixedFaceHandle, FixedUndirectedEdgeHandle, FixedVertexHandle,
    InnerTag, PossiblyOuterTag,
};
use dcel_store::{HalfEdgeLinks, Store};
use std::alloc::Allocator;

/// Swap-removes an edge, and drops its data.
///
/// The links and anchors that named a half edge of the last edge get its new number.
pub(crate) fn take_out_edge<V, DE: Drop, UE: Drop, F, A: Allocator>(
    store: &mut Store<V, DE, UE, F, A>,
    edge: FixedUndirectedEdgeHandle,
)
    requires { CanLoseEdge store.old edge }
    ensures { store.new ≡ edge_out store.old edge }
{
    let last = FixedUndirectedEdgeHandle::new(store.num_edges() - 1);
    if edge == last {
        let _ = store.take_edge(edge);
        return;
    }
    let from = last.as_directed();
    let to = edge.as_directed();
    let normalized = moved_links(store, from, last, edge);
    let reversed = moved_links(store, from.rev(), last, edge);
    let _ = store.take_edge(edge);
    rename_half(store, normalized, from, to);
    rename_half(store, reversed, from.rev(), to.rev());
}

// Swap-removes a face, and drops its datum. The half edges of the last face get its new number.
fn take_out_face<V, DE, UE, F: Drop, A: Allocator>(
    store: &mut Store<V, DE, UE, F, A>,
    face: FixedFaceHandle<PossiblyOuterTag>,
)
    requires { CanLoseFace store.old face }
    ensures { store.new ≡ face_out store.old face }
{
    let last = store.num_faces() - 1;
    let _ = store.take_face(face);
    if face.index() != last {
        rename_word(store, face);
    }
}

/// Swap-removes the edges of a list, from its last one to its first.
pub fn take_out_edges<V, DE: Drop, UE: Drop, F, A: Allocator>(
    store: &mut Store<V, DE, UE, F, A>,
    edges: &[FixedUndirectedEdgeHandle],
)
    requires { CanLoseEdges store.old (reverse edges.now) }
    ensures { store.new ≡ edges_out store.old (reverse edges.now) }
{
    let mut left = edges.len();
    while left > 0 {
        left -= 1;
        take_out_edge(store, edges[left]);
    }
}

/// Swap-removes the faces of a list, from its last one to its first.
pub fn take_out_faces<V, DE, UE, F: Drop, A: Allocator>(
    store: &mut Store<V, DE, UE, F, A>,
    faces: &[FixedFaceHandle<InnerTag>],
)
    requires { CanLoseFaces store.old (reverse faces.now) }
    ensures { store.new ≡ faces_out store.old (reverse faces.now) }
{
    let mut left = faces.len();
    while left > 0 {
        left -= 1;
        take_out_face(store, faces[left].adjust_inner_outer());
    }
}

/// Swap-removes a vertex, and returns its datum.
///
/// The half edges of the last vertex get its new number.
pub fn take_out_vertex<V, DE, UE, F, A: Allocator>(
    store: &mut Store<V, DE, UE, F, A>,
    vertex: FixedVertexHandle,
) -> V
    requires { CanLoseVertex store.old vertex }
    ensures datum { result ≡ slice_index_or store.old.vertex_data vertex result }
    ensures lists { store.new ≡ vertex_out store.old vertex }
{
    let last = store.num_vertices() - 1;
    let datum = store.take_vertex(vertex);
    if vertex.index() != last {
        rename_turn(store, vertex);
    }
    datum
}

// Returns the links of a half edge, where those that lead to the edge `last` lead to `to` instead.
fn moved_links<V, DE, UE, F, A: Allocator>(
    store: &Store<V, DE, UE, F, A>,
    edge: FixedDirectedEdgeHandle,
    last: FixedUndirectedEdgeHandle,
    to: FixedUndirectedEdgeHandle,
) -> HalfEdgeLinks
    requires held { edge < length store.now.next }
    requires few { to < 2 ^ 31 }
    ensures { result ≡ links_moved store.now last to edge }
{
    HalfEdgeLinks {
        next: moved_half(store.next(edge), last, to),
        prev: moved_half(store.prev(edge), last, to),
        face: store.face(edge),
        origin: store.origin(edge),
    }
}

// Returns `edge`, or the same half of `to` if it is a half of `last`.
#[tactic(auto, unfolding(dcel_maps::specs::Renumbering::half_of, dcel_maps::specs::Renumbering::moved))]
fn moved_half(
    edge: FixedDirectedEdgeHandle,
    last: FixedUndirectedEdgeHandle,
    to: FixedUndirectedEdgeHandle,
) -> FixedDirectedEdgeHandle
    requires { to < 2 ^ 31 }
    ensures { result ≡ half_of (moved last to) edge }
{
    if edge.as_undirected() != last {
        return edge;
    }
    let moved = to.as_directed();
    if edge.is_normalized() {
        return moved;
    }
    moved.rev()
}

// Renames a half edge in the links of its neighbors and in the anchors that named it.
fn rename_half<V, DE, UE, F, A: Allocator>(
    store: &mut Store<V, DE, UE, F, A>,
    links: HalfEdgeLinks,
    from: FixedDirectedEdgeHandle,
    to: FixedDirectedEdgeHandle,
)
    requires { CanRename store.old links }
    ensures { store.new ≡ half_renamed store.old links from to }
{
    store.set_next(links.prev, to);
    store.set_prev(links.next, to);
    rename_vertex_anchor(store, links.origin, from, to);
    rename_face_anchor(store, links.face, from, to);
}

// Anchors the vertex at `to` if it is anchored at `from`.
fn rename_vertex_anchor<V, DE, UE, F, A: Allocator>(
    store: &mut Store<V, DE, UE, F, A>,
    vertex: FixedVertexHandle,
    from: FixedDirectedEdgeHandle,
    to: FixedDirectedEdgeHandle,
)
    requires { vertex < length store.old.vertex_anchors }
    ensures { store.new ≡ record store.old {
      vertex_anchors = anchor_renamed store.old.vertex_anchors vertex from to;
    } }
{
    let anchor = store.vertex_anchor(vertex);
    store.set_vertex_anchor(vertex, renamed(anchor, from, to));
}

// Anchors the face at `to` if it is anchored at `from`.
fn rename_face_anchor<V, DE, UE, F, A: Allocator>(
    store: &mut Store<V, DE, UE, F, A>,
    face: FixedFaceHandle<PossiblyOuterTag>,
    from: FixedDirectedEdgeHandle,
    to: FixedDirectedEdgeHandle,
)
    requires { face < length store.old.face_anchors }
    ensures { store.new ≡ record store.old {
      face_anchors = anchor_renamed store.old.face_anchors face from to;
    } }
{
    let anchor = store.face_anchor(face);
    store.set_face_anchor(face, renamed(anchor, from, to));
}

// Returns the anchor, by its new number if it is the half edge that moved. The callers write it
// unconditionally: a branch would be unpredictable and would stall on loading the anchor.
#[inline]
fn renamed(
    anchor: Option<FixedDirectedEdgeHandle>,
    from: FixedDirectedEdgeHandle,
    to: FixedDirectedEdgeHandle,
) -> Option<FixedDirectedEdgeHandle>
    ensures { result ≡ cond (is_this from anchor) (Some to) anchor }
{
    let edge = anchor?;
    Some(if edge == from { to } else { edge })
}
