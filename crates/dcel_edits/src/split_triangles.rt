//! Splitting edges, where the triangle on one side or on each is cut in two.

ghost use Rattle.std.specs.Prelude.{◌≡◌, ◌+◌, ◌*◌, ◌<◌, length, slice_index, slice_set};
ghost use Rattle.dcel_fixed.specs.HalfEdges.{rev};
ghost use Rattle.dcel_maps.specs.edits.DefaultData.{AddsEdgesAndFaces};
ghost use Rattle.dcel_edits.specs.Adding.{HasSpace};
ghost use Rattle.dcel_edits.specs.Triangle.{three_set};
ghost use Rattle.dcel_edits.specs.SplitTriangles.{CanSplitBoth, CanSplitOne, IsHeld, both_stored, one_stored, sector};

use crate::links::links;
use crate::sectors::{Sector, close_sector, push_spoke, spoke};
use dcel_fixed::{FixedDirectedEdgeHandle, FixedFaceHandle, FixedVertexHandle};
use dcel_store::{EdgeData, Store};
use std::alloc::Allocator;

// The sectors that a vertex in the middle of an edge forms in the triangles on both sides, in their
// order around that vertex.
#[derive(Clone, Copy)]
struct Round {
    after_twin: Sector,
    before_twin: Sector,
    after_edge: Sector,
    before_edge: Sector,
}

impl Round {
    // Returns the sectors around the middle of an edge, with three new edges between them.
    fn new<V, DE, UE, F, A: Allocator>(
        store: &Store<V, DE, UE, F, A>,
        edge: FixedDirectedEdgeHandle,
    ) -> Self
        requires space { HasSpace store.now 3 2 }
        requires edge { IsHeld store.now edge }
        requires twin { IsHeld store.now (rev edge) }
        ensures { let s = store.now in
            let twin = rev edge in
            let n = 2 * length s.undirected_data in
            let l = length s.face_data in
            result ≡ record {
              after_twin = sector s (slice_index s.next twin) (slice_index s.face twin) n twin;
              before_twin = sector s (slice_index s.prev twin) l (n + 2) (n + 1);
              after_edge = sector s (slice_index s.next edge) (l + 1) (n + 4) (n + 3);
              before_edge = sector s (slice_index s.prev edge) (slice_index s.face edge) edge (n + 5);
            } }
    {
        let twin = edge.rev();
        let edges = store.num_edges();
        let near = FixedFaceHandle::new(store.num_faces());
        let far = FixedFaceHandle::new(store.num_faces() + 1);
        let first = FixedDirectedEdgeHandle::new_normalized(edges);
        let second = FixedDirectedEdgeHandle::new_normalized(edges + 1);
        let third = FixedDirectedEdgeHandle::new_normalized(edges + 2);
        let back = second.rev();
        let last = third.rev();
        Round {
            after_twin: Sector::after(store, twin, store.face(twin), first, twin),
            before_twin: Sector::between(store, store.prev(twin), near, second, first.rev()),
            after_edge: Sector::after(store, edge, far, third, back),
            before_edge: Sector::between(store, store.prev(edge), store.face(edge), edge, last),
        }
    }

    // Links the half edges of the sectors into their triangles, and `edge` and its other half
    // between them.
    //
    // All `next` are written first, then all `prev`, then all faces.
    fn close<V, DE, UE, F, A: Allocator>(
        &self,
        store: &mut Store<V, DE, UE, F, A>,
        edge: FixedDirectedEdgeHandle,
    )
        requires edge_in { edge < length store.old.next }
        requires twin_in { rev edge < length store.old.next }
        requires after_twin_in { self.now.after_twin.edge < length store.old.next }
        requires before_twin_in { self.now.before_twin.edge < length store.old.next }
        requires after_edge_in { self.now.after_edge.edge < length store.old.next }
        requires before_edge_in { self.now.before_edge.edge < length store.old.next }
        ensures { let a = self.now.after_twin in
            let b = self.now.before_twin in
            let c = self.now.after_edge in
            let d = self.now.before_edge in
            store.new ≡ record store.old {
              next = slice_set (slice_set (three_set store.old.next a.edge a.next b.edge b.next c.edge c.next) d.edge d.next) edge d.prev;
              prev = slice_set (slice_set (three_set store.old.prev a.edge a.prev b.edge b.prev c.edge c.prev) d.edge d.prev) (rev edge) a.next;
              face = slice_set (three_set store.old.face a.edge a.face b.edge b.face c.edge c.face) d.edge d.face;
            } }
    {
        store.set_next(self.after_twin.edge, self.after_twin.next);
        store.set_next(self.before_twin.edge, self.before_twin.next);
        store.set_next(self.after_edge.edge, self.after_edge.next);
        store.set_next(self.before_edge.edge, self.before_edge.next);
        store.set_next(edge, self.before_edge.prev);
        store.set_prev(self.after_twin.edge, self.after_twin.prev);
        store.set_prev(self.before_twin.edge, self.before_twin.prev);
        store.set_prev(self.after_edge.edge, self.after_edge.prev);
        store.set_prev(self.before_edge.edge, self.before_edge.prev);
        store.set_prev(edge.rev(), self.after_twin.next);
        store.set_face(self.after_twin.edge, self.after_twin.face);
        store.set_face(self.before_twin.edge, self.before_twin.face);
        store.set_face(self.after_edge.edge, self.after_edge.face);
        store.set_face(self.before_edge.edge, self.before_edge.face);
    }
}

/// Splits an edge between two triangles at the vertex `middle`, and joins it to the opposite
/// corners.
///
/// Afterwards `edge` ends there. It returns the half edge that leads on to the old end of `edge`.
pub fn put_middle_of_both<V, DE: Default, UE: Default, F: Default, A: Allocator>(
    store: &mut Store<V, DE, UE, F, A>,
    edge: FixedDirectedEdgeHandle,
    middle: FixedVertexHandle,
) -> FixedDirectedEdgeHandle
    requires { CanSplitBoth store.old edge middle }
    ensures stored { AddsEdgesAndFaces DE.is_default UE.is_default F.is_default 3 2 store.new (both_stored store.old edge middle) }
    ensures answer { result ≡ 2 * length store.old.undirected_data + 3 }
{
    let twin = edge.rev();
    let round = Round::new(store, edge);
    let (first, second) = (round.after_twin, round.before_twin);
    let (third, fourth) = (round.after_edge, round.before_edge);
    round.close(store, edge);
    store.set_origin(twin, middle);
    store.set_face_anchor(fourth.face, Some(edge));
    store.set_face_anchor(first.face, Some(first.next));
    store.set_vertex_anchor(third.origin, Some(second.next));
    store.set_vertex_anchor(middle, Some(twin));
    store.push_three_edges(
        spoke(&first, &second, middle, EdgeData::default()),
        spoke(&second, &third, middle, EdgeData::default()),
        spoke(&third, &fourth, middle, EdgeData::default()),
    );
    store.push_face(F::default(), Some(second.next));
    store.push_face(F::default(), Some(third.next));
    third.prev
}

/// Splits an edge that has a triangle on the side of `edge` at the vertex `middle`, and joins it to
/// the opposite corner of that triangle.
///
/// Afterwards `edge` ends there. It returns the half edge that leads on to the old end of `edge`.
pub fn put_middle_of_one<V, DE: Default, UE: Default, F: Default, A: Allocator>(
    store: &mut Store<V, DE, UE, F, A>,
    edge: FixedDirectedEdgeHandle,
    middle: FixedVertexHandle,
) -> FixedDirectedEdgeHandle
    requires { CanSplitOne store.old edge middle }
    ensures stored { AddsEdgesAndFaces DE.is_default UE.is_default F.is_default 2 1 store.new (one_stored store.old edge middle) }
    ensures answer { result ≡ 2 * length store.old.undirected_data + 2 }
{
    let twin = edge.rev();
    let before_twin = store.prev(twin);
    let twin_face = store.face(twin);
    let edge_face = store.face(edge);
    let edges = store.num_edges();
    let spoke = FixedDirectedEdgeHandle::new_normalized(edges);
    let back = spoke.rev();
    let second_half = FixedDirectedEdgeHandle::new_normalized(edges + 1);
    let new_twin = second_half.rev();
    let new_face = FixedFaceHandle::new(store.num_faces());
    let after_edge = Sector::after(store, edge, new_face, spoke, second_half);
    let before_edge = Sector::between(store, store.prev(edge), edge_face, edge, back);
    close_sector(store, &after_edge);
    close_sector(store, &before_edge);
    store.set_next(edge, back);
    store.set_next(before_twin, new_twin);
    store.set_prev(twin, new_twin);
    store.set_origin(twin, middle);
    push_spoke(
        store,
        &after_edge,
        &before_edge,
        middle,
        EdgeData::default(),
    );
    store.push_edge(
        links(after_edge.edge, spoke, new_face, middle),
        links(twin, before_twin, twin_face, after_edge.origin),
        EdgeData::default(),
    );
    store.set_face_anchor(edge_face, Some(edge));
    store.push_face(F::default(), Some(second_half));
    store.set_vertex_anchor(after_edge.origin, Some(new_twin));
    store.set_vertex_anchor(middle, Some(second_half));
    second_half
}
