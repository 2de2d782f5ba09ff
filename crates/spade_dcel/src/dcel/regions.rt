//! The test of a region's ring: faces that the edges between them join into one, and the half edges
//! around them.
//!
//! It allocates nothing, so it looks each item up in the lists, and its time may grow with the
//! square of their lengths.

ghost use Rattle.std.specs.Prelude.{◌≡◌, ◌≢◌, ◌⊎◌, ◌↔◌, ◌/◌, ◌*◌, ◌<◌, ◌≤◌, ℕ, IsTrue, length, reverse, true};
ghost use Rattle.dcel_maps.specs.Regions.{IsRegionRing};
ghost use Rattle.dcel_maps.specs.Shapes.{IsLive, face_count, face_is_live, next_of, origin_of};
ghost use Rattle.dcel_maps.specs.theory.RingTests.{EachOf, EdgeFits, GoesAlong, IsCovered, LeadsRound, StepsTo, rim_step};
ghost use Rattle.dcel_maps.specs.Words.{count_of, word_of};

use crate::dcel::{Dcel, EDGE_SPACE};
use crate::iterators::{CircularIterator, HullNextBackFn};
use crate::laws::every_mesh;
use dcel_fixed::{
    FixedDirectedEdgeHandle, FixedFaceHandle, FixedHandleImpl, FixedUndirectedEdgeHandle,
    FixedVertexHandle, InnerOuterMarker, InnerTag,
};
use std::alloc::Allocator;

impl<V, DE, UE, F, A: Allocator> Dcel<V, DE, UE, F, A> {
    // Returns whether the list is the ring of the region that consists of these faces and edges.
    pub(crate) fn is_region_ring(
        &self,
        list: &[FixedDirectedEdgeHandle],
        edges: &[FixedUndirectedEdgeHandle],
        faces: &[FixedFaceHandle<InnerTag>],
    ) -> bool
        ensures { IsTrue result ↔ IsRegionRing self.now.shape list.now edges.now faces.now }
    {
        every_mesh(self);
        if list.len() < 3 {
            return false;
        }
        if faces.is_empty() {
            return false;
        }
        if faces.len() - 1 != edges.len() {
            return false;
        }
        if !are_different(edges) {
            return false;
        }
        if !self.are_inner_faces(faces) {
            return false;
        }
        if !self.lie_between(edges, faces) {
            return false;
        }
        if !self.leads_round(list, edges, faces) {
            return false;
        }
        self.are_covered(faces, edges, list)
    }

    // Returns whether the faces are inner ones that are live, each listed once.
    fn are_inner_faces(&self, faces: &[FixedFaceHandle<InnerTag>]) -> bool
        ensures { IsTrue result ↔ (((face : ℕ) → count_of face faces.now ≤ 1)
            × ((face : ℕ) → 0 < count_of face faces.now → (0 < face) × (face_is_live self.now.shape face ≡ true))) }
    {
        if !are_different(faces) {
            return false;
        }
        self.are_inner(faces)
    }

    // Returns whether each of the faces is an inner one that is live.
    fn are_inner(&self, faces: &[FixedFaceHandle<InnerTag>]) -> bool
        ensures { IsTrue result ↔ ((face : ℕ) → 0 < count_of face faces.now → (0 < face) × (face_is_live self.now.shape face ≡ true)) }
    {
        let mut left = faces;
        while let Some((&face, after)) = left.split_first() {
            if face.index() == 0 {
                return false;
            }
            if !self.is_live_face(face) {
                return false;
            }
            left = after;
        }
        true
    }

    // Returns whether each of the edges is between two of the faces.
    fn lie_between(
        &self,
        edges: &[FixedUndirectedEdgeHandle],
        faces: &[FixedFaceHandle<InnerTag>],
    ) -> bool
        ensures { IsTrue result ↔ ((edge : ℕ) → 0 < count_of edge edges.now → EdgeFits self.now.shape faces.now edge) }
    {
        let mut left = edges;
        while let Some((&edge, after)) = left.split_first() {
            if !self.lies_between(edge, faces) {
                return false;
            }
            left = after;
        }
        true
    }

    // Returns whether the list, read from its end, leads around the faces.
    fn leads_round(
        &self,
        list: &[FixedDirectedEdgeHandle],
        edges: &[FixedUndirectedEdgeHandle],
        faces: &[FixedFaceHandle<InnerTag>],
    ) -> bool
        ensures { let shape = self.now.shape in IsTrue result ↔ LeadsRound shape edges.now faces.now (reverse list.now) }
    {
        let Some((&first, others)) = list.split_last() else {
            return false;
        };
        if !self.is_live_edge(first.as_undirected()) {
            return false;
        }
        if !is_among(faces, &self.face_of_edge(first).adjust_inner_outer()) {
            return false;
        }
        self.leads_along(first, others, edges)
    }

    // Returns whether the list, read from its end, goes on around them after the first half edge,
    // which starts where no other one does.
    fn leads_along(
        &self,
        first: FixedDirectedEdgeHandle,
        others: &[FixedDirectedEdgeHandle],
        edges: &[FixedUndirectedEdgeHandle],
    ) -> bool
        requires { IsLive self.now.shape first }
        ensures { let shape = self.now.shape in
            IsTrue result ↔ GoesAlong shape edges.now (origin_of shape first) first (reverse others.now) first }
    {
        let apex = self.origin(first);
        let mut half = first;
        let mut left = others;
        while let Some((&following, before)) = left.split_last() {
            if !self.goes_on(half, following, apex, edges) {
                return false;
            }
            half = following;
            left = before;
        }
        self.steps_to(half, first, edges)
    }

    // Returns whether the walk around the region leads from `half` to `following`, which does not
    // start at the apex.
    fn goes_on(
        &self,
        half: FixedDirectedEdgeHandle,
        following: FixedDirectedEdgeHandle,
        apex: FixedVertexHandle,
        edges: &[FixedUndirectedEdgeHandle],
    ) -> bool
        requires { IsLive self.now.shape half }
        ensures step { IsTrue result ↔ (StepsTo (next_of self.now.shape) edges.now half following × (origin_of self.now.shape following ≢ apex)) }
        ensures live { IsTrue result → IsLive self.now.shape following }
    {
        if !self.steps_to(half, following, edges) {
            return false;
        }
        self.origin(following) != apex
    }

    // Returns whether `following` comes after `half` past the edges, and is a half of none.
    fn steps_to(
        &self,
        half: FixedDirectedEdgeHandle,
        following: FixedDirectedEdgeHandle,
        edges: &[FixedUndirectedEdgeHandle],
    ) -> bool
        requires { IsLive self.now.shape half }
        ensures step { IsTrue result ↔ StepsTo (next_of self.now.shape) edges.now half following }
        ensures live { IsTrue result → IsLive self.now.shape following }
    {
        if self.past(half, edges) != following {
            return false;
        }
        !is_among(edges, &following.as_undirected())
    }

    // Returns whether each half edge of the faces is in the list, or a half of one of the edges.
    fn are_covered(
        &self,
        faces: &[FixedFaceHandle<InnerTag>],
        edges: &[FixedUndirectedEdgeHandle],
        list: &[FixedDirectedEdgeHandle],
    ) -> bool
        requires { (face : ℕ) → 0 < count_of face faces.now → (0 < face) × (face_is_live self.now.shape face ≡ true) }
        ensures { IsTrue result ↔ EachOf (λ face. EachOf (IsCovered edges.now list.now) (word_of self.now.shape.words face)) faces.now }
    {
        let mut left = faces;
        while let Some((&face, after)) = left.split_first() {
            if !self.is_covered(face, edges, list) {
                return false;
            }
            left = after;
        }
        true
    }

    // Returns whether each half edge of the face is in the list, or a half of one of the edges.
    fn is_covered(
        &self,
        face: FixedFaceHandle<InnerTag>,
        edges: &[FixedUndirectedEdgeHandle],
        list: &[FixedDirectedEdgeHandle],
    ) -> bool
        requires { face < face_count self.now.shape }
        ensures { IsTrue result ↔ EachOf (IsCovered edges.now list.now) (word_of self.now.shape.words face) }
    {
        every_mesh(self);
        let Some(first) = self.face_adjacent_edge(face) else {
            return true;
        };
        let walk: CircularIterator<'_, V, DE, UE, F, HullNextBackFn, A> = CircularIterator::new(
            self.directed_edge(first),
        );
        for edge in walk {
            if !is_edge_or_item(edge.fix(), edges, list) {
                return false;
            }
        }
        true
    }

    // Returns whether the edge is live and between two of the faces.
    #[tactic(auto, using(dcel_fixed::proofs::Halves::halves))]
    fn lies_between(
        &self,
        edge: FixedUndirectedEdgeHandle,
        faces: &[FixedFaceHandle<InnerTag>],
    ) -> bool
        ensures { IsTrue result ↔ EdgeFits self.now.shape faces.now edge }
    {
        if !self.is_live_edge(edge) {
            return false;
        }
        prove!(self.num_undirected_edges() <= EDGE_SPACE);
        let half = edge.as_directed();
        let near = self.face_of_edge(half);
        let far = self.face_of_edge(half.rev());
        if !is_among(faces, &near.adjust_inner_outer()) {
            return false;
        }
        if !is_among(faces, &far.adjust_inner_outer()) {
            return false;
        }
        near != far
    }

    // Returns the half edge after this one once the edges are passed. It takes no more steps than
    // there are edges, so that it ends whatever the lists are.
    fn past(
        &self,
        half: FixedDirectedEdgeHandle,
        edges: &[FixedUndirectedEdgeHandle],
    ) -> FixedDirectedEdgeHandle
        requires { IsLive self.now.shape half }
        ensures value { result ≡ rim_step (next_of self.now.shape) edges.now half }
        ensures live { IsLive self.now.shape result }
    {
        let mut next = self.next_edge(half);
        for _ in 0..edges.len() {
            if !is_among(edges, &next.as_undirected()) {
                return next;
            }
            next = self.next_edge(next.rev());
        }
        next
    }
}

// Returns whether the half edge is in the list, or a half of one of the edges.
fn is_edge_or_item(
    half: FixedDirectedEdgeHandle,
    edges: &[FixedUndirectedEdgeHandle],
    list: &[FixedDirectedEdgeHandle],
) -> bool
    ensures { IsTrue result ↔ IsCovered edges.now list.now half }
{
    if is_among(edges, &half.as_undirected()) {
        return true;
    }
    is_among(list, &half)
}

// Returns whether no item is listed twice.
fn are_different<Kind, InnerOuter: InnerOuterMarker>(
    items: &[FixedHandleImpl<Kind, InnerOuter>],
) -> bool
    ensures { IsTrue result ↔ ((item : ℕ) → count_of item items.now ≤ 1) }
{
    let mut left = items;
    while let Some((item, after)) = left.split_first() {
        if is_among(after, item) {
            return false;
        }
        left = after;
    }
    true
}

// Returns whether the item is in the list.
fn is_among<Kind, InnerOuter: InnerOuterMarker>(
    items: &[FixedHandleImpl<Kind, InnerOuter>],
    item: &FixedHandleImpl<Kind, InnerOuter>,
) -> bool
    ensures { IsTrue result ↔ (0 < count_of item.now items.now) }
{
    items.contains(item)
}
