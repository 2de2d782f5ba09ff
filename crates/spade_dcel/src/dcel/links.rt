//! Readers of links, private to the crate.

ghost use Rattle.std.specs.Prelude.{◌≡◌, ◌*◌, ◌<◌, ◌↔◌, IsTrue, MatchOption, length};
ghost use Rattle.dcel_maps.specs.Conditions.{IsTriangle};
ghost use Rattle.dcel_maps.specs.Shapes.{IsLive, vertex_is_live, face_is_live, next_of, prev_of, face_of, origin_of};
ghost use Rattle.dcel_maps.specs.Words.{word_of};

use crate::dcel::Dcel;
use dcel_fixed::{FixedDirectedEdgeHandle, FixedFaceHandle, FixedVertexHandle, PossiblyOuterTag};
use std::alloc::Allocator;

/// Links, for handles and tests.
impl<V, DE, UE, F, A: Allocator> Dcel<V, DE, UE, F, A> {
    #[inline]
    pub(crate) fn next_edge(&self, handle: FixedDirectedEdgeHandle) -> FixedDirectedEdgeHandle
        requires { IsLive self.now.shape handle }
        ensures value { result ≡ next_of self.now.shape handle }
        ensures live { IsLive self.now.shape result }
    {
        self.store.next(handle)
    }

    #[inline]
    pub(crate) fn prev_edge(&self, handle: FixedDirectedEdgeHandle) -> FixedDirectedEdgeHandle
        requires { IsLive self.now.shape handle }
        ensures value { result ≡ prev_of self.now.shape handle }
        ensures live { IsLive self.now.shape result }
    {
        self.store.prev(handle)
    }

    #[inline]
    pub(crate) fn origin(&self, handle: FixedDirectedEdgeHandle) -> FixedVertexHandle
        requires { IsLive self.now.shape handle }
        ensures value { result ≡ origin_of self.now.shape handle }
        ensures live { IsTrue (vertex_is_live self.now.shape result) }
    {
        self.store.origin(handle)
    }

    // Returns the origin as stored, without checking that the half edge is live: that of a given-up
    // one may be stale.
    #[inline]
    pub(crate) fn stored_origin(&self, handle: FixedDirectedEdgeHandle) -> FixedVertexHandle
        requires { handle < 2 * self.now.shape.edges }
        ensures { IsLive self.now.shape handle → result ≡ origin_of self.now.shape handle }
    {
        self.store.origin(handle)
    }

    #[inline]
    pub(crate) fn face_of_edge(
        &self,
        handle: FixedDirectedEdgeHandle,
    ) -> FixedFaceHandle<PossiblyOuterTag>
        requires { IsLive self.now.shape handle }
        ensures value { result ≡ face_of self.now.shape handle }
        ensures live { IsTrue (face_is_live self.now.shape result) }
    {
        self.store.face(handle)
    }

    #[inline]
    pub(crate) fn is_on_triangle(&self, handle: FixedDirectedEdgeHandle) -> bool
        requires { IsLive self.now.shape handle }
        ensures { IsTrue result ↔ (length (word_of self.now.shape.words (face_of self.now.shape handle)) ≡ 3) }
    {
        // Read before what it is compared with, as in `opposite_corner`.
        let before = self.store.prev(handle);
        self.store.next(self.store.next(handle)) == before
    }

    // Returns the corner opposite the half edge, or None if its face is not a triangle. The half
    // edge before shows whether it is one, and the one after where the corner is: neither read
    // waits for the other, and an edit that follows finds both done.
    #[inline]
    pub(crate) fn opposite_corner(
        &self,
        handle: FixedDirectedEdgeHandle,
    ) -> Option<FixedVertexHandle>
        requires { IsLive self.now.shape handle }
        ensures { let shape = self.now.shape in
            let is_triangle = IsTriangle shape (face_of shape handle) in
            MatchOption result (¬ is_triangle) (λ corner. is_triangle × (corner ≡ origin_of shape (prev_of shape handle))) }
    {
        let before = self.store.prev(handle);
        // Read before what it is compared with: of two equal numbers the compiler continues with
        // the first, and an edit that follows would wait for the other to know where it writes.
        let after = self.store.next(handle);
        if self.store.prev(before) != after {
            return None;
        }
        Some(self.store.origin(after.rev()))
    }
}
