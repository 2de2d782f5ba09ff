//! One test for each condition that operations ask for.

ghost use Rattle.std.specs.Prelude.{◌≡◌, ◌↔◌, IsTrue};
ghost use Rattle.dcel_maps.specs.Conditions.{HasRoom, IsUnconnected, IsLineEnd, IsTriangle, IsBridge, CanCloseOutside, CanFlip};
ghost use Rattle.dcel_maps.specs.Shapes.{vertex_is_live, edge_is_live, face_is_live};

use crate::dcel::{Dcel, EDGE_SPACE, INDEX_SPACE};
use crate::operations::Room;
use dcel_fixed::{
    FixedDirectedEdgeHandle, FixedFaceHandle, FixedUndirectedEdgeHandle, FixedVertexHandle,
    InnerOuterMarker,
};
use std::alloc::Allocator;

/// Tests of what operations ask. Any numbers may be given.
impl<V, DE, UE, F, A: Allocator> Dcel<V, DE, UE, F, A> {
    /// Returns whether there are numbers left for this many more elements.
    ///
    /// Vertices and faces have numbers below 2^32, undirected edges below 2^31. Memory is not
    /// considered.
    pub fn has_room(&self, vertices: usize, undirected_edges: usize, faces: usize) -> bool
        ensures { IsTrue result ↔ HasRoom self.now.shape vertices undirected_edges faces }
    {
        vertices <= INDEX_SPACE - self.num_vertices()
            && undirected_edges <= EDGE_SPACE - self.num_undirected_edges()
            && faces <= INDEX_SPACE - self.num_faces()
    }

    /// Returns whether there are numbers left for what a call adds, as [`has_room`](Self::has_room)
    /// does.
    ///
    /// [`Room`] has a constant for each call that adds elements.
    pub fn has_room_for(&self, room: Room) -> bool
        ensures { IsTrue result ↔ HasRoom self.now.shape room.vertices room.undirected_edges room.faces }
    {
        self.has_room(room.vertices, room.undirected_edges, room.faces)
    }

    /// Returns whether the vertex is live.
    ///
    /// It is live if its number is in range and no open removal has given it up.
    pub fn is_live_vertex(&self, handle: FixedVertexHandle) -> bool
        ensures { result ≡ vertex_is_live self.now.shape handle }
    {
        handle.index() < self.num_vertices() && !self.removal.gives_up_vertex(handle)
    }

    /// Returns whether the edge is live.
    ///
    /// It is live if its number is in range and no open removal has given it up. A half edge is
    /// live if its edge is.
    pub fn is_live_edge(&self, handle: FixedUndirectedEdgeHandle) -> bool
        ensures { result ≡ edge_is_live self.now.shape handle }
    {
        handle.index() < self.num_undirected_edges() && !self.removal.gives_up_edge(handle)
    }

    /// Returns whether the face is live.
    ///
    /// It is live if its number is in range and no open removal has given it up.
    pub fn is_live_face<InnerOuter: InnerOuterMarker>(
        &self,
        handle: FixedFaceHandle<InnerOuter>,
    ) -> bool
        ensures { result ≡ face_is_live self.now.shape handle }
    {
        handle.index() < self.num_faces()
            && !self.removal.gives_up_face(handle.adjust_inner_outer())
    }

    /// Returns whether the vertex is live and no live half edge starts there.
    pub fn is_unconnected(&self, handle: FixedVertexHandle) -> bool
        ensures { IsTrue result ↔ IsUnconnected self.now.shape handle }
    {
        self.is_live_vertex(handle) && self.store.vertex_anchor(handle).is_none()
    }

    /// Returns whether the vertex is live and exactly one half edge starts there.
    pub fn is_line_end(&self, handle: FixedVertexHandle) -> bool
        ensures { IsTrue result ↔ IsLineEnd self.now.shape handle }
    {
        if !self.is_live_vertex(handle) {
            return false;
        }
        match self.store.vertex_anchor(handle) {
            Some(out_edge) => self.store.prev(out_edge).rev() == out_edge,
            None => false,
        }
    }

    /// Returns whether the face is live and has three half edges.
    pub fn is_triangle<InnerOuter: InnerOuterMarker>(
        &self,
        handle: FixedFaceHandle<InnerOuter>,
    ) -> bool
        ensures { IsTrue result ↔ IsTriangle self.now.shape handle }
    {
        if !self.is_live_face(handle) {
            return false;
        }
        match self.store.face_anchor(handle.adjust_inner_outer()) {
            Some(edge) => self.is_on_triangle(edge),
            None => false,
        }
    }

    /// Returns whether the half edge is live and the same face is on both sides of its edge.
    #[tactic(auto, using(dcel_fixed::proofs::Halves::halves))]
    pub fn is_bridge(&self, handle: FixedDirectedEdgeHandle) -> bool
        ensures { IsTrue result ↔ IsBridge self.now.shape handle }
    {
        self.is_live_edge(handle.as_undirected())
            && self.face_of_edge(handle) == self.face_of_edge(handle.rev())
    }

    /// Returns whether a triangle can be closed between the half edge and the next one.
    ///
    /// [`create_single_face_between_edge_and_next`] asks for this and for room: the half edge is
    /// live and on the outer face, and the next one does not end where it starts. So the new edge
    /// joins two different vertices.
    ///
    /// [`create_single_face_between_edge_and_next`]: crate::operations::create_single_face_between_edge_and_next
    #[tactic(auto, using(dcel_fixed::proofs::Halves::halves))]
    pub fn can_close_outside(&self, handle: FixedDirectedEdgeHandle) -> bool
        ensures { IsTrue result ↔ CanCloseOutside self.now.shape handle }
    {
        self.is_live_edge(handle.as_undirected())
            && self.face_of_edge(handle).is_outer()
            && self.origin(self.next_edge(handle).rev()) != self.origin(handle)
    }

    /// Returns whether the edge can be flipped. That includes edges of the border, and flips that
    /// add a second edge between two vertices.
    ///
    /// To exclude both, test with `can_flip_simple` of the crate `dcel_convenience` instead. Or ask
    /// `is_part_of_convex_hull` of the edge's handle whether it is on the border, and
    /// [`get_edge_from_neighbors`](Self::get_edge_from_neighbors) whether an edge joins the
    /// opposite corners already.
    ///
    /// This is what [`flip_cw`](crate::operations::flip_cw) asks: the edge is live, it is between
    /// two triangles, one of which may be the outer face, and the corners opposite it are two
    /// different vertices.
    // Out of line: a loop that tests edges and flips them runs faster so.
    #[inline(never)]
    pub fn can_flip(&self, handle: FixedUndirectedEdgeHandle) -> bool
        ensures { IsTrue result ↔ CanFlip self.now.shape handle }
    {
        if !self.is_live_edge(handle) {
            return false;
        }
        prove!(self.num_undirected_edges() <= EDGE_SPACE);
        let edge = handle.as_directed();
        let Some(near) = self.opposite_corner(edge) else {
            return false;
        };
        let Some(far) = self.opposite_corner(edge.rev()) else {
            return false;
        };
        near != far
    }
}
