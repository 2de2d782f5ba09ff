//! For each operation with several conditions, a test of all of them but room.

ghost use Rattle.std.specs.Prelude.{◌≡◌, ◌≢◌, ◌<◌, ◌↔◌, length, true, IsTrue};
ghost use Rattle.dcel_fixed.specs.HalfEdges.{rev};
ghost use Rattle.dcel_maps.specs.Borders.{IsBorderLoop};
ghost use Rattle.dcel_maps.specs.Conditions.{IsBridge, IsLineEnd, IsTriangle, IsUnconnected};
ghost use Rattle.dcel_maps.specs.Regions.{IsRing};
ghost use Rattle.dcel_maps.specs.Removals.{Closed};
ghost use Rattle.dcel_maps.specs.Shapes.{IsLive, face_of, vertex_is_live};
ghost use Rattle.dcel_maps.specs.Strips.{IsEdgeStrip};

use crate::dcel::Dcel;
use dcel_fixed::{
    FixedDirectedEdgeHandle, FixedFaceHandle, FixedUndirectedEdgeHandle, FixedVertexHandle,
    InnerTag,
};
use std::alloc::Allocator;

/// Tests for operations that add elements: all that they ask but room. Any numbers may be given.
impl<V, DE, UE, F, A: Allocator> Dcel<V, DE, UE, F, A> {
    /// Returns whether the first edge can be added between two vertices.
    ///
    /// [`setup_initial_two_vertices`](crate::operations::setup_initial_two_vertices) asks for this
    /// and for room: there is no edge, and the vertices are different and live.
    pub fn can_setup_initial_two_vertices(
        &self,
        first_vertex: FixedVertexHandle,
        second_vertex: FixedVertexHandle,
    ) -> bool
        ensures { let shape = self.now.shape in
            IsTrue result ↔ ((shape.edges ≡ 0) × (vertex_is_live shape first_vertex ≡ true)
            × (vertex_is_live shape second_vertex ≡ true) × (first_vertex ≢ second_vertex)) }
    {
        if self.num_undirected_edges() > 0 {
            return false;
        }
        if !self.is_live_vertex(first_vertex) {
            return false;
        }
        if !self.is_live_vertex(second_vertex) {
            return false;
        }
        first_vertex != second_vertex
    }

    /// Returns whether a line can be extended at one of its ends by a vertex.
    ///
    /// [`extend_line`](crate::operations::extend_line) asks for this and for room: exactly one half
    /// edge leaves `end_vertex`, and no edge meets `new_vertex`.
    pub fn can_extend_line(
        &self,
        end_vertex: FixedVertexHandle,
        new_vertex: FixedVertexHandle,
    ) -> bool
        ensures { let shape = self.now.shape in
            IsTrue result ↔ (IsLineEnd shape end_vertex × IsUnconnected shape new_vertex) }
    {
        if !self.is_line_end(end_vertex) {
            return false;
        }
        self.is_unconnected(new_vertex)
    }

    /// Returns whether an edge with the same face on both sides can be split by a vertex.
    ///
    /// [`split_edge_when_all_vertices_on_line`] asks for this and for room: both halves of the edge
    /// are on one face, and no edge meets `new_vertex`.
    ///
    /// [`split_edge_when_all_vertices_on_line`]: crate::operations::split_edge_when_all_vertices_on_line
    pub fn can_split_edge_when_all_vertices_on_line(
        &self,
        edge: FixedDirectedEdgeHandle,
        new_vertex: FixedVertexHandle,
    ) -> bool
        ensures { let shape = self.now.shape in
            IsTrue result ↔ (IsBridge shape edge × IsUnconnected shape new_vertex) }
    {
        if !self.is_bridge(edge) {
            return false;
        }
        self.is_unconnected(new_vertex)
    }

    /// Returns whether a triangle can be added beside a half edge, with a vertex as its third
    /// corner.
    ///
    /// [`create_new_face_adjacent_to_edge`](crate::operations::create_new_face_adjacent_to_edge)
    /// asks for this and for room: `edge` is live, and no edge meets `new_vertex`.
    pub fn can_create_new_face_adjacent_to_edge(
        &self,
        edge: FixedDirectedEdgeHandle,
        new_vertex: FixedVertexHandle,
    ) -> bool
        ensures { let shape = self.now.shape in
            IsTrue result ↔ (IsLive shape edge × IsUnconnected shape new_vertex) }
    {
        if !self.is_live_edge(edge.as_undirected()) {
            return false;
        }
        self.is_unconnected(new_vertex)
    }

    /// Returns whether a vertex can be inserted into a triangle.
    ///
    /// [`insert_into_triangle`](crate::operations::insert_into_triangle) asks for this and for
    /// room: `f0` is a triangle and not the outer face, and no edge meets `v`.
    pub fn can_insert_into_triangle(
        &self,
        v: FixedVertexHandle,
        f0: FixedFaceHandle<InnerTag>,
    ) -> bool
        ensures { let shape = self.now.shape in
            IsTrue result ↔ ((0 < f0) × IsTriangle shape f0 × IsUnconnected shape v) }
    {
        if f0.index() == 0 {
            return false;
        }
        if !self.is_triangle(f0) {
            return false;
        }
        self.is_unconnected(v)
    }

    /// Returns whether an edge between two triangles can be split by a vertex.
    ///
    /// [`split_edge`](crate::operations::split_edge) asks for this and for room: the half edge is
    /// live, the faces of both halves are triangles, one of which may be the outer face, and no
    /// edge meets `new_vertex`.
    #[tactic(auto, using(dcel_fixed::proofs::Halves::halves))]
    pub fn can_split_edge(
        &self,
        edge: FixedDirectedEdgeHandle,
        new_vertex: FixedVertexHandle,
    ) -> bool
        ensures { let shape = self.now.shape in
            IsTrue result ↔ (IsLive shape edge × IsTriangle shape (face_of shape edge)
            × IsTriangle shape (face_of shape (rev edge)) × IsUnconnected shape new_vertex) }
    {
        if !self.can_split_half_edge(edge, new_vertex) {
            return false;
        }
        self.is_triangle(self.face_of_edge(edge.rev()))
    }

    /// Returns whether an edge that has a triangle on the side of `edge` can be split by a vertex.
    ///
    /// [`split_half_edge`](crate::operations::split_half_edge) asks for this and for room: the half
    /// edge is live, its face is a triangle, possibly the outer face, and no edge meets
    /// `new_vertex`.
    pub fn can_split_half_edge(
        &self,
        edge: FixedDirectedEdgeHandle,
        new_vertex: FixedVertexHandle,
    ) -> bool
        ensures { let shape = self.now.shape in
            IsTrue result ↔ (IsLive shape edge × IsTriangle shape (face_of shape edge) × IsUnconnected shape new_vertex) }
    {
        if !self.is_live_edge(edge.as_undirected()) {
            return false;
        }
        if !self.is_triangle(self.face_of_edge(edge)) {
            return false;
        }
        self.is_unconnected(new_vertex)
    }
}

/// Tests for operations that open a removal: all that they ask but room. Any numbers may be given.
impl<V, DE, UE, F, A: Allocator> Dcel<V, DE, UE, F, A> {
    /// Returns whether a vertex can be given up and the hole filled.
    ///
    /// [`isolate_vertex_and_fill_hole`](crate::operations::isolate_vertex_and_fill_hole) asks for
    /// this and for room: no removal is open, and the list is the border loop of the vertex
    /// ([`is_border_loop`](Self::is_border_loop)).
    pub fn can_isolate_vertex_and_fill_hole(
        &self,
        border_loop: &[FixedDirectedEdgeHandle],
        vertex: FixedVertexHandle,
    ) -> bool
        ensures { let shape = self.now.shape in
            IsTrue result ↔ ((shape.removal ≡ Closed) × IsBorderLoop shape border_loop.now vertex) }
    {
        if !self.removal.is_closed() {
            return false;
        }
        self.is_border_loop(border_loop, vertex)
    }

    /// Returns whether a vertex can be removed from a triangle.
    ///
    /// [`remove_from_triangle`](crate::operations::remove_from_triangle) asks for this and for room:
    /// no removal is open, and the list is the border loop of the vertex
    /// ([`is_border_loop`](Self::is_border_loop)), with three half edges.
    pub fn can_remove_from_triangle(
        &self,
        border_loop: &[FixedDirectedEdgeHandle],
        vertex: FixedVertexHandle,
    ) -> bool
        ensures { let shape = self.now.shape in
            IsTrue result ↔ ((shape.removal ≡ Closed) × IsBorderLoop shape border_loop.now vertex × (length border_loop.now ≡ 3)) }
    {
        if border_loop.len() != 3 {
            return false;
        }
        self.can_isolate_vertex_and_fill_hole(border_loop, vertex)
    }

    /// Returns whether a vertex can be removed from a square.
    ///
    /// [`remove_from_square`](crate::operations::remove_from_square) asks for this and for room:
    /// no removal is open, and the list is the border loop of the vertex
    /// ([`is_border_loop`](Self::is_border_loop)), with four half edges.
    pub fn can_remove_from_square(
        &self,
        border_loop: &[FixedDirectedEdgeHandle],
        vertex: FixedVertexHandle,
    ) -> bool
        ensures { let shape = self.now.shape in
            IsTrue result ↔ ((shape.removal ≡ Closed) × IsBorderLoop shape border_loop.now vertex × (length border_loop.now ≡ 4)) }
    {
        if border_loop.len() != 4 {
            return false;
        }
        self.can_isolate_vertex_and_fill_hole(border_loop, vertex)
    }

    /// Returns whether the elements inside a ring can be given up and the hole filled.
    ///
    /// [`remesh_edge_ring`](crate::operations::remesh_edge_ring) asks for this and for room: no
    /// removal is open, and the half edges are the ring of the edges and faces
    /// ([`is_ring`](Self::is_ring)).
    pub fn can_remesh_edge_ring(
        &self,
        border_loop: &[FixedDirectedEdgeHandle],
        edges_to_remove: &[FixedUndirectedEdgeHandle],
        faces_to_remove: &[FixedFaceHandle<InnerTag>],
    ) -> bool
        ensures { let shape = self.now.shape in
            IsTrue result ↔ ((shape.removal ≡ Closed) × IsRing shape border_loop.now edges_to_remove.now faces_to_remove.now) }
    {
        if !self.removal.is_closed() {
            return false;
        }
        self.is_ring(border_loop, edges_to_remove, faces_to_remove)
    }

    /// Returns whether a vertex of the outer face can be cut off along a strip.
    ///
    /// This is what [`disconnect_edge_strip`](crate::operations::disconnect_edge_strip) and
    /// [`cut_off_corner`](crate::operations::cut_off_corner) ask: no removal is open, and the list is
    /// a strip ([`is_edge_strip`](Self::is_edge_strip)).
    pub fn can_disconnect_edge_strip(&self, list: &[FixedDirectedEdgeHandle]) -> bool
        ensures { let shape = self.now.shape in
            IsTrue result ↔ ((shape.removal ≡ Closed) × IsEdgeStrip shape list.now) }
    {
        if !self.removal.is_closed() {
            return false;
        }
        self.is_edge_strip(list)
    }
}
