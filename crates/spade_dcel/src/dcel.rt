//! The mesh: its counts, its elements by number, and their anchors.

ghost use Rattle.std.specs.Prelude.{◌≡◌, ℕ, ◌*◌, ◌^◌, ◌<◌, ◌≤◌, ◌↔◌, IfSome, IsSome, MatchOption, true};
ghost use Rattle.std.specs.Option.{option_map};
ghost use Rattle.dcel_maps.specs.Shapes.{IsLive, edge_is_live, face_is_live, face_count, vertex_anchor, face_anchor};
ghost use Rattle.dcel_maps.specs.Walking.{Leads, edge_between};
ghost use Rattle.spade_dcel.specs.Handles.{mesh_behind, number_of};

mod borders;
mod calls;
mod conditions;
mod data;
mod degenerate;
mod elements;
mod links;
mod regions;
mod removals;
mod sanity;
mod strips;
mod swap;
mod whole;

use crate::handles::{DirectedEdgeHandle, FaceHandle, UndirectedEdgeHandle, VertexHandle};
use dcel_fixed::{
    FixedDirectedEdgeHandle, FixedFaceHandle, FixedUndirectedEdgeHandle, FixedVertexHandle,
    InnerOuterMarker, OUTER_FACE, PossiblyOuterTag,
};
use dcel_record::RemovalRecord;
pub use dcel_record::RemovalState;
use dcel_store::Store;
use std::alloc::{Allocator, Global};
use std::marker::Model;

// The size of the index space of vertices, and of that of faces.
const INDEX_SPACE: usize = 4_294_967_296;

// The size of the index space of undirected edges, each of which has two half edges.
const EDGE_SPACE: usize = 2_147_483_648;

/// A half-edge mesh (DCEL) with a datum for each vertex, half edge, undirected edge and face.
///
/// The data have the types `V`, `DE`, `UE` and `F`. Every value is a sound map on the sphere.
/// [`operations`](crate::operations) has the edits, and [`laws`](crate::laws) what is true of every
/// mesh.
#[derive(Drop)]
pub struct Dcel<V, DE = (), UE = (), F = (), A: Allocator = Global> {
    pub(crate) store: Store<V, DE, UE, F, A>,
    pub(crate) removal: RemovalRecord<A>,
}

impl<V, DE, UE, F, A: Allocator> Model for Dcel<V, DE, UE, F, A> {
    ghost use Rattle.dcel_maps.specs.Shapes.{Mesh};

    ghost Value = { Mesh V DE UE F };

    ghost use Rattle.dcel_edits.specs.Stored.{mesh_of, IsStored};

    ghost view = { λ d. mesh_of d.store d.removal };

    ghost invariant = { λ d. IsStored d.store d.removal };
}

/// The allocator.
impl<V, DE, UE, F, A: Allocator> Dcel<V, DE, UE, F, A> {
    /// Lends the allocator of the mesh, which can serve for another mesh too.
    ///
    /// Contracts see nothing of it.
    #[inline]
    pub fn allocator(&self) -> &A {
        self.store.allocator()
    }
}

/// Counts.
impl<V, DE, UE, F, A: Allocator> Dcel<V, DE, UE, F, A> {
    /// Returns the number of vertices, including those without an edge and a given-up one.
    ///
    /// The numbers of vertices are below it.
    #[inline]
    pub fn num_vertices(&self) -> usize
        ensures count { result ≡ self.now.shape.vertices }
        ensures few { result ≤ 2 ^ 32 }
    {
        self.store.num_vertices()
    }

    /// Returns the number of half edges, twice the number of undirected edges.
    ///
    /// The numbers of half edges are below it.
    #[inline]
    pub fn num_directed_edges(&self) -> usize
        ensures count { result ≡ 2 * self.now.shape.edges }
        ensures few { result ≤ 2 ^ 32 }
    {
        2 * self.num_undirected_edges()
    }

    /// Returns the number of undirected edges, including given-up ones.
    ///
    /// The numbers of undirected edges are below it.
    #[inline]
    pub fn num_undirected_edges(&self) -> usize
        ensures count { result ≡ self.now.shape.edges }
        ensures few { result ≤ 2 ^ 31 }
    {
        self.store.num_edges()
    }

    /// Returns the number of faces, including the outer face and given-up ones.
    ///
    /// The numbers of faces are below it.
    #[inline]
    pub fn num_faces(&self) -> usize
        ensures count { result ≡ face_count self.now.shape }
        ensures some { 0 < result }
        ensures few { result ≤ 2 ^ 32 }
    {
        self.store.num_faces()
    }
}

/// Elements by number.
impl<V, DE, UE, F, A: Allocator> Dcel<V, DE, UE, F, A> {
    /// Returns a handle to the vertex with this number.
    ///
    /// Asks for a number below [`num_vertices`](Self::num_vertices).
    #[inline]
    pub fn vertex(&self, handle: FixedVertexHandle) -> VertexHandle<'_, V, DE, UE, F, A>
        requires { handle < self.now.shape.vertices }
        ensures mesh { mesh_behind result ≡ self.now }
        ensures number { number_of result ≡ handle }
    {
        VertexHandle::new(self, handle)
    }

    /// Returns a handle to the vertex with this number, or None if there is no such vertex.
    ///
    /// A given-up vertex has a handle too.
    #[inline]
    pub fn get_vertex(&self, handle: FixedVertexHandle) -> Option<VertexHandle<'_, V, DE, UE, F, A>>
        ensures some { IsSome result ↔ (handle < self.now.shape.vertices) }
        ensures mesh { IfSome result (λ vertex. mesh_behind vertex ≡ self.now) }
        ensures number { IfSome result (λ vertex. number_of vertex ≡ handle) }
    {
        if handle.index() >= self.num_vertices() {
            return None;
        }
        Some(self.vertex(handle))
    }

    /// Returns a handle to the half edge with this number, or None if no live half edge has it.
    ///
    /// It is live if its number is in range and no open removal has given up its edge. Any number
    /// may be given.
    #[inline]
    pub fn get_directed_edge(
        &self,
        handle: FixedDirectedEdgeHandle,
    ) -> Option<DirectedEdgeHandle<'_, V, DE, UE, F, A>>
        ensures some { IsSome result ↔ IsLive self.now.shape handle }
        ensures mesh { IfSome result (λ edge. mesh_behind edge ≡ self.now) }
        ensures number { IfSome result (λ edge. number_of edge ≡ handle) }
        ensures live { IfSome result (λ edge. IsLive (mesh_behind edge).shape (number_of edge)) }
    {
        if !self.is_live_edge(handle.as_undirected()) {
            return None;
        }
        Some(self.directed_edge(handle))
    }

    /// Returns a handle to the undirected edge with this number, or None if no live edge has it.
    ///
    /// It is live if its number is in range and no open removal has given it up. Any number may be
    /// given.
    #[inline]
    pub fn get_undirected_edge(
        &self,
        handle: FixedUndirectedEdgeHandle,
    ) -> Option<UndirectedEdgeHandle<'_, V, DE, UE, F, A>>
        ensures some { IsSome result ↔ (edge_is_live self.now.shape handle ≡ true) }
        ensures mesh { IfSome result (λ edge. mesh_behind edge ≡ self.now) }
        ensures number { IfSome result (λ edge. number_of edge ≡ handle) }
        ensures live { IfSome result (λ edge. edge_is_live (mesh_behind edge).shape (number_of edge) ≡ true) }
    {
        if !self.is_live_edge(handle) {
            return None;
        }
        Some(self.undirected_edge(handle))
    }

    /// Returns a handle to the face with this number, or None if no live face has it.
    ///
    /// It is live if its number is in range and no open removal has given it up; the outer face is
    /// always live. Any number may be given.
    #[inline]
    pub fn get_face<InnerOuter: InnerOuterMarker>(
        &self,
        handle: FixedFaceHandle<InnerOuter>,
    ) -> Option<FaceHandle<'_, InnerOuter, V, DE, UE, F, A>>
        ensures some { IsSome result ↔ (face_is_live self.now.shape handle ≡ true) }
        ensures mesh { IfSome result (λ face. mesh_behind face ≡ self.now) }
        ensures number { IfSome result (λ face. number_of face ≡ handle) }
        ensures live { IfSome result (λ face. face_is_live (mesh_behind face).shape (number_of face) ≡ true) }
    {
        if !self.is_live_face(handle) {
            return None;
        }
        Some(self.face(handle))
    }

    /// Returns a handle to the half edge with this number.
    ///
    /// Asks for a number below [`num_directed_edges`](Self::num_directed_edges).
    #[inline]
    pub fn directed_edge(
        &self,
        handle: FixedDirectedEdgeHandle,
    ) -> DirectedEdgeHandle<'_, V, DE, UE, F, A>
        requires { handle < 2 * self.now.shape.edges }
        ensures mesh { mesh_behind result ≡ self.now }
        ensures number { number_of result ≡ handle }
    {
        DirectedEdgeHandle::new(self, handle)
    }

    /// Returns a handle to the undirected edge with this number.
    ///
    /// Asks for a number below [`num_undirected_edges`](Self::num_undirected_edges).
    #[inline]
    pub fn undirected_edge(
        &self,
        handle: FixedUndirectedEdgeHandle,
    ) -> UndirectedEdgeHandle<'_, V, DE, UE, F, A>
        requires { handle < self.now.shape.edges }
        ensures mesh { mesh_behind result ≡ self.now }
        ensures number { number_of result ≡ handle }
    {
        UndirectedEdgeHandle::new(self, handle)
    }

    /// Returns a handle to the face with this number.
    ///
    /// Asks for a number below [`num_faces`](Self::num_faces).
    #[inline]
    pub fn face<InnerOuter: InnerOuterMarker>(
        &self,
        handle: FixedFaceHandle<InnerOuter>,
    ) -> FaceHandle<'_, InnerOuter, V, DE, UE, F, A>
        requires { handle < face_count self.now.shape }
        ensures mesh { mesh_behind result ≡ self.now }
        ensures number { number_of result ≡ handle }
    {
        FaceHandle::new(self, handle)
    }

    /// Returns a handle to the outer face, face 0, which every mesh has.
    #[inline]
    pub fn outer_face(&self) -> FaceHandle<'_, PossiblyOuterTag, V, DE, UE, F, A>
        ensures mesh { mesh_behind result ≡ self.now }
        ensures number { number_of result ≡ 0 }
    {
        prove!(self.num_faces() > 0);
        self.face(OUTER_FACE)
    }

    /// Returns the anchor of a vertex, or None if it has none.
    ///
    /// The anchor is a live half edge that starts at the vertex. A vertex has one unless no live
    /// half edge starts there. Asks for a number below [`num_vertices`](Self::num_vertices).
    #[inline]
    pub fn vertex_out_edge(&self, handle: FixedVertexHandle) -> Option<FixedDirectedEdgeHandle>
        requires { handle < self.now.shape.vertices }
        ensures { result ≡ vertex_anchor self.now handle }
    {
        self.store.vertex_anchor(handle)
    }

    /// Returns the anchor of a face, or None if it has none.
    ///
    /// The anchor is a half edge of the face's boundary cycle. A face has one unless that is empty.
    /// Asks for a number below [`num_faces`](Self::num_faces).
    #[inline]
    pub fn face_adjacent_edge<InnerOuter: InnerOuterMarker>(
        &self,
        handle: FixedFaceHandle<InnerOuter>,
    ) -> Option<FixedDirectedEdgeHandle>
        requires { handle < face_count self.now.shape }
        ensures { result ≡ face_anchor self.now handle }
    {
        self.store.face_anchor(handle.adjust_inner_outer())
    }

    /// Returns the first half edge that leads from one vertex to another, or None if there is none.
    ///
    /// The first is the one that [`out_edges`](VertexHandle::out_edges) of `from` lists first; if
    /// there are several, the anchor of `from` determines which one that is. Any number may be
    /// given for `to`.
    ///
    /// Asks for a number `from` below [`num_vertices`](Self::num_vertices).
    pub fn get_edge_from_neighbors(
        &self,
        from: FixedVertexHandle,
        to: FixedVertexHandle,
    ) -> Option<DirectedEdgeHandle<'_, V, DE, UE, F, A>>
        requires { from < self.now.shape.vertices }
        ensures first { option_map (λ edge. number_of edge) result ≡ edge_between self.now from to }
        ensures mesh { IfSome result (λ edge. mesh_behind edge ≡ self.now) }
        ensures joined { let shape = self.now.shape in
            MatchOption result ((h : ℕ) → ¬ Leads shape from to h) (λ edge. Leads shape from to (number_of edge)) }
    {
        // From both ends: the reads of the two walks do not wait for each other.
        let mut edges = self.vertex(from).out_edges();
        let mut found = None;
        while let Some(edge) = edges.next() {
            if edge.to().fix() == to {
                return Some(edge);
            }
            if let Some(edge) = edges.next_back() {
                if edge.to().fix() == to {
                    found = Some(edge);
                }
            }
        }
        found
    }
}
