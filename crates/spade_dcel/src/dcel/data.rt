//! The data of a mesh: read, lent for writing, and replaced. Elements that an open removal has
//! given up keep theirs.

ghost use Rattle.std.specs.Prelude.{◌≡◌, ◌*◌, ◌<◌, slice_get};
ghost use Rattle.std.specs.Borrow.{sem};
ghost use Rattle.dcel_maps.specs.edits.Data.{vertex_updated};
ghost use Rattle.dcel_maps.specs.Shapes.{IsMesh, face_count};
ghost use Rattle.spade_dcel.specs.Lending.{LendsVertexDatum, LendsDirectedEdgeDatum, LendsUndirectedEdgeDatum, LendsFaceDatum};

use crate::dcel::Dcel;
use crate::laws::every_mesh;
use dcel_fixed::{
    FixedDirectedEdgeHandle, FixedFaceHandle, FixedUndirectedEdgeHandle, FixedVertexHandle,
    InnerOuterMarker,
};
use std::alloc::Allocator;

/// Reading data.
impl<V, DE, UE, F, A: Allocator> Dcel<V, DE, UE, F, A> {
    /// Lends the datum of a vertex.
    ///
    /// Asks for a number below [`num_vertices`](Self::num_vertices).
    #[inline]
    pub fn vertex_data(&self, handle: FixedVertexHandle) -> &V
        requires { handle < self.now.shape.vertices }
        ensures { slice_get self.now.vertex_data handle ≡ Some result.now }
    {
        self.store.vertex_data(handle)
    }

    /// Lends the datum of a half edge. The other half has a datum of its own.
    ///
    /// Asks for a number below [`num_directed_edges`](Self::num_directed_edges).
    #[inline]
    pub fn directed_edge_data(&self, handle: FixedDirectedEdgeHandle) -> &DE
        requires { handle < 2 * self.now.shape.edges }
        ensures { slice_get self.now.directed_data handle ≡ Some result.now }
    {
        self.store.directed_data(handle)
    }

    /// Lends the datum of an undirected edge.
    ///
    /// Asks for a number below [`num_undirected_edges`](Self::num_undirected_edges).
    #[inline]
    pub fn undirected_edge_data(&self, handle: FixedUndirectedEdgeHandle) -> &UE
        requires { handle < self.now.shape.edges }
        ensures { slice_get self.now.undirected_data handle ≡ Some result.now }
    {
        self.store.undirected_data(handle)
    }

    /// Lends the datum of a face.
    ///
    /// Asks for a number below [`num_faces`](Self::num_faces).
    #[inline]
    pub fn face_data<InnerOuter: InnerOuterMarker>(&self, handle: FixedFaceHandle<InnerOuter>) -> &F
        requires { handle < face_count self.now.shape }
        ensures { slice_get self.now.face_data handle ≡ Some result.now }
    {
        self.store.face_data(handle.adjust_inner_outer())
    }
}

/// Writing data. Each call changes one datum and nothing else of the mesh, and allocates nothing.
impl<V, DE, UE, F, A: Allocator> Dcel<V, DE, UE, F, A> {
    /// Lends the datum of a vertex for writing.
    ///
    /// Asks for a number below [`num_vertices`](Self::num_vertices).
    #[inline]
    pub fn vertex_data_mut(&mut self, handle: FixedVertexHandle) -> &mut V
        requires { handle < self.old.shape.vertices }
        ensures* writes_back { sem 𝓛 (LendsVertexDatum V.row DE.row UE.row F.row A.row A.Allocator self.entry handle result) }
        ensures value { slice_get self.old.vertex_data handle ≡ Some result.now }
    {
        self.store.vertex_data_mut(handle)
    }

    /// Lends the datum of a half edge for writing.
    ///
    /// Asks for a number below [`num_directed_edges`](Self::num_directed_edges).
    #[inline]
    pub fn directed_edge_data_mut(&mut self, handle: FixedDirectedEdgeHandle) -> &mut DE
        requires { handle < 2 * self.old.shape.edges }
        ensures* writes_back { sem 𝓛 (LendsDirectedEdgeDatum V.row DE.row UE.row F.row A.row A.Allocator self.entry handle result) }
        ensures value { slice_get self.old.directed_data handle ≡ Some result.now }
    {
        self.store.directed_data_mut(handle)
    }

    /// Lends the datum of an undirected edge for writing.
    ///
    /// Asks for a number below [`num_undirected_edges`](Self::num_undirected_edges).
    #[inline]
    pub fn undirected_edge_data_mut(&mut self, handle: FixedUndirectedEdgeHandle) -> &mut UE
        requires { handle < self.old.shape.edges }
        ensures* writes_back { sem 𝓛 (LendsUndirectedEdgeDatum V.row DE.row UE.row F.row A.row A.Allocator self.entry handle result) }
        ensures value { slice_get self.old.undirected_data handle ≡ Some result.now }
    {
        self.store.undirected_data_mut(handle)
    }

    /// Lends the datum of a face for writing.
    ///
    /// Asks for a number below [`num_faces`](Self::num_faces).
    #[inline]
    pub fn face_data_mut<InnerOuter: InnerOuterMarker>(
        &mut self,
        handle: FixedFaceHandle<InnerOuter>,
    ) -> &mut F
        requires { handle < face_count self.old.shape }
        ensures* writes_back { sem 𝓛 (LendsFaceDatum V.row DE.row UE.row F.row A.row A.Allocator self.entry handle result) }
        ensures value { slice_get self.old.face_data handle ≡ Some result.now }
    {
        self.store.face_data_mut(handle.adjust_inner_outer())
    }

    /// Replaces the datum of a vertex, and drops the old one.
    ///
    /// Asks for a number below [`num_vertices`](Self::num_vertices).
    #[inline]
    pub fn update_vertex(&mut self, handle: FixedVertexHandle, datum: V)
    where
        V: Drop,
        requires { handle < self.old.shape.vertices }
        ensures edit { self.new ≡ vertex_updated self.old handle datum }
        ensures mesh { IsMesh self.new }
    {
        *self.vertex_data_mut(handle) = datum;
        every_mesh(self);
    }
}
