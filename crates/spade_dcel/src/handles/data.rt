//! The data of borrowed elements, lent for as long as the mesh is borrowed.

ghost use Rattle.std.specs.Prelude.{◌≡◌, slice_get};
ghost use Rattle.spade_dcel.specs.Handles.{mesh_behind, number_of};

use crate::handles::definitions::{
    DirectedEdgeHandle, FaceHandle, UndirectedEdgeHandle, VertexHandle,
};
use dcel_fixed::InnerOuterMarker;
use std::alloc::Allocator;

impl<'a, V, DE, UE, F, A: Allocator> VertexHandle<'a, V, DE, UE, F, A> {
    /// Returns the datum of the vertex.
    #[inline]
    pub fn data(&self) -> &'a V
        ensures { slice_get (mesh_behind self.now).vertex_data (number_of self.now) ≡ Some result.now }
    {
        self.dcel.vertex_data(self.fix())
    }
}

impl<'a, V, DE, UE, F, A: Allocator> DirectedEdgeHandle<'a, V, DE, UE, F, A> {
    /// Returns the datum of the half edge. The other half has its own.
    #[inline]
    pub fn data(&self) -> &'a DE
        ensures { slice_get (mesh_behind self.now).directed_data (number_of self.now) ≡ Some result.now }
    {
        self.dcel.directed_edge_data(self.fix())
    }
}

impl<'a, V, DE, UE, F, A: Allocator> UndirectedEdgeHandle<'a, V, DE, UE, F, A> {
    /// Returns the datum of the edge. Its two halves have their own.
    #[inline]
    pub fn data(&self) -> &'a UE
        ensures { slice_get (mesh_behind self.now).undirected_data (number_of self.now) ≡ Some result.now }
    {
        self.dcel.undirected_edge_data(self.fix())
    }
}

impl<'a, InnerOuter: InnerOuterMarker, V, DE, UE, F, A: Allocator> FaceHandle<
    'a,
    InnerOuter,
    V,
    DE,
    UE,
    F,
    A,
> {
    /// Returns the datum of the face.
    #[inline]
    pub fn data(&self) -> &'a F
        ensures { slice_get (mesh_behind self.now).face_data (number_of self.now) ≡ Some result.now }
    {
        self.dcel.face_data(self.fix())
    }
}
