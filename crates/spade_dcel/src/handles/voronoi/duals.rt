//! From an element to its dual, and back.

ghost use Rattle.std.specs.Prelude.{◌≡◌, ◌<◌};
ghost use Rattle.spade_dcel.specs.Handles.{mesh_behind, number_of};
ghost use Rattle.dcel_maps.specs.Kinds.{number_of_elements};

use crate::handles::definitions::{
    DirectedEdgeHandle, DynamicHandleImpl, UndirectedEdgeHandle, VertexHandle,
};
use crate::handles::kinds::DelaunayElementType;
use crate::handles::voronoi::{DirectedVoronoiEdge, UndirectedVoronoiEdge, VoronoiFace};
use dcel_fixed::{FixedHandleImpl, InnerOuterMarker};
use std::alloc::Allocator;

impl<'a, V, DE, UE, F, Kind, InnerOuter, A> DynamicHandleImpl<'a, V, DE, UE, F, Kind, InnerOuter, A>
where
    Kind: DelaunayElementType,
    InnerOuter: InnerOuterMarker,
    A: Allocator,
{
    // Duals share a number, so all six conversions are this one.
    #[inline]
    fn of_kind<OtherKind: DelaunayElementType, OtherInnerOuter: InnerOuterMarker>(
        &self,
    ) -> DynamicHandleImpl<'a, V, DE, UE, F, OtherKind, OtherInnerOuter, A>
        requires { number_of self.now < number_of_elements OtherKind.kind (mesh_behind self.now).shape }
        ensures mesh { mesh_behind result ≡ mesh_behind self.now }
        ensures number { number_of result ≡ number_of self.now }
    {
        DynamicHandleImpl::new(self.dcel, FixedHandleImpl::new(self.index()))
    }
}

impl<'a, V, DE, UE, F, A: Allocator> DirectedEdgeHandle<'a, V, DE, UE, F, A> {
    /// Returns the Voronoi edge that is dual to it, with the same number.
    #[inline]
    pub fn as_voronoi_edge(&self) -> DirectedVoronoiEdge<'a, V, DE, UE, F, A>
        ensures mesh { mesh_behind result ≡ mesh_behind self.now }
        ensures number { number_of result ≡ number_of self.now }
    {
        self.of_kind()
    }
}

impl<'a, V, DE, UE, F, A: Allocator> UndirectedEdgeHandle<'a, V, DE, UE, F, A> {
    /// Returns the Voronoi edge that is dual to it, with the same number.
    #[inline]
    pub fn as_voronoi_edge(&self) -> UndirectedVoronoiEdge<'a, V, DE, UE, F, A>
        ensures mesh { mesh_behind result ≡ mesh_behind self.now }
        ensures number { number_of result ≡ number_of self.now }
    {
        self.of_kind()
    }
}

impl<'a, V, DE, UE, F, A: Allocator> VertexHandle<'a, V, DE, UE, F, A> {
    /// Returns the Voronoi face that is dual to it, with the same number.
    #[inline]
    pub fn as_voronoi_face(&self) -> VoronoiFace<'a, V, DE, UE, F, A>
        ensures mesh { mesh_behind result ≡ mesh_behind self.now }
        ensures number { number_of result ≡ number_of self.now }
    {
        self.of_kind()
    }
}

impl<'a, V, DE, UE, F, A: Allocator> DirectedVoronoiEdge<'a, V, DE, UE, F, A> {
    /// Returns the half edge that it is dual to, with the same number.
    #[inline]
    pub fn as_delaunay_edge(&self) -> DirectedEdgeHandle<'a, V, DE, UE, F, A>
        ensures mesh { mesh_behind result ≡ mesh_behind self.now }
        ensures number { number_of result ≡ number_of self.now }
    {
        self.of_kind()
    }
}

impl<'a, V, DE, UE, F, A: Allocator> UndirectedVoronoiEdge<'a, V, DE, UE, F, A> {
    /// Returns the undirected edge that it is dual to, with the same number.
    #[inline]
    pub fn as_delaunay_edge(&self) -> UndirectedEdgeHandle<'a, V, DE, UE, F, A>
        ensures mesh { mesh_behind result ≡ mesh_behind self.now }
        ensures number { number_of result ≡ number_of self.now }
    {
        self.of_kind()
    }
}

impl<'a, V, DE, UE, F, A: Allocator> VoronoiFace<'a, V, DE, UE, F, A> {
    /// Returns the vertex that it is dual to, with the same number.
    #[inline]
    pub fn as_delaunay_vertex(&self) -> VertexHandle<'a, V, DE, UE, F, A>
        ensures mesh { mesh_behind result ≡ mesh_behind self.now }
        ensures number { number_of result ≡ number_of self.now }
    {
        self.of_kind()
    }
}
