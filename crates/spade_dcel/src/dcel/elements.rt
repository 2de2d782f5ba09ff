//! Iterators over all elements of a kind.

ghost use Rattle.std.specs.Prelude.{◌≡◌, ◌+◌, ◌*◌, ◌≤◌, ◌^◌, length};
ghost use Rattle.dcel_maps.specs.Numbers.{numbers_between};
ghost use Rattle.dcel_maps.specs.Kinds.{DirectedEdges, Faces, UndirectedEdges, Vertices};
ghost use Rattle.dcel_maps.specs.Shapes.{face_count};
ghost use Rattle.dcel_maps.specs.Walking.{in_mesh};
ghost use Rattle.spade_dcel.specs.Live.{live_ones};

use crate::dcel::Dcel;
use crate::iterators::{
    DirectedEdgeIterator, FaceIterator, FixedFaceIterator, FixedVertexIterator, InnerFaceIterator,
    LiveDirectedEdgeIterator, LiveFaceIterator, LiveInnerFaceIterator, LiveUndirectedEdgeIterator,
    LiveVertexIterator, UndirectedEdgeIterator, VertexIterator,
};
use std::alloc::Allocator;

/// All elements of a kind, in the order of their numbers.
///
/// The iterators are double-ended and include given-up elements.
impl<V, DE, UE, F, A: Allocator> Dcel<V, DE, UE, F, A> {
    /// Returns the vertices, as handles.
    #[inline]
    pub fn vertices(&self) -> VertexIterator<'_, V, DE, UE, F, A>
        ensures items { result ≡ in_mesh self.now (numbers_between 0 self.now.shape.vertices) }
        ensures count { length result ≡ self.now.shape.vertices }
        ensures few { length result ≤ 2 ^ 32 }
    {
        VertexIterator::new(self)
    }

    /// Returns the numbers of the vertices.
    #[inline]
    pub fn fixed_vertices(&self) -> FixedVertexIterator
        ensures items { result ≡ numbers_between 0 self.now.shape.vertices }
        ensures count { length result ≡ self.now.shape.vertices }
        ensures few { length result ≤ 2 ^ 32 }
    {
        FixedVertexIterator::new(self.num_vertices())
    }

    /// Returns the half edges, as handles.
    #[inline]
    pub fn directed_edges(&self) -> DirectedEdgeIterator<'_, V, DE, UE, F, A>
        ensures items { result ≡ in_mesh self.now (numbers_between 0 (2 * self.now.shape.edges)) }
        ensures count { length result ≡ 2 * self.now.shape.edges }
        ensures few { length result ≤ 2 ^ 32 }
    {
        DirectedEdgeIterator::new(self)
    }

    /// Returns the undirected edges, as handles.
    #[inline]
    pub fn undirected_edges(&self) -> UndirectedEdgeIterator<'_, V, DE, UE, F, A>
        ensures items { result ≡ in_mesh self.now (numbers_between 0 self.now.shape.edges) }
        ensures count { length result ≡ self.now.shape.edges }
        ensures few { length result ≤ 2 ^ 32 }
    {
        UndirectedEdgeIterator::new(self)
    }

    /// Returns the faces, as handles, the outer one first.
    #[inline]
    pub fn faces(&self) -> FaceIterator<'_, V, DE, UE, F, A>
        ensures items { result ≡ in_mesh self.now (numbers_between 0 (face_count self.now.shape)) }
        ensures count { length result ≡ face_count self.now.shape }
        ensures few { length result ≤ 2 ^ 32 }
    {
        FaceIterator::new(self)
    }

    /// Returns the inner faces, as handles: all but the outer one.
    #[inline]
    pub fn inner_faces(&self) -> InnerFaceIterator<'_, V, DE, UE, F, A>
        ensures items { result ≡ in_mesh self.now (numbers_between 1 (face_count self.now.shape)) }
        ensures count { length result + 1 ≡ face_count self.now.shape }
        ensures few { length result ≤ 2 ^ 32 }
    {
        prove!(self.num_faces() > 0);
        let mut faces = InnerFaceIterator::new(self);
        let _outer = faces.next();
        faces
    }

    /// Returns the numbers of the faces, the outer one first.
    #[inline]
    pub fn fixed_faces(&self) -> FixedFaceIterator
        ensures items { result ≡ numbers_between 0 (face_count self.now.shape) }
        ensures count { length result ≡ face_count self.now.shape }
        ensures few { length result ≤ 2 ^ 32 }
    {
        FixedFaceIterator::new(self.num_faces())
    }
}

/// The live elements of a kind, in the order of their numbers.
///
/// If no removal is open, these are all elements. The iterators are double-ended and skip given-up
/// elements, so a loop needn't test that its items are live.
impl<V, DE, UE, F, A: Allocator> Dcel<V, DE, UE, F, A> {
    /// Returns the live vertices, as handles.
    #[inline]
    pub fn live_vertices(&self) -> LiveVertexIterator<'_, V, DE, UE, F, A>
        ensures items { result ≡ live_ones Vertices (in_mesh self.now (numbers_between 0 self.now.shape.vertices)) }
    {
        LiveVertexIterator::new(self)
    }

    /// Returns the live half edges, as handles.
    #[inline]
    pub fn live_directed_edges(&self) -> LiveDirectedEdgeIterator<'_, V, DE, UE, F, A>
        ensures items { result ≡ live_ones DirectedEdges (in_mesh self.now (numbers_between 0 (2 * self.now.shape.edges))) }
    {
        LiveDirectedEdgeIterator::new(self)
    }

    /// Returns the live undirected edges, as handles.
    #[inline]
    pub fn live_undirected_edges(&self) -> LiveUndirectedEdgeIterator<'_, V, DE, UE, F, A>
        ensures items { result ≡ live_ones UndirectedEdges (in_mesh self.now (numbers_between 0 self.now.shape.edges)) }
    {
        LiveUndirectedEdgeIterator::new(self)
    }

    /// Returns the live faces, as handles, the outer one first.
    #[inline]
    pub fn live_faces(&self) -> LiveFaceIterator<'_, V, DE, UE, F, A>
        ensures items { result ≡ live_ones Faces (in_mesh self.now (numbers_between 0 (face_count self.now.shape))) }
    {
        LiveFaceIterator::new(self)
    }

    /// Returns the live inner faces, as handles: all but the outer one.
    #[inline]
    pub fn live_inner_faces(&self) -> LiveInnerFaceIterator<'_, V, DE, UE, F, A>
        ensures items { result ≡ live_ones Faces (in_mesh self.now (numbers_between 1 (face_count self.now.shape))) }
    {
        LiveInnerFaceIterator::new(self)
    }
}
