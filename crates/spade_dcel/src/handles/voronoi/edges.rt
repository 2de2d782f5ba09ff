//! Edges of the Voronoi diagram: their ends, their neighbors and their face.

ghost use Rattle.std.specs.Prelude.{◌≡◌, ℕ, ◌*◌, ◌/◌, true, [], ◌∷◌, All, map};
ghost use Rattle.dcel_fixed.specs.HalfEdges.{rev};
ghost use Rattle.spade_dcel.specs.Handles.{mesh_behind, number_of};
ghost use Rattle.spade_dcel.specs.Voronoi.{dual_vertex, mesh_around};
ghost use Rattle.dcel_maps.specs.Shapes.{IsLive, edge_is_live, origin_of};
ghost use Rattle.dcel_maps.specs.Voronoi.{IsLiveDual, OfFace, dual_end, dual_start};
ghost use Rattle.dcel_maps.specs.Walking.{ccw_of, cw_of};

use crate::handles::voronoi::{
    DirectedVoronoiEdge, UndirectedVoronoiEdge, VoronoiFace, VoronoiVertex,
};
use crate::laws::every_mesh;
use std::alloc::Allocator;

impl<'a, V, DE, UE, F, A: Allocator> DirectedVoronoiEdge<'a, V, DE, UE, F, A> {
    /// Returns the vertex where it starts.
    ///
    /// That is the dual of its half edge's face. On the outer face each edge has a vertex of its
    /// own.
    ///
    /// Asks for a live edge ([`is_live_edge`](crate::dcel::Dcel::is_live_edge)).
    #[inline]
    pub fn from(&self) -> VoronoiVertex<'a, V, DE, UE, F, A>
        requires { IsLive (mesh_behind self.now).shape (number_of self.now) }
        ensures mesh { mesh_around result ≡ mesh_behind self.now }
        ensures vertex { dual_vertex result ≡ dual_start (mesh_behind self.now).shape (number_of self.now) }
        ensures live { IsLiveDual (mesh_behind self.now).shape (dual_vertex result) }
    {
        match self.as_delaunay_edge().face().as_inner() {
            Some(face) => VoronoiVertex::Inner(face),
            None => VoronoiVertex::Outer(*self),
        }
    }

    /// Returns the vertex where it ends, which is where its other half starts.
    ///
    /// Asks for a live edge ([`is_live_edge`](crate::dcel::Dcel::is_live_edge)).
    #[inline]
    pub fn to(&self) -> VoronoiVertex<'a, V, DE, UE, F, A>
        requires { IsLive (mesh_behind self.now).shape (number_of self.now) }
        ensures mesh { mesh_around result ≡ mesh_behind self.now }
        ensures vertex { dual_vertex result ≡ dual_end (mesh_behind self.now).shape (number_of self.now) }
        ensures live { IsLiveDual (mesh_behind self.now).shape (dual_vertex result) }
    {
        self.rev().from()
    }

    /// Returns the edge in the other direction.
    #[inline]
    pub fn rev(&self) -> Self
        ensures mesh { mesh_behind result ≡ mesh_behind self.now }
        ensures number { number_of result ≡ rev (number_of self.now) }
        ensures live { IsLive (mesh_behind self.now).shape (number_of self.now) → IsLive (mesh_behind result).shape (number_of result) }
    {
        self.as_delaunay_edge().rev().as_voronoi_edge()
    }

    /// Returns the next edge around its face.
    ///
    /// It is the dual of [`ccw`](crate::handles::DirectedEdgeHandle::ccw) of its half edge. It ends
    /// where this edge starts, if that is the dual of an inner face.
    ///
    /// Asks for a live edge ([`is_live_edge`](crate::dcel::Dcel::is_live_edge)).
    #[inline]
    pub fn next(&self) -> Self
        requires { IsLive (mesh_behind self.now).shape (number_of self.now) }
        ensures mesh { mesh_behind result ≡ mesh_behind self.now }
        ensures number { number_of result ≡ ccw_of (mesh_behind self.now).shape (number_of self.now) }
        ensures live { IsLive (mesh_behind result).shape (number_of result) }
        ensures meets { let shape = (mesh_behind self.now).shape in
            (f : ℕ) → dual_start shape (number_of self.now) ≡ OfFace f → dual_end shape (number_of result) ≡ OfFace f }
    {
        every_mesh(self.dcel);
        self.as_delaunay_edge().ccw().as_voronoi_edge()
    }

    /// Returns the previous edge around its face.
    ///
    /// It is the dual of [`cw`](crate::handles::DirectedEdgeHandle::cw) of its half edge.
    ///
    /// Asks for a live edge ([`is_live_edge`](crate::dcel::Dcel::is_live_edge)).
    #[inline]
    pub fn prev(&self) -> Self
        requires { IsLive (mesh_behind self.now).shape (number_of self.now) }
        ensures mesh { mesh_behind result ≡ mesh_behind self.now }
        ensures number { number_of result ≡ cw_of (mesh_behind self.now).shape (number_of self.now) }
        ensures live { IsLive (mesh_behind result).shape (number_of result) }
    {
        self.as_delaunay_edge().cw().as_voronoi_edge()
    }

    /// Returns its face, the dual of the vertex where its half edge starts.
    ///
    /// Asks for a live edge ([`is_live_edge`](crate::dcel::Dcel::is_live_edge)).
    #[inline]
    pub fn face(&self) -> VoronoiFace<'a, V, DE, UE, F, A>
        requires { IsLive (mesh_behind self.now).shape (number_of self.now) }
        ensures mesh { mesh_behind result ≡ mesh_behind self.now }
        ensures number { number_of result ≡ origin_of (mesh_behind self.now).shape (number_of self.now) }
    {
        self.as_delaunay_edge().from().as_voronoi_face()
    }

    /// Returns the edge without its direction.
    #[inline]
    pub fn as_undirected(&self) -> UndirectedVoronoiEdge<'a, V, DE, UE, F, A>
        ensures mesh { mesh_behind result ≡ mesh_behind self.now }
        ensures number { number_of result ≡ (number_of self.now) / 2 }
    {
        self.as_delaunay_edge().as_undirected().as_voronoi_edge()
    }
}

impl<'a, V, DE, UE, F, A: Allocator> UndirectedVoronoiEdge<'a, V, DE, UE, F, A> {
    /// Returns the vertices where the dual of its normalized half edge starts and ends.
    ///
    /// Asks for a live edge ([`is_live_edge`](crate::dcel::Dcel::is_live_edge)).
    #[inline]
    pub fn vertices(&self) -> [VoronoiVertex<'a, V, DE, UE, F, A>; 2]
        requires { edge_is_live (mesh_behind self.now).shape (number_of self.now) ≡ true }
        ensures vertices { let shape = (mesh_behind self.now).shape in
            map (λ v. dual_vertex v) result ≡ dual_start shape (2 * number_of self.now) ∷ dual_end shape (2 * number_of self.now) ∷ [] }
        ensures meshes { let mesh = mesh_behind self.now in
            map (λ v. mesh_around v) result ≡ mesh ∷ mesh ∷ [] }
        ensures live { All (λ v. IsLiveDual (mesh_around v).shape (dual_vertex v)) result }
    {
        let edge = self.as_directed();
        [edge.from(), edge.to()]
    }

    /// Returns the dual of its normalized half edge, the one with the even number.
    #[inline]
    pub fn as_directed(&self) -> DirectedVoronoiEdge<'a, V, DE, UE, F, A>
        ensures mesh { mesh_behind result ≡ mesh_behind self.now }
        ensures number { number_of result ≡ 2 * number_of self.now }
        ensures live { edge_is_live (mesh_behind self.now).shape (number_of self.now) ≡ true → IsLive (mesh_behind result).shape (number_of result) }
    {
        self.as_delaunay_edge().as_directed().as_voronoi_edge()
    }
}
