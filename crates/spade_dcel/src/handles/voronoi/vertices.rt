//! Vertices of the Voronoi diagram, and the edges that start there.

ghost use Rattle.std.specs.Prelude.{◌≡◌, ◌∷◌, [], All, IfSome, map};
ghost use Rattle.std.specs.Option.{option_map};
ghost use Rattle.spade_dcel.specs.Handles.{mesh_behind, number_of};
ghost use Rattle.spade_dcel.specs.Voronoi.{dual_vertex, mesh_around};
ghost use Rattle.dcel_maps.specs.Shapes.{IsLive};
ghost use Rattle.dcel_maps.specs.Voronoi.{IsLiveDual, OfFace, dual_out_edge, dual_out_edges, dual_start, face_dual_to};

use crate::handles::definitions::FaceHandle;
use crate::handles::voronoi::DirectedVoronoiEdge;
use dcel_fixed::InnerTag;
use std::alloc::{Allocator, Global};

/// A vertex of the Voronoi diagram.
#[derive(Drop)]
pub enum VoronoiVertex<'a, V, DE, UE, F, A: Allocator = Global> {
    /// The dual of an inner face.
    Inner(FaceHandle<'a, InnerTag, V, DE, UE, F, A>),
    /// The start of a Voronoi edge whose half edge is on the outer face; each has one of its own.
    Outer(DirectedVoronoiEdge<'a, V, DE, UE, F, A>),
}

impl<'a, V, DE, UE, F, A: Allocator> VoronoiVertex<'a, V, DE, UE, F, A> {
    /// Returns the face that it is dual to, or None for an outer vertex.
    #[inline]
    pub fn as_delaunay_face(&self) -> Option<FaceHandle<'a, InnerTag, V, DE, UE, F, A>>
        ensures face { option_map (λ face. number_of face) result ≡ face_dual_to (dual_vertex self.now) }
        ensures mesh { IfSome result (λ face. mesh_behind face ≡ mesh_around self.now) }
    {
        match self {
            VoronoiVertex::Inner(face) => Some(*face),
            VoronoiVertex::Outer(_) => None,
        }
    }

    /// Returns three edges that start at an inner vertex, or None for an outer one.
    ///
    /// They are the duals of the face's [`adjacent_edges`](FaceHandle::adjacent_edges). If the face
    /// is a triangle, these are all edges that start there.
    ///
    /// Asks that the face of an inner vertex is live
    /// ([`is_live_face`](crate::dcel::Dcel::is_live_face)) and not the outer one.
    #[inline]
    pub fn out_edges(&self) -> Option<[DirectedVoronoiEdge<'a, V, DE, UE, F, A>; 3]>
        requires { IsLiveDual (mesh_around self.now).shape (dual_vertex self.now) }
        ensures numbers { option_map (λ edges. map (λ e. number_of e) edges) result ≡ dual_out_edges (mesh_around self.now) (dual_vertex self.now) }
        ensures meshes { IfSome result (λ edges. All (λ e. mesh_behind e ≡ mesh_around self.now) edges) }
        ensures live { IfSome result (λ edges. All (λ e. IsLive (mesh_behind e).shape (number_of e)) edges) }
        ensures start { IfSome result (λ edges. All (λ e. dual_start (mesh_behind e).shape (number_of e) ≡ dual_vertex self.now) edges) }
    {
        self.as_delaunay_face().map(edges_from)
    }

    /// Returns one edge that starts there.
    ///
    /// At an inner vertex it is the dual of the face's anchor, at an outer vertex its only edge.
    ///
    /// Asks that the face of an inner vertex is live
    /// ([`is_live_face`](crate::dcel::Dcel::is_live_face)) and not the outer one.
    #[inline]
    pub fn out_edge(&self) -> DirectedVoronoiEdge<'a, V, DE, UE, F, A>
        requires { IsLiveDual (mesh_around self.now).shape (dual_vertex self.now) }
        ensures mesh { mesh_behind result ≡ mesh_around self.now }
        ensures number { number_of result ≡ dual_out_edge (mesh_around self.now) (dual_vertex self.now) }
        ensures start { IfSome (face_dual_to (dual_vertex self.now)) (λ f. dual_start (mesh_behind result).shape (number_of result) ≡ OfFace f) }
    {
        match self {
            VoronoiVertex::Inner(face) => face.adjacent_edge().as_voronoi_edge(),
            VoronoiVertex::Outer(edge) => *edge,
        }
    }
}

#[inline]
fn edges_from<'a, V, DE, UE, F, A: Allocator>(
    face: FaceHandle<'a, InnerTag, V, DE, UE, F, A>,
) -> [DirectedVoronoiEdge<'a, V, DE, UE, F, A>; 3]
    requires { IsLiveDual (mesh_behind face).shape (OfFace (number_of face)) }
    ensures numbers { Some (map (λ e. number_of e) result) ≡ dual_out_edges (mesh_behind face.entry) (OfFace (number_of face.entry)) }
    ensures meshes { All (λ e. mesh_behind e ≡ mesh_behind face.entry) result }
    ensures live { All (λ e. IsLive (mesh_behind e).shape (number_of e)) result }
    ensures start { All (λ e. dual_start (mesh_behind e).shape (number_of e) ≡ OfFace (number_of face.entry)) result }
{
    let [before, edge, after] = face.adjacent_edges();
    [
        before.as_voronoi_edge(),
        edge.as_voronoi_edge(),
        after.as_voronoi_edge(),
    ]
}
