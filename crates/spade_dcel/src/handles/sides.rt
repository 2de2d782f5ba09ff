//! The ends of a half edge, the vertex opposite it, and whether it is on the hull.

ghost use Rattle.std.specs.Prelude.{◌≡◌, ◌↔◌, [], ◌∷◌, All, IfSome, IsNone, IsTrue, map};
ghost use Rattle.spade_dcel.specs.Handles.{mesh_behind, number_of};
ghost use Rattle.dcel_maps.specs.Shapes.{IsLive, vertex_is_live, end_of, face_of, origin_of, prev_of};
ghost use Rattle.dcel_maps.specs.Sides.{IsOnHull};

use crate::handles::definitions::{DirectedEdgeHandle, VertexHandle};
use std::alloc::Allocator;

impl<'a, V, DE, UE, F, A: Allocator> DirectedEdgeHandle<'a, V, DE, UE, F, A> {
    /// Returns the vertices where it starts and where it ends.
    ///
    /// Asks for a live edge ([`is_live_edge`](crate::dcel::Dcel::is_live_edge)).
    #[inline]
    pub fn vertices(&self) -> [VertexHandle<'a, V, DE, UE, F, A>; 2]
        requires { IsLive (mesh_behind self.now).shape (number_of self.now) }
        ensures numbers { let shape = (mesh_behind self.now).shape in
            map (λ v. number_of v) result ≡ origin_of shape (number_of self.now) ∷ end_of shape (number_of self.now) ∷ [] }
        ensures meshes { let mesh = mesh_behind self.now in
            map (λ v. mesh_behind v) result ≡ mesh ∷ mesh ∷ [] }
        ensures live { All (λ v. IsTrue (vertex_is_live (mesh_behind v).shape (number_of v))) result }
    {
        [self.from(), self.to()]
    }

    /// Returns the vertex opposite it on its face, where the half edge before it starts.
    ///
    /// Returns None for a half edge of the outer face, whatever face is on the other side. The face
    /// need not be a triangle.
    ///
    /// Asks for a live edge ([`is_live_edge`](crate::dcel::Dcel::is_live_edge)).
    #[inline]
    pub fn opposite_vertex(&self) -> Option<VertexHandle<'a, V, DE, UE, F, A>>
        requires { IsLive (mesh_behind self.now).shape (number_of self.now) }
        ensures outer { IsNone result ↔ (face_of (mesh_behind self.now).shape (number_of self.now) ≡ 0) }
        ensures mesh { IfSome result (λ v. mesh_behind v ≡ mesh_behind self.now) }
        ensures number { let shape = (mesh_behind self.now).shape in
            IfSome result (λ v. number_of v ≡ origin_of shape (prev_of shape (number_of self.now))) }
        ensures live { IfSome result (λ v. IsTrue (vertex_is_live (mesh_behind v).shape (number_of v))) }
    {
        if self.is_outer_edge() {
            None
        } else {
            Some(self.prev().from())
        }
    }

    /// Returns whether its face is the outer face. The face of the other half does not count.
    ///
    /// Asks for a live edge ([`is_live_edge`](crate::dcel::Dcel::is_live_edge)).
    #[inline]
    pub fn is_outer_edge(&self) -> bool
        requires { IsLive (mesh_behind self.now).shape (number_of self.now) }
        ensures { IsTrue result ↔ (face_of (mesh_behind self.now).shape (number_of self.now) ≡ 0) }
    {
        self.face().is_outer()
    }

    /// Returns whether its face or that of its other half is the outer face.
    ///
    /// Asks for a live edge ([`is_live_edge`](crate::dcel::Dcel::is_live_edge)).
    #[inline]
    pub fn is_part_of_convex_hull(&self) -> bool
        requires { IsLive (mesh_behind self.now).shape (number_of self.now) }
        ensures { IsTrue result ↔ IsOnHull (mesh_behind self.now).shape (number_of self.now) }
    {
        self.is_outer_edge() || self.rev().is_outer_edge()
    }
}
