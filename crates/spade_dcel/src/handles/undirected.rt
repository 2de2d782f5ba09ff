//! From an undirected edge to its half edge and its ends, and whether it is on the hull.

ghost use Rattle.std.specs.Prelude.{◌≡◌, ◌*◌, ◌↔◌, true, [], ◌∷◌, All, IsTrue, map};
ghost use Rattle.spade_dcel.specs.Handles.{mesh_behind, number_of};
ghost use Rattle.dcel_maps.specs.Shapes.{IsLive, edge_is_live, vertex_is_live, end_of, origin_of};
ghost use Rattle.dcel_maps.specs.Sides.{IsOnHull};

use crate::handles::definitions::{
    DirectedEdgeHandle, DynamicHandleImpl, UndirectedEdgeHandle, VertexHandle,
};
use crate::laws::every_mesh;
use std::alloc::Allocator;

impl<'a, V, DE, UE, F, A: Allocator> UndirectedEdgeHandle<'a, V, DE, UE, F, A> {
    /// Returns its normalized half edge, the one with the even number.
    #[inline]
    pub fn as_directed(&self) -> DirectedEdgeHandle<'a, V, DE, UE, F, A>
        ensures mesh { mesh_behind result ≡ mesh_behind self.now }
        ensures number { number_of result ≡ 2 * number_of self.now }
        ensures live { edge_is_live (mesh_behind self.now).shape (number_of self.now) ≡ true → IsLive (mesh_behind result).shape (number_of result) }
    {
        every_mesh(self.dcel);
        DynamicHandleImpl::new(self.dcel, self.fix().as_directed())
    }

    /// Returns the vertices where its normalized half edge starts and ends.
    ///
    /// Asks for a live edge ([`is_live_edge`](crate::dcel::Dcel::is_live_edge)).
    #[inline]
    pub fn vertices(&self) -> [VertexHandle<'a, V, DE, UE, F, A>; 2]
        requires { edge_is_live (mesh_behind self.now).shape (number_of self.now) ≡ true }
        ensures numbers { let shape = (mesh_behind self.now).shape in
            map (λ v. number_of v) result ≡ origin_of shape (2 * number_of self.now) ∷ end_of shape (2 * number_of self.now) ∷ [] }
        ensures meshes { let mesh = mesh_behind self.now in
            map (λ v. mesh_behind v) result ≡ mesh ∷ mesh ∷ [] }
        ensures live { All (λ v. IsTrue (vertex_is_live (mesh_behind v).shape (number_of v))) result }
    {
        self.as_directed().vertices()
    }

    /// Returns whether the outer face is on either side of it.
    ///
    /// Asks for a live edge ([`is_live_edge`](crate::dcel::Dcel::is_live_edge)).
    #[inline]
    pub fn is_part_of_convex_hull(&self) -> bool
        requires { edge_is_live (mesh_behind self.now).shape (number_of self.now) ≡ true }
        ensures { IsTrue result ↔ IsOnHull (mesh_behind self.now).shape (2 * number_of self.now) }
    {
        self.as_directed().is_part_of_convex_hull()
    }
}
