//! The sanity check.

ghost use Rattle.std.specs.Prelude.{◌≡◌, ℕ, ◌↔◌, IsTrue, true};
ghost use Rattle.dcel_maps.specs.Checked.{IsChecked, LooksTriangulated, EvenHalfFits, PartsFaces};
ghost use Rattle.dcel_maps.specs.Conditions.{IsUnconnected};
ghost use Rattle.dcel_maps.specs.Removals.{Closed};
ghost use Rattle.dcel_maps.specs.Shapes.{edge_is_live};

use crate::dcel::Dcel;
use dcel_fixed::{FixedDirectedEdgeHandle, FixedVertexHandle};
use std::alloc::Allocator;

/// The sanity check.
impl<V, DE, UE, F, A: Allocator> Dcel<V, DE, UE, F, A> {
    /// Returns whether no removal is open, and the mesh has at most one vertex or looks
    /// triangulated.
    ///
    /// It looks triangulated if there is an edge, no vertex is unconnected, each even half edge of
    /// an inner face is on a triangle, and no edge of a mesh with several faces has the same face
    /// on both sides. Odd half edges are not examined: an inner face whose half edges are all odd
    /// may have more than three. This is what `sanity_check` of `spade` tests, except what is true
    /// of every mesh.
    pub fn sanity_check(&self) -> bool
        ensures { IsTrue result ↔ IsChecked self.now.shape }
    {
        self.removal.is_closed() && (self.num_vertices() <= 1 || self.looks_triangulated())
    }

    // Tests what `sanity_check` asks of a mesh with more than one vertex.
    fn looks_triangulated(&self) -> bool
        requires { self.now.shape.removal ≡ Closed }
        ensures { IsTrue result ↔ LooksTriangulated self.now.shape }
    {
        self.num_undirected_edges() > 0
            && self.has_no_unconnected_vertex()
            && self.has_triangles_at_even_halves()
            && (self.num_faces() == 1 || self.has_two_faces_at_each_edge())
    }

    fn has_no_unconnected_vertex(&self) -> bool
        ensures { IsTrue result ↔ ((v : ℕ) → ¬ IsUnconnected self.now.shape v) }
    {
        for index in 0..self.num_vertices() {
            if self.is_unconnected(FixedVertexHandle::new(index)) {
                return false;
            }
        }
        true
    }

    fn has_triangles_at_even_halves(&self) -> bool
        requires { self.now.shape.removal ≡ Closed }
        ensures { IsTrue result ↔ ((u : ℕ) → edge_is_live self.now.shape u ≡ true → EvenHalfFits self.now.shape u) }
    {
        for index in 0..self.num_undirected_edges() {
            let edge = FixedDirectedEdgeHandle::new_normalized(index);
            if !self.face_of_edge(edge).is_outer() && !self.is_on_triangle(edge) {
                return false;
            }
        }
        true
    }

    fn has_two_faces_at_each_edge(&self) -> bool
        requires { self.now.shape.removal ≡ Closed }
        ensures { IsTrue result ↔ ((u : ℕ) → edge_is_live self.now.shape u ≡ true → PartsFaces self.now.shape u) }
    {
        for index in 0..self.num_undirected_edges() {
            let edge = FixedDirectedEdgeHandle::new_normalized(index);
            if self.face_of_edge(edge) == self.face_of_edge(edge.rev()) {
                return false;
            }
        }
        true
    }
}
