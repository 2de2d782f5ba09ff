//! The test for removing a vertex of a degenerate mesh.

ghost use Rattle.std.specs.Prelude.{◌↔◌, ◌<◌, IsTrue};
ghost use Rattle.dcel_maps.specs.Degenerate.{CanRemoveDegenerate, HasFewOutEdges, IsPath};

use crate::dcel::Dcel;
use crate::laws::every_mesh;
use dcel_fixed::FixedVertexHandle;
use std::alloc::Allocator;

impl<V, DE, UE, F, A: Allocator> Dcel<V, DE, UE, F, A> {
    /// Returns whether the vertex can be removed from a degenerate mesh.
    ///
    /// This is what [`remove_when_degenerate`](crate::operations::remove_when_degenerate) asks: no
    /// removal is open, and the vertex is the only one, or the mesh has one face and at each vertex
    /// one or two half edges start. It may look at every vertex. Any number may be given.
    pub fn can_remove_degenerate(&self, handle: FixedVertexHandle) -> bool
        ensures { IsTrue result ↔ CanRemoveDegenerate self.now.shape handle }
    {
        if handle.index() >= self.num_vertices() {
            return false;
        }
        if !self.removal.is_closed() {
            return false;
        }
        if self.num_vertices() == 1 {
            return true;
        }
        self.is_path()
    }

    // Returns whether there is one face, and one or two half edges start at each vertex.
    fn is_path(&self) -> bool
        ensures { IsTrue result ↔ IsPath self.now.shape }
    {
        if self.num_faces() != 1 {
            return false;
        }
        for index in 0..self.num_vertices() {
            if !self.has_few_out_edges(FixedVertexHandle::new(index)) {
                return false;
            }
        }
        true
    }

    // Returns whether one or two half edges start at the vertex: turning twice leads back.
    fn has_few_out_edges(&self, handle: FixedVertexHandle) -> bool
        requires { handle < self.now.shape.vertices }
        ensures { IsTrue result ↔ HasFewOutEdges self.now.shape handle }
    {
        every_mesh(self);
        let Some(out_edge) = self.vertex_out_edge(handle) else {
            return false;
        };
        let other = self.prev_edge(out_edge).rev();
        self.prev_edge(other).rev() == out_edge
    }
}
