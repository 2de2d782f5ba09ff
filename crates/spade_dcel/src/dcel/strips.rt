//! The test for cutting off a strip.

ghost use Rattle.std.specs.Prelude.{◌↔◌, IsTrue};
ghost use Rattle.dcel_maps.specs.Shapes.{IsLive, origin_of};
ghost use Rattle.dcel_maps.specs.Strips.{IsEdgeStrip};
ghost use Rattle.dcel_maps.specs.theory.Sectors.{Sectors};
ghost use Rattle.dcel_maps.specs.Walking.{ccw_of};

use crate::dcel::Dcel;
use crate::laws::every_mesh;
use dcel_fixed::FixedDirectedEdgeHandle;
use std::alloc::Allocator;

impl<V, DE, UE, F, A: Allocator> Dcel<V, DE, UE, F, A> {
    /// Returns whether these half edges are the strip of a vertex of the outer face.
    ///
    /// Exactly one half edge out of the vertex is on the outer face, the other faces around the
    /// vertex are triangles, and the outer face has three half edges or more. The list has `next`
    /// of each other out edge, in the order of `ccw` from the outer one on, and last `next` of the
    /// outer one. Any numbers may be given.
    pub fn is_edge_strip(&self, list: &[FixedDirectedEdgeHandle]) -> bool
        ensures { IsTrue result ↔ IsEdgeStrip self.now.shape list.now }
    {
        every_mesh(self);
        let Some((&last, others)) = list.split_last() else {
            return false;
        };
        if !self.is_live_edge(last.as_undirected()) {
            return false;
        }
        if !self.face_of_edge(last).is_outer() {
            return false;
        }
        let outer_out = self.prev_edge(last);
        if self.next_edge(last) == outer_out {
            return false;
        }
        self.goes_along(outer_out, others)
    }

    // Returns whether the out edges after `first_out`, in turn until it comes again, are on inner
    // triangles with these half edges after them.
    fn goes_along(
        &self,
        first_out: FixedDirectedEdgeHandle,
        list: &[FixedDirectedEdgeHandle],
    ) -> bool
        requires { IsLive self.now.shape first_out }
        ensures { let shape = self.now.shape in
            IsTrue result ↔ Sectors shape (origin_of shape first_out) (ccw_of shape first_out) list.now first_out }
    {
        every_mesh(self);
        let mut out_edge = self.prev_edge(first_out).rev();
        let mut left = list;
        while let Some((&edge, after)) = left.split_first() {
            if !self.is_sector(out_edge, edge) {
                return false;
            }
            out_edge = self.prev_edge(out_edge).rev();
            left = after;
        }
        out_edge == first_out
    }
}
