//! Tests of the lists that open a removal: the half edges around what is given up.

ghost use Rattle.std.specs.Prelude.{◌↔◌, ◌<◌, IsTrue, reverse};
ghost use Rattle.dcel_maps.specs.Borders.{IsBorderLoop, IsVertexRing};
ghost use Rattle.dcel_maps.specs.Regions.{IsRing};
ghost use Rattle.dcel_maps.specs.Shapes.{IsLive, origin_of};
ghost use Rattle.dcel_maps.specs.theory.Sectors.{FindsEach, IsSector, Sectors};
ghost use Rattle.dcel_maps.specs.Walking.{ccw_of, out_edges_of};
ghost use Rattle.dcel_maps.specs.Words.{count_of};

use crate::dcel::Dcel;
use crate::laws::every_mesh;
use dcel_fixed::{
    FixedDirectedEdgeHandle, FixedFaceHandle, FixedHandleImpl, FixedUndirectedEdgeHandle,
    FixedVertexHandle, InnerOuterMarker, InnerTag,
};
use std::alloc::Allocator;

impl<V, DE, UE, F, A: Allocator> Dcel<V, DE, UE, F, A> {
    /// Returns whether these half edges are the border loop of the vertex: its link, backwards.
    ///
    /// All faces around the vertex are inner triangles, three or more. Read from its end, the list
    /// has `next` of each out edge, in the order of `ccw` from one of them on. No other half edge
    /// of the list starts where the last one does.
    ///
    /// Any numbers may be given.
    pub fn is_border_loop(
        &self,
        list: &[FixedDirectedEdgeHandle],
        vertex: FixedVertexHandle,
    ) -> bool
        ensures { IsTrue result ↔ IsBorderLoop self.now.shape list.now vertex }
    {
        every_mesh(self);
        let Some((&last, others)) = list.split_last() else {
            return false;
        };
        if others.len() < 2 {
            return false;
        }
        if !self.is_live_edge(last.as_undirected()) {
            return false;
        }
        let out_edge = self.prev_edge(last);
        if self.origin(out_edge) != vertex {
            return false;
        }
        if !self.is_sector(out_edge, last) {
            return false;
        }
        self.goes_round(out_edge, last, others)
    }

    /// Returns whether these half edges are the ring of these edges and faces.
    ///
    /// The edges and the faces may come in any order, each once. There are two cases. In the first,
    /// the list is the border loop of a vertex, and these are the edges at that vertex and the
    /// faces around it, equally many. In the second, they are a region: inner faces and the edges
    /// between them, one fewer. The list has the half edges of the faces that belong to none of the
    /// edges, three or more. Read from its end, it leads around the region: `next`, continued past
    /// the edges, leads from each half edge to the following one. No other half edge of the list
    /// starts where the last one does.
    ///
    /// Any numbers may be given. It allocates nothing. Its time grows at most with the square of
    /// the lengths, and linearly for a vertex whose edges and faces come in the order of its out
    /// edges.
    pub fn is_ring(
        &self,
        list: &[FixedDirectedEdgeHandle],
        edges: &[FixedUndirectedEdgeHandle],
        faces: &[FixedFaceHandle<InnerTag>],
    ) -> bool
        ensures { IsTrue result ↔ IsRing self.now.shape list.now edges.now faces.now }
    {
        every_mesh(self);
        if edges.len() == faces.len() {
            return self.is_vertex_ring(list, edges, faces);
        }
        self.is_region_ring(list, edges, faces)
    }

    // Returns whether the list is the border loop of a vertex, and the edges and the faces are
    // those at it, each listed once.
    fn is_vertex_ring(
        &self,
        list: &[FixedDirectedEdgeHandle],
        edges: &[FixedUndirectedEdgeHandle],
        faces: &[FixedFaceHandle<InnerTag>],
    ) -> bool
        ensures { IsTrue result ↔ IsVertexRing self.now.shape list.now edges.now faces.now }
    {
        every_mesh(self);
        let Some((&first, _)) = list.split_first() else {
            return false;
        };
        if !self.is_live_edge(first.as_undirected()) {
            return false;
        }
        let center = self.origin(self.prev_edge(first));
        if !self.is_border_loop(list, center) {
            return false;
        }
        if edges.len() != list.len() {
            return false;
        }
        if faces.len() != list.len() {
            return false;
        }
        self.finds_each(center, edges, faces)
    }

    // Returns whether the lists have the edge and the face of each out edge. Each is first looked
    // up where it is if the lists are in the order of out edges, so that such lists are read once.
    fn finds_each(
        &self,
        vertex: FixedVertexHandle,
        edges: &[FixedUndirectedEdgeHandle],
        faces: &[FixedFaceHandle<InnerTag>],
    ) -> bool
        requires { vertex < self.now.shape.vertices }
        ensures { IsTrue result ↔ FindsEach self.now.shape edges.now faces.now (out_edges_of self.now vertex) }
    {
        let mut place: usize = 0;
        for out_edge in self.vertex(vertex).out_edges() {
            let out_edge = out_edge.fix();
            if !stands_near(edges, place, out_edge.as_undirected()) {
                return false;
            }
            if !stands_near(
                faces,
                place,
                self.face_of_edge(out_edge).adjust_inner_outer(),
            ) {
                return false;
            }
            place = place.wrapping_add(1);
        }
        true
    }

    // Returns whether `edge` comes after `out_edge` on an inner face that is a triangle.
    pub(crate) fn is_sector(
        &self,
        out_edge: FixedDirectedEdgeHandle,
        edge: FixedDirectedEdgeHandle,
    ) -> bool
        requires { IsLive self.now.shape out_edge }
        ensures { IsTrue result ↔ IsSector self.now.shape out_edge edge }
    {
        self.next_edge(out_edge) == edge
            && !self.face_of_edge(out_edge).is_outer()
            && self.is_on_triangle(out_edge)
    }

    // Returns whether the list, read from its end, is what comes after the out edges, from the second
    // one back to the first.
    fn goes_round(
        &self,
        first_out: FixedDirectedEdgeHandle,
        last: FixedDirectedEdgeHandle,
        others: &[FixedDirectedEdgeHandle],
    ) -> bool
        requires live { IsLive self.now.shape first_out }
        requires last_live { IsLive self.now.shape last }
        ensures { let shape = self.now.shape in
            IsTrue result ↔ Sectors shape (origin_of shape last) (ccw_of shape first_out) (reverse others.now) first_out }
    {
        every_mesh(self);
        let apex = self.origin(last);
        let mut out_edge = self.prev_edge(first_out).rev();
        let mut left = others;
        while let Some((&edge, before)) = left.split_last() {
            if !self.is_sector(out_edge, edge) {
                return false;
            }
            if self.origin(edge) == apex {
                return false;
            }
            out_edge = self.prev_edge(out_edge).rev();
            left = before;
        }
        out_edge == first_out
    }
}

// Returns whether the list has the item, which is first looked up at this place.
fn stands_near<Kind, InnerOuter: InnerOuterMarker>(
    items: &[FixedHandleImpl<Kind, InnerOuter>],
    place: usize,
    item: FixedHandleImpl<Kind, InnerOuter>,
) -> bool
    ensures { IsTrue result ↔ (0 < count_of item items.now) }
{
    if place < items.len() {
        if items[place] == item {
            return true;
        }
    }
    items.contains(&item)
}
