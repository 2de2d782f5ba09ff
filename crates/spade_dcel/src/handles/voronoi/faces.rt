//! Faces of the Voronoi diagram, and the edges around them.

ghost use Rattle.std.specs.Prelude.{◌≡◌, ◌≤◌, ◌^◌, IfSome, length};
ghost use Rattle.std.specs.Iterator.{YieldsFirstBy, YieldsLastBy, item_count};
ghost use Rattle.spade_dcel.specs.Handles.{mesh_behind, number_of};
ghost use Rattle.dcel_maps.specs.Shapes.{IsLive, vertex_anchor};
ghost use Rattle.dcel_maps.specs.Walking.{IsOutEdge, IsRoundTrip, ListsOnce, ccw_of, in_mesh, live_half_edges, out_edges_of};

use crate::handles::voronoi::{DirectedVoronoiEdge, VoronoiFace};
use crate::iterators::{CCWEdgesNextBackFn, CircularIterator};
use std::alloc::{Allocator, Global};
use std::marker::Model;

impl<'a, V, DE, UE, F, A: Allocator> VoronoiFace<'a, V, DE, UE, F, A> {
    /// Returns the edges around it, each once.
    ///
    /// They are the duals of the half edges that start at its vertex, in the order of the vertex's
    /// [`out_edges`](crate::handles::VertexHandle::out_edges).
    #[inline]
    pub fn adjacent_edges(&self) -> VoronoiFaceEdges<'a, V, DE, UE, F, A>
        ensures mesh { result.mesh ≡ mesh_behind self.now }
        ensures items { let mesh = mesh_behind self.now in
            result.items ≡ in_mesh mesh (out_edges_of mesh (number_of self.now)) }
        ensures each { let mesh = mesh_behind self.now in
            ListsOnce (IsOutEdge mesh.shape (number_of self.now)) (out_edges_of mesh (number_of self.now)) }
        ensures round { let mesh = mesh_behind self.now in
            IfSome (vertex_anchor mesh (number_of self.now))
            (λ out. IsRoundTrip (ccw_of mesh.shape) out (out_edges_of mesh (number_of self.now))) }
        ensures bound { length result.items ≤ live_half_edges (mesh_behind self.now).shape }
        ensures few { length result.items ≤ 2 ^ 32 }
    {
        VoronoiFaceEdges {
            out_edges: self.as_delaunay_vertex().out_edges(),
        }
    }
}

/// The edges around a face of the Voronoi diagram.
///
/// It does not allocate. Contracts see its mesh and the edges still to come. Each edge is known to
/// be live when it is returned, so a loop needn't test it. `next` and `next_back` may be mixed
/// freely.
#[derive(Drop)]
pub struct VoronoiFaceEdges<'a, V, DE, UE, F, A: Allocator = Global> {
    out_edges: CircularIterator<'a, V, DE, UE, F, CCWEdgesNextBackFn, A>,
}

impl<'a, V, DE, UE, F, A: Allocator> Model for VoronoiFaceEdges<'a, V, DE, UE, F, A> {
    ghost use Rattle.dcel_maps.specs.Walking.{Walking};

    ghost Value = { Walking V DE UE F };

    ghost view = { λ edges. edges.out_edges };
}

impl<'a, V, DE, UE, F, A: Allocator> Iterator for VoronoiFaceEdges<'a, V, DE, UE, F, A> {
    type Item = DirectedVoronoiEdge<'a, V, DE, UE, F, A>;

    ghost next_gives = { λ s r t. YieldsFirstBy (λ edge. (mesh_behind edge, number_of edge)) (λ edges. edges.items) s r t
        × IfSome r (λ edge. IsLive (mesh_behind edge).shape (number_of edge)) };

    ghost remaining = { item_count (λ edges. edges.items) };

    #[inline]
    fn next(&mut self) -> Option<DirectedVoronoiEdge<'a, V, DE, UE, F, A>> {
        let edge = self.out_edges.next()?;
        Some(edge.as_voronoi_edge())
    }
}

impl<'a, V, DE, UE, F, A: Allocator> DoubleEndedIterator for VoronoiFaceEdges<'a, V, DE, UE, F, A> {
    ghost next_back_gives = { λ s r t. YieldsLastBy (λ edge. (mesh_behind edge, number_of edge)) (λ edges. edges.items) s r t
        × IfSome r (λ edge. IsLive (mesh_behind edge).shape (number_of edge)) };

    #[inline]
    fn next_back(&mut self) -> Option<DirectedVoronoiEdge<'a, V, DE, UE, F, A>> {
        let edge = self.out_edges.next_back()?;
        Some(edge.as_voronoi_edge())
    }
}
