//! The hull: the boundary cycle of the outer face.

ghost use Rattle.std.specs.Prelude.{◌≡◌, ℕ, ◌<◌, ◌≤◌, ◌^◌, ◌↔◌, IfSome, [], false, length, reverse};
ghost use Rattle.std.specs.Iterator.{YieldsFirstBy, YieldsLastBy, item_count};
ghost use Rattle.spade_dcel.specs.Handles.{mesh_behind, number_of};
ghost use Rattle.dcel_maps.specs.Count.{IsCounted};
ghost use Rattle.dcel_maps.specs.Shapes.{IsLive, edge_is_live, face_anchor, next_of, prev_of};
ghost use Rattle.dcel_maps.specs.Triangulations.{AllTriangles};
ghost use Rattle.dcel_maps.specs.Walking.{IsOnFace, IsRoundTrip, ListsOnce, hull_of, in_mesh, live_half_edges, walk_of};
ghost use Rattle.dcel_maps.specs.Words.{TurnsTo, word_of};

use crate::dcel::Dcel;
use crate::handles::DirectedEdgeHandle;
use crate::iterators::circular_iterator::CircularIterator;
use crate::iterators::next_back_fn::HullNextBackFn;
use crate::laws::every_mesh;
use std::alloc::{Allocator, Global};
use std::marker::Model;

/// The half edges of the outer face, each once.
///
/// Their order is that of [`next`](DirectedEdgeHandle::next), starting with the anchor of the outer
/// face. From the back it is that of [`prev`](DirectedEdgeHandle::prev), starting with the half
/// edge before the anchor. A mesh without live edges has none.
///
/// It does not allocate. Contracts see its mesh and the half edges still to come. Each half edge is
/// known to be live when it is returned, so a loop needn't test it. `next` and `next_back` may be
/// mixed freely.
#[derive(Drop)]
pub struct HullIterator<'a, V, DE, UE, F, A: Allocator = Global> {
    inner_iterator: CircularIterator<'a, V, DE, UE, F, HullNextBackFn, A>,
}

impl<'a, V, DE, UE, F, A: Allocator> Model for HullIterator<'a, V, DE, UE, F, A> {
    ghost use Rattle.dcel_maps.specs.Walking.{Walking};

    ghost Value = { Walking V DE UE F };

    ghost view = { λ hull. hull.inner_iterator };
}

impl<'a, V, DE, UE, F, A: Allocator> HullIterator<'a, V, DE, UE, F, A> {
    /// Creates an iterator over the hull of the mesh.
    ///
    /// If an edge is live and every live inner face is a triangle, the length of the hull
    /// determines the number of live edges: three times the number of vertices with a live edge,
    /// minus three, minus that length.
    #[inline]
    pub fn new(dcel: &'a Dcel<V, DE, UE, F, A>) -> Self
        ensures mesh { result.mesh ≡ dcel.now }
        ensures items { result.items ≡ in_mesh dcel.now (hull_of dcel.now) }
        ensures word { TurnsTo (word_of dcel.now.shape.words 0) (hull_of dcel.now) }
        ensures each { ListsOnce (IsOnFace dcel.now.shape 0) (hull_of dcel.now) }
        ensures round { IfSome (face_anchor dcel.now 0) (λ edge. IsRoundTrip (next_of dcel.now.shape) edge (hull_of dcel.now)) }
        ensures back { IfSome (face_anchor dcel.now 0) (λ edge. reverse (hull_of dcel.now) ≡ walk_of dcel.now.shape (prev_of dcel.now.shape) (prev_of dcel.now.shape edge)) }
        ensures none { (hull_of dcel.now ≡ []) ↔ ((u : ℕ) → edge_is_live dcel.now.shape u ≡ false) }
        ensures count { AllTriangles dcel.now.shape → 0 < length result.items → IsCounted dcel.now.shape (length result.items) }
        ensures bound { length result.items ≤ live_half_edges dcel.now.shape }
        ensures few { length result.items ≤ 2 ^ 32 }
    {
        every_mesh(dcel);
        HullIterator {
            inner_iterator: dcel.outer_face().directed_edges(),
        }
    }
}

impl<'a, V, DE, UE, F, A: Allocator> Iterator for HullIterator<'a, V, DE, UE, F, A> {
    type Item = DirectedEdgeHandle<'a, V, DE, UE, F, A>;

    ghost next_gives = { λ s r t. YieldsFirstBy (λ edge. (mesh_behind edge, number_of edge)) (λ hull. hull.items) s r t
        × IfSome r (λ edge. IsLive (mesh_behind edge).shape (number_of edge)) };

    ghost remaining = { item_count (λ hull. hull.items) };

    #[inline]
    fn next(&mut self) -> Option<DirectedEdgeHandle<'a, V, DE, UE, F, A>> {
        self.inner_iterator.next()
    }
}

impl<'a, V, DE, UE, F, A: Allocator> DoubleEndedIterator for HullIterator<'a, V, DE, UE, F, A> {
    ghost next_back_gives = { λ s r t. YieldsLastBy (λ edge. (mesh_behind edge, number_of edge)) (λ hull. hull.items) s r t
        × IfSome r (λ edge. IsLive (mesh_behind edge).shape (number_of edge)) };

    #[inline]
    fn next_back(&mut self) -> Option<DirectedEdgeHandle<'a, V, DE, UE, F, A>> {
        self.inner_iterator.next_back()
    }
}
