//! Swap-removes: the last element of the kind moves to the free place, and so gets the number.

ghost use Rattle.std.specs.Prelude.{◌≡◌, ◌+◌, ◌*◌, ◌%◌, ◌<◌, length, slice_index_or, swap_remove, vec_len, vec_capacity, None};
ghost use Rattle.dcel_store.specs.Taking.{pair_taken};

use crate::{EdgeData, Store};
use dcel_fixed::{FixedFaceHandle, FixedUndirectedEdgeHandle, FixedVertexHandle, PossiblyOuterTag};
use std::alloc::Allocator;

impl<V, DE, UE, F, A: Allocator> Store<V, DE, UE, F, A> {
    /// Swap-removes a vertex, and returns its datum.
    ///
    /// The last vertex moves to its place with its anchor; links that name it aren't changed. It
    /// does not allocate, and leaves room for one more vertex. Asks for a number below
    /// [`num_vertices`](Self::num_vertices).
    #[inline]
    pub fn take_vertex(&mut self, vertex: FixedVertexHandle) -> V
        requires { vertex < length self.old.vertex_data }
        ensures datum { result ≡ slice_index_or self.old.vertex_data vertex result }
        ensures others { self.new ≡ record self.old {
          vertex_data = swap_remove self.old.vertex_data vertex result;
          vertex_anchors = swap_remove self.old.vertex_anchors vertex None;
          vertex_room = self.old.vertex_room + 1;
        } }
    {
        self.vertices.swap_remove(vertex.index()).data
    }

    /// Swap-removes an edge, and returns its data.
    ///
    /// The last edge moves to its place with its links; links and anchors that name its half edges
    /// aren't changed. It does not allocate, and leaves room for one more edge. Asks for a number
    /// below [`num_edges`](Self::num_edges).
    #[inline]
    pub fn take_edge(&mut self, edge: FixedUndirectedEdgeHandle) -> EdgeData<DE, UE>
        requires { edge < length self.old.undirected_data }
        ensures normalized { result.normalized
            ≡ slice_index_or self.old.directed_data (2 * edge) result.normalized }
        ensures reversed { result.reversed
            ≡ slice_index_or self.old.directed_data (2 * edge + 1) result.reversed }
        ensures undirected { result.undirected
            ≡ slice_index_or self.old.undirected_data edge result.undirected }
        ensures others { self.new ≡ record self.old {
          next = pair_taken self.old.next edge 0;
          prev = pair_taken self.old.prev edge 0;
          origin = pair_taken self.old.origin edge 0;
          face = pair_taken self.old.face edge 0;
          directed_data = pair_taken self.old.directed_data edge result.normalized;
          undirected_data = swap_remove self.old.undirected_data edge result.undirected;
          edge_room = self.old.edge_room + 1;
        } }
    {
        let edge = edge.index();
        take_pair(&mut self.next, edge);
        take_pair(&mut self.prev, edge);
        take_pair(&mut self.origin, edge);
        take_pair(&mut self.face, edge);
        let (normalized, reversed) = take_pair(&mut self.directed_data, edge);
        EdgeData {
            normalized,
            reversed,
            undirected: self.undirected_data.swap_remove(edge),
        }
    }

    /// Swap-removes a face, and returns its datum.
    ///
    /// The last face moves to its place with its anchor; links that name it aren't changed. It does
    /// not allocate, and leaves room for one more face. Asks for a number below
    /// [`num_faces`](Self::num_faces).
    #[inline]
    pub fn take_face(&mut self, face: FixedFaceHandle<PossiblyOuterTag>) -> F
        requires { face < length self.old.face_data }
        ensures datum { result ≡ slice_index_or self.old.face_data face result }
        ensures others { self.new ≡ record self.old {
          face_data = swap_remove self.old.face_data face result;
          face_anchors = swap_remove self.old.face_anchors face None;
          face_room = self.old.face_room + 1;
        } }
    {
        self.faces.swap_remove(face.index()).data
    }
}

// Takes the two items of an edge out of a vector of half edges. The second item goes first, so that
// the last two items move to the two places in order.
#[inline]
fn take_pair<T, A: Allocator>(items: &mut Vec<T, A>, edge: usize) -> (T, T)
    requires even { vec_len items.old % 2 ≡ 0 }
    requires within { 2 * edge < vec_len items.old }
    ensures first { result.0 ≡ slice_index_or items.old.items (2 * edge) result.0 }
    ensures second { result.1 ≡ slice_index_or items.old.items (2 * edge + 1) result.1 }
    ensures others { (d : T) → items.new.items ≡ pair_taken items.old.items edge d }
    ensures len { vec_len items.new + 2 ≡ vec_len items.old }
    ensures capacity { vec_capacity items.new ≡ vec_capacity items.old }
{
    let second = items.swap_remove(2 * edge + 1);
    let first = items.swap_remove(2 * edge);
    (first, second)
}
