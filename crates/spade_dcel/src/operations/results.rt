//! What removals return.

ghost use Rattle.std.specs.Prelude.{◌≡◌, ◌↔◌, ◌≤◌, ◌==◌, cond, IsTrue, Some, None};

use dcel_fixed::{FixedFaceHandle, FixedUndirectedEdgeHandle, FixedVertexHandle, InnerTag};
use std::alloc::{Allocator, Global};

/// What a removal gave up, and the edges that it added.
#[derive(PartialEq, Eq, PartialOrd, Ord, Hash, Drop)]
pub struct IsolateVertexResult<A: Allocator = Global> {
    /// The edges that it added, with their numbers before cleanup.
    pub new_edges: Vec<FixedUndirectedEdgeHandle, A>,

    /// The smallest number that an added edge can have, 0 if a strip was cut off.
    pub smallest_new_edge: FixedUndirectedEdgeHandle,

    /// The edges that it gave up.
    pub edges_to_remove: Vec<FixedUndirectedEdgeHandle, A>,

    /// The faces that it gave up.
    pub faces_to_remove: Vec<FixedFaceHandle<InnerTag>, A>,
}

impl<A: Allocator> IsolateVertexResult<A> {
    /// Returns whether the number of the edge is at least that of the first new edge.
    ///
    /// Before cleanup this is true of exactly the new edges and those that later calls have added.
    /// After a strip was cut off, which adds none, it is true of every edge. After cleanup it means
    /// nothing, since edges may have other numbers.
    pub fn is_new_edge(&self, edge: FixedUndirectedEdgeHandle) -> bool
        ensures { IsTrue result ↔ (self.now.smallest_new_edge ≤ edge) }
    {
        edge >= self.smallest_new_edge
    }
}

/// The result of taking out a vertex.
#[derive(Drop)]
pub struct RemovalResult<V> {
    /// The datum of the vertex.
    pub removed_vertex: V,

    /// The old number of the vertex that got the freed number, if one did.
    pub swapped_in_vertex: Option<FixedVertexHandle>,
}

impl<V> RemovalResult<V> {
    // Returns the result of taking out `vertex`. Its number went to `last`, the last vertex before,
    // if that is another one.
    pub(crate) fn of(removed_vertex: V, vertex: FixedVertexHandle, last: FixedVertexHandle) -> Self
        ensures datum { result.removed_vertex ≡ removed_vertex }
        ensures moved { result.swapped_in_vertex ≡ cond (vertex == last) None (Some last) }
    {
        let swapped_in_vertex = if vertex == last { None } else { Some(last) };
        RemovalResult {
            removed_vertex,
            swapped_in_vertex,
        }
    }
}

/// The result of removing a vertex from a triangle.
#[derive(Drop)]
pub struct TriangleRemovalResult<V> {
    /// The datum of the vertex.
    pub removed_vertex: V,

    /// The old number of the vertex that got the freed number, if one did.
    pub swapped_in_vertex: Option<FixedVertexHandle>,

    /// The edges of the vertex, in ascending order. Each is taken out, the last one first, and the
    /// last edge that is left gets its number.
    pub removed_edges: [FixedUndirectedEdgeHandle; 3],
}

/// The result of removing a vertex from a square.
#[derive(Drop)]
pub struct SquareRemovalResult<V> {
    /// The datum of the vertex.
    pub removed_vertex: V,

    /// The old number of the vertex that got the freed number, if one did.
    pub swapped_in_vertex: Option<FixedVertexHandle>,

    /// The edges of the vertex, in ascending order. Each is taken out, the last one first, and the
    /// last edge that is left, at first the new one, gets its number.
    pub removed_edges: [FixedUndirectedEdgeHandle; 4],
}

/// The result of cutting off a corner of the outer face.
#[derive(Drop)]
pub struct CornerRemovalResult<V, A: Allocator = Global> {
    /// The datum of the vertex.
    pub removed_vertex: V,

    /// The old number of the vertex that got the freed number, if one did.
    pub swapped_in_vertex: Option<FixedVertexHandle>,

    /// The edges of the vertex, in ascending order. Each is taken out, the last one first, and the
    /// last edge that is left gets its number.
    pub removed_edges: Vec<FixedUndirectedEdgeHandle, A>,
}
