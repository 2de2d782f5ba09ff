//! Marked edges in the way of a segment.

ghost use Rattle.std.specs.Prelude.{◌≡◌, ◌<◌, ◌↔◌, IfOk, IsTrue, OnOk};
ghost use Rattle.dcel_maps.specs.Removals.{Closed};
ghost use Rattle.dcel_maps.specs.Shapes.{IsLive};
ghost use Rattle.dcel_plane.specs.Plane.{point_at};
ghost use Rattle.dcel_plane.specs.segments.Segments.{Crosses};
ghost use Rattle.dcel_constrained.specs.Blocking.{Blocks, ListsBlocking, NotesBlocking};
ghost use Rattle.dcel_constrained.specs.Channels.{HasVertices};

use crate::mesh::{ConstrainedMesh, is_marked};
use crate::segments::flips::is_split;
use crate::segments::offsets::offset_of;
use spade_dcel::handles::{FixedDirectedEdgeHandle, FixedUndirectedEdgeHandle, FixedVertexHandle};
use spade_dcel::laws::every_mesh;
use std::alloc::{AllocError, Allocator};

/// Returns the marked edges that the segment between two vertices crosses. It looks at each edge.
pub(crate) fn blocking<A: Allocator, L: Allocator>(
    dcel: &ConstrainedMesh<A>,
    from: FixedVertexHandle,
    to: FixedVertexHandle,
    alloc: L,
) -> Result<Vec<FixedUndirectedEdgeHandle, L>, AllocError>
    requires ends { HasVertices dcel.now.shape from to }
    requires closed { dcel.now.shape.removal ≡ Closed }
    ensures { IfOk result (λ edges. ListsBlocking dcel.now from to edges.items) }
{
    every_mesh(dcel);
    let mut edges = Vec::new(alloc);
    for number in 0..dcel.num_undirected_edges() {
        let edge = FixedUndirectedEdgeHandle::new(number);
        note_blocking(dcel, from, to, edge, &mut edges)?;
    }
    Ok(edges)
}

/// Puts an edge on a list, if it is marked and the segment crosses it.
fn note_blocking<A: Allocator, L: Allocator>(
    dcel: &ConstrainedMesh<A>,
    from: FixedVertexHandle,
    to: FixedVertexHandle,
    edge: FixedUndirectedEdgeHandle,
    edges: &mut Vec<FixedUndirectedEdgeHandle, L>,
) -> Result<(), AllocError>
    requires ends { HasVertices dcel.now.shape from to }
    requires closed { dcel.now.shape.removal ≡ Closed }
    ensures { OnOk result (NotesBlocking dcel.now from to edge edges.old.items edges.new.items) }
{
    if !blocks(dcel, from, to, edge) {
        return Ok(());
    }
    edges.push(edge)?;
    Ok(())
}

/// Returns whether an edge is marked, and the segment between two vertices crosses it.
pub(crate) fn blocks<A: Allocator>(
    dcel: &ConstrainedMesh<A>,
    from: FixedVertexHandle,
    to: FixedVertexHandle,
    edge: FixedUndirectedEdgeHandle,
) -> bool
    requires ends { HasVertices dcel.now.shape from to }
    requires closed { dcel.now.shape.removal ≡ Closed }
    ensures { IsTrue result ↔ Blocks dcel.now from to edge }
{
    every_mesh(dcel);
    if !is_marked(dcel, edge) {
        return false;
    }
    let half = dcel.undirected_edge(edge).as_directed().fix();
    if crosses(dcel, from, to, half) {
        return true;
    }
    crosses(dcel, from, to, half.rev())
}

/// Returns whether a half edge crosses the segment between two vertices from right to left.
pub(crate) fn crosses<A: Allocator>(
    dcel: &ConstrainedMesh<A>,
    from: FixedVertexHandle,
    to: FixedVertexHandle,
    half: FixedDirectedEdgeHandle,
) -> bool
    requires ends { HasVertices dcel.now.shape from to }
    requires live { IsLive dcel.now.shape half }
    ensures { IsTrue result ↔ Crosses (point_at dcel.now) dcel.now.shape from to half }
{
    every_mesh(dcel);
    let edge = dcel.directed_edge(half);
    let start = edge.from().fix();
    let end = edge.to().fix();
    let right = offset_of(dcel, from, to, start);
    let left = offset_of(dcel, from, to, end);
    if !is_split(right, left) {
        return false;
    }
    let far = offset_of(dcel, start, end, to);
    let near = offset_of(dcel, start, end, from);
    is_split(far, near)
}
