//! Marked edges along a segment.

ghost use Rattle.std.specs.Prelude.{◌≡◌, ◌↔◌, ◌<◌, ℕ, IfSome, IsTrue, None};
ghost use Rattle.dcel_constrained.specs.Channels.{HasVertices};
ghost use Rattle.dcel_maps.specs.Walking.{IsOutEdge};
ghost use Rattle.dcel_output.specs.Outlining.{LeadsMarked};
ghost use Rattle.dcel_plane.specs.Plane.{point_at};
ghost use Rattle.dcel_plane.specs.covering.Covering.{dot};
ghost use Rattle.dcel_plane.specs.segments.Segments.{LeadsAlong};
ghost use Rattle.dcel_regions.specs.Marked.{IsMarked};

use dcel_constrained::ConstrainedMesh;
use dcel_predicates::{Point, orient2d};
use dcel_regions::Mark;
use spade_dcel::handles::{FixedDirectedEdgeHandle, FixedUndirectedEdgeHandle, FixedVertexHandle};
use spade_dcel::laws::every_mesh;
use std::alloc::Allocator;

/// Returns the marked half edge out of a vertex that leads along the segment to another one, to its
/// end or to a vertex on it, if there is one.
pub(crate) fn marked_along<A: Allocator>(
    mesh: &ConstrainedMesh<A>,
    from: FixedVertexHandle,
    to: FixedVertexHandle,
) -> Option<FixedDirectedEdgeHandle>
    requires { HasVertices mesh.now.shape from to }
    ensures some { IfSome result (LeadsMarked mesh.now from to) }
    ensures none { result ≡ None → (h : ℕ) → ¬ LeadsMarked mesh.now from to h }
{
    every_mesh(mesh);
    let mut edges = mesh.vertex(from).out_edges();
    while let Some(edge) = edges.next() {
        let half = edge.fix();
        if is_marked_along(mesh, from, to, half) {
            return Some(half);
        }
    }
    None
}

/// Returns whether an out edge of a segment's start is marked and leads along it.
fn is_marked_along<A: Allocator>(
    mesh: &ConstrainedMesh<A>,
    from: FixedVertexHandle,
    to: FixedVertexHandle,
    half: FixedDirectedEdgeHandle,
) -> bool
    requires ends { HasVertices mesh.now.shape from to }
    requires out { IsOutEdge mesh.now.shape from half }
    ensures { IsTrue result ↔ LeadsMarked mesh.now from to half }
{
    every_mesh(mesh);
    if !is_marked(mesh, half.as_undirected()) {
        return false;
    }
    leads_along(mesh, from, to, half)
}

/// Returns whether an edge is marked.
pub(crate) fn is_marked<A: Allocator>(
    mesh: &ConstrainedMesh<A>,
    edge: FixedUndirectedEdgeHandle,
) -> bool
    requires { edge < mesh.now.shape.edges }
    ensures { IsTrue result ↔ IsMarked mesh.now edge }
{
    *mesh.undirected_edge_data(edge) == Mark::Constraint
}

/// Returns whether an out edge of a segment's start leads along it, to its end or to a vertex
/// between its ends.
fn leads_along<A: Allocator>(
    mesh: &ConstrainedMesh<A>,
    from: FixedVertexHandle,
    to: FixedVertexHandle,
    half: FixedDirectedEdgeHandle,
) -> bool
    requires ends { HasVertices mesh.now.shape from to }
    requires out { IsOutEdge mesh.now.shape from half }
    ensures { IsTrue result ↔ LeadsAlong (point_at mesh.now) mesh.now.shape from to half }
{
    every_mesh(mesh);
    let end = mesh.directed_edge(half).to().fix();
    if end == to {
        return true;
    }
    let start = *mesh.vertex_data(from);
    let goal = *mesh.vertex_data(to);
    let there = *mesh.vertex_data(end);
    if orient2d(start, goal, there) != 0 {
        return false;
    }
    apart(start, goal, there) < 0
}

/// Returns a number that is negative if a point on the line through two others is between them, 0
/// if it is one of them, and positive outside.
fn apart(a: Point, b: Point, p: Point) -> i128
    ensures { result ≡ dot a b p }
{
    let x = (a.x - p.x) as i128 * (b.x - p.x) as i128;
    let y = (a.y - p.y) as i128 * (b.y - p.y) as i128;
    x + y
}
