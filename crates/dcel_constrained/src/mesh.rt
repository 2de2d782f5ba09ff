//! Meshes with marked edges.

ghost use Rattle.std.specs.Prelude.{◌≡◌, ◌<◌, ◌/◌, ◌↔◌, IsTrue};
ghost use Rattle.dcel_maps.specs.edits.Data.{undirected_edge_updated};
ghost use Rattle.dcel_maps.specs.Shapes.{IsLive, IsMesh, end_of};
ghost use Rattle.dcel_regions.specs.Marked.{IsMarked};

use dcel_predicates::Point;
use dcel_regions::Mark;
use spade_dcel::dcel::Dcel;
use spade_dcel::handles::{FixedDirectedEdgeHandle, FixedUndirectedEdgeHandle, FixedVertexHandle};
use spade_dcel::laws::every_mesh;
use std::alloc::{Allocator, Global};

/// A mesh whose vertices are points, and whose edges may be marked.
pub type ConstrainedMesh<A = Global> = Dcel<Point, (), Mark, (), A>;

/// Returns whether an edge is marked. A number that no edge has isn't one that is marked.
pub(crate) fn is_marked<V, DE, F, A: Allocator>(
    dcel: &Dcel<V, DE, Mark, F, A>,
    edge: FixedUndirectedEdgeHandle,
) -> bool
    ensures { IsTrue result ↔ IsMarked dcel.now edge }
{
    every_mesh(dcel);
    if edge.index() >= dcel.num_undirected_edges() {
        return false;
    }
    *dcel.undirected_edge_data(edge) == Mark::Constraint
}

/// Returns whether a half edge leads to a vertex, and its edge is marked.
pub(crate) fn is_marked_to<V, DE, F, A: Allocator>(
    dcel: &Dcel<V, DE, Mark, F, A>,
    half: FixedDirectedEdgeHandle,
    to: FixedVertexHandle,
) -> bool
    requires { IsLive dcel.now.shape half }
    ensures { IsTrue result ↔ ((end_of dcel.now.shape half ≡ to) × IsMarked dcel.now (half / 2)) }
{
    every_mesh(dcel);
    let end = dcel.directed_edge(half).to().fix();
    if end != to {
        return false;
    }
    is_marked(dcel, half.as_undirected())
}

/// Marks an edge, or frees it.
pub(crate) fn set_mark<V, DE, F, A: Allocator>(
    dcel: &mut Dcel<V, DE, Mark, F, A>,
    edge: FixedUndirectedEdgeHandle,
    mark: Mark,
)
    requires { edge < dcel.old.shape.edges }
    ensures edit { dcel.new ≡ undirected_edge_updated dcel.old edge mark }
    ensures mesh { IsMesh dcel.new }
{
    *dcel.undirected_edge_data_mut(edge) = mark;
    every_mesh(dcel);
}
