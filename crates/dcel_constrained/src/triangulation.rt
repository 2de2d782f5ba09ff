//! A constrained triangulation of points.

ghost use Rattle.std.specs.Prelude.{◌≡◌, []};
ghost use Rattle.dcel_constrained.specs.Constraints.{ListsFree};

use dcel_planar::PlanarMesh;
use dcel_regions::Mark;
use spade_dcel::handles::FixedDirectedEdgeHandle;
use std::alloc::{Allocator, Global};

/// A constrained Delaunay triangulation of points: some edges are marked, and have to stay.
///
/// It begins as a Delaunay triangulation in which none is
/// ([`from_triangulation`](Self::from_triangulation)). [`add_constraint`](Self::add_constraint)
/// makes the segment between two vertices one of marked edges, [`insert`](Self::insert) puts in a
/// point, [`remove`](Self::remove) takes a vertex out, and
/// [`remove_constraint_edge`](Self::remove_constraint_edge) frees an edge. Points stay where they
/// are.
///
/// Its mesh ([`dcel`](Self::dcel)) is a triangulation of the points, and Delaunay but for the marked
/// edges, if it is whole ([`is_whole`](Self::is_whole)). One that is not whole, as memory ran out
/// while it was changed, has a vertex for each point and keeps its constraints too, and
/// [`finish`](Self::finish) makes it whole.
#[derive(Drop)]
pub struct ConstrainedTriangulation<A: Allocator = Global> {
    pub(crate) planar: PlanarMesh<Mark, A>,
    // Room for the half edges that a segment crosses: none between calls.
    pub(crate) crossed: Vec<FixedDirectedEdgeHandle, A>,
    ghost listed: { ListsFree planar.dcel planar.due.items },
    ghost empty: { crossed.items ≡ [] },
}
