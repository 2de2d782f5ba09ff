//! A triangulation of points.

ghost use Rattle.dcel_plane.specs.Plane.{ListsCircled, point_at};

use dcel_planar::PlanarMesh;
use spade_dcel::handles::FixedDirectedEdgeHandle;
use std::alloc::{Allocator, Global};

/// A Delaunay triangulation of points.
///
/// Its mesh ([`dcel`](Self::dcel)) has a vertex for each point. The inner faces are triangles that
/// go round counterclockwise, and the outer face goes round their convex hull. While all points
/// are on one line, the mesh is a path along it, without triangles.
///
/// That is so of each whole triangulation ([`is_whole`](Self::is_whole)). One that is not whole,
/// as memory ran out in an insertion, has a vertex for each point too, and
/// [`finish`](Self::finish) makes it whole.
#[derive(Drop)]
pub struct Triangulation<A: Allocator = Global> {
    pub(crate) planar: PlanarMesh<(), A>,
    // Where the next walk begins.
    pub(crate) last: FixedDirectedEdgeHandle,
    ghost listed: { ListsCircled (point_at planar.dcel) planar.dcel.shape planar.due.items },
}
