//! Where a point is, by a walk that begins at the newest edge.

ghost use Rattle.dcel_planar.specs.Leaving.{IsOutlined};
ghost use Rattle.dcel_planar.specs.Places.{IsPlace};

mod all;

use dcel_planar::{EdgeMesh, PlanarMesh, Point, PositionInTriangulation};
use spade_dcel::handles::FixedDirectedEdgeHandle;
use std::alloc::Allocator;

/// Returns where a point is, by a walk that begins at the newest edge, which is near the vertex that
/// came last.
pub(crate) fn locate<UE, A: Allocator>(
    planar: &PlanarMesh<UE, A>,
    point: Point,
) -> PositionInTriangulation
    requires hull { IsOutlined planar.now.dcel }
    ensures { IsPlace planar.now.dcel point result }
{
    planar.locate(newest(&planar.dcel), point)
}

/// Returns the newest half edge, or the number 0 if there is none.
fn newest<UE, A: Allocator>(dcel: &EdgeMesh<UE, A>) -> FixedDirectedEdgeHandle {
    FixedDirectedEdgeHandle::new(dcel.num_directed_edges().saturating_sub(1))
}
