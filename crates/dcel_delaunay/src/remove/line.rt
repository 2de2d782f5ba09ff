//! A vertex removed while all are on one line, down to none.

ghost use Rattle.std.specs.Prelude.{◌<◌};
ghost use Rattle.dcel_planar.specs.Growing.{IsFlat, IsTriangleMesh};
ghost use Rattle.dcel_delaunay.specs.Removing.{Loses};
ghost use Rattle.dcel_delaunay.specs.Staying.{HasConstraintAt, LosesNoneStaying};

use crate::removed::Removed;
use dcel_legalize::EdgeConstraint;
use dcel_planar::EdgeMesh;
use spade_dcel::handles::FixedVertexHandle;
use spade_dcel::laws::every_mesh;
use spade_dcel::operations::remove_when_degenerate;
use std::alloc::Allocator;

/// Removes a vertex of a line; the others stay on it in their order.
pub(crate) fn remove_from_line<UE: EdgeConstraint + Drop, A: Allocator>(
    dcel: &mut EdgeMesh<UE, A>,
    vertex: FixedVertexHandle,
) -> Removed
    requires sound { IsTriangleMesh dcel.old }
    requires flat { IsFlat dcel.old }
    requires vertex { vertex < dcel.old.shape.vertices }
    requires loose { ¬ HasConstraintAt UE.is_constraint dcel.old vertex }
    ensures loses { Loses dcel.old dcel.new vertex result }
    ensures sound { IsTriangleMesh dcel.new }
    ensures flat { IsFlat dcel.new }
    ensures staying { LosesNoneStaying UE.is_constraint dcel.old dcel.new vertex }
{
    every_mesh(dcel);
    let taken = remove_when_degenerate(dcel, vertex);
    Removed {
        point: taken.removed_vertex,
        moved: taken.swapped_in_vertex,
    }
}
