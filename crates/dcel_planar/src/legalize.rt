//! Edges flipped by the circle test.

ghost use Rattle.std.specs.Prelude.{◌≡◌, ◌≢◌, ◌↔◌, ℕ, List, ◌++◌, [], IsTrue, OnErr, OnOk};
ghost use Rattle.dcel_maps.specs.Shapes.{IsMesh};
ghost use Rattle.dcel_plane.specs.Plane.{IsCircled, IsInner, IsLocallyDelaunay, ListsCircled, TrianglesTurnLeft, point_at};
ghost use Rattle.dcel_planar.specs.Turning.{IsTurnedTo};

use crate::circles::is_illegal;
use dcel_legalize::append_sides;
use dcel_predicates::Point;
use spade_dcel::dcel::Dcel;
use spade_dcel::handles::FixedUndirectedEdgeHandle;
use spade_dcel::laws::every_mesh;
use spade_dcel::operations::flip_cw;
use std::alloc::{AllocError, Allocator};

/// Flips edges until no triangle's circle has the corner of a triangle beside it inside.
///
/// It looks at the last edge of the list, again and again. If the edge is between two inner
/// triangles, and the corner of one inside the circle of the other
/// ([`is_circled`](crate::is_circled)), it flips the edge, and appends the other sides of the two triangles. Otherwise it takes it off the list.
///
/// Asks for inner triangles that go round counterclockwise ([`is_plane`](crate::is_plane)); they do
/// so after each flip. If the list has each edge that is to be flipped, it does afterwards too, and
/// the mesh is Delaunay once the list is empty. The order of the list doesn't matter for that.
///
/// Fails if the list can't grow for lack of memory. The flips made so far remain, and a later call
/// with the same list goes on from there.
pub fn legalize_by_circles<DE, UE, F, A: Allocator, L: Allocator>(
    dcel: &mut Dcel<Point, DE, UE, F, A>,
    due: &mut Vec<FixedUndirectedEdgeHandle, L>,
) -> Result<(), AllocError>
    requires { TrianglesTurnLeft (point_at dcel.old) dcel.old.shape }
    ensures flips { IsTurnedTo dcel.old dcel.new }
    ensures plane { TrianglesTurnLeft (point_at dcel.new) dcel.new.shape }
    ensures due { ListsCircled (point_at dcel.old) dcel.old.shape due.old.items → ListsCircled (point_at dcel.new) dcel.new.shape due.new.items }
    ensures others { (lacking : List ℕ) → ListsCircled (point_at dcel.old) dcel.old.shape (due.old.items ++ lacking)
        → ListsCircled (point_at dcel.new) dcel.new.shape (due.new.items ++ lacking) }
    ensures done { OnOk result (due.new.items ≡ []) }
    ensures unfinished { OnErr result (due.new.items ≢ []) }
    ensures delaunay { OnOk result (ListsCircled (point_at dcel.old) dcel.old.shape due.old.items → IsLocallyDelaunay (point_at dcel.new) dcel.new.shape) }
    ensures mesh { IsMesh dcel.new }
{
    every_mesh(dcel);
    while let Some(&edge) = due.last() {
        if !is_to_flip(dcel, edge) {
            let _ = due.pop();
            continue;
        }
        due.reserve(4)?;
        append_sides(dcel, edge, due);
        flip_cw(dcel, edge);
    }
    Ok(())
}

// Returns what `is_circled` returns, of a mesh in the plane.
fn is_to_flip<DE, UE, F, A: Allocator>(
    dcel: &Dcel<Point, DE, UE, F, A>,
    edge: FixedUndirectedEdgeHandle,
) -> bool
    requires { TrianglesTurnLeft (point_at dcel.now) dcel.now.shape }
    ensures { IsTrue result ↔ (IsInner dcel.now.shape edge × IsCircled (point_at dcel.now) dcel.now.shape edge) }
{
    every_mesh(dcel);
    if !dcel.can_flip(edge) {
        return false;
    }
    is_illegal(dcel, edge)
}
