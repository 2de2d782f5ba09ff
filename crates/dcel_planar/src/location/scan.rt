//! Where a point is: each half edge looked at, where a walk doesn't end.

ghost use Rattle.std.specs.Prelude.{◌≡◌, IfNone, IfSome};
ghost use Rattle.spade_dcel.specs.Handles.{mesh_behind, number_of};
ghost use Rattle.dcel_maps.specs.Shapes.{IsLive};
ghost use Rattle.dcel_planar.specs.Growing.{HasHull, IsTriangleMesh};
ghost use Rattle.dcel_planar.specs.Missing.{IsMissed};
ghost use Rattle.dcel_planar.specs.Places.{IsPlace};

use crate::location::walk::{Order, look};
use crate::mesh::{Edge, EdgeMesh, side};
use crate::position::PositionInTriangulation;
use dcel_predicates::{Point, Side};
use spade_dcel::handles::FixedDirectedEdgeHandle;
use spade_dcel::laws::every_mesh;
use std::alloc::Allocator;

/// Looks at each half edge, and returns where the point is.
pub(crate) fn scan<UE, A: Allocator>(
    dcel: &EdgeMesh<UE, A>,
    point: Point,
) -> PositionInTriangulation
    requires triangulated { IsTriangleMesh dcel.now }
    requires hull { HasHull dcel.now }
    ensures { IsPlace dcel.now point result }
{
    every_mesh(dcel);
    for number in 0..dcel.num_directed_edges() {
        let edge = dcel.directed_edge(FixedDirectedEdgeHandle::new(number));
        match look_beside(dcel, edge, point) {
            Some(position) => return position,
            None => {}
        }
    }
    unreachable!()
}

/// Returns where a point is in the triangle of a half edge, or beyond an outer half edge, or `None` if
/// it is nowhere there.
fn look_beside<'a, UE, A: Allocator>(
    dcel: &'a EdgeMesh<UE, A>,
    edge: Edge<'a, UE, A>,
    point: Point,
) -> Option<PositionInTriangulation>
    requires triangulated { IsTriangleMesh dcel.now }
    requires mesh { mesh_behind edge ≡ dcel.now }
    requires live { IsLive dcel.now.shape (number_of edge) }
    ensures found { IfSome result (IsPlace dcel.now point) }
    ensures missed { IfNone result (IsMissed dcel.now point (number_of edge.entry)) }
{
    let own = side(edge, point);
    if edge.is_outer_edge() {
        if own == Side::Left {
            return Some(PositionInTriangulation::OutsideOfConvexHull(edge.fix()));
        }
        return None;
    }
    match look(dcel, edge, own, Order::NextFirst, point) {
        Ok(position) => Some(position),
        Err(_crossed) => None,
    }
}
