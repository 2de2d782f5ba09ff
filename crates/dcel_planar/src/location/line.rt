//! Points that all are on one line: the mesh is a path along it, and the outer face is its only
//! face.

ghost use Rattle.std.specs.Prelude.{◌≡◌, ◌↔◌, IsTrue};
ghost use Rattle.dcel_fixed.specs.HalfEdges.{rev};
ghost use Rattle.spade_dcel.specs.Handles.{mesh_behind, number_of};
ghost use Rattle.dcel_maps.specs.Shapes.{IsLive, face_count};
ghost use Rattle.dcel_plane.specs.Plane.{point_at};
ghost use Rattle.dcel_plane.specs.location.Locating.{IsBefore, LiesBeyond};
ghost use Rattle.dcel_planar.specs.Growing.{IsFlat};
ghost use Rattle.dcel_planar.specs.Places.{IsOnLine, IsPlace};

use crate::mesh::{Edge, EdgeMesh, point_of, side, stands_at};
use crate::position::PositionInTriangulation;
use dcel_predicates::{Point, Side};
use spade_dcel::handles::FixedVertexHandle;
use spade_dcel::laws::every_mesh;
use std::alloc::Allocator;

/// Returns where a point is if there is no edge: at a vertex, or at none.
pub(crate) fn at_a_vertex<UE, A: Allocator>(
    dcel: &EdgeMesh<UE, A>,
    point: Point,
) -> PositionInTriangulation
    requires none { dcel.now.shape.edges ≡ 0 }
    requires alone { face_count dcel.now.shape ≡ 1 }
    ensures { IsPlace dcel.now point result }
{
    for index in 0..dcel.num_vertices() {
        let vertex = dcel.vertex(FixedVertexHandle::new(index));
        if stands_at(vertex, point) {
            return PositionInTriangulation::OnVertex(vertex.fix());
        }
    }
    PositionInTriangulation::NoTriangulation
}

/// Returns where a point is in a mesh that is a path along a line, by a half edge of it.
pub(crate) fn locate_on_line<'a, UE, A: Allocator>(
    dcel: &'a EdgeMesh<UE, A>,
    edge: Edge<'a, UE, A>,
    point: Point,
) -> PositionInTriangulation
    requires flat { IsFlat dcel.now }
    requires mesh { mesh_behind edge ≡ dcel.now }
    requires live { IsLive dcel.now.shape (number_of edge) }
    ensures { IsPlace dcel.now point result }
{
    every_mesh(dcel);
    match side(edge, point) {
        Side::Left => PositionInTriangulation::OutsideOfConvexHull(edge.fix()),
        Side::Right => PositionInTriangulation::OutsideOfConvexHull(edge.rev().fix()),
        Side::On => walk(dcel, edge, point),
    }
}

/// Returns whether a point comes before another one, from left to right, and upwards where both
/// have one x.
fn is_before(first: Point, second: Point) -> bool
    ensures { IsTrue result ↔ IsBefore first second }
{
    if first.x == second.x {
        first.y < second.y
    } else {
        first.x < second.x
    }
}

/// Returns whether a point on the line of a half edge is beyond its end.
fn is_beyond<'a, UE, A: Allocator>(
    dcel: &'a EdgeMesh<UE, A>,
    edge: Edge<'a, UE, A>,
    point: Point,
) -> bool
    requires flat { IsFlat dcel.now }
    requires mesh { mesh_behind edge ≡ dcel.now }
    requires live { IsLive dcel.now.shape (number_of edge) }
    requires on { IsOnLine dcel.now point (number_of edge) }
    ensures { IsTrue result ↔ LiesBeyond (point_at dcel.now) dcel.now.shape point (number_of edge.entry) }
{
    every_mesh(dcel);
    let from = point_of(edge.from());
    let to = point_of(edge.to());
    if is_before(from, to) {
        is_before(to, point)
    } else {
        is_before(point, to)
    }
}

/// Goes along the path towards a point on its line.
fn walk<'a, UE, A: Allocator>(
    dcel: &'a EdgeMesh<UE, A>,
    start: Edge<'a, UE, A>,
    point: Point,
) -> PositionInTriangulation
    requires flat { IsFlat dcel.now }
    requires mesh { mesh_behind start ≡ dcel.now }
    requires live { IsLive dcel.now.shape (number_of start) }
    requires on { IsOnLine dcel.now point (number_of start) }
    ensures { IsPlace dcel.now point result }
{
    every_mesh(dcel);
    let mut edge = ahead(dcel, start, point);
    // It passes no half edge twice.
    for _step in 0..dcel.num_directed_edges() {
        if !is_beyond(dcel, edge, point) {
            return between(dcel, edge, point);
        }
        let end = edge.to().fix();
        if dcel.is_line_end(end) {
            return PositionInTriangulation::BeyondLine(end);
        }
        edge = edge.next();
    }
    unreachable!()
}

/// Returns the half of an edge that a point on its line is not behind.
fn ahead<'a, UE, A: Allocator>(
    dcel: &'a EdgeMesh<UE, A>,
    edge: Edge<'a, UE, A>,
    point: Point,
) -> Edge<'a, UE, A>
    requires flat { IsFlat dcel.now }
    requires mesh { mesh_behind edge ≡ dcel.now }
    requires live { IsLive dcel.now.shape (number_of edge) }
    requires on { IsOnLine dcel.now point (number_of edge) }
    ensures mesh { mesh_behind result ≡ dcel.now }
    ensures live { IsLive dcel.now.shape (number_of result) }
    ensures on { IsOnLine dcel.now point (number_of result) }
    ensures not_behind { ¬ LiesBeyond (point_at dcel.now) dcel.now.shape point (rev (number_of result)) }
{
    every_mesh(dcel);
    let other = edge.rev();
    if is_beyond(dcel, other, point) {
        other
    } else {
        edge
    }
}

/// Returns where a point is on the line of a half edge, if it is beyond neither end.
fn between<'a, UE, A: Allocator>(
    dcel: &'a EdgeMesh<UE, A>,
    edge: Edge<'a, UE, A>,
    point: Point,
) -> PositionInTriangulation
    requires flat { IsFlat dcel.now }
    requires mesh { mesh_behind edge ≡ dcel.now }
    requires live { IsLive dcel.now.shape (number_of edge) }
    requires on { IsOnLine dcel.now point (number_of edge) }
    requires not_beyond { ¬ LiesBeyond (point_at dcel.now) dcel.now.shape point (number_of edge) }
    requires not_behind { ¬ LiesBeyond (point_at dcel.now) dcel.now.shape point (rev (number_of edge)) }
    ensures { IsPlace dcel.now point result }
{
    every_mesh(dcel);
    if stands_at(edge.from(), point) {
        return PositionInTriangulation::OnVertex(edge.from().fix());
    }
    if stands_at(edge.to(), point) {
        return PositionInTriangulation::OnVertex(edge.to().fix());
    }
    PositionInTriangulation::OnEdge(edge.fix())
}
