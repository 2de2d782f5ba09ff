//! Where a point is: a walk from triangle to triangle.

ghost use Rattle.std.specs.Prelude.{◌≡◌, ◌≢◌, ◌<◌, IfErr, IfNone, IfOk, IfSome};
ghost use Rattle.spade_dcel.specs.Handles.{mesh_behind, number_of};
ghost use Rattle.dcel_maps.specs.Removals.{Closed};
ghost use Rattle.dcel_maps.specs.Shapes.{IsLive, face_of, next_of, prev_of};
ghost use Rattle.dcel_plane.specs.Plane.{IsLocallyDelaunay, point_at};
ghost use Rattle.dcel_plane.specs.location.Locating.{HasBeyond};
ghost use Rattle.dcel_planar.specs.Growing.{HasHull, IsTriangleMesh};
ghost use Rattle.dcel_planar.specs.Places.{LiesAtSides, IsPlace, LiesAt};

use crate::mesh::{Edge, EdgeMesh, side};
use crate::position::PositionInTriangulation;
use dcel_predicates::{Point, Side};
use spade_dcel::handles::{FixedDirectedEdgeHandle, FixedFaceHandle, InnerTag};
use spade_dcel::laws::every_mesh;
use std::alloc::Allocator;

/// Returns the half edge where a walk begins: this one, or the first if there is no such.
pub(crate) fn beginning<'a, UE, A: Allocator>(
    dcel: &'a EdgeMesh<UE, A>,
    start: FixedDirectedEdgeHandle,
) -> Edge<'a, UE, A>
    requires closed { dcel.now.shape.removal ≡ Closed }
    requires some { 0 < dcel.now.shape.edges }
    ensures mesh { mesh_behind result ≡ dcel.now }
    ensures live { IsLive dcel.now.shape (number_of result) }
{
    match dcel.get_directed_edge(start) {
        Some(edge) => edge,
        None => dcel.directed_edge(FixedDirectedEdgeHandle::new(0)),
    }
}

/// Returns the half of an edge that is in a triangle, the given one if both are.
pub(crate) fn inner_half<'a, UE, A: Allocator>(
    dcel: &'a EdgeMesh<UE, A>,
    edge: Edge<'a, UE, A>,
) -> Edge<'a, UE, A>
    requires triangulated { IsTriangleMesh dcel.now }
    requires hull { HasHull dcel.now }
    requires mesh { mesh_behind edge ≡ dcel.now }
    requires live { IsLive dcel.now.shape (number_of edge) }
    ensures mesh { mesh_behind result ≡ dcel.now }
    ensures live { IsLive dcel.now.shape (number_of result) }
    ensures inner { 0 < face_of dcel.now.shape (number_of result) }
{
    every_mesh(dcel);
    if edge.is_outer_edge() {
        edge.rev()
    } else {
        edge
    }
}

/// Goes on across sides that have the point on their right, up to the outer face or to a triangle
/// without such a side, but at most as often as there are faces.
///
/// It comes to no triangle of a Delaunay triangulation twice. Where edges are not Delaunay it may go
/// in circles.
pub(crate) fn walk<'a, UE, A: Allocator>(
    dcel: &'a EdgeMesh<UE, A>,
    start: Edge<'a, UE, A>,
    point: Point,
) -> Option<PositionInTriangulation>
    requires triangulated { IsTriangleMesh dcel.now }
    requires mesh { mesh_behind start ≡ dcel.now }
    requires live { IsLive dcel.now.shape (number_of start) }
    requires inner { 0 < face_of dcel.now.shape (number_of start) }
    ensures place { IfSome result (IsPlace dcel.now point) }
    ensures ends { IfNone result (¬ IsLocallyDelaunay (point_at dcel.now) dcel.now.shape) }
{
    every_mesh(dcel);
    let mut edge = start;
    let mut own = side(edge, point);
    for step in 0..dcel.num_faces() {
        // By turns, so that it doesn't go on round a vertex with very many edges.
        let order = if step % 2 == 0 {
            Order::NextFirst
        } else {
            Order::PrevFirst
        };
        match look(dcel, edge, own, order, point) {
            Ok(position) => return Some(position),
            Err(crossed) => edge = crossed.rev(),
        }
        if edge.is_outer_edge() {
            return Some(PositionInTriangulation::OutsideOfConvexHull(edge.fix()));
        }
        own = Side::Left;
    }
    None
}

/// Which of the other two sides of a triangle is looked at first.
#[derive(Clone, Copy)]
pub(crate) enum Order {
    /// The one after the half edge.
    NextFirst,
    /// The one before it.
    PrevFirst,
}

/// Returns where a point is in the triangle of a half edge, or a side that it is beyond.
///
/// `own` is the point's side of this half edge ([`side`]); those of the other two are computed.
#[inline]
pub(crate) fn look<'a, UE, A: Allocator>(
    dcel: &'a EdgeMesh<UE, A>,
    edge: Edge<'a, UE, A>,
    own: Side,
    order: Order,
    point: Point,
) -> Result<PositionInTriangulation, Edge<'a, UE, A>>
    requires triangulated { IsTriangleMesh dcel.now }
    requires mesh { mesh_behind edge ≡ dcel.now }
    requires live { IsLive dcel.now.shape (number_of edge) }
    requires inner { 0 < face_of dcel.now.shape (number_of edge) }
    requires own { LiesAt dcel.now point (number_of edge) own }
    ensures found { IfOk result (IsPlace dcel.now point) }
    ensures mesh { IfErr result (λ crossed. mesh_behind crossed ≡ dcel.now) }
    ensures face { IfErr result (λ crossed. face_of dcel.now.shape (number_of crossed) ≡ face_of dcel.now.shape (number_of edge.entry)) }
    ensures beyond { IfErr result (λ crossed. HasBeyond (point_at dcel.now) dcel.now.shape point (number_of crossed)) }
{
    every_mesh(dcel);
    if own.is_on_right_side() {
        return Err(edge);
    }
    let (next, prev) = (edge.next(), edge.prev());
    let (after, before) = match order {
        Order::NextFirst => {
            let after = side_within(dcel, next, point)?;
            (after, side_within(dcel, prev, point)?)
        }
        Order::PrevFirst => {
            let before = side_within(dcel, prev, point)?;
            (side_within(dcel, next, point)?, before)
        }
    };
    Ok(place(dcel, edge, own, after, before))
}

/// Returns on which side of a half edge of a triangle a point is, or the half edge if the point is
/// beyond it.
#[inline]
fn side_within<'a, UE, A: Allocator>(
    dcel: &'a EdgeMesh<UE, A>,
    edge: Edge<'a, UE, A>,
    point: Point,
) -> Result<Side, Edge<'a, UE, A>>
    requires mesh { mesh_behind edge ≡ dcel.now }
    requires live { IsLive dcel.now.shape (number_of edge) }
    requires inner { 0 < face_of dcel.now.shape (number_of edge) }
    ensures lies { IfOk result (LiesAt dcel.now point (number_of edge.entry)) }
    ensures within { IfOk result (λ side. side ≢ Side.Right) }
    ensures mesh { IfErr result (λ crossed. mesh_behind crossed ≡ dcel.now) }
    ensures same { IfErr result (λ crossed. number_of crossed ≡ number_of edge.entry) }
    ensures beyond { IfErr result (λ crossed. HasBeyond (point_at dcel.now) dcel.now.shape point (number_of crossed)) }
{
    every_mesh(dcel);
    let found = side(edge, point);
    if found.is_on_right_side() {
        return Err(edge);
    }
    Ok(found)
}

/// Returns where a point is by its sides of the half edges of a triangle, from this one on, none
/// of which has it on the right: on two of them it is at their corner, on one strictly between its
/// ends, and on none inside.
#[inline]
fn place<UE, A: Allocator>(
    dcel: &EdgeMesh<UE, A>,
    edge: Edge<'_, UE, A>,
    own: Side,
    after: Side,
    before: Side,
) -> PositionInTriangulation
    requires triangulated { IsTriangleMesh dcel.now }
    requires mesh { mesh_behind edge ≡ dcel.now }
    requires live { IsLive dcel.now.shape (number_of edge) }
    requires inner { 0 < face_of dcel.now.shape (number_of edge) }
    ensures { (p : Point) → LiesAtSides dcel.now p (number_of edge.entry) own after before → IsPlace dcel.now p result }
{
    every_mesh(dcel);
    match (own.is_on_line(), after.is_on_line(), before.is_on_line()) {
        (true, true, _) => PositionInTriangulation::OnVertex(edge.to().fix()),
        (true, _, true) => PositionInTriangulation::OnVertex(edge.from().fix()),
        (_, true, true) => PositionInTriangulation::OnVertex(edge.prev().from().fix()),
        (true, false, false) => PositionInTriangulation::OnEdge(edge.fix()),
        (false, true, false) => PositionInTriangulation::OnEdge(edge.next().fix()),
        (false, false, true) => PositionInTriangulation::OnEdge(edge.prev().fix()),
        (false, false, false) => PositionInTriangulation::OnFace(inner_face(edge)),
    }
}

/// Returns the triangle of a half edge.
#[inline]
fn inner_face<UE, A: Allocator>(edge: Edge<'_, UE, A>) -> FixedFaceHandle<InnerTag>
    requires live { IsLive (mesh_behind edge).shape (number_of edge) }
    requires inner { 0 < face_of (mesh_behind edge).shape (number_of edge) }
    ensures { result ≡ face_of (mesh_behind edge.entry).shape (number_of edge.entry) }
{
    edge.face().as_inner().unwrap().fix()
}
