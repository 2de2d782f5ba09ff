//! Edges flipped until few are left at a vertex.

ghost use Rattle.std.specs.Prelude.{◌≡◌, ◌↔◌, ◌<◌, IfNone, IfSome, IsTrue, OnErr, OnOk, true, vec_capacity, vec_len};
ghost use Rattle.dcel_maps.specs.Shapes.{edge_is_live};
ghost use Rattle.dcel_plane.specs.Plane.{TurnsLeft, point_at};
ghost use Rattle.dcel_plane.specs.removal.Wheels.{CanFlipInPlane};
ghost use Rattle.dcel_planar.specs.Growing.{HasHull, IsTriangleMesh};
ghost use Rattle.dcel_delaunay.specs.Removing.{HasNoneToTurn, IsInnerVertex, IsTurnable};
ghost use Rattle.dcel_delaunay.specs.Staying.{HasConstraintAt};
ghost use Rattle.dcel_delaunay.specs.Thinning.{HasPlaces, IsThinned, IsThinning, ListsAround, with_spokes};

use crate::remove::Due;
use crate::remove::around::{list_link, list_spokes};
use crate::remove::ears::{MOST_EARS, Ring};
use dcel_legalize::EdgeConstraint;
use dcel_planar::{EdgeMesh, Point, points_at};
use dcel_predicates::orientation;
use spade_dcel::handles::{FixedDirectedEdgeHandle, FixedUndirectedEdgeHandle, FixedVertexHandle};
use spade_dcel::laws::every_mesh;
use spade_dcel::operations::flip_cw;
use std::alloc::{AllocError, Allocator};

/// How many ears are tried: twice as many as there may be.
const MOST_TRIES: usize = 2 * MOST_EARS;

/// Flips edges of a vertex inside of triangles, each between two triangles that go round
/// counterclockwise afterwards too, until none of its edges can be flipped so. Lists the edges that
/// are to be looked at then, except those of the vertex, for which there are places left.
///
/// If memory runs out, it does so before the first flip; edges may be listed then.
pub(crate) fn thin_out<UE: EdgeConstraint, A: Allocator, L: Allocator>(
    dcel: &mut EdgeMesh<UE, A>,
    due: &mut Due<L>,
    vertex: FixedVertexHandle,
) -> Result<(), AllocError>
    requires sound { IsTriangleMesh dcel.old }
    requires hull { HasHull dcel.old }
    requires vertex { vertex < dcel.old.shape.vertices }
    requires inside { IsInnerVertex dcel.old.shape vertex }
    requires loose { ¬ HasConstraintAt UE.is_constraint dcel.old vertex }
    ensures thinning { OnOk result (IsThinning UE.is_constraint dcel.old dcel.new vertex due.old.items due.new.items) }
    ensures places { OnOk result (HasPlaces dcel.new vertex (vec_len due.new) (vec_capacity due.new)) }
    ensures done { OnOk result (HasNoneToTurn dcel.new vertex) }
    ensures refused { OnErr result (IsThinned UE.is_constraint dcel.old dcel.new vertex due.old.items due.new.items) }
{
    every_mesh(dcel);
    list_link(dcel, due, vertex)?;
    cut_ears(dcel, due, vertex);
    if has_three(dcel, vertex) {
        return Ok(());
    }
    cut_others(dcel, due, vertex);
    Ok(())
}

/// Flips edges of a vertex on the hull so, and lists the edges that are to be looked at then.
///
/// If memory runs out, it does so before the first flip; edges may be listed then.
pub(crate) fn thin_corner<UE: EdgeConstraint, A: Allocator, L: Allocator>(
    dcel: &mut EdgeMesh<UE, A>,
    due: &mut Due<L>,
    vertex: FixedVertexHandle,
) -> Result<(), AllocError>
    requires sound { IsTriangleMesh dcel.old }
    requires hull { HasHull dcel.old }
    requires vertex { vertex < dcel.old.shape.vertices }
    requires loose { ¬ HasConstraintAt UE.is_constraint dcel.old vertex }
    ensures thinned { IsThinned UE.is_constraint dcel.old dcel.new vertex due.old.items due.new.items }
    ensures done { OnOk result (HasNoneToTurn dcel.new vertex) }
{
    every_mesh(dcel);
    // Most corners have none, and may have very many edges.
    let Some(_edge) = edge_to_turn(dcel, vertex) else {
        return Ok(());
    };
    list_link(dcel, due, vertex)?;
    cut_others(dcel, due, vertex);
    list_spokes(dcel, due, vertex);
    Ok(())
}

/// Flips edges of a vertex so, the edge of the lowest ear first, as long as it knows of one, and lists
/// them.
fn cut_ears<UE: EdgeConstraint, A: Allocator, L: Allocator>(
    dcel: &mut EdgeMesh<UE, A>,
    due: &mut Due<L>,
    vertex: FixedVertexHandle,
)
    requires sound { IsTriangleMesh dcel.old }
    requires hull { HasHull dcel.old }
    requires vertex { vertex < dcel.old.shape.vertices }
    requires loose { ¬ HasConstraintAt UE.is_constraint dcel.old vertex }
    requires around { ListsAround dcel.old.shape vertex (with_spokes dcel.old vertex due.old.items) }
    requires places { HasPlaces dcel.old vertex (vec_len due.old) (vec_capacity due.old) }
    ensures thinning { IsThinning UE.is_constraint dcel.old dcel.new vertex (with_spokes dcel.old vertex due.old.items) due.new.items }
    ensures places { HasPlaces dcel.new vertex (vec_len due.new) (vec_capacity due.new) }
{
    every_mesh(dcel);
    let mut ring = Ring::new();
    ring.measure(dcel, vertex);
    for _step in 0..MOST_TRIES {
        let Some(place) = ring.lowest() else {
            return;
        };
        let Some(edge) = turnable(dcel, vertex, ring.spoke(place)) else {
            ring.pass_over(place);
            continue;
        };
        flip_cw(dcel, edge);
        due.push_reserved(edge);
        ring.cut(place);
    }
}

/// Flips edges of a vertex so, until none can be flipped, and lists them.
fn cut_others<UE: EdgeConstraint, A: Allocator, L: Allocator>(
    dcel: &mut EdgeMesh<UE, A>,
    due: &mut Due<L>,
    vertex: FixedVertexHandle,
)
    requires sound { IsTriangleMesh dcel.old }
    requires hull { HasHull dcel.old }
    requires vertex { vertex < dcel.old.shape.vertices }
    requires loose { ¬ HasConstraintAt UE.is_constraint dcel.old vertex }
    requires around { ListsAround dcel.old.shape vertex (with_spokes dcel.old vertex due.old.items) }
    requires places { HasPlaces dcel.old vertex (vec_len due.old) (vec_capacity due.old) }
    ensures thinning { IsThinning UE.is_constraint dcel.old dcel.new vertex (with_spokes dcel.old vertex due.old.items) due.new.items }
    ensures places { HasPlaces dcel.new vertex (vec_len due.new) (vec_capacity due.new) }
    ensures done { HasNoneToTurn dcel.new vertex }
{
    every_mesh(dcel);
    while let Some(edge) = edge_to_turn(dcel, vertex) {
        flip_cw(dcel, edge);
        due.push_reserved(edge);
    }
}

/// Returns whether a vertex inside of triangles has three edges, of which none can be flipped so.
fn has_three<UE, A: Allocator>(dcel: &EdgeMesh<UE, A>, vertex: FixedVertexHandle) -> bool
    requires sound { IsTriangleMesh dcel.now }
    requires hull { HasHull dcel.now }
    requires vertex { vertex < dcel.now.shape.vertices }
    requires inside { IsInnerVertex dcel.now.shape vertex }
    ensures { IsTrue result → HasNoneToTurn dcel.now vertex }
{
    every_mesh(dcel);
    let Some(spoke) = dcel.vertex(vertex).out_edge() else {
        return false;
    };
    spoke.ccw().ccw().ccw().fix() == spoke.fix()
}

/// Returns the edge of a half edge, if it is an edge of a vertex that can be flipped so.
fn turnable<UE, A: Allocator>(
    dcel: &EdgeMesh<UE, A>,
    vertex: FixedVertexHandle,
    half: FixedDirectedEdgeHandle,
) -> Option<FixedUndirectedEdgeHandle>
    requires { IsTriangleMesh dcel.now }
    ensures { IfSome result (IsTurnable dcel.now vertex) }
{
    if dcel.get_directed_edge(half)?.from().fix() != vertex {
        return None;
    }
    let edge = half.as_undirected();
    if !can_turn(dcel, edge) {
        return None;
    }
    Some(edge)
}

/// Returns an edge of a vertex that can be flipped so, if there is one.
fn edge_to_turn<UE, A: Allocator>(
    dcel: &EdgeMesh<UE, A>,
    vertex: FixedVertexHandle,
) -> Option<FixedUndirectedEdgeHandle>
    requires sound { IsTriangleMesh dcel.now }
    requires vertex { vertex < dcel.now.shape.vertices }
    ensures some { IfSome result (IsTurnable dcel.now vertex) }
    ensures none { IfNone result (HasNoneToTurn dcel.now vertex) }
{
    let mut edges = dcel.vertex(vertex).out_edges();
    while let Some(edge) = edges.next() {
        let edge = edge.fix().as_undirected();
        if can_turn(dcel, edge) {
            return Some(edge);
        }
    }
    None
}

/// Returns whether an edge is between two inner triangles and can be flipped, and both go round
/// counterclockwise then too.
///
/// If they do, the corners opposite the edge differ. So that isn't tested.
fn can_turn<UE, A: Allocator>(dcel: &EdgeMesh<UE, A>, edge: FixedUndirectedEdgeHandle) -> bool
    requires sound { IsTriangleMesh dcel.now }
    requires live { edge_is_live dcel.now.shape edge ≡ true }
    ensures { IsTrue result ↔ CanFlipInPlane (point_at dcel.now) dcel.now.shape edge }
{
    every_mesh(dcel);
    let half = dcel.undirected_edge(edge).as_directed();
    if half.is_part_of_convex_hull() {
        return false;
    }
    let points = points_at(dcel, edge);
    if !turns_left(points.near, points.far, points.to) {
        return false;
    }
    turns_left(points.far, points.near, points.from)
}

/// Returns whether three points go round counterclockwise.
pub(crate) fn turns_left(a: Point, b: Point, c: Point) -> bool
    ensures { IsTrue result ↔ TurnsLeft a b c }
{
    orientation(a, b, c).is_on_left_side()
}
