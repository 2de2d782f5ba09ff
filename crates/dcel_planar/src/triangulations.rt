//! Whether a mesh is a Delaunay triangulation of its vertices.

ghost use Rattle.std.specs.Prelude.{◌≡◌, ◌<◌, ◌↔◌, IsTrue, ℕ};
ghost use Rattle.dcel_plane.specs.covering.Delaunay.{IsDelaunayTriangulation};
ghost use Rattle.dcel_maps.specs.Conditions.{IsUnconnected};
ghost use Rattle.dcel_maps.specs.Removals.{Closed};
ghost use Rattle.dcel_maps.specs.Shapes.{face_count};
ghost use Rattle.dcel_maps.specs.Triangulations.{AllTriangles};
ghost use Rattle.dcel_plane.specs.Plane.{point_at};

use crate::planes::is_delaunay;
use crate::rounds::goes_round;
use dcel_predicates::Point;
use spade_dcel::dcel::{Dcel, RemovalState};
use spade_dcel::handles::{FixedFaceHandle, FixedVertexHandle, InnerTag};
use spade_dcel::laws::every_mesh;
use std::alloc::Allocator;

/// Returns whether a mesh is a Delaunay triangulation of its vertices, as one made elsewhere may be
/// or not.
///
/// It is one if no removal is open, there is an inner face, each inner face is a triangle, each
/// vertex has an edge, no edge is to be flipped ([`is_delaunay`]), and the outer face is the convex
/// hull of the vertices, which passes each vertex once. By the laws of `dcel_plane` no vertex
/// then is inside the circle of any triangle, the triangles don't overlap, they cover the hull,
/// and different vertices are at different points. A path isn't one.
///
/// The hull is tested edge by edge too: nowhere does the outer face turn left, and it goes round
/// once. So the time is linear: each vertex, half edge, edge and face is looked at a few times, and
/// no memory is asked for.
pub fn is_delaunay_triangulation<DE, UE, F, A: Allocator>(dcel: &Dcel<Point, DE, UE, F, A>) -> bool
    ensures { IsTrue result ↔ IsDelaunayTriangulation (point_at dcel.now) dcel.now.shape }
{
    every_mesh(dcel);
    if !has_inner_face(dcel) {
        return false;
    }
    if !is_closed(dcel) {
        return false;
    }
    if !has_triangles(dcel) {
        return false;
    }
    if has_unconnected(dcel) {
        return false;
    }
    if !is_delaunay(dcel) {
        return false;
    }
    goes_round(dcel)
}

fn has_inner_face<DE, UE, F, A: Allocator>(dcel: &Dcel<Point, DE, UE, F, A>) -> bool
    ensures { IsTrue result ↔ (1 < face_count dcel.now.shape) }
{
    dcel.num_faces() > 1
}

// Returns whether no removal is open.
fn is_closed<DE, UE, F, A: Allocator>(dcel: &Dcel<Point, DE, UE, F, A>) -> bool
    ensures { IsTrue result ↔ (dcel.now.shape.removal ≡ Closed) }
{
    match dcel.removal_state() {
        RemovalState::Closed => true,
        RemovalState::Isolated => false,
        RemovalState::Cleaned => false,
    }
}

// Returns whether each inner face is a triangle.
fn has_triangles<DE, UE, F, A: Allocator>(dcel: &Dcel<Point, DE, UE, F, A>) -> bool
    requires { dcel.now.shape.removal ≡ Closed }
    ensures { IsTrue result ↔ AllTriangles dcel.now.shape }
{
    for number in 1..dcel.num_faces() {
        let face: FixedFaceHandle<InnerTag> = FixedFaceHandle::new(number);
        if !dcel.is_triangle(face) {
            return false;
        }
    }
    true
}

// Returns whether some vertex has no edge.
fn has_unconnected<DE, UE, F, A: Allocator>(dcel: &Dcel<Point, DE, UE, F, A>) -> bool
    ensures { IsTrue result ↔ ((v : ℕ) × (v < dcel.now.shape.vertices) × IsUnconnected dcel.now.shape v) }
{
    for number in 0..dcel.num_vertices() {
        if dcel.is_unconnected(FixedVertexHandle::new(number)) {
            return true;
        }
    }
    false
}
