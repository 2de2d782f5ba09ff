//! Tests of whole meshes: whether one is in the plane, and whether it is Delaunay.

ghost use Rattle.std.specs.Prelude.{◌<◌, ◌↔◌, IsTrue};
ghost use Rattle.dcel_maps.specs.Shapes.{face_count};
ghost use Rattle.dcel_plane.specs.Plane.{IsLocallyDelaunay, TrianglesTurnLeft, point_at};
ghost use Rattle.dcel_planar.specs.Turning.{GoesLeft};

use crate::circles::is_circled;
use crate::mesh::point_of;
use dcel_predicates::{Point, orientation};
use spade_dcel::dcel::Dcel;
use spade_dcel::handles::{FixedFaceHandle, FixedUndirectedEdgeHandle, InnerTag};
use spade_dcel::laws::every_mesh;
use std::alloc::Allocator;

/// Returns whether the corners of each inner triangle go round counterclockwise.
///
/// It looks at each face once.
pub fn is_plane<DE, UE, F, A: Allocator>(dcel: &Dcel<Point, DE, UE, F, A>) -> bool
    ensures { IsTrue result ↔ TrianglesTurnLeft (point_at dcel.now) dcel.now.shape }
{
    every_mesh(dcel);
    for number in 1..dcel.num_faces() {
        if !goes_left(dcel, FixedFaceHandle::new(number)) {
            return false;
        }
    }
    true
}

/// Returns whether a mesh is in the plane ([`is_plane`]) and no edge is to be flipped
/// ([`is_circled`]).
///
/// It looks at each face and each edge once.
pub fn is_delaunay<DE, UE, F, A: Allocator>(dcel: &Dcel<Point, DE, UE, F, A>) -> bool
    ensures { IsTrue result ↔ IsLocallyDelaunay (point_at dcel.now) dcel.now.shape }
{
    if !is_plane(dcel) {
        return false;
    }
    for number in 0..dcel.num_undirected_edges() {
        if is_circled(dcel, FixedUndirectedEdgeHandle::new(number)) {
            return false;
        }
    }
    true
}

// Returns whether the corners of a face go round counterclockwise, if there are three.
fn goes_left<DE, UE, F, A: Allocator>(
    dcel: &Dcel<Point, DE, UE, F, A>,
    face: FixedFaceHandle<InnerTag>,
) -> bool
    requires inner { 0 < face }
    requires within { face < face_count dcel.now.shape }
    ensures { IsTrue result ↔ GoesLeft (point_at dcel.now) dcel.now.shape face }
{
    every_mesh(dcel);
    if !dcel.is_triangle(face) {
        return true;
    }
    let edge = dcel.face(face).adjacent_edge();
    orientation(
        point_of(edge.from()),
        point_of(edge.to()),
        point_of(edge.prev().from()),
    )
    .is_on_left_side()
}
