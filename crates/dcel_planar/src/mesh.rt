//! The mesh of a triangulation.

ghost use Rattle.std.specs.Prelude.{◌≡◌, ◌↔◌, IsTrue};
ghost use Rattle.spade_dcel.specs.Handles.{mesh_behind, number_of};
ghost use Rattle.dcel_maps.specs.Shapes.{IsLive};
ghost use Rattle.dcel_plane.specs.Plane.{point_at};
ghost use Rattle.dcel_planar.specs.Places.{HasLeft, HasPoint, IsOnLine, LiesAt};

use dcel_predicates::{Point, Side, orientation};
use spade_dcel::dcel::Dcel;
use spade_dcel::handles::{DirectedEdgeHandle, VertexHandle};
use std::alloc::{Allocator, Global};

/// A mesh whose vertices are points.
pub type Mesh<A = Global> = Dcel<Point, (), (), (), A>;

/// A mesh whose vertices are points, with data at its edges.
pub type EdgeMesh<UE, A = Global> = Dcel<Point, (), UE, (), A>;

/// A half edge of a mesh whose vertices are points.
pub type Edge<'a, UE, A> = DirectedEdgeHandle<'a, Point, (), UE, (), A>;

/// A vertex of a mesh whose vertices are points.
pub type Vertex<'a, UE, A> = VertexHandle<'a, Point, (), UE, (), A>;

/// Returns the point of a vertex.
#[inline]
pub fn point_of<DE, UE, F, A: Allocator>(vertex: VertexHandle<'_, Point, DE, UE, F, A>) -> Point
    ensures { result ≡ point_at (mesh_behind vertex.entry) (number_of vertex.entry) }
{
    *vertex.data()
}

/// Returns on which side of a half edge a point is.
#[inline]
pub fn side<UE, A: Allocator>(edge: Edge<'_, UE, A>, point: Point) -> Side
    requires { IsLive (mesh_behind edge).shape (number_of edge) }
    ensures left { (result ≡ Side.Left) ↔ HasLeft (mesh_behind edge.entry) point (number_of edge.entry) }
    ensures on { (result ≡ Side.On) ↔ IsOnLine (mesh_behind edge.entry) point (number_of edge.entry) }
    ensures lies { LiesAt (mesh_behind edge.entry) point (number_of edge.entry) result }
{
    orientation(point_of(edge.from()), point_of(edge.to()), point)
}

/// Returns whether a vertex has this point.
#[inline]
pub(crate) fn stands_at<UE, A: Allocator>(vertex: Vertex<'_, UE, A>, point: Point) -> bool
    ensures { IsTrue result ↔ HasPoint (mesh_behind vertex.entry) point (number_of vertex.entry) }
{
    let own = *vertex.data();
    if own.x != point.x {
        return false;
    }
    if own.y != point.y {
        return false;
    }
    true
}
