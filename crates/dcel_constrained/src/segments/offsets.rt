//! Segments between two vertices, and how far vertices and half edges are from them.

ghost use Rattle.std.specs.Prelude.{◌≡◌, ◌<◌};
ghost use Rattle.dcel_maps.specs.Shapes.{IsLive};
ghost use Rattle.dcel_plane.specs.Plane.{point_at};
ghost use Rattle.dcel_plane.specs.segments.Segments.{corner_before, corner_beyond, orient2d_by, width};
ghost use Rattle.dcel_constrained.specs.Channels.{HasVertices};

use dcel_predicates::{Point, orient2d};
use spade_dcel::dcel::Dcel;
use spade_dcel::handles::{FixedDirectedEdgeHandle, FixedVertexHandle};
use spade_dcel::laws::every_mesh;
use std::alloc::Allocator;

/// Returns how far a vertex is on the left of a segment: it is 0 on its line, and negative on the
/// right.
pub(crate) fn offset_of<DE, UE, F, A: Allocator>(
    dcel: &Dcel<Point, DE, UE, F, A>,
    from: FixedVertexHandle,
    to: FixedVertexHandle,
    vertex: FixedVertexHandle,
) -> i128
    requires ends { HasVertices dcel.now.shape from to }
    requires vertex { vertex < dcel.now.shape.vertices }
    ensures { result ≡ orient2d_by (point_at dcel.now) from to vertex }
{
    orient2d(
        point_of(dcel, from),
        point_of(dcel, to),
        point_of(dcel, vertex),
    )
}

/// Returns how far apart the ends of a half edge are, across a segment.
pub(crate) fn width_of<DE, UE, F, A: Allocator>(
    dcel: &Dcel<Point, DE, UE, F, A>,
    from: FixedVertexHandle,
    to: FixedVertexHandle,
    edge: FixedDirectedEdgeHandle,
) -> i128
    requires ends { HasVertices dcel.now.shape from to }
    requires live { IsLive dcel.now.shape edge }
    ensures { result ≡ width (point_at dcel.now) dcel.now.shape from to edge }
{
    every_mesh(dcel);
    let half = dcel.directed_edge(edge);
    let end = offset_of(dcel, from, to, half.to().fix());
    let start = offset_of(dcel, from, to, half.from().fix());
    end - start
}

/// Returns where a vertex is.
pub(crate) fn point_of<DE, UE, F, A: Allocator>(
    dcel: &Dcel<Point, DE, UE, F, A>,
    vertex: FixedVertexHandle,
) -> Point
    requires { vertex < dcel.now.shape.vertices }
    ensures { result ≡ point_at dcel.now vertex }
{
    *dcel.vertex_data(vertex)
}

/// Returns the corner across from a half edge in its own triangle.
pub(crate) fn near_corner<DE, UE, F, A: Allocator>(
    dcel: &Dcel<Point, DE, UE, F, A>,
    edge: FixedDirectedEdgeHandle,
) -> FixedVertexHandle
    requires { IsLive dcel.now.shape edge }
    ensures value { result ≡ corner_before dcel.now.shape edge }
    ensures within { result < dcel.now.shape.vertices }
{
    every_mesh(dcel);
    dcel.directed_edge(edge).prev().from().fix()
}

/// Returns the corner across from a half edge in the triangle on its other side.
pub(crate) fn far_corner<DE, UE, F, A: Allocator>(
    dcel: &Dcel<Point, DE, UE, F, A>,
    edge: FixedDirectedEdgeHandle,
) -> FixedVertexHandle
    requires { IsLive dcel.now.shape edge }
    ensures value { result ≡ corner_beyond dcel.now.shape edge }
    ensures within { result < dcel.now.shape.vertices }
{
    every_mesh(dcel);
    dcel.directed_edge(edge).rev().prev().from().fix()
}
