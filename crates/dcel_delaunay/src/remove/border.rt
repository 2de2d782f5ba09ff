//! The border loop of a vertex inside of triangles.

ghost use Rattle.std.specs.Prelude.{◌↔◌, IsTrue};
ghost use Rattle.dcel_maps.specs.Shapes.{IsLive};
ghost use Rattle.dcel_plane.specs.Plane.{point_at};
ghost use Rattle.dcel_plane.specs.removal.Wheels.{MakesTwo};
ghost use Rattle.spade_dcel.specs.Handles.{mesh_behind, number_of};
ghost use Rattle.dcel_delaunay.specs.Removing.{BeginsBorder, IsBorder, IsThinnedOut};

use crate::remove::flips::turns_left;
use dcel_planar::{Edge, EdgeMesh, point_of};
use spade_dcel::handles::{FixedDirectedEdgeHandle, FixedVertexHandle};
use spade_dcel::laws::every_mesh;
use std::alloc::Allocator;

/// The border loop of a vertex inside of triangles, none of whose edges can be flipped any more, from
/// where the triangles that fill it go round counterclockwise.
#[derive(Clone, Copy)]
pub(crate) enum Border {
    /// Of three edges.
    Triangle([FixedDirectedEdgeHandle; 3]),
    /// Of four.
    Square([FixedDirectedEdgeHandle; 4]),
}

/// Returns the border loop of a vertex.
pub(crate) fn border_of<UE, A: Allocator>(
    dcel: &EdgeMesh<UE, A>,
    vertex: FixedVertexHandle,
) -> Border
    requires { IsThinnedOut dcel.now vertex }
    ensures { IsBorder dcel.now vertex result }
{
    every_mesh(dcel);
    let begin = beginning(dcel, vertex);
    let first = dcel.directed_edge(begin);
    let second = first.ccw();
    let third = second.ccw();
    let fourth = third.ccw();
    if fourth.fix() == begin {
        return Border::Triangle([third.next().fix(), second.next().fix(), first.next().fix()]);
    }
    Border::Square([
        fourth.next().fix(),
        third.next().fix(),
        second.next().fix(),
        first.next().fix(),
    ])
}

/// Returns the out edge of the vertex at which the border loop begins: of three edges any, of four one
/// from which two triangles go round counterclockwise.
fn beginning<UE, A: Allocator>(
    dcel: &EdgeMesh<UE, A>,
    vertex: FixedVertexHandle,
) -> FixedDirectedEdgeHandle
    requires { IsThinnedOut dcel.now vertex }
    ensures { BeginsBorder dcel.now vertex result }
{
    every_mesh(dcel);
    let around = dcel.vertex(vertex);
    let Some(anchor) = around.out_edge() else {
        unreachable!()
    };
    if anchor.ccw().ccw().ccw().fix() == anchor.fix() {
        return anchor.fix();
    }
    let mut edges = around.out_edges();
    while let Some(edge) = edges.next() {
        if makes_two(edge) {
            return edge.fix();
        }
    }
    anchor.fix()
}

/// Returns whether, of the four out edges of a vertex, a line from where this one ends to where the
/// next but one ends makes two triangles that go round counterclockwise.
fn makes_two<UE, A: Allocator>(edge: Edge<'_, UE, A>) -> bool
    requires { IsLive (mesh_behind edge).shape (number_of edge) }
    ensures { IsTrue result ↔ MakesTwo (point_at (mesh_behind edge.entry)) (mesh_behind edge.entry).shape (number_of edge.entry) }
{
    let second = edge.ccw();
    let third = second.ccw();
    let fourth = third.ccw();
    if !turns_left(
        point_of(edge.to()),
        point_of(second.to()),
        point_of(third.to()),
    ) {
        return false;
    }
    turns_left(
        point_of(third.to()),
        point_of(fourth.to()),
        point_of(edge.to()),
    )
}
