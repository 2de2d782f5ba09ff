//! Where a walk to a point begins: where the last one ended, if that is near, or else at the nearest
//! of a few vertices.
//!
//! Going to the nearest of a sample first makes walks to points in no order short (E. P. Mücke, I.
//! Saias and B. Zhu, "Fast randomized point location without preprocessing in two- and
//! three-dimensional Delaunay triangulations", 1996). The sample is small where few vertices are, and
//! always the same for one number of vertices.

ghost use Rattle.spade_dcel.specs.Handles.{mesh_behind, number_of};
ghost use Rattle.dcel_maps.specs.Shapes.{IsLive};

use crate::locate::walk::squared_distance;
use dcel_planar::{Edge, EdgeMesh, Point, Vertex, point_of};
use spade_dcel::handles::{FixedDirectedEdgeHandle, FixedVertexHandle};
use spade_dcel::laws::every_mesh;
use std::alloc::Allocator;

/// With fewer vertices each walk is short.
const FEW: usize = 64;

/// Returns the half edge at which a walk to a point begins: `last`, or one of a vertex nearer to it.
pub(crate) fn start_near<UE, A: Allocator>(
    dcel: &EdgeMesh<UE, A>,
    last: FixedDirectedEdgeHandle,
    point: Point,
) -> FixedDirectedEdgeHandle {
    every_mesh(dcel);
    let count = dcel.num_vertices();
    if count < FEW {
        return last;
    }
    let Some(edge) = dcel.get_directed_edge(last) else {
        return last;
    };
    let distance = squared_distance(edge.from(), point);
    if is_near(edge, distance) {
        return last;
    }
    nearest_of_sample(dcel, last, distance, point)
}

/// Returns whether a place so far from where a half edge starts is at most some eight edges away.
fn is_near<UE, A: Allocator>(edge: Edge<'_, UE, A>, distance: u128) -> bool
    requires { IsLive (mesh_behind edge).shape (number_of edge) }
{
    let from = edge.from();
    let corner = point_of(edge.prev().from());
    let length = squared_distance(edge.to(), point_of(from));
    let other = squared_distance(from, corner);
    distance / 64 <= length.min(other)
}

/// Returns a half edge of the nearest of a sample of vertices, if it is nearer to a point than so far
/// away, or else `last`.
///
/// The sample has some two to four times the cube root of their number, spread evenly over the
/// numbers.
fn nearest_of_sample<UE, A: Allocator>(
    dcel: &EdgeMesh<UE, A>,
    last: FixedDirectedEdgeHandle,
    distance: u128,
    point: Point,
) -> FixedDirectedEdgeHandle {
    let count = dcel.num_vertices();
    let bits = usize::BITS.saturating_sub(count.leading_zeros());
    let step = (count >> (bits / 3 + 1)) + 1;
    let mut least = distance;
    let mut start = last;
    let mut number = 0;
    while number < count {
        let vertex = dcel.vertex(FixedVertexHandle::new(number));
        let distance = squared_distance(vertex, point);
        if distance < least {
            least = distance;
            start = edge_or(vertex, start);
        }
        number += step;
    }
    start
}

/// Returns a half edge that starts at a vertex, or another one if there is none.
fn edge_or<UE, A: Allocator>(
    vertex: Vertex<'_, UE, A>,
    other: FixedDirectedEdgeHandle,
) -> FixedDirectedEdgeHandle {
    match vertex.out_edge() {
        Some(edge) => edge.fix(),
        None => other,
    }
}
