//! Paths, which stand in a row.

use dcel_drawn::Place;
use spade_dcel::dcel::Dcel;
use spade_dcel::handles::{FixedDirectedEdgeHandle, FixedFaceHandle, FixedVertexHandle, InnerTag};
use spade_dcel::iterators::HullIterator;
use std::alloc::Allocator;
use std::num::nearest_usize_to_f64;

/// How far a vertex stands from the next one: so that a short row and a spread mesh, which share a
/// scale in a page, are about as wide. Each power of two gives the same picture of a mesh alone.
const STEP: f64 = 0.25;

/// Returns whether the live edges are one path: the outer face is the only one, and at most two
/// edges meet at each vertex.
pub(crate) fn is_path<V, DE, UE, F, A: Allocator>(mesh: &Dcel<V, DE, UE, F, A>) -> bool {
    for number in 1..mesh.num_faces() {
        let face: FixedFaceHandle<InnerTag> = FixedFaceHandle::new(number);
        if mesh.is_live_face(face) {
            return false;
        }
    }
    for edge in HullIterator::new(mesh) {
        if edge.ccw().ccw().fix() != edge.fix() {
            return false;
        }
    }
    true
}

/// Gives the vertices of a path places in a row, so that the least half edge leads to the right.
pub(crate) fn set_row<V, DE, UE, F, A: Allocator>(
    mesh: &Dcel<V, DE, UE, F, A>,
    places: &mut [Option<Place>],
) {
    let Some(start) = start_of_path(mesh) else {
        return;
    };
    let direction = if leads_along(mesh, start) {
        STEP
    } else {
        -STEP
    };
    let mut half = start;
    for step in 0..mesh.num_directed_edges() {
        let Some(edge) = mesh.get_directed_edge(half) else {
            return;
        };
        let x = direction * nearest_usize_to_f64(step);
        set(places, edge.from().index(), Place::new(x, 0.0));
        set(places, edge.to().index(), Place::new(x + direction, 0.0));
        half = edge.next().fix();
        if half == edge.rev().fix() {
            return;
        }
    }
}

fn set(places: &mut [Option<Place>], vertex: usize, place: Place) {
    if let Some(one) = places.get_mut(vertex) {
        *one = Some(place);
    }
}

/// Returns the half edge out of the first end of the path.
fn start_of_path<V, DE, UE, F, A: Allocator>(
    mesh: &Dcel<V, DE, UE, F, A>,
) -> Option<FixedDirectedEdgeHandle> {
    for number in 0..mesh.num_vertices() {
        let vertex = FixedVertexHandle::new(number);
        if mesh.is_line_end(vertex) {
            return mesh.vertex_out_edge(vertex);
        }
    }
    None
}

/// Returns whether the least live half edge lies on the way along the path.
fn leads_along<V, DE, UE, F, A: Allocator>(
    mesh: &Dcel<V, DE, UE, F, A>,
    start: FixedDirectedEdgeHandle,
) -> bool {
    let mut least = start;
    let mut half = start;
    for _ in 0..mesh.num_directed_edges() {
        let Some(edge) = mesh.get_directed_edge(half) else {
            break;
        };
        if half.as_undirected().index() < least.as_undirected().index() {
            least = half;
        }
        half = edge.next().fix();
        if half == edge.rev().fix() {
            break;
        }
    }
    least.index() % 2 == 0
}
