//! The search for the half edge from one vertex to another, in a mesh of triangles.

ghost use Rattle.std.specs.Prelude.{◌<◌, All, IfOk};
ghost use Rattle.dcel_speed.specs.Growth.{IsTriangulated};

use crate::fault::Fault;
use crate::measure::time_reading;
use crate::random::Random;
use crate::round_vertex::{degree, least_and_count, turned};
use crate::workloads::{Mesh, Outcome, Timed, triangulated};
use spade_dcel::handles::{FixedVertexHandle, VertexHandle};
use spade_dcel::laws::every_mesh;
use std::alloc::{AllocError, Global};
use std::rt::Clock;

/// Offset of its random seed from that of `insert`.
const OWN: u64 = 5;

/// Two vertices between which an edge is sought.
#[derive(Clone, Copy)]
struct Pair {
    from: FixedVertexHandle,
    to: FixedVertexHandle,
}

/// Times the search for `size` pairs of vertices, drawn beforehand.
pub fn neighbors<D: Default + Drop>(
    rt: &(impl Clock + AllocGlobal),
    size: u32,
) -> Result<Timed, Fault> {
    let dcel = triangulated::<D>(rt.alloc(), size)?;
    let pairs = drawn_pairs(rt.alloc(), &dcel, size)?;
    let pass = ||
        requires { All (λ pair. pair.from < dcel.shape.vertices) pairs.items }
    { edges_between(&dcel, &pairs) };
    time_reading(rt, pass)
}

/// Seeks the half edge from the first to the second vertex of each pair, and returns the sum of the
/// numbers found, each plus 1.
fn edges_between<D>(dcel: &Mesh<D>, pairs: &[Pair]) -> Outcome
    requires { All (λ pair. pair.from < dcel.now.shape.vertices) pairs.now }
{
    let mut sum: u64 = 0;
    for pair in pairs {
        if let Some(edge) = dcel.get_edge_from_neighbors(pair.from, pair.to) {
            sum = sum.wrapping_add(edge.index() as u64 + 1);
        }
    }
    Outcome {
        checksum: sum,
        operations: pairs.len() as u64,
    }
}

/// Draws `size` pairs: by turns any two vertices, and two with an edge between them.
fn drawn_pairs<D>(alloc: Global, dcel: &Mesh<D>, count: u32) -> Result<Vec<Pair>, AllocError>
    requires { IsTriangulated dcel.now.shape }
    ensures { IfOk result (λ pairs. All (λ pair. pair.from < dcel.now.shape.vertices) pairs.items) }
{
    every_mesh(dcel);
    let mut random = Random::new(OWN);
    let mut pairs = Vec::new(alloc);
    for index in 0..count {
        pairs.push(drawn_pair(dcel, &mut random, index % 2 == 1))?;
    }
    Ok(pairs)
}

/// Draws a pair: two vertices with an edge between them if `are_neighbors`, and any two otherwise.
fn drawn_pair<D>(dcel: &Mesh<D>, random: &mut Random, are_neighbors: bool) -> Pair
    requires { 0 < dcel.now.shape.vertices }
    ensures { result.from < dcel.now.shape.vertices }
{
    let from = drawn_vertex(dcel, random);
    let to = if are_neighbors {
        drawn_neighbor(dcel.vertex(from), random)
    } else {
        drawn_vertex(dcel, random)
    };
    Pair { from, to }
}

/// Draws a vertex.
fn drawn_vertex<D>(dcel: &Mesh<D>, random: &mut Random) -> FixedVertexHandle
    requires { 0 < dcel.now.shape.vertices }
    ensures { result < dcel.now.shape.vertices }
{
    FixedVertexHandle::new(random.below(dcel.num_vertices()))
}

/// Draws a neighbor of a vertex: the out edges are counted by `ccw` from the least one on. A vertex
/// without edges is its own neighbor.
fn drawn_neighbor<D>(
    vertex: VertexHandle<'_, i64, D, D, D>,
    random: &mut Random,
) -> FixedVertexHandle {
    let Some(out_edge) = vertex.out_edge() else {
        return vertex.fix();
    };
    let steps = random.below(degree(out_edge));
    let (least, _) = least_and_count(out_edge);
    turned(least, steps).to().fix()
}
