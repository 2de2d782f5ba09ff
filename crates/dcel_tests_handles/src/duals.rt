//! The ends and sides of edges, the half edges round triangles, the Voronoi diagram, and comparisons
//! of borrowed handles, on a triangle that vertex 3 cuts into three.

use crate::borrowed::{live_half_edge, vertex_of};
use dcel_bench::checks::same;
use dcel_bench::lines::{CUT, grown};
use dcel_bench::meshes::{Mesh, adjacent_edge, inner_face, vertex};
use dcel_bench::require;
use spade_dcel::handles::{
    DirectedVoronoiEdge, FaceHandle, PossiblyOuterTag, VertexHandle, VoronoiVertex,
};
use std::alloc::Global;
use std::hash::{BuildHasher, BuildHasherDefault, FoldHasher};
use std::test::Fail;

/// A vertex of the Voronoi diagram, by number.
#[derive(Clone, Copy, PartialEq, Eq, Debug)]
enum Dual {
    Inner(usize),
    Outer(usize),
}

fn by_number(vertex: &VoronoiVertex<'_, i64, i64, i64, i64>) -> Dual {
    match vertex {
        VoronoiVertex::Inner(face) => Dual::Inner(face.index()),
        VoronoiVertex::Outer(edge) => Dual::Outer(edge.index()),
    }
}

/// The ends of a half edge, the vertex opposite, whether it is outer, and whether its edge is on
/// the hull.
type Sides = ([usize; 2], Option<usize>, bool, bool);

/// Half edges, each with its sides.
const SIDES: [(u32, Sides); 4] = [
    (0, ([0, 1], None, true, true)),
    (1, ([1, 0], Some(3), false, true)),
    (6, ([0, 3], Some(1), false, false)),
    (7, ([3, 0], Some(2), false, false)),
];

fn sides_of(dcel: &Mesh, index: u32) -> Result<Sides, Fail> {
    let edge = live_half_edge(dcel, index)?;
    let [from, to] = edge.vertices();
    Ok((
        [from.index(), to.index()],
        edge.opposite_vertex().map(|opposite| opposite.index()),
        edge.is_outer_edge(),
        edge.is_part_of_convex_hull(),
    ))
}

fn check_sides(dcel: &Mesh) -> Result<(), Fail> {
    for (index, sides) in &SIDES {
        let found = sides_of(dcel, *index)?;
        same(&found, sides, format_args!("the sides of {index}"))?;
    }
    Ok(())
}

/// The half edge that stands for an edge, the ends of the edge, and whether it is on the hull.
type Whole = (usize, [usize; 2], bool);

/// Half edges, each with its edge.
const WHOLES: [(u32, Whole); 2] = [(1, (0, [0, 1], true)), (7, (6, [0, 3], false))];

fn edge_of(dcel: &Mesh, index: u32) -> Result<Whole, Fail> {
    let edge = live_half_edge(dcel, index)?.as_undirected();
    require!(dcel.is_live_edge(edge.fix()));
    let [from, to] = edge.vertices();
    Ok((
        edge.as_directed().index(),
        [from.index(), to.index()],
        edge.is_part_of_convex_hull(),
    ))
}

fn check_wholes(dcel: &Mesh) -> Result<(), Fail> {
    for (index, edge) in &WHOLES {
        let found = edge_of(dcel, *index)?;
        same(&found, edge, format_args!("the edge of {index}"))?;
    }
    Ok(())
}

/// Returns whether the face is outer, and its number as an inner one.
fn side_of(face: FaceHandle<'_, PossiblyOuterTag, i64, i64, i64, i64>) -> (bool, Option<usize>) {
    (face.is_outer(), face.as_inner().map(|inner| inner.index()))
}

fn check_faces(dcel: &Mesh) -> Result<(), Fail> {
    same(side_of(dcel.outer_face()), (true, None), "the outer face")?;
    let face = live_half_edge(dcel, 6)?.face();
    same(side_of(face), (false, Some(1)), "an inner face")
}

/// Returns the half edges round a triangle.
fn triangle(dcel: &Mesh, index: u32) -> Result<[usize; 3], Fail> {
    let handle = inner_face(index);
    require!(handle.index() != 0);
    require!(handle.index() < dcel.num_faces());
    require!(dcel.is_live_face(handle));
    let around = dcel.face(handle).adjacent_edges();
    Ok(around.map(|edge| edge.index()))
}

fn check_triangles(dcel: &Mesh) -> Result<(), Fail> {
    for (index, edges) in &[(1, [11, 1, 6]), (2, [7, 5, 8]), (3, [9, 3, 10])] {
        let found = triangle(dcel, *index)?;
        same(&found, edges, format_args!("face {index}"))?;
    }
    same(adjacent_edge(dcel, 0)?, Some(0), "the outer face")
}

/// The dual of a half edge: its start and its end, and the next, the one before, the face, and the
/// half edge that the turned dual is of.
type Edge = ([Dual; 2], [usize; 4]);

/// Half edges, each with its dual.
const EDGES: [(u32, Edge); 2] = [
    (6, ([Dual::Inner(1), Dual::Inner(2)], [0, 5, 0, 7])),
    (0, ([Dual::Outer(0), Dual::Inner(1)], [5, 6, 0, 1])),
];

fn dual_of(dcel: &Mesh, index: u32) -> Result<Edge, Fail> {
    let edge = live_half_edge(dcel, index)?.as_voronoi_edge();
    Ok((
        [by_number(&edge.from()), by_number(&edge.to())],
        [
            edge.next().index(),
            edge.prev().index(),
            edge.face().index(),
            edge.rev().as_delaunay_edge().index(),
        ],
    ))
}

/// Returns the ends of the dual of a half edge's edge.
fn undirected_dual_of(dcel: &Mesh, index: u32) -> Result<[Dual; 2], Fail> {
    let edge = live_half_edge(dcel, index)?
        .as_voronoi_edge()
        .as_undirected();
    require!(dcel.is_live_edge(edge.as_delaunay_edge().fix()));
    let [from, to] = edge.vertices();
    Ok([by_number(&from), by_number(&to)])
}

fn check_duals(dcel: &Mesh) -> Result<(), Fail> {
    for (index, edge) in &EDGES {
        let found = dual_of(dcel, *index)?;
        same(&found, edge, format_args!("the dual of {index}"))?;
    }
    let ends = undirected_dual_of(dcel, 1)?;
    same(ends, [Dual::Outer(0), Dual::Inner(1)], "the dual of edge 0")
}

/// Returns the numbers of three Voronoi edges.
fn numbers(edges: [DirectedVoronoiEdge<'_, i64, i64, i64, i64>; 3]) -> [usize; 3] {
    let [first, second, third] = edges;
    [first.index(), second.index(), third.index()]
}

/// The face of a vertex of the Voronoi diagram, the edges out of it, and one of them.
type Corner = (Option<usize>, Option<[usize; 3]>, usize);

/// Half edges, each with the start of its dual.
const CORNERS: [(u32, Corner); 2] = [(6, (Some(1), Some([11, 1, 6]), 1)), (0, (None, None, 0))];

fn corner_of(dcel: &Mesh, index: u32) -> Result<Corner, Fail> {
    let corner = live_half_edge(dcel, index)?.as_voronoi_edge().from();
    Ok((
        corner.as_delaunay_face().map(|face| face.index()),
        corner.out_edges().map(numbers),
        corner.out_edge().index(),
    ))
}

fn check_corners(dcel: &Mesh) -> Result<(), Fail> {
    for (index, corner) in &CORNERS {
        let found = corner_of(dcel, *index)?;
        same(
            &found,
            corner,
            format_args!("the start of the dual of {index}"),
        )?;
    }
    Ok(())
}

/// Returns the vertex of the Voronoi face of a vertex.
fn center_of(dcel: &Mesh, index: u32) -> Result<usize, Fail> {
    let face = vertex_of(dcel, index)?.as_voronoi_face();
    Ok(face.as_delaunay_vertex().index())
}

/// Returns the edges round the Voronoi face of a vertex.
fn round_face(dcel: &Mesh, index: u32, alloc: Global) -> Result<Vec<usize>, Fail> {
    let mut listed = Vec::new(alloc);
    for edge in vertex_of(dcel, index)?.as_voronoi_face().adjacent_edges() {
        listed.push(edge.index())?;
    }
    Ok(listed)
}

/// Returns the first four results of `next_back` on the edges round the Voronoi face of a vertex.
fn round_face_from_the_back(dcel: &Mesh, index: u32) -> Result<[Option<usize>; 4], Fail> {
    let mut edges = vertex_of(dcel, index)?.as_voronoi_face().adjacent_edges();
    let mut taken = [None; 4];
    for place in &mut taken {
        *place = edges.next_back().map(|edge| edge.index());
    }
    Ok(taken)
}

fn check_round_face(dcel: &Mesh, alloc: Global) -> Result<(), Fail> {
    same(center_of(dcel, 3)?, 3, "the vertex of a face")?;
    let taken = round_face_from_the_back(dcel, 3)?;
    same(taken, [Some(11), Some(9), Some(7), None], "from the back")?;
    let listed = round_face(dcel, 3, alloc)?;
    same(listed.as_slice(), [7, 9, 11].as_slice(), "edges")
}

/// Returns whether two vertices are equal, and whether they aren't; whether the first is less, and
/// whether it is greater.
fn compared(
    first: VertexHandle<'_, i64, i64, i64, i64>,
    second: VertexHandle<'_, i64, i64, i64, i64>,
) -> [bool; 4] {
    [
        first == second,
        first != second,
        first < second,
        first > second,
    ]
}

/// Compares vertices 2 and 3, and vertices of different meshes.
fn check_order(dcel: &Mesh, other: &Mesh) -> Result<(), Fail> {
    for (first, second, wanted) in &[
        (2, 2, [true, false, false, false]),
        (2, 3, [false, true, true, false]),
        (3, 2, [false, true, false, true]),
    ] {
        let first = vertex_of(dcel, *first)?;
        let here = compared(first, vertex_of(dcel, *second)?);
        let there = compared(first, vertex_of(other, *second)?);
        same([here, there], [*wanted; 2], "vertices in order")?;
    }
    Ok(())
}

/// Returns the hash of a vertex that is borrowed.
fn hash_of(dcel: &Mesh, index: u32) -> Result<u64, Fail> {
    let hasher = BuildHasherDefault::<FoldHasher>::default();
    Ok(hasher.hash_one(vertex_of(dcel, index)?))
}

/// Returns the hash of a vertex that isn't.
fn hash_of_fixed(index: u32) -> u64 {
    BuildHasherDefault::<FoldHasher>::default().hash_one(vertex(index))
}

fn check_hashes(dcel: &Mesh, other: &Mesh) -> Result<(), Fail> {
    let hashes = [hash_of(dcel, 2)?, hash_of(other, 2)?];
    same(hashes, [hash_of_fixed(2); 2], "hashes")
}

fn compare_with_another(dcel: &Mesh, alloc: Global) -> Result<(), Fail> {
    let other = grown(alloc, CUT)?;
    check_order(dcel, &other)?;
    check_hashes(dcel, &other)
}

fn check_all(dcel: &Mesh, alloc: Global) -> Result<(), Fail> {
    check_sides(dcel)?;
    check_wholes(dcel)?;
    check_faces(dcel)?;
    check_triangles(dcel)?;
    check_duals(dcel)?;
    check_corners(dcel)?;
    check_round_face(dcel, alloc)?;
    compare_with_another(dcel, alloc)
}

#[test]
fn handles_lead_to_what_is_beside_them(rt: HostRuntime) -> Result<(), Fail> {
    let dcel = grown(rt.alloc(), CUT)?;
    check_all(&dcel, rt.alloc())
}
