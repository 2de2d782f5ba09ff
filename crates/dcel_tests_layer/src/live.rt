//! Borrowed elements by number, None for those that an open removal has given up or that there
//! aren't; and which edges are new. Bindings have calls of their own for these.

use dcel_bench::checks::same;
use dcel_bench::lines::{CUT, grown, opened};
use dcel_bench::meshes::{Mesh, half_edge, inner_face, undirected_edge, vertex};
use spade_dcel::operations::IsolateVertexResult;
use std::alloc::Global;
use std::test::Fail;

/// A number, and whether a half edge, an edge and a face with it are lent.
type Row = (u32, [bool; 3]);

/// A triangle that vertex 3 cuts into three: 12 half edges, 6 edges and 4 faces.
const CLOSED: [Row; 7] = [
    (0, [true, true, true]),
    (3, [true, true, true]),
    (4, [true, true, false]),
    (5, [true, true, false]),
    (6, [true, false, false]),
    (11, [true, false, false]),
    (12, [false, false, false]),
];

/// The same once vertex 3 is given up with edges 3, 4 and 5 and faces 1, 2 and 3, and face 4 fills
/// the hole.
const OPEN: [Row; 9] = [
    (0, [true, true, true]),
    (1, [true, true, false]),
    (2, [true, true, false]),
    (3, [true, false, false]),
    (4, [true, false, true]),
    (5, [true, false, false]),
    (6, [false, false, false]),
    (12, [false, false, false]),
    (4_294_967_295, [false, false, false]),
];

/// Returns the numbers of the half edge, the edge and the face that are lent by a number.
fn lent(dcel: &Mesh, index: u32) -> [Option<usize>; 3] {
    let edge = dcel.get_directed_edge(half_edge(index));
    let undirected = dcel.get_undirected_edge(undirected_edge(index));
    let face = dcel.get_face(inner_face(index));
    [
        edge.map(|edge| edge.index()),
        undirected.map(|edge| edge.index()),
        face.map(|face| face.index()),
    ]
}

fn check_lent(dcel: &Mesh, rows: &[Row]) -> Result<(), Fail> {
    for (index, are_lent) in rows {
        let wanted = are_lent.map(|is_lent| is_lent.then_some(*index as usize));
        same(
            lent(dcel, *index),
            wanted,
            format_args!("what is lent by {index}"),
        )?;
    }
    Ok(())
}

/// Checks that the edges from 6 on count as new.
fn check_new(opened: &IsolateVertexResult) -> Result<(), Fail> {
    let before = opened.is_new_edge(undirected_edge(5));
    let first = opened.is_new_edge(undirected_edge(6));
    same(
        [before, first],
        [false, true],
        "whether edges 5 and 6 are new",
    )
}

/// Checks what is lent of a cut triangle before and after vertex 3 is given up.
fn check_lent_and_opened(dcel: &mut Mesh, alloc: Global) -> Result<(), Fail> {
    check_lent(dcel, &CLOSED)?;
    check_new(&opened(dcel, "isolate 3 1 3 5", alloc)?)?;
    check_lent(dcel, &OPEN)
}

#[test]
fn what_is_live_is_lent(rt: HostRuntime) -> Result<(), Fail> {
    let mut dcel = grown(rt.alloc(), CUT)?;
    check_lent_and_opened(&mut dcel, rt.alloc())
}

/// Numbers, each with whether a vertex is found by it.
const VERTICES: [(u32, bool); 4] = [(0, true), (3, true), (4, false), (4_294_967_295, false)];

fn check_vertices(dcel: &Mesh) -> Result<(), Fail> {
    for (index, is_there) in VERTICES {
        let found = dcel.get_vertex(vertex(index)).map(|found| found.index());
        let wanted = is_there.then_some(index as usize);
        same(found, wanted, format_args!("vertex {index}"))?;
    }
    Ok(())
}

#[test]
fn vertices_are_looked_up(rt: HostRuntime) -> Result<(), Fail> {
    check_vertices(&grown(rt.alloc(), CUT)?)
}
