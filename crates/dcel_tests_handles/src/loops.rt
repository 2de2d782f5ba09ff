//! Loops over walks and over live elements. That an item is live is known without a test.

use dcel_bench::checks::same;
use dcel_bench::lines::grown;
use dcel_bench::meshes::Mesh;
use spade_dcel::iterators::HullIterator;
use std::alloc::{AllocError, Global};
use std::test::Fail;

/// Returns the ends of each edge that is live.
fn ends_of_edges(dcel: &Mesh, alloc: Global) -> Result<Vec<[usize; 2]>, AllocError> {
    let mut ends = Vec::new(alloc);
    for edge in dcel.live_undirected_edges() {
        ends.push(edge.vertices().map(|vertex| vertex.index()))?;
    }
    Ok(ends)
}

/// Returns the vertices round the outer face.
fn hull(dcel: &Mesh, alloc: Global) -> Result<Vec<usize>, AllocError> {
    let mut vertices = Vec::new(alloc);
    for edge in HullIterator::new(dcel) {
        vertices.push(edge.from().index())?;
    }
    Ok(vertices)
}

/// Returns the number of each live vertex, and then its neighbors from the back.
fn neighbors(dcel: &Mesh, alloc: Global) -> Result<Vec<usize>, AllocError> {
    let mut numbers = Vec::new(alloc);
    for vertex in dcel.live_vertices() {
        numbers.push(vertex.index())?;
        for edge in vertex.out_edges().rev() {
            numbers.push(edge.to().index())?;
        }
    }
    Ok(numbers)
}

/// Returns the number of each live face, and then its vertices.
fn faces(dcel: &Mesh, alloc: Global) -> Result<Vec<usize>, AllocError> {
    let mut numbers = Vec::new(alloc);
    for face in dcel.live_faces() {
        numbers.push(face.index())?;
        for edge in face.directed_edges() {
            numbers.push(edge.from().index())?;
        }
    }
    Ok(numbers)
}

/// Returns the number of each live inner face from the back, and then its three vertices.
fn triangles(dcel: &Mesh, alloc: Global) -> Result<Vec<usize>, AllocError> {
    let mut numbers = Vec::new(alloc);
    for face in dcel.live_inner_faces().rev() {
        numbers.push(face.index())?;
        for vertex in face.vertices() {
            numbers.push(vertex.index())?;
        }
    }
    Ok(numbers)
}

/// Returns how many half edges lie on the outer face.
fn outer_edges(dcel: &Mesh) -> usize {
    let mut count: usize = 0;
    for edge in dcel.live_directed_edges() {
        if edge.is_outer_edge() {
            count = count.wrapping_add(1);
        }
    }
    count
}

/// Checks the numbers that a loop found.
fn check_numbers(
    found: Result<Vec<usize>, AllocError>,
    wanted: &[usize],
    what: &str,
) -> Result<(), Fail> {
    let found = found?;
    same(found.as_slice(), wanted, what)
}

fn check_ends(dcel: &Mesh, alloc: Global) -> Result<(), Fail> {
    let ends = ends_of_edges(dcel, alloc)?;
    same(ends.as_slice(), [[0, 1], [1, 2], [2, 0]].as_slice(), "ends")
}

/// Checks what loops find in a cut triangle, once its vertex 3 is given up and face 4 fills the
/// hole.
fn check_loops(dcel: &Mesh, alloc: Global) -> Result<(), Fail> {
    check_ends(dcel, alloc)?;
    check_numbers(hull(dcel, alloc), &[0, 1, 2], "the hull")?;
    let wanted = &[0, 1, 2, 1, 2, 0, 2, 0, 1];
    check_numbers(neighbors(dcel, alloc), wanted, "neighbors")?;
    check_numbers(faces(dcel, alloc), &[0, 0, 1, 2, 4, 0, 2, 1], "faces")?;
    check_numbers(triangles(dcel, alloc), &[4, 1, 0, 2], "triangles")?;
    same(outer_edges(dcel), 3, "half edges on the outer face")
}

#[test]
fn loops_go_over_what_is_live(rt: HostRuntime) -> Result<(), Fail> {
    let lines = "triangle 0 1 2\nappend 3\ninsert 3 1\nisolate 3 1 3 5";
    check_loops(&grown(rt.alloc(), lines)?, rt.alloc())
}
