//! The mesh that the tests read and edit, and what it is made of.

use dcel_bench::meshes::vertex;
use dcel_bench::require;
use dcel_exchange::from_triangles;
use dcel_regions::Mark;
use spade_dcel::dcel::Dcel;
use spade_dcel::handles::FixedUndirectedEdgeHandle;
use std::alloc::{AllocError, Allocator, Global};
use std::test::Fail;

/// A mesh whose edges may be marked.
pub type Mesh<A = Global> = Dcel<i64, (), Mark, (), A>;

/// A triangle with vertex 3 inside, which is joined to its corners.
pub const TRIANGLES: [[u32; 3]; 3] = [[0, 1, 3], [1, 2, 3], [2, 0, 3]];

/// The data of its vertices, and of vertex 4, which has no edge.
pub const DATA: [i64; 5] = [0, 10, 20, 30, 40];

/// Lists the data of the vertices.
pub fn data<A: Allocator>(memory: A) -> Result<Vec<i64, A>, AllocError> {
    let mut list = Vec::new(memory);
    list.extend_from_slice(&DATA)?;
    Ok(list)
}

/// The corners of each face.
pub type Faces = &'static [&'static [u32]];

/// Makes a vector of the corners of a face.
fn face_of(corners: &[u32], alloc: Global) -> Result<Vec<u32>, AllocError> {
    let mut face = Vec::new(alloc);
    face.extend_from_slice(corners)?;
    Ok(face)
}

/// Makes vectors of faces, by their corners.
pub fn vectors_of(faces: Faces, alloc: Global) -> Result<Vec<Vec<u32>>, AllocError> {
    let mut vectors = Vec::new(alloc);
    for corners in faces {
        vectors.push(face_of(corners, alloc)?)?;
    }
    Ok(vectors)
}

/// Lists so many triangles around vertex 0, each beside the one before.
pub fn spokes(count: u32, alloc: Global) -> Result<Vec<[u32; 3]>, AllocError> {
    let mut triangles = Vec::new(alloc);
    for place in 0..count {
        let first = place + 1;
        let second = if first == count {
            1
        } else {
            first.saturating_add(1)
        };
        triangles.push([0, first, second])?;
    }
    Ok(triangles)
}

/// Lists numbers from 0 on, as data.
fn numbers(count: u32, alloc: Global) -> Result<Vec<i64>, AllocError> {
    let mut list = Vec::new(alloc);
    for number in 0..count {
        list.push(i64::from(number))?;
    }
    Ok(list)
}

/// Makes a mesh of triangles over these data.
fn made(data: Vec<i64>, triangles: &[[u32; 3]], alloc: Global) -> Result<Mesh, Fail> {
    from_triangles(alloc, data, triangles).map_err(|_| Fail::new("no mesh of triangles is made"))
}

/// Makes the triangle with a vertex inside.
pub fn small(alloc: Global) -> Result<Mesh, Fail> {
    let data = data(alloc)?;
    made(data, &TRIANGLES, alloc)
}

/// Makes a wheel of so many triangles, around vertex 0.
pub fn wheel(count: u32, alloc: Global) -> Result<Mesh, Fail> {
    let data = numbers(count.saturating_add(1), alloc)?;
    let triangles = spokes(count, alloc)?;
    made(data, &triangles, alloc)
}

/// Marks the edge with these ends.
fn mark(dcel: &mut Mesh, [from, to]: [u32; 2]) -> Result<(), Fail> {
    let from = vertex(from);
    require!(from.index() < dcel.num_vertices());
    let edge: FixedUndirectedEdgeHandle = match dcel.get_edge_from_neighbors(from, vertex(to)) {
        Some(edge) => edge.as_undirected().fix(),
        None => return Err(Fail::new("there is no such edge")),
    };
    require!(edge.index() < dcel.num_undirected_edges());
    *dcel.undirected_edge_data_mut(edge) = Mark::Constraint;
    Ok(())
}

/// Marks the edges with these ends.
pub fn mark_all(dcel: &mut Mesh, marked: &[[u32; 2]]) -> Result<(), Fail> {
    for ends in marked {
        mark(dcel, *ends)?;
    }
    Ok(())
}
