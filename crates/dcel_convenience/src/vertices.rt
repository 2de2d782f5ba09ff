//! What is around a vertex: its degree and its neighbors.

ghost use Rattle.std.specs.Prelude.{◌≡◌, IfOk, length, map};
ghost use Rattle.dcel_maps.specs.Numbers.{numbers_between};
ghost use Rattle.dcel_maps.specs.Shapes.{end_of};
ghost use Rattle.dcel_maps.specs.Walking.{out_edges_of};
ghost use Rattle.spade_dcel.specs.Handles.{mesh_behind, number_of};

use spade_dcel::dcel::Dcel;
use spade_dcel::handles::{FixedVertexHandle, VertexHandle};
use std::alloc::{AllocError, Allocator};

/// Returns the degree of a vertex: how many half edges start there, which is how many edges meet
/// it.
///
/// It goes around the vertex, and allocates nothing.
pub fn degree<V, DE, UE, F, A: Allocator>(vertex: VertexHandle<'_, V, DE, UE, F, A>) -> usize
    ensures { let mesh = mesh_behind vertex.entry in
        result ≡ length (out_edges_of mesh (number_of vertex.entry)) }
{
    let mut count = 0;
    for _ in vertex.out_edges() {
        count += 1;
    }
    count
}

/// Returns the vertices to which edges lead from a vertex, counterclockwise, the anchor's end
/// first.
///
/// A vertex to which several edges lead is listed as often. If memory runs out it returns
/// `AllocError`.
pub fn neighbors<V, DE, UE, F, A: Allocator, B: Allocator>(
    alloc: B,
    vertex: VertexHandle<'_, V, DE, UE, F, A>,
) -> Result<Vec<FixedVertexHandle, B>, AllocError>
    ensures { let mesh = mesh_behind vertex.entry in
        IfOk result (λ ends. ends.items ≡ map (end_of mesh.shape) (out_edges_of mesh (number_of vertex.entry))) }
{
    let mut ends = Vec::new(alloc);
    for edge in vertex.out_edges() {
        ends.push(edge.to().fix())?;
    }
    Ok(ends)
}

/// Returns the degree of each vertex, in the order of their numbers.
///
/// The time is linear in the number of edges and vertices. If memory runs out it returns
/// `AllocError`.
pub fn degrees<V, DE, UE, F, A: Allocator, B: Allocator>(
    alloc: B,
    dcel: &Dcel<V, DE, UE, F, A>,
) -> Result<Vec<usize, B>, AllocError>
    ensures { IfOk result (λ degrees. degrees.items
        ≡ map (λ v. length (out_edges_of dcel.now v)) (numbers_between 0 dcel.now.shape.vertices)) }
{
    let mut degrees = Vec::new(alloc);
    for vertex in dcel.vertices() {
        degrees.push(degree(vertex))?;
    }
    Ok(degrees)
}
