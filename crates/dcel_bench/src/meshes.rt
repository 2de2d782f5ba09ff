//! Meshes of numbers: their elements by number, and what is read off a mesh.

use crate::require;
use spade_dcel::dcel::Dcel;
use spade_dcel::handles::{
    FixedDirectedEdgeHandle, FixedFaceHandle, FixedHandleImpl, FixedUndirectedEdgeHandle,
    FixedVertexHandle, InnerTag, PossiblyOuterTag,
};
use std::alloc::{AllocError, Allocator, Global};
use std::test::Fail;

/// A mesh whose data are numbers.
pub type Mesh<A = Global> = Dcel<i64, i64, i64, i64, A>;

/// The limit of the program: no count of a mesh is above it.
pub const NO_LIMIT: usize = 2_147_483_648;

/// Returns the vertex with this number.
pub fn vertex(index: u32) -> FixedVertexHandle {
    FixedVertexHandle::new(index as usize)
}

/// Returns the half edge with this number.
pub fn half_edge(index: u32) -> FixedDirectedEdgeHandle {
    FixedDirectedEdgeHandle::new(index as usize)
}

/// Returns the edge with this number.
pub fn undirected_edge(index: u32) -> FixedUndirectedEdgeHandle {
    FixedUndirectedEdgeHandle::new(index as usize)
}

/// Returns the face with this number, which isn't 0.
pub fn inner_face(index: u32) -> FixedFaceHandle<InnerTag> {
    FixedFaceHandle::new(index as usize)
}

/// Returns the elements of a kind with these numbers.
pub fn handles<Kind, A: Allocator>(
    numbers: &[u32],
    memory: A,
) -> Result<Vec<FixedHandleImpl<Kind, InnerTag>, A>, AllocError> {
    let mut list = Vec::with_capacity(memory, numbers.len())?;
    for number in numbers {
        list.push(FixedHandleImpl::new(*number as usize))?;
    }
    Ok(list)
}

/// Returns the number of the half edge that the vertex is anchored at.
pub fn out_edge<A: Allocator>(dcel: &Mesh<A>, index: usize) -> Result<Option<usize>, Fail> {
    require!(index < dcel.num_vertices());
    let handle = FixedVertexHandle::new(index);
    Ok(dcel.vertex_out_edge(handle).map(|edge| edge.index()))
}

/// Returns the number of the half edge that the face is anchored at.
pub fn adjacent_edge<A: Allocator>(dcel: &Mesh<A>, index: usize) -> Result<Option<usize>, Fail> {
    require!(index < dcel.num_faces());
    let handle: FixedFaceHandle<PossiblyOuterTag> = FixedFaceHandle::new(index);
    Ok(dcel.face_adjacent_edge(handle).map(|edge| edge.index()))
}
