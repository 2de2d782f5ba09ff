//! What can be read off a mesh, to be compared with what is read later.

use crate::meshes::{Mesh, adjacent_edge, out_edge};
use crate::require;
use spade_dcel::dcel::RemovalState;
use spade_dcel::handles::{
    FixedDirectedEdgeHandle, FixedFaceHandle, FixedVertexHandle, PossiblyOuterTag,
};
use std::alloc::{Allocator, Global};
use std::test::Fail;

/// All that can be seen of a mesh: its counts, the links that make its words, its anchors and data,
/// and what an open removal has given up.
#[derive(Debug, Drop, PartialEq, Eq)]
pub struct Snapshot {
    removal: RemovalState,
    vertices: Vec<Seen>,
    faces: Vec<Seen>,
    half_edges: Vec<SeenEdge>,
}

/// Whether a vertex or a face is live, the half edge that it is anchored at, and its datum.
type Seen = (bool, Option<usize>, i64);

/// The links of a half edge, its datum and that of its edge.
type SeenEdge = (Option<[usize; 4]>, [i64; 2]);

fn see_vertex<A: Allocator>(dcel: &Mesh<A>, index: usize) -> Result<Seen, Fail> {
    require!(index < dcel.num_vertices());
    let handle = FixedVertexHandle::new(index);
    let anchor = out_edge(dcel, index)?;
    Ok((
        dcel.is_live_vertex(handle),
        anchor,
        *dcel.vertex_data(handle),
    ))
}

fn see_face<A: Allocator>(dcel: &Mesh<A>, index: usize) -> Result<Seen, Fail> {
    require!(index < dcel.num_faces());
    let handle: FixedFaceHandle<PossiblyOuterTag> = FixedFaceHandle::new(index);
    let anchor = adjacent_edge(dcel, index)?;
    Ok((dcel.is_live_face(handle), anchor, *dcel.face_data(handle)))
}

/// Returns the next half edge, the one before, the origin and the face.
///
/// They are None if the edge is given up.
fn links_of<A: Allocator>(dcel: &Mesh<A>, index: usize) -> Result<Option<[usize; 4]>, Fail> {
    require!(index < dcel.num_directed_edges());
    let handle = FixedDirectedEdgeHandle::new(index);
    if !dcel.is_live_edge(handle.as_undirected()) {
        return Ok(None);
    }
    let edge = dcel.directed_edge(handle);
    Ok(Some([
        edge.next().index(),
        edge.prev().index(),
        edge.from().index(),
        edge.face().index(),
    ]))
}

/// Returns the datum of a half edge, and that of its edge.
fn edge_data<A: Allocator>(dcel: &Mesh<A>, index: usize) -> Result<[i64; 2], Fail> {
    require!(index < dcel.num_directed_edges());
    let handle = FixedDirectedEdgeHandle::new(index);
    let edge = handle.as_undirected();
    require!(edge.index() < dcel.num_undirected_edges());
    Ok([
        *dcel.directed_edge_data(handle),
        *dcel.undirected_edge_data(edge),
    ])
}

fn vertices_of<A: Allocator>(dcel: &Mesh<A>, alloc: Global) -> Result<Vec<Seen>, Fail> {
    let mut vertices = Vec::new(alloc);
    for index in 0..dcel.num_vertices() {
        vertices.push(see_vertex(dcel, index)?)?;
    }
    Ok(vertices)
}

fn faces_of<A: Allocator>(dcel: &Mesh<A>, alloc: Global) -> Result<Vec<Seen>, Fail> {
    let mut faces = Vec::new(alloc);
    for index in 0..dcel.num_faces() {
        faces.push(see_face(dcel, index)?)?;
    }
    Ok(faces)
}

fn half_edges_of<A: Allocator>(dcel: &Mesh<A>, alloc: Global) -> Result<Vec<SeenEdge>, Fail> {
    let mut half_edges = Vec::new(alloc);
    for index in 0..dcel.num_directed_edges() {
        let links = links_of(dcel, index)?;
        half_edges.push((links, edge_data(dcel, index)?))?;
    }
    Ok(half_edges)
}

/// Returns what the mesh is like.
pub fn snapshot_of<A: Allocator>(dcel: &Mesh<A>, alloc: Global) -> Result<Snapshot, Fail> {
    Ok(Snapshot {
        removal: dcel.removal_state(),
        vertices: vertices_of(dcel, alloc)?,
        faces: faces_of(dcel, alloc)?,
        half_edges: half_edges_of(dcel, alloc)?,
    })
}
