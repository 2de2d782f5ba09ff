//! Data written by element numbers.

use crate::checks::same;
use crate::meshes::{Mesh, half_edge, inner_face, undirected_edge, vertex};
use crate::require;
use spade_dcel::handles::{
    FixedDirectedEdgeHandle, FixedFaceHandle, FixedUndirectedEdgeHandle, FixedVertexHandle,
    InnerTag, PossiblyOuterTag,
};
use std::alloc::Allocator;
use std::test::Fail;

/// A datum of a mesh, by the number of its element.
#[derive(Clone, Copy)]
pub enum Datum {
    /// A vertex's datum.
    Vertex(u32),
    /// A vertex's datum, written by `update_vertex`.
    UpdatedVertex(u32),
    /// A half edge's datum.
    HalfEdge(u32),
    /// An undirected edge's datum.
    Edge(u32),
    /// The datum of a face, which may be the outer one.
    Face(u32),
    /// An inner face's datum.
    InnerFace(u32),
}

fn write_vertex<A: Allocator>(
    dcel: &mut Mesh<A>,
    handle: FixedVertexHandle,
    datum: i64,
) -> Result<(), Fail> {
    require!(handle.index() < dcel.num_vertices());
    *dcel.vertex_data_mut(handle) = datum;
    Ok(())
}

fn update_vertex<A: Allocator>(
    dcel: &mut Mesh<A>,
    handle: FixedVertexHandle,
    datum: i64,
) -> Result<(), Fail> {
    require!(handle.index() < dcel.num_vertices());
    dcel.update_vertex(handle, datum);
    Ok(())
}

fn write_half_edge<A: Allocator>(
    dcel: &mut Mesh<A>,
    handle: FixedDirectedEdgeHandle,
    datum: i64,
) -> Result<(), Fail> {
    require!(handle.index() < dcel.num_directed_edges());
    *dcel.directed_edge_data_mut(handle) = datum;
    let found = *dcel.directed_edge(handle).data();
    same(found, datum, "the datum of a half edge")
}

fn write_edge<A: Allocator>(
    dcel: &mut Mesh<A>,
    handle: FixedUndirectedEdgeHandle,
    datum: i64,
) -> Result<(), Fail> {
    require!(handle.index() < dcel.num_undirected_edges());
    *dcel.undirected_edge_data_mut(handle) = datum;
    let found = *dcel.undirected_edge(handle).data();
    same(found, datum, "the datum of an edge")
}

fn write_face<A: Allocator>(
    dcel: &mut Mesh<A>,
    handle: FixedFaceHandle<PossiblyOuterTag>,
    datum: i64,
) -> Result<(), Fail> {
    require!(handle.index() < dcel.num_faces());
    *dcel.face_data_mut(handle) = datum;
    Ok(())
}

fn write_inner_face<A: Allocator>(
    dcel: &mut Mesh<A>,
    handle: FixedFaceHandle<InnerTag>,
    datum: i64,
) -> Result<(), Fail> {
    require!(handle.index() < dcel.num_faces());
    *dcel.face_data_mut(handle) = datum;
    let found = *dcel.face(handle).data();
    same(found, datum, "the datum of an inner face")
}

/// Writes a datum.
pub fn write<A: Allocator>(dcel: &mut Mesh<A>, place: Datum, datum: i64) -> Result<(), Fail> {
    match place {
        Datum::Vertex(index) => write_vertex(dcel, vertex(index), datum),
        Datum::UpdatedVertex(index) => update_vertex(dcel, vertex(index), datum),
        Datum::HalfEdge(index) => write_half_edge(dcel, half_edge(index), datum),
        Datum::Edge(index) => write_edge(dcel, undirected_edge(index), datum),
        Datum::Face(index) => write_face(dcel, FixedFaceHandle::new(index as usize), datum),
        Datum::InnerFace(index) => write_inner_face(dcel, inner_face(index), datum),
    }
}

/// Writes each datum.
pub fn write_all<A: Allocator>(dcel: &mut Mesh<A>, data: &[(Datum, i64)]) -> Result<(), Fail> {
    for (place, datum) in data {
        write(dcel, *place, *datum)?;
    }
    Ok(())
}

/// Writes a datum of its own to each half edge, edge and face.
pub fn write_distinct<A: Allocator>(dcel: &mut Mesh<A>) -> Result<(), Fail> {
    for index in 0..dcel.num_directed_edges() {
        write(dcel, Datum::HalfEdge(index as u32), 1000 + index as i64)?;
    }
    for index in 0..dcel.num_undirected_edges() {
        write(dcel, Datum::Edge(index as u32), 2000 + index as i64)?;
    }
    for index in 0..dcel.num_faces() {
        write(dcel, Datum::Face(index as u32), 3000 + index as i64)?;
    }
    Ok(())
}
