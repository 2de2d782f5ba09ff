//! The data of elements, read and written. Elements that are given up have theirs.

ghost use Rattle.std.specs.Prelude.{◌≡◌, ◌*◌};
ghost use Rattle.dcel_maps.specs.edits.Data.{vertex_updated, directed_edge_updated, undirected_edge_updated, face_updated};
ghost use Rattle.dcel_maps.specs.Shapes.{face_count};
ghost use Rattle.dcel_c.specs.Calls.{kept_in, status_in};
ghost use Rattle.dcel_c.specs.Data.{datum_in, updated_in};

use crate::mesh::DcelMesh;
use crate::status::{DONE, NO_MESH, NO_SUCH_EDGE, NO_SUCH_FACE, NO_SUCH_VERTEX};
use spade_dcel::handles::{
    FixedDirectedEdgeHandle, FixedFaceHandle, FixedUndirectedEdgeHandle, FixedVertexHandle,
    PossiblyOuterTag,
};

/// Tells the datum of the vertex.
#[unsafe(no_mangle)]
pub extern "C" fn dcel_vertex_data(mesh: &mut DcelMesh, vertex: u32, datum: &mut u64) -> u32
    ensures status { result ≡ status_in (λ shape. shape.vertices) 1 (kept_in mesh.old) vertex }
    ensures datum { datum.new ≡ datum_in (λ shape. shape.vertices) (λ mesh. mesh.vertex_data) (kept_in mesh.old) vertex datum.old }
    ensures same { kept_in mesh.new ≡ kept_in mesh.old }
{
    if !mesh.is_open {
        return NO_MESH;
    }
    let dcel = mesh.held.as_mut();
    if vertex as usize >= dcel.num_vertices() {
        return NO_SUCH_VERTEX;
    }
    let vertex = FixedVertexHandle::new(vertex as usize);
    *datum = *dcel.vertex_data(vertex);
    DONE
}

/// Tells the datum of the half edge.
#[unsafe(no_mangle)]
pub extern "C" fn dcel_directed_edge_data(mesh: &mut DcelMesh, edge: u32, datum: &mut u64) -> u32
    ensures status { result ≡ status_in (λ shape. 2 * shape.edges) 2 (kept_in mesh.old) edge }
    ensures datum { datum.new ≡ datum_in (λ shape. 2 * shape.edges) (λ mesh. mesh.directed_data) (kept_in mesh.old) edge datum.old }
    ensures same { kept_in mesh.new ≡ kept_in mesh.old }
{
    if !mesh.is_open {
        return NO_MESH;
    }
    let dcel = mesh.held.as_mut();
    if edge as usize >= dcel.num_directed_edges() {
        return NO_SUCH_EDGE;
    }
    let edge = FixedDirectedEdgeHandle::new(edge as usize);
    *datum = *dcel.directed_edge_data(edge);
    DONE
}

/// Tells the datum of the edge.
#[unsafe(no_mangle)]
pub extern "C" fn dcel_undirected_edge_data(mesh: &mut DcelMesh, edge: u32, datum: &mut u64) -> u32
    ensures status { result ≡ status_in (λ shape. shape.edges) 2 (kept_in mesh.old) edge }
    ensures datum { datum.new ≡ datum_in (λ shape. shape.edges) (λ mesh. mesh.undirected_data) (kept_in mesh.old) edge datum.old }
    ensures same { kept_in mesh.new ≡ kept_in mesh.old }
{
    if !mesh.is_open {
        return NO_MESH;
    }
    let dcel = mesh.held.as_mut();
    if edge as usize >= dcel.num_undirected_edges() {
        return NO_SUCH_EDGE;
    }
    let edge = FixedUndirectedEdgeHandle::new(edge as usize);
    *datum = *dcel.undirected_edge_data(edge);
    DONE
}

/// Tells the datum of the face.
#[unsafe(no_mangle)]
pub extern "C" fn dcel_face_data(mesh: &mut DcelMesh, face: u32, datum: &mut u64) -> u32
    ensures status { result ≡ status_in face_count 3 (kept_in mesh.old) face }
    ensures datum { datum.new ≡ datum_in face_count (λ mesh. mesh.face_data) (kept_in mesh.old) face datum.old }
    ensures same { kept_in mesh.new ≡ kept_in mesh.old }
{
    if !mesh.is_open {
        return NO_MESH;
    }
    let dcel = mesh.held.as_mut();
    if face as usize >= dcel.num_faces() {
        return NO_SUCH_FACE;
    }
    let face: FixedFaceHandle<PossiblyOuterTag> = FixedFaceHandle::new(face as usize);
    *datum = *dcel.face_data(face);
    DONE
}

/// Replaces the datum of the vertex.
#[unsafe(no_mangle)]
pub extern "C" fn dcel_update_vertex(mesh: &mut DcelMesh, vertex: u32, datum: u64) -> u32
    ensures status { result ≡ status_in (λ shape. shape.vertices) 1 (kept_in mesh.old) vertex }
    ensures datum { kept_in mesh.new ≡ updated_in (λ shape. shape.vertices) vertex_updated (kept_in mesh.old) vertex datum }
{
    if !mesh.is_open {
        return NO_MESH;
    }
    let dcel = mesh.held.as_mut();
    if vertex as usize >= dcel.num_vertices() {
        return NO_SUCH_VERTEX;
    }
    let vertex = FixedVertexHandle::new(vertex as usize);
    *dcel.vertex_data_mut(vertex) = datum;
    DONE
}

/// Replaces the datum of the half edge.
#[unsafe(no_mangle)]
pub extern "C" fn dcel_update_directed_edge(mesh: &mut DcelMesh, edge: u32, datum: u64) -> u32
    ensures status { result ≡ status_in (λ shape. 2 * shape.edges) 2 (kept_in mesh.old) edge }
    ensures datum { kept_in mesh.new ≡ updated_in (λ shape. 2 * shape.edges) directed_edge_updated (kept_in mesh.old) edge datum }
{
    if !mesh.is_open {
        return NO_MESH;
    }
    let dcel = mesh.held.as_mut();
    if edge as usize >= dcel.num_directed_edges() {
        return NO_SUCH_EDGE;
    }
    let edge = FixedDirectedEdgeHandle::new(edge as usize);
    *dcel.directed_edge_data_mut(edge) = datum;
    DONE
}

/// Replaces the datum of the edge.
#[unsafe(no_mangle)]
pub extern "C" fn dcel_update_undirected_edge(mesh: &mut DcelMesh, edge: u32, datum: u64) -> u32
    ensures status { result ≡ status_in (λ shape. shape.edges) 2 (kept_in mesh.old) edge }
    ensures datum { kept_in mesh.new ≡ updated_in (λ shape. shape.edges) undirected_edge_updated (kept_in mesh.old) edge datum }
{
    if !mesh.is_open {
        return NO_MESH;
    }
    let dcel = mesh.held.as_mut();
    if edge as usize >= dcel.num_undirected_edges() {
        return NO_SUCH_EDGE;
    }
    let edge = FixedUndirectedEdgeHandle::new(edge as usize);
    *dcel.undirected_edge_data_mut(edge) = datum;
    DONE
}

/// Replaces the datum of the face.
#[unsafe(no_mangle)]
pub extern "C" fn dcel_update_face(mesh: &mut DcelMesh, face: u32, datum: u64) -> u32
    ensures status { result ≡ status_in face_count 3 (kept_in mesh.old) face }
    ensures datum { kept_in mesh.new ≡ updated_in face_count face_updated (kept_in mesh.old) face datum }
{
    if !mesh.is_open {
        return NO_MESH;
    }
    let dcel = mesh.held.as_mut();
    if face as usize >= dcel.num_faces() {
        return NO_SUCH_FACE;
    }
    let face: FixedFaceHandle<PossiblyOuterTag> = FixedFaceHandle::new(face as usize);
    *dcel.face_data_mut(face) = datum;
    DONE
}
