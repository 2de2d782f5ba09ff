//! Tests of what calls ask, but room in memory. Any numbers may be given.

ghost use Rattle.std.specs.Prelude.{◌≡◌, ◌≢◌, ◌<◌, ◌↔◌, true, IsTrue};
ghost use Rattle.dcel_fixed.specs.HalfEdges.{rev};
ghost use Rattle.dcel_maps.specs.Checked.{IsChecked};
ghost use Rattle.dcel_maps.specs.Conditions.{CanCloseOutside, CanFlip, CanSwapRemove, HasRoom, IsBridge, IsLineEnd, IsTriangle, IsUnconnected};
ghost use Rattle.dcel_maps.specs.Degenerate.{CanRemoveDegenerate};
ghost use Rattle.dcel_maps.specs.Shapes.{IsLive, edge_is_live, face_is_live, face_of, vertex_is_live};
ghost use Rattle.dcel_c.specs.Calls.{IsSo, kept_in};

use crate::mesh::DcelMesh;
use spade_dcel::handles::{
    FixedDirectedEdgeHandle, FixedFaceHandle, FixedUndirectedEdgeHandle, FixedVertexHandle,
    PossiblyOuterTag,
};

/// Returns whether there are numbers left for that many more elements.
#[unsafe(no_mangle)]
pub extern "C" fn dcel_has_room(
    mesh: &mut DcelMesh,
    vertices: u64,
    undirected_edges: u64,
    faces: u64,
) -> bool
    ensures test { IsTrue result ↔ IsSo (λ mesh. HasRoom mesh.shape vertices undirected_edges faces) (kept_in mesh.old) }
    ensures same { kept_in mesh.new ≡ kept_in mesh.old }
{
    if !mesh.is_open {
        return false;
    }
    mesh.held.as_mut().has_room(vertices as usize, undirected_edges as usize, faces as usize)
}

/// Returns whether the vertex's number is in range, and no removal has given it up.
#[unsafe(no_mangle)]
pub extern "C" fn dcel_is_live_vertex(mesh: &mut DcelMesh, vertex: u32) -> bool
    ensures test { IsTrue result ↔ IsSo (λ mesh. IsTrue (vertex_is_live mesh.shape vertex)) (kept_in mesh.old) }
    ensures same { kept_in mesh.new ≡ kept_in mesh.old }
{
    if !mesh.is_open {
        return false;
    }
    let vertex = FixedVertexHandle::new(vertex as usize);
    mesh.held.as_mut().is_live_vertex(vertex)
}

/// Returns whether the edge's number is in range, and no removal has given it up.
#[unsafe(no_mangle)]
pub extern "C" fn dcel_is_live_edge(mesh: &mut DcelMesh, undirected_edge: u32) -> bool
    ensures test { IsTrue result ↔ IsSo (λ mesh. IsTrue (edge_is_live mesh.shape undirected_edge)) (kept_in mesh.old) }
    ensures same { kept_in mesh.new ≡ kept_in mesh.old }
{
    if !mesh.is_open {
        return false;
    }
    let undirected_edge = FixedUndirectedEdgeHandle::new(undirected_edge as usize);
    mesh.held.as_mut().is_live_edge(undirected_edge)
}

/// Returns whether the face's number is in range, and no removal has given it up.
#[unsafe(no_mangle)]
pub extern "C" fn dcel_is_live_face(mesh: &mut DcelMesh, face: u32) -> bool
    ensures test { IsTrue result ↔ IsSo (λ mesh. IsTrue (face_is_live mesh.shape face)) (kept_in mesh.old) }
    ensures same { kept_in mesh.new ≡ kept_in mesh.old }
{
    if !mesh.is_open {
        return false;
    }
    let face: FixedFaceHandle<PossiblyOuterTag> = FixedFaceHandle::new(face as usize);
    mesh.held.as_mut().is_live_face(face)
}

/// Returns whether the vertex is live and no half edge starts there.
#[unsafe(no_mangle)]
pub extern "C" fn dcel_is_unconnected(mesh: &mut DcelMesh, vertex: u32) -> bool
    ensures test { IsTrue result ↔ IsSo (λ mesh. IsUnconnected mesh.shape vertex) (kept_in mesh.old) }
    ensures same { kept_in mesh.new ≡ kept_in mesh.old }
{
    if !mesh.is_open {
        return false;
    }
    let vertex = FixedVertexHandle::new(vertex as usize);
    mesh.held.as_mut().is_unconnected(vertex)
}

/// Returns whether the vertex is live and exactly one half edge starts there.
#[unsafe(no_mangle)]
pub extern "C" fn dcel_is_line_end(mesh: &mut DcelMesh, vertex: u32) -> bool
    ensures test { IsTrue result ↔ IsSo (λ mesh. IsLineEnd mesh.shape vertex) (kept_in mesh.old) }
    ensures same { kept_in mesh.new ≡ kept_in mesh.old }
{
    if !mesh.is_open {
        return false;
    }
    let vertex = FixedVertexHandle::new(vertex as usize);
    mesh.held.as_mut().is_line_end(vertex)
}

/// Returns whether the face is live and has three half edges.
#[unsafe(no_mangle)]
pub extern "C" fn dcel_is_triangle(mesh: &mut DcelMesh, face: u32) -> bool
    ensures test { IsTrue result ↔ IsSo (λ mesh. IsTriangle mesh.shape face) (kept_in mesh.old) }
    ensures same { kept_in mesh.new ≡ kept_in mesh.old }
{
    if !mesh.is_open {
        return false;
    }
    let face: FixedFaceHandle<PossiblyOuterTag> = FixedFaceHandle::new(face as usize);
    mesh.held.as_mut().is_triangle(face)
}

/// Returns whether the half edge is live and both halves of its edge lie on one face.
#[unsafe(no_mangle)]
pub extern "C" fn dcel_is_bridge(mesh: &mut DcelMesh, edge: u32) -> bool
    ensures test { IsTrue result ↔ IsSo (λ mesh. IsBridge mesh.shape edge) (kept_in mesh.old) }
    ensures same { kept_in mesh.new ≡ kept_in mesh.old }
{
    if !mesh.is_open {
        return false;
    }
    let edge = FixedDirectedEdgeHandle::new(edge as usize);
    mesh.held.as_mut().is_bridge(edge)
}

/// Returns whether the mesh looks triangulated, with no removal open.
#[unsafe(no_mangle)]
pub extern "C" fn dcel_sanity_check(mesh: &mut DcelMesh) -> bool
    ensures test { IsTrue result ↔ IsSo (λ mesh. IsChecked mesh.shape) (kept_in mesh.old) }
    ensures same { kept_in mesh.new ≡ kept_in mesh.old }
{
    if !mesh.is_open {
        return false;
    }
    mesh.held.as_mut().sanity_check()
}

/// Returns whether the first edge can be made between these vertices.
#[unsafe(no_mangle)]
pub extern "C" fn dcel_can_setup_initial_two_vertices(
    mesh: &mut DcelMesh,
    first: u32,
    second: u32,
) -> bool
    ensures test { IsTrue result ↔ IsSo (λ mesh. ((mesh.shape.edges ≡ 0) × (vertex_is_live mesh.shape first ≡ true) × (vertex_is_live mesh.shape second ≡ true) × (first ≢ second))) (kept_in mesh.old) }
    ensures same { kept_in mesh.new ≡ kept_in mesh.old }
{
    if !mesh.is_open {
        return false;
    }
    let first = FixedVertexHandle::new(first as usize);
    let second = FixedVertexHandle::new(second as usize);
    mesh.held
        .as_mut()
        .can_setup_initial_two_vertices(first, second)
}

/// Returns whether a line can be extended at this end by the vertex.
#[unsafe(no_mangle)]
pub extern "C" fn dcel_can_extend_line(mesh: &mut DcelMesh, end: u32, vertex: u32) -> bool
    ensures test { IsTrue result ↔ IsSo (λ mesh. (IsLineEnd mesh.shape end × IsUnconnected mesh.shape vertex)) (kept_in mesh.old) }
    ensures same { kept_in mesh.new ≡ kept_in mesh.old }
{
    if !mesh.is_open {
        return false;
    }
    let end = FixedVertexHandle::new(end as usize);
    let vertex = FixedVertexHandle::new(vertex as usize);
    mesh.held.as_mut().can_extend_line(end, vertex)
}

/// Returns whether an edge with one face on both sides can be split by the vertex.
#[unsafe(no_mangle)]
pub extern "C" fn dcel_can_split_edge_when_all_vertices_on_line(
    mesh: &mut DcelMesh,
    edge: u32,
    vertex: u32,
) -> bool
    ensures test { IsTrue result ↔ IsSo (λ mesh. (IsBridge mesh.shape edge × IsUnconnected mesh.shape vertex)) (kept_in mesh.old) }
    ensures same { kept_in mesh.new ≡ kept_in mesh.old }
{
    if !mesh.is_open {
        return false;
    }
    let edge = FixedDirectedEdgeHandle::new(edge as usize);
    let vertex = FixedVertexHandle::new(vertex as usize);
    mesh.held
        .as_mut()
        .can_split_edge_when_all_vertices_on_line(edge, vertex)
}

/// Returns whether a triangle can be closed between the half edge and the next one.
#[unsafe(no_mangle)]
pub extern "C" fn dcel_can_close_outside(mesh: &mut DcelMesh, edge: u32) -> bool
    ensures test { IsTrue result ↔ IsSo (λ mesh. CanCloseOutside mesh.shape edge) (kept_in mesh.old) }
    ensures same { kept_in mesh.new ≡ kept_in mesh.old }
{
    if !mesh.is_open {
        return false;
    }
    let edge = FixedDirectedEdgeHandle::new(edge as usize);
    mesh.held.as_mut().can_close_outside(edge)
}

/// Returns whether a triangle can be put beside the half edge, with the vertex as its third corner.
#[unsafe(no_mangle)]
pub extern "C" fn dcel_can_create_new_face_adjacent_to_edge(
    mesh: &mut DcelMesh,
    edge: u32,
    vertex: u32,
) -> bool
    ensures test { IsTrue result ↔ IsSo (λ mesh. (IsLive mesh.shape edge × IsUnconnected mesh.shape vertex)) (kept_in mesh.old) }
    ensures same { kept_in mesh.new ≡ kept_in mesh.old }
{
    if !mesh.is_open {
        return false;
    }
    let edge = FixedDirectedEdgeHandle::new(edge as usize);
    let vertex = FixedVertexHandle::new(vertex as usize);
    mesh.held
        .as_mut()
        .can_create_new_face_adjacent_to_edge(edge, vertex)
}

/// Returns whether the vertex can be inserted into the triangle.
#[unsafe(no_mangle)]
pub extern "C" fn dcel_can_insert_into_triangle(mesh: &mut DcelMesh, vertex: u32, face: u32) -> bool
    ensures test { IsTrue result ↔ IsSo (λ mesh. ((0 < face) × IsTriangle mesh.shape face × IsUnconnected mesh.shape vertex)) (kept_in mesh.old) }
    ensures same { kept_in mesh.new ≡ kept_in mesh.old }
{
    if !mesh.is_open {
        return false;
    }
    let vertex = FixedVertexHandle::new(vertex as usize);
    let face = FixedFaceHandle::new(face as usize);
    mesh.held.as_mut().can_insert_into_triangle(vertex, face)
}

/// Returns whether an edge with a triangle on the side of the half edge can be split by the vertex.
#[unsafe(no_mangle)]
pub extern "C" fn dcel_can_split_half_edge(mesh: &mut DcelMesh, edge: u32, vertex: u32) -> bool
    ensures test { IsTrue result ↔ IsSo (λ mesh. (IsLive mesh.shape edge × IsTriangle mesh.shape (face_of mesh.shape edge) × IsUnconnected mesh.shape vertex)) (kept_in mesh.old) }
    ensures same { kept_in mesh.new ≡ kept_in mesh.old }
{
    if !mesh.is_open {
        return false;
    }
    let edge = FixedDirectedEdgeHandle::new(edge as usize);
    let vertex = FixedVertexHandle::new(vertex as usize);
    mesh.held.as_mut().can_split_half_edge(edge, vertex)
}

/// Returns whether an edge between two triangles can be split by the vertex.
#[unsafe(no_mangle)]
pub extern "C" fn dcel_can_split_edge(mesh: &mut DcelMesh, edge: u32, vertex: u32) -> bool
    ensures test { IsTrue result ↔ IsSo (λ mesh. (IsLive mesh.shape edge × IsTriangle mesh.shape (face_of mesh.shape edge) × IsTriangle mesh.shape (face_of mesh.shape (rev edge)) × IsUnconnected mesh.shape vertex)) (kept_in mesh.old) }
    ensures same { kept_in mesh.new ≡ kept_in mesh.old }
{
    if !mesh.is_open {
        return false;
    }
    let edge = FixedDirectedEdgeHandle::new(edge as usize);
    let vertex = FixedVertexHandle::new(vertex as usize);
    mesh.held.as_mut().can_split_edge(edge, vertex)
}

/// Returns whether the edge lies between two triangles and can be flipped.
#[unsafe(no_mangle)]
pub extern "C" fn dcel_can_flip(mesh: &mut DcelMesh, undirected_edge: u32) -> bool
    ensures test { IsTrue result ↔ IsSo (λ mesh. CanFlip mesh.shape undirected_edge) (kept_in mesh.old) }
    ensures same { kept_in mesh.new ≡ kept_in mesh.old }
{
    if !mesh.is_open {
        return false;
    }
    let undirected_edge = FixedUndirectedEdgeHandle::new(undirected_edge as usize);
    mesh.held.as_mut().can_flip(undirected_edge)
}

/// Returns whether the vertex can be taken out.
#[unsafe(no_mangle)]
pub extern "C" fn dcel_can_swap_remove(mesh: &mut DcelMesh, vertex: u32) -> bool
    ensures test { IsTrue result ↔ IsSo (λ mesh. CanSwapRemove mesh.shape vertex) (kept_in mesh.old) }
    ensures same { kept_in mesh.new ≡ kept_in mesh.old }
{
    if !mesh.is_open {
        return false;
    }
    let vertex = FixedVertexHandle::new(vertex as usize);
    mesh.held.as_mut().can_swap_remove(vertex)
}

/// Returns whether the mesh is degenerate and can lose the vertex.
#[unsafe(no_mangle)]
pub extern "C" fn dcel_can_remove_degenerate(mesh: &mut DcelMesh, vertex: u32) -> bool
    ensures test { IsTrue result ↔ IsSo (λ mesh. CanRemoveDegenerate mesh.shape vertex) (kept_in mesh.old) }
    ensures same { kept_in mesh.new ≡ kept_in mesh.old }
{
    if !mesh.is_open {
        return false;
    }
    let vertex = FixedVertexHandle::new(vertex as usize);
    mesh.held.as_mut().can_remove_degenerate(vertex)
}
