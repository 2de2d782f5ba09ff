//! Anchors, where walks begin, and the half edge between two vertices.

ghost use Rattle.std.specs.Prelude.{◌≡◌, unwrap_or};
ghost use Rattle.dcel_maps.specs.Shapes.{face_anchor, face_count, vertex_anchor};
ghost use Rattle.dcel_maps.specs.Walking.{edge_between};
ghost use Rattle.dcel_c.specs.Calls.{kept_in, number_in, nowhere};

use crate::mesh::DcelMesh;
use crate::status::NONE;
use spade_dcel::handles::{FixedFaceHandle, FixedVertexHandle, PossiblyOuterTag};

/// Returns a half edge that starts at the vertex, its anchor, or [`NONE`] if there is none.
#[unsafe(no_mangle)]
pub extern "C" fn dcel_out_edge(mesh: &mut DcelMesh, vertex: u32) -> u64
    ensures anchor { result ≡ number_in (λ shape. shape.vertices) (λ mesh v. unwrap_or (vertex_anchor mesh v) nowhere) (kept_in mesh.old) vertex }
    ensures same { kept_in mesh.new ≡ kept_in mesh.old }
{
    if !mesh.is_open {
        return NONE;
    }
    let dcel = mesh.held.as_mut();
    if vertex as usize >= dcel.num_vertices() {
        return NONE;
    }
    match dcel.vertex_out_edge(FixedVertexHandle::new(vertex as usize)) {
        None => NONE,
        Some(edge) => edge.index() as u64,
    }
}

/// Returns a half edge of the face, its anchor, or [`NONE`] if there is none.
#[unsafe(no_mangle)]
pub extern "C" fn dcel_adjacent_edge(mesh: &mut DcelMesh, face: u32) -> u64
    ensures anchor { result ≡ number_in face_count (λ mesh f. unwrap_or (face_anchor mesh f) nowhere) (kept_in mesh.old) face }
    ensures same { kept_in mesh.new ≡ kept_in mesh.old }
{
    if !mesh.is_open {
        return NONE;
    }
    let dcel = mesh.held.as_mut();
    if face as usize >= dcel.num_faces() {
        return NONE;
    }
    let face: FixedFaceHandle<PossiblyOuterTag> = FixedFaceHandle::new(face as usize);
    match dcel.face_adjacent_edge(face) {
        None => NONE,
        Some(edge) => edge.index() as u64,
    }
}

/// Returns the first half edge out of one vertex, by `ccw` from its anchor, that leads to the other,
/// or [`NONE`] if none does.
#[unsafe(no_mangle)]
pub extern "C" fn dcel_get_edge_from_neighbors(mesh: &mut DcelMesh, from: u32, to: u32) -> u64
    ensures edge { result ≡ number_in (λ shape. shape.vertices) (λ mesh v. unwrap_or (edge_between mesh v to) nowhere) (kept_in mesh.old) from }
    ensures same { kept_in mesh.new ≡ kept_in mesh.old }
{
    if !mesh.is_open {
        return NONE;
    }
    let dcel = mesh.held.as_mut();
    if from as usize >= dcel.num_vertices() {
        return NONE;
    }
    let from = FixedVertexHandle::new(from as usize);
    let to = FixedVertexHandle::new(to as usize);
    match dcel.get_edge_from_neighbors(from, to) {
        None => NONE,
        Some(edge) => edge.index() as u64,
    }
}
