//! Counts, with what an open removal has given up.

ghost use Rattle.std.specs.Prelude.{◌≡◌, ◌*◌};
ghost use Rattle.dcel_maps.specs.Shapes.{face_count};
ghost use Rattle.dcel_c.specs.Calls.{kept_in, count_in};

use crate::mesh::DcelMesh;

/// Returns the number of vertices, or 0 if there is no mesh.
#[unsafe(no_mangle)]
pub extern "C" fn dcel_num_vertices(mesh: &mut DcelMesh) -> u64
    ensures count { result ≡ count_in (λ shape. shape.vertices) (kept_in mesh.old) }
    ensures same { kept_in mesh.new ≡ kept_in mesh.old }
{
    if !mesh.is_open {
        return 0;
    }
    mesh.held.as_mut().num_vertices() as u64
}

/// Returns the number of half edges, or 0 if there is no mesh.
#[unsafe(no_mangle)]
pub extern "C" fn dcel_num_directed_edges(mesh: &mut DcelMesh) -> u64
    ensures count { result ≡ count_in (λ shape. 2 * shape.edges) (kept_in mesh.old) }
    ensures same { kept_in mesh.new ≡ kept_in mesh.old }
{
    if !mesh.is_open {
        return 0;
    }
    mesh.held.as_mut().num_directed_edges() as u64
}

/// Returns the number of edges, or 0 if there is no mesh.
#[unsafe(no_mangle)]
pub extern "C" fn dcel_num_undirected_edges(mesh: &mut DcelMesh) -> u64
    ensures count { result ≡ count_in (λ shape. shape.edges) (kept_in mesh.old) }
    ensures same { kept_in mesh.new ≡ kept_in mesh.old }
{
    if !mesh.is_open {
        return 0;
    }
    mesh.held.as_mut().num_undirected_edges() as u64
}

/// Returns the number of faces, the outer one among them, or 0 if there is no mesh.
#[unsafe(no_mangle)]
pub extern "C" fn dcel_num_faces(mesh: &mut DcelMesh) -> u64
    ensures count { result ≡ count_in face_count (kept_in mesh.old) }
    ensures same { kept_in mesh.new ≡ kept_in mesh.old }
{
    if !mesh.is_open {
        return 0;
    }
    mesh.held.as_mut().num_faces() as u64
}
