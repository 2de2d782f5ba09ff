//! Tests of lists, which take memory for these. Any numbers may be given.

ghost use Rattle.std.specs.Prelude.{◌≡◌, ◌≢◌, ◌≤◌, ◌⊎◌, ◌↔◌, IsTrue, None};
ghost use Rattle.dcel_maps.specs.Borders.{IsBorderLoop};
ghost use Rattle.dcel_maps.specs.Regions.{IsRing};
ghost use Rattle.dcel_maps.specs.Removals.{Closed, IsListed};
ghost use Rattle.dcel_maps.specs.Strips.{IsEdgeStrip};
ghost use Rattle.dcel_c.specs.Calls.{kept_in};
ghost use Rattle.dcel_c.specs.Tests.{Answers};

use crate::lists::handles;
use crate::mesh::DcelMesh;
use crate::status::{DONE, NO_MESH, OUT_OF_MEMORY};
use spade_dcel::handles::{FixedUndirectedEdgeHandle, FixedVertexHandle};
use spade_dcel::operations::IsolateVertexResult;
use std::alloc::Global;

/// Tells whether these half edges are the border loop of the vertex.
#[unsafe(no_mangle)]
pub extern "C" fn dcel_is_border_loop(
    alloc: Global,
    mesh: &mut DcelMesh,
    border_loop: &[u32],
    vertex: u32,
    answer: &mut bool,
) -> u32
    ensures answer { Answers (λ mesh. IsBorderLoop mesh.shape border_loop.now vertex) (kept_in mesh.old) answer.old answer.new result }
    ensures same { kept_in mesh.new ≡ kept_in mesh.old }
{
    if !mesh.is_open {
        return NO_MESH;
    }
    let Ok(border_loop) = handles(alloc, border_loop) else {
        return OUT_OF_MEMORY;
    };
    let vertex = FixedVertexHandle::new(vertex as usize);
    *answer = mesh.held.as_mut().is_border_loop(&border_loop, vertex);
    DONE
}

/// Tells whether these half edges are the ring of these edges and faces.
#[unsafe(no_mangle)]
pub extern "C" fn dcel_is_ring(
    alloc: Global,
    mesh: &mut DcelMesh,
    border_loop: &[u32],
    edges: &[u32],
    faces: &[u32],
    answer: &mut bool,
) -> u32
    ensures answer { Answers (λ mesh. IsRing mesh.shape border_loop.now edges.now faces.now) (kept_in mesh.old) answer.old answer.new result }
    ensures same { kept_in mesh.new ≡ kept_in mesh.old }
{
    if !mesh.is_open {
        return NO_MESH;
    }
    let Ok(border_loop) = handles(alloc, border_loop) else {
        return OUT_OF_MEMORY;
    };
    let Ok(edges) = handles(alloc, edges) else {
        return OUT_OF_MEMORY;
    };
    let Ok(faces) = handles(alloc, faces) else {
        return OUT_OF_MEMORY;
    };
    *answer = mesh.held.as_mut().is_ring(&border_loop, &edges, &faces);
    DONE
}

/// Tells whether these half edges are the strip of a vertex of the outer face.
#[unsafe(no_mangle)]
pub extern "C" fn dcel_is_edge_strip(
    alloc: Global,
    mesh: &mut DcelMesh,
    strip: &[u32],
    answer: &mut bool,
) -> u32
    ensures answer { Answers (λ mesh. IsEdgeStrip mesh.shape strip.now) (kept_in mesh.old) answer.old answer.new result }
    ensures same { kept_in mesh.new ≡ kept_in mesh.old }
{
    if !mesh.is_open {
        return NO_MESH;
    }
    let Ok(strip) = handles(alloc, strip) else {
        return OUT_OF_MEMORY;
    };
    *answer = mesh.held.as_mut().is_edge_strip(&strip);
    DONE
}

/// Tells whether the vertex can be given up and the hole inside the border filled.
#[unsafe(no_mangle)]
pub extern "C" fn dcel_can_isolate_vertex_and_fill_hole(
    alloc: Global,
    mesh: &mut DcelMesh,
    border_loop: &[u32],
    vertex: u32,
    answer: &mut bool,
) -> u32
    ensures answer { Answers (λ mesh. ((mesh.shape.removal ≡ Closed) × IsBorderLoop mesh.shape border_loop.now vertex)) (kept_in mesh.old) answer.old answer.new result }
    ensures same { kept_in mesh.new ≡ kept_in mesh.old }
{
    if !mesh.is_open {
        return NO_MESH;
    }
    let Ok(border_loop) = handles(alloc, border_loop) else {
        return OUT_OF_MEMORY;
    };
    let vertex = FixedVertexHandle::new(vertex as usize);
    *answer = mesh
        .held
        .as_mut()
        .can_isolate_vertex_and_fill_hole(&border_loop, vertex);
    DONE
}

/// Tells whether what lies inside the ring can be given up and the hole filled.
#[unsafe(no_mangle)]
pub extern "C" fn dcel_can_remesh_edge_ring(
    alloc: Global,
    mesh: &mut DcelMesh,
    border_loop: &[u32],
    edges: &[u32],
    faces: &[u32],
    answer: &mut bool,
) -> u32
    ensures answer { Answers (λ mesh. ((mesh.shape.removal ≡ Closed) × IsRing mesh.shape border_loop.now edges.now faces.now)) (kept_in mesh.old) answer.old answer.new result }
    ensures same { kept_in mesh.new ≡ kept_in mesh.old }
{
    if !mesh.is_open {
        return NO_MESH;
    }
    let Ok(border_loop) = handles(alloc, border_loop) else {
        return OUT_OF_MEMORY;
    };
    let Ok(edges) = handles(alloc, edges) else {
        return OUT_OF_MEMORY;
    };
    let Ok(faces) = handles(alloc, faces) else {
        return OUT_OF_MEMORY;
    };
    *answer = mesh
        .held
        .as_mut()
        .can_remesh_edge_ring(&border_loop, &edges, &faces);
    DONE
}

/// Tells whether the vertex whose strip this is can be cut off.
#[unsafe(no_mangle)]
pub extern "C" fn dcel_can_disconnect_edge_strip(
    alloc: Global,
    mesh: &mut DcelMesh,
    strip: &[u32],
    answer: &mut bool,
) -> u32
    ensures answer { Answers (λ mesh. ((mesh.shape.removal ≡ Closed) × IsEdgeStrip mesh.shape strip.now)) (kept_in mesh.old) answer.old answer.new result }
    ensures same { kept_in mesh.new ≡ kept_in mesh.old }
{
    if !mesh.is_open {
        return NO_MESH;
    }
    let Ok(strip) = handles(alloc, strip) else {
        return OUT_OF_MEMORY;
    };
    *answer = mesh.held.as_mut().can_disconnect_edge_strip(&strip);
    DONE
}

/// Tells whether the lists name what an open removal has given up.
#[unsafe(no_mangle)]
pub extern "C" fn dcel_is_listed(
    alloc: Global,
    mesh: &mut DcelMesh,
    edges: &[u32],
    faces: &[u32],
    answer: &mut bool,
) -> u32
    ensures answer { Answers (λ mesh. IsListed mesh.shape.removal edges.now faces.now) (kept_in mesh.old) answer.old answer.new result }
    ensures same { kept_in mesh.new ≡ kept_in mesh.old }
{
    if !mesh.is_open {
        return NO_MESH;
    }
    let Ok(edges_to_remove) = handles(alloc, edges) else {
        return OUT_OF_MEMORY;
    };
    let Ok(faces_to_remove) = handles(alloc, faces) else {
        return OUT_OF_MEMORY;
    };
    let opened = IsolateVertexResult {
        edges_to_remove,
        faces_to_remove,
        new_edges: Vec::new(alloc),
        smallest_new_edge: FixedUndirectedEdgeHandle::new(0),
    };
    *answer = mesh.held.as_mut().is_listed(&opened);
    DONE
}
