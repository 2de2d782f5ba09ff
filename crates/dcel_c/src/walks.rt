//! Walks round a vertex and along a face, into a buffer.

ghost use Rattle.std.specs.Prelude.{◌≡◌, ◌≤◌, ◌^◌, length, map};
ghost use Rattle.dcel_maps.specs.Shapes.{face_count};
ghost use Rattle.dcel_maps.specs.Walking.{out_edges_of};
ghost use Rattle.dcel_exports.specs.Answers.{filled};
ghost use Rattle.dcel_c.specs.Calls.{kept_in};
ghost use Rattle.dcel_c.specs.Walks.{walk_in, walk_status};
ghost use Rattle.spade_dcel.specs.Faces.{face_edges_of};

use crate::mesh::DcelMesh;
use crate::status::{NO_MESH, NO_SUCH_FACE, NO_SUCH_VERTEX, done_or_short};
use spade_dcel::handles::{FixedFaceHandle, FixedVertexHandle, PossiblyOuterTag};
use spade_dcel::iterators::{CircularIterator, NextBackFn};
use std::alloc::Global;

/// Puts the half edges of the walk into the buffer, as many as fit, and returns how many there are.
fn put_walk<NB: NextBackFn>(
    walk: CircularIterator<'_, u64, u64, u64, u64, NB, Global>,
    edges: &mut [u32],
) -> u64
    requires { length walk.items ≤ 2 ^ 32 }
    ensures put { edges.new ≡ filled (map (λ edge. edge.1) walk.entry.items) edges.old }
    ensures needed { result ≡ length walk.entry.items }
{
    let mut needed = 0;
    for edge in walk {
        if needed < edges.len() {
            edges[needed] = edge.index() as u32;
        }
        needed += 1;
    }
    needed as u64
}

/// Puts the half edges that start at the vertex into the buffer, by `ccw` from its anchor.
#[unsafe(no_mangle)]
#[tactic(auto, using(crate::proofs::Walked::numbers_in_mesh))]
pub extern "C" fn dcel_out_edges(
    mesh: &mut DcelMesh,
    vertex: u32,
    edges: &mut [u32],
    needed: &mut u64,
) -> u32
    ensures edges { edges.new ≡ filled (walk_in (λ shape. shape.vertices) out_edges_of (kept_in mesh.old) vertex) edges.old }
    ensures needed { needed.new ≡ length (walk_in (λ shape. shape.vertices) out_edges_of (kept_in mesh.old) vertex) }
    ensures status { result ≡ walk_status (λ shape. shape.vertices) 1 (kept_in mesh.old) vertex needed.new (length edges.old) }
    ensures same { kept_in mesh.new ≡ kept_in mesh.old }
{
    *needed = 0;
    if !mesh.is_open {
        return NO_MESH;
    }
    let dcel = mesh.held.as_mut();
    if vertex as usize >= dcel.num_vertices() {
        return NO_SUCH_VERTEX;
    }
    let vertex = FixedVertexHandle::new(vertex as usize);
    *needed = put_walk(dcel.vertex(vertex).out_edges(), edges);
    done_or_short(*needed, edges.len())
}

/// Puts the half edges on the face into the buffer, by `next` from its anchor.
#[unsafe(no_mangle)]
#[tactic(auto, using(crate::proofs::Walked::numbers_in_mesh))]
pub extern "C" fn dcel_face_edges(
    mesh: &mut DcelMesh,
    face: u32,
    edges: &mut [u32],
    needed: &mut u64,
) -> u32
    ensures edges { edges.new ≡ filled (walk_in face_count face_edges_of (kept_in mesh.old) face) edges.old }
    ensures needed { needed.new ≡ length (walk_in face_count face_edges_of (kept_in mesh.old) face) }
    ensures status { result ≡ walk_status face_count 3 (kept_in mesh.old) face needed.new (length edges.old) }
    ensures same { kept_in mesh.new ≡ kept_in mesh.old }
{
    *needed = 0;
    if !mesh.is_open {
        return NO_MESH;
    }
    let dcel = mesh.held.as_mut();
    if face as usize >= dcel.num_faces() {
        return NO_SUCH_FACE;
    }
    let face: FixedFaceHandle<PossiblyOuterTag> = FixedFaceHandle::new(face as usize);
    *needed = put_walk(dcel.face(face).directed_edges(), edges);
    done_or_short(*needed, edges.len())
}
