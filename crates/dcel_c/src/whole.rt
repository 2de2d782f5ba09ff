//! Whole meshes: made, cloned, emptied and freed.

ghost use Rattle.std.specs.Prelude.{◌≡◌, ◌≢◌, ◌≤◌, ◌⊎◌, ◌↔◌, IsSome, None, Some};
ghost use Rattle.dcel_commands.specs.Instructions.{Clear};
ghost use Rattle.dcel_maps.specs.Conditions.{HasRoom};
ghost use Rattle.dcel_c.specs.Calls.{HasNewMesh, IsSo, kept_in};
ghost use Rattle.dcel_c.specs.Edits.{Edits};

use crate::edits::edit_quietly;
use crate::held::{Held, Numbers};
use crate::mesh::DcelMesh;
use crate::status::{DONE, NO_MESH, NO_ROOM, OUT_OF_MEMORY};
use dcel_commands::commands::Command;
use spade_dcel::operations::new;
use std::alloc::Global;

/// Keeps this mesh there, and frees the one that was kept. If there is no memory, nothing changes.
pub fn keep(alloc: Global, mesh: &mut DcelMesh, dcel: Numbers) -> u32
    ensures done { result ≡ 0 → kept_in mesh.new ≡ Some dcel }
    ensures no_memory { result ≢ 0 → (result ≡ 20) × (kept_in mesh.new ≡ kept_in mesh.old) }
{
    match Box::new(alloc, dcel) {
        Err(_) => OUT_OF_MEMORY,
        Ok(kept) => {
            *mesh = DcelMesh {
                held: Held::of(kept),
                is_open: true,
            };
            DONE
        }
    }
}

/// Makes an empty mesh: no vertex, no edge, and the outer face with datum 0.
///
/// A mesh that was kept there before is freed.
#[unsafe(no_mangle)]
pub extern "C" fn dcel_new(alloc: Global, mesh: &mut DcelMesh) -> u32
    ensures done { result ≡ 0 → HasNewMesh (kept_in mesh.new) }
    ensures no_memory { result ≢ 0 → (result ≡ 20) × (kept_in mesh.new ≡ kept_in mesh.old) }
{
    match new(alloc) {
        Err(_) => OUT_OF_MEMORY,
        Ok(made) => keep(alloc, mesh, made),
    }
}

/// Frees the mesh, if there is one.
#[unsafe(no_mangle)]
pub extern "C" fn dcel_free(alloc: Global, mesh: &mut DcelMesh)
    ensures { kept_in mesh.new ≡ None }
{
    *mesh = DcelMesh {
        held: Held::empty(alloc),
        is_open: false,
    };
}

/// Makes an equal mesh, with memory of its own. A mesh that was kept there before is freed.
#[unsafe(no_mangle)]
pub extern "C" fn dcel_clone(alloc: Global, from: &mut DcelMesh, to: &mut DcelMesh) -> u32
    ensures done { result ≡ 0 → IsSome (kept_in from.old) × (kept_in to.new ≡ kept_in from.old) }
    ensures refused { result ≢ 0 → kept_in to.new ≡ kept_in to.old }
    ensures no_mesh { (result ≡ 21) ↔ (kept_in from.old ≡ None) }
    ensures status { (result ≡ 0) ⊎ ((20 ≤ result) × (result ≤ 21)) }
    ensures same { kept_in from.new ≡ kept_in from.old }
{
    if !from.is_open {
        return NO_MESH;
    }
    match from.held.try_clone(alloc) {
        Err(_) => OUT_OF_MEMORY,
        Ok(held) => {
            *to = DcelMesh {
                held,
                is_open: true,
            };
            DONE
        }
    }
}

/// Removes all vertices and edges, and all faces but the outer one.
#[unsafe(no_mangle)]
pub extern "C" fn dcel_clear(mesh: &mut DcelMesh) -> u32
    ensures { Edits (kept_in mesh.old) Clear (kept_in mesh.new) result }
{
    edit_quietly(mesh, Command::Clear)
}

/// Makes room in memory for that many more elements, if there are numbers for them.
#[unsafe(no_mangle)]
pub extern "C" fn dcel_reserve_capacity(
    mesh: &mut DcelMesh,
    vertices: u64,
    undirected_edges: u64,
    faces: u64,
) -> u32
    ensures done { result ≡ 0 → IsSo (λ mesh. HasRoom mesh.shape vertices undirected_edges faces) (kept_in mesh.old) }
    ensures no_room { result ≡ 19 → IsSo (λ mesh. ¬ HasRoom mesh.shape vertices undirected_edges faces) (kept_in mesh.old) }
    ensures no_memory { result ≡ 20 → IsSo (λ mesh. HasRoom mesh.shape vertices undirected_edges faces) (kept_in mesh.old) }
    ensures no_mesh { result ≡ 21 → kept_in mesh.old ≡ None }
    ensures status { (result ≡ 0) ⊎ ((19 ≤ result) × (result ≤ 21)) }
    ensures same { kept_in mesh.new ≡ kept_in mesh.old }
{
    if !mesh.is_open {
        return NO_MESH;
    }
    let dcel = mesh.held.as_mut();
    let (vertices, edges, faces) = (vertices as usize, undirected_edges as usize, faces as usize);
    if !dcel.has_room(vertices, edges, faces) {
        return NO_ROOM;
    }
    match dcel.reserve_capacity(vertices, edges, faces) {
        Ok(()) => DONE,
        Err(_) => OUT_OF_MEMORY,
    }
}
