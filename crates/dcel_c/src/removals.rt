//! Removals: opened, cleaned up, and closed.

ghost use Rattle.std.specs.Prelude.{◌≡◌, ◌≢◌, ◌<◌, ◌↔◌, length, min};
ghost use Rattle.dcel_commands.specs.Instructions.{instruction, Isolate, Remesh, Strip, Cleanup, Remove, Degenerate};
ghost use Rattle.dcel_commands.specs.Responses.{response};
ghost use Rattle.dcel_exports.specs.Answers.{filled};
ghost use Rattle.dcel_c.specs.Calls.{kept_in};
ghost use Rattle.dcel_c.specs.Edits.{Edits, EditsByLists, Tells};
ghost use Rattle.dcel_c.specs.Removals.{edges_told, faces_told, opened_told, opened_with_lists, removed_told, state_in};

use crate::edits::{edit, edit_quietly};
use crate::lists::{handles, put};
use crate::mesh::DcelMesh;
use crate::status::{DONE, OUT_OF_MEMORY, SHORT};
use dcel_commands::commands::{Command, Reply};
use spade_dcel::dcel::RemovalState;
use spade_dcel::handles::FixedVertexHandle;
use std::alloc::Global;

/// A vertex that was taken out.
#[repr(C)]
#[derive(Clone, Copy)]
pub struct DcelRemoved {
    /// Its datum.
    pub datum: u64,
    /// The old number of the vertex that was moved into its place, 2^64 - 1 if none was.
    pub moved: u64,
}

/// A removal that was opened: how many edges and faces it has given up, how many edges it has added,
/// and the number of the first of these. The others follow it.
#[repr(C)]
#[derive(Clone, Copy)]
pub struct DcelOpened {
    pub edges: u64,
    pub faces: u64,
    pub new_edges: u64,
    pub smallest_new_edge: u64,
}

/// Returns what the reply tells of a vertex that was taken out.
fn removed_in(reply: Reply<u64, Global>) -> DcelRemoved
    ensures { result ≡ removed_told (response reply) }
{
    let Reply::Removed(removed) = reply else {
        return DcelRemoved {
            datum: 0,
            moved: u64::MAX,
        };
    };
    let moved = match removed.swapped_in_vertex {
        Some(vertex) => vertex.index() as u64,
        None => u64::MAX,
    };
    DcelRemoved {
        datum: removed.removed_vertex,
        moved,
    }
}

/// Returns what the reply tells of a removal that was opened.
fn opened_in(reply: &Reply<u64, Global>) -> DcelOpened
    ensures { result ≡ opened_told (response reply.now) }
{
    match reply {
        Reply::Opened(opened) => DcelOpened {
            edges: opened.edges_to_remove.len() as u64,
            faces: opened.faces_to_remove.len() as u64,
            new_edges: opened.new_edges.len() as u64,
            smallest_new_edge: opened.smallest_new_edge.index() as u64,
        },
        _ => DcelOpened {
            edges: 0,
            faces: 0,
            new_edges: 0,
            smallest_new_edge: 0,
        },
    }
}

/// Puts what the reply says was given up into the buffers, as much as fits.
fn put_lists(reply: &Reply<u64, Global>, edges: &mut [u32], faces: &mut [u32])
    ensures edges { edges.new ≡ filled (edges_told (response reply.now)) edges.old }
    ensures faces { faces.new ≡ filled (faces_told (response reply.now)) faces.old }
{
    match reply {
        Reply::Opened(opened) => {
            put(&opened.edges_to_remove, edges);
            put(&opened.faces_to_remove, faces);
        }
        _ => {}
    }
}

/// Carries out a command that opens a removal, and tells what it gives up.
fn open_removal(
    mesh: &mut DcelMesh,
    command: Command<u64, Global>,
    edges: &mut [u32],
    faces: &mut [u32],
    opened: &mut DcelOpened,
) -> u32
    ensures edit { Edits (kept_in mesh.old) (instruction command) (kept_in mesh.new) result }
    ensures told { result ≡ 0 → Tells (opened_with_lists edges.old faces.old) (kept_in mesh.old) (instruction command) (kept_in mesh.new) (opened.new, edges.new, faces.new) }
    ensures untold { result ≢ 0 → (opened.new ≡ opened.old) × (edges.new ≡ edges.old) × (faces.new ≡ faces.old) }
{
    match edit(mesh, command) {
        Ok(reply) => {
            *opened = opened_in(&reply);
            put_lists(&reply, edges, faces);
            DONE
        }
        Err(status) => status,
    }
}

/// Gives up a vertex with its edges and triangles, fills the hole inside the border, and tells what
/// was given up.
///
/// Each buffer must have as many places as the border has half edges.
#[unsafe(no_mangle)]
pub extern "C" fn dcel_isolate_vertex_and_fill_hole(
    alloc: Global,
    mesh: &mut DcelMesh,
    border_loop: &[u32],
    vertex: u32,
    edges: &mut [u32],
    faces: &mut [u32],
    opened: &mut DcelOpened,
) -> u32
    ensures edit { EditsByLists (kept_in mesh.old) (Isolate vertex border_loop.now) (kept_in mesh.new) result }
    ensures told { result ≡ 0 → Tells (opened_with_lists edges.old faces.old) (kept_in mesh.old) (Isolate vertex border_loop.now) (kept_in mesh.new) (opened.new, edges.new, faces.new) }
    ensures untold { result ≢ 0 → (opened.new ≡ opened.old) × (edges.new ≡ edges.old) × (faces.new ≡ faces.old) }
    ensures short { (result ≡ 22) ↔ (min (length edges.old) (length faces.old) < length border_loop.now) }
{
    if edges.len().min(faces.len()) < border_loop.len() {
        return SHORT;
    }
    let Ok(list) = handles(alloc, border_loop) else {
        return OUT_OF_MEMORY;
    };
    let vertex = FixedVertexHandle::new(vertex as usize);
    open_removal(mesh, Command::Isolate(vertex, list), edges, faces, opened)
}

/// Carries out a command that opens a removal of what the caller has listed, and tells how much it is.
fn open_counted(mesh: &mut DcelMesh, command: Command<u64, Global>, opened: &mut DcelOpened) -> u32
    ensures edit { Edits (kept_in mesh.old) (instruction command) (kept_in mesh.new) result }
    ensures told { result ≡ 0 → Tells opened_told (kept_in mesh.old) (instruction command) (kept_in mesh.new) opened.new }
    ensures untold { result ≢ 0 → opened.new ≡ opened.old }
{
    match edit(mesh, command) {
        Ok(reply) => {
            *opened = opened_in(&reply);
            DONE
        }
        Err(status) => status,
    }
}

/// Gives up what lies inside a ring of half edges, fills the hole, and tells of it.
#[unsafe(no_mangle)]
pub extern "C" fn dcel_remesh_edge_ring(
    alloc: Global,
    mesh: &mut DcelMesh,
    border_loop: &[u32],
    edges: &[u32],
    faces: &[u32],
    opened: &mut DcelOpened,
) -> u32
    ensures edit { EditsByLists (kept_in mesh.old) (Remesh border_loop.now edges.now faces.now) (kept_in mesh.new) result }
    ensures told { result ≡ 0 → Tells opened_told (kept_in mesh.old) (Remesh border_loop.now edges.now faces.now) (kept_in mesh.new) opened.new }
    ensures untold { result ≢ 0 → opened.new ≡ opened.old }
    ensures never_short { result ≢ 22 }
{
    let Ok(list) = handles(alloc, border_loop) else {
        return OUT_OF_MEMORY;
    };
    let Ok(edges) = handles(alloc, edges) else {
        return OUT_OF_MEMORY;
    };
    let Ok(faces) = handles(alloc, faces) else {
        return OUT_OF_MEMORY;
    };
    open_counted(mesh, Command::Remesh(list, edges, faces), opened)
}

/// Cuts off the outer vertex whose strip these half edges are, and tells what was given up.
///
/// Each buffer must have as many places as the strip has half edges.
#[unsafe(no_mangle)]
pub extern "C" fn dcel_disconnect_edge_strip(
    alloc: Global,
    mesh: &mut DcelMesh,
    strip: &[u32],
    edges: &mut [u32],
    faces: &mut [u32],
    opened: &mut DcelOpened,
) -> u32
    ensures edit { EditsByLists (kept_in mesh.old) (Strip strip.now) (kept_in mesh.new) result }
    ensures told { result ≡ 0 → Tells (opened_with_lists edges.old faces.old) (kept_in mesh.old) (Strip strip.now) (kept_in mesh.new) (opened.new, edges.new, faces.new) }
    ensures untold { result ≢ 0 → (opened.new ≡ opened.old) × (edges.new ≡ edges.old) × (faces.new ≡ faces.old) }
    ensures short { (result ≡ 22) ↔ (min (length edges.old) (length faces.old) < length strip.now) }
{
    if edges.len().min(faces.len()) < strip.len() {
        return SHORT;
    }
    let Ok(list) = handles(alloc, strip) else {
        return OUT_OF_MEMORY;
    };
    open_removal(mesh, Command::Strip(list), edges, faces, opened)
}

/// Takes out the edges and the faces that an open removal has given up.
#[unsafe(no_mangle)]
pub extern "C" fn dcel_cleanup_isolated_vertex(
    alloc: Global,
    mesh: &mut DcelMesh,
    edges: &[u32],
    faces: &[u32],
) -> u32
    ensures edit { EditsByLists (kept_in mesh.old) (Cleanup edges.now faces.now) (kept_in mesh.new) result }
    ensures never_short { result ≢ 22 }
{
    let Ok(edges) = handles(alloc, edges) else {
        return OUT_OF_MEMORY;
    };
    let Ok(faces) = handles(alloc, faces) else {
        return OUT_OF_MEMORY;
    };
    edit_quietly(mesh, Command::Cleanup(edges, faces))
}

/// Carries out a command that takes out a vertex, and tells of it.
#[inline(always)]
fn take_out(mesh: &mut DcelMesh, command: Command<u64, Global>, removed: &mut DcelRemoved) -> u32
    ensures edit { Edits (kept_in mesh.old) (instruction command) (kept_in mesh.new) result }
    ensures told { result ≡ 0 → Tells removed_told (kept_in mesh.old) (instruction command) (kept_in mesh.new) removed.new }
    ensures untold { result ≢ 0 → removed.new ≡ removed.old }
{
    match edit(mesh, command) {
        Ok(reply) => {
            *removed = removed_in(reply);
            DONE
        }
        Err(status) => status,
    }
}

/// Takes out a vertex, closes a removal that is cleaned up, and tells what was taken out.
#[unsafe(no_mangle)]
pub extern "C" fn dcel_swap_remove_vertex(
    mesh: &mut DcelMesh,
    vertex: u32,
    removed: &mut DcelRemoved,
) -> u32
    ensures edit { Edits (kept_in mesh.old) (Remove vertex) (kept_in mesh.new) result }
    ensures told { result ≡ 0 → Tells removed_told (kept_in mesh.old) (Remove vertex) (kept_in mesh.new) removed.new }
    ensures untold { result ≢ 0 → removed.new ≡ removed.old }
{
    let vertex = FixedVertexHandle::new(vertex as usize);
    take_out(mesh, Command::Remove(vertex), removed)
}

/// Takes out a vertex of a mesh that is one vertex or a path, with one edge if it has any, and tells
/// what was taken out.
#[unsafe(no_mangle)]
pub extern "C" fn dcel_remove_when_degenerate(
    mesh: &mut DcelMesh,
    vertex: u32,
    removed: &mut DcelRemoved,
) -> u32
    ensures edit { Edits (kept_in mesh.old) (Degenerate vertex) (kept_in mesh.new) result }
    ensures told { result ≡ 0 → Tells removed_told (kept_in mesh.old) (Degenerate vertex) (kept_in mesh.new) removed.new }
    ensures untold { result ≢ 0 → removed.new ≡ removed.old }
{
    let vertex = FixedVertexHandle::new(vertex as usize);
    take_out(mesh, Command::Degenerate(vertex), removed)
}

/// Returns how far a removal has come: 0 if none is open, 1 if it is to be cleaned up, 2 if its
/// vertex is to be taken out.
#[unsafe(no_mangle)]
pub extern "C" fn dcel_removal_state(mesh: &mut DcelMesh) -> u32
    ensures state { result ≡ state_in (kept_in mesh.old) }
    ensures same { kept_in mesh.new ≡ kept_in mesh.old }
{
    if !mesh.is_open {
        return 0;
    }
    match mesh.held.as_mut().removal_state() {
        RemovalState::Closed => 0,
        RemovalState::Isolated => 1,
        RemovalState::Cleaned => 2,
    }
}
