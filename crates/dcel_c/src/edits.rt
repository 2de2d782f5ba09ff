//! Edits, each by the command that tests all that it asks.

ghost use Rattle.std.specs.Prelude.{◌≡◌, ◌≢◌, ◌<◌, ◌≤◌, [], ◌∷◌, IfOk, IfErr, OnErr};
ghost use Rattle.dcel_commands.specs.Instructions.{instruction, Append, Triangle, Setup, Extend, Line, Close, Outside, Insert, Half as HalfSplit, Split, Flip, Swap};
ghost use Rattle.dcel_commands.specs.Responses.{response, Vertex, Half, Halves};
ghost use Rattle.dcel_c.specs.Calls.{kept_in};
ghost use Rattle.dcel_c.specs.Edits.{Carried, Edits, Refuses};

use crate::mesh::DcelMesh;
use crate::status::{DONE, NO_MESH};
use dcel_commands::commands::{Command, MAX_LIMIT, Reply, apply};
use spade_dcel::handles::{
    FixedDirectedEdgeHandle, FixedFaceHandle, FixedUndirectedEdgeHandle, FixedVertexHandle,
};
use std::alloc::Global;

/// Carries the command out, or returns the status that says why not.
#[inline(always)]
pub fn edit(mesh: &mut DcelMesh, command: Command<u64, Global>) -> Result<Reply<u64, Global>, u32>
    ensures carried { IfOk result (λ reply. Carried (kept_in mesh.old) (instruction command) (response reply) (kept_in mesh.new)) }
    ensures refused { IfErr result (λ status. Refuses (kept_in mesh.old) (instruction command) status) }
    ensures status { IfErr result (λ status. (0 < status) × (status ≤ 21)) }
    ensures same { OnErr result (kept_in mesh.new ≡ kept_in mesh.old) }
{
    if !mesh.is_open {
        return Err(NO_MESH);
    }
    match apply(mesh.held.as_mut(), command, MAX_LIMIT) {
        Ok(reply) => Ok(reply),
        Err(refused) => Err(refused.why.number() as u32),
    }
}

/// Carries out a command of whose reply nothing is told.
#[inline(always)]
pub fn edit_quietly(mesh: &mut DcelMesh, command: Command<u64, Global>) -> u32
    ensures { Edits (kept_in mesh.old) (instruction command) (kept_in mesh.new) result }
{
    match edit(mesh, command) {
        Ok(_) => DONE,
        Err(status) => status,
    }
}

/// Returns the vertex that the reply names.
#[inline(always)]
fn vertex_named(reply: Reply<u64, Global>) -> u32
    ensures { (vertex : _) → response reply ≡ Vertex vertex → result ≡ vertex }
{
    match reply {
        Reply::Vertex(vertex) => vertex.index() as u32,
        _ => 0,
    }
}

/// Returns the half edge that the reply names.
#[inline(always)]
fn half_named(reply: Reply<u64, Global>) -> u32
    ensures { (half : _) → response reply ≡ Half half → result ≡ half }
{
    match reply {
        Reply::Half(half) => half.index() as u32,
        _ => 0,
    }
}

/// Returns the second of the two half edges that the reply names.
#[inline(always)]
fn second_named(reply: Reply<u64, Global>) -> u32
    ensures { (first second : _) → response reply ≡ Halves (first ∷ second ∷ []) → result ≡ second }
{
    let Reply::Halves(halves) = reply else {
        return 0;
    };
    let halves = &halves[..];
    halves[1].index() as u32
}

/// Adds a vertex with this datum and without an edge, and tells its number.
#[unsafe(no_mangle)]
pub extern "C" fn dcel_append_unconnected_vertex(
    mesh: &mut DcelMesh,
    datum: u64,
    vertex: &mut u32,
) -> u32
    ensures edit { Edits (kept_in mesh.old) (Append datum) (kept_in mesh.new) result }
    ensures told { result ≡ 0 → Carried (kept_in mesh.old) (Append datum) (Vertex vertex.new) (kept_in mesh.new) }
    ensures untold { result ≢ 0 → vertex.new ≡ vertex.old }
{
    match edit(mesh, Command::Append(datum)) {
        Ok(reply) => {
            *vertex = vertex_named(reply);
            DONE
        }
        Err(status) => status,
    }
}

/// Replaces the mesh by one of a single triangle with this datum for each vertex.
#[unsafe(no_mangle)]
pub extern "C" fn dcel_new_triangle(mesh: &mut DcelMesh, a: u64, b: u64, c: u64) -> u32
    ensures edit { Edits (kept_in mesh.old) (Triangle a b c) (kept_in mesh.new) result }
{
    edit_quietly(mesh, Command::Triangle(a, b, c))
}

/// Adds the first edge, from the first vertex to the second.
#[unsafe(no_mangle)]
pub extern "C" fn dcel_setup_initial_two_vertices(
    mesh: &mut DcelMesh,
    first: u32,
    second: u32,
) -> u32
    ensures edit { Edits (kept_in mesh.old) (Setup first second) (kept_in mesh.new) result }
{
    let first = FixedVertexHandle::new(first as usize);
    let second = FixedVertexHandle::new(second as usize);
    edit_quietly(mesh, Command::Setup(first, second))
}

/// Extends the line that ends at the first vertex by an edge to the second.
#[unsafe(no_mangle)]
pub extern "C" fn dcel_extend_line(mesh: &mut DcelMesh, end: u32, vertex: u32) -> u32
    ensures edit { Edits (kept_in mesh.old) (Extend end vertex) (kept_in mesh.new) result }
{
    let end = FixedVertexHandle::new(end as usize);
    let vertex = FixedVertexHandle::new(vertex as usize);
    edit_quietly(mesh, Command::Extend(end, vertex))
}

/// Puts the vertex into the middle of the half edge's edge, which has one face on both sides.
///
/// The first part of the half edge has its number, and the second is told.
#[unsafe(no_mangle)]
pub extern "C" fn dcel_split_edge_when_all_vertices_on_line(
    mesh: &mut DcelMesh,
    edge: u32,
    vertex: u32,
    second: &mut u32,
) -> u32
    ensures edit { Edits (kept_in mesh.old) (Line edge vertex) (kept_in mesh.new) result }
    ensures told { result ≡ 0 → Carried (kept_in mesh.old) (Line edge vertex) (Halves (edge ∷ second.new ∷ [])) (kept_in mesh.new) }
    ensures untold { result ≢ 0 → second.new ≡ second.old }
{
    let edge = FixedDirectedEdgeHandle::new(edge as usize);
    let vertex = FixedVertexHandle::new(vertex as usize);
    match edit(mesh, Command::Line(edge, vertex)) {
        Ok(reply) => {
            *second = second_named(reply);
            DONE
        }
        Err(status) => status,
    }
}

/// Makes a face of the half edge, the next one on the outer face and a new edge, and tells the half of
/// the new edge that lies on the outer face.
#[unsafe(no_mangle)]
pub extern "C" fn dcel_create_single_face_between_edge_and_next(
    mesh: &mut DcelMesh,
    edge: u32,
    half: &mut u32,
) -> u32
    ensures edit { Edits (kept_in mesh.old) (Close edge) (kept_in mesh.new) result }
    ensures told { result ≡ 0 → Carried (kept_in mesh.old) (Close edge) (Half half.new) (kept_in mesh.new) }
    ensures untold { result ≢ 0 → half.new ≡ half.old }
{
    let edge = FixedDirectedEdgeHandle::new(edge as usize);
    match edit(mesh, Command::Close(edge)) {
        Ok(reply) => {
            *half = half_named(reply);
            DONE
        }
        Err(status) => status,
    }
}

/// Makes a face of the half edge and the vertex, inside the face that the half edge lies on.
#[unsafe(no_mangle)]
pub extern "C" fn dcel_create_new_face_adjacent_to_edge(
    mesh: &mut DcelMesh,
    edge: u32,
    vertex: u32,
) -> u32
    ensures edit { Edits (kept_in mesh.old) (Outside edge vertex) (kept_in mesh.new) result }
{
    let edge = FixedDirectedEdgeHandle::new(edge as usize);
    let vertex = FixedVertexHandle::new(vertex as usize);
    edit_quietly(mesh, Command::Outside(edge, vertex))
}

/// Puts the vertex into the inner face, and joins it to the three corners.
#[unsafe(no_mangle)]
pub extern "C" fn dcel_insert_into_triangle(mesh: &mut DcelMesh, vertex: u32, face: u32) -> u32
    ensures edit { Edits (kept_in mesh.old) (Insert vertex face) (kept_in mesh.new) result }
{
    let vertex = FixedVertexHandle::new(vertex as usize);
    let face = FixedFaceHandle::new(face as usize);
    edit_quietly(mesh, Command::Insert(vertex, face))
}

/// Splits the half edge's edge at the vertex, and the triangle that the half edge lies on, and tells the
/// second part of the half edge.
#[unsafe(no_mangle)]
pub extern "C" fn dcel_split_half_edge(
    mesh: &mut DcelMesh,
    edge: u32,
    vertex: u32,
    second: &mut u32,
) -> u32
    ensures edit { Edits (kept_in mesh.old) (HalfSplit edge vertex) (kept_in mesh.new) result }
    ensures told { result ≡ 0 → Carried (kept_in mesh.old) (HalfSplit edge vertex) (Halves (edge ∷ second.new ∷ [])) (kept_in mesh.new) }
    ensures untold { result ≢ 0 → second.new ≡ second.old }
{
    let edge = FixedDirectedEdgeHandle::new(edge as usize);
    let vertex = FixedVertexHandle::new(vertex as usize);
    match edit(mesh, Command::Half(edge, vertex)) {
        Ok(reply) => {
            *second = second_named(reply);
            DONE
        }
        Err(status) => status,
    }
}

/// Splits the half edge's edge at the vertex, and the triangles on both sides, and tells the second part
/// of the half edge.
#[unsafe(no_mangle)]
pub extern "C" fn dcel_split_edge(
    mesh: &mut DcelMesh,
    edge: u32,
    vertex: u32,
    second: &mut u32,
) -> u32
    ensures edit { Edits (kept_in mesh.old) (Split edge vertex) (kept_in mesh.new) result }
    ensures told { result ≡ 0 → Carried (kept_in mesh.old) (Split edge vertex) (Halves (edge ∷ second.new ∷ [])) (kept_in mesh.new) }
    ensures untold { result ≢ 0 → second.new ≡ second.old }
{
    let edge = FixedDirectedEdgeHandle::new(edge as usize);
    let vertex = FixedVertexHandle::new(vertex as usize);
    match edit(mesh, Command::Split(edge, vertex)) {
        Ok(reply) => {
            *second = second_named(reply);
            DONE
        }
        Err(status) => status,
    }
}

/// Turns the edge between the two triangles at its sides.
#[unsafe(no_mangle)]
pub extern "C" fn dcel_flip_cw(mesh: &mut DcelMesh, undirected_edge: u32) -> u32
    ensures edit { Edits (kept_in mesh.old) (Flip undirected_edge) (kept_in mesh.new) result }
{
    let edge = FixedUndirectedEdgeHandle::new(undirected_edge as usize);
    edit_quietly(mesh, Command::Flip(edge))
}

/// Exchanges two vertices.
#[unsafe(no_mangle)]
pub extern "C" fn dcel_swap_vertices(mesh: &mut DcelMesh, first: u32, second: u32) -> u32
    ensures edit { Edits (kept_in mesh.old) (Swap first second) (kept_in mesh.new) result }
{
    let first = FixedVertexHandle::new(first as usize);
    let second = FixedVertexHandle::new(second as usize);
    edit_quietly(mesh, Command::Swap(first, second))
}
