//! Triangles inside an outline.
//!
//! Inside are the triangles to which each way from outside crosses sides of the outline, an odd
//! number at least. An edge counts if an odd number of sides leads along it: a side that two curves
//! have in common parts nothing.

ghost use Rattle.std.specs.Prelude.{◌≡◌, ℕ, ◌+◌, ◌/◌, ◌<◌, [], ◌∷◌, IfErr, IfOk, IsTrue, List, drop, false, length, map};
ghost use Rattle.dcel_constrained.specs.Channels.{HasVertices};
ghost use Rattle.dcel_constrained.specs.Constraints.{IsMarkedWay};
ghost use Rattle.dcel_constrained.specs.Soundness.{HasNoConstraint};
ghost use Rattle.dcel_maps.specs.Removals.{Closed};
ghost use Rattle.dcel_maps.specs.Shapes.{face_count};
ghost use Rattle.dcel_maps.specs.edits.Data.{undirected_edge_updated};
ghost use Rattle.dcel_output.specs.Constraining.{IsChain};
ghost use Rattle.dcel_output.specs.Outlining.{BreaksOff, FailsToPart, HaveOddDepth, IsNoChain, IsParted, ListsInside, TurnsEach, is_odd};

use crate::along::{is_marked, marked_along};
use crate::constraining::vertex_at;
use dcel_constrained::{ConstrainedMesh, Segment};
use dcel_regions::{Mark, regions};
use spade_dcel::handles::{FixedDirectedEdgeHandle, FixedUndirectedEdgeHandle, FixedVertexHandle};
use spade_dcel::laws::every_mesh;
use std::alloc::{AllocError, Allocator};

/// Why it isn't known what is inside an outline.
#[derive(Clone, Copy)]
pub enum OutlineError {
    /// The side of this number, from 0 on, is no chain of constraints.
    NoChain(usize),
    /// There was no memory.
    OutOfMemory,
}

/// Returns of each inner face, in the order of their numbers, whether it is inside an outline.
///
/// The sides of the outline are segments between points, and have to be chains of constraints; the
/// vertex of each point is given. A face is inside if its depth is odd: the least number of edges
/// that a way from outside crosses, of those that an odd number of sides leads along.
///
/// Asks that no removal is open (`removal_state()` is `Closed`), as in each triangulation. If a side
/// is no chain of constraints it returns [`NoChain`](OutlineError::NoChain), and if memory runs out
/// [`OutOfMemory`](OutlineError::OutOfMemory).
pub fn triangles_inside<A: Allocator + Copy>(
    alloc: A,
    mesh: &ConstrainedMesh<A>,
    vertices: &[Option<FixedVertexHandle>],
    sides: &[Segment],
) -> Result<Vec<bool, A>, OutlineError>
    requires { mesh.now.shape.removal ≡ Closed }
    ensures inside { IfOk result (λ flags. ListsInside mesh.now vertices.now sides.now flags.items) }
    ensures fails { IfErr result (FailsToPart mesh.now vertices.now sides.now) }
{
    every_mesh(mesh);
    let parted = parted(alloc, mesh, vertices, sides)?;
    match odd_regions(alloc, &parted) {
        Ok(flags) => Ok(flags),
        Err(_) => Err(OutlineError::OutOfMemory),
    }
}

/// Returns the same mesh, in which those edges are marked that an odd number of sides leads along.
fn parted<A: Allocator + Copy>(
    alloc: A,
    mesh: &ConstrainedMesh<A>,
    vertices: &[Option<FixedVertexHandle>],
    sides: &[Segment],
) -> Result<ConstrainedMesh<A>, OutlineError>
    ensures parted { IfOk result (IsParted mesh.now vertices.now sides.now) }
    ensures fails { IfErr result (FailsToPart mesh.now vertices.now sides.now) }
{
    let Ok(mut parted) = freed(alloc, mesh) else {
        return Err(OutlineError::OutOfMemory);
    };
    for number in 0..sides.len() {
        if !turn_side(&mut parted, mesh, vertices, sides[number]) {
            return Err(OutlineError::NoChain(number));
        }
    }
    Ok(parted)
}

/// Returns the same mesh without a marked edge.
fn freed<A: Allocator + Copy>(
    alloc: A,
    mesh: &ConstrainedMesh<A>,
) -> Result<ConstrainedMesh<A>, AllocError>
    ensures shape { IfOk result (λ freed. freed.shape ≡ mesh.now.shape) }
    ensures free { IfOk result HasNoConstraint }
{
    let copy = mesh.try_clone(alloc)?;
    let free = |_mark: Mark| -> Mark
        ensures { result ≡ Mark.Free }
    { Mark::Free };
    match copy.map_undirected_edges(alloc, free) {
        Ok(freed) => Ok(freed),
        Err(_) => Err(AllocError),
    }
}

/// Turns over the marks of the edges along a side, and returns whether it is a chain of edges that
/// are marked in the other mesh.
fn turn_side<A: Allocator>(
    parted: &mut ConstrainedMesh<A>,
    mesh: &ConstrainedMesh<A>,
    vertices: &[Option<FixedVertexHandle>],
    side: Segment,
) -> bool
    requires { parted.old.shape ≡ mesh.now.shape }
    ensures shape { parted.new.shape ≡ mesh.now.shape }
    ensures turned { IsTrue result → (halves : List ℕ) × IsChain mesh.now vertices.now side halves × TurnsEach parted.old parted.new halves }
    ensures broken { result ≡ false → IsNoChain mesh.now vertices.now side }
{
    every_mesh(mesh);
    let Some(from) = vertex_at(vertices, side.from) else {
        return false;
    };
    let Some(to) = vertex_at(vertices, side.to) else {
        return false;
    };
    if from.index() >= mesh.num_vertices() {
        return false;
    }
    if to.index() >= mesh.num_vertices() {
        return false;
    }
    turn_way(parted, mesh, from, to)
}

/// Turns over the marks of the edges on the way from one vertex straight to another, and returns
/// whether marked edges of the other mesh lead there.
fn turn_way<A: Allocator>(
    parted: &mut ConstrainedMesh<A>,
    mesh: &ConstrainedMesh<A>,
    from: FixedVertexHandle,
    to: FixedVertexHandle,
) -> bool
    requires shape { parted.old.shape ≡ mesh.now.shape }
    requires ends { HasVertices mesh.now.shape from to }
    ensures shape { parted.new.shape ≡ mesh.now.shape }
    ensures turned { IsTrue result → (halves : List ℕ) × IsMarkedWay mesh.now to from halves × TurnsEach parted.old parted.new halves }
    ensures broken { result ≡ false → BreaksOff mesh.now from to }
{
    every_mesh(mesh);
    let mut at = from;
    while at != to {
        let Some(half) = marked_along(mesh, at, to) else {
            return false;
        };
        turn(parted, half);
        let next = mesh.directed_edge(half).to().fix();
        at = next;
    }
    true
}

/// Marks the edge of a half edge if it is free, or frees it.
fn turn<A: Allocator>(mesh: &mut ConstrainedMesh<A>, half: FixedDirectedEdgeHandle)
    requires { half / 2 < mesh.old.shape.edges }
    ensures shape { mesh.new.shape ≡ mesh.old.shape }
    ensures turned { TurnsEach mesh.old mesh.new (half ∷ []) }
{
    every_mesh(mesh);
    let edge = half.as_undirected();
    if is_marked(mesh, edge) {
        set_mark(mesh, edge, Mark::Free);
    } else {
        set_mark(mesh, edge, Mark::Constraint);
    }
}

/// Marks an edge, or frees it.
fn set_mark<A: Allocator>(
    mesh: &mut ConstrainedMesh<A>,
    edge: FixedUndirectedEdgeHandle,
    mark: Mark,
)
    requires { edge < mesh.old.shape.edges }
    ensures { mesh.new ≡ undirected_edge_updated mesh.old edge mark }
{
    *mesh.undirected_edge_data_mut(edge) = mark;
}

/// Returns of each inner face whether its depth is odd.
fn odd_regions<A: Allocator + Copy>(
    alloc: A,
    mesh: &ConstrainedMesh<A>,
) -> Result<Vec<bool, A>, AllocError>
    requires { mesh.now.shape.removal ≡ Closed }
    ensures many { IfOk result (λ flags. length flags.items + 1 ≡ face_count mesh.now.shape) }
    ensures each { IfOk result (λ flags. HaveOddDepth mesh.now flags.items) }
{
    every_mesh(mesh);
    let depths = regions(mesh, alloc)?;
    odd_but_first(alloc, &depths)
}

/// Returns of each number but the first whether it is odd.
fn odd_but_first<A: Allocator>(alloc: A, numbers: &[usize]) -> Result<Vec<bool, A>, AllocError>
    ensures { IfOk result (λ flags. flags.items ≡ map is_odd (drop 1 numbers.now)) }
{
    match numbers.split_first() {
        Some((_outer, inner)) => odd_each(alloc, inner),
        None => Ok(Vec::new(alloc)),
    }
}

/// Returns of each number whether it is odd.
fn odd_each<A: Allocator>(alloc: A, numbers: &[usize]) -> Result<Vec<bool, A>, AllocError>
    ensures { IfOk result (λ flags. flags.items ≡ map is_odd numbers.now) }
{
    let mut flags = Vec::with_capacity(alloc, numbers.len())?;
    for number in numbers {
        flags.push(*number % 2 == 1)?;
    }
    Ok(flags)
}
