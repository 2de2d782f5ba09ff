//! Segments between vertices as constraints, with what a host passes and gets.

ghost use Rattle.std.specs.Prelude.{◌≡◌, ◌≢◌, ◌⊎◌, ◌↔◌, ◌/◌, IfNone, IfSome, IsTrue};
ghost use Rattle.dcel_constrained.specs.Constrained.{marked_mesh};
ghost use Rattle.dcel_constrained.specs.Soundness.{AreConstrained, CanAdd};
ghost use Rattle.dcel_maps.specs.Shapes.{IsLive, end_of};
ghost use Rattle.dcel_maps.specs.Walking.{Leads};
ghost use Rattle.dcel_regions.specs.Marked.{IsMarked};
ghost use Rattle.mesh_page.specs.Constraining.{AddsSegment, FailsToAddSegment, FailsToFreeIf, FreesIf, IsConstraintBetween};
ghost use Rattle.mesh_page.specs.Keeping.{IsWholeMarked};

use crate::desk::Constrained;
use crate::status::{DONE, NO_MEMORY, UNFINISHED, status_of_constraint};
use dcel_constrained::{ConstrainedMesh, Mark};
use spade_dcel::handles::{FixedDirectedEdgeHandle, FixedUndirectedEdgeHandle, FixedVertexHandle};
use spade_dcel::laws::every_mesh;
use std::alloc::Allocator;

/// Reports whether the segment between two vertices crosses no constraint.
pub(crate) fn can_add(points: &Constrained, from: u32, to: u32, answer: &mut bool) -> u32
    ensures done { result ≡ 0 → IsTrue answer.new ↔ CanAdd (marked_mesh points.now) from to }
    ensures unfinished { result ≡ 5 → ¬ IsWholeMarked points.now }
    ensures status { (result ≡ 0) ⊎ (result ≡ 5) }
    ensures untold { result ≢ 0 → answer.new ≡ answer.old }
{
    if !points.is_whole() {
        return UNFINISHED;
    }
    *answer = points.can_add_constraint(vertex(from), vertex(to));
    DONE
}

/// Makes the segment between two vertices one of constraints.
pub(crate) fn add(points: &mut Constrained, from: u32, to: u32) -> u32
    ensures done { result ≡ 0 → AddsSegment from to points.old points.new }
    ensures fails { result ≢ 0 → FailsToAddSegment from to result points.old points.new }
    ensures kept { result ≢ 4 }
{
    match points.try_add_constraint(vertex(from), vertex(to)) {
        Ok(_) => DONE,
        Err(error) => status_of_constraint(&error),
    }
}

/// Makes a constraint that joins two vertices none any more, if there is one.
pub(crate) fn free(points: &mut Constrained, from: u32, to: u32, was: &mut bool) -> u32
    ensures done { result ≡ 0 → FreesIf from to was.new points.old points.new }
    ensures no_memory { result ≡ 2 → FailsToFreeIf from to points.old points.new }
    ensures status { (result ≡ 0) ⊎ (result ≡ 2) }
    ensures untold { result ≢ 0 → was.new ≡ was.old }
{
    match edge_between(points, from, to) {
        Some(edge) => match points.remove_constraint_edge(edge) {
            Ok(_) => {
                *was = true;
                DONE
            }
            Err(_) => NO_MEMORY,
        },
        None => match points.finish() {
            Ok(()) => {
                *was = false;
                DONE
            }
            Err(_) => NO_MEMORY,
        },
    }
}

/// Returns whether a constraint joins two vertices.
pub(crate) fn exists(points: &Constrained, from: u32, to: u32) -> bool
    ensures { IsTrue result ↔ AreConstrained (marked_mesh points.now) from to }
{
    points.exists_constraint(vertex(from), vertex(to))
}

/// Returns the edge of a constraint that joins two vertices, if there is one.
fn edge_between(points: &Constrained, from: u32, to: u32) -> Option<FixedUndirectedEdgeHandle>
    ensures some { IfSome result (IsConstraintBetween points.now from to) }
    ensures none { IfNone result (¬ AreConstrained (marked_mesh points.now) from to) }
{
    match half_edge_between(points.dcel(), vertex(from), vertex(to)) {
        Some(half) => Some(half.as_undirected()),
        None => None,
    }
}

/// Returns a half edge that leads from a vertex to another one, and whose edge is marked, if there is
/// one.
fn half_edge_between<A: Allocator>(
    mesh: &ConstrainedMesh<A>,
    from: FixedVertexHandle,
    to: FixedVertexHandle,
) -> Option<FixedDirectedEdgeHandle>
    ensures some { IfSome result (λ h. Leads mesh.now.shape from to h × IsMarked mesh.now (h / 2)) }
    ensures none { IfNone result (¬ AreConstrained mesh.now from to) }
{
    every_mesh(mesh);
    if from.index() >= mesh.num_vertices() {
        return None;
    }
    let mut edges = mesh.vertex(from).out_edges();
    while let Some(edge) = edges.next() {
        let half = edge.fix();
        if is_marked_to(mesh, half, to) {
            return Some(half);
        }
    }
    None
}

/// Returns whether a half edge leads to a vertex, and its edge is marked.
fn is_marked_to<A: Allocator>(
    mesh: &ConstrainedMesh<A>,
    half: FixedDirectedEdgeHandle,
    to: FixedVertexHandle,
) -> bool
    requires { IsLive mesh.now.shape half }
    ensures { IsTrue result ↔ ((end_of mesh.now.shape half ≡ to) × IsMarked mesh.now (half / 2)) }
{
    every_mesh(mesh);
    let end = mesh.directed_edge(half).to().fix();
    if end != to {
        return false;
    }
    is_marked(mesh, half.as_undirected())
}

/// Returns whether an edge is marked.
fn is_marked<A: Allocator>(mesh: &ConstrainedMesh<A>, edge: FixedUndirectedEdgeHandle) -> bool
    ensures { IsTrue result ↔ IsMarked mesh.now edge }
{
    every_mesh(mesh);
    if edge.index() >= mesh.num_undirected_edges() {
        return false;
    }
    *mesh.undirected_edge_data(edge) == Mark::Constraint
}

/// Returns the handle of this number.
fn vertex(number: u32) -> FixedVertexHandle
    ensures { result ≡ number }
{
    FixedVertexHandle::new(number as usize)
}
