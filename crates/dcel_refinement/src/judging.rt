//! Whether a triangulation is refined.

ghost use Rattle.std.specs.Prelude.{◌≡◌, ◌↔◌, ◌*◌, ◌<◌, ◌≤◌, ℕ, IsTrue, length, slice_index};
ghost use Rattle.dcel_maps.specs.Removals.{Closed};
ghost use Rattle.dcel_maps.specs.Shapes.{face_count, face_of};
ghost use Rattle.dcel_regions.specs.Regions.{IsReached};
ghost use Rattle.dcel_refinement.specs.Quality.{AreGood, HasExceptions, IsExcepted, IsFlagged, IsGood, IsGoodAt, IsRefined};
ghost use Rattle.dcel_refinement.specs.Refined.{AreDepths, HasOdd};

use crate::parameters::{RefinedFaces, RefinementParameters};
use crate::points::corners_at;
use crate::quality::{is_given_corner, is_good_at, is_wide};
use dcel_constrained::ConstrainedMesh;
use spade_dcel::handles::FixedDirectedEdgeHandle;
use spade_dcel::laws::every_mesh;
use std::alloc::Allocator;

/// Returns whether each corner of the faces to be refined is good. The depths are those of the faces.
pub(crate) fn is_good<A: Allocator>(
    mesh: &ConstrainedMesh<A>,
    depths: &[usize],
    parameters: &RefinementParameters,
) -> bool
    requires closed { mesh.now.shape.removal ≡ Closed }
    requires depths { AreDepths mesh.now depths.now }
    ensures { IsTrue result ↔ IsGood mesh.now parameters.now }
{
    every_mesh(mesh);
    for number in 0..mesh.num_directed_edges() {
        if !passes(
            mesh,
            depths,
            FixedDirectedEdgeHandle::new(number),
            parameters,
        ) {
            return false;
        }
    }
    true
}

/// Returns whether the corner at which a half edge starts is good, if its face is to be refined.
fn passes<A: Allocator>(
    mesh: &ConstrainedMesh<A>,
    depths: &[usize],
    half: FixedDirectedEdgeHandle,
    parameters: &RefinementParameters,
) -> bool
    requires closed { mesh.now.shape.removal ≡ Closed }
    requires within { half < 2 * mesh.now.shape.edges }
    requires depths { AreDepths mesh.now depths.now }
    ensures { IsTrue result ↔ (IsRefined mesh.now parameters.now.faces (face_of mesh.now.shape half) → IsGoodAt mesh.now parameters.now half) }
{
    if !is_refined(mesh, depths, half, parameters.faces) {
        return true;
    }
    is_good_at(mesh, half, parameters)
}

/// Returns how many corners of the faces to be refined are exceptions: between two constraints, and
/// smaller than asked. The depths are those of the faces.
pub(crate) fn count_exceptions<A: Allocator>(
    mesh: &ConstrainedMesh<A>,
    depths: &[usize],
    parameters: &RefinementParameters,
) -> usize
    requires closed { mesh.now.shape.removal ≡ Closed }
    requires depths { AreDepths mesh.now depths.now }
    ensures { HasExceptions mesh.now parameters.now result }
{
    every_mesh(mesh);
    let mut count = 0;
    for place in 0..mesh.num_directed_edges() {
        if is_excepted(
            mesh,
            depths,
            FixedDirectedEdgeHandle::new(place),
            parameters,
        ) {
            count += 1;
        }
    }
    count
}

/// Returns whether the corner at which a half edge starts is an exception.
fn is_excepted<A: Allocator>(
    mesh: &ConstrainedMesh<A>,
    depths: &[usize],
    half: FixedDirectedEdgeHandle,
    parameters: &RefinementParameters,
) -> bool
    requires closed { mesh.now.shape.removal ≡ Closed }
    requires within { half < 2 * mesh.now.shape.edges }
    requires depths { AreDepths mesh.now depths.now }
    ensures { IsTrue result ↔ IsExcepted mesh.now parameters.now half }
{
    if !is_given_corner(mesh, half) {
        return false;
    }
    if !is_refined(mesh, depths, half, parameters.faces) {
        return false;
    }
    let at = corners_at(mesh, half);
    if is_wide(parameters.angle, at.from, at.to, at.opposite) {
        return false;
    }
    true
}

/// Returns whether the face of a half edge is one of those to be refined.
fn is_refined<A: Allocator>(
    mesh: &ConstrainedMesh<A>,
    depths: &[usize],
    half: FixedDirectedEdgeHandle,
    faces: RefinedFaces,
) -> bool
    requires closed { mesh.now.shape.removal ≡ Closed }
    requires within { half < 2 * mesh.now.shape.edges }
    requires depths { AreDepths mesh.now depths.now }
    ensures { IsTrue result ↔ IsRefined mesh.now faces (face_of mesh.now.shape half) }
{
    every_mesh(mesh);
    let face = mesh.directed_edge(half).face().fix().index();
    match faces {
        RefinedFaces::All => face > 0,
        RefinedFaces::Inside => is_odd(depths, face),
    }
}

/// Returns whether each corner of some inner faces is as [`refine`](crate::refine) has it at its end:
/// at least as wide as the angle, or between two constraints, and in a face that is small enough. These
/// are the faces whose flag is set, of flags of the inner faces in the order of their numbers.
///
/// Asks that no removal is open (`removal_state()` is `Closed`), as in each triangulation.
pub fn are_refined<A: Allocator>(
    mesh: &ConstrainedMesh<A>,
    is_wanted: &[bool],
    parameters: &RefinementParameters,
) -> bool
    requires closed { mesh.now.shape.removal ≡ Closed }
    ensures { IsTrue result ↔ AreGood mesh.now is_wanted.now parameters.now }
{
    every_mesh(mesh);
    for index in 0..mesh.num_directed_edges() {
        if !passes_if_wanted(
            mesh,
            is_wanted,
            FixedDirectedEdgeHandle::new(index),
            parameters,
        ) {
            return false;
        }
    }
    true
}

/// Returns whether the corner at which a half edge starts is good, if the flag of its face is set.
fn passes_if_wanted<A: Allocator>(
    mesh: &ConstrainedMesh<A>,
    is_wanted: &[bool],
    half: FixedDirectedEdgeHandle,
    parameters: &RefinementParameters,
) -> bool
    requires closed { mesh.now.shape.removal ≡ Closed }
    requires within { half < 2 * mesh.now.shape.edges }
    ensures { IsTrue result ↔ (IsFlagged is_wanted.now (face_of mesh.now.shape half) → IsGoodAt mesh.now parameters.now half) }
{
    if !is_in_flagged(mesh, is_wanted, half) {
        return true;
    }
    is_good_at(mesh, half, parameters)
}

/// Returns whether the flag of the face of a half edge is set.
fn is_in_flagged<A: Allocator>(
    mesh: &ConstrainedMesh<A>,
    flags: &[bool],
    half: FixedDirectedEdgeHandle,
) -> bool
    requires closed { mesh.now.shape.removal ≡ Closed }
    requires within { half < 2 * mesh.now.shape.edges }
    ensures { IsTrue result ↔ IsFlagged flags.now (face_of mesh.now.shape half) }
{
    every_mesh(mesh);
    let face = mesh.directed_edge(half).face().fix().index();
    is_flagged(flags, face)
}

/// Returns whether the flag of an inner face is set.
fn is_flagged(flags: &[bool], face: usize) -> bool
    ensures { IsTrue result ↔ IsFlagged flags.now face }
{
    if face == 0 {
        return false;
    }
    match flags.get(face - 1) {
        Some(flag) => *flag,
        None => false,
    }
}

/// Returns whether a list has an odd number in this place.
fn is_odd(numbers: &[usize], place: usize) -> bool
    ensures { IsTrue result ↔ HasOdd numbers.now place }
{
    match numbers.get(place) {
        Some(number) => *number % 2 == 1,
        None => false,
    }
}
