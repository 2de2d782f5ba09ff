//! Segments made constraints, one or many at once.

ghost use Rattle.std.specs.Prelude.{◌≡◌, ◌≢◌, ◌≤◌, ◌<◌, ◌+◌, ◌⊎◌, ◌↔◌, IsTrue, None, length};
ghost use Rattle.dcel_constrained.specs.Constrained.{marked_mesh};
ghost use Rattle.dcel_constrained.specs.Constraints.{HasConstraint, KeepsMarked, MarksOnly};
ghost use Rattle.dcel_constrained.specs.Soundness.{CanAdd};
ghost use Rattle.dcel_maps.specs.Removals.{Closed};
ghost use Rattle.dcel_maps.specs.Shapes.{IsMesh};
ghost use Rattle.dcel_triangulations.specs.Calls.{AreSo, IsSo};
ghost use Rattle.dcel_triangulations.specs.constrained.Adding.{AddsSegment, AddsSegments, FailsToAddSegment, IsRefusedSegment, RefusesSegment, constraint_status};
ghost use Rattle.dcel_triangulations.specs.constrained.Calls.{IsWhole, kept_in};

use crate::constrained::held::Constrained;
use crate::constrained::triangulation::DcelConstrained;
use crate::status::{CROSSES, DONE, NO_MESH, NO_SUCH_VERTEX, OUT_OF_MEMORY, UNFINISHED};
use dcel_constrained::ConstraintError;
use dcel_delaunay::lists::Ends;
use spade_dcel::handles::FixedVertexHandle;
use spade_dcel::laws::every_mesh;
use std::alloc::Global;

/// Reports whether the segment between two vertices crosses no constraint. A constraint that ends on
/// it, or is on it, doesn't cross it. The answer is false if one of them is no vertex.
///
/// If the triangulation isn't whole, the status is UNFINISHED.
#[unsafe(no_mangle)]
pub extern "C" fn dcel_constrained_can_add_constraint(
    triangulation: &mut DcelConstrained,
    from: u32,
    to: u32,
    answer: &mut bool,
) -> u32
    ensures done { result ≡ 0 → IsSo (λ t. IsTrue answer.new ↔ CanAdd (marked_mesh t) from to) (kept_in triangulation.old) }
    ensures none { (result ≡ 21) ↔ (kept_in triangulation.old ≡ None) }
    ensures unfinished { result ≡ 25 → IsSo (λ t. ¬ IsWhole t) (kept_in triangulation.old) }
    ensures status { (result ≡ 0) ⊎ (result ≡ 21) ⊎ (result ≡ 25) }
    ensures untold { result ≢ 0 → answer.new ≡ answer.old }
    ensures same { kept_in triangulation.new ≡ kept_in triangulation.old }
{
    if !triangulation.is_open {
        return NO_MESH;
    }
    let kept = triangulation.held.as_mut();
    if !kept.is_whole() {
        return UNFINISHED;
    }
    *answer = kept.can_add_constraint(vertex(from), vertex(to));
    DONE
}

/// Makes the segment between two vertices one of constraints, from each vertex on it to the next, and
/// reports whether an edge is a constraint now that wasn't.
///
/// If the status is NO_SUCH_VERTEX or CROSSES, no edge is a constraint that wasn't. If it is
/// OUT_OF_MEMORY, parts of the segment may be, and the same call adds the rest.
#[unsafe(no_mangle)]
pub extern "C" fn dcel_constrained_add_constraint(
    triangulation: &mut DcelConstrained,
    from: u32,
    to: u32,
    added: &mut bool,
) -> u32
    ensures done { result ≡ 0 → AreSo (AddsSegment from to added.new) (kept_in triangulation.old) (kept_in triangulation.new) }
    ensures fails { result ≢ 0 → result ≢ 21 → AreSo (FailsToAddSegment from to result) (kept_in triangulation.old) (kept_in triangulation.new) }
    ensures none { (result ≡ 21) ↔ (kept_in triangulation.old ≡ None) }
    ensures nothing { result ≡ 21 → kept_in triangulation.new ≡ None }
    ensures untold { result ≢ 0 → added.new ≡ added.old }
{
    if !triangulation.is_open {
        return NO_MESH;
    }
    let kept = triangulation.held.as_mut();
    match kept.try_add_constraint(vertex(from), vertex(to)) {
        Ok(is_new) => {
            *added = is_new;
            DONE
        }
        Err(error) => status_of_constraint(&error),
    }
}

/// Makes segments constraints, as [`dcel_constrained_add_constraint`] does, in their order, up to the
/// first that is refused. `done` is how many are constraints then, from the front: the refused one has
/// this row.
///
/// If the status is OUT_OF_MEMORY, parts of that segment may be constraints, too.
#[unsafe(no_mangle)]
pub extern "C" fn dcel_constrained_add_constraints(
    triangulation: &mut DcelConstrained,
    segments: &[Ends],
    done: &mut u64,
) -> u32
    ensures all { result ≡ 0 → done.new ≡ length segments.now }
    ensures done { result ≡ 0 → AreSo (AddsSegments segments.now (length segments.now) (length segments.now)) (kept_in triangulation.old) (kept_in triangulation.new) }
    ensures whole { result ≡ 0 → IsSo IsWhole (kept_in triangulation.new) }
    ensures refused { (result ≡ 1) ⊎ (result ≡ 26) → AreSo (RefusesSegment segments.now done.new result) (kept_in triangulation.old) (kept_in triangulation.new) }
    ensures no_memory { result ≡ 20 → AreSo (AddsSegments segments.now done.new (done.new + 1)) (kept_in triangulation.old) (kept_in triangulation.new) }
    ensures none { (result ≡ 21) ↔ (kept_in triangulation.old ≡ None) }
    ensures nothing { result ≡ 21 → (kept_in triangulation.new ≡ None) × (done.new ≡ 0) }
    ensures status { (result ≤ 1) ⊎ ((20 ≤ result) × (result ≤ 21)) ⊎ (result ≡ 26) }
{
    *done = 0;
    if !triangulation.is_open {
        return NO_MESH;
    }
    add_each(triangulation.held.as_mut(), segments, done)
}

/// Makes segments constraints, up to the first that is refused.
fn add_each(kept: &mut Constrained, segments: &[Ends], done: &mut u64) -> u32
    ensures all { result ≡ 0 → done.new ≡ length segments.now }
    ensures done { result ≡ 0 → AddsSegments segments.now (length segments.now) (length segments.now) kept.old kept.new }
    ensures whole { result ≡ 0 → IsWhole kept.new }
    ensures refused { (result ≡ 1) ⊎ (result ≡ 26) → RefusesSegment segments.now done.new result kept.old kept.new }
    ensures no_memory { result ≡ 20 → AddsSegments segments.now done.new (done.new + 1) kept.old kept.new }
    ensures status { (result ≤ 1) ⊎ (result ≡ 20) ⊎ (result ≡ 26) }
{
    *done = 0;
    every_mesh(kept.dcel());
    let Ok(()) = kept.finish() else {
        return OUT_OF_MEMORY;
    };
    every_mesh(kept.dcel());
    let mut at = 0;
    while at < segments.len() {
        let status = add_one(kept, segments[at]);
        if status != DONE {
            *done = at as u64;
            return status;
        }
        at += 1;
    }
    *done = segments.len() as u64;
    DONE
}

/// Makes a segment one of constraints.
fn add_one(kept: &mut Constrained, segment: Ends) -> u32
    ensures added { result ≡ 0 → HasConstraint (marked_mesh kept.new) segment.from segment.to }
    ensures keeps { KeepsMarked (marked_mesh kept.old) (marked_mesh kept.new) }
    ensures only { MarksOnly (marked_mesh kept.old) (marked_mesh kept.new) segment.from segment.to }
    ensures points { (marked_mesh kept.new).vertex_data ≡ (marked_mesh kept.old).vertex_data }
    ensures whole { result ≢ 20 → IsWhole kept.new }
    ensures refused { (result ≡ 1) ⊎ (result ≡ 26) → IsRefusedSegment segment result kept.new × (IsWhole kept.old → marked_mesh kept.new ≡ marked_mesh kept.old) }
    ensures status { (result ≤ 1) ⊎ (result ≡ 20) ⊎ (result ≡ 26) }
    ensures mesh { IsMesh (marked_mesh kept.new) }
    ensures closed { (marked_mesh kept.new).shape.removal ≡ Closed }
{
    let added = kept.try_add_constraint(vertex(segment.from), vertex(segment.to));
    every_mesh(kept.dcel());
    match added {
        Ok(_) => DONE,
        Err(error) => status_of_constraint(&error),
    }
}

/// Returns the handle of this number.
fn vertex(number: u32) -> FixedVertexHandle
    ensures { result ≡ number }
{
    FixedVertexHandle::new(number as usize)
}

/// Returns the status of a segment that was not made one of constraints.
fn status_of_constraint(error: &ConstraintError<Global>) -> u32
    ensures { result ≡ constraint_status error.now }
{
    match error {
        ConstraintError::NoVertex => NO_SUCH_VERTEX,
        ConstraintError::Blocked(_) => CROSSES,
        ConstraintError::OutOfMemory => OUT_OF_MEMORY,
    }
}
