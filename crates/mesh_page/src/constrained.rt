//! Constraints of a triangulation that is kept: added, freed, asked for and listed.

ghost use Rattle.std.specs.Prelude.{◌≡◌, ◌≢◌, ◌⊎◌, ◌↔◌, ◌≤◌, ◌<◌, IsTrue, None, length};
ghost use Rattle.dcel_constrained.specs.Constrained.{marked_mesh};
ghost use Rattle.dcel_constrained.specs.Soundness.{AreConstrained, CanAdd};
ghost use Rattle.mesh_page.specs.Constraining.{AddsSegment, FailsToAddSegment, FailsToFreeIf, FreesIf};
ghost use Rattle.mesh_page.specs.Keeping.{AreSo, IsSo, IsWholeMarked, constrained_in, thing_in};
ghost use Rattle.mesh_page.specs.Listing.{IsPut, constraints_of};

pub(crate) mod changing;
pub(crate) mod listing;
mod segments;

use crate::desk::Thing;
use crate::holder::MeshPageKept;
use crate::status::NOT_KEPT;
use dcel_delaunay::lists::Ends;
use spade_dcel::handles::FixedVertexHandle;

/// Reports whether the segment between two vertices crosses no constraint. A constraint that ends on
/// it, or is on it, doesn't cross it. The answer is false if one of them is no vertex.
///
/// Returns 0; 5 if the triangulation isn't whole, and 4 if no constrained one is kept.
#[unsafe(no_mangle)]
pub extern "C" fn mesh_page_can_add_constraint(
    kept: &mut MeshPageKept,
    from: u32,
    to: u32,
    answer: &mut bool,
) -> u32
    ensures done { result ≡ 0 → IsSo (λ t. IsTrue answer.new ↔ CanAdd (marked_mesh t) from to) (constrained_in kept.old) }
    ensures none { (result ≡ 4) ↔ (constrained_in kept.old ≡ None) }
    ensures unfinished { result ≡ 5 → IsSo (λ t. ¬ IsWholeMarked t) (constrained_in kept.old) }
    ensures status { (result ≡ 0) ⊎ (result ≡ 4) ⊎ (result ≡ 5) }
    ensures untold { result ≢ 0 → answer.new ≡ answer.old }
    ensures same { thing_in kept.new ≡ thing_in kept.old }
{
    if !kept.is_open {
        return NOT_KEPT;
    }
    match &kept.held.as_mut().thing {
        Thing::Constrained(points) => segments::can_add(points, from, to, answer),
        Thing::Delaunay(_) => NOT_KEPT,
        Thing::Mesh(_) => NOT_KEPT,
        Thing::Nothing => NOT_KEPT,
    }
}

/// Makes the segment between two vertices one of constraints, from each vertex on it to the next.
///
/// Returns 0; 6 if one of them is no vertex, and 8 if a constraint would be crossed: no edge is a
/// constraint then that wasn't; 2 if there is no memory: parts of the segment may be constraints, and
/// the same call adds the rest; 4 if no constrained triangulation is kept.
#[unsafe(no_mangle)]
pub extern "C" fn mesh_page_add_constraint(kept: &mut MeshPageKept, from: u32, to: u32) -> u32
    ensures done { result ≡ 0 → AreSo (AddsSegment from to) (constrained_in kept.old) (constrained_in kept.new) }
    ensures fails { result ≢ 0 → result ≢ 4 → AreSo (FailsToAddSegment from to result) (constrained_in kept.old) (constrained_in kept.new) }
    ensures none { (result ≡ 4) ↔ (constrained_in kept.old ≡ None) }
    ensures same { result ≡ 4 → thing_in kept.new ≡ thing_in kept.old }
{
    if !kept.is_open {
        return NOT_KEPT;
    }
    match &mut kept.held.as_mut().thing {
        Thing::Constrained(points) => segments::add(points, from, to),
        Thing::Delaunay(_) => NOT_KEPT,
        Thing::Mesh(_) => NOT_KEPT,
        Thing::Nothing => NOT_KEPT,
    }
}

/// Makes a constraint that joins two vertices none any more, and reports whether there was one. Any
/// numbers may be given.
///
/// Returns 0; 2 if there is no memory: the constraint is there, and nothing has changed, or it is
/// none any more; 4 if no constrained triangulation is kept.
#[unsafe(no_mangle)]
pub extern "C" fn mesh_page_remove_constraint(
    kept: &mut MeshPageKept,
    from: u32,
    to: u32,
    was: &mut bool,
) -> u32
    ensures done { result ≡ 0 → AreSo (FreesIf from to was.new) (constrained_in kept.old) (constrained_in kept.new) }
    ensures no_memory { result ≡ 2 → AreSo (FailsToFreeIf from to) (constrained_in kept.old) (constrained_in kept.new) }
    ensures none { (result ≡ 4) ↔ (constrained_in kept.old ≡ None) }
    ensures status { (result ≡ 0) ⊎ (result ≡ 2) ⊎ (result ≡ 4) }
    ensures untold { result ≢ 0 → was.new ≡ was.old }
    ensures same { result ≡ 4 → thing_in kept.new ≡ thing_in kept.old }
{
    if !kept.is_open {
        return NOT_KEPT;
    }
    match &mut kept.held.as_mut().thing {
        Thing::Constrained(points) => segments::free(points, from, to, was),
        Thing::Delaunay(_) => NOT_KEPT,
        Thing::Mesh(_) => NOT_KEPT,
        Thing::Nothing => NOT_KEPT,
    }
}

/// Returns whether a constrained triangulation is kept, and a constraint joins the vertices. Any
/// numbers may be given.
#[unsafe(no_mangle)]
pub extern "C" fn mesh_page_exists_constraint(kept: &mut MeshPageKept, from: u32, to: u32) -> bool
    ensures answer { IsTrue result ↔ IsSo (λ t. AreConstrained (marked_mesh t) from to) (constrained_in kept.old) }
    ensures same { thing_in kept.new ≡ thing_in kept.old }
{
    if !kept.is_open {
        return false;
    }
    match &kept.held.as_mut().thing {
        Thing::Constrained(points) => segments::exists(points, from, to),
        Thing::Delaunay(_) => false,
        Thing::Mesh(_) => false,
        Thing::Nothing => false,
    }
}

/// Puts the ends of each edge that is a constraint into the buffer, in the order of their numbers.
///
/// As many as fit are put there, from the front, and what lies behind them stays; `needed` is how many
/// there are. Returns 0 if all are there, and 1 if the buffer was short; 2 if there is no memory, and 4
/// if no constrained triangulation is kept: then the buffer stays, and `needed` is 0.
#[unsafe(no_mangle)]
pub extern "C" fn mesh_page_list_constraints(
    kept: &mut MeshPageKept,
    constraints: &mut [Ends],
    needed: &mut u64,
) -> u32
    ensures constraints { result ≤ 1 → IsSo (λ t. IsPut (constraints_of t) constraints.old constraints.new needed.new) (constrained_in kept.old) }
    ensures done { result ≡ 0 → needed.new ≤ length constraints.old }
    ensures short { result ≡ 1 → length constraints.old < needed.new }
    ensures refused { 2 ≤ result → (constraints.new ≡ constraints.old) × (needed.new ≡ 0) }
    ensures none { (result ≡ 4) ↔ (constrained_in kept.old ≡ None) }
    ensures status { (result ≤ 2) ⊎ (result ≡ 4) }
    ensures same { thing_in kept.new ≡ thing_in kept.old }
{
    *needed = 0;
    if !kept.is_open {
        return NOT_KEPT;
    }
    let desk = kept.held.as_mut();
    let heap = desk.heap;
    match &desk.thing {
        Thing::Constrained(points) => {
            listing::list_constraints(heap, points, constraints, needed)
        }
        Thing::Delaunay(_) => NOT_KEPT,
        Thing::Mesh(_) => NOT_KEPT,
        Thing::Nothing => NOT_KEPT,
    }
}
