//! Constraints freed, and asked for.

ghost use Rattle.std.specs.Prelude.{◌≡◌, ◌≢◌, ◌≤◌, ◌⊎◌, ◌↔◌, IsTrue, None};
ghost use Rattle.dcel_constrained.specs.Constrained.{marked_mesh};
ghost use Rattle.dcel_constrained.specs.Soundness.{AreConstrained};
ghost use Rattle.dcel_regions.specs.Marked.{IsMarked};
ghost use Rattle.dcel_triangulations.specs.Calls.{AreSo, IsSo};
ghost use Rattle.dcel_triangulations.specs.constrained.Calls.{kept_in};
ghost use Rattle.dcel_triangulations.specs.constrained.Freeing.{FailsToFreeEdge, FreesEdge};

use crate::constrained::triangulation::DcelConstrained;
use crate::status::{DONE, NO_MESH, OUT_OF_MEMORY};
use spade_dcel::handles::{FixedUndirectedEdgeHandle, FixedVertexHandle};

/// Makes an edge no constraint any more, and reports whether it was one. Any number may be given.
///
/// If there is no memory, the edge is a constraint as before, and nothing has changed, or it is none
/// any more.
#[unsafe(no_mangle)]
pub extern "C" fn dcel_constrained_remove_constraint(
    triangulation: &mut DcelConstrained,
    edge: u32,
    was: &mut bool,
) -> u32
    ensures done { result ≡ 0 → AreSo (FreesEdge edge was.new) (kept_in triangulation.old) (kept_in triangulation.new) }
    ensures no_memory { result ≡ 20 → AreSo (FailsToFreeEdge edge) (kept_in triangulation.old) (kept_in triangulation.new) }
    ensures none { (result ≡ 21) ↔ (kept_in triangulation.old ≡ None) }
    ensures nothing { result ≡ 21 → kept_in triangulation.new ≡ None }
    ensures status { (result ≡ 0) ⊎ ((20 ≤ result) × (result ≤ 21)) }
    ensures untold { result ≢ 0 → was.new ≡ was.old }
{
    if !triangulation.is_open {
        return NO_MESH;
    }
    let edge = FixedUndirectedEdgeHandle::new(edge as usize);
    match triangulation.held.as_mut().remove_constraint_edge(edge) {
        Ok(was_one) => {
            *was = was_one;
            DONE
        }
        Err(_) => OUT_OF_MEMORY,
    }
}

/// Returns whether there is a triangulation, and the edge is a constraint. Any number may be given.
#[unsafe(no_mangle)]
pub extern "C" fn dcel_constrained_is_constraint(
    triangulation: &mut DcelConstrained,
    edge: u32,
) -> bool
    ensures answer { IsTrue result ↔ IsSo (λ t. IsMarked (marked_mesh t) edge) (kept_in triangulation.old) }
    ensures same { kept_in triangulation.new ≡ kept_in triangulation.old }
{
    if !triangulation.is_open {
        return false;
    }
    let edge = FixedUndirectedEdgeHandle::new(edge as usize);
    triangulation.held.as_mut().is_constraint(edge)
}

/// Returns whether there is a triangulation, and a constraint joins the vertices. Any numbers may be
/// given.
#[unsafe(no_mangle)]
pub extern "C" fn dcel_constrained_exists_constraint(
    triangulation: &mut DcelConstrained,
    from: u32,
    to: u32,
) -> bool
    ensures answer { IsTrue result ↔ IsSo (λ t. AreConstrained (marked_mesh t) from to) (kept_in triangulation.old) }
    ensures same { kept_in triangulation.new ≡ kept_in triangulation.old }
{
    if !triangulation.is_open {
        return false;
    }
    let from = FixedVertexHandle::new(from as usize);
    let to = FixedVertexHandle::new(to as usize);
    triangulation.held.as_mut().exists_constraint(from, to)
}
