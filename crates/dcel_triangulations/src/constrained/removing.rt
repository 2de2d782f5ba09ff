//! Vertices removed with the constraints that end at them.

ghost use Rattle.std.specs.Prelude.{◌≡◌, ◌≢◌, ◌↔◌, None};
ghost use Rattle.dcel_triangulations.specs.Calls.{AreSo};
ghost use Rattle.dcel_triangulations.specs.constrained.Calls.{kept_in};
ghost use Rattle.dcel_triangulations.specs.constrained.Removing.{FailsToRemoveVertex, RemovesVertex};

use crate::constrained::triangulation::DcelConstrained;
use crate::removing::{tell, tell_after};
use crate::status::{DONE, NO_MESH, status_of_removal};
use spade_dcel::handles::FixedVertexHandle;

/// Removes a vertex with its point, and with the constraints that end at it; all others stay. The last
/// vertex gets its number, and `moved` is the number that this had before, or 2^64 - 1 if it was the
/// last itself.
///
/// If the status is UNFINISHED, the vertex is gone, and `moved` is reported, but the triangulation
/// isn't whole. With any other refusal all vertices keep their points; with OUT_OF_MEMORY constraints
/// that end at the vertex may be freed.
#[unsafe(no_mangle)]
pub extern "C" fn dcel_constrained_remove(
    triangulation: &mut DcelConstrained,
    vertex: u32,
    moved: &mut u64,
) -> u32
    ensures done { result ≡ 0 → AreSo (RemovesVertex vertex moved.new) (kept_in triangulation.old) (kept_in triangulation.new) }
    ensures fails { result ≢ 0 → result ≢ 21 →
        AreSo (FailsToRemoveVertex vertex result moved.old moved.new) (kept_in triangulation.old) (kept_in triangulation.new) }
    ensures none { (result ≡ 21) ↔ (kept_in triangulation.old ≡ None) }
    ensures nothing { result ≡ 21 → (kept_in triangulation.new ≡ None) × (moved.new ≡ moved.old) }
{
    if !triangulation.is_open {
        return NO_MESH;
    }
    let vertex = FixedVertexHandle::new(vertex as usize);
    match triangulation.held.as_mut().remove(vertex) {
        Ok(removed) => {
            *moved = tell(&removed);
            DONE
        }
        Err(error) => {
            *moved = tell_after(&error, *moved);
            status_of_removal(&error)
        }
    }
}
