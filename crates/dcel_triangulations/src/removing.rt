//! Vertices removed.

ghost use Rattle.std.specs.Prelude.{◌≡◌, ◌≢◌, None};
ghost use Rattle.dcel_triangulations.specs.Calls.{AreSo, kept_in};
ghost use Rattle.dcel_triangulations.specs.Removing.{FailsToRemoveVertex, RemovesVertex, moved_after, moved_told};

use crate::status::{DONE, NO_MESH, NONE, status_of_removal};
use crate::triangulation::DcelTriangulation;
use dcel_delaunay::{RemovalError, Removed};
use spade_dcel::handles::FixedVertexHandle;

/// Removes a vertex with its point. The last vertex gets its number, and `moved` is the number that
/// this had before, or 2^64 - 1 if it was the last itself.
///
/// If the status is UNFINISHED, the vertex is gone, and `moved` is reported, but the triangulation
/// isn't whole. With any other refusal all vertices keep their points.
#[unsafe(no_mangle)]
pub extern "C" fn dcel_triangulation_remove(
    triangulation: &mut DcelTriangulation,
    vertex: u32,
    moved: &mut u64,
) -> u32
    ensures done { result ≡ 0 → AreSo (RemovesVertex vertex moved.new) (kept_in triangulation.old) (kept_in triangulation.new) }
    ensures fails { result ≢ 0 → result ≢ 21 →
        AreSo (FailsToRemoveVertex vertex result moved.old moved.new) (kept_in triangulation.old) (kept_in triangulation.new) }
    ensures none { result ≡ 21 → (kept_in triangulation.old ≡ None) × (kept_in triangulation.new ≡ None) × (moved.new ≡ moved.old) }
{
    if !triangulation.is_open {
        return NO_MESH;
    }
    let vertex = FixedVertexHandle::new(vertex as usize);
    match triangulation.held.as_mut().remove(vertex) {
        Ok(removed) => {
            *moved = tell(&removed);
            DONE
        }
        Err(error) => {
            *moved = tell_after(&error, *moved);
            status_of_removal(&error)
        }
    }
}

/// Returns the old number of the vertex that has the removed one's number now, or
/// [`NONE`](crate::status::NONE).
pub(crate) fn tell(removed: &Removed) -> u64
    ensures { result ≡ moved_told removed.now }
{
    match removed.moved {
        Some(vertex) => vertex.index() as u64,
        None => NONE,
    }
}

/// Returns what is reported if the vertex is gone all the same, and what was there before if it isn't.
pub(crate) fn tell_after(error: &RemovalError, before: u64) -> u64
    ensures { result ≡ moved_after error.now before }
{
    match error {
        RemovalError::Unfinished(removed) => tell(removed),
        _ => before,
    }
}
