//! What changes a constrained triangulation, with what a host passes and gets.

ghost use Rattle.std.specs.Prelude.{◌≡◌, ◌≢◌, ◌⊎◌, ◌≤◌, ◌<◌, length};
ghost use Rattle.dcel_constrained.specs.Constrained.{marked_mesh};
ghost use Rattle.dcel_constrained.specs.Removing.{LosesConstraintsOf};
ghost use Rattle.dcel_constrained.specs.Splitting.{SplitsMarked, StaysMarked};
ghost use Rattle.mesh_page.specs.Changing.{FailsAmong, FailsToInsertPoint, FailsToRemoveVertex, FinishesPoints, InsertsEach, InsertsPoint, LeavesMarks, LeavesPoints, RemovesVertex};
ghost use Rattle.mesh_page.specs.Given.{HasFar, IsFar};

use crate::delaunay::changing::{put_numbers, tell, tell_after};
use crate::desk::Constrained;
use crate::points::{Failed, MeshPagePoint, point_of, read_points};
use crate::status::{DONE, NO_MEMORY, OUT_OF_RANGE, SHORT, status_of_insertion, status_of_removal};
use lent_heap::Heap;
use spade_dcel::handles::FixedVertexHandle;

/// Inserts a point, and reports its vertex.
pub(crate) fn insert(points: &mut Constrained, given: MeshPagePoint, vertex: &mut u32) -> u32
    ensures done { result ≡ 0 → InsertsPoint given vertex.new points.old.planar points.new.planar × SplitsMarked (marked_mesh points.old) (marked_mesh points.new) }
    ensures fails { result ≢ 0 → result ≢ 3 →
        FailsToInsertPoint given result points.old.planar points.new.planar × SplitsMarked (marked_mesh points.old) (marked_mesh points.new) }
    ensures out_of_range { result ≡ 3 → IsFar given }
    ensures same { result ≡ 3 → points.new ≡ points.old }
    ensures untold { result ≢ 0 → vertex.new ≡ vertex.old }
    ensures kept { result ≢ 4 }
{
    let Some(point) = point_of(given) else {
        return OUT_OF_RANGE;
    };
    match points.insert(point) {
        Ok(inserted) => {
            *vertex = inserted.index() as u32;
            DONE
        }
        Err(error) => status_of_insertion(error),
    }
}

/// Inserts points, and puts their vertices into the buffer.
pub(crate) fn insert_all(
    heap: &'static Heap,
    points: &mut Constrained,
    given: &[MeshPagePoint],
    vertices: &mut [u32],
) -> u32
    ensures done { result ≡ 0 → InsertsEach given.now vertices.old vertices.new points.old.planar points.new.planar
        × SplitsMarked (marked_mesh points.old) (marked_mesh points.new) }
    ensures fits { result ≡ 0 → length given.now ≤ length vertices.old }
    ensures fails { result ≢ 0 → result ≢ 1 → result ≢ 3 → ((result ≡ 2) × (points.new ≡ points.old))
        ⊎ (FailsAmong given.now result points.old.planar points.new.planar × SplitsMarked (marked_mesh points.old) (marked_mesh points.new)) }
    ensures short { result ≡ 1 → length vertices.old < length given.now }
    ensures out_of_range { result ≡ 3 → HasFar given.now }
    ensures same { (result ≡ 1) ⊎ (result ≡ 3) → points.new ≡ points.old }
    ensures untold { result ≢ 0 → vertices.new ≡ vertices.old }
    ensures kept { result ≢ 4 }
{
    if vertices.len() < given.len() {
        return SHORT;
    }
    let read = match read_points(heap, given) {
        Ok(read) => read,
        Err(Failed::NoMemory) => return NO_MEMORY,
        Err(Failed::OutOfRange) => return OUT_OF_RANGE,
    };
    match points.insert_all(heap, &read) {
        Ok(list) => {
            put_numbers(&list, vertices);
            DONE
        }
        Err(error) => status_of_insertion(error),
    }
}

/// Removes a vertex with its constraints, and reports which one moved.
pub(crate) fn remove(points: &mut Constrained, vertex: u32, moved: &mut u64) -> u32
    ensures done { result ≡ 0 → RemovesVertex vertex moved.new points.old.planar points.new.planar
        × LosesConstraintsOf (marked_mesh points.old) (marked_mesh points.new) vertex }
    ensures fails { result ≢ 0 → FailsToRemoveVertex vertex result moved.old moved.new points.old.planar points.new.planar
        × LeavesMarks vertex result points.old points.new }
    ensures kept { result ≢ 4 }
{
    let vertex = FixedVertexHandle::new(vertex as usize);
    match points.remove(vertex) {
        Ok(removed) => {
            *moved = tell(&removed);
            DONE
        }
        Err(error) => {
            *moved = tell_after(&error, *moved);
            status_of_removal(&error)
        }
    }
}

/// Does what was left undone for want of memory.
pub(crate) fn finish(points: &mut Constrained) -> u32
    ensures done { result ≡ 0 → FinishesPoints points.old.planar points.new.planar × StaysMarked (marked_mesh points.old) (marked_mesh points.new) }
    ensures no_memory { result ≡ 2 → LeavesPoints points.old.planar points.new.planar × StaysMarked (marked_mesh points.old) (marked_mesh points.new) }
    ensures status { (result ≡ 0) ⊎ (result ≡ 2) }
{
    match points.finish() {
        Ok(()) => DONE,
        Err(_) => NO_MEMORY,
    }
}
