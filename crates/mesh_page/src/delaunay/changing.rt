//! What changes a triangulation, with what a host passes and gets.

ghost use Rattle.std.specs.Prelude.{◌≡◌, ◌≢◌, ◌⊎◌, ◌≤◌, ◌<◌, length};
ghost use Rattle.dcel_exports.specs.Answers.{filled};
ghost use Rattle.mesh_page.specs.Changing.{FailsAmong, FailsToInsertPoint, FailsToRemoveVertex, FinishesPoints, InsertsEach, InsertsPoint, LeavesPoints, RemovesVertex, moved_after, moved_told};
ghost use Rattle.mesh_page.specs.Given.{HasFar, IsFar};

use crate::desk::Points;
use crate::points::{Failed, MeshPagePoint, point_of, read_points};
use crate::status::{DONE, NO_MEMORY, OUT_OF_RANGE, SHORT, status_of_insertion, status_of_removal};
use dcel_delaunay::{RemovalError, Removed};
use lent_heap::Heap;
use spade_dcel::handles::FixedVertexHandle;

/// Inserts a point, and reports its vertex.
pub(crate) fn insert(points: &mut Points, given: MeshPagePoint, vertex: &mut u32) -> u32
    ensures done { result ≡ 0 → InsertsPoint given vertex.new points.old.planar points.new.planar }
    ensures fails { result ≢ 0 → result ≢ 3 → FailsToInsertPoint given result points.old.planar points.new.planar }
    ensures out_of_range { result ≡ 3 → IsFar given }
    ensures same { result ≡ 3 → points.new ≡ points.old }
    ensures untold { result ≢ 0 → vertex.new ≡ vertex.old }
    ensures kept { result ≢ 4 }
{
    let Some(point) = point_of(given) else {
        return OUT_OF_RANGE;
    };
    match points.insert(point) {
        Ok(inserted) => {
            *vertex = inserted.index() as u32;
            DONE
        }
        Err(error) => status_of_insertion(error),
    }
}

/// Inserts points, and puts their vertices into the buffer.
pub(crate) fn insert_all(
    heap: &'static Heap,
    points: &mut Points,
    given: &[MeshPagePoint],
    vertices: &mut [u32],
) -> u32
    ensures done { result ≡ 0 → InsertsEach given.now vertices.old vertices.new points.old.planar points.new.planar }
    ensures fits { result ≡ 0 → length given.now ≤ length vertices.old }
    ensures fails { result ≢ 0 → result ≢ 1 → result ≢ 3 →
        ((result ≡ 2) × (points.new ≡ points.old)) ⊎ FailsAmong given.now result points.old.planar points.new.planar }
    ensures short { result ≡ 1 → length vertices.old < length given.now }
    ensures out_of_range { result ≡ 3 → HasFar given.now }
    ensures same { (result ≡ 1) ⊎ (result ≡ 3) → points.new ≡ points.old }
    ensures untold { result ≢ 0 → vertices.new ≡ vertices.old }
    ensures kept { result ≢ 4 }
{
    if vertices.len() < given.len() {
        return SHORT;
    }
    let read = match read_points(heap, given) {
        Ok(read) => read,
        Err(Failed::NoMemory) => return NO_MEMORY,
        Err(Failed::OutOfRange) => return OUT_OF_RANGE,
    };
    match points.insert_all(heap, &read) {
        Ok(list) => {
            put_numbers(&list, vertices);
            DONE
        }
        Err(error) => status_of_insertion(error),
    }
}

/// Puts the numbers of vertices into the buffer, as many as fit.
pub(crate) fn put_numbers(list: &[FixedVertexHandle], buffer: &mut [u32])
    ensures { buffer.new ≡ filled list.now buffer.old }
{
    let fitting = list.len().min(buffer.len());
    let mut at = 0;
    while at < fitting {
        buffer[at] = list[at].index() as u32;
        at += 1;
    }
}

/// Removes a vertex, and reports which one moved.
pub(crate) fn remove(points: &mut Points, vertex: u32, moved: &mut u64) -> u32
    ensures done { result ≡ 0 → RemovesVertex vertex moved.new points.old.planar points.new.planar }
    ensures fails { result ≢ 0 → FailsToRemoveVertex vertex result moved.old moved.new points.old.planar points.new.planar }
    ensures kept { result ≢ 4 }
{
    let vertex = FixedVertexHandle::new(vertex as usize);
    match points.remove(vertex) {
        Ok(removed) => {
            *moved = tell(&removed);
            DONE
        }
        Err(error) => {
            *moved = tell_after(&error, *moved);
            status_of_removal(&error)
        }
    }
}

/// Returns the old number of the vertex that has the removed one's number now, or 2^64 - 1.
pub(crate) fn tell(removed: &Removed) -> u64
    ensures { result ≡ moved_told removed.now }
{
    match removed.moved {
        Some(vertex) => vertex.index() as u64,
        None => u64::MAX,
    }
}

/// Returns what is reported if the vertex is gone all the same, and what was there before if it isn't.
pub(crate) fn tell_after(error: &RemovalError, before: u64) -> u64
    ensures { result ≡ moved_after error.now before }
{
    match error {
        RemovalError::Unfinished(removed) => tell(removed),
        _ => before,
    }
}

/// Does what was left undone for want of memory.
pub(crate) fn finish(points: &mut Points) -> u32
    ensures done { result ≡ 0 → FinishesPoints points.old.planar points.new.planar }
    ensures no_memory { result ≡ 2 → LeavesPoints points.old.planar points.new.planar }
    ensures status { (result ≡ 0) ⊎ (result ≡ 2) }
{
    match points.finish() {
        Ok(()) => DONE,
        Err(_) => NO_MEMORY,
    }
}
