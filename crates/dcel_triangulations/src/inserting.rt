//! Points inserted, one or many at once.

ghost use Rattle.std.specs.Prelude.{◌≡◌, ◌≢◌, ◌↔◌, ◌≤◌, ◌<◌, ◌⊎◌, None, length};
ghost use Rattle.dcel_exports.specs.Answers.{filled};
ghost use Rattle.dcel_triangulations.specs.Calls.{AreSo, kept_in};
ghost use Rattle.dcel_triangulations.specs.Inserting.{FailsToInsertAllOf, FailsToInsertPoint, InsertsAll, InsertsPoint};
ghost use Rattle.dcel_triangulations.specs.Points.{IsFar, IsFirstFar};

use crate::points::{DcelPoint, point_of, read_points};
use crate::status::{DONE, NO_MESH, OUT_OF_RANGE, SHORT, status_of_insertion};
use crate::triangulation::DcelTriangulation;
use spade_dcel::handles::FixedVertexHandle;
use std::alloc::Global;

/// Inserts a point, and reports its vertex: a new one, or the one that is there already.
///
/// If the status is UNFINISHED, the vertex is there, the last one, but the triangulation isn't
/// whole. With any other refusal no vertex is added.
#[unsafe(no_mangle)]
pub extern "C" fn dcel_triangulation_insert(
    triangulation: &mut DcelTriangulation,
    point: DcelPoint,
    vertex: &mut u32,
) -> u32
    ensures done { result ≡ 0 → AreSo (InsertsPoint point vertex.new) (kept_in triangulation.old) (kept_in triangulation.new) }
    ensures fails { result ≢ 0 → result ≢ 21 → result ≢ 24 → AreSo (FailsToInsertPoint point result) (kept_in triangulation.old) (kept_in triangulation.new) }
    ensures none { (result ≡ 21) ↔ (kept_in triangulation.old ≡ None) }
    ensures out_of_range { result ≡ 24 → IsFar point }
    ensures same { (result ≡ 21) ⊎ (result ≡ 24) → kept_in triangulation.new ≡ kept_in triangulation.old }
    ensures untold { result ≢ 0 → vertex.new ≡ vertex.old }
{
    if !triangulation.is_open {
        return NO_MESH;
    }
    let Some(point) = point_of(point) else {
        return OUT_OF_RANGE;
    };
    match triangulation.held.as_mut().insert(point) {
        Ok(inserted) => {
            *vertex = inserted.index() as u32;
            DONE
        }
        Err(error) => status_of_insertion(error),
    }
}

/// Inserts a point, as [`dcel_triangulation_insert`] does, by a walk that begins at a vertex.
///
/// The nearer the vertex is to the point, the shorter is the walk. If no vertex has the number, the
/// walk begins where that of [`dcel_triangulation_insert`] does.
#[unsafe(no_mangle)]
pub extern "C" fn dcel_triangulation_insert_with_hint(
    triangulation: &mut DcelTriangulation,
    point: DcelPoint,
    hint: u32,
    vertex: &mut u32,
) -> u32
    ensures done { result ≡ 0 → AreSo (InsertsPoint point vertex.new) (kept_in triangulation.old) (kept_in triangulation.new) }
    ensures fails { result ≢ 0 → result ≢ 21 → result ≢ 24 → AreSo (FailsToInsertPoint point result) (kept_in triangulation.old) (kept_in triangulation.new) }
    ensures none { (result ≡ 21) ↔ (kept_in triangulation.old ≡ None) }
    ensures out_of_range { result ≡ 24 → IsFar point }
    ensures same { (result ≡ 21) ⊎ (result ≡ 24) → kept_in triangulation.new ≡ kept_in triangulation.old }
    ensures untold { result ≢ 0 → vertex.new ≡ vertex.old }
{
    if !triangulation.is_open {
        return NO_MESH;
    }
    let Some(point) = point_of(point) else {
        return OUT_OF_RANGE;
    };
    let hint = FixedVertexHandle::new(hint as usize);
    match triangulation.held.as_mut().insert_with_hint(point, hint) {
        Ok(found) => {
            *vertex = found.index() as u32;
            DONE
        }
        Err(error) => status_of_insertion(error),
    }
}

/// Inserts points in an order of its own, in which walks are short, and puts the vertex of each into
/// the buffer, in the order of the points. What is behind them there stays.
///
/// If coordinates are out of range, the first row that has one is reported, and no point is inserted.
/// If memory or numbers run out, the points that were inserted so far stay.
#[unsafe(no_mangle)]
pub extern "C" fn dcel_triangulation_insert_all(
    alloc: Global,
    triangulation: &mut DcelTriangulation,
    points: &[DcelPoint],
    vertices: &mut [u32],
    row: &mut u64,
) -> u32
    ensures done { result ≡ 0 → AreSo (InsertsAll points.now vertices.old vertices.new) (kept_in triangulation.old) (kept_in triangulation.new) }
    ensures fits { result ≡ 0 → length points.now ≤ length vertices.old }
    ensures fails { result ≢ 0 → result ≢ 21 → result ≢ 22 → result ≢ 24 →
        AreSo (FailsToInsertAllOf points.now result) (kept_in triangulation.old) (kept_in triangulation.new) }
    ensures none { (result ≡ 21) ↔ (kept_in triangulation.old ≡ None) }
    ensures short { result ≡ 22 → length vertices.old < length points.now }
    ensures out_of_range { result ≡ 24 → IsFirstFar points.now row.new }
    ensures same { 21 ≤ result → result ≤ 24 → kept_in triangulation.new ≡ kept_in triangulation.old }
    ensures untold { result ≢ 0 → vertices.new ≡ vertices.old }
    ensures in_range { result ≢ 24 → row.new ≡ row.old }
{
    if !triangulation.is_open {
        return NO_MESH;
    }
    if vertices.len() < points.len() {
        return SHORT;
    }
    let read = match read_points(alloc, points, row) {
        Ok(read) => read,
        Err(status) => return status,
    };
    match triangulation.held.as_mut().insert_all(alloc, &read) {
        Ok(list) => {
            put_numbers(&list, vertices);
            DONE
        }
        Err(error) => status_of_insertion(error),
    }
}

/// Puts the numbers of vertices into the buffer, as many as fit.
pub(crate) fn put_numbers(list: &[FixedVertexHandle], buffer: &mut [u32])
    ensures { buffer.new ≡ filled list.now buffer.old }
{
    let fitting = list.len().min(buffer.len());
    let mut at = 0;
    while at < fitting {
        buffer[at] = list[at].index() as u32;
        at += 1;
    }
}
