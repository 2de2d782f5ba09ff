//! Constrained triangulations made of points and segments at once.

ghost use Rattle.std.specs.Prelude.{◌≡◌, ◌≢◌, ◌≤◌, ◌<◌, IfOk, length};
ghost use Rattle.dcel_triangulations.specs.Calls.{IsSo};
ghost use Rattle.dcel_triangulations.specs.Points.{IsFirstFar};
ghost use Rattle.dcel_triangulations.specs.constrained.Calls.{kept_in};
ghost use Rattle.dcel_triangulations.specs.constrained.Loading.{FailsToLoadAll, HasLoaded, load_status, row_after, segment_given, segments_given};

use crate::constrained::triangulation::DcelConstrained;
use crate::constrained::whole::keep;
use crate::inserting::put_numbers;
use crate::points::{DcelPoint, read_points};
use crate::status::{CROSSES, DONE, NO_ROOM, NO_SUCH_VERTEX, OUT_OF_MEMORY, SHORT};
use dcel_constrained::{ConstrainedTriangulation, LoadError, Segment};
use dcel_delaunay::lists::Ends;
use std::alloc::{AllocError, Global};

/// Makes a triangulation of points and of segments between them, by the rows of their ends: each
/// segment is one of constraints, and no other edge is one. The vertex of each point is put into the
/// buffer, in the order of the points, and what is behind them there stays. One that was kept there
/// before is freed.
///
/// If coordinates are out of range, the first row that has one is reported. If a segment ends at no
/// point, the status is NO_SUCH_VERTEX, and if one crosses an earlier one, CROSSES: then its row is
/// reported. With any refusal what was kept before stays.
#[unsafe(no_mangle)]
pub extern "C" fn dcel_constrained_bulk_load(
    alloc: Global,
    triangulation: &mut DcelConstrained,
    points: &[DcelPoint],
    segments: &[Ends],
    vertices: &mut [u32],
    row: &mut u64,
) -> u32
    ensures done { result ≡ 0 → IsSo (HasLoaded points.now segments.now vertices.old vertices.new) (kept_in triangulation.new) }
    ensures fits { result ≡ 0 → length points.now ≤ length vertices.old }
    ensures fails { result ≢ 0 → result ≢ 20 → result ≢ 22 → result ≢ 24 → FailsToLoadAll points.now segments.now result row.old row.new }
    ensures short { result ≡ 22 → length vertices.old < length points.now }
    ensures out_of_range { result ≡ 24 → IsFirstFar points.now row.new }
    ensures same { result ≢ 0 → kept_in triangulation.new ≡ kept_in triangulation.old }
    ensures untold { result ≢ 0 → vertices.new ≡ vertices.old }
    ensures no_row { result ≢ 1 → result ≢ 24 → result ≢ 26 → row.new ≡ row.old }
{
    if vertices.len() < points.len() {
        return SHORT;
    }
    let read = match read_points(alloc, points, row) {
        Ok(read) => read,
        Err(status) => return status,
    };
    let Ok(ends) = read_segments(alloc, segments) else {
        return OUT_OF_MEMORY;
    };
    match ConstrainedTriangulation::bulk_load(alloc, &read, &ends) {
        Ok((made, list)) => {
            let status = keep(alloc, triangulation, made);
            if status != DONE {
                return status;
            }
            put_numbers(&list, vertices);
            DONE
        }
        Err(error) => {
            *row = row_of(error, *row);
            status_of_load(error)
        }
    }
}

/// Reads the segments.
fn read_segments(alloc: Global, given: &[Ends]) -> Result<Vec<Segment, Global>, AllocError>
    ensures { IfOk result (λ list. list.items ≡ segments_given given.now) }
{
    let mut list = Vec::with_capacity(alloc, given.len())?;
    let mut at = 0;
    while at < given.len() {
        list.push(segment_of(given[at]))?;
        at += 1;
    }
    Ok(list)
}

/// Returns a segment with these ends.
fn segment_of(ends: Ends) -> Segment
    ensures { result ≡ segment_given ends }
{
    Segment {
        from: ends.from as usize,
        to: ends.to as usize,
    }
}

/// Returns the status of points and segments that were not loaded.
fn status_of_load(error: LoadError) -> u32
    ensures { result ≡ load_status error }
{
    match error {
        LoadError::NoPoint(_) => NO_SUCH_VERTEX,
        LoadError::Crosses(_) => CROSSES,
        LoadError::TooManyPoints => NO_ROOM,
        LoadError::OutOfMemory => OUT_OF_MEMORY,
    }
}

/// Returns the row of the segment that was refused, and what was there before if none was.
fn row_of(error: LoadError, before: u64) -> u64
    ensures { result ≡ row_after error before }
{
    match error {
        LoadError::NoPoint(row) => row as u64,
        LoadError::Crosses(row) => row as u64,
        LoadError::TooManyPoints => before,
        LoadError::OutOfMemory => before,
    }
}
