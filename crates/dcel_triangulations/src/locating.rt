//! Points located in a triangulation, one or many at once.

ghost use Rattle.std.specs.Prelude.{◌≡◌, ◌≢◌, ◌↔◌, ◌≤◌, ◌<◌, ◌⊎◌, None, length, map};
ghost use Rattle.dcel_exports.specs.Answers.{filled};
ghost use Rattle.dcel_triangulations.specs.Calls.{IsSo, IsWhole, kept_in};
ghost use Rattle.dcel_triangulations.specs.Points.{IsFar, IsFirstFar};
ghost use Rattle.dcel_triangulations.specs.Positions.{IsPlaceOf, LocatesAll, position_told};

use crate::points::{DcelPoint, point_of, read_points};
use crate::position::{DcelPosition, tell_position};
use crate::status::{DONE, NO_MESH, OUT_OF_MEMORY, OUT_OF_RANGE, SHORT, UNFINISHED};
use crate::triangulation::DcelTriangulation;
use dcel_delaunay::PositionInTriangulation;
use spade_dcel::handles::FixedVertexHandle;
use std::alloc::Global;

/// Reports where a point is. The walk begins where the last insertion ended.
///
/// If the triangulation isn't whole, the status is UNFINISHED.
#[unsafe(no_mangle)]
pub extern "C" fn dcel_triangulation_locate(
    triangulation: &mut DcelTriangulation,
    point: DcelPoint,
    position: &mut DcelPosition,
) -> u32
    ensures done { result ≡ 0 → IsSo (IsPlaceOf point position.new) (kept_in triangulation.old) }
    ensures none { (result ≡ 21) ↔ (kept_in triangulation.old ≡ None) }
    ensures out_of_range { result ≡ 24 → IsFar point }
    ensures unfinished { result ≡ 25 → IsSo (λ t. ¬ IsWhole t) (kept_in triangulation.old) }
    ensures status { (result ≡ 0) ⊎ (result ≡ 21) ⊎ ((24 ≤ result) × (result ≤ 25)) }
    ensures untold { result ≢ 0 → position.new ≡ position.old }
    ensures same { kept_in triangulation.new ≡ kept_in triangulation.old }
{
    if !triangulation.is_open {
        return NO_MESH;
    }
    let Some(point) = point_of(point) else {
        return OUT_OF_RANGE;
    };
    let points = triangulation.held.as_mut();
    if !points.is_whole() {
        return UNFINISHED;
    }
    *position = tell_position(points.locate(point));
    DONE
}

/// Reports where a point is, as [`dcel_triangulation_locate`] does, by a walk that begins at a vertex.
///
/// The nearer the vertex is to the point, the shorter is the walk. If no vertex has the number, the
/// walk begins where that of [`dcel_triangulation_locate`] does.
#[unsafe(no_mangle)]
pub extern "C" fn dcel_triangulation_locate_with_hint(
    triangulation: &mut DcelTriangulation,
    point: DcelPoint,
    hint: u32,
    position: &mut DcelPosition,
) -> u32
    ensures done { result ≡ 0 → IsSo (IsPlaceOf point position.new) (kept_in triangulation.old) }
    ensures none { (result ≡ 21) ↔ (kept_in triangulation.old ≡ None) }
    ensures out_of_range { result ≡ 24 → IsFar point }
    ensures unfinished { result ≡ 25 → IsSo (λ t. ¬ IsWhole t) (kept_in triangulation.old) }
    ensures status { (result ≡ 0) ⊎ (result ≡ 21) ⊎ ((24 ≤ result) × (result ≤ 25)) }
    ensures untold { result ≢ 0 → position.new ≡ position.old }
    ensures same { kept_in triangulation.new ≡ kept_in triangulation.old }
{
    if !triangulation.is_open {
        return NO_MESH;
    }
    let Some(point) = point_of(point) else {
        return OUT_OF_RANGE;
    };
    let points = triangulation.held.as_mut();
    if !points.is_whole() {
        return UNFINISHED;
    }
    let hint = FixedVertexHandle::new(hint as usize);
    *position = tell_position(points.locate_with_hint(point, hint));
    DONE
}

/// Reports where each point is, as [`dcel_triangulation_locate`] does, and puts it into the buffer, in
/// the order of the points. What is behind them there stays.
///
/// It looks for them in an order of its own, in which walks are short. If coordinates are out
/// of range, the first row that has one is reported.
#[unsafe(no_mangle)]
pub extern "C" fn dcel_triangulation_locate_all(
    alloc: Global,
    triangulation: &mut DcelTriangulation,
    points: &[DcelPoint],
    positions: &mut [DcelPosition],
    row: &mut u64,
) -> u32
    ensures done { result ≡ 0 → IsSo (LocatesAll points.now positions.old positions.new) (kept_in triangulation.old) }
    ensures fits { result ≡ 0 → length points.now ≤ length positions.old }
    ensures none { (result ≡ 21) ↔ (kept_in triangulation.old ≡ None) }
    ensures short { result ≡ 22 → length positions.old < length points.now }
    ensures out_of_range { result ≡ 24 → IsFirstFar points.now row.new }
    ensures unfinished { result ≡ 25 → IsSo (λ t. ¬ IsWhole t) (kept_in triangulation.old) }
    ensures status { (result ≡ 0) ⊎ ((20 ≤ result) × (result ≤ 25) × (result ≢ 23)) }
    ensures untold { result ≢ 0 → positions.new ≡ positions.old }
    ensures in_range { result ≢ 24 → row.new ≡ row.old }
    ensures same { kept_in triangulation.new ≡ kept_in triangulation.old }
{
    if !triangulation.is_open {
        return NO_MESH;
    }
    if positions.len() < points.len() {
        return SHORT;
    }
    let read = match read_points(alloc, points, row) {
        Ok(read) => read,
        Err(status) => return status,
    };
    let kept = triangulation.held.as_mut();
    if !kept.is_whole() {
        return UNFINISHED;
    }
    match kept.locate_all(alloc, &read) {
        Ok(list) => {
            put_positions(&list, positions);
            DONE
        }
        Err(_) => OUT_OF_MEMORY,
    }
}

/// Puts positions into the buffer, as many as fit.
pub(crate) fn put_positions(list: &[PositionInTriangulation], buffer: &mut [DcelPosition])
    ensures { buffer.new ≡ filled (map position_told list.now) buffer.old }
{
    let fitting = list.len().min(buffer.len());
    let mut at = 0;
    while at < fitting {
        buffer[at] = tell_position(list[at]);
        at += 1;
    }
}
