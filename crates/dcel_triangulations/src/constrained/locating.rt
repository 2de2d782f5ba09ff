//! Points located among constraints.

ghost use Rattle.std.specs.Prelude.{◌≡◌, ◌≢◌, ◌≤◌, ◌<◌, ◌⊎◌, ◌↔◌, None, length};
ghost use Rattle.dcel_triangulations.specs.Calls.{IsSo};
ghost use Rattle.dcel_triangulations.specs.Points.{IsFar, IsFirstFar};
ghost use Rattle.dcel_triangulations.specs.constrained.Calls.{IsWhole, kept_in};
ghost use Rattle.dcel_triangulations.specs.constrained.Places.{IsPlaceOf, LocatesAll};

use crate::constrained::triangulation::DcelConstrained;
use crate::locating::put_positions;
use crate::points::{DcelPoint, point_of, read_points};
use crate::position::{DcelPosition, tell_position};
use crate::status::{DONE, NO_MESH, OUT_OF_MEMORY, OUT_OF_RANGE, SHORT, UNFINISHED};
use std::alloc::Global;

/// Reports where a point is. The walk begins at the newest edge.
///
/// If the triangulation isn't whole, the status is UNFINISHED.
#[unsafe(no_mangle)]
pub extern "C" fn dcel_constrained_locate(
    triangulation: &mut DcelConstrained,
    point: DcelPoint,
    position: &mut DcelPosition,
) -> u32
    ensures done { result ≡ 0 → IsSo (IsPlaceOf point position.new) (kept_in triangulation.old) }
    ensures none { (result ≡ 21) ↔ (kept_in triangulation.old ≡ None) }
    ensures out_of_range { result ≡ 24 → IsFar point }
    ensures unfinished { result ≡ 25 → IsSo (λ t. ¬ IsWhole t) (kept_in triangulation.old) }
    ensures status { (result ≡ 0) ⊎ (result ≡ 21) ⊎ ((24 ≤ result) × (result ≤ 25)) }
    ensures untold { result ≢ 0 → position.new ≡ position.old }
    ensures same { kept_in triangulation.new ≡ kept_in triangulation.old }
{
    if !triangulation.is_open {
        return NO_MESH;
    }
    let Some(point) = point_of(point) else {
        return OUT_OF_RANGE;
    };
    let points = triangulation.held.as_mut();
    if !points.is_whole() {
        return UNFINISHED;
    }
    *position = tell_position(points.locate(point));
    DONE
}

/// Reports where each point is, as [`dcel_constrained_locate`] does, and puts it into the buffer, in
/// the order of the points. What is behind them there stays.
///
/// It looks for them in an order of its own, in which walks are short. If coordinates are out
/// of range, the first row that has one is reported.
#[unsafe(no_mangle)]
pub extern "C" fn dcel_constrained_locate_all(
    alloc: Global,
    triangulation: &mut DcelConstrained,
    points: &[DcelPoint],
    positions: &mut [DcelPosition],
    row: &mut u64,
) -> u32
    ensures done { result ≡ 0 → IsSo (LocatesAll points.now positions.old positions.new) (kept_in triangulation.old) }
    ensures fits { result ≡ 0 → length points.now ≤ length positions.old }
    ensures none { (result ≡ 21) ↔ (kept_in triangulation.old ≡ None) }
    ensures short { result ≡ 22 → length positions.old < length points.now }
    ensures out_of_range { result ≡ 24 → IsFirstFar points.now row.new }
    ensures unfinished { result ≡ 25 → IsSo (λ t. ¬ IsWhole t) (kept_in triangulation.old) }
    ensures status { (result ≡ 0) ⊎ ((20 ≤ result) × (result ≤ 25) × (result ≢ 23)) }
    ensures untold { result ≢ 0 → positions.new ≡ positions.old }
    ensures in_range { result ≢ 24 → row.new ≡ row.old }
    ensures same { kept_in triangulation.new ≡ kept_in triangulation.old }
{
    if !triangulation.is_open {
        return NO_MESH;
    }
    if positions.len() < points.len() {
        return SHORT;
    }
    let read = match read_points(alloc, points, row) {
        Ok(read) => read,
        Err(status) => return status,
    };
    let kept = triangulation.held.as_mut();
    if !kept.is_whole() {
        return UNFINISHED;
    }
    match kept.locate_all(alloc, &read) {
        Ok(list) => {
            put_positions(&list, positions);
            DONE
        }
        Err(_) => OUT_OF_MEMORY,
    }
}
