//! Points, as C gives them.

ghost use Rattle.std.specs.Prelude.{◌≡◌, ◌≢◌, ◌⊎◌, IfErr, IfNone, IfOk, IfSome, OnOk};
ghost use Rattle.dcel_triangulations.specs.Points.{AreRead, IsAt, IsFar, IsFirstFar};

use crate::status::{OUT_OF_MEMORY, OUT_OF_RANGE};
use dcel_delaunay::Point;
use std::alloc::Global;

/// A point with whole coordinates: C's `dcel_point`.
#[repr(C)]
#[derive(Clone, Copy)]
pub struct DcelPoint {
    /// To the right.
    pub x: i64,
    /// Up.
    pub y: i64,
}

/// Returns the point with the same coordinates, or `None` if one is out of range.
pub(crate) fn point_of(given: DcelPoint) -> Option<Point>
    ensures at { IfSome result (IsAt given) }
    ensures near { IfSome result (λ _. ¬ IsFar given) }
    ensures far { IfNone result (IsFar given) }
{
    Point::new(given.x, given.y)
}

/// Reads the points. Returns the status that says why not: there is no memory, or the point in the
/// row that is reported is the first that has a coordinate out of range.
pub(crate) fn read_points(
    alloc: Global,
    given: &[DcelPoint],
    row: &mut u64,
) -> Result<Vec<Point, Global>, u32>
    ensures read { IfOk result (λ points. AreRead given.now points.items) }
    ensures far { IfErr result (λ status. status ≡ 24 → IsFirstFar given.now row.new) }
    ensures status { IfErr result (λ status. (status ≡ 20) ⊎ (status ≡ 24)) }
    ensures untold { OnOk result (row.new ≡ row.old) }
    ensures in_range { IfErr result (λ status. status ≢ 24 → row.new ≡ row.old) }
{
    let Ok(mut points) = Vec::with_capacity(alloc, given.len()) else {
        return Err(OUT_OF_MEMORY);
    };
    let mut at = 0;
    while at < given.len() {
        let Some(point) = point_of(given[at]) else {
            *row = at as u64;
            return Err(OUT_OF_RANGE);
        };
        let Ok(()) = points.push(point) else {
            return Err(OUT_OF_MEMORY);
        };
        at += 1;
    }
    Ok(points)
}
