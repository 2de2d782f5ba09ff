//! The vertices nearest to points, to one or to many at once.

ghost use Rattle.std.specs.Prelude.{◌≡◌, ◌≢◌, ◌↔◌, ◌≤◌, ◌<◌, ◌⊎◌, None, length, map};
ghost use Rattle.dcel_exports.specs.Answers.{filled};
ghost use Rattle.dcel_triangulations.specs.Calls.{IsSo, IsWhole, kept_in};
ghost use Rattle.dcel_triangulations.specs.Points.{IsFar, IsFirstFar};
ghost use Rattle.dcel_triangulations.specs.Positions.{FindsAllNearest, IsNearestTo, vertex_told};

use crate::points::{DcelPoint, point_of, read_points};
use crate::position::tell_vertex;
use crate::status::{DONE, NO_MESH, OUT_OF_MEMORY, OUT_OF_RANGE, SHORT, UNFINISHED};
use crate::triangulation::DcelTriangulation;
use spade_dcel::handles::FixedVertexHandle;
use std::alloc::Global;

/// Reports a vertex that no other one is nearer to a point than, or 2^32 - 1 if there is no vertex.
///
/// If the triangulation isn't whole, the status is UNFINISHED.
#[unsafe(no_mangle)]
pub extern "C" fn dcel_triangulation_nearest(
    triangulation: &mut DcelTriangulation,
    point: DcelPoint,
    vertex: &mut u32,
) -> u32
    ensures done { result ≡ 0 → IsSo (IsNearestTo point vertex.new) (kept_in triangulation.old) }
    ensures none { (result ≡ 21) ↔ (kept_in triangulation.old ≡ None) }
    ensures out_of_range { result ≡ 24 → IsFar point }
    ensures unfinished { result ≡ 25 → IsSo (λ t. ¬ IsWhole t) (kept_in triangulation.old) }
    ensures status { (result ≡ 0) ⊎ (result ≡ 21) ⊎ ((24 ≤ result) × (result ≤ 25)) }
    ensures untold { result ≢ 0 → vertex.new ≡ vertex.old }
    ensures same { kept_in triangulation.new ≡ kept_in triangulation.old }
{
    if !triangulation.is_open {
        return NO_MESH;
    }
    let Some(point) = point_of(point) else {
        return OUT_OF_RANGE;
    };
    let points = triangulation.held.as_mut();
    if !points.is_whole() {
        return UNFINISHED;
    }
    *vertex = tell_vertex(points.nearest_vertex(point));
    DONE
}

/// Puts for each point a vertex that no other one is nearer to it than into the buffer, in the order
/// of the points, or 2^32 - 1 if there is no vertex. What is behind them there stays.
///
/// It looks for them in an order of its own, in which walks are short. If coordinates are out
/// of range, the first row that has one is reported.
#[unsafe(no_mangle)]
pub extern "C" fn dcel_triangulation_nearest_all(
    alloc: Global,
    triangulation: &mut DcelTriangulation,
    points: &[DcelPoint],
    vertices: &mut [u32],
    row: &mut u64,
) -> u32
    ensures done { result ≡ 0 → IsSo (FindsAllNearest points.now vertices.old vertices.new) (kept_in triangulation.old) }
    ensures fits { result ≡ 0 → length points.now ≤ length vertices.old }
    ensures none { (result ≡ 21) ↔ (kept_in triangulation.old ≡ None) }
    ensures short { result ≡ 22 → length vertices.old < length points.now }
    ensures out_of_range { result ≡ 24 → IsFirstFar points.now row.new }
    ensures unfinished { result ≡ 25 → IsSo (λ t. ¬ IsWhole t) (kept_in triangulation.old) }
    ensures status { (result ≡ 0) ⊎ ((20 ≤ result) × (result ≤ 25) × (result ≢ 23)) }
    ensures untold { result ≢ 0 → vertices.new ≡ vertices.old }
    ensures in_range { result ≢ 24 → row.new ≡ row.old }
    ensures same { kept_in triangulation.new ≡ kept_in triangulation.old }
{
    if !triangulation.is_open {
        return NO_MESH;
    }
    if vertices.len() < points.len() {
        return SHORT;
    }
    let read = match read_points(alloc, points, row) {
        Ok(read) => read,
        Err(status) => return status,
    };
    let kept = triangulation.held.as_mut();
    if !kept.is_whole() {
        return UNFINISHED;
    }
    match kept.nearest_all(alloc, &read) {
        Ok(list) => {
            put_nearest(&list, vertices);
            DONE
        }
        Err(_) => OUT_OF_MEMORY,
    }
}

/// Puts the numbers of vertices into the buffer, as many as fit, and 2^32 - 1 where there is none.
fn put_nearest(list: &[Option<FixedVertexHandle>], buffer: &mut [u32])
    ensures { buffer.new ≡ filled (map vertex_told list.now) buffer.old }
{
    let fitting = list.len().min(buffer.len());
    let mut at = 0;
    while at < fitting {
        buffer[at] = tell_vertex(list[at]);
        at += 1;
    }
}
