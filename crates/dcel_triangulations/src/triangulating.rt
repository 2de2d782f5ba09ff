//! The triangles of points, for callers that keep no triangulation.

ghost use Rattle.std.specs.Prelude.{◌≡◌, ◌≢◌, ◌⊎◌, IfErr, IfOk, OnOk, length};
ghost use Rattle.dcel_exports.specs.Answers.{HasAnswer};
ghost use Rattle.dcel_triangulations.specs.Points.{IsFirstFar};
ghost use Rattle.dcel_triangulations.specs.Statuses.{buffer_status};
ghost use Rattle.dcel_triangulations.specs.Triangulating.{AreTrianglesOf};

use crate::points::{DcelPoint, read_points};
use crate::status::{OUT_OF_MEMORY, done_or_short};
use dcel_delaunay::Triangle;
use dcel_exports::put;
use std::alloc::Global;

/// Puts the triangles of a Delaunay triangulation of the points into the buffer, each as the rows of
/// its corners, counterclockwise. Equal points are one, under the least of their rows. There are none
/// if all points are on one line.
///
/// As many as fit are put there, from the front, and what is behind them stays. `needed` is how many
/// there are. If coordinates are out of range, the first row that has one is reported; if there is no
/// memory, or there are too many points for a mesh, the status is OUT_OF_MEMORY. Then the buffer
/// stays, and `needed` is 0.
#[unsafe(no_mangle)]
pub extern "C" fn dcel_triangulate(
    alloc: Global,
    points: &[DcelPoint],
    triangles: &mut [Triangle],
    needed: &mut u64,
    row: &mut u64,
) -> u32
    ensures triangles { result ≢ 20 → result ≢ 24 → HasAnswer (AreTrianglesOf points.now) triangles.old triangles.new needed.new }
    ensures status { result ≢ 20 → result ≢ 24 → result ≡ buffer_status needed.new (length triangles.old) }
    ensures refused { (result ≡ 20) ⊎ (result ≡ 24) → (triangles.new ≡ triangles.old) × (needed.new ≡ 0) }
    ensures out_of_range { result ≡ 24 → IsFirstFar points.now row.new }
    ensures in_range { result ≢ 24 → row.new ≡ row.old }
{
    match triangles_of(alloc, points, row) {
        Ok(list) => {
            put(&list, triangles, needed);
            done_or_short(*needed, triangles.len())
        }
        Err(status) => {
            *needed = 0;
            status
        }
    }
}

/// Returns the triangles of the points, or the status that says why not.
fn triangles_of(
    alloc: Global,
    given: &[DcelPoint],
    row: &mut u64,
) -> Result<Vec<Triangle, Global>, u32>
    ensures triangles { IfOk result (λ list. AreTrianglesOf given.now list.items) }
    ensures far { IfErr result (λ status. status ≡ 24 → IsFirstFar given.now row.new) }
    ensures status { IfErr result (λ status. (status ≡ 20) ⊎ (status ≡ 24)) }
    ensures untold { OnOk result (row.new ≡ row.old) }
    ensures in_range { IfErr result (λ status. status ≢ 24 → row.new ≡ row.old) }
{
    let points = read_points(alloc, given, row)?;
    match dcel_delaunay::triangulate(alloc, &points) {
        Ok(list) => Ok(list),
        Err(_) => Err(OUT_OF_MEMORY),
    }
}
