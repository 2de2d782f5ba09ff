//! The triangles of points.

ghost use Rattle.std.specs.Prelude.{◌≡◌, ◌≤◌, ◌<◌, List, IfErr, IfOk, length};
ghost use Rattle.dcel_exports.specs.Answers.{HasAnswer};
ghost use Rattle.dcel_predicates.specs.declared.point.Point.{Point};
ghost use Rattle.dcel_delaunay.specs.Triangles.{AreDelaunayTriangles};
ghost use Rattle.mesh_page.specs.Given.{AreRead, HasFar};

use crate::points::{Failed, MeshPagePoint, read_points};
use crate::status::{NO_MEMORY, OUT_OF_RANGE};
use dcel_delaunay::{Triangle, triangulate};
use dcel_exports::put;
use lent_heap::{Heap, Memory};
use std::alloc::Allocator;

/// Puts the triangles of a Delaunay triangulation of the points into `triangles`, each as the
/// numbers of its corners, counterclockwise. Equal points are one, under the least of their numbers.
///
/// As many triangles as fit are put there, from the front, and what lies behind them stays. `needed`
/// is how many there are: none if all points stand on one line.
/// Returns 0 if all are there, and 1 if the buffer was short; 2 if the memory lent was too small, or
/// there are too many points for a mesh; 3 if a coordinate is below -2^53 or above 2^53. With 2 and
/// 3 the buffer stays as it was and `needed` is 0.
#[unsafe(no_mangle)]
pub extern "C" fn mesh_page_triangles(
    memory: Memory,
    points: &[MeshPagePoint],
    triangles: &mut [Triangle],
    needed: &mut u64,
) -> u32
    ensures triangles { result ≤ 1 → (read : List Point) × AreRead points.now read
        × HasAnswer (AreDelaunayTriangles read) triangles.old triangles.new needed.new }
    ensures done { result ≡ 0 → needed.new ≤ length triangles.old }
    ensures short { result ≡ 1 → length triangles.old < needed.new }
    ensures refused { 2 ≤ result → (triangles.new ≡ triangles.old) × (needed.new ≡ 0) }
    ensures out_of_range { result ≡ 3 → HasFar points.now }
    ensures no_other { result ≤ 3 }
{
    let heap = Heap::new(memory);
    match triangles_of(&heap, points) {
        Ok(list) => put(&list, triangles, needed),
        Err(Failed::NoMemory) => {
            *needed = 0;
            NO_MEMORY
        }
        Err(Failed::OutOfRange) => {
            *needed = 0;
            OUT_OF_RANGE
        }
    }
}

/// Returns the triangles of the points.
fn triangles_of<A: Allocator + Copy>(
    alloc: A,
    given: &[MeshPagePoint],
) -> Result<Vec<Triangle, A>, Failed>
    ensures triangles { IfOk result (λ list. (read : List Point) × AreRead given.now read × AreDelaunayTriangles read list.items) }
    ensures far { IfErr result (λ why. why ≡ Failed.OutOfRange → HasFar given.now) }
{
    let points = read_points(alloc, given)?;
    let Ok(list) = triangulate(alloc, &points) else {
        return Err(Failed::NoMemory);
    };
    Ok(list)
}
