//! Triangulations that are kept, with constraints and without: made, and points inserted and removed.

ghost use Rattle.std.specs.Prelude.{◌≡◌, ◌≢◌, ◌⊎◌, ◌↔◌, ◌≤◌, ◌<◌, length};
ghost use Rattle.mesh_page.specs.Changing.{FailsToInsertAllOf, FailsToInsertOne, FailsToRemoveOne, Finishes, HasNoConstraints, HasNoPoints, Inserts, InsertsAll, Removes, StaysUnfinished};
ghost use Rattle.mesh_page.specs.Given.{HasFar, IsFar};
ghost use Rattle.mesh_page.specs.Keeping.{HasNone, IsOpen, IsSo, constrained_in, delaunay_in, thing_in};
ghost use Rattle.mesh_page.specs.Listing.{HasTriangulation, IsUnfinished, PutsTriangles, TellsNearest};

pub(crate) mod changing;
pub(crate) mod listing;

use crate::constrained::{changing as among, listing as lists_among};
use crate::desk::Thing;
use crate::holder::MeshPageKept;
use crate::kept::put;
use crate::points::MeshPagePoint;
use crate::status::{NO_MEMORY, NOT_KEPT};
use dcel_constrained::ConstrainedTriangulation;
use dcel_delaunay::{Triangle, Triangulation};

/// Puts a Delaunay triangulation of no points on a desk, in the heap of another one, and frees what was
/// on it.
///
/// Returns 0; 2 if there is no memory, and 4 if the other desk isn't open: then what was on the desk
/// stays.
#[unsafe(no_mangle)]
pub extern "C" fn mesh_page_delaunay(from: &mut MeshPageKept, kept: &mut MeshPageKept) -> u32
    ensures done { result ≡ 0 → IsSo HasNoPoints (delaunay_in kept.new) }
    ensures refused { result ≢ 0 → thing_in kept.new ≡ thing_in kept.old }
    ensures none { (result ≡ 4) ↔ (¬ IsOpen from.old) }
    ensures status { (result ≡ 0) ⊎ (result ≡ 2) ⊎ (result ≡ 4) }
    ensures same { thing_in from.new ≡ thing_in from.old }
{
    if !from.is_open {
        return NOT_KEPT;
    }
    let heap = from.held.as_mut().heap;
    match Triangulation::new(heap) {
        Ok(made) => put(heap, kept, Thing::Delaunay(made)),
        Err(_) => NO_MEMORY,
    }
}

/// Puts a constrained Delaunay triangulation of no points on a desk, as `mesh_page_delaunay` does.
#[unsafe(no_mangle)]
pub extern "C" fn mesh_page_constrained(from: &mut MeshPageKept, kept: &mut MeshPageKept) -> u32
    ensures done { result ≡ 0 → IsSo HasNoConstraints (constrained_in kept.new) }
    ensures refused { result ≢ 0 → thing_in kept.new ≡ thing_in kept.old }
    ensures none { (result ≡ 4) ↔ (¬ IsOpen from.old) }
    ensures status { (result ≡ 0) ⊎ (result ≡ 2) ⊎ (result ≡ 4) }
    ensures same { thing_in from.new ≡ thing_in from.old }
{
    if !from.is_open {
        return NOT_KEPT;
    }
    let heap = from.held.as_mut().heap;
    match ConstrainedTriangulation::new(heap) {
        Ok(made) => put(heap, kept, Thing::Constrained(made)),
        Err(_) => NO_MEMORY,
    }
}

/// Inserts a point, and reports its vertex: a new one, or the one that is there already. A constraint
/// that the point is on becomes two.
///
/// Returns 0; 2 if there is no memory, 7 if there are no numbers left, and 3 if a coordinate is out of
/// range: no vertex is added then; 5 if memory ran out afterwards: the vertex is there, the last one,
/// but the triangulation isn't whole; 4 if no triangulation is kept.
#[unsafe(no_mangle)]
pub extern "C" fn mesh_page_insert(
    kept: &mut MeshPageKept,
    point: MeshPagePoint,
    vertex: &mut u32,
) -> u32
    ensures done { result ≡ 0 → Inserts point vertex.new (thing_in kept.old) (thing_in kept.new) }
    ensures fails { result ≢ 0 → result ≢ 3 → result ≢ 4 → FailsToInsertOne point result (thing_in kept.old) (thing_in kept.new) }
    ensures none { (result ≡ 4) ↔ HasNone (thing_in kept.old) }
    ensures out_of_range { result ≡ 3 → IsFar point }
    ensures same { (result ≡ 3) ⊎ (result ≡ 4) → thing_in kept.new ≡ thing_in kept.old }
    ensures untold { result ≢ 0 → vertex.new ≡ vertex.old }
{
    if !kept.is_open {
        return NOT_KEPT;
    }
    match &mut kept.held.as_mut().thing {
        Thing::Delaunay(points) => changing::insert(points, point, vertex),
        Thing::Constrained(points) => among::insert(points, point, vertex),
        Thing::Mesh(_) => NOT_KEPT,
        Thing::Nothing => NOT_KEPT,
    }
}

/// Inserts points in an order of its own, in which walks are short, and puts the vertex of each into
/// the buffer, in the order of the points. What lies behind them there stays.
///
/// Returns what `mesh_page_insert` does, or 1 if the buffer is short of a place for each point, and then
/// nothing changes. If a coordinate is out of range, no point is inserted; if memory or numbers run
/// out, the points that were inserted so far stay.
#[unsafe(no_mangle)]
pub extern "C" fn mesh_page_insert_all(
    kept: &mut MeshPageKept,
    points: &[MeshPagePoint],
    vertices: &mut [u32],
) -> u32
    ensures done { result ≡ 0 → InsertsAll points.now vertices.old vertices.new (thing_in kept.old) (thing_in kept.new) }
    ensures fits { result ≡ 0 → length points.now ≤ length vertices.old }
    ensures fails { result ≢ 0 → result ≢ 1 → result ≢ 3 → result ≢ 4 →
        FailsToInsertAllOf points.now result (thing_in kept.old) (thing_in kept.new) }
    ensures none { (result ≡ 4) ↔ HasNone (thing_in kept.old) }
    ensures short { result ≡ 1 → length vertices.old < length points.now }
    ensures out_of_range { result ≡ 3 → HasFar points.now }
    ensures same { (result ≡ 1) ⊎ ((result ≡ 3) ⊎ (result ≡ 4)) → thing_in kept.new ≡ thing_in kept.old }
    ensures untold { result ≢ 0 → vertices.new ≡ vertices.old }
{
    if !kept.is_open {
        return NOT_KEPT;
    }
    let desk = kept.held.as_mut();
    let heap = desk.heap;
    match &mut desk.thing {
        Thing::Delaunay(kept) => changing::insert_all(heap, kept, points, vertices),
        Thing::Constrained(kept) => among::insert_all(heap, kept, points, vertices),
        Thing::Mesh(_) => NOT_KEPT,
        Thing::Nothing => NOT_KEPT,
    }
}

/// Removes a vertex with its point, and with the constraints that end at it. The last vertex gets its
/// number, and `moved` is the number that this had before, or 2^64 - 1 if it was the last itself.
///
/// Returns 0; 6 if there is no such vertex, 2 if there is no memory, and 7 if there are no numbers
/// left: then all vertices keep their points, but with 2 constraints that end there may be freed; 5 if memory ran out afterwards: the vertex is gone, and
/// `moved` is set, but the triangulation isn't whole; 4 if no triangulation is kept.
#[unsafe(no_mangle)]
pub extern "C" fn mesh_page_remove(kept: &mut MeshPageKept, vertex: u32, moved: &mut u64) -> u32
    ensures done { result ≡ 0 → Removes vertex moved.new (thing_in kept.old) (thing_in kept.new) }
    ensures fails { result ≢ 0 → result ≢ 4 → FailsToRemoveOne vertex result moved.old moved.new (thing_in kept.old) (thing_in kept.new) }
    ensures none { (result ≡ 4) ↔ HasNone (thing_in kept.old) }
    ensures same { result ≡ 4 → (thing_in kept.new ≡ thing_in kept.old) × (moved.new ≡ moved.old) }
{
    if !kept.is_open {
        return NOT_KEPT;
    }
    match &mut kept.held.as_mut().thing {
        Thing::Delaunay(points) => changing::remove(points, vertex, moved),
        Thing::Constrained(points) => among::remove(points, vertex, moved),
        Thing::Mesh(_) => NOT_KEPT,
        Thing::Nothing => NOT_KEPT,
    }
}

/// Does what was left undone for want of memory. A whole triangulation stays as it is.
///
/// Returns 0; 2 if memory runs out again, and then what is done so far stays; 4 if no triangulation
/// is kept.
#[unsafe(no_mangle)]
pub extern "C" fn mesh_page_finish(kept: &mut MeshPageKept) -> u32
    ensures done { result ≡ 0 → Finishes (thing_in kept.old) (thing_in kept.new) }
    ensures no_memory { result ≡ 2 → StaysUnfinished (thing_in kept.old) (thing_in kept.new) }
    ensures none { (result ≡ 4) ↔ HasNone (thing_in kept.old) }
    ensures status { (result ≡ 0) ⊎ (result ≡ 2) ⊎ (result ≡ 4) }
    ensures same { result ≡ 4 → thing_in kept.new ≡ thing_in kept.old }
{
    if !kept.is_open {
        return NOT_KEPT;
    }
    match &mut kept.held.as_mut().thing {
        Thing::Delaunay(points) => changing::finish(points),
        Thing::Constrained(points) => among::finish(points),
        Thing::Mesh(_) => NOT_KEPT,
        Thing::Nothing => NOT_KEPT,
    }
}

/// Puts the corners of each triangle into the buffer, counterclockwise, by their vertices.
///
/// As many as fit are put there, from the front, and what lies behind them stays; `needed` is how many
/// there are. If the triangulation is whole, they are a Delaunay triangulation of its points, or one
/// that is Delaunay but for the constraints.
/// Returns 0 if all are there, and 1 if the buffer was short; 2 if there is no memory, and 4 if no
/// triangulation is kept: then the buffer stays, and `needed` is 0.
#[unsafe(no_mangle)]
pub extern "C" fn mesh_page_list_triangles(
    kept: &mut MeshPageKept,
    triangles: &mut [Triangle],
    needed: &mut u64,
) -> u32
    ensures triangles { result ≤ 1 → PutsTriangles triangles.old triangles.new needed.new (thing_in kept.old) }
    ensures delaunay { result ≤ 1 → HasTriangulation (thing_in kept.old) }
    ensures done { result ≡ 0 → needed.new ≤ length triangles.old }
    ensures short { result ≡ 1 → length triangles.old < needed.new }
    ensures refused { 2 ≤ result → (triangles.new ≡ triangles.old) × (needed.new ≡ 0) }
    ensures none { (result ≡ 4) ↔ HasNone (thing_in kept.old) }
    ensures status { (result ≤ 2) ⊎ (result ≡ 4) }
    ensures same { thing_in kept.new ≡ thing_in kept.old }
{
    *needed = 0;
    if !kept.is_open {
        return NOT_KEPT;
    }
    let desk = kept.held.as_mut();
    let heap = desk.heap;
    match &desk.thing {
        Thing::Delaunay(points) => listing::list_triangles(heap, points, triangles, needed),
        Thing::Constrained(points) => lists_among::list_triangles(heap, points, triangles, needed),
        Thing::Mesh(_) => NOT_KEPT,
        Thing::Nothing => NOT_KEPT,
    }
}

/// Finds a vertex that no other one is nearer to a point than, or 2^32 - 1 if there is no vertex. With
/// constraints it looks at each vertex.
///
/// Returns 0; 3 if a coordinate is out of range, 5 if the triangulation isn't whole, and 4 if none is
/// kept.
#[unsafe(no_mangle)]
pub extern "C" fn mesh_page_nearest(
    kept: &mut MeshPageKept,
    point: MeshPagePoint,
    vertex: &mut u32,
) -> u32
    ensures done { result ≡ 0 → TellsNearest point vertex.new (thing_in kept.old) }
    ensures none { (result ≡ 4) ↔ HasNone (thing_in kept.old) }
    ensures out_of_range { result ≡ 3 → IsFar point }
    ensures unfinished { result ≡ 5 → IsUnfinished (thing_in kept.old) }
    ensures status { (result ≡ 0) ⊎ ((3 ≤ result) × (result ≤ 5)) }
    ensures untold { result ≢ 0 → vertex.new ≡ vertex.old }
    ensures same { thing_in kept.new ≡ thing_in kept.old }
{
    if !kept.is_open {
        return NOT_KEPT;
    }
    match &kept.held.as_mut().thing {
        Thing::Delaunay(points) => listing::nearest(points, point, vertex),
        Thing::Constrained(points) => lists_among::nearest(points, point, vertex),
        Thing::Mesh(_) => NOT_KEPT,
        Thing::Nothing => NOT_KEPT,
    }
}
