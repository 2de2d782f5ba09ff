//! What a triangulation has, as lists in buffers, and where points are in it.

ghost use Rattle.std.specs.Prelude.{◌≡◌, ◌≢◌, ◌⊎◌, ◌≤◌, ◌<◌, length};
ghost use Rattle.dcel_delaunay.specs.Triangulated.{mesh_in};
ghost use Rattle.mesh_page.specs.Given.{IsFar};
ghost use Rattle.mesh_page.specs.Keeping.{IsWhole};
ghost use Rattle.mesh_page.specs.Listing.{IsNearestTo, IsPut, ListsDelaunayTriangles, triangles_of, vertex_told};

use crate::desk::Points;
use crate::points::{MeshPagePoint, point_of};
use crate::status::{DONE, NO_MEMORY, OUT_OF_RANGE, UNFINISHED};
use dcel_delaunay::{Triangle, lists};
use dcel_exports::put;
use lent_heap::Heap;
use spade_dcel::handles::FixedVertexHandle;
use spade_dcel::laws::every_mesh;

/// Puts the corners of each triangle into the buffer.
pub(crate) fn list_triangles(
    heap: &'static Heap,
    points: &Points,
    triangles: &mut [Triangle],
    needed: &mut u64,
) -> u32
    ensures triangles { result ≤ 1 → IsPut (triangles_of (mesh_in points.now)) triangles.old triangles.new needed.new }
    ensures delaunay { result ≤ 1 → IsWhole points.now → ListsDelaunayTriangles points.now }
    ensures done { result ≡ 0 → needed.new ≤ length triangles.old }
    ensures short { result ≡ 1 → length triangles.old < needed.new }
    ensures refused { result ≡ 2 → (triangles.new ≡ triangles.old) × (needed.new ≡ 0) }
    ensures no_other { result ≤ 2 }
{
    *needed = 0;
    let mesh = points.dcel();
    every_mesh(mesh);
    match lists::triangles(heap, mesh) {
        Ok(list) => put(&list, triangles, needed),
        Err(_) => NO_MEMORY,
    }
}

/// Finds a vertex that no other one is nearer to a point than, or 2^32 - 1 if there is none.
pub(crate) fn nearest(points: &Points, given: MeshPagePoint, vertex: &mut u32) -> u32
    ensures done { result ≡ 0 → IsNearestTo given vertex.new (mesh_in points.now) }
    ensures out_of_range { result ≡ 3 → IsFar given }
    ensures unfinished { result ≡ 5 → ¬ IsWhole points.now }
    ensures status { (result ≡ 0) ⊎ (result ≡ 3) ⊎ (result ≡ 5) }
    ensures untold { result ≢ 0 → vertex.new ≡ vertex.old }
{
    let Some(point) = point_of(given) else {
        return OUT_OF_RANGE;
    };
    if !points.is_whole() {
        return UNFINISHED;
    }
    *vertex = tell_vertex(points.nearest_vertex(point));
    DONE
}

/// Returns the number of a vertex, or 2^32 - 1 if there is none.
pub(crate) fn tell_vertex(vertex: Option<FixedVertexHandle>) -> u32
    ensures { result ≡ vertex_told vertex }
{
    match vertex {
        Some(vertex) => vertex.index() as u32,
        None => u32::MAX,
    }
}
