//! What a constrained triangulation has, as lists in buffers, and where points are in it.

ghost use Rattle.std.specs.Prelude.{◌≡◌, ◌≢◌, ◌⊎◌, ◌≤◌, ◌<◌, ℕ, pos, IfNone, IfOk, IfSome, length};
ghost use Rattle.spade_dcel.specs.Handles.{mesh_behind, number_of};
ghost use Rattle.dcel_constrained.specs.Constrained.{marked_mesh};
ghost use Rattle.dcel_maps.specs.Removals.{Closed};
ghost use Rattle.dcel_plane.specs.Plane.{point_at};
ghost use Rattle.dcel_plane.specs.location.Nearest.{IsNearest};
ghost use Rattle.dcel_predicates.specs.Determinants.{squared_distance_of};
ghost use Rattle.mesh_page.specs.Given.{IsFar};
ghost use Rattle.mesh_page.specs.Keeping.{IsWholeMarked};
ghost use Rattle.mesh_page.specs.Listing.{IsConstrainedTriangulation, IsNearestTo, IsPut, constraints_of, triangles_of};

use crate::delaunay::listing::tell_vertex;
use crate::desk::Constrained;
use crate::points::{MeshPagePoint, point_of};
use crate::status::{DONE, NO_MEMORY, OUT_OF_RANGE, UNFINISHED};
use dcel_constrained::{ConstrainedMesh, Mark};
use dcel_delaunay::lists::Ends;
use dcel_delaunay::{Point, Triangle, lists};
use dcel_exports::put;
use dcel_planar::Vertex;
use lent_heap::Heap;
use spade_dcel::handles::{FixedUndirectedEdgeHandle, FixedVertexHandle};
use spade_dcel::laws::every_mesh;
use std::alloc::{AllocError, Allocator};

/// Puts the corners of each triangle into the buffer.
pub(crate) fn list_triangles(
    heap: &'static Heap,
    points: &Constrained,
    triangles: &mut [Triangle],
    needed: &mut u64,
) -> u32
    ensures triangles { result ≤ 1 → IsPut (triangles_of (marked_mesh points.now)) triangles.old triangles.new needed.new }
    ensures constrained { result ≤ 1 → IsWholeMarked points.now → IsConstrainedTriangulation points.now }
    ensures done { result ≡ 0 → needed.new ≤ length triangles.old }
    ensures short { result ≡ 1 → length triangles.old < needed.new }
    ensures refused { result ≡ 2 → (triangles.new ≡ triangles.old) × (needed.new ≡ 0) }
    ensures no_other { result ≤ 2 }
{
    *needed = 0;
    match lists::triangles(heap, points.dcel()) {
        Ok(list) => put(&list, triangles, needed),
        Err(_) => NO_MEMORY,
    }
}

/// Puts the ends of each edge that is a constraint into the buffer.
pub(crate) fn list_constraints(
    heap: &'static Heap,
    points: &Constrained,
    constraints: &mut [Ends],
    needed: &mut u64,
) -> u32
    ensures constraints { result ≤ 1 → IsPut (constraints_of points.now) constraints.old constraints.new needed.new }
    ensures done { result ≡ 0 → needed.new ≤ length constraints.old }
    ensures short { result ≡ 1 → length constraints.old < needed.new }
    ensures refused { result ≡ 2 → (constraints.new ≡ constraints.old) × (needed.new ≡ 0) }
    ensures no_other { result ≤ 2 }
{
    *needed = 0;
    match marked_edges(heap, points) {
        Ok(list) => put(&list, constraints, needed),
        Err(_) => NO_MEMORY,
    }
}

/// Returns the ends of the edges that are constraints.
fn marked_edges(
    heap: &'static Heap,
    points: &Constrained,
) -> Result<Vec<Ends, &'static Heap>, AllocError>
    ensures { IfOk result (λ list. list.items ≡ constraints_of points.now) }
{
    let mesh = points.dcel();
    every_mesh(mesh);
    let edges = lists::edges(heap, mesh)?;
    let mut list = Vec::new(heap);
    let mut number = 0;
    while number < edges.len() {
        if points.is_constraint(FixedUndirectedEdgeHandle::new(number)) {
            list.push(edges[number])?;
        }
        number += 1;
    }
    Ok(list)
}

/// Finds a vertex that no other one is nearer to a point than, or 2^32 - 1 if there is none.
pub(crate) fn nearest(points: &Constrained, given: MeshPagePoint, vertex: &mut u32) -> u32
    ensures done { result ≡ 0 → IsNearestTo given vertex.new (marked_mesh points.now) }
    ensures out_of_range { result ≡ 3 → IsFar given }
    ensures unfinished { result ≡ 5 → ¬ IsWholeMarked points.now }
    ensures status { (result ≡ 0) ⊎ (result ≡ 3) ⊎ (result ≡ 5) }
    ensures untold { result ≢ 0 → vertex.new ≡ vertex.old }
{
    let Some(point) = point_of(given) else {
        return OUT_OF_RANGE;
    };
    if !points.is_whole() {
        return UNFINISHED;
    }
    *vertex = tell_vertex(nearest_of_all(points.dcel(), point));
    DONE
}

/// Returns the vertex nearest to a point, or `None` if there is no vertex. It looks at each.
fn nearest_of_all<A: Allocator>(
    mesh: &ConstrainedMesh<A>,
    point: Point,
) -> Option<FixedVertexHandle>
    requires { mesh.now.shape.removal ≡ Closed }
    ensures vertex { IfSome result (λ v. v < mesh.now.shape.vertices) }
    ensures nearest { IfSome result (IsNearest (point_at mesh.now) mesh.now.shape point) }
    ensures none { IfNone result (mesh.now.shape.vertices ≡ 0) }
{
    every_mesh(mesh);
    let count = mesh.num_vertices();
    if count == 0 {
        return None;
    }
    let mut least = FixedVertexHandle::new(0);
    let mut distance = distance_of(mesh, least, point);
    let mut number = 1;
    while number < count {
        let vertex = FixedVertexHandle::new(number);
        let other = distance_of(mesh, vertex, point);
        if other < distance {
            least = vertex;
            distance = other;
        }
        number += 1;
    }
    Some(least)
}

/// Returns the square of the distance from a vertex to a point.
fn distance_of<A: Allocator>(
    mesh: &ConstrainedMesh<A>,
    vertex: FixedVertexHandle,
    point: Point,
) -> u128
    requires { vertex < mesh.now.shape.vertices }
    ensures { pos result ≡ squared_distance_of (point_at mesh.now vertex) point }
{
    squared_distance(mesh.vertex(vertex), point)
}

/// Returns the square of the distance from a vertex to a point.
fn squared_distance<A: Allocator>(vertex: Vertex<'_, Mark, A>, point: Point) -> u128
    ensures { pos result ≡ squared_distance_of (point_at (mesh_behind vertex.entry) (number_of vertex.entry)) point }
{
    let at = dcel_planar::point_of(vertex);
    let x = at.x.abs_diff(point.x) as u128;
    let y = at.y.abs_diff(point.y) as u128;
    x * x + y * y
}
