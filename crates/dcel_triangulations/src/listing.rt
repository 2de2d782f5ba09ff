//! What a triangulation has, as lists by number, in buffers: points, triangles, neighbors, edges and
//! hull.
//!
//! A list is put into a buffer whole, from the front, and what is behind it there stays. If it
//! doesn't fit, the status is SHORT, and the buffer stays; `needed` is how many items there are in
//! both cases. If there is no memory or no triangulation, the buffer stays, and `needed` is 0.

ghost use Rattle.std.specs.Prelude.{◌≡◌, ◌≢◌, ◌↔◌, ◌⊎◌, None};
ghost use Rattle.dcel_triangulations.specs.Calls.{IsSo, IsWhole, kept_in};
ghost use Rattle.dcel_triangulations.specs.Lists.{IsPut, ListsDelaunayTriangles, edges_of, hull_of, neighbors_of, points_of, triangles_of};

use crate::buffers::{DcelAcross, put_items, put_neighbors, put_points};
use crate::points::DcelPoint;
use crate::status::{NO_MESH, OUT_OF_MEMORY};
use crate::triangulation::DcelTriangulation;
use dcel_delaunay::lists::Ends;
use dcel_delaunay::{Triangle, lists};
use spade_dcel::laws::every_mesh;
use std::alloc::Global;

/// Puts the point of each vertex into the buffer, in the order of their numbers.
#[unsafe(no_mangle)]
pub extern "C" fn dcel_triangulation_points(
    alloc: Global,
    triangulation: &mut DcelTriangulation,
    points: &mut [DcelPoint],
    needed: &mut u64,
) -> u32
    ensures points { result ≢ 20 → result ≢ 21 → IsSo (λ t. IsPut (points_of t) points.old points.new needed.new result) (kept_in triangulation.old) }
    ensures refused { (result ≡ 20) ⊎ (result ≡ 21) → (points.new ≡ points.old) × (needed.new ≡ 0) }
    ensures none { (result ≡ 21) ↔ (kept_in triangulation.old ≡ None) }
    ensures same { kept_in triangulation.new ≡ kept_in triangulation.old }
{
    *needed = 0;
    if !triangulation.is_open {
        return NO_MESH;
    }
    match lists::points(alloc, triangulation.held.as_mut().dcel()) {
        Ok(list) => put_points(&list, points, needed),
        Err(_) => OUT_OF_MEMORY,
    }
}

/// Puts the corners of each triangle into the buffer, counterclockwise, by their vertices.
///
/// If the triangulation is whole, they are a Delaunay triangulation of its points.
#[unsafe(no_mangle)]
pub extern "C" fn dcel_triangulation_triangles(
    alloc: Global,
    triangulation: &mut DcelTriangulation,
    triangles: &mut [Triangle],
    needed: &mut u64,
) -> u32
    ensures triangles { result ≢ 20 → result ≢ 21 → IsSo (λ t. IsPut (triangles_of t) triangles.old triangles.new needed.new result) (kept_in triangulation.old) }
    ensures delaunay { result ≢ 20 → result ≢ 21 → IsSo (λ t. IsWhole t → ListsDelaunayTriangles t) (kept_in triangulation.old) }
    ensures refused { (result ≡ 20) ⊎ (result ≡ 21) → (triangles.new ≡ triangles.old) × (needed.new ≡ 0) }
    ensures none { (result ≡ 21) ↔ (kept_in triangulation.old ≡ None) }
    ensures same { kept_in triangulation.new ≡ kept_in triangulation.old }
{
    *needed = 0;
    if !triangulation.is_open {
        return NO_MESH;
    }
    let mesh = triangulation.held.as_mut().dcel();
    every_mesh(mesh);
    match lists::triangles(alloc, mesh) {
        Ok(list) => put_items(&list, triangles, needed),
        Err(_) => OUT_OF_MEMORY,
    }
}

/// Puts for each triangle those across from its corners into the buffer. The triangles and their
/// corners are in the order of [`dcel_triangulation_triangles`].
#[unsafe(no_mangle)]
pub extern "C" fn dcel_triangulation_neighbors(
    alloc: Global,
    triangulation: &mut DcelTriangulation,
    across: &mut [DcelAcross],
    needed: &mut u64,
) -> u32
    ensures neighbors { result ≢ 20 → result ≢ 21 → IsSo (λ t. IsPut (neighbors_of t) across.old across.new needed.new result) (kept_in triangulation.old) }
    ensures refused { (result ≡ 20) ⊎ (result ≡ 21) → (across.new ≡ across.old) × (needed.new ≡ 0) }
    ensures none { (result ≡ 21) ↔ (kept_in triangulation.old ≡ None) }
    ensures same { kept_in triangulation.new ≡ kept_in triangulation.old }
{
    *needed = 0;
    if !triangulation.is_open {
        return NO_MESH;
    }
    match lists::neighbors(alloc, triangulation.held.as_mut().dcel()) {
        Ok(list) => put_neighbors(&list, across, needed),
        Err(_) => OUT_OF_MEMORY,
    }
}

/// Puts the ends of each edge into the buffer, in the order of their numbers.
#[unsafe(no_mangle)]
pub extern "C" fn dcel_triangulation_edges(
    alloc: Global,
    triangulation: &mut DcelTriangulation,
    edges: &mut [Ends],
    needed: &mut u64,
) -> u32
    ensures edges { result ≢ 20 → result ≢ 21 → IsSo (λ t. IsPut (edges_of t) edges.old edges.new needed.new result) (kept_in triangulation.old) }
    ensures refused { (result ≡ 20) ⊎ (result ≡ 21) → (edges.new ≡ edges.old) × (needed.new ≡ 0) }
    ensures none { (result ≡ 21) ↔ (kept_in triangulation.old ≡ None) }
    ensures same { kept_in triangulation.new ≡ kept_in triangulation.old }
{
    *needed = 0;
    if !triangulation.is_open {
        return NO_MESH;
    }
    match lists::edges(alloc, triangulation.held.as_mut().dcel()) {
        Ok(list) => put_items(&list, edges, needed),
        Err(_) => OUT_OF_MEMORY,
    }
}

/// Puts the vertices of the convex hull into the buffer, counterclockwise, those on its sides too.
///
/// Along a line it goes there and back, so each vertex comes twice but the ends. A vertex alone is
/// the hull.
#[unsafe(no_mangle)]
pub extern "C" fn dcel_triangulation_hull(
    alloc: Global,
    triangulation: &mut DcelTriangulation,
    vertices: &mut [u32],
    needed: &mut u64,
) -> u32
    ensures hull { result ≢ 20 → result ≢ 21 → IsSo (λ t. IsPut (hull_of t) vertices.old vertices.new needed.new result) (kept_in triangulation.old) }
    ensures refused { (result ≡ 20) ⊎ (result ≡ 21) → (vertices.new ≡ vertices.old) × (needed.new ≡ 0) }
    ensures none { (result ≡ 21) ↔ (kept_in triangulation.old ≡ None) }
    ensures same { kept_in triangulation.new ≡ kept_in triangulation.old }
{
    *needed = 0;
    if !triangulation.is_open {
        return NO_MESH;
    }
    match lists::hull(alloc, triangulation.held.as_mut().dcel()) {
        Ok(list) => put_items(&list, vertices, needed),
        Err(_) => OUT_OF_MEMORY,
    }
}
