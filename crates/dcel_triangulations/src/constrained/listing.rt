//! What a constrained triangulation has, as lists by number, in buffers: points, triangles,
//! neighbors, edges, hull and half edges.
//!
//! A list is put into a buffer whole, from the front, and what is behind it there stays. If it
//! doesn't fit, the status is SHORT, and the buffer stays; `needed` is how many items there are in
//! both cases. If there is no memory or no triangulation, the buffer stays, and `needed` is 0.

ghost use Rattle.std.specs.Prelude.{◌≡◌, ◌≢◌, ◌⊎◌, ◌↔◌, None};
ghost use Rattle.dcel_triangulations.specs.Calls.{IsSo};
ghost use Rattle.dcel_triangulations.specs.Lists.{IsPut};
ghost use Rattle.dcel_triangulations.specs.constrained.Calls.{IsWhole, kept_in};
ghost use Rattle.dcel_triangulations.specs.constrained.Lists.{IsConstrainedTriangulation, edges_of, half_edges_of, hull_of, neighbors_of, points_of, triangles_of};

use crate::buffers::{DcelAcross, put_items, put_neighbors, put_points};
use crate::constrained::triangulation::DcelConstrained;
use crate::links::{DcelHalfEdge, put_links};
use crate::points::DcelPoint;
use crate::status::{NO_MESH, OUT_OF_MEMORY};
use dcel_delaunay::lists::Ends;
use dcel_delaunay::{Triangle, lists};
use std::alloc::Global;

/// Puts the point of each vertex into the buffer, in the order of their numbers.
#[unsafe(no_mangle)]
pub extern "C" fn dcel_constrained_points(
    alloc: Global,
    triangulation: &mut DcelConstrained,
    points: &mut [DcelPoint],
    needed: &mut u64,
) -> u32
    ensures points { result ≢ 20 → result ≢ 21 → IsSo (λ t. IsPut (points_of t) points.old points.new needed.new result) (kept_in triangulation.old) }
    ensures refused { (result ≡ 20) ⊎ (result ≡ 21) → (points.new ≡ points.old) × (needed.new ≡ 0) }
    ensures none { (result ≡ 21) ↔ (kept_in triangulation.old ≡ None) }
    ensures same { kept_in triangulation.new ≡ kept_in triangulation.old }
{
    *needed = 0;
    if !triangulation.is_open {
        return NO_MESH;
    }
    match lists::points(alloc, triangulation.held.as_mut().dcel()) {
        Ok(list) => put_points(&list, points, needed),
        Err(_) => OUT_OF_MEMORY,
    }
}

/// Puts the corners of each triangle into the buffer, counterclockwise, by their vertices.
///
/// If the triangulation is whole, they are Delaunay but for the constraints.
#[unsafe(no_mangle)]
pub extern "C" fn dcel_constrained_triangles(
    alloc: Global,
    triangulation: &mut DcelConstrained,
    triangles: &mut [Triangle],
    needed: &mut u64,
) -> u32
    ensures triangles { result ≢ 20 → result ≢ 21 → IsSo (λ t. IsPut (triangles_of t) triangles.old triangles.new needed.new result) (kept_in triangulation.old) }
    ensures constrained { result ≢ 20 → result ≢ 21 → IsSo (λ t. IsWhole t → IsConstrainedTriangulation t) (kept_in triangulation.old) }
    ensures refused { (result ≡ 20) ⊎ (result ≡ 21) → (triangles.new ≡ triangles.old) × (needed.new ≡ 0) }
    ensures none { (result ≡ 21) ↔ (kept_in triangulation.old ≡ None) }
    ensures same { kept_in triangulation.new ≡ kept_in triangulation.old }
{
    *needed = 0;
    if !triangulation.is_open {
        return NO_MESH;
    }
    match lists::triangles(alloc, triangulation.held.as_mut().dcel()) {
        Ok(list) => put_items(&list, triangles, needed),
        Err(_) => OUT_OF_MEMORY,
    }
}

/// Puts for each triangle those across from its corners into the buffer. The triangles and their
/// corners are in the order of [`dcel_constrained_triangles`].
#[unsafe(no_mangle)]
pub extern "C" fn dcel_constrained_neighbors(
    alloc: Global,
    triangulation: &mut DcelConstrained,
    across: &mut [DcelAcross],
    needed: &mut u64,
) -> u32
    ensures neighbors { result ≢ 20 → result ≢ 21 → IsSo (λ t. IsPut (neighbors_of t) across.old across.new needed.new result) (kept_in triangulation.old) }
    ensures refused { (result ≡ 20) ⊎ (result ≡ 21) → (across.new ≡ across.old) × (needed.new ≡ 0) }
    ensures none { (result ≡ 21) ↔ (kept_in triangulation.old ≡ None) }
    ensures same { kept_in triangulation.new ≡ kept_in triangulation.old }
{
    *needed = 0;
    if !triangulation.is_open {
        return NO_MESH;
    }
    match lists::neighbors(alloc, triangulation.held.as_mut().dcel()) {
        Ok(list) => put_neighbors(&list, across, needed),
        Err(_) => OUT_OF_MEMORY,
    }
}

/// Puts the ends of each edge into the buffer, in the order of their numbers.
#[unsafe(no_mangle)]
pub extern "C" fn dcel_constrained_edges(
    alloc: Global,
    triangulation: &mut DcelConstrained,
    edges: &mut [Ends],
    needed: &mut u64,
) -> u32
    ensures edges { result ≢ 20 → result ≢ 21 → IsSo (λ t. IsPut (edges_of t) edges.old edges.new needed.new result) (kept_in triangulation.old) }
    ensures refused { (result ≡ 20) ⊎ (result ≡ 21) → (edges.new ≡ edges.old) × (needed.new ≡ 0) }
    ensures none { (result ≡ 21) ↔ (kept_in triangulation.old ≡ None) }
    ensures same { kept_in triangulation.new ≡ kept_in triangulation.old }
{
    *needed = 0;
    if !triangulation.is_open {
        return NO_MESH;
    }
    match lists::edges(alloc, triangulation.held.as_mut().dcel()) {
        Ok(list) => put_items(&list, edges, needed),
        Err(_) => OUT_OF_MEMORY,
    }
}

/// Puts the vertices of the convex hull into the buffer, counterclockwise, those on its sides too.
///
/// Along a line it goes there and back, so each vertex comes twice but the ends. A vertex alone is
/// the hull.
#[unsafe(no_mangle)]
pub extern "C" fn dcel_constrained_hull(
    alloc: Global,
    triangulation: &mut DcelConstrained,
    vertices: &mut [u32],
    needed: &mut u64,
) -> u32
    ensures hull { result ≢ 20 → result ≢ 21 → IsSo (λ t. IsPut (hull_of t) vertices.old vertices.new needed.new result) (kept_in triangulation.old) }
    ensures refused { (result ≡ 20) ⊎ (result ≡ 21) → (vertices.new ≡ vertices.old) × (needed.new ≡ 0) }
    ensures none { (result ≡ 21) ↔ (kept_in triangulation.old ≡ None) }
    ensures same { kept_in triangulation.new ≡ kept_in triangulation.old }
{
    *needed = 0;
    if !triangulation.is_open {
        return NO_MESH;
    }
    match lists::hull(alloc, triangulation.held.as_mut().dcel()) {
        Ok(list) => put_items(&list, vertices, needed),
        Err(_) => OUT_OF_MEMORY,
    }
}

/// Puts the links of each half edge into the buffer at its number.
#[unsafe(no_mangle)]
pub extern "C" fn dcel_constrained_directed_edges(
    triangulation: &mut DcelConstrained,
    half_edges: &mut [DcelHalfEdge],
    needed: &mut u64,
) -> u32
    ensures links { result ≢ 21 → IsSo (λ t. IsPut (half_edges_of t) half_edges.old half_edges.new needed.new result) (kept_in triangulation.old) }
    ensures none { (result ≡ 21) ↔ (kept_in triangulation.old ≡ None) }
    ensures nothing { result ≡ 21 → (half_edges.new ≡ half_edges.old) × (needed.new ≡ 0) }
    ensures same { kept_in triangulation.new ≡ kept_in triangulation.old }
{
    *needed = 0;
    if !triangulation.is_open {
        return NO_MESH;
    }
    put_links(triangulation.held.as_mut().dcel(), half_edges, needed)
}
