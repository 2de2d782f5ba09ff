//! The constraints of a triangulation, and what is inside of them, in buffers, as lists are put there.

ghost use Rattle.std.specs.Prelude.{◌≡◌, ◌≢◌, ◌⊎◌, ◌↔◌, IfOk, None, map};
ghost use Rattle.dcel_triangulations.specs.Calls.{IsSo};
ghost use Rattle.dcel_triangulations.specs.Lists.{IsPut};
ghost use Rattle.dcel_triangulations.specs.constrained.Calls.{kept_in};
ghost use Rattle.dcel_triangulations.specs.constrained.Lists.{PutsDepths, constraints_of, depth_told};

use crate::buffers::put_items;
use crate::constrained::held::Constrained;
use crate::constrained::triangulation::DcelConstrained;
use crate::status::{DONE, NO_MESH, OUT_OF_MEMORY, SHORT};
use dcel_delaunay::lists;
use dcel_delaunay::lists::Ends;
use spade_dcel::handles::FixedUndirectedEdgeHandle;
use spade_dcel::laws::every_mesh;
use std::alloc::{AllocError, Global};

/// Puts the ends of each edge that is a constraint into the buffer, in the order of their numbers.
#[unsafe(no_mangle)]
pub extern "C" fn dcel_constrained_constraints(
    alloc: Global,
    triangulation: &mut DcelConstrained,
    constraints: &mut [Ends],
    needed: &mut u64,
) -> u32
    ensures constraints { result ≢ 20 → result ≢ 21 → IsSo (λ t. IsPut (constraints_of t) constraints.old constraints.new needed.new result) (kept_in triangulation.old) }
    ensures refused { (result ≡ 20) ⊎ (result ≡ 21) → (constraints.new ≡ constraints.old) × (needed.new ≡ 0) }
    ensures none { (result ≡ 21) ↔ (kept_in triangulation.old ≡ None) }
    ensures same { kept_in triangulation.new ≡ kept_in triangulation.old }
{
    *needed = 0;
    if !triangulation.is_open {
        return NO_MESH;
    }
    match marked_edges(alloc, triangulation.held.as_mut()) {
        Ok(list) => put_items(&list, constraints, needed),
        Err(_) => OUT_OF_MEMORY,
    }
}

/// Returns the ends of the edges that are constraints.
fn marked_edges(alloc: Global, kept: &Constrained) -> Result<Vec<Ends, Global>, AllocError>
    ensures { IfOk result (λ list. list.items ≡ constraints_of kept.now) }
{
    let mesh = kept.dcel();
    every_mesh(mesh);
    let edges = lists::edges(alloc, mesh)?;
    let mut list = Vec::new(alloc);
    let mut number = 0;
    while number < edges.len() {
        if kept.is_constraint(FixedUndirectedEdgeHandle::new(number)) {
            list.push(edges[number])?;
        }
        number += 1;
    }
    Ok(list)
}

/// Puts the depth of each triangle into the buffer: the least number of constraints that a way from
/// the outer face to it crosses. What is more than 2^32 - 1 is reported as that. The triangles are in
/// the order of [`dcel_constrained_triangles`](crate::dcel_constrained_triangles).
#[unsafe(no_mangle)]
pub extern "C" fn dcel_constrained_regions(
    alloc: Global,
    triangulation: &mut DcelConstrained,
    depths: &mut [u32],
    needed: &mut u64,
) -> u32
    ensures depths { result ≢ 20 → result ≢ 21 → IsSo (PutsDepths depths.old depths.new needed.new result) (kept_in triangulation.old) }
    ensures refused { (result ≡ 20) ⊎ (result ≡ 21) → (depths.new ≡ depths.old) × (needed.new ≡ 0) }
    ensures none { (result ≡ 21) ↔ (kept_in triangulation.old ≡ None) }
    ensures same { kept_in triangulation.new ≡ kept_in triangulation.old }
{
    *needed = 0;
    if !triangulation.is_open {
        return NO_MESH;
    }
    let kept = triangulation.held.as_mut();
    every_mesh(kept.dcel());
    match kept.regions(alloc) {
        Ok(list) => put_depths(&list[1..], depths, needed),
        Err(_) => OUT_OF_MEMORY,
    }
}

/// Puts depths into the buffer, if they fit.
fn put_depths(list: &[usize], buffer: &mut [u32], needed: &mut u64) -> u32
    ensures { IsPut (map depth_told list.now) buffer.old buffer.new needed.new result }
{
    *needed = list.len() as u64;
    if buffer.len() < list.len() {
        return SHORT;
    }
    let mut at = 0;
    while at < list.len() {
        buffer[at] = tell_depth(list[at]);
        at += 1;
    }
    DONE
}

/// Returns a depth as C has it.
fn tell_depth(depth: usize) -> u32
    ensures { result ≡ depth_told depth }
{
    depth.min(u32::MAX as usize) as u32
}
