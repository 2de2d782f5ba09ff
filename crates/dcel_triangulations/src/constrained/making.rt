//! Constrained triangulations made of others.

ghost use Rattle.std.specs.Prelude.{◌≡◌, ◌≢◌, ◌≤◌, ◌⊎◌, ◌↔◌, None};
ghost use Rattle.dcel_triangulations.specs.Calls as delaunay;
ghost use Rattle.dcel_triangulations.specs.Calls.{AreSo, IsSo};
ghost use Rattle.dcel_triangulations.specs.constrained.Calls.{kept_in};
ghost use Rattle.dcel_triangulations.specs.constrained.Wholes.{IsCopy, IsMadeOf};

use crate::constrained::triangulation::DcelConstrained;
use crate::constrained::whole::keep;
use crate::status::{NO_MESH, OUT_OF_MEMORY, UNFINISHED};
use crate::triangulation::DcelTriangulation;
use dcel_constrained::ConstrainedTriangulation;
use std::alloc::Global;

/// Makes a triangulation with the same mesh and the same constraints, in memory of its own. One that
/// was kept there before is freed. It is whole if the other one is.
#[unsafe(no_mangle)]
pub extern "C" fn dcel_constrained_clone(
    alloc: Global,
    from: &mut DcelConstrained,
    to: &mut DcelConstrained,
) -> u32
    ensures done { result ≡ 0 → AreSo IsCopy (kept_in from.old) (kept_in to.new) }
    ensures refused { result ≢ 0 → kept_in to.new ≡ kept_in to.old }
    ensures none { (result ≡ 21) ↔ (kept_in from.old ≡ None) }
    ensures status { (result ≡ 0) ⊎ ((20 ≤ result) × (result ≤ 21)) }
    ensures same { kept_in from.new ≡ kept_in from.old }
{
    if !from.is_open {
        return NO_MESH;
    }
    match from.held.as_mut().try_clone(alloc) {
        Err(_) => OUT_OF_MEMORY,
        Ok(made) => keep(alloc, to, made),
    }
}

/// Makes a triangulation with the vertices, edges and triangles of a Delaunay triangulation, and no
/// constraint, in memory of its own. One that was kept there before is freed.
///
/// If the Delaunay triangulation isn't whole, the status is UNFINISHED.
#[unsafe(no_mangle)]
pub extern "C" fn dcel_constrained_from_triangulation(
    alloc: Global,
    from: &mut DcelTriangulation,
    to: &mut DcelConstrained,
) -> u32
    ensures done { result ≡ 0 → AreSo IsMadeOf (delaunay.kept_in from.old) (kept_in to.new) }
    ensures refused { result ≢ 0 → kept_in to.new ≡ kept_in to.old }
    ensures none { (result ≡ 21) ↔ (delaunay.kept_in from.old ≡ None) }
    ensures unfinished { result ≡ 25 → IsSo (λ t. ¬ delaunay.IsWhole t) (delaunay.kept_in from.old) }
    ensures status { (result ≡ 0) ⊎ ((20 ≤ result) × (result ≤ 21)) ⊎ (result ≡ 25) }
    ensures same { delaunay.kept_in from.new ≡ delaunay.kept_in from.old }
{
    if !from.is_open {
        return NO_MESH;
    }
    let points = from.held.as_mut();
    if !points.is_whole() {
        return UNFINISHED;
    }
    match ConstrainedTriangulation::from_triangulation(points, alloc) {
        Err(_) => OUT_OF_MEMORY,
        Ok(made) => keep(alloc, to, made),
    }
}
