//! Whole constrained triangulations: made, counted, finished and freed.

ghost use Rattle.std.specs.Prelude.{◌≡◌, ◌≢◌, ◌≤◌, ◌⊎◌, ◌↔◌, IsTrue, None, Some};
ghost use Rattle.dcel_triangulations.specs.Calls.{AreSo, IsSo};
ghost use Rattle.dcel_triangulations.specs.constrained.Calls.{IsWhole, kept_in};
ghost use Rattle.dcel_triangulations.specs.constrained.Wholes.{Finishes, HasNoPoints, StaysUnfinished, constraints_in, edges_in, triangles_in, vertices_in};

use crate::constrained::held::{Constrained, Held};
use crate::constrained::triangulation::DcelConstrained;
use crate::status::{DONE, NO_MESH, OUT_OF_MEMORY};
use dcel_constrained::ConstrainedTriangulation;
use spade_dcel::laws::every_mesh;
use std::alloc::Global;

/// Keeps this triangulation there, and frees the one that was kept. If there is no memory, nothing
/// changes.
pub(crate) fn keep(alloc: Global, triangulation: &mut DcelConstrained, made: Constrained) -> u32
    ensures done { result ≡ 0 → kept_in triangulation.new ≡ Some made }
    ensures no_memory { result ≢ 0 → (result ≡ 20) × (kept_in triangulation.new ≡ kept_in triangulation.old) }
{
    match Box::new(alloc, made) {
        Err(_) => OUT_OF_MEMORY,
        Ok(kept) => {
            *triangulation = DcelConstrained {
                held: Held::of(kept),
                is_open: true,
            };
            DONE
        }
    }
}

/// Makes a triangulation of no points. One that was kept there before is freed.
#[unsafe(no_mangle)]
pub extern "C" fn dcel_constrained_new(alloc: Global, triangulation: &mut DcelConstrained) -> u32
    ensures done { result ≡ 0 → IsSo HasNoPoints (kept_in triangulation.new) }
    ensures no_memory { result ≢ 0 → (result ≡ 20) × (kept_in triangulation.new ≡ kept_in triangulation.old) }
{
    match ConstrainedTriangulation::new(alloc) {
        Err(_) => OUT_OF_MEMORY,
        Ok(made) => keep(alloc, triangulation, made),
    }
}

/// Frees the triangulation, if there is one.
#[unsafe(no_mangle)]
pub extern "C" fn dcel_constrained_free(alloc: Global, triangulation: &mut DcelConstrained)
    ensures { kept_in triangulation.new ≡ None }
{
    *triangulation = DcelConstrained {
        held: Held::empty(alloc),
        is_open: false,
    };
}

/// Returns the number of vertices, or 0 if there is no triangulation.
#[unsafe(no_mangle)]
pub extern "C" fn dcel_constrained_num_vertices(triangulation: &mut DcelConstrained) -> u64
    ensures count { result ≡ vertices_in (kept_in triangulation.old) }
    ensures same { kept_in triangulation.new ≡ kept_in triangulation.old }
{
    if !triangulation.is_open {
        return 0;
    }
    triangulation.held.as_mut().dcel().num_vertices() as u64
}

/// Returns the number of edges, or 0 if there is no triangulation.
#[unsafe(no_mangle)]
pub extern "C" fn dcel_constrained_num_edges(triangulation: &mut DcelConstrained) -> u64
    ensures count { result ≡ edges_in (kept_in triangulation.old) }
    ensures same { kept_in triangulation.new ≡ kept_in triangulation.old }
{
    if !triangulation.is_open {
        return 0;
    }
    triangulation.held.as_mut().dcel().num_undirected_edges() as u64
}

/// Returns the number of triangles, or 0 if there is no triangulation.
#[unsafe(no_mangle)]
pub extern "C" fn dcel_constrained_num_triangles(triangulation: &mut DcelConstrained) -> u64
    ensures count { result ≡ triangles_in (kept_in triangulation.old) }
    ensures same { kept_in triangulation.new ≡ kept_in triangulation.old }
{
    if !triangulation.is_open {
        return 0;
    }
    let dcel = triangulation.held.as_mut().dcel();
    every_mesh(dcel);
    (dcel.num_faces() - 1) as u64
}

/// Returns the number of edges that are constraints, or 0 if there is no triangulation. It looks at
/// each edge.
#[unsafe(no_mangle)]
pub extern "C" fn dcel_constrained_num_constraints(triangulation: &mut DcelConstrained) -> u64
    ensures count { result ≡ constraints_in (kept_in triangulation.old) }
    ensures same { kept_in triangulation.new ≡ kept_in triangulation.old }
{
    if !triangulation.is_open {
        return 0;
    }
    triangulation.held.as_mut().num_constraints() as u64
}

/// Returns whether there is a triangulation, and nothing in it is left undone for want of memory.
#[unsafe(no_mangle)]
pub extern "C" fn dcel_constrained_is_whole(triangulation: &mut DcelConstrained) -> bool
    ensures whole { IsTrue result ↔ IsSo IsWhole (kept_in triangulation.old) }
    ensures same { kept_in triangulation.new ≡ kept_in triangulation.old }
{
    if !triangulation.is_open {
        return false;
    }
    triangulation.held.as_mut().is_whole()
}

/// Does what was left undone for want of memory. A whole triangulation stays as it is.
///
/// If memory runs out again, what is done so far stays. Constraints stay in any case.
#[unsafe(no_mangle)]
pub extern "C" fn dcel_constrained_finish(triangulation: &mut DcelConstrained) -> u32
    ensures done { result ≡ 0 → AreSo Finishes (kept_in triangulation.old) (kept_in triangulation.new) }
    ensures no_memory { result ≡ 20 → AreSo StaysUnfinished (kept_in triangulation.old) (kept_in triangulation.new) }
    ensures none { result ≡ 21 → (kept_in triangulation.old ≡ None) × (kept_in triangulation.new ≡ None) }
    ensures status { (result ≡ 0) ⊎ ((20 ≤ result) × (result ≤ 21)) }
{
    if !triangulation.is_open {
        return NO_MESH;
    }
    match triangulation.held.as_mut().finish() {
        Ok(()) => DONE,
        Err(_) => OUT_OF_MEMORY,
    }
}
