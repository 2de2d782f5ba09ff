//! Whole triangulations cloned.

ghost use Rattle.std.specs.Prelude.{◌≡◌, ◌≢◌, ◌↔◌, ◌≤◌, ◌⊎◌, None};
ghost use Rattle.dcel_triangulations.specs.Calls.{AreSo, kept_in};
ghost use Rattle.dcel_triangulations.specs.Wholes.{IsCopy};

use crate::status::{NO_MESH, OUT_OF_MEMORY};
use crate::triangulation::DcelTriangulation;
use crate::whole::keep;
use std::alloc::Global;

/// Makes a triangulation with the same mesh, in memory of its own. One that was kept there before is
/// freed. It is whole if the other one is.
#[unsafe(no_mangle)]
pub extern "C" fn dcel_triangulation_clone(
    alloc: Global,
    from: &mut DcelTriangulation,
    to: &mut DcelTriangulation,
) -> u32
    ensures done { result ≡ 0 → AreSo IsCopy (kept_in from.old) (kept_in to.new) }
    ensures refused { result ≢ 0 → kept_in to.new ≡ kept_in to.old }
    ensures none { (result ≡ 21) ↔ (kept_in from.old ≡ None) }
    ensures status { (result ≡ 0) ⊎ ((20 ≤ result) × (result ≤ 21)) }
    ensures same { kept_in from.new ≡ kept_in from.old }
{
    if !from.is_open {
        return NO_MESH;
    }
    match from.held.as_mut().try_clone(alloc) {
        Err(_) => OUT_OF_MEMORY,
        Ok(made) => keep(alloc, to, made),
    }
}
