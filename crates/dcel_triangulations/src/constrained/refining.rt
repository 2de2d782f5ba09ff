//! Constrained triangulations refined.

ghost use Rattle.std.specs.Prelude.{◌≡◌, ◌≢◌, ◌↔◌, None};
ghost use Rattle.dcel_triangulations.specs.Calls.{AreSo};
ghost use Rattle.dcel_triangulations.specs.constrained.Calls.{kept_in};
ghost use Rattle.dcel_triangulations.specs.constrained.Refining.{FailsToRefine, RefinesTriangulation, area_given, faces_given, parameters_given};

use crate::constrained::triangulation::DcelConstrained;
use crate::status::{DONE, NO_MESH, status_of_insertion};
use dcel_refinement::{AngleLimit, Refined, RefinedFaces, RefinementParameters};
use std::alloc::Global;

/// What a refinement is to reach, and where it gives up: C's `dcel_refinement`.
#[repr(C)]
#[derive(Clone, Copy)]
pub struct DcelRefinement {
    /// The upper 64 bits of twice the largest area. From 2^63 on, any area will do.
    pub max_doubled_area_high: u64,
    /// The lower 64 bits of twice the largest area.
    pub max_doubled_area_low: u64,
    /// The largest number of vertices to be added.
    pub max_additional_vertices: u64,
    /// The numerator of the tangent of the smallest angle. With 0 every angle will do.
    pub rise: u16,
    /// The denominator of that tangent.
    pub run: u16,
    /// Only the triangles inside of the constraints are refined, those of odd depth.
    pub inside: bool,
}

/// Adds vertices until each triangle that is to be refined has the wanted angles and area, or until
/// as many were added as allowed. Writes how many were added, how many exceptions there are (corners
/// between two constraints that are smaller than asked), and whether it got there.
///
/// Vertices keep their numbers. A constraint on which vertices are added becomes constraints from one
/// to the next, and no other edge is one.
///
/// If memory or numbers run out, the vertices added so far stay, and nothing is written.
#[unsafe(no_mangle)]
pub extern "C" fn dcel_constrained_refine(
    alloc: Global,
    triangulation: &mut DcelConstrained,
    parameters: &DcelRefinement,
    added: &mut u64,
    excepted: &mut u64,
    reached: &mut bool,
) -> u32
    ensures done { result ≡ 0 → AreSo (RefinesTriangulation parameters.now added.new excepted.new reached.new) (kept_in triangulation.old) (kept_in triangulation.new) }
    ensures fails { result ≢ 0 → result ≢ 21 → AreSo (FailsToRefine parameters.now result) (kept_in triangulation.old) (kept_in triangulation.new) }
    ensures none { (result ≡ 21) ↔ (kept_in triangulation.old ≡ None) }
    ensures nothing { result ≡ 21 → kept_in triangulation.new ≡ None }
    ensures untold { result ≢ 0 → (added.new ≡ added.old) × (excepted.new ≡ excepted.old) × (reached.new ≡ reached.old) }
{
    if !triangulation.is_open {
        return NO_MESH;
    }
    let wanted = parameters_of(*parameters);
    match dcel_refinement::refine(triangulation.held.as_mut(), alloc, &wanted) {
        Ok(
            Refined::Done {
                added: vertices,
                excepted: corners,
            },
        ) => {
            *added = vertices as u64;
            *excepted = corners as u64;
            *reached = true;
            DONE
        }
        Ok(
            Refined::Stopped {
                added: vertices,
                excepted: corners,
            },
        ) => {
            *added = vertices as u64;
            *excepted = corners as u64;
            *reached = false;
            DONE
        }
        Err(error) => status_of_insertion(error),
    }
}

/// Returns the parameters that are given.
fn parameters_of(given: DcelRefinement) -> RefinementParameters
    ensures { result ≡ parameters_given given }
{
    RefinementParameters {
        angle: AngleLimit {
            rise: given.rise,
            run: given.run,
        },
        max_doubled_area: area_of(given.max_doubled_area_high, given.max_doubled_area_low),
        max_additional_vertices: given.max_additional_vertices as usize,
        faces: faces_of(given.inside),
    }
}

/// Returns the number with these upper and lower 64 bits, or `None` from 2^127 on.
fn area_of(high: u64, low: u64) -> Option<i128>
    ensures { result ≡ area_given high low }
{
    let whole = high as u128 * (1 << 64) + low as u128;
    i128::try_from(whole).ok()
}

/// Returns the faces that are to be refined.
fn faces_of(inside: bool) -> RefinedFaces
    ensures { result ≡ faces_given inside }
{
    if inside {
        RefinedFaces::Inside
    } else {
        RefinedFaces::All
    }
}
