//! What a refinement is to reach.

ghost use Rattle.std.specs.Prelude.{◌≡◌, ◌≤◌, ℕ};
ghost use Rattle.dcel_refinement.specs.Tangents.{Reaches, steps_of};

use crate::tangents::{RUN, least_rise, least_steps};

/// A smallest angle, below 90 degrees: the one whose tangent is `rise / run`.
#[derive(Clone, Copy, PartialEq, Eq, Debug)]
pub struct AngleLimit {
    /// The numerator of the tangent. With 0 every angle will do.
    pub rise: u16,
    /// The denominator of the tangent.
    pub run: u16,
}

impl AngleLimit {
    /// Returns the limit of so many degrees, from 0 to 45, rounded up to a tangent with the
    /// denominator 65535. Outside of that range the nearest limit is taken, and for NaN that of 0.
    ///
    /// Degrees are first rounded up to a multiple of 1/65536, so the limit is never smaller. Above
    /// 20.7 degrees a refinement need not end, and above 34 it rarely does.
    pub fn from_degrees(degrees: f64) -> AngleLimit
        ensures run { result.run ≡ 65535 }
        ensures reaches { Reaches (steps_of degrees) result.rise result.run }
        ensures least { (rise : ℕ) → Reaches (steps_of degrees) rise result.run → result.rise ≤ rise }
    {
        AngleLimit {
            rise: least_rise(least_steps(degrees)),
            run: RUN,
        }
    }
}

/// The faces that a refinement is about.
#[derive(Clone, Copy, PartialEq, Eq, Debug)]
pub enum RefinedFaces {
    /// All inner faces.
    All,
    /// Those inside of the constraints: a way from the outer face crosses an odd number of them, if it
    /// crosses as few as possible.
    Inside,
}

/// What a refinement is to reach, and where it gives up.
#[derive(Clone, Copy, PartialEq, Eq, Debug)]
pub struct RefinementParameters {
    /// The smallest angle, but for angles between two constraints.
    pub angle: AngleLimit,
    /// Twice the largest area, if there is one.
    pub max_doubled_area: Option<i128>,
    /// The largest number of vertices to be added.
    pub max_additional_vertices: usize,
    /// The faces to be refined.
    pub faces: RefinedFaces,
}
