//! Angles between steps, compared by their sines and cosines.

ghost use Rattle.std.specs.Prelude.{◌≡◌, ◌≢◌, ◌<◌, ◌≤◌, ◌^◌, ◌-ℤ◌, ◌*ℤ◌, ◌<ℤ◌, ◌↔◌, IsTrue, pos, unsigned_abs};
ghost use Rattle.dcel_predicates.specs.Steps.{IsNarrow, cross_of, dot_of};

use crate::step::{Step, cross, dot, narrow_cross, narrow_dot};
use crate::vector::Vector;

/// The angle from one narrow step to another.
#[derive(Clone, Copy)]
pub(crate) struct Angle {
    /// Its sine, times the lengths of both steps.
    pub sine: i64,
    /// Its cosine, times the lengths of both steps.
    pub cosine: i64,
    pub ghost sine_in_range: { unsigned_abs sine < 2 ^ 63 },
    pub ghost cosine_in_range: { unsigned_abs cosine < 2 ^ 63 },
}

impl Angle {
    // Returns the angle between two narrow steps, which lead to different points.
    pub(crate) fn between(from: Step, to: Step) -> Angle
        requires first { IsNarrow from.x from.y }
        requires second { IsNarrow to.x to.y }
        requires apart { from.x ≡ to.x → from.y ≢ to.y }
        ensures sine { result.sine ≡ cross_of from.x from.y to.x to.y }
        ensures cosine { result.cosine ≡ dot_of from.x from.y to.x to.y }
    {
        Angle {
            sine: narrow_cross(from, to),
            cosine: narrow_dot(from, to),
        }
    }

    // Returns whether the sine of the difference `self - other` is above 0.
    pub(crate) fn exceeds(self, other: Angle) -> bool
        ensures { IsTrue result ↔ (pos 0 <ℤ ((self.sine *ℤ other.cosine) -ℤ (other.sine *ℤ self.cosine))) }
    {
        other.sine as i128 * (self.cosine as i128) < self.sine as i128 * other.cosine as i128
    }
}

/// The angle from one step to another.
#[derive(Clone, Copy)]
pub(crate) struct WideAngle {
    /// Its sine, times the lengths of both steps.
    pub sine: i128,
    /// Its cosine, times the lengths of both steps.
    pub cosine: i128,
    pub ghost sine_in_range: { unsigned_abs sine ≤ 2 ^ 109 },
    pub ghost cosine_in_range: { unsigned_abs cosine ≤ 2 ^ 109 },
}

impl WideAngle {
    // Returns the angle between two steps.
    pub(crate) fn between(from: Step, to: Step) -> WideAngle
        ensures sine { result.sine ≡ cross_of from.x from.y to.x to.y }
        ensures cosine { result.cosine ≡ dot_of from.x from.y to.x to.y }
    {
        WideAngle {
            sine: cross(from, to),
            cosine: dot(from, to),
        }
    }

    // Returns whether the sine of the difference `self - other` is above 0.
    pub(crate) fn exceeds(self, other: WideAngle) -> bool
        ensures { IsTrue result ↔ (pos 0 <ℤ ((self.sine *ℤ other.cosine) -ℤ (other.sine *ℤ self.cosine))) }
    {
        let sines = Vector {
            x: self.sine,
            y: -other.sine,
            z: 0,
        };
        let cosines = Vector {
            x: other.cosine,
            y: self.cosine,
            z: 0,
        };
        sines.dot(cosines).is_positive()
    }
}
