//! How bad triangles are, in floating point: that decides which one is looked at first, and no more.

use crate::parameters::{AngleLimit, RefinementParameters};
use crate::points::{Corners, Side};
use crate::quality::{is_small, is_wide};
use crate::queue::RANKS;
use crate::vectors::Vector;
use std::num::{f64_to_bits_with_nan, nearest_i64_to_f64, nearest_u64_to_f64};

/// The sides of a triangle, in their order.
#[derive(Clone, Copy)]
pub(crate) struct Sides {
    /// Any of them.
    pub first: Side,
    /// The one after it.
    pub next: Side,
    /// The one before it.
    pub prev: Side,
}

impl Sides {
    /// Returns the rank of the triangle, or `None` if it is as wanted: exactly so.
    pub(crate) fn rank(self, parameters: &RefinementParameters) -> Option<usize> {
        let is_good = is_good(self.first, self.prev, parameters)
            && is_good(self.next, self.first, parameters)
            && is_good(self.prev, self.next, parameters);
        (!is_good).then_some(rank_of(self.part(parameters)))
    }

    // Returns which part of what is wanted it has, of the angle or of the area: the least one.
    fn part(self, parameters: &RefinementParameters) -> f64 {
        let limit = parameters.angle;
        let first = part_of_angle(self.first, self.prev, limit);
        let second = part_of_angle(self.next, self.first, limit);
        let third = part_of_angle(self.prev, self.next, limit);
        first.min(second).min(third).min(part_of_area(
            self.first.corners,
            parameters.max_doubled_area,
        ))
    }
}

// Returns whether the corner where a half edge starts is good, by the half edge before it.
fn is_good(side: Side, prev: Side, parameters: &RefinementParameters) -> bool {
    let Corners { from, to, opposite } = side.corners;
    is_small(parameters.max_doubled_area, from, to, opposite)
        && (is_wide(parameters.angle, from, to, opposite)
            || side.is_constraint && prev.is_constraint)
}

// Returns the tangent of the angle where a half edge starts as a part of that of the limit, at most 1.
fn part_of_angle(side: Side, prev: Side, limit: AngleLimit) -> f64 {
    let Corners { from, to, opposite } = side.corners;
    let way = Vector::between(from, to);
    let other = Vector::between(from, opposite);
    let dot = way.dot(other) * (limit.rise as f64);
    if dot > 0.0 && !(side.is_constraint && prev.is_constraint) {
        (way.cross(other) * (limit.run as f64) / dot).min(1.0)
    } else {
        1.0
    }
}

// Returns the largest area as a part of that of a triangle, at most 1.
fn part_of_area(corners: Corners, max_doubled_area: Option<i128>) -> f64 {
    let Some(most) = max_doubled_area else {
        return 1.0;
    };
    let way = Vector::between(corners.from, corners.to);
    let doubled = way.cross(Vector::between(corners.from, corners.opposite));
    if doubled > 0.0 {
        (float_of(most) / doubled).min(1.0)
    } else {
        1.0
    }
}

// Returns about a number that isn't negative.
fn float_of(number: i128) -> f64 {
    let high = i64::try_from(number / (1 << 64)).unwrap_or(0);
    let low = u64::try_from(number % (1 << 64)).unwrap_or(0);
    nearest_i64_to_f64(high) * 18446744073709551616.0 + nearest_u64_to_f64(low)
}

// Returns the rank of a triangle that has this part of what is wanted: 0 for all of it, and four more
// for each half.
fn rank_of(part: f64) -> usize {
    // The exponent of a float and the first two digits behind the point, which grow with it.
    let digits = |number: f64| f64_to_bits_with_nan(number) / (1 << 50);
    let rank = digits(1.0).saturating_sub(digits(part));
    (rank as usize).min(RANKS - 1)
}
