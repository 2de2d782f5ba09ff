//! Steps between points, and the determinants of two and of three.

ghost use Rattle.std.specs.Prelude.{◌≡◌, ◌≢◌, ◌≤◌, ◌<◌, ◌^◌, ◌-ℤ◌, ◌↔◌, IsTrue, unsigned_abs};
ghost use Rattle.dcel_predicates.specs.Steps.{IsNarrow, IsShort, IsShorter, cross_of, determinant_of, dot_of, norm_of};
ghost use Rattle.dcel_predicates.specs.Wide.{number_of};

use crate::point::Point;
use crate::vector::{ShortVector, Vector};
use crate::wide::Wide;

/// The vector from one point to another.
#[derive(Clone, Copy)]
pub(crate) struct Step {
    pub x: i64,
    pub y: i64,
    pub ghost x_in_range: { unsigned_abs x ≤ 2 ^ 54 },
    pub ghost y_in_range: { unsigned_abs y ≤ 2 ^ 54 },
}

impl Step {
    // How far a short step may lead to the left or down.
    const SHORT: i64 = 1 << 30;

    // How far a narrow step may lead to the left or down.
    const NARROW: i64 = 1 << 31;

    // Returns the step from one point to another.
    pub(crate) fn between(from: Point, to: Point) -> Step
        ensures x { result.x ≡ to.x -ℤ from.x }
        ensures y { result.y ≡ to.y -ℤ from.y }
    {
        Step {
            x: to.x - from.x,
            y: to.y - from.y,
        }
    }

    // Returns a number that is below 2^31 if this step is short.
    fn reach(self) -> u64
        ensures short { result < 2 ^ 31 → IsShort self.x self.y }
        ensures long { IsShorter self.x self.y → result < 2 ^ 31 }
    {
        (self.x + Self::SHORT).cast_unsigned() | (self.y + Self::SHORT).cast_unsigned()
    }

    // Returns a number that is below 2^32 if this step is narrow.
    fn width(self) -> u64
        ensures { (result < 2 ^ 32) ↔ IsNarrow self.x self.y }
    {
        (self.x + Self::NARROW).cast_unsigned() | (self.y + Self::NARROW).cast_unsigned()
    }
}

// Returns whether these steps are short: their norms and crosses then fit into an `i64`.
//
// One test of all six coordinates is faster than six.
pub(crate) fn are_short(p: Step, q: Step, r: Step) -> bool
    ensures first { IsTrue result → IsShort p.x p.y }
    ensures second { IsTrue result → IsShort q.x q.y }
    ensures third { IsTrue result → IsShort r.x r.y }
    ensures long { IsShorter p.x p.y → IsShorter q.x q.y → IsShorter r.x r.y → IsTrue result }
{
    p.reach() | q.reach() | r.reach() < 1 << 31
}

// Returns whether these steps are narrow: their coordinates fit into 32 bits, and the cross and dot
// products of those that lead to different points into 64.
pub(crate) fn are_narrow(p: Step, q: Step, r: Step, s: Step) -> bool
    ensures { IsTrue result ↔ (IsNarrow p.x p.y × IsNarrow q.x q.y × IsNarrow r.x r.y × IsNarrow s.x s.y) }
{
    p.width() | q.width() | r.width() | s.width() < 1 << 32
}

// Returns the square of a step's length.
fn norm(p: Step) -> i128
    ensures value { result ≡ norm_of p.x p.y }
    ensures bound { unsigned_abs result ≤ 2 ^ 109 }
{
    p.x as i128 * p.x as i128 + p.y as i128 * p.y as i128
}

// Returns the determinant of two steps.
pub(crate) fn cross(p: Step, q: Step) -> i128
    ensures value { result ≡ cross_of p.x p.y q.x q.y }
    ensures bound { unsigned_abs result ≤ 2 ^ 109 }
{
    p.x as i128 * q.y as i128 - p.y as i128 * q.x as i128
}

// Returns the dot product of two steps.
pub(crate) fn dot(p: Step, q: Step) -> i128
    ensures value { result ≡ dot_of p.x p.y q.x q.y }
    ensures bound { unsigned_abs result ≤ 2 ^ 109 }
{
    p.x as i128 * q.x as i128 + p.y as i128 * q.y as i128
}

// Returns the determinant of three steps and the squares of their lengths.
pub(crate) fn determinant(p: Step, q: Step, r: Step) -> Wide
    ensures { number_of result ≡ determinant_of p.x p.y q.x q.y r.x r.y }
{
    let norms = Vector {
        x: norm(p),
        y: norm(q),
        z: norm(r),
    };
    let crosses = Vector {
        x: cross(q, r),
        y: cross(r, p),
        z: cross(p, q),
    };
    norms.dot(crosses)
}

// Returns the square of a short step's length.
fn short_norm(p: Step) -> i64
    requires { IsShort p.x p.y }
    ensures value { result ≡ norm_of p.x p.y }
    ensures bound { unsigned_abs result ≤ 2 ^ 61 }
{
    p.x * p.x + p.y * p.y
}

// Returns the determinant of two short steps.
fn short_cross(p: Step, q: Step) -> i64
    requires first { IsShort p.x p.y }
    requires second { IsShort q.x q.y }
    ensures value { result ≡ cross_of p.x p.y q.x q.y }
    ensures bound { unsigned_abs result ≤ 2 ^ 61 }
{
    p.x * q.y - p.y * q.x
}

// Returns the determinant of three short steps and the squares of their lengths.
pub(crate) fn short_determinant(p: Step, q: Step, r: Step) -> i128
    requires first { IsShort p.x p.y }
    requires second { IsShort q.x q.y }
    requires third { IsShort r.x r.y }
    ensures value { result ≡ determinant_of p.x p.y q.x q.y r.x r.y }
    ensures bound { unsigned_abs result ≤ 2 ^ 124 }
{
    let norms = ShortVector {
        x: short_norm(p),
        y: short_norm(q),
        z: short_norm(r),
    };
    let crosses = ShortVector {
        x: short_cross(q, r),
        y: short_cross(r, p),
        z: short_cross(p, q),
    };
    norms.dot(crosses)
}

// Returns the determinant of two narrow steps.
pub(crate) fn narrow_cross(p: Step, q: Step) -> i64
    requires first { IsNarrow p.x p.y }
    requires second { IsNarrow q.x q.y }
    ensures value { result ≡ cross_of p.x p.y q.x q.y }
    ensures bound { unsigned_abs result < 2 ^ 63 }
{
    p.x * q.y - p.y * q.x
}

// Returns the dot product of two narrow steps, which lead to different points.
pub(crate) fn narrow_dot(p: Step, q: Step) -> i64
    requires first { IsNarrow p.x p.y }
    requires second { IsNarrow q.x q.y }
    requires apart { p.x ≡ q.x → p.y ≢ q.y }
    ensures value { result ≡ dot_of p.x p.y q.x q.y }
    ensures bound { unsigned_abs result < 2 ^ 63 }
{
    p.x * q.x + p.y * q.y
}
