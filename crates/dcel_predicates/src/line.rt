//! On which side of a line a point is.

ghost use Rattle.std.specs.Prelude.{◌≡◌, ◌≢◌, ◌≤◌, ◌^◌, ◌-ℤ◌, ◌<ℤ◌, ◌↔◌, IsTrue, pos, unsigned_abs};
ghost use Rattle.dcel_predicates.specs.Determinants.{orient2d_of, squared_distance_of};

use crate::point::Point;

/// On which side of a directed line a point is.
#[derive(Clone, Copy, PartialEq, Eq, Debug)]
pub enum Side {
    /// On the left: with the line's two points it makes a counterclockwise turn.
    Left,
    /// On the right: with the line's two points it makes a clockwise turn.
    Right,
    /// On the line itself, or the line's two points are one.
    On,
}

impl Side {
    /// Returns whether the point is on the line.
    #[inline]
    pub fn is_on_line(self) -> bool
        ensures { IsTrue result ↔ (self ≡ Side.On) }
    {
        self == Side::On
    }

    /// Returns whether the point is on the left, and not on the line.
    #[inline]
    pub fn is_on_left_side(self) -> bool
        ensures { IsTrue result ↔ (self ≡ Side.Left) }
    {
        self == Side::Left
    }

    /// Returns whether the point is on the right, and not on the line.
    #[inline]
    pub fn is_on_right_side(self) -> bool
        ensures { IsTrue result ↔ (self ≡ Side.Right) }
    {
        self == Side::Right
    }

    /// Returns whether the point is on the left or on the line.
    #[inline]
    pub fn is_on_left_side_or_on_line(self) -> bool
        ensures { IsTrue result ↔ (self ≢ Side.Right) }
    {
        self != Side::Right
    }

    /// Returns whether the point is on the right or on the line.
    #[inline]
    pub fn is_on_right_side_or_on_line(self) -> bool
        ensures { IsTrue result ↔ (self ≢ Side.Left) }
    {
        self != Side::Left
    }

    /// Returns on which side of the same line, directed the other way, the point is.
    #[inline]
    pub fn reversed(self) -> Side
        ensures left { (result ≡ Side.Left) ↔ (self ≡ Side.Right) }
        ensures right { (result ≡ Side.Right) ↔ (self ≡ Side.Left) }
        ensures on { (result ≡ Side.On) ↔ (self ≡ Side.On) }
    {
        match self {
            Side::Left => Side::Right,
            Side::Right => Side::Left,
            Side::On => Side::On,
        }
    }
}

/// Returns twice the area of a triangle: positive if its corners are in counterclockwise order,
/// negative if clockwise, 0 if they are on one line.
#[tactic(auto, using(crate::proofs::Machine::first_fits, crate::proofs::Machine::second_fits, crate::proofs::Machine::whole_fits))]
pub fn orient2d(a: Point, b: Point, c: Point) -> i128
    ensures value { result ≡ orient2d_of a b c }
    ensures bound { unsigned_abs result ≤ 2 ^ 108 }
{
    (b.x - a.x) as i128 * (c.y - a.y) as i128 - (b.y - a.y) as i128 * (c.x - a.x) as i128
}

/// Returns on which side of the line from `a` to `b` the point `c` is: the sign of [`orient2d`].
#[tactic(auto, using(crate::proofs::Machine::first_fits, crate::proofs::Machine::second_fits))]
pub fn orientation(a: Point, b: Point, c: Point) -> Side
    ensures left { (result ≡ Side.Left) ↔ (pos 0 <ℤ orient2d_of a b c) }
    ensures right { (result ≡ Side.Right) ↔ (orient2d_of a b c <ℤ pos 0) }
    ensures on { (result ≡ Side.On) ↔ (orient2d_of a b c ≡ pos 0) }
{
    side_by(
        (b.x - a.x) as i128 * (c.y - a.y) as i128,
        (b.y - a.y) as i128 * (c.x - a.x) as i128,
    )
}

// Returns the side that the sign of `left - right` says. Comparing the two is faster than
// subtracting them.
fn side_by(left: i128, right: i128) -> Side
    ensures left { (result ≡ Side.Left) ↔ (pos 0 <ℤ (left -ℤ right)) }
    ensures right { (result ≡ Side.Right) ↔ ((left -ℤ right) <ℤ pos 0) }
    ensures on { (result ≡ Side.On) ↔ (left -ℤ right ≡ pos 0) }
{
    if left > right {
        Side::Left
    } else if left < right {
        Side::Right
    } else {
        Side::On
    }
}

// Returns the square of the distance between two points.
#[tactic(auto, using(crate::proofs::Machine::squares_fit))]
pub(crate) fn squared_distance(p: Point, q: Point) -> i128
    ensures value { result ≡ squared_distance_of p q }
    ensures bound { unsigned_abs result ≤ 2 ^ 109 }
{
    let x = (p.x - q.x) as i128;
    let y = (p.y - q.y) as i128;
    x * x + y * y
}
