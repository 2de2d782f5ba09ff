//! On which side of a circle a point is.

ghost use Rattle.std.specs.Prelude.{◌≡◌, ◌-ℤ◌, ◌*ℤ◌, ◌<ℤ◌, ◌↔◌, IsTrue, pos};
ghost use Rattle.dcel_predicates.specs.Determinants.{incircle_of, orient2d_of};
ghost use Rattle.dcel_predicates.specs.Steps.{cross_of, dot_of};
ghost use Rattle.dcel_predicates.specs.Wide.{number_of};

use crate::angle::{Angle, WideAngle};
use crate::point::Point;
use crate::step::{Step, are_narrow, are_short, determinant, short_determinant};
use crate::wide::Wide;

/// On which side of the circle through three points in counterclockwise order a point is.
///
/// If the three are in clockwise order, inside and outside are exchanged.
#[derive(Clone, Copy, PartialEq, Eq, Debug)]
pub enum CircleSide {
    /// Inside the circle.
    Inside,
    /// On the circle itself, or on the line of three points that are on one line.
    On,
    /// Outside the circle.
    Outside,
}

/// Returns whether `d` is inside the circle through `a`, `b` and `c`, if these are in
/// counterclockwise order.
pub fn in_circle(a: Point, b: Point, c: Point, d: Point) -> bool
    ensures { IsTrue result ↔ (pos 0 <ℤ incircle_of a b c d) }
{
    let p = Step::between(d, a);
    let q = Step::between(d, b);
    let r = Step::between(d, c);
    if are_short(p, q, r) {
        short_determinant(p, q, r) > 0
    } else {
        determinant(p, q, r).is_positive()
    }
}

/// Returns whether `d` is inside the circle through `a`, `b` and `c`, which are in counterclockwise
/// order: what [`in_circle`] returns, in fewer steps.
///
/// It compares the angles under which `c` and `d` see the edge from `a` to `b`, by their sines and
/// cosines (A. K. Cline and R. L. Renka, "A storage-efficient method for construction of a Thiessen
/// triangulation", 1984). If `d` is on the other side of the edge, it is inside if the two make
/// more than 180 degrees.
///
/// Asks for a triangle that turns left: [`orientation`](crate::orientation) of its corners is
/// [`Side::Left`](crate::Side::Left).
#[inline(always)]
pub fn in_circle_across(a: Point, b: Point, c: Point, d: Point) -> bool
    requires { pos 0 <ℤ orient2d_of a b c }
    ensures { IsTrue result ↔ (pos 0 <ℤ incircle_of a b c d) }
{
    let p = Step::between(c, a);
    let q = Step::between(c, b);
    let r = Step::between(d, a);
    let s = Step::between(d, b);
    if are_narrow(p, q, r, s) {
        Angle::between(r, s).exceeds(Angle::between(p, q))
    } else {
        exceeds_widely(r, s, p, q)
    }
}

// Returns whether the angle from one step to another exceeds that of two others by less than 180
// degrees.
//
// It isn't compiled into its caller, where few steps are this wide, so that this takes few registers.
#[inline(never)]
fn exceeds_widely(r: Step, s: Step, p: Step, q: Step) -> bool
    ensures { IsTrue result ↔ (pos 0 <ℤ ((cross_of r.x r.y s.x s.y *ℤ dot_of p.x p.y q.x q.y) -ℤ (cross_of p.x p.y q.x q.y *ℤ dot_of r.x r.y s.x s.y))) }
{
    WideAngle::between(r, s).exceeds(WideAngle::between(p, q))
}

/// Returns on which side of the circle through `a`, `b` and `c` the point `d` is, if these are in
/// counterclockwise order.
pub fn circle_side(a: Point, b: Point, c: Point, d: Point) -> CircleSide
    ensures inside { (result ≡ CircleSide.Inside) ↔ (pos 0 <ℤ incircle_of a b c d) }
    ensures outside { (result ≡ CircleSide.Outside) ↔ (incircle_of a b c d <ℤ pos 0) }
    ensures on { (result ≡ CircleSide.On) ↔ (incircle_of a b c d ≡ pos 0) }
{
    let p = Step::between(d, a);
    let q = Step::between(d, b);
    let r = Step::between(d, c);
    if are_short(p, q, r) {
        short_side(short_determinant(p, q, r))
    } else {
        wide_side(determinant(p, q, r))
    }
}

// Returns the side that the sign of a determinant says.
fn short_side(determinant: i128) -> CircleSide
    ensures inside { (result ≡ CircleSide.Inside) ↔ (pos 0 <ℤ determinant) }
    ensures outside { (result ≡ CircleSide.Outside) ↔ (determinant <ℤ pos 0) }
    ensures on { (result ≡ CircleSide.On) ↔ (determinant ≡ pos 0) }
{
    if determinant > 0 {
        CircleSide::Inside
    } else if determinant < 0 {
        CircleSide::Outside
    } else {
        CircleSide::On
    }
}

// The same for a wide one.
fn wide_side(determinant: Wide) -> CircleSide
    ensures inside { (result ≡ CircleSide.Inside) ↔ (pos 0 <ℤ number_of determinant) }
    ensures outside { (result ≡ CircleSide.Outside) ↔ (number_of determinant <ℤ pos 0) }
    ensures on { (result ≡ CircleSide.On) ↔ (number_of determinant ≡ pos 0) }
{
    if determinant.is_positive() {
        CircleSide::Inside
    } else if determinant.is_negative() {
        CircleSide::Outside
    } else {
        CircleSide::On
    }
}
