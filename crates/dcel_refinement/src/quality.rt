//! Whether a corner of a triangle is as it is to be.

ghost use Rattle.std.specs.Prelude.{◌≡◌, ◌≤◌, ◌<◌, ◌*◌, ◌/◌, ◌^◌, ◌↔◌, IsTrue, pos, ◌*ℤ◌, unsigned_abs};
ghost use Rattle.dcel_maps.specs.Removals.{Closed};
ghost use Rattle.dcel_predicates.specs.Determinants.{orient2d_of};
ghost use Rattle.dcel_plane.specs.covering.Covering.{dot};
ghost use Rattle.dcel_regions.specs.Marked.{IsMarked};
ghost use Rattle.dcel_refinement.specs.Quality.{HasAtMost, IsGivenCorner, IsGoodAt, IsWideAt};

use crate::parameters::{AngleLimit, RefinementParameters};
use crate::points::corners_at;
use dcel_constrained::{ConstrainedMesh, Mark};
use dcel_predicates::{Point, orient2d};
use spade_dcel::handles::FixedDirectedEdgeHandle;
use spade_dcel::laws::every_mesh;
use std::alloc::Allocator;

/// Returns whether the corner at which a half edge starts is wide enough, or between two constraints,
/// and its triangle is small enough.
pub(crate) fn is_good_at<A: Allocator>(
    mesh: &ConstrainedMesh<A>,
    half: FixedDirectedEdgeHandle,
    parameters: &RefinementParameters,
) -> bool
    requires closed { mesh.now.shape.removal ≡ Closed }
    requires within { half < 2 * mesh.now.shape.edges }
    ensures { IsTrue result ↔ IsGoodAt mesh.now parameters.now half }
{
    let at = corners_at(mesh, half);
    if !is_small(parameters.max_doubled_area, at.from, at.to, at.opposite) {
        return false;
    }
    if is_wide(parameters.angle, at.from, at.to, at.opposite) {
        return true;
    }
    is_given_corner(mesh, half)
}

/// Returns whether a triangle has at most this area, of which twice the number is given.
pub(crate) fn is_small(most: Option<i128>, p: Point, a: Point, b: Point) -> bool
    ensures { IsTrue result ↔ HasAtMost most p a b }
{
    match most {
        None => true,
        Some(most) => orient2d(p, a, b) <= most,
    }
}

/// Returns whether the angle at `p` from `a` to `b`, counterclockwise, is at least the limit.
pub(crate) fn is_wide(limit: AngleLimit, p: Point, a: Point, b: Point) -> bool
    ensures { IsTrue result ↔ IsWideAt limit p a b }
{
    weighted_dot(limit.rise, a, b, p) <= weighted_area(limit.run, p, a, b)
}

/// Returns the dot product of the ways from `p` to `a` and to `b`, times a weight.
fn weighted_dot(weight: u16, a: Point, b: Point, p: Point) -> i128
    ensures { result ≡ pos weight *ℤ dot a b p }
{
    weighted(weight, dot_product(a, b, p))
}

/// Returns twice the area of a triangle, times a weight.
fn weighted_area(weight: u16, p: Point, a: Point, b: Point) -> i128
    ensures { result ≡ pos weight *ℤ orient2d_of p a b }
{
    weighted(weight, orient2d(p, a, b))
}

/// Returns a number times a weight.
fn weighted(weight: u16, value: i128) -> i128
    requires { unsigned_abs value ≤ 2 ^ 109 }
    ensures value { result ≡ pos weight *ℤ value }
    ensures bound { unsigned_abs result ≤ 2 ^ 125 }
{
    weight as i128 * value
}

/// Returns the dot product of the ways from `p` to `a` and to `b`.
pub(crate) fn dot_product(a: Point, b: Point, p: Point) -> i128
    ensures value { result ≡ dot a b p }
    ensures bound { unsigned_abs result ≤ 2 ^ 109 }
{
    (a.x - p.x) as i128 * (b.x - p.x) as i128 + (a.y - p.y) as i128 * (b.y - p.y) as i128
}

/// Returns whether a half edge and the one before it are constraints.
pub(crate) fn is_given_corner<A: Allocator>(
    mesh: &ConstrainedMesh<A>,
    half: FixedDirectedEdgeHandle,
) -> bool
    requires closed { mesh.now.shape.removal ≡ Closed }
    requires within { half < 2 * mesh.now.shape.edges }
    ensures { IsTrue result ↔ IsGivenCorner mesh.now half }
{
    every_mesh(mesh);
    if !is_marked(mesh, half) {
        return false;
    }
    is_marked(mesh, mesh.directed_edge(half).prev().fix())
}

/// Returns whether the edge of a half edge is a constraint.
pub(crate) fn is_marked<A: Allocator>(
    mesh: &ConstrainedMesh<A>,
    half: FixedDirectedEdgeHandle,
) -> bool
    requires closed { mesh.now.shape.removal ≡ Closed }
    requires within { half < 2 * mesh.now.shape.edges }
    ensures { IsTrue result ↔ IsMarked mesh.now (half / 2) }
{
    every_mesh(mesh);
    *mesh.undirected_edge_data(half.as_undirected()) == Mark::Constraint
}
