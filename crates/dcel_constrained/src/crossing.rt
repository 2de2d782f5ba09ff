//! Where segments cross constraints: the exact place, and the nearest whole point.

ghost use Rattle.std.specs.Prelude.{◌≡◌, ◌≤◌, ◌↔◌, ◌^◌, ◌*◌, ◌+◌, IfNone, IfSome, IsSome, pos, ◌+ℤ◌, ◌-ℤ◌, ◌*ℤ◌, ◌<ℤ◌, ◌≤ℤ◌, unsigned_abs};
ghost use Rattle.dcel_constrained.specs.Blocking.{Blocks};
ghost use Rattle.dcel_constrained.specs.Channels.{HasVertices};
ghost use Rattle.dcel_constrained.specs.Constrained.{marked_mesh};
ghost use Rattle.dcel_constrained.specs.Intersections.{CrossesEdgeAt, CrossesOver, IsCrossing, IsNearest};
ghost use Rattle.dcel_maps.specs.Removals.{Closed};
ghost use Rattle.dcel_maps.specs.Shapes.{end_of, origin_of};
ghost use Rattle.dcel_plane.specs.Plane.{point_at};
ghost use Rattle.dcel_plane.specs.segments.Segments.{Crosses};
ghost use Rattle.dcel_predicates.specs.Wide.{number_of};

use crate::mesh::ConstrainedMesh;
use crate::segments::blocking::{blocks, crosses};
use crate::segments::offsets::point_of;
use crate::triangulation::ConstrainedTriangulation;
use dcel_predicates::{Point, Wide, orient2d};
use spade_dcel::handles::{FixedDirectedEdgeHandle, FixedUndirectedEdgeHandle, FixedVertexHandle};
use spade_dcel::laws::every_mesh;
use std::alloc::Allocator;

const RADIX: u64 = 1 << 56;

/// The place `(x / weight, y / weight)` where a segment crosses an edge.
///
/// The numbers are exact. The coordinates need more than an `i128`: they reach up to 2^165.
#[derive(Clone, Copy, PartialEq, Eq, Debug)]
pub struct Crossing {
    /// Its x-coordinate, times the weight.
    pub x: Wide,
    /// Its y-coordinate, times the weight.
    pub y: Wide,
    /// How far along the segment it is, times the weight: above 0, where the segment starts, and
    /// below the weight, where it ends.
    pub along: i128,
    /// The denominator, from 2 to 2^109.
    pub weight: i128,
    /// A nearest point with whole coordinates.
    pub nearest: Point,
}

impl<A: Allocator> ConstrainedTriangulation<A> {
    /// Returns where the segment between two vertices crosses a marked edge, or `None` if it doesn't.
    /// Any numbers may be given.
    ///
    /// It crosses those edges that [`try_add_constraint`](Self::try_add_constraint) reports as in its
    /// way. [`Crossing::along`] and [`Crossing::weight`] say in which order. To join the two, insert
    /// [`Crossing::nearest`]: it is at most half a unit away from the place in x and in y, so it may
    /// be beside both.
    pub fn crossing(
        &self,
        from: FixedVertexHandle,
        to: FixedVertexHandle,
        edge: FixedUndirectedEdgeHandle,
    ) -> Option<Crossing>
        ensures crosses { IsSome result ↔ (HasVertices (marked_mesh self.now).shape from to × Blocks (marked_mesh self.now) from to edge) }
        ensures place { IfSome result (CrossesEdgeAt (marked_mesh self.now) from to edge) }
    {
        every_mesh(&self.planar.dcel);
        let vertices = self.planar.dcel.num_vertices();
        if from.index() >= vertices {
            return None;
        }
        if to.index() >= vertices {
            return None;
        }
        crossing_in(&self.planar.dcel, from, to, edge)
    }
}

/// Returns where the segment between two vertices crosses a marked edge.
fn crossing_in<A: Allocator>(
    dcel: &ConstrainedMesh<A>,
    from: FixedVertexHandle,
    to: FixedVertexHandle,
    edge: FixedUndirectedEdgeHandle,
) -> Option<Crossing>
    requires ends { HasVertices dcel.now.shape from to }
    requires closed { dcel.now.shape.removal ≡ Closed }
    ensures crosses { IsSome result ↔ Blocks dcel.now from to edge }
    ensures place { IfSome result (CrossesEdgeAt dcel.now from to edge) }
{
    if !blocks(dcel, from, to, edge) {
        return None;
    }
    every_mesh(dcel);
    let half = dcel.undirected_edge(edge).as_directed().fix();
    if crosses(dcel, from, to, half) {
        return Some(crossed_at(dcel, from, to, half));
    }
    Some(crossed_at(dcel, from, to, half.rev()))
}

/// Returns where a half edge crosses the segment between two vertices, from right to left.
fn crossed_at<A: Allocator>(
    dcel: &ConstrainedMesh<A>,
    from: FixedVertexHandle,
    to: FixedVertexHandle,
    half: FixedDirectedEdgeHandle,
) -> Crossing
    requires ends { HasVertices dcel.now.shape from to }
    requires crosses { Crosses (point_at dcel.now) dcel.now.shape from to half }
    ensures { IsCrossing (point_at dcel.now from) (point_at dcel.now to) (point_at dcel.now (origin_of dcel.now.shape half)) (point_at dcel.now (end_of dcel.now.shape half)) result }
{
    every_mesh(dcel);
    let edge = dcel.directed_edge(half);
    let start = point_of(dcel, edge.from().fix());
    let end = point_of(dcel, edge.to().fix());
    crossing_of(point_of(dcel, from), point_of(dcel, to), start, end)
}

/// Returns where the segment from `a` to `b` crosses the one from `c`, on its right, to `d`.
fn crossing_of(a: Point, b: Point, c: Point, d: Point) -> Crossing
    requires { CrossesOver a b c d }
    ensures { IsCrossing a b c d result }
{
    let along = orient2d(c, d, a);
    let weight = along - orient2d(c, d, b);
    Crossing {
        x: coordinate(a.x, b.x, along, weight),
        y: coordinate(a.y, b.y, along, weight),
        along,
        weight,
        nearest: Point {
            x: nearest(a.x, b.x, along, weight),
            y: nearest(a.y, b.y, along, weight),
        },
    }
}

/// Returns `from * weight + (to - from) * along`.
fn coordinate(from: i64, to: i64, along: i128, weight: i128) -> Wide
    requires from { unsigned_abs from ≤ 2 ^ 53 }
    requires to { unsigned_abs to ≤ 2 ^ 53 }
    requires along { unsigned_abs along ≤ 2 ^ 109 }
    requires weight { unsigned_abs weight ≤ 2 ^ 109 }
    ensures { number_of result ≡ (from *ℤ weight) +ℤ ((to -ℤ from) *ℤ along) }
{
    let start = Wide::product(from as i128, weight);
    let step = Wide::product((to - from) as i128, along);
    sum(start, step)
}

/// Returns the sum of two numbers.
fn sum(p: Wide, q: Wide) -> Wide
    requires first { unsigned_abs p.high ≤ 2 ^ 108 }
    requires second { unsigned_abs q.high ≤ 2 ^ 108 }
    ensures { number_of result ≡ number_of p +ℤ number_of q }
{
    let low = p.low + q.low;
    let middle = p.middle + q.middle + low / RADIX;
    Wide {
        high: p.high + q.high + (middle / RADIX) as i128,
        middle: middle % RADIX,
        low: low % RADIX,
    }
}

/// Returns the whole number nearest to `from + (to - from) * along / weight`, the one further from
/// `from` of two.
fn nearest(from: i64, to: i64, along: i128, weight: i128) -> i64
    requires from { unsigned_abs from ≤ 2 ^ 53 }
    requires to { unsigned_abs to ≤ 2 ^ 53 }
    requires after { pos 0 <ℤ along }
    requires before { along <ℤ weight }
    requires weight { unsigned_abs weight ≤ 2 ^ 109 }
    ensures value { IsNearest result ((from *ℤ weight) +ℤ ((to -ℤ from) *ℤ along)) weight }
    ensures bound { unsigned_abs result ≤ 2 ^ 53 }
{
    if to < from {
        from - rounded(from - to, along, weight)
    } else {
        from + rounded(to - from, along, weight)
    }
}

/// Returns the whole number nearest to `step * along / weight`, the greater of two.
fn rounded(step: i64, along: i128, weight: i128) -> i64
    requires least { pos 0 ≤ℤ step }
    requires most { step ≤ℤ pos (2 ^ 54) }
    requires after { pos 0 <ℤ along }
    requires before { along <ℤ weight }
    requires weight { unsigned_abs weight ≤ 2 ^ 109 }
    ensures value { IsNearest result (step *ℤ along) weight }
    ensures least { pos 0 ≤ℤ result }
    ensures most { result ≤ℤ step }
{
    let weight = weight.unsigned_abs();
    let parted = Wide::product(step as i128, along).abs().divided(weight);
    let below = parted.quotient.low as i64;
    if parted.remainder < weight - parted.remainder {
        below
    } else {
        below + 1
    }
}
