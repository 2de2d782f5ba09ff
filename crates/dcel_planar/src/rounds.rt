//! Whether the outer face goes round the triangles once, as a convex hull does.

ghost use Rattle.std.specs.Prelude.{◌≡◌, ◌↔◌, ◌*◌, ◌<◌, ℕ, IsTrue};
ghost use Rattle.dcel_plane.specs.covering.Round.{Begins, GoesRoundOnce, IsRightOf};
ghost use Rattle.dcel_maps.specs.Removals.{Closed};
ghost use Rattle.dcel_maps.specs.Shapes.{IsLive, end_of, next_of, origin_of};
ghost use Rattle.dcel_plane.specs.Plane.{TurnsLeft, point_at};
ghost use Rattle.dcel_planar.specs.Ways.{BeginsOnce, TurnsRight, leads_to};
ghost use Rattle.spade_dcel.specs.Handles.{mesh_behind, number_of};

use crate::mesh::point_of;
use dcel_predicates::{Point, orientation};
use spade_dcel::dcel::Dcel;
use spade_dcel::handles::{DirectedEdgeHandle, FixedDirectedEdgeHandle};
use spade_dcel::laws::every_mesh;
use std::alloc::Allocator;

// Where a half edge leads: to the right or straight up, or to the left or straight down.
#[derive(Clone, Copy)]
pub(crate) enum Way {
    Right,
    Left,
}

// Returns whether the outer face has inner faces on its other side, never turns left, and begins
// to lead to the right once, and to the left once.
pub(crate) fn goes_round<DE, UE, F, A: Allocator>(dcel: &Dcel<Point, DE, UE, F, A>) -> bool
    requires { dcel.now.shape.removal ≡ Closed }
    ensures { IsTrue result ↔ GoesRoundOnce (point_at dcel.now) dcel.now.shape }
{
    if !turns_right(dcel) {
        return false;
    }
    if !begins_once(dcel, Way::Right) {
        return false;
    }
    begins_once(dcel, Way::Left)
}

fn turns_right<DE, UE, F, A: Allocator>(dcel: &Dcel<Point, DE, UE, F, A>) -> bool
    requires { dcel.now.shape.removal ≡ Closed }
    ensures { IsTrue result ↔ ((h : ℕ) → IsLive dcel.now.shape h → TurnsRight (point_at dcel.now) dcel.now.shape h) }
{
    for number in 0..dcel.num_directed_edges() {
        if !turns_right_after(dcel, FixedDirectedEdgeHandle::new(number)) {
            return false;
        }
    }
    true
}

// Inner half edges may turn as they like.
fn turns_right_after<DE, UE, F, A: Allocator>(
    dcel: &Dcel<Point, DE, UE, F, A>,
    edge: FixedDirectedEdgeHandle,
) -> bool
    requires { IsLive dcel.now.shape edge }
    ensures { IsTrue result ↔ TurnsRight (point_at dcel.now) dcel.now.shape edge }
{
    let half = dcel.directed_edge(edge);
    if !half.is_outer_edge() {
        return true;
    }
    if half.rev().is_outer_edge() {
        return false;
    }
    if bends_left(half) {
        return false;
    }
    true
}

// Returns whether the next half edge turns left.
fn bends_left<DE, UE, F, A: Allocator>(half: DirectedEdgeHandle<'_, Point, DE, UE, F, A>) -> bool
    requires { IsLive (mesh_behind half).shape (number_of half) }
    ensures { let m = mesh_behind half.entry in let h = number_of half.entry in
        IsTrue result ↔ TurnsLeft (point_at m (origin_of m.shape h)) (point_at m (end_of m.shape h)) (point_at m (end_of m.shape (next_of m.shape h))) }
{
    orientation(
        point_of(half.from()),
        point_of(half.to()),
        point_of(half.next().to()),
    )
    .is_on_left_side()
}

fn begins_once<DE, UE, F, A: Allocator>(dcel: &Dcel<Point, DE, UE, F, A>, way: Way) -> bool
    requires { dcel.now.shape.removal ≡ Closed }
    ensures { IsTrue result ↔ BeginsOnce (leads_to way (point_at dcel.now) dcel.now.shape) dcel.now.shape }
{
    let mut begun = false;
    for number in 0..dcel.num_directed_edges() {
        if begins(dcel, FixedDirectedEdgeHandle::new(number), way) {
            if begun {
                return false;
            }
            begun = true;
        }
    }
    true
}

// Returns whether a half edge of the outer face leads that way, and the one before it doesn't.
fn begins<DE, UE, F, A: Allocator>(
    dcel: &Dcel<Point, DE, UE, F, A>,
    edge: FixedDirectedEdgeHandle,
    way: Way,
) -> bool
    requires { IsLive dcel.now.shape edge }
    ensures { IsTrue result ↔ Begins (leads_to way (point_at dcel.now) dcel.now.shape) dcel.now.shape edge }
{
    let half = dcel.directed_edge(edge);
    if !half.is_outer_edge() {
        return false;
    }
    if leads(half.prev(), way) {
        return false;
    }
    leads(half, way)
}

fn leads<DE, UE, F, A: Allocator>(
    half: DirectedEdgeHandle<'_, Point, DE, UE, F, A>,
    way: Way,
) -> bool
    requires { IsLive (mesh_behind half).shape (number_of half) }
    ensures { IsTrue result ↔ leads_to way (point_at (mesh_behind half.entry)) (mesh_behind half.entry).shape (number_of half.entry) }
{
    let from = point_of(half.from());
    let to = point_of(half.to());
    match way {
        Way::Right => is_right_of(from, to),
        Way::Left => is_right_of(to, from),
    }
}

// Returns whether b is to the right of a, or straight above it.
fn is_right_of(a: Point, b: Point) -> bool
    ensures { IsTrue result ↔ IsRightOf a b }
{
    if a.x == b.x {
        return a.y < b.y;
    }
    a.x < b.x
}
