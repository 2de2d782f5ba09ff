//! In a list of half edges that a segment crosses, one that is wider than those beside it.

ghost use Rattle.std.specs.Prelude.{◌≡◌, ◌<◌, ◌≤◌, ◌+◌, ◌-◌, ◌↔◌, IsTrue, length, ◌<ℤ◌};
ghost use Rattle.dcel_maps.specs.Shapes.{IsLive};
ghost use Rattle.dcel_plane.specs.Plane.{point_at};
ghost use Rattle.dcel_plane.specs.segments.Segments.{width};
ghost use Rattle.dcel_constrained.specs.Channels.{AreLive, HasVertices, IsNarrowerBefore, IsNotWiderAfter, around};

use crate::segments::offsets::width_of;
use dcel_predicates::Point;
use spade_dcel::dcel::Dcel;
use spade_dcel::handles::{FixedDirectedEdgeHandle, FixedVertexHandle};
use std::alloc::Allocator;

/// Returns the place of a half edge that is wider than the one before it, and no narrower than the one
/// after it.
///
/// It looks for it from a place of the list on. Before the place that it returns the list has a gap,
/// which moves there: so many items are none.
pub(crate) fn find_peak<DE, UE, F, A: Allocator, L: Allocator>(
    dcel: &Dcel<Point, DE, UE, F, A>,
    from: FixedVertexHandle,
    to: FixedVertexHandle,
    crossed: &mut Vec<FixedDirectedEdgeHandle, L>,
    start: usize,
    gap: usize,
) -> usize
    requires ends { HasVertices dcel.now.shape from to }
    requires live { AreLive dcel.now.shape (around crossed.old.items start gap) }
    requires start { start + gap ≤ length crossed.old.items }
    requires some { gap < length crossed.old.items }
    ensures same { around crossed.new.items result gap ≡ around crossed.old.items start gap }
    ensures place { result + gap < length crossed.new.items }
    ensures before { IsNarrowerBefore (point_at dcel.now) dcel.now.shape from to (around crossed.old.items start gap) result }
    ensures after { IsNotWiderAfter (point_at dcel.now) dcel.now.shape from to (around crossed.old.items start gap) result }
{
    let within = stay_within(crossed, start, gap);
    let top = climb(dcel, from, to, crossed, within, gap);
    climb_back(dcel, from, to, crossed, top, gap)
}

/// Goes back by one from the end of the list.
fn stay_within<L: Allocator>(
    crossed: &mut Vec<FixedDirectedEdgeHandle, L>,
    at: usize,
    gap: usize,
) -> usize
    requires at { at + gap ≤ length crossed.old.items }
    requires some { gap < length crossed.old.items }
    ensures same { around crossed.new.items result gap ≡ around crossed.old.items at gap }
    ensures place { result + gap < length crossed.new.items }
{
    if at + gap < crossed.len() {
        return at;
    }
    step_back(crossed, at, gap)
}

/// Goes on in the list as long as the next one is wider.
fn climb<DE, UE, F, A: Allocator, L: Allocator>(
    dcel: &Dcel<Point, DE, UE, F, A>,
    from: FixedVertexHandle,
    to: FixedVertexHandle,
    crossed: &mut Vec<FixedDirectedEdgeHandle, L>,
    start: usize,
    gap: usize,
) -> usize
    requires ends { HasVertices dcel.now.shape from to }
    requires live { AreLive dcel.now.shape (around crossed.old.items start gap) }
    requires start { start + gap < length crossed.old.items }
    ensures same { around crossed.new.items result gap ≡ around crossed.old.items start gap }
    ensures place { result + gap < length crossed.new.items }
    ensures after { IsNotWiderAfter (point_at dcel.now) dcel.now.shape from to (around crossed.old.items start gap) result }
{
    let mut at = start;
    while at + gap + 1 < crossed.len() {
        if !is_wider(dcel, from, to, crossed[at + gap + 1], crossed[at + gap]) {
            return at;
        }
        at = step_on(crossed, at, gap);
    }
    at
}

/// Goes back in the list as long as the one before is no narrower.
fn climb_back<DE, UE, F, A: Allocator, L: Allocator>(
    dcel: &Dcel<Point, DE, UE, F, A>,
    from: FixedVertexHandle,
    to: FixedVertexHandle,
    crossed: &mut Vec<FixedDirectedEdgeHandle, L>,
    start: usize,
    gap: usize,
) -> usize
    requires ends { HasVertices dcel.now.shape from to }
    requires live { AreLive dcel.now.shape (around crossed.old.items start gap) }
    requires start { start + gap < length crossed.old.items }
    requires after { IsNotWiderAfter (point_at dcel.now) dcel.now.shape from to (around crossed.old.items start gap) start }
    ensures same { around crossed.new.items result gap ≡ around crossed.old.items start gap }
    ensures place { result + gap < length crossed.new.items }
    ensures before { IsNarrowerBefore (point_at dcel.now) dcel.now.shape from to (around crossed.old.items start gap) result }
    ensures after { IsNotWiderAfter (point_at dcel.now) dcel.now.shape from to (around crossed.old.items start gap) result }
{
    let mut at = start;
    while at > 0 {
        if is_wider(dcel, from, to, crossed[at + gap], crossed[at - 1]) {
            return at;
        }
        at = step_back(crossed, at, gap);
    }
    at
}

/// Moves the gap on by one, and returns its place.
fn step_on<L: Allocator>(
    crossed: &mut Vec<FixedDirectedEdgeHandle, L>,
    at: usize,
    gap: usize,
) -> usize
    requires { at + gap < length crossed.old.items }
    ensures place { result ≡ at + 1 }
    ensures same { around crossed.new.items result gap ≡ around crossed.old.items at gap }
    ensures long { length crossed.new.items ≡ length crossed.old.items }
{
    crossed[at] = crossed[at + gap];
    at + 1
}

/// Moves the gap back by one, and returns its place.
fn step_back<L: Allocator>(
    crossed: &mut Vec<FixedDirectedEdgeHandle, L>,
    at: usize,
    gap: usize,
) -> usize
    requires some { 0 < at }
    requires at { at + gap ≤ length crossed.old.items }
    ensures place { result ≡ at - 1 }
    ensures same { around crossed.new.items result gap ≡ around crossed.old.items at gap }
    ensures long { length crossed.new.items ≡ length crossed.old.items }
{
    crossed[at - 1 + gap] = crossed[at - 1];
    at - 1
}

/// Returns whether a half edge is wider than another one, across a segment.
fn is_wider<DE, UE, F, A: Allocator>(
    dcel: &Dcel<Point, DE, UE, F, A>,
    from: FixedVertexHandle,
    to: FixedVertexHandle,
    edge: FixedDirectedEdgeHandle,
    other: FixedDirectedEdgeHandle,
) -> bool
    requires ends { HasVertices dcel.now.shape from to }
    requires edge { IsLive dcel.now.shape edge }
    requires other { IsLive dcel.now.shape other }
    ensures { IsTrue result ↔ (width (point_at dcel.now) dcel.now.shape from to other <ℤ width (point_at dcel.now) dcel.now.shape from to edge) }
{
    width_of(dcel, from, to, edge) > width_of(dcel, from, to, other)
}
