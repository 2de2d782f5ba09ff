//! Segments made edges by flips.

ghost use Rattle.std.specs.Prelude.{◌≡◌, ◌≢◌, ◌↔◌, ℕ, List, [], ◌++◌, suc, ◌<◌, ◌≤◌, ◌+◌, length, take, drop, IsTrue, pos, ◌<ℤ◌};
ghost use Rattle.std.specs.Option.{option_to_list};
ghost use Rattle.dcel_maps.specs.Shapes.{IsLive, IsMesh};
ghost use Rattle.dcel_maps.specs.Walking.{Leads};
ghost use Rattle.dcel_plane.specs.Plane.{ListsCircled, point_at};
ghost use Rattle.dcel_plane.specs.segments.Segments.{BecomesCrossing, HasSidesOf, IsChannel, TriangulatesItsHull, TurnsInto};
ghost use Rattle.dcel_constrained.specs.Channels.{HasVertices, IsLeftAt, IsNarrowerBefore, IsNotWiderAfter, around};

use crate::segments::offsets::{far_corner, near_corner, offset_of};
use crate::segments::peaks::find_peak;
use dcel_predicates::Point;
use spade_dcel::dcel::Dcel;
use spade_dcel::handles::{FixedDirectedEdgeHandle, FixedVertexHandle};
use spade_dcel::laws::every_mesh;
use spade_dcel::operations::flip_cw;
use std::alloc::Allocator;

/// Flips edges that the segment between two vertices crosses until it is an edge.
///
/// The list has the half edges that it crosses, in order, and is empty afterwards. Flipped is each
/// time one that is wider, across the segment, than the one before it, and no narrower than the one
/// after it: its triangles make a quadrilateral that is strictly convex, and the sum of the widths
/// falls.
pub(crate) fn connect<DE, UE, F, A: Allocator, L: Allocator>(
    dcel: &mut Dcel<Point, DE, UE, F, A>,
    from: FixedVertexHandle,
    to: FixedVertexHandle,
    crossed: &mut Vec<FixedDirectedEdgeHandle, L>,
)
    requires differ { from ≢ to }
    requires planar { TriangulatesItsHull (point_at dcel.old) dcel.old }
    requires channel { IsChannel (point_at dcel.old) dcel.old.shape from to crossed.old.items }
    ensures turns { TurnsInto (point_at dcel.old) dcel.old dcel.new crossed.old.items }
    ensures planar { TriangulatesItsHull (point_at dcel.new) dcel.new }
    ensures joined { (h : ℕ) × Leads dcel.new.shape from to h }
    ensures lists { (due lacking : List ℕ) → HasSidesOf due dcel.old.shape crossed.old.items
        → ListsCircled (point_at dcel.old) dcel.old.shape (due ++ lacking) → ListsCircled (point_at dcel.new) dcel.new.shape (due ++ lacking) }
    ensures crossed { crossed.new.items ≡ [] }
{
    // What is taken out leaves a gap, which moves along the list: taken out of its middle it would cost as
    // much as the list is long.
    let mut at = 0;
    let mut gap = 0;
    while gap < crossed.len() {
        at = find_peak(dcel, from, to, crossed, at, gap);
        gap = turn(dcel, from, to, crossed, at, gap);
    }
    crossed.clear();
}

/// Flips the edge at a place of the list, behind a gap, and puts in its place what crosses the segment
/// then, or makes the gap longer. Returns how long it is.
fn turn<DE, UE, F, A: Allocator, L: Allocator>(
    dcel: &mut Dcel<Point, DE, UE, F, A>,
    from: FixedVertexHandle,
    to: FixedVertexHandle,
    crossed: &mut Vec<FixedDirectedEdgeHandle, L>,
    at: usize,
    gap: usize,
) -> usize
    requires planar { TriangulatesItsHull (point_at dcel.old) dcel.old }
    requires channel { IsChannel (point_at dcel.old) dcel.old.shape from to (around crossed.old.items at gap) }
    requires place { at + gap < length crossed.old.items }
    requires before { IsNarrowerBefore (point_at dcel.old) dcel.old.shape from to (around crossed.old.items at gap) at }
    requires after { IsNotWiderAfter (point_at dcel.old) dcel.old.shape from to (around crossed.old.items at gap) at }
    ensures left { IsLeftAt dcel.old dcel.new from to (around crossed.old.items at gap) (around crossed.new.items at result) at }
    ensures within { at + result ≤ length crossed.new.items }
    ensures mesh { IsMesh dcel.new }
{
    let edge = crossed[at + gap];
    let still = crossing_after(dcel, from, to, edge);
    flip_cw(dcel, edge.as_undirected());
    put_or_remove(crossed, at, gap, still)
}

/// Returns the half of an edge that crosses the segment from right to left once it is flipped, if one
/// does.
fn crossing_after<DE, UE, F, A: Allocator>(
    dcel: &Dcel<Point, DE, UE, F, A>,
    from: FixedVertexHandle,
    to: FixedVertexHandle,
    edge: FixedDirectedEdgeHandle,
) -> Option<FixedDirectedEdgeHandle>
    requires ends { HasVertices dcel.now.shape from to }
    requires live { IsLive dcel.now.shape edge }
    ensures { BecomesCrossing (point_at dcel.now) dcel.now.shape from to edge (option_to_list result) }
{
    let near = offset_of(dcel, from, to, near_corner(dcel, edge));
    let far = offset_of(dcel, from, to, far_corner(dcel, edge));
    if is_split(near, far) {
        return Some(edge);
    }
    if is_split(far, near) {
        return Some(edge.rev());
    }
    None
}

/// Returns whether the first of two offsets is on the right, and the second on the left.
pub(crate) fn is_split(right: i128, left: i128) -> bool
    ensures { IsTrue result ↔ ((right <ℤ pos 0) × (pos 0 <ℤ left)) }
{
    if right >= 0 {
        return false;
    }
    left > 0
}

/// Replaces the item of a list that is behind a gap, or takes it into the gap. Returns how long that is.
fn put_or_remove<L: Allocator>(
    crossed: &mut Vec<FixedDirectedEdgeHandle, L>,
    at: usize,
    gap: usize,
    item: Option<FixedDirectedEdgeHandle>,
) -> usize
    requires { at + gap < length crossed.old.items }
    ensures list { around crossed.new.items at result ≡ take at (around crossed.old.items at gap) ++ (option_to_list item ++ drop (suc at) (around crossed.old.items at gap)) }
    ensures within { at + result ≤ length crossed.new.items }
{
    match item {
        Some(half) => {
            crossed[at + gap] = half;
            gap
        }
        None => gap + 1,
    }
}
