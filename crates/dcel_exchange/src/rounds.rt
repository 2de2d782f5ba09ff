//! Whether the border that faces leave goes round given corners.

ghost use Rattle.std.specs.Prelude.{◌≡◌, ◌↔◌, ℕ, ◌<◌, IsTrue, MatchOption, false, length, slice_index};
ghost use Rattle.dcel_exchange.specs.Rounds.{GoesBy, GoesRound, HasOtherStart, StartsOutside};

use crate::lists::LinkLists;
use std::alloc::Allocator;

/// Returns whether the border of the links goes round these corners.
pub(crate) fn is_border<A: Allocator>(links: &LinkLists<A>, corners: &[u32]) -> bool
    requires origins { length links.now.origin.items ≡ length links.now.next.items }
    requires sides { length links.now.face.items ≡ length links.now.next.items }
    ensures round { IsTrue result → (start : ℕ) × GoesRound links.now start corners.now }
    ensures other { result ≡ false → (start : ℕ) → StartsOutside links.now (slice_index corners.now 0) start → HasOtherStart links.now corners.now }
{
    match corners.split_first() {
        Some((&first, rest)) => match find_start(links, first) {
            Some(start) => goes_by(links, first, start, rest),
            None => false,
        },
        None => false,
    }
}

/// Finds a half edge of the outer face that starts at a vertex.
fn find_start<A: Allocator>(links: &LinkLists<A>, vertex: u32) -> Option<usize>
    requires origins { length links.now.origin.items ≡ length links.now.next.items }
    requires sides { length links.now.face.items ≡ length links.now.next.items }
    ensures { MatchOption result ((h : ℕ) → ¬ StartsOutside links.now vertex h) (StartsOutside links.now vertex) }
{
    for half in 0..links.next.len() {
        if starts_outside(links, half, vertex) {
            return Some(half);
        }
    }
    None
}

/// Returns whether this is a half edge of the outer face and starts at a vertex.
fn starts_outside<A: Allocator>(links: &LinkLists<A>, half: usize, vertex: u32) -> bool
    requires origins { length links.now.origin.items ≡ length links.now.next.items }
    requires sides { length links.now.face.items ≡ length links.now.next.items }
    ensures { IsTrue result ↔ StartsOutside links.now vertex half }
{
    if half >= links.next.len() {
        return false;
    }
    if links.face[half] != 0 {
        return false;
    }
    links.origin[half] == vertex
}

/// Returns whether the outer face goes on by these corners, none of them the first one, and comes
/// back to the half edge `start`.
fn goes_by<A: Allocator>(links: &LinkLists<A>, first: u32, start: usize, corners: &[u32]) -> bool
    requires origins { length links.now.origin.items ≡ length links.now.next.items }
    requires sides { length links.now.face.items ≡ length links.now.next.items }
    requires within { start < length links.now.next.items }
    ensures { IsTrue result ↔ GoesBy links.now first start (slice_index links.now.next.items start) corners.now }
{
    let mut half = links.next[start] as usize;
    let mut left = corners;
    while let Some((&corner, after)) = left.split_first() {
        if corner == first {
            return false;
        }
        if !starts_outside(links, half, corner) {
            return false;
        }
        half = links.next[half] as usize;
        left = after;
    }
    half == start
}
