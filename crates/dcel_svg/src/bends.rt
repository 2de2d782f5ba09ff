//! Edges that join the same two vertices.

use crate::reading::drawn;
use dcel_drawn::Bend;
use spade_dcel::dcel::Dcel;
use spade_dcel::handles::FixedUndirectedEdgeHandle;
use std::alloc::{AllocError, Allocator};
use std::num::nearest_usize_to_f64;

/// An edge with its ends, the lesser first.
#[derive(Clone, Copy, PartialEq, Eq, PartialOrd, Ord)]
struct Joined {
    low: usize,
    high: usize,
    is_given_up: bool,
    edge: usize,
}

impl Joined {
    fn joins_the_same(self, other: Option<Joined>) -> bool {
        match other {
            Some(other) => self.low == other.low && self.high == other.high,
            None => false,
        }
    }
}

/// Which one an edge is of those that join the same vertices, the live ones first, how many of these
/// are live, and how many they are.
///
/// An edge that is not drawn, or bends already, is one of none.
#[derive(Clone, Copy)]
pub(crate) struct Rank {
    pub place: usize,
    pub live: usize,
    pub count: usize,
}

impl Rank {
    /// Returns how far on the left of the straight line the edge has to bend, as a part of its
    /// length: live ones to both sides, and beyond them those that are given up.
    pub fn offset(self) -> f64 {
        let middle = if self.live > 0 { self.live } else { self.count };
        let place: f64 = nearest_usize_to_f64(self.place);
        (place - (nearest_usize_to_f64(middle) - 1.0) / 2.0) * 0.36
    }
}

/// Returns the rank of each edge, among those that don't bend yet: live edges, and those that are
/// given up if these lay somewhere `before`.
pub(crate) fn ranks<V, DE, UE, F, A: Allocator, B: Allocator + Copy>(
    alloc: B,
    mesh: &Dcel<V, DE, UE, F, A>,
    before: Option<&Dcel<V, DE, UE, F, A>>,
    bends: &[Option<Bend>],
) -> Result<Vec<Rank, B>, AllocError> {
    let mut ranks = Vec::new(alloc);
    for _ in 0..mesh.num_undirected_edges() {
        ranks.push(Rank {
            place: 0,
            live: 0,
            count: 0,
        })?;
    }
    let joined = sorted_by_ends(alloc, mesh, before, bends)?;
    set_places(&mut ranks, joined.as_slice());
    set_counts(&mut ranks, joined.as_slice());
    Ok(ranks)
}

/// Lists all edges that are drawn and don't bend yet, those with the same ends one after another.
fn sorted_by_ends<V, DE, UE, F, A: Allocator, B: Allocator + Copy>(
    alloc: B,
    mesh: &Dcel<V, DE, UE, F, A>,
    before: Option<&Dcel<V, DE, UE, F, A>>,
    bends: &[Option<Bend>],
) -> Result<Vec<Joined, B>, AllocError> {
    let mut joined = Vec::new(alloc);
    for number in 0..mesh.num_undirected_edges() {
        if let Some(Some(_)) = bends.get(number) {
            continue;
        }
        let half = FixedUndirectedEdgeHandle::new(number).as_directed();
        if let Some(edge) = drawn(mesh, before, half) {
            let (from, to) = (edge.from().index(), edge.to().index());
            joined.push(Joined {
                low: from.min(to),
                high: from.max(to),
                is_given_up: mesh.get_directed_edge(half).is_none(),
                edge: number,
            })?;
        }
    }
    joined.sort_unstable();
    Ok(joined)
}

fn set_places(ranks: &mut [Rank], joined: &[Joined]) {
    let mut last = None;
    let mut place = 0usize;
    for one in joined {
        place = if one.joins_the_same(last) {
            place.saturating_add(1)
        } else {
            0
        };
        if let Some(rank) = ranks.get_mut(one.edge) {
            rank.place = place;
        }
        last = Some(*one);
    }
}

/// Sets the counts, once the places are set: from the last edge back, the first that comes of some
/// with the same ends has the greatest place, and so has the first live one among these.
fn set_counts(ranks: &mut [Rank], joined: &[Joined]) {
    let mut last = None;
    let (mut live, mut count) = (0usize, 0usize);
    for one in joined.iter().rev() {
        if let Some(rank) = ranks.get_mut(one.edge) {
            if !one.joins_the_same(last) {
                (live, count) = (0, rank.place.saturating_add(1));
            }
            if !one.is_given_up && live == 0 {
                live = rank.place.saturating_add(1);
            }
            (rank.live, rank.count) = (live, count);
        }
        last = Some(*one);
    }
}
