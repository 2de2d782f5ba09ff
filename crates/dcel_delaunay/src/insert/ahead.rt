//! Points copied into the order in which they are inserted, some at a time. The processor then waits
//! for many of them together, and not for each on its own.

ghost use Rattle.std.specs.Prelude.{◌≡◌, ◌-◌, ◌<◌, ◌≤◌, [], IfOk, length, slice_get, slice_index_or};
ghost use Rattle.dcel_delaunay.specs.Bulk.{IsAhead};

use crate::insert::bulk::point_of;
use dcel_planar::Point;
use std::alloc::{AllocError, Allocator};

/// How many points are copied together.
const MANY: usize = 256;

/// Points copied into their order: those of a part of it, from the place `first` on.
#[derive(Drop)]
pub(crate) struct Ahead<A: Allocator> {
    pub(crate) first: usize,
    pub(crate) points: Vec<Option<Point>, A>,
}

impl<A: Allocator + Clone> Ahead<A> {
    // Makes room for some of so many points.
    pub(crate) fn new(alloc: &A, count: usize) -> Result<Self, AllocError>
        ensures first { IfOk result (λ ahead. ahead.first ≡ 0) }
        ensures none { IfOk result (λ ahead. ahead.points.items ≡ []) }
    {
        let points = Vec::with_capacity(alloc.clone()?, count.min(MANY))?;
        Ok(Ahead { first: 0, points })
    }
}

impl<A: Allocator> Ahead<A> {
    // Returns the point in this place of the order, if there is one. If it isn't copied yet, some are,
    // from it on.
    pub(crate) fn next(&mut self, points: &[Point], order: &[usize], place: usize) -> Option<Point>
        requires within { place < length order.now }
        requires before { self.old.first ≤ place }
        requires ahead { IsAhead points.now order.now self.old.first self.old.points.items }
        ensures point { result ≡ slice_get points.now (slice_index_or order.now place 0) }
        ensures before { self.new.first ≤ place }
        ensures ahead { IsAhead points.now order.now self.new.first self.new.points.items }
    {
        match self.kept(place) {
            Some(point) => point,
            None => {
                self.fill(points, order, place);
                point_of(points, order[place])
            }
        }
    }

    // Returns what is copied of this place.
    fn kept(&self, place: usize) -> Option<Option<Point>>
        requires { self.now.first ≤ place }
        ensures { result ≡ slice_get self.now.points.items (place - self.now.first) }
    {
        self.points.get(place - self.first).copied()
    }

    // Copies points from this place on, as many as there is room for.
    fn fill(&mut self, points: &[Point], order: &[usize], first: usize)
        ensures first { self.new.first ≡ first }
        ensures ahead { IsAhead points.now order.now first self.new.points.items }
    {
        self.first = first;
        self.points.clear();
        for place in first..order.len() {
            if self.points.len() >= self.points.capacity() {
                return;
            }
            self.points.push_reserved(point_of(points, order[place]));
        }
    }
}
