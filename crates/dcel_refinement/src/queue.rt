//! Triangles to be looked at, the worst first.

use spade_dcel::handles::FixedDirectedEdgeHandle;
use std::alloc::{AllocError, Allocator};

/// How many ranks there are.
pub(crate) const RANKS: usize = 64;

/// A half edge of a triangle, and how bad that triangle is.
#[derive(Clone, Copy)]
pub(crate) struct Ranked {
    /// The half edge.
    pub half: FixedDirectedEdgeHandle,
    /// The rank of the triangle, below [`RANKS`].
    pub rank: usize,
}

/// Half edges of triangles, in a bucket for each rank.
#[derive(Drop)]
pub(crate) struct Queue<A: Allocator> {
    buckets: Vec<Vec<FixedDirectedEdgeHandle, A>, A>,
    // No bucket from here on has any.
    end: usize,
    count: usize,
}

impl<A: Allocator + Clone> Queue<A> {
    /// Makes an empty queue.
    pub(crate) fn new(alloc: A) -> Result<Queue<A>, AllocError> {
        let mut buckets = Vec::new(alloc.clone()?);
        for _rank in 0..RANKS {
            buckets.push(Vec::new(alloc.clone()?))?;
        }
        Ok(Queue {
            buckets,
            end: 0,
            count: 0,
        })
    }
}

impl<A: Allocator> Queue<A> {
    /// Puts a half edge in.
    pub(crate) fn push(&mut self, ranked: Ranked) -> Result<(), AllocError> {
        let Some(bucket) = self.buckets.get_mut(ranked.rank) else {
            return Ok(());
        };
        bucket.push(ranked.half)?;
        self.end = self.end.max(ranked.rank.saturating_add(1));
        self.count = self.count.saturating_add(1);
        Ok(())
    }

    /// Returns how many there are.
    pub(crate) fn len(&self) -> usize {
        self.count
    }

    /// Takes out a half edge of the highest rank.
    pub(crate) fn pop(&mut self) -> Option<Ranked> {
        for _rank in 0..RANKS {
            let rank = self.end.checked_sub(1)?;
            if let Some(half) = self.buckets.get_mut(rank)?.pop() {
                self.count = self.count.saturating_sub(1);
                return Some(Ranked { half, rank });
            }
            self.end = rank;
        }
        None
    }
}
