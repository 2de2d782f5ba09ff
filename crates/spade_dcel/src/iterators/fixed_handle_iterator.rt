//! Fixed handles of one kind, in the order of their numbers.

ghost use Rattle.std.specs.Prelude.{◌≡◌, ◌≤◌, ◌^◌, length};
ghost use Rattle.std.specs.Iterator.{YieldsFirst, YieldsLast, item_count};
ghost use Rattle.dcel_maps.specs.Numbers.{numbers_between};

use dcel_fixed::{FixedHandleImpl, InnerOuterMarker};
use std::marker::{Model, PhantomData};

/// Fixed handles of one kind, in the order of their numbers.
///
/// Use the aliases, such as [`FixedVertexIterator`](crate::iterators::FixedVertexIterator).
///
/// It does not allocate. Contracts see the numbers still to come. `next` and `next_back` may be
/// mixed freely.
#[derive(Drop)]
pub struct FixedHandleIterator<Kind, InnerOuter: InnerOuterMarker> {
    // The first number still to come, and the one past the last.
    start: usize,
    end: usize,
    kind: PhantomData<Kind>,
    inner_outer: PhantomData<InnerOuter>,
}

impl<Kind, InnerOuter: InnerOuterMarker> Model for FixedHandleIterator<Kind, InnerOuter> {
    ghost use Rattle.std.specs.Prelude.{ℕ, List, ◌≤◌, ◌^◌};
    ghost use Rattle.dcel_maps.specs.Numbers.{numbers_between};

    ghost Value = { List ℕ };

    ghost view = { λ handles. numbers_between handles.start handles.end };

    ghost invariant = { λ handles. (handles.start ≤ handles.end) × (handles.end ≤ 2 ^ 32) };
}

impl<Kind, InnerOuter: InnerOuterMarker> FixedHandleIterator<Kind, InnerOuter> {
    /// Creates an iterator over the handles with the numbers from 0 to `to - 1`.
    ///
    /// Asks that `to` is at most 2^32, since the number of a handle is below that.
    #[inline]
    pub fn new(to: usize) -> Self
        requires { to ≤ 2 ^ 32 }
        ensures items { result ≡ numbers_between 0 to }
        ensures count { length result ≡ to }
    {
        FixedHandleIterator {
            start: 0,
            end: to,
            kind: PhantomData,
            inner_outer: PhantomData,
        }
    }
}

impl<Kind, InnerOuter: InnerOuterMarker> Iterator for FixedHandleIterator<Kind, InnerOuter> {
    type Item = FixedHandleImpl<Kind, InnerOuter>;

    ghost next_gives = { YieldsFirst (λ handles. handles) };

    ghost remaining = { item_count (λ handles. handles) };

    #[inline]
    fn next(&mut self) -> Option<FixedHandleImpl<Kind, InnerOuter>> {
        if self.start == self.end {
            return None;
        }
        let handle = FixedHandleImpl::new(self.start);
        self.start += 1;
        Some(handle)
    }

    #[inline]
    fn size_hint(&self) -> (usize, Option<usize>) {
        let left = self.len();
        (left, Some(left))
    }
}

impl<Kind, InnerOuter: InnerOuterMarker> DoubleEndedIterator
    for FixedHandleIterator<Kind, InnerOuter> {
    ghost next_back_gives = { YieldsLast (λ handles. handles) };

    #[inline]
    fn next_back(&mut self) -> Option<FixedHandleImpl<Kind, InnerOuter>> {
        if self.start == self.end {
            return None;
        }
        self.end -= 1;
        Some(FixedHandleImpl::new(self.end))
    }
}

impl<Kind, InnerOuter: InnerOuterMarker> ExactSizeIterator
    for FixedHandleIterator<Kind, InnerOuter> {
    #[inline]
    fn len(&self) -> usize {
        self.end - self.start
    }
}
