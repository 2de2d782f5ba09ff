//! The elements of one kind that an open removal has given up.

ghost use Rattle.std.specs.Prelude.{◌≡◌, ℕ, ◌<◌, ◌==◌, ◌↔◌, IfOk, IsTrue, drop, false, length, slice_index, suc, true, [], OnOk, OnErr};
ghost use Rattle.std.specs.List.{list_any};
ghost use Rattle.dcel_maps.specs.Removals.{ascending, GoesUp};

use crate::sorting::sort;
use dcel_fixed::{FixedHandleImpl, InnerTag};
use std::alloc::{AllocError, Allocator};
use std::marker::Model;

/// The elements of one kind that are given up.
///
/// Contracts see their numbers in ascending order.
#[derive(Drop)]
pub struct GivenUp<Kind, A: Allocator> {
    // The elements twice: in ascending order, for binary search, and then in the order in which
    // they were given, since most lists to be matched have that one.
    handles: Vec<FixedHandleImpl<Kind, InnerTag>, A>,
}

impl<Kind, A: Allocator> Model for GivenUp<Kind, A> {
    ghost use Rattle.std.specs.Prelude.{ℕ, List};

    ghost Value = { List ℕ };

    ghost use Rattle.dcel_record.specs.GivenUp.{first_half, IsTwice};

    ghost view = { λ given_up. first_half given_up.handles.items };

    ghost invariant = { λ given_up. IsTwice given_up.handles.items };
}

impl<Kind, A: Allocator> GivenUp<Kind, A> {
    /// Creates a set without elements, without allocating.
    #[inline]
    pub fn none(alloc: A) -> Self
        ensures { result ≡ [] }
    {
        GivenUp {
            handles: Vec::new(alloc),
        }
    }

    /// Returns the elements in ascending order.
    #[inline]
    pub fn as_slice(&self) -> &[FixedHandleImpl<Kind, InnerTag>]
        ensures { result.now ≡ self.now }
    {
        &self.handles[..self.handles.len() / 2]
    }

    /// Returns whether the element is one of them, by binary search.
    pub fn contains(&self, handle: &FixedHandleImpl<Kind, InnerTag>) -> bool
        ensures { result ≡ list_any (λ given_up. given_up == handle.now) self.now }
    {
        self.handles[..self.handles.len() / 2]
            .binary_search(handle)
            .is_ok()
    }
}

impl<Kind: Copy, A: Allocator> GivenUp<Kind, A> {
    /// Gives up the elements of the list, which may be in any order, and no others.
    ///
    /// It allocates at most once, if its memory isn't enough. If memory runs out it returns
    /// `AllocError`, and no element is given up.
    pub fn give_up(&mut self, list: &[FixedHandleImpl<Kind, InnerTag>]) -> Result<(), AllocError>
        ensures given_up { OnOk result (self.new ≡ ascending list.now) }
        ensures refused { OnErr result (self.new ≡ []) }
    {
        self.handles.clear();
        self.handles.reserve_exact(2 * list.len())?;
        self.handles.extend_from_slice(list)?;
        sort(&mut self.handles);
        self.handles.extend_from_slice(list)?;
        Ok(())
    }
}

impl<Kind, A: Allocator> GivenUp<Kind, A> {
    /// Returns whether the list names all of them and nothing else, each once, in any order.
    ///
    /// Asks that none was given up twice. The time is linear for a list in the order in which they
    /// were given up; for another it may grow with the square of its length.
    pub fn matches(&self, list: &[FixedHandleImpl<Kind, InnerTag>]) -> bool
        requires { GoesUp self.now }
        ensures { IsTrue result ↔ (ascending list.now ≡ self.now) }
    {
        let (ascending, given) = self.handles.split_at(self.handles.len() / 2);
        if list.len() != ascending.len() {
            return false;
        }
        list == given || (all_stand_in(list, ascending) && names_none_twice(list))
    }
}

// Returns whether each element of the list is among the ascending ones, by binary search.
fn all_stand_in<Kind>(
    list: &[FixedHandleImpl<Kind, InnerTag>],
    ascending: &[FixedHandleImpl<Kind, InnerTag>],
) -> bool
    requires { GoesUp ascending.now }
    ensures { IsTrue result ↔ ((i : ℕ) → i < length list.now → list_any (λ given_up. given_up == slice_index list.now i) ascending.now ≡ true) }
{
    for index in 0..list.len() {
        if ascending.binary_search(&list[index]).is_err() {
            return false;
        }
    }
    true
}

// Returns whether no element is listed twice, comparing each with those after it.
fn names_none_twice<Kind>(list: &[FixedHandleImpl<Kind, InnerTag>]) -> bool
    ensures { IsTrue result ↔ ((i : ℕ) → i < length list.now → list_any (λ other. other == slice_index list.now i) (drop (suc i) list.now) ≡ false) }
{
    for index in 0..list.len() {
        let (_, rest) = list.split_at(index + 1);
        if rest.contains(&list[index]) {
            return false;
        }
    }
    true
}

impl<Kind, A: Allocator> GivenUp<Kind, A> {
    /// Returns a copy in memory of `alloc`, or `AllocError` if there is none.
    pub fn try_clone(&self, alloc: A) -> Result<Self, AllocError>
        ensures { IfOk result (λ copy. copy ≡ self.now) }
    {
        Ok(GivenUp {
            handles: self.handles.to_vec(alloc)?,
        })
    }
}
