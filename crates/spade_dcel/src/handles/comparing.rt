//! Equality, order and hash of borrowed handles, all by their numbers.

ghost use Rattle.std.specs.Prelude.{nat_eq, refl};
ghost use Rattle.std.specs.Cmp.{nat_cmp_total, nat_eq_equiv, on_equiv, on_per, on_po, on_total, partial_equiv_from_equiv, unsigned_Decides, unsigned_po, unsigned_ties};
ghost use Rattle.std.specs.Hash.{on_Alike, same_Alike};
ghost use Rattle.std.specs.Hash as fed;
ghost use Rattle.std.specs.Ordering.{as_partial_cmp, nat_cmp, on};
ghost use Rattle.spade_dcel.specs.Handles.{number_of};

use crate::handles::definitions::DynamicHandleImpl;
use crate::handles::kinds::DelaunayElementType;
use dcel_fixed::InnerOuterMarker;
use std::alloc::Allocator;
use std::cmp::Ordering;
use std::hash::{Hash, Hasher};

/// Handles of one kind are equal if their numbers are, even in different meshes.
impl<'a, V, DE, UE, F, Kind, InnerOuter, A> PartialEq
    for DynamicHandleImpl<'a, V, DE, UE, F, Kind, InnerOuter, A>
where
    Kind: DelaunayElementType,
    InnerOuter: InnerOuterMarker,
    A: Allocator,
{
    ghost eq = { on (λ handle. number_of handle) nat_eq };

    ghost laws = { on_per (λ handle. number_of handle) (partial_equiv_from_equiv nat_eq_equiv) };

    #[inline]
    fn eq(&self, other: &Self) -> bool {
        self.number == other.number
    }
}

impl<'a, V, DE, UE, F, Kind: DelaunayElementType, InnerOuter: InnerOuterMarker, A: Allocator> Eq
    for DynamicHandleImpl<'a, V, DE, UE, F, Kind, InnerOuter, A> {
    ghost laws = { on_equiv (λ handle. number_of handle) nat_eq_equiv };
}

impl<'a, V, DE, UE, F, Kind, InnerOuter, A> PartialOrd
    for DynamicHandleImpl<'a, V, DE, UE, F, Kind, InnerOuter, A>
where
    Kind: DelaunayElementType,
    InnerOuter: InnerOuterMarker,
    A: Allocator,
{
    ghost partial_cmp = { as_partial_cmp (on (λ handle. number_of handle) nat_cmp) };

    ghost laws = { on_po (λ handle. number_of handle) unsigned_po };

    #[inline]
    fn partial_cmp(&self, other: &Self) -> Option<Ordering> {
        Some(self.cmp(other))
    }
}

/// Handles are ordered by their numbers.
impl<'a, V, DE, UE, F, Kind: DelaunayElementType, InnerOuter: InnerOuterMarker, A: Allocator> Ord
    for DynamicHandleImpl<'a, V, DE, UE, F, Kind, InnerOuter, A> {
    ghost cmp = { on (λ handle. number_of handle) nat_cmp };

    ghost total = { on_total (λ handle. number_of handle) nat_cmp_total };

    ghost matches_partial_cmp = { λ x y. refl };

    ghost matches_eq = { λ x y. unsigned_ties (number_of x) (number_of y) };

    #[inline]
    fn cmp(&self, other: &Self) -> Ordering {
        self.number.cmp(&other.number)
    }
}

/// A handle is hashed by its number, as its fixed handle is.
impl<'a, V, DE, UE, F, Kind: DelaunayElementType, InnerOuter: InnerOuterMarker, A: Allocator> Hash
    for DynamicHandleImpl<'a, V, DE, UE, F, Kind, InnerOuter, A> {
    ghost hash_input = { λ handle. fed.u32 (number_of handle) };

    ghost respects_eq = { (on_Alike (λ handle. number_of handle) (same_Alike fed.u32 unsigned_Decides)).fed };

    #[inline]
    fn hash<H: Hasher>(&self, state: &mut H) {
        self.number.hash(state);
    }
}
