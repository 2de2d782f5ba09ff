//! The elements of one kind, borrowed, in the order of their numbers.

ghost use Rattle.std.specs.Prelude.{◌≡◌, ◌≤◌, ◌^◌, length};
ghost use Rattle.std.specs.Iterator.{YieldsFirstBy, YieldsLastBy, item_count};
ghost use Rattle.spade_dcel.specs.Handles.{mesh_behind, number_of};
ghost use Rattle.dcel_maps.specs.Kinds.{number_of_elements};
ghost use Rattle.dcel_maps.specs.Numbers.{numbers_between};
ghost use Rattle.dcel_maps.specs.Walking.{in_mesh};

use crate::dcel::Dcel;
use crate::handles::{DelaunayElementType, DynamicHandleImpl};
use crate::iterators::fixed_handle_iterator::FixedHandleIterator;
use dcel_fixed::InnerOuterMarker;
use std::alloc::{Allocator, Global};
use std::marker::Model;

/// The elements of one kind, borrowed, in the order of their numbers.
///
/// Use the aliases, such as [`VertexIterator`](crate::iterators::VertexIterator).
///
/// It does not allocate. Contracts see the elements still to come, each as its mesh and its number.
/// `next` and `next_back` may be mixed freely.
#[derive(Drop)]
pub struct DynamicHandleIterator<
    'a,
    V,
    DE,
    UE,
    F,
    Kind: DelaunayElementType,
    InnerOuter: InnerOuterMarker,
    A: Allocator = Global,
> {
    dcel: &'a Dcel<V, DE, UE, F, A>,
    fixed_iterator: FixedHandleIterator<Kind, InnerOuter>,
}

impl<'a, V, DE, UE, F, Kind: DelaunayElementType, InnerOuter: InnerOuterMarker, A: Allocator> Model
    for DynamicHandleIterator<'a, V, DE, UE, F, Kind, InnerOuter, A> {
    ghost use Rattle.std.specs.Prelude.{ℕ, List, ◌<◌, All};
    ghost use Rattle.dcel_maps.specs.Kinds.{number_of_elements};
    ghost use Rattle.dcel_maps.specs.Shapes.{Mesh};
    ghost use Rattle.dcel_maps.specs.Walking.{in_mesh};

    ghost Value = { List (Mesh V DE UE F × ℕ) };

    ghost view = { λ elements. in_mesh elements.dcel.now elements.fixed_iterator };

    ghost invariant = { λ elements. All (λ n. n < number_of_elements Kind.kind elements.dcel.now.shape) elements.fixed_iterator };
}

impl<'a, V, DE, UE, F, Kind, InnerOuter, A> DynamicHandleIterator<
    'a,
    V,
    DE,
    UE,
    F,
    Kind,
    InnerOuter,
    A,
>
where
    Kind: DelaunayElementType,
    InnerOuter: InnerOuterMarker,
    A: Allocator,
{
    /// Creates an iterator over all elements of its kind, given-up ones included.
    #[inline]
    pub fn new(dcel: &'a Dcel<V, DE, UE, F, A>) -> Self
        ensures items { result ≡ in_mesh dcel.now (numbers_between 0 (number_of_elements Kind.kind dcel.now.shape)) }
        ensures count { length result ≡ number_of_elements Kind.kind dcel.now.shape }
        ensures few { length result ≤ 2 ^ 32 }
    {
        DynamicHandleIterator {
            dcel,
            fixed_iterator: FixedHandleIterator::new(Kind::num_elements(dcel)),
        }
    }
}

impl<'a, V, DE, UE, F, Kind, InnerOuter, A> Iterator
    for DynamicHandleIterator<'a, V, DE, UE, F, Kind, InnerOuter, A>
where
    Kind: DelaunayElementType,
    InnerOuter: InnerOuterMarker,
    A: Allocator,
{
    type Item = DynamicHandleImpl<'a, V, DE, UE, F, Kind, InnerOuter, A>;

    ghost next_gives = { YieldsFirstBy (λ element. (mesh_behind element, number_of element)) (λ elements. elements) };

    ghost remaining = { item_count (λ elements. elements) };

    #[inline]
    fn next(&mut self) -> Option<DynamicHandleImpl<'a, V, DE, UE, F, Kind, InnerOuter, A>> {
        let handle = self.fixed_iterator.next()?;
        Some(DynamicHandleImpl::new(self.dcel, handle))
    }

    #[inline]
    fn size_hint(&self) -> (usize, Option<usize>) {
        self.fixed_iterator.size_hint()
    }
}

impl<'a, V, DE, UE, F, Kind, InnerOuter, A> DoubleEndedIterator
    for DynamicHandleIterator<'a, V, DE, UE, F, Kind, InnerOuter, A>
where
    Kind: DelaunayElementType,
    InnerOuter: InnerOuterMarker,
    A: Allocator,
{
    ghost next_back_gives = { YieldsLastBy (λ element. (mesh_behind element, number_of element)) (λ elements. elements) };

    #[inline]
    fn next_back(&mut self) -> Option<DynamicHandleImpl<'a, V, DE, UE, F, Kind, InnerOuter, A>> {
        let handle = self.fixed_iterator.next_back()?;
        Some(DynamicHandleImpl::new(self.dcel, handle))
    }
}

impl<'a, V, DE, UE, F, Kind, InnerOuter, A> ExactSizeIterator
    for DynamicHandleIterator<'a, V, DE, UE, F, Kind, InnerOuter, A>
where
    Kind: DelaunayElementType,
    InnerOuter: InnerOuterMarker,
    A: Allocator,
{
    #[inline]
    fn len(&self) -> usize {
        self.fixed_iterator.len()
    }
}
