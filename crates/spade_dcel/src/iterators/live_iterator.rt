//! The live elements of one kind, borrowed, in the order of their numbers.

ghost use Rattle.std.specs.Prelude.{◌≡◌, true, IfSome};
ghost use Rattle.std.specs.Iterator.{YieldsFirstBy, YieldsLastBy, item_count};
ghost use Rattle.dcel_maps.specs.Numbers.{numbers_between};
ghost use Rattle.dcel_maps.specs.Kinds.{number_of_elements};
ghost use Rattle.dcel_maps.specs.Walking.{in_mesh};
ghost use Rattle.spade_dcel.specs.Handles.{mesh_behind, number_of};
ghost use Rattle.spade_dcel.specs.Live.{element_is_live, live_ones};

use crate::dcel::Dcel;
use crate::handles::{DelaunayElementType, DynamicHandleImpl};
use crate::iterators::dynamic_handle_iterator::DynamicHandleIterator;
use dcel_fixed::InnerOuterMarker;
use std::alloc::{Allocator, Global};
use std::marker::Model;

/// The live elements of one kind, borrowed, in the order of their numbers.
///
/// It skips those that an open removal has given up; if no removal is open, it lists all elements.
/// Each element is known to be live when it is returned, so a loop needn't test it.
///
/// Use the aliases, such as [`LiveVertexIterator`](crate::iterators::LiveVertexIterator).
///
/// It does not allocate. Contracts see the elements still to come, each as its mesh and its number.
/// `next` and `next_back` may be mixed freely.
#[derive(Drop)]
pub struct LiveIterator<
    'a,
    V,
    DE,
    UE,
    F,
    Kind: DelaunayElementType,
    InnerOuter: InnerOuterMarker,
    A: Allocator = Global,
> {
    elements: DynamicHandleIterator<'a, V, DE, UE, F, Kind, InnerOuter, A>,
}

impl<'a, V, DE, UE, F, Kind: DelaunayElementType, InnerOuter: InnerOuterMarker, A: Allocator> Model
    for LiveIterator<'a, V, DE, UE, F, Kind, InnerOuter, A> {
    ghost use Rattle.std.specs.Prelude.{ℕ, List};
    ghost use Rattle.dcel_maps.specs.Shapes.{Mesh};
    ghost use Rattle.spade_dcel.specs.Live.{live_ones};

    ghost Value = { List (Mesh V DE UE F × ℕ) };

    ghost view = { λ live. live_ones Kind.kind live.elements };
}

impl<'a, V, DE, UE, F, Kind, InnerOuter, A> LiveIterator<'a, V, DE, UE, F, Kind, InnerOuter, A>
where
    Kind: DelaunayElementType,
    InnerOuter: InnerOuterMarker,
    A: Allocator,
{
    /// Creates an iterator over the live elements of its kind.
    #[inline]
    pub fn new(dcel: &'a Dcel<V, DE, UE, F, A>) -> Self
        ensures items { result ≡ live_ones Kind.kind (in_mesh dcel.now (numbers_between 0 (number_of_elements Kind.kind dcel.now.shape))) }
    {
        LiveIterator::among(DynamicHandleIterator::new(dcel))
    }

    #[inline]
    pub(crate) fn among(
        elements: DynamicHandleIterator<'a, V, DE, UE, F, Kind, InnerOuter, A>,
    ) -> Self
        ensures { result ≡ live_ones Kind.kind elements.entry }
    {
        LiveIterator { elements }
    }
}

impl<'a, V, DE, UE, F, Kind, InnerOuter, A> Iterator
    for LiveIterator<'a, V, DE, UE, F, Kind, InnerOuter, A>
where
    Kind: DelaunayElementType,
    InnerOuter: InnerOuterMarker,
    A: Allocator,
{
    type Item = DynamicHandleImpl<'a, V, DE, UE, F, Kind, InnerOuter, A>;

    ghost next_gives = { λ s r t. YieldsFirstBy (λ element. (mesh_behind element, number_of element)) (λ elements. elements) s r t
        × IfSome r (λ element. element_is_live Kind.kind (mesh_behind element).shape (number_of element) ≡ true) };

    ghost remaining = { item_count (λ elements. elements) };

    #[inline]
    fn next(&mut self) -> Option<DynamicHandleImpl<'a, V, DE, UE, F, Kind, InnerOuter, A>> {
        first_live(&mut self.elements)
    }
}

impl<'a, V, DE, UE, F, Kind, InnerOuter, A> DoubleEndedIterator
    for LiveIterator<'a, V, DE, UE, F, Kind, InnerOuter, A>
where
    Kind: DelaunayElementType,
    InnerOuter: InnerOuterMarker,
    A: Allocator,
{
    ghost next_back_gives = { λ s r t. YieldsLastBy (λ element. (mesh_behind element, number_of element)) (λ elements. elements) s r t
        × IfSome r (λ element. element_is_live Kind.kind (mesh_behind element).shape (number_of element) ≡ true) };

    #[inline]
    fn next_back(&mut self) -> Option<DynamicHandleImpl<'a, V, DE, UE, F, Kind, InnerOuter, A>> {
        last_live(&mut self.elements)
    }
}

// Returns the first live element still to come, and consumes it with all before it.
fn first_live<'a, V, DE, UE, F, Kind, InnerOuter, A>(
    elements: &mut DynamicHandleIterator<'a, V, DE, UE, F, Kind, InnerOuter, A>,
) -> Option<DynamicHandleImpl<'a, V, DE, UE, F, Kind, InnerOuter, A>>
where
    Kind: DelaunayElementType,
    InnerOuter: InnerOuterMarker,
    A: Allocator,
    ensures first { YieldsFirstBy (λ element. (mesh_behind element, number_of element)) (live_ones Kind.kind) elements.old result elements.new }
    ensures live { IfSome result (λ element. element_is_live Kind.kind (mesh_behind element).shape (number_of element) ≡ true) }
{
    while let Some(element) = elements.next() {
        if element.is_live() {
            return Some(element);
        }
    }
    None
}

// Returns the last live element still to come, and consumes it with all after it.
fn last_live<'a, V, DE, UE, F, Kind, InnerOuter, A>(
    elements: &mut DynamicHandleIterator<'a, V, DE, UE, F, Kind, InnerOuter, A>,
) -> Option<DynamicHandleImpl<'a, V, DE, UE, F, Kind, InnerOuter, A>>
where
    Kind: DelaunayElementType,
    InnerOuter: InnerOuterMarker,
    A: Allocator,
    ensures last { YieldsLastBy (λ element. (mesh_behind element, number_of element)) (live_ones Kind.kind) elements.old result elements.new }
    ensures live { IfSome result (λ element. element_is_live Kind.kind (mesh_behind element).shape (number_of element) ≡ true) }
{
    while let Some(element) = elements.next_back() {
        if element.is_live() {
            return Some(element);
        }
    }
    None
}
