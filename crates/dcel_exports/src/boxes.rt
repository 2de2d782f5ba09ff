//! A box of any type as a pointer and its allocator.
//!
//! A struct that C holds has no type parameter, so each crate that keeps something for C has one of its
//! own, made of these two words. [`Opened`] is generic since a box is opened only with a proof that its
//! value may be dropped, which the bound `T: Drop` hands on.

ghost use Rattle.std.specs.Prelude.{◌≡◌};
ghost use Rattle.std.specs.Box.Ownership.{box_owns};

use std::alloc::Allocator;
use std::marker::Model;

/// What a box consists of. It owns the value and its memory, as the box did, and isn't freed by
/// itself.
pub struct Opened<T, A: Allocator> {
    /// Where the value is.
    pub at: *mut T,
    /// The allocator that its memory is from.
    pub alloc: A,
    pub ghost inside: { T },
}

impl<T, A: Allocator> Model for Opened<T, A> {
    ghost also_owns = { λ opened. box_owns (A.dealloc_token opened.alloc) T.row opened.at opened.inside };
}

impl<T: Drop, A: Allocator> Opened<T, A> {
    /// Opens a box. The value stays where it is.
    pub fn of(closed: Box<T, A>) -> Opened<T, A>
        ensures { result.inside ≡ closed.value }
    {
        let words = Box::into_raw_with_allocator(closed);
        Opened {
            at: words.0,
            alloc: words.1,
        }
    }
}
