//! A desk behind a pointer, which the host holds.

ghost use Rattle.mesh_page.specs.Held.{Kept, held_owns, kept_coded};
ghost use Rattle.std.specs.Borrow.{sem};
ghost use Rattle.std.specs.Prelude.{◌≡◌, IsSome, None, Some};

use crate::desk::Desk;
use dcel_exports::Opened;
use lent_heap::Heap;
use std::marker::Model;

/// A pointer that owns the desk behind it, or one that leads nowhere.
///
/// The host sees the pointer alone. What it leads to has a type that the host couldn't name, so it is
/// a pointer to bytes.
#[repr(C)]
#[derive(Drop)]
pub struct Held {
    at: *mut u8,
    pub ghost kept: { Kept } by { kept_coded },
}

impl Model for Held {
    ghost also_owns = { λ held. held_owns held.at held.kept };
}

impl Held {
    ghost use Rattle.mesh_page.specs.Lending.{LendsDesk};

    /// Keeps what was in a box.
    fn full(opened: Opened<Desk, &'static Heap>) -> Held
        ensures { result.kept ≡ Some opened.entry.inside }
    {
        let Opened { at, alloc: _ } = opened;
        Held { at: at as *mut u8 }
    }

    /// Keeps the desk of a box where it is.
    pub fn of(closed: Box<Desk, &'static Heap>) -> Held
        ensures { result.kept ≡ Some closed.entry.value }
    {
        Held::full(Opened::of(closed))
    }

    /// Lends the desk.
    ///
    /// Asks that there is one.
    #[inline]
    pub fn as_mut(&mut self) -> &mut Desk
        requires { IsSome self.old.kept }
        ensures* writes_back { sem 𝓛 (LendsDesk self.entry result) }
        ensures value { Some result.now ≡ self.old.kept }
    {
        unsafe { &mut *(self.at as *mut Desk) }
    }
}
