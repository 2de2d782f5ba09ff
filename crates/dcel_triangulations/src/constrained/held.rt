//! A constrained triangulation behind a pointer, which the C side holds.

ghost use Rattle.dcel_triangulations.specs.constrained.Held.{Kept, held_owns, kept_coded};
ghost use Rattle.std.specs.Borrow.{sem};
ghost use Rattle.std.specs.Prelude.{◌≡◌, IsSome, None, Some};

use dcel_constrained::ConstrainedTriangulation;
use dcel_exports::Opened;
use std::alloc::Global;
use std::marker::Model;

/// A constrained triangulation in memory of C's.
pub type Constrained = ConstrainedTriangulation<Global>;

/// A pointer that owns the triangulation behind it, or one that leads nowhere.
///
/// C sees the pointer alone. What it leads to has a type that C couldn't name, so it is a pointer
/// to bytes.
#[repr(C)]
#[derive(Drop)]
pub struct Held {
    at: *mut u8,
    alloc: Global,
    pub ghost kept: { Kept } by { kept_coded },
}

impl Model for Held {
    ghost also_owns = { λ held. held_owns held.alloc held.at held.kept };
}

impl Held {
    ghost use Rattle.dcel_triangulations.specs.constrained.Lending.{LendsTriangulation};

    /// Makes a pointer that leads nowhere.
    pub fn empty(alloc: Global) -> Held
        ensures { result.kept ≡ None }
    {
        Held {
            at: std::ptr::null_mut(),
            alloc,
        }
    }

    /// Keeps what was in a box.
    fn full(opened: Opened<Constrained, Global>) -> Held
        ensures { result.kept ≡ Some opened.inside }
    {
        let Opened { at, alloc } = opened;
        Held {
            at: at as *mut u8,
            alloc,
        }
    }

    /// Keeps the triangulation of a box where it is.
    pub fn of(closed: Box<Constrained, Global>) -> Held
        ensures { result.kept ≡ Some closed.value }
    {
        Held::full(Opened::of(closed))
    }

    /// Returns the triangulation as a box again.
    ///
    /// Asks that there is one.
    pub fn into_box(self) -> Box<Constrained, Global>
        requires { IsSome self.kept }
        ensures { Some result.value ≡ self.kept }
    {
        unsafe { Box::from_raw(self.alloc, self.at as *mut Constrained) }
    }

    /// Lends the triangulation.
    ///
    /// Asks that there is one.
    #[inline]
    pub fn as_mut(&mut self) -> &mut Constrained
        requires { IsSome self.old.kept }
        ensures* writes_back { sem 𝓛 (LendsTriangulation self.entry result) }
        ensures value { Some result.now ≡ self.old.kept }
    {
        unsafe { &mut *(self.at as *mut Constrained) }
    }
}

// It may go to another thread, since a triangulation is only numbers.
unsafe impl Send for Held {}
