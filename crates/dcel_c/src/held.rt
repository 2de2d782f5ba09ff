//! A mesh behind a pointer, which the C side holds.

ghost use Rattle.dcel_c.specs.Held.{Kept, held_owns, kept_coded};
ghost use Rattle.std.specs.Borrow.{sem};
ghost use Rattle.std.specs.Prelude.{◌≡◌, IfOk, IsSome, None, Some};

use dcel_exports::Opened;
use spade_dcel::dcel::Dcel;
use std::alloc::{AllocError, Global};
use std::marker::Model;

/// A mesh whose data are numbers.
pub type Numbers = Dcel<u64, u64, u64, u64>;

/// A pointer that owns the mesh behind it, or one that leads nowhere.
///
/// C sees the pointer alone. What it leads to has a type that C couldn't name, so it is a pointer
/// to bytes.
#[repr(C)]
#[derive(Drop)]
pub struct Held {
    at: *mut u8,
    alloc: Global,
    pub ghost kept: { Kept } by { kept_coded },
}

impl Model for Held {
    ghost also_owns = { λ held. held_owns held.alloc held.at held.kept };
}

impl Held {
    ghost use Rattle.dcel_c.specs.Lending.{LendsMesh};

    /// Makes a pointer that leads nowhere.
    pub fn empty(alloc: Global) -> Held
        ensures { result.kept ≡ None }
    {
        Held {
            at: std::ptr::null_mut(),
            alloc,
        }
    }

    /// Keeps what was in a box.
    fn full(opened: Opened<Numbers, Global>) -> Held
        ensures { result.kept ≡ Some opened.inside }
    {
        let Opened { at, alloc } = opened;
        Held {
            at: at as *mut u8,
            alloc,
        }
    }

    /// Keeps the mesh of a box where it stands.
    pub fn of(closed: Box<Numbers, Global>) -> Held
        ensures { result.kept ≡ Some closed.value }
    {
        Held::full(Opened::of(closed))
    }

    /// Returns the mesh as a box again.
    ///
    /// Asks that there is one.
    pub fn into_box(self) -> Box<Numbers, Global>
        requires { IsSome self.kept }
        ensures { Some result.value ≡ self.kept }
    {
        unsafe { Box::from_raw(self.alloc, self.at as *mut Numbers) }
    }

    /// Makes an equal mesh with memory of its own.
    ///
    /// Asks that there is a mesh.
    pub fn try_clone(&mut self, alloc: Global) -> Result<Held, AllocError>
        requires { IsSome self.old.kept }
        ensures clone { IfOk result (λ held. held.kept ≡ self.old.kept) }
        ensures same { self.new.kept ≡ self.old.kept }
    {
        let made = self.as_mut().try_clone(alloc)?;
        Ok(Held::of(Box::new(alloc, made)?))
    }

    /// Lends the mesh.
    ///
    /// Asks that there is one.
    #[inline]
    pub fn as_mut(&mut self) -> &mut Numbers
        requires { IsSome self.old.kept }
        ensures* writes_back { sem 𝓛 (LendsMesh self.entry result) }
        ensures value { Some result.now ≡ self.old.kept }
    {
        unsafe { &mut *(self.at as *mut Numbers) }
    }
}

// It may go to another thread, since all data are numbers.
unsafe impl Send for Held {}
