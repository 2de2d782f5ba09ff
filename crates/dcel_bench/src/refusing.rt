//! An allocator that refuses.

use crate::meshes::Mesh;
use std::alloc::{AllocError, Allocator, Global};
use std::cell::Cell;

/// Requests for memory that are refused, by their numbers from 0 on.
#[derive(Clone, Copy)]
pub enum Refusals {
    /// None is.
    None,
    /// The one with this number is.
    One(u64),
    /// Those from this number on are.
    From(u64),
}

/// Which requests for memory are refused, by their numbers.
#[derive(Drop)]
struct Plan {
    /// The number of requests so far.
    requests: Cell<u64>,
    /// The first refused request.
    first: Cell<u64>,
    /// The number of refused requests from there on.
    count: Cell<u64>,
}

impl Plan {
    /// Counts a request, and returns whether it is refused.
    fn refuses(&self) -> bool {
        let number = self.requests.get();
        self.requests.set(number.saturating_add(1));
        let first = self.first.get();
        number >= first && number - first < self.count.get()
    }

    /// Counts from 0 again, and refuses `count` requests from `first` on.
    fn refuse(&self, first: u64, count: u64) {
        self.requests.set(0);
        self.first.set(first);
        self.count.set(count);
    }
}

/// Passes requests for memory on to another allocator, except those that it is told to refuse.
/// Blocks are given back to the other one. Contracts see nothing of what is refused. A mesh takes a
/// `&Refusing`, which is an allocator that clones without memory.
#[derive(Drop)]
pub struct Refusing<B> {
    inner: B,
    plan: Plan,
}

impl<B> Refusing<B> {
    /// Makes one that refuses no request.
    pub fn new(inner: B) -> Refusing<B> {
        Refusing {
            inner,
            plan: Plan {
                requests: Cell::new(0),
                first: Cell::new(0),
                count: Cell::new(0),
            },
        }
    }

    /// Counts requests from 0 again, and refuses these.
    pub fn refuse(&self, refusals: Refusals) {
        match refusals {
            Refusals::None => self.plan.refuse(0, 0),
            Refusals::One(number) => self.plan.refuse(number, 1),
            Refusals::From(number) => self.plan.refuse(number, u64::MAX),
        }
    }

    /// Returns how many requests came since it was last told what to refuse.
    pub fn requests(&self) -> u64 {
        self.plan.requests.get()
    }
}

unsafe impl<B: Allocator> Allocator for Refusing<B> {
    ghost dealloc_token = { λ heap ty ptr. B.dealloc_token heap.inner ty ptr };

    fn allocate(&self, size: usize, align: usize) -> Result<*mut u8, AllocError> {
        if self.plan.refuses() {
            return Err(AllocError);
        }
        self.inner.allocate(size, align)
    }

    unsafe fn deallocate(&self, ptr: *mut u8, size: usize, align: usize) {
        self.inner.deallocate(ptr, size, align);
    }
}

/// Memory that may be refused.
pub type Memory<'a> = &'a Refusing<Global>;

/// A mesh in such memory.
pub type Watched<'a> = Mesh<Memory<'a>>;
