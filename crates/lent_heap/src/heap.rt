//! The allocator.

ghost use Rattle.std.specs.Prelude.{◌≡◌, ◌^◌, ◌<◌, ◌≤◌, ◌%◌, IfSome};
ghost use Rattle.lent_heap.specs.Blocks.{IsBlockSize, block_token};

use crate::memory::Memory;
use crate::shelf::Shelf;
use std::alloc::{AllocError, Allocator};
use std::cell::Cell;
use std::mem::size_of;

/// The alignment of each block, and the least size.
const UNIT: usize = 16;

/// How many sizes there are: one for each power of two.
const SIZES: usize = 64;

/// An allocator for collections, each of which holds a `&` to it.
///
/// The size of a block is a power of two from 16 on, and its address a multiple of 16. A block comes
/// from those of its size that were given back, or from the front of the memory that was never handed
/// out. A request for an alignment above 16, or for more than is left there, finds no memory.
pub struct Heap {
    rest: Cell<Option<Memory>>,
    shelves: [Cell<Option<Shelf>>; SIZES],
}

impl Heap {
    /// Starts with all of the memory free.
    pub fn new(memory: Memory) -> Heap {
        Heap {
            rest: Cell::new(Some(memory)),
            shelves: std::array::from_fn(|_| Cell::new(None)),
        }
    }

    /// Puts a heap at the front of the memory that it hands out, for good.
    ///
    /// Returns `None` if the memory is too small for it.
    pub fn leak(memory: Memory) -> Option<&'static Heap> {
        let (left, memory) = memory.with_size();
        let size = block_size(size_of::<Heap>());
        if left < size {
            return None;
        }
        let (own, rest) = memory.split(size);
        let Ok(heap) = Box::new(Heap::new(own), Heap::new(rest)) else {
            return None;
        };
        Some(Box::leak(heap))
    }

    /// Takes more memory of the host. What is left of the memory before goes to the free blocks.
    pub fn lend(&self, memory: Memory) {
        let mut left = self.rest.replace(Some(memory));
        for _ in 0..SIZES {
            let Some(rest) = left else {
                return;
            };
            left = self.put_away(rest);
        }
    }

    /// Makes a free block of the front of the memory, the largest there is, and returns the rest.
    fn put_away(&self, memory: Memory) -> Option<Memory> {
        let (size, memory) = memory.with_size();
        if size < UNIT {
            return None;
        }
        let (block, rest) = memory.split(largest_block(size));
        self.give(block);
        Some(rest)
    }

    /// Takes a block, if there is one.
    fn take(&self, size: usize, align: usize) -> Option<Memory>
        ensures { IfSome result (λ m. IsBlockSize size m.size × (size < 2 ^ 63) × (align ≤ 16)) }
    {
        if align > UNIT || size >= isize::MAX as usize {
            return None;
        }
        let size = block_size(size);
        match self.take_again(size) {
            Some(block) => Some(block),
            None => self.take_new(size),
        }
    }

    /// Takes a block of those that were given back.
    fn take_again(&self, size: usize) -> Option<Memory>
        requires { 0 < size }
        ensures { IfSome result (λ m. m.size ≡ size) }
    {
        let place = &self.shelves[size.ilog2() as usize];
        let shelf = place.replace(None)?;
        if shelf.size != size {
            return None;
        }
        let (block, shelf) = shelf.take();
        place.set(Some(shelf));
        block
    }

    /// Takes a block from the front of what was never handed out.
    fn take_new(&self, size: usize) -> Option<Memory>
        requires { size % 16 ≡ 0 }
        ensures { IfSome result (λ m. m.size ≡ size) }
    {
        let (left, rest) = self.rest.replace(None)?.with_size();
        if left < size {
            self.rest.set(Some(rest));
            return None;
        }
        let (block, rest) = rest.split(size);
        self.rest.set(Some(rest));
        Some(block)
    }

    /// Takes a block back.
    fn give(&self, block: Memory) {
        let (size, block) = block.with_size();
        if size < UNIT {
            return;
        }
        let place = &self.shelves[size.ilog2() as usize];
        let shelf = match place.replace(None) {
            Some(shelf) if shelf.size == size => shelf,
            _ => Shelf::new(size),
        };
        place.set(Some(shelf.put(block)));
    }
}

/// Returns the size of the block for a request.
fn block_size(size: usize) -> usize
    requires { size < 2 ^ 63 }
    ensures { IsBlockSize size result × (result % 16 ≡ 0) × (16 ≤ result) }
{
    size.max(UNIT).next_power_of_two()
}

/// Returns the largest size of a block that is at most this one.
fn largest_block(size: usize) -> usize
    requires { 16 ≤ size }
    ensures { (result ≤ size) × (result % 16 ≡ 0) }
{
    (size / 2 + 1).next_power_of_two()
}

unsafe impl Allocator for Heap {
    ghost dealloc_token = { λ _. block_token };

    fn allocate(&self, size: usize, align: usize) -> Result<*mut u8, AllocError> {
        match self.take(size, align) {
            Some(Memory { ptr, size: _ }) => Ok(ptr),
            None => Err(AllocError),
        }
    }

    unsafe fn deallocate(&self, ptr: *mut u8, size: usize, _align: usize) {
        let size = block_size(size);
        self.give(Memory { ptr, size });
    }
}

impl Drop for Heap {
    fn drop(self) {
        let Heap { rest, shelves } = self;
        drop(rest);
        drop(shelves);
    }
}
