//! Free blocks of one size, as a list that is in the blocks themselves.

ghost use Rattle.std.specs.Prelude.{◌≡◌, ◌+◌, ◌-◌, ◌%◌, ◌<◌, ◌≤◌, ℕ};
ghost use Rattle.lent_heap.specs.Blocks.{spares};

use crate::memory::Memory;
use std::marker::Model;

/// Free blocks, each of which begins with a pointer to the next.
#[derive(Drop)]
pub(crate) struct Stack {
    first: *mut u8,
    pub(crate) ghost size: { ℕ },
    pub(crate) ghost count: { ℕ },
}

impl Model for Stack {
    ghost also_owns = { λ s. spares s.size s.count s.first };
}

impl Stack {
    /// Starts with none, for blocks of this size.
    pub(crate) fn new(_size: usize) -> Stack
        ensures { (result.size ≡ _size) × (result.count ≡ 0) }
    {
        Stack {
            first: std::ptr::null_mut(),
        }
    }

    /// Puts a block before the others.
    pub(crate) fn push(self, block: Memory) -> Stack
        requires { (block.size ≡ self.size) × (16 ≤ block.size) }
        ensures { (result.size ≡ self.size) × (result.count ≡ self.count + 1) }
    {
        let Stack { first } = self;
        let Memory { ptr, size: _ } = block;
        unsafe {
            (ptr as *mut *mut u8).write(first);
        }
        Stack { first: ptr }
    }

    /// Takes the first block off.
    ///
    /// Asks that there is one, and for the size of the blocks.
    pub(crate) fn pop(self, size: usize) -> (Memory, Stack)
        requires { (size ≡ self.size) × (size % 16 ≡ 0) × (0 < self.count) }
        ensures { (result.0.size ≡ size) × (result.1.size ≡ self.size) × (result.1.count ≡ self.count - 1) }
    {
        let Stack { first } = self;
        let next = unsafe { *(first as *mut *mut u8) };
        (Memory { ptr: first, size }, Stack { first: next })
    }
}
