//! Memory in which nothing lies.

ghost use Rattle.std.specs.Prelude.{◌≡◌, ◌-◌, ◌%◌, ◌≤◌};
ghost use Rattle.lent_heap.specs.Blocks.{bytes_at};

use std::marker::Model;

/// Memory of a host, which it lends for good and doesn't touch from here on: `size` bytes, a
/// multiple of 16, from an address that is one too.
#[repr(C)]
#[derive(Drop)]
pub struct Memory {
    pub(crate) ptr: *mut u8,
    pub(crate) size: usize,
    ghost whole: { size % 16 ≡ 0 },
}

impl Model for Memory {
    ghost also_owns = { λ m. bytes_at m.ptr m.size };
}

impl Memory {
    /// Returns how many bytes it has, and itself.
    pub(crate) fn with_size(self) -> (usize, Memory)
        ensures { (result.0 ≡ self.size) × (result.1 ≡ self) }
    {
        let Memory { ptr, size } = self;
        (size, Memory { ptr, size })
    }

    /// Returns its first bytes, and the rest.
    ///
    /// Asks for a multiple of 16 that is at most its size.
    pub(crate) fn split(self, size: usize) -> (Memory, Memory)
        requires { (size % 16 ≡ 0) × (size ≤ self.size) }
        ensures { (result.0.size ≡ size) × (result.1.size ≡ self.size - size) }
    {
        let Memory { ptr, size: all } = self;
        let rest = unsafe { ptr.add(size) };
        let left = all - size;
        (
            Memory { ptr, size },
            Memory {
                ptr: rest,
                size: left,
            },
        )
    }
}
