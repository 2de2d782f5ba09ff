//! Free blocks of one size, counted.

ghost use Rattle.std.specs.Prelude.{◌≡◌, ◌%◌, ◌≤◌, IfSome};

use crate::memory::Memory;
use crate::stack::Stack;

/// Free blocks of one size.
#[derive(Drop)]
pub(crate) struct Shelf {
    pub(crate) size: usize,
    count: usize,
    blocks: Stack,
    ghost agrees: { (blocks.size ≡ size) × (blocks.count ≡ count) },
    ghost whole: { (size % 16 ≡ 0) × (16 ≤ size) },
}

impl Shelf {
    /// Starts with none.
    pub(crate) fn new(size: usize) -> Shelf
        requires { (size % 16 ≡ 0) × (16 ≤ size) }
        ensures { result.size ≡ size }
    {
        Shelf {
            size,
            count: 0,
            blocks: Stack::new(size),
        }
    }

    /// Puts a block there.
    pub(crate) fn put(self, block: Memory) -> Shelf
        requires { block.size ≡ self.size }
        ensures { result.size ≡ self.size }
    {
        let Shelf {
            size,
            count,
            blocks,
        } = self;
        let Some(more) = count.checked_add(1) else {
            drop(block);
            return Shelf {
                size,
                count,
                blocks,
            };
        };
        Shelf {
            size,
            count: more,
            blocks: blocks.push(block),
        }
    }

    /// Takes a block from there, if there is one.
    pub(crate) fn take(self) -> (Option<Memory>, Shelf)
        ensures block { IfSome result.0 (λ m. m.size ≡ self.size) }
        ensures size { result.1.size ≡ self.size }
    {
        let Shelf {
            size,
            count,
            blocks,
        } = self;
        if count == 0 {
            return (
                None,
                Shelf {
                    size,
                    count,
                    blocks,
                },
            );
        }
        let (block, blocks) = blocks.pop(size);
        (
            Some(block),
            Shelf {
                size,
                count: count - 1,
                blocks,
            },
        )
    }
}
