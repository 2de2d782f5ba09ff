//! Corners of triangles at one place, which become one vertex.

use std::alloc::{AllocError, Global};
use std::collections::HashMap;

/// Three coordinates, each by the bits of a float. The two zeros are one.
#[derive(Clone, Copy, PartialEq, Eq, Hash, Drop)]
pub struct Corner {
    x: u64,
    y: u64,
    z: u64,
}

impl Corner {
    /// Makes it of the bits of three floats of one size, the zeros written as 0.
    pub fn new(x: u64, y: u64, z: u64) -> Self {
        Corner { x, y, z }
    }
}

/// The corners that are known, numbered in the order in which they came.
#[derive(Drop)]
pub struct Joiner {
    known: HashMap<Corner, u32>,
    count: u32,
}

impl Joiner {
    /// Makes it without a corner.
    pub fn new(alloc: Global) -> Self {
        Joiner {
            known: HashMap::new(alloc),
            count: 0,
        }
    }

    /// Returns the number of a corner, and whether it is new.
    pub fn number_of(&mut self, corner: Corner) -> Result<(u32, bool), AllocError> {
        let next = self.count;
        let number = *self.known.entry(corner)?.or_insert(next);
        let is_new = number == next;
        if is_new {
            self.count = next.checked_add(1).ok_or(AllocError)?;
        }
        Ok((number, is_new))
    }
}
