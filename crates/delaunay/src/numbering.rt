//! The numbers of points in files.

use crate::fault::Wrong;

/// How points are numbered.
#[derive(Clone, Copy)]
pub struct Numbering {
    /// How many there are.
    pub count: usize,
    /// The number of the first one.
    pub first: usize,
}

impl Numbering {
    /// Returns the numbering of so many points from 0.
    pub fn plain(count: usize) -> Self {
        Numbering { count, first: 0 }
    }

    /// Returns which point has a number, counted from 0.
    pub fn place(self, number: usize) -> Result<usize, Wrong> {
        match number.checked_sub(self.first) {
            Some(place) if place < self.count => Ok(place),
            _ => Err(Wrong::FarNumber(number, self.count, self.first)),
        }
    }
}
