//! What is read.

use crate::positions::Run;
use crate::refusal::{ReadError, Reason, Refusal};
use dcel_decimals::Decimal;
use std::alloc::{AllocError, Global};

/// Points, and which of them lines and rings join.
#[derive(Drop)]
pub struct Shapes {
    /// The coordinates of the points, two for each, in the order of the text.
    pub coordinates: Vec<Decimal>,
    /// The line of the text on which each point begins, from 1.
    pub lines: Vec<usize>,
    /// The lines and rings.
    pub paths: Vec<Path>,
}

/// Points of which each is joined to the next one.
#[derive(Clone, Copy, Drop)]
pub struct Path {
    /// The number of the first point.
    pub first: usize,
    /// The number behind that of the last one.
    pub end: usize,
    /// Whether it is the ring of a polygon, whose last point equals the first.
    pub is_ring: bool,
}

impl Shapes {
    /// Returns nothing.
    pub(crate) fn none(alloc: Global) -> Self {
        Shapes {
            coordinates: Vec::new(alloc),
            lines: Vec::new(alloc),
            paths: Vec::new(alloc),
        }
    }

    /// Adds a point.
    pub(crate) fn add(&mut self, line: usize, two: [Decimal; 2]) -> Result<(), AllocError> {
        self.lines.push(line)?;
        self.coordinates.extend_from_slice(&two)
    }

    /// Returns how many points there are.
    pub(crate) fn count(&self) -> usize {
        self.lines.len()
    }

    /// Adds the line or the ring of a run of positions.
    pub(crate) fn add_path(&mut self, run: Run, is_ring: bool) -> Result<(), ReadError> {
        if let Some(reason) = self.what_is_wrong(run, is_ring) {
            return Err(ReadError::Refused(Refusal {
                line: self.lines.get(run.first).copied().unwrap_or(1),
                offset: run.place,
                reason,
            }));
        }
        let Run { first, end, .. } = run;
        self.paths.push(Path {
            first,
            end,
            is_ring,
        })?;
        Ok(())
    }

    /// Returns why a run of positions is no line or no ring, if it is none.
    fn what_is_wrong(&self, run: Run, is_ring: bool) -> Option<Reason> {
        let count = run.end.saturating_sub(run.first);
        match is_ring {
            false if count < 2 => Some(Reason::ShortLine),
            true if count < 4 => Some(Reason::ShortRing),
            true if self.point(run.first) != self.point(run.end.saturating_sub(1)) => {
                Some(Reason::OpenRing)
            }
            _ => None,
        }
    }

    /// Returns the coordinates of a point.
    fn point(&self, number: usize) -> Option<&[Decimal]> {
        let start = number.checked_mul(2)?;
        self.coordinates.get(start..start.checked_add(2)?)
    }
}
