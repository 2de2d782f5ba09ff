//! Arcs.

use crate::place::Place;

/// How an edge goes round as an arc: from both ends straight toward a tip, and round before it.
#[derive(Clone, Copy, PartialEq, Debug, Drop)]
pub struct Bend {
    /// The point toward which it leads from both ends.
    pub tip: Place,
    /// Which part of the ways from the tip to the ends the curve cuts off.
    pub cut: f64,
}

impl Bend {
    /// Returns the point at which the curve starts, or ends, on the way from an end to the tip.
    pub fn turn(self, end: Place) -> Place {
        self.tip.plus(end.minus(self.tip).times(self.cut))
    }
}
