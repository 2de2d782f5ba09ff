//! The arrow of a half edge, on the left of its edge.

use crate::curve::steps_of;
use crate::svg::room::{Area, Room};
use dcel_drawn::{Bend, Line, Place, State};
use std::alloc::Allocator;

/// How far an arrow is from its edge.
const GAP: f64 = 4.0;

/// How far an arrow stays away from the vertices, if the edge is long enough.
const TRIM: f64 = 17.0;

/// How far a number should stay from an edge that is drawn over its own.
const CLEAR: f64 = 12.0;

/// The arrow of a half edge.
#[derive(Clone, Copy)]
pub(crate) struct Arrow {
    /// The line along which it lies.
    pub line: Line,
    /// The direction in which it starts.
    pub along: Place,
    /// The direction away from the edge, in the middle.
    pub aside: Place,
}

impl Arrow {
    /// Returns the arrow beside an edge.
    pub fn beside(edge: Line) -> Arrow {
        let way = edge.to.minus(edge.from);
        let trim = TRIM.min(0.3 * way.length());
        let (first, last) = match edge.bend {
            Some(Bend { tip, .. }) => (tip.minus(edge.from).unit(), edge.to.minus(tip).unit()),
            None => (way.unit(), way.unit()),
        };
        let from = edge.from.plus(first.times(trim));
        let to = edge.to.minus(last.times(trim));
        let bend = match edge.bend {
            // So far that it is as far from both straight parts.
            Some(Bend { tip, cut }) => {
                let across = first.left().plus(last.left());
                let factor = GAP * 2.0 / across.dot(across).max(0.5);
                Some(Bend {
                    tip: tip.plus(across.times(factor)),
                    cut,
                })
            }
            None => None,
        };
        Arrow {
            line: Line {
                from: from.plus(first.left().times(GAP)),
                to: to.plus(last.left().times(GAP)),
                bend,
            },
            along: first,
            aside: way.unit().left(),
        }
    }

    /// Returns where its number stands: beside its middle, or a little before or after it if there
    /// is room there alone.
    pub fn place_of<B: Allocator>(self, number: usize, state: State, room: &Room<B>) -> Place {
        let width = width_of(number);
        let [_, _, near, middle, far, _, _] = steps_of(self.line);
        let points = [middle, near.middle(middle), middle.middle(far), near, far];
        let mut best = None;
        for point in points {
            let place = self.beside_point(point, width);
            if room.is_free(area_of(place, number)) {
                if room.distance(place, state) > CLEAR {
                    return place;
                }
                best = best.or(Some(place));
            }
        }
        best.unwrap_or(self.beside_point(middle, width))
    }

    /// Returns a place beside a point, farther away the wider it is across.
    fn beside_point(self, point: Place, width: f64) -> Place {
        let across = self.aside.x.max(-self.aside.x);
        point.plus(self.aside.times(7.0 + 0.5 * width * across))
    }
}

/// Returns the box in which a number stands.
pub(crate) fn area_of(place: Place, number: usize) -> Area {
    Area::new(place, width_of(number), 8.4)
}

/// Returns how wide a number is.
fn width_of(number: usize) -> f64 {
    let mut width = 6.6;
    let mut rest = number / 10;
    for _ in 0..20 {
        if rest == 0 {
            break;
        }
        width += 6.6;
        rest /= 10;
    }
    width
}
