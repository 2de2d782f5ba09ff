//! Lines and arcs, point by point.
//!
//! An arc starts straight toward its tip, goes round before it, and ends straight: so it stays near
//! the two straight lines over that point.

use dcel_drawn::{Line, Place};

/// Returns some points along a line, from its start to its end.
pub(crate) fn steps_of(line: Line) -> [Place; 7] {
    let Some(bend) = line.bend else {
        let middle = line.from.middle(line.to);
        let [from, to] = [line.from.middle(middle), middle.middle(line.to)];
        return [line.from, line.from, from, middle, to, line.to, line.to];
    };
    let (first, last) = (bend.turn(line.from), bend.turn(line.to));
    let (before, after) = (first.middle(bend.tip), bend.tip.middle(last));
    let middle = before.middle(after);
    let (near, far) = (
        first.middle(before).middle(before.middle(middle)),
        last.middle(after).middle(after.middle(middle)),
    );
    [line.from, first, near, middle, far, last, line.to]
}

/// A line or an arc as a way of straight steps.
#[derive(Clone, Copy)]
pub(crate) struct Way {
    /// The points from its start to its end.
    pub places: [Place; 7],
}

impl Way {
    /// Returns the way along a line.
    pub fn along(line: Line) -> Way {
        Way {
            places: steps_of(line),
        }
    }

    /// Returns how far a place is from it.
    pub fn distance(&self, place: Place) -> f64 {
        let mut least = f64::INFINITY;
        let mut from = self.places[0];
        for to in &self.places {
            least = least.min(distance_to_step(place, from, *to));
            from = *to;
        }
        least
    }

    /// Returns whether a ray to the right crosses it an odd number of times.
    pub fn is_crossed(&self, place: Place) -> bool {
        let mut is_odd = false;
        let mut from = self.places[0];
        for to in &self.places {
            if (from.y > place.y) != (to.y > place.y) {
                let side = to.minus(from).cross(place.minus(from));
                if (side > 0.0) == (to.y > from.y) {
                    is_odd = !is_odd;
                }
            }
            from = *to;
        }
        is_odd
    }
}

/// Returns how far a place is from a straight step.
fn distance_to_step(place: Place, from: Place, to: Place) -> f64 {
    let way = to.minus(from);
    let length = way.dot(way);
    if length <= 0.0 {
        return place.minus(from).length();
    }
    let along = (place.minus(from).dot(way) / length).max(0.0).min(1.0);
    place.minus(from.plus(way.times(along))).length()
}
