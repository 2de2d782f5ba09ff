//! Points of the plane by angle and by number.

use dcel_drawn::Place;

/// Returns the way of length one with this angle from the right, in radians from -10 to 10.
///
/// By the series of sine and cosine, which std has not.
pub(crate) fn toward(angle: f64) -> Place {
    let (mut term, mut number) = (1.0, 0.0);
    let mut sums = [0.0, 0.0, 0.0, 0.0];
    for _ in 0..15 {
        for sum in sums.iter_mut() {
            *sum += term;
            number += 1.0;
            term = term * angle / number;
        }
    }
    let [x, y, less_x, less_y] = sums;
    Place::new(x - less_x, y - less_y)
}

/// Returns the place with this number, and the middle of the plane if there is none.
pub(crate) fn at(places: &[Place], number: usize) -> Place {
    places.get(number).copied().unwrap_or(Place::new(0.0, 0.0))
}
