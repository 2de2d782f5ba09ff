//! Places of the nodes of a net: first each in the middle of its neighbors, then moved until the
//! triangles inside are much alike.
//!
//! If the first places were exact, no triangle would lie over another (W. T. Tutte, "How to draw a
//! graph", 1963). No move turns one over.

use crate::net::Net;
use crate::place::{at, toward};
use crate::wings::{Wing, Wings};
use dcel_drawn::Place;
use std::alloc::{AllocError, Allocator};
use std::f64::consts::PI;
use std::num::nearest_usize_to_f64;

/// How much of the ring's circle the triangles inside are to fill.
const FILLED: f64 = 0.35;

/// How much the shape of a triangle outside counts.
const OUTSIDE: f64 = 0.17;

/// The square of the way that a node moves in a round that is the last one.
const SETTLED: f64 = 1e-9;

/// Returns first places: the ring on a circle, clockwise, and all other nodes in the middle.
pub(crate) fn ring_places<B: Allocator + Copy>(
    alloc: B,
    net: &Net<B>,
) -> Result<Vec<Place, B>, AllocError> {
    let mut places = Vec::new(alloc);
    for _ in 0..net.ring {
        places.push(Place::new(0.0, 0.0))?;
    }
    let count = net.nodes.saturating_sub(net.ring);
    let step: f64 = 2.0 * PI / nearest_usize_to_f64(count);
    for number in 0..count {
        places.push(toward(-step * nearest_usize_to_f64(number)))?;
    }
    Ok(places)
}

/// Moves each node into the middle of its neighbors, again and again.
pub(crate) fn level<B: Allocator>(wings: &Wings<B>, places: &mut [Place], rounds: usize) {
    for _ in 0..rounds {
        let mut longest: f64 = 0.0;
        for (node, star) in wings.iter().enumerate() {
            if let (Some(middle), Some(place)) = (middle_of(star, places), places.get_mut(node)) {
                // Farther than to the middle, since moves of this length settle sooner.
                let way = middle.minus(*place).times(1.6);
                *place = place.plus(way);
                longest = way.dot(way).max(longest);
            }
        }
        if longest < 1e-24 {
            break;
        }
    }
}

/// Returns the middle of the nodes round a node, if there are any.
fn middle_of(star: &[Wing], places: &[Place]) -> Option<Place> {
    let mut sum = Place::new(0.0, 0.0);
    for wing in star {
        let (near, far) = wing.corners(places);
        sum = sum.plus(near.middle(far));
    }
    if star.is_empty() {
        return None;
    }
    Some(sum.times(1.0 / nearest_usize_to_f64(star.len())))
}

/// Returns the area that a triangle inside is to have.
pub(crate) fn wanted_area<B: Allocator>(net: &Net<B>) -> f64 {
    let mut count: f64 = 0.0;
    for triangle in &net.triangles {
        if triangle.is_inside {
            count += 1.0;
        }
    }
    FILLED * PI / count.max(1.0)
}

/// Moves each node to where its triangles are better, again and again.
pub(crate) fn relax<B: Allocator>(
    wings: &Wings<B>,
    places: &mut [Place],
    area: f64,
    rounds: usize,
) {
    for _ in 0..rounds {
        let mut longest: f64 = 0.0;
        for (node, star) in wings.iter().enumerate() {
            let here = at(places, node);
            if let Some(better) = better_place(star, places, here, area) {
                let way = better.minus(here);
                longest = way.dot(way).max(longest);
                if let Some(place) = places.get_mut(node) {
                    *place = better;
                }
            }
        }
        if longest < SETTLED {
            break;
        }
    }
}

/// Returns a place near `here` for a node with these triangles that costs less, if one is found.
fn better_place(star: &[Wing], places: &[Place], here: Place, area: f64) -> Option<Place> {
    let now = cost_of_star(star, places, here, area);
    let mut way = way_down(star, places, here, area);
    for _ in 0..12 {
        let there = here.plus(way);
        if cost_of_star(star, places, there, area) < now {
            return Some(there);
        }
        way = way.times(0.5);
    }
    None
}

fn cost_of_star(star: &[Wing], places: &[Place], here: Place, area: f64) -> f64 {
    let mut sum = 0.0;
    for wing in star {
        sum += Sides::seen_from(here, *wing, places).cost(area);
    }
    sum
}

/// Returns the way on which the cost falls fastest, some part of the way to the neighbors long.
fn way_down(star: &[Wing], places: &[Place], here: Place, area: f64) -> Place {
    let mut slope = Place::new(0.0, 0.0);
    let mut reach = 0.0;
    for wing in star {
        let sides = Sides::seen_from(here, *wing, places);
        slope = slope.plus(sides.slope(area));
        reach += sides.near.length();
    }
    let count: f64 = nearest_usize_to_f64(star.len());
    slope.unit().times(-0.3 * reach / count.max(1.0))
}

/// A triangle by its two sides at one corner.
#[derive(Clone, Copy)]
struct Sides {
    near: Place,
    far: Place,
    is_inside: bool,
}

impl Sides {
    fn seen_from(here: Place, wing: Wing, places: &[Place]) -> Self {
        let (near, far) = wing.corners(places);
        Sides {
            near: near.minus(here),
            far: far.minus(here),
            is_inside: wing.is_inside,
        }
    }

    fn area(self) -> f64 {
        self.near.cross(self.far) / 2.0
    }

    /// Returns the squares of the three sides, added up.
    fn squares(self) -> f64 {
        let third = self.far.minus(self.near);
        self.near.dot(self.near) + self.far.dot(self.far) + third.dot(third)
    }

    /// Returns what the triangle costs: inside, the least where it is equilateral and has the area
    /// that is wanted; outside, where it is equilateral. Without end as it becomes flat.
    fn cost(self, wanted: f64) -> f64 {
        let area = self.area();
        if area <= 0.0 {
            return f64::INFINITY;
        }
        if self.is_inside {
            let ratio = wanted / area;
            self.squares() / wanted * (1.0 + ratio * ratio)
        } else {
            OUTSIDE * self.squares() / area
        }
    }

    /// Returns how the cost grows as the corner moves.
    fn slope(self, wanted: f64) -> Place {
        let area = self.area();
        let squares_slope = self.near.plus(self.far).times(-2.0);
        let area_slope = self.near.minus(self.far).left().times(-0.5);
        if self.is_inside {
            let ratio = wanted / area;
            let by_squares = squares_slope.times((1.0 + ratio * ratio) / wanted);
            let by_area = 2.0 * self.squares() * ratio * ratio / (wanted * area);
            by_squares.minus(area_slope.times(by_area))
        } else {
            let by_area = OUTSIDE * self.squares() / (area * area);
            squares_slope
                .times(OUTSIDE / area)
                .minus(area_slope.times(by_area))
        }
    }
}
