//! Places for the nodes of a net, and arcs over them.

use crate::grid::grid_places;
use crate::net::Net;
use crate::place::at;
use crate::relaxing::{level, relax, ring_places, wanted_area};
use crate::wings::{Wings, wings_of};
use dcel_drawn::{Bend, Place};
use std::alloc::{AllocError, Allocator};

/// About how many moves of nodes `level` makes, and `relax` half as many, within the rounds below.
const MOVES: usize = 2_000_000;

/// The fewest rounds that `level` may make; it stops once nothing moves.
const LEVELING: usize = 400;

/// The fewest rounds of `relax`, and the most that it may make; it stops once hardly anything moves.
const FEWEST: usize = 40;

const MOST: usize = 4000;

/// Twice the area that each triangle must have before it is relaxed.
const LEAST: f64 = 1e-13;

/// How much of its room the curve of an arc may take.
const TAKEN: f64 = 0.8;

/// The nodes of a net, with places at which no triangle is turned over.
#[derive(Drop)]
pub(crate) struct Layout<B: Allocator> {
    places: Vec<Place, B>,
    wings: Wings<B>,
}

impl<B: Allocator + Copy> Layout<B> {
    /// Finds places for the nodes of a net: on a circle and inside it, or on a grid if there the
    /// triangles are too small for the numbers.
    pub fn of(alloc: B, net: &mut Net<B>) -> Result<Self, AllocError> {
        let rounds = MOVES / net.nodes.max(1);
        let mut places = ring_places(alloc, net)?;
        let mut wings = wings_of(alloc, net, net.ring)?;
        level(&wings, &mut places, rounds.max(LEVELING));
        if !is_plain(net, places.as_slice()) {
            net.close()?;
            if let Some(found) = grid_places(alloc, net)? {
                places = found;
                wings = wings_of(alloc, net, net.ring)?;
            }
        }
        relax(
            &wings,
            &mut places,
            wanted_area(net),
            (rounds / 2).max(FEWEST).min(MOST),
        );
        Ok(Layout { places, wings })
    }

    /// Returns the place of a node.
    pub fn place(&self, node: usize) -> Place {
        at(self.places.as_slice(), node)
    }

    /// Turns all so that this direction leads to the left.
    pub fn turn(&mut self, direction: Place) {
        for place in self.places.iter_mut() {
            *place = Place::new(-place.dot(direction), -direction.cross(*place));
        }
    }

    /// Returns the arc between two nodes toward one that joins them, whose curve stays within the
    /// triangles round that one.
    pub fn arc(&self, from: usize, to: usize, node: usize) -> Bend {
        let tip = self.place(node);
        let (near, far) = (self.place(from).minus(tip), self.place(to).minus(tip));
        let mut cut: f64 = 0.5;
        if let Some(star) = self.wings.get(node) {
            for wing in star {
                let corner = self.place(wing.near).minus(tip);
                cut = cut.min(TAKEN * cut_through(corner, near, far));
            }
        }
        Bend { tip, cut }
    }
}

/// Returns the cut of the arc whose curve goes through a corner, if the corner lies between the
/// straight ways from the tip of the arc to its ends, and else one.
fn cut_through(corner: Place, near: Place, far: Place) -> f64 {
    let across = near.cross(far);
    let along_near = corner.cross(far) / across;
    let along_far = near.cross(corner) / across;
    if along_near > 0.0 && along_far > 0.0 {
        let root = along_near.sqrt() + along_far.sqrt();
        root * root
    } else {
        1.0
    }
}

/// Returns whether all triangles of a net go round counterclockwise, and are large enough to be
/// told from flat ones.
fn is_plain<B: Allocator>(net: &Net<B>, places: &[Place]) -> bool {
    for triangle in &net.triangles {
        let [a, b, c] = triangle.nodes;
        let (near, far) = (
            at(places, b).minus(at(places, a)),
            at(places, c).minus(at(places, a)),
        );
        if !(near.cross(far) > LEAST) {
            return false;
        }
    }
    true
}
