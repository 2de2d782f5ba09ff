//! Places on a grid for the nodes of a net, where no triangle is turned over however deep they are
//! nested.
//!
//! The nodes are put in one by one on top of those before, each as soon as the nodes that it joins
//! lie side by side there, and what is below it is moved apart (H. de Fraysseix, J. Pach and R.
//! Pollack, "How to draw a planar graph on a grid", 1990, with the moves kept as differences, as M.
//! Chrobak and T. H. Payne do). All places are whole numbers until they are scaled.

use crate::net::Net;
use crate::wings::{Wings, wings_of};
use dcel_drawn::Place;
use std::alloc::{AllocError, Allocator};
use std::f64::consts::PI;

/// How much the grid is stretched upward, so that its triangle is all but equilateral.
const STRETCHED: f64 = 1.73;

/// A node on the grid.
#[derive(Clone, Copy)]
struct Spot {
    is_placed: bool,
    // How many of the nodes round it are placed, and how many of the triangles round it have both
    // other nodes placed.
    neighbors: usize,
    triangles: usize,
    // How far to the right it is of the node that it hangs on.
    across: f64,
    height: f64,
    // What hangs on it: the first node below it, and the next one on top.
    below: Option<usize>,
    right: Option<usize>,
}

impl Spot {
    fn free() -> Spot {
        Spot {
            is_placed: false,
            neighbors: 0,
            triangles: 0,
            across: 0.0,
            height: 0.0,
            below: None,
            right: None,
        }
    }

    /// Returns whether the nodes that it joins lie side by side on top.
    fn is_ready(&self) -> bool {
        !self.is_placed && self.triangles > 0 && self.neighbors == self.triangles.saturating_add(1)
    }
}

/// The nodes on the grid.
#[derive(Drop)]
struct Grid<B: Allocator> {
    spots: Vec<Spot, B>,
    wings: Wings<B>,
    // Nodes that were ready once.
    ready: Vec<usize, B>,
}

/// Returns places for the nodes of a closed net, the last of which are the corners of a triangle
/// round the others: the right one, the left one and the top. None if two of its edges join the
/// same nodes.
pub(crate) fn grid_places<B: Allocator + Copy>(
    alloc: B,
    net: &Net<B>,
) -> Result<Option<Vec<Place, B>>, AllocError> {
    let mut grid = Grid {
        spots: Vec::new(alloc),
        wings: wings_of(alloc, net, net.nodes)?,
        ready: Vec::new(alloc),
    };
    for _ in 0..net.nodes {
        grid.spots.push(Spot::free())?;
    }
    let [right, left, top] = net.corners();
    if let Some(spot) = grid.spots.get_mut(left) {
        spot.right = Some(right);
    }
    grid.mark(left)?;
    grid.mark(right)?;
    for _ in 0..net.triangles.len().saturating_mul(3) {
        let Some(node) = grid.ready.pop() else {
            break;
        };
        if node != top && grid.spot(node).is_ready() {
            if let Some((first, last)) = grid.ends_below(node) {
                grid.put(node, first, last);
                grid.mark(node)?;
            }
        }
    }
    grid.put(top, left, right);
    grid.mark(top)?;
    if grid.is_full() {
        Ok(Some(grid.places(alloc, left, right)?))
    } else {
        Ok(None)
    }
}

impl<B: Allocator + Copy> Grid<B> {
    fn spot(&self, node: usize) -> Spot {
        self.spots.get(node).copied().unwrap_or(Spot::free())
    }

    fn is_full(&self) -> bool {
        self.spots.iter().all(|spot| spot.is_placed)
    }

    /// Notes that a node is placed, and which nodes round it are ready then.
    fn mark(&mut self, node: usize) -> Result<(), AllocError> {
        if let Some(spot) = self.spots.get_mut(node) {
            spot.is_placed = true;
        }
        let Some(star) = self.wings.get(node) else {
            return Ok(());
        };
        for wing in star {
            count(&mut self.spots, wing.near, wing.far);
        }
        for wing in star {
            if let Some(spot) = self.spots.get(wing.near) {
                if spot.is_ready() {
                    self.ready.push(wing.near)?;
                }
            }
        }
        Ok(())
    }

    /// Returns the first and the last of the nodes on top that a node joins.
    fn ends_below(&self, node: usize) -> Option<(usize, usize)> {
        let (mut first, mut last) = (None, None);
        for wing in self.wings.get(node)? {
            let is_near_placed = self.spot(wing.near).is_placed;
            let is_far_placed = self.spot(wing.far).is_placed;
            if is_far_placed && !is_near_placed {
                first = Some(wing.far);
            }
            if is_near_placed && !is_far_placed {
                last = Some(wing.near);
            }
        }
        Some((first?, last?))
    }

    /// Puts a node on top of those from a first to a last one, after moving these apart.
    fn put(&mut self, node: usize, first: usize, last: usize) {
        let Some(second) = self.spot(first).right else {
            return;
        };
        let (before, between) = self.width(second, last);
        let (start, end) = (self.spot(first).height, self.spot(last).height);
        // The two moves apart are one to the right each.
        let across = (between + 2.0 + end - start) / 2.0;
        if let Some(spot) = self.spots.get_mut(last) {
            spot.across = between + 2.0 - across;
        }
        if second != last {
            if let Some(spot) = self.spots.get_mut(second) {
                spot.across += 1.0 - across;
            }
            if let Some(spot) = self.spots.get_mut(before) {
                spot.right = None;
            }
        }
        if let Some(spot) = self.spots.get_mut(first) {
            spot.right = Some(node);
        }
        if let Some(spot) = self.spots.get_mut(node) {
            spot.across = across;
            spot.height = start + across;
            spot.below = if second != last { Some(second) } else { None };
            spot.right = Some(last);
        }
    }

    /// Returns the node before the last one on top, and how far the last one is to the right of
    /// the one before the first.
    fn width(&self, first: usize, last: usize) -> (usize, f64) {
        let (mut node, mut before) = (first, first);
        let mut width = 0.0;
        for _ in 0..self.spots.len() {
            let spot = self.spot(node);
            width += spot.across;
            if node == last {
                break;
            }
            before = node;
            node = spot.right.unwrap_or(last);
        }
        (before, width)
    }

    /// Returns the places of all nodes, those that hang on a node after it, scaled so that the
    /// triangle round them is as large as a circle of radius one.
    fn places(&self, alloc: B, left: usize, right: usize) -> Result<Vec<Place, B>, AllocError> {
        let mut places = Vec::new(alloc);
        for _ in 0..self.spots.len() {
            places.push(Place::new(0.0, 0.0))?;
        }
        let mut hanging = Vec::new(alloc);
        hanging.push((left, 0.0))?;
        for _ in 0..self.spots.len() {
            let Some((node, from)) = hanging.pop() else {
                break;
            };
            let spot = self.spot(node);
            let x: f64 = from + spot.across;
            if let Some(place) = places.get_mut(node) {
                *place = Place::new(x, STRETCHED * spot.height);
            }
            if let Some(next) = spot.right {
                hanging.push((next, x))?;
            }
            if let Some(next) = spot.below {
                hanging.push((next, x))?;
            }
        }
        scale(&mut places, right);
        Ok(places)
    }
}

/// Counts a node that is placed, for those of a triangle with it.
fn count(spots: &mut [Spot], near: usize, far: usize) {
    let is_near_placed = is_placed(spots, near);
    let is_far_placed = is_placed(spots, far);
    if let Some(spot) = spots.get_mut(near) {
        spot.neighbors = spot.neighbors.saturating_add(1);
        if is_far_placed {
            spot.triangles = spot.triangles.saturating_add(1);
        }
    }
    if is_near_placed {
        if let Some(spot) = spots.get_mut(far) {
            spot.triangles = spot.triangles.saturating_add(1);
        }
    }
}

fn is_placed(spots: &[Spot], node: usize) -> bool {
    match spots.get(node) {
        Some(spot) => spot.is_placed,
        None => false,
    }
}

/// Scales the grid, whose lower left corner is at 0, by its lower right one.
fn scale(places: &mut [Place], right: usize) {
    let width = match places.get(right) {
        Some(place) => place.x,
        None => 1.0,
    };
    let factor = (PI * 4.0 / STRETCHED).sqrt() / width.max(1.0);
    for place in places.iter_mut() {
        *place = place.times(factor);
    }
}
