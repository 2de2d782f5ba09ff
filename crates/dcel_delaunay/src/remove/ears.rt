//! Which edge of a vertex to flip next, so that the triangles that flips leave behind are Delaunay.
//!
//! A flip cuts an ear off the ring of neighbors: the triangle of one neighbor with the one before it
//! and the one after it. Seen from the vertex, lift the neighbor at (x, y) to the height x² + y². If
//! the vertex rises from the height 0, it meets the plane of one ear first, and that ear is a
//! Delaunay triangle of the ring; then it rises on, above the ring without the ear (O. Devillers, "On
//! deletion in Delaunay triangulations", 1999).
//!
//! Heights are doubles, and their bits ascend with them. Nothing depends on them but the number of
//! flips: each edge is tested exactly before it is flipped, and illegal edges that are left are
//! flipped later.

ghost use Rattle.std.specs.Prelude.{◌<◌};
ghost use Rattle.dcel_maps.specs.Shapes.{IsLive};
ghost use Rattle.spade_dcel.specs.Handles.{mesh_behind, number_of};

use dcel_planar::{Edge, EdgeMesh, Point, point_of};
use spade_dcel::handles::{FixedDirectedEdgeHandle, FixedVertexHandle};
use std::alloc::Allocator;
use std::num::f64_to_bits_with_nan;

/// Where a vertex has more edges, ears aren't measured: each search goes through all of them.
pub(crate) const MOST_EARS: usize = 16;

/// The key of what is no ear, or can't be cut off.
const NEVER: i64 = i64::MAX;

/// The places of a ring, each before the next one.
const BEFORE: [u8; MOST_EARS] = [0, 0, 1, 2, 3, 4, 5, 6, 7, 8, 9, 10, 11, 12, 13, 14];

const AFTER: [u8; MOST_EARS] = [1, 2, 3, 4, 5, 6, 7, 8, 9, 10, 11, 12, 13, 14, 15, 0];

/// The ring of a vertex's neighbors, which are its corners, each in a column by its place.
#[derive(Drop)]
pub(crate) struct Ring {
    // Where a corner is, seen from the vertex, and the square of the distance.
    x: [f64; MOST_EARS],
    y: [f64; MOST_EARS],
    lift: [f64; MOST_EARS],
    // Twice the area of the triangle with the vertex and the corner after it.
    area: [f64; MOST_EARS],
    // The bits of where the plane of its ear is at the vertex, the last four of them its place.
    keys: [i64; MOST_EARS],
    // The edge that ends at it.
    spokes: [FixedDirectedEdgeHandle; MOST_EARS],
    // The places of its neighbors in the ring.
    before: [u8; MOST_EARS],
    after: [u8; MOST_EARS],
    count: u8,
    left: u8,
}

impl Ring {
    /// A ring of no corners.
    #[inline(always)]
    pub(crate) fn new() -> Self {
        Ring {
            x: [0.0; MOST_EARS],
            y: [0.0; MOST_EARS],
            lift: [0.0; MOST_EARS],
            area: [0.0; MOST_EARS],
            keys: [NEVER; MOST_EARS],
            spokes: [FixedDirectedEdgeHandle::new(0); MOST_EARS],
            before: BEFORE,
            after: AFTER,
            count: 0,
            left: 0,
        }
    }

    /// Goes round a vertex inside of triangles and measures its ears, unless it has too many edges.
    pub(crate) fn measure<UE, A: Allocator>(
        &mut self,
        dcel: &EdgeMesh<UE, A>,
        vertex: FixedVertexHandle,
    )
        requires { vertex < dcel.now.shape.vertices }
    {
        let center = point_of(dcel.vertex(vertex));
        for spoke in dcel.vertex(vertex).out_edges() {
            if usize::from(self.count) >= MOST_EARS {
                self.left = 0;
                return;
            }
            self.push(spoke, center);
        }
        self.close();
    }

    /// Returns the place of the lowest ear, if there is an ear and more than three corners are left.
    #[inline]
    pub(crate) fn lowest(&self) -> Option<u8> {
        if self.left <= 3 {
            return None;
        }
        let mut lowest = NEVER;
        for place in 0..self.count {
            let key = self.keys[usize::from(place) % MOST_EARS];
            lowest = if key < lowest { key } else { lowest };
        }
        if lowest < NEVER {
            return Some((lowest.cast_unsigned() % 16) as u8);
        }
        None
    }

    /// Returns the edge that a flip takes from the vertex to cut off an ear.
    #[inline]
    pub(crate) fn spoke(&self, place: u8) -> FixedDirectedEdgeHandle {
        self.spokes[usize::from(place) % MOST_EARS]
    }

    /// Takes a corner whose ear was cut off out of the ring.
    #[inline]
    pub(crate) fn cut(&mut self, place: u8) {
        self.left = self.left.wrapping_sub(1);
        if self.left <= 3 {
            return;
        }
        let before = self.before[usize::from(place) % MOST_EARS];
        let after = self.after[usize::from(place) % MOST_EARS];
        self.pass_over(place);
        self.after[usize::from(before) % MOST_EARS] = after;
        self.before[usize::from(after) % MOST_EARS] = before;
        self.set_area(before);
        self.set_key(before);
        self.set_key(after);
    }

    /// Leaves out an ear that can't be cut off, until a neighbor of its corner is.
    #[inline]
    pub(crate) fn pass_over(&mut self, place: u8) {
        self.keys[usize::from(place) % MOST_EARS] = NEVER;
    }

    /// Adds the corner where an edge of the vertex ends.
    #[inline]
    fn push<UE, A: Allocator>(&mut self, spoke: Edge<'_, UE, A>, center: Point)
        requires { IsLive (mesh_behind spoke).shape (number_of spoke) }
    {
        let place = usize::from(self.count) % MOST_EARS;
        let at = point_of(spoke.to());
        let (x, y) = (
            nearest(at.x.wrapping_sub(center.x)),
            nearest(at.y.wrapping_sub(center.y)),
        );
        self.x[place] = x;
        self.y[place] = y;
        self.lift[place] = x * x + y * y;
        self.spokes[place] = spoke.fix();
        self.count = self.count.wrapping_add(1);
        self.left = self.count;
    }

    /// Joins the last corner to the first one, and measures all.
    #[inline]
    fn close(&mut self) {
        let last = self.count.wrapping_sub(1);
        self.before[0] = last;
        self.after[usize::from(last) % MOST_EARS] = 0;
        for place in 0..self.count {
            self.set_area(place);
        }
        for place in 0..self.count {
            self.set_key(place);
        }
    }

    #[inline(always)]
    fn set_area(&mut self, place: u8) {
        let at = usize::from(place) % MOST_EARS;
        let after = usize::from(self.after[at]) % MOST_EARS;
        self.area[at] = self.cross(at, after);
    }

    /// Computes the height of an ear by Cramer's rule, and its key.
    #[inline(always)]
    fn set_key(&mut self, place: u8) {
        let at = usize::from(place) % MOST_EARS;
        let before = usize::from(self.before[at]) % MOST_EARS;
        let after = usize::from(self.after[at]) % MOST_EARS;
        let cut_off = self.cross(before, after);
        let (first, second) = (self.area[before], self.area[at]);
        let area = first + second - cut_off;
        let volume = self.lift[before] * second - self.lift[at] * cut_off
            + self.lift[after] * first;
        let bits = f64_to_bits_with_nan(volume / area);
        let key = ((bits & !15) | u64::from(place)).cast_signed();
        let is_ear = (cut_off > 0.0) & (area > 0.0);
        self.keys[at] = if is_ear { key } else { NEVER };
    }

    /// Returns twice the area of the triangle of the vertex and two neighbors, below zero if it is
    /// clockwise.
    #[inline(always)]
    fn cross(&self, a: usize, b: usize) -> f64
        requires { (a < 16) × (b < 16) }
    {
        self.x[a] * self.y[b] - self.y[a] * self.x[b]
    }
}

/// Returns a difference of coordinates as a double, without a branch on its sign.
#[inline(always)]
fn nearest(difference: i64) -> f64 {
    let above = difference.wrapping_add(1 << 55).cast_unsigned();
    let upper = (above >> 32) as f64 - 8_388_608.0;
    upper * 4_294_967_296.0 + (above & 0xffff_ffff) as f64
}
