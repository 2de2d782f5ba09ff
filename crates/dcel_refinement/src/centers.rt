//! Points to be inserted for triangles.

use crate::parameters::AngleLimit;
use crate::points::Corners;
use crate::vectors::Vector;
use dcel_predicates::Point;
use std::num::saturating_f64_to_i64;

// How far, of the way that would make the angle exactly as wanted, a point is put. A little less than
// all keeps the angle above the limit where it is rounded (A. Ungor, "Off-centers: a new type of
// Steiner points for computing size-optimal quality-guaranteed Delaunay triangulations", 2004).
const PART: f64 = 0.95;

/// Returns the off-center of a triangle: the center of its circle, or a nearer point on the way there
/// from the middle of the shortest side, if the angle across from that side is wide enough there too.
/// It is rounded to whole coordinates, and `None` if they are out of range.
pub(crate) fn off_center(corners: Corners, limit: AngleLimit) -> Option<Point> {
    let (base, to, opposite) = from_shortest(corners);
    let side = Vector::between(base, to);
    let apex = Vector::between(base, opposite);
    let double = 2.0 * side.cross(apex);
    if !(double > 0.0) {
        return None;
    }
    let middle = Vector {
        x: side.x * 0.5,
        y: side.y * 0.5,
    };
    let way = Vector {
        x: (apex.y * side.square() - side.y * apex.square()) / double - middle.x,
        y: (side.x * apex.square() - apex.x * side.square()) / double - middle.y,
    };
    let part = part_of_way(side.square(), way.square(), limit);
    moved(base, middle.x + way.x * part, middle.y + way.y * part)
}

// Returns how much of the way to the center is gone, from 0 to 1, by the squares of the shortest side
// and of the way.
fn part_of_way(side: f64, way: f64, limit: AngleLimit) -> f64 {
    let rise = limit.rise as f64;
    let run = limit.run as f64;
    // The cotangent of half the angle.
    let factor = 0.5 * PART * ((rise * rise + run * run).sqrt() + run) / rise;
    let square = side * factor * factor;
    if way > square {
        (square / way).sqrt()
    } else {
        1.0
    }
}

// Returns the corners in their order, from the start of the shortest side on.
fn from_shortest(corners: Corners) -> (Point, Point, Point) {
    let first = Vector::between(corners.from, corners.to).square();
    let second = Vector::between(corners.to, corners.opposite).square();
    let third = Vector::between(corners.opposite, corners.from).square();
    if first <= second && first <= third {
        (corners.from, corners.to, corners.opposite)
    } else if second <= third {
        (corners.to, corners.opposite, corners.from)
    } else {
        (corners.opposite, corners.from, corners.to)
    }
}

/// Returns the point that lies so far from another one, rounded, if it is in range.
fn moved(from: Point, x: f64, y: f64) -> Option<Point> {
    let x = from.x.checked_add(saturating_f64_to_i64(x))?;
    let y = from.y.checked_add(saturating_f64_to_i64(y))?;
    Point::new(x, y)
}
