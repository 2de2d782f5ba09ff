//! Points by their coordinates, and triangulations of them.

use dcel_bench::require;
use dcel_constrained::ConstrainedTriangulation;
use dcel_delaunay::{Point, Triangulation, point};
use std::alloc::{Allocator, Global};
use std::test::Fail;

/// The coordinates of a point.
pub type Place = (i64, i64);

/// Two vertices, or two points, by their numbers.
pub type Ends = (u32, u32);

/// A kite, whose short diagonal is Delaunay: from (4, 2) to (4, -2).
pub const KITE: [Place; 4] = [(8, 0), (0, 0), (4, 2), (4, -2)];

/// Corners of a square, points on its sides and inside.
pub const SQUARE: [Place; 11] = [
    (0, 0),
    (8, 0),
    (8, 8),
    (0, 8),
    (4, 0),
    (4, 4),
    (2, 2),
    (6, 6),
    (3, 5),
    (8, 4),
    (1, 7),
];

/// Eight points on a hull, and one inside that has them all as neighbors.
pub const HUB: [Place; 9] = [
    (0, 0),
    (4, 0),
    (3, 3),
    (0, 4),
    (-3, 3),
    (-4, 0),
    (-3, -3),
    (0, -4),
    (3, -3),
];

/// Returns the points at these places.
pub fn points_at(places: &[Place], alloc: Global) -> Result<Vec<Point>, Fail> {
    let mut points = Vec::new(alloc);
    for (x, y) in places {
        points.push(point(*x, *y)?)?;
    }
    Ok(points)
}

/// Inserts the points at these places.
fn insert_at<A: Allocator>(
    triangulation: &mut Triangulation<A>,
    places: &[Place],
) -> Result<(), Fail> {
    for (x, y) in places {
        triangulation.insert(point(*x, *y)?)?;
    }
    Ok(())
}

/// Returns a triangulation of the points at these places, whose vertices have their numbers.
pub fn numbered<A: Allocator + Clone>(
    places: &[Place],
    memory: A,
) -> Result<Triangulation<A>, Fail> {
    let mut triangulation = Triangulation::new(memory)?;
    insert_at(&mut triangulation, places)?;
    Ok(triangulation)
}

/// Returns a constrained triangulation of the points at these places, whose vertices have their
/// numbers, and no edge of which is marked. It has no room to spare.
pub fn constrained<A: Allocator + Copy>(
    places: &[Place],
    memory: A,
) -> Result<ConstrainedTriangulation<A>, Fail> {
    let triangulation = numbered(places, memory)?;
    require!(triangulation.is_whole());
    Ok(ConstrainedTriangulation::from_triangulation(&triangulation, memory)?)
}
