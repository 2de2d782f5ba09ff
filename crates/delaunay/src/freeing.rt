//! Bits of coordinates that are left free, so that segments have points between their ends.

use crate::fault::Fault;
use crate::reading::Coordinates;
use crate::unit::{Moves, Unit};
use dcel_decimals::{Grid, Scale};
use dcel_delaunay::Point;
use std::alloc::{AllocError, Global};

/// How many bits of a grid's coordinates are free, if as many can be.
const FREE_BITS: u32 = 12;

/// How many more decimal places a scale has, if as many can be: more than twelve bits.
const FREE_PLACES: u32 = 4;

/// How coordinates are read, and how many of their bits are left free for new points.
#[derive(Clone, Copy)]
pub struct Room {
    /// What they stand for as they are read.
    pub unit: Unit,
    /// How many bits are free.
    pub bits: u32,
}

impl Room {
    /// Returns the room that a scale leaves, finer than the least one of these coordinates.
    pub fn by_scale(scale: Scale, least: Scale) -> Room {
        let places = scale.power.saturating_sub(least.power);
        Room {
            unit: Unit::Scale(scale),
            bits: bits_of(places),
        }
    }

    /// Returns the room of a grid some bits coarser than the finest one of these coordinates.
    pub fn by_grid(finest: Grid) -> Room {
        let bits = finest.halvings.min(FREE_BITS);
        Room {
            unit: Unit::Grid(Grid {
                halvings: finest.halvings.saturating_sub(bits),
            }),
            bits,
        }
    }

    /// Returns the unit in which new points are between those that were read.
    pub fn finer_unit(self) -> Unit {
        match self.unit {
            Unit::Scale(scale) => Unit::Scale(scale),
            Unit::Grid(grid) => Unit::Grid(Grid {
                halvings: grid.halvings.saturating_add(self.bits).min(106),
            }),
        }
    }

    /// Returns points in that unit.
    pub fn finer(self, alloc: Global, points: &[Point]) -> Result<Vec<Point>, AllocError> {
        let factor = match self.unit {
            Unit::Scale(_) => 1,
            Unit::Grid(_) => 1i64 << self.bits.min(FREE_BITS),
        };
        let mut finer = Vec::with_capacity(alloc, points.len())?;
        for point in points {
            finer.push(multiplied(*point, factor))?;
        }
        Ok(finer)
    }
}

/// Returns the finest scale that leaves so many places free of which all are in range.
pub fn finest_scale(
    alloc: Global,
    coordinates: &Coordinates,
    least: Scale,
) -> Result<Scale, Fault> {
    let mut scale = least;
    let mut moves = Moves::NONE;
    for _place in 0..FREE_PLACES {
        let Some(finer) = Scale::of(scale.factor().saturating_mul(10)) else {
            return Ok(scale);
        };
        match coordinates.points(alloc, Unit::Scale(finer), &mut moves) {
            Ok(_) => scale = finer,
            Err(Fault::OutOfMemory(error)) => return Err(Fault::OutOfMemory(error)),
            Err(_) => return Ok(scale),
        }
    }
    Ok(scale)
}

/// Returns how many whole bits so many decimal places are.
fn bits_of(places: u32) -> u32 {
    // 3.3219.. for each.
    places.saturating_mul(33219) / 10000
}

/// Returns a point whose coordinates are multiplied, if they are in range then.
fn multiplied(point: Point, factor: i64) -> Point {
    match Point::new(
        point.x.saturating_mul(factor),
        point.y.saturating_mul(factor),
    ) {
        Some(finer) => finer,
        None => point,
    }
}
