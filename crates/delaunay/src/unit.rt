//! What the whole coordinates of points stand for.

ghost use Rattle.std.specs.Prelude.{◌≡◌, ◌<◌, ◌≤◌, ◌^◌, IfOk, IfSome, unsigned_abs};
ghost use Rattle.delaunay.specs.Placed.{IsPlace, IsPointOf};

use crate::fault::Wrong;
use crate::quoting::Sentence;
use dcel_decimals::{Decimal, Grid, Scale, ScalingError, Snapped, Steps};
use dcel_delaunay::Point;
use std::fmt;

/// What a coordinate of a point is, beside the decimal that was read.
#[derive(Clone, Copy)]
pub enum Unit {
    /// The decimal times this scale.
    Scale(Scale),
    /// The number of steps of this grid that is nearest to it.
    Grid(Grid),
}

impl Unit {
    /// Returns the coordinates of a point, as they are written.
    pub fn shown(self, point: Point) -> Shown {
        Shown {
            x: self.number(point.x),
            y: self.number(point.y),
        }
    }

    /// Returns the whole number by which a coordinate is divided to be what it stands for, or `None`
    /// on a grid whose step is above 1.
    pub fn divisor(self) -> Option<u128>
        ensures some { IfSome result (λ divisor. 0 < divisor) }
        ensures bound { IfSome result (λ divisor. divisor ≤ 2 ^ 96) }
    {
        match self {
            Unit::Scale(scale) => Some(scale.factor() as u128),
            Unit::Grid(grid) => Some(1u128 << grid.halvings.checked_sub(10)?),
        }
    }

    fn number(self, coordinate: i64) -> Number
        requires { unsigned_abs coordinate < 2 ^ 63 }
    {
        match self {
            Unit::Scale(scale) => Number::Decimal(Decimal::from_scaled(coordinate, scale)),
            Unit::Grid(grid) => Number::Steps(grid.back(coordinate)),
        }
    }
}

/// Returns the point with these coordinates times a scale.
fn scaled_point(x: Decimal, y: Decimal, scale: Scale) -> Result<Point, Wrong>
    ensures { IfOk result (IsPointOf (Unit.Scale scale) x y) }
{
    let (x, y) = (scaled(x, scale)?, scaled(y, scale)?);
    Point::new(x, y).ok_or(Wrong::out_of_range(scale))
}

fn scaled(coordinate: Decimal, scale: Scale) -> Result<i64, Wrong>
    ensures { IfOk result (IsPlace (Unit.Scale scale) coordinate) }
{
    coordinate.scaled(scale).map_err(|error| match error {
        ScalingError::NotWhole => Wrong::NotWhole(scale.factor()),
        ScalingError::OutOfRange => Wrong::out_of_range(scale),
    })
}

/// Returns the point of so many steps.
fn point_at(x: Snapped, y: Snapped) -> Result<Point, Wrong>
    ensures { IfOk result (λ p. (p.x ≡ x.steps) × (p.y ≡ y.steps)) }
{
    Point::new(x.steps, y.steps).ok_or(Wrong::Said(Sentence::TooLarge))
}

/// How points have moved to the places of a grid.
#[derive(Clone, Copy)]
pub struct Moves {
    /// How many have moved.
    pub count: usize,
    /// How far a coordinate has moved at most, in units of the 1024th part of a step.
    pub most: u32,
}

impl Moves {
    /// No point has moved.
    pub const NONE: Moves = Moves { count: 0, most: 0 };

    /// Returns the point that a unit makes of these coordinates, and notes how a grid has moved it.
    pub fn point(&mut self, x: Decimal, y: Decimal, unit: Unit) -> Result<Point, Wrong>
        ensures { IfOk result (IsPointOf unit x y) }
    {
        match unit {
            Unit::Scale(scale) => scaled_point(x, y, scale),
            Unit::Grid(grid) => self.snap(x, y, grid),
        }
    }

    /// Returns the point at the place of a grid that is nearest to these coordinates, and notes
    /// how it has moved. The grid fits them.
    fn snap(&mut self, x: Decimal, y: Decimal, grid: Grid) -> Result<Point, Wrong>
        ensures { IfOk result (IsPointOf (Unit.Grid grid) x y) }
    {
        let Some(left) = grid.snap(x) else {
            return Err(Wrong::Said(Sentence::TooLarge));
        };
        let Some(right) = grid.snap(y) else {
            return Err(Wrong::Said(Sentence::TooLarge));
        };
        self.note(left, right);
        point_at(left, right)
    }

    fn note(&mut self, x: Snapped, y: Snapped) {
        let shift = x.shift.max(y.shift);
        if shift > 0 {
            self.count = self.count.saturating_add(1);
            self.most = self.most.max(shift);
        }
    }
}

/// A coordinate, as it is written.
#[derive(Clone, Copy)]
enum Number {
    Decimal(Decimal),
    Steps(Steps),
}

impl fmt::Display for Number {
    fn fmt<W: fmt::Write>(&self, f: &mut fmt::Formatter<W>) -> fmt::Result {
        match self {
            Number::Decimal(decimal) => write!(f, "{decimal}"),
            Number::Steps(steps) => write!(f, "{steps}"),
        }
    }
}

/// The coordinates of a point, as they are written.
#[derive(Clone, Copy)]
pub struct Shown {
    x: Number,
    y: Number,
}

impl fmt::Display for Shown {
    fn fmt<W: fmt::Write>(&self, f: &mut fmt::Formatter<W>) -> fmt::Result {
        write!(f, "{} {}", self.x, self.y)
    }
}
