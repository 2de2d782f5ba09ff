//! Grids.

ghost use Rattle.std.specs.Prelude.{◌≡◌, ◌*◌, ◌^◌, ◌≤◌, ℕ, All, MatchOption, unsigned_abs, pos, ◌+ℤ◌};

use crate::decimal::Decimal;
use crate::floor::floor_of;
use crate::steps::Steps;

/// How often 2^10 is halved to make the finest step.
const MOST_HALVINGS: u32 = 106;

/// A grid of numbers: the multiples of a power of two, from 2^-96 to 2^10.
#[derive(Clone, Copy, PartialEq, Eq, Debug)]
pub struct Grid {
    /// How often 2^10 is halved to make the step.
    pub halvings: u32,
    pub ghost in_range: { halvings ≤ 106 },
}

/// A decimal on a grid.
#[derive(Clone, Copy, PartialEq, Eq, Debug)]
pub struct Snapped {
    /// The number of steps that is nearest to the decimal.
    pub steps: i64,
    /// How far that is from the decimal, in units of the 1024th part of a step, rounded up: 0 if
    /// the decimal hasn't moved.
    pub shift: u32,
    pub ghost steps_in_range: { unsigned_abs steps ≤ 2 ^ 53 },
    pub ghost half: { shift ≤ 512 },
}

impl Grid {
    ghost use Rattle.dcel_decimals.specs.Grids.{FitsGrid, Snaps};
    ghost use Rattle.dcel_decimals.specs.Steps.{IsExactly};

    /// Returns the finest grid, from a step of 2^-96 on, on which all of these decimals are within
    /// 2^53 steps of 0.
    pub fn fit(decimals: &[Decimal]) -> Grid
        ensures fits { All (FitsGrid result.halvings) decimals.now }
        ensures finest { (halvings : ℕ) → halvings ≤ 106 → All (FitsGrid halvings) decimals.now → halvings ≤ result.halvings }
    {
        let mut halvings = MOST_HALVINGS;
        for decimal in decimals {
            halvings = Grid::halvings_for(*decimal, halvings);
        }
        Grid { halvings }
    }

    /// Returns the power of two that the step is.
    pub fn power(self) -> i32
        ensures { result +ℤ pos self.halvings ≡ pos 10 }
    {
        10 - self.halvings as i32
    }

    /// Returns the number of steps that is nearest to a decimal, and the even one of two that are
    /// equally near, or `None` unless the decimal is within 2^53 steps of 0.
    ///
    /// A decimal that is a multiple of the step is exactly that many steps.
    pub fn snap(self, decimal: Decimal) -> Option<Snapped>
        ensures { MatchOption result (FitsGrid self.halvings decimal → ⊥) (Snaps self.halvings decimal) }
    {
        let size = decimal.mantissa.unsigned_abs();
        let Some(floor) = floor_of(size, decimal.places, self.halvings) else {
            return None;
        };
        let rounded = floor.rounded();
        if decimal.mantissa < 0 {
            return Some(Snapped {
                steps: -(rounded.steps as i64),
                shift: rounded.shift,
            });
        }
        Some(Snapped {
            steps: rounded.steps as i64,
            shift: rounded.shift,
        })
    }

    /// Returns the number that some steps are, to be written exactly.
    pub fn back(self, steps: i64) -> Steps
        ensures { IsExactly (2 ^ 10) self.halvings steps result }
    {
        Steps::of(
            steps < 0,
            steps.unsigned_abs() as u128 * 1024,
            self.halvings,
        )
    }

    /// Returns how far a shift is, to be written exactly.
    pub fn distance(self, shift: u32) -> Steps
        ensures { IsExactly 1 self.halvings (pos shift) result }
    {
        Steps::of(false, shift as u128, self.halvings)
    }

    // Returns how often 2^10 may be halved, at most as often as this, so that a decimal is within
    // 2^53 steps of 0.
    fn halvings_for(decimal: Decimal, most: u32) -> u32
        requires { most ≤ 106 }
        ensures bound { result ≤ most }
        ensures fits { FitsGrid result decimal }
        ensures finest { (halvings : ℕ) → halvings ≤ most → FitsGrid halvings decimal → halvings ≤ result }
    {
        let size = decimal.mantissa.unsigned_abs();
        let mut halvings = most;
        while halvings > 0 {
            if floor_of(size, decimal.places, halvings).is_some() {
                return halvings;
            }
            halvings -= 1;
        }
        halvings
    }
}
