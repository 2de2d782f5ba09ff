//! Grids.

ghost use Rattle.std.specs.Prelude.{◌≡◌, ◌*◌, ◌^◌, ◌<◌, ◌≤◌, ◌↔◌, ◌⊎◌, ℕ, All, IfSome, IsSome, MatchOption, unsigned_abs};
ghost use Rattle.dcel_floats.specs.Floats.{IsFinite};
ghost use Rattle.dcel_floats.specs.Grids.{FitsGrid, IsMultiple, Snaps};
ghost use Rattle.dcel_floats.specs.Binaries.{IsWithin, size_of};
ghost use Rattle.dcel_floats.specs.Rounding.{IsRounded};

use crate::binary::Binary;
use crate::shifting::{shifted_down, shifted_up};

const MOST_STEPS: u64 = 1 << 53;

/// A grid of numbers: the multiples of a power of two.
#[derive(Clone, Copy, PartialEq, Eq, Debug)]
pub struct Grid {
    /// The step is 2^(power - 1074), from the least float above 0 on.
    pub power: u32,
    pub ghost in_range: { power < 2046 },
}

impl Grid {
    /// Returns the finest grid on which all of these numbers are within 2^53 steps of 0, or `None`
    /// if one of them is infinite or no number.
    pub fn fit(numbers: &[f64]) -> Option<Grid>
        ensures finite { IsSome result ↔ All IsFinite numbers.now }
        ensures fits { IfSome result (λ grid. All (FitsGrid grid.power) numbers.now) }
        ensures finest { IfSome result (λ grid. (power : ℕ) → All (FitsGrid power) numbers.now → grid.power ≤ power) }
    {
        let mut power = 0u32;
        for number in numbers {
            let Some(binary) = Binary::of(*number) else {
                return None;
            };
            power = power.max(binary.finest());
        }
        Some(Grid { power })
    }

    /// Returns the number of steps that is nearest to a number, and the even one of two that are
    /// equally near, or `None` unless the number is within 2^53 steps of 0.
    ///
    /// A number that is a multiple of the step is exactly that many steps.
    pub fn snap(self, x: f64) -> Option<i64>
        ensures value { MatchOption result (FitsGrid self.power x → ⊥) (Snaps self.power x) }
        ensures range { IfSome result (λ steps. unsigned_abs steps ≤ 2 ^ 53) }
    {
        let Some(binary) = Binary::of(x) else {
            return None;
        };
        let Some(size) = self.steps_of(binary) else {
            return None;
        };
        if binary.is_negative {
            Some(-(size as i64))
        } else {
            Some(size as i64)
        }
    }

    /// Returns the float that is a number of steps, or `None` if there is none: beyond 2^53 steps
    /// from 0, or past the largest float.
    pub fn back(self, steps: i64) -> Option<f64>
        ensures { MatchOption result ((2 ^ 53 < unsigned_abs steps) ⊎ ((unsigned_abs steps ≡ 2 ^ 53) × (self.power ≡ 2045))) (IsMultiple self.power steps) }
    {
        let size = steps.unsigned_abs();
        if size < MOST_STEPS {
            let binary = Binary {
                is_negative: steps < 0,
                mantissa: size,
                power: self.power,
            };
            return Some(binary.float());
        }
        if size > MOST_STEPS || self.power == 2045 {
            return None;
        }
        let binary = Binary {
            is_negative: steps < 0,
            mantissa: MOST_STEPS / 2,
            power: self.power + 1,
        };
        Some(binary.float())
    }

    // Returns how many steps a number is, without its sign, rounded.
    fn steps_of(self, binary: Binary) -> Option<u64>
        ensures value { MatchOption result (¬ (IsWithin self.power binary)) (IsRounded (2 ^ self.power) (size_of binary)) }
        ensures range { IfSome result (λ steps. steps ≤ 2 ^ 53) }
    {
        if binary.power < self.power {
            return Some(shifted_down(binary.mantissa, self.power - binary.power));
        }
        shifted_up(binary.mantissa, binary.power - self.power)
    }
}
