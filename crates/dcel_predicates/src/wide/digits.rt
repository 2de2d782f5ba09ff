//! The decimal digits of wide numbers.

ghost use Rattle.std.specs.Prelude.{◌≡◌, ◌<◌, ◌^◌, ◌+◌, ◌*◌, ◌≤ℤ◌, pos};
ghost use Rattle.dcel_predicates.specs.Wide.{number_of};

use crate::wide::Wide;
use std::fmt;

/// 10^33.
const GROUP: u128 = 1_000_000_000_000_000_000_000_000_000_000_000;

/// The number `upper * 10^33 + lower`, which is written in decimal digits.
#[derive(Clone, Copy)]
pub struct Digits {
    /// The digits in front of the last 33.
    pub upper: u128,
    /// The last 33 digits.
    pub lower: u128,
    pub ghost lower_in_range: { lower < 10 ^ 33 },
}

impl Wide {
    /// Returns the digits of a number from 0 to 2^220.
    pub fn digits(self) -> Digits
        requires least { pos 0 ≤ℤ self.high }
        requires bound { self.high ≤ℤ pos (2 ^ 108) }
        ensures { pos (result.upper * 10 ^ 33 + result.lower) ≡ number_of self }
    {
        let parted = self.divided(GROUP);
        let quotient = parted.quotient;
        Digits {
            upper: quotient.high as u128 * (1 << 112)
                + quotient.middle as u128 * (1 << 56)
                + quotient.low as u128,
            lower: parted.remainder,
        }
    }
}

impl fmt::Display for Digits {
    fn fmt<W: fmt::Write>(&self, f: &mut fmt::Formatter<W>) -> fmt::Result {
        if self.upper == 0 {
            return write!(f, "{}", self.lower);
        }
        write!(f, "{}{:033}", self.upper, self.lower)
    }
}
