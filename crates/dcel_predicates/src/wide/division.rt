//! Wide numbers divided.

ghost use Rattle.std.specs.Prelude.{◌≡◌, ◌≤◌, ◌<◌, ◌^◌, ◌+◌, ◌*◌, ◌≤ℤ◌, ◌+ℤ◌, ◌*ℤ◌, pos};
ghost use Rattle.dcel_predicates.specs.Wide.{number_of};

use crate::wide::Wide;

/// A quotient, rounded down, and its remainder.
#[derive(Clone, Copy)]
pub struct Division {
    /// How often the divisor goes into the number.
    pub quotient: Wide,
    /// What is left.
    pub remainder: u128,
}

impl Wide {
    /// Divides a number that isn't negative by one from 1 to 2^112.
    pub fn divided(self, divisor: u128) -> Division
        requires least { pos 0 ≤ℤ self.high }
        requires some { 0 < divisor }
        requires bound { divisor ≤ 2 ^ 112 }
        ensures value { (number_of result.quotient *ℤ pos divisor) +ℤ pos result.remainder ≡ number_of self }
        ensures remainder { result.remainder < divisor }
        ensures least { pos 0 ≤ℤ result.quotient.high }
        ensures most { result.quotient.high ≤ℤ self.high }
    {
        let size = self.high.unsigned_abs();
        let high = size / divisor;
        let middle = Part::of(size % divisor, self.middle, divisor);
        let low = Part::of(middle.rest, self.low, divisor);
        Division {
            quotient: Wide {
                high: high as i128,
                middle: middle.quotient,
                low: low.quotient,
            },
            remainder: low.rest,
        }
    }
}

/// A quotient so far, and the rest.
#[derive(Clone, Copy)]
struct Part {
    quotient: u64,
    rest: u128,
}

impl Part {
    // Divides `rest * 2^56 + digit`, 14 bits of the digit at a time: a rest below 2^112 leaves
    // room for no more in a `u128`.
    fn of(rest: u128, digit: u64, divisor: u128) -> Part
        requires rest { rest < divisor }
        requires digit { digit < 2 ^ 56 }
        requires bound { divisor ≤ 2 ^ 112 }
        ensures whole { result.quotient * divisor + result.rest ≡ rest * 2 ^ 56 + digit }
        ensures rest { result.rest < divisor }
        ensures quotient { result.quotient < 2 ^ 56 }
    {
        let upper = digit / (1 << 28);
        let lower = digit % (1 << 28);
        Part { quotient: 0, rest }
            .with_piece(upper / (1 << 14), divisor)
            .with_piece(upper % (1 << 14), divisor)
            .with_piece(lower / (1 << 14), divisor)
            .with_piece(lower % (1 << 14), divisor)
    }

    // Divides 14 bits more.
    fn with_piece(self, piece: u64, divisor: u128) -> Part
        requires rest { self.rest < divisor }
        requires piece { piece < 2 ^ 14 }
        requires quotient { self.quotient < 2 ^ 42 }
        requires bound { divisor ≤ 2 ^ 112 }
        ensures whole { result.quotient * divisor + result.rest ≡ (self.quotient * divisor + self.rest) * 2 ^ 14 + piece }
        ensures rest { result.rest < divisor }
        ensures quotient { result.quotient < (self.quotient + 1) * 2 ^ 14 }
    {
        let number = self.rest * (1 << 14) + piece as u128;
        Part {
            quotient: self.quotient * (1 << 14) + (number / divisor) as u64,
            rest: number % divisor,
        }
    }
}
