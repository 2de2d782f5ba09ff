//! Fractions.

ghost use Rattle.std.specs.Prelude.{◌<◌, ◌≤◌, ◌^◌, ◌≤ℤ◌, pos, unsigned_abs};
ghost use Rattle.std.specs.Int.{IsGcd};
ghost use Rattle.dcel_predicates.specs.Wide.{number_of};

use dcel_predicates::Wide;
use std::fmt;

const ONE: Wide = Wide {
    high: 0,
    middle: 0,
    low: 1,
};

/// A fraction in lowest terms.
#[derive(Clone, Copy)]
pub struct Fraction {
    is_negative: bool,
    numerator: Wide,
    denominator: Wide,
    ghost numerator_least: { pos 0 ≤ℤ numerator.high },
    ghost numerator_most: { numerator.high ≤ℤ pos (2 ^ 108) },
    ghost denominator_least: { pos 0 ≤ℤ denominator.high },
    ghost denominator_most: { denominator.high ≤ℤ pos (2 ^ 108) },
}

impl Fraction {
    /// Returns a number divided by a weight and by a factor, in lowest terms.
    pub fn new(number: Wide, weight: u128, factor: u128) -> Self
        requires number { unsigned_abs (number_of number) ≤ 2 ^ 165 }
        requires some { 0 < weight }
        requires weight { weight ≤ 2 ^ 109 }
        requires any { 0 < factor }
        requires factor { factor ≤ 2 ^ 96 }
    {
        let weighed = Reduced::of(number.abs(), weight);
        let reduced = Reduced::of(weighed.number, factor);
        Fraction {
            is_negative: number.is_negative(),
            numerator: reduced.number,
            denominator: Wide::product(weighed.divisor as i128, reduced.divisor as i128),
        }
    }
}

/// A number and what it is to be divided by, without their common divisor.
#[derive(Clone, Copy)]
struct Reduced {
    number: Wide,
    divisor: u128,
}

impl Reduced {
    fn of(number: Wide, divisor: u128) -> Self
        requires least { pos 0 ≤ℤ number.high }
        requires some { 0 < divisor }
        requires bound { divisor ≤ 2 ^ 110 }
        ensures least { pos 0 ≤ℤ result.number.high }
        ensures most { result.number.high ≤ℤ number.high }
        ensures divisor { result.divisor ≤ divisor }
    {
        let common = greatest_common_divisor(divisor, number.divided(divisor).remainder);
        Reduced {
            number: number.divided(common).quotient,
            divisor: divisor / common,
        }
    }
}

/// Returns the greatest number that divides both, or 0 if both are 0.
fn greatest_common_divisor(a: u128, b: u128) -> u128
    ensures { IsGcd a b result }
{
    let (mut greater, mut lesser) = (a, b);
    while lesser > 0 {
        (greater, lesser) = (lesser, greater % lesser);
    }
    greater
}

impl fmt::Display for Fraction {
    fn fmt<W: fmt::Write>(&self, f: &mut fmt::Formatter<W>) -> fmt::Result {
        if self.is_negative {
            f.write_str("-")?;
        }
        write!(f, "{}", self.numerator.digits())?;
        if self.denominator == ONE {
            return Ok(());
        }
        write!(f, "/{}", self.denominator.digits())
    }
}
