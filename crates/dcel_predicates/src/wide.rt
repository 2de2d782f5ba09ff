//! Whole numbers of more than 128 bits.

mod digits;
mod division;
mod halves;

ghost use Rattle.std.specs.Prelude.{◌≡◌, ◌≤◌, ◌<◌, ◌^◌, ◌↔◌, IsTrue, pos, neg_ℤ, ◌+ℤ◌, ◌*ℤ◌, ◌<ℤ◌, ◌≤ℤ◌, unsigned_abs};

use crate::vector::Vector;
pub use digits::Digits;
pub use division::Division;
use halves::Carried;
pub(crate) use halves::Halves;

/// The whole number `high * 2^112 + middle * 2^56 + low`.
///
/// Each number has one such form.
#[derive(Clone, Copy, PartialEq, Eq, Debug)]
pub struct Wide {
    /// The number divided by 2^112, rounded down.
    pub high: i128,
    /// The rest divided by 2^56, rounded down.
    pub middle: u64,
    /// The rest of that.
    pub low: u64,
    pub ghost middle_in_range: { middle < 2 ^ 56 },
    pub ghost low_in_range: { low < 2 ^ 56 },
}

impl Wide {
    ghost use Rattle.dcel_predicates.specs.Wide.{number_of};

    /// Returns the product of two numbers.
    pub fn product(p: i128, q: i128) -> Wide
        requires first { unsigned_abs p ≤ 2 ^ 110 }
        requires second { unsigned_abs q ≤ 2 ^ 110 }
        ensures value { number_of result ≡ p *ℤ q }
        ensures bound { unsigned_abs result.high ≤ 2 ^ 108 }
    {
        let p = Vector { x: p, y: 0, z: 0 };
        let q = Vector { x: q, y: 0, z: 0 };
        p.dot(q)
    }

    // Returns the number `high * 2^112 + middle * 2^56 + low` of parts that may be negative or
    // too large for their places.
    pub(crate) fn carried(high: i128, middle: i128, low: i128) -> Wide
        requires high { unsigned_abs high ≤ 2 ^ 125 }
        requires middle { unsigned_abs middle ≤ 2 ^ 125 }
        requires low { unsigned_abs low ≤ 2 ^ 125 }
        ensures { number_of result ≡ (high *ℤ pos (2 ^ 112)) +ℤ (middle *ℤ pos (2 ^ 56)) +ℤ low }
    {
        let low = Carried::of(low);
        let middle = Carried::of(middle + low.carry);
        Wide {
            high: high + middle.carry,
            middle: middle.digit,
            low: low.digit,
        }
    }

    /// Returns whether the number is above 0.
    pub fn is_positive(self) -> bool
        ensures { IsTrue result ↔ (pos 0 <ℤ number_of self) }
    {
        if self.high == 0 {
            self.middle > 0 || self.low > 0
        } else {
            self.high > 0
        }
    }

    /// Returns whether the number is below 0.
    pub fn is_negative(self) -> bool
        ensures { IsTrue result ↔ (number_of self <ℤ pos 0) }
    {
        self.high < 0
    }

    /// Returns the number with the other sign.
    pub fn negated(self) -> Wide
        requires { unsigned_abs self.high ≤ 2 ^ 125 }
        ensures { number_of result ≡ neg_ℤ (number_of self) }
    {
        Wide::carried(-self.high, -(self.middle as i128), -(self.low as i128))
    }

    /// Returns the number without its sign.
    pub fn abs(self) -> Wide
        requires { unsigned_abs self.high ≤ 2 ^ 125 }
        ensures value { number_of result ≡ pos (unsigned_abs (number_of self)) }
        ensures least { pos 0 ≤ℤ result.high }
    {
        if self.is_negative() {
            self.negated()
        } else {
            self
        }
    }
}
