//! Scales.

ghost use Rattle.std.specs.Prelude.{◌≡◌, ◌≢◌, ◌^◌, ◌≤◌, ◌<◌, ℕ, All, IfNone, IfSome, MatchOption};

use crate::decimal::Decimal;

/// The largest power.
const MOST: u32 = 18;

/// Ten to a power of at most 18: what decimals are multiplied by so that they become whole.
#[derive(Clone, Copy, PartialEq, Eq, Debug)]
pub struct Scale {
    /// The power.
    pub power: u32,
    pub ghost in_range: { power ≤ 18 },
}

impl Scale {
    ghost use Rattle.dcel_decimals.specs.Scaling.{BecomesWhole};

    /// The scale that changes nothing.
    pub const ONE: Scale = Scale { power: 0 };

    /// Returns the scale that is this number, if it is a power of ten.
    pub fn of(number: u64) -> Option<Scale>
        ensures { MatchOption result ((power : ℕ) → power ≤ 18 → number ≢ 10 ^ power) (λ scale. number ≡ 10 ^ scale.power) }
    {
        for power in 0..MOST + 1 {
            if 10u64.pow(power) == number {
                return Some(Scale { power });
            }
        }
        None
    }

    /// Returns the least power of ten, 1 or more, that makes all of these decimals whole, or
    /// `None` if one of them has more than 18 places.
    pub fn least(decimals: &[Decimal]) -> Option<Scale>
        ensures whole { IfSome result (λ scale. All (BecomesWhole scale.power) decimals.now) }
        ensures least { IfSome result (λ scale. (power : ℕ) → All (BecomesWhole power) decimals.now → scale.power ≤ power) }
        ensures none { IfNone result ((power : ℕ) → All (BecomesWhole power) decimals.now → 18 < power) }
    {
        let mut power = 0;
        for decimal in decimals {
            if decimal.places > power {
                power = decimal.places;
            }
        }
        if power > MOST {
            return None;
        }
        Some(Scale { power })
    }

    /// Returns the number that it is.
    pub fn factor(self) -> u64
        ensures value { result ≡ 10 ^ self.power }
        ensures bound { result ≤ 10 ^ 18 }
    {
        10u64.pow(self.power)
    }
}
