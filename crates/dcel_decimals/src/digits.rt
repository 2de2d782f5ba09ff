//! Digits read one by one, and the zeros at their end counted.

ghost use Rattle.std.specs.Prelude.{◌≡◌, ◌≢◌, ◌+◌, ◌*◌, ◌%◌, ◌^◌, ◌<◌, ◌≤◌, length, MatchOption, IfSome};
ghost use Rattle.std.specs.Option.{SomeIff};
ghost use Rattle.std.specs.Str.Parse.{AllDigits, digits_value_after};

use crate::errors::DecimalError;

/// What a mantissa of 25 digits stays below: 10^25.
const LIMIT: u128 = 10_000_000_000_000_000_000_000_000;

/// What a decimal stays below.
const RANGE: u128 = 1 << 63;

/// With as many places any 25 digits are in range.
const ALL_IN_RANGE: u32 = 7;

/// How many places behind the point there are at most. The least `f64` above 0 needs 340 for its
/// 17 digits.
const MOST_PLACES: u128 = 400;

/// A number: what stands before the zeros at its end, and how many these are.
#[derive(Clone, Copy)]
pub struct Digits {
    pub significant: u128,
    pub zeros: u64,
    pub ghost in_range: { significant < 10 ^ 25 },
    pub ghost last: { significant % 10 ≡ 0 → significant ≡ 0 },
    pub ghost nothing: { significant ≡ 0 → zeros ≡ 0 },
}

/// A number without a sign: `size` divided by ten to the `places`.
#[derive(Clone, Copy)]
pub struct Unsigned {
    pub size: u128,
    pub places: u32,
    pub ghost few_digits: { size < 10 ^ 25 },
    pub ghost few_places: { places ≤ 400 },
    pub ghost in_range: { size < 2 ^ 63 * 10 ^ places },
    pub ghost shortest: { size % 10 ≡ 0 → places ≡ 0 },
}

impl Digits {
    ghost use Rattle.dcel_decimals.specs.Digits.{number_of, IsLong, Reads};

    /// Returns 0.
    pub fn nothing() -> Self
        ensures number { number_of result ≡ 0 }
        ensures zeros { result.zeros ≡ 0 }
    {
        Digits {
            significant: 0,
            zeros: 0,
        }
    }

    /// Returns the number with more digits behind it, or `None` if it has more than 25 digits
    /// without the zeros at its end, whatever follows.
    pub fn with_all(self, more: &[u8]) -> Option<Digits>
        requires digits { AllDigits 10 more.now }
        requires room { self.zeros + length more.now < 2 ^ 64 }
        ensures number { MatchOption result (IsLong (digits_value_after 10 (number_of self) more.now)) (λ d. number_of d ≡ digits_value_after 10 (number_of self) more.now) }
        ensures zeros { IfSome result (λ d. d.zeros ≤ self.zeros + length more.now) }
    {
        let mut so_far = self;
        for digit in more {
            let Some(next) = so_far.with(*digit - b'0') else {
                return None;
            };
            so_far = next;
        }
        Some(so_far)
    }

    /// Returns the number with one digit more.
    fn with(self, digit: u8) -> Option<Digits>
        requires digit { digit < 10 }
        requires room { self.zeros + 1 < 2 ^ 64 }
        ensures number { MatchOption result ((10 ^ 25 ≤ number_of self * 10 + digit) × (0 < digit)) (λ d. number_of d ≡ number_of self * 10 + digit) }
        ensures zeros { IfSome result (λ d. d.zeros ≤ self.zeros + 1) }
    {
        if digit > 0 {
            return self.with_last(digit);
        }
        if self.significant == 0 {
            return Some(self);
        }
        Some(Digits {
            significant: self.significant,
            zeros: self.zeros + 1,
        })
    }

    /// Returns the number with one digit more, which is not 0.
    fn with_last(self, digit: u8) -> Option<Digits>
        requires digit { digit < 10 }
        requires above { 0 < digit }
        requires room { self.zeros + 1 < 2 ^ 64 }
        ensures number { MatchOption result (10 ^ 25 ≤ number_of self * 10 + digit) (λ d. number_of d ≡ number_of self * 10 + digit) }
        ensures zeros { IfSome result (λ d. d.zeros ≡ 0) }
    {
        let Some(before) = raised(self.significant, u128::from(self.zeros) + 1) else {
            return None;
        };
        let significant = before + u128::from(digit);
        if significant >= LIMIT {
            return None;
        }
        Some(Digits {
            significant,
            zeros: 0,
        })
    }

    /// Returns the number times ten to `up`, divided by ten to `down`.
    pub fn moved(self, up: u64, down: u128) -> Result<Unsigned, DecimalError>
        ensures { Reads (number_of self) up down result }
    {
        if self.significant == 0 {
            return Ok(Unsigned { size: 0, places: 0 });
        }
        let up = u128::from(self.zeros) + u128::from(up);
        if down <= up {
            return self.raised(up - down);
        }
        if down - up > MOST_PLACES {
            return Err(DecimalError::TooManyDigits);
        }
        self.with_places((down - up) as u32)
    }

    /// Returns the digits before the zeros times ten to a power.
    fn raised(self, power: u128) -> Result<Unsigned, DecimalError>
        ensures { Reads self.significant power 0 result }
    {
        let Some(size) = raised(self.significant, power) else {
            return Err(DecimalError::OutOfRange);
        };
        if size >= RANGE {
            return Err(DecimalError::OutOfRange);
        }
        Ok(Unsigned { size, places: 0 })
    }

    /// Returns the digits before the zeros divided by ten to the `places`.
    fn with_places(self, places: u32) -> Result<Unsigned, DecimalError>
        requires some { 0 < self.significant }
        requires places { places ≤ 400 }
        ensures { Reads self.significant 0 places result }
    {
        let limit = RANGE * 10u128.pow(places.min(ALL_IN_RANGE));
        if self.significant >= limit {
            return Err(DecimalError::OutOfRange);
        }
        Ok(Unsigned {
            size: self.significant,
            places,
        })
    }
}

/// Returns a number times ten to a power, if that has at most 25 digits.
pub fn raised(number: u128, power: u128) -> Option<u128>
    ensures { SomeIff result (number * 10 ^ power < 10 ^ 25) (number * 10 ^ power) }
{
    if number == 0 {
        return Some(0);
    }
    if power > 24 {
        return None;
    }
    let raised = number.checked_mul(10u128.checked_pow(power as u32)?)?;
    if raised >= LIMIT {
        return None;
    }
    Some(raised)
}
