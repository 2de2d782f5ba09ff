//! Numerals, which have no sign.

ghost use Rattle.std.specs.Prelude.{◌≡◌, ◌^◌, ◌<◌, ◌≤◌, ◌+◌, length, MatchOption, MatchResult};
ghost use Rattle.std.specs.Str.Parse.{AllDigits, digits_value};
ghost use Rattle.std.specs.Float.Numeral.{numeral_digits};
ghost use Rattle.dcel_decimals.specs.Digits.{number_of, IsLong, Reads, ReadsNumeral};

use crate::digits::{Digits, Unsigned};
use crate::errors::DecimalError;
use fast_float::Numeral;

/// Returns the number that a numeral writes.
pub fn read_numeral(numeral: &Numeral) -> Result<Unsigned, DecimalError>
    requires { length numeral.now.whole + length numeral.now.fraction < 2 ^ 64 }
    ensures { ReadsNumeral numeral.now result }
{
    let exponent = exponent_of(numeral.exponent())?;
    let behind = numeral.fraction().len() as u128;
    if numeral.is_exponent_negative() {
        read_moved(numeral, 0, behind + u128::from(exponent))
    } else {
        read_moved(numeral, exponent, behind)
    }
}

/// Returns the number that the digits of a numeral write, times ten to `up`, divided by ten to
/// `down`.
fn read_moved(numeral: &Numeral, up: u64, down: u128) -> Result<Unsigned, DecimalError>
    requires { length numeral.now.whole + length numeral.now.fraction < 2 ^ 64 }
    ensures { Reads (numeral_digits numeral.now) up down result }
{
    match digits_of(numeral) {
        Some(digits) => digits.moved(up, down),
        None if down <= u128::from(up) => Err(DecimalError::OutOfRange),
        None => Err(DecimalError::TooManyDigits),
    }
}

/// Returns the number that digits write, 0 if there are none, or `FarExponent` if it is 2^64 or more.
fn exponent_of(digits: &[u8]) -> Result<u64, DecimalError>
    requires { AllDigits 10 digits.now }
    ensures { MatchResult result (λ n. n ≡ digits_value 10 digits.now) (λ why. (why ≡ DecimalError.FarExponent) × (2 ^ 64 ≤ digits_value 10 digits.now)) }
{
    if digits.is_empty() {
        return Ok(0);
    }
    match fast_float::parse_u64(digits) {
        Ok(number) => Ok(number),
        Err(_) => Err(DecimalError::FarExponent),
    }
}

/// Returns the number that the digits of a numeral write together, without its point and exponent.
fn digits_of(numeral: &Numeral) -> Option<Digits>
    requires { length numeral.now.whole + length numeral.now.fraction < 2 ^ 64 }
    ensures { MatchOption result (IsLong (numeral_digits numeral.now)) (λ d. number_of d ≡ numeral_digits numeral.now) }
{
    let (whole, fraction) = (numeral.whole(), numeral.fraction());
    let Some(begun) = Digits::nothing().with_all(whole) else {
        return None;
    };
    begun.with_all(fraction)
}
