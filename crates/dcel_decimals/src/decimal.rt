//! Decimals.

ghost use Rattle.std.specs.Prelude.{◌≡◌, ◌*◌, ◌%◌, ◌^◌, ◌<◌, ◌≤◌, ◌*ℤ◌, ℕ, IfErr, IfOk, OnOk, pos, unsigned_abs};
ghost use Rattle.std.specs.Str.Parse.{starts_with_minus};
ghost use Rattle.std.specs.Float.Parse.{without_sign};
ghost use Rattle.fast_float.specs.Text.{with_sign};

use crate::digits::raised;
use crate::errors::{DecimalError, ScalingError};
use crate::numeral::read_numeral;
use crate::scale::Scale;
use fast_float::Numeral;
use std::fmt;

/// The largest number that is made of a decimal by a scale: 2^53.
const MOST_SCALED: u128 = 1 << 53;

/// A number of at most 25 digits, between -2^63 and 2^63: `mantissa` divided by ten to the `places`.
///
/// There are as few places as can be, so equal numbers are equal decimals.
#[derive(Clone, Copy, PartialEq, Eq, Debug)]
pub struct Decimal {
    /// The number without its point.
    pub mantissa: i128,
    /// How many digits are behind the point, at most 400.
    pub places: u32,
    pub ghost few_digits: { unsigned_abs mantissa < 10 ^ 25 },
    pub ghost few_places: { places ≤ 400 },
    pub ghost in_range: { unsigned_abs mantissa < 2 ^ 63 * 10 ^ places },
    pub ghost shortest: { unsigned_abs mantissa % 10 ≡ 0 → places ≡ 0 },
}

impl Decimal {
    ghost use Rattle.dcel_decimals.specs.Texts.{IsDecimalText, Writes, MayNotRead};
    ghost use Rattle.dcel_decimals.specs.Scaling.{Becomes, MayNotScale};

    /// Reads a decimal: a sign or none, digits with a point or none before, among or behind them,
    /// and `e` or `E` with an exponent, or neither.
    ///
    /// It is exactly the number that the text writes.
    pub fn read(text: &str) -> Result<Decimal, DecimalError>
        ensures decimal { OnOk result (IsDecimalText text.now) }
        ensures value { IfOk result (λ d. Writes text.now d.mantissa d.places) }
        ensures why { IfErr result (MayNotRead text.now) }
    {
        let (is_negative, behind_sign) = cut_sign(text.as_bytes());
        let numeral = Numeral::scan(behind_sign);
        if !numeral.has_digits() {
            return Err(DecimalError::NotDecimal);
        }
        if numeral.len() < behind_sign.len() {
            return Err(DecimalError::NotDecimal);
        }
        let read = read_numeral(&numeral)?;
        Ok(Decimal {
            mantissa: signed(is_negative, read.size),
            places: read.places,
        })
    }

    /// Returns the number times a scale, if that is a whole number from -2^53 to 2^53.
    pub fn scaled(self, scale: Scale) -> Result<i64, ScalingError>
        ensures value { IfOk result (Becomes self scale.power) }
        ensures range { IfOk result (λ number. unsigned_abs number ≤ 2 ^ 53) }
        ensures why { IfErr result (MayNotScale self scale.power) }
    {
        if scale.power < self.places {
            return Err(ScalingError::NotWhole);
        }
        let more = u128::from(scale.power - self.places);
        let Some(size) = raised(self.mantissa.unsigned_abs(), more) else {
            return Err(ScalingError::OutOfRange);
        };
        if size > MOST_SCALED {
            return Err(ScalingError::OutOfRange);
        }
        Ok(like(self.mantissa, size) as i64)
    }

    /// Returns the number that is this one times a scale.
    pub fn from_scaled(number: i64, scale: Scale) -> Decimal
        requires { unsigned_abs number < 2 ^ 63 }
        ensures { Becomes result scale.power number }
    {
        let mut size = number.unsigned_abs();
        let mut places = scale.power;
        while places > 0 && size % 10 == 0 {
            size /= 10;
            places -= 1;
        }
        Decimal {
            mantissa: like(number as i128, size as u128),
            places,
        }
    }
}

/// Returns whether a text begins with a minus, and what stands behind its sign.
fn cut_sign(text: &[u8]) -> (bool, &[u8])
    ensures is_negative { result.0 ≡ starts_with_minus text.now }
    ensures rest { result.1.now ≡ without_sign text.now }
{
    match text.first() {
        Some(b'-') => (true, &text[1..]),
        Some(b'+') => (false, &text[1..]),
        _ => (false, text),
    }
}

/// Returns a number of this size, with the sign of another one.
fn like(number: i128, size: u128) -> i128
    requires { size < 10 ^ 25 }
    ensures value { (k l : ℕ) → size * k ≡ unsigned_abs number * l → result *ℤ pos k ≡ number *ℤ pos l }
    ensures size { unsigned_abs result ≡ size }
{
    if number < 0 {
        signed(true, size)
    } else {
        signed(false, size)
    }
}

/// Returns a number with its sign.
fn signed(is_negative: bool, size: u128) -> i128
    requires { size < 10 ^ 25 }
    ensures value { result ≡ with_sign is_negative size }
    ensures size { unsigned_abs result ≡ size }
{
    if is_negative {
        -(size as i128)
    } else {
        size as i128
    }
}

impl fmt::Display for Decimal {
    fn fmt<W: fmt::Write>(&self, f: &mut fmt::Formatter<W>) -> fmt::Result {
        if self.mantissa < 0 {
            f.write_str("-")?;
        }
        let size = self.mantissa.unsigned_abs();
        if self.places == 0 {
            return write!(f, "{size}");
        }
        if self.places > 25 {
            return write!(f, "0.{size:0width$}", width = self.places as usize);
        }
        let unit = 10u128.pow(self.places);
        write!(f, "{}", size / unit)?;
        let behind = size % unit;
        write!(f, ".{behind:0width$}", width = self.places as usize)
    }
}
