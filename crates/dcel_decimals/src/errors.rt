//! Why a text is no decimal, or a decimal is none at a scale.

use thiserror::Error;

/// Why no decimal was read from a text.
#[derive(Clone, Copy, PartialEq, Eq, Debug, Drop, Error)]
pub enum DecimalError {
    /// It isn't one: a sign or none, digits with a point or none among them, and an exponent or
    /// none.
    #[error("this is no decimal number")]
    NotDecimal,
    /// The number is 2^63 or more, or -2^63 or less.
    #[error("the number is too large")]
    OutOfRange,
    /// The number has more than 25 digits, without the zeros at its ends, or more than 400 places
    /// behind its point.
    #[error("the number has too many digits")]
    TooManyDigits,
    /// The exponent is 2^64 or more, or -2^64 or less.
    #[error("the exponent is too large")]
    FarExponent,
}

/// Why a decimal times a scale is no number that is taken.
#[derive(Clone, Copy, PartialEq, Eq, Debug, Drop, Error)]
pub enum ScalingError {
    /// It isn't whole.
    #[error("the number times the scale is not whole")]
    NotWhole,
    /// It is above 2^53, or below -2^53.
    #[error("the number times the scale is too large")]
    OutOfRange,
}
