//! Numbers of binary files as text: the shortest decimals that read back to the same float.

use crate::bytes::{ByteReader, Number, NumberType};
use crate::fault::{NO_COORDINATE, Wrong};
use ryu::Buffer;
use std::alloc::{AllocError, Global};

/// Reads a coordinate, which has to be finite.
pub fn read_coordinate(reader: &mut ByteReader, kind: NumberType) -> Result<Number, Wrong> {
    let Some(number) = reader.read(kind) else {
        return Err(Wrong::FEWER_LINES);
    };
    if is_finite(number) {
        Ok(number)
    } else {
        Err(Wrong::Plain(NO_COORDINATE))
    }
}

fn is_finite(number: Number) -> bool {
    match number {
        Number::Whole(_) => true,
        Number::Single(number) => number.is_finite(),
        Number::Double(number) => number.is_finite(),
    }
}

/// Returns three coordinates as text, with a space between two.
pub fn place_of(alloc: Global, coordinates: &[Number; 3]) -> Result<String, AllocError> {
    let mut place = String::new(alloc);
    for number in coordinates {
        if !place.is_empty() {
            place.push_str(" ")?;
        }
        push_number(&mut place, *number)?;
    }
    Ok(place)
}

/// Adds a number to a text: a float as the shortest decimal that reads back to it as a float of its
/// size.
fn push_number(text: &mut String, number: Number) -> Result<(), AllocError> {
    let mut buffer = Buffer::new();
    match number {
        Number::Whole(number) => write!(text, "{number}"),
        Number::Single(number) => push_decimal(text, buffer.format(number)),
        Number::Double(number) => push_decimal(text, buffer.format(number)),
    }
}

/// Adds a decimal to a text, without a fraction of nothing.
fn push_decimal(text: &mut String, decimal: &str) -> Result<(), AllocError> {
    text.push_str(decimal.strip_suffix(".0").unwrap_or(decimal))
}
