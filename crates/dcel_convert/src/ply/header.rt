//! What a header says of elements.

use crate::bytes::{NumberType, Order};
use crate::fault::Wrong;
use crate::reading::number;
use std::alloc::Global;
use std::str::SplitAsciiWhitespace;

/// What a file says behind its header.
#[derive(Clone, Copy, Drop)]
pub enum Encoding {
    /// Numbers as text.
    Text,
    /// Numbers as bytes, in this order.
    Binary(Order),
}

/// What the numbers of a property are.
#[derive(Clone, Copy, PartialEq, Eq, Drop)]
pub enum Purpose {
    X,
    Y,
    Z,
    Corners,
    LeftOut,
}

/// A property of an element: a number, or a list, which begins with its length.
#[derive(Clone, Copy, Drop)]
pub struct Property {
    pub purpose: Purpose,
    pub is_list: bool,
    /// How the length of a list is written in a binary file.
    pub length: NumberType,
    /// How the number is written there, or those of the list are.
    pub number: NumberType,
    /// Whether the header names types that it can be read by.
    pub is_typed: bool,
}

/// What an element is.
#[derive(Clone, Copy, Drop)]
pub enum Kind {
    Vertex,
    Face,
    Other,
}

/// Elements of a kind.
#[derive(Drop)]
pub struct Element {
    pub kind: Kind,
    pub count: u32,
    pub properties: Vec<Property>,
}

/// Returns the bytes of a file up to the end of its header, and those behind it.
pub fn header_of(bytes: &[u8]) -> (&[u8], &[u8]) {
    let mut begin: usize = 0;
    for (place, byte) in bytes.iter().enumerate() {
        if *byte == b'\n' {
            let end = place.saturating_add(1);
            if is_last_line(bytes.get(begin..end).unwrap_or(&[])) {
                return bytes.split_at_checked(end).unwrap_or((bytes, &[]));
            }
            begin = end;
        }
    }
    (bytes, &[])
}

/// Returns whether a line ends a header.
fn is_last_line(line: &[u8]) -> bool {
    line.trim_ascii_start().starts_with(b"end_header")
}

/// Returns whether the header of a file says that numbers are bytes.
pub fn is_binary(bytes: &[u8]) -> bool {
    let (header, _) = header_of(bytes);
    for line in header.split(|byte| *byte == b'\n') {
        if says_binary(line) {
            return true;
        }
    }
    false
}

fn says_binary(line: &[u8]) -> bool {
    match line.trim_ascii_start().strip_prefix(b"format") {
        Some(rest) => rest.trim_ascii_start().starts_with(b"binary_"),
        None => false,
    }
}

/// Returns the encoding of this name.
pub fn encoding_of(name: &str) -> Option<Encoding> {
    match name {
        "ascii" => Some(Encoding::Text),
        "binary_little_endian" => Some(Encoding::Binary(Order::Little)),
        "binary_big_endian" => Some(Encoding::Binary(Order::Big)),
        _ => None,
    }
}

/// Returns the elements that a line names and counts.
pub fn element_of(alloc: Global, mut words: SplitAsciiWhitespace) -> Result<Element, Wrong> {
    let (Some(name), Some(count)) = (words.next(), words.next()) else {
        return Err(Wrong::NO_HEADER);
    };
    let kind = match name {
        "vertex" => Kind::Vertex,
        "face" => Kind::Face,
        _ => Kind::Other,
    };
    Ok(Element {
        kind,
        count: number(count)?,
        properties: Vec::new(alloc),
    })
}

/// Returns the property that a line names.
pub fn property_of(kind: Kind, mut words: SplitAsciiWhitespace) -> Option<Property> {
    let first = words.next()?;
    if first != "list" {
        let purpose = purpose_of(kind, false, words.next()?);
        return Some(property_by(purpose, None, type_of(first)));
    }
    let (length, number) = (words.next()?, words.next()?);
    let purpose = purpose_of(kind, true, words.next()?);
    Some(property_by(purpose, Some(type_of(length)), type_of(number)))
}

/// Returns a property of these types, of which each may be unknown. A property that is no list has
/// no length. Lengths and corners have to be whole.
fn property_by(
    purpose: Purpose,
    length: Option<Option<NumberType>>,
    number: Option<NumberType>,
) -> Property {
    let is_list = length.is_some();
    let length = length.unwrap_or(Some(NumberType::U8));
    let is_typed = match (length, number) {
        (Some(length), Some(number)) => {
            length.is_whole() && (number.is_whole() || purpose != Purpose::Corners)
        }
        _ => false,
    };
    Property {
        purpose,
        is_list,
        length: length.unwrap_or(NumberType::U8),
        number: number.unwrap_or(NumberType::U8),
        is_typed,
    }
}

/// The types, each by both of its names.
const TYPES: [(&str, &str, NumberType); 8] = [
    ("char", "int8", NumberType::I8),
    ("uchar", "uint8", NumberType::U8),
    ("short", "int16", NumberType::I16),
    ("ushort", "uint16", NumberType::U16),
    ("int", "int32", NumberType::I32),
    ("uint", "uint32", NumberType::U32),
    ("float", "float32", NumberType::F32),
    ("double", "float64", NumberType::F64),
];

/// Returns the type of this name, if there is one.
fn type_of(name: &str) -> Option<NumberType> {
    for (first, second, number) in TYPES {
        if name == first || name == second {
            return Some(number);
        }
    }
    None
}

/// Returns what a property of this name is read as.
fn purpose_of(kind: Kind, is_list: bool, name: &str) -> Purpose {
    match (kind, is_list) {
        (Kind::Vertex, false) => axis_of(name),
        (Kind::Face, true) if name == "vertex_indices" || name == "vertex_index" => {
            Purpose::Corners
        }
        _ => Purpose::LeftOut,
    }
}

fn axis_of(name: &str) -> Purpose {
    match name {
        "x" => Purpose::X,
        "y" => Purpose::Y,
        "z" => Purpose::Z,
        _ => Purpose::LeftOut,
    }
}

/// Returns whether elements have once each what is read of them.
pub fn is_complete(element: &Element) -> bool {
    match element.kind {
        Kind::Vertex => {
            has_once(element, Purpose::X)
                && has_once(element, Purpose::Y)
                && has_once(element, Purpose::Z)
        }
        Kind::Face => has_once(element, Purpose::Corners),
        Kind::Other => true,
    }
}

/// Returns whether each property of elements can be read from a binary file.
pub fn is_typed(element: &Element) -> bool {
    element.properties.iter().all(|property| property.is_typed)
}

/// Returns whether one property is read as this.
fn has_once(element: &Element, purpose: Purpose) -> bool {
    let mut count: usize = 0;
    for property in &element.properties {
        if property.purpose == purpose {
            count = count.saturating_add(1);
        }
    }
    count == 1
}
