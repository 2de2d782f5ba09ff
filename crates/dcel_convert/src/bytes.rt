//! Numbers of a binary file, one after the other.

use crate::fault::Wrong;
use std::num::{f32_from_bits_with_nan, f64_from_bits_with_nan};

/// In which order the bytes of a number are.
#[derive(Clone, Copy, Drop)]
pub enum Order {
    /// The least significant byte is first.
    Little,
    /// The most significant byte is first.
    Big,
}

/// How a number is written.
#[derive(Clone, Copy, Drop)]
pub enum NumberType {
    I8,
    U8,
    I16,
    U16,
    I32,
    U32,
    F32,
    F64,
}

impl NumberType {
    /// Returns how many bytes such a number has.
    pub fn size(self) -> usize {
        match self {
            NumberType::I8 | NumberType::U8 => 1,
            NumberType::I16 | NumberType::U16 => 2,
            NumberType::I32 | NumberType::U32 | NumberType::F32 => 4,
            NumberType::F64 => 8,
        }
    }

    /// Returns whether such numbers are whole.
    pub fn is_whole(self) -> bool {
        !matches!(self, NumberType::F32 | NumberType::F64)
    }
}

/// A number.
#[derive(Clone, Copy, Drop)]
pub enum Number {
    /// A whole one.
    Whole(i64),
    /// An `f32`, which may be no number.
    Single(f32),
    /// An `f64`, which may be no number.
    Double(f64),
}

/// The bytes of a file from a place on.
#[derive(Clone, Copy)]
pub struct ByteReader<'a> {
    left: &'a [u8],
    order: Order,
    /// How many bytes were read.
    end: usize,
    /// How many of them before what was read last.
    begin: usize,
}

impl<'a> ByteReader<'a> {
    /// Makes a reader of what is left of a file behind so many bytes.
    pub fn new(left: &'a [u8], order: Order, read: usize) -> Self {
        ByteReader {
            left,
            order,
            end: read,
            begin: read,
        }
    }

    /// Returns at which byte of the file, from 0 on, the next number begins.
    pub fn place(&self) -> usize {
        self.end
    }

    /// Returns at which byte that begins which was read last, or that was not there.
    pub fn last_place(&self) -> usize {
        self.begin
    }

    /// Has that be read last which begins at this byte.
    pub fn name(&mut self, byte: usize) {
        self.begin = byte;
    }

    /// Passes so many bytes, and returns them, if there are so many.
    pub fn pass(&mut self, count: usize) -> Option<&'a [u8]> {
        self.begin = self.end;
        let (passed, left) = self.left.split_at_checked(count)?;
        self.left = left;
        self.end = self.end.saturating_add(count);
        Some(passed)
    }

    /// Reads a number, if there is one.
    pub fn read(&mut self, kind: NumberType) -> Option<Number> {
        match kind {
            NumberType::I8 => Some(Number::Whole(i64::from(self.one()?.cast_signed()))),
            NumberType::U8 => Some(Number::Whole(i64::from(self.one()?))),
            NumberType::I16 => Some(Number::Whole(i64::from(self.two()?.cast_signed()))),
            NumberType::U16 => Some(Number::Whole(i64::from(self.two()?))),
            NumberType::I32 => Some(Number::Whole(i64::from(self.four()?.cast_signed()))),
            NumberType::U32 => Some(Number::Whole(i64::from(self.four()?))),
            NumberType::F32 => Some(Number::Single(f32_from_bits_with_nan(self.four()?))),
            NumberType::F64 => Some(Number::Double(f64_from_bits_with_nan(self.eight()?))),
        }
    }

    /// Reads a length or the number of a corner, which has to be whole and at least 0.
    pub fn read_whole(&mut self, kind: NumberType) -> Result<u32, Wrong> {
        let Some(number) = self.read(kind) else {
            return Err(Wrong::FEWER_LINES);
        };
        let Number::Whole(number) = number else {
            return Err(Wrong::NO_COUNT);
        };
        match u32::try_from(number) {
            Ok(number) => Ok(number),
            Err(_) => Err(Wrong::NO_COUNT),
        }
    }

    fn one(&mut self) -> Option<u8> {
        let &[byte] = self.pass(1)? else {
            return None;
        };
        Some(byte)
    }

    fn two(&mut self) -> Option<u16> {
        let &[a, b] = self.pass(2)? else {
            return None;
        };
        Some(match self.order {
            Order::Little => u16::from_le_bytes([a, b]),
            Order::Big => u16::from_be_bytes([a, b]),
        })
    }

    fn four(&mut self) -> Option<u32> {
        let &[a, b, c, d] = self.pass(4)? else {
            return None;
        };
        Some(match self.order {
            Order::Little => u32::from_le_bytes([a, b, c, d]),
            Order::Big => u32::from_be_bytes([a, b, c, d]),
        })
    }

    fn eight(&mut self) -> Option<u64> {
        let &[a, b, c, d, e, f, g, h] = self.pass(8)? else {
            return None;
        };
        Some(match self.order {
            Order::Little => u64::from_le_bytes([a, b, c, d, e, f, g, h]),
            Order::Big => u64::from_be_bytes([a, b, c, d, e, f, g, h]),
        })
    }
}
