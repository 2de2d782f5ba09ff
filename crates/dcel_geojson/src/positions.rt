//! Positions, nested in arrays.

use crate::kinds::MOST_NESTING;
use crate::reading::Parser;
use crate::refusal::{ReadError, Reason};
use dcel_decimals::Decimal;
use json::Token;

/// What is read of the coordinates of a geometry.
#[derive(Clone, Copy)]
struct Nested {
    /// How many arrays are open.
    open: usize,
    /// In how many arrays the numbers of a position are; 0 before the first position.
    nesting: usize,
    /// The number of the first point of the array of positions that is read, or is next.
    first: usize,
    /// Where that begins.
    place: usize,
}

/// Positions of one array.
#[derive(Clone, Copy, Drop)]
pub struct Run {
    /// The number of the first.
    pub first: usize,
    /// The number behind that of the last one.
    pub end: usize,
    /// Where the first begins.
    pub place: usize,
}

impl Parser<'_> {
    /// Reads the coordinates of a geometry: its points, and its runs of them. Returns in how many
    /// arrays the numbers of a position are; 0 if there is none.
    pub fn read_coordinates(&mut self) -> Result<usize, ReadError> {
        self.runs.clear();
        let mut nested = Nested {
            open: 0,
            nesting: 0,
            first: self.shapes.count(),
            place: 0,
        };
        for _ in 0..self.source.limit() {
            nested = self.read_part(nested)?;
            if nested.open == 0 {
                break;
            }
        }
        Ok(nested.nesting)
    }

    /// Reads on: the beginning or the end of an array, or a position.
    fn read_part(&mut self, nested: Nested) -> Result<Nested, ReadError> {
        match self.source.next()? {
            Token::BeginArray if nested.open < MOST_NESTING => Ok(Nested {
                open: nested.open.saturating_add(1),
                ..nested
            }),
            Token::EndArray if nested.open > 0 => self.end_array(nested),
            Token::Number(x) if nested.open > 0 => self.begin_position(nested, x),
            _ => Err(self.source.refused(Reason::NoPosition).into()),
        }
    }

    /// Ends an array, and with it a run of positions, if there are some.
    fn end_array(&mut self, nested: Nested) -> Result<Nested, ReadError> {
        let Nested { first, place, .. } = nested;
        let end = self.shapes.count();
        if first < end {
            self.runs.push(Run { first, end, place })?;
        }
        Ok(Nested {
            open: nested.open.saturating_sub(1),
            first: end,
            ..nested
        })
    }

    /// Reads the position with this number, of which the others are as deep.
    fn begin_position(&mut self, nested: Nested, x: &str) -> Result<Nested, ReadError> {
        if nested.nesting > 0 && nested.nesting != nested.open {
            return Err(self.source.refused(Reason::OtherNesting).into());
        }
        let place = if nested.first == self.shapes.count() {
            self.source.place()
        } else {
            nested.place
        };
        self.read_position(x)?;
        Ok(Nested {
            open: nested.open.saturating_sub(1),
            nesting: nested.open,
            place,
            ..nested
        })
    }

    /// Reads a position behind its first number, and adds it.
    fn read_position(&mut self, x: &str) -> Result<(), ReadError> {
        let line = self.source.line();
        let x = self.decimal(x)?;
        let Token::Number(y) = self.source.next()? else {
            return Err(self.source.refused(Reason::NoPosition).into());
        };
        let y = self.decimal(y)?;
        self.shapes.add(line, [x, y])?;
        self.end_position()
    }

    /// Passes numbers up to the end of a position.
    fn end_position(&mut self) -> Result<(), ReadError> {
        for _ in 0..self.source.limit() {
            match self.source.next()? {
                Token::Number(_) => {}
                Token::EndArray => return Ok(()),
                _ => break,
            }
        }
        Err(self.source.refused(Reason::NoPosition).into())
    }

    /// Returns the decimal that the token says which was read last.
    fn decimal(&mut self, said: &str) -> Result<Decimal, ReadError> {
        match Decimal::read(said) {
            Ok(decimal) => Ok(decimal),
            Err(error) => Err(self.source.refused(Reason::Number(error)).into()),
        }
    }
}
