//! A text read token by token.

use crate::objects::Open;
use crate::positions::Run;
use crate::refusal::{ReadError, Reason};
use crate::shapes::Shapes;
use crate::source::Source;
use json::Scratch;
use std::alloc::Global;

/// Reads the points, lines and rings of a text.
///
/// Of a position two numbers are read, and the others left out. An object or an array without a
/// position has none. What is no GeoJSON is refused, with its place.
pub fn read(alloc: Global, text: &str) -> Result<Shapes, ReadError> {
    let mut scratch = Scratch::new(alloc);
    let source = Source::of(text, &mut scratch)?;
    let mut parser = Parser {
        source,
        shapes: Shapes::none(alloc),
        runs: Vec::new(alloc),
        open: Vec::new(alloc),
    };
    parser.read_all()?;
    Ok(parser.shapes)
}

/// What is read of a text.
#[derive(Drop)]
pub struct Parser<'a> {
    /// What is left of it.
    pub source: Source<'a>,
    /// What was read.
    pub shapes: Shapes,
    /// The positions of the geometry that is read.
    pub runs: Vec<Run>,
    /// The objects and arrays that are open, each in the one before.
    pub open: Vec<Open>,
}

impl Parser<'_> {
    /// Reads all of it.
    fn read_all(&mut self) -> Result<(), ReadError> {
        self.begin_root()?;
        for _ in 0..self.source.limit() {
            match self.open.pop() {
                Some(open) => self.read_on(open)?,
                None => break,
            }
        }
        self.source.end()?;
        Ok(())
    }
}
