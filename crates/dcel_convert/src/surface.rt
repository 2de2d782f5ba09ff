//! What a file says: vertices, faces, and what is left out.

use crate::bytes::Number;
use crate::fault::{Fault, NO_COORDINATE, Wrong, at_all, at_byte, at_line};
use crate::left_out::LeftOut;
use crate::shortest::place_of;
use std::alloc::{AllocError, Global};
use std::str::SplitAsciiWhitespace;

/// What of a file is counted to tell where something is.
#[derive(Clone, Copy, Drop)]
pub enum Counted {
    /// Lines, from 1 on.
    Lines,
    /// Bytes, from 0 on.
    Bytes,
}

/// The vertices and faces of a file.
#[derive(Drop)]
pub struct Surface {
    /// What the numbers of lines below are numbers of.
    pub counted: Counted,
    /// The three coordinates of each vertex, as the file has them, with a space between two.
    pub places: Vec<String>,
    /// The line of each vertex, or the byte that it begins at.
    pub vertex_lines: Vec<usize>,
    /// The corners of each face: vertices by number, from 0 on.
    pub faces: Vec<Vec<u32>>,
    /// The line of each face, or the byte that it begins at.
    pub lines: Vec<usize>,
    /// What else is in the file.
    pub left_out: LeftOut,
}

impl Surface {
    /// Makes a surface without vertices and faces.
    pub fn new(alloc: Global) -> Self {
        Surface {
            counted: Counted::Lines,
            places: Vec::new(alloc),
            vertex_lines: Vec::new(alloc),
            faces: Vec::new(alloc),
            lines: Vec::new(alloc),
            left_out: LeftOut::new(alloc),
        }
    }

    /// Makes a surface without vertices and faces of the same kind of file.
    pub fn like(alloc: Global, other: &Surface) -> Self {
        let mut surface = Surface::new(alloc);
        surface.counted = other.counted;
        surface
    }

    /// Adds a vertex of this line at three coordinates. What stands behind them, as a weight or a
    /// color, is left out.
    pub fn take_vertex(
        &mut self,
        alloc: Global,
        line: usize,
        coordinates: [&str; 3],
        mut behind: SplitAsciiWhitespace,
    ) -> Result<(), Wrong> {
        self.add_vertex(alloc, line, coordinates)?;
        if behind.next().is_some() {
            self.left_out.note(BEHIND_COORDINATES)?;
        }
        Ok(())
    }

    /// Adds a vertex of this line at three coordinates.
    pub fn add_vertex(
        &mut self,
        alloc: Global,
        line: usize,
        coordinates: [&str; 3],
    ) -> Result<(), Wrong> {
        let mut place = String::new(alloc);
        add_coordinates(&mut place, coordinates)?;
        self.add_place(line, place)?;
        Ok(())
    }

    /// Adds a vertex that begins at this byte, with three finite numbers as coordinates.
    pub fn add_numbers(
        &mut self,
        alloc: Global,
        byte: usize,
        coordinates: &[Number; 3],
    ) -> Result<(), AllocError> {
        let place = place_of(alloc, coordinates)?;
        self.add_place(byte, place)
    }

    /// Returns what is wrong with a vertex, with its line or byte.
    pub fn at_vertex(&self, vertex: usize, wrong: Wrong) -> Fault {
        self.at(self.vertex_lines.get(vertex).copied(), wrong)
    }

    /// Returns what is wrong with a face, with its line or byte.
    pub fn at_face(&self, face: usize, wrong: Wrong) -> Fault {
        self.at(self.lines.get(face).copied(), wrong)
    }

    /// Returns what is wrong, with a line or byte if there is one.
    fn at(&self, line: Option<usize>, wrong: Wrong) -> Fault {
        match (line, self.counted) {
            (Some(line), Counted::Lines) => at_line(line, wrong),
            (Some(byte), Counted::Bytes) => at_byte(byte, wrong),
            (None, _) => at_all(wrong),
        }
    }

    /// Adds a vertex of this line, with its coordinates as text.
    pub fn add_place(&mut self, line: usize, place: String) -> Result<(), AllocError> {
        self.vertex_lines.push(line)?;
        self.places.push(place)?;
        Ok(())
    }

    /// Adds a face of this line.
    pub fn add_face(&mut self, line: usize, corners: Vec<u32>) -> Result<(), AllocError> {
        self.lines.push(line)?;
        self.faces.push(corners)?;
        Ok(())
    }
}

/// What is left out behind a vertex's coordinates.
pub const BEHIND_COORDINATES: &str = "what follows a vertex's coordinates";

/// What is left out behind a face's corners.
pub const BEHIND_CORNERS: &str = "what follows a face's corners";

/// What is left out where elements are neither vertices nor faces.
pub const OTHER_ELEMENT: &str = "an element that is no vertex and no face";

/// Adds three coordinates to a place.
fn add_coordinates(place: &mut String, coordinates: [&str; 3]) -> Result<(), Wrong> {
    for word in coordinates {
        add_coordinate(place, word)?;
    }
    Ok(())
}

/// Adds a coordinate to a place, if it is a number that is finite.
pub fn add_coordinate(place: &mut String, word: &str) -> Result<(), Wrong> {
    if !is_finite(word) {
        return Err(Wrong::quoting(NO_COORDINATE, word));
    }
    if !place.is_empty() {
        place.push_str(" ")?;
    }
    place.push_str(word)?;
    Ok(())
}

/// Returns whether a word is a number that is finite.
fn is_finite(word: &str) -> bool {
    match word.parse::<f64>() {
        Ok(number) => number.is_finite(),
        Err(_) => false,
    }
}
