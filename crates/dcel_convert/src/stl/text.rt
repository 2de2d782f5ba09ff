//! Text files of STL, read line by line.

use crate::fault::{NO_COORDINATE, Wrong};
use crate::joining::{Corner, Joiner};
use crate::reading::LineReader;
use crate::stl::add_triangle;
use crate::surface::Surface;
use std::alloc::Global;
use std::str::SplitAsciiWhitespace;

/// What a line begins with.
#[derive(Clone, Copy, Drop)]
enum Keyword {
    Solid,
    Facet,
    Outer,
    Vertex,
    EndLoop,
    EndFacet,
    EndSolid,
}

/// How the keywords are written, in upper or lower case.
const KEYWORDS: [(&str, Keyword); 7] = [
    ("solid", Keyword::Solid),
    ("facet", Keyword::Facet),
    ("outer", Keyword::Outer),
    ("vertex", Keyword::Vertex),
    ("endloop", Keyword::EndLoop),
    ("endfacet", Keyword::EndFacet),
    ("endsolid", Keyword::EndSolid),
];

/// What the file is in.
#[derive(Clone, Copy, Drop)]
enum Stage {
    Outside,
    Solid,
    Facet,
    Loop,
    /// A facet whose loop has ended.
    Closed,
}

/// Returns what the file is in behind a keyword, which can stand only in some of them.
fn behind(stage: Stage, keyword: Keyword) -> Option<Stage> {
    match (stage, keyword) {
        (Stage::Outside, Keyword::Solid) => Some(Stage::Solid),
        (Stage::Solid, Keyword::Facet) => Some(Stage::Facet),
        (Stage::Facet, Keyword::Outer) => Some(Stage::Loop),
        (Stage::Loop, Keyword::Vertex) => Some(Stage::Loop),
        (Stage::Loop, Keyword::EndLoop) => Some(Stage::Closed),
        (Stage::Closed, Keyword::EndFacet) => Some(Stage::Solid),
        (Stage::Solid, Keyword::EndSolid) => Some(Stage::Outside),
        _ => None,
    }
}

/// Returns the keyword that a word is, if it is one.
fn keyword_of(word: &str) -> Option<Keyword> {
    for (name, keyword) in KEYWORDS {
        if word.eq_ignore_ascii_case(name) {
            return Some(keyword);
        }
    }
    None
}

/// A text file of STL that is read line by line.
#[derive(Drop)]
pub struct StlReader {
    stage: Stage,
    /// The line of the facet that is begun.
    line: usize,
    /// The vertices of the loop that is begun.
    corners: Vec<u32>,
    joiner: Joiner,
}

impl StlReader {
    /// Makes a reader at the beginning of a file.
    pub fn new(alloc: Global) -> Self {
        StlReader {
            stage: Stage::Outside,
            line: 0,
            corners: Vec::new(alloc),
            joiner: Joiner::new(alloc),
        }
    }
}

impl LineReader<Surface> for StlReader {
    fn take(
        &mut self,
        alloc: Global,
        line: usize,
        text: &str,
        surface: &mut Surface,
    ) -> Result<(), Wrong> {
        let mut words = text.split_ascii_whitespace();
        let Some(first) = words.next() else {
            return Ok(());
        };
        let Some(keyword) = self.step(first) else {
            return Err(Wrong::quoting("a line of STL can't begin so here", first));
        };
        match keyword {
            Keyword::Facet => {
                self.line = line;
                self.corners.clear();
                Ok(())
            }
            Keyword::Vertex => self.take_vertex(alloc, line, words, surface),
            Keyword::EndFacet => self.end_facet(alloc, surface),
            _ => Ok(()),
        }
    }

    fn end(&mut self, _: Global, _: &mut Surface) -> Result<(), Wrong> {
        match self.stage {
            Stage::Outside => Ok(()),
            _ => Err(Wrong::OPEN_SOLID),
        }
    }
}

impl StlReader {
    /// Goes on by the first word of a line, and returns its keyword, if that can stand here.
    fn step(&mut self, first: &str) -> Option<Keyword> {
        let keyword = keyword_of(first)?;
        self.stage = behind(self.stage, keyword)?;
        Some(keyword)
    }

    /// Reads the coordinates of a corner.
    fn take_vertex(
        &mut self,
        alloc: Global,
        line: usize,
        mut words: SplitAsciiWhitespace,
        surface: &mut Surface,
    ) -> Result<(), Wrong> {
        let (Some(x), Some(y), Some(z)) = (words.next(), words.next(), words.next()) else {
            return Err(Wrong::TOO_FEW);
        };
        let corner = corner_of(x, y, z)?;
        let (vertex, is_new) = self.joiner.number_of(corner)?;
        self.corners.push(vertex)?;
        if is_new {
            surface.add_vertex(alloc, line, [x, y, z])?;
        }
        Ok(())
    }

    /// Adds the triangle of a facet that ends.
    fn end_facet(&mut self, alloc: Global, surface: &mut Surface) -> Result<(), Wrong> {
        match self.corners.as_slice() {
            &[a, b, c] => add_triangle(alloc, self.line, [a, b, c], surface),
            _ => Err(Wrong::NO_TRIANGLE),
        }
    }
}

/// Returns the corner that three words say.
fn corner_of(x: &str, y: &str, z: &str) -> Result<Corner, Wrong> {
    let x = bits_of(x)?;
    let y = bits_of(y)?;
    let z = bits_of(z)?;
    Ok(Corner::new(x, y, z))
}

/// Returns the bits of the finite `f64` that a word says, where the two zeros are one.
fn bits_of(word: &str) -> Result<u64, Wrong> {
    match finite(word) {
        Some(number) => Ok(number),
        None => Err(Wrong::quoting(NO_COORDINATE, word)),
    }
}

fn finite(word: &str) -> Option<u64> {
    let number = word.parse::<f64>().ok()?;
    if !number.is_finite() {
        return None;
    }
    if number == 0.0 {
        return Some(0);
    }
    Some(number.to_bits())
}
