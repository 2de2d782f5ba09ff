//! Files in the Object File Format: counts of vertices and of faces, and then these.

use crate::fault::Wrong;
use crate::header::extras_of;
use crate::numbers::NumberReader;
use crate::reading::{LineReader, number};
use crate::surface::{BEHIND_CORNERS, Surface};
use dcel_programs::before_comment;
use std::alloc::Global;
use std::str::SplitAsciiWhitespace;

/// What the next line of a file should be.
#[derive(Clone, Copy)]
enum Stage {
    /// The word `OFF`.
    Word,
    /// The counts.
    Counts,
    /// Vertices and faces.
    Elements,
}

/// How vertices and faces lie on lines.
#[derive(Clone, Copy)]
pub enum Layout {
    /// Each has a line, which may have something else behind it.
    Lines,
    /// Number comes after number, wherever lines end.
    Numbers,
}

/// A file in the Object File Format that is read line by line.
#[derive(Drop)]
pub struct OffReader {
    layout: Layout,
    stage: Stage,
    vertices: usize,
    faces: usize,
    /// What was begun and isn't complete, if numbers are read wherever lines end.
    numbers: NumberReader,
}

impl OffReader {
    /// Makes a reader at the beginning of a file.
    pub fn new(alloc: Global, layout: Layout) -> Self {
        OffReader {
            layout,
            stage: Stage::Word,
            vertices: 0,
            faces: 0,
            numbers: NumberReader::new(alloc),
        }
    }
}

impl LineReader<Surface> for OffReader {
    fn take(
        &mut self,
        alloc: Global,
        line: usize,
        text: &str,
        surface: &mut Surface,
    ) -> Result<(), Wrong> {
        let mut words = before_comment(text).split_ascii_whitespace();
        if let Stage::Elements = self.stage {
            return self.take_elements(alloc, line, words, surface);
        }
        match words.next() {
            Some(first) => self.take_head(first, words),
            None => Ok(()),
        }
    }

    fn end(&mut self, _: Global, surface: &mut Surface) -> Result<(), Wrong> {
        match self.stage {
            Stage::Word => Err(Wrong::NO_OFF),
            Stage::Counts => Err(Wrong::TOO_FEW),
            Stage::Elements => {
                if surface.places.len() < self.vertices || surface.faces.len() < self.faces {
                    return Err(Wrong::FEWER_LINES);
                }
                Ok(())
            }
        }
    }
}

impl OffReader {
    /// Reads a line before the elements that has this first word.
    fn take_head(&mut self, first: &str, words: SplitAsciiWhitespace) -> Result<(), Wrong> {
        match self.stage {
            Stage::Word => self.take_word(first, words),
            _ => self.take_counts(first, words),
        }
    }

    /// Reads the word `OFF`, which the counts may follow.
    fn take_word(&mut self, first: &str, mut words: SplitAsciiWhitespace) -> Result<(), Wrong> {
        self.numbers.extras = extras_of(first)?;
        self.stage = Stage::Counts;
        match words.next() {
            Some("BINARY") => Err(Wrong::BINARY_OFF),
            Some(count) => self.take_counts(count, words),
            None => Ok(()),
        }
    }

    /// Reads the counts of vertices and faces. That of edges, if it is there, may be any number.
    fn take_counts(&mut self, first: &str, mut words: SplitAsciiWhitespace) -> Result<(), Wrong> {
        self.vertices = number(first)? as usize;
        let Some(second) = words.next() else {
            return Err(Wrong::TOO_FEW);
        };
        self.faces = number(second)? as usize;
        self.stage = Stage::Elements;
        Ok(())
    }

    /// Reads a line of vertices or faces.
    fn take_elements(
        &mut self,
        alloc: Global,
        line: usize,
        words: SplitAsciiWhitespace,
        surface: &mut Surface,
    ) -> Result<(), Wrong> {
        match self.layout {
            Layout::Lines => self.take_element(alloc, line, words, surface),
            Layout::Numbers => {
                for word in words {
                    self.take_number(alloc, line, word, surface)?;
                }
                Ok(())
            }
        }
    }

    /// Reads a number of a vertex or a face.
    fn take_number(
        &mut self,
        alloc: Global,
        line: usize,
        word: &str,
        surface: &mut Surface,
    ) -> Result<(), Wrong> {
        if surface.places.len() < self.vertices || self.numbers.is_behind() {
            self.numbers.take_of_vertex(alloc, line, word, surface)
        } else if surface.faces.len() < self.faces {
            self.numbers.take_of_face(alloc, line, word, surface)
        } else {
            Err(Wrong::MORE_LINES)
        }
    }

    /// Reads a line that has a vertex or a face.
    fn take_element(
        &mut self,
        alloc: Global,
        line: usize,
        mut words: SplitAsciiWhitespace,
        surface: &mut Surface,
    ) -> Result<(), Wrong> {
        let Some(first) = words.next() else {
            return Ok(());
        };
        if surface.places.len() < self.vertices {
            let (Some(y), Some(z)) = (words.next(), words.next()) else {
                return Err(Wrong::TOO_FEW);
            };
            surface.take_vertex(alloc, line, [first, y, z], words)
        } else if surface.faces.len() < self.faces {
            take_face(alloc, line, first, words, surface)
        } else {
            Err(Wrong::MORE_LINES)
        }
    }
}

/// Reads a face: how many corners it has, and these. Colors behind them are left out.
fn take_face(
    alloc: Global,
    line: usize,
    count: &str,
    mut words: SplitAsciiWhitespace,
    surface: &mut Surface,
) -> Result<(), Wrong> {
    let mut corners = Vec::new(alloc);
    take_corners(count, &mut words, &mut corners)?;
    surface.add_face(line, corners)?;
    if words.next().is_some() {
        surface.left_out.note(BEHIND_CORNERS)?;
    }
    Ok(())
}

/// Reads so many corners.
fn take_corners(
    count: &str,
    words: &mut SplitAsciiWhitespace,
    corners: &mut Vec<u32>,
) -> Result<(), Wrong> {
    for _ in 0..number(count)? {
        let Some(word) = words.next() else {
            return Err(Wrong::TOO_FEW);
        };
        corners.push(number(word)?)?;
    }
    Ok(())
}
