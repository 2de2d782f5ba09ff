//! Wavefront's OBJ files: lines that begin with a word, `v` for a vertex and `f` for a face.

use crate::fault::{NO_NUMBER, Wrong};
use crate::reading::{LineReader, number_of};
use crate::surface::Surface;
use dcel_programs::before_comment;
use std::alloc::{AllocError, Global};
use std::str::SplitAsciiWhitespace;

/// An OBJ file that is read line by line.
#[derive(Drop)]
pub struct ObjReader {
    /// Whether the last line goes on in the next one.
    is_open: bool,
    /// The line that began, from 1 on.
    first: usize,
    /// What it has so far.
    joined: String,
}

impl ObjReader {
    /// Makes a reader at the beginning of a file.
    pub fn new(alloc: Global) -> Self {
        ObjReader {
            is_open: false,
            first: 0,
            joined: String::new(alloc),
        }
    }
}

impl LineReader<Surface> for ObjReader {
    fn take(
        &mut self,
        alloc: Global,
        line: usize,
        text: &str,
        surface: &mut Surface,
    ) -> Result<(), Wrong> {
        let text = before_comment(text);
        let (text, goes_on) = match text.trim_ascii_end().strip_suffix('\\') {
            Some(before) => (before, true),
            None => (text, false),
        };
        if !self.is_open && !goes_on {
            return take_line(alloc, line, text, surface);
        }
        self.join(line, text)?;
        self.is_open = goes_on;
        if goes_on {
            return Ok(());
        }
        take_line(alloc, self.first, self.joined.as_str(), surface)
    }

    /// Reads what was begun, if the last line ends in `\`.
    fn end(&mut self, alloc: Global, surface: &mut Surface) -> Result<(), Wrong> {
        if self.is_open {
            return take_line(alloc, self.first, self.joined.as_str(), surface);
        }
        Ok(())
    }
}

impl ObjReader {
    /// Begins a line with this text, or goes on with it.
    fn join(&mut self, line: usize, text: &str) -> Result<(), AllocError> {
        if !self.is_open {
            self.first = line;
            self.joined.clear();
        }
        self.joined.push_str(text)?;
        self.joined.push_str(" ")?;
        Ok(())
    }
}

/// Reads a whole line.
fn take_line(alloc: Global, line: usize, text: &str, surface: &mut Surface) -> Result<(), Wrong> {
    let mut words = text.split_ascii_whitespace();
    match words.next() {
        None => Ok(()),
        Some("v") => take_vertex(alloc, line, words, surface),
        Some("f") => take_face(alloc, line, words, surface),
        Some(other) => {
            surface.left_out.note_word(alloc, other)?;
            Ok(())
        }
    }
}

/// Reads a vertex: three coordinates.
fn take_vertex(
    alloc: Global,
    line: usize,
    mut words: SplitAsciiWhitespace,
    surface: &mut Surface,
) -> Result<(), Wrong> {
    let (Some(x), Some(y), Some(z)) = (words.next(), words.next(), words.next()) else {
        return Err(Wrong::TOO_FEW);
    };
    surface.take_vertex(alloc, line, [x, y, z], words)
}

/// Reads a face: its corners. What follows a corner's slash is left out.
fn take_face(
    alloc: Global,
    line: usize,
    words: SplitAsciiWhitespace,
    surface: &mut Surface,
) -> Result<(), Wrong> {
    let mut corners = Vec::new(alloc);
    let is_more = take_corners(words, surface.places.len(), &mut corners)?;
    surface.add_face(line, corners)?;
    if is_more {
        surface.left_out.note("what follows a corner's slash")?;
    }
    Ok(())
}

/// Reads corners, and returns whether one has a slash.
fn take_corners(
    words: SplitAsciiWhitespace,
    vertices: usize,
    corners: &mut Vec<u32>,
) -> Result<bool, Wrong> {
    let mut is_more = false;
    for word in words {
        let corner = match word.split_once('/') {
            Some((corner, _)) => {
                is_more = true;
                corner
            }
            None => word,
        };
        let Some(vertex) = vertex_of(corner, vertices) else {
            return Err(Wrong::quoting(NO_NUMBER, corner));
        };
        corners.push(vertex)?;
    }
    Ok(is_more)
}

/// Returns the number of a vertex, from 0 on. A file counts from 1, and below 0 back from the last
/// one: -1 is that one, so -0 is none.
fn vertex_of(word: &str, vertices: usize) -> Option<u32> {
    match word.strip_prefix('-') {
        None => number_of(word)?.checked_sub(1),
        Some(back) => {
            let place = vertices.checked_sub(number_of(back)? as usize)?;
            if place >= vertices {
                return None;
            }
            u32::try_from(place).ok()
        }
    }
}
