//! Files of words: what `dcel_run` answers to `counts`, to `words`, and to `out` for each vertex in
//! the order of their numbers.

use crate::claim::Claim;
use crate::fault::{NO_NUMBER, Wrong};
use crate::reading::{LineReader, number, number_of};
use std::alloc::Global;
use std::str::SplitAsciiWhitespace;

/// How many elements of each kind there are.
#[derive(Clone, Copy)]
struct Counts {
    vertices: u32,
    edges: u32,
    faces: u32,
}

/// A file of words that is read line by line.
#[derive(Clone, Copy, Drop)]
pub struct WordsReader {
    counts: Option<Counts>,
}

impl WordsReader {
    /// Makes a reader at the beginning of a file.
    pub fn new() -> Self {
        WordsReader { counts: None }
    }
}

impl LineReader<Claim> for WordsReader {
    fn take(
        &mut self,
        alloc: Global,
        _: usize,
        text: &str,
        claim: &mut Claim,
    ) -> Result<(), Wrong> {
        let words = text.split_ascii_whitespace();
        match self.counts {
            None => {
                self.counts = Some(counts_of(words)?);
                Ok(())
            }
            Some(counts) => take_list(alloc, counts, words, claim),
        }
    }

    fn end(&mut self, _: Global, claim: &mut Claim) -> Result<(), Wrong> {
        let Some(counts) = self.counts else {
            return Err(Wrong::NO_COUNTS);
        };
        if claim.words.len() != counts.faces as usize
            || claim.turns.len() != counts.vertices as usize
        {
            return Err(Wrong::FEWER_LINES);
        }
        claim.edges = counts.edges as usize;
        Ok(())
    }
}

/// Reads a line of half edges: the next word, or once all are read the next turn. A line may follow
/// that has the place of the outer face, and blank lines.
fn take_list(
    alloc: Global,
    counts: Counts,
    mut words: SplitAsciiWhitespace,
    claim: &mut Claim,
) -> Result<(), Wrong> {
    let first = words.next().unwrap_or("");
    if claim.words.len() < counts.faces as usize {
        take_word(alloc, counts, first, words, &mut claim.words)
    } else if claim.turns.len() < counts.vertices as usize {
        take_turn(alloc, counts, first, words, &mut claim.turns)
    } else if first == "closed" && claim.closed.is_none() {
        claim.closed = Some(place_of(counts, words)?);
        Ok(())
    } else if first.is_empty() {
        Ok(())
    } else {
        Err(Wrong::MORE_LINES)
    }
}

/// Reads the word of the next face.
fn take_word(
    alloc: Global,
    counts: Counts,
    first: &str,
    words: SplitAsciiWhitespace,
    all: &mut Vec<Vec<u32>>,
) -> Result<(), Wrong> {
    let face = all.len();
    if face_named(first) != Some(face) {
        return Err(Wrong::NoWord(face));
    }
    add_list(alloc, counts, words, all)
}

/// Reads the half edges out of the next vertex.
fn take_turn(
    alloc: Global,
    counts: Counts,
    first: &str,
    words: SplitAsciiWhitespace,
    all: &mut Vec<Vec<u32>>,
) -> Result<(), Wrong> {
    let vertex = all.len();
    if first != "out" {
        return Err(Wrong::NoTurn(vertex));
    }
    add_list(alloc, counts, words, all)
}

/// Reads the half edges of a line.
fn add_list(
    alloc: Global,
    counts: Counts,
    words: SplitAsciiWhitespace,
    all: &mut Vec<Vec<u32>>,
) -> Result<(), Wrong> {
    let mut halves = Vec::new(alloc);
    take_halves(counts, words, &mut halves)?;
    all.push(halves)?;
    Ok(())
}

fn take_halves(
    counts: Counts,
    words: SplitAsciiWhitespace,
    halves: &mut Vec<u32>,
) -> Result<(), Wrong> {
    for word in words {
        let half = half_of(counts, word)?;
        halves.push(half)?;
    }
    Ok(())
}

/// Returns the half edge that a word says.
fn half_of(counts: Counts, word: &str) -> Result<u32, Wrong> {
    let half = number(word)?;
    if half / 2 >= counts.edges {
        return Err(Wrong::NoHalfEdge(half));
    }
    Ok(half)
}

/// Reads the line of counts.
fn counts_of(mut words: SplitAsciiWhitespace) -> Result<Counts, Wrong> {
    let vertices = count_of("vertices", &mut words)?;
    let edges = count_of("edges", &mut words)?;
    let faces = count_of("faces", &mut words)?;
    match words.next() {
        Some(_) => Err(Wrong::NO_COUNTS),
        None => Ok(Counts {
            vertices,
            edges,
            faces,
        }),
    }
}

/// Reads the count that follows this word.
fn count_of(word: &str, words: &mut SplitAsciiWhitespace) -> Result<u32, Wrong> {
    match (words.next(), words.next()) {
        (Some(found), Some(count)) if found == word => number(count),
        _ => Err(Wrong::NO_COUNTS),
    }
}

/// Returns the face whose word begins so.
fn face_named(first: &str) -> Option<usize> {
    let face = number_of(first.strip_prefix('F')?)?;
    Some(face as usize)
}

/// Reads the place of the outer face among all faces, with which the line ends.
fn place_of(counts: Counts, mut words: SplitAsciiWhitespace) -> Result<usize, Wrong> {
    let Some(word) = words.next() else {
        return Err(Wrong::TOO_FEW);
    };
    let place = number(word)?;
    if place >= counts.faces {
        return Err(Wrong::quoting(NO_NUMBER, word));
    }
    match words.next() {
        Some(_) => Err(Wrong::MORE_LINES),
        None => Ok(place as usize),
    }
}
