//! Points that are to be joined, read from lines.

use crate::fault::{Fault, Wrong};
use crate::format::Format;
use crate::numbering::Numbering;
use crate::quoting::Sentence;
use crate::reading::{in_file, two_words};
use crate::removal::number_of;
use crate::triangle::read_segments;
use dcel_programs::{before_comment, numbered_lines, read_text};
use std::alloc::{AllocError, Global};
use std::rt::Files;

/// Two points that are to be joined, by their numbers.
#[derive(Clone, Copy)]
pub struct Join {
    /// The first.
    pub from: usize,
    /// The second.
    pub to: usize,
    /// The line that says so.
    pub line: usize,
}

/// What a file of joins has in each line.
#[derive(Clone, Copy)]
pub enum Form {
    /// Two points.
    Pairs,
    /// The points of a closed curve.
    Curves,
}

impl Form {
    /// Returns whether joins have an inside.
    fn has_inside(self) -> bool {
        match self {
            Form::Pairs => false,
            Form::Curves => true,
        }
    }
}

/// Reads the joins that a file in this format says, of points that are numbered like this.
pub fn read_joins(
    rt: &(impl Files + Input + AllocGlobal),
    path: &str,
    format: Format,
    form: Form,
    numbering: Numbering,
) -> Result<Vec<Join>, Fault> {
    let text = read_text(rt, Some(path))?;
    let joins = match format {
        Format::Poly => read_segments(rt.alloc(), &text, numbering, form.has_inside()),
        _ => joins_of(rt.alloc(), &text, form, numbering.count),
    };
    joins.map_err(|fault| in_file(rt.alloc(), Some(path), fault))
}

/// Returns the joins that lines say.
fn joins_of(alloc: Global, text: &str, form: Form, count: usize) -> Result<Vec<Join>, Fault> {
    let mut joins = Vec::new(alloc);
    for (line, said) in numbered_lines(text) {
        let words = before_comment(said).trim_ascii();
        if words.is_empty() {
            continue;
        }
        match form {
            Form::Pairs => joins.push(pair(words, line, count)?)?,
            Form::Curves => add_sides(&mut joins, &corners(alloc, words, line, count)?, line)?,
        }
    }
    Ok(joins)
}

/// Returns the join of the two points that a line has.
fn pair(words: &str, line: usize, count: usize) -> Result<Join, Fault> {
    let (from, to) = two_words(words).map_err(|_wrong| Fault::Line {
        line,
        wrong: Wrong::Said(Sentence::NoPair),
    })?;
    let from = point(from, Wrong::Said(Sentence::NoPair), count).map_err(|wrong| Fault::Line {
        line,
        wrong,
    })?;
    let to = point(to, Wrong::Said(Sentence::NoPair), count).map_err(|wrong| Fault::Line {
        line,
        wrong,
    })?;
    join_of(from, to, line)
}

/// Returns the join of two points.
fn join_of(from: usize, to: usize, line: usize) -> Result<Join, Fault> {
    if from == to {
        return Err(Fault::Line {
            line,
            wrong: Wrong::Said(Sentence::OnePoint),
        });
    }
    Ok(Join { from, to, line })
}

/// Returns the number of one of so many points that a word says, or what is wrong with it.
fn point(word: &str, none: Wrong, count: usize) -> Result<usize, Wrong> {
    Numbering::plain(count).place(number_of(word).ok_or(none)?)
}

/// Returns the points of a closed curve, with blanks, commas or both between them.
fn corners(alloc: Global, words: &str, line: usize, count: usize) -> Result<Vec<usize>, Fault> {
    let mut corners = Vec::new(alloc);
    for part in words.split(',') {
        add_corners(&mut corners, part, line, count)?;
    }
    if corners.len() < 3 {
        return Err(Fault::Line {
            line,
            wrong: Wrong::Said(Sentence::FewCorners),
        });
    }
    Ok(corners)
}

/// Adds the points between two commas, of which there is one at least.
fn add_corners(
    corners: &mut Vec<usize>,
    part: &str,
    line: usize,
    count: usize,
) -> Result<(), Fault> {
    let before = corners.len();
    for word in part.split_ascii_whitespace() {
        let corner = point(word, Wrong::Said(Sentence::NoCorner), count).map_err(
            |wrong| Fault::Line { line, wrong },
        )?;
        corners.push(corner)?;
    }
    if corners.len() == before {
        return Err(Fault::Line {
            line,
            wrong: Wrong::Said(Sentence::NoCorner),
        });
    }
    Ok(())
}

/// Adds the joins of each point of a closed curve to the next one, and of the last to the first.
fn add_sides(joins: &mut Vec<Join>, corners: &[usize], line: usize) -> Result<(), Fault> {
    let ends = corners.iter().skip(1).chain(corners.iter().take(1));
    for (from, to) in corners.iter().zip(ends) {
        joins.push(join_of(*from, *to, line)?)?;
    }
    Ok(())
}
