//! Numbers of points, read from lines.

use crate::fault::{Fault, Wrong};
use crate::numbering::Numbering;
use crate::quoting::Sentence;
use dcel_programs::{before_comment, numbered_lines, read_text};
use std::rt::Files;

/// Tells of so many points whether a file has their numbers.
pub fn read_marks(
    rt: &(impl Files + Input + AllocGlobal),
    path: &str,
    count: usize,
) -> Result<Vec<bool>, Fault> {
    let text = read_text(rt, Some(path))?;
    let mut marks = vec![in rt.alloc(); false; count]?;
    for (line, said) in numbered_lines(&text) {
        let word = before_comment(said).trim_ascii();
        if word.is_empty() {
            continue;
        }
        if let Err(wrong) = mark(&mut marks, word) {
            return Err(Fault::of_line(rt.alloc(), path, line, wrong));
        }
    }
    Ok(marks)
}

/// Marks the point whose number a word says.
fn mark(marks: &mut [bool], word: &str) -> Result<(), Wrong> {
    let numbering = Numbering::plain(marks.len());
    let place = numbering.place(number_of(word).ok_or(Wrong::Said(Sentence::NoPoint))?)?;
    if let Some(mark) = marks.get_mut(place) {
        *mark = true;
    }
    Ok(())
}

/// Returns the number that a word says, if it says one.
pub fn number_of(word: &str) -> Option<usize> {
    word.parse::<usize>().ok()
}
