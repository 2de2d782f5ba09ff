//! Files of the program Triangle: `.node` has points, `.poly` points and segments between them.

use crate::fault::{Fault, Wrong, coordinate_of};
use crate::joins::Join;
use crate::numbering::Numbering;
use crate::quoting::Sentence;
use crate::reading::Coordinates;
use dcel_decimals::Decimal;
use dcel_programs::{NumberedLines, before_comment, numbered_lines};
use std::alloc::Global;

/// The lines of such a file that have words, one after another.
#[derive(Drop)]
struct Rows<'a> {
    lines: NumberedLines<'a>,
    /// The number of the one read last.
    line: usize,
    /// What it has.
    row: &'a str,
}

impl<'a> Rows<'a> {
    /// Returns those of a text, before the first one.
    fn of(text: &'a str) -> Self {
        Rows {
            lines: numbered_lines(text),
            line: 1,
            row: "",
        }
    }

    /// Goes on to the next one, if there is one.
    fn advance(&mut self) -> bool {
        let next = self.lines.find(|(_, said)| has_words(said));
        match next {
            Some((line, said)) => {
                self.line = line;
                self.row = before_comment(said);
                true
            }
            None => false,
        }
    }

    /// Returns what is wrong with the line read last.
    fn refused(&self, sentence: Sentence) -> Fault {
        self.wrong(Wrong::quoting(sentence, self.row))
    }

    fn wrong(&self, wrong: Wrong) -> Fault {
        Fault::Line {
            line: self.line,
            wrong,
        }
    }

    /// Goes on to the next one, which has to be there.
    fn need_next(&mut self) -> Result<(), Fault> {
        if self.advance() {
            Ok(())
        } else {
            Err(self.refused(Sentence::Ends))
        }
    }

    /// Returns the number that the next line begins with: how many lines of some kind follow.
    fn next_count(&mut self) -> Result<usize, Fault> {
        self.need_next()?;
        match whole(self.row, 0) {
            Some(count) => Ok(count),
            None => Err(self.refused(Sentence::NoCount)),
        }
    }

    /// Returns how many points there are, as the first line says, with two coordinates each.
    fn point_count(&mut self) -> Result<usize, Fault> {
        let count = self.next_count()?;
        if whole(self.row, 1) == Some(2) {
            Ok(count)
        } else {
            Err(self.refused(Sentence::NoCounts))
        }
    }

    /// Reads the number and the coordinates of the next point.
    fn next_point(&mut self) -> Result<(usize, [Decimal; 2]), Fault> {
        self.need_next()?;
        match point_of(self.row) {
            Ok(point) => Ok(point),
            Err(wrong) => Err(self.wrong(wrong)),
        }
    }

    /// Reads the next segment between points of these numbers.
    fn next_segment(&mut self, numbering: Numbering) -> Result<Join, Fault> {
        self.need_next()?;
        match ends_of(self.row, numbering) {
            Ok((from, to)) => Ok(Join {
                from,
                to,
                line: self.line,
            }),
            Err(wrong) => Err(self.wrong(wrong)),
        }
    }

    /// Goes beyond the points, and returns the numbering of the segments. If there are points, they
    /// are as many as the ones that were read.
    fn skip_points(&mut self, numbering: Numbering) -> Result<Numbering, Fault> {
        let count = self.point_count()?;
        if count == 0 {
            return Ok(numbering);
        }
        if count != numbering.count {
            return Err(self.refused(Sentence::OtherPoints));
        }
        let (first, _) = self.next_point()?;
        for _ in 1..count {
            self.need_next()?;
        }
        Ok(Numbering { count, first })
    }

    /// Refuses places of holes, unless they are allowed.
    fn end_segments(&mut self, may_have_holes: bool) -> Result<(), Fault> {
        let count = self.next_count()?;
        if count > 0 && !may_have_holes {
            return Err(self.refused(Sentence::Holes));
        }
        Ok(())
    }
}

/// Reads the points of a file of Triangle, which may have segments, too.
pub fn read_points(alloc: Global, text: &str, has_segments: bool) -> Result<Coordinates, Fault> {
    let mut rows = Rows::of(text);
    let mut coordinates = Coordinates::none(alloc);
    add_points(&mut coordinates, &mut rows, has_segments)?;
    Ok(coordinates)
}

/// Adds all points. Without segments nothing follows them.
fn add_points(
    coordinates: &mut Coordinates,
    rows: &mut Rows<'_>,
    has_segments: bool,
) -> Result<(), Fault> {
    let count = rows.point_count()?;
    if has_segments && count == 0 {
        return Err(rows.refused(Sentence::PointsElsewhere));
    }
    for place in 0..count {
        add_point(coordinates, rows, place)?;
    }
    if !has_segments && rows.advance() {
        return Err(rows.refused(Sentence::MorePoints));
    }
    Ok(())
}

/// Adds the next point, in this place of all.
fn add_point(
    coordinates: &mut Coordinates,
    rows: &mut Rows<'_>,
    place: usize,
) -> Result<(), Fault> {
    let (number, two) = rows.next_point()?;
    if place == 0 {
        coordinates.first = number;
    }
    if coordinates.first > 1 || number.checked_sub(coordinates.first) != Some(place) {
        return Err(rows.refused(Sentence::OutOfOrder));
    }
    coordinates.add(rows.line, two)?;
    Ok(())
}

/// Reads the segments of a `.poly`, between points that are numbered like this.
///
/// Places of holes are refused unless they are allowed.
pub fn read_segments(
    alloc: Global,
    text: &str,
    numbering: Numbering,
    may_have_holes: bool,
) -> Result<Vec<Join>, Fault> {
    let mut rows = Rows::of(text);
    let mut segments = Vec::new(alloc);
    add_segments(&mut segments, &mut rows, numbering)?;
    rows.end_segments(may_have_holes)?;
    Ok(segments)
}

/// Adds all segments.
fn add_segments(
    segments: &mut Vec<Join>,
    rows: &mut Rows<'_>,
    numbering: Numbering,
) -> Result<(), Fault> {
    let numbering = rows.skip_points(numbering)?;
    for _ in 0..rows.next_count()? {
        let segment = rows.next_segment(numbering)?;
        segments.push(segment)?;
    }
    Ok(())
}

/// Returns whether a line has words.
fn has_words(line: &str) -> bool {
    !before_comment(line).trim_ascii().is_empty()
}

/// Returns the whole number that a line has in a place, if it has one there.
fn whole(row: &str, place: usize) -> Option<usize> {
    let word = row.split_ascii_whitespace().nth(place)?;
    word.parse::<usize>().ok()
}

/// Returns the number and the coordinates of a point.
fn point_of(row: &str) -> Result<(usize, [Decimal; 2]), Wrong> {
    let Some(number) = whole(row, 0) else {
        return Err(Wrong::quoting(Sentence::NoNode, row));
    };
    Ok((number, [coordinate(row, 1)?, coordinate(row, 2)?]))
}

/// Returns the coordinate that a line has in a place.
fn coordinate(row: &str, place: usize) -> Result<Decimal, Wrong> {
    match row.split_ascii_whitespace().nth(place) {
        Some(word) => coordinate_of(word),
        None => Err(Wrong::quoting(Sentence::NoNode, row)),
    }
}

/// Returns the points that a segment joins.
fn ends_of(row: &str, numbering: Numbering) -> Result<(usize, usize), Wrong> {
    let (Some(from), Some(to)) = (whole(row, 1), whole(row, 2)) else {
        return Err(Wrong::quoting(Sentence::NoSegment, row));
    };
    let (from, to) = (numbering.place(from)?, numbering.place(to)?);
    if from == to {
        return Err(Wrong::Said(Sentence::OnePoint));
    }
    Ok((from, to))
}
