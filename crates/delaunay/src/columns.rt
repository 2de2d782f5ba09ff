//! Which columns of lines are the coordinates of points.

use crate::fault::{Fault, Wrong, coordinate_of};
use crate::fields::{field, place_of, separator_of, uncommented};
use crate::foreign::{why_no_numbers, why_refused};
use crate::quoting::Sentence;
use crate::reading::two_words;
use dcel_decimals::Decimal;
use dcel_programs::numbered_lines;

/// Which columns of lines are the coordinates of points.
#[derive(Clone, Copy)]
pub enum Columns {
    /// There are two, and these are.
    Both,
    /// Those in these places, counted from 0.
    At {
        /// The first coordinate.
        x: usize,
        /// The second.
        y: usize,
        /// Whether the first line has their names, whatever these are.
        are_named: bool,
    },
}

/// Lines at the head of a text that have no point.
#[derive(Clone, Copy)]
pub enum Head<'a> {
    /// No line was read.
    Begins,
    /// This one, which has the names of columns.
    Names(&'a str),
    /// Such a line and one of units.
    Units,
    /// All were read, and a point.
    Over,
}

/// What lines at the head of a text have.
#[derive(Clone, Copy)]
enum Kind {
    /// Names of columns.
    Name,
    /// Their units.
    Unit,
}

/// What stands for a number that is missing, and is no unit.
const MISSING: &[&str] = &["nan", "na", "n/a", "inf", "infinity", "null", "none"];

/// A column that is asked for.
#[derive(Clone, Copy)]
enum Column<'a> {
    Place(usize),
    Name(&'a str),
}

impl Columns {
    /// Returns those that are asked for, of a text.
    pub fn of(text: &str, asked: Option<&str>) -> Result<Self, Fault> {
        let Some(asked) = asked else {
            return Ok(Columns::Both);
        };
        let Some((x, y)) = two_columns(asked) else {
            return Err(Fault::Input(Wrong::quoting(Sentence::NoColumns, asked)));
        };
        let Some((line, words)) = first_line(text) else {
            return Ok(Columns::Both);
        };
        match Columns::in_line(words, x, y) {
            Ok(columns) => Ok(columns),
            Err(wrong) => Err(Fault::Line { line, wrong }),
        }
    }

    /// Finds two columns, by the first line.
    fn in_line(words: &str, x: Column<'_>, y: Column<'_>) -> Result<Self, Wrong> {
        Ok(Columns::At {
            x: x.place(words)?,
            y: y.place(words)?,
            are_named: x.is_name() || y.is_name(),
        })
    }

    /// Returns the coordinates that a line says.
    pub fn read(self, line: &str) -> Result<[Decimal; 2], Wrong> {
        let read = match self {
            Columns::Both => two_numbers(line).map_err(|wrong| why_no_numbers(line, wrong)),
            Columns::At { x, y, .. } => numbers_at(line, x, y),
        };
        read.map_err(|wrong| why_refused(line, wrong))
    }

    /// Returns whether a line has words of this kind.
    fn have_words(self, line: &str, kind: Kind) -> bool {
        match self {
            Columns::Both => all_are(line, kind),
            Columns::At { x, y, .. } => [x, y].iter().all(|place| is_at(line, *place, kind)),
        }
    }

    /// Returns whether the first line has names, whatever it has.
    fn are_named(self) -> bool {
        match self {
            Columns::Both => false,
            Columns::At { are_named, .. } => are_named,
        }
    }
}

impl<'a> Head<'a> {
    /// Returns whether the last line that was read has a point.
    pub fn is_over(self) -> bool {
        matches!(self, Head::Over)
    }

    /// Returns what was read once this line is.
    pub fn behind(self, line: &'a str, columns: Columns) -> Self {
        match self {
            Head::Begins if columns.are_named() => Head::Names(line),
            Head::Begins if columns.have_words(line, Kind::Name) => Head::Names(line),
            Head::Names(names) if names != line && columns.have_words(line, Kind::Unit) => {
                Head::Units
            }
            _ => Head::Over,
        }
    }
}

impl<'a> Column<'a> {
    fn is_name(self) -> bool {
        match self {
            Column::Place(_) => false,
            Column::Name(_) => true,
        }
    }

    /// Returns its place, by the first line.
    fn place(self, words: &str) -> Result<usize, Wrong> {
        match self {
            Column::Place(place) => Ok(place),
            Column::Name(name) => {
                place_of(words, name).ok_or(Wrong::quoting(Sentence::NoName, name))
            }
        }
    }
}

/// Returns the two columns that are asked for, if there are two.
fn two_columns(asked: &str) -> Option<(Column<'_>, Column<'_>)> {
    let (x, y) = asked.split_once(',')?;
    Some((column_of(x)?, column_of(y)?))
}

/// Returns the column that is asked for by a number from 1, or by a name.
fn column_of(asked: &str) -> Option<Column<'_>> {
    let asked = asked.trim_ascii();
    match asked.parse::<usize>() {
        Ok(number) => Some(Column::Place(number.checked_sub(1)?)),
        Err(_) if asked.is_empty() => None,
        Err(_) => Some(Column::Name(asked)),
    }
}

/// Returns the first line of a text that has words.
fn first_line(text: &str) -> Option<(usize, &str)> {
    for (line, said) in numbered_lines(text) {
        let words = uncommented(said);
        if !words.trim_ascii().is_empty() {
            return Some((line, words));
        }
    }
    None
}

/// Returns whether all columns of a line have words of this kind.
fn all_are(line: &str, kind: Kind) -> bool {
    if line.contains([',', ';']) {
        line.split([',', ';']).all(|part| is_of(part, kind))
    } else {
        line.split_ascii_whitespace().all(|word| is_of(word, kind))
    }
}

/// Returns whether a line has a word of this kind in a place.
fn is_at(line: &str, place: usize, kind: Kind) -> bool {
    field(line, separator_of(line), place).is_some_and(|word| is_of(word, kind))
}

/// Returns whether a word is of this kind, by how it begins.
fn is_of(word: &str, kind: Kind) -> bool {
    let word = word.trim_ascii().trim_matches('"');
    match kind {
        Kind::Name => word.starts_with(|first: char| first.is_alphabetic()),
        Kind::Unit => {
            !MISSING
                .iter()
                .any(|missing| missing.eq_ignore_ascii_case(word))
                && word.starts_with(|first: char| first.is_alphabetic() || "([%°".contains(first))
        }
    }
}

/// Returns the coordinates that a line of two words says.
fn two_numbers(line: &str) -> Result<[Decimal; 2], Wrong> {
    let (x, y) = two_words(line)?;
    Ok([coordinate_of(x)?, coordinate_of(y)?])
}

/// Returns the coordinates that a line has in two places.
fn numbers_at(line: &str, x: usize, y: usize) -> Result<[Decimal; 2], Wrong> {
    let separator = separator_of(line);
    Ok([
        number_at(line, separator, x)?,
        number_at(line, separator, y)?,
    ])
}

/// Returns the coordinate that a line has in a place.
fn number_at(line: &str, separator: char, place: usize) -> Result<Decimal, Wrong> {
    match field(line, separator, place) {
        Some(word) => coordinate_of(word),
        None => Err(Wrong::quoting(Sentence::FewColumns, line)),
    }
}
