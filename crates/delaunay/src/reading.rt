//! Points read from lines.

ghost use Rattle.std.specs.Prelude.{◌≡◌, ◌<◌, ◌*◌, ◌+◌, IfOk, length, min};
ghost use Rattle.delaunay.specs.Placed.{ArePointsOf, IsFinest, IsPointAt};

use crate::columns::{Columns, Head};
use crate::fault::{Fault, Wrong};
use crate::fields::{uncommented, unquoted};
use crate::format::Format;
use crate::geojson::read_shapes;
use crate::quoting::Sentence;
use crate::triangle::read_points;
use crate::unit::{Moves, Unit};
use dcel_decimals::{Decimal, Grid, Scale};
use dcel_delaunay::Point;
use dcel_geojson::{Path, Shapes};
use dcel_programs::{numbered_lines, read_text};
use std::alloc::{AllocError, Global};
use std::rt::Files;

/// The coordinates that lines say, two for each point, and the lines of the points.
#[derive(Drop)]
pub struct Coordinates {
    all: Vec<Decimal>,
    lines: Vec<usize>,
    /// The number that the file gives the first point.
    pub first: usize,
    /// Which points the lines and rings of the file join.
    pub paths: Vec<Path>,
}

impl Coordinates {
    /// Reads those of a file in this format, from the columns that are asked for.
    pub fn of(
        alloc: Global,
        text: &str,
        format: Format,
        asked: Option<&str>,
    ) -> Result<Self, Fault> {
        match format {
            Format::Lines => Coordinates::of_lines(alloc, text, asked),
            Format::Node => read_points(alloc, text, false),
            Format::Poly => read_points(alloc, text, true),
            Format::Geojson => read_shapes(alloc, text),
        }
    }

    /// Reads those of all lines, from the columns that are asked for, or from two. The first line
    /// with words may have names of columns, and the next one units.
    fn of_lines(alloc: Global, text: &str, asked: Option<&str>) -> Result<Self, Fault> {
        let columns = Columns::of(text, asked)?;
        let mut coordinates = Coordinates::none(alloc);
        coordinates.read_lines(text, columns)?;
        Ok(coordinates)
    }

    /// Reads all lines.
    fn read_lines(&mut self, text: &str, columns: Columns) -> Result<(), Fault> {
        let mut head = Head::Begins;
        for (line, said) in numbered_lines(text) {
            let words = uncommented(said);
            if words.trim_ascii().is_empty() {
                continue;
            }
            head = head.behind(words, columns);
            if head.is_over() {
                self.read_line(line, words, columns)?;
            }
        }
        Ok(())
    }

    /// Reads the point of a line.
    fn read_line(&mut self, line: usize, words: &str, columns: Columns) -> Result<(), Fault> {
        match columns.read(words) {
            Ok(two) => {
                self.add(line, two)?;
                Ok(())
            }
            Err(wrong) => Err(Fault::Line { line, wrong }),
        }
    }

    /// Returns no coordinates.
    pub fn none(alloc: Global) -> Self {
        Coordinates {
            all: Vec::new(alloc),
            lines: Vec::new(alloc),
            first: 0,
            paths: Vec::new(alloc),
        }
    }

    /// Returns those of shapes.
    pub fn of_shapes(shapes: Shapes) -> Self {
        Coordinates {
            all: shapes.coordinates,
            lines: shapes.lines,
            first: 0,
            paths: shapes.paths,
        }
    }

    /// Returns the line of a point.
    pub fn line(&self, number: usize) -> usize {
        self.lines.get(number).copied().unwrap_or(1)
    }

    /// Adds a point.
    pub fn add(&mut self, line: usize, two: [Decimal; 2]) -> Result<(), AllocError> {
        self.lines.push(line)?;
        self.all.extend_from_slice(&two)
    }

    /// Returns the least scale that makes all of them whole.
    pub fn scale(&self) -> Result<Scale, Fault> {
        if let Some(scale) = Scale::least(&self.all) {
            return Ok(scale);
        }
        for (line, two) in self.lines.iter().zip(self.all.chunks(2)) {
            if Scale::least(two).is_none() {
                let wrong = Wrong::Said(Sentence::TooManyPlaces);
                return Err(Fault::Line { line: *line, wrong });
            }
        }
        Ok(Scale::ONE)
    }

    /// Returns the finest grid that fits all of them, and others.
    pub fn grid(&self, others: &Coordinates) -> Grid
        ensures { IsFinest result self.now.all.items others.now.all.items }
    {
        coarser(Grid::fit(&self.all), Grid::fit(&others.all))
    }

    /// Returns the points that a unit makes of them, and notes how a grid has moved these.
    pub fn points(&self, alloc: Global, unit: Unit, moves: &mut Moves) -> Result<Vec<Point>, Fault>
        ensures { IfOk result (λ points. ArePointsOf unit self.now.all.items points.items) }
    {
        let count = self.all.len() / 2;
        let mut points = Vec::with_capacity(alloc, count)?;
        for number in 0..count {
            points.push(self.point(number, unit, moves)?)?;
        }
        Ok(points)
    }

    /// Returns the point of this number, and notes how a grid has moved it.
    fn point(&self, number: usize, unit: Unit, moves: &mut Moves) -> Result<Point, Fault>
        requires { 2 * number + 1 < length self.now.all.items }
        ensures { IfOk result (IsPointAt unit self.now.all.items number) }
    {
        match moves.point(self.all[2 * number], self.all[2 * number + 1], unit) {
            Ok(point) => Ok(point),
            Err(wrong) => Err(Fault::Line {
                line: self.line(number),
                wrong,
            }),
        }
    }

    /// Returns how many different points have these coordinates.
    pub fn count_different(&self, alloc: Global) -> Result<usize, AllocError> {
        let mut places = Vec::with_capacity(alloc, self.lines.len())?;
        for two in self.all.chunks(2) {
            if let &[x, y] = two {
                places.push((x.mantissa, x.places, y.mantissa, y.places))?;
            }
        }
        places.sort_unstable();
        places.dedup();
        Ok(places.len())
    }
}

/// Returns the coarser one of two grids.
fn coarser(a: Grid, b: Grid) -> Grid
    ensures { result.halvings ≡ min a.halvings b.halvings }
{
    if a.halvings < b.halvings { a } else { b }
}

/// Reads the coordinates that the lines of a file say.
pub fn read_coordinates(
    rt: &(impl Files + Input + AllocGlobal),
    path: &str,
    columns: Option<&str>,
) -> Result<Coordinates, Fault> {
    let text = read_text(rt, Some(path))?;
    let format = Format::of_file(path);
    Coordinates::of(rt.alloc(), &text, format, columns).map_err(|fault| in_file(
        rt.alloc(),
        Some(path),
        fault,
    ))
}

/// Returns what is wrong with a line as what is wrong with a line of this file, if there is one.
pub fn in_file(alloc: Global, path: Option<&str>, fault: Fault) -> Fault {
    match (path, fault) {
        (Some(path), Fault::Line { line, wrong }) => Fault::of_line(alloc, path, line, wrong),
        (_, other) => other,
    }
}

/// Returns two words, with blanks, a comma or a semicolon between them.
pub fn two_words(words: &str) -> Result<(&str, &str), Wrong> {
    if let Some((x, y)) = words.split_once(',').or(words.split_once(';')) {
        return Ok((only_word(x)?, only_word(y)?));
    }
    let mut words = words.split_ascii_whitespace();
    let x = words.next().ok_or(Wrong::Said(Sentence::OneWord))?;
    let y = words.next().ok_or(Wrong::Said(Sentence::OneWord))?;
    if words.next().is_some() {
        return Err(Wrong::Said(Sentence::MoreWords));
    }
    Ok((unquoted(x), unquoted(y)))
}

/// Returns the one word beside a comma or a semicolon.
fn only_word(part: &str) -> Result<&str, Wrong> {
    let mut words = unquoted(part).split_ascii_whitespace();
    let word = words.next().ok_or(Wrong::Said(Sentence::OneWord))?;
    if words.next().is_some() || word.contains(',') || word.contains(';') {
        return Err(Wrong::Said(Sentence::MoreWords));
    }
    Ok(word)
}
