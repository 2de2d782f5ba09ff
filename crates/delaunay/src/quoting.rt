//! What is said of a text that is refused, with the text.

use std::fmt;

/// What is wrong.
#[derive(Clone, Copy)]
pub enum Sentence {
    /// A line has one word.
    OneWord,
    /// A line has more words than two.
    MoreWords,
    /// A number has too many digits.
    TooManyDigits,
    /// A number has more digits behind its point than a scale makes whole.
    TooManyPlaces,
    /// A number is beyond all grids.
    TooLarge,
    /// Both a scale and a grid are asked for.
    ScaledGrid,
    /// A line has no number of a point.
    NoPoint,
    /// A line of constraints hasn't two numbers.
    NoPair,
    /// A line of an outline has something else than numbers.
    NoCorner,
    /// An outline has too few points.
    FewCorners,
    /// Two points that are to be joined are one, or stand at one place.
    OnePoint,
    /// A point that is to be joined is removed, and so are all that equal it.
    RemovedPoint,
    /// A segment crosses one that has to stay.
    Crossing,
    /// A side of an outline is no chain of edges.
    NoChain,
    /// At a vertex of the triangulation stands no point.
    NoPointThere,
    /// A point could not be removed.
    NotRemoved,
    /// It is no number.
    NoNumber,
    /// It has brackets.
    Brackets,
    /// It begins as JSON does.
    Json,
    /// It begins as XML does.
    Xml,
    /// It begins as WKT does.
    Wkt,
    /// It is no text.
    Binary,
    /// Its numbers have commas in place of points.
    DecimalComma,
    /// It names no two columns.
    NoColumns,
    /// It is the name of no column.
    NoName,
    /// It has too few columns.
    FewColumns,
    /// It is the last line, and more have to follow.
    Ends,
    /// It says no count.
    NoCount,
    /// It says no counts of points in the plane.
    NoCounts,
    /// It says that the points are in another file.
    PointsElsewhere,
    /// It says another count than that of the points.
    OtherPoints,
    /// It is no point of Triangle.
    NoNode,
    /// It is no segment of Triangle.
    NoSegment,
    /// It is a point out of order.
    OutOfOrder,
    /// It is one point too many.
    MorePoints,
    /// It says that there are holes.
    Holes,
    /// It asks to read standard input twice.
    ReadTwice,
    /// It asks for places beside something else.
    LocatesAlone,
    /// It asks for the Voronoi diagram of constraints.
    Constrained,
    /// It asks for the words of what is inside an outline.
    Outlined,
    /// It is no scale.
    NoScale,
    /// It is a file of GeoJSON whose points aren't the input.
    OtherPaths,
    /// It is no angle that triangles are refined to.
    NoAngle,
    /// It is no area.
    NoArea,
    /// It is no number of points.
    NoMost,
    /// It limits a refinement where none is asked for.
    LimitsAlone,
    /// It adds points beside places or the Voronoi diagram.
    AddsAlone,
}

/// What each of them says.
const TEXTS: &[(Sentence, &str)] = &[
    (
        Sentence::OneWord,
        "a point has two coordinates, here is one",
    ),
    (
        Sentence::MoreWords,
        "a point has two coordinates, here are more; --columns takes two of them",
    ),
    (Sentence::TooManyDigits, "a coordinate has too many digits"),
    (
        Sentence::TooManyPlaces,
        "a coordinate has more than 18 digits behind its point; --grid takes it, rounded",
    ),
    (
        Sentence::TooLarge,
        "a coordinate is -2^63 or below, or 2^63 or above",
    ),
    (
        Sentence::ScaledGrid,
        "--grid makes a scale needless: leave out --scale",
    ),
    (Sentence::NoPoint, "there is no point of this number"),
    (
        Sentence::NoPair,
        "a constraint has the numbers of two points",
    ),
    (Sentence::NoCorner, "an outline has the numbers of points"),
    (Sentence::FewCorners, "an outline has at least three points"),
    (Sentence::OnePoint, "a point is joined to itself"),
    (Sentence::RemovedPoint, "a point is joined that is removed"),
    (Sentence::Crossing, "it crosses another constraint"),
    (
        Sentence::NoChain,
        "a side of an outline is no chain of edges",
    ),
    (Sentence::NoPointThere, "a vertex has no point"),
    (Sentence::NotRemoved, "a point can't be removed"),
    (Sentence::NoNumber, "a coordinate is no number"),
    (
        Sentence::Brackets,
        "a point has two numbers without brackets",
    ),
    (
        Sentence::Json,
        "this looks like JSON, of which --format geojson reads GeoJSON",
    ),
    (Sentence::Xml, "this looks like XML, which isn't read"),
    (Sentence::Wkt, "this looks like WKT, which isn't read"),
    (Sentence::Binary, "this is binary, and only text is read"),
    (
        Sentence::DecimalComma,
        "a decimal has a point, and here are commas",
    ),
    (
        Sentence::NoColumns,
        "--columns takes two columns, as 2,3 or lon,lat, by number from 1 or by name",
    ),
    (Sentence::NoName, "there is no column of this name"),
    (Sentence::FewColumns, "the line has too few columns"),
    (
        Sentence::Ends,
        "the file ends before all that its counts say",
    ),
    (
        Sentence::NoCount,
        "a line of Triangle's formats begins with a count here",
    ),
    (
        Sentence::NoCounts,
        "a .node or .poly begins with a count of points, and then 2",
    ),
    (
        Sentence::PointsElsewhere,
        "the points are in a .node, to which this .poly is --constraints or --outline",
    ),
    (
        Sentence::OtherPoints,
        "the .poly has another count of points than the input",
    ),
    (
        Sentence::NoNode,
        "a point of a .node or .poly has a number and two coordinates",
    ),
    (
        Sentence::NoSegment,
        "a segment of a .poly has a number and those of two points",
    ),
    (
        Sentence::OutOfOrder,
        "points of a .node or .poly are numbered in their order, from 0 or 1",
    ),
    (
        Sentence::MorePoints,
        "the .node has more points than its count says",
    ),
    (
        Sentence::Holes,
        "there are holes, which only --outline takes, as curves inside others",
    ),
    (
        Sentence::ReadTwice,
        "a .poly is read twice, and needs a file",
    ),
    (
        Sentence::LocatesAlone,
        "--locate stands without --nearest, --svg, constraints and outlines",
    ),
    (Sentence::Constrained, "--voronoi takes no segments"),
    (
        Sentence::Outlined,
        "--words takes no outline, which the rings of a GeoJSON are",
    ),
    (
        Sentence::NoScale,
        "a scale is a power of ten, from 1 to 10^18, that makes all coordinates whole, as 1000",
    ),
    (
        Sentence::OtherPaths,
        "lines and rings of a GeoJSON join its own points, and the input has others",
    ),
    (
        Sentence::NoAngle,
        "--refine takes an angle from 0 to 45 degrees",
    ),
    (Sentence::NoArea, "--max-area takes an area above 0"),
    (Sentence::NoMost, "--max-points takes a whole number"),
    (
        Sentence::LimitsAlone,
        "--max-area and --max-points need --refine",
    ),
    (
        Sentence::AddsAlone,
        "points aren't added beside --nearest, --locate and --voronoi",
    ),
];

impl fmt::Display for Sentence {
    fn fmt<W: fmt::Write>(&self, f: &mut fmt::Formatter<W>) -> fmt::Result {
        for (sentence, text) in TEXTS {
            if *sentence as usize == *self as usize {
                return f.write_str(text);
            }
        }
        Ok(())
    }
}

/// How many characters of a text are shown.
const MOST: usize = 32;

/// The beginning of a text.
#[derive(Clone, Copy)]
pub struct Excerpt {
    shown: [char; MOST],
    count: usize,
    is_cut: bool,
}

impl Excerpt {
    /// Returns the beginning of a text.
    pub fn of(text: &str) -> Self {
        let mut excerpt = Excerpt {
            shown: [' '; MOST],
            count: 0,
            is_cut: text.chars().nth(MOST).is_some(),
        };
        for next in text.chars().take(MOST) {
            excerpt.add(if next.is_control() { '\u{fffd}' } else { next });
        }
        excerpt
    }

    /// Adds a character, if there is room.
    fn add(&mut self, next: char) {
        let count = self.count;
        if let Some(place) = self.shown.get_mut(count) {
            *place = next;
            self.count = count.saturating_add(1);
        }
    }
}

impl fmt::Display for Excerpt {
    fn fmt<W: fmt::Write>(&self, f: &mut fmt::Formatter<W>) -> fmt::Result {
        for shown in self.shown.iter().take(self.count) {
            f.write_char(*shown)?;
        }
        if self.is_cut {
            f.write_str("..")?;
        }
        Ok(())
    }
}
