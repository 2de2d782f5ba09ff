//! Why the program gives up.

use crate::delaunay_check::Flaw;
use crate::shown::Excerpt;
use crate::stats::Stats;
use dcel_exchange::FacesError;
use spade_dcel::operations::{LinksError, LinksFault};
use std::alloc::AllocError;
use std::fmt::{self, Debug, Display, Formatter};
use thiserror::Error;

/// Why the program gives up.
pub type Fault = dcel_programs::Fault<Placed>;

/// What is wrong with a file.
#[derive(Clone, Copy, Drop, Error)]
pub enum Wrong {
    /// What a sentence says of any file.
    #[error("{0}")]
    Plain(&'static str),
    /// What a sentence says of a word.
    #[error("{0}: '{1}'")]
    Quoted(&'static str, Excerpt),
    /// The file has another first word.
    #[error("the file begins with '{0}', and {1}")]
    Beginning(Excerpt, &'static str),
    /// The file is read as OFF, and has this format, of this name.
    #[error("this looks like {0}, and not like OFF: --from {1} reads it")]
    NotOff(&'static str, &'static str),
    /// So many triangles take so many bytes, and the file has so many.
    #[error("{0} triangles of binary STL take {1} bytes, and the file has {2}")]
    StlLength(u32, u64, usize),
    /// Two corners of a triangle are equal.
    #[error("triangle {0} is degenerate: two of its corners are equal")]
    Degenerate(usize),
    /// A file of words lacks the word of a face.
    #[error("the word of face {0} is missing, a line that begins with F{0}")]
    NoWord(usize),
    /// It lacks the half edges out of a vertex.
    #[error("the half edges out of vertex {0} are missing, a line that begins with out")]
    NoTurn(usize),
    /// It has a half edge that no edge has.
    #[error("there is no half edge {0}")]
    NoHalfEdge(u32),
    /// It has a half edge so many times in the lines of a kind.
    #[error("half edge {0} stands {1} in the {2}")]
    NotOnce(usize, &'static str, &'static str),
    /// After a half edge comes another one out of a vertex than it has.
    #[error("after half edge {0} comes half edge {1} by ccw, and not {2}")]
    OtherTurn(u32, usize, u32),
    /// Two edges have the same ends.
    #[error("two edges join vertices {0} and {1}: words alone can tell them apart")]
    Doubled(usize, usize),
    /// The faces are no mesh.
    #[error("{0}")]
    Faces(FacesError),
    /// The half edges are no mesh.
    #[error("{0}")]
    Links(LinksFault),
    /// Their lists are none.
    #[error("{0}")]
    Lists(LinksError),
    /// The mesh is no Delaunay triangulation.
    #[error("{0}")]
    Flaw(Flaw),
    /// The surface as a whole is none that is taken.
    #[error("the surface has {0}; taken is one part, of genus 0, with at most one border")]
    Surface(Stats),
    /// There was no memory.
    #[error("out of memory")]
    OutOfMemory(#[from(alloc)] AllocError),
}

impl Debug for Wrong {
    fn fmt<W: fmt::Write>(&self, f: &mut Formatter<W>) -> fmt::Result {
        Display::fmt(self, f)
    }
}

impl Wrong {
    /// Makes it of a sentence and the word of the file that it is about.
    pub fn quoting(sentence: &'static str, word: &str) -> Wrong {
        Wrong::Quoted(sentence, Excerpt::of(word))
    }

    /// Makes it of what a file begins with, and what is to be said of that.
    pub fn beginning(word: &str, rest: &'static str) -> Wrong {
        Wrong::Beginning(Excerpt::of(word), rest)
    }
}

/// What is wrong, with the place that shows it, if that is no line.
#[derive(Clone, Copy, Drop)]
pub struct Placed {
    /// The part of the surface, from 0 on.
    part: Option<usize>,
    /// The byte of the file, from 0 on.
    byte: Option<usize>,
    /// What is wrong there.
    pub wrong: Wrong,
}

impl Placed {
    /// Makes it of its place and what is wrong there.
    fn new(part: Option<usize>, byte: Option<usize>, wrong: Wrong) -> Self {
        Placed { part, byte, wrong }
    }
}

impl Display for Placed {
    fn fmt<W: fmt::Write>(&self, f: &mut Formatter<W>) -> fmt::Result {
        if let Some(part) = self.part {
            write!(f, "part {part}: ")?;
        }
        if let Some(byte) = self.byte {
            write!(f, "byte {byte}: ")?;
        }
        Display::fmt(&self.wrong, f)
    }
}

impl Debug for Placed {
    fn fmt<W: fmt::Write>(&self, f: &mut Formatter<W>) -> fmt::Result {
        Display::fmt(self, f)
    }
}

/// Returns what is wrong with the input as a whole.
pub fn at_all(wrong: Wrong) -> Fault {
    Fault::Input(Placed::new(None, None, wrong))
}

/// Returns what is wrong with a line, from 1 on.
pub fn at_line(line: usize, wrong: Wrong) -> Fault {
    Fault::Line {
        line,
        wrong: Placed::new(None, None, wrong),
    }
}

/// Returns what is wrong with a binary file, with the byte, from 0 on, that shows it.
pub fn at_byte(byte: usize, wrong: Wrong) -> Fault {
    Fault::Input(Placed::new(None, Some(byte), wrong))
}

/// Returns what is wrong with a part, with its number.
pub fn of_part(part: usize, fault: Fault) -> Fault {
    match fault {
        Fault::Input(it) => Fault::Input(Placed::new(Some(part), it.byte, it.wrong)),
        Fault::Line { line, wrong } => Fault::Line {
            line,
            wrong: Placed::new(Some(part), wrong.byte, wrong.wrong),
        },
        other => other,
    }
}

/// A number is not written as one, or out of range.
pub const NO_NUMBER: &str = "a number is not written as one, or out of range";

/// A coordinate is no number, or none that is finite.
pub const NO_COORDINATE: &str = "a coordinate is no number";

impl Wrong {
    /// There is no first word of OFF.
    pub const NO_OFF: Wrong = Wrong::Plain("the file doesn't begin with OFF");

    /// A file of STL is too short to be binary, and no text.
    pub const NO_STL: Wrong = Wrong::Plain(
        "this is no STL: text begins with solid, and binary files have 84 bytes or more",
    );

    /// A file of STL ends too soon.
    pub const OPEN_SOLID: Wrong = Wrong::Plain("the file ends before its solid does");

    /// A facet of STL has another number of corners.
    pub const NO_TRIANGLE: Wrong = Wrong::Plain("a facet of STL has three vertices");

    /// The file is binary OFF.
    pub const BINARY_OFF: Wrong = Wrong::Plain("this is binary OFF, and only OFF as text is read");

    /// A type of a header of PLY is none, or none of whole numbers.
    pub const NO_TYPE: Wrong = Wrong::Plain(
        "the header has a property of no type of PLY, or a length or corners that aren't whole",
    );

    /// A line is none of a header of PLY.
    pub const NO_HEADER: Wrong = Wrong::Plain("this is no line of a header of PLY");

    /// Something is missing in a header of PLY, or there twice.
    pub const PARTIAL_HEADER: Wrong = Wrong::Plain(
        "the header lacks one of format, x, y, z of vertex, vertex_indices of face",
    );

    /// A number of a binary file is no length and no corner.
    pub const NO_COUNT: Wrong = Wrong::Plain("a length or a corner is below 0");

    /// Something is missing.
    pub const TOO_FEW: Wrong = Wrong::Plain("there are too few numbers");

    /// A number is out of range.
    pub const NO_NUMBER: Wrong = Wrong::Plain(NO_NUMBER);

    /// The first line of a file of words has no counts.
    pub const NO_COUNTS: Wrong = Wrong::Plain(
        "the file doesn't begin with 'vertices N edges N faces N'",
    );

    /// The outer face can't be one of the surface.
    pub const NO_OUTER_FACE: Wrong = Wrong::Plain(
        "the outer face can be no face: it has fewer than three corners, or one twice",
    );

    /// There are more lines than the counts say.
    pub const MORE_LINES: Wrong = Wrong::Plain(
        "there are more vertices and faces than the counts say",
    );

    /// There are fewer lines than the counts say.
    pub const FEWER_LINES: Wrong = Wrong::Plain(
        "the file ends before all vertices and faces that the counts say",
    );

    /// Coordinates are asked for, and words have none.
    pub const NO_COORDINATES: Wrong = Wrong::Plain("words have no coordinates");

    /// Parts are asked for, and no file for them.
    pub const NO_FILES: Wrong = Wrong::Plain("--parts needs --output FILE, for the names of files");

    /// Parts are asked for of words.
    pub const WORDS_IN_PARTS: Wrong = Wrong::Plain(
        "words are of one part: --parts is for files of faces",
    );

    /// There is no border, and no face can stand for it.
    pub const NO_BORDER: Wrong = Wrong::Plain(
        "there is no border, and each face comes to a vertex twice",
    );

    /// There is no vertex and no face.
    pub const NOTHING: Wrong = Wrong::Plain("the file has no vertex and no face");

    /// There is no face.
    pub const NO_FACE: Wrong = Wrong::Plain("the file has no face");
}
