//! Why the program gives up.

use crate::counts::Added;
use crate::fraction::Fraction;
use crate::quoting::{Excerpt, Sentence};
use crate::unit::Shown;
use dcel_decimals::{Decimal, DecimalError, Scale};
use dcel_delaunay::{InsertionError, Point, RemovalError};
use dcel_geojson::Reason;
use std::fmt::{self, Debug, Display, Formatter};
use thiserror::Error;

/// Why the program gives up.
pub type Fault = dcel_programs::Fault<Wrong>;

/// What is wrong with the input.
#[derive(Clone, Copy, Drop, Error)]
pub enum Wrong {
    /// What a sentence says.
    #[error("{0}")]
    Said(Sentence),
    /// A number times this scale isn't whole.
    #[error("a coordinate times {0} is not whole")]
    NotWhole(u64),
    /// A number is further from 0 than this.
    #[error("a coordinate is below -{0} or above {0}; --grid takes it, rounded")]
    OutOfRange(Decimal),
    /// A text is refused.
    #[error("{0}: '{1}'")]
    Quoted(Sentence, Excerpt),
    /// A text is refused that is to be GeoJSON.
    #[error("{0}: '{1}'")]
    Geojson(Reason, Excerpt),
    /// A line has a number that no point has.
    #[error("there is no point {0} in the points' file, which has {1}, numbered from {2}")]
    FarNumber(usize, usize, usize),
    /// The place where a segment crosses another isn't on the grid: that place, and the nearest one
    /// that is.
    #[error("it crosses another constraint at {0} {1}, which is off the grid, whose nearest point is {2}")]
    OffGrid(Fraction, Fraction, Shown),
    /// A point could not be inserted.
    #[error(transparent)]
    Insertion(InsertionError),
    /// A refinement ended before all triangles were as asked.
    #[error("not all triangles are as asked: {0}")]
    NotRefined(Added),
}

impl Debug for Wrong {
    fn fmt<W: fmt::Write>(&self, f: &mut Formatter<W>) -> fmt::Result {
        Display::fmt(self, f)
    }
}

impl Wrong {
    /// Returns what is wrong with a text, with its beginning.
    pub fn quoting(sentence: Sentence, text: &str) -> Self {
        Wrong::Quoted(sentence, Excerpt::of(text.trim_ascii()))
    }

    /// Returns what is wrong with a text that is to be GeoJSON, with its beginning.
    pub fn quoting_geojson(reason: Reason, text: &str) -> Self {
        Wrong::Geojson(reason, Excerpt::of(text.trim_ascii()))
    }

    /// Returns why a word is no coordinate.
    fn of_word(word: &str, error: DecimalError) -> Self {
        match error {
            DecimalError::NotDecimal => Wrong::quoting(Sentence::NoNumber, word),
            DecimalError::OutOfRange => Wrong::Said(Sentence::TooLarge),
            DecimalError::TooManyDigits | DecimalError::FarExponent => Wrong::Said(
                Sentence::TooManyDigits,
            ),
        }
    }

    /// Returns that a number is out of the range of points, where it is multiplied by this scale.
    pub fn out_of_range(scale: Scale) -> Self {
        Wrong::OutOfRange(Decimal::from_scaled(Point::LIMIT as i64, scale))
    }
}

impl From<RemovalError> for Wrong {
    fn from(error: RemovalError) -> Self {
        match error {
            RemovalError::TooManyPoints => Wrong::Insertion(InsertionError::TooManyPoints),
            RemovalError::OutOfMemory | RemovalError::Unfinished(_) => {
                Wrong::Insertion(InsertionError::OutOfMemory)
            }
            _ => Wrong::Said(Sentence::NotRemoved),
        }
    }
}

/// Returns the coordinate that a word says.
pub fn coordinate_of(word: &str) -> Result<Decimal, Wrong> {
    match Decimal::read(word) {
        Ok(number) => Ok(number),
        Err(error) => Err(Wrong::of_word(word, error)),
    }
}
