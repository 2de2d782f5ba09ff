//! Why a text is refused.

use dcel_decimals::DecimalError;
use std::alloc::AllocError;
use thiserror::Error;

/// Why nothing was read.
#[derive(Debug, Drop, Error)]
pub enum ReadError {
    /// The text is refused.
    #[error("{0}")]
    Refused(#[from] Refusal),
    /// There was no memory.
    #[error("out of memory")]
    OutOfMemory(#[from(alloc)] AllocError),
}

/// Where a text is refused, and why.
#[derive(Clone, Copy, Debug, Drop, Error)]
#[error("line {line}: {reason}")]
pub struct Refusal {
    /// The line, from 1.
    pub line: usize,
    /// The byte of the text at which what is wrong begins.
    pub offset: usize,
    /// Why.
    pub reason: Reason,
}

/// What is wrong with a text.
#[derive(Clone, Copy, Debug, Drop, Error)]
pub enum Reason {
    /// It is no JSON from here on.
    #[error("this is no JSON")]
    NotJson,
    /// Something follows the outermost object.
    #[error("more follows behind the object of GeoJSON, which is one")]
    More,
    /// Something else is in the place of an object.
    #[error("an object of GeoJSON is missing here")]
    NoObject,
    /// An object has no type.
    #[error("an object of GeoJSON has a type, and this one has none")]
    NoType,
    /// It has a type that isn't one of GeoJSON.
    #[error("this is no type of GeoJSON")]
    UnknownType,
    /// It has a type of GeoJSON that can't be here.
    #[error("an object of this type can't be here")]
    WrongType,
    /// It lacks the member that its type needs.
    #[error("this object lacks the coordinates, geometry, geometries or features of its type")]
    NoMember,
    /// It has two members of which there is one.
    #[error("an object has its type once, and its coordinates, geometry, geometries or features")]
    Twice,
    /// Positions are in more arrays than the type has, or in fewer.
    #[error("the positions are nested in another way than those of the type")]
    OtherNesting,
    /// Something else is in the place of a position.
    #[error("a position is an array of two numbers or three")]
    NoPosition,
    /// A coordinate is no decimal that is read.
    #[error("{0}")]
    Number(DecimalError),
    /// A line is too short.
    #[error("a line has two positions or more")]
    ShortLine,
    /// A ring is too short.
    #[error("a ring has four positions or more")]
    ShortRing,
    /// A ring doesn't end where it begins.
    #[error("a ring ends at the position at which it begins")]
    OpenRing,
}
