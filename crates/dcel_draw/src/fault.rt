//! Why the program gives up.

use thiserror::Error;

/// Why the program gives up.
pub type Fault = dcel_programs::Fault<Wrong>;

/// What is wrong with a line, or with all.
#[derive(Clone, Copy, Debug, Drop, Error)]
pub enum Wrong {
    /// It is no line that the mesh carries out or answers.
    #[error("{0}")]
    Line(dcel_replay::Wrong),
    /// Places are given for a page, whose meshes get their own.
    #[error("--places is for one picture, and not for a page")]
    PlacesOfPage,
    /// It does not say a vertex and two coordinates.
    #[error("a place is a vertex and two coordinates")]
    NoPlace,
    /// A coordinate is no number.
    #[error("a coordinate is no number")]
    NoCoordinate,
    /// There is no vertex of this number.
    #[error("there is no such vertex")]
    NoSuchVertex,
}
