//! Constrained Delaunay triangulations: triangulations of points with marked edges that have to
//! stay.
//!
//! Start with [`ConstrainedTriangulation`]. [`join`] turns the segment between two vertices into an
//! edge, by flips. It uses `dcel_delaunay` for points, `dcel_regions` for marks, and the laws of
//! `dcel_plane`.
#![tactic(auto)]

mod adding;
mod api;
mod bulk;
mod crossing;
mod errors;
mod insert;
mod load;
mod locate;
mod mesh;
mod rejoin;
mod remove;
mod segments;
mod triangulation;

pub use crossing::Crossing;
pub use dcel_regions::Mark;
pub use errors::{ConstraintError, JoinError, LoadError, Unjoined};
pub use load::Segment;
pub use mesh::ConstrainedMesh;
pub use segments::join::{Joined, join};
pub use triangulation::ConstrainedTriangulation;
