//! Refinement of constrained Delaunay triangulations: vertices are added until no angle is smaller
//! and no triangle larger than asked.
//!
//! Start with [`refine`]. It uses only the public calls of `dcel_constrained`, and for degrees the
//! [`Grid`](dcel_floats::Grid) of `dcel_floats`. Points are chosen as by J. Ruppert ("A Delaunay
//! refinement algorithm for quality 2-dimensional mesh generation", 1995). That choice is not
//! proved: the result is tested in the end, exactly, and that test is.
#![tactic(auto)]

mod centers;
mod due;
mod judging;
pub mod laws;
mod parameters;
mod points;
mod quality;
mod queue;
mod ranks;
mod refining;
mod segments;
mod tangents;
mod vectors;
mod ways;

pub use judging::are_refined;
pub use parameters::{AngleLimit, RefinedFaces, RefinementParameters};
pub use refining::{Refined, refine, refine_faces};
