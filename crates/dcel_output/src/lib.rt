//! What is written of a triangulation: lines with the numbers of points, of triangles, or of both.
//!
//! [`triangulate_points`] triangulates the points of a list, and keeps the number of a point at each
//! vertex. [`numbered_triangles`], [`numbered_edges`] and [`numbered_hull`] list what a mesh has by
//! these numbers, [`nearest_numbers`] finds nearest points, and [`write_triangles`] and its kin write a
//! line for each item. [`kept`], [`kept_neighbors`] and [`edges_beside`] pick those that are inside an
//! outline. [`laws`] say what that means for the points.
#![tactic(auto)]

mod along;
mod beside;
mod constraining;
mod keeping;
pub mod laws;
mod nearest;
mod numbered;
mod numbering;
mod outlining;
mod triangulating;
mod turning;
mod writing;

pub use beside::edges_beside;
pub use constraining::{SegmentError, constrain};
pub use keeping::{kept, kept_neighbors};
pub use nearest::nearest_numbers;
pub use numbered::{numbered_edges, numbered_hull, numbered_triangles};
pub use numbering::{number_edges, number_triangles, number_vertices};
pub use outlining::{OutlineError, triangles_inside};
pub use triangulating::{Triangulated, triangulate_points};
pub use turning::corners;
pub use writing::{write_edges, write_nearest, write_neighbors, write_triangles, write_vertices};
