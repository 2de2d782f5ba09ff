//! What is drawn of a mesh, and where, once its vertices have places. `dcel_svg` writes it as SVG.
//!
//! Start with [`Picture`]: it has a stroke for each half edge, a patch for each face and a dot for
//! each vertex. It uses `spade_dcel`.
#![tactic(auto)]

mod bend;
mod picture;
mod place;
mod places;
mod reading;

pub use bend::Bend;
pub use picture::{Dot, Line, Patch, Picture, State, Stroke};
pub use place::Place;
pub use places::Places;
pub use reading::{Round, round};
