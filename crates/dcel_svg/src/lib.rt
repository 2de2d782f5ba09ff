//! Pictures of meshes as SVG: places for the vertices of any mesh, and what is drawn where. It uses
//! `dcel_drawn`.
//!
//! A mesh has no coordinates. [`spread`] finds places for its vertices. A [`Picture`] has a stroke
//! for each half edge, a patch for each face and a dot for each vertex, and [`write_svg`] writes
//! it. From one picture to the next [`spread_near`] keeps places, and [`Marks`] say what has
//! changed; pictures that share a [`Frame`] have each place at the same point of the page.
#![tactic(auto)]

mod bends;
mod bowing;
mod curve;
mod frame;
mod given_up;
mod grid;
mod keeping;
mod layout;
mod marks;
mod net;
mod place;
mod reading;
mod relaxing;
mod rows;
mod spreading;
mod svg;
mod wings;

pub use bowing::bow;
pub use dcel_drawn::{Bend, Dot, Line, Patch, Picture, Place, Places, State, Stroke};
pub use frame::{Extent, Frame};
pub use keeping::spread_near;
pub use marks::Marks;
pub use spreading::spread;
pub use svg::{Style, write_marked_svg, write_svg};
