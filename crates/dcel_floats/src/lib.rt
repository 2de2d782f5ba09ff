//! What an `f64` is exactly, and grids on which every `f64` of a list becomes a whole number.
//!
//! A [`Grid`] is the multiples of a power of two, so a multiple of its step is a float again, and
//! scaling to the grid and back loses nothing but the rounding to the nearest multiple. It uses no
//! other crate.
#![tactic(auto)]

mod binary;
mod grid;
mod shifting;

pub use grid::Grid;
