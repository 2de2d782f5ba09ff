//! Exact predicates for points of the plane with whole coordinates: on which side of a line a
//! point is ([`orientation`]), whether it is inside a circle ([`in_circle`]), and where that
//! circle's center is ([`circumcenter`]). It uses no other crate.
//!
//! The determinants are those that computational geometry calls `orient2d` and `incircle` (J. R.
//! Shewchuk, "Adaptive Precision Floating-Point Arithmetic and Fast Robust Geometric Predicates",
//! 1997). Here they are computed in whole numbers, without rounding or overflow, for coordinates
//! from -2^53 to 2^53: in an `f64` every whole number in that range is exact.
#![tactic(auto)]

mod angle;
mod center;
mod circle;
pub mod laws;
mod line;
mod point;
mod step;
mod vector;
mod wide;

pub use center::{Center, circumcenter};
pub use circle::{CircleSide, circle_side, in_circle, in_circle_across};
pub use line::{Side, orient2d, orientation};
pub use point::Point;
pub use wide::{Digits, Division, Wide};
