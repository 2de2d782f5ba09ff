//! Exact decimals, read from texts and made whole, for programs that read coordinates.
//!
//! A [`Decimal`] is a whole number divided by a power of ten. There are two ways to whole numbers:
//!
//! - [`Scale::least`] is the least power of ten that makes all decimals of a list whole, and
//!   [`Decimal::scaled`] applies it, exactly.
//! - [`Grid::fit`] is the finest power of two on which all of them are within 2^53 steps, and
//!   [`Grid::snap`] returns the number of steps that is nearest, and how far the decimal moves.
#![tactic(auto)]

mod decimal;
mod digits;
mod errors;
mod floor;
mod grid;
mod numeral;
mod scale;
mod steps;

pub use decimal::Decimal;
pub use errors::{DecimalError, ScalingError};
pub use grid::{Grid, Snapped};
pub use scale::Scale;
pub use steps::Steps;
