//! Legalization: flips illegal edges, by a rule of the caller's own, until none is left that can be
//! flipped.

pub use dcel_legalize::{Legalized, legalize_edges};
