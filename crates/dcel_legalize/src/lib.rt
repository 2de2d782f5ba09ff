//! Legalization: flips the illegal edges of a list, and then those beside them, until none is left
//! that can be flipped. The caller's rule says which edges are illegal.
//!
//! Start with [`legalize_edges`]. It uses only public calls of `spade_dcel`, so a caller can write
//! a variant of it.
#![tactic(auto)]

mod beside;
mod by_number;
mod constraint;
mod legalize;
mod legalized;

pub use beside::append_sides;
pub use by_number::legalize_by_number;
pub use constraint::EdgeConstraint;
pub use legalize::legalize_edges;
pub use legalized::Legalized;
