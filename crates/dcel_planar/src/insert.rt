//! Points inserted: a vertex put in where the point is, and the hull closed round it.

mod edits;
mod hull;
mod line;
mod place;

pub(crate) use edits::edges_next_to;
pub use edits::edges_of;
pub use hull::outside_of;
