//! Many points inserted at once.

mod ahead;
mod bulk;
mod curve;

pub(crate) use bulk::{note, point_of};
pub use curve::insertion_order;
