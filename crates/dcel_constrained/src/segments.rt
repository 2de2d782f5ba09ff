//! Segments made edges by flips, and chains of marked edges.

pub(crate) mod blocking;
pub(crate) mod chains;
pub(crate) mod edges;
pub(crate) mod flips;
pub(crate) mod join;
pub(crate) mod offsets;
pub(crate) mod peaks;
pub(crate) mod walk;
pub(crate) mod ways;
