//! Taking elements out of the store, when a removal is cleaned up or a mesh is degenerate.

pub mod degenerate;
pub mod take_out;
