//! Text in and out: bytes from a source, split into lines and their items; decimal numbers; and a
//! writer that buffers text for a sink. Start with [`lines`] and [`output`]. It uses no other
//! crate.
#![tactic(auto)]

pub mod buffer;
pub mod faults;
pub mod items;
pub mod lines;
mod numbers;
pub mod once;
pub mod output;
pub mod sink;
pub mod source;
