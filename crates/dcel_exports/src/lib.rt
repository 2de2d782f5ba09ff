//! What static libraries share. For exports that write answers into a caller's buffer: the statuses
//! that they return, a list written into a buffer ([`put`]), and the replies to lines
//! ([`put_replies`]), in any memory. For what is kept across calls: a box taken apart ([`Opened`]).
//! It uses `dcel_commands`.
#![tactic(auto)]

mod boxes;
mod buffer;
mod replies;
pub mod status;

pub use boxes::Opened;
pub use buffer::put;
pub use replies::put_replies;
