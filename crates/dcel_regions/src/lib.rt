//! Marked edges ([`Mark`]), and the regions into which they divide a mesh ([`regions`]). It uses
//! `spade_dcel`.
#![tactic(auto)]

mod crossings;
mod mark;

pub use crossings::regions;
pub use mark::Mark;
