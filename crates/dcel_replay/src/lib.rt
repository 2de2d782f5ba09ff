//! The mesh that lines lead to, which answers each, and the mesh before a removal that is still open:
//! what a picture of it shows. Start with [`Replay`]. It uses `dcel_commands`.
#![tactic(auto)]

mod answer;
mod replay;
mod wrong;

pub use answer::Answer;
pub use replay::{Mesh, Replay};
pub use wrong::Wrong;
