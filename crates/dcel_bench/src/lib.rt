//! What the tests share: meshes constructed by lines, what can be read off a mesh, the replies to
//! lines, and an allocator that refuses requests. Start with [`lines`]. It uses `spade_dcel` and
//! `dcel_commands`.
//!
//! Nothing here ends the process: a failed comparison is returned as a [`Fail`](std::test::Fail),
//! which a test passes on.
#![tactic(auto)]

pub mod checks;
pub mod data;
pub mod lines;
pub mod meshes;
pub mod refusing;
pub mod replies;
pub mod snapshots;
pub mod talks;
