//! The theory of meshes, as words and as combinatorial maps: what a mesh is, what is true of each,
//! and what each edit does to one. Below is only `dcel_fixed`.
//!
//! Nothing here runs: contracts of the crates above cite its definitions. Start with docs/MODEL.md;
//! [`laws`] has what follows from the definitions alone.
#![tactic(auto)]

pub mod laws;
