//! The half-edge mesh layer (DCEL) of `spade`, proved: vertices, edges and faces on the sphere,
//! linked by half edges, without coordinates.
//!
//! Start with [`dcel`], the mesh and its queries, and [`operations`], the edits. [`handles`] has
//! the names of elements, [`iterators`] the walks and lists, and [`laws`] what is true of every
//! mesh. Storage is in `dcel_store`, the writers of links in `dcel_edits`, the theory in
//! `dcel_maps`.
#![tactic(auto)]

pub mod dcel;
pub mod handles;
pub mod iterators;
pub mod laws;
pub mod operations;
