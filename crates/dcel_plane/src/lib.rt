//! The theory of meshes in the plane: triangles that are positively oriented, edges that are
//! locally Delaunay, the convex hull, and what edits, flips, removals, walks and segments do to
//! these.
//!
//! Nothing here runs: contracts of the crates above cite its definitions. [`laws`] has a module for
//! each subject, and `specs` and `proofs` have a folder of the same name. It uses `dcel_maps` and
//! `dcel_predicates`.
#![tactic(auto)]

pub mod laws;
