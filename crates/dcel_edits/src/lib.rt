//! Writers, which write each edit of a mesh into its store: links, anchors and data. The operations
//! of `spade_dcel` call them; below is `dcel_store`. Start with [`line`].
//!
//! Each asks that what it names is stored, and that the store has places for what it appends, which
//! [`Store::reserve`](dcel_store::Store::reserve) provides. So none allocates or is refused. The
//! contract of each is one equation over lists; the proofs say that lists which represent a mesh
//! represent the edited mesh afterwards.
#![tactic(auto)]

pub mod create;
pub mod fill;
pub mod flip;
pub mod given;
pub mod line;
mod links;
pub mod outside;
pub mod removal;
pub mod rename;
mod sectors;
pub mod split;
pub mod split_triangles;
pub mod strip;
pub mod triangle;
