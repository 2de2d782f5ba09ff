//! Functions that many users of the layer would otherwise write, over public calls of `spade_dcel`
//! alone. [`insert_vertex`] and [`remove_vertex`] insert a vertex into a triangle and take it out
//! again, [`collapse_edge`] moves a vertex into a neighbor, [`degree`], [`neighbors`] and
//! [`look_around`] look around a vertex, [`border`] lists what is around the outer face,
//! [`can_flip_simple`] and [`can_collapse_edge`] allow the flips and collapses that keep a mesh
//! simple, and [`is_simple`] tests whether it is.
#![tactic(auto)]

mod anywhere;
mod bordering;
mod collapsing;
mod cutting_off;
mod edges;
mod flipping;
mod inserting;
mod removing;
mod surrounding;
mod taking_out;
mod vertices;

pub use anywhere::{WayOut, remove_any_vertex, way_out};
pub use bordering::{border, border_vertices};
pub use collapsing::{WhyNotCollapsed, can_collapse_edge, collapse_edge};
pub use edges::is_simple;
pub use flipping::can_flip_simple;
pub use inserting::{NotInserted, WhyNotInserted, insert_vertex};
pub use removing::{WhyNotRemoved, remove_vertex};
pub use surrounding::{Surroundings, look_around};
pub use vertices::{degree, degrees, neighbors};
