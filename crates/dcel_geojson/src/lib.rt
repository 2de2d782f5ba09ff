//! Points, lines and rings read from GeoJSON (RFC 7946), with coordinates as exact decimals. Start
//! with [`read`].
//!
//! Numbers are read from their digits, which the tokens of `json` have. What is read of a text isn't
//! proved: the cases of the program `delaunay` test it, and files with faults.
#![tactic(auto)]

mod kinds;
mod objects;
mod positions;
mod reading;
mod refusal;
mod shapes;
mod source;

pub use reading::read;
pub use refusal::{ReadError, Reason, Refusal};
pub use shapes::{Path, Shapes};
