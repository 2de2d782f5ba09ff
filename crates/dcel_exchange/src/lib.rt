//! Meshes in and out, as lists of links and as faces with their corners, for files and other
//! languages. It uses public calls of `spade_dcel`.
//!
//! [`links`], [`link_lists`], [`anchor_lists`] and [`data_lists`] return what `from_links` and
//! `from_anchored_links` of `spade_dcel` take, and [`with_data`] constructs the same mesh with
//! other data. [`from_faces`] constructs a mesh from faces as lists of vertices, [`from_triangles`]
//! from triangles, and [`from_closed_faces`] from those of a closed surface; [`face_corners`],
//! [`face_lists`] and [`face_triangles`] return the faces of a mesh.
#![tactic(auto)]

mod chains;
mod closed;
mod corners;
mod faces;
mod linking;
mod lists;
mod numbering;
mod refusal;
mod rounds;
mod sides;
mod steps;
mod triangles;

pub use closed::{ClosedFacesError, from_closed_faces};
pub use corners::{CornerIterator, FaceIterator, face_corners, face_lists};
pub use faces::{from_faces, from_triangles};
pub use lists::{AnchorLists, LinkLists, anchor_lists, data_lists, link_lists, with_data};
pub use refusal::{FacesError, RefusedFaces};
pub use steps::{Link, LinkIterator, links};
pub use triangles::{TrianglesError, face_triangles};
