//! Delaunay triangulations of points with whole coordinates, over the half-edge mesh of
//! `spade_dcel`. Start with [`Triangulation`].
//!
//! Points are inserted one by one ([`insert`](Triangulation::insert)) or all at once
//! ([`insert_all`](Triangulation::insert_all)). In the mesh ([`dcel`](Triangulation::dcel)) the
//! vertices are the points, the inner faces the triangles, and the outer face goes around the
//! convex hull. No point is inside the circle of a triangle, the triangles cover the hull and don't
//! overlap, and equal points are one vertex. [`lists`] has the mesh by number, and [`triangulate`]
//! returns the triangles as numbers of the points, for callers that want no mesh.
#![tactic(auto)]

mod api;
mod errors;
mod free;
mod insert;
pub mod lists;
mod locate;
mod remove;
mod removed;
mod triangles;
mod triangulation;

pub use dcel_planar::{EdgeMesh, InsertionError, Mesh, Point, PositionInTriangulation};
pub use errors::{RemovalError, point};
pub use free::FreeByDefault;
pub use insert::insertion_order;
pub use remove::{has_constraint_at, remove_vertex};
pub use removed::Removed;
pub use triangles::{Triangle, least_numbers, triangulate, triangulate_with};
pub use triangulation::Triangulation;
