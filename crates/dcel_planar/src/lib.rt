//! Planar meshes of points: a [`PlanarMesh`] has a list of edges that may be illegal. Points are
//! located in it, and inserted into triangles, on edges and beside the hull; edges are flipped by the
//! in-circle test.
//!
//! Legalization by circles: [`legalize_by_circles`] flips the illegal edges of a triangulation
//! until it is locally Delaunay. The tests of whole meshes are [`is_plane`], [`is_delaunay`] and
//! [`is_delaunay_triangulation`]. It uses `dcel_legalize`, `dcel_predicates` and the laws of
//! `dcel_plane`.
//!
//! The flips end by themselves: each decreases the volume below the triangulation lifted onto a
//! paraboloid (C. L. Lawson, "Software for C1 surface interpolation", 1977; the lifting is that of
//! H. Edelsbrunner and R. Seidel, "Voronoi diagrams and arrangements", 1986).
#![tactic(auto)]

mod access;
mod circles;
mod errors;
mod flips;
mod insert;
mod legalize;
mod location;
mod mesh;
mod planar;
mod planes;
mod points;
mod position;
mod rounds;
mod star;
mod triangulations;

pub use circles::is_circled;
pub use dcel_predicates::Point;
pub use errors::InsertionError;
pub use insert::{edges_of, outside_of};
pub use legalize::legalize_by_circles;
pub use mesh::{Edge, EdgeMesh, Mesh, Vertex, point_of, side};
pub use planar::PlanarMesh;
pub use planes::{is_delaunay, is_plane};
pub use points::{EdgePoints, points_at};
pub use position::PositionInTriangulation;
pub use triangulations::is_delaunay_triangulation;
