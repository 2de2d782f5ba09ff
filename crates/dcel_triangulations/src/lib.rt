//! Triangulations of points as a static library for C and languages that call C. They are kept across
//! calls: a [`DcelTriangulation`], with a function for each call of `dcel_delaunay`, or a
//! [`DcelConstrained`], with one for each call of `dcel_constrained`.
//!
//! Start with the header, `bindings/c/dcel.h`. Together with `dcel_c` it becomes `libdcel`. The
//! functions take what C passes: a triangulation or none, points with coordinates that may be out of
//! range, numbers of vertices that may not be there, and buffers. They return statuses.
#![tactic(auto)]

mod buffers;
mod cloning;
mod constrained;
mod held;
mod inserting;
mod links;
mod listing;
mod locating;
mod nearby;
mod points;
mod position;
mod removing;
mod status;
mod triangulating;
mod triangulation;
mod whole;

pub use buffers::DcelAcross;
pub use cloning::dcel_triangulation_clone;
pub use constrained::{
    DcelConstrained, DcelRefinement, dcel_constrained_add_constraint,
    dcel_constrained_add_constraints, dcel_constrained_bulk_load,
    dcel_constrained_can_add_constraint, dcel_constrained_clone, dcel_constrained_constraints,
    dcel_constrained_directed_edges, dcel_constrained_edges, dcel_constrained_exists_constraint,
    dcel_constrained_finish, dcel_constrained_free, dcel_constrained_from_triangulation,
    dcel_constrained_hull, dcel_constrained_insert, dcel_constrained_insert_all,
    dcel_constrained_is_constraint, dcel_constrained_is_whole, dcel_constrained_locate,
    dcel_constrained_locate_all, dcel_constrained_neighbors, dcel_constrained_new,
    dcel_constrained_num_constraints, dcel_constrained_num_edges, dcel_constrained_num_triangles,
    dcel_constrained_num_vertices, dcel_constrained_points, dcel_constrained_refine,
    dcel_constrained_regions, dcel_constrained_remove, dcel_constrained_remove_constraint,
    dcel_constrained_triangles,
};
pub use inserting::{
    dcel_triangulation_insert, dcel_triangulation_insert_all, dcel_triangulation_insert_with_hint,
};
pub use links::{DcelHalfEdge, dcel_triangulation_directed_edges};
pub use listing::{
    dcel_triangulation_edges, dcel_triangulation_hull, dcel_triangulation_neighbors,
    dcel_triangulation_points, dcel_triangulation_triangles,
};
pub use locating::{
    dcel_triangulation_locate, dcel_triangulation_locate_all, dcel_triangulation_locate_with_hint,
};
pub use nearby::{dcel_triangulation_nearest, dcel_triangulation_nearest_all};
pub use points::DcelPoint;
pub use position::DcelPosition;
pub use removing::dcel_triangulation_remove;
pub use triangulating::dcel_triangulate;
pub use triangulation::DcelTriangulation;
pub use whole::{
    dcel_triangulation_finish, dcel_triangulation_free, dcel_triangulation_is_whole,
    dcel_triangulation_new, dcel_triangulation_num_edges, dcel_triangulation_num_triangles,
    dcel_triangulation_num_vertices,
};
