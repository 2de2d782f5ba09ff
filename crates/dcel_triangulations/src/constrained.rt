//! Constrained triangulations that are kept across calls: [`DcelConstrained`], with a function for
//! each call of `dcel_constrained`.

mod adding;
mod freeing;
mod held;
mod inserting;
mod listing;
mod loading;
mod locating;
mod making;
mod marks;
mod refining;
mod removing;
mod triangulation;
mod whole;

pub use adding::{
    dcel_constrained_add_constraint, dcel_constrained_add_constraints,
    dcel_constrained_can_add_constraint,
};
pub use freeing::{
    dcel_constrained_exists_constraint, dcel_constrained_is_constraint,
    dcel_constrained_remove_constraint,
};
pub use inserting::{dcel_constrained_insert, dcel_constrained_insert_all};
pub use listing::{
    dcel_constrained_directed_edges, dcel_constrained_edges, dcel_constrained_hull,
    dcel_constrained_neighbors, dcel_constrained_points, dcel_constrained_triangles,
};
pub use loading::dcel_constrained_bulk_load;
pub use locating::{dcel_constrained_locate, dcel_constrained_locate_all};
pub use making::{dcel_constrained_clone, dcel_constrained_from_triangulation};
pub use marks::{dcel_constrained_constraints, dcel_constrained_regions};
pub use refining::{DcelRefinement, dcel_constrained_refine};
pub use removing::dcel_constrained_remove;
pub use triangulation::DcelConstrained;
pub use whole::{
    dcel_constrained_finish, dcel_constrained_free, dcel_constrained_is_whole,
    dcel_constrained_new, dcel_constrained_num_constraints, dcel_constrained_num_edges,
    dcel_constrained_num_triangles, dcel_constrained_num_vertices,
};
