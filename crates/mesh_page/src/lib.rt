//! The layer as a WebAssembly module for a page in a browser: replies to lines, the picture of the
//! mesh that lines lead to, and the triangles of points. It uses `dcel_replay`, `dcel_svg`,
//! `dcel_delaunay` and `dcel_constrained`.
//!
//! The host lends memory for good, by `lent_heap`. Meshes and triangulations are kept across calls, each
//! on a desk of the host's ([`MeshPageKept`]), in a heap that takes blocks back. The other exports work
//! in memory of their own, and keep nothing.
#![tactic(auto)]

mod constrained;
mod conversing;
mod delaunay;
mod desk;
mod held;
mod holder;
mod kept;
mod picture;
mod points;
mod replies;
mod status;
mod triangles;

pub use constrained::{
    mesh_page_add_constraint, mesh_page_can_add_constraint, mesh_page_exists_constraint,
    mesh_page_list_constraints, mesh_page_remove_constraint,
};
pub use conversing::{mesh_page_answer, mesh_page_draw, mesh_page_last_reply, mesh_page_mesh};
pub use delaunay::{
    mesh_page_constrained, mesh_page_delaunay, mesh_page_finish, mesh_page_insert,
    mesh_page_insert_all, mesh_page_list_triangles, mesh_page_nearest, mesh_page_remove,
};
pub use holder::MeshPageKept;
pub use kept::{mesh_page_free, mesh_page_lend};
pub use picture::mesh_page_picture;
pub use points::MeshPagePoint;
pub use replies::mesh_page_replies;
pub use triangles::mesh_page_triangles;
