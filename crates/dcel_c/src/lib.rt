//! The mesh as a static library for C and languages that call C: a mesh that is kept across calls,
//! a function for each call of the layer, and one that answers lines.
//!
//! Start with the header, `bindings/c/dcel.h`. The names are those of `spade_dcel` with `dcel_` in
//! front. All numbers are tested, so a function may be called with any. Below are `dcel_commands`,
//! which tests and edits, `dcel_convenience` and `dcel_exchange`.
#![tactic(auto)]

mod anchors;
mod batch;
mod conditions;
mod convenience;
mod counts;
mod data;
mod edits;
mod faces;
mod fault;
mod given;
mod held;
pub mod laws;
mod legalize;
mod links;
mod list_conditions;
mod lists;
mod mesh;
mod removals;
mod replies;
mod status;
mod steps;
mod version;
mod walks;
mod whole;

pub use anchors::{dcel_adjacent_edge, dcel_get_edge_from_neighbors, dcel_out_edge};
pub use batch::{DcelEdit, DcelReply, dcel_apply_all};
pub use conditions::{
    dcel_can_close_outside, dcel_can_create_new_face_adjacent_to_edge, dcel_can_extend_line,
    dcel_can_flip, dcel_can_insert_into_triangle, dcel_can_remove_degenerate,
    dcel_can_setup_initial_two_vertices, dcel_can_split_edge,
    dcel_can_split_edge_when_all_vertices_on_line, dcel_can_split_half_edge, dcel_can_swap_remove,
    dcel_has_room, dcel_is_bridge, dcel_is_line_end, dcel_is_live_edge, dcel_is_live_face,
    dcel_is_live_vertex, dcel_is_triangle, dcel_is_unconnected, dcel_sanity_check,
};
pub use convenience::{
    dcel_can_collapse_edge, dcel_collapse_edge, dcel_insert_vertex, dcel_remove_vertex,
};
pub use counts::{
    dcel_num_directed_edges, dcel_num_faces, dcel_num_undirected_edges, dcel_num_vertices,
};
pub use data::{
    dcel_directed_edge_data, dcel_face_data, dcel_undirected_edge_data, dcel_update_directed_edge,
    dcel_update_face, dcel_update_undirected_edge, dcel_update_vertex, dcel_vertex_data,
};
pub use edits::{
    dcel_append_unconnected_vertex, dcel_create_new_face_adjacent_to_edge,
    dcel_create_single_face_between_edge_and_next, dcel_extend_line, dcel_flip_cw,
    dcel_insert_into_triangle, dcel_new_triangle, dcel_setup_initial_two_vertices, dcel_split_edge,
    dcel_split_edge_when_all_vertices_on_line, dcel_split_half_edge, dcel_swap_vertices,
};
pub use faces::dcel_from_faces;
pub use fault::DcelFault;
pub use given::dcel_from_links;
pub use legalize::{DcelLegalized, dcel_legalize_by_number};
pub use links::{DcelHalfEdge, dcel_directed_edge, dcel_directed_edges};
pub use list_conditions::{
    dcel_can_disconnect_edge_strip, dcel_can_isolate_vertex_and_fill_hole,
    dcel_can_remesh_edge_ring, dcel_is_border_loop, dcel_is_edge_strip, dcel_is_listed,
    dcel_is_ring,
};
pub use mesh::DcelMesh;
pub use removals::{
    DcelOpened, DcelRemoved, dcel_cleanup_isolated_vertex, dcel_disconnect_edge_strip,
    dcel_isolate_vertex_and_fill_hole, dcel_remesh_edge_ring, dcel_removal_state,
    dcel_remove_when_degenerate, dcel_swap_remove_vertex,
};
pub use replies::dcel_replies;
pub use steps::{dcel_ccw, dcel_cw, dcel_face, dcel_from, dcel_next, dcel_prev, dcel_rev, dcel_to};
pub use version::{dcel_version, dcel_version_0_2_0};
pub use walks::{dcel_face_edges, dcel_out_edges};
pub use whole::{dcel_clear, dcel_clone, dcel_free, dcel_new, dcel_reserve_capacity};
