//! Edits of a mesh.
//!
//! The contract of a call says what it asks, and a public test of [`Dcel`](crate::dcel::Dcel)
//! reports whether that is true. A call that returns a `Result` is refused only if memory runs out,
//! and then the mesh is as it was; [`from_links`] and [`from_anchored_links`] also refuse what no
//! mesh has. A call that returns no `Result` allocates nothing; its contract says only that it
//! cannot fail.
//!
//! In the pictures each face is to the left of its half edges, and `t` is the other half of `edge`
//! or `e`. `n` is twice the number of undirected edges before the call, so it is the number of the
//! first new half edge; `L` is the number of faces before the call, so it is the number of the
//! first new face. `docs/PICTURES.md` draws each on a mesh with numbers.

mod cleanup;
mod create;
mod degenerate;
mod fill;
mod flip;
mod given;
mod line;
mod outside;
mod remove;
mod results;
mod room;
mod split;
mod split_triangles;
mod strip;
mod swap_remove;
mod triangle;

pub use cleanup::cleanup_isolated_vertex;
pub use create::{
    append_unconnected_vertex, new, new_with_fixed_vertices, setup_initial_two_vertices,
};
pub use degenerate::remove_when_degenerate;
pub use fill::{isolate_vertex_and_fill_hole, remesh_edge_ring};
pub use flip::flip_cw;
pub use given::{
    Anchors, EdgeData, Links, LinksError, LinksFault, MeshData, RefusedLinks, from_anchored_links,
    from_links,
};
pub use line::extend_line;
pub use outside::{create_new_face_adjacent_to_edge, create_single_face_between_edge_and_next};
pub use remove::{cut_off_corner, remove_from_square, remove_from_triangle};
pub use results::{
    CornerRemovalResult, IsolateVertexResult, RemovalResult, SquareRemovalResult,
    TriangleRemovalResult,
};
pub use room::Room;
pub use split::split_edge_when_all_vertices_on_line;
pub use split_triangles::{split_edge, split_half_edge};
use std::alloc::AllocError;
pub use strip::disconnect_edge_strip;
pub use swap_remove::swap_remove_vertex;
pub use triangle::{insert_into_triangle, new_triangle};

/// The value that was passed in, returned because memory ran out.
///
/// It converts to `AllocError`, so `?` works where the value may be dropped.
#[derive(Debug, Drop)]
pub struct NoMemory<T> {
    /// The value that was passed in.
    pub back: T,
}

impl<T: Drop> From<NoMemory<T>> for AllocError {
    /// Drops the value.
    fn from(_refused: NoMemory<T>) -> AllocError {
        AllocError
    }
}
