//! Operations that take something out of a mesh, turn edges or exchange vertices.
//!
//! Each function tests what its call asks, and tells whether there was memory.

use dcel_bench::refusing::{Memory, Watched};
use dcel_bench::require;
use dcel_commands::legalize::Legalized;
use dcel_legalize::legalize_by_number;
use spade_dcel::handles::{
    FixedDirectedEdgeHandle, FixedFaceHandle, FixedUndirectedEdgeHandle, FixedVertexHandle,
    InnerTag,
};
use spade_dcel::operations::{
    IsolateVertexResult, Room, cleanup_isolated_vertex, disconnect_edge_strip, flip_cw,
    isolate_vertex_and_fill_hole, remesh_edge_ring, remove_when_degenerate, swap_remove_vertex,
};
use std::test::Fail;

/// A list of elements in memory that may be refused.
type List<'a, T> = Vec<T, Memory<'a>>;

/// Gives up a vertex, and fills the hole.
pub fn isolate<'a>(
    dcel: &mut Watched<'a>,
    center: FixedVertexHandle,
    border: List<'a, FixedDirectedEdgeHandle>,
) -> Result<bool, Fail> {
    require!(
        dcel.can_isolate_vertex_and_fill_hole(&border, center)
            && dcel.has_room_for(Room::filling(border.len()))
    );
    Ok(isolate_vertex_and_fill_hole(dcel, border, center).is_ok())
}

/// Gives up what lies inside a ring, and fills the hole.
pub fn remesh<'a>(
    dcel: &mut Watched<'a>,
    ring: List<'a, FixedDirectedEdgeHandle>,
    edges: List<'a, FixedUndirectedEdgeHandle>,
    faces: List<'a, FixedFaceHandle<InnerTag>>,
) -> Result<bool, Fail> {
    require!(
        dcel.can_remesh_edge_ring(&ring, &edges, &faces)
            && dcel.has_room_for(Room::filling(ring.len()))
    );
    Ok(remesh_edge_ring(dcel, ring, edges, faces).is_ok())
}

/// Cuts off a vertex of the outer face.
pub fn cut_off<'a>(
    dcel: &mut Watched<'a>,
    strip: List<'a, FixedDirectedEdgeHandle>,
) -> Result<bool, Fail> {
    require!(dcel.can_disconnect_edge_strip(&strip));
    Ok(disconnect_edge_strip(dcel, strip).is_ok())
}

/// Takes out the edges and the faces that are given up.
pub fn clean_up<'a>(
    dcel: &mut Watched<'a>,
    memory: Memory<'a>,
    edges: List<'a, FixedUndirectedEdgeHandle>,
    faces: List<'a, FixedFaceHandle<InnerTag>>,
) -> Result<bool, Fail> {
    let mut opened = IsolateVertexResult {
        new_edges: Vec::new(memory),
        smallest_new_edge: FixedUndirectedEdgeHandle::new(0),
        edges_to_remove: edges,
        faces_to_remove: faces,
    };
    require!(dcel.is_listed(&opened));
    cleanup_isolated_vertex(dcel, &mut opened);
    Ok(true)
}

/// Takes out a vertex without an edge.
pub fn remove(dcel: &mut Watched, handle: FixedVertexHandle) -> Result<bool, Fail> {
    require!(dcel.can_swap_remove(handle));
    swap_remove_vertex(dcel, handle);
    Ok(true)
}

/// Takes a vertex out of a path.
pub fn remove_degenerate(dcel: &mut Watched, handle: FixedVertexHandle) -> Result<bool, Fail> {
    require!(dcel.can_remove_degenerate(handle));
    remove_when_degenerate(dcel, handle);
    Ok(true)
}

/// Turns an edge.
pub fn flip(dcel: &mut Watched, edge: FixedUndirectedEdgeHandle) -> Result<bool, Fail> {
    require!(dcel.can_flip(edge));
    flip_cw(dcel, edge);
    Ok(true)
}

/// Exchanges two vertices.
pub fn swap(
    dcel: &mut Watched,
    first: FixedVertexHandle,
    second: FixedVertexHandle,
) -> Result<bool, Fail> {
    require!(dcel.is_live_vertex(first) && dcel.is_live_vertex(second));
    dcel.swap_vertices(first, second);
    Ok(true)
}

/// Replaces the datum of a vertex.
pub fn put(dcel: &mut Watched, handle: FixedVertexHandle, datum: i64) -> Result<bool, Fail> {
    require!(handle.index() < dcel.num_vertices());
    dcel.update_vertex(handle, datum);
    Ok(true)
}

/// Flips edges by number, at most `most` times.
pub fn legalize<'a>(
    dcel: &mut Watched<'a>,
    edges: List<'a, FixedUndirectedEdgeHandle>,
    most: usize,
) -> bool {
    let ended = legalize_by_number(dcel, edges, most);
    !matches!(ended, Legalized::OutOfMemory { .. })
}
