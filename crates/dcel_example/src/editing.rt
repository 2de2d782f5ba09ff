//! A mesh edited by calls, each in front of it the test of what it asks for.

use spade_dcel::dcel::Dcel;
use spade_dcel::handles::{
    FixedDirectedEdgeHandle, FixedFaceHandle, FixedUndirectedEdgeHandle, FixedVertexHandle,
    InnerTag,
};
use spade_dcel::operations::{
    Room, append_unconnected_vertex, cleanup_isolated_vertex, flip_cw, insert_into_triangle,
    isolate_vertex_and_fill_hole, new_triangle, swap_remove_vertex,
};
use std::alloc::{AllocError, Global};
use std::io;

/// Edits a triangle, and shows what is taken out of it and what is left.
pub fn show(rt: &impl Print, alloc: Global) -> io::Result<()> {
    let mut dcel = triangle(alloc)?;
    show_edits(rt, &mut dcel, alloc)
}

fn show_edits(rt: &impl Print, dcel: &mut Dcel<&'static str>, alloc: Global) -> io::Result<()> {
    let face = FixedFaceHandle::new(1); // face 0 is the outer one
    put_into(dcel, "d", face)?;
    put_into(dcel, "e", face)?;
    let edge = FixedUndirectedEdgeHandle::new(3); // from "a" to "d", beside "e"
    if dcel.can_flip(edge) {
        flip_cw(dcel, edge);
    }
    let taken = take_out(dcel, FixedVertexHandle::new(4), alloc)?;
    let left = dcel.num_vertices();
    println!(rt; "taken out: {taken:?}, vertices left: {left}")
}

/// Returns a mesh of one triangle, with these data for its vertices.
pub fn triangle(alloc: Global) -> Result<Dcel<&'static str>, AllocError> {
    Ok(new_triangle(alloc, ("a", "b", "c"))?)
}

/// Puts a new vertex into an inner triangle, as far as numbers are left for it and its edges.
pub fn put_into<V: Drop>(
    dcel: &mut Dcel<V>,
    datum: V,
    face: FixedFaceHandle<InnerTag>,
) -> Result<(), AllocError> {
    if !dcel.is_triangle(face) || !dcel.has_room_for(Room::APPEND_UNCONNECTED_VERTEX) {
        return Ok(());
    }
    let vertex = append_unconnected_vertex(dcel, datum)?;
    if dcel.can_insert_into_triangle(vertex, face)
        && dcel.has_room_for(Room::INSERT_INTO_TRIANGLE)
    {
        insert_into_triangle(dcel, vertex, face)?;
    }
    Ok(())
}

/// Lists the half edges around the triangles of a vertex, clockwise.
fn border_of<V>(
    dcel: &Dcel<V>,
    center: FixedVertexHandle,
    alloc: Global,
) -> Result<Vec<FixedDirectedEdgeHandle>, AllocError> {
    let mut border = Vec::new(alloc);
    if let Some(vertex) = dcel.get_vertex(center) {
        for edge in vertex.out_edges().rev() {
            border.push(edge.next().fix())?;
        }
    }
    Ok(border)
}

/// Takes out a vertex inside triangles, fills the hole, and returns the vertex's datum, or None if
/// it doesn't lie so.
fn take_out<V: Drop>(
    dcel: &mut Dcel<V>,
    center: FixedVertexHandle,
    alloc: Global,
) -> Result<Option<V>, AllocError> {
    let border = border_of(dcel, center, alloc)?;
    let room = Room::filling(border.len());
    if !dcel.can_isolate_vertex_and_fill_hole(&border, center) || !dcel.has_room_for(room) {
        return Ok(None);
    }
    let mut opened = isolate_vertex_and_fill_hole(dcel, border, center)?;
    if !dcel.is_listed(&opened) {
        return Ok(None);
    }
    cleanup_isolated_vertex(dcel, &mut opened);
    if !dcel.can_swap_remove(center) {
        return Ok(None);
    }
    Ok(Some(swap_remove_vertex(dcel, center).removed_vertex))
}
