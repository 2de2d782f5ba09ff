//! Operations by which a mesh grows.
//!
//! Each function tests what its call asks and compares what it returns, and tells whether there was
//! memory.

use dcel_bench::checks::same;
use dcel_bench::refusing::{Memory, Watched};
use dcel_bench::require;
use spade_dcel::handles::{FixedDirectedEdgeHandle, FixedFaceHandle, FixedVertexHandle, InnerTag};
use spade_dcel::operations::{
    Room, append_unconnected_vertex, create_new_face_adjacent_to_edge,
    create_single_face_between_edge_and_next, extend_line, insert_into_triangle, new_triangle,
    setup_initial_two_vertices, split_edge, split_edge_when_all_vertices_on_line, split_half_edge,
};
use std::alloc::AllocError;
use std::fmt::Debug;
use std::test::Fail;

/// Returns whether a call had memory, and if it had, checks what it returned.
fn is_made<T: PartialEq + Debug + Drop>(
    returned: Result<T, AllocError>,
    wanted: T,
) -> Result<bool, Fail> {
    match returned {
        Ok(found) => {
            same(found, wanted, "what a call returns")?;
            Ok(true)
        }
        Err(_) => Ok(false),
    }
}

/// Appends a vertex. Without memory, its datum comes back.
pub fn append(dcel: &mut Watched, datum: i64) -> Result<bool, Fail> {
    require!(dcel.has_room_for(Room::APPEND_UNCONNECTED_VERTEX));
    let count = dcel.num_vertices();
    match append_unconnected_vertex(dcel, datum) {
        Ok(added) => {
            same(added.index(), count, "the number of a new vertex")?;
            Ok(true)
        }
        Err(refused) => {
            same(refused.back, datum, "the datum that comes back")?;
            Ok(false)
        }
    }
}

/// Replaces the mesh by one triangle. Without memory, the data come back.
pub fn replace<'a>(
    dcel: &mut Watched<'a>,
    memory: Memory<'a>,
    data: (i64, i64, i64),
) -> Result<bool, Fail> {
    match new_triangle(memory, data) {
        Ok(made) => {
            *dcel = made;
            Ok(true)
        }
        Err(refused) => {
            same(refused.back, data, "the data that come back")?;
            Ok(false)
        }
    }
}

/// Adds the first edge.
pub fn set_up(
    dcel: &mut Watched,
    from: FixedVertexHandle,
    to: FixedVertexHandle,
) -> Result<bool, Fail> {
    require!(
        dcel.can_setup_initial_two_vertices(from, to)
            && dcel.has_room_for(Room::SETUP_INITIAL_TWO_VERTICES)
    );
    is_made(setup_initial_two_vertices(dcel, from, to), ())
}

/// Joins a vertex to the end of a line.
pub fn extend(
    dcel: &mut Watched,
    end: FixedVertexHandle,
    added: FixedVertexHandle,
) -> Result<bool, Fail> {
    require!(dcel.can_extend_line(end, added) && dcel.has_room_for(Room::EXTEND_LINE));
    is_made(extend_line(dcel, end, added), added)
}

/// Splits an edge with one face on both sides.
pub fn split_on_line(
    dcel: &mut Watched,
    edge: FixedDirectedEdgeHandle,
    added: FixedVertexHandle,
) -> Result<bool, Fail> {
    require!(
        dcel.can_split_edge_when_all_vertices_on_line(edge, added)
            && dcel.has_room_for(Room::SPLIT_EDGE_WHEN_ALL_VERTICES_ON_LINE)
    );
    let second = FixedDirectedEdgeHandle::new(dcel.num_directed_edges());
    let split = split_edge_when_all_vertices_on_line(dcel, edge, added);
    is_made(split, [edge, second])
}

/// Closes a triangle of a half edge of the outer face and the next one.
pub fn close(dcel: &mut Watched, edge: FixedDirectedEdgeHandle) -> Result<bool, Fail> {
    require!(
        dcel.can_close_outside(edge)
            && dcel.has_room_for(Room::CREATE_SINGLE_FACE_BETWEEN_EDGE_AND_NEXT)
    );
    let outer = FixedDirectedEdgeHandle::new(dcel.num_directed_edges() + 1);
    is_made(create_single_face_between_edge_and_next(dcel, edge), outer)
}

/// Makes a triangle of a half edge and a vertex.
pub fn put_outside(
    dcel: &mut Watched,
    edge: FixedDirectedEdgeHandle,
    added: FixedVertexHandle,
) -> Result<bool, Fail> {
    require!(
        dcel.can_create_new_face_adjacent_to_edge(edge, added)
            && dcel.has_room_for(Room::CREATE_NEW_FACE_ADJACENT_TO_EDGE)
    );
    is_made(create_new_face_adjacent_to_edge(dcel, edge, added), added)
}

/// Cuts a triangle into three.
pub fn insert(
    dcel: &mut Watched,
    added: FixedVertexHandle,
    face: FixedFaceHandle<InnerTag>,
) -> Result<bool, Fail> {
    require!(
        dcel.can_insert_into_triangle(added, face) && dcel.has_room_for(Room::INSERT_INTO_TRIANGLE)
    );
    is_made(insert_into_triangle(dcel, added, face), added)
}

/// Splits an edge and the triangle on one side.
pub fn split_half(
    dcel: &mut Watched,
    edge: FixedDirectedEdgeHandle,
    added: FixedVertexHandle,
) -> Result<bool, Fail> {
    require!(dcel.can_split_half_edge(edge, added) && dcel.has_room_for(Room::SPLIT_HALF_EDGE));
    let second = FixedDirectedEdgeHandle::new(dcel.num_directed_edges() + 2);
    is_made(split_half_edge(dcel, edge, added), [edge, second])
}

/// Splits an edge and the triangles on both sides.
pub fn split_both(
    dcel: &mut Watched,
    edge: FixedDirectedEdgeHandle,
    added: FixedVertexHandle,
) -> Result<bool, Fail> {
    require!(dcel.can_split_edge(edge, added) && dcel.has_room_for(Room::SPLIT_EDGE));
    let second = FixedDirectedEdgeHandle::new(dcel.num_directed_edges() + 3);
    is_made(split_edge(dcel, edge, added), [edge, second])
}
