//! The line `outside H B`: what it asks, and how it is carried out.

ghost use Rattle.std.specs.Prelude.{◌≤◌, ◌^◌};
ghost use Rattle.dcel_commands.specs.Vocabulary.{Carries, answered};
ghost use Rattle.dcel_commands.specs.request.Outside.{outside};

use crate::asking::{ask, ask_edge_and_vertex, has_room};
use crate::commands::{Refused, Reply};
use crate::refusal::Refusal;
use dcel_fixed::{FixedDirectedEdgeHandle, FixedVertexHandle};
use spade_dcel::dcel::Dcel;
use spade_dcel::operations::{Room, create_new_face_adjacent_to_edge};
use std::alloc::Allocator;

/// Carries the command out, or refuses it and leaves the mesh as it was.
pub fn carry_out<V, DE: Default, UE: Default, F: Default, A: Allocator>(
    dcel: &mut Dcel<V, DE, UE, F, A>,
    edge: FixedDirectedEdgeHandle,
    new_vertex: FixedVertexHandle,
    limit: usize,
) -> Result<Reply<V, A>, Refused<V>>
    requires { limit ≤ 2 ^ 31 }
    ensures { Carries DE.is_default UE.is_default F.is_default limit dcel.old (outside edge new_vertex) (answered result) dcel.new }
{
    ask_edge_and_vertex(dcel, edge, new_vertex)?;
    ask(
        has_room(dcel, limit, Room::CREATE_NEW_FACE_ADJACENT_TO_EDGE),
        Refusal::NoRoom,
    )?;
    let vertex = create_new_face_adjacent_to_edge(dcel, edge, new_vertex)?;
    Ok(Reply::Vertex(vertex))
}
