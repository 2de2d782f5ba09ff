//! The line `isolate V H..`: what it asks, and how it is carried out.

ghost use Rattle.std.specs.Prelude.{◌≤◌, ◌^◌};
ghost use Rattle.dcel_commands.specs.Vocabulary.{Carries, answered};
ghost use Rattle.dcel_commands.specs.request.Isolate.{isolate};

use crate::asking::{are_below, ask, has_room, has_vertex, is_closed};
use crate::commands::{Refused, Reply};
use crate::refusal::Refusal;
use dcel_fixed::{FixedDirectedEdgeHandle, FixedVertexHandle};
use spade_dcel::dcel::Dcel;
use spade_dcel::operations::{Room, isolate_vertex_and_fill_hole};
use std::alloc::Allocator;

/// Carries the command out, or refuses it and leaves the mesh as it was.
pub fn carry_out<V, DE: Default, UE: Default, F: Default, A: Allocator + Clone, B: Allocator>(
    dcel: &mut Dcel<V, DE, UE, F, A>,
    vertex: FixedVertexHandle,
    list: Vec<FixedDirectedEdgeHandle, B>,
    limit: usize,
) -> Result<Reply<V, A>, Refused<V>>
    requires { limit ≤ 2 ^ 31 }
    ensures { Carries DE.is_default UE.is_default F.is_default limit dcel.old (isolate vertex list.items) (answered result) dcel.new }
{
    ask(has_vertex(dcel, vertex), Refusal::NoSuchVertex)?;
    ask(
        are_below(&list, dcel.num_directed_edges()),
        Refusal::NoSuchEdge,
    )?;
    ask(is_closed(dcel), Refusal::RemovalOpen)?;
    ask(dcel.is_border_loop(&list, vertex), Refusal::BadRing)?;
    ask(
        has_room(dcel, limit, Room::filling(list.len())),
        Refusal::NoRoom,
    )?;
    let opened = isolate_vertex_and_fill_hole(dcel, list, vertex)?;
    Ok(Reply::Opened(opened))
}
