//! The line `split H B`: what it asks, and how it is carried out.

ghost use Rattle.std.specs.Prelude.{◌≤◌, ◌^◌};
ghost use Rattle.dcel_commands.specs.Vocabulary.{Carries, answered};
ghost use Rattle.dcel_commands.specs.request.Split.{split};

use crate::asking::{ask, ask_edge_and_vertex, ask_triangle, has_room};
use crate::commands::{Refused, Reply};
use crate::refusal::Refusal;
use dcel_fixed::{FixedDirectedEdgeHandle, FixedVertexHandle};
use spade_dcel::dcel::Dcel;
use spade_dcel::operations::{Room, split_edge};
use std::alloc::Allocator;

/// Carries the command out, or refuses it and leaves the mesh as it was.
pub fn carry_out<V, DE: Default, UE: Default, F: Default, A: Allocator>(
    dcel: &mut Dcel<V, DE, UE, F, A>,
    edge: FixedDirectedEdgeHandle,
    new_vertex: FixedVertexHandle,
    limit: usize,
) -> Result<Reply<V, A>, Refused<V>>
    requires { limit ≤ 2 ^ 31 }
    ensures { Carries DE.is_default UE.is_default F.is_default limit dcel.old (split edge new_vertex) (answered result) dcel.new }
{
    ask_edge_and_vertex(dcel, edge, new_vertex)?;
    let half_edge = dcel.directed_edge(edge);
    ask_triangle(dcel, half_edge)?;
    ask_triangle(dcel, half_edge.rev())?;
    ask(has_room(dcel, limit, Room::SPLIT_EDGE), Refusal::NoRoom)?;
    let halves = split_edge(dcel, edge, new_vertex)?;
    Ok(Reply::Halves(halves))
}
