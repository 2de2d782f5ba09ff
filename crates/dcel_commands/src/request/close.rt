//! The line `close H`: what it asks, and how it is carried out.

ghost use Rattle.std.specs.Prelude.{◌≤◌, ◌^◌};
ghost use Rattle.dcel_commands.specs.Vocabulary.{Carries, answered};
ghost use Rattle.dcel_commands.specs.request.Close.{close};

use crate::asking::{ask, has_half_edge, has_room};
use crate::commands::{Refused, Reply};
use crate::refusal::Refusal;
use dcel_fixed::FixedDirectedEdgeHandle;
use spade_dcel::dcel::Dcel;
use spade_dcel::operations::{Room, create_single_face_between_edge_and_next};
use std::alloc::Allocator;

/// Carries the command out, or refuses it and leaves the mesh as it was.
pub fn carry_out<V, DE: Default, UE: Default, F: Default, A: Allocator>(
    dcel: &mut Dcel<V, DE, UE, F, A>,
    edge: FixedDirectedEdgeHandle,
    limit: usize,
) -> Result<Reply<V, A>, Refused<V>>
    requires { limit ≤ 2 ^ 31 }
    ensures { Carries DE.is_default UE.is_default F.is_default limit dcel.old (close edge) (answered result) dcel.new }
{
    ask(has_half_edge(dcel, edge), Refusal::NoSuchEdge)?;
    ask(dcel.is_live_edge(edge.as_undirected()), Refusal::GivenUp)?;
    ask(
        dcel.directed_edge(edge).face().index() == 0,
        Refusal::NotOuter,
    )?;
    ask(dcel.can_close_outside(edge), Refusal::WouldLoop)?;
    ask(
        has_room(dcel, limit, Room::CREATE_SINGLE_FACE_BETWEEN_EDGE_AND_NEXT),
        Refusal::NoRoom,
    )?;
    let half = create_single_face_between_edge_and_next(dcel, edge)?;
    Ok(Reply::Half(half))
}
