//! The line `setup A B`: what it asks, and how it is carried out.

ghost use Rattle.std.specs.Prelude.{◌≤◌, ◌^◌};
ghost use Rattle.dcel_commands.specs.Vocabulary.{Carries, answered};
ghost use Rattle.dcel_commands.specs.request.Setup.{setup};

use crate::asking::{ask, ask_two_vertices, has_room};
use crate::commands::{Refused, Reply};
use crate::refusal::Refusal;
use dcel_fixed::FixedVertexHandle;
use spade_dcel::dcel::Dcel;
use spade_dcel::operations::{Room, setup_initial_two_vertices};
use std::alloc::Allocator;

/// Carries the command out, or refuses it and leaves the mesh as it was.
pub fn carry_out<V, DE: Default, UE: Default, F: Default, A: Allocator>(
    dcel: &mut Dcel<V, DE, UE, F, A>,
    first: FixedVertexHandle,
    second: FixedVertexHandle,
    limit: usize,
) -> Result<Reply<V, A>, Refused<V>>
    requires { limit ≤ 2 ^ 31 }
    ensures { Carries DE.is_default UE.is_default F.is_default limit dcel.old (setup first second) (answered result) dcel.new }
{
    ask_two_vertices(dcel, first, second)?;
    ask(dcel.num_undirected_edges() == 0, Refusal::EdgesStand)?;
    ask(
        has_room(dcel, limit, Room::SETUP_INITIAL_TWO_VERTICES),
        Refusal::NoRoom,
    )?;
    setup_initial_two_vertices(dcel, first, second)?;
    Ok(Reply::Ok)
}
