//! The line `append D`: what it asks, and how it is carried out.

ghost use Rattle.std.specs.Prelude.{◌≤◌, ◌^◌};
ghost use Rattle.dcel_commands.specs.Vocabulary.{Carries, answered};
ghost use Rattle.dcel_commands.specs.request.Append.{append};

use crate::asking::has_room;
use crate::commands::{Handed, Refused, Reply};
use crate::refusal::Refusal;
use spade_dcel::dcel::Dcel;
use spade_dcel::operations::{NoMemory, Room, append_unconnected_vertex};
use std::alloc::Allocator;

/// Carries the command out, or refuses it and leaves the mesh as it was.
pub fn carry_out<V, DE: Default, UE: Default, F: Default, A: Allocator>(
    dcel: &mut Dcel<V, DE, UE, F, A>,
    datum: V,
    limit: usize,
) -> Result<Reply<V, A>, Refused<V>>
    requires { limit ≤ 2 ^ 31 }
    ensures { Carries DE.is_default UE.is_default F.is_default limit dcel.old (append datum) (answered result) dcel.new }
{
    if !has_room(dcel, limit, Room::APPEND_UNCONNECTED_VERTEX) {
        return Err(Refused {
            why: Refusal::NoRoom,
            back: Handed::One(datum),
        });
    }
    match append_unconnected_vertex(dcel, datum) {
        Ok(vertex) => Ok(Reply::Vertex(vertex)),
        Err(NoMemory { back }) => Err(Refused {
            why: Refusal::OutOfMemory,
            back: Handed::One(back),
        }),
    }
}
