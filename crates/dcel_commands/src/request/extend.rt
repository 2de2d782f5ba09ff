//! The line `extend A B`: what it asks, and how it is carried out.

ghost use Rattle.std.specs.Prelude.{◌≤◌, ◌^◌};
ghost use Rattle.dcel_commands.specs.Vocabulary.{Carries, answered};
ghost use Rattle.dcel_commands.specs.request.Extend.{extend};

use crate::asking::{ask, ask_two_vertices, has_room};
use crate::commands::{Refused, Reply};
use crate::refusal::Refusal;
use dcel_fixed::FixedVertexHandle;
use spade_dcel::dcel::Dcel;
use spade_dcel::operations::{Room, extend_line};
use std::alloc::Allocator;

/// Carries the command out, or refuses it and leaves the mesh as it was.
pub fn carry_out<V, DE: Default, UE: Default, F: Default, A: Allocator>(
    dcel: &mut Dcel<V, DE, UE, F, A>,
    end: FixedVertexHandle,
    new_vertex: FixedVertexHandle,
    limit: usize,
) -> Result<Reply<V, A>, Refused<V>>
    requires { limit ≤ 2 ^ 31 }
    ensures { Carries DE.is_default UE.is_default F.is_default limit dcel.old (extend end new_vertex) (answered result) dcel.new }
{
    ask_two_vertices(dcel, end, new_vertex)?;
    ask(dcel.is_unconnected(new_vertex), Refusal::VertexInUse)?;
    ask(dcel.is_line_end(end), Refusal::NotLineEnd)?;
    ask(has_room(dcel, limit, Room::EXTEND_LINE), Refusal::NoRoom)?;
    let vertex = extend_line(dcel, end, new_vertex)?;
    Ok(Reply::Vertex(vertex))
}
