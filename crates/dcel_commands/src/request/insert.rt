//! The line `insert B F`: what it asks, and how it is carried out.

ghost use Rattle.std.specs.Prelude.{◌≤◌, ◌^◌};
ghost use Rattle.dcel_commands.specs.Vocabulary.{Carries, answered};
ghost use Rattle.dcel_commands.specs.request.Insert.{insert};

use crate::asking::{ask, has_room, has_vertex};
use crate::commands::{Refused, Reply};
use crate::refusal::Refusal;
use dcel_fixed::{FixedFaceHandle, FixedVertexHandle, InnerTag};
use spade_dcel::dcel::Dcel;
use spade_dcel::operations::{Room, insert_into_triangle};
use std::alloc::Allocator;

/// Carries the command out, or refuses it and leaves the mesh as it was.
pub fn carry_out<V, DE: Default, UE: Default, F: Default, A: Allocator>(
    dcel: &mut Dcel<V, DE, UE, F, A>,
    vertex: FixedVertexHandle,
    face: FixedFaceHandle<InnerTag>,
    limit: usize,
) -> Result<Reply<V, A>, Refused<V>>
    requires { limit ≤ 2 ^ 31 }
    ensures { Carries DE.is_default UE.is_default F.is_default limit dcel.old (insert vertex face) (answered result) dcel.new }
{
    ask(has_vertex(dcel, vertex), Refusal::NoSuchVertex)?;
    ask(
        0 < face.index() && face.index() < dcel.num_faces(),
        Refusal::NoSuchFace,
    )?;
    // The tests of live elements come first only to name the refusal.
    ask(dcel.is_live_vertex(vertex), Refusal::GivenUp)?;
    ask(dcel.is_live_face(face), Refusal::GivenUp)?;
    ask(dcel.is_unconnected(vertex), Refusal::VertexInUse)?;
    ask(dcel.is_triangle(face), Refusal::NotTriangle)?;
    ask(
        has_room(dcel, limit, Room::INSERT_INTO_TRIANGLE),
        Refusal::NoRoom,
    )?;
    let inserted = insert_into_triangle(dcel, vertex, face)?;
    Ok(Reply::Vertex(inserted))
}
