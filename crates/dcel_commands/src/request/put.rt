//! The line `put V D`: what it asks, and how it is carried out.

ghost use Rattle.std.specs.Prelude.{ℕ};
ghost use Rattle.dcel_commands.specs.Vocabulary.{Carries, answered};
ghost use Rattle.dcel_commands.specs.request.Put.{put};

use crate::asking::has_vertex;
use crate::commands::{Handed, Refused, Reply};
use crate::refusal::Refusal;
use dcel_fixed::FixedVertexHandle;
use spade_dcel::dcel::Dcel;
use std::alloc::Allocator;

/// Carries the command out, or refuses it and leaves the mesh as it was.
pub fn carry_out<V: Drop, DE: Default, UE: Default, F: Default, A: Allocator>(
    dcel: &mut Dcel<V, DE, UE, F, A>,
    vertex: FixedVertexHandle,
    datum: V,
) -> Result<Reply<V, A>, Refused<V>>
    ensures { (limit : ℕ) → Carries DE.is_default UE.is_default F.is_default limit dcel.old (put vertex datum) (answered result) dcel.new }
{
    if !has_vertex(dcel, vertex) {
        return Err(Refused {
            why: Refusal::NoSuchVertex,
            back: Handed::One(datum),
        });
    }
    dcel.update_vertex(vertex, datum);
    Ok(Reply::Ok)
}
