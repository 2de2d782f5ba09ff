//! The line `degenerate V`: what it asks, and how it is carried out.

ghost use Rattle.std.specs.Prelude.{ℕ};
ghost use Rattle.dcel_commands.specs.Vocabulary.{Carries, answered};
ghost use Rattle.dcel_commands.specs.request.Degenerate.{degenerate};

use crate::asking::{ask, has_vertex, is_closed};
use crate::commands::{Refused, Reply};
use crate::refusal::Refusal;
use dcel_fixed::FixedVertexHandle;
use spade_dcel::dcel::Dcel;
use spade_dcel::operations::remove_when_degenerate;
use std::alloc::Allocator;

/// Carries the command out, or refuses it and leaves the mesh as it was.
pub fn carry_out<V, DE: Default + Drop, UE: Default + Drop, F: Default, A: Allocator>(
    dcel: &mut Dcel<V, DE, UE, F, A>,
    vertex: FixedVertexHandle,
) -> Result<Reply<V, A>, Refused<V>>
    ensures { (limit : ℕ) → Carries DE.is_default UE.is_default F.is_default limit dcel.old (degenerate vertex) (answered result) dcel.new }
{
    ask(has_vertex(dcel, vertex), Refusal::NoSuchVertex)?;
    ask(is_closed(dcel), Refusal::RemovalOpen)?;
    ask(dcel.can_remove_degenerate(vertex), Refusal::NotPath)?;
    let removed = remove_when_degenerate(dcel, vertex);
    Ok(Reply::Removed(removed))
}
