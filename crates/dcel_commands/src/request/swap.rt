//! The line `swap A B`: what it asks, and how it is carried out.

ghost use Rattle.std.specs.Prelude.{ℕ};
ghost use Rattle.dcel_commands.specs.Vocabulary.{Carries, answered};
ghost use Rattle.dcel_commands.specs.request.Swap.{swap};

use crate::asking::ask_live_vertices;
use crate::commands::{Refused, Reply};
use crate::refusal::Refusal;
use dcel_fixed::FixedVertexHandle;
use spade_dcel::dcel::Dcel;
use std::alloc::Allocator;

/// Carries the command out, or refuses it and leaves the mesh as it was.
pub fn carry_out<V, DE: Default, UE: Default, F: Default, A: Allocator>(
    dcel: &mut Dcel<V, DE, UE, F, A>,
    first: FixedVertexHandle,
    second: FixedVertexHandle,
) -> Result<Reply<V, A>, Refused<V>>
    ensures { (limit : ℕ) → Carries DE.is_default UE.is_default F.is_default limit dcel.old (swap first second) (answered result) dcel.new }
{
    ask_live_vertices(dcel, first, second)?;
    dcel.swap_vertices(first, second);
    Ok(Reply::Ok)
}
