//! The line `strip H..`: what it asks, and how it is carried out.

ghost use Rattle.std.specs.Prelude.{ℕ};
ghost use Rattle.dcel_commands.specs.Vocabulary.{Carries, answered};
ghost use Rattle.dcel_commands.specs.request.Strip.{strip};

use crate::asking::{are_below, ask, is_closed};
use crate::commands::{Refused, Reply};
use crate::refusal::Refusal;
use dcel_fixed::FixedDirectedEdgeHandle;
use spade_dcel::dcel::Dcel;
use spade_dcel::operations::disconnect_edge_strip;
use std::alloc::Allocator;

/// Carries the command out, or refuses it and leaves the mesh as it was.
pub fn carry_out<V, DE: Default, UE: Default, F: Default, A: Allocator + Clone, B: Allocator>(
    dcel: &mut Dcel<V, DE, UE, F, A>,
    list: Vec<FixedDirectedEdgeHandle, B>,
) -> Result<Reply<V, A>, Refused<V>>
    ensures { (limit : ℕ) → Carries DE.is_default UE.is_default F.is_default limit dcel.old (strip list.items) (answered result) dcel.new }
{
    ask(
        are_below(&list, dcel.num_directed_edges()),
        Refusal::NoSuchEdge,
    )?;
    ask(is_closed(dcel), Refusal::RemovalOpen)?;
    ask(dcel.is_edge_strip(&list), Refusal::BadStrip)?;
    let opened = disconnect_edge_strip(dcel, list)?;
    Ok(Reply::Opened(opened))
}
