//! The line `flip U`: what it asks, and how it is carried out.

ghost use Rattle.std.specs.Prelude.{ℕ};
ghost use Rattle.dcel_commands.specs.Vocabulary.{Carries, answered};
ghost use Rattle.dcel_commands.specs.request.Flip.{flip};

use crate::asking::{ask, ask_triangle, has_edge};
use crate::commands::{Refused, Reply};
use crate::refusal::Refusal;
use dcel_fixed::FixedUndirectedEdgeHandle;
use spade_dcel::dcel::Dcel;
use spade_dcel::operations::flip_cw;
use std::alloc::Allocator;

/// Carries the command out, or refuses it and leaves the mesh as it was.
pub fn carry_out<V, DE: Default, UE: Default, F: Default, A: Allocator>(
    dcel: &mut Dcel<V, DE, UE, F, A>,
    edge: FixedUndirectedEdgeHandle,
) -> Result<Reply<V, A>, Refused<V>>
    ensures { (limit : ℕ) → Carries DE.is_default UE.is_default F.is_default limit dcel.old (flip edge) (answered result) dcel.new }
{
    ask(has_edge(dcel, edge), Refusal::NoSuchEdge)?;
    ask(dcel.is_live_edge(edge), Refusal::GivenUp)?;
    let half_edge = dcel.undirected_edge(edge).as_directed();
    ask_triangle(dcel, half_edge)?;
    ask_triangle(dcel, half_edge.rev())?;
    ask(dcel.can_flip(edge), Refusal::WouldLoop)?;
    flip_cw(dcel, edge);
    Ok(Reply::Ok)
}
