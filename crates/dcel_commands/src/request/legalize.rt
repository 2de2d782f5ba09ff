//! The line `legalize N U..`: what it asks, and how it is carried out.

ghost use Rattle.std.specs.Prelude.{ℕ};
ghost use Rattle.dcel_commands.specs.Vocabulary.{Carries, answered};
ghost use Rattle.dcel_commands.specs.request.Legalize.{legalize};

use crate::asking::{are_below, ask};
use crate::commands::{Refused, Reply};
use crate::refusal::Refusal;
use dcel_fixed::FixedUndirectedEdgeHandle;
use dcel_legalize::legalize_by_number;
use spade_dcel::dcel::Dcel;
use std::alloc::Allocator;

/// Carries the command out, or refuses it and leaves the mesh as it was.
pub fn carry_out<V, DE: Default, UE: Default, F: Default, A: Allocator, B: Allocator>(
    dcel: &mut Dcel<V, DE, UE, F, A>,
    max_flips: usize,
    list: Vec<FixedUndirectedEdgeHandle, B>,
) -> Result<Reply<V, A>, Refused<V>>
    ensures { (limit : ℕ) → Carries DE.is_default UE.is_default F.is_default limit dcel.old (legalize max_flips list.items) (answered result) dcel.new }
{
    ask(
        are_below(&list, dcel.num_undirected_edges()),
        Refusal::NoSuchEdge,
    )?;
    Ok(Reply::Flips(legalize_by_number(dcel, list, max_flips)))
}
