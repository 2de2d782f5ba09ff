//! The line `remove V`: what it asks, and how it is carried out.

ghost use Rattle.std.specs.Prelude.{ℕ, [], ◌∷◌};
ghost use Rattle.dcel_commands.specs.Vocabulary.{Carries, NoOtherOpen, PassesOrRefuses, Removable, answered};
ghost use Rattle.dcel_commands.specs.request.Remove.{remove};
ghost use Rattle.dcel_commands.specs.declared.refusal.Refusal.TheVariants.{RemovalOpen, VertexInUse};

use crate::asking::{ask, has_vertex, is_closed};
use crate::commands::{Refused, Reply};
use crate::refusal::Refusal;
use dcel_fixed::FixedVertexHandle;
use spade_dcel::dcel::Dcel;
use spade_dcel::operations::swap_remove_vertex;
use std::alloc::Allocator;

/// Refuses unless the vertex can be taken out: no open removal and no edge prevents it.
fn ask_removable<V, DE, UE, F, A: Allocator>(
    dcel: &Dcel<V, DE, UE, F, A>,
    vertex: FixedVertexHandle,
) -> Result<(), Refusal>
    ensures { let asks = (RemovalOpen, NoOtherOpen vertex) ∷ (VertexInUse, Removable vertex) ∷ [] in
        PassesOrRefuses dcel.now.shape asks result }
{
    if is_closed(dcel) {
        return ask(dcel.can_swap_remove(vertex), Refusal::VertexInUse);
    }
    ask(dcel.can_swap_remove(vertex), Refusal::RemovalOpen)
}

/// Carries the command out, or refuses it and leaves the mesh as it was.
pub fn carry_out<V, DE: Default, UE: Default, F: Default, A: Allocator>(
    dcel: &mut Dcel<V, DE, UE, F, A>,
    vertex: FixedVertexHandle,
) -> Result<Reply<V, A>, Refused<V>>
    ensures { (limit : ℕ) → Carries DE.is_default UE.is_default F.is_default limit dcel.old (remove vertex) (answered result) dcel.new }
{
    ask(has_vertex(dcel, vertex), Refusal::NoSuchVertex)?;
    ask_removable(dcel, vertex)?;
    let removed = swap_remove_vertex(dcel, vertex);
    Ok(Reply::Removed(removed))
}
