//! The line `cleanup U.. / F..`: what it asks, and how it is carried out.

ghost use Rattle.std.specs.Prelude.{ℕ};
ghost use Rattle.dcel_commands.specs.Vocabulary.{Carries, answered};
ghost use Rattle.dcel_commands.specs.request.Cleanup.{cleanup};

use crate::asking::{ask, ask_elements, is_isolated};
use crate::commands::{Refused, Reply};
use crate::refusal::Refusal;
use dcel_fixed::{FixedFaceHandle, FixedUndirectedEdgeHandle, InnerTag};
use spade_dcel::dcel::Dcel;
use spade_dcel::operations::{IsolateVertexResult, cleanup_isolated_vertex};
use std::alloc::Allocator;

/// Carries the command out, or refuses it and leaves the mesh as it was.
pub fn carry_out<
    V,
    DE: Default + Drop,
    UE: Default + Drop,
    F: Default + Drop,
    A: Allocator,
    B: Allocator + Copy,
>(
    dcel: &mut Dcel<V, DE, UE, F, A>,
    edges: Vec<FixedUndirectedEdgeHandle, B>,
    faces: Vec<FixedFaceHandle<InnerTag>, B>,
) -> Result<Reply<V, A>, Refused<V>>
    ensures { (limit : ℕ) → Carries DE.is_default UE.is_default F.is_default limit dcel.old (cleanup edges.items faces.items) (answered result) dcel.new }
{
    ask_elements(dcel, &edges, &faces)?;
    ask(is_isolated(dcel), Refusal::NoRemoval)?;
    let mut opened = IsolateVertexResult {
        new_edges: Vec::new(*edges.allocator()),
        smallest_new_edge: FixedUndirectedEdgeHandle::new(0),
        edges_to_remove: edges,
        faces_to_remove: faces,
    };
    ask(dcel.is_listed(&opened), Refusal::WrongLists)?;
    cleanup_isolated_vertex(dcel, &mut opened);
    Ok(Reply::Ok)
}
