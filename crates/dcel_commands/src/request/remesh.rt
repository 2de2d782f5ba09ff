//! The line `remesh H.. / U.. / F..`: what it asks, and how it is carried out.

ghost use Rattle.std.specs.Prelude.{◌≤◌, ◌^◌};
ghost use Rattle.dcel_commands.specs.Vocabulary.{Carries, answered};
ghost use Rattle.dcel_commands.specs.request.Remesh.{remesh};

use crate::asking::{are_below, ask, ask_elements, has_room, is_closed};
use crate::commands::{Refused, Reply};
use crate::refusal::Refusal;
use dcel_fixed::{FixedDirectedEdgeHandle, FixedFaceHandle, FixedUndirectedEdgeHandle, InnerTag};
use spade_dcel::dcel::Dcel;
use spade_dcel::operations::{Room, remesh_edge_ring};
use std::alloc::Allocator;

/// Carries the command out, or refuses it and leaves the mesh as it was.
///
/// The lists in the reply are in the memory of the mesh.
pub fn carry_out<V, DE: Default, UE: Default, F: Default, A: Allocator + Clone, B: Allocator>(
    dcel: &mut Dcel<V, DE, UE, F, A>,
    list: Vec<FixedDirectedEdgeHandle, B>,
    edges: Vec<FixedUndirectedEdgeHandle, B>,
    faces: Vec<FixedFaceHandle<InnerTag>, B>,
    limit: usize,
) -> Result<Reply<V, A>, Refused<V>>
    requires { limit ≤ 2 ^ 31 }
    ensures { Carries DE.is_default UE.is_default F.is_default limit dcel.old (remesh list.items edges.items faces.items) (answered result) dcel.new }
{
    ask(
        are_below(&list, dcel.num_directed_edges()),
        Refusal::NoSuchEdge,
    )?;
    ask_elements(dcel, &edges, &faces)?;
    ask(is_closed(dcel), Refusal::RemovalOpen)?;
    ask(dcel.is_ring(&list, &edges, &faces), Refusal::BadRing)?;
    ask(
        has_room(dcel, limit, Room::filling(list.len())),
        Refusal::NoRoom,
    )?;
    let edges = edges.to_vec(dcel.allocator().clone()?)?;
    let faces = faces.to_vec(dcel.allocator().clone()?)?;
    let opened = remesh_edge_ring(dcel, list, edges, faces)?;
    Ok(Reply::Opened(opened))
}
