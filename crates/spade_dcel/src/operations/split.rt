//! Splitting a bridge, an edge with the same face on both sides.

ghost use Rattle.std.specs.Prelude.{◌≡◌, ◌*◌, [], ◌∷◌, IfOk, OnErr, OnOk};
ghost use Rattle.dcel_maps.specs.Conditions.{HasRoom, IsBridge, IsUnconnected};
ghost use Rattle.dcel_maps.specs.EditLists.{EditedBy};
ghost use Rattle.dcel_maps.specs.EditLists.EditKind.{edge_subdivided};
ghost use Rattle.dcel_maps.specs.edits.DefaultData.{AddsEdge};
ghost use Rattle.dcel_maps.specs.edits.Split.{edge_split_on_line};
ghost use Rattle.dcel_maps.specs.Shapes.{IsMesh};

use crate::dcel::Dcel;
use dcel_edits::split::put_middle;
use dcel_fixed::{FixedDirectedEdgeHandle, FixedVertexHandle};
use std::alloc::{AllocError, Allocator};

/// Splits an edge that has the same face on both sides, and returns the two half edges along
/// `edge`.
///
/// The first is `edge`, which now ends at `new_vertex`; the second is new and leads from there to
/// the old end of `edge`.
///
/// ```text
/// before    edge                after    edge           n
///         a ----> b                   a ----> new_vertex ----> b
///           <----                       <----            <----
///            t                           t               n + 1
/// ```
///
/// Asks that both halves of the edge are on one face ([`is_bridge`](Dcel::is_bridge)), that no edge
/// meets `new_vertex` ([`is_unconnected`](Dcel::is_unconnected)), and for room for one edge
/// ([`has_room`](Dcel::has_room)). If memory runs out it returns `AllocError`, and the mesh is as
/// it was.
pub fn split_edge_when_all_vertices_on_line<V, DE: Default, UE: Default, F, A: Allocator>(
    dcel: &mut Dcel<V, DE, UE, F, A>,
    edge: FixedDirectedEdgeHandle,
    new_vertex: FixedVertexHandle,
) -> Result<[FixedDirectedEdgeHandle; 2], AllocError>
    requires bridge { IsBridge dcel.old.shape edge }
    requires unconnected { IsUnconnected dcel.old.shape new_vertex }
    requires room { HasRoom dcel.old.shape 0 1 0 }
    ensures edit { OnOk result (AddsEdge DE.is_default UE.is_default dcel.new (edge_split_on_line dcel.old edge new_vertex)) }
    ensures edits { OnOk result (EditedBy (edge_subdivided ∷ []) dcel.old dcel.new) }
    ensures answer { IfOk result (λ halves. halves ≡ edge ∷ 2 * dcel.old.shape.edges ∷ []) }
    ensures refused { OnErr result (dcel.new ≡ dcel.old) }
    ensures mesh { IsMesh dcel.new }
{
    dcel.store.reserve(0, 1, 0)?;
    let new_edge = put_middle(&mut dcel.store, edge, new_vertex);
    Ok([edge, new_edge])
}
