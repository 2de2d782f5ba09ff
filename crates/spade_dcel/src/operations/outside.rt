//! Adding triangles: beside an edge, or in a corner of the outer face.

ghost use Rattle.std.specs.Prelude.{◌≡◌, ◌+◌, ◌*◌, ◌∷◌, [], IfOk, OnErr, OnOk};
ghost use Rattle.dcel_maps.specs.Conditions.{CanCloseOutside, HasRoom, IsUnconnected};
ghost use Rattle.dcel_maps.specs.EditLists.{EditedBy};
ghost use Rattle.dcel_maps.specs.EditLists.EditKind.{ear_cut, spur_added};
ghost use Rattle.dcel_maps.specs.edits.DefaultData.{AddsEdgesAndFaces};
ghost use Rattle.dcel_maps.specs.edits.Outside.{face_closed, face_put_beside};
ghost use Rattle.dcel_maps.specs.Shapes.{IsLive, IsMesh};

use crate::dcel::Dcel;
use dcel_edits::outside::{put_beside, put_closing};
use dcel_fixed::{FixedDirectedEdgeHandle, FixedVertexHandle};
use std::alloc::{AllocError, Allocator};

/// Adds a triangle beside `edge`, with `new_vertex` as its third corner, and returns `new_vertex`.
///
/// The triangle is on the side of `edge`, whose old face now goes around it.
///
/// ```text
/// before                        after  new_vertex
///                                         / \
///            f                    n + 2  /   \  n        L    (edge, n, n + 2)
///        a -----> b                     /  L  \          f    (.., n + 3, n + 1, ..)
///          edge                        a -----> b
///                                        edge
/// ```
///
/// Asks that `edge` is live ([`is_live_edge`](Dcel::is_live_edge)), that no edge meets `new_vertex`
/// ([`is_unconnected`](Dcel::is_unconnected)), and for room for two edges and one face
/// ([`has_room`](Dcel::has_room)). If memory runs out it returns `AllocError`, and the mesh is as
/// it was.
pub fn create_new_face_adjacent_to_edge<V, DE: Default, UE: Default, F: Default, A: Allocator>(
    dcel: &mut Dcel<V, DE, UE, F, A>,
    edge: FixedDirectedEdgeHandle,
    new_vertex: FixedVertexHandle,
) -> Result<FixedVertexHandle, AllocError>
    requires live { IsLive dcel.old.shape edge }
    requires unconnected { IsUnconnected dcel.old.shape new_vertex }
    requires room { HasRoom dcel.old.shape 0 2 1 }
    ensures edit { OnOk result (AddsEdgesAndFaces DE.is_default UE.is_default F.is_default 2 1 dcel.new (face_put_beside dcel.old edge new_vertex)) }
    ensures edits { OnOk result (EditedBy (spur_added ∷ ear_cut ∷ []) dcel.old dcel.new) }
    ensures answer { IfOk result (λ vertex. vertex ≡ new_vertex) }
    ensures refused { OnErr result (dcel.new ≡ dcel.old) }
    ensures mesh { IsMesh dcel.new }
{
    dcel.store.reserve(0, 2, 1)?;
    put_beside(&mut dcel.store, edge, new_vertex);
    Ok(new_vertex)
}

/// Closes a triangle between a half edge of the outer face and the next one.
///
/// It returns the outer half of the new edge, which leads from the start of `edge` to the end of
/// the next one.
///
/// ```text
/// before     outer face         after     outer face
///                                           n + 1
///         a           c                 a -----------> c
///          \         /                   \  L, with n /
///      edge \       / next           edge  \         /  next
///            \> b > /                       \> b > /
/// ```
///
/// Asks that `edge` is live and on the outer face and that the next one does not end where `edge`
/// starts ([`can_close_outside`](Dcel::can_close_outside)), and for room for one edge and one face
/// ([`has_room`](Dcel::has_room)). If memory runs out it returns `AllocError`, and the mesh is as
/// it was.
pub fn create_single_face_between_edge_and_next<
    V,
    DE: Default,
    UE: Default,
    F: Default,
    A: Allocator,
>(
    dcel: &mut Dcel<V, DE, UE, F, A>,
    edge: FixedDirectedEdgeHandle,
) -> Result<FixedDirectedEdgeHandle, AllocError>
    requires can_close { CanCloseOutside dcel.old.shape edge }
    requires room { HasRoom dcel.old.shape 0 1 1 }
    ensures edit { OnOk result (AddsEdgesAndFaces DE.is_default UE.is_default F.is_default 1 1 dcel.new (face_closed dcel.old edge)) }
    ensures edits { OnOk result (EditedBy (ear_cut ∷ []) dcel.old dcel.new) }
    ensures answer { IfOk result (λ outer. outer ≡ 2 * dcel.old.shape.edges + 1) }
    ensures refused { OnErr result (dcel.new ≡ dcel.old) }
    ensures mesh { IsMesh dcel.new }
{
    dcel.store.reserve(0, 1, 1)?;
    Ok(put_closing(&mut dcel.store, edge))
}
