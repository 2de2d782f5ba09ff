//! Splitting an edge that has a triangle on one side or on both; each is cut in two.

ghost use Rattle.std.specs.Prelude.{◌≡◌, ◌+◌, ◌*◌, [], ◌∷◌, IfOk, OnErr, OnOk};
ghost use Rattle.dcel_fixed.specs.HalfEdges.{rev};
ghost use Rattle.dcel_maps.specs.Conditions.{HasRoom, IsTriangle, IsUnconnected};
ghost use Rattle.dcel_maps.specs.EditLists.{EditedBy};
ghost use Rattle.dcel_maps.specs.EditLists.EditKind.{ear_cut, edge_subdivided};
ghost use Rattle.dcel_maps.specs.edits.DefaultData.{AddsEdgesAndFaces};
ghost use Rattle.dcel_maps.specs.edits.Split.{edge_split, half_edge_split};
ghost use Rattle.dcel_maps.specs.Shapes.{IsLive, IsMesh, face_of};

use crate::dcel::Dcel;
use dcel_edits::split_triangles::{put_middle_of_both, put_middle_of_one};
use dcel_fixed::{FixedDirectedEdgeHandle, FixedVertexHandle};
use std::alloc::{AllocError, Allocator};

/// Splits an edge between two triangles, and returns the two half edges along `edge`.
///
/// The first is `edge`, which now ends at `new_vertex`; the second is new and leads from there to
/// the old end of `edge`. Two more edges join `new_vertex`, `v` in the picture, to the opposite
/// corners and cut both triangles in two. Either triangle may be the outer face.
///
/// ```text
/// before     c                  after      c
///           / \                           /|\            f        (edge, n + 5, c to a)
///          / f \                         / | \           L + 1    (b to c, n + 4, n + 3)
///         a ---> b                      a - v - b
///          \ g /  edge                   \ | /           g        (t, a to d, n)
///           \ /                           \|/            L        (d to b, n + 2, n + 1)
///            d                             d
/// ```
///
/// Asks that the half edge is live ([`is_live_edge`](Dcel::is_live_edge)), that the faces of both
/// halves are triangles ([`is_triangle`](Dcel::is_triangle)), that no edge meets `new_vertex`
/// ([`is_unconnected`](Dcel::is_unconnected)), and for room for three edges and two faces
/// ([`has_room`](Dcel::has_room)). If memory runs out it returns `AllocError`, and the mesh is as
/// it was.
pub fn split_edge<V, DE: Default, UE: Default, F: Default, A: Allocator>(
    dcel: &mut Dcel<V, DE, UE, F, A>,
    edge: FixedDirectedEdgeHandle,
    new_vertex: FixedVertexHandle,
) -> Result<[FixedDirectedEdgeHandle; 2], AllocError>
    requires live { IsLive dcel.old.shape edge }
    requires triangle { IsTriangle dcel.old.shape (face_of dcel.old.shape edge) }
    requires facing { IsTriangle dcel.old.shape (face_of dcel.old.shape (rev edge)) }
    requires unconnected { IsUnconnected dcel.old.shape new_vertex }
    requires room { HasRoom dcel.old.shape 0 3 2 }
    ensures edit { OnOk result (AddsEdgesAndFaces DE.is_default UE.is_default F.is_default 3 2 dcel.new (edge_split dcel.old edge new_vertex)) }
    ensures edits { OnOk result (EditedBy (edge_subdivided ∷ ear_cut ∷ ear_cut ∷ []) dcel.old dcel.new) }
    ensures answer { IfOk result (λ halves. halves ≡ edge ∷ (2 * dcel.old.shape.edges + 3) ∷ []) }
    ensures refused { OnErr result (dcel.new ≡ dcel.old) }
    ensures mesh { IsMesh dcel.new }
{
    dcel.store.reserve(0, 3, 2)?;
    let second_half = put_middle_of_both(&mut dcel.store, edge, new_vertex);
    Ok([edge, second_half])
}

/// Splits an edge that has a triangle on the side of `edge`.
///
/// It returns the two half edges along the old one: the first is `edge`, which now ends at
/// `new_vertex`; the second is new and leads from there to the old end of `edge`. One more edge
/// joins `new_vertex`, `v` in the picture, to the opposite corner and cuts the triangle in two; the
/// triangle may be the outer face. The face on the other side gets one more half edge.
///
/// ```text
/// before     c                  after      c
///           / \                           /|\            f    (edge, n + 1, c to a)
///          / f \                         / | \           L    (b to c, n, n + 2)
///         a ---> b                      a > v > b
///           edge                      edge   n + 2       below: n + 3, t in place of t
/// ```
///
/// Asks that the half edge is live ([`is_live_edge`](Dcel::is_live_edge)), that its face is a
/// triangle ([`is_triangle`](Dcel::is_triangle)), that no edge meets `new_vertex`
/// ([`is_unconnected`](Dcel::is_unconnected)), and for room for two edges and one face
/// ([`has_room`](Dcel::has_room)). If memory runs out it returns `AllocError`, and the mesh is as
/// it was.
pub fn split_half_edge<V, DE: Default, UE: Default, F: Default, A: Allocator>(
    dcel: &mut Dcel<V, DE, UE, F, A>,
    edge: FixedDirectedEdgeHandle,
    new_vertex: FixedVertexHandle,
) -> Result<[FixedDirectedEdgeHandle; 2], AllocError>
    requires live { IsLive dcel.old.shape edge }
    requires triangle { IsTriangle dcel.old.shape (face_of dcel.old.shape edge) }
    requires unconnected { IsUnconnected dcel.old.shape new_vertex }
    requires room { HasRoom dcel.old.shape 0 2 1 }
    ensures edit { OnOk result (AddsEdgesAndFaces DE.is_default UE.is_default F.is_default 2 1 dcel.new (half_edge_split dcel.old edge new_vertex)) }
    ensures edits { OnOk result (EditedBy (edge_subdivided ∷ ear_cut ∷ []) dcel.old dcel.new) }
    ensures answer { IfOk result (λ halves. halves ≡ edge ∷ (2 * dcel.old.shape.edges + 2) ∷ []) }
    ensures refused { OnErr result (dcel.new ≡ dcel.old) }
    ensures mesh { IsMesh dcel.new }
{
    dcel.store.reserve(0, 2, 1)?;
    let second_half = put_middle_of_one(&mut dcel.store, edge, new_vertex);
    Ok([edge, second_half])
}
