//! Cutting off a vertex of the outer face, with its edges and the triangles around it.

ghost use Rattle.std.specs.Prelude.{◌≡◌, ◌<◌, [], ◌∷◌, ◌++◌, length, ℕ, IfOk, OnErr, OnOk, map};
ghost use Rattle.dcel_maps.specs.EditLists.{EditedBy, vertex_cut_off};
ghost use Rattle.dcel_maps.specs.edits.Strip.{strip_cut, strip_edges, strip_faces};
ghost use Rattle.dcel_maps.specs.Removals.{Closed};
ghost use Rattle.dcel_maps.specs.Shapes.{IsLive, IsMesh, face_of};
ghost use Rattle.dcel_maps.specs.Strips.{IsEdgeStrip};
ghost use Rattle.dcel_maps.specs.Words.{count_of};
ghost use Rattle.spade_dcel.specs.Opened.{HasOpened};

use crate::dcel::Dcel;
use crate::laws::every_mesh;
use crate::operations::IsolateVertexResult;
use dcel_edits::strip::put_strip_cut;
use dcel_fixed::{FixedDirectedEdgeHandle, FixedFaceHandle, FixedUndirectedEdgeHandle, InnerTag};
use std::alloc::{AllocError, Allocator};

/// Cuts off a vertex of the outer face, with its edges and the triangles around it.
///
/// They are given up; the vertex is `v` in the picture. The boundary cycle of the outer face then
/// runs along the strip. The list has `p to r`, `r to s`, `s to q` and then the half edge that
/// leads on from `q`.
///
/// ```text
/// before   outer face           after   outer face
/// .. p ----- v ----- q ..       .. p             q ..
///     \     / \     /               \           /
///      \   /   \   /                 \         /
///       \ /     \ /                   \       /
///        r ----- s                     r --- s
/// ```
///
/// Each half edge of the list becomes the anchor of its origin, one after another, and the last one
/// becomes the anchor of the outer face. The result has, in the order of the list, the edge of the
/// half edge before each item and the face of each item but the last, and no new edge. What is
/// given up is still stored: [`cleanup_isolated_vertex`](super::cleanup_isolated_vertex) takes out
/// the edges and faces, and then [`swap_remove_vertex`](super::swap_remove_vertex) the vertex.
///
/// Asks that no removal is open ([`removal_state`](Dcel::removal_state)) and that the list is a
/// strip ([`is_edge_strip`](Dcel::is_edge_strip)). If memory runs out it returns `AllocError`, the
/// list is dropped, and the mesh is as it was.
pub fn disconnect_edge_strip<V, DE, UE, F, A: Allocator + Clone, B: Allocator>(
    dcel: &mut Dcel<V, DE, UE, F, A>,
    list: Vec<FixedDirectedEdgeHandle, B>,
) -> Result<IsolateVertexResult<A>, AllocError>
    requires closed { dcel.old.shape.removal ≡ Closed }
    requires strip { IsEdgeStrip dcel.old.shape list.items }
    ensures edit { OnOk result (dcel.new ≡ strip_cut dcel.old list.items) }
    ensures edits { OnOk result (EditedBy (vertex_cut_off (length list.items)) dcel.old dcel.new) }
    ensures answer { IfOk result (HasOpened (strip_edges dcel.old.shape list.items) (strip_faces dcel.old.shape list.items) [] 0) }
    ensures refused { OnErr result (dcel.new ≡ dcel.old) }
    ensures mesh { IsMesh dcel.new }
{
    disconnect(dcel, &list)
}

// Cuts off the vertex whose strip this is.
pub(super) fn disconnect<V, DE, UE, F, A: Allocator + Clone>(
    dcel: &mut Dcel<V, DE, UE, F, A>,
    list: &[FixedDirectedEdgeHandle],
) -> Result<IsolateVertexResult<A>, AllocError>
    requires closed { dcel.old.shape.removal ≡ Closed }
    requires strip { IsEdgeStrip dcel.old.shape list.now }
    ensures edit { OnOk result (dcel.new ≡ strip_cut dcel.old list.now) }
    ensures edits { OnOk result (EditedBy (vertex_cut_off (length list.now)) dcel.old dcel.new) }
    ensures answer { IfOk result (HasOpened (strip_edges dcel.old.shape list.now) (strip_faces dcel.old.shape list.now) [] 0) }
    ensures refused { OnErr result (dcel.new ≡ dcel.old) }
    ensures mesh { IsMesh dcel.new }
{
    every_mesh(dcel);
    let Some((&last, others)) = list.split_last() else {
        unreachable!()
    };
    let edges_to_remove = edges_before(dcel, list)?;
    let faces_to_remove = faces_beside(dcel, others)?;
    let new_edges = Vec::new(dcel.allocator().clone()?);
    cut(dcel, others, last, &edges_to_remove, &faces_to_remove)?;
    Ok(IsolateVertexResult {
        new_edges,
        smallest_new_edge: FixedUndirectedEdgeHandle::new(0),
        edges_to_remove,
        faces_to_remove,
    })
}

// Records first, since that alone can be refused, and then writes.
fn cut<V, DE, UE, F, A: Allocator>(
    dcel: &mut Dcel<V, DE, UE, F, A>,
    items: &[FixedDirectedEdgeHandle],
    last: FixedDirectedEdgeHandle,
    edges: &[FixedUndirectedEdgeHandle],
    faces: &[FixedFaceHandle<InnerTag>],
) -> Result<(), AllocError>
    requires closed { dcel.old.shape.removal ≡ Closed }
    requires strip { IsEdgeStrip dcel.old.shape (items.now ++ last ∷ []) }
    requires edges { edges.now ≡ strip_edges dcel.old.shape (items.now ++ last ∷ []) }
    requires faces { faces.now ≡ strip_faces dcel.old.shape (items.now ++ last ∷ []) }
    ensures edit { OnOk result (dcel.new ≡ strip_cut dcel.old (items.now ++ last ∷ [])) }
    ensures refused { OnErr result (dcel.new ≡ dcel.old) }
    ensures mesh { IsMesh dcel.new }
{
    every_mesh(dcel);
    let vertex = dcel.origin(dcel.prev_edge(last));
    dcel.removal.open(edges, faces, &Some(vertex))?;
    put_strip_cut(&mut dcel.store, items, last);
    Ok(())
}

// Lists the edge of the half edge before each of these: the spokes of a strip.
fn edges_before<V, DE, UE, F, A: Allocator + Clone>(
    dcel: &Dcel<V, DE, UE, F, A>,
    list: &[FixedDirectedEdgeHandle],
) -> Result<Vec<FixedUndirectedEdgeHandle, A>, AllocError>
    requires { (edge : ℕ) → 0 < count_of edge list.now → IsLive dcel.now.shape edge }
    ensures { IfOk result (λ edges. edges.items ≡ strip_edges dcel.now.shape list.now) }
{
    let mut edges = Vec::with_capacity(dcel.allocator().clone()?, list.len())?;
    let mut left = list;
    while let Some((&edge, after)) = left.split_first() {
        edges.push(dcel.prev_edge(edge).as_undirected())?;
        left = after;
    }
    Ok(edges)
}

// Lists the face of each of these half edges.
fn faces_beside<V, DE, UE, F, A: Allocator + Clone>(
    dcel: &Dcel<V, DE, UE, F, A>,
    list: &[FixedDirectedEdgeHandle],
) -> Result<Vec<FixedFaceHandle<InnerTag>, A>, AllocError>
    requires { (edge : ℕ) → 0 < count_of edge list.now → IsLive dcel.now.shape edge }
    ensures { IfOk result (λ faces. faces.items ≡ map (face_of dcel.now.shape) list.now) }
{
    let mut faces = Vec::with_capacity(dcel.allocator().clone()?, list.len())?;
    let mut left = list;
    while let Some((&edge, after)) = left.split_first() {
        faces.push(dcel.face_of_edge(edge).adjust_inner_outer())?;
        left = after;
    }
    Ok(faces)
}
