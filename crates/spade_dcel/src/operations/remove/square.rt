//! Removing a vertex that is inside a square.

ghost use Rattle.std.specs.Prelude.{◌≡◌, ◌-◌, ◌/◌, ◌<◌, ◌==◌, ◌∷◌, ◌++◌, [], cond, length, IfOk, OnErr, OnOk, slice_get, Some, None};
ghost use Rattle.dcel_maps.specs.Borders.{IsBorderLoop};
ghost use Rattle.dcel_maps.specs.Conditions.{HasRoom};
ghost use Rattle.dcel_maps.specs.EditLists.{EditedBy, vertex_cut_off};
ghost use Rattle.dcel_maps.specs.EditLists.EditKind.{ear_cut, numbers_changed};
ghost use Rattle.dcel_maps.specs.edits.Fill.{FillsHole, edges_at, hole_filled};
ghost use Rattle.dcel_maps.specs.Removals.{Closed, ascending};
ghost use Rattle.dcel_maps.specs.Renumbering.{cleaned_up, vertex_taken_out};
ghost use Rattle.dcel_maps.specs.Shapes.{IsLive, IsMesh, face_of};
ghost use Rattle.dcel_maps.specs.Walking.{out_edges_of};

use crate::dcel::Dcel;
use crate::laws::every_mesh;
use crate::operations::remove::fill_and_take_out;
use crate::operations::remove::order::four_in_order;
use crate::operations::{RemovalResult, SquareRemovalResult};
use dcel_fixed::{
    FixedDirectedEdgeHandle, FixedFaceHandle, FixedUndirectedEdgeHandle, FixedVertexHandle,
    InnerTag,
};
use std::alloc::{AllocError, Allocator};

/// Removes a vertex with four edges, between four inner triangles, which become two triangles.
/// Returns the datum of the vertex, and which edges are gone.
///
/// ```text
/// before      c                 after       c
///           / | \                         / | \
///          d -v- b                       d  |  b
///           \ | /                         \ | /
///             a                             a
/// ```
///
/// The new edge starts where the last half edge of `border_loop` starts, at `a` in the picture. For
/// the diagonal from `b` to `d` let the border loop begin one half edge later.
///
/// It does what [`isolate_vertex_and_fill_hole`](crate::operations::isolate_vertex_and_fill_hole),
/// [`cleanup_isolated_vertex`](crate::operations::cleanup_isolated_vertex) and
/// [`swap_remove_vertex`](crate::operations::swap_remove_vertex) do one after another, and leaves
/// the same numbers and anchors. But it opens no removal and makes no lists, so it is faster. The
/// new edge, the new triangles, and the last three edges, two faces and vertex get the numbers that
/// are free, unless they go themselves. The edge and the triangles have default data.
///
/// Asks that no removal is open, that the list is the border loop of the vertex
/// ([`is_border_loop`](Dcel::is_border_loop)) and has four half edges
/// ([`can_remove_from_square`](Dcel::can_remove_from_square)), and for room for the new edge and
/// faces ([`has_room_for`](Dcel::has_room_for)). If memory runs out it returns `AllocError`, and
/// the mesh is as it was.
pub fn remove_from_square<
    V,
    DE: Default + Drop,
    UE: Default + Drop,
    F: Default + Drop,
    A: Allocator,
>(
    dcel: &mut Dcel<V, DE, UE, F, A>,
    border_loop: &[FixedDirectedEdgeHandle],
    vertex: FixedVertexHandle,
) -> Result<SquareRemovalResult<V>, AllocError>
    requires closed { dcel.old.shape.removal ≡ Closed }
    requires border { IsBorderLoop dcel.old.shape border_loop.now vertex }
    requires four { length border_loop.now ≡ 4 }
    requires room { HasRoom dcel.old.shape 0 1 2 }
    ensures edit { OnOk result (FillsHole DE.is_default UE.is_default F.is_default border_loop.now dcel.new
        (λ halves edges faces. vertex_taken_out (cleaned_up (hole_filled dcel.old vertex border_loop.now halves edges faces)) vertex)) }
    ensures edits { OnOk result (EditedBy (vertex_cut_off 4 ++ ear_cut ∷ numbers_changed ∷ []) dcel.old dcel.new) }
    ensures datum { IfOk result (λ removed. slice_get dcel.old.vertex_data vertex ≡ Some removed.removed_vertex) }
    ensures moved { IfOk result (λ removed. removed.swapped_in_vertex
        ≡ cond (vertex == dcel.old.shape.vertices - 1) None (Some (dcel.old.shape.vertices - 1))) }
    ensures edges { IfOk result (λ removed. removed.removed_edges ≡ ascending (edges_at dcel.old vertex)) }
    ensures refused { OnErr result (dcel.new ≡ dcel.old) }
    ensures mesh { IsMesh dcel.new }
{
    every_mesh(dcel);
    let last = FixedVertexHandle::new(dcel.num_vertices() - 1);
    let (first, second, third, fourth) = four_spokes(dcel, vertex);
    let edges = edges_in_order(first, second, third, fourth);
    let faces = faces_in_order(dcel, first, second, third, fourth);
    let removed_vertex = fill_and_take_out(dcel, border_loop, vertex, &edges, &faces)?;
    let removed = RemovalResult::of(removed_vertex, vertex, last);
    Ok(SquareRemovalResult {
        removed_vertex: removed.removed_vertex,
        swapped_in_vertex: removed.swapped_in_vertex,
        removed_edges: edges,
    })
}

// Returns the out edges of a vertex that has four, from its anchor on.
#[inline]
fn four_spokes<V, DE, UE, F, A: Allocator>(
    dcel: &Dcel<V, DE, UE, F, A>,
    vertex: FixedVertexHandle,
) -> (
    FixedDirectedEdgeHandle,
    FixedDirectedEdgeHandle,
    FixedDirectedEdgeHandle,
    FixedDirectedEdgeHandle,
)
    requires below { vertex < dcel.now.shape.vertices }
    requires four { length (out_edges_of dcel.now vertex) ≡ 4 }
    ensures { out_edges_of dcel.now vertex ≡ result.0 ∷ result.1 ∷ result.2 ∷ result.3 ∷ [] }
{
    every_mesh(dcel);
    let Some(first) = dcel.store.vertex_anchor(vertex) else {
        unreachable!()
    };
    let second = dcel.prev_edge(first).rev();
    let third = dcel.prev_edge(second).rev();
    let fourth = dcel.prev_edge(third).rev();
    (first, second, third, fourth)
}

// Returns the edges of the spokes in ascending order.
#[inline]
fn edges_in_order(
    first: FixedDirectedEdgeHandle,
    second: FixedDirectedEdgeHandle,
    third: FixedDirectedEdgeHandle,
    fourth: FixedDirectedEdgeHandle,
) -> [FixedUndirectedEdgeHandle; 4]
    ensures { result ≡ ascending (first / 2 ∷ second / 2 ∷ third / 2 ∷ fourth / 2 ∷ []) }
{
    four_in_order(
        first.as_undirected(),
        second.as_undirected(),
        third.as_undirected(),
        fourth.as_undirected(),
    )
}

// Returns the faces of the spokes in ascending order.
#[inline]
fn faces_in_order<V, DE, UE, F, A: Allocator>(
    dcel: &Dcel<V, DE, UE, F, A>,
    first: FixedDirectedEdgeHandle,
    second: FixedDirectedEdgeHandle,
    third: FixedDirectedEdgeHandle,
    fourth: FixedDirectedEdgeHandle,
) -> [FixedFaceHandle<InnerTag>; 4]
    requires first { IsLive dcel.now.shape first }
    requires second { IsLive dcel.now.shape second }
    requires third { IsLive dcel.now.shape third }
    requires fourth { IsLive dcel.now.shape fourth }
    ensures { let face = face_of dcel.now.shape in
        result ≡ ascending (face first ∷ face second ∷ face third ∷ face fourth ∷ []) }
{
    four_in_order(
        dcel.face_of_edge(first).adjust_inner_outer(),
        dcel.face_of_edge(second).adjust_inner_outer(),
        dcel.face_of_edge(third).adjust_inner_outer(),
        dcel.face_of_edge(fourth).adjust_inner_outer(),
    )
}
