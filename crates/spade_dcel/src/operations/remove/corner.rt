//! Removing a corner of the outer face.

ghost use Rattle.std.specs.Prelude.{◌≡◌, ◌-◌, ◌<◌, ◌==◌, cond, length, IfOk, OnErr, OnOk, slice_get, Some, None};
ghost use Rattle.dcel_maps.specs.EditLists.{EditedBy, vertex_cut_off};
ghost use Rattle.dcel_maps.specs.edits.Strip.{strip_cut, strip_edges};
ghost use Rattle.dcel_maps.specs.Removals.{Closed, ascending};
ghost use Rattle.dcel_maps.specs.Renumbering.{cleaned_up, vertex_taken_out};
ghost use Rattle.dcel_maps.specs.Shapes.{IsMesh};
ghost use Rattle.dcel_maps.specs.Strips.{IsEdgeStrip};
ghost use Rattle.spade_dcel.specs.Corners.{corner_of};

use crate::dcel::Dcel;
use crate::laws::every_mesh;
use crate::operations::strip::disconnect;
use crate::operations::{CornerRemovalResult, cleanup_isolated_vertex, swap_remove_vertex};
use dcel_fixed::{FixedDirectedEdgeHandle, FixedVertexHandle};
use std::alloc::{AllocError, Allocator};

/// Removes a vertex of the outer face, with its edges and the triangles around it. Returns its
/// datum, and which edges are gone.
///
/// ```text
/// before   outer face           after   outer face
/// .. p ----- v ----- q ..       .. p             q ..
///     \     / \     /               \           /
///      \   /   \   /                 \         /
///       \ /     \ /                   \       /
///        r ----- s                     r --- s
/// ```
///
/// It does what [`disconnect_edge_strip`](crate::operations::disconnect_edge_strip),
/// [`cleanup_isolated_vertex`](crate::operations::cleanup_isolated_vertex) and
/// [`swap_remove_vertex`](crate::operations::swap_remove_vertex) do one after another, and leaves
/// the same numbers and anchors. But it leaves no removal open, and the list stays with the caller.
/// The last edges, faces and vertex get the numbers that are free, unless they go themselves.
///
/// Asks that no removal is open and that the list is the strip of the vertex
/// ([`can_disconnect_edge_strip`](Dcel::can_disconnect_edge_strip)). If memory runs out it returns
/// `AllocError`, and the mesh is as it was.
pub fn cut_off_corner<V, DE: Drop, UE: Drop, F: Drop, A: Allocator + Clone>(
    dcel: &mut Dcel<V, DE, UE, F, A>,
    strip: &[FixedDirectedEdgeHandle],
) -> Result<CornerRemovalResult<V, A>, AllocError>
    requires closed { dcel.old.shape.removal ≡ Closed }
    requires strip { IsEdgeStrip dcel.old.shape strip.now }
    ensures edit { OnOk result (dcel.new ≡ vertex_taken_out (cleaned_up (strip_cut dcel.old strip.now)) (corner_of dcel.old.shape strip.now)) }
    ensures edits { OnOk result (EditedBy (vertex_cut_off (length strip.now)) dcel.old dcel.new) }
    ensures datum { IfOk result (λ removed. slice_get dcel.old.vertex_data (corner_of dcel.old.shape strip.now) ≡ Some removed.removed_vertex) }
    ensures moved { IfOk result (λ removed. removed.swapped_in_vertex
        ≡ cond (corner_of dcel.old.shape strip.now == dcel.old.shape.vertices - 1) None (Some (dcel.old.shape.vertices - 1))) }
    ensures edges { IfOk result (λ removed. removed.removed_edges.items ≡ ascending (strip_edges dcel.old.shape strip.now)) }
    ensures refused { OnErr result (dcel.new ≡ dcel.old) }
    ensures mesh { IsMesh dcel.new }
{
    every_mesh(dcel);
    let vertex = corner(dcel, strip);
    let mut opened = disconnect(dcel, strip)?;
    cleanup_isolated_vertex(dcel, &mut opened);
    let removed = swap_remove_vertex(dcel, vertex);
    Ok(CornerRemovalResult {
        removed_vertex: removed.removed_vertex,
        swapped_in_vertex: removed.swapped_in_vertex,
        removed_edges: opened.edges_to_remove,
    })
}

// Returns the vertex that a strip is around.
fn corner<V, DE, UE, F, A: Allocator>(
    dcel: &Dcel<V, DE, UE, F, A>,
    strip: &[FixedDirectedEdgeHandle],
) -> FixedVertexHandle
    requires closed { dcel.now.shape.removal ≡ Closed }
    requires strip { IsEdgeStrip dcel.now.shape strip.now }
    ensures { result ≡ corner_of dcel.now.shape strip.now }
{
    every_mesh(dcel);
    let Some((&last, _others)) = strip.split_last() else {
        unreachable!()
    };
    dcel.origin(dcel.prev_edge(last))
}
