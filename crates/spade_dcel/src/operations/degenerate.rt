//! Removing a vertex of a degenerate mesh: the only vertex, or one of a path.

ghost use Rattle.std.specs.Prelude.{◌≡◌, ◌-◌, ◌==◌, cond, slice_get, Some, None};
ghost use Rattle.dcel_maps.specs.Degenerate.{CanRemoveDegenerate};
ghost use Rattle.dcel_maps.specs.EditLists.{EditedBy, path_shortened};
ghost use Rattle.dcel_maps.specs.edits.Degenerate.{removed_degenerate};
ghost use Rattle.dcel_maps.specs.Shapes.{IsMesh};

use crate::dcel::Dcel;
use crate::operations::RemovalResult;
use dcel_edits::removal::degenerate::take_out_degenerate;
use dcel_fixed::FixedVertexHandle;
use std::alloc::Allocator;

/// Removes a vertex of a mesh that is a single vertex or a path, and returns its datum.
///
/// A vertex at an end goes with its edge. A vertex between two others goes with one of its edges,
/// that of the half edge that is `ccw` of its anchor; its other edge then joins the two neighbors.
///
/// ```text
/// before                        after
/// v ---- b ---- ..              b ---- ..
///
/// before                        after
/// .. a ---- v ---- b ..         .. a ---- b ..
/// ```
///
/// An anchor on the edge that goes is replaced: by None if there were two vertices; if the vertex
/// was an end, by the half edge after the one that starts there; otherwise by the anchor of the
/// vertex. The last edge and the last vertex get the numbers that become free; the result says
/// which vertex moved.
///
/// Asks that the vertex is one of such a mesh and that no removal is open
/// ([`can_remove_degenerate`](Dcel::can_remove_degenerate)).
pub fn remove_when_degenerate<V, DE: Drop, UE: Drop, F, A: Allocator>(
    dcel: &mut Dcel<V, DE, UE, F, A>,
    vertex: FixedVertexHandle,
) -> RemovalResult<V>
    requires { CanRemoveDegenerate dcel.old.shape vertex }
    ensures edit { dcel.new ≡ removed_degenerate dcel.old vertex }
    ensures edits { EditedBy (path_shortened dcel.old vertex) dcel.old dcel.new }
    ensures datum { slice_get dcel.old.vertex_data vertex ≡ Some result.removed_vertex }
    ensures moved { result.swapped_in_vertex
        ≡ cond (vertex == dcel.old.shape.vertices - 1) None (Some (dcel.old.shape.vertices - 1)) }
    ensures mesh { IsMesh dcel.new }
{
    let last = FixedVertexHandle::new(dcel.num_vertices() - 1);
    let removed_vertex = take_out_degenerate(&mut dcel.store, vertex);
    RemovalResult::of(removed_vertex, vertex, last)
}
