//! Taking out a vertex without edges.

ghost use Rattle.std.specs.Prelude.{◌≡◌, ◌-◌, ◌==◌, ◌∷◌, [], cond, slice_get, Some, None};
ghost use Rattle.dcel_maps.specs.Conditions.{CanSwapRemove};
ghost use Rattle.dcel_maps.specs.EditLists.{EditedBy};
ghost use Rattle.dcel_maps.specs.EditLists.EditKind.{numbers_changed};
ghost use Rattle.dcel_maps.specs.Renumbering.{vertex_taken_out};
ghost use Rattle.dcel_maps.specs.Shapes.{IsMesh};

use crate::dcel::Dcel;
use crate::operations::RemovalResult;
use dcel_edits::removal::take_out::take_out_vertex;
use dcel_fixed::FixedVertexHandle;
use std::alloc::Allocator;

/// Takes out a vertex that has no edge, and returns its datum.
///
/// This is a swap-remove: the last vertex gets its number, and keeps its datum, its anchor and its
/// out edges; the result says whether one was moved. No removal is open afterwards.
///
/// ```text
/// before                        after
/// vertex       last ---> ..     vertex ---> ..
/// ```
///
/// Asks that no removal is open and no edge meets the vertex, or that the vertex is the one that a
/// removal gave up and the removal is cleaned up ([`can_swap_remove`](Dcel::can_swap_remove)).
pub fn swap_remove_vertex<V, DE, UE, F, A: Allocator>(
    dcel: &mut Dcel<V, DE, UE, F, A>,
    vertex: FixedVertexHandle,
) -> RemovalResult<V>
    requires { CanSwapRemove dcel.old.shape vertex }
    ensures edit { dcel.new ≡ vertex_taken_out dcel.old vertex }
    ensures edits { EditedBy (numbers_changed ∷ []) dcel.old dcel.new }
    ensures datum { slice_get dcel.old.vertex_data vertex ≡ Some result.removed_vertex }
    ensures moved { result.swapped_in_vertex
        ≡ cond (vertex == dcel.old.shape.vertices - 1) None (Some (dcel.old.shape.vertices - 1)) }
    ensures mesh { IsMesh dcel.new }
{
    let last = FixedVertexHandle::new(dcel.num_vertices() - 1);
    let removed_vertex = take_out_vertex(&mut dcel.store, vertex);
    dcel.removal.close();
    RemovalResult::of(removed_vertex, vertex, last)
}
