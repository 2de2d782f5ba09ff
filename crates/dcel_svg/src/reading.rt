//! Half edges as they are drawn.

ghost use Rattle.std.specs.Prelude.{IfSome};
ghost use Rattle.spade_dcel.specs.Handles.{mesh_behind, number_of};
ghost use Rattle.dcel_maps.specs.Shapes.{IsLive};

use spade_dcel::dcel::Dcel;
use spade_dcel::handles::{DirectedEdgeHandle, FixedDirectedEdgeHandle};
use std::alloc::Allocator;

/// Returns a handle to a half edge as it is drawn: where it lies, or, if it is given up, where it
/// lay before.
pub(crate) fn drawn<'a, V, DE, UE, F, A: Allocator>(
    mesh: &'a Dcel<V, DE, UE, F, A>,
    before: Option<&'a Dcel<V, DE, UE, F, A>>,
    edge: FixedDirectedEdgeHandle,
) -> Option<DirectedEdgeHandle<'a, V, DE, UE, F, A>>
    ensures live { IfSome result (λ found. IsLive (mesh_behind found).shape (number_of found)) }
{
    match mesh.get_directed_edge(edge) {
        Some(found) => Some(found),
        None => before?.get_directed_edge(edge),
    }
}
