//! Splitting edges that have the same face on both sides.

ghost use Rattle.std.specs.Prelude.{◌≡◌, ◌*◌, length};
ghost use Rattle.dcel_maps.specs.edits.DefaultData.{AddsEdge};
ghost use Rattle.dcel_edits.specs.Split.{CanSplit, middle_stored, substitute};

use crate::links::links;
use dcel_fixed::{FixedDirectedEdgeHandle, FixedVertexHandle};
use dcel_store::{EdgeData, Store};
use std::alloc::Allocator;

/// Splits an edge whose halves are on one face at the vertex `middle`.
///
/// Afterwards `edge` ends there. It returns the half edge that leads on to the old end of `edge`.
pub fn put_middle<V, DE: Default, UE: Default, F, A: Allocator>(
    store: &mut Store<V, DE, UE, F, A>,
    edge: FixedDirectedEdgeHandle,
    middle: FixedVertexHandle,
) -> FixedDirectedEdgeHandle
    requires { CanSplit store.old edge middle }
    ensures stored { AddsEdge DE.is_default UE.is_default store.new (middle_stored store.old edge middle) }
    ensures answer { result ≡ 2 * length store.old.undirected_data }
{
    let twin = edge.rev();
    let after = store.next(edge);
    let before = store.prev(twin);
    let end = store.origin(twin);
    let face = store.face(edge);
    let new_edge = FixedDirectedEdgeHandle::new_normalized(store.num_edges());
    let new_twin = new_edge.rev();
    // At a tip `before` is `edge` and `after` is `twin`, and the second write to a link counts.
    store.set_next(before, new_twin);
    store.set_next(edge, new_edge);
    store.set_prev(after, new_edge);
    store.set_prev(twin, new_twin);
    store.set_origin(twin, middle);
    store.push_edge(
        links(substitute(after, twin, new_twin), edge, face, middle),
        links(twin, substitute(before, edge, new_edge), face, end),
        EdgeData::default(),
    );
    store.set_vertex_anchor(end, Some(new_twin));
    store.set_vertex_anchor(middle, Some(new_edge));
    new_edge
}

// Returns `edge`, or `new` if it is `old`.
fn substitute(
    edge: FixedDirectedEdgeHandle,
    old: FixedDirectedEdgeHandle,
    new: FixedDirectedEdgeHandle,
) -> FixedDirectedEdgeHandle
    ensures { result ≡ substitute old new edge }
{
    if edge == old { new } else { edge }
}
