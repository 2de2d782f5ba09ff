//! Adding spurs: edges to a vertex that had no edge.

ghost use Rattle.dcel_maps.specs.edits.DefaultData.{AddsEdge};
ghost use Rattle.dcel_edits.specs.Line.{spur_stored, CanSpur};

use crate::links::links;
use dcel_fixed::{FixedDirectedEdgeHandle, FixedVertexHandle};
use dcel_store::{EdgeData, Store};
use std::alloc::Allocator;

/// Adds an edge to the vertex `tip`: its two halves follow the half edge `before`, there and back.
pub fn put_spur<V, DE: Default, UE: Default, F, A: Allocator>(
    store: &mut Store<V, DE, UE, F, A>,
    before: FixedDirectedEdgeHandle,
    tip: FixedVertexHandle,
)
    requires { CanSpur store.old before tip }
    ensures { AddsEdge DE.is_default UE.is_default store.new (spur_stored store.old before tip) }
{
    let after = store.next(before);
    let face = store.face(before);
    let from = store.origin(after);
    let back = FixedDirectedEdgeHandle::new_normalized(store.num_edges());
    let forth = back.rev();
    store.set_next(before, forth);
    store.set_prev(after, back);
    store.push_edge(
        links(after, forth, face, tip),
        links(back, before, face, from),
        EdgeData::default(),
    );
    store.set_vertex_anchor(tip, Some(back));
}
