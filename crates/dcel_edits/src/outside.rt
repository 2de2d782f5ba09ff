//! Adding faces beside an edge.

ghost use Rattle.std.specs.Prelude.{◌≡◌, ◌+◌, ◌*◌, length};
ghost use Rattle.dcel_maps.specs.edits.DefaultData.{AddsEdgesAndFaces};
ghost use Rattle.dcel_edits.specs.Outside.{CanClose, CanPutBeside, beside_stored, closed_stored};

use crate::links::links;
use dcel_fixed::{FixedDirectedEdgeHandle, FixedFaceHandle, FixedVertexHandle, OUTER_FACE};
use dcel_store::{EdgeData, Store};
use std::alloc::Allocator;

/// Adds a triangle beside the half edge `edge`, with its third corner at `tip`.
pub fn put_beside<V, DE: Default, UE: Default, F: Default, A: Allocator>(
    store: &mut Store<V, DE, UE, F, A>,
    edge: FixedDirectedEdgeHandle,
    tip: FixedVertexHandle,
)
    requires { CanPutBeside store.old edge tip }
    ensures { AddsEdgesAndFaces DE.is_default UE.is_default F.is_default 2 1 store.new (beside_stored store.old edge tip) }
{
    let before = store.prev(edge);
    let after = store.next(edge);
    let outside = store.face(edge);
    let from = store.origin(edge);
    let to = store.origin(after);
    let inside = FixedFaceHandle::new(store.num_faces());
    let forth = FixedDirectedEdgeHandle::new_normalized(store.num_edges());
    let forth_rev = forth.rev();
    let back = FixedDirectedEdgeHandle::new_normalized(store.num_edges() + 1);
    let back_rev = back.rev();
    store.set_next(before, back_rev);
    store.set_next(edge, forth);
    store.set_prev(edge, back);
    store.set_prev(after, forth_rev);
    store.set_face(edge, inside);
    store.push_edge(
        links(back, edge, inside, to),
        links(after, back_rev, outside, tip),
        EdgeData::default(),
    );
    store.push_edge(
        links(edge, forth, inside, tip),
        links(forth_rev, before, outside, from),
        EdgeData::default(),
    );
    store.set_face_anchor(outside, Some(back_rev));
    store.push_face(F::default(), Some(edge));
    store.set_vertex_anchor(tip, Some(back));
}

/// Closes a triangle by an edge, after the half edge `edge` of the outer face and the next one.
///
/// It returns the half of the new edge that replaces them on the outer face.
pub fn put_closing<V, DE: Default, UE: Default, F: Default, A: Allocator>(
    store: &mut Store<V, DE, UE, F, A>,
    edge: FixedDirectedEdgeHandle,
) -> FixedDirectedEdgeHandle
    requires { CanClose store.old edge }
    ensures closed { AddsEdgesAndFaces DE.is_default UE.is_default F.is_default 1 1 store.new (closed_stored store.old edge) }
    ensures answer { result ≡ 2 * length store.old.undirected_data + 1 }
{
    let before = store.prev(edge);
    let second = store.next(edge);
    let after = store.next(second);
    let from = store.origin(edge);
    let to = store.origin(after);
    let face = FixedFaceHandle::new(store.num_faces());
    let inner = FixedDirectedEdgeHandle::new_normalized(store.num_edges());
    let outer = inner.rev();
    store.set_next(before, outer);
    store.set_next(second, inner);
    store.set_prev(edge, inner);
    store.set_prev(after, outer);
    store.set_face(edge, face);
    store.set_face(second, face);
    store.push_edge(
        links(edge, second, face, to),
        links(after, before, OUTER_FACE, from),
        EdgeData::default(),
    );
    store.set_face_anchor(OUTER_FACE, Some(outer));
    store.push_face(F::default(), Some(inner));
    outer
}
