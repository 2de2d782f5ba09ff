//! Cutting rings into ears: triangles that meet at one vertex.

ghost use Rattle.std.specs.Prelude.{◌≡◌, ◌+◌, ◌*◌, ◌^◌, ◌<◌, length, reverse, slice_index};
ghost use Rattle.dcel_maps.specs.edits.DefaultData.{AddsEdgesAndFaces};
ghost use Rattle.dcel_edits.specs.Fill.{AreFaces, CanGiveUp, CanPutEar, CanPutEars, CanPutLastEar, EarsPut, begun_stored, closing, ear_stored, faces_dropped, given_up, last_ear_stored};

use crate::links::links;
use dcel_fixed::{FixedDirectedEdgeHandle, FixedFaceHandle, FixedVertexHandle, InnerTag};
use dcel_store::{EdgeData, Store};
use std::alloc::Allocator;

/// Cuts a ring into ears that meet where `first` starts.
///
/// The ring consists of `first`, `second`, `third` and the half edges of `left`, read from its end.
pub fn put_ears<V, DE: Default, UE: Default, F: Default, A: Allocator>(
    store: &mut Store<V, DE, UE, F, A>,
    first: FixedDirectedEdgeHandle,
    second: FixedDirectedEdgeHandle,
    third: FixedDirectedEdgeHandle,
    left: &[FixedDirectedEdgeHandle],
)
    requires { CanPutEars store.old first second third left.now }
    ensures { EarsPut DE.is_default UE.is_default F.is_default (slice_index store.old.origin first)
        (begun_stored store.old first second (closing (length store.old.undirected_data) third (reverse left.now)))
        first second third (reverse left.now) store.new }
{
    let apex = store.origin(first);
    let face = FixedFaceHandle::new(store.num_faces());
    let before_first = closing_half(store.num_edges(), third, left);
    store.set_next(first, second);
    store.set_prev(first, before_first);
    store.set_face(first, face);
    let mut beginning = first;
    let mut middle = second;
    let mut end = third;
    let mut to_come = left;
    while let Some((&following, before)) = to_come.split_last() {
        let closing = closing_half(store.num_edges() + 1, following, before);
        beginning = put_ear(store, apex, beginning, middle, end, closing);
        middle = end;
        end = following;
        to_come = before;
    }
    put_last_ear(store, apex, beginning, middle, end);
}

/// Drops the anchors of the faces that are given up, and that of the vertex if there is one.
pub fn drop_all_anchors<V, DE, UE, F, A: Allocator>(
    store: &mut Store<V, DE, UE, F, A>,
    vertex: &Option<FixedVertexHandle>,
    faces: &[FixedFaceHandle<InnerTag>],
)
    requires { CanGiveUp store.old vertex.now faces.now }
    ensures { store.new ≡ given_up store.old vertex.now faces.now }
{
    drop_anchors(store, faces);
    if let Some(vertex) = vertex {
        store.set_vertex_anchor(*vertex, None);
    }
}

// Drops the anchors of these faces.
fn drop_anchors<V, DE, UE, F, A: Allocator>(
    store: &mut Store<V, DE, UE, F, A>,
    faces: &[FixedFaceHandle<InnerTag>],
)
    requires { AreFaces store.old faces.now }
    ensures { store.new ≡ faces_dropped store.old faces.now }
{
    let mut left = faces;
    while let Some((&face, after)) = left.split_first() {
        store.set_face_anchor(face.adjust_inner_outer(), None);
        left = after;
    }
}

// Returns the half edge that closes the first ear of a ring: a half of the new edge, or `third` if
// no half edges are left.
fn closing_half(
    edge: usize,
    third: FixedDirectedEdgeHandle,
    left: &[FixedDirectedEdgeHandle],
) -> FixedDirectedEdgeHandle
    requires { 0 < length left.now → edge < 2 ^ 31 }
    ensures { result ≡ closing edge third (reverse left.now) }
{
    if left.is_empty() {
        return third;
    }
    FixedDirectedEdgeHandle::new_normalized(edge)
}

// Cuts off the ear of `first` and `second` by a new edge, and returns the half of it that begins
// the next ear, which `third` continues and `closing` closes.
fn put_ear<V, DE: Default, UE: Default, F: Default, A: Allocator>(
    store: &mut Store<V, DE, UE, F, A>,
    apex: FixedVertexHandle,
    first: FixedDirectedEdgeHandle,
    second: FixedDirectedEdgeHandle,
    third: FixedDirectedEdgeHandle,
    closing: FixedDirectedEdgeHandle,
) -> FixedDirectedEdgeHandle
    requires { CanPutEar store.old second third }
    ensures ear { AddsEdgesAndFaces DE.is_default UE.is_default F.is_default 1 1 store.new
        (ear_stored store.old apex first second third closing) }
    ensures answer { result ≡ 2 * length store.old.undirected_data + 1 }
{
    let face = FixedFaceHandle::new(store.num_faces());
    let following = FixedFaceHandle::new(store.num_faces() + 1);
    let inner = FixedDirectedEdgeHandle::new_normalized(store.num_edges());
    let outer = inner.rev();
    let from = store.origin(second);
    let to = store.origin(third);
    store.set_next(second, inner);
    store.set_prev(second, first);
    store.set_face(second, face);
    store.push_edge(
        links(first, second, face, to),
        links(third, closing, following, apex),
        EdgeData::default(),
    );
    store.push_face(F::default(), Some(inner));
    store.set_vertex_anchor(from, Some(second));
    outer
}

// Turns the last three half edges of a ring into an ear.
fn put_last_ear<V, DE, UE, F: Default, A: Allocator>(
    store: &mut Store<V, DE, UE, F, A>,
    apex: FixedVertexHandle,
    first: FixedDirectedEdgeHandle,
    second: FixedDirectedEdgeHandle,
    third: FixedDirectedEdgeHandle,
)
    requires { CanPutLastEar store.old apex second third }
    ensures { (datum : F) × F.is_default datum × (store.new ≡ last_ear_stored store.old apex first second third datum) }
{
    let face = FixedFaceHandle::new(store.num_faces());
    let from_second = store.origin(second);
    let from_third = store.origin(third);
    store.set_next(second, third);
    store.set_next(third, first);
    store.set_prev(second, first);
    store.set_prev(third, second);
    store.set_face(second, face);
    store.set_face(third, face);
    store.push_face(F::default(), Some(first));
    store.set_vertex_anchor(from_third, Some(third));
    store.set_vertex_anchor(from_second, Some(second));
    store.set_vertex_anchor(apex, Some(first));
}
