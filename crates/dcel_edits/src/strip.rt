//! Cutting off a vertex of the outer face, with the triangles around it.

ghost use Rattle.std.specs.Prelude.{◌≡◌, [], ◌∷◌};
ghost use Rattle.dcel_edits.specs.Strip.{CanCutStrip, CanLeadAlong, CanMoveOut, all_moved_out, led_along, strip_stored};
ghost use Rattle.dcel_maps.specs.Words.{last_of};

use dcel_fixed::{FixedDirectedEdgeHandle, OUTER_FACE};
use dcel_store::Store;
use std::alloc::Allocator;

/// Cuts off a strip: the outer face runs along `items` and `last`, past the vertex before `last`.
pub fn put_strip_cut<V, DE, UE, F, A: Allocator>(
    store: &mut Store<V, DE, UE, F, A>,
    items: &[FixedDirectedEdgeHandle],
    last: FixedDirectedEdgeHandle,
)
    requires { CanCutStrip store.old items.now last }
    ensures { store.new ≡ strip_stored store.old items.now last }
{
    let outer_out = store.prev(last);
    let vertex = store.origin(outer_out);
    let before = store.prev(store.prev(outer_out));
    // `last` is on the outer face already, and stays there.
    store.set_face_anchor(OUTER_FACE, Some(last));
    move_out(store, items);
    let end = lead_along(store, before, items);
    lead(store, end, last);
    store.set_vertex_anchor(vertex, None);
}

// Moves half edges to the outer face. The faces that they leave lose their anchors.
fn move_out<V, DE, UE, F, A: Allocator>(
    store: &mut Store<V, DE, UE, F, A>,
    items: &[FixedDirectedEdgeHandle],
)
    requires { CanMoveOut store.old items.now }
    ensures { store.new ≡ all_moved_out store.old items.now }
{
    let mut left = items;
    while let Some((&edge, after)) = left.split_first() {
        let face = store.face(edge);
        store.set_face_anchor(face, None);
        store.set_face(edge, OUTER_FACE);
        left = after;
    }
}

// Links a half edge and those of a list in their order, as `lead` does, and returns the last one.
fn lead_along<V, DE, UE, F, A: Allocator>(
    store: &mut Store<V, DE, UE, F, A>,
    before: FixedDirectedEdgeHandle,
    items: &[FixedDirectedEdgeHandle],
) -> FixedDirectedEdgeHandle
    requires { CanLeadAlong store.old before items.now }
    ensures last { result ≡ last_of before items.now }
    ensures lists { store.new ≡ led_along store.old before items.now }
{
    let mut end = before;
    let mut left = items;
    while let Some((&edge, after)) = left.split_first() {
        lead(store, end, edge);
        end = edge;
        left = after;
    }
    end
}

// Links one half edge to another, which becomes the anchor of the vertex that it starts at.
fn lead<V, DE, UE, F, A: Allocator>(
    store: &mut Store<V, DE, UE, F, A>,
    from: FixedDirectedEdgeHandle,
    to: FixedDirectedEdgeHandle,
)
    requires { CanLeadAlong store.old from (to ∷ []) }
    ensures { store.new ≡ led_along store.old from (to ∷ []) }
{
    let origin = store.origin(to);
    store.set_next(from, to);
    store.set_prev(to, from);
    store.set_vertex_anchor(origin, Some(to));
}
