//! Vertices and faces under new numbers: renaming them in links, and swapping two vertices.

ghost use Rattle.std.specs.Prelude.{◌≡◌};
ghost use Rattle.dcel_edits.specs.Rename.{CanExchange, CanTurn, turn_renamed, vertices_exchanged};
ghost use Rattle.dcel_edits.specs.TakingOut.{CanWalk, word_renamed};

use dcel_fixed::{FixedFaceHandle, FixedVertexHandle, PossiblyOuterTag};
use dcel_store::Store;
use std::alloc::Allocator;

/// Swaps the data, the anchors and the out edges of two vertices.
pub fn exchange_vertices<V, DE, UE, F, A: Allocator>(
    store: &mut Store<V, DE, UE, F, A>,
    first: FixedVertexHandle,
    second: FixedVertexHandle,
)
    requires { CanExchange store.old first second }
    ensures { store.new ≡ vertices_exchanged store.old first second }
{
    store.swap_vertices(first, second);
    // Between the two calls the out edges of both vertices start at one, but turning doesn't read
    // origins.
    rename_turn(store, first);
    rename_turn(store, second);
}

/// Sets the origin of every half edge out of `vertex`, starting from its anchor.
///
/// It turns from the anchor in both directions until the two meet. Each half edge is known only
/// from the one before it, and the reads at the two ends don't wait for each other.
pub(crate) fn rename_turn<V, DE, UE, F, A: Allocator>(
    store: &mut Store<V, DE, UE, F, A>,
    vertex: FixedVertexHandle,
)
    requires { CanTurn store.old vertex }
    ensures { store.new ≡ turn_renamed store.old vertex }
{
    let Some(out_edge) = store.vertex_anchor(vertex) else {
        return;
    };
    let mut first = out_edge;
    let mut last = store.next(out_edge.rev());
    loop {
        store.set_origin(first, vertex);
        if first == last {
            return;
        }
        store.set_origin(last, vertex);
        let after = store.prev(first).rev();
        if after == last {
            return;
        }
        last = store.next(last.rev());
        first = after;
    }
}

/// Sets the face of every half edge on `face`, starting from its anchor.
///
/// It goes from both ends, as [`rename_turn`] does.
pub(crate) fn rename_word<V, DE, UE, F, A: Allocator>(
    store: &mut Store<V, DE, UE, F, A>,
    face: FixedFaceHandle<PossiblyOuterTag>,
)
    requires { CanWalk store.old face }
    ensures { store.new ≡ word_renamed store.old face }
{
    let Some(adjacent_edge) = store.face_anchor(face) else {
        return;
    };
    let mut first = adjacent_edge;
    let mut last = store.prev(adjacent_edge);
    loop {
        store.set_face(first, face);
        if first == last {
            return;
        }
        store.set_face(last, face);
        let after = store.next(first);
        if after == last {
            return;
        }
        last = store.prev(last);
        first = after;
    }
}
