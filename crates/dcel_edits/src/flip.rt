//! Flipping edges between two triangles.

ghost use Rattle.std.specs.Prelude.{◌≡◌};
ghost use Rattle.dcel_edits.specs.SplitTriangles.{IsHeld};
ghost use Rattle.dcel_edits.specs.Flip.{CanAnchor, CanPutFlip, CanTurn, flip_stored, side_anchored, side_of, side_turned};

use dcel_fixed::{FixedDirectedEdgeHandle, FixedFaceHandle, FixedVertexHandle, PossiblyOuterTag};
use dcel_store::Store;
use std::alloc::Allocator;

// One side of an edge that is flipped: the half edge there and its triangle.
//
// `origin` is where the half edge starts before the flip, and `corner`, which is opposite it, is
// where it starts afterwards.
#[derive(Clone, Copy)]
struct Side {
    edge: FixedDirectedEdgeHandle,
    next: FixedDirectedEdgeHandle,
    prev: FixedDirectedEdgeHandle,
    face: FixedFaceHandle<PossiblyOuterTag>,
    origin: FixedVertexHandle,
    corner: FixedVertexHandle,
}

impl Side {
    // Reads the side of a half edge.
    fn new<V, DE, UE, F, A: Allocator>(
        store: &Store<V, DE, UE, F, A>,
        edge: FixedDirectedEdgeHandle,
    ) -> Self
        requires { IsHeld store.now edge }
        ensures { result ≡ side_of store.now edge }
    {
        let prev = store.prev(edge);
        Side {
            edge,
            next: store.next(edge),
            prev,
            face: store.face(edge),
            origin: store.origin(edge),
            corner: store.origin(prev),
        }
    }
}

/// Flips the edge of the half edge `edge`, clockwise, between the triangles on its two sides.
pub fn put_flip<V, DE, UE, F, A: Allocator>(
    store: &mut Store<V, DE, UE, F, A>,
    edge: FixedDirectedEdgeHandle,
)
    requires { CanPutFlip store.old edge }
    ensures { store.new ≡ flip_stored store.old edge }
{
    let near = Side::new(store, edge);
    let far = Side::new(store, edge.rev());
    turn_side(store, &near, &far);
    turn_side(store, &far, &near);
    // Anchors are far from the links in memory, so they come last: waiting for them delays no link.
    anchor_side(store, &near, &far);
    anchor_side(store, &far, &near);
}

// Turns one side: its half edge starts at the opposite corner, and its triangle gets the half edge
// before the one on the other side.
fn turn_side<V, DE, UE, F, A: Allocator>(
    store: &mut Store<V, DE, UE, F, A>,
    side: &Side,
    beyond: &Side,
)
    requires { CanTurn store.old side.now beyond.now }
    ensures { store.new ≡ side_turned store.old side.now beyond.now }
{
    store.set_next(side.edge, beyond.prev);
    store.set_prev(side.edge, side.next);
    store.set_origin(side.edge, side.corner);
    store.set_next(beyond.prev, side.next);
    store.set_prev(beyond.prev, side.edge);
    store.set_face(beyond.prev, side.face);
    store.set_next(side.next, side.edge);
    store.set_prev(side.next, beyond.prev);
}

// Anchors one side that was turned. The vertex where its half edge started gets the half edge that
// came after the one on the other side; its face gets its half edge.
fn anchor_side<V, DE, UE, F, A: Allocator>(
    store: &mut Store<V, DE, UE, F, A>,
    side: &Side,
    beyond: &Side,
)
    requires { CanAnchor store.old side.now }
    ensures { store.new ≡ side_anchored store.old side.now beyond.now }
{
    store.set_vertex_anchor(side.origin, Some(beyond.next));
    store.set_face_anchor(side.face, Some(side.edge));
}
