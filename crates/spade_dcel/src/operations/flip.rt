//! Flipping an edge between two triangles.

ghost use Rattle.std.specs.Prelude.{◌≡◌, ◌∷◌, []};
ghost use Rattle.dcel_maps.specs.Conditions.{CanFlip};
ghost use Rattle.dcel_maps.specs.EditLists.{EditedBy};
ghost use Rattle.dcel_maps.specs.EditLists.EditKind.{ear_cut, words_joined};
ghost use Rattle.dcel_maps.specs.edits.Flip.{edge_flipped};
ghost use Rattle.dcel_maps.specs.Shapes.{IsMesh};

use crate::dcel::Dcel;
use dcel_edits::flip::put_flip;
use dcel_fixed::FixedUndirectedEdgeHandle;
use std::alloc::Allocator;

/// Flips an edge clockwise between the triangles on its two sides.
///
/// Afterwards it joins the two corners opposite it. It keeps its number and its data, and so does
/// every other element. In the picture `e` is the even half, which leads from `a` to `b` before and
/// from `c` to `d` afterwards.
///
/// ```text
/// before     c                  after      c
///           / \                           /|\
///          / f \                         / | \
///         a -e-> b                      a g|f b          f    (e, d to b, b to c)
///          \ g /                         \ | /           g    (t, c to a, a to d)
///           \ /                           \v/
///            d                             d
/// ```
///
/// The half edges `a to d` and `b to c` become the anchors of `a` and `b`, and `e` and `t` those of
/// `f` and `g`.
///
/// Asks that the edge is live, both its faces are triangles, and the corners opposite it are two
/// different vertices ([`can_flip`](Dcel::can_flip)). Either triangle may be the outer face: then
/// one of `a` and `b` leaves the hull. An edge may join `c` and `d` already, and then the flipped
/// one is a second: [`get_edge_from_neighbors`](Dcel::get_edge_from_neighbors) finds the first.
pub fn flip_cw<V, DE, UE, F, A: Allocator>(
    dcel: &mut Dcel<V, DE, UE, F, A>,
    edge: FixedUndirectedEdgeHandle,
)
    requires { CanFlip dcel.old.shape edge }
    ensures edit { dcel.new ≡ edge_flipped dcel.old edge }
    ensures edits { EditedBy (words_joined ∷ ear_cut ∷ []) dcel.old dcel.new }
    ensures mesh { IsMesh dcel.new }
{
    put_flip(&mut dcel.store, edge.as_directed());
}
