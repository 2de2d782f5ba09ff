//! Legalization by a test that the caller passes: flips, one by one, from a list of edges.

ghost use Rattle.std.specs.Prelude.{◌≡◌, ◌↔◌, ℕ, Bool, List, IsTrue, true};
ghost use Rattle.std.specs.Fn.{FnReturnsAt};
ghost use Rattle.dcel_legalize.specs.Flipping.{AnswersAs, AreVertices, IsDue, corners_of};
ghost use Rattle.dcel_legalize.specs.Outcome.{IsLegalized, flips_told};
ghost use Rattle.dcel_maps.specs.Conditions.{CanFlip};
ghost use Rattle.dcel_maps.specs.EditLists.{EditedBy, flip_edits};
ghost use Rattle.dcel_maps.specs.Shapes.{IsMesh, edge_is_live};

use crate::beside::append_beside;
use crate::legalized::Legalized;
use spade_dcel::dcel::Dcel;
use spade_dcel::handles::{FixedUndirectedEdgeHandle, FixedVertexHandle};
use spade_dcel::laws::every_mesh;
use spade_dcel::operations::flip_cw;
use std::alloc::Allocator;

/// Flips edges until none is left that can be flipped and is wanted, or `max_flips` are flipped.
///
/// It takes the last edge off the list, again and again. If the edge can be flipped
/// ([`can_flip`](Dcel::can_flip)) and is wanted, it is an illegal edge: it is flipped
/// ([`flip_cw`]), and appended to the list with the other edges of its two triangles. Otherwise it
/// is skipped. Given-up edges and numbers out of range are skipped too.
///
/// `wanted` is called with four vertices: the start and the end of the edge's normalized half, and
/// the corners opposite the edge, the one on the side of this half first. It must be callable with
/// any four. The clause `run` says something only if `wanted` always returns the same for the same
/// four vertices.
///
/// After [`Legalized::Done`] nothing is left to flip: no edge of the list, and no edge of a
/// triangle that a flip changed, can be flipped and is wanted. If the list had every such edge of
/// the mesh, then none is left in the mesh. With some tests it would never end, hence `max_flips`.
///
/// These are the flips of C. L. Lawson ("Software for C1 surface interpolation", 1977), as `spade`
/// performs them in a triangulation.
///
/// After [`Legalized::Stopped`], and after [`Legalized::OutOfMemory`] if the list cannot grow, such
/// an edge is left. The flips made so far remain in each case.
pub fn legalize_edges<V, DE, UE, F, A, L, W>(
    dcel: &mut Dcel<V, DE, UE, F, A>,
    mut list: Vec<FixedUndirectedEdgeHandle, L>,
    wanted: W,
    max_flips: usize,
) -> Legalized
where
    A: Allocator,
    L: Allocator,
    W: Fn(&[FixedVertexHandle; 4]) -> bool + Drop,
    requires { W.IsAlwaysCallable wanted }
    ensures run { (w : List ℕ → Bool) → AnswersAs (FnReturnsAt W.Fn wanted) w → IsLegalized w dcel.old list.items max_flips result dcel.new }
    ensures edits { EditedBy (flip_edits (flips_told result)) dcel.old dcel.new }
    ensures mesh { IsMesh dcel.new }
{
    every_mesh(dcel);
    let mut flips: usize = 0;
    while let Some(edge) = list.pop() {
        if !is_due(dcel, edge, &wanted) {
            continue;
        }
        if flips == max_flips {
            return Legalized::Stopped { flips };
        }
        if list.reserve(5).is_err() {
            return Legalized::OutOfMemory { flips };
        }
        flip_cw(dcel, edge);
        flips += 1;
        append_beside(dcel, edge, &mut list);
    }
    Legalized::Done { flips }
}

fn is_due<V, DE, UE, F, A, W>(
    dcel: &Dcel<V, DE, UE, F, A>,
    edge: FixedUndirectedEdgeHandle,
    wanted: &W,
) -> bool
where
    A: Allocator,
    W: Fn(&[FixedVertexHandle; 4]) -> bool,
    requires { W.IsAlwaysCallable wanted.now }
    ensures can { IsTrue result → CanFlip dcel.now.shape edge }
    ensures due { (w : List ℕ → Bool) → AnswersAs (FnReturnsAt W.Fn wanted.now) w → IsTrue result ↔ IsDue w dcel.now.shape edge }
{
    if !dcel.can_flip(edge) {
        return false;
    }
    every_mesh(dcel);
    wanted(&corners_round(dcel, edge))
}

fn corners_round<V, DE, UE, F, A: Allocator>(
    dcel: &Dcel<V, DE, UE, F, A>,
    edge: FixedUndirectedEdgeHandle,
) -> [FixedVertexHandle; 4]
    requires { edge_is_live dcel.now.shape edge ≡ true }
    ensures value { result ≡ corners_of dcel.now.shape edge }
    ensures vertices { AreVertices result }
{
    let half = dcel.undirected_edge(edge).as_directed();
    [
        half.from().fix(),
        half.to().fix(),
        half.prev().from().fix(),
        half.rev().prev().from().fix(),
    ]
}
