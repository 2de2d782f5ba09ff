//! Edges between two vertices.

ghost use Rattle.std.specs.Prelude.{◌≡◌, ◌<◌, ◌↔◌, ℕ, IfNone, IfSome, IsTrue};
ghost use Rattle.dcel_maps.specs.Shapes.{IsLive, end_of};
ghost use Rattle.dcel_maps.specs.Walking.{Leads};
ghost use Rattle.dcel_constrained.specs.Channels.{HasVertices};

use dcel_predicates::Point;
use spade_dcel::dcel::Dcel;
use spade_dcel::handles::{FixedDirectedEdgeHandle, FixedVertexHandle};
use spade_dcel::laws::every_mesh;
use std::alloc::Allocator;

/// Returns the half edge that leads from one vertex to another, if there is one.
///
/// It looks at the edges of both by turns, so it stops once those of either are done: many edges at
/// one of them don't matter.
pub(crate) fn edge_between<DE, UE, F, A: Allocator>(
    dcel: &Dcel<Point, DE, UE, F, A>,
    from: FixedVertexHandle,
    to: FixedVertexHandle,
) -> Option<FixedDirectedEdgeHandle>
    requires { HasVertices dcel.now.shape from to }
    ensures some { IfSome result (λ h. Leads dcel.now.shape from to h) }
    ensures none { IfNone result ((h : ℕ) → ¬ Leads dcel.now.shape from to h) }
{
    every_mesh(dcel);
    let mut ahead = dcel.vertex(from).out_edges();
    let mut back = dcel.vertex(to).out_edges();
    while let Some(edge) = ahead.next() {
        let half = edge.fix();
        if leads_to(dcel, half, to) {
            return Some(half);
        }
        let Some(edge) = back.next() else {
            return None;
        };
        let half = edge.fix();
        if leads_to(dcel, half, from) {
            return Some(half.rev());
        }
    }
    None
}

/// Returns whether a half edge ends at a vertex.
fn leads_to<DE, UE, F, A: Allocator>(
    dcel: &Dcel<Point, DE, UE, F, A>,
    half: FixedDirectedEdgeHandle,
    to: FixedVertexHandle,
) -> bool
    requires { IsLive dcel.now.shape half }
    ensures { IsTrue result ↔ (end_of dcel.now.shape half ≡ to) }
{
    every_mesh(dcel);
    let end = dcel.directed_edge(half).to().fix();
    end == to
}
