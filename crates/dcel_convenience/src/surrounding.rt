//! What lies around a vertex.

ghost use Rattle.std.specs.Prelude.{◌≡◌, ◌≢◌, ◌⊎◌, ℕ, ◌<◌, ◌↔◌, IsTrue, MatchOption, Some};
ghost use Rattle.std.specs.Bool.{OnFalse, OnTrue};
ghost use Rattle.dcel_convenience.specs.Surrounding.{HasLongFace, IsInLongFace, IsInTriangle, IsInside, Surrounds};
ghost use Rattle.dcel_maps.specs.Shapes.{IsLive};
ghost use Rattle.dcel_maps.specs.Walking.{IsOutEdge};

use spade_dcel::dcel::Dcel;
use spade_dcel::handles::{FixedDirectedEdgeHandle, FixedVertexHandle};
use spade_dcel::laws::every_mesh;
use std::alloc::Allocator;

/// What lies around a vertex.
#[derive(Clone, Copy, PartialEq, Eq, Debug)]
pub enum Surroundings {
    /// No edge meets the vertex.
    Nothing,
    /// All its faces are inner triangles.
    Triangles,
    /// It is on the border: the outer face meets it once, to the left of this half edge, which
    /// starts there. Its other faces are inner triangles.
    Border(FixedDirectedEdgeHandle),
    /// The outer face meets it twice or more: it is a cut vertex.
    CutVertex,
    /// One of its inner faces is not a triangle.
    LongFace,
}

/// Returns what lies around a vertex.
///
/// A cut vertex that has a face that is not a triangle is reported as [`Surroundings::LongFace`]. It
/// goes around the vertex at most three times, and allocates nothing.
///
/// Asks for a number below [`num_vertices`](Dcel::num_vertices).
pub fn look_around<V, DE, UE, F, A: Allocator>(
    dcel: &Dcel<V, DE, UE, F, A>,
    vertex: FixedVertexHandle,
) -> Surroundings
    requires { vertex < dcel.now.shape.vertices }
    ensures { Surrounds dcel.now.shape vertex result }
{
    every_mesh(dcel);
    let Some(_) = dcel.vertex_out_edge(vertex) else {
        return Surroundings::Nothing;
    };
    if has_long_face(dcel, vertex) {
        return Surroundings::LongFace;
    }
    let Some(outside) = odd_spoke(dcel, vertex, &None) else {
        return Surroundings::Triangles;
    };
    let Some(_) = odd_spoke(dcel, vertex, &Some(outside)) else {
        return Surroundings::Border(outside);
    };
    Surroundings::CutVertex
}

/// Returns whether all faces around a vertex are inner triangles.
pub(crate) fn is_inside<V, DE, UE, F, A: Allocator>(
    dcel: &Dcel<V, DE, UE, F, A>,
    vertex: FixedVertexHandle,
) -> bool
    requires { vertex < dcel.now.shape.vertices }
    ensures { IsTrue result ↔ IsInside dcel.now.shape vertex }
{
    odd_spoke(dcel, vertex, &None).is_none()
}

// Returns whether an inner face around a vertex is not a triangle.
fn has_long_face<V, DE, UE, F, A: Allocator>(
    dcel: &Dcel<V, DE, UE, F, A>,
    vertex: FixedVertexHandle,
) -> bool
    requires { vertex < dcel.now.shape.vertices }
    ensures { IsTrue result ↔ HasLongFace dcel.now.shape vertex }
{
    every_mesh(dcel);
    for edge in dcel.vertex(vertex).out_edges() {
        if is_in_long_face(dcel, edge.fix()) {
            return true;
        }
    }
    false
}

// Returns whether a live half edge is on an inner face that is not a triangle.
fn is_in_long_face<V, DE, UE, F, A: Allocator>(
    dcel: &Dcel<V, DE, UE, F, A>,
    half: FixedDirectedEdgeHandle,
) -> bool
    requires { IsLive dcel.now.shape half }
    ensures { IsTrue result ↔ IsInLongFace dcel.now.shape half }
{
    let face = dcel.directed_edge(half).face().fix();
    if face.is_outer() {
        return false;
    }
    !dcel.is_triangle(face)
}

// Returns the first half edge out of a vertex that is on no inner triangle, besides the one to be
// skipped.
fn odd_spoke<V, DE, UE, F, A: Allocator>(
    dcel: &Dcel<V, DE, UE, F, A>,
    vertex: FixedVertexHandle,
    skipped: &Option<FixedDirectedEdgeHandle>,
) -> Option<FixedDirectedEdgeHandle>
    requires { vertex < dcel.now.shape.vertices }
    ensures { let s = dcel.now.shape in
        MatchOption result ((h : ℕ) → IsOutEdge s vertex h → (skipped.now ≡ Some h) ⊎ IsInTriangle s h)
        (λ h. IsOutEdge s vertex h × (skipped.now ≢ Some h) × ¬ IsInTriangle s h) }
{
    every_mesh(dcel);
    for edge in dcel.vertex(vertex).out_edges() {
        let spoke = edge.fix();
        if is_odd(dcel, spoke, skipped) {
            return Some(spoke);
        }
    }
    None
}

// Returns whether a half edge is on no inner triangle, and isn't the one to be skipped.
fn is_odd<V, DE, UE, F, A: Allocator>(
    dcel: &Dcel<V, DE, UE, F, A>,
    spoke: FixedDirectedEdgeHandle,
    skipped: &Option<FixedDirectedEdgeHandle>,
) -> bool
    requires { IsLive dcel.now.shape spoke }
    ensures odd { OnTrue result ((skipped.now ≢ Some spoke) × ¬ IsInTriangle dcel.now.shape spoke) }
    ensures even { OnFalse result ((skipped.now ≡ Some spoke) ⊎ IsInTriangle dcel.now.shape spoke) }
{
    if let Some(skipped) = skipped {
        if *skipped == spoke {
            return false;
        }
    }
    !is_in_triangle(dcel, spoke)
}

// Returns whether a live half edge is on an inner triangle.
fn is_in_triangle<V, DE, UE, F, A: Allocator>(
    dcel: &Dcel<V, DE, UE, F, A>,
    half: FixedDirectedEdgeHandle,
) -> bool
    requires { IsLive dcel.now.shape half }
    ensures { IsTrue result ↔ IsInTriangle dcel.now.shape half }
{
    let face = dcel.directed_edge(half).face().fix();
    if face.is_outer() {
        return false;
    }
    dcel.is_triangle(face)
}
