//! Conditions that several lines ask of a mesh.

ghost use Rattle.std.specs.Prelude.{◌≡◌, ◌↔◌, ◌+◌, ◌*◌, ◌<◌, ◌≤◌, ◌^◌, [], ◌∷◌, false, All, IsTrue, MatchResult};
ghost use Rattle.dcel_maps.specs.Conditions.{HasRoom};
ghost use Rattle.dcel_maps.specs.Removals.{Closed};
ghost use Rattle.dcel_maps.specs.Shapes.{IsLive, face_count};
ghost use Rattle.dcel_commands.specs.Asking.{edge_and_vertex, edges_and_faces, live_vertices, two_vertices};
ghost use Rattle.dcel_commands.specs.Conditions.{AreWithin, IsIsolated, OnTriangle, PassesOrRefuses};
ghost use Rattle.spade_dcel.specs.Handles.{mesh_behind, number_of};
ghost use Rattle.dcel_commands.specs.declared.refusal.Refusal.TheVariants.{NotTriangle};

use crate::refusal::Refusal;
use dcel_fixed::{
    FixedDirectedEdgeHandle, FixedFaceHandle, FixedHandleImpl, FixedUndirectedEdgeHandle,
    FixedVertexHandle, InnerOuterMarker, InnerTag,
};
use spade_dcel::dcel::{Dcel, RemovalState};
use spade_dcel::handles::DirectedEdgeHandle;
use spade_dcel::operations::Room;
use std::alloc::Allocator;

/// Refuses with `why` unless the condition is met.
pub fn ask(is_met: bool, why: Refusal) -> Result<(), Refusal>
    ensures { MatchResult result (λ _. IsTrue is_met) (λ refusal. (is_met ≡ false) × (refusal ≡ why)) }
{
    if is_met { Ok(()) } else { Err(why) }
}

/// Returns whether the number of the vertex is in range.
pub fn has_vertex<V, DE, UE, F, A: Allocator>(
    dcel: &Dcel<V, DE, UE, F, A>,
    vertex: FixedVertexHandle,
) -> bool
    ensures { IsTrue result ↔ (vertex < dcel.now.shape.vertices) }
{
    vertex.index() < dcel.num_vertices()
}

/// Returns whether the number of the half edge is in range.
pub fn has_half_edge<V, DE, UE, F, A: Allocator>(
    dcel: &Dcel<V, DE, UE, F, A>,
    edge: FixedDirectedEdgeHandle,
) -> bool
    ensures { IsTrue result ↔ (edge < 2 * dcel.now.shape.edges) }
{
    edge.index() < dcel.num_directed_edges()
}

/// Returns whether the number of the edge is in range.
pub fn has_edge<V, DE, UE, F, A: Allocator>(
    dcel: &Dcel<V, DE, UE, F, A>,
    edge: FixedUndirectedEdgeHandle,
) -> bool
    ensures { IsTrue result ↔ (edge < dcel.now.shape.edges) }
{
    edge.index() < dcel.num_undirected_edges()
}

/// Returns whether the number of each element is below `count`.
pub fn are_below<Kind, InnerOuter: InnerOuterMarker>(
    elements: &[FixedHandleImpl<Kind, InnerOuter>],
    count: usize,
) -> bool
    ensures { IsTrue result ↔ All (λ n. n < count) elements.now }
{
    for element in elements {
        if element.index() >= count {
            return false;
        }
    }
    true
}

/// Returns whether the number of each face is below `count`, and none is the outer face.
pub fn are_inner_faces(faces: &[FixedFaceHandle<InnerTag>], count: usize) -> bool
    ensures { IsTrue result ↔ All (λ f. (0 < f) × (f < count)) faces.now }
{
    for face in faces {
        if face.index() == 0 || face.index() >= count {
            return false;
        }
    }
    true
}

/// Returns whether no removal is open.
pub fn is_closed<V, DE, UE, F, A: Allocator>(dcel: &Dcel<V, DE, UE, F, A>) -> bool
    ensures { IsTrue result ↔ (dcel.now.shape.removal ≡ Closed) }
{
    dcel.removal_state() == RemovalState::Closed
}

/// Returns whether a removal is open and not yet cleaned up.
pub fn is_isolated<V, DE, UE, F, A: Allocator>(dcel: &Dcel<V, DE, UE, F, A>) -> bool
    ensures { IsTrue result ↔ IsIsolated dcel.now.shape.removal }
{
    dcel.removal_state() == RemovalState::Isolated
}

/// Refuses unless the face of this live half edge is a triangle.
pub fn ask_triangle<V, DE, UE, F, A: Allocator>(
    dcel: &Dcel<V, DE, UE, F, A>,
    edge: DirectedEdgeHandle<'_, V, DE, UE, F, A>,
) -> Result<(), Refusal>
    requires mesh { mesh_behind edge ≡ dcel.now }
    requires live { IsLive (mesh_behind edge).shape (number_of edge) }
    ensures { PassesOrRefuses dcel.now.shape ((NotTriangle, OnTriangle (number_of edge.entry)) ∷ []) result }
{
    ask(dcel.is_triangle(edge.face().fix()), Refusal::NotTriangle)
}

/// Refuses unless both vertices are live. They may be the same.
pub fn ask_live_vertices<V, DE, UE, F, A: Allocator>(
    dcel: &Dcel<V, DE, UE, F, A>,
    first: FixedVertexHandle,
    second: FixedVertexHandle,
) -> Result<(), Refusal>
    ensures { PassesOrRefuses dcel.now.shape (live_vertices first second) result }
{
    ask(first.index() < dcel.num_vertices(), Refusal::NoSuchVertex)?;
    ask(second.index() < dcel.num_vertices(), Refusal::NoSuchVertex)?;
    ask(dcel.is_live_vertex(first), Refusal::GivenUp)?;
    ask(dcel.is_live_vertex(second), Refusal::GivenUp)
}

/// Refuses unless both vertices are live and they differ.
pub fn ask_two_vertices<V, DE, UE, F, A: Allocator>(
    dcel: &Dcel<V, DE, UE, F, A>,
    first: FixedVertexHandle,
    second: FixedVertexHandle,
) -> Result<(), Refusal>
    ensures { PassesOrRefuses dcel.now.shape (two_vertices first second) result }
{
    ask_live_vertices(dcel, first, second)?;
    ask(first != second, Refusal::SameVertex)
}

/// Refuses unless the half edge is live, and the vertex is live and has no edge.
///
/// [`Dcel::is_unconnected`] tests again whether the vertex is live; the test before it is there to
/// name the refusal.
pub fn ask_edge_and_vertex<V, DE, UE, F, A: Allocator>(
    dcel: &Dcel<V, DE, UE, F, A>,
    edge: FixedDirectedEdgeHandle,
    vertex: FixedVertexHandle,
) -> Result<(), Refusal>
    ensures { PassesOrRefuses dcel.now.shape (edge_and_vertex edge vertex) result }
{
    ask(has_vertex(dcel, vertex), Refusal::NoSuchVertex)?;
    ask(has_half_edge(dcel, edge), Refusal::NoSuchEdge)?;
    ask(dcel.is_live_edge(edge.as_undirected()), Refusal::GivenUp)?;
    ask(dcel.is_live_vertex(vertex), Refusal::GivenUp)?;
    ask(dcel.is_unconnected(vertex), Refusal::VertexInUse)
}

/// Refuses unless each edge is in range, and each face is in range and not the outer face.
pub fn ask_elements<V, DE, UE, F, A: Allocator>(
    dcel: &Dcel<V, DE, UE, F, A>,
    edges: &[FixedUndirectedEdgeHandle],
    faces: &[FixedFaceHandle<InnerTag>],
) -> Result<(), Refusal>
    ensures { PassesOrRefuses dcel.now.shape (edges_and_faces edges.now faces.now) result }
{
    ask(
        are_below(edges, dcel.num_undirected_edges()),
        Refusal::NoSuchEdge,
    )?;
    ask(
        are_inner_faces(faces, dcel.num_faces()),
        Refusal::NoSuchFace,
    )
}

/// Returns whether what a call adds keeps within the limit.
pub fn has_room<V, DE, UE, F, A: Allocator>(
    dcel: &Dcel<V, DE, UE, F, A>,
    limit: usize,
    room: Room,
) -> bool
    requires { limit ≤ 2 ^ 31 }
    ensures within { let shape = dcel.now.shape in
        IsTrue result ↔ AreWithin limit (shape.vertices + room.vertices) (shape.edges + room.undirected_edges) (face_count shape + room.faces) }
    // The limit is so low that handles don't run out below it.
    ensures room { IsTrue result → HasRoom dcel.now.shape room.vertices room.undirected_edges room.faces }
{
    dcel.num_vertices().saturating_add(room.vertices) <= limit
        && dcel
            .num_undirected_edges()
            .saturating_add(room.undirected_edges)
            <= limit
        && dcel.num_faces().saturating_add(room.faces) <= limit
}
