//! What is marked in a picture.

ghost use Rattle.spade_dcel.specs.Handles.{mesh_behind, number_of};
ghost use Rattle.dcel_maps.specs.Shapes.{IsLive};
ghost use Rattle.dcel_svg.specs.Marks.{KeepsHalfEdge, KeepsVertex, MarksChanges, TellsEach, links_of, marks_half_edge, marks_vertex};
ghost use Rattle.std.specs.Prelude.{◌≡◌, ◌↔◌, ◌*◌, ℕ, IfOk, false};

use spade_dcel::dcel::Dcel;
use spade_dcel::handles::{DirectedEdgeHandle, FixedDirectedEdgeHandle, FixedVertexHandle};
use std::alloc::{AllocError, Allocator, Global};

/// Which half edges and vertices of a picture are marked, by their numbers.
#[derive(Drop)]
pub struct Marks<B: Allocator = Global> {
    half_edges: Vec<bool, B>,
    vertices: Vec<bool, B>,
}

impl<B: Allocator + Copy> Marks<B> {
    /// Marks nothing.
    pub fn none(alloc: B) -> Self
        ensures half_edges { (h : ℕ) → marks_half_edge result h ≡ false }
        ensures vertices { (v : ℕ) → marks_vertex result v ≡ false }
    {
        Marks {
            half_edges: Vec::new(alloc),
            vertices: Vec::new(alloc),
        }
    }

    /// Marks what a mesh has become: half edges that are new or given up, or have another next or
    /// previous one, origin or face than in the `old` mesh, and vertices that are new or given up.
    ///
    /// If memory runs out it returns `AllocError`.
    pub fn of_changes<V, DE, UE, F, A: Allocator>(
        alloc: B,
        old: &Dcel<V, DE, UE, F, A>,
        mesh: &Dcel<V, DE, UE, F, A>,
    ) -> Result<Self, AllocError>
        ensures { IfOk result (λ marks. MarksChanges old.now.shape mesh.now.shape marks) }
    {
        Ok(Marks {
            half_edges: changed_half_edges(alloc, old, mesh)?,
            vertices: changed_vertices(alloc, old, mesh)?,
        })
    }
}

impl<B: Allocator> Marks<B> {
    pub(crate) fn has_half_edge(&self, number: usize) -> bool
        ensures { result ≡ marks_half_edge self.now number }
    {
        self.half_edges.get(number) == Some(&true)
    }

    pub(crate) fn has_vertex(&self, number: usize) -> bool
        ensures { result ≡ marks_vertex self.now number }
    {
        self.vertices.get(number) == Some(&true)
    }

    /// Returns whether nothing can be marked.
    pub(crate) fn is_empty(&self) -> bool {
        self.half_edges.is_empty() && self.vertices.is_empty()
    }
}

/// Returns for each half edge of a mesh whether it has become another.
fn changed_half_edges<V, DE, UE, F, A: Allocator, B: Allocator>(
    alloc: B,
    old: &Dcel<V, DE, UE, F, A>,
    mesh: &Dcel<V, DE, UE, F, A>,
) -> Result<Vec<bool, B>, AllocError>
    ensures { IfOk result (λ marks.
        TellsEach (KeepsHalfEdge old.now.shape mesh.now.shape) (2 * mesh.now.shape.edges) marks.items) }
{
    let mut marks = Vec::new(alloc);
    for number in 0..mesh.num_directed_edges() {
        let half = FixedDirectedEdgeHandle::new(number);
        marks.push(is_changed(old, mesh, half))?;
    }
    Ok(marks)
}

/// Returns for each vertex of a mesh whether it is live in only one of two meshes.
fn changed_vertices<V, DE, UE, F, A: Allocator, B: Allocator>(
    alloc: B,
    old: &Dcel<V, DE, UE, F, A>,
    mesh: &Dcel<V, DE, UE, F, A>,
) -> Result<Vec<bool, B>, AllocError>
    ensures { IfOk result (λ marks.
        TellsEach (KeepsVertex old.now.shape mesh.now.shape) mesh.now.shape.vertices marks.items) }
{
    let mut marks = Vec::new(alloc);
    for number in 0..mesh.num_vertices() {
        let vertex = FixedVertexHandle::new(number);
        marks.push(old.is_live_vertex(vertex) != mesh.is_live_vertex(vertex))?;
    }
    Ok(marks)
}

/// Returns whether a half edge is live in only one of two meshes, or has other links in them.
fn is_changed<V, DE, UE, F, A: Allocator>(
    old: &Dcel<V, DE, UE, F, A>,
    mesh: &Dcel<V, DE, UE, F, A>,
    half: FixedDirectedEdgeHandle,
) -> bool
    ensures { (result ≡ false) ↔ KeepsHalfEdge old.now.shape mesh.now.shape half }
{
    match (old.get_directed_edge(half), mesh.get_directed_edge(half)) {
        (Some(old), Some(new)) => links_of(old) != links_of(new),
        (None, None) => false,
        _ => true,
    }
}

/// Returns the next and the previous half edge, the origin and the face.
fn links_of<V, DE, UE, F, A: Allocator>(half: DirectedEdgeHandle<'_, V, DE, UE, F, A>) -> [usize; 4]
    requires { IsLive (mesh_behind half).shape (number_of half) }
    ensures { result ≡ links_of (mesh_behind half.entry).shape (number_of half.entry) }
{
    [
        half.next().index(),
        half.prev().index(),
        half.from().index(),
        half.face().index(),
    ]
}
