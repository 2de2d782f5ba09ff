//! Segments made chains of marked edges, from one vertex on them to the next.

ghost use Rattle.std.specs.Prelude.{◌≡◌, ◌≢◌, ◌⊎◌, ◌↔◌, ◌<◌, ◌/◌, [], ℕ, false, IfOk, IsTrue, OnErr, OnOk};
ghost use Rattle.dcel_maps.specs.edits.Data.{undirected_edge_updated};
ghost use Rattle.dcel_maps.specs.Removals.{Closed};
ghost use Rattle.dcel_maps.specs.Shapes.{IsMesh};
ghost use Rattle.dcel_maps.specs.Walking.{Leads};
ghost use Rattle.dcel_maps.specs.Words.{count_of};
ghost use Rattle.dcel_planar.specs.Growing.{HasHull, IsFlat};
ghost use Rattle.dcel_regions.specs.Marked.{IsMarked};
ghost use Rattle.dcel_regions.specs.declared.mark.Mark.TheVariants.{Constraint};
ghost use Rattle.dcel_plane.specs.Plane.{point_at};
ghost use Rattle.dcel_plane.specs.segments.Segments.{BeginsAt};
ghost use Rattle.dcel_constrained.specs.Channels.{HasVertices};
ghost use Rattle.dcel_constrained.specs.Constraints.{HasConstraint, IsFreeWay, KeepsMarked, MarksOnly};
ghost use Rattle.dcel_constrained.specs.Laying.{IsLaidIfFree, IsPart, LaysOnly, MarksBetween};
ghost use Rattle.dcel_constrained.specs.Soundness.{CanAdd, IsConstrained, MarksAnother};

use crate::mesh::{ConstrainedMesh, is_marked, set_mark};
use crate::segments::edges::edge_between;
use crate::segments::flips::connect;
use crate::segments::join::gather;
use crate::segments::walk::{Met, first_met};
use crate::segments::ways::{first_along, is_free_way};
use dcel_planar::PlanarMesh;
use dcel_regions::Mark;
use spade_dcel::handles::{FixedDirectedEdgeHandle, FixedUndirectedEdgeHandle, FixedVertexHandle};
use spade_dcel::laws::every_mesh;
use std::alloc::{AllocError, Allocator};

/// What became of a segment, or of its first part.
#[derive(Clone, Copy)]
pub(crate) enum Part {
    /// A marked edge joins its ends; whether it wasn't marked before.
    Laid(bool),
    /// This vertex is between them, and nothing has changed.
    Between(FixedVertexHandle),
    /// It crosses a marked edge, and nothing has changed.
    Blocked,
}

/// Makes the segment between two vertices one of marked edges, by flips of edges that it crosses, and
/// returns whether some edge is marked then that wasn't.
pub(crate) fn lay_through_triangles<A: Allocator>(
    planar: &mut PlanarMesh<Mark, A>,
    from: FixedVertexHandle,
    to: FixedVertexHandle,
    crossed: &mut Vec<FixedDirectedEdgeHandle, A>,
) -> Result<bool, AllocError>
    requires sound { IsConstrained planar.old.dcel planar.old.due.items }
    requires whole { planar.old.due.items ≡ [] }
    requires hull { HasHull planar.old.dcel }
    requires can { CanAdd planar.old.dcel from to }
    requires empty { crossed.old.items ≡ [] }
    ensures sound { IsConstrained planar.new.dcel planar.new.due.items }
    ensures hull { HasHull planar.new.dcel }
    ensures laid { OnOk result (HasConstraint planar.new.dcel from to) }
    ensures keeps { KeepsMarked planar.old.dcel planar.new.dcel }
    ensures only { MarksOnly planar.old.dcel planar.new.dcel from to }
    ensures points { planar.new.dcel.vertex_data ≡ planar.old.dcel.vertex_data }
    ensures edges { planar.new.dcel.shape.edges ≡ planar.old.dcel.shape.edges }
    ensures added { IfOk result (λ added. IsTrue added ↔ MarksAnother planar.old.dcel planar.new.dcel) }
    ensures same { ¬ MarksAnother planar.old.dcel planar.new.dcel → (planar.new.dcel ≡ planar.old.dcel) × (planar.new.due.items ≡ []) }
    ensures whole { OnOk result (planar.new.due.items ≡ []) }
    ensures empty { crossed.new.items ≡ [] }
    ensures mesh { IsMesh planar.new.dcel }
{
    every_mesh(&planar.dcel);
    let mut at = from;
    let mut goal = to;
    let mut added = false;
    while at != to {
        match lay_part(planar, at, goal, crossed)? {
            Part::Blocked => unreachable!(),
            Part::Between(vertex) => goal = vertex,
            Part::Laid(is_new) => {
                added = either(added, is_new);
                at = goal;
                goal = to;
            }
        }
    }
    Ok(added)
}

/// Makes the segment between two vertices one of marked edges, as [`lay_through_triangles`] does, unless
/// it crosses a marked edge: then nothing changes, and the result is `None`.
pub(crate) fn lay_if_free<A: Allocator>(
    planar: &mut PlanarMesh<Mark, A>,
    from: FixedVertexHandle,
    to: FixedVertexHandle,
    crossed: &mut Vec<FixedDirectedEdgeHandle, A>,
) -> Result<Option<bool>, AllocError>
    requires sound { IsConstrained planar.old.dcel planar.old.due.items }
    requires whole { planar.old.due.items ≡ [] }
    requires hull { HasHull planar.old.dcel }
    requires differ { from ≢ to }
    requires ends { HasVertices planar.old.dcel.shape from to }
    requires empty { crossed.old.items ≡ [] }
    ensures lays { LaysOnly planar.old.dcel planar.new.dcel planar.new.due.items from to }
    ensures laid { IfOk result (IsLaidIfFree planar.old.dcel planar.new.dcel from to) }
    ensures tested { OnErr result (MarksAnother planar.old.dcel planar.new.dcel → IsFreeWay planar.old.dcel from to) }
    ensures whole { OnOk result (planar.new.due.items ≡ []) }
    ensures empty { crossed.new.items ≡ [] }
{
    match lay_part(planar, from, to, crossed)? {
        Part::Blocked => Ok(None),
        Part::Laid(is_new) => Ok(Some(is_new)),
        Part::Between(_) => lay_parts_if_free(planar, from, to, crossed),
    }
}

/// Makes a segment with vertices between its ends one of marked edges, unless it crosses a marked edge.
fn lay_parts_if_free<A: Allocator>(
    planar: &mut PlanarMesh<Mark, A>,
    from: FixedVertexHandle,
    to: FixedVertexHandle,
    crossed: &mut Vec<FixedDirectedEdgeHandle, A>,
) -> Result<Option<bool>, AllocError>
    requires sound { IsConstrained planar.old.dcel planar.old.due.items }
    requires whole { planar.old.due.items ≡ [] }
    requires hull { HasHull planar.old.dcel }
    requires differ { from ≢ to }
    requires ends { HasVertices planar.old.dcel.shape from to }
    requires empty { crossed.old.items ≡ [] }
    ensures lays { LaysOnly planar.old.dcel planar.new.dcel planar.new.due.items from to }
    ensures laid { IfOk result (IsLaidIfFree planar.old.dcel planar.new.dcel from to) }
    ensures tested { OnErr result (MarksAnother planar.old.dcel planar.new.dcel → IsFreeWay planar.old.dcel from to) }
    ensures whole { OnOk result (planar.new.due.items ≡ []) }
    ensures empty { crossed.new.items ≡ [] }
{
    every_mesh(&planar.dcel);
    // No part is laid before all are known to be free.
    if !is_free_way(&planar.dcel, from, to) {
        return Ok(None);
    }
    let added = lay_through_triangles(planar, from, to, crossed)?;
    Ok(Some(added))
}

/// Makes a segment a marked edge, unless a vertex is between its ends or it crosses a marked edge, and
/// the triangulation whole again.
///
/// Most segments are edges already. That is looked for first, as it reads no point.
fn lay_part<A: Allocator>(
    planar: &mut PlanarMesh<Mark, A>,
    from: FixedVertexHandle,
    to: FixedVertexHandle,
    crossed: &mut Vec<FixedDirectedEdgeHandle, A>,
) -> Result<Part, AllocError>
    requires sound { IsConstrained planar.old.dcel planar.old.due.items }
    requires whole { planar.old.due.items ≡ [] }
    requires hull { HasHull planar.old.dcel }
    requires differ { from ≢ to }
    requires ends { HasVertices planar.old.dcel.shape from to }
    requires empty { crossed.old.items ≡ [] }
    ensures sound { IsConstrained planar.new.dcel planar.new.due.items }
    ensures hull { HasHull planar.new.dcel }
    ensures part { IfOk result (IsPart planar.old.dcel planar.new.dcel from to) }
    ensures tested { OnErr result (MarksAnother planar.old.dcel planar.new.dcel → IsFreeWay planar.old.dcel from to) }
    ensures marks { MarksBetween planar.old.dcel planar.new.dcel from to }
    ensures same { ¬ MarksAnother planar.old.dcel planar.new.dcel → (planar.new.dcel ≡ planar.old.dcel) × (planar.new.due.items ≡ []) }
    ensures mesh { IsMesh planar.new.dcel }
    ensures whole { OnOk result (planar.new.due.items ≡ []) }
    ensures empty { crossed.new.items ≡ [] }
{
    every_mesh(&planar.dcel);
    if let Some(half) = edge_between(&planar.dcel, from, to) {
        let is_new = mark(&mut planar.dcel, half.as_undirected());
        return Ok(Part::Laid(is_new));
    }
    match first_met(&planar.dcel, from, to) {
        Met::Vertex(vertex) => Ok(Part::Between(vertex)),
        Met::Side(first) => lay_across(planar, from, to, first, crossed),
    }
}

/// Makes a segment a marked edge whose way begins across this half edge, unless a vertex is between its
/// ends or it crosses a marked edge, and the triangulation whole again.
fn lay_across<A: Allocator>(
    planar: &mut PlanarMesh<Mark, A>,
    from: FixedVertexHandle,
    to: FixedVertexHandle,
    first: FixedDirectedEdgeHandle,
    crossed: &mut Vec<FixedDirectedEdgeHandle, A>,
) -> Result<Part, AllocError>
    requires sound { IsConstrained planar.old.dcel planar.old.due.items }
    requires whole { planar.old.due.items ≡ [] }
    requires hull { HasHull planar.old.dcel }
    requires differ { from ≢ to }
    requires ends { HasVertices planar.old.dcel.shape from to }
    requires begins { BeginsAt (point_at planar.old.dcel) planar.old.dcel.shape from to first }
    requires empty { crossed.old.items ≡ [] }
    ensures sound { IsConstrained planar.new.dcel planar.new.due.items }
    ensures hull { HasHull planar.new.dcel }
    ensures part { IfOk result (IsPart planar.old.dcel planar.new.dcel from to) }
    ensures tested { OnErr result (MarksAnother planar.old.dcel planar.new.dcel → IsFreeWay planar.old.dcel from to) }
    ensures marks { MarksBetween planar.old.dcel planar.new.dcel from to }
    ensures same { ¬ MarksAnother planar.old.dcel planar.new.dcel → (planar.new.dcel ≡ planar.old.dcel) × (planar.new.due.items ≡ []) }
    ensures mesh { IsMesh planar.new.dcel }
    ensures whole { OnOk result (planar.new.due.items ≡ []) }
    ensures empty { crossed.new.items ≡ [] }
{
    every_mesh(&planar.dcel);
    // Where nothing changes, what is noted needn't be looked at.
    let Ok(vertex) = gather(&planar.dcel, from, to, first, crossed, &mut planar.due) else {
        crossed.clear();
        planar.due.clear();
        return Err(AllocError);
    };
    if vertex != to {
        crossed.clear();
        planar.due.clear();
        return Ok(Part::Between(vertex));
    }
    if is_some_marked(&planar.dcel, crossed) {
        crossed.clear();
        planar.due.clear();
        return Ok(Part::Blocked);
    }
    connect(&mut planar.dcel, from, to, crossed);
    mark_between(&mut planar.dcel, from, to);
    planar.legalize()?;
    Ok(Part::Laid(true))
}

/// Returns whether one of these half edges belongs to a marked edge.
fn is_some_marked<A: Allocator>(
    dcel: &ConstrainedMesh<A>,
    halves: &[FixedDirectedEdgeHandle],
) -> bool
    ensures some { IsTrue result → (h : ℕ) × (0 < count_of h halves.now) × IsMarked dcel.now (h / 2) }
    ensures none { result ≡ false → (h : ℕ) → 0 < count_of h halves.now → ¬ IsMarked dcel.now (h / 2) }
{
    for at in 0..halves.len() {
        if is_marked(dcel, halves[at].as_undirected()) {
            return true;
        }
    }
    false
}

/// Marks the edge between two vertices.
pub(crate) fn mark_between<A: Allocator>(
    dcel: &mut ConstrainedMesh<A>,
    from: FixedVertexHandle,
    to: FixedVertexHandle,
)
    requires joined { (h : ℕ) × Leads dcel.old.shape from to h }
    requires closed { dcel.old.shape.removal ≡ Closed }
    ensures marked { (h : ℕ) × Leads dcel.old.shape from to h × (dcel.new ≡ undirected_edge_updated dcel.old (h / 2) Constraint) }
    ensures mesh { IsMesh dcel.new }
{
    every_mesh(dcel);
    let Some(half) = edge_between(dcel, from, to) else {
        unreachable!()
    };
    set_mark(dcel, half.as_undirected(), Mark::Constraint);
}

/// Marks an edge, and returns whether it wasn't marked.
fn mark<A: Allocator>(dcel: &mut ConstrainedMesh<A>, edge: FixedUndirectedEdgeHandle) -> bool
    requires { edge < dcel.old.shape.edges }
    ensures marked { dcel.new ≡ undirected_edge_updated dcel.old edge Constraint }
    ensures added { IsTrue result ↔ (¬ IsMarked dcel.old edge) }
    ensures mesh { IsMesh dcel.new }
{
    let was = is_marked(dcel, edge);
    set_mark(dcel, edge, Mark::Constraint);
    !was
}

/// Marks the edges that lead from one vertex to another on a line, and returns whether one of them
/// wasn't marked.
pub(crate) fn lay_on_line<A: Allocator>(
    dcel: &mut ConstrainedMesh<A>,
    from: FixedVertexHandle,
    to: FixedVertexHandle,
) -> bool
    requires sound { IsConstrained dcel.old [] }
    requires flat { IsFlat dcel.old }
    requires can { CanAdd dcel.old from to }
    ensures sound { IsConstrained dcel.new [] }
    ensures flat { IsFlat dcel.new }
    ensures laid { HasConstraint dcel.new from to }
    ensures keeps { KeepsMarked dcel.old dcel.new }
    ensures only { MarksOnly dcel.old dcel.new from to }
    ensures points { dcel.new.vertex_data ≡ dcel.old.vertex_data }
    ensures edges { dcel.new.shape.edges ≡ dcel.old.shape.edges }
    ensures added { IsTrue result ↔ MarksAnother dcel.old dcel.new }
    ensures mesh { IsMesh dcel.new }
    ensures same { ¬ MarksAnother dcel.old dcel.new → dcel.new ≡ dcel.old }
{
    every_mesh(dcel);
    let mut at = from;
    let mut added = false;
    while at != to {
        let half = first_along(dcel, at, to);
        let end = dcel.directed_edge(half).to().fix();
        let is_new = mark(dcel, half.as_undirected());
        added = either(added, is_new);
        at = end;
    }
    added
}

/// Returns whether one of the two holds.
fn either(first: bool, second: bool) -> bool
    ensures { IsTrue result ↔ (IsTrue first ⊎ IsTrue second) }
{
    if first {
        return true;
    }
    second
}
