//! A vertex removed from a constraint that goes straight through it, and the constraint's other ends
//! joined again.

ghost use Rattle.std.specs.Prelude.{◌≡◌, ◌≢◌, ◌⊎◌, ◌↔◌, ◌<◌, ◌-◌, ℕ, IfErr, IfNone, IfOk, IfSome, IsTrue, OnOk};
ghost use Rattle.dcel_constrained.specs.Channels.{HasVertices};
ghost use Rattle.dcel_constrained.specs.Constrained.{marked_mesh};
ghost use Rattle.dcel_constrained.specs.Meeting.{LiesBetweenEnds};
ghost use Rattle.dcel_constrained.specs.Rejoining.{FailsToRejoin, IsStraightAt, LeadsPast, RejoinsConstraintsOf, error_after};
ghost use Rattle.dcel_constrained.specs.Soundness.{AreConstrained};
ghost use Rattle.dcel_delaunay.specs.Removing.{Loses};
ghost use Rattle.dcel_maps.specs.Renumbering.{moved};
ghost use Rattle.dcel_maps.specs.Shapes.{IsLive, IsMesh, end_of};
ghost use Rattle.dcel_planar.specs.Outcomes.{IsWholeMesh};
ghost use Rattle.dcel_plane.specs.Plane.{point_at};

use crate::errors::{JoinError, Unjoined};
use crate::mesh::{ConstrainedMesh, is_marked};
use crate::segments::offsets::{offset_of, point_of};
use crate::segments::walk::apart;
use crate::triangulation::ConstrainedTriangulation;
use dcel_delaunay::{RemovalError, Removed};
use spade_dcel::handles::{FixedDirectedEdgeHandle, FixedVertexHandle};
use spade_dcel::laws::every_mesh;
use std::alloc::Allocator;

/// The other ends of the two constraints of a vertex.
#[derive(Clone, Copy)]
struct Ends {
    from: FixedVertexHandle,
    to: FixedVertexHandle,
}

impl<A: Allocator + Clone> ConstrainedTriangulation<A> {
    /// Removes a vertex, as [`remove`](Self::remove) does, and joins the constraint that goes straight
    /// through it.
    ///
    /// If exactly two marked edges end at the vertex, and it is between their other ends, the segment
    /// between these is one of marked edges afterwards. So it undoes an insertion that split a
    /// constraint. All other constraints stay, and no other edge is marked.
    ///
    /// If memory runs out once the vertex is gone, and the segment isn't added yet, the result is
    /// [`NotJoined`](JoinError::NotJoined) with its ends, between which
    /// [`add_constraint`](Self::add_constraint) adds it. All other errors are those of `remove`, with
    /// what they leave: if it runs out before the vertex is gone, constraints that end at it may be
    /// freed, and what was straight may not be found again.
    pub fn remove_and_join(&mut self, vertex: FixedVertexHandle) -> Result<Removed, JoinError>
        ensures removes { IfOk result (Loses (marked_mesh self.old) (marked_mesh self.new) vertex) }
        ensures constraints { OnOk result (RejoinsConstraintsOf (marked_mesh self.old) (marked_mesh self.new) vertex) }
        ensures whole { OnOk result (IsWholeMesh self.new.planar) }
        ensures fails { IfErr result (FailsToRejoin self.old.planar self.new.planar vertex) }
    {
        every_mesh(&self.planar.dcel);
        let Ok(()) = self.finish() else {
            every_mesh(&self.planar.dcel);
            return Err(JoinError::Removal(RemovalError::OutOfMemory));
        };
        every_mesh(&self.planar.dcel);
        let Some(ends) = straight_at(&self.planar.dcel, vertex) else {
            return self.remove_alone(vertex);
        };
        self.remove_between(vertex, ends.from, ends.to)
    }

    /// Removes a vertex of which no constraint is to be joined.
    fn remove_alone(&mut self, vertex: FixedVertexHandle) -> Result<Removed, JoinError>
        requires whole { IsWholeMesh self.old.planar }
        requires none { (a b : ℕ) → ¬ IsStraightAt (marked_mesh self.old) vertex a b }
        ensures removes { IfOk result (Loses (marked_mesh self.old) (marked_mesh self.new) vertex) }
        ensures constraints { OnOk result (RejoinsConstraintsOf (marked_mesh self.old) (marked_mesh self.new) vertex) }
        ensures whole { OnOk result (IsWholeMesh self.new.planar) }
        ensures fails { IfErr result (FailsToRejoin self.old.planar self.new.planar vertex) }
        ensures mesh { IsMesh (marked_mesh self.new) }
    {
        let removed = self.remove(vertex);
        every_mesh(&self.planar.dcel);
        match removed {
            Ok(removed) => Ok(removed),
            Err(error) => Err(JoinError::Removal(error)),
        }
    }

    /// Removes a vertex, and joins the other ends of its two constraints.
    fn remove_between(
        &mut self,
        vertex: FixedVertexHandle,
        from: FixedVertexHandle,
        to: FixedVertexHandle,
    ) -> Result<Removed, JoinError>
        requires whole { IsWholeMesh self.old.planar }
        requires straight { IsStraightAt (marked_mesh self.old) vertex from to }
        ensures removes { IfOk result (Loses (marked_mesh self.old) (marked_mesh self.new) vertex) }
        ensures constraints { OnOk result (RejoinsConstraintsOf (marked_mesh self.old) (marked_mesh self.new) vertex) }
        ensures whole { OnOk result (IsWholeMesh self.new.planar) }
        ensures fails { IfErr result (FailsToRejoin self.old.planar self.new.planar vertex) }
        ensures mesh { IsMesh (marked_mesh self.new) }
    {
        every_mesh(&self.planar.dcel);
        let vertices = self.planar.dcel.num_vertices();
        let from = number_after(vertices, vertex, from);
        let to = number_after(vertices, vertex, to);
        let removed = self.remove(vertex);
        every_mesh(&self.planar.dcel);
        match removed {
            Ok(removed) => {
                let added = self.add_constraint(from, to);
                every_mesh(&self.planar.dcel);
                match added {
                    Ok(_) => Ok(removed),
                    Err(_) => Err(JoinError::NotJoined(Unjoined { removed, from, to })),
                }
            }
            Err(error) => Err(error_after(error, from, to)),
        }
    }
}

/// Returns why no segment was joined, between these vertices, as a removal failed.
fn error_after(error: RemovalError, from: FixedVertexHandle, to: FixedVertexHandle) -> JoinError
    ensures { result ≡ error_after error from to }
{
    match error {
        RemovalError::Unfinished(removed) => JoinError::NotJoined(Unjoined { removed, from, to }),
        error => JoinError::Removal(error),
    }
}

/// Returns the number of a vertex, among so many, once another one is removed.
fn number_after(
    vertices: usize,
    removed: FixedVertexHandle,
    vertex: FixedVertexHandle,
) -> FixedVertexHandle
    requires { vertex < vertices }
    ensures { result ≡ moved (vertices - 1) removed vertex }
{
    if vertex.index() == vertices - 1 {
        return removed;
    }
    vertex
}

/// Returns the other ends of the constraints of a vertex, if there are two and it is between them.
fn straight_at<A: Allocator>(dcel: &ConstrainedMesh<A>, vertex: FixedVertexHandle) -> Option<Ends>
    ensures some { IfSome result (λ ends. IsStraightAt dcel.now vertex ends.from ends.to) }
    ensures none { IfNone result ((a b : ℕ) → ¬ IsStraightAt dcel.now vertex a b) }
{
    every_mesh(dcel);
    if vertex.index() >= dcel.num_vertices() {
        return None;
    }
    let Some(from) = constraint_beside(dcel, vertex, vertex, vertex) else {
        return None;
    };
    let Some(to) = constraint_beside(dcel, vertex, from, from) else {
        return None;
    };
    match constraint_beside(dcel, vertex, from, to) {
        Some(_third) => None,
        None => {
            if !lies_between(dcel, from, to, vertex) {
                return None;
            }
            Some(Ends { from, to })
        }
    }
}

/// Returns whether a vertex is on the segment between two others, and neither end of it.
fn lies_between<A: Allocator>(
    dcel: &ConstrainedMesh<A>,
    from: FixedVertexHandle,
    to: FixedVertexHandle,
    vertex: FixedVertexHandle,
) -> bool
    requires ends { HasVertices dcel.now.shape from to }
    requires vertex { vertex < dcel.now.shape.vertices }
    ensures { IsTrue result ↔ LiesBetweenEnds (point_at dcel.now) from to vertex }
{
    if offset_of(dcel, from, to, vertex) != 0 {
        return false;
    }
    apart(
        point_of(dcel, from),
        point_of(dcel, to),
        point_of(dcel, vertex),
    ) < 0
}

/// Returns the other end of a constraint of a vertex, if there is one but these two.
fn constraint_beside<A: Allocator>(
    dcel: &ConstrainedMesh<A>,
    vertex: FixedVertexHandle,
    first: FixedVertexHandle,
    second: FixedVertexHandle,
) -> Option<FixedVertexHandle>
    requires { vertex < dcel.now.shape.vertices }
    ensures some { IfSome result (λ w. AreConstrained dcel.now vertex w × (w ≢ first) × (w ≢ second)) }
    ensures none { IfNone result ((w : ℕ) → AreConstrained dcel.now vertex w → (w ≡ first) ⊎ (w ≡ second)) }
{
    let mut edges = dcel.vertex(vertex).out_edges();
    while let Some(edge) = edges.next() {
        let half = edge.fix();
        if leads_past(dcel, half, first, second) {
            return Some(end_at(dcel, half));
        }
    }
    None
}

/// Returns whether the edge of a half edge is marked, and it ends at neither of two vertices.
fn leads_past<A: Allocator>(
    dcel: &ConstrainedMesh<A>,
    half: FixedDirectedEdgeHandle,
    first: FixedVertexHandle,
    second: FixedVertexHandle,
) -> bool
    requires { IsLive dcel.now.shape half }
    ensures { IsTrue result ↔ LeadsPast dcel.now first second half }
{
    let end = end_at(dcel, half);
    if end == first {
        return false;
    }
    if end == second {
        return false;
    }
    is_marked(dcel, half.as_undirected())
}

/// Returns the vertex where a half edge ends.
fn end_at<A: Allocator>(
    dcel: &ConstrainedMesh<A>,
    half: FixedDirectedEdgeHandle,
) -> FixedVertexHandle
    requires { IsLive dcel.now.shape half }
    ensures { result ≡ end_of dcel.now.shape half }
{
    every_mesh(dcel);
    dcel.directed_edge(half).to().fix()
}
