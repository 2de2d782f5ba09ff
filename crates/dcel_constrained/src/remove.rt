//! A vertex removed, with the constraints that end at it.

ghost use Rattle.std.specs.Prelude.{◌≡◌, ◌↔◌, ◌<◌, ◌/◌, IfErr, IfNone, IfOk, IfSome, IsTrue, OnErr, OnOk};
ghost use Rattle.dcel_constrained.specs.Constrained.{marked_mesh};
ghost use Rattle.dcel_constrained.specs.Constraints.{ListsFree};
ghost use Rattle.dcel_constrained.specs.Removing.{FreesEdgesOf, HasNoConstraintAt, KeepsOtherConstraints, LeavesConstraints, LosesConstraintsOf};
ghost use Rattle.dcel_constrained.specs.Soundness.{IsConstrained};
ghost use Rattle.dcel_constrained.specs.Splitting.{StaysMarked};
ghost use Rattle.dcel_delaunay.specs.Removing.{FailsToRemove, IsInnerVertex, Loses};
ghost use Rattle.dcel_maps.specs.Conditions.{HasRoom};
ghost use Rattle.dcel_maps.specs.Shapes.{IsLive, IsMesh, origin_of};
ghost use Rattle.dcel_maps.specs.Walking.{IsOutEdge};
ghost use Rattle.dcel_planar.specs.Growing.{Keeps};
ghost use Rattle.dcel_planar.specs.Leaving.{IsOutlined};
ghost use Rattle.dcel_planar.specs.Outcomes.{IsWholeMesh};
ghost use Rattle.dcel_regions.specs.Marked.{IsMarked};

use crate::mesh::{ConstrainedMesh, is_marked, set_mark};
use crate::triangulation::ConstrainedTriangulation;
use dcel_delaunay::{RemovalError, Removed, remove_vertex};
use dcel_planar::{PlanarMesh, Point, outside_of};
use dcel_regions::Mark;
use spade_dcel::handles::{FixedDirectedEdgeHandle, FixedUndirectedEdgeHandle, FixedVertexHandle};
use spade_dcel::iterators::{CCWEdgesNextBackFn, CircularIterator};
use spade_dcel::laws::every_mesh;
use std::alloc::{AllocError, Allocator};

impl<A: Allocator + Clone> ConstrainedTriangulation<A> {
    /// Removes a vertex with the constraints that end at it, and returns its point.
    ///
    /// Marked edges at the vertex go with it. All others stay, between the same vertices, and no other
    /// edge is marked. The last vertex gets the number of the vertex, as the result says; all others
    /// keep theirs, but edges get new numbers. The triangulation is then one of the points that are
    /// left, a line if they all are on one, and of none after the last.
    ///
    /// If there is no such vertex, the result is [`NoVertex`](RemovalError::NoVertex), and if it is
    /// inside of triangles and no numbers are left for an edge and two triangles,
    /// [`TooManyPoints`](RemovalError::TooManyPoints): a whole triangulation
    /// ([`is_whole`](Self::is_whole)) is then as it was, and any other is whole now.
    ///
    /// If memory runs out before the vertex is gone, it stays, but constraints that end at it may be
    /// freed; all other constraints stay. If it runs out afterwards, the result is
    /// [`Unfinished`](RemovalError::Unfinished). Either way the next call that changes something, or
    /// [`finish`](Self::finish), goes on with what is left to do.
    pub fn remove(&mut self, vertex: FixedVertexHandle) -> Result<Removed, RemovalError>
        ensures removes { IfOk result (Loses (marked_mesh self.old) (marked_mesh self.new) vertex) }
        ensures constraints { OnOk result (LosesConstraintsOf (marked_mesh self.old) (marked_mesh self.new) vertex) }
        ensures whole { OnOk result (IsWholeMesh self.new.planar) }
        ensures refuses { IfErr result (FailsToRemove self.old.planar self.new.planar vertex) }
        ensures left { IfErr result (LeavesConstraints (marked_mesh self.old) (marked_mesh self.new) vertex) }
    {
        every_mesh(&self.planar.dcel);
        let Ok(()) = self.finish() else {
            every_mesh(&self.planar.dcel);
            return Err(RemovalError::OutOfMemory);
        };
        every_mesh(&self.planar.dcel);
        if vertex.index() >= self.planar.dcel.num_vertices() {
            return Err(RemovalError::NoVertex);
        }
        if lacks_room(&self.planar.dcel, vertex) {
            return Err(RemovalError::TooManyPoints);
        }
        let Ok(removed) = take_out(&mut self.planar, vertex) else {
            return Err(RemovalError::OutOfMemory);
        };
        self.settle(removed)
    }

    /// Flips the edges that a removal left to be looked at, and returns what was removed.
    fn settle(&mut self, removed: Removed) -> Result<Removed, RemovalError>
        requires hull { IsOutlined (marked_mesh self.old) }
        ensures keeps { Keeps (marked_mesh self.old) (marked_mesh self.new) }
        ensures stays { StaysMarked (marked_mesh self.old) (marked_mesh self.new) }
        ensures same { IfOk result (λ r. r ≡ removed) }
        ensures unfinished { IfErr result (λ e. (e ≡ RemovalError.Unfinished removed) × ¬ IsWholeMesh self.new.planar) }
        ensures whole { OnOk result (IsWholeMesh self.new.planar) }
        ensures mesh { IsMesh (marked_mesh self.new) }
    {
        let Ok(()) = self.planar.legalize() else {
            every_mesh(&self.planar.dcel);
            return Err(RemovalError::Unfinished(removed));
        };
        every_mesh(&self.planar.dcel);
        Ok(removed)
    }
}

/// Returns whether a vertex is inside of triangles, and there are no numbers for the edge and the two
/// triangles that take its place.
fn lacks_room<A: Allocator>(dcel: &ConstrainedMesh<A>, vertex: FixedVertexHandle) -> bool
    requires { vertex < dcel.now.shape.vertices }
    ensures { IsTrue result ↔ (IsInnerVertex dcel.now.shape vertex × ¬ HasRoom dcel.now.shape 0 1 2) }
{
    match outside_of(dcel, vertex) {
        Some(_outside) => false,
        None => !dcel.has_room(0, 1, 2),
    }
}

/// Frees the marked edges of a vertex, removes it, and lists the edges that are to be looked at then.
///
/// If memory runs out, the vertex stays; marked edges of it may be freed, and edges flipped.
fn take_out<A: Allocator + Clone>(
    mesh: &mut PlanarMesh<Mark, A>,
    vertex: FixedVertexHandle,
) -> Result<Removed, AllocError>
    requires listed { ListsFree mesh.old.dcel mesh.old.due.items }
    requires hull { IsOutlined mesh.old.dcel }
    requires vertex { vertex < mesh.old.dcel.shape.vertices }
    requires room { ¬ (IsInnerVertex mesh.old.dcel.shape vertex × ¬ HasRoom mesh.old.dcel.shape 0 1 2) }
    ensures loses { IfOk result (Loses mesh.old.dcel mesh.new.dcel vertex) }
    ensures constraints { OnOk result (LosesConstraintsOf mesh.old.dcel mesh.new.dcel vertex) }
    ensures keeps { OnErr result (Keeps mesh.old.dcel mesh.new.dcel) }
    ensures others { OnErr result (KeepsOtherConstraints mesh.old.dcel mesh.new.dcel vertex) }
    ensures listed { ListsFree mesh.new.dcel mesh.new.due.items }
    ensures hull { IsOutlined mesh.new.dcel }
    ensures mesh { IsMesh mesh.new.dcel }
{
    every_mesh(&mesh.dcel);
    let Ok(()) = free_edges_of(&mut mesh.dcel, &mut mesh.due, vertex) else {
        return Err(AllocError);
    };
    let Ok(removed) = remove_vertex(mesh, vertex) else {
        every_mesh(&mesh.dcel);
        return Err(AllocError);
    };
    every_mesh(&mesh.dcel);
    Ok(removed)
}

/// Frees the marked edges of a vertex, and lists them.
///
/// It goes around the vertex from one to the next. If memory runs out, some may be marked still.
fn free_edges_of<A: Allocator>(
    dcel: &mut ConstrainedMesh<A>,
    due: &mut Vec<FixedUndirectedEdgeHandle, A>,
    vertex: FixedVertexHandle,
) -> Result<(), AllocError>
    requires sound { IsConstrained dcel.old due.old.items }
    requires hull { IsOutlined dcel.old }
    requires vertex { vertex < dcel.old.shape.vertices }
    ensures frees { FreesEdgesOf dcel.old dcel.new vertex }
    ensures sound { IsConstrained dcel.new due.new.items }
    ensures hull { IsOutlined dcel.new }
    ensures free { OnOk result (HasNoConstraintAt dcel.new vertex) }
    ensures mesh { IsMesh dcel.new }
{
    every_mesh(dcel);
    let Some(first) = dcel.vertex(vertex).out_edge() else {
        return Ok(());
    };
    let mut half = first.fix();
    while let Some(marked) = marked_from(dcel, half) {
        let edge = marked.as_undirected();
        due.reserve(1)?;
        set_mark(dcel, edge, Mark::Free);
        due.push_reserved(edge);
        half = marked;
    }
    Ok(())
}

/// Returns the first half edge around its start, from this one on, whose edge is marked, if there is
/// one.
fn marked_from<A: Allocator>(
    dcel: &ConstrainedMesh<A>,
    half: FixedDirectedEdgeHandle,
) -> Option<FixedDirectedEdgeHandle>
    requires { IsLive dcel.now.shape half }
    ensures some { IfSome result (λ h. IsOutEdge dcel.now.shape (origin_of dcel.now.shape half) h × IsMarked dcel.now (h / 2)) }
    ensures none { IfNone result (HasNoConstraintAt dcel.now (origin_of dcel.now.shape half)) }
{
    every_mesh(dcel);
    let mut edges: CircularIterator<'_, Point, (), Mark, (), CCWEdgesNextBackFn, A> =
        CircularIterator::new(dcel.directed_edge(half));
    while let Some(edge) = edges.next() {
        let half = edge.fix();
        if is_marked(dcel, half.as_undirected()) {
            return Some(half);
        }
    }
    None
}
