//! The hull closed round a vertex that was put beside one edge of it, until it is convex.

ghost use Rattle.std.specs.Prelude.{◌≡◌, ◌+◌, ◌<◌, ◌↔◌, ℕ, IfErr, IfNone, IfOk, IfSome, IsTrue, OnErr, OnOk};
ghost use Rattle.spade_dcel.specs.Handles.{mesh_behind, number_of};
ghost use Rattle.dcel_maps.specs.Shapes.{IsLive, IsMesh, end_of, origin_of};
ghost use Rattle.dcel_planar.specs.Corners.{IsClosedAfter, IsClosedAt, IsClosedBefore, StartsOutside, TurnsIn};
ghost use Rattle.dcel_planar.specs.Growing.{HasHull, HasOutside, IsOpen};
ghost use Rattle.dcel_planar.specs.Leaving.{ClosesHull, IsOuter, IsOutlined, IsSame};
ghost use Rattle.dcel_planar.specs.Outcomes.{IsWholeMesh};

use crate::errors::InsertionError;
use crate::mesh::{Edge, EdgeMesh, point_of, side};
use crate::planar::PlanarMesh;
use dcel_predicates::Side;
use spade_dcel::handles::{FixedDirectedEdgeHandle, FixedUndirectedEdgeHandle, FixedVertexHandle};
use spade_dcel::laws::every_mesh;
use spade_dcel::operations::create_single_face_between_edge_and_next;
use std::alloc::Allocator;

impl<UE: Default, A: Allocator> PlanarMesh<UE, A> {
    /// Closes the hull round the last vertex, if it was put beside an edge and the hull is not closed
    /// yet, and lists the edges of the triangles.
    ///
    /// A mesh that is a line, or has its hull, stays as it is.
    ///
    /// If there is no room or no memory for a triangle, the result is
    /// [`Unfinished`](InsertionError::Unfinished): the triangles before stay, edges are left to be
    /// looked at, and the next call goes on.
    pub fn close_hull(&mut self) -> Result<(), InsertionError>
        ensures closes { ClosesHull UE.is_default self.old self.new }
        ensures hull { OnOk result (IsOutlined self.new.dcel) }
        ensures outside { HasOutside self.old.dcel self.old.due.items → HasOutside self.new.dcel self.new.due.items }
        ensures unfinished { IfErr result (λ e. (e ≡ InsertionError.Unfinished) × ¬ IsWholeMesh self.new) }
    {
        match outside_of_last(&self.dcel) {
            Some(edge) => self.close_sides(edge),
            None => Ok(()),
        }
    }

    /// Closes triangles on both sides of the vertex where an outer half edge starts, as long as the
    /// outer face turns in there.
    fn close_sides(&mut self, edge: FixedDirectedEdgeHandle) -> Result<(), InsertionError>
        requires outer { IsOuter self.old.dcel edge }
        ensures closes { ClosesHull UE.is_default self.old self.new }
        ensures hull { OnOk result (IsOpen self.old.dcel (origin_of self.old.dcel.shape edge) → HasHull self.new.dcel) }
        ensures unfinished { IfErr result (λ e. (e ≡ InsertionError.Unfinished) × ¬ IsWholeMesh self.new) }
    {
        let after = self.close_after(edge)?;
        every_mesh(&self.dcel);
        let before = self.dcel.directed_edge(after).prev().fix();
        self.close_before(before)
    }

    /// Closes triangles after the vertex where an outer half edge starts, as long as the outer face
    /// turns in there, and returns the outer half edge that starts there then.
    fn close_after(
        &mut self,
        edge: FixedDirectedEdgeHandle,
    ) -> Result<FixedDirectedEdgeHandle, InsertionError>
        requires outer { IsOuter self.old.dcel edge }
        ensures closes { ClosesHull UE.is_default self.old self.new }
        ensures starts { IfOk result (StartsOutside self.new.dcel (origin_of self.old.dcel.shape edge)) }
        ensures closed { let t = origin_of self.old.dcel.shape edge in
            OnOk result (IsOpen self.new.dcel t → IsClosedAfter self.new.dcel t) }
        ensures unfinished { IfErr result (λ e. (e ≡ InsertionError.Unfinished) × ¬ IsWholeMesh self.new) }
    {
        let mut edge = edge;
        while let Some(closed) = self.close(edge)? {
            edge = closed;
        }
        Ok(edge)
    }

    /// Closes triangles before the vertex where an outer half edge ends, as long as the outer face
    /// turns in there.
    fn close_before(&mut self, edge: FixedDirectedEdgeHandle) -> Result<(), InsertionError>
        requires outer { IsOuter self.old.dcel edge }
        ensures closes { ClosesHull UE.is_default self.old self.new }
        ensures closed { let t = end_of self.old.dcel.shape edge in
            OnOk result (IsOpen self.new.dcel t → IsClosedBefore self.new.dcel t) }
        ensures mesh { IsMesh self.new.dcel }
        ensures unfinished { IfErr result (λ e. (e ≡ InsertionError.Unfinished) × ¬ IsWholeMesh self.new) }
    {
        every_mesh(&self.dcel);
        let mut before = self.dcel.directed_edge(edge).prev().fix();
        while let Some(closed) = self.close(before)? {
            before = self.dcel.directed_edge(closed).prev().fix();
        }
        Ok(())
    }

    /// Closes a triangle between a half edge of the outer face and the next one, if the outer face
    /// turns in there, and lists its edges.
    ///
    /// Returns the half edge that is on the outer face in the place of both, or `None` if the outer
    /// face does not turn in there.
    fn close(
        &mut self,
        edge: FixedDirectedEdgeHandle,
    ) -> Result<Option<FixedDirectedEdgeHandle>, InsertionError>
        requires outer { IsOuter self.old.dcel edge }
        ensures closes { ClosesHull UE.is_default self.old self.new }
        ensures some { IfOk result (λ closed. IfSome closed (IsClosedAt self.old.dcel self.new.dcel edge)) }
        ensures none { IfOk result (λ closed. IfNone closed (IsSame self.old self.new × ¬ TurnsIn self.old.dcel edge)) }
        ensures mesh { IsMesh self.new.dcel }
        ensures unfinished { IfErr result (λ e. (e ≡ InsertionError.Unfinished) × ¬ IsWholeMesh self.new) }
        ensures refused { OnErr result (IsSame self.old self.new) }
    {
        every_mesh(&self.dcel);
        if !turns_in(self.dcel.directed_edge(edge)) {
            return Ok(None);
        }
        if !self.dcel.has_room(0, 1, 1) {
            return Err(InsertionError::Unfinished);
        }
        if self.due.reserve(3).is_err() {
            return Err(InsertionError::Unfinished);
        }
        let next = self.dcel.directed_edge(edge).next().fix();
        let count = self.dcel.num_undirected_edges();
        let Ok(closed) = create_single_face_between_edge_and_next(&mut self.dcel, edge) else {
            return Err(InsertionError::Unfinished);
        };
        self.due.push_reserved(edge.as_undirected());
        self.due.push_reserved(next.as_undirected());
        self.due
            .push_reserved(FixedUndirectedEdgeHandle::new(count));
        Ok(Some(closed))
    }
}

/// Returns an outer half edge that starts at the last vertex, if there is one.
fn outside_of_last<UE, A: Allocator>(dcel: &EdgeMesh<UE, A>) -> Option<FixedDirectedEdgeHandle>
    ensures some { IfSome result (λ h. (t : ℕ) × (t + 1 ≡ dcel.now.shape.vertices) × StartsOutside dcel.now t h) }
    ensures none { IfNone result ((t h : ℕ) → t + 1 ≡ dcel.now.shape.vertices → ¬ StartsOutside dcel.now t h) }
{
    let vertices = dcel.num_vertices();
    if vertices == 0 {
        return None;
    }
    outside_of(dcel, FixedVertexHandle::new(vertices - 1))
}

/// Returns an outer half edge that starts at a vertex, if there is one.
pub fn outside_of<UE, A: Allocator>(
    dcel: &EdgeMesh<UE, A>,
    vertex: FixedVertexHandle,
) -> Option<FixedDirectedEdgeHandle>
    requires { vertex < dcel.now.shape.vertices }
    ensures some { IfSome result (StartsOutside dcel.now vertex) }
    ensures none { IfNone result ((h : ℕ) → ¬ StartsOutside dcel.now vertex h) }
{
    let mut edges = dcel.vertex(vertex).out_edges();
    while let Some(edge) = edges.next() {
        if edge.is_outer_edge() {
            return Some(edge.fix());
        }
    }
    None
}

/// Returns whether the next half edge ends on the left of this one.
fn turns_in<UE, A: Allocator>(edge: Edge<'_, UE, A>) -> bool
    requires { IsLive (mesh_behind edge).shape (number_of edge) }
    ensures { IsTrue result ↔ TurnsIn (mesh_behind edge.entry) (number_of edge.entry) }
{
    side(edge, point_of(edge.next().to())) == Side::Left
}
