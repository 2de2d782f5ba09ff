//! Many points inserted at once among constraints.

ghost use Rattle.std.specs.Prelude.{◌≡◌, ◌≤◌, IfErr, IfOk, OnOk, length, slice_get, slice_set};
ghost use Rattle.dcel_constrained.specs.Constrained.{marked_mesh};
ghost use Rattle.dcel_constrained.specs.Splitting.{SplitsMarked};
ghost use Rattle.dcel_delaunay.specs.Bulk.{AddsVertices, FailsToInsertAll, StandAt, StandsToo};
ghost use Rattle.dcel_maps.specs.Shapes.{IsMesh};
ghost use Rattle.dcel_planar.specs.Outcomes.{IsWholeMesh};

use crate::triangulation::ConstrainedTriangulation;
use dcel_delaunay::insertion_order;
use dcel_planar::{InsertionError, Point};
use spade_dcel::handles::FixedVertexHandle;
use spade_dcel::laws::every_mesh;
use std::alloc::Allocator;

impl<A: Allocator + Clone> ConstrainedTriangulation<A> {
    /// Inserts points as [`insert`](Self::insert) does, in an order of its own, in which walks are
    /// short.
    ///
    /// Returns the vertex of each point, in the order of the points. Constraints stay: a marked edge
    /// that points are on becomes marked edges from one to the next. If it fails, the points that were
    /// inserted so far stay. A whole triangulation ([`is_whole`](Self::is_whole)) stays as it is if no
    /// vertex is new.
    pub fn insert_all(
        &mut self,
        alloc: A,
        points: &[Point],
    ) -> Result<Vec<FixedVertexHandle, A>, InsertionError>
        ensures stand { IfOk result (λ vertices. StandAt (marked_mesh self.new) points.now vertices.items) }
        ensures whole { OnOk result (IsWholeMesh self.new.planar) }
        ensures fails { IfErr result (FailsToInsertAll self.old.planar self.new.planar) }
        ensures adds { AddsVertices (marked_mesh self.old) (marked_mesh self.new) points.now (length points.now) }
        ensures splits { SplitsMarked (marked_mesh self.old) (marked_mesh self.new) }
        ensures edges { (marked_mesh self.old).shape.edges ≤ (marked_mesh self.new).shape.edges }
        ensures same { IsWholeMesh self.old.planar → (marked_mesh self.new).vertex_data ≡ (marked_mesh self.old).vertex_data → marked_mesh self.new ≡ marked_mesh self.old }
    {
        every_mesh(&self.planar.dcel);
        let order = insertion_order(alloc.clone()?, points)?;
        let mut vertices = vec![in alloc; FixedVertexHandle::new(0); points.len()]?;
        let Ok(()) = self.finish() else {
            every_mesh(&self.planar.dcel);
            return Err(InsertionError::OutOfMemory);
        };
        every_mesh(&self.planar.dcel);
        for number in &order {
            self.insert_numbered(points, *number, &mut vertices)?;
        }
        Ok(vertices)
    }
}

impl<A: Allocator> ConstrainedTriangulation<A> {
    /// Inserts the point with this number, and notes its vertex in that place.
    fn insert_numbered(
        &mut self,
        points: &[Point],
        number: usize,
        vertices: &mut Vec<FixedVertexHandle, A>,
    ) -> Result<(), InsertionError>
        requires { IsWholeMesh self.old.planar }
        ensures stands { OnOk result (StandsToo (marked_mesh self.old) (marked_mesh self.new) points.now number vertices.old.items vertices.new.items) }
        ensures whole { OnOk result (IsWholeMesh self.new.planar) }
        ensures fails { IfErr result (FailsToInsertAll self.old.planar self.new.planar) }
        ensures adds { AddsVertices (marked_mesh self.old) (marked_mesh self.new) points.now 1 }
        ensures splits { SplitsMarked (marked_mesh self.old) (marked_mesh self.new) }
        ensures edges { (marked_mesh self.old).shape.edges ≤ (marked_mesh self.new).shape.edges }
        ensures same { (marked_mesh self.new).vertex_data ≡ (marked_mesh self.old).vertex_data → marked_mesh self.new ≡ marked_mesh self.old }
        ensures mesh { IsMesh (marked_mesh self.new) }
    {
        every_mesh(&self.planar.dcel);
        let Some(point) = item_of(points, number) else {
            return Ok(());
        };
        let inserted = self.insert(point);
        every_mesh(&self.planar.dcel);
        let vertex = inserted?;
        note(vertices, number, vertex);
        Ok(())
    }
}

/// Returns the item with this number, if there is one.
pub(crate) fn item_of<T: Copy>(items: &[T], number: usize) -> Option<T>
    ensures { result ≡ slice_get items.now number }
{
    items.get(number).copied()
}

/// Writes an answer into a list, if it has the place.
pub(crate) fn note<T: Copy, A: Allocator>(list: &mut Vec<T, A>, number: usize, answer: T)
    ensures { list.new.items ≡ slice_set list.old.items number answer }
{
    if number < list.len() {
        list[number] = answer;
    }
}
