//! Many points inserted at once.

ghost use Rattle.std.specs.Prelude.{◌≡◌, ◌≤◌, IfErr, IfOk, OnOk, length, slice_get, slice_set};
ghost use Rattle.std.specs.List.{FoldsTo};
ghost use Rattle.dcel_delaunay.specs.Bulk.{AddsVertices, FailsToInsertAll, StandAt, StandsToo, counted};
ghost use Rattle.dcel_delaunay.specs.Triangulated.{mesh_in};
ghost use Rattle.dcel_planar.specs.Outcomes.{IsWholeMesh};

use crate::insert::ahead::Ahead;
use crate::insert::curve::insertion_order;
use crate::triangulation::Triangulation;
use dcel_planar::{InsertionError, Point};
use spade_dcel::handles::FixedVertexHandle;
use std::alloc::{AllocError, Allocator};

impl<A: Allocator + Clone> Triangulation<A> {
    /// Inserts points in an order of its own, in which walks are short.
    ///
    /// Returns the vertex of each point, in the order of the points. If it fails, the points that
    /// were inserted so far stay. A whole triangulation ([`is_whole`](Self::is_whole)) stays as it is
    /// if no vertex is new.
    pub fn insert_all(
        &mut self,
        alloc: A,
        points: &[Point],
    ) -> Result<Vec<FixedVertexHandle, A>, InsertionError>
        ensures stand { IfOk result (λ vertices. StandAt (mesh_in self.new) points.now vertices.items) }
        ensures whole { OnOk result (IsWholeMesh self.new.planar) }
        ensures fails { IfErr result (FailsToInsertAll self.old.planar self.new.planar) }
        ensures adds { AddsVertices (mesh_in self.old) (mesh_in self.new) points.now (length points.now) }
        ensures same { IsWholeMesh self.old.planar → (mesh_in self.new).vertex_data ≡ (mesh_in self.old).vertex_data → mesh_in self.new ≡ mesh_in self.old }
        ensures edges { (mesh_in self.old).shape.edges ≤ (mesh_in self.new).shape.edges }
    {
        self.insert_all_with(alloc, points, |_| ())
    }

    /// Inserts points as [`insert_all`](Self::insert_all) does, and reports after each of them how
    /// many are inserted: 1, 2, and so on.
    pub fn insert_all_with<P: FnMut(usize)>(
        &mut self,
        alloc: A,
        points: &[Point],
        mut progress: P,
    ) -> Result<Vec<FixedVertexHandle, A>, InsertionError>
        requires progress { P.IsAlwaysCallable progress }
        ensures stand { IfOk result (λ vertices. StandAt (mesh_in self.new) points.now vertices.items) }
        ensures whole { OnOk result (IsWholeMesh self.new.planar) }
        ensures fails { IfErr result (FailsToInsertAll self.old.planar self.new.planar) }
        ensures adds { AddsVertices (mesh_in self.old) (mesh_in self.new) points.now (length points.now) }
        ensures same { IsWholeMesh self.old.planar → (mesh_in self.new).vertex_data ≡ (mesh_in self.old).vertex_data → mesh_in self.new ≡ mesh_in self.old }
        ensures edges { (mesh_in self.old).shape.edges ≤ (mesh_in self.new).shape.edges }
        ensures told { OnOk result ((last : P) × FoldsTo (λ before done after. P.step before done tt after) progress (counted 1 (length points.now)) last) }
    {
        let order = insertion_order(alloc.clone()?, points)?;
        let mut ahead = Ahead::new(&alloc, points.len())?;
        let mut vertices = vec![in alloc; FixedVertexHandle::new(0); points.len()]?;
        self.finish()?;
        self.reserve(points.len())?;
        let mut done = 0;
        for number in &order {
            let point = ahead.next(points, &order, done);
            self.insert_numbered(points, *number, point, &mut vertices)?;
            done += 1;
            progress(done);
        }
        Ok(vertices)
    }
}

impl<A: Allocator> Triangulation<A> {
    /// Reserves memory for so many more points, with three edges and two faces for each. Where there
    /// are no numbers for so many it reserves none, since equal points need none.
    fn reserve(&mut self, count: usize) -> Result<(), AllocError>
        ensures mesh { mesh_in self.new ≡ mesh_in self.old }
        ensures whole { IsWholeMesh self.old.planar → IsWholeMesh self.new.planar }
    {
        let edges = count.saturating_mul(3);
        let faces = count.saturating_mul(2);
        if self.planar.dcel.has_room(count, edges, faces) {
            self.planar.dcel.reserve_capacity(count, edges, faces)?;
        }
        Ok(())
    }

    /// Inserts the point with this number, which is given if there is one, and notes its vertex in
    /// that place.
    fn insert_numbered(
        &mut self,
        points: &[Point],
        number: usize,
        given: Option<Point>,
        vertices: &mut Vec<FixedVertexHandle, A>,
    ) -> Result<(), InsertionError>
        requires whole { IsWholeMesh self.old.planar }
        requires given { given ≡ slice_get points.now number }
        ensures stands { OnOk result (StandsToo (mesh_in self.old) (mesh_in self.new) points.now number vertices.old.items vertices.new.items) }
        ensures whole { OnOk result (IsWholeMesh self.new.planar) }
        ensures fails { IfErr result (FailsToInsertAll self.old.planar self.new.planar) }
        ensures adds { AddsVertices (mesh_in self.old) (mesh_in self.new) points.now 1 }
        ensures same { (mesh_in self.new).vertex_data ≡ (mesh_in self.old).vertex_data → mesh_in self.new ≡ mesh_in self.old }
        ensures edges { (mesh_in self.old).shape.edges ≤ (mesh_in self.new).shape.edges }
    {
        if let Some(point) = given {
            let vertex = self.insert_from(self.last, point)?;
            note(vertices, number, vertex);
        }
        Ok(())
    }
}

// Returns the point with this number, if there is one.
pub(crate) fn point_of(points: &[Point], number: usize) -> Option<Point>
    ensures { result ≡ slice_get points.now number }
{
    points.get(number).copied()
}

// Writes into a list, if it has the place.
pub(crate) fn note<T: Copy, A: Allocator>(list: &mut Vec<T, A>, number: usize, answer: T)
    ensures { list.new.items ≡ slice_set list.old.items number answer }
{
    if number < list.len() {
        list[number] = answer;
    }
}
