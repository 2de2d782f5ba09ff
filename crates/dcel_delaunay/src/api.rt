//! What a triangulation of points offers: its mesh, points located, and points inserted one after
//! another.

ghost use Rattle.std.specs.Prelude.{◌≡◌, ◌↔◌, ℕ, ◌<◌, ◌≤◌, [], IfErr, IfNone, IfOk, IfSome, IsOk, IsTrue, OnOk};
ghost use Rattle.dcel_maps.specs.Conditions.{IsUnconnected};
ghost use Rattle.dcel_maps.specs.Removals.{Closed};
ghost use Rattle.dcel_maps.specs.Shapes.{face_count};
ghost use Rattle.dcel_maps.specs.Triangulations.{AllTriangles};
ghost use Rattle.dcel_plane.specs.Plane.{IsLocallyDelaunay, point_at};
ghost use Rattle.dcel_plane.specs.location.Nearest.{IsNearest};
ghost use Rattle.dcel_planar.specs.Growing.{Keeps};
ghost use Rattle.dcel_planar.specs.Leaving.{IsOutlined, IsSame};
ghost use Rattle.dcel_planar.specs.Outcomes.{FailsToInsert, HasInserted, IsWholeMesh};
ghost use Rattle.dcel_planar.specs.Places.{IsPlace};
ghost use Rattle.dcel_delaunay.specs.Removing.{FailsToRemove, Loses};
ghost use Rattle.dcel_delaunay.specs.Triangulated.{CirclesAreEmpty, FacesAreApart, GoesRoundHull, HullIsCovered, PointsAreSingle, mesh_in};

use crate::errors::RemovalError;
use crate::locate::{nearest, start_near};
use crate::remove::remove_vertex;
use crate::removed::Removed;
use crate::triangulation::Triangulation;
use dcel_planar::{InsertionError, Mesh, PlanarMesh, Point, PositionInTriangulation};
use spade_dcel::handles::{FixedDirectedEdgeHandle, FixedVertexHandle};
use spade_dcel::laws::every_mesh;
use std::alloc::{AllocError, Allocator};

impl<A: Allocator + Clone> Triangulation<A> {
    /// Creates a triangulation of no points. If memory runs out it returns `AllocError`.
    pub fn new(alloc: A) -> Result<Self, AllocError>
        ensures empty { IfOk result (λ t. (mesh_in t).vertex_data ≡ []) }
        ensures whole { IfOk result (λ t. IsWholeMesh t.planar) }
    {
        Ok(Triangulation {
            planar: PlanarMesh::new(alloc)?,
            last: FixedDirectedEdgeHandle::new(0),
        })
    }

    /// Clones the triangulation, in memory of `alloc`.
    ///
    /// The clone has the same mesh, and is whole if this one is. If memory runs out it returns
    /// `AllocError`.
    pub fn try_clone(&self, alloc: A) -> Result<Self, AllocError>
        ensures { IfOk result (λ clone. IsSame self.now.planar clone.planar) }
    {
        let due = Vec::from_slice(alloc.clone()?, &self.planar.due)?;
        let dcel = self.planar.dcel.try_clone(alloc)?;
        let planar = PlanarMesh { dcel, due };
        Ok(Triangulation {
            planar,
            last: self.last,
        })
    }
}

impl<A: Allocator> Triangulation<A> {
    /// Lends the mesh.
    ///
    /// Each vertex has its point as datum, each inner face is a triangle, and once there are two
    /// vertices each has an edge. If the triangulation is whole ([`is_whole`](Self::is_whole)), the
    /// mesh is a Delaunay triangulation of its points:
    ///
    /// * `delaunay`: the inner faces go round counterclockwise, and no edge between two of them is to
    ///   be flipped.
    /// * `circles`: no vertex is inside the circle of any inner face.
    /// * `apart`: no place is inside two inner faces.
    /// * `covers`: each place that no half edge of the outer face has on its left is in an inner
    ///   face or on its border, if there is an inner face.
    /// * `single`: no two vertices are at one point.
    /// * `hull`: no vertex is on the left of a half edge of the outer face, nor on it between its
    ///   ends, and once there is an inner face, the outer face passes no vertex twice.
    ///
    /// While all points are on one line there is no inner face, and each edge joins two
    /// neighbors.
    pub fn dcel(&self) -> &Mesh<A>
        ensures mesh { result.now ≡ mesh_in self.now }
        ensures closed { (mesh_in self.now).shape.removal ≡ Closed }
        ensures triangles { AllTriangles (mesh_in self.now).shape }
        ensures joined { (v : ℕ) → 1 < (mesh_in self.now).shape.vertices → ¬ IsUnconnected (mesh_in self.now).shape v }
        ensures delaunay { IsWholeMesh self.now.planar → IsLocallyDelaunay (point_at (mesh_in self.now)) (mesh_in self.now).shape }
        ensures circles { IsWholeMesh self.now.planar → CirclesAreEmpty (mesh_in self.now) }
        ensures apart { IsWholeMesh self.now.planar → FacesAreApart (mesh_in self.now) }
        ensures covers { IsWholeMesh self.now.planar → 1 < face_count (mesh_in self.now).shape → HullIsCovered (mesh_in self.now) }
        ensures single { IsWholeMesh self.now.planar → PointsAreSingle (mesh_in self.now) }
        ensures hull { IsWholeMesh self.now.planar → GoesRoundHull (mesh_in self.now) }
    {
        every_mesh(&self.planar.dcel);
        &self.planar.dcel
    }

    /// Returns the mesh, and gives up the triangulation. The mesh may then be changed in any way.
    pub fn into_dcel(self) -> Mesh<A>
        ensures { result ≡ mesh_in self }
    {
        let planar = self.planar;
        planar.dcel
    }

    /// Returns whether no insertion or removal has left something undone for want of memory.
    pub fn is_whole(&self) -> bool
        ensures { IsTrue result ↔ IsWholeMesh self.now.planar }
    {
        self.planar.is_whole()
    }

    /// Returns where a point is.
    ///
    /// Asks for a whole triangulation ([`is_whole`](Self::is_whole)): where memory ran out,
    /// [`finish`](Self::finish) makes it so. The walk begins at an edge of the vertex that the last
    /// insertion returned; after a removal, which renumbers edges, at the one that has its number now,
    /// or at the first. If that is far away, it begins at the nearest of a few other vertices.
    pub fn locate(&self, point: Point) -> PositionInTriangulation
        requires whole { IsWholeMesh self.now.planar }
        ensures { IsPlace (mesh_in self.now) point result }
    {
        self.planar.locate(self.start(point), point)
    }

    /// Returns where a point is, as [`locate`](Self::locate) does, by a walk that begins at a vertex.
    ///
    /// The nearer the vertex is to the point, the shorter is the walk. Any number is taken: if no
    /// vertex has it, the walk begins at an edge of the vertex that the last insertion returned.
    ///
    /// Asks for a whole triangulation ([`is_whole`](Self::is_whole)): where memory ran out,
    /// [`finish`](Self::finish) makes it so.
    pub fn locate_with_hint(&self, point: Point, hint: FixedVertexHandle) -> PositionInTriangulation
        requires whole { IsWholeMesh self.now.planar }
        ensures { IsPlace (mesh_in self.now) point result }
    {
        self.planar.locate(self.edge_at(hint), point)
    }

    /// Returns a vertex that no other one is nearer to a point than, or `None` if there is no vertex.
    ///
    /// Asks for a whole triangulation ([`is_whole`](Self::is_whole)): where memory ran out,
    /// [`finish`](Self::finish) makes it so. A walk from neighbor to neighbor, each nearer than the
    /// last one, begins where that of [`locate`](Self::locate) does.
    pub fn nearest_vertex(&self, point: Point) -> Option<FixedVertexHandle>
        requires whole { IsWholeMesh self.now.planar }
        ensures vertex { IfSome result (λ v. v < (mesh_in self.now).shape.vertices) }
        ensures nearest { IfSome result (IsNearest (point_at (mesh_in self.now)) (mesh_in self.now).shape point) }
        ensures none { IfNone result ((mesh_in self.now).shape.vertices ≡ 0) }
    {
        nearest(&self.planar.dcel, self.start(point), point)
    }

    /// Inserts a point, and returns its vertex: a new one, or the one that is there already.
    ///
    /// If no numbers are left for a new vertex, three edges and two faces, the result is
    /// [`TooManyPoints`](InsertionError::TooManyPoints), and if memory runs out before the vertex
    /// is there, [`OutOfMemory`](InsertionError::OutOfMemory): no vertex is added then, and a whole
    /// triangulation ([`is_whole`](Self::is_whole)) is as it was, and whole. If either runs out
    /// afterwards, the result is [`Unfinished`](InsertionError::Unfinished), and the next insertion, or
    /// [`finish`](Self::finish), goes on with what is left to do.
    ///
    /// If the vertex is there already, a whole triangulation stays as it is.
    pub fn insert(&mut self, point: Point) -> Result<FixedVertexHandle, InsertionError>
        ensures inserts { IfOk result (HasInserted self.old.planar self.new.planar point) }
        ensures whole { OnOk result (IsWholeMesh self.new.planar) }
        ensures refuses { IfErr result (FailsToInsert self.old.planar self.new.planar point) }
        ensures same { IsWholeMesh self.old.planar → (mesh_in self.new).vertex_data ≡ (mesh_in self.old).vertex_data → mesh_in self.new ≡ mesh_in self.old }
        ensures edges { (mesh_in self.old).shape.edges ≤ (mesh_in self.new).shape.edges }
    {
        let start = self.start(point);
        self.insert_from(start, point)
    }

    /// Inserts a point by a walk that begins at a half edge.
    pub(crate) fn insert_from(
        &mut self,
        start: FixedDirectedEdgeHandle,
        point: Point,
    ) -> Result<FixedVertexHandle, InsertionError>
        ensures inserts { IfOk result (HasInserted self.old.planar self.new.planar point) }
        ensures whole { OnOk result (IsWholeMesh self.new.planar) }
        ensures refuses { IfErr result (FailsToInsert self.old.planar self.new.planar point) }
        ensures same { IsWholeMesh self.old.planar → (mesh_in self.new).vertex_data ≡ (mesh_in self.old).vertex_data → mesh_in self.new ≡ mesh_in self.old }
        ensures edges { (mesh_in self.old).shape.edges ≤ (mesh_in self.new).shape.edges }
    {
        self.finish()?;
        every_mesh(&self.planar.dcel);
        let position = self.planar.locate(start, point);
        let vertex = self.planar.put_at(position, point)?;
        if self.planar.is_whole() {
            self.begin_at(vertex);
            return Ok(vertex);
        }
        let Ok(()) = self.planar.legalize_star(vertex) else {
            return Err(InsertionError::Unfinished);
        };
        self.begin_at(vertex);
        Ok(vertex)
    }

    /// Inserts a point, as [`insert`](Self::insert) does, by a walk that begins at a vertex.
    ///
    /// The nearer the vertex is to the point, the shorter is the walk. Any number is taken: if no
    /// vertex has it, the walk begins at the vertex that the last insertion returned. Results and
    /// errors are those of [`insert`](Self::insert).
    pub fn insert_with_hint(
        &mut self,
        point: Point,
        hint: FixedVertexHandle,
    ) -> Result<FixedVertexHandle, InsertionError>
        ensures inserts { IfOk result (HasInserted self.old.planar self.new.planar point) }
        ensures whole { OnOk result (IsWholeMesh self.new.planar) }
        ensures refuses { IfErr result (FailsToInsert self.old.planar self.new.planar point) }
        ensures same { IsWholeMesh self.old.planar → (mesh_in self.new).vertex_data ≡ (mesh_in self.old).vertex_data → mesh_in self.new ≡ mesh_in self.old }
        ensures edges { (mesh_in self.old).shape.edges ≤ (mesh_in self.new).shape.edges }
    {
        self.begin_at(hint);
        self.insert_from(self.last, point)
    }

    /// Does what an insertion or a removal left undone for want of memory. A whole triangulation
    /// ([`is_whole`](Self::is_whole)) stays as it is.
    ///
    /// It can't fail on a whole triangulation. On another one, if memory runs out again, or there is no
    /// number left for an edge, the result is [`OutOfMemory`](InsertionError::OutOfMemory), and what is
    /// done so far stays. The vertices stay in any case.
    pub fn finish(&mut self) -> Result<(), InsertionError>
        ensures points { (mesh_in self.new).vertex_data ≡ (mesh_in self.old).vertex_data }
        ensures whole { OnOk result (IsWholeMesh self.new.planar) }
        ensures same { IsWholeMesh self.old.planar → mesh_in self.new ≡ mesh_in self.old }
        ensures ready { IsWholeMesh self.old.planar → IsOk result }
        ensures refused { IfErr result (λ e. (e ≡ InsertionError.OutOfMemory) × ¬ IsWholeMesh self.new.planar) }
        ensures edges { (mesh_in self.old).shape.edges ≤ (mesh_in self.new).shape.edges }
    {
        if self.planar.is_whole() {
            return Ok(());
        }
        let Ok(()) = self.planar.close_hull() else {
            return Err(InsertionError::OutOfMemory);
        };
        let Ok(()) = self.planar.legalize() else {
            return Err(InsertionError::OutOfMemory);
        };
        Ok(())
    }

    /// Returns where a walk to a point begins.
    fn start(&self, point: Point) -> FixedDirectedEdgeHandle {
        start_near(&self.planar.dcel, self.last, point)
    }

    /// Has the next walk begin at a vertex, if there is such a one.
    fn begin_at(&mut self, vertex: FixedVertexHandle)
        ensures { self.new.planar ≡ self.old.planar }
    {
        self.last = self.edge_at(vertex);
    }

    /// Returns an out edge of a vertex, or where the next walk begins if it has none.
    pub(crate) fn edge_at(&self, vertex: FixedVertexHandle) -> FixedDirectedEdgeHandle {
        let Some(vertex) = self.planar.dcel.get_vertex(vertex) else {
            return self.last;
        };
        match vertex.out_edge() {
            Some(edge) => edge.fix(),
            None => self.last,
        }
    }
}

impl<A: Allocator + Clone> Triangulation<A> {
    /// Removes a vertex, and returns its point.
    ///
    /// The last vertex gets its number, as the result says; all others keep theirs. The
    /// triangulation is then one of the points that are left, a line if they all are on one, and of
    /// none after the last.
    ///
    /// If there is no such vertex, the result is [`NoVertex`](RemovalError::NoVertex), and if it is
    /// inside of triangles and no numbers are left for an edge and two triangles,
    /// [`TooManyPoints`](RemovalError::TooManyPoints): a whole triangulation is then as it was, and
    /// any other is whole now.
    ///
    /// If memory runs out before the vertex is gone, it stays, and if it runs out afterwards, the
    /// result is [`Unfinished`](RemovalError::Unfinished); then the next insertion or removal, or
    /// [`finish`](Self::finish), goes on with what is left to do.
    pub fn remove(&mut self, vertex: FixedVertexHandle) -> Result<Removed, RemovalError>
        ensures removes { IfOk result (Loses (mesh_in self.old) (mesh_in self.new) vertex) }
        ensures whole { OnOk result (IsWholeMesh self.new.planar) }
        ensures refuses { IfErr result (FailsToRemove self.old.planar self.new.planar vertex) }
    {
        every_mesh(&self.planar.dcel);
        let Ok(()) = self.finish() else {
            return Err(RemovalError::OutOfMemory);
        };
        every_mesh(&self.planar.dcel);
        if vertex.index() >= self.planar.dcel.num_vertices() {
            return Err(RemovalError::NoVertex);
        }
        match remove_vertex(&mut self.planar, vertex) {
            Ok(removed) => self.settle(removed),
            Err(error) => Err(error),
        }
    }

    /// Flips the edges that a removal left to be looked at, and returns what was removed.
    fn settle(&mut self, removed: Removed) -> Result<Removed, RemovalError>
        requires hull { IsOutlined (mesh_in self.old) }
        ensures keeps { Keeps (mesh_in self.old) (mesh_in self.new) }
        ensures same { IfOk result (λ r. r ≡ removed) }
        ensures unfinished { IfErr result (λ e. (e ≡ RemovalError.Unfinished removed) × ¬ IsWholeMesh self.new.planar) }
        ensures whole { OnOk result (IsWholeMesh self.new.planar) }
    {
        let Ok(()) = self.planar.legalize() else {
            return Err(RemovalError::Unfinished(removed));
        };
        Ok(removed)
    }
}
