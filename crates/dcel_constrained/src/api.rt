//! What a constrained triangulation offers: its mesh and its constraints, points located and
//! inserted, and segments added to the constraints.

ghost use Rattle.std.specs.Prelude.{IfErr, IfOk, IsOk, IsTrue, OnErr, OnOk, length, slice_index, ℕ, ◌+◌, ◌/◌, ◌<◌, ◌↔◌, ◌≡◌, ◌≤◌};
ghost use Rattle.dcel_constrained.specs.Constrained.{marked_mesh};
ghost use Rattle.dcel_constrained.specs.Constraints.{HasConstraint, KeepsMarked, MarksOnly};
ghost use Rattle.dcel_constrained.specs.Sight.{CirclesInSightAreEmpty};
ghost use Rattle.dcel_constrained.specs.Soundness.{AreConstrained, CanAdd, HasNoConstraint, IsConstrainedDelaunay, MarksAllBut, MarksAnother, constraint_count};
ghost use Rattle.dcel_constrained.specs.Splitting.{SplitsMarked};
ghost use Rattle.dcel_delaunay.specs.Triangulated.{FacesAreApart, GoesRoundHull, HullIsCovered, PointsAreSingle, mesh_in};
ghost use Rattle.dcel_fixed.specs.HalfEdges.{rev};
ghost use Rattle.dcel_maps.specs.Conditions.{IsUnconnected};
ghost use Rattle.dcel_maps.specs.Removals.{Closed};
ghost use Rattle.dcel_maps.specs.Shapes.{IsLive, face_count, face_of};
ghost use Rattle.dcel_maps.specs.Triangulations.{AllTriangles};
ghost use Rattle.dcel_planar.specs.Leaving.{IsSame};
ghost use Rattle.dcel_planar.specs.Outcomes.{FailsToInsert, HasInserted, IsWholeMesh};
ghost use Rattle.dcel_planar.specs.Places.{IsPlace};
ghost use Rattle.dcel_plane.specs.Plane.{TrianglesTurnLeft, point_at};
ghost use Rattle.dcel_regions.specs.Marked.{IsMarked};
ghost use Rattle.dcel_regions.specs.Regions.{IsReached};

use crate::locate::locate;
use crate::mesh::{ConstrainedMesh, is_marked, is_marked_to, set_mark};
use crate::segments::chains::{lay_on_line, lay_through_triangles};
use crate::segments::ways::is_free_way;
use crate::triangulation::ConstrainedTriangulation;
use dcel_delaunay::Triangulation;
use dcel_planar::{InsertionError, PlanarMesh, Point, PositionInTriangulation};
use dcel_regions::{Mark, regions};
use spade_dcel::handles::{FixedUndirectedEdgeHandle, FixedVertexHandle};
use spade_dcel::laws::every_mesh;
use std::alloc::{AllocError, Allocator};

impl<A: Allocator + Clone> ConstrainedTriangulation<A> {
    /// Makes a constrained triangulation of a Delaunay triangulation, with the same triangles, and no
    /// marked edge.
    ///
    /// Asks for a whole triangulation ([`is_whole`](Triangulation::is_whole)). If memory runs out it
    /// returns `AllocError`.
    pub fn from_triangulation(
        triangulation: &Triangulation<A>,
        alloc: A,
    ) -> Result<Self, AllocError>
        requires whole { IsWholeMesh triangulation.now.planar }
        ensures points { IfOk result (λ t. (marked_mesh t).vertex_data ≡ (mesh_in triangulation.now).vertex_data) }
        ensures shape { IfOk result (λ t. (marked_mesh t).shape ≡ (mesh_in triangulation.now).shape) }
        ensures free { IfOk result (λ t. HasNoConstraint (marked_mesh t)) }
        ensures whole { IfOk result (λ t. IsWholeMesh t.planar) }
    {
        let copy = triangulation.try_clone(alloc.clone()?)?;
        Self::convert(copy, alloc)
    }

    /// Makes a constrained triangulation of a Delaunay triangulation, as
    /// [`from_triangulation`](Self::from_triangulation) does, but of its own mesh: no mesh is copied.
    ///
    /// Asks for a whole triangulation ([`is_whole`](Triangulation::is_whole)). If memory runs out it
    /// returns `AllocError`, and the triangulation is dropped.
    pub fn convert(triangulation: Triangulation<A>, alloc: A) -> Result<Self, AllocError>
        requires whole { IsWholeMesh triangulation.planar }
        ensures points { IfOk result (λ t. (marked_mesh t).vertex_data ≡ (mesh_in triangulation).vertex_data) }
        ensures shape { IfOk result (λ t. (marked_mesh t).shape ≡ (mesh_in triangulation).shape) }
        ensures free { IfOk result (λ t. HasNoConstraint (marked_mesh t)) }
        ensures whole { IfOk result (λ t. IsWholeMesh t.planar) }
    {
        let due = Vec::new(alloc.clone()?);
        let crossed = Vec::new(alloc.clone()?);
        let free = |_datum: ()| -> Mark
            ensures { result ≡ Mark.Free }
        { Mark::Free };
        let mesh = triangulation.into_dcel();
        let Ok(dcel) = mesh.map_undirected_edges(alloc, free) else {
            return Err(AllocError);
        };
        let planar = PlanarMesh { dcel, due };
        Ok(ConstrainedTriangulation { planar, crossed })
    }

    /// Clones the triangulation, in memory of `alloc`.
    ///
    /// The clone has the same mesh, with the same marked edges, and is whole if this one is. If memory
    /// runs out it returns `AllocError`.
    pub fn try_clone(&self, alloc: A) -> Result<Self, AllocError>
        ensures { IfOk result (λ clone. IsSame self.now.planar clone.planar) }
    {
        let due = Vec::from_slice(alloc.clone()?, &self.planar.due)?;
        let crossed = Vec::new(alloc.clone()?);
        let dcel = self.planar.dcel.try_clone(alloc)?;
        let planar = PlanarMesh { dcel, due };
        Ok(ConstrainedTriangulation { planar, crossed })
    }
}

impl<A: Allocator> ConstrainedTriangulation<A> {
    /// Lends the mesh.
    ///
    /// Each vertex has its point as datum, each edge its mark, each inner face is a triangle that goes
    /// round counterclockwise, and once there are two vertices each has an edge. If the triangulation
    /// is whole ([`is_whole`](Self::is_whole)), the mesh is a triangulation of its points:
    ///
    /// * `apart`: no place is inside two inner faces.
    /// * `covers`: each place that no half edge of the outer face has on its left is in an inner
    ///   face or on its border, if there is an inner face.
    /// * `single`: no two vertices are at one point.
    /// * `hull`: no vertex is on the left of a half edge of the outer face, nor on it between its
    ///   ends, and once there is an inner face, the outer face passes no vertex twice.
    /// * `constrained`: it is Delaunay but for the marked edges. An edge between two inner faces, one
    ///   of which has a corner inside the circle of the other one, is marked.
    /// * `visible`: no vertex that is seen from an inner face, past no marked edge, lies inside the
    ///   face's circle.
    ///
    /// While all points are on one line there is no inner face, and each edge joins two
    /// neighbors.
    pub fn dcel(&self) -> &ConstrainedMesh<A>
        ensures mesh { result.now ≡ marked_mesh self.now }
        ensures closed { (marked_mesh self.now).shape.removal ≡ Closed }
        ensures triangles { AllTriangles (marked_mesh self.now).shape }
        ensures joined { (v : ℕ) → 1 < (marked_mesh self.now).shape.vertices → ¬ IsUnconnected (marked_mesh self.now).shape v }
        ensures plane { TrianglesTurnLeft (point_at (marked_mesh self.now)) (marked_mesh self.now).shape }
        ensures apart { IsWholeMesh self.now.planar → FacesAreApart (marked_mesh self.now) }
        ensures covers { IsWholeMesh self.now.planar → 1 < face_count (marked_mesh self.now).shape → HullIsCovered (marked_mesh self.now) }
        ensures single { IsWholeMesh self.now.planar → PointsAreSingle (marked_mesh self.now) }
        ensures hull { IsWholeMesh self.now.planar → GoesRoundHull (marked_mesh self.now) }
        ensures constrained { IsWholeMesh self.now.planar → IsConstrainedDelaunay (marked_mesh self.now) }
        ensures visible { IsWholeMesh self.now.planar → CirclesInSightAreEmpty (marked_mesh self.now) }
    {
        every_mesh(&self.planar.dcel);
        &self.planar.dcel
    }

    /// Returns whether no call has left something undone for want of memory.
    pub fn is_whole(&self) -> bool
        ensures { IsTrue result ↔ IsWholeMesh self.now.planar }
    {
        self.planar.is_whole()
    }

    /// Returns whether an edge is marked. Any number may be given.
    pub fn is_constraint(&self, edge: FixedUndirectedEdgeHandle) -> bool
        ensures { IsTrue result ↔ IsMarked (marked_mesh self.now) edge }
    {
        is_marked(&self.planar.dcel, edge)
    }

    /// Returns whether a marked edge joins two vertices. Any numbers may be given.
    pub fn exists_constraint(&self, from: FixedVertexHandle, to: FixedVertexHandle) -> bool
        ensures { IsTrue result ↔ AreConstrained (marked_mesh self.now) from to }
    {
        every_mesh(&self.planar.dcel);
        if from.index() >= self.planar.dcel.num_vertices() {
            return false;
        }
        let mut edges = self.planar.dcel.vertex(from).out_edges();
        while let Some(edge) = edges.next() {
            if is_marked_to(&self.planar.dcel, edge.fix(), to) {
                return true;
            }
        }
        false
    }

    /// Returns the number of marked edges. It looks at each edge.
    pub fn num_constraints(&self) -> usize
        ensures { result ≡ constraint_count (marked_mesh self.now) }
    {
        every_mesh(&self.planar.dcel);
        let mut count = 0;
        for number in 0..self.planar.dcel.num_undirected_edges() {
            if is_marked(&self.planar.dcel, FixedUndirectedEdgeHandle::new(number)) {
                count += 1;
            }
        }
        count
    }

    /// Returns whether the segment between two vertices can be made one of marked edges: whether no
    /// marked edge crosses it.
    ///
    /// A marked edge that ends on it, or is on it, doesn't cross it, nor does anything cross the
    /// segment from a vertex to itself. Any numbers may be given: it is false where one is no vertex.
    ///
    /// Asks for a whole triangulation ([`is_whole`](Self::is_whole)): where memory ran out,
    /// [`finish`](Self::finish) makes it so.
    pub fn can_add_constraint(&self, from: FixedVertexHandle, to: FixedVertexHandle) -> bool
        requires whole { IsWholeMesh self.now.planar }
        ensures { IsTrue result ↔ CanAdd (marked_mesh self.now) from to }
    {
        every_mesh(&self.planar.dcel);
        let vertices = self.planar.dcel.num_vertices();
        if from.index() >= vertices {
            return false;
        }
        if to.index() >= vertices {
            return false;
        }
        if from == to {
            return true;
        }
        // On a line nothing crosses anything.
        if self.planar.dcel.num_faces() == 1 {
            return true;
        }
        is_free_way(&self.planar.dcel, from, to)
    }

    /// Returns for each face the least number of marked edges that a way from the outer face to it
    /// crosses, as [`regions`] does.
    ///
    /// Where the marked edges are the borders of polygons and of their holes, no two of which have an
    /// edge in common, the numbers say what is inside: 1 in a polygon, 2 in a hole of it. Faces on
    /// both sides of an edge that isn't marked have the same number (`free`), those of a marked one
    /// numbers that differ by one at most (`marked`). If memory runs out it returns `AllocError`.
    pub fn regions<L: Allocator + Clone>(&self, alloc: L) -> Result<Vec<usize, L>, AllocError>
        ensures count { IfOk result (λ numbers. length numbers.items ≡ face_count (marked_mesh self.now).shape) }
        ensures reached { IfOk result (λ numbers. (f : ℕ) → f < face_count (marked_mesh self.now).shape → IsReached (marked_mesh self.now) f (slice_index numbers.items f)) }
        ensures least { IfOk result (λ numbers. (f k : ℕ) → IsReached (marked_mesh self.now) f k → slice_index numbers.items f ≤ k) }
        ensures outer { IfOk result (λ numbers. slice_index numbers.items 0 ≡ 0) }
        ensures free { IfOk result (λ numbers. (h : ℕ) → IsLive (marked_mesh self.now).shape h → ¬ IsMarked (marked_mesh self.now) (h / 2)
            → slice_index numbers.items (face_of (marked_mesh self.now).shape (rev h)) ≡ slice_index numbers.items (face_of (marked_mesh self.now).shape h)) }
        ensures marked { IfOk result (λ numbers. (h : ℕ) → IsLive (marked_mesh self.now).shape h → IsMarked (marked_mesh self.now) (h / 2)
            → slice_index numbers.items (face_of (marked_mesh self.now).shape (rev h)) ≤ slice_index numbers.items (face_of (marked_mesh self.now).shape h) + 1) }
    {
        every_mesh(&self.planar.dcel);
        regions(&self.planar.dcel, alloc)
    }

    /// Returns where a point is.
    ///
    /// Asks for a whole triangulation ([`is_whole`](Self::is_whole)): where memory ran out,
    /// [`finish`](Self::finish) makes it so. The walk begins at the newest edge.
    pub fn locate(&self, point: Point) -> PositionInTriangulation
        requires whole { IsWholeMesh self.now.planar }
        ensures { IsPlace (marked_mesh self.now) point result }
    {
        locate(&self.planar, point)
    }

    /// Inserts a point, and returns its vertex: a new one, or the one that is there already.
    ///
    /// Constraints stay. A marked edge that the point is on becomes two, and both are marked: one has
    /// its number. If a vertex is there already, a whole triangulation stays as it is.
    ///
    /// If no numbers are left for a new vertex, three edges and two faces, the result is
    /// [`TooManyPoints`](InsertionError::TooManyPoints), and if memory runs out before the vertex
    /// is there, or [`finish`](Self::finish) fails, with which it begins,
    /// [`OutOfMemory`](InsertionError::OutOfMemory): no vertex is added then, and a whole triangulation
    /// ([`is_whole`](Self::is_whole)) is as it was, and whole. If either runs out afterwards, the result
    /// is [`Unfinished`](InsertionError::Unfinished), and the next call that changes something, or
    /// `finish`, goes on with what is left to do.
    pub fn insert(&mut self, point: Point) -> Result<FixedVertexHandle, InsertionError>
        ensures inserts { IfOk result (HasInserted self.old.planar self.new.planar point) }
        ensures splits { SplitsMarked (marked_mesh self.old) (marked_mesh self.new) }
        ensures whole { OnOk result (IsWholeMesh self.new.planar) }
        ensures refuses { IfErr result (FailsToInsert self.old.planar self.new.planar point) }
        ensures edges { (marked_mesh self.old).shape.edges ≤ (marked_mesh self.new).shape.edges }
        ensures same { IsWholeMesh self.old.planar → (marked_mesh self.new).vertex_data ≡ (marked_mesh self.old).vertex_data → marked_mesh self.new ≡ marked_mesh self.old }
    {
        every_mesh(&self.planar.dcel);
        match self.finish() {
            Err(_) => {
                every_mesh(&self.planar.dcel);
                Err(InsertionError::OutOfMemory)
            }
            Ok(()) => {
                every_mesh(&self.planar.dcel);
                self.insert_in(point)
            }
        }
    }

    /// Makes the segment between two vertices one of marked edges, and returns whether some edge is
    /// marked then that wasn't.
    ///
    /// Vertices on the segment stay where they are: the edges lead from one to the next. Edges that
    /// the segment crosses are flipped, and others so that the triangulation is Delaunay again, but
    /// for the marked edges. The handles of vertices and of marked edges stay. Nothing is marked where
    /// `from` is `to`.
    ///
    /// Asks for two vertices between which no marked edge crosses the segment
    /// ([`can_add_constraint`](Self::can_add_constraint)).
    ///
    /// A whole triangulation in which no edge is marked then that wasn't is as it was.
    ///
    /// If memory runs out, parts of the segment may be marked; then the next call, or
    /// [`finish`](Self::finish), goes on with what is left to do, and the same call adds the rest.
    /// It also fails if there is no number left for an edge, as `finish` does.
    pub fn add_constraint(
        &mut self,
        from: FixedVertexHandle,
        to: FixedVertexHandle,
    ) -> Result<bool, AllocError>
        requires can { CanAdd (marked_mesh self.old) from to }
        ensures constrained { OnOk result (HasConstraint (marked_mesh self.new) from to) }
        ensures keeps { KeepsMarked (marked_mesh self.old) (marked_mesh self.new) }
        ensures only { MarksOnly (marked_mesh self.old) (marked_mesh self.new) from to }
        ensures points { (marked_mesh self.new).vertex_data ≡ (marked_mesh self.old).vertex_data }
        ensures edges { (marked_mesh self.old).shape.edges ≤ (marked_mesh self.new).shape.edges }
        ensures added { IfOk result (λ added. IsTrue added ↔ MarksAnother (marked_mesh self.old) (marked_mesh self.new)) }
        ensures same { IsWholeMesh self.old.planar → ¬ MarksAnother (marked_mesh self.old) (marked_mesh self.new)
            → (marked_mesh self.new ≡ marked_mesh self.old) × IsWholeMesh self.new.planar }
        ensures whole { OnOk result (IsWholeMesh self.new.planar) }
        ensures again { CanAdd (marked_mesh self.new) from to }
        ensures same_edges { IsWholeMesh self.old.planar → (marked_mesh self.new).shape.edges ≡ (marked_mesh self.old).shape.edges }
    {
        every_mesh(&self.planar.dcel);
        let Ok(()) = self.finish() else {
            every_mesh(&self.planar.dcel);
            return Err(AllocError);
        };
        every_mesh(&self.planar.dcel);
        if self.planar.dcel.num_faces() == 1 {
            return Ok(lay_on_line(&mut self.planar.dcel, from, to));
        }
        lay_through_triangles(&mut self.planar, from, to, &mut self.crossed)
    }

    /// Frees a marked edge, and returns whether it was marked. Any number may be given.
    ///
    /// Edges are flipped then so that the triangulation is Delaunay again, but for the edges that are
    /// marked still. The handles of vertices and of marked edges stay.
    ///
    /// If memory runs out, the edge is marked as before, and nothing has changed; or it is freed, and
    /// the next call, or [`finish`](Self::finish), goes on with what is left to do. It also fails if
    /// there is no number left for an edge, as `finish` does. It can't fail if the triangulation is
    /// whole and the edge isn't marked.
    pub fn remove_constraint_edge(
        &mut self,
        edge: FixedUndirectedEdgeHandle,
    ) -> Result<bool, AllocError>
        ensures answer { IfOk result (λ was. IsTrue was ↔ IsMarked (marked_mesh self.old) edge) }
        ensures freed { OnOk result (¬ IsMarked (marked_mesh self.new) edge) }
        ensures others { MarksAllBut (marked_mesh self.old) (marked_mesh self.new) edge }
        ensures same { IfOk result (λ was. ¬ IsTrue was → IsWholeMesh self.old.planar → marked_mesh self.new ≡ marked_mesh self.old) }
        ensures points { (marked_mesh self.new).vertex_data ≡ (marked_mesh self.old).vertex_data }
        ensures edges { (marked_mesh self.old).shape.edges ≤ (marked_mesh self.new).shape.edges }
        ensures whole { OnOk result (IsWholeMesh self.new.planar) }
        ensures ready { IsWholeMesh self.old.planar → ¬ IsMarked (marked_mesh self.old) edge → IsOk result }
        ensures refused { OnErr result (IsMarked (marked_mesh self.new) edge → marked_mesh self.new ≡ marked_mesh self.old) }
    {
        every_mesh(&self.planar.dcel);
        if !self.is_constraint(edge) {
            self.finish()?;
            return Ok(false);
        }
        self.planar.due.reserve(1)?;
        set_mark(&mut self.planar.dcel, edge, Mark::Free);
        self.planar.due.push_reserved(edge);
        self.finish()?;
        Ok(true)
    }

    /// Does what a call left undone for want of memory: it closes the hull, and flips edges that aren't
    /// marked. A whole triangulation ([`is_whole`](Self::is_whole)) stays as it is, and then it can't
    /// fail.
    ///
    /// If memory runs out again, or there is no number left for an edge, it returns `AllocError`, and
    /// what is done so far stays. The vertices and the marked edges stay in any case.
    pub fn finish(&mut self) -> Result<(), AllocError>
        ensures points { (marked_mesh self.new).vertex_data ≡ (marked_mesh self.old).vertex_data }
        ensures edges { (marked_mesh self.old).shape.edges ≤ (marked_mesh self.new).shape.edges }
        ensures only { (u : ℕ) → IsMarked (marked_mesh self.new) u → IsMarked (marked_mesh self.old) u }
        ensures keeps { KeepsMarked (marked_mesh self.old) (marked_mesh self.new) }
        ensures whole { OnOk result (IsWholeMesh self.new.planar) }
        ensures unfinished { OnErr result (¬ IsWholeMesh self.new.planar) }
        ensures same { IsWholeMesh self.old.planar → marked_mesh self.new ≡ marked_mesh self.old }
        ensures ready { IsWholeMesh self.old.planar → IsOk result }
    {
        if self.planar.is_whole() {
            return Ok(());
        }
        every_mesh(&self.planar.dcel);
        let Ok(()) = self.planar.close_hull() else {
            return Err(AllocError);
        };
        self.planar.legalize()
    }
}
