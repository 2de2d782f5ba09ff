//! Where many points are, and what is nearest to them: each walk begins where the last one ended.

ghost use Rattle.std.specs.Prelude.{◌≡◌, IfOk};
ghost use Rattle.dcel_delaunay.specs.Bulk.{AnswersEach, AnswersToo};
ghost use Rattle.dcel_delaunay.specs.Triangulated.{IsNearestIn, mesh_in};
ghost use Rattle.dcel_planar.specs.Outcomes.{IsWholeMesh};
ghost use Rattle.dcel_planar.specs.Places.{IsPlace};

use crate::insert::{insertion_order, note, point_of};
use crate::locate::nearest;
use crate::triangulation::Triangulation;
use dcel_planar::{Point, PositionInTriangulation};
use spade_dcel::handles::{FixedDirectedEdgeHandle, FixedFaceHandle, FixedVertexHandle, InnerTag};
use std::alloc::{AllocError, Allocator};

impl<A: Allocator> Triangulation<A> {
    /// Returns where each of these points is, as [`locate`](Self::locate) does, in the order of the
    /// points.
    ///
    /// It looks for them in an order of its own, in which walks are short.
    ///
    /// Asks for a whole triangulation ([`is_whole`](Self::is_whole)): where memory ran out,
    /// [`finish`](Self::finish) makes it so. If memory for the answers runs out it returns
    /// `AllocError`.
    pub fn locate_all<B: Allocator + Clone>(
        &self,
        alloc: B,
        points: &[Point],
    ) -> Result<Vec<PositionInTriangulation, B>, AllocError>
        requires whole { IsWholeMesh self.now.planar }
        ensures { IfOk result (λ positions. AnswersEach (IsPlace (mesh_in self.now)) points.now positions.items) }
    {
        let order = insertion_order(alloc.clone()?, points)?;
        let none = PositionInTriangulation::NoTriangulation;
        let mut positions = vec![in alloc; none; points.len()]?;
        let mut start = self.last;
        for number in &order {
            start = self.locate_numbered(start, points, *number, &mut positions);
        }
        Ok(positions)
    }

    /// Returns for each of these points a vertex that no other one is nearer to it than, as
    /// [`nearest_vertex`](Self::nearest_vertex) does, in the order of the points.
    ///
    /// It looks for them in an order of its own, in which walks are short.
    ///
    /// Asks for a whole triangulation ([`is_whole`](Self::is_whole)): where memory ran out,
    /// [`finish`](Self::finish) makes it so. If memory for the answers runs out it returns
    /// `AllocError`.
    pub fn nearest_all<B: Allocator + Clone>(
        &self,
        alloc: B,
        points: &[Point],
    ) -> Result<Vec<Option<FixedVertexHandle>, B>, AllocError>
        requires whole { IsWholeMesh self.now.planar }
        ensures { IfOk result (λ vertices. AnswersEach (IsNearestIn (mesh_in self.now)) points.now vertices.items) }
    {
        let order = insertion_order(alloc.clone()?, points)?;
        let mut vertices = vec![in alloc; None; points.len()]?;
        let mut start = self.last;
        for number in &order {
            start = self.nearest_numbered(start, points, *number, &mut vertices);
        }
        Ok(vertices)
    }

    /// Locates the point with this number by a walk from a half edge, and notes the answer in that
    /// place. Returns where the next walk begins.
    fn locate_numbered<B: Allocator>(
        &self,
        start: FixedDirectedEdgeHandle,
        points: &[Point],
        number: usize,
        positions: &mut Vec<PositionInTriangulation, B>,
    ) -> FixedDirectedEdgeHandle
        requires { IsWholeMesh self.now.planar }
        ensures { AnswersToo (IsPlace (mesh_in self.now)) (IsPlace (mesh_in self.now)) points.now number positions.old.items positions.new.items }
    {
        let Some(point) = point_of(points, number) else {
            return start;
        };
        let position = self.planar.locate(start, point);
        let next = self.edge_near(&position);
        note(positions, number, position);
        next
    }

    /// Finds the vertex nearest to the point with this number by a walk from a half edge, and notes
    /// it in that place. Returns where the next walk begins.
    fn nearest_numbered<B: Allocator>(
        &self,
        start: FixedDirectedEdgeHandle,
        points: &[Point],
        number: usize,
        vertices: &mut Vec<Option<FixedVertexHandle>, B>,
    ) -> FixedDirectedEdgeHandle
        requires { IsWholeMesh self.now.planar }
        ensures { AnswersToo (IsNearestIn (mesh_in self.now)) (IsNearestIn (mesh_in self.now)) points.now number vertices.old.items vertices.new.items }
    {
        let Some(point) = point_of(points, number) else {
            return start;
        };
        let vertex = nearest(&self.planar.dcel, start, point);
        let next = self.edge_from(&vertex);
        note(vertices, number, vertex);
        next
    }

    /// Returns a half edge at a position.
    fn edge_near(&self, position: &PositionInTriangulation) -> FixedDirectedEdgeHandle {
        match position {
            PositionInTriangulation::OnEdge(edge) => *edge,
            PositionInTriangulation::OutsideOfConvexHull(edge) => *edge,
            PositionInTriangulation::OnVertex(vertex) => self.edge_at(*vertex),
            PositionInTriangulation::BeyondLine(vertex) => self.edge_at(*vertex),
            PositionInTriangulation::NoTriangulation => self.last,
            PositionInTriangulation::OnFace(face) => self.edge_of(*face),
        }
    }

    /// Returns an out edge of a vertex, or where the next walk begins if there is none.
    fn edge_from(&self, vertex: &Option<FixedVertexHandle>) -> FixedDirectedEdgeHandle {
        match vertex {
            Some(vertex) => self.edge_at(*vertex),
            None => self.last,
        }
    }

    /// Returns the anchor of a face, or where the next walk begins if there is no such face.
    fn edge_of(&self, face: FixedFaceHandle<InnerTag>) -> FixedDirectedEdgeHandle {
        if face.index() >= self.planar.dcel.num_faces() {
            return self.last;
        }
        self.planar
            .dcel
            .face_adjacent_edge(face)
            .unwrap_or(self.last)
    }
}
