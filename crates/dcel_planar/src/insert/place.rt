//! A point put in where it is, and the hull closed.

ghost use Rattle.std.specs.Prelude.{◌≡◌, IfErr, IfOk, OnErr, OnOk};
ghost use Rattle.dcel_planar.specs.Edges.{IsSplit, KeepsEdgeData, KeepsEdges, KeepsEnds, KeepsStarts};
ghost use Rattle.dcel_planar.specs.Growing.{Gains, HasHull, HasOutside};
ghost use Rattle.dcel_planar.specs.Leaving.{IsOutlined, IsPutIn, IsNotPut, KeepsCirclesBut, KeepsDue};
ghost use Rattle.dcel_planar.specs.Outcomes.{FailsToPut};
ghost use Rattle.dcel_planar.specs.Places.{IsPlace};
ghost use Rattle.dcel_planar.specs.declared.position.PositionInTriangulation.TheVariants.{OnEdge, OutsideOfConvexHull};

use crate::errors::InsertionError;
use crate::planar::PlanarMesh;
use crate::position::PositionInTriangulation;
use dcel_predicates::Point;
use spade_dcel::handles::{FixedDirectedEdgeHandle, FixedVertexHandle};
use std::alloc::Allocator;

impl<UE: Default, A: Allocator> PlanarMesh<UE, A> {
    /// Puts a point in where it is, and flips no edge.
    ///
    /// The result is its vertex: a new one, or that of the position if one is there. Outside of
    /// the hull all triangles are made that are between the vertex and the hull. The edges of the
    /// triangles that are new or changed are listed. Edges keep their data and their ends, and new
    /// ones have default data; of an edge that the point is on, one part keeps its number, and the
    /// other is new. If the mesh was Delaunay, [`legalize_star`](Self::legalize_star) makes it Delaunay
    /// again.
    ///
    /// Asks for a mesh whose hull isn't to be closed ([`close_hull`](Self::close_hull) leaves one if it
    /// succeeds), and for the position of the point, as [`locate`](Self::locate) returns it.
    ///
    /// If no numbers are left for a new vertex, three edges and two faces, the result is
    /// [`TooManyPoints`](InsertionError::TooManyPoints), and if memory runs out before the vertex
    /// is there, [`OutOfMemory`](InsertionError::OutOfMemory): nothing has changed then. If either runs
    /// out while the hull is closed, the result is [`Unfinished`](InsertionError::Unfinished), the
    /// vertex is there, and [`close_hull`](Self::close_hull) goes on with what is left to do.
    pub fn put_at(
        &mut self,
        position: PositionInTriangulation,
        point: Point,
    ) -> Result<FixedVertexHandle, InsertionError>
        requires hull { IsOutlined self.old.dcel }
        requires place { IsPlace self.old.dcel point position }
        ensures put { IfOk result (IsPutIn self.old self.new position point) }
        ensures refuses { IfErr result (FailsToPut self.old self.new point) }
        ensures lists { KeepsDue self.old self.new }
        ensures edge_data { KeepsEdgeData UE.is_default self.old.dcel self.new.dcel }
        ensures ends { IfOk result (KeepsEnds self.old.dcel self.new.dcel position) }
        ensures starts { OnErr result (KeepsStarts self.old.dcel self.new.dcel) }
        ensures hull { OnOk result (IsOutlined self.new.dcel) }
        ensures circles { OnOk result (KeepsCirclesBut self.old.dcel self.new.dcel) }
        ensures outside { HasOutside self.new.dcel self.new.due.items }
    {
        match position {
            PositionInTriangulation::OnVertex(vertex) => Ok(vertex),
            PositionInTriangulation::OnFace(face) => self.put_in_face(face, point),
            PositionInTriangulation::OnEdge(edge) => self.put_on_any_edge(edge, point),
            PositionInTriangulation::OutsideOfConvexHull(edge) => self.put_outside(edge, point),
            PositionInTriangulation::BeyondLine(end) => self.put_beyond(end, point),
            PositionInTriangulation::NoTriangulation => self.put_first(point),
        }
    }

    /// Puts a point on an edge: of a path, of the hull, or of two triangles.
    fn put_on_any_edge(
        &mut self,
        edge: FixedDirectedEdgeHandle,
        point: Point,
    ) -> Result<FixedVertexHandle, InsertionError>
        requires hull { IsOutlined self.old.dcel }
        requires place { IsPlace self.old.dcel point (OnEdge edge) }
        ensures gains { IfOk result (Gains self.old.dcel self.new.dcel point) }
        ensures refused { IfErr result (IsNotPut self.old self.new) }
        ensures lists { KeepsDue self.old self.new }
        ensures edge_data { OnOk result (KeepsEdgeData UE.is_default self.old.dcel self.new.dcel) }
        ensures split { IfOk result (IsSplit self.old.dcel self.new.dcel edge) }
        ensures hull { OnOk result (IsOutlined self.new.dcel) }
        ensures circles { OnOk result (KeepsCirclesBut self.old.dcel self.new.dcel) }
    {
        if self.dcel.num_faces() == 1 {
            return self.put_on_line(edge, point);
        }
        let half = self.dcel.directed_edge(edge);
        if half.is_outer_edge() {
            return self.put_on_hull(edge.rev(), point);
        }
        if half.rev().is_outer_edge() {
            return self.put_on_hull(edge, point);
        }
        self.put_on_edge(edge, point)
    }

    /// Puts a point in outside of the hull, or beside a line, on the left of an outer half edge.
    fn put_outside(
        &mut self,
        edge: FixedDirectedEdgeHandle,
        point: Point,
    ) -> Result<FixedVertexHandle, InsertionError>
        requires hull { IsOutlined self.old.dcel }
        requires place { IsPlace self.old.dcel point (OutsideOfConvexHull edge) }
        ensures gains { IfOk result (Gains self.old.dcel self.new.dcel point) }
        ensures refuses { IfErr result (FailsToPut self.old self.new point) }
        ensures lists { KeepsDue self.old self.new }
        ensures edges { KeepsEdges UE.is_default self.old.dcel self.new.dcel }
        ensures hull { OnOk result (HasHull self.new.dcel) }
        ensures circles { OnOk result (KeepsCirclesBut self.old.dcel self.new.dcel) }
        ensures outside { HasOutside self.new.dcel self.new.due.items }
    {
        let vertex = self.put_beside(edge, point)?;
        self.close_hull()?;
        Ok(vertex)
    }
}
