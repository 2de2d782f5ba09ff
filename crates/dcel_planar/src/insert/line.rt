//! The edits while all vertices are on a line: the first vertices, an edge of the path split, and
//! the path extended. The outer face is the only one, so nothing is to be listed.

ghost use Rattle.std.specs.Prelude.{◌≡◌, IfErr, IfOk, OnOk};
ghost use Rattle.dcel_planar.specs.Edges.{IsSplit, KeepsEdgeData, KeepsEdges};
ghost use Rattle.dcel_planar.specs.Growing.{Gains, IsFlat};
ghost use Rattle.dcel_planar.specs.Leaving.{IsNotPut, KeepsDue};
ghost use Rattle.dcel_planar.specs.Places.{IsPlace};
ghost use Rattle.dcel_planar.specs.declared.position.PositionInTriangulation.TheVariants.{BeyondLine, NoTriangulation, OnEdge};

use crate::errors::InsertionError;
use crate::insert::edits::{append, take_back};
use crate::planar::PlanarMesh;
use dcel_predicates::Point;
use spade_dcel::handles::{FixedDirectedEdgeHandle, FixedVertexHandle};
use spade_dcel::laws::every_mesh;
use spade_dcel::operations::{
    extend_line, setup_initial_two_vertices, split_edge_when_all_vertices_on_line,
};
use std::alloc::Allocator;

impl<UE: Default, A: Allocator> PlanarMesh<UE, A> {
    /// Puts a point on an edge of the path.
    pub(crate) fn put_on_line(
        &mut self,
        edge: FixedDirectedEdgeHandle,
        point: Point,
    ) -> Result<FixedVertexHandle, InsertionError>
        requires flat { IsFlat self.old.dcel }
        requires place { IsPlace self.old.dcel point (OnEdge edge) }
        ensures gains { IfOk result (Gains self.old.dcel self.new.dcel point) }
        ensures refused { IfErr result (IsNotPut self.old self.new) }
        ensures lists { KeepsDue self.old self.new }
        ensures edge_data { OnOk result (KeepsEdgeData UE.is_default self.old.dcel self.new.dcel) }
        ensures split { IfOk result (IsSplit self.old.dcel self.new.dcel edge) }
        ensures flat { IsFlat self.new.dcel }
    {
        every_mesh(&self.dcel);
        let vertex = append(&mut self.dcel, point)?;
        let Ok(_) = split_edge_when_all_vertices_on_line(&mut self.dcel, edge, vertex) else {
            return Err(take_back(&mut self.dcel, vertex));
        };
        Ok(vertex)
    }

    /// Puts a point beyond an end of the path.
    pub(crate) fn put_beyond(
        &mut self,
        end: FixedVertexHandle,
        point: Point,
    ) -> Result<FixedVertexHandle, InsertionError>
        requires flat { IsFlat self.old.dcel }
        requires place { IsPlace self.old.dcel point (BeyondLine end) }
        ensures gains { IfOk result (Gains self.old.dcel self.new.dcel point) }
        ensures refused { IfErr result (IsNotPut self.old self.new) }
        ensures lists { KeepsDue self.old self.new }
        ensures edges { OnOk result (KeepsEdges UE.is_default self.old.dcel self.new.dcel) }
        ensures flat { IsFlat self.new.dcel }
    {
        every_mesh(&self.dcel);
        let vertex = append(&mut self.dcel, point)?;
        let Ok(_) = extend_line(&mut self.dcel, end, vertex) else {
            return Err(take_back(&mut self.dcel, vertex));
        };
        Ok(vertex)
    }

    /// Puts in the first point, or the second one with the first edge.
    pub(crate) fn put_first(&mut self, point: Point) -> Result<FixedVertexHandle, InsertionError>
        requires flat { IsFlat self.old.dcel }
        requires place { IsPlace self.old.dcel point NoTriangulation }
        ensures gains { IfOk result (Gains self.old.dcel self.new.dcel point) }
        ensures refused { IfErr result (IsNotPut self.old self.new) }
        ensures lists { KeepsDue self.old self.new }
        ensures edges { OnOk result (KeepsEdges UE.is_default self.old.dcel self.new.dcel) }
        ensures flat { IsFlat self.new.dcel }
    {
        every_mesh(&self.dcel);
        let vertex = append(&mut self.dcel, point)?;
        if vertex.index() == 0 {
            return Ok(vertex);
        }
        let first = FixedVertexHandle::new(0);
        let Ok(_) = setup_initial_two_vertices(&mut self.dcel, first, vertex) else {
            return Err(take_back(&mut self.dcel, vertex));
        };
        Ok(vertex)
    }
}
