//! Points inserted among constraints.

ghost use Rattle.std.specs.Prelude.{◌⊎◌, IfErr, IfOk, OnOk};
ghost use Rattle.dcel_maps.specs.Shapes.{IsMesh};
ghost use Rattle.dcel_planar.specs.Growing.{Gains, Inserts};
ghost use Rattle.dcel_planar.specs.Leaving.{IsOutlined, IsSame, KeepsDue};
ghost use Rattle.dcel_planar.specs.Places.{HasPoint, IsPlace};
ghost use Rattle.dcel_planar.specs.declared.position.PositionInTriangulation.TheVariants.{OnEdge};
ghost use Rattle.dcel_planar.specs.Outcomes.{FailsToPut, IsWholeMesh};
ghost use Rattle.dcel_constrained.specs.Constrained.{marked_mesh};
ghost use Rattle.dcel_constrained.specs.Splitting.{SplitsMarked};

use crate::locate::locate;
use crate::mesh::is_marked;
use crate::segments::chains::mark_between;
use crate::triangulation::ConstrainedTriangulation;
use dcel_planar::{InsertionError, PlanarMesh, Point, PositionInTriangulation};
use dcel_regions::Mark;
use spade_dcel::handles::{FixedDirectedEdgeHandle, FixedVertexHandle};
use spade_dcel::laws::every_mesh;
use std::alloc::Allocator;

impl<A: Allocator> ConstrainedTriangulation<A> {
    /// Inserts a point into a whole triangulation, and flips edges that aren't marked until it is
    /// Delaunay but for those that are.
    pub(crate) fn insert_in(&mut self, point: Point) -> Result<FixedVertexHandle, InsertionError>
        requires whole { IsWholeMesh self.old.planar }
        ensures inserts { IfOk result (Inserts (marked_mesh self.old) (marked_mesh self.new) point) }
        ensures refuses { IfErr result (FailsToPut self.old.planar self.new.planar point) }
        ensures splits { SplitsMarked (marked_mesh self.old) (marked_mesh self.new) }
        ensures whole { OnOk result (IsWholeMesh self.new.planar) }
    {
        let vertex = put_in(&mut self.planar, point)?;
        if self.planar.is_whole() {
            return Ok(vertex);
        }
        let flipped = self.planar.legalize();
        every_mesh(&self.planar.dcel);
        if flipped.is_err() {
            return Err(InsertionError::Unfinished);
        }
        Ok(vertex)
    }
}

/// Puts a point in where it is, and flips no edge.
fn put_in<A: Allocator>(
    planar: &mut PlanarMesh<Mark, A>,
    point: Point,
) -> Result<FixedVertexHandle, InsertionError>
    requires hull { IsOutlined planar.old.dcel }
    ensures put { IfOk result (λ v. (HasPoint planar.old.dcel point v × IsSame planar.old planar.new) ⊎ Gains planar.old.dcel planar.new.dcel point v) }
    ensures refuses { IfErr result (FailsToPut planar.old planar.new point) }
    ensures lists { KeepsDue planar.old planar.new }
    ensures splits { SplitsMarked planar.old.dcel planar.new.dcel }
    ensures hull { OnOk result (IsOutlined planar.new.dcel) }
    ensures mesh { IsMesh planar.new.dcel }
{
    every_mesh(&planar.dcel);
    match locate(planar, point) {
        PositionInTriangulation::OnEdge(edge) => split(planar, edge, point),
        position => {
            let put = planar.put_at(position, point);
            every_mesh(&planar.dcel);
            put
        }
    }
}

/// Puts a point on an edge. Both parts are marked if the edge is.
fn split<A: Allocator>(
    planar: &mut PlanarMesh<Mark, A>,
    edge: FixedDirectedEdgeHandle,
    point: Point,
) -> Result<FixedVertexHandle, InsertionError>
    requires hull { IsOutlined planar.old.dcel }
    requires place { IsPlace planar.old.dcel point (OnEdge edge) }
    ensures gains { IfOk result (Gains planar.old.dcel planar.new.dcel point) }
    ensures refuses { IfErr result (FailsToPut planar.old planar.new point) }
    ensures lists { KeepsDue planar.old planar.new }
    ensures splits { SplitsMarked planar.old.dcel planar.new.dcel }
    ensures hull { OnOk result (IsOutlined planar.new.dcel) }
    ensures mesh { IsMesh planar.new.dcel }
{
    every_mesh(&planar.dcel);
    let half = planar.dcel.directed_edge(edge);
    let from = half.from().fix();
    let to = half.to().fix();
    let is_constraint = is_marked(&planar.dcel, edge.as_undirected());
    match planar.put_at(PositionInTriangulation::OnEdge(edge), point) {
        Err(error) => {
            every_mesh(&planar.dcel);
            Err(error)
        }
        Ok(vertex) => {
            every_mesh(&planar.dcel);
            if !is_constraint {
                return Ok(vertex);
            }
            mark_between(&mut planar.dcel, vertex, from);
            mark_between(&mut planar.dcel, vertex, to);
            Ok(vertex)
        }
    }
}
