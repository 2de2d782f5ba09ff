//! Where many points are: each walk begins where the last one ended.

ghost use Rattle.std.specs.Prelude.{◌≡◌, IfOk};
ghost use Rattle.dcel_constrained.specs.Constrained.{marked_mesh};
ghost use Rattle.dcel_delaunay.specs.Bulk.{AnswersEach, AnswersToo};
ghost use Rattle.dcel_planar.specs.Leaving.{IsOutlined};
ghost use Rattle.dcel_planar.specs.Outcomes.{IsWholeMesh};
ghost use Rattle.dcel_planar.specs.Places.{IsPlace};

use crate::bulk::{item_of, note};
use crate::locate::newest;
use crate::triangulation::ConstrainedTriangulation;
use dcel_delaunay::insertion_order;
use dcel_planar::{EdgeMesh, PlanarMesh, Point, PositionInTriangulation};
use spade_dcel::handles::{FixedDirectedEdgeHandle, FixedFaceHandle, FixedVertexHandle, InnerTag};
use std::alloc::{AllocError, Allocator};

impl<A: Allocator> ConstrainedTriangulation<A> {
    /// Returns where each of these points is, as [`locate`](Self::locate) does, in the order of the
    /// points.
    ///
    /// It looks for them in an order of its own, in which walks are short.
    ///
    /// Asks for a whole triangulation ([`is_whole`](Self::is_whole)): where memory ran out,
    /// [`finish`](Self::finish) makes it so. If memory for the answers runs out it returns
    /// `AllocError`.
    pub fn locate_all<B: Allocator + Clone>(
        &self,
        alloc: B,
        points: &[Point],
    ) -> Result<Vec<PositionInTriangulation, B>, AllocError>
        requires whole { IsWholeMesh self.now.planar }
        ensures { IfOk result (λ positions. AnswersEach (IsPlace (marked_mesh self.now)) points.now positions.items) }
    {
        let order = insertion_order(alloc.clone()?, points)?;
        let none = PositionInTriangulation::NoTriangulation;
        let mut positions = vec![in alloc; none; points.len()]?;
        let mut start = newest(&self.planar.dcel);
        for number in &order {
            start = locate_numbered(&self.planar, start, points, *number, &mut positions);
        }
        Ok(positions)
    }
}

/// Locates the point with this number by a walk from a half edge, and notes the answer in that
/// place. Returns where the next walk begins.
fn locate_numbered<UE, A: Allocator, B: Allocator>(
    planar: &PlanarMesh<UE, A>,
    start: FixedDirectedEdgeHandle,
    points: &[Point],
    number: usize,
    positions: &mut Vec<PositionInTriangulation, B>,
) -> FixedDirectedEdgeHandle
    requires hull { IsOutlined planar.now.dcel }
    ensures { AnswersToo (IsPlace planar.now.dcel) (IsPlace planar.now.dcel) points.now number positions.old.items positions.new.items }
{
    let Some(point) = item_of(points, number) else {
        return start;
    };
    let position = planar.locate(start, point);
    note(positions, number, position);
    half_at(&planar.dcel, &position).unwrap_or(start)
}

/// Returns a half edge at a position, if there is one.
fn half_at<UE, A: Allocator>(
    dcel: &EdgeMesh<UE, A>,
    position: &PositionInTriangulation,
) -> Option<FixedDirectedEdgeHandle> {
    match position {
        PositionInTriangulation::OnEdge(half) => Some(*half),
        PositionInTriangulation::OutsideOfConvexHull(half) => Some(*half),
        PositionInTriangulation::OnVertex(vertex) => half_from(dcel, *vertex),
        PositionInTriangulation::BeyondLine(vertex) => half_from(dcel, *vertex),
        PositionInTriangulation::OnFace(face) => half_of(dcel, *face),
        PositionInTriangulation::NoTriangulation => None,
    }
}

/// Returns an out edge of a vertex, if it has one.
fn half_from<UE, A: Allocator>(
    dcel: &EdgeMesh<UE, A>,
    vertex: FixedVertexHandle,
) -> Option<FixedDirectedEdgeHandle> {
    Some(dcel.get_vertex(vertex)?.out_edge()?.fix())
}

/// Returns the anchor of a face, if there is such a face.
fn half_of<UE, A: Allocator>(
    dcel: &EdgeMesh<UE, A>,
    face: FixedFaceHandle<InnerTag>,
) -> Option<FixedDirectedEdgeHandle> {
    if face.index() >= dcel.num_faces() {
        return None;
    }
    dcel.face_adjacent_edge(face)
}
