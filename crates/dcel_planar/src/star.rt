//! Edges flipped around a vertex that was just put into a Delaunay triangulation.

ghost use Rattle.std.specs.Prelude.{◌≡◌, ◌↔◌, ◌*◌, ◌+◌, IsTrue, OnErr, OnOk, true};
ghost use Rattle.dcel_maps.specs.Shapes.{IsLive, edge_is_live, origin_of, prev_of};
ghost use Rattle.dcel_plane.specs.Plane.{ListsCircled, point_at};
ghost use Rattle.dcel_plane.specs.star.Star.{HasEmptyCirclesBut, edges_beside};
ghost use Rattle.dcel_planar.specs.Growing.{Keeps};
ghost use Rattle.dcel_planar.specs.Leaving.{IsOutlined};
ghost use Rattle.dcel_planar.specs.Outcomes.{IsWholeMesh};
ghost use Rattle.dcel_planar.specs.Turning.{IsTurnedTo};

use crate::flips::is_still_illegal;
use crate::insert::edges_next_to;
use crate::mesh::EdgeMesh;
use crate::planar::PlanarMesh;
use spade_dcel::handles::{FixedDirectedEdgeHandle, FixedUndirectedEdgeHandle, FixedVertexHandle};
use spade_dcel::laws::every_mesh;
use spade_dcel::operations::flip_cw;
use std::alloc::{AllocError, Allocator};

impl<A: Allocator> PlanarMesh<(), A> {
    /// Flips edges until the mesh is Delaunay again, after a vertex was put into a Delaunay mesh.
    ///
    /// Works as [`legalize`](Self::legalize) does, but for each edge that it flips, it lists only the
    /// other two sides of the triangle beyond it, since no edge of the vertex is ever illegal. So each
    /// edge of the link of the vertex is tested once.
    ///
    /// Asks for a mesh whose hull isn't to be closed, and that was Delaunay until the vertex was put in:
    /// no other vertex is inside a circle, but across an edge of the link. [`put_at`](Self::put_at)
    /// leaves such a mesh, if it succeeds.
    ///
    /// Fails if the list can't grow for lack of memory. The flips made so far remain, and
    /// [`legalize`](Self::legalize) goes on.
    pub fn legalize_star(&mut self, vertex: FixedVertexHandle) -> Result<(), AllocError>
        requires hull { IsOutlined self.old.dcel }
        requires circles { HasEmptyCirclesBut (point_at self.old.dcel) self.old.dcel.shape vertex }
        ensures flips { IsTurnedTo self.old.dcel self.new.dcel }
        ensures keeps { Keeps self.old.dcel self.new.dcel }
        ensures lists { ListsCircled (point_at self.old.dcel) self.old.dcel.shape self.old.due.items
            → ListsCircled (point_at self.new.dcel) self.new.dcel.shape self.new.due.items }
        ensures hull { IsOutlined self.new.dcel }
        ensures whole { OnOk result (IsWholeMesh self.new) }
        ensures unfinished { OnErr result (¬ IsWholeMesh self.new) }
    {
        every_mesh(&self.dcel);
        while let Some(&edge) = self.due.last() {
            if !is_still_illegal(&self.dcel, edge) {
                let _ = self.due.pop();
                continue;
            }
            self.due.reserve(1)?;
            let beyond = edges_beyond(&self.dcel, edge, vertex);
            let _ = self.due.pop();
            self.due.push_reserved(beyond[0]);
            self.due.push_reserved(beyond[1]);
            flip_cw(&mut self.dcel, edge);
        }
        Ok(())
    }
}

/// Returns the other sides of the triangle beyond an edge, as seen from a vertex that is across from it
/// on one side.
fn edges_beyond<UE, A: Allocator>(
    dcel: &EdgeMesh<UE, A>,
    edge: FixedUndirectedEdgeHandle,
    vertex: FixedVertexHandle,
) -> [FixedUndirectedEdgeHandle; 2]
    requires { edge_is_live dcel.now.shape edge ≡ true }
    ensures near { origin_of dcel.now.shape (prev_of dcel.now.shape (2 * edge)) ≡ vertex → result ≡ edges_beside dcel.now.shape (2 * edge + 1) }
    ensures far { ¬ (origin_of dcel.now.shape (prev_of dcel.now.shape (2 * edge)) ≡ vertex) → result ≡ edges_beside dcel.now.shape (2 * edge) }
{
    edges_next_to(dcel, half_beyond(dcel, edge, vertex))
}

/// Returns the half of an edge in the triangle beyond it, as seen from a vertex that is across from it
/// on one side.
///
/// Which half it is can't be foreseen, so it is computed without a branch.
#[inline]
fn half_beyond<UE, A: Allocator>(
    dcel: &EdgeMesh<UE, A>,
    edge: FixedUndirectedEdgeHandle,
    vertex: FixedVertexHandle,
) -> FixedDirectedEdgeHandle
    requires { edge_is_live dcel.now.shape edge ≡ true }
    ensures near { origin_of dcel.now.shape (prev_of dcel.now.shape (2 * edge)) ≡ vertex → result ≡ 2 * edge + 1 }
    ensures far { ¬ (origin_of dcel.now.shape (prev_of dcel.now.shape (2 * edge)) ≡ vertex) → result ≡ 2 * edge }
    ensures live { IsLive dcel.now.shape result }
{
    let half = dcel.undirected_edge(edge).as_directed();
    if half.prev().from().fix() == vertex {
        half.rev().fix()
    } else {
        half.fix()
    }
}
