//! Edges flipped by the circle test, but those that have to stay.

ghost use Rattle.std.specs.Prelude.{◌↔◌, Bool, IsTrue, OnErr, OnOk};
ghost use Rattle.dcel_plane.specs.Plane.{IsCircled, IsInner, point_at};
ghost use Rattle.dcel_planar.specs.Growing.{HasHull, IsFlat, IsTriangleMesh, Keeps};
ghost use Rattle.dcel_planar.specs.Leaving.{IsOutlined};
ghost use Rattle.dcel_planar.specs.Legalization.{IsToTurn, ListsLoose, TurnsLoose};
ghost use Rattle.dcel_planar.specs.Outcomes.{IsWholeMesh};

use crate::circles::is_illegal;
use crate::mesh::EdgeMesh;
use crate::planar::PlanarMesh;
use dcel_legalize::{EdgeConstraint, append_sides};
use spade_dcel::handles::FixedUndirectedEdgeHandle;
use spade_dcel::laws::every_mesh;
use spade_dcel::operations::flip_cw;
use std::alloc::{AllocError, Allocator};

impl<UE: EdgeConstraint, A: Allocator> PlanarMesh<UE, A> {
    /// Flips edges until no triangle's circle has the corner of a triangle beside it inside, but
    /// across an edge that has to stay.
    ///
    /// It looks at the last edge of the list, again and again. If that is to be flipped, it flips it,
    /// and appends the other sides of the two triangles. Otherwise it takes it off the list.
    ///
    /// Asks for a mesh whose hull isn't to be closed: [`close_hull`](Self::close_hull) leaves one if
    /// it succeeds.
    ///
    /// Fails if the list can't grow for lack of memory. The flips made so far remain, and the next
    /// call goes on.
    pub fn legalize(&mut self) -> Result<(), AllocError>
        requires hull { IsOutlined self.old.dcel }
        ensures flips { TurnsLoose UE.is_constraint self.old.dcel self.new.dcel }
        ensures keeps { Keeps self.old.dcel self.new.dcel }
        ensures lists { ListsLoose UE.is_constraint self.old.dcel self.old.due.items → ListsLoose UE.is_constraint self.new.dcel self.new.due.items }
        ensures flat { IsFlat self.old.dcel → IsFlat self.new.dcel }
        ensures hull { HasHull self.old.dcel → HasHull self.new.dcel }
        ensures whole { OnOk result (IsWholeMesh self.new) }
        ensures unfinished { OnErr result (¬ IsWholeMesh self.new) }
    {
        every_mesh(&self.dcel);
        while let Some(&edge) = self.due.last() {
            if !is_to_turn(&self.dcel, edge) {
                let _ = self.due.pop();
                continue;
            }
            self.due.reserve(4)?;
            append_sides(&self.dcel, edge, &mut self.due);
            flip_cw(&mut self.dcel, edge);
        }
        Ok(())
    }
}

/// Returns whether an edge is to be flipped: it is between two triangles, the corner of one inside
/// the circle of the other, and need not stay.
fn is_to_turn<UE: EdgeConstraint, A: Allocator>(
    dcel: &EdgeMesh<UE, A>,
    edge: FixedUndirectedEdgeHandle,
) -> bool
    requires { IsTriangleMesh dcel.now }
    ensures { IsTrue result ↔ IsToTurn UE.is_constraint dcel.now edge }
{
    if !is_still_illegal(dcel, edge) {
        return false;
    }
    !dcel.undirected_edge_data(edge).is_constraint()
}

/// Returns whether an edge that was listed, and may be gone, is between two triangles, the corner of
/// one inside the circle of the other.
pub(crate) fn is_still_illegal<UE, A: Allocator>(
    dcel: &EdgeMesh<UE, A>,
    edge: FixedUndirectedEdgeHandle,
) -> bool
    requires { IsTriangleMesh dcel.now }
    ensures { IsTrue result ↔ (IsInner dcel.now.shape edge × IsCircled (point_at dcel.now) dcel.now.shape edge) }
{
    every_mesh(dcel);
    if !dcel.is_live_edge(edge) {
        return false;
    }
    is_illegal(dcel, edge)
}
