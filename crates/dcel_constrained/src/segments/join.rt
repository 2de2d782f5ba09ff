//! Two vertices joined by an edge.

ghost use Rattle.std.specs.Prelude.{◌≡◌, ◌≢◌, ◌<◌, ◌++◌, ◌∷◌, ◌/◌, [], ℕ, IfOk, OnErr, OnOk};
ghost use Rattle.dcel_legalize.specs.Flipping.{sides_beside};
ghost use Rattle.dcel_maps.specs.Shapes.{IsLive, face_of};
ghost use Rattle.dcel_maps.specs.Walking.{Leads};
ghost use Rattle.dcel_plane.specs.Plane.{point_at};
ghost use Rattle.dcel_planar.specs.Growing.{KeepsListed};
ghost use Rattle.dcel_plane.specs.segments.Segments.{AreEnds, BeginsAt, TriangulatesItsHull};
ghost use Rattle.dcel_constrained.specs.Meeting.{HasCome, IsJoinedAs, ListsStill};

use crate::segments::flips::connect;
use crate::segments::walk::{Met, first_met, met_after};
use dcel_legalize::append_sides;
use dcel_predicates::Point;
use spade_dcel::dcel::Dcel;
use spade_dcel::handles::{FixedDirectedEdgeHandle, FixedUndirectedEdgeHandle, FixedVertexHandle};
use spade_dcel::laws::every_mesh;
use std::alloc::{AllocError, Allocator};

/// How [`join`] ended.
#[derive(Clone, Copy, PartialEq, Eq, Debug)]
pub enum Joined {
    /// The two vertices have an edge.
    Edge,
    /// This vertex is on the segment between its ends, the first on the way, and nothing has
    /// changed.
    Between(FixedVertexHandle),
}

/// Makes the segment between two vertices an edge, by flips of the edges that it crosses.
///
/// If they have an edge already, nothing changes. A vertex on the segment stays where it is: the
/// result has it, and the parts up to it and from it on can be joined one after the other. The
/// triangles go round counterclockwise afterwards too, and the hull stays as it is. `due` gets the
/// edges around the triangles that the segment crosses: of the edges between two triangles with a
/// corner inside the circle of the other side, it lacks none afterwards but those that it lacked
/// before. It may get some where nothing is flipped, too.
///
/// Asks for a mesh of triangles in the plane with a convex hull and an inner face
/// (`num_faces() > 1`), and for two different vertices with edges
/// ([`is_unconnected`](Dcel::is_unconnected) is false). A Delaunay triangulation is such a mesh
/// ([`is_delaunay_triangulation`](dcel_planar::is_delaunay_triangulation)); no public test shows it of
/// others, as of one with constraints: for these it is for crates whose invariants have it. `crossed`
/// is empty before and after.
///
/// If memory runs out it returns `AllocError`, and nothing is flipped.
pub fn join<DE, UE, F, A: Allocator, L: Allocator>(
    dcel: &mut Dcel<Point, DE, UE, F, A>,
    from: FixedVertexHandle,
    to: FixedVertexHandle,
    crossed: &mut Vec<FixedDirectedEdgeHandle, L>,
    due: &mut Vec<FixedUndirectedEdgeHandle, L>,
) -> Result<Joined, AllocError>
    requires planar { TriangulatesItsHull (point_at dcel.old) dcel.old }
    requires inner { (h : ℕ) × IsLive dcel.old.shape h × (0 < face_of dcel.old.shape h) }
    requires differ { from ≢ to }
    requires ends { AreEnds dcel.old.shape from to }
    requires empty { crossed.old.items ≡ [] }
    ensures joined { IfOk result (IsJoinedAs dcel.old dcel.new from to) }
    ensures refused { OnErr result (dcel.new ≡ dcel.old) }
    ensures planar { TriangulatesItsHull (point_at dcel.new) dcel.new }
    ensures lists { KeepsListed dcel.old dcel.new due.old.items due.new.items }
    ensures crossed { crossed.new.items ≡ [] }
    ensures same { (h : ℕ) → Leads dcel.old.shape from to h → (dcel.new ≡ dcel.old) × (due.new.items ≡ due.old.items) }
{
    every_mesh(dcel);
    let edge = match first_met(dcel, from, to) {
        Met::Side(edge) => edge,
        Met::Vertex(vertex) => return Ok(reached(vertex, to)),
    };
    let Ok(vertex) = gather(dcel, from, to, edge, crossed, due) else {
        crossed.clear();
        return Err(AllocError);
    };
    if vertex != to {
        crossed.clear();
        return Ok(Joined::Between(vertex));
    }
    connect(dcel, from, to, crossed);
    Ok(Joined::Edge)
}

/// Returns how a way along an edge ends: there is one to this vertex.
fn reached(vertex: FixedVertexHandle, to: FixedVertexHandle) -> Joined
    ensures edge { vertex ≡ to → result ≡ Joined.Edge }
    ensures between { vertex ≢ to → result ≡ Joined.Between vertex }
{
    if vertex == to {
        return Joined::Edge;
    }
    Joined::Between(vertex)
}

/// Lists the half edges that a segment crosses, from this one on, and the edges around the triangles
/// beside them, and returns the vertex that it comes to: its end, or one between its ends.
pub(crate) fn gather<DE, UE, F, A: Allocator, L: Allocator>(
    dcel: &Dcel<Point, DE, UE, F, A>,
    from: FixedVertexHandle,
    to: FixedVertexHandle,
    first: FixedDirectedEdgeHandle,
    crossed: &mut Vec<FixedDirectedEdgeHandle, L>,
    due: &mut Vec<FixedUndirectedEdgeHandle, L>,
) -> Result<FixedVertexHandle, AllocError>
    requires planar { TriangulatesItsHull (point_at dcel.now) dcel.now }
    requires ends { AreEnds dcel.now.shape from to }
    requires begins { BeginsAt (point_at dcel.now) dcel.now.shape from to first }
    requires empty { crossed.old.items ≡ [] }
    ensures come { IfOk result (HasCome (point_at dcel.now) dcel.now.shape from to crossed.new.items due.new.items) }
    ensures kept { ListsStill due.old.items due.new.items }
{
    let mut edge = first;
    // It crosses no half edge twice.
    for _step in 0..dcel.num_directed_edges() {
        note(dcel, edge, crossed, due)?;
        match met_after(dcel, from, to, edge) {
            Met::Vertex(vertex) => return Ok(vertex),
            Met::Side(next) => edge = next,
        }
    }
    unreachable!()
}

/// Puts a half edge on one list, and its edge and the other sides of its triangles on another.
fn note<DE, UE, F, A: Allocator, L: Allocator>(
    dcel: &Dcel<Point, DE, UE, F, A>,
    edge: FixedDirectedEdgeHandle,
    crossed: &mut Vec<FixedDirectedEdgeHandle, L>,
    due: &mut Vec<FixedUndirectedEdgeHandle, L>,
) -> Result<(), AllocError>
    requires { IsLive dcel.now.shape edge }
    ensures crossed { OnOk result (crossed.new.items ≡ crossed.old.items ++ edge ∷ []) }
    ensures due { OnOk result (due.new.items ≡ (due.old.items ++ (edge / 2) ∷ []) ++ sides_beside dcel.now.shape (edge / 2)) }
    ensures same { OnErr result (due.new.items ≡ due.old.items) }
{
    let own = edge.as_undirected();
    due.reserve(5)?;
    crossed.reserve(1)?;
    crossed.push_reserved(edge);
    due.push_reserved(own);
    append_sides(dcel, own, due);
    Ok(())
}
