//! A vertex taken out of a planar mesh, from triangles or from a line.

ghost use Rattle.std.specs.Prelude.{◌↔◌, ◌<◌, IfErr, IfOk, IsTrue, OnErr, OnOk};
ghost use Rattle.dcel_planar.specs.Leaving.{IsOutlined};
ghost use Rattle.dcel_planar.specs.Legalization.{ListsLoose};
ghost use Rattle.dcel_delaunay.specs.Removing.{FailsToTakeOut, Loses};
ghost use Rattle.dcel_delaunay.specs.Staying.{HasConstraintAt, KeepsStaying, LosesNoneStaying};

mod around;
mod border;
mod cleanup;
mod corner;
mod ears;
mod flips;
mod line;
mod square;
mod triangle;
mod triangles;

use crate::errors::RemovalError;
use crate::free::FreeByDefault;
use crate::removed::Removed;
use dcel_legalize::EdgeConstraint;
use dcel_planar::{PlanarMesh, outside_of};
use line::remove_from_line;
use spade_dcel::handles::{FixedUndirectedEdgeHandle, FixedVertexHandle};
use spade_dcel::laws::every_mesh;
use std::alloc::Allocator;
use triangles::{cut_out, cut_out_corner};

/// Edges that are to be looked at.
pub(crate) type Due<L> = Vec<FixedUndirectedEdgeHandle, L>;

/// Returns whether a constraint ends at a vertex.
///
/// Asks for a number below `num_vertices()`.
pub fn has_constraint_at<UE: EdgeConstraint, A: Allocator>(
    mesh: &PlanarMesh<UE, A>,
    vertex: FixedVertexHandle,
) -> bool
    requires { vertex < mesh.now.dcel.shape.vertices }
    ensures { IsTrue result ↔ HasConstraintAt UE.is_constraint mesh.now.dcel vertex }
{
    let mut edges = mesh.dcel.vertex(vertex).out_edges();
    while let Some(edge) = edges.next() {
        let edge = edge.fix().as_undirected();
        if mesh.dcel.undirected_edge_data(edge).is_constraint() {
            return true;
        }
    }
    false
}

/// Removes a vertex at which no constraint ends, and lists the edges that are to be looked at then.
///
/// All constraints stay, between the same vertices. The last vertex gets the number of the vertex, as
/// the result says; all others keep theirs, but edges get new numbers. If the list has each edge that
/// is to be flipped, it does afterwards too, and [`legalize`](PlanarMesh::legalize) flips them.
///
/// Asks for a mesh whose hull isn't to be closed ([`close_hull`](PlanarMesh::close_hull) leaves one if
/// it succeeds), for a number below `num_vertices()`, and for a vertex without constraints
/// ([`has_constraint_at`]).
///
/// If the vertex is inside of triangles and no numbers are left for an edge and two triangles, the
/// result is [`TooManyPoints`](RemovalError::TooManyPoints), and nothing has changed. If memory runs
/// out it is [`OutOfMemory`](RemovalError::OutOfMemory): the vertex is still there, and edges may
/// have been flipped.
pub fn remove_vertex<UE: FreeByDefault + Drop, A: Allocator + Clone>(
    mesh: &mut PlanarMesh<UE, A>,
    vertex: FixedVertexHandle,
) -> Result<Removed, RemovalError>
    requires hull { IsOutlined mesh.old.dcel }
    requires vertex { vertex < mesh.old.dcel.shape.vertices }
    requires loose { ¬ HasConstraintAt UE.is_constraint mesh.old.dcel vertex }
    ensures loses { IfOk result (Loses mesh.old.dcel mesh.new.dcel vertex) }
    ensures fails { IfErr result (FailsToTakeOut mesh.old mesh.new vertex) }
    ensures lists { ListsLoose UE.is_constraint mesh.old.dcel mesh.old.due.items → ListsLoose UE.is_constraint mesh.new.dcel mesh.new.due.items }
    ensures staying { OnOk result (LosesNoneStaying UE.is_constraint mesh.old.dcel mesh.new.dcel vertex) }
    ensures still { OnErr result (KeepsStaying UE.is_constraint mesh.old.dcel mesh.new.dcel) }
    ensures hull { IsOutlined mesh.new.dcel }
{
    every_mesh(&mesh.dcel);
    if mesh.dcel.num_faces() == 1 {
        return Ok(remove_from_line(&mut mesh.dcel, vertex));
    }
    match outside_of(&mesh.dcel, vertex) {
        Some(outside) => {
            let Ok(removed) = cut_out_corner(&mut mesh.dcel, &mut mesh.due, outside, vertex) else {
                return Err(RemovalError::OutOfMemory);
            };
            Ok(removed)
        }
        None => {
            if !mesh.dcel.has_room(0, 1, 2) {
                return Err(RemovalError::TooManyPoints);
            }
            let Ok(removed) = cut_out(&mut mesh.dcel, &mut mesh.due, vertex) else {
                return Err(RemovalError::OutOfMemory);
            };
            Ok(removed)
        }
    }
}
