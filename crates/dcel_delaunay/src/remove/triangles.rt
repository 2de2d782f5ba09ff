//! A vertex of triangles removed: its place filled or left to the outer face.

ghost use Rattle.std.specs.Prelude.{◌≡◌, ◌⊎◌, ◌<◌, IfErr, IfOk, OnErr, OnOk, length, vec_capacity, vec_len};
ghost use Rattle.dcel_maps.specs.Conditions.{HasRoom};
ghost use Rattle.dcel_planar.specs.Corners.{StartsOutside};
ghost use Rattle.dcel_planar.specs.Growing.{HasHull, IsFlat, IsTriangleMesh, Keeps};
ghost use Rattle.dcel_delaunay.specs.Removing.{IsFilled, IsInnerVertex, IsThinnedOut, Loses, TakesOut};
ghost use Rattle.dcel_delaunay.specs.Staying.{HasConstraintAt, KeepsStaying, LeavesLegal, LosesNoneStaying};
ghost use Rattle.dcel_delaunay.specs.Thinning.{HasPlaces, ListsAround, with_spokes};

use crate::free::FreeByDefault;
use crate::remove::Due;
use crate::remove::border::{Border, border_of};
use crate::remove::cleanup::{drop_given_up, take_out};
use crate::remove::corner::cut_off;
use crate::remove::flips::{thin_corner, thin_out};
use crate::remove::square::take_from_square;
use crate::remove::triangle::take_from_triangle;
use crate::removed::Removed;
use dcel_legalize::EdgeConstraint;
use dcel_planar::EdgeMesh;
use spade_dcel::handles::{FixedDirectedEdgeHandle, FixedVertexHandle};
use spade_dcel::laws::every_mesh;
use std::alloc::{AllocError, Allocator};

/// Flips edges of a vertex until few are left, gives it up, fills the hole, and takes it out.
///
/// If memory runs out, the vertex stays, and edges may have been flipped.
pub(crate) fn cut_out<UE: FreeByDefault + Drop, A: Allocator + Clone, L: Allocator>(
    dcel: &mut EdgeMesh<UE, A>,
    due: &mut Due<L>,
    vertex: FixedVertexHandle,
) -> Result<Removed, AllocError>
    requires sound { IsTriangleMesh dcel.old }
    requires hull { HasHull dcel.old }
    requires vertex { vertex < dcel.old.shape.vertices }
    requires inside { IsInnerVertex dcel.old.shape vertex }
    requires room { HasRoom dcel.old.shape 0 1 2 }
    requires loose { ¬ HasConstraintAt UE.is_constraint dcel.old vertex }
    ensures loses { IfOk result (Loses dcel.old dcel.new vertex) }
    ensures keeps { OnErr result (Keeps dcel.old dcel.new) }
    ensures sound { LeavesLegal UE.is_constraint dcel.old dcel.new due.old.items due.new.items }
    ensures staying { OnOk result (LosesNoneStaying UE.is_constraint dcel.old dcel.new vertex) }
    ensures still { OnErr result (KeepsStaying UE.is_constraint dcel.old dcel.new) }
    ensures hull { IsFlat dcel.new ⊎ HasHull dcel.new }
{
    every_mesh(dcel);
    thin_out(dcel, due, vertex)?;
    let removed = take_thinned(dcel, due, vertex)?;
    Ok(removed)
}

/// Takes out a vertex inside of triangles, none of whose edges can be flipped any more, nor is listed.
///
/// If memory runs out, the edges of the vertex are listed.
fn take_thinned<UE: FreeByDefault + Drop, A: Allocator + Clone, L: Allocator>(
    dcel: &mut EdgeMesh<UE, A>,
    due: &mut Due<L>,
    vertex: FixedVertexHandle,
) -> Result<Removed, AllocError>
    requires sound { IsTriangleMesh dcel.old }
    requires thin { IsThinnedOut dcel.old vertex }
    requires room { HasRoom dcel.old.shape 0 1 2 }
    requires around { ListsAround dcel.old.shape vertex (with_spokes dcel.old vertex due.old.items) }
    requires places { HasPlaces dcel.old vertex (vec_len due.old) (vec_capacity due.old) }
    ensures taken { IfOk result (TakesOut UE.is_constraint dcel.old dcel.new vertex (with_spokes dcel.old vertex due.old.items) due.new.items) }
    ensures still { OnErr result (LeavesLegal UE.is_constraint dcel.old dcel.new (with_spokes dcel.old vertex due.old.items) due.new.items) }
    ensures refused { OnErr result (dcel.new ≡ dcel.old) }
{
    match border_of(dcel, vertex) {
        Border::Triangle(border) => take_from_triangle(dcel, due, &border, vertex),
        Border::Square(border) => take_from_square(dcel, due, &border, vertex),
    }
}

/// Flips edges of a vertex on the hull until none can be flipped, cuts it off with its triangles, and
/// takes it out.
///
/// If memory runs out, the vertex stays, and edges may have been flipped.
pub(crate) fn cut_out_corner<UE: EdgeConstraint + Drop, A: Allocator + Clone, L: Allocator>(
    dcel: &mut EdgeMesh<UE, A>,
    due: &mut Due<L>,
    outside: FixedDirectedEdgeHandle,
    vertex: FixedVertexHandle,
) -> Result<Removed, AllocError>
    requires sound { IsTriangleMesh dcel.old }
    requires hull { HasHull dcel.old }
    requires outside { StartsOutside dcel.old vertex outside }
    requires loose { ¬ HasConstraintAt UE.is_constraint dcel.old vertex }
    ensures loses { IfOk result (Loses dcel.old dcel.new vertex) }
    ensures keeps { OnErr result (Keeps dcel.old dcel.new) }
    ensures sound { LeavesLegal UE.is_constraint dcel.old dcel.new due.old.items due.new.items }
    ensures staying { OnOk result (LosesNoneStaying UE.is_constraint dcel.old dcel.new vertex) }
    ensures still { OnErr result (KeepsStaying UE.is_constraint dcel.old dcel.new) }
    ensures hull { IsFlat dcel.new ⊎ HasHull dcel.new }
{
    every_mesh(dcel);
    thin_corner(dcel, due, vertex)?;
    let mut opened = cut_off(dcel, due, outside, vertex)?;
    drop_given_up(dcel, due, &opened.edges_to_remove);
    Ok(take_out(dcel, due, &mut opened, vertex))
}
