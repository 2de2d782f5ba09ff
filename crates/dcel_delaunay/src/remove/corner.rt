//! A vertex on the hull given up, with the triangles around it.

ghost use Rattle.std.specs.Prelude.{◌≡◌, ◌↔◌, IfOk, IsTrue, OnErr};
ghost use Rattle.dcel_maps.specs.Conditions.{CanFlip};
ghost use Rattle.dcel_maps.specs.edits.Flip.{flips};
ghost use Rattle.dcel_maps.specs.Removals.{Closed};
ghost use Rattle.dcel_maps.specs.Shapes.{IsLive};
ghost use Rattle.dcel_maps.specs.Strips.{IsStripAround, strip_of};
ghost use Rattle.spade_dcel.specs.Handles.{mesh_behind, number_of};
ghost use Rattle.dcel_planar.specs.Growing.{HasHull, IsTriangleMesh, Keeps};
ghost use Rattle.dcel_delaunay.specs.Removing.{IsHullCorner, CutsOff, IsGivenUp, LiesFlat};
ghost use Rattle.dcel_delaunay.specs.Staying.{HasConstraintAt, KeepsStaying, LeavesLegal};

use crate::remove::Due;
use dcel_legalize::{EdgeConstraint, append_sides};
use dcel_planar::{Edge, EdgeMesh, Point, point_of, side};
use spade_dcel::handles::{FixedDirectedEdgeHandle, FixedUndirectedEdgeHandle, FixedVertexHandle};
use spade_dcel::iterators::{CCWEdgesNextBackFn, CircularIterator};
use spade_dcel::laws::every_mesh;
use spade_dcel::operations::{IsolateVertexResult, disconnect_edge_strip, flip_cw};
use std::alloc::{AllocError, Allocator};

/// Gives up a corner of the hull, at an outer half edge that starts there, none of whose edges can be
/// flipped any more.
///
/// If memory runs out, the vertices stay where they are, and no edge is taken out.
pub(crate) fn cut_off<UE: EdgeConstraint, A: Allocator + Clone, L: Allocator>(
    dcel: &mut EdgeMesh<UE, A>,
    due: &mut Due<L>,
    outside: FixedDirectedEdgeHandle,
    vertex: FixedVertexHandle,
) -> Result<IsolateVertexResult<A>, AllocError>
    requires sound { IsTriangleMesh dcel.old }
    requires corner { IsHullCorner dcel.old vertex outside }
    requires loose { ¬ HasConstraintAt UE.is_constraint dcel.old vertex }
    ensures given_up { IfOk result (λ opened. IsGivenUp UE.is_constraint dcel.old dcel.new vertex due.old.items due.new.items opened) }
    ensures keeps { OnErr result (Keeps dcel.old dcel.new) }
    ensures staying { OnErr result (KeepsStaying UE.is_constraint dcel.old dcel.new) }
    ensures sound { OnErr result (LeavesLegal UE.is_constraint dcel.old dcel.new due.old.items due.new.items) }
    ensures hull { OnErr result (HasHull dcel.new) }
{
    every_mesh(dcel);
    if lies_flat(dcel.directed_edge(outside)) {
        return cut_off_flat(dcel, due, outside, vertex);
    }
    cut_strip(dcel, outside, vertex)
}

/// Gives up a corner that is between its two neighbors on the hull, by a flip that leaves one flat
/// triangle there, which goes with it.
fn cut_off_flat<UE: EdgeConstraint, A: Allocator + Clone, L: Allocator>(
    dcel: &mut EdgeMesh<UE, A>,
    due: &mut Due<L>,
    outside: FixedDirectedEdgeHandle,
    vertex: FixedVertexHandle,
) -> Result<IsolateVertexResult<A>, AllocError>
    requires sound { IsTriangleMesh dcel.old }
    requires corner { IsHullCorner dcel.old vertex outside }
    requires loose { ¬ HasConstraintAt UE.is_constraint dcel.old vertex }
    requires flat { LiesFlat dcel.old outside }
    ensures given_up { IfOk result (λ opened. IsGivenUp UE.is_constraint dcel.old dcel.new vertex due.old.items due.new.items opened) }
    ensures keeps { OnErr result (Keeps dcel.old dcel.new) }
    ensures staying { OnErr result (KeepsStaying UE.is_constraint dcel.old dcel.new) }
    ensures sound { OnErr result (LeavesLegal UE.is_constraint dcel.old dcel.new due.old.items due.new.items) }
    ensures hull { OnErr result (HasHull dcel.new) }
{
    every_mesh(dcel);
    let middle = dcel
        .directed_edge(outside)
        .ccw()
        .ccw()
        .fix()
        .as_undirected();
    due.reserve(5)?;
    due.push_reserved(middle);
    append_sides(dcel, middle, due);
    flip_cw(dcel, middle);
    let Ok(opened) = cut_strip(dcel, outside, vertex) else {
        turn_back(dcel, middle);
        return Err(AllocError);
    };
    Ok(opened)
}

/// Flips an edge three times more.
fn turn_back<UE, A: Allocator>(dcel: &mut EdgeMesh<UE, A>, edge: FixedUndirectedEdgeHandle)
    requires first { CanFlip dcel.old.shape edge }
    requires second { CanFlip (flips 1 dcel.old edge).shape edge }
    requires third { CanFlip (flips 2 dcel.old edge).shape edge }
    ensures { dcel.new ≡ flips 3 dcel.old edge }
{
    flip_cw(dcel, edge);
    flip_cw(dcel, edge);
    flip_cw(dcel, edge);
}

/// Returns whether the vertex where an outer half edge starts is between its two neighbors on the
/// hull.
fn lies_flat<UE, A: Allocator>(outside: Edge<'_, UE, A>) -> bool
    requires { IsLive (mesh_behind outside).shape (number_of outside) }
    ensures { IsTrue result ↔ LiesFlat (mesh_behind outside.entry) (number_of outside.entry) }
{
    side(outside, point_of(outside.ccw().to())).is_on_line()
}

/// Cuts off the vertex where an outer half edge starts, with the triangles around it.
///
/// If memory runs out, nothing is changed.
fn cut_strip<UE, A: Allocator + Clone>(
    dcel: &mut EdgeMesh<UE, A>,
    outside: FixedDirectedEdgeHandle,
    vertex: FixedVertexHandle,
) -> Result<IsolateVertexResult<A>, AllocError>
    requires closed { dcel.old.shape.removal ≡ Closed }
    requires around { IsStripAround dcel.old.shape vertex outside }
    ensures cut { IfOk result (CutsOff dcel.old dcel.new outside) }
    ensures refused { OnErr result (dcel.new ≡ dcel.old) }
{
    every_mesh(dcel);
    let alloc = dcel.allocator().clone()?;
    let strip = strip_around(dcel.directed_edge(outside), alloc)?;
    disconnect_edge_strip(dcel, strip)
}

/// Returns the strip of the vertex where an outer half edge starts.
fn strip_around<UE, A: Allocator, B: Allocator>(
    outside: Edge<'_, UE, A>,
    alloc: B,
) -> Result<Vec<FixedDirectedEdgeHandle, B>, AllocError>
    requires { IsLive (mesh_behind outside).shape (number_of outside) }
    ensures { IfOk result (λ strip. strip.items ≡ strip_of (mesh_behind outside.entry).shape (number_of outside.entry)) }
{
    let around: CircularIterator<'_, Point, (), UE, (), CCWEdgesNextBackFn, A> =
        CircularIterator::new(outside);
    let mut strip = Vec::new(alloc);
    for edge in around {
        strip.push(edge.next().fix())?;
    }
    strip.rotate_left(1);
    Ok(strip)
}
