//! Edits that are several calls of the layer: vertices inserted and removed, edges collapsed.

ghost use Rattle.std.specs.Prelude.{◌≡◌, ◌≢◌, ◌↔◌, IsTrue};
ghost use Rattle.dcel_convenience.specs.Collapsing.{CanCollapse};
ghost use Rattle.dcel_c.specs.Calls.{IsSo, kept_in};
ghost use Rattle.dcel_c.specs.Convenience.{Collapses, InsertsVertex, RemovesVertex, removed_of, status_of_collapse, status_of_insertion, status_of_removal};

use crate::mesh::DcelMesh;
use crate::removals::DcelRemoved;
use crate::status::{
    CUT_VERTEX, DONE, NO_MESH, NO_ROOM, NO_SUCH_VERTEX, NOT_INSIDE, NOT_TRIANGLE, OUT_OF_MEMORY,
    REMOVAL_OPEN, SECOND_EDGE, SHORT_BORDER,
};
use dcel_convenience::{
    WhyNotCollapsed, WhyNotInserted, WhyNotRemoved, can_collapse_edge, collapse_edge,
    insert_vertex, remove_any_vertex,
};
use spade_dcel::handles::{FixedDirectedEdgeHandle, FixedFaceHandle, FixedVertexHandle};
use spade_dcel::operations::RemovalResult;
use std::alloc::Global;

/// Returns what is told of a vertex that was taken out.
fn removed_in(taken: RemovalResult<u64>) -> DcelRemoved
    ensures { result ≡ removed_of taken }
{
    let moved = match taken.swapped_in_vertex {
        Some(vertex) => vertex.index() as u64,
        None => u64::MAX,
    };
    DcelRemoved {
        datum: taken.removed_vertex,
        moved,
    }
}

fn collapse_status(why: WhyNotCollapsed) -> u32
    ensures { result ≡ status_of_collapse why }
{
    match why {
        WhyNotCollapsed::RemovalOpen => REMOVAL_OPEN,
        WhyNotCollapsed::NotInside => NOT_INSIDE,
        WhyNotCollapsed::SecondEdge => SECOND_EDGE,
        WhyNotCollapsed::NoRoom => NO_ROOM,
        WhyNotCollapsed::OutOfMemory => OUT_OF_MEMORY,
    }
}

fn insertion_status(why: WhyNotInserted) -> u32
    ensures { result ≡ status_of_insertion why }
{
    match why {
        WhyNotInserted::RemovalOpen => REMOVAL_OPEN,
        WhyNotInserted::NoTriangle => NOT_TRIANGLE,
        WhyNotInserted::NoRoom => NO_ROOM,
        WhyNotInserted::OutOfMemory => OUT_OF_MEMORY,
    }
}

fn removal_status(why: WhyNotRemoved) -> u32
    ensures { result ≡ status_of_removal why }
{
    match why {
        WhyNotRemoved::RemovalOpen => REMOVAL_OPEN,
        WhyNotRemoved::NotInside => NOT_INSIDE,
        WhyNotRemoved::NoVertex => NO_SUCH_VERTEX,
        WhyNotRemoved::LongFace => NOT_TRIANGLE,
        WhyNotRemoved::CutVertex => CUT_VERTEX,
        WhyNotRemoved::ShortBorder => SHORT_BORDER,
        WhyNotRemoved::SecondEdge => SECOND_EDGE,
        WhyNotRemoved::NoRoom => NO_ROOM,
        WhyNotRemoved::OutOfMemory => OUT_OF_MEMORY,
    }
}

/// Returns whether the half edge's start can go into its end.
#[unsafe(no_mangle)]
pub extern "C" fn dcel_can_collapse_edge(mesh: &mut DcelMesh, edge: u32) -> bool
    ensures test { IsTrue result ↔ IsSo (λ mesh. CanCollapse mesh.shape edge) (kept_in mesh.old) }
    ensures same { kept_in mesh.new ≡ kept_in mesh.old }
{
    if !mesh.is_open {
        return false;
    }
    let half = FixedDirectedEdgeHandle::new(edge as usize);
    can_collapse_edge(mesh.held.as_mut(), half)
}

/// Collapses an edge: removes the vertex where the half edge starts, joins what that met to the
/// vertex where the half edge ends, and tells what was taken out.
#[unsafe(no_mangle)]
pub extern "C" fn dcel_collapse_edge(
    alloc: Global,
    mesh: &mut DcelMesh,
    edge: u32,
    removed: &mut DcelRemoved,
) -> u32
    ensures { Collapses (kept_in mesh.old) edge (kept_in mesh.new) removed.old removed.new result }
{
    if !mesh.is_open {
        return NO_MESH;
    }
    let half = FixedDirectedEdgeHandle::new(edge as usize);
    match collapse_edge(mesh.held.as_mut(), alloc, half) {
        Ok(taken) => {
            *removed = removed_in(taken);
            DONE
        }
        Err(why) => collapse_status(why),
    }
}

/// Inserts a new vertex with this datum into an inner triangle, and tells its number.
#[unsafe(no_mangle)]
pub extern "C" fn dcel_insert_vertex(
    mesh: &mut DcelMesh,
    face: u32,
    datum: u64,
    vertex: &mut u32,
) -> u32
    ensures { InsertsVertex (kept_in mesh.old) face datum (kept_in mesh.new) vertex.old vertex.new result }
{
    if !mesh.is_open {
        return NO_MESH;
    }
    let face = FixedFaceHandle::new(face as usize);
    match insert_vertex(mesh.held.as_mut(), datum, face) {
        Ok(made) => {
            *vertex = made.index() as u32;
            DONE
        }
        Err(refused) => insertion_status(refused.why),
    }
}

/// Removes a vertex wherever it is, if what is left is a mesh without new second edges, and tells
/// what was taken out.
#[unsafe(no_mangle)]
pub extern "C" fn dcel_remove_vertex(
    alloc: Global,
    mesh: &mut DcelMesh,
    vertex: u32,
    removed: &mut DcelRemoved,
) -> u32
    ensures { RemovesVertex (kept_in mesh.old) vertex (kept_in mesh.new) removed.old removed.new result }
{
    if !mesh.is_open {
        return NO_MESH;
    }
    let vertex = FixedVertexHandle::new(vertex as usize);
    match remove_any_vertex(mesh.held.as_mut(), alloc, vertex) {
        Ok(taken) => {
            *removed = removed_in(taken);
            DONE
        }
        Err(why) => removal_status(why),
    }
}
