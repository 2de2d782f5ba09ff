//! Removing a vertex inside triangles, and filling the hole.

ghost use Rattle.std.specs.Prelude.{◌≡◌, IfErr, IfOk, OnErr, OnOk};
ghost use Rattle.dcel_convenience.specs.Removing.{CanRemoveVertex, MayNotRemove, Returns, TakesOut, border_round};
ghost use Rattle.dcel_maps.specs.Shapes.{IsMesh};

use crate::taking_out::{border_from, take_out};
use spade_dcel::dcel::{Dcel, RemovalState};
use spade_dcel::handles::FixedVertexHandle;
use spade_dcel::laws::every_mesh;
use spade_dcel::operations::{RemovalResult, Room};
use std::alloc::Allocator;
use std::error::Error;
use std::fmt;

/// Why a vertex was not removed.
#[derive(Clone, Copy, PartialEq, Eq, Debug, Drop)]
pub enum WhyNotRemoved {
    /// A removal is open.
    RemovalOpen,
    /// There is no such vertex, its faces aren't three or more inner triangles, or two edges lead
    /// from it to where its anchor ends.
    NotInside,
    /// There is no such vertex. Only [`remove_any_vertex`](crate::remove_any_vertex) reports this
    /// and the next four; to [`remove_vertex`] they are all `NotInside`.
    NoVertex,
    /// An inner face that is no triangle meets the vertex.
    LongFace,
    /// The outer face meets the vertex twice or more, so what is left would not be connected.
    CutVertex,
    /// The outer face meets the vertex and has two half edges, and the mesh is no single edge.
    ShortBorder,
    /// From whichever neighbor the hole is filled, two edges would join the same two vertices, or
    /// two join the vertex to the same neighbor.
    SecondEdge,
    /// There are no numbers left for the edges and faces that fill the hole.
    NoRoom,
    /// Memory ran out.
    OutOfMemory,
}

impl fmt::Display for WhyNotRemoved {
    fn fmt<W: fmt::Write>(&self, f: &mut fmt::Formatter<W>) -> fmt::Result {
        f.write_str(match self {
            WhyNotRemoved::RemovalOpen => "a removal is open",
            WhyNotRemoved::NotInside => "the vertex is not inside three or more triangles",
            WhyNotRemoved::NoVertex => "there is no such vertex",
            WhyNotRemoved::LongFace => "a face at the vertex is not a triangle",
            WhyNotRemoved::CutVertex => "the outer face meets the vertex twice",
            WhyNotRemoved::ShortBorder => "the outer face has two half edges",
            WhyNotRemoved::SecondEdge => "a second edge would join two vertices",
            WhyNotRemoved::NoRoom => "there are no numbers left",
            WhyNotRemoved::OutOfMemory => "out of memory",
        })
    }
}

impl Error for WhyNotRemoved {}

/// Removes a vertex whose faces are all inner triangles, fills the hole with triangles, and returns
/// its datum. [`remove_any_vertex`](crate::remove_any_vertex) also removes vertices on the border,
/// and keeps a mesh simple.
///
/// This is [`isolate_vertex_and_fill_hole`], [`cleanup_isolated_vertex`] and [`swap_remove_vertex`]
/// for the border loop of the vertex, its link, which it finds by itself; the new edges all start
/// where the vertex's anchor ends. The last edges, faces and vertex get the numbers that become
/// free, and the result says whether a vertex did.
///
/// Any vertex may be given. It is refused as [`WhyNotRemoved`] says, and then the mesh is as it
/// was. `alloc` is for the border loop.
///
/// [`isolate_vertex_and_fill_hole`]: spade_dcel::operations::isolate_vertex_and_fill_hole
/// [`cleanup_isolated_vertex`]: spade_dcel::operations::cleanup_isolated_vertex
/// [`swap_remove_vertex`]: spade_dcel::operations::swap_remove_vertex
pub fn remove_vertex<
    V,
    DE: Default + Drop,
    UE: Default + Drop,
    F: Default + Drop,
    A: Allocator + Clone,
    B: Allocator,
>(
    dcel: &mut Dcel<V, DE, UE, F, A>,
    alloc: B,
    vertex: FixedVertexHandle,
) -> Result<RemovalResult<V>, WhyNotRemoved>
    ensures can { OnOk result (CanRemoveVertex dcel.old vertex) }
    ensures edit { OnOk result (TakesOut DE.is_default UE.is_default F.is_default (border_round dcel.old vertex) dcel.old dcel.new vertex) }
    ensures returned { IfOk result (Returns dcel.old vertex) }
    ensures why { IfErr result (MayNotRemove dcel.old vertex) }
    ensures refused { OnErr result (dcel.new ≡ dcel.old) }
    ensures mesh { IsMesh dcel.new }
{
    every_mesh(dcel);
    if dcel.removal_state() != RemovalState::Closed {
        return Err(WhyNotRemoved::RemovalOpen);
    }
    let Some(around) = dcel.get_vertex(vertex) else {
        return Err(WhyNotRemoved::NotInside);
    };
    let Some(first) = around.out_edge() else {
        return Err(WhyNotRemoved::NotInside);
    };
    let Ok(border) = border_from(alloc, first) else {
        return Err(WhyNotRemoved::OutOfMemory);
    };
    if !dcel.is_border_loop(&border, vertex) {
        return Err(WhyNotRemoved::NotInside);
    }
    if !dcel.has_room_for(Room::filling(border.len())) {
        return Err(WhyNotRemoved::NoRoom);
    }
    let Ok(taken) = take_out(dcel, border, vertex) else {
        return Err(WhyNotRemoved::OutOfMemory);
    };
    Ok(taken)
}
