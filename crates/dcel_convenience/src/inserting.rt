//! Inserting a vertex into a triangle, with its datum.

ghost use Rattle.std.specs.Prelude.{◌≡◌, IfErr, IfOk, IfSome, None, OnErr, OnOk};
ghost use Rattle.dcel_convenience.specs.Inserting.{CanInsertVertex, MayNotInsert};
ghost use Rattle.dcel_maps.specs.Shapes.{IsMesh};
ghost use Rattle.dcel_maps.specs.edits.Create.{vertex_appended};
ghost use Rattle.dcel_maps.specs.edits.DefaultData.{AddsEdgesAndFaces};
ghost use Rattle.dcel_maps.specs.edits.Triangle.{vertex_inserted};

use spade_dcel::dcel::{Dcel, RemovalState};
use spade_dcel::handles::{FixedFaceHandle, FixedVertexHandle, InnerTag};
use spade_dcel::laws::every_mesh;
use spade_dcel::operations::{append_unconnected_vertex, insert_into_triangle, swap_remove_vertex};
use std::alloc::Allocator;
use std::error::Error;
use std::fmt;

/// Why a vertex was not inserted into a face.
#[derive(Clone, Copy, PartialEq, Eq, Debug, Drop)]
pub enum WhyNotInserted {
    /// A removal is open.
    RemovalOpen,
    /// There is no such face, or it is not an inner triangle ([`is_triangle`](Dcel::is_triangle)).
    NoTriangle,
    /// There are no numbers left for a vertex, three edges and two faces.
    NoRoom,
    /// Memory ran out.
    OutOfMemory,
}

impl fmt::Display for WhyNotInserted {
    fn fmt<W: fmt::Write>(&self, f: &mut fmt::Formatter<W>) -> fmt::Result {
        f.write_str(match self {
            WhyNotInserted::RemovalOpen => "a removal is open",
            WhyNotInserted::NoTriangle => "there is no such inner triangle",
            WhyNotInserted::NoRoom => "there are no numbers left",
            WhyNotInserted::OutOfMemory => "out of memory",
        })
    }
}

impl Error for WhyNotInserted {}

/// A vertex was not inserted into a face: the reason, and its datum.
#[derive(Clone, Copy, PartialEq, Eq, Debug, Drop)]
pub struct NotInserted<V> {
    /// The reason.
    pub why: WhyNotInserted,
    /// The vertex's datum.
    pub back: V,
}

/// Inserts a new vertex with this datum into an inner triangle, and returns it: the last one.
///
/// This is [`append_unconnected_vertex`], and then [`insert_into_triangle`]. Any face may be given.
/// It is refused for the first reason of [`WhyNotInserted`] that applies; then the mesh is as it
/// was, and the datum is returned.
pub fn insert_vertex<V, DE: Default, UE: Default, F: Default, A: Allocator>(
    dcel: &mut Dcel<V, DE, UE, F, A>,
    datum: V,
    face: FixedFaceHandle<InnerTag>,
) -> Result<FixedVertexHandle, NotInserted<V>>
    ensures can { OnOk result (CanInsertVertex dcel.old.shape face) }
    ensures edit { OnOk result (AddsEdgesAndFaces DE.is_default UE.is_default F.is_default 3 2 dcel.new (vertex_inserted (vertex_appended dcel.old datum) dcel.old.shape.vertices face)) }
    ensures answer { IfOk result (λ vertex. vertex ≡ dcel.old.shape.vertices) }
    ensures why { IfErr result (λ refused. MayNotInsert dcel.old.shape face refused.why) }
    ensures refused { OnErr result (dcel.new ≡ dcel.old) }
    ensures back { IfErr result (λ refused. refused.back ≡ datum) }
    ensures mesh { IsMesh dcel.new }
{
    every_mesh(dcel);
    if let Some(why) = why_not(dcel, face) {
        return Err(NotInserted { why, back: datum });
    }
    put(dcel, datum, face)
}

// Returns why a vertex can't be inserted into a face, whatever memory there is.
fn why_not<V, DE, UE, F, A: Allocator>(
    dcel: &Dcel<V, DE, UE, F, A>,
    face: FixedFaceHandle<InnerTag>,
) -> Option<WhyNotInserted>
    ensures can { result ≡ None → CanInsertVertex dcel.now.shape face }
    ensures why { IfSome result (MayNotInsert dcel.now.shape face) }
{
    if dcel.removal_state() != RemovalState::Closed {
        return Some(WhyNotInserted::RemovalOpen);
    }
    if face.index() == 0 {
        return Some(WhyNotInserted::NoTriangle);
    }
    if !dcel.is_triangle(face) {
        return Some(WhyNotInserted::NoTriangle);
    }
    if !dcel.has_room(1, 3, 2) {
        return Some(WhyNotInserted::NoRoom);
    }
    None
}

// Inserts a new vertex into a triangle, unless memory runs out.
fn put<V, DE: Default, UE: Default, F: Default, A: Allocator>(
    dcel: &mut Dcel<V, DE, UE, F, A>,
    datum: V,
    face: FixedFaceHandle<InnerTag>,
) -> Result<FixedVertexHandle, NotInserted<V>>
    requires { CanInsertVertex dcel.old.shape face }
    ensures edit { OnOk result (AddsEdgesAndFaces DE.is_default UE.is_default F.is_default 3 2 dcel.new (vertex_inserted (vertex_appended dcel.old datum) dcel.old.shape.vertices face)) }
    ensures answer { IfOk result (λ vertex. vertex ≡ dcel.old.shape.vertices) }
    ensures why { IfErr result (λ refused. refused.why ≡ WhyNotInserted.OutOfMemory) }
    ensures refused { OnErr result (dcel.new ≡ dcel.old) }
    ensures back { IfErr result (λ refused. refused.back ≡ datum) }
    ensures mesh { IsMesh dcel.new }
{
    every_mesh(dcel);
    let vertex = match append_unconnected_vertex(dcel, datum) {
        Ok(vertex) => vertex,
        Err(refused) => {
            return Err(NotInserted {
                why: WhyNotInserted::OutOfMemory,
                back: refused.back,
            });
        }
    };
    let Ok(inserted) = insert_into_triangle(dcel, vertex, face) else {
        let taken = swap_remove_vertex(dcel, vertex);
        return Err(NotInserted {
            why: WhyNotInserted::OutOfMemory,
            back: taken.removed_vertex,
        });
    };
    Ok(inserted)
}
