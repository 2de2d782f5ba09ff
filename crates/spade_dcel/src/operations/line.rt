//! Extending a line at its end.

ghost use Rattle.std.specs.Prelude.{◌≡◌, ◌∷◌, [], IfOk, OnErr, OnOk};
ghost use Rattle.dcel_maps.specs.Conditions.{HasRoom, IsUnconnected, IsLineEnd};
ghost use Rattle.dcel_maps.specs.EditLists.{EditedBy};
ghost use Rattle.dcel_maps.specs.EditLists.EditKind.{spur_added};
ghost use Rattle.dcel_maps.specs.edits.DefaultData.{AddsEdge};
ghost use Rattle.dcel_maps.specs.edits.Line.{line_extended};
ghost use Rattle.dcel_maps.specs.Shapes.{IsMesh};

use crate::dcel::Dcel;
use dcel_edits::line::put_spur;
use dcel_fixed::FixedVertexHandle;
use std::alloc::{AllocError, Allocator};

/// Extends a line at one of its ends by an edge to `new_vertex`, and returns `new_vertex`.
///
/// ```text
/// before        out             after        n            out
///    end_vertex ---> ..         new_vertex ---> end_vertex ---> ..
///               <---                       <---            <---
///                in                        n + 1            in
/// ```
///
/// Asks that exactly one half edge leaves `end_vertex` ([`is_line_end`](Dcel::is_line_end)), that
/// no edge meets `new_vertex` ([`is_unconnected`](Dcel::is_unconnected)), and for room for one edge
/// ([`has_room`](Dcel::has_room)). If memory runs out it returns `AllocError`, and the mesh is as
/// it was.
pub fn extend_line<V, DE: Default, UE: Default, F, A: Allocator>(
    dcel: &mut Dcel<V, DE, UE, F, A>,
    end_vertex: FixedVertexHandle,
    new_vertex: FixedVertexHandle,
) -> Result<FixedVertexHandle, AllocError>
    requires line_end { IsLineEnd dcel.old.shape end_vertex }
    requires unconnected { IsUnconnected dcel.old.shape new_vertex }
    requires room { HasRoom dcel.old.shape 0 1 0 }
    ensures edit { OnOk result (AddsEdge DE.is_default UE.is_default dcel.new (line_extended dcel.old end_vertex new_vertex)) }
    ensures edits { OnOk result (EditedBy (spur_added ∷ []) dcel.old dcel.new) }
    ensures answer { IfOk result (λ vertex. vertex ≡ new_vertex) }
    ensures refused { OnErr result (dcel.new ≡ dcel.old) }
    ensures mesh { IsMesh dcel.new }
{
    dcel.store.reserve(0, 1, 0)?;
    let out_edge = match dcel.store.vertex_anchor(end_vertex) {
        Some(edge) => edge,
        None => unreachable!(),
    };
    put_spur(&mut dcel.store, out_edge.rev(), new_vertex);
    Ok(new_vertex)
}
