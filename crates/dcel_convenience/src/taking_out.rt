//! Taking a vertex out of triangles, and filling the hole from a chosen corner.

ghost use Rattle.std.specs.Prelude.{◌≡◌, ◌-◌, IfOk, OnErr, OnOk, length};
ghost use Rattle.dcel_convenience.specs.Removing.{Returns, TakesOut, border_from};
ghost use Rattle.dcel_maps.specs.Borders.{IsBorderLoop};
ghost use Rattle.dcel_maps.specs.Conditions.{HasRoom};
ghost use Rattle.dcel_maps.specs.Removals.{Closed};
ghost use Rattle.dcel_maps.specs.Shapes.{IsLive, IsMesh};
ghost use Rattle.spade_dcel.specs.Handles.{mesh_behind, number_of};

use spade_dcel::dcel::Dcel;
use spade_dcel::handles::{DirectedEdgeHandle, FixedDirectedEdgeHandle, FixedVertexHandle};
use spade_dcel::iterators::{CCWEdgesNextBackFn, CircularIterator};
use spade_dcel::laws::every_mesh;
use spade_dcel::operations::{
    RemovalResult, cleanup_isolated_vertex, isolate_vertex_and_fill_hole, swap_remove_vertex,
};
use std::alloc::{AllocError, Allocator};

/// Returns what comes after the out edges of a vertex, clockwise. It ends with what comes after
/// this one, which starts where this one ends.
pub(crate) fn border_from<V, DE, UE, F, A: Allocator, B: Allocator>(
    alloc: B,
    first: DirectedEdgeHandle<'_, V, DE, UE, F, A>,
) -> Result<Vec<FixedDirectedEdgeHandle, B>, AllocError>
    requires { IsLive (mesh_behind first).shape (number_of first) }
    ensures { IfOk result (λ border. border.items ≡ border_from (mesh_behind first.entry).shape (number_of first.entry)) }
{
    let spokes: CircularIterator<_, _, _, _, CCWEdgesNextBackFn, _> = CircularIterator::new(first);
    let mut border = Vec::new(alloc);
    for spoke in spokes {
        border.push(spoke.next().fix())?;
    }
    border.reverse();
    Ok(border)
}

/// Returns how many half edges [`border_from`] lists.
pub(crate) fn border_length<V, DE, UE, F, A: Allocator>(
    first: DirectedEdgeHandle<'_, V, DE, UE, F, A>,
) -> usize
    requires { IsLive (mesh_behind first).shape (number_of first) }
    ensures { result ≡ length (border_from (mesh_behind first.entry).shape (number_of first.entry)) }
{
    let spokes: CircularIterator<_, _, _, _, CCWEdgesNextBackFn, _> = CircularIterator::new(first);
    let mut count = 0;
    for _ in spokes {
        count += 1;
    }
    count
}

/// Takes a vertex out, and fills the hole by edges that start where the last half edge of its
/// border loop does.
///
/// If memory runs out it returns `AllocError`, and the mesh is as it was.
pub(crate) fn take_out<
    V,
    DE: Default + Drop,
    UE: Default + Drop,
    F: Default + Drop,
    A: Allocator + Clone,
    B: Allocator,
>(
    dcel: &mut Dcel<V, DE, UE, F, A>,
    border: Vec<FixedDirectedEdgeHandle, B>,
    vertex: FixedVertexHandle,
) -> Result<RemovalResult<V>, AllocError>
    requires closed { dcel.old.shape.removal ≡ Closed }
    requires inside { IsBorderLoop dcel.old.shape border.items vertex }
    requires room { HasRoom dcel.old.shape 0 (length border.items - 3) (length border.items - 2) }
    ensures edit { OnOk result (TakesOut DE.is_default UE.is_default F.is_default border.items dcel.old dcel.new vertex) }
    ensures returned { IfOk result (Returns dcel.old vertex) }
    ensures refused { OnErr result (dcel.new ≡ dcel.old) }
    ensures mesh { IsMesh dcel.new }
{
    every_mesh(dcel);
    let Ok(mut opened) = isolate_vertex_and_fill_hole(dcel, border, vertex) else {
        return Err(AllocError);
    };
    cleanup_isolated_vertex(dcel, &mut opened);
    Ok(swap_remove_vertex(dcel, vertex))
}
