//! Cutting a vertex off the border, with the triangles around it.

ghost use Rattle.std.specs.Prelude.{◌≡◌, IfOk, OnErr, OnOk};
ghost use Rattle.dcel_convenience.specs.Anywhere.{without_strip};
ghost use Rattle.dcel_convenience.specs.Removing.{Returns};
ghost use Rattle.dcel_convenience.specs.Simple.{IsSimple};
ghost use Rattle.dcel_maps.specs.Removals.{Closed};
ghost use Rattle.dcel_maps.specs.Shapes.{IsLive, IsMesh};
ghost use Rattle.dcel_maps.specs.Strips.{IsStripAround, strip_of};
ghost use Rattle.spade_dcel.specs.Handles.{mesh_behind, number_of};

use spade_dcel::dcel::Dcel;
use spade_dcel::handles::{DirectedEdgeHandle, FixedDirectedEdgeHandle, FixedVertexHandle};
use spade_dcel::iterators::{CCWEdgesNextBackFn, CircularIterator};
use spade_dcel::laws::every_mesh;
use spade_dcel::operations::{RemovalResult, cut_off_corner};
use std::alloc::{AllocError, Allocator};

/// Cuts off the vertex where an outer half edge starts, with the triangles around it.
///
/// If memory runs out it returns `AllocError`, and the mesh is as it was.
pub(crate) fn cut_off<V, DE: Drop, UE: Drop, F: Drop, A: Allocator + Clone, B: Allocator>(
    dcel: &mut Dcel<V, DE, UE, F, A>,
    alloc: B,
    vertex: FixedVertexHandle,
    outside: FixedDirectedEdgeHandle,
) -> Result<RemovalResult<V>, AllocError>
    requires closed { dcel.old.shape.removal ≡ Closed }
    requires around { IsStripAround dcel.old.shape vertex outside }
    ensures edit { OnOk result (dcel.new ≡ without_strip dcel.old vertex outside) }
    ensures simple { IsSimple dcel.old.shape → OnOk result (IsSimple dcel.new.shape) }
    ensures returned { IfOk result (Returns dcel.old vertex) }
    ensures refused { OnErr result (dcel.new ≡ dcel.old) }
    ensures mesh { IsMesh dcel.new }
{
    every_mesh(dcel);
    let Ok(strip) = strip_around(alloc, dcel.directed_edge(outside)) else {
        return Err(AllocError);
    };
    let Ok(removed) = cut_off_corner(dcel, &strip) else {
        return Err(AllocError);
    };
    Ok(RemovalResult {
        removed_vertex: removed.removed_vertex,
        swapped_in_vertex: removed.swapped_in_vertex,
    })
}

// Returns the strip of the vertex where an outer half edge starts.
fn strip_around<V, DE, UE, F, A: Allocator, B: Allocator>(
    alloc: B,
    outside: DirectedEdgeHandle<'_, V, DE, UE, F, A>,
) -> Result<Vec<FixedDirectedEdgeHandle, B>, AllocError>
    requires { IsLive (mesh_behind outside).shape (number_of outside) }
    ensures { IfOk result (λ strip. strip.items ≡ strip_of (mesh_behind outside.entry).shape (number_of outside.entry)) }
{
    let spokes: CircularIterator<_, _, _, _, CCWEdgesNextBackFn, _> = CircularIterator::new(
        outside,
    );
    let mut strip = Vec::new(alloc);
    for spoke in spokes {
        strip.push(spoke.next().fix())?;
    }
    strip.rotate_left(1);
    Ok(strip)
}
