//! Borrowed handles by number, once it is tested that they may be borrowed.

ghost use Rattle.std.specs.Prelude.{IfOk};
ghost use Rattle.dcel_maps.specs.Shapes.{IsLive};
ghost use Rattle.spade_dcel.specs.Handles.{mesh_behind, number_of};

use dcel_bench::meshes::{Mesh, half_edge, vertex};
use dcel_bench::require;
use spade_dcel::handles::{DirectedEdgeHandle, VertexHandle};
use std::test::Fail;

/// Returns a half edge of the mesh, which is live.
pub fn live_half_edge<'a>(
    dcel: &'a Mesh,
    index: u32,
) -> Result<DirectedEdgeHandle<'a, i64, i64, i64, i64>, Fail>
    ensures { IfOk result (λ edge. IsLive (mesh_behind edge).shape (number_of edge)) }
{
    let handle = half_edge(index);
    require!(handle.index() < dcel.num_directed_edges());
    require!(dcel.is_live_edge(handle.as_undirected()));
    Ok(dcel.directed_edge(handle))
}

/// Returns a vertex of the mesh.
pub fn vertex_of<'a>(
    dcel: &'a Mesh,
    index: u32,
) -> Result<VertexHandle<'a, i64, i64, i64, i64>, Fail> {
    let handle = vertex(index);
    require!(handle.index() < dcel.num_vertices());
    Ok(dcel.vertex(handle))
}
