//! A vertex with four edges removed from a square.

ghost use Rattle.std.specs.Prelude.{◌≡◌, IfOk, OnErr, length, vec_capacity, vec_len};
ghost use Rattle.dcel_maps.specs.Conditions.{HasRoom};
ghost use Rattle.dcel_planar.specs.Growing.{IsTriangleMesh};
ghost use Rattle.dcel_delaunay.specs.Removing.{IsFilled, IsThinnedOut, TakesOut};
ghost use Rattle.dcel_delaunay.specs.Staying.{LeavesLegal};
ghost use Rattle.dcel_delaunay.specs.Thinning.{HasPlaces, ListsAround, with_spokes};

use crate::free::FreeByDefault;
use crate::remove::Due;
use crate::remove::around::list_spokes;
use crate::remove::cleanup::renumber;
use crate::removed::Removed;
use dcel_planar::EdgeMesh;
use spade_dcel::handles::{FixedDirectedEdgeHandle, FixedUndirectedEdgeHandle, FixedVertexHandle};
use spade_dcel::laws::every_mesh;
use spade_dcel::operations::remove_from_square;
use std::alloc::{AllocError, Allocator};

/// Removes a vertex with four edges. The list has those of the two triangles that are left.
///
/// If memory runs out, the edges of the vertex are listed.
pub(crate) fn take_from_square<UE: FreeByDefault + Drop, A: Allocator, L: Allocator>(
    dcel: &mut EdgeMesh<UE, A>,
    due: &mut Due<L>,
    border: &[FixedDirectedEdgeHandle],
    vertex: FixedVertexHandle,
) -> Result<Removed, AllocError>
    requires sound { IsTriangleMesh dcel.old }
    requires thin { IsThinnedOut dcel.old vertex }
    requires border { IsFilled dcel.old vertex border.now }
    requires four { length border.now ≡ 4 }
    requires room { HasRoom dcel.old.shape 0 1 2 }
    requires around { ListsAround dcel.old.shape vertex (with_spokes dcel.old vertex due.old.items) }
    requires places { HasPlaces dcel.old vertex (vec_len due.old) (vec_capacity due.old) }
    ensures taken { IfOk result (TakesOut UE.is_constraint dcel.old dcel.new vertex (with_spokes dcel.old vertex due.old.items) due.new.items) }
    ensures still { OnErr result (LeavesLegal UE.is_constraint dcel.old dcel.new (with_spokes dcel.old vertex due.old.items) due.new.items) }
    ensures refused { OnErr result (dcel.new ≡ dcel.old) }
{
    every_mesh(dcel);
    let count = dcel.num_undirected_edges();
    let Ok(taken) = remove_from_square(dcel, border, vertex) else {
        list_spokes(dcel, due, vertex);
        return Err(AllocError);
    };
    // The new edge, by the number that it has at first.
    due.push_reserved(FixedUndirectedEdgeHandle::new(count));
    renumber(due, &taken.removed_edges, count + 1);
    Ok(Removed {
        point: taken.removed_vertex,
        moved: taken.swapped_in_vertex,
    })
}
