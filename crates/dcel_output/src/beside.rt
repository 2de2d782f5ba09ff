//! Which edges have a flagged triangle beside them.

ghost use Rattle.std.specs.Prelude.{◌≡◌, ◌||◌, IfOk, map};
ghost use Rattle.dcel_fixed.specs.HalfEdges.{rev};
ghost use Rattle.dcel_maps.specs.Numbers.{numbers_between};
ghost use Rattle.dcel_maps.specs.Removals.{Closed};
ghost use Rattle.dcel_maps.specs.Shapes.{IsLive, face_of};
ghost use Rattle.spade_dcel.specs.Handles.{mesh_behind, number_of};
ghost use Rattle.dcel_output.specs.Keeping.{has_flag, is_beside};

use crate::keeping::is_set;
use dcel_planar::{Edge, EdgeMesh};
use spade_dcel::laws::every_mesh;
use std::alloc::{AllocError, Allocator};

/// Returns of each edge whether the flag of a triangle beside it is set. The flags are in the order
/// of the inner faces' numbers, and the outer face has none.
///
/// Asks that no removal is open (`removal_state()` is `Closed`), as in each triangulation. If memory
/// runs out it returns `AllocError`.
pub fn edges_beside<UE, A: Allocator, B: Allocator>(
    alloc: B,
    mesh: &EdgeMesh<UE, A>,
    flags: &[bool],
) -> Result<Vec<bool, B>, AllocError>
    requires { mesh.now.shape.removal ≡ Closed }
    ensures { IfOk result (λ list. list.items ≡ map (is_beside mesh.now.shape flags.now) (numbers_between 0 mesh.now.shape.edges)) }
{
    every_mesh(mesh);
    let mut list = Vec::with_capacity(alloc, mesh.num_undirected_edges())?;
    for edge in mesh.live_undirected_edges() {
        list.push(is_beside(edge.as_directed(), flags))?;
    }
    Ok(list)
}

/// Returns whether the flag of a face on either side of a half edge is set.
fn is_beside<UE, A: Allocator>(half: Edge<'_, UE, A>, flags: &[bool]) -> bool
    requires { IsLive (mesh_behind half).shape (number_of half) }
    ensures { result ≡ (has_flag flags.now (face_of (mesh_behind half.entry).shape (number_of half.entry))
        || has_flag flags.now (face_of (mesh_behind half.entry).shape (rev (number_of half.entry)))) }
{
    let left = has_flag(half, flags);
    let right = has_flag(half.rev(), flags);
    left || right
}

/// Returns whether the flag of the face on the left of a half edge is set.
fn has_flag<UE, A: Allocator>(half: Edge<'_, UE, A>, flags: &[bool]) -> bool
    requires { IsLive (mesh_behind half).shape (number_of half) }
    ensures { result ≡ has_flag flags.now (face_of (mesh_behind half.entry).shape (number_of half.entry)) }
{
    let face = half.face().fix().index();
    match face.checked_sub(1) {
        Some(place) => is_set(flags, place),
        None => false,
    }
}
