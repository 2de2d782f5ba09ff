//! Lists of a mesh, with the numbers of points in the place of those of vertices.

ghost use Rattle.std.specs.Prelude.{◌≡◌, IfOk};
ghost use Rattle.dcel_maps.specs.Removals.{Closed};
ghost use Rattle.dcel_output.specs.Numbering.{edges_numbered, hull_numbered, triangles_numbered};

use crate::numbering::{number_edges, number_triangles, number_vertices};
use dcel_delaunay::lists::{Ends, edges, hull, triangles};
use dcel_delaunay::{EdgeMesh, Triangle};
use std::alloc::{AllocError, Allocator};

/// Returns the corners of each triangle, counterclockwise, in the order of the inner faces' numbers.
///
/// Asks that no removal is open (`removal_state()` is `Closed`), as in each triangulation. If memory
/// runs out it returns `AllocError`.
pub fn numbered_triangles<UE, A: Allocator, B: Allocator>(
    alloc: B,
    mesh: &EdgeMesh<UE, A>,
    numbers: &[u32],
) -> Result<Vec<Triangle, B>, AllocError>
    requires { mesh.now.shape.removal ≡ Closed }
    ensures { IfOk result (λ list. list.items ≡ triangles_numbered mesh.now numbers.now) }
{
    let mut list = triangles(alloc, mesh)?;
    number_triangles(&mut list, numbers);
    Ok(list)
}

/// Returns the ends of each edge, in the order of the edges' numbers.
///
/// Asks that no removal is open (`removal_state()` is `Closed`), as in each triangulation. If memory
/// runs out it returns `AllocError`.
pub fn numbered_edges<UE, A: Allocator, B: Allocator>(
    alloc: B,
    mesh: &EdgeMesh<UE, A>,
    numbers: &[u32],
) -> Result<Vec<Ends, B>, AllocError>
    requires { mesh.now.shape.removal ≡ Closed }
    ensures { IfOk result (λ list. list.items ≡ edges_numbered mesh.now numbers.now) }
{
    let mut list = edges(alloc, mesh)?;
    number_edges(&mut list, numbers);
    Ok(list)
}

/// Returns the points of the convex hull, counterclockwise, those on its sides too.
///
/// Along a line it goes there and back, as [`hull`] does. If memory runs out it returns `AllocError`.
pub fn numbered_hull<UE, A: Allocator, B: Allocator>(
    alloc: B,
    mesh: &EdgeMesh<UE, A>,
    numbers: &[u32],
) -> Result<Vec<u32, B>, AllocError>
    ensures { IfOk result (λ list. list.items ≡ hull_numbered mesh.now numbers.now) }
{
    let mut list = hull(alloc, mesh)?;
    number_vertices(&mut list, numbers);
    Ok(list)
}
