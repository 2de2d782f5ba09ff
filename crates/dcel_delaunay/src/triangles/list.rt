//! The triangles of a mesh, by the numbers of points.

ghost use Rattle.std.specs.Prelude.{◌≡◌, ◌+◌, ◌<◌, IfOk, Some, length, slice_get};
ghost use Rattle.dcel_maps.specs.Removals.{Closed};
ghost use Rattle.dcel_maps.specs.Shapes.{face_count};
ghost use Rattle.dcel_maps.specs.Triangulations.{AllTriangles};
ghost use Rattle.dcel_delaunay.specs.Listing.{AreNumbers, IsBelow, ListsFaces};

use crate::lists::triangles;
use crate::triangles::triangle::Triangle;
use dcel_planar::Mesh;
use spade_dcel::laws::every_mesh;
use std::alloc::{AllocError, Allocator};

/// Lists the triangles of a mesh in the order of its faces, where each vertex has the number of a
/// point.
pub(crate) fn list_triangles<A: Allocator, B: Allocator>(
    alloc: B,
    mesh: &Mesh<A>,
    numbers: &[u32],
) -> Result<Vec<Triangle, B>, AllocError>
    requires closed { mesh.now.shape.removal ≡ Closed }
    requires triangles { AllTriangles mesh.now.shape }
    requires numbered { length numbers.now ≡ mesh.now.shape.vertices }
    ensures count { IfOk result (λ list. length list.items + 1 ≡ face_count mesh.now.shape) }
    ensures each { IfOk result (λ list. ListsFaces mesh.now.shape numbers.now list.items) }
{
    every_mesh(mesh);
    let mut list = triangles(alloc, mesh)?;
    let mut place = 0;
    while place < list.len() {
        list[place] = numbers_at(numbers, list[place]);
        place += 1;
    }
    Ok(list)
}

/// Returns the numbers of the points at the vertices of a triangle.
fn numbers_at(numbers: &[u32], vertices: Triangle) -> Triangle
    requires { IsBelow (length numbers.now) vertices }
    ensures { AreNumbers numbers.now vertices result }
{
    Triangle {
        first: numbers[vertices.first as usize],
        second: numbers[vertices.second as usize],
        third: numbers[vertices.third as usize],
    }
}
