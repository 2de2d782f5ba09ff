//! The triangles of points, as numbers of these points.

ghost use Rattle.std.specs.List.{FoldsTo};
ghost use Rattle.std.specs.Prelude.{◌≡◌, IfErr, IfOk, OnOk, length};
ghost use Rattle.dcel_delaunay.specs.Bulk.{counted};
ghost use Rattle.dcel_delaunay.specs.Triangles.{AreDelaunayTriangles, FailsToTriangulate};

use crate::triangulation::Triangulation;
use dcel_planar::{InsertionError, Point};
use spade_dcel::laws::every_mesh;
use std::alloc::{AllocError, Allocator};

mod list;
mod numbers;
mod triangle;

use list::list_triangles;
pub use numbers::least_numbers;
pub use triangle::Triangle;

/// Returns the triangles of a Delaunay triangulation of points, each by the numbers of its corners.
///
/// Equal points are one, under the least of their numbers. If all points are on one line there is
/// no triangle. If memory runs out, or there are too many points for a mesh or for numbers of 32
/// bits, it returns `AllocError`.
pub fn triangulate<A: Allocator + Copy>(
    alloc: A,
    points: &[Point],
) -> Result<Vec<Triangle, A>, AllocError>
    ensures { IfOk result (λ triangles. AreDelaunayTriangles points.now triangles.items) }
{
    match triangulate_with(alloc, points, |_| ()) {
        Ok(triangles) => Ok(triangles),
        Err(_) => Err(AllocError),
    }
}

/// Returns the triangles of a Delaunay triangulation of points as [`triangulate`] does, and reports
/// after each insertion how many points are inserted: 1, 2, and so on.
///
/// If there are too many points for a mesh it returns
/// [`TooManyPoints`](InsertionError::TooManyPoints). If memory runs out, or there are too many points
/// for numbers of 32 bits, it returns [`OutOfMemory`](InsertionError::OutOfMemory) or
/// [`Unfinished`](InsertionError::Unfinished).
pub fn triangulate_with<A: Allocator + Copy, P: FnMut(usize)>(
    alloc: A,
    points: &[Point],
    progress: P,
) -> Result<Vec<Triangle, A>, InsertionError>
    requires progress { P.IsAlwaysCallable progress }
    ensures triangles { IfOk result (λ triangles. AreDelaunayTriangles points.now triangles.items) }
    ensures fails { IfErr result (FailsToTriangulate points.now) }
    ensures told { OnOk result ((last : P) × FoldsTo (λ before done after. P.step before done tt after) progress (counted 1 (length points.now)) last) }
{
    let mut triangulation = Triangulation::new(alloc)?;
    let inserted = triangulation.insert_all_with(alloc, points, progress);
    let mesh = triangulation.dcel();
    every_mesh(mesh);
    let vertices = inserted?;
    let numbers = least_numbers(alloc, &vertices, mesh.num_vertices())?;
    let triangles = list_triangles(alloc, mesh, &numbers)?;
    Ok(triangles)
}
