//! The points of a list, triangulated, and which of them is at each vertex.

ghost use Rattle.std.specs.Prelude.{◌≡◌, IfErr, IfOk};
ghost use Rattle.dcel_planar.specs.Outcomes.{IsWholeMesh};
ghost use Rattle.dcel_delaunay.specs.Bulk.{StandAt};
ghost use Rattle.dcel_delaunay.specs.Triangles.{FailsToTriangulate};
ghost use Rattle.dcel_delaunay.specs.Triangulated.{mesh_in};
ghost use Rattle.dcel_output.specs.Numbering.{NumbersVertices};

use dcel_delaunay::{InsertionError, Point, Triangulation, least_numbers};
use spade_dcel::handles::FixedVertexHandle;
use spade_dcel::laws::every_mesh;
use std::alloc::{Allocator, Global};

/// A triangulation of the points of a list.
#[derive(Drop)]
pub struct Triangulated<A: Allocator = Global> {
    /// The triangulation.
    pub triangulation: Triangulation<A>,
    /// The vertex of each point.
    pub vertices: Vec<FixedVertexHandle, A>,
    /// The least number of a point at each vertex.
    pub numbers: Vec<u32, A>,
}

/// Triangulates points, and reports after each insertion how many points are inserted: 1, 2, and so
/// on.
///
/// If there are too many points for a mesh it returns
/// [`TooManyPoints`](InsertionError::TooManyPoints). If memory runs out, or there are too many points
/// for numbers of 32 bits, it returns [`OutOfMemory`](InsertionError::OutOfMemory) or
/// [`Unfinished`](InsertionError::Unfinished).
pub fn triangulate_points<A: Allocator + Copy, P: FnMut(usize)>(
    alloc: A,
    points: &[Point],
    progress: P,
) -> Result<Triangulated<A>, InsertionError>
    requires progress { P.IsAlwaysCallable progress }
    ensures whole { IfOk result (λ t. IsWholeMesh t.triangulation.planar) }
    ensures stand { IfOk result (λ t. StandAt (mesh_in t.triangulation) points.now t.vertices.items) }
    ensures numbered { IfOk result (λ t. NumbersVertices (mesh_in t.triangulation) points.now t.numbers.items) }
    ensures fails { IfErr result (FailsToTriangulate points.now) }
{
    let mut triangulation = Triangulation::new(alloc)?;
    let inserted = triangulation.insert_all_with(alloc, points, progress);
    let mesh = triangulation.dcel();
    every_mesh(mesh);
    let vertices = inserted?;
    let numbers = least_numbers(alloc, &vertices, mesh.num_vertices())?;
    Ok(Triangulated {
        triangulation,
        vertices,
        numbers,
    })
}
