//! Legalization by circles, with each request for memory refused in turn, and tests of meshes.

use crate::places::{KITE, Place, numbered, points_at};
use dcel_bench::checks::{holds, same};
use dcel_bench::meshes::{half_edge, handles};
use dcel_bench::refusing::{Memory, Refusals, Refusing};
use dcel_bench::require;
use dcel_delaunay::{Point, has_constraint_at, point};
use dcel_exchange::from_faces;
use dcel_planar::{
    PlanarMesh, PositionInTriangulation, is_circled, is_delaunay, is_delaunay_triangulation,
    is_plane, legalize_by_circles,
};
use spade_dcel::dcel::Dcel;
use spade_dcel::handles::FixedUndirectedEdgeHandle;
use std::alloc::{AllocError, Global};
use std::test::Fail;

/// Points on a parabola, the last one first.
const FAN: [Place; 8] = [
    (7, 49),
    (0, 0),
    (1, 1),
    (2, 4),
    (3, 9),
    (4, 16),
    (5, 25),
    (6, 36),
];

/// The corners of triangles, all of which have the first point.
const TRIANGLES: [&[u32]; 6] = [
    &[0, 1, 2],
    &[0, 2, 3],
    &[0, 3, 4],
    &[0, 4, 5],
    &[0, 5, 6],
    &[0, 6, 7],
];

/// The edges between two of the triangles.
const INNER: [u32; 5] = [2, 4, 6, 8, 10];

/// Returns vectors of the corners of faces.
fn corners_of(faces: &[&[u32]], alloc: Global) -> Result<Vec<Vec<u32>>, AllocError> {
    let mut lists = Vec::new(alloc);
    for corners in faces {
        lists.push(Vec::from_slice(alloc, corners)?)?;
    }
    Ok(lists)
}

fn mesh_with(places: &[Place], faces: &[Vec<u32>], alloc: Global) -> Result<Dcel<Point>, Fail> {
    let points = points_at(places, alloc)?;
    match from_faces(alloc, points, faces) {
        Ok(dcel) => Ok(dcel),
        Err(_) => Err(Fail::new("the faces are refused")),
    }
}

/// Returns the mesh of the triangles. Its edges are numbered as these come to them.
fn fan(alloc: Global) -> Result<Dcel<Point>, Fail> {
    let faces = corners_of(&TRIANGLES, alloc)?;
    mesh_with(&FAN, &faces, alloc)
}

/// Flips these edges with the request of this number refused, and goes on with the same list if
/// that request came. Returns whether it came.
fn flip_refused<'a>(
    dcel: &mut Dcel<Point>,
    due: &mut Vec<FixedUndirectedEdgeHandle, Memory<'a>>,
    memory: Memory<'a>,
    number: u64,
) -> Result<bool, Fail> {
    require!(is_plane(dcel));
    holds(!is_delaunay(dcel), "a circle has a corner inside")?;
    holds(
        is_circled(dcel, FixedUndirectedEdgeHandle::new(2)),
        "an edge is to be flipped",
    )?;
    memory.refuse(Refusals::One(number));
    let is_done = legalize_by_circles(dcel, due).is_ok();
    let came = memory.requests() > number;
    memory.refuse(Refusals::None);
    same(
        [is_done, due.is_empty()],
        [!came; 2],
        format_args!("request {number} refused"),
    )?;
    if came {
        legalize_by_circles(dcel, due)?;
    }
    holds(due.is_empty() && is_delaunay(dcel), "circles are empty")?;
    Ok(came)
}

/// Flips edges of the fan with the request of this number refused. Returns whether it came.
fn is_refused_on(dcel: &mut Dcel<Point>, number: u64, alloc: Global) -> Result<bool, Fail> {
    let memory = Refusing::new(alloc);
    let mut due = handles(&INNER, &memory)?;
    flip_refused(dcel, &mut due, &memory, number)
}

/// Flips edges of a new fan with the request of this number refused. Returns whether it came.
fn is_refused(number: u64, alloc: Global) -> Result<bool, Fail> {
    let mut dcel = fan(alloc)?;
    is_refused_on(&mut dcel, number, alloc)
}

#[test]
fn flips_by_circles_are_refused_memory(rt: HostRuntime) -> Result<(), Fail> {
    for number in 0..4 {
        let is_refused = is_refused(number, rt.alloc())?;
        same(
            is_refused,
            number < 3,
            format_args!("request {number} of the list"),
        )?;
    }
    Ok(())
}

/// A path is Delaunay at its edges, since it has no triangle, and no triangulation.
#[test]
fn a_path_is_no_triangulation(rt: HostRuntime) -> Result<(), Fail> {
    let path = numbered(&[(0, 0), (8, 4), (4, 2)], rt.alloc())?;
    let found = (
        is_delaunay(path.dcel()),
        is_delaunay_triangulation(path.dcel()),
    );
    same(found, (true, false), "Delaunay at edges, and as a whole")
}

/// Puts a point into a mesh of none, where no constraint ends.
fn put_first(mesh: &mut PlanarMesh<(), Global>) -> Result<(), Fail> {
    let place = point(3, 4)?;
    require!(mesh.is_whole());
    let PositionInTriangulation::NoTriangulation = mesh.locate(half_edge(0), place) else {
        return Err(Fail::new("a mesh of no points has no places"));
    };
    let first = mesh.put_at(PositionInTriangulation::NoTriangulation, place)?;
    require!(first.index() < mesh.dcel().num_vertices());
    holds(!has_constraint_at(mesh, first), "no constraint ends there")
}

#[test]
fn no_constraint_ends_at_a_first_point(rt: HostRuntime) -> Result<(), Fail> {
    let mut mesh = PlanarMesh::new(rt.alloc())?;
    put_first(&mut mesh)
}
