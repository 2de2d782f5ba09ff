//! Delaunay triangulations: points inserted and removed, the vertex nearest to a place, and an
//! outline whose sides are edges.
#![tactic(auto)]

mod outline;

use anyhow::{Context, Result};
use dcel_delaunay::{EdgeMesh, InsertionError, Triangulation, point};
use std::alloc::Global;

/// The coordinates of points. No four of them lie on a circle, so there is one triangulation.
const PLACES: [(i64, i64); 7] = [(0, 0), (10, 0), (12, 8), (5, 11), (-2, 7), (4, 4), (7, 6)];

fn main(rt: HostRuntime) -> Result<()> {
    show_points(&rt, rt.alloc())?;
    outline::show(&rt, rt.alloc())
}

/// Triangulates all points but the last, and shows how the triangulation changes.
fn show_points(rt: &impl Print, alloc: Global) -> Result<()> {
    let mut triangulation = triangulated(&PLACES[..6], alloc)?;
    show_changes(rt, &mut triangulation)
}

/// Inserts the last point, and removes the one nearest to a place.
fn show_changes(rt: &impl Print, triangulation: &mut Triangulation) -> Result<()> {
    show_triangles(rt, "six points", triangulation.dcel())?;

    let (x, y) = PLACES[6];
    let added = triangulation.insert(point(x, y)?)?;
    println!(rt; "({x}, {y}) is vertex {}", added.index())?;
    show_triangles(rt, "seven points", triangulation.dcel())?;

    // After an insertion that succeeded the triangulation is whole, as `nearest_vertex` asks.
    let nearest = triangulation.nearest_vertex(point(3, 3)?);
    let nearest = nearest.context("there is no vertex")?;
    println!(rt; "nearest to (3, 3) is vertex {}", nearest.index())?;

    // The last vertex gets the number of the one that is removed.
    triangulation.remove(nearest)?;
    show_triangles(rt, "without it", triangulation.dcel())
}

/// Returns the Delaunay triangulation of some points, whose vertices have their numbers.
fn triangulated(places: &[(i64, i64)], alloc: Global) -> Result<Triangulation, InsertionError> {
    let mut triangulation = Triangulation::new(alloc)?;
    insert_points(&mut triangulation, places)?;
    Ok(triangulation)
}

/// Inserts points, one after another.
fn insert_points(
    triangulation: &mut Triangulation,
    places: &[(i64, i64)],
) -> Result<(), InsertionError> {
    for (x, y) in places {
        triangulation.insert(point(*x, *y)?)?;
    }
    Ok(())
}

/// Prints the triangles of a mesh, each by its corners in counterclockwise order.
fn show_triangles<UE>(rt: &impl Print, title: &str, mesh: &EdgeMesh<UE>) -> Result<()> {
    print!(rt; "{title}:")?;
    for triangle in mesh.live_inner_faces() {
        let [a, b, c] = triangle.vertices().map(|corner| corner.index());
        print!(rt; " ({a} {b} {c})")?;
    }
    println!(rt)?;
    Ok(())
}
