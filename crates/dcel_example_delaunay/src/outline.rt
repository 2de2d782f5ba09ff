//! An outline among points: its sides are edges, even where they are not Delaunay.

use crate::{PLACES, show_triangles, triangulated};
use anyhow::{Result, ensure};
use dcel_constrained::ConstrainedTriangulation;
use dcel_delaunay::Triangulation;
use spade_dcel::handles::FixedVertexHandle;
use std::alloc::Global;

/// Triangulates points with an outline among them, and prints which triangles lie inside of it.
pub fn show(rt: &impl Print, alloc: Global) -> Result<()> {
    let mut constrained = without_outline(alloc)?;
    show_outline(rt, &mut constrained, alloc)
}

/// Returns the Delaunay triangulation of all points, to which segments can be added.
fn without_outline(alloc: Global) -> Result<ConstrainedTriangulation> {
    let triangulation = triangulated(&PLACES, alloc)?;
    with_segments(&triangulation, alloc)
}

/// Returns a triangulation to which segments can be added.
fn with_segments(triangulation: &Triangulation, alloc: Global) -> Result<ConstrainedTriangulation> {
    ensure!(triangulation.is_whole(), "memory has run out");
    Ok(ConstrainedTriangulation::from_triangulation(triangulation, alloc)?)
}

/// Adds the outline, and prints which triangles lie inside of it.
fn show_outline(
    rt: &impl Print,
    constrained: &mut ConstrainedTriangulation,
    alloc: Global,
) -> Result<()> {
    for (from, to) in [(0, 2), (2, 4), (4, 0)] {
        add_side(constrained, from, to)?;
    }
    show_triangles(rt, "with an outline", constrained.dcel())?;

    let crossings = constrained.regions(alloc)?;
    show_inside(rt, constrained, &crossings)
}

/// Prints the triangles inside of the outline, by how many of its sides have to be crossed to reach
/// each face from outside: one.
fn show_inside(
    rt: &impl Print,
    constrained: &ConstrainedTriangulation,
    crossings: &[usize],
) -> Result<()> {
    print!(rt; "inside of it:")?;
    for triangle in constrained.dcel().live_inner_faces() {
        if crossings.get(triangle.index()) == Some(&1) {
            let [a, b, c] = triangle.vertices().map(|corner| corner.index());
            print!(rt; " ({a} {b} {c})")?;
        }
    }
    println!(rt)?;
    Ok(())
}

/// Makes the segment between two vertices an edge that stays.
fn add_side(constrained: &mut ConstrainedTriangulation, from: u32, to: u32) -> Result<()> {
    let from = FixedVertexHandle::new(from as usize);
    let to = FixedVertexHandle::new(to as usize);
    ensure!(constrained.is_whole(), "memory has run out");
    ensure!(
        constrained.can_add_constraint(from, to),
        "it crosses another side"
    );
    constrained.add_constraint(from, to)?;
    Ok(())
}
