//! Constraints that cross, split where they do.

ghost use Rattle.std.specs.Prelude.{◌≤◌, ◌^◌, unsigned_abs};
ghost use Rattle.dcel_predicates.specs.Wide.{number_of};

use crate::arguments::Arguments;
use crate::constraining::at_line;
use crate::drawn::Names;
use crate::fault::{Fault, Wrong};
use crate::fraction::Fraction;
use crate::quoting::Sentence;
use crate::segments::segments_of;
use crate::task::Task;
use crate::unit::Unit;
use dcel_constrained::{ConstrainedTriangulation, ConstraintError, Crossing, Segment};
use dcel_delaunay::{InsertionError, Triangulation};
use dcel_predicates::Wide;
use spade_dcel::handles::{FixedUndirectedEdgeHandle, FixedVertexHandle};
use std::alloc::Global;

/// Makes constraints of the segments that files join. Where two cross, a point is inserted, if it has
/// whole coordinates.
pub fn split_triangulation_of(
    alloc: Global,
    arguments: &Arguments,
    task: &Task,
    triangulation: Triangulation,
    names: &Names,
) -> Result<ConstrainedTriangulation, Fault> {
    // It is whole unless memory ran out.
    if !triangulation.is_whole() {
        return Err(Fault::Input(Wrong::Insertion(InsertionError::Unfinished)));
    }
    let segments = segments_of(alloc, &task.constraints, &task.outline)?;
    let mut triangulation = ConstrainedTriangulation::convert(triangulation, alloc)?;
    for (number, segment) in segments.iter().enumerate() {
        if let Err(wrong) = lay(&mut triangulation, &names.vertices, *segment, task.unit) {
            return Err(at_line(alloc, arguments, task, number, wrong));
        }
    }
    Ok(triangulation)
}

/// Makes a segment a chain of constraints, and inserts points where it crosses others.
fn lay(
    triangulation: &mut ConstrainedTriangulation,
    vertices: &[Option<FixedVertexHandle>],
    segment: Segment,
    unit: Unit,
) -> Result<(), Wrong> {
    let from = vertex_of(vertices, segment.from)?;
    let to = vertex_of(vertices, segment.to)?;
    if from == to {
        return Err(Wrong::Said(Sentence::OnePoint));
    }
    // Each turn inserts a point at least, and leaves fewer edges to cross.
    for _turn in 0..u32::MAX {
        match triangulation.try_add_constraint(from, to) {
            Ok(_) => return Ok(()),
            Err(ConstraintError::Blocked(edges)) => {
                insert_crossings(triangulation, from, to, &edges, unit)?;
            }
            Err(ConstraintError::NoVertex) => return Err(Wrong::Said(Sentence::RemovedPoint)),
            Err(ConstraintError::OutOfMemory) => return Err(NO_MEMORY),
        }
    }
    Err(Wrong::Said(Sentence::Crossing))
}

const NO_MEMORY: Wrong = Wrong::Insertion(InsertionError::OutOfMemory);

/// Returns the vertex of a point.
fn vertex_of(
    vertices: &[Option<FixedVertexHandle>],
    number: usize,
) -> Result<FixedVertexHandle, Wrong> {
    match vertices.get(number).copied().flatten() {
        Some(vertex) => Ok(vertex),
        None => Err(Wrong::Said(Sentence::RemovedPoint)),
    }
}

/// Inserts the points at which a segment crosses edges.
fn insert_crossings(
    triangulation: &mut ConstrainedTriangulation,
    from: FixedVertexHandle,
    to: FixedVertexHandle,
    edges: &[FixedUndirectedEdgeHandle],
    unit: Unit,
) -> Result<(), Wrong> {
    for edge in edges {
        insert_crossing(triangulation, from, to, *edge, unit)?;
    }
    Ok(())
}

/// Inserts the point at which a segment crosses an edge, if it does.
fn insert_crossing(
    triangulation: &mut ConstrainedTriangulation,
    from: FixedVertexHandle,
    to: FixedVertexHandle,
    edge: FixedUndirectedEdgeHandle,
    unit: Unit,
) -> Result<(), Wrong> {
    let Some(crossing) = triangulation.crossing(from, to, edge) else {
        return Ok(());
    };
    if !is_whole(&crossing) {
        return Err(off_grid(&crossing, unit));
    }
    match triangulation.insert(crossing.nearest) {
        Ok(_) => Ok(()),
        Err(error) => Err(Wrong::Insertion(error)),
    }
}

/// Returns whether a place has whole coordinates.
fn is_whole(crossing: &Crossing) -> bool
    requires { unsigned_abs crossing.now.weight ≤ 2 ^ 109 }
{
    Wide::product(crossing.nearest.x as i128, crossing.weight) == crossing.x
        && Wide::product(crossing.nearest.y as i128, crossing.weight) == crossing.y
}

/// Returns that two segments cross at a place that is no point of the grid.
fn off_grid(crossing: &Crossing, unit: Unit) -> Wrong
    requires x { unsigned_abs (number_of crossing.now.x) ≤ 2 ^ 165 }
    requires y { unsigned_abs (number_of crossing.now.y) ≤ 2 ^ 165 }
    requires weight { unsigned_abs crossing.now.weight ≤ 2 ^ 109 }
{
    let Some(divisor) = unit.divisor() else {
        return Wrong::Said(Sentence::Crossing);
    };
    let weight = crossing.weight.unsigned_abs().max(1);
    Wrong::OffGrid(
        Fraction::new(crossing.x, weight, divisor),
        Fraction::new(crossing.y, weight, divisor),
        unit.shown(crossing.nearest),
    )
}
