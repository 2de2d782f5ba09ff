//! Nearest points.

ghost use Rattle.std.specs.Prelude.{◌≡◌, [], IfOk, None};
ghost use Rattle.dcel_delaunay.specs.Bulk.{AnswersEach};
ghost use Rattle.dcel_delaunay.specs.Triangulated.{mesh_in};
ghost use Rattle.dcel_output.specs.Numbering.{IsNearestNumbered};

use crate::arguments::Arguments;
use crate::drawn::Drawn;
use crate::fault::{Fault, Wrong};
use crate::task::Task;
use crate::timing::tell_time;
use dcel_delaunay::{InsertionError, Point};
use dcel_output::nearest_numbers;
use std::alloc::Global;
use std::rt::Clock;
use std::time::Instant;

/// Returns for each place of a task the number of a point that is nearest to it, if there is a point,
/// and nothing if it isn't asked for.
pub fn find_nearest(
    rt: &(impl Clock + Eprint + AllocGlobal),
    arguments: &Arguments,
    task: &Task,
    drawn: &Drawn,
) -> Result<Vec<Option<u32>>, Fault>
    ensures none { IfOk result (λ list. arguments.now.nearest ≡ None → list.items ≡ []) }
    ensures each { IfOk result (λ list. ¬ (arguments.now.nearest ≡ None) → AnswersEach (IsNearestNumbered (mesh_in drawn.now.triangulation) drawn.now.names.numbers.items) task.now.places.items list.items) }
{
    match arguments.nearest {
        None => Ok(Vec::new(rt.alloc())),
        Some(_) => find_each(rt, arguments, task, drawn),
    }
}

/// Finds them, and tells how long that took.
fn find_each(
    rt: &(impl Clock + Eprint + AllocGlobal),
    arguments: &Arguments,
    task: &Task,
    drawn: &Drawn,
) -> Result<Vec<Option<u32>>, Fault>
    ensures { IfOk result (λ list. AnswersEach (IsNearestNumbered (mesh_in drawn.now.triangulation) drawn.now.names.numbers.items) task.now.places.items list.items) }
{
    let start = Instant::now(rt)?;
    let nearest = nearest_points(rt.alloc(), drawn, &task.places)?;
    tell_time(rt, arguments, start, " to find the nearest points")?;
    Ok(nearest)
}

/// Returns for each of some places the number of a point that is nearest to it, if there is a point.
fn nearest_points(alloc: Global, drawn: &Drawn, places: &[Point]) -> Result<Vec<Option<u32>>, Fault>
    ensures { IfOk result (λ list. AnswersEach (IsNearestNumbered (mesh_in drawn.now.triangulation) drawn.now.names.numbers.items) places.now list.items) }
{
    if !drawn.triangulation.is_whole() {
        return Err(Fault::Input(Wrong::Insertion(InsertionError::Unfinished)));
    }
    match nearest_numbers(alloc, &drawn.triangulation, &drawn.names.numbers, places) {
        Ok(numbers) => Ok(numbers),
        Err(error) => Err(Fault::OutOfMemory(error)),
    }
}
