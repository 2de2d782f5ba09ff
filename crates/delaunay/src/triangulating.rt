//! Points triangulated.

ghost use Rattle.std.specs.Prelude.{◌≡◌, IfOk, None};
ghost use Rattle.dcel_planar.specs.Outcomes.{IsWholeMesh};
ghost use Rattle.dcel_delaunay.specs.Bulk.{StandAt};
ghost use Rattle.dcel_delaunay.specs.Triangulated.{mesh_in};
ghost use Rattle.dcel_output.specs.Numbering.{NumbersVertices};
ghost use Rattle.delaunay.specs.Answers.{HasConstraints, HasVertices, IsDrawn};

use crate::arguments::Arguments;
use crate::drawn::{Drawn, all_there};
use crate::fault::{Fault, Wrong};
use crate::removing::without_removed;
use crate::task::Task;
use crate::timing::tell_time;
use dcel_delaunay::Point;
use dcel_output::{Triangulated, triangulate_points};
use dcel_programs::Progress;
use std::io;
use std::rt::Clock;
use std::time::Instant;

/// Triangulates the points of a task, and removes those that are to be removed.
pub fn triangulate(
    rt: &(impl Clock + Eprint + AllocGlobal),
    progress: Progress,
    arguments: &Arguments,
    task: &Task,
) -> Result<Drawn, Fault>
    ensures drawn { IfOk result (λ drawn. arguments.now.remove ≡ None → IsDrawn task.now.points.items drawn) }
    ensures vertices { IfOk result (λ drawn. arguments.now.remove ≡ None → HasConstraints arguments.now → HasVertices task.now.points.items drawn) }
{
    let start = Instant::now(rt)?;
    let inserted = insert_all(rt, progress, &task.points)?;
    tell_time(rt, arguments, start, "")?;
    match arguments.remove {
        None => all_there(rt.alloc(), arguments, inserted),
        Some(_) => remove(rt, arguments, task, inserted),
    }
}

/// Removes the points that are to be removed.
fn remove(
    rt: &(impl Clock + Eprint + AllocGlobal),
    arguments: &Arguments,
    task: &Task,
    inserted: Triangulated,
) -> Result<Drawn, Fault> {
    let start = Instant::now(rt)?;
    let drawn = without_removed(rt.alloc(), inserted, &task.is_removed)?;
    tell_time(rt, arguments, start, " to remove points")?;
    Ok(drawn)
}

/// Inserts points, and shows how many are inserted.
fn insert_all(
    rt: &(impl Eprint + AllocGlobal),
    progress: Progress,
    points: &[Point],
) -> Result<Triangulated, Fault>
    ensures whole { IfOk result (λ t. IsWholeMesh t.triangulation.planar) }
    ensures numbered { IfOk result (λ t. NumbersVertices (mesh_in t.triangulation) points.now t.numbers.items) }
    ensures stand { IfOk result (λ t. StandAt (mesh_in t.triangulation) points.now t.vertices.items) }
{
    let all = points.len();
    progress.show(rt, 0, all, "points")?;
    let mut shown = Ok(());
    let inserted = triangulate_points(rt.alloc(), points, |done| {
        if shown.is_ok() {
            shown = show(rt, progress, done, all);
        }
    });
    shown?;
    match inserted {
        Ok(inserted) => Ok(inserted),
        Err(error) => Err(Fault::Input(Wrong::Insertion(error))),
    }
}

/// Shows how many points are inserted, until all are.
fn show(rt: &impl Eprint, progress: Progress, done: usize, all: usize) -> io::Result<()> {
    if done < all {
        progress.show(rt, done, all, "points")
    } else {
        progress.clear(rt, all)
    }
}
