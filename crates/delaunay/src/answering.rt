//! What the program answers to what it has read.

ghost use Rattle.std.specs.Prelude.{◌≡◌, ◌++◌, List, None, OnOk, map, option_copied};
ghost use Rattle.std.specs.Io.KnownBytes.{Appends};
ghost use Rattle.dcel_delaunay.specs.Triangulated.{mesh_in};
ghost use Rattle.dcel_output.specs.Lines.{lines_of, nearest_line};
ghost use Rattle.dcel_predicates.specs.declared.point.Point.{Point};
ghost use Rattle.delaunay.specs.Answers.{AsksForConstrained, AsksForInside, AsksForNearest, AsksForPlain, AsksForTriangles, ChangesNothing, HasVertices, IsDrawn, TellsConstrained, TellsDelaunay, TellsInside, Writes, WritesBefore, WritesNearest, WritesTriangles};
ghost use Rattle.delaunay.specs.Segments.{segment_of, segments_of};
ghost use Rattle.delaunay.specs.Texts.{IsStated, text_asked};

use crate::arguments::{Arguments, Output};
use crate::constraining::Constrained;
use crate::drawn::Drawn;
use crate::fault::Fault;
use crate::nearest::find_nearest;
use crate::saving::save;
use crate::task::Task;
use crate::timing::tell_time;
use crate::triangulating::triangulate;
use crate::view::View;
use crate::writing::write_all;
use dcel_output::laws::{
    nearest_numbers_are_nearest, numbered_triangles_are_delaunay, whole_meshes_are_delaunay,
};
use dcel_programs::Progress;
use std::io::Write;
use std::rt::{Clock, Files};
use std::time::Instant;

/// Triangulates the points of a task, and writes what is asked for.
///
/// If triangles are asked for, and nothing else, then those are written of a Delaunay triangulation
/// of the points, a line for each; if nearest points are, a line for each place. Of edges, the hull
/// and neighbors those of such a triangulation are written. With constraints it is a constrained one,
/// whose marked edges are those of the segments, and with an outline what is inside is written. Below
/// an output are the lines of nearest points, if these are asked for too. If a write fails,
/// nothing is promised of what was written.
pub fn answer<W: Write>(
    rt: &(impl Files + Clock + Print + Eprint + AllocGlobal),
    writer: &mut W,
    progress: Progress,
    arguments: &Arguments,
    task: &Task,
) -> Result<(), Fault>
    ensures triangles { OnOk result (AsksForTriangles arguments.now → WritesTriangles task.now.points.items (W.contents writer.old) (W.contents writer.new)) }
    ensures nearest { OnOk result (AsksForNearest arguments.now → WritesNearest task.now.points.items task.now.places.items (W.contents writer.old) (W.contents writer.new)) }
    ensures plain { OnOk result ((output : Output) → AsksForPlain arguments.now output
        → Writes (TellsDelaunay task.now.points.items output) arguments.now task.now.points.items task.now.places.items (W.contents writer.old) (W.contents writer.new)) }
    ensures constrained { OnOk result ((output : Output) → AsksForConstrained arguments.now output
        → Writes (TellsConstrained task.now.points.items (segments_of task.now.constraints.items task.now.outline.items) output)
        arguments.now task.now.points.items task.now.places.items (W.contents writer.old) (W.contents writer.new)) }
    ensures inside { OnOk result ((output : Output) → AsksForInside arguments.now output
        → Writes (TellsInside task.now.points.items (segments_of task.now.constraints.items task.now.outline.items) (map segment_of task.now.outline.items) output)
        arguments.now task.now.points.items task.now.places.items (W.contents writer.old) (W.contents writer.new)) }
{
    let drawn = triangulate(rt, progress, arguments, task)?;
    answer_of(rt, writer, arguments, task, drawn)
}

/// Writes what is asked for of a triangulation of the points that are left.
fn answer_of<W: Write>(
    rt: &(impl Files + Clock + Print + Eprint + AllocGlobal),
    writer: &mut W,
    arguments: &Arguments,
    task: &Task,
    drawn: Drawn,
) -> Result<(), Fault>
    ensures triangles { OnOk result (AsksForTriangles arguments.now → IsDrawn task.now.points.items drawn
        → WritesTriangles task.now.points.items (W.contents writer.old) (W.contents writer.new)) }
    ensures nearest { OnOk result (AsksForNearest arguments.now → IsDrawn task.now.points.items drawn
        → WritesNearest task.now.points.items task.now.places.items (W.contents writer.old) (W.contents writer.new)) }
    ensures plain { OnOk result ((output : Output) → AsksForPlain arguments.now output → IsDrawn task.now.points.items drawn
        → Writes (TellsDelaunay task.now.points.items output) arguments.now task.now.points.items task.now.places.items (W.contents writer.old) (W.contents writer.new)) }
    ensures constrained { OnOk result ((output : Output) → AsksForConstrained arguments.now output → IsDrawn task.now.points.items drawn → HasVertices task.now.points.items drawn
        → Writes (TellsConstrained task.now.points.items (segments_of task.now.constraints.items task.now.outline.items) output)
        arguments.now task.now.points.items task.now.places.items (W.contents writer.old) (W.contents writer.new)) }
    ensures inside { OnOk result ((output : Output) → AsksForInside arguments.now output → IsDrawn task.now.points.items drawn → HasVertices task.now.points.items drawn
        → Writes (TellsInside task.now.points.items (segments_of task.now.constraints.items task.now.outline.items) (map segment_of task.now.outline.items) output)
        arguments.now task.now.points.items task.now.places.items (W.contents writer.old) (W.contents writer.new)) }
{
    whole_meshes_are_delaunay(&drawn.triangulation);
    numbered_triangles_are_delaunay(&drawn.triangulation);
    nearest_numbers_are_nearest(&drawn.triangulation);
    let nearest = find_nearest(rt, arguments, task, &drawn)?;
    write_found(rt, writer, arguments, task, drawn, &nearest)
}

/// Writes what is asked for, with these nearest points.
fn write_found<W: Write>(
    rt: &(impl Files + Clock + Print + Eprint + AllocGlobal),
    writer: &mut W,
    arguments: &Arguments,
    task: &Task,
    drawn: Drawn,
    nearest: &[Option<u32>],
) -> Result<(), Fault>
    ensures plain { OnOk result (ChangesNothing arguments.now → IsStated arguments.now.output → Appends (W.contents writer.old) (W.contents writer.new)
        (text_asked arguments.now.output (mesh_in drawn.triangulation) drawn.names.numbers.items None ++ lines_of nearest_line nearest.now)) }
    ensures constrained { OnOk result ((output : Output) → AsksForConstrained arguments.now output → (points : List Point) → IsDrawn points drawn → HasVertices points drawn
        → WritesBefore (TellsConstrained points (segments_of task.now.constraints.items task.now.outline.items) output)
        (lines_of nearest_line nearest.now) (W.contents writer.old) (W.contents writer.new)) }
    ensures inside { OnOk result ((output : Output) → AsksForInside arguments.now output → (points : List Point) → IsDrawn points drawn → HasVertices points drawn
        → WritesBefore (TellsInside points (segments_of task.now.constraints.items task.now.outline.items) (map segment_of task.now.outline.items) output)
        (lines_of nearest_line nearest.now) (W.contents writer.old) (W.contents writer.new)) }
{
    if arguments.has_constraints() {
        return answer_constrained(rt, writer, arguments, task, drawn, nearest);
    }
    write_drawn(rt, writer, arguments, &drawn.view(task), nearest)
}

/// Puts constraints in, and writes what is asked for.
fn answer_constrained<W: Write>(
    rt: &(impl Files + Clock + Print + Eprint + AllocGlobal),
    writer: &mut W,
    arguments: &Arguments,
    task: &Task,
    drawn: Drawn,
    nearest: &[Option<u32>],
) -> Result<(), Fault>
    ensures constrained { OnOk result ((output : Output) → AsksForConstrained arguments.now output → (points : List Point) → IsDrawn points drawn → HasVertices points drawn
        → WritesBefore (TellsConstrained points (segments_of task.now.constraints.items task.now.outline.items) output)
        (lines_of nearest_line nearest.now) (W.contents writer.old) (W.contents writer.new)) }
    ensures inside { OnOk result ((output : Output) → AsksForInside arguments.now output → (points : List Point) → IsDrawn points drawn → HasVertices points drawn
        → WritesBefore (TellsInside points (segments_of task.now.constraints.items task.now.outline.items) (map segment_of task.now.outline.items) output)
        (lines_of nearest_line nearest.now) (W.contents writer.old) (W.contents writer.new)) }
{
    let start = Instant::now(rt)?;
    let constrained = Constrained::of(rt.alloc(), arguments, task, drawn)?;
    tell_time(rt, arguments, start, " to put in constraints")?;
    write_drawn(rt, writer, arguments, &constrained.view(task), nearest)
}

/// Draws what is asked for, and writes it.
pub fn write_drawn<W: Write, UE>(
    rt: &(impl Files + Print + AllocGlobal),
    writer: &mut W,
    arguments: &Arguments,
    view: &View<'_, UE>,
    nearest: &[Option<u32>],
) -> Result<(), Fault>
    ensures { OnOk result (IsStated arguments.now.output → Appends (W.contents writer.old) (W.contents writer.new)
        (text_asked arguments.now.output view.now.mesh.now view.now.numbers.now (option_copied view.now.inside) ++ lines_of nearest_line nearest.now)) }
{
    save(rt, arguments, view)?;
    match write_all(rt.alloc(), writer, arguments.output, view, nearest) {
        Ok(()) => Ok(()),
        Err(error) => Err(Fault::Output(error)),
    }
}
