//! What is asked for, written to its end.

ghost use Rattle.std.specs.Prelude.{◌≡◌, IfOk, OnOk, None};
ghost use Rattle.std.specs.Io.Buffered.{writer_contents};
ghost use Rattle.std.specs.Io.KnownBytes.{Keeps};
ghost use Rattle.delaunay.specs.Answers.{AnswersTask};
ghost use Rattle.delaunay.specs.Asked.{AddsNone};

use crate::answering::answer;
use crate::arguments::Arguments;
use crate::fault::Fault;
use crate::limits::Limits;
use crate::locating::locate;
use crate::refining::answer_refined;
use crate::task::Task;
use dcel_programs::Progress;
use std::io::{BufWriter, Write};
use std::rt::{Clock, Files};

/// Triangulates the points of a task, and returns the sink with all that is asked for written into
/// it. If this fails, nothing is promised of what the sink has got.
pub fn write_answer<W: Write + Drop>(
    rt: &(impl Files + Clock + Print + Eprint + AllocGlobal),
    sink: W,
    progress: Progress,
    arguments: &Arguments,
    task: &Task,
) -> Result<W, Fault>
    ensures { IfOk result (λ done. AddsNone arguments.now → arguments.now.locate ≡ None
        → AnswersTask arguments.now task.now (W.contents sink) (W.contents done)) }
{
    match BufWriter::new(rt.alloc(), sink) {
        Ok(writer) => write_buffered(rt, writer, progress, arguments, task),
        Err(error) => Err(Fault::Output(error)),
    }
}

/// Writes what is asked for, and returns the sink behind the buffer.
fn write_buffered<W: Write + Drop>(
    rt: &(impl Files + Clock + Print + Eprint + AllocGlobal),
    writer: BufWriter<W>,
    progress: Progress,
    arguments: &Arguments,
    task: &Task,
) -> Result<W, Fault>
    ensures { IfOk result (λ done. AddsNone arguments.now → arguments.now.locate ≡ None
        → AnswersTask arguments.now task.now (writer_contents W.contents writer) (W.contents done)) }
{
    let mut writer = writer;
    // After a fault the buffer is written out where it is dropped: a refinement that ends too early
    // has written what there is.
    write_asked(rt, &mut writer, progress, arguments, task)?;
    into_sink(writer)
}

/// Writes out what a buffer has, and returns the sink behind it.
fn into_sink<W: Write + Drop>(writer: BufWriter<W>) -> Result<W, Fault>
    ensures { IfOk result (λ done. Keeps (writer_contents W.contents writer) (W.contents done)) }
{
    match writer.into_inner() {
        Ok(sink) => Ok(sink),
        Err(error) => Err(Fault::Output(error.into_error())),
    }
}

/// Writes what is asked for.
fn write_asked<W: Write>(
    rt: &(impl Files + Clock + Print + Eprint + AllocGlobal),
    writer: &mut W,
    progress: Progress,
    arguments: &Arguments,
    task: &Task,
) -> Result<(), Fault>
    ensures { OnOk result (AddsNone arguments.now → arguments.now.locate ≡ None
        → AnswersTask arguments.now task.now (W.contents writer.old) (W.contents writer.new)) }
{
    if arguments.adds_points() {
        return refine(rt, writer, progress, arguments, task);
    }
    if arguments.locate.is_some() {
        return locate(rt, writer, progress, arguments, task);
    }
    answer(rt, writer, progress, arguments, task)
}

/// Adds points, and writes what is asked for then.
fn refine(
    rt: &(impl Files + Clock + Print + Eprint + AllocGlobal),
    writer: &mut impl Write,
    progress: Progress,
    arguments: &Arguments,
    task: &Task,
) -> Result<(), Fault> {
    match Limits::of(arguments) {
        Ok(limits) => answer_refined(rt, writer, progress, arguments, task, limits),
        Err(wrong) => Err(Fault::Input(wrong)),
    }
}
