//! Reads points, and writes the triangles of their Delaunay triangulation. `delaunay --help` says
//! what it reads and writes. It uses `dcel_delaunay`, `dcel_constrained` and `dcel_svg`.
//!
//! It exits with status 0, even if nobody reads its output any more; with 1 if the input is bad or
//! a read, a write or memory failed; and with 2 if its arguments are bad.
#![tactic(auto)]

mod answering;
mod arguments;
mod columns;
mod constraining;
mod counts;
mod drawn;
mod ending;
mod fault;
mod fields;
mod flat;
mod foreign;
mod format;
mod fraction;
mod freeing;
mod geojson;
mod joins;
mod limits;
mod listing;
mod locating;
mod measuring;
mod nearest;
mod numbering;
mod outlining;
mod picture;
mod quoting;
mod reading;
mod refining;
mod removal;
mod removing;
mod saving;
mod segments;
mod splitting;
mod task;
mod timing;
mod triangle;
mod triangulating;
mod unit;
mod view;
mod voronoi;
mod words;
mod writing;

use crate::arguments::{Arguments, PROGRAM};
use crate::ending::write_answer;
use crate::fault::Fault;
use crate::flat::report_flat;
use crate::task::Task;
use dcel_programs::{Progress, run};
use std::io::{self, IsTerminal};
use std::process::ExitCode;
use std::rt::{Clock, Files};

fn main(rt: HostRuntime) -> ExitCode {
    let progress = Progress::at(&rt.stderr());
    let is_typed = rt.stdin().is_terminal();
    run(&rt, &PROGRAM, |given| {
        draw(&rt, progress, is_typed, &Arguments::of(given))
    })
}

/// Reads the points, triangulates them, and writes what is asked for. Standard input may be typed at
/// a terminal.
fn draw(
    rt: &(impl Files + Clock + Input + Print + Eprint + AllocGlobal),
    progress: Progress,
    is_typed: bool,
    arguments: &Arguments,
) -> Result<(), Fault> {
    arguments.checked()?;
    report_wait(rt, is_typed, arguments)?;
    let task = Task::read(rt, arguments)?;
    draw_task(rt, progress, &arguments.with_own_joins(&task), &task)
}

/// Says on standard error that somebody is to type points, where that is so.
fn report_wait(rt: &impl Eprint, is_typed: bool, arguments: &Arguments) -> io::Result<()> {
    if is_typed && arguments.file.is_none() {
        eprintln!(rt; "delaunay: reading points from standard input; Ctrl-D ends them")?;
    }
    Ok(())
}

/// Triangulates the points that were read, and writes what is asked for.
fn draw_task(
    rt: &(impl Files + Clock + Print + Eprint + AllocGlobal),
    progress: Progress,
    arguments: &Arguments,
    task: &Task,
) -> Result<(), Fault> {
    arguments.checked()?;
    write_answer(rt, io::writer(rt), progress, arguments, task)?;
    report_flat(rt, arguments, task)?;
    Ok(())
}
