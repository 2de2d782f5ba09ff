//! Reads commands for a half-edge mesh from a file or from standard input, one per line, and writes
//! the replies to standard output, by `dcel_commands`. docs/LINES.md has the lines.
//!
//! At the end of the input it exits with status 0, even if commands were refused. If a read or a
//! write fails, or there is no memory for the first mesh, it reports that on standard error and
//! exits with status 1. If its arguments are bad, it exits with status 2.
#![tactic(auto)]

mod arguments;

ghost use Rattle.std.specs.Prelude.{◌≡◌, ◌^◌, false, OnOk};
ghost use Rattle.dcel_commands.specs.Run.{AnswersAll};

use crate::arguments::PROGRAM;
use dcel_commands::commands::{LineSink, LineSource, MAX_LIMIT, RunFault, StdSink, StdSource, run};
use dcel_programs::{Fault, report_wait};
use std::alloc::Allocator;
use std::fs;
use std::io::{IsTerminal, Read};
use std::process::ExitCode;

fn main(rt: HostRuntime) -> ExitCode {
    dcel_programs::run(&rt, &PROGRAM, |given| answer(&rt, given.input()))
}

/// Answers the lines of a file, or of standard input.
fn answer(rt: &HostRuntime, file: Option<&str>) -> Result<(), Fault<RunFault>> {
    match file {
        None => {
            report_wait(rt, PROGRAM.name, rt.stdin().is_terminal())?;
            answer_from(rt, rt.stdin())
        }
        Some(path) => match fs::open(rt, path) {
            Ok(file) => answer_from(rt, file),
            Err(error) => Err(Fault::of_file(rt.alloc(), path, error)),
        },
    }
}

/// Answers the lines that a reader gives.
fn answer_from<R: Read + Drop>(rt: &HostRuntime, reader: R) -> Result<(), Fault<RunFault>> {
    let mut source = StdSource::new(reader);
    let mut sink = StdSink::new(rt.stdout());
    match answer_all(rt.alloc(), &mut source, &mut sink) {
        Ok(()) => Ok(()),
        Err(fault) => Err(Fault::Input(fault)),
    }
}

/// Answers all lines of the source, under the greatest limit.
///
/// There may be 2^31 vertices, as many edges and as many faces.
fn answer_all<A: Allocator + Clone, S: LineSource, K: LineSink>(
    alloc: A,
    source: &mut S,
    sink: &mut K,
) -> Result<(), RunFault>
    requires source_calm { S.has_failed source.old ≡ false }
    requires sink_calm { K.has_failed sink.old ≡ false }
    ensures { OnOk result
        (AnswersAll (2 ^ 31) (S.remaining source.old) (S.remaining source.new) (K.contents sink.old) (K.contents sink.new)) }
{
    run(alloc, source, sink, MAX_LIMIT)
}
