//! Measures the mesh of `spade_dcel`: how long each workload takes per operation.
//!
//! `dcel_speed insert,walk 1000,100000` runs these workloads at these sizes, and `dcel_speed` all
//! of them at all sizes. Each line of the output has a workload, its size, the nanoseconds per
//! operation, the checksum of the result, and the number of operations. With the word `full` every
//! half edge, edge and face has a datum too. With the word `checksums` the time is omitted, so that
//! each run prints the same. `--help` lists its words. It exits with status 0, even if nobody reads
//! its output any more, with 2 if its arguments are bad, and with 1 if anything else fails.
#![tactic(auto)]

mod arguments;
mod copies;
mod digest;
mod fault;
mod flip;
mod legalize;
mod measure;
mod neighbors;
mod random;
mod remove;
mod round_vertex;
mod split;
mod swap;
mod workloads;

use crate::arguments::Arguments;
use crate::fault::Fault;
use crate::measure::Line;
use crate::workloads::{Timed, Workload, measured};
use std::process::ExitCode;
use std::rt::{Clock, Env};

fn main(rt: HostRuntime) -> ExitCode {
    match run(&rt) {
        Ok(()) => ExitCode::SUCCESS,
        Err(Fault::Help) => {
            let _ = println!(rt; "{}", Fault::Help);
            ExitCode::SUCCESS
        }
        Err(fault) if fault.is_end_of_reader() => ExitCode::SUCCESS,
        Err(fault) => {
            let _ = eprintln!(rt; "dcel_speed: {fault}");
            match fault {
                Fault::BadArguments => ExitCode::from(2),
                _ => ExitCode::FAILURE,
            }
        }
    }
}

/// Runs what the arguments name, and prints a line for each workload and size.
fn run(rt: &(impl Env + Clock + Print + AllocGlobal)) -> Result<(), Fault> {
    let arguments = Arguments::read(rt)?;
    for (name, workload) in &arguments.workloads {
        for size in &arguments.sizes {
            let timed = time(rt, &arguments, *workload, *size)?;
            let line = Line {
                name,
                size: *size,
                timed,
                shows_time: arguments.shows_times,
            };
            println!(rt; "{line}")?;
        }
    }
    Ok(())
}

/// Times a workload at a size, over the meshes that the arguments ask for.
fn time(
    rt: &(impl Clock + AllocGlobal),
    arguments: &Arguments,
    workload: Workload,
    size: u32,
) -> Result<Timed, Fault> {
    if arguments.is_full {
        return measured::<i64>(rt, workload, size);
    }
    measured::<()>(rt, workload, size)
}
