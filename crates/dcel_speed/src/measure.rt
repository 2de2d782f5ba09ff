//! Repeats a workload, and prints its line.

use crate::digest::{digest_of, mix};
use crate::fault::{BuildError, Fault};
use crate::workloads::{Mesh, Outcome, Timed};
use std::rt::Clock;
use std::time::{Duration, Instant};
use std::{fmt, io};

/// Runs are repeated until they have taken this many milliseconds together.
const LONG_ENOUGH: u64 = 100;

/// The most runs, however short they are.
const MOST_RUNS: u32 = 1_000_000;

/// The fewest runs of a workload that edits, and of one that only reads. A reader goes over the
/// same mesh again, since its first pass over a new mesh measures the caches.
pub const FEWEST_EDITING: u32 = 3;

const FEWEST_READING: u32 = 5;

/// Times the building of a mesh by `size` edits, each time from nothing.
pub fn time_building<D: Drop, B: Fn() -> Result<Mesh<D>, BuildError>>(
    rt: &impl Clock,
    size: u32,
    build: B,
) -> Result<Timed, Fault>
    requires { B.IsAlwaysCallable build }
{
    least_of(FEWEST_EDITING, || {
        let start = Instant::now(rt);
        let dcel = build()?;
        timed(rt, start, &dcel, u64::from(size), None)
    })
}

/// Times edits of a mesh, each run on a clone of it.
pub fn time_editing<D: Drop + Clone, E: Fn(&mut Mesh<D>) -> Result<Timed, Fault>>(
    rt: &(impl Clock + AllocGlobal),
    built: &Mesh<D>,
    edit: E,
) -> Result<Timed, Fault>
    requires { E.IsAlwaysCallable edit }
{
    least_of(FEWEST_EDITING, || {
        let mut dcel = built.try_clone(rt.alloc())?;
        edit(&mut dcel)
    })
}

/// Ends the timing of edits that left this mesh. If they returned a number, it is mixed into the
/// checksum.
pub fn timed<D>(
    rt: &impl Clock,
    start: io::Result<Instant>,
    dcel: &Mesh<D>,
    operations: u64,
    answer: Option<u64>,
) -> Result<Timed, Fault> {
    let elapsed = start?.elapsed(rt)?;
    let digest = digest_of(dcel);
    let checksum = match answer {
        Some(number) => mix(digest, number),
        None => digest,
    };
    let outcome = Outcome {
        checksum,
        operations,
    };
    Ok(Timed { elapsed, outcome })
}

/// Times a workload that only reads.
pub fn time_reading<R: Fn() -> Outcome>(rt: &impl Clock, read: R) -> Result<Timed, Fault>
    requires { R.IsAlwaysCallable read }
{
    least_of(FEWEST_READING, || {
        let start = Instant::now(rt)?;
        let outcome = read();
        let elapsed = start.elapsed(rt)?;
        Ok(Timed { elapsed, outcome })
    })
}

/// Returns the fastest of at least `fewest` runs, and as many as fill a tenth of a second.
pub fn least_of<R: Fn() -> Result<Timed, Fault>>(fewest: u32, run: R) -> Result<Timed, Fault>
    requires { R.IsAlwaysCallable run }
{
    let mut best = run()?;
    let mut total = best.elapsed;
    for done in 1..MOST_RUNS {
        if done >= fewest && total >= Duration::from_millis(LONG_ENOUGH) {
            break;
        }
        let timed = run()?;
        total = total.saturating_add(timed.elapsed);
        if timed.elapsed < best.elapsed {
            best = timed;
        }
    }
    Ok(best)
}

/// The line of a workload at a size.
#[derive(Drop)]
pub struct Line {
    /// The workload's name.
    pub name: &'static str,
    pub size: u32,
    pub timed: Timed,
    pub shows_time: bool,
}

impl fmt::Display for Line {
    fn fmt<W: fmt::Write>(&self, f: &mut fmt::Formatter<W>) -> fmt::Result {
        let Line { name, size, .. } = self;
        let Outcome {
            checksum,
            operations,
        } = self.timed.outcome;
        if !self.shows_time {
            return write!(f, "{name} {size} {checksum} {operations}");
        }
        let tenths = self.timed.tenths_of_nanoseconds();
        let whole = tenths / 10;
        let tenth = tenths % 10;
        write!(f, "{name} {size} {whole}.{tenth} {checksum} {operations}")
    }
}
