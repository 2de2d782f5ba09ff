//! Legalization: each request that the list makes before a flip is refused in turn. The flips
//! before it stand, and no others.
//!
//! Before the line of a row stand the flips before each request, and then how many there are in the
//! end.

use crate::rows::{Row, number, rows_of};
use crate::swept::Swept;
use crate::watched::made;
use dcel_bench::checks::same;
use dcel_bench::lines::read_command;
use dcel_bench::meshes::{Mesh, NO_LIMIT};
use dcel_bench::refusing::{Memory, Refusals, Refusing, Watched};
use dcel_bench::snapshots::{Snapshot, snapshot_of};
use dcel_commands::commands::{Command, Reply, apply};
use dcel_commands::legalize::{Legalized, legalize_edges};
use dcel_legalize::legalize_by_number;
use spade_dcel::handles::{FixedUndirectedEdgeHandle, FixedVertexHandle};
use std::alloc::{Allocator, Global};
use std::test::Fail;

/// How edges are flipped.
#[derive(Clone, Copy)]
enum Way {
    /// While a closure wants it.
    Closure,
    /// By number.
    ByNumber,
    /// As a command.
    Apply,
}

const WAYS: [Way; 3] = [Way::Closure, Way::ByNumber, Way::Apply];

/// Returns the function that is called.
fn function(way: Way) -> &'static str {
    match way {
        Way::Closure => "legalize_edges",
        Way::ByNumber => "legalize_by_number",
        Way::Apply => "apply",
    }
}

/// Edges to be flipped.
type Edges<A> = Vec<FixedUndirectedEdgeHandle, A>;

/// Reads how many flips a line allows, and its list.
fn read_edges<A: Allocator + Copy>(line: &str, memory: A) -> Result<(usize, Edges<A>), Fail> {
    match read_command(line, memory)? {
        Command::Legalize(most, edges) => Ok((most, edges)),
        _ => Err(Fail::new(format_args!("no legalization: {line}"))),
    }
}

/// Returns whether the lesser corner is below the lesser end: the rule by number.
fn is_wanted([from, to, near, far]: &[FixedVertexHandle; 4]) -> bool {
    near.index().min(far.index()) < from.index().min(to.index())
}

fn apply_legalize<'a>(
    dcel: &mut Watched<'a>,
    most: usize,
    edges: Edges<Memory<'a>>,
) -> Result<Legalized, Fail> {
    match apply(dcel, Command::Legalize(most, edges), NO_LIMIT) {
        Ok(Reply::Flips(ended)) => Ok(ended),
        _ => Err(Fail::new("another reply than to flips")),
    }
}

/// Flips edges, once their list is made, with the request of this number refused.
fn legalize<'a>(
    dcel: &mut Watched<'a>,
    memory: Memory<'a>,
    line: &str,
    way: Way,
    number: u64,
) -> Result<Legalized, Fail> {
    let (most, edges) = read_edges(line, memory)?;
    memory.refuse(Refusals::One(number));
    match way {
        Way::Closure => Ok(legalize_edges(dcel, edges, |corners| is_wanted(corners), most)),
        Way::ByNumber => Ok(legalize_by_number(dcel, edges, most)),
        Way::Apply => apply_legalize(dcel, most, edges),
    }
}

/// How a run ended, and what it left.
type Outcome = (Legalized, Snapshot);

/// Flips the edges of a line on a mesh that isn't refused memory, so many times and no more.
fn flip(dcel: &mut Mesh, line: &str, flips: usize, alloc: Global) -> Result<Outcome, Fail> {
    let (_, edges) = read_edges(line, alloc)?;
    let ended = legalize_by_number(dcel, edges, flips);
    Ok((ended, snapshot_of(dcel, alloc)?))
}

fn flipped(row: Row, flips: usize, alloc: Global) -> Result<Outcome, Fail> {
    let mut dcel = made(alloc, row.block)?;
    flip(&mut dcel, row.line, flips, alloc)
}

/// Flips the edges of a line with the request of this number refused.
fn refuse<'a>(
    dcel: &mut Watched<'a>,
    memory: Memory<'a>,
    line: &str,
    (way, number): (Way, u64),
    alloc: Global,
) -> Result<Outcome, Fail> {
    let ended = legalize(dcel, memory, line, way, number)?;
    Ok((ended, snapshot_of(dcel, alloc)?))
}

fn refused(row: Row, way: Way, number: u64, alloc: Global) -> Result<Outcome, Fail> {
    let memory = Refusing::new(alloc);
    let mut dcel = made(&memory, row.block)?;
    refuse(&mut dcel, &memory, row.line, (way, number), alloc)
}

/// Checks a run whose request of this number is refused, and ends so, beside one that stopped with
/// this outcome.
fn check_beside(
    row: Row,
    (way, number): (Way, u64),
    ended: Legalized,
    wanted: &Outcome,
    alloc: Global,
) -> Result<(), Fail> {
    let (found, left) = refused(row, way, number, alloc)?;
    let what = format_args!("{}: request {number} of {}", function(way), row.line);
    same((found, &left), (ended, &wanted.1), what)
}

/// Checks a run whose request of this number is refused, and ends so, beside one of so many flips
/// and no more, which stops so.
fn check(
    row: Row,
    case: (Way, u64),
    [ended, stopped]: [Legalized; 2],
    alloc: Global,
) -> Result<(), Fail> {
    let wanted = flipped(row, ended.flips(), alloc)?;
    check_beside(row, case, ended, &wanted, alloc)?;
    same(wanted.0, stopped, row.line)
}

/// Checks a run whose request of this number is refused after these flips.
fn check_refused(row: Row, way: Way, number: u64, flips: usize, alloc: Global) -> Result<(), Fail> {
    let ends = [
        Legalized::OutOfMemory { flips },
        Legalized::Stopped { flips },
    ];
    check(row, (way, number), ends, alloc)
}

fn push_numbers(numbers: &mut Vec<usize>, words: &str) -> Result<(), Fail> {
    for word in words.split(' ') {
        numbers.push(number(word)? as usize)?;
    }
    Ok(())
}

/// Returns how many flips stand before each request of a row, and how many there are in the end.
fn flips_of(row: Row, alloc: Global) -> Result<Vec<usize>, Fail> {
    let mut flips = Vec::new(alloc);
    push_numbers(&mut flips, row.requests)?;
    Ok(flips)
}

/// Refuses the list of a row each of its requests in turn, and none at last.
fn refuse_each(row: Row, way: Way, flips: &[usize], alloc: Global) -> Result<(), Fail> {
    let Some((last, before)) = flips.split_last() else {
        return Err(Fail::new(format_args!("no flips: {}", row.line)));
    };
    for (number, flips) in before.iter().enumerate() {
        check_refused(row, way, number as u64, *flips, alloc)?;
    }
    let done = Legalized::Done { flips: *last };
    check(row, (way, before.len() as u64), [done, done], alloc)
}

/// Refuses a row all its requests. Returns how many there are.
fn refuse_all(row: Row, way: Way, alloc: Global) -> Result<u64, Fail> {
    let flips = flips_of(row, alloc)?;
    refuse_each(row, way, &flips, alloc)?;
    Ok(flips.len().saturating_sub(1) as u64)
}

fn sweep(row: Row, way: Way, swept: &mut Swept, alloc: Global) -> Result<(), Fail> {
    let requests = refuse_all(row, way, alloc)?;
    Ok(swept.note(function(way), requests)?)
}

/// Sweeps the rows of a block.
pub fn sweep_block(block: &str, swept: &mut Swept, alloc: Global) -> Result<(), Fail> {
    for row in &rows_of(block, alloc)? {
        for way in &WAYS {
            sweep(*row, *way, swept, alloc)?;
        }
    }
    Ok(())
}
