//! Calls alone, each on a mesh of its own without spare room: by the operation itself and as a
//! command, on a whole mesh, or at once.

use crate::operations::{operate, operation};
use crate::rows::{Row, number, rows_of};
use crate::swept::Swept;
use crate::watched::{fitted, made};
use crate::{at_once, whole};
use dcel_bench::checks::{holds, same};
use dcel_bench::lines::{has_memory, read_command};
use dcel_bench::meshes::Mesh;
use dcel_bench::refusing::{Memory, Refusals, Refusing, Watched};
use dcel_bench::snapshots::{Snapshot, snapshot_of};
use dcel_commands::commands::Command;
use std::alloc::Global;
use std::fmt;
use std::test::Fail;

/// How the call of a row is made.
#[derive(Clone, Copy)]
pub enum Way {
    /// By the operation itself.
    Operation,
    /// As a command.
    Apply,
    /// On a whole mesh, by a call that is no command.
    Whole,
    /// At once, by a call that is no command and does what three do.
    AtOnce,
}

/// A call that is refused a request.
#[derive(Clone, Copy)]
struct Case<'a> {
    row: Row<'a>,
    way: Way,
    /// The function that is called.
    function: &'static str,
    /// The number of the request.
    number: u64,
}

impl fmt::Display for Case<'_> {
    fn fmt<W: fmt::Write>(&self, f: &mut fmt::Formatter<W>) -> fmt::Result {
        write!(
            f,
            "{} by {}, request {}",
            self.row.line, self.function, self.number
        )
    }
}

/// Returns the function that is called.
fn function(line: &str, way: Way) -> Result<&'static str, Fail> {
    match way {
        Way::Operation => operation(line),
        Way::Apply => Ok("apply"),
        Way::Whole => whole::function(line),
        Way::AtOnce => Ok(at_once::function(line)),
    }
}

/// Has the mesh carry out a command by its operation, or by `apply`.
fn carry_out<'a>(
    dcel: &mut Watched<'a>,
    memory: Memory<'a>,
    command: Command<i64, Memory<'a>>,
    way: Way,
) -> Result<bool, Fail> {
    match way {
        Way::Apply => has_memory(dcel, command),
        _ => operate(dcel, memory, command),
    }
}

/// Makes the call of a command with these requests refused. Returns whether there was memory.
fn make_line<'a>(
    dcel: &mut Watched<'a>,
    memory: Memory<'a>,
    line: &str,
    way: Way,
    refusals: Refusals,
) -> Result<bool, Fail> {
    // There is memory for the lists of the command.
    let command = read_command(line, memory)?;
    memory.refuse(refusals);
    carry_out(dcel, memory, command, way)
}

/// Makes the call with these requests refused. Returns whether there was memory.
///
/// Without memory, what was handed in has come back.
pub fn make<'a>(
    dcel: &mut Watched<'a>,
    memory: Memory<'a>,
    line: &str,
    way: Way,
    refusals: Refusals,
) -> Result<bool, Fail> {
    memory.refuse(Refusals::None);
    match way {
        Way::Whole => whole::make(dcel, memory, line, refusals),
        Way::AtOnce => at_once::make(dcel, memory, line, refusals),
        _ => make_line(dcel, memory, line, way, refusals),
    }
}

/// Makes the call with its request refused. Returns whether the request came, after checking that
/// the call met the refusal exactly if it did.
fn is_refused<'a>(dcel: &mut Watched<'a>, memory: Memory<'a>, case: Case) -> Result<bool, Fail> {
    let refusals = Refusals::One(case.number);
    let is_made = make(dcel, memory, case.row.line, case.way, refusals)?;
    let is_refused = memory.requests() > case.number;
    same(is_made, !is_refused, case)?;
    Ok(is_refused)
}

/// Checks that the call has left the mesh as it was, and makes it again.
fn make_again<'a>(
    dcel: &mut Watched<'a>,
    memory: Memory<'a>,
    case: Case,
    before: &Snapshot,
    alloc: Global,
) -> Result<(), Fail> {
    same(&snapshot_of(dcel, alloc)?, before, case)?;
    let is_made = make(dcel, memory, case.row.line, case.way, Refusals::None)?;
    holds(is_made, format_args!("no memory after {case}"))
}

/// Makes the call with its request refused, and again if that came. Returns whether it came, after
/// comparing what is left in the end.
fn comes_to<'a>(
    dcel: &mut Watched<'a>,
    memory: Memory<'a>,
    case: Case,
    [before, left]: [&Snapshot; 2],
    alloc: Global,
) -> Result<bool, Fail> {
    let comes = is_refused(dcel, memory, case)?;
    if comes {
        make_again(dcel, memory, case, before, alloc)?;
    }
    same(&snapshot_of(dcel, alloc)?, left, case)?;
    Ok(comes)
}

/// Refuses the call its request on a new mesh, which is as `before`, and in the end as `left`.
///
/// Returns whether the request came.
fn comes(case: Case, snapshots: [&Snapshot; 2], alloc: Global) -> Result<bool, Fail> {
    let memory = Refusing::new(alloc);
    let mut dcel = fitted(&memory, case.row.block)?;
    comes_to(&mut dcel, &memory, case, snapshots, alloc)
}

/// Does what the call of a row does, on a mesh that isn't refused memory. Returns whether there was
/// memory.
///
/// A call on a whole mesh leaves it as it is.
fn is_carried_out(dcel: &mut Mesh, line: &str, way: Way, alloc: Global) -> Result<bool, Fail> {
    match way {
        Way::Whole => Ok(true),
        Way::AtOnce => at_once::make_three(dcel, line, alloc),
        _ => has_memory(dcel, read_command(line, alloc)?),
    }
}

fn carry_out_row(dcel: &mut Mesh, row: Row, way: Way, alloc: Global) -> Result<(), Fail> {
    let is_made = is_carried_out(dcel, row.line, way, alloc)?;
    holds(is_made, row.line)
}

/// Makes the call of a row, and returns what it leaves.
fn left_by(dcel: &mut Mesh, row: Row, way: Way, alloc: Global) -> Result<Snapshot, Fail> {
    carry_out_row(dcel, row, way, alloc)?;
    snapshot_of(dcel, alloc)
}

/// Returns what this mesh is like before the call of a row, and after it if nothing is refused.
fn before_and_after(
    dcel: &mut Mesh,
    row: Row,
    way: Way,
    alloc: Global,
) -> Result<[Snapshot; 2], Fail> {
    let before = snapshot_of(dcel, alloc)?;
    let left = left_by(dcel, row, way, alloc)?;
    Ok([before, left])
}

/// Returns what the mesh of a row is like before the call, and after it if nothing is refused.
fn snapshots(row: Row, way: Way, alloc: Global) -> Result<[Snapshot; 2], Fail> {
    let mut dcel = made(alloc, row.block)?;
    before_and_after(&mut dcel, row, way, alloc)
}

/// Returns how many requests the call makes: `3+2` are 3 by the operation, and 5 as a command,
/// which copies lists into the memory of the mesh.
fn requests(row: Row, way: Way) -> Result<u64, Fail> {
    let (requests, copies) = row.requests.split_once('+').unwrap_or((row.requests, "0"));
    let requests = number(requests)?;
    match way {
        Way::Apply => Ok(requests.saturating_add(number(copies)?)),
        _ => Ok(requests),
    }
}

/// Refuses the call each of its requests in turn, from that of the first case on, and none at last.
fn refuse_each(
    first: Case,
    requests: u64,
    snapshots: [&Snapshot; 2],
    alloc: Global,
) -> Result<(), Fail> {
    for number in first.number..=requests {
        let case = Case { number, ..first };
        let comes = comes(case, snapshots, alloc)?;
        same(comes, number < requests, case)?;
    }
    Ok(())
}

/// Does so, and compares what is left with what the call leaves if nothing is refused.
fn refuse(first: Case, requests: u64, alloc: Global) -> Result<(), Fail> {
    let [before, left] = snapshots(first.row, first.way, alloc)?;
    refuse_each(first, requests, [&before, &left], alloc)
}

fn sweep(row: Row, way: Way, swept: &mut Swept, alloc: Global) -> Result<(), Fail> {
    let function = function(row.line, way)?;
    let requests = requests(row, way)?;
    let first = Case {
        row,
        way,
        function,
        number: 0,
    };
    refuse(first, requests, alloc)?;
    Ok(swept.note(function, requests)?)
}

/// Sweeps commands by their operations and by `apply`.
pub fn sweep_commands(block: &str, swept: &mut Swept, alloc: Global) -> Result<(), Fail> {
    for row in &rows_of(block, alloc)? {
        sweep(*row, Way::Operation, swept, alloc)?;
        sweep(*row, Way::Apply, swept, alloc)?;
    }
    Ok(())
}

/// Sweeps calls that make a mesh or are on a whole one, and aren't commands.
pub fn sweep_meshes(block: &str, swept: &mut Swept, alloc: Global) -> Result<(), Fail> {
    for row in &rows_of(block, alloc)? {
        sweep(*row, Way::Whole, swept, alloc)?;
    }
    Ok(())
}

/// Sweeps vertices removed at once.
pub fn sweep_removals(block: &str, swept: &mut Swept, alloc: Global) -> Result<(), Fail> {
    for row in &rows_of(block, alloc)? {
        match row.requests.strip_prefix("no ") {
            Some(function) => at_once::check_none(*row, function, alloc)?,
            None => sweep(*row, Way::AtOnce, swept, alloc)?,
        }
    }
    Ok(())
}
