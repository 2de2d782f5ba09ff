//! Lists of commands: the one that meets the refusal stops, with those before it carried out.
//!
//! A block is a list, carried out on an empty mesh. Before each line stands how many requests it
//! makes, and behind it its reply.

use crate::rows::{Row, number, rows_of};
use crate::swept::Swept;
use crate::watched::{fitted, made};
use dcel_bench::checks::{holds, same};
use dcel_bench::lines::{Commands, carried_by, carry_out, read_command};
use dcel_bench::meshes::{Mesh, NO_LIMIT};
use dcel_bench::refusing::{Memory, Refusals, Refusing, Watched};
use dcel_bench::replies::reply_text;
use dcel_bench::snapshots::{Snapshot, snapshot_of};
use dcel_commands::commands::{Handed, Refusal, Refused, Reply, StoppedAt, apply_all};
use std::alloc::Global;
use std::test::Fail;

/// The function that carries out lists.
const CALL: &str = "apply_all";

/// Returns the rows before a place.
fn before<'a>(list: &'a [Row<'a>], place: usize) -> &'a [Row<'a>] {
    list.get(..place).unwrap_or(&[])
}

/// Returns the rows from a place on.
fn rest<'a>(list: &'a [Row<'a>], place: usize) -> &'a [Row<'a>] {
    list.get(place..).unwrap_or(&[])
}

fn carry_out_all(dcel: &mut Mesh, list: &[Row], alloc: Global) -> Result<(), Fail> {
    for row in list {
        carry_out(dcel, row.line, alloc)?;
    }
    Ok(())
}

/// Returns what the list leaves if nothing is refused.
fn left_by(list: &[Row], alloc: Global) -> Result<Snapshot, Fail> {
    let mut dcel = made(alloc, "")?;
    carry_out_all(&mut dcel, list, alloc)?;
    snapshot_of(&dcel, alloc)
}

/// Checks that the mesh is the one that a list leaves.
fn check_left(dcel: &Watched, list: &[Row], alloc: Global) -> Result<(), Fail> {
    check_snapshot(dcel, &left_by(list, alloc)?, list.len(), alloc)
}

fn check_snapshot(
    dcel: &Watched,
    wanted: &Snapshot,
    commands: usize,
    alloc: Global,
) -> Result<(), Fail> {
    let what = format_args!("the mesh after {commands} commands");
    same(&snapshot_of(dcel, alloc)?, wanted, what)
}

/// What a list of commands comes to.
type Outcome<'a> = Result<
    Vec<Reply<i64, Memory<'a>>, Memory<'a>>,
    StoppedAt<i64, Memory<'a>, Memory<'a>>,
>;

fn read_list<'a>(list: &[Row], memory: Memory<'a>) -> Result<Commands<Memory<'a>>, Fail> {
    let mut commands = Vec::with_capacity(memory, list.len())?;
    for row in list {
        commands.push(read_command(row.line, memory)?)?;
    }
    Ok(commands)
}

/// Carries out a list, once it is read, with these requests refused.
fn carried_out<'a>(
    dcel: &mut Watched<'a>,
    memory: Memory<'a>,
    list: &[Row],
    refusals: Refusals,
) -> Result<Outcome<'a>, Fail> {
    memory.refuse(Refusals::None);
    let commands = read_list(list, memory)?;
    memory.refuse(refusals);
    Ok(apply_all(dcel, commands, NO_LIMIT))
}

/// Returns the number of the first request after those of a list. The first request of a list is
/// for its replies.
fn end_of(list: &[Row]) -> Result<u64, Fail> {
    let mut end = u64::from(!list.is_empty());
    for row in list {
        end = end.saturating_add(number(row.requests)?);
    }
    Ok(end)
}

/// Returns the place of the command that meets the request of this number.
fn place_of(list: &[Row], request: u64) -> Result<usize, Fail> {
    for place in 0..list.len() {
        if request < end_of(before(list, place.saturating_add(1)))? {
            return Ok(place);
        }
    }
    Ok(list.len())
}

/// Returns the data that come back if the request of this number is refused, which a command at this
/// place meets.
fn back(list: &[Row], place: usize, request: u64, alloc: Global) -> Result<Handed<i64>, Fail> {
    match list.get(place) {
        Some(row) if request > 0 => Ok(carried_by(&read_command(row.line, alloc)?)),
        _ => Ok(Handed::Nothing),
    }
}

/// Checks that these are the replies to a list.
fn check_replies(replies: &[Reply<i64, Memory>], list: &[Row], alloc: Global) -> Result<(), Fail> {
    same(replies.len(), list.len(), "how many replies")?;
    for (reply, row) in replies.iter().zip(list) {
        let found = reply_text(reply, alloc)?;
        same(found.as_str(), row.reply, "a reply")?;
    }
    Ok(())
}

/// Checks that the list stopped at the command that met the request of this number, with those
/// before it carried out. Returns its place.
fn check_stopped<'a>(
    stopped: &StoppedAt<i64, Memory<'a>, Memory<'a>>,
    list: &[Row],
    request: u64,
    alloc: Global,
) -> Result<usize, Fail> {
    let place = place_of(list, request)?;
    same(stopped.at, place, "where the list stopped")?;
    let why = Refusal::OutOfMemory;
    let back = back(list, place, request, alloc)?;
    same(&stopped.refused, &Refused { why, back }, "the refusal")?;
    check_replies(&stopped.done, before(list, place), alloc)?;
    Ok(place)
}

/// Checks what a list came to whose request of this number was refused, if it came. Returns how many
/// commands were carried out.
fn done_of<'a>(
    outcome: &Outcome<'a>,
    list: &[Row],
    request: u64,
    alloc: Global,
) -> Result<usize, Fail> {
    match outcome {
        Err(stopped) => check_stopped(stopped, list, request, alloc),
        Ok(replies) => {
            holds(request >= end_of(list)?, "a list with a request refused")?;
            check_replies(replies, list, alloc)?;
            Ok(list.len())
        }
    }
}

/// Carries out a list with the request of this number refused. Returns how many commands were carried
/// out.
fn carry_out_some<'a>(
    dcel: &mut Watched<'a>,
    memory: Memory<'a>,
    list: &[Row],
    request: u64,
    alloc: Global,
) -> Result<usize, Fail> {
    let outcome = carried_out(dcel, memory, list, Refusals::One(request))?;
    done_of(&outcome, list, request, alloc)
}

/// Carries out a list with the request of this number refused, and then what is left of it.
fn carry_out_twice<'a>(
    dcel: &mut Watched<'a>,
    memory: Memory<'a>,
    list: &[Row],
    request: u64,
    alloc: Global,
) -> Result<(), Fail> {
    let place = carry_out_some(dcel, memory, list, request, alloc)?;
    check_left(dcel, before(list, place), alloc)?;
    carry_out_some(dcel, memory, rest(list, place), u64::MAX, alloc)?;
    check_left(dcel, list, alloc)
}

/// Carries out a list on a new mesh with the request of this number refused, and then what is left
/// of it.
fn refuse(list: &[Row], request: u64, alloc: Global) -> Result<(), Fail> {
    let memory = Refusing::new(alloc);
    let mut dcel = fitted(&memory, "")?;
    carry_out_twice(&mut dcel, &memory, list, request, alloc)
}

/// Refuses a list each of its requests in turn, and none at last.
fn sweep(list: &[Row], swept: &mut Swept, alloc: Global) -> Result<(), Fail> {
    let end = end_of(list)?;
    for request in 0..=end {
        refuse(list, request, alloc)?;
    }
    Ok(swept.note(CALL, end)?)
}

/// Sweeps the list of a block.
pub fn sweep_block(block: &str, swept: &mut Swept, alloc: Global) -> Result<(), Fail> {
    let list = rows_of(block, alloc)?;
    sweep(&list, swept, alloc)
}
