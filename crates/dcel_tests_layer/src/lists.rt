//! Lists of commands under a limit: the one that is refused hands its data back, those before it are
//! carried out, and those behind it aren't. `dcel_sweep` refuses them memory.

use dcel_bench::checks::same;
use dcel_bench::lines::{grown, read_commands};
use dcel_bench::meshes::{Mesh, NO_LIMIT};
use dcel_bench::require;
use dcel_bench::snapshots::{Snapshot, snapshot_of};
use dcel_commands::commands::Handed::{Nothing, One, Three};
use dcel_commands::commands::Refusal::{NoRoom, NoSuchVertex, SameVertex};
use dcel_commands::commands::{Handed, MAX_LIMIT, Refusal, StoppedAt, apply_all};
use std::alloc::Global;
use std::test::Fail;

/// Lines that make a mesh, and a list of lines under a limit; the place of the one that is refused,
/// why, and the data that come back; and lines that make the mesh that is left.
struct Row {
    begun: &'static str,
    limit: usize,
    list: &'static str,
    at: usize,
    refused: (Refusal, Handed<i64>),
    left: &'static str,
}

const ROWS: [Row; 6] = [
    // A line can't end where it begins.
    Row {
        begun: "",
        limit: NO_LIMIT,
        list: "append 0\nappend 1\nsetup 0 1\nextend 0 0",
        at: 3,
        refused: (SameVertex, Nothing),
        left: "append 0\nappend 1\nsetup 0 1",
    },
    Row {
        begun: "",
        limit: 1,
        list: "append 5\nappend 6",
        at: 1,
        refused: (NoRoom, One(6)),
        left: "append 5",
    },
    Row {
        begun: "append 5",
        limit: 2,
        list: "triangle 1 2 3",
        at: 0,
        refused: (NoRoom, Three(1, 2, 3)),
        left: "append 5",
    },
    // What comes after a refusal isn't carried out.
    Row {
        begun: "",
        limit: NO_LIMIT,
        list: "append 1\nremove 7\nappend 2\nremove 0",
        at: 1,
        refused: (NoSuchVertex, Nothing),
        left: "append 1",
    },
    // Vertices count, for a limit below how many there are, too.
    Row {
        begun: "append 10\nappend 11",
        limit: 1,
        list: "setup 0 1",
        at: 0,
        refused: (NoRoom, Nothing),
        left: "append 10\nappend 11",
    },
    Row {
        begun: "append 10\nappend 11",
        limit: 2,
        list: "setup 0 1\nappend 12",
        at: 1,
        refused: (NoRoom, One(12)),
        left: "append 10\nappend 11\nsetup 0 1",
    },
];

/// Checks where a list stopped and why, and the data that come back.
fn check_stopped(stopped: &StoppedAt<i64>, row: &Row) -> Result<(), Fail> {
    let found = (stopped.at, stopped.done.len(), stopped.refused.why);
    let (why, back) = &row.refused;
    same(found, (row.at, row.at, *why), "where the list stopped")?;
    same(&stopped.refused.back, back, "the data that come back")
}

/// Carries out the list of a row.
fn check_list(dcel: &mut Mesh, row: &Row, alloc: Global) -> Result<(), Fail> {
    require!(row.limit <= NO_LIMIT);
    match apply_all(dcel, read_commands(row.list, alloc)?, row.limit) {
        Ok(_) => Err(Fail::new("a list that is to stop is carried out")),
        Err(stopped) => check_stopped(&stopped, row),
    }
}

/// Returns what the list of a row leaves.
fn left_by(row: &Row, alloc: Global) -> Result<Snapshot, Fail> {
    let mut dcel = grown(alloc, row.begun)?;
    check_list(&mut dcel, row, alloc)?;
    snapshot_of(&dcel, alloc)
}

/// Returns what these lines leave.
fn grown_as(lines: &str, alloc: Global) -> Result<Snapshot, Fail> {
    let dcel = grown(alloc, lines)?;
    snapshot_of(&dcel, alloc)
}

fn check_left(row: &Row, wanted: &Snapshot, alloc: Global) -> Result<(), Fail> {
    same(&left_by(row, alloc)?, wanted, row.left)
}

fn check_row(row: &Row, alloc: Global) -> Result<(), Fail> {
    let wanted = grown_as(row.left, alloc)?;
    check_left(row, &wanted, alloc)
}

#[test]
fn lists_of_commands_stop(rt: HostRuntime) -> Result<(), Fail> {
    for row in &ROWS {
        check_row(row, rt.alloc())?;
    }
    Ok(())
}

#[test]
fn the_greatest_limit_is_that_of_the_program(_rt: HostRuntime) -> Result<(), Fail> {
    same(MAX_LIMIT, NO_LIMIT, "the greatest limit")
}
