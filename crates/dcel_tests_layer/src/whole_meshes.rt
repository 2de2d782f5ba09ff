//! Calls on whole meshes: data mapped, a mesh cloned, and room reserved.

use dcel_bench::checks::same;
use dcel_bench::data::{Datum, write};
use dcel_bench::lines::{CUT, carry_out, grown, has_memory, read_command};
use dcel_bench::meshes::Mesh;
use dcel_bench::refusing::{Memory, Refusals, Refusing, Watched};
use dcel_bench::require;
use dcel_bench::snapshots::{Snapshot, snapshot_of};
use spade_dcel::operations::{NoMemory, new};
use std::alloc::{AllocError, Global};
use std::cell::Cell;
use std::test::Fail;

/// Returns the result, or that there was no memory.
fn made<T, B: Drop>(made: Result<T, NoMemory<B>>) -> Result<T, AllocError> {
    made.map_err(|_| AllocError)
}

/// Returns the mesh with other data of its vertices and of its undirected edges.
fn mapped(dcel: Mesh, alloc: Global) -> Result<Mesh, AllocError> {
    let dcel = made(dcel.map_vertices(alloc, |datum| datum.saturating_add(10)))?;
    made(dcel.map_undirected_edges(alloc, |datum| datum.saturating_add(1)))
}

/// The data of a cut triangle that [`mapped`] gives others.
const MAPPED: [(Datum, i64); 10] = [
    (Datum::Vertex(0), 10),
    (Datum::Vertex(1), 11),
    (Datum::Vertex(2), 12),
    (Datum::Vertex(3), 13),
    (Datum::Edge(0), 1),
    (Datum::Edge(1), 1),
    (Datum::Edge(2), 1),
    (Datum::Edge(3), 1),
    (Datum::Edge(4), 1),
    (Datum::Edge(5), 1),
];

fn write_mapped(dcel: &mut Mesh) -> Result<(), Fail> {
    for (place, datum) in MAPPED {
        write(dcel, place, datum)?;
    }
    Ok(())
}

/// Reads a cut triangle with these data, written one by one.
fn mapped_snapshot(alloc: Global) -> Result<Snapshot, Fail> {
    let mut dcel = grown(alloc, CUT)?;
    write_mapped(&mut dcel)?;
    snapshot_of(&dcel, alloc)
}

fn check_snapshot(dcel: &Mesh, wanted: &Snapshot, alloc: Global) -> Result<(), Fail> {
    same(&snapshot_of(dcel, alloc)?, wanted, "the mesh")
}

fn check_clone(dcel: &Mesh, wanted: &Snapshot, alloc: Global) -> Result<(), Fail> {
    check_snapshot(&dcel.try_clone(alloc)?, wanted, alloc)
}

fn check_mapped(dcel: &Mesh, wanted: &Snapshot, alloc: Global) -> Result<(), Fail> {
    check_snapshot(dcel, wanted, alloc)?;
    check_clone(dcel, wanted, alloc)
}

fn check_mapped_and_cloned(wanted: &Snapshot, alloc: Global) -> Result<(), Fail> {
    let dcel = mapped(grown(alloc, CUT)?, alloc)?;
    check_mapped(&dcel, wanted, alloc)
}

#[test]
fn data_are_mapped_and_cloned(rt: HostRuntime) -> Result<(), Fail> {
    let wanted = mapped_snapshot(rt.alloc())?;
    check_mapped_and_cloned(&wanted, rt.alloc())
}

/// Appends a datum to those that a closure got before, a digit each.
fn see(seen: &Cell<i64>, datum: i64) -> i64 {
    seen.set(seen.get().saturating_mul(10).saturating_add(datum));
    datum
}

#[test]
fn data_are_mapped_to_another_type(rt: HostRuntime) -> Result<(), Fail> {
    let dcel = grown(rt.alloc(), "triangle 3 0 7")?;
    let dcel = made(dcel.map_vertices(rt.alloc(), |datum| datum > 1))?;
    let seen = Cell::new(2);
    made(dcel.map_vertices(rt.alloc(), |is_more| see(&seen, i64::from(is_more))))?;
    same(seen.get(), 2101, "data")
}

/// A triangle with seven more round it: ten vertices, seventeen edges and eight inner faces.
const EIGHT_TRIANGLES: &str = "append 0\nappend 1\nappend 2\nsetup 0 1\nextend 1 2\nclose 0\n\
    append 3\noutside 1 3\nappend 4\noutside 5 4\nappend 5\noutside 2 5\n\
    append 6\noutside 7 6\nappend 7\noutside 11 7\nappend 8\noutside 15 8\n\
    append 9\noutside 27 9";

/// Room for vertices, edges and faces, and a line that finds none left of one kind after the eight
/// triangles.
const ROOM: [([usize; 3], &str); 3] = [
    ([10, 17, 8], "append 10"),
    ([10, 17, 9], "close 9"),
    ([10, 18, 8], "close 9"),
];

/// Reserves room for more vertices, undirected edges and faces.
fn reserve(dcel: &mut Watched, [vertices, edges, faces]: [usize; 3]) -> Result<(), Fail> {
    require!(dcel.has_room(vertices, edges, faces));
    Ok(dcel.reserve_capacity(vertices, edges, faces)?)
}

/// Reserves room in an empty mesh, which then grows without a request. The next call makes one.
fn check_room_in<'a>(
    dcel: &mut Watched<'a>,
    memory: Memory<'a>,
    (room, next): ([usize; 3], &str),
) -> Result<(), Fail> {
    reserve(dcel, room)?;
    memory.refuse(Refusals::From(0));
    carry_out(dcel, EIGHT_TRIANGLES, memory)?;
    same(memory.requests(), 0, format_args!("requests in {room:?}"))?;
    let is_made = has_memory(dcel, read_command(next, memory)?)?;
    let found = (is_made, memory.requests());
    same(found, (false, 1), format_args!("{next} after {room:?}"))
}

fn check_room(memory: Memory, row: ([usize; 3], &str)) -> Result<(), Fail> {
    memory.refuse(Refusals::None);
    let mut dcel: Watched = new(memory)?;
    check_room_in(&mut dcel, memory, row)
}

#[test]
fn a_mesh_grows_in_reserved_room_without_memory(rt: HostRuntime) -> Result<(), Fail> {
    let memory = Refusing::new(rt.alloc());
    for row in &ROOM {
        check_room(&memory, *row)?;
    }
    Ok(())
}
