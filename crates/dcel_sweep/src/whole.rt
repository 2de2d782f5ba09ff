//! Calls that make a mesh or are on a whole one, and aren't commands. Each leaves the mesh as it is:
//! what it makes is put in the place of the mesh, and is like it.

use crate::rows::number;
use dcel_bench::checks::same;
use dcel_bench::data::write_distinct;
use dcel_bench::refusing::{Memory, Refusals, Watched};
use dcel_bench::require;
use spade_dcel::handles::FixedVertexHandle;
use spade_dcel::operations::{new, new_with_fixed_vertices};
use std::alloc::AllocError;
use std::cell::Cell;
use std::mem;
use std::test::Fail;

/// The functions that are called.
const FUNCTIONS: [&str; 6] = [
    "new",
    "new_with_fixed_vertices",
    "map_vertices",
    "map_undirected_edges",
    "try_clone",
    "reserve_capacity",
];

/// Returns the name of the function that a row calls, and the numbers behind it.
fn call_of(line: &str) -> Result<(&str, [usize; 3]), Fail> {
    let (name, words) = line.split_once(' ').unwrap_or((line, ""));
    let mut numbers = [0; 3];
    for (slot, word) in numbers.iter_mut().zip(words.split_ascii_whitespace()) {
        *slot = number(word)? as usize;
    }
    Ok((name, numbers))
}

/// Returns the function that a row calls.
pub fn function(line: &str) -> Result<&'static str, Fail> {
    let (name, _) = call_of(line)?;
    for function in &FUNCTIONS {
        if *function == name {
            return Ok(*function);
        }
    }
    Err(Fail::new(format_args!("no call on a whole mesh: {line}")))
}

/// Makes the call of a row with these requests refused. Returns whether there was memory.
///
/// Without memory, what was handed in has come back.
pub fn make<'a>(
    dcel: &mut Watched<'a>,
    memory: Memory<'a>,
    line: &str,
    refusals: Refusals,
) -> Result<bool, Fail> {
    let (name, [first, second, third]) = call_of(line)?;
    match name {
        "new" => make_new(dcel, memory, refusals),
        "new_with_fixed_vertices" => make_fixed(dcel, memory, [first, second], refusals),
        "map_vertices" => map_vertices(dcel, memory, refusals),
        "map_undirected_edges" => map_undirected_edges(dcel, memory, refusals),
        "try_clone" => try_clone(dcel, memory, refusals),
        "reserve_capacity" => reserve(dcel, memory, [first, second, third], refusals),
        _ => Err(Fail::new(format_args!("no call on a whole mesh: {line}"))),
    }
}

/// Puts what a call makes in the place of the mesh. Returns whether there was memory.
fn put_made<'a>(dcel: &mut Watched<'a>, made: Result<Watched<'a>, AllocError>) -> bool {
    match made {
        Ok(made) => {
            *dcel = made;
            true
        }
        Err(_) => false,
    }
}

/// Makes a mesh without an edge.
fn make_new<'a>(
    dcel: &mut Watched<'a>,
    memory: Memory<'a>,
    refusals: Refusals,
) -> Result<bool, Fail> {
    memory.refuse(refusals);
    let is_made = put_made(dcel, new(memory));
    write_distinct(dcel)?;
    Ok(is_made)
}

/// Returns the data of the vertices.
fn vertices_of<'a>(
    dcel: &Watched<'a>,
    memory: Memory<'a>,
) -> Result<Vec<i64, Memory<'a>>, AllocError> {
    let mut data = Vec::with_capacity(memory, dcel.num_vertices())?;
    for vertex in dcel.vertices() {
        data.push(*vertex.data())?;
    }
    Ok(data)
}

/// Checks that these are the data of the vertices.
fn check_vertices(dcel: &Watched, back: &[i64]) -> Result<(), Fail> {
    same(back.len(), dcel.num_vertices(), "how many data come back")?;
    for (found, vertex) in back.iter().zip(dcel.vertices()) {
        same(*found, *vertex.data(), "a datum that comes back")?;
    }
    Ok(())
}

/// Makes a mesh of the vertices that the mesh has, with an edge from one to another.
///
/// Without memory their data come back.
fn make_fixed<'a>(
    dcel: &mut Watched<'a>,
    memory: Memory<'a>,
    [from, to]: [usize; 2],
    refusals: Refusals,
) -> Result<bool, Fail> {
    let vertices = vertices_of(dcel, memory)?;
    let count = vertices.len();
    require!(from < count && to < count && from != to && count <= 4_294_967_296);
    let (from, to) = (FixedVertexHandle::new(from), FixedVertexHandle::new(to));
    memory.refuse(refusals);
    match new_with_fixed_vertices(memory, vertices, from, to) {
        Ok(made) => {
            *dcel = made;
            write_distinct(dcel)?;
            Ok(true)
        }
        Err(refused) => {
            check_vertices(dcel, &refused.back)?;
            Ok(false)
        }
    }
}

/// Takes the mesh out, and leaves an empty one in its place.
fn take<'a>(dcel: &mut Watched<'a>, memory: Memory<'a>) -> Result<Watched<'a>, AllocError> {
    Ok(mem::replace(dcel, new(memory)?))
}

/// Counts a call of a closure, which returns what it is given.
fn count(calls: &Cell<usize>, datum: i64) -> i64 {
    calls.set(calls.get().saturating_add(1));
    datum
}

/// Checks that the closure was called for each datum, or if there is no memory not once.
fn check_calls(calls: &Cell<usize>, is_made: bool, data: usize) -> Result<(), Fail> {
    let wanted = if is_made { data } else { 0 };
    same(calls.get(), wanted, "calls of a closure")
}

fn map_vertices<'a>(
    dcel: &mut Watched<'a>,
    memory: Memory<'a>,
    refusals: Refusals,
) -> Result<bool, Fail> {
    let calls = Cell::new(0);
    let taken = take(dcel, memory)?;
    memory.refuse(refusals);
    let (is_made, mapped) = match taken.map_vertices(memory, |datum| count(&calls, datum)) {
        Ok(mapped) => (true, mapped),
        Err(refused) => (false, refused.back),
    };
    *dcel = mapped;
    check_calls(&calls, is_made, dcel.num_vertices())?;
    Ok(is_made)
}

fn map_undirected_edges<'a>(
    dcel: &mut Watched<'a>,
    memory: Memory<'a>,
    refusals: Refusals,
) -> Result<bool, Fail> {
    let calls = Cell::new(0);
    let taken = take(dcel, memory)?;
    memory.refuse(refusals);
    let (is_made, mapped) = match taken.map_undirected_edges(memory, |datum| count(&calls, datum)) {
        Ok(mapped) => (true, mapped),
        Err(refused) => (false, refused.back),
    };
    *dcel = mapped;
    check_calls(&calls, is_made, dcel.num_undirected_edges())?;
    Ok(is_made)
}

fn try_clone<'a>(
    dcel: &mut Watched<'a>,
    memory: Memory<'a>,
    refusals: Refusals,
) -> Result<bool, Fail> {
    memory.refuse(refusals);
    let clone = dcel.try_clone(memory);
    Ok(put_made(dcel, clone))
}

/// Reserves room for vertices, edges and faces.
fn reserve<'a>(
    dcel: &mut Watched<'a>,
    memory: Memory<'a>,
    [vertices, edges, faces]: [usize; 3],
    refusals: Refusals,
) -> Result<bool, Fail> {
    require!(dcel.has_room(vertices, edges, faces));
    memory.refuse(refusals);
    Ok(dcel.reserve_capacity(vertices, edges, faces).is_ok())
}
