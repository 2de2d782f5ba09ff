//! Vertices removed from triangles and squares, and corners cut off, each by one call, which is no
//! command. It leaves what three calls leave, one after another.
//!
//! Its row is a line that gives up the vertex: the call takes the same border loop, of three half
//! edges or of four, or the same strip. Before a line that this call can't take stands `no`, with
//! the function's name.

use crate::rows::Row;
use crate::watched::made;
use dcel_bench::checks::{holds, same};
use dcel_bench::lines::{has_memory, opened, read_command};
use dcel_bench::meshes::Mesh;
use dcel_bench::refusing::{Memory, Refusals, Watched};
use dcel_bench::require;
use dcel_commands::commands::Command;
use spade_dcel::handles::{FixedDirectedEdgeHandle, FixedUndirectedEdgeHandle, FixedVertexHandle};
use spade_dcel::operations::{
    Room, cleanup_isolated_vertex, cut_off_corner, remove_from_square, remove_from_triangle,
};
use std::alloc::Global;
use std::test::Fail;

/// How many words a line has that gives up a vertex with four edges.
const WORDS_OF_FOUR: usize = 6;

/// Returns the function that the row of a line calls.
pub fn function(line: &str) -> &'static str {
    if line.starts_with("strip") {
        "cut_off_corner"
    } else if line.split(' ').count() == WORDS_OF_FOUR {
        "remove_from_square"
    } else {
        "remove_from_triangle"
    }
}

/// Returns the vertex that a strip is around.
fn corner(dcel: &Mesh, strip: &[FixedDirectedEdgeHandle]) -> Result<FixedVertexHandle, Fail> {
    let Some(last) = strip.last().and_then(|last| dcel.get_directed_edge(*last)) else {
        return Err(Fail::new("no strip"));
    };
    Ok(last.prev().from().fix())
}

/// Returns the vertex that a line gives up.
fn given_up(dcel: &Mesh, line: &str, alloc: Global) -> Result<FixedVertexHandle, Fail> {
    match read_command(line, alloc)? {
        Command::Isolate(center, _) => Ok(center),
        Command::Strip(strip) => corner(dcel, &strip),
        _ => Err(Fail::new(format_args!("no vertex is given up: {line}"))),
    }
}

/// The edges of a vertex, its datum, and the vertex that gets its number once it is removed, if one
/// does.
#[derive(Drop)]
struct Going<'a> {
    edges: Vec<usize, Memory<'a>>,
    vertex: (i64, Option<usize>),
}

/// Returns the numbers of the edges of a vertex.
fn edges_of<'a>(
    dcel: &Watched<'a>,
    memory: Memory<'a>,
    center: FixedVertexHandle,
) -> Result<Vec<usize, Memory<'a>>, Fail> {
    require!(center.index() < dcel.num_vertices());
    let mut edges = Vec::new(memory);
    for edge in dcel.vertex(center).out_edges() {
        edges.push(edge.as_undirected().index())?;
    }
    Ok(edges)
}

/// Returns what goes if a vertex is removed.
fn what_goes<'a>(
    dcel: &Watched<'a>,
    memory: Memory<'a>,
    center: FixedVertexHandle,
) -> Result<Going<'a>, Fail> {
    require!(center.index() < dcel.num_vertices());
    let last = dcel.num_vertices().saturating_sub(1);
    let moved = if center.index() == last {
        None
    } else {
        Some(last)
    };
    let vertex = (*dcel.vertex_data(center), moved);
    let edges = edges_of(dcel, memory, center)?;
    Ok(Going { edges, vertex })
}

/// Checks which edges and which vertex a call says are gone. The edges ascend.
fn check_gone(
    edges: &[FixedUndirectedEdgeHandle],
    datum: i64,
    moved: Option<FixedVertexHandle>,
    going: &Going,
) -> Result<(), Fail> {
    let mut least = 0;
    for edge in edges {
        let is_next = edge.index() >= least && going.edges.contains(&edge.index());
        holds(is_next, "the edges that are gone")?;
        least = edge.index().saturating_add(1);
    }
    let found = (datum, moved.map(|vertex| vertex.index()));
    same(found, going.vertex, "the vertex that is gone")
}

/// Removes a vertex from a triangle with these requests refused. Returns whether there was memory.
fn remove_from_three<'a>(
    dcel: &mut Watched<'a>,
    memory: Memory<'a>,
    border: &[FixedDirectedEdgeHandle],
    center: FixedVertexHandle,
    refusals: Refusals,
    going: &Going,
) -> Result<bool, Fail> {
    require!(
        dcel.can_remove_from_triangle(border, center)
            && dcel.has_room_for(Room::REMOVE_FROM_TRIANGLE)
    );
    memory.refuse(refusals);
    let Ok(gone) = remove_from_triangle(dcel, border, center) else {
        return Ok(false);
    };
    let vertex = gone.removed_vertex;
    check_gone(&gone.removed_edges, vertex, gone.swapped_in_vertex, going)?;
    Ok(true)
}

/// Removes a vertex from a square with these requests refused. Returns whether there was memory.
fn remove_from_four<'a>(
    dcel: &mut Watched<'a>,
    memory: Memory<'a>,
    border: &[FixedDirectedEdgeHandle],
    center: FixedVertexHandle,
    refusals: Refusals,
    going: &Going,
) -> Result<bool, Fail> {
    require!(
        dcel.can_remove_from_square(border, center) && dcel.has_room_for(Room::REMOVE_FROM_SQUARE)
    );
    memory.refuse(refusals);
    let Ok(gone) = remove_from_square(dcel, border, center) else {
        return Ok(false);
    };
    let vertex = gone.removed_vertex;
    check_gone(&gone.removed_edges, vertex, gone.swapped_in_vertex, going)?;
    Ok(true)
}

/// Removes a vertex inside with these requests refused. Returns whether there was memory.
fn remove_inside<'a>(
    dcel: &mut Watched<'a>,
    memory: Memory<'a>,
    border: &[FixedDirectedEdgeHandle],
    center: FixedVertexHandle,
    refusals: Refusals,
) -> Result<bool, Fail> {
    let going = what_goes(dcel, memory, center)?;
    match border.len() {
        4 => remove_from_four(dcel, memory, border, center, refusals, &going),
        _ => remove_from_three(dcel, memory, border, center, refusals, &going),
    }
}

/// Cuts off a corner with these requests refused. Returns whether there was memory.
fn remove_corner<'a>(
    dcel: &mut Watched<'a>,
    memory: Memory<'a>,
    strip: &[FixedDirectedEdgeHandle],
    refusals: Refusals,
) -> Result<bool, Fail> {
    require!(dcel.can_disconnect_edge_strip(strip));
    memory.refuse(refusals);
    Ok(cut_off_corner(dcel, strip).is_ok())
}

/// Makes the call of a row with these requests refused. Returns whether there was memory.
pub fn make<'a>(
    dcel: &mut Watched<'a>,
    memory: Memory<'a>,
    line: &str,
    refusals: Refusals,
) -> Result<bool, Fail> {
    match read_command(line, memory)? {
        Command::Isolate(center, border) => remove_inside(dcel, memory, &border, center, refusals),
        Command::Strip(strip) => remove_corner(dcel, memory, &strip, refusals),
        _ => Err(Fail::new(format_args!("no vertex is given up: {line}"))),
    }
}

/// Gives up the vertex of a row, and takes out its edges and faces.
fn give_up(dcel: &mut Mesh, line: &str, alloc: Global) -> Result<(), Fail> {
    let mut given_up = opened(dcel, line, alloc)?;
    require!(dcel.is_listed(&given_up));
    cleanup_isolated_vertex(dcel, &mut given_up);
    Ok(())
}

/// Does what a row says by three calls. Returns whether there was memory.
pub fn make_three(dcel: &mut Mesh, line: &str, alloc: Global) -> Result<bool, Fail> {
    let vertex = given_up(dcel, line, alloc)?;
    give_up(dcel, line, alloc)?;
    let remove: Command<i64> = Command::Remove(vertex);
    has_memory(dcel, remove)
}

/// Returns whether a function asks nothing more but room of the vertex and the list of a line.
fn can_make(dcel: &Mesh, function: &str, line: &str, alloc: Global) -> Result<bool, Fail> {
    match (function, read_command(line, alloc)?) {
        ("remove_from_triangle", Command::Isolate(center, border)) => {
            Ok(dcel.can_remove_from_triangle(&border, center))
        }
        ("remove_from_square", Command::Isolate(center, border)) => {
            Ok(dcel.can_remove_from_square(&border, center))
        }
        ("cut_off_corner", Command::Strip(strip)) => Ok(dcel.can_disconnect_edge_strip(&strip)),
        _ => Err(Fail::new(format_args!("no call of {function}: {line}"))),
    }
}

/// Checks that a function can't take the line of a row.
pub fn check_none(row: Row, function: &str, alloc: Global) -> Result<(), Fail> {
    let dcel = made(alloc, row.block)?;
    let can = can_make(&dcel, function, row.line, alloc)?;
    holds(!can, format_args!("{function} takes {}", row.line))
}
