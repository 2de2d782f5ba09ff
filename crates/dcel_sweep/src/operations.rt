//! The operation that does what a line says.

use crate::{grows, removes};
use dcel_bench::refusing::{Memory, Watched};
use dcel_commands::commands::Command;
use std::test::Fail;

/// The words of lines, each with the operation that does what it says.
const OPERATIONS: [(&str, &str); 21] = [
    ("append", "append_unconnected_vertex"),
    ("triangle", "new_triangle"),
    ("setup", "setup_initial_two_vertices"),
    ("extend", "extend_line"),
    ("line", "split_edge_when_all_vertices_on_line"),
    ("close", "create_single_face_between_edge_and_next"),
    ("outside", "create_new_face_adjacent_to_edge"),
    ("insert", "insert_into_triangle"),
    ("half", "split_half_edge"),
    ("split", "split_edge"),
    ("flip", "flip_cw"),
    ("swap", "swap_vertices"),
    ("put", "update_vertex"),
    ("isolate", "isolate_vertex_and_fill_hole"),
    ("remesh", "remesh_edge_ring"),
    ("strip", "disconnect_edge_strip"),
    ("cleanup", "cleanup_isolated_vertex"),
    ("remove", "swap_remove_vertex"),
    ("degenerate", "remove_when_degenerate"),
    ("legalize", "legalize_by_number"),
    ("clear", "clear"),
];

/// Returns the name of the operation that does what a line says.
pub fn operation(line: &str) -> Result<&'static str, Fail> {
    let (wanted, _) = line.split_once(' ').unwrap_or((line, ""));
    for (word, operation) in &OPERATIONS {
        if *word == wanted {
            return Ok(*operation);
        }
    }
    Err(Fail::new(format_args!("no operation: {line}")))
}

/// Makes the call, after testing what it asks. Returns whether there was memory.
///
/// Without memory, what was handed in has come back.
pub fn operate<'a>(
    dcel: &mut Watched<'a>,
    memory: Memory<'a>,
    command: Command<i64, Memory<'a>>,
) -> Result<bool, Fail> {
    match command {
        Command::Append(datum) => grows::append(dcel, datum),
        Command::Triangle(first, second, third) => {
            grows::replace(dcel, memory, (first, second, third))
        }
        Command::Setup(from, to) => grows::set_up(dcel, from, to),
        Command::Extend(end, added) => grows::extend(dcel, end, added),
        Command::Line(edge, added) => grows::split_on_line(dcel, edge, added),
        Command::Close(edge) => grows::close(dcel, edge),
        Command::Outside(edge, added) => grows::put_outside(dcel, edge, added),
        Command::Insert(added, face) => grows::insert(dcel, added, face),
        Command::Half(edge, added) => grows::split_half(dcel, edge, added),
        Command::Split(edge, added) => grows::split_both(dcel, edge, added),
        Command::Flip(edge) => removes::flip(dcel, edge),
        Command::Swap(first, second) => removes::swap(dcel, first, second),
        Command::Put(handle, datum) => removes::put(dcel, handle, datum),
        Command::Isolate(center, border) => removes::isolate(dcel, center, border),
        Command::Remesh(border, edges, faces) => removes::remesh(dcel, border, edges, faces),
        Command::Strip(strip) => removes::cut_off(dcel, strip),
        Command::Cleanup(edges, faces) => removes::clean_up(dcel, memory, edges, faces),
        Command::Remove(handle) => removes::remove(dcel, handle),
        Command::Degenerate(handle) => removes::remove_degenerate(dcel, handle),
        Command::Legalize(most, edges) => Ok(removes::legalize(dcel, edges, most)),
        Command::Clear => {
            dcel.clear();
            Ok(true)
        }
    }
}
