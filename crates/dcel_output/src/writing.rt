//! Lines of numbers.

ghost use Rattle.std.specs.List.{zip};
ghost use Rattle.std.specs.Prelude.{◌≡◌, OnOk, ◌++◌};
ghost use Rattle.std.specs.Io.KnownBytes.{Appends};
ghost use Rattle.dcel_output.specs.Lines.{edge_line, entry, lines_of, nearest_line, neighbor_line, triangle_line, vertex_line};

use crate::turning::{across_from_least, corners};
use dcel_delaunay::Triangle;
use dcel_delaunay::lists::{Across, Ends};
use std::io::{self, Write};

/// Writes the corners of each triangle, counterclockwise, the least number first.
///
/// If a write fails it returns that error, and nothing is promised of what was written.
pub fn write_triangles<W: Write>(writer: &mut W, triangles: &[Triangle]) -> io::Result<()>
    ensures { OnOk result (Appends (W.contents writer.old) (W.contents writer.new) (lines_of triangle_line triangles.now)) }
{
    for triangle in triangles {
        write_triangle(writer, *triangle)?;
    }
    Ok(())
}

/// Writes the line of a triangle.
fn write_triangle<W: Write>(writer: &mut W, triangle: Triangle) -> io::Result<()>
    ensures { OnOk result (Appends (W.contents writer.old) (W.contents writer.new) (triangle_line triangle)) }
{
    let [a, b, c] = corners(triangle);
    writeln!(writer, "{a} {b} {c}")
}

/// Writes for each triangle the ones across from its corners, in the order of these as
/// [`write_triangles`] writes them, or -1 for none.
///
/// If a write fails it returns that error, and nothing is promised of what was written.
pub fn write_neighbors<W: Write>(
    writer: &mut W,
    triangles: &[Triangle],
    neighbors: &[Across],
) -> io::Result<()>
    ensures { OnOk result (Appends (W.contents writer.old) (W.contents writer.new) (lines_of neighbor_line (zip triangles.now neighbors.now))) }
{
    for place in 0..triangles.len().min(neighbors.len()) {
        write_across(writer, triangles[place], neighbors[place])?;
    }
    Ok(())
}

/// Writes the line of what is across from the corners of a triangle.
fn write_across<W: Write>(writer: &mut W, triangle: Triangle, across: Across) -> io::Result<()>
    ensures { OnOk result (Appends (W.contents writer.old) (W.contents writer.new) (neighbor_line (triangle, across))) }
{
    let [a, b, c] = across_from_least(triangle, across);
    write_entry(writer, a, " ")?;
    write_entry(writer, b, " ")?;
    write_entry(writer, c, "\n")?;
    Ok(())
}

/// Writes the ends of each edge, the lesser number first.
///
/// If a write fails it returns that error, and nothing is promised of what was written.
pub fn write_edges<W: Write>(writer: &mut W, edges: &[Ends]) -> io::Result<()>
    ensures { OnOk result (Appends (W.contents writer.old) (W.contents writer.new) (lines_of edge_line edges.now)) }
{
    for ends in edges {
        write_edge(writer, *ends)?;
    }
    Ok(())
}

/// Writes the line of an edge.
fn write_edge<W: Write>(writer: &mut W, ends: Ends) -> io::Result<()>
    ensures { OnOk result (Appends (W.contents writer.old) (W.contents writer.new) (edge_line ends)) }
{
    let (lesser, greater) = (ends.from.min(ends.to), ends.from.max(ends.to));
    writeln!(writer, "{lesser} {greater}")
}

/// Writes a number into each line.
///
/// If a write fails it returns that error, and nothing is promised of what was written.
pub fn write_vertices<W: Write>(writer: &mut W, numbers: &[u32]) -> io::Result<()>
    ensures { OnOk result (Appends (W.contents writer.old) (W.contents writer.new) (lines_of vertex_line numbers.now)) }
{
    for number in numbers {
        write_vertex(writer, *number)?;
    }
    Ok(())
}

/// Writes the line of a number.
fn write_vertex<W: Write>(writer: &mut W, number: u32) -> io::Result<()>
    ensures { OnOk result (Appends (W.contents writer.old) (W.contents writer.new) (vertex_line number)) }
{
    writeln!(writer, "{number}")
}

/// Writes a number into each line, or -1 for none.
///
/// If a write fails it returns that error, and nothing is promised of what was written.
pub fn write_nearest<W: Write>(writer: &mut W, numbers: &[Option<u32>]) -> io::Result<()>
    ensures { OnOk result (Appends (W.contents writer.old) (W.contents writer.new) (lines_of nearest_line numbers.now)) }
{
    for number in numbers {
        write_entry(writer, *number, "\n")?;
    }
    Ok(())
}

/// Writes a number, or -1 for none, and what follows it.
fn write_entry<W: Write>(writer: &mut W, number: Option<u32>, end: &str) -> io::Result<()>
    ensures { OnOk result (Appends (W.contents writer.old) (W.contents writer.new) (entry number ++ end.now)) }
{
    match number {
        Some(number) => write!(writer, "{number}{end}"),
        None => write!(writer, "-1{end}"),
    }
}
