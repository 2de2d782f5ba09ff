//! What is written to standard output.

ghost use Rattle.std.specs.Prelude.{◌≡◌, ◌++◌, OnOk, option_copied};
ghost use Rattle.std.specs.List.{zip};
ghost use Rattle.std.specs.Io.KnownBytes.{Appends};
ghost use Rattle.dcel_output.specs.Lines.{edge_line, lines_of, nearest_line, neighbor_line, triangle_line, vertex_line};
ghost use Rattle.dcel_output.specs.Numbering.{edges_numbered, hull_numbered, triangles_numbered};
ghost use Rattle.delaunay.specs.Texts.{IsListed, IsStated, across_each, shown, shown_across, shown_edges, text_asked, text_of};

use crate::arguments::Output;
use crate::counts::Count;
use crate::listing::{shown_edges, shown_neighbors, shown_triangles};
use crate::measuring::write_measures;
use crate::view::{View, count_shown};
use crate::voronoi::write_voronoi;
use crate::words::write_words;
use dcel_delaunay::{EdgeMesh, Triangle};
use spade_dcel::iterators::HullIterator;
use std::alloc::Global;
use std::io::{self, Write};

/// Writes what is asked for of a triangulation, and then the numbers of nearest points.
pub fn write_all<W: Write, UE>(
    alloc: Global,
    writer: &mut W,
    output: Option<Output>,
    view: &View<'_, UE>,
    nearest: &[Option<u32>],
) -> io::Result<()>
    ensures { OnOk result (IsStated output → Appends (W.contents writer.old) (W.contents writer.new)
        (text_asked output view.now.mesh.now view.now.numbers.now (option_copied view.now.inside) ++ lines_of nearest_line nearest.now)) }
{
    match output {
        Some(output) => write_both(alloc, writer, output, view, nearest),
        None => dcel_output::write_nearest(writer, nearest),
    }
}

/// Writes what is asked for, and the numbers of nearest points below it.
fn write_both<W: Write, UE>(
    alloc: Global,
    writer: &mut W,
    output: Output,
    view: &View<'_, UE>,
    nearest: &[Option<u32>],
) -> io::Result<()>
    ensures { OnOk result (IsListed output → Appends (W.contents writer.old) (W.contents writer.new)
        (text_of output view.now.mesh.now view.now.numbers.now (option_copied view.now.inside) ++ lines_of nearest_line nearest.now)) }
{
    write_output(alloc, writer, output, view)?;
    dcel_output::write_nearest(writer, nearest)
}

/// Writes what is asked for.
pub fn write_output<W: Write, UE>(
    alloc: Global,
    writer: &mut W,
    output: Output,
    view: &View<'_, UE>,
) -> io::Result<()>
    ensures { OnOk result (IsListed output → Appends (W.contents writer.old) (W.contents writer.new)
        (text_of output view.now.mesh.now view.now.numbers.now (option_copied view.now.inside))) }
{
    match output {
        Output::Triangles => write_triangles(alloc, writer, view),
        Output::Neighbors => write_neighbors(alloc, writer, view),
        Output::Edges => write_edges(alloc, writer, view),
        Output::Hull => write_hull(alloc, writer, view),
        Output::Stats => write_stats(writer, view),
        Output::Off => write_off(alloc, writer, view),
        Output::Obj => write_obj(alloc, writer, view),
        Output::Points => write_coordinates(writer, view),
        Output::Words => write_words(alloc, writer, view),
        Output::Voronoi => write_voronoi(writer, view),
    }
}

/// Writes the corners of each triangle, counterclockwise, the least number first.
fn write_triangles<W: Write, UE>(
    alloc: Global,
    writer: &mut W,
    view: &View<'_, UE>,
) -> io::Result<()>
    ensures { OnOk result (Appends (W.contents writer.old) (W.contents writer.new) (lines_of triangle_line (shown (option_copied view.now.inside) (triangles_numbered view.now.mesh.now view.now.numbers.now)))) }
{
    let triangles = shown_triangles(alloc, view)?;
    dcel_output::write_triangles(writer, &triangles)
}

/// Writes for each triangle which one lies across from each corner, in the order of the corners.
/// Triangles are numbered from 0 in the order in which they are written, and -1 is none.
fn write_neighbors<W: Write, UE>(
    alloc: Global,
    writer: &mut W,
    view: &View<'_, UE>,
) -> io::Result<()>
    ensures { OnOk result (Appends (W.contents writer.old) (W.contents writer.new) (lines_of neighbor_line
        (zip (shown (option_copied view.now.inside) (triangles_numbered view.now.mesh.now view.now.numbers.now)) (shown_across (option_copied view.now.inside) (across_each view.now.mesh.now))))) }
{
    let triangles = shown_triangles(alloc, view)?;
    let neighbors = shown_neighbors(alloc, view)?;
    dcel_output::write_neighbors(writer, &triangles, &neighbors)
}

/// Writes the ends of each edge, the lesser number first.
fn write_edges<W: Write, UE>(alloc: Global, writer: &mut W, view: &View<'_, UE>) -> io::Result<()>
    ensures { OnOk result (Appends (W.contents writer.old) (W.contents writer.new) (lines_of edge_line (shown_edges (option_copied view.now.inside) (edges_numbered view.now.mesh.now view.now.numbers.now)))) }
{
    let edges = shown_edges(alloc, view)?;
    dcel_output::write_edges(writer, &edges)
}

/// Writes the points on the hull, counterclockwise. Along a line it goes there and back.
fn write_hull<W: Write, UE>(alloc: Global, writer: &mut W, view: &View<'_, UE>) -> io::Result<()>
    ensures { OnOk result (Appends (W.contents writer.old) (W.contents writer.new) (lines_of vertex_line (hull_numbered view.now.mesh.now view.now.numbers.now))) }
{
    let hull = dcel_output::numbered_hull(alloc, view.mesh, view.numbers)?;
    dcel_output::write_vertices(writer, &hull)
}

/// Writes how many there are of each kind.
fn write_stats<UE>(writer: &mut impl Write, view: &View<'_, UE>) -> io::Result<()> {
    let mesh = view.mesh;
    let counts = [
        counted(view.points.len(), "point", "points"),
        counted(mesh.num_vertices(), "vertex", "vertices"),
        counted(count_edges(view), "edge", "edges"),
        counted(count_triangles(view), "triangle", "triangles"),
        counted(
            hull_size(mesh),
            "vertex on the hull",
            "vertices on the hull",
        ),
    ];
    for count in counts.iter() {
        writeln!(writer, "{count}")?;
    }
    write_marked(writer, view)
}

/// Returns so many things.
fn counted<'a>(count: usize, one: &'a str, many: &'a str) -> Count<'a> {
    Count { count, one, many }
}

/// Writes how many edges are marked, if some may be, and what is measured, if something is.
fn write_marked<UE>(writer: &mut impl Write, view: &View<'_, UE>) -> io::Result<()> {
    if let Some(marks) = view.is_marked {
        let count = counted(count_shown(marks), "constraint edge", "constraint edges");
        writeln!(writer, "{count}")?;
    }
    if view.is_measured {
        return write_measures(writer, view);
    }
    Ok(())
}

/// Counts the edges that are shown.
fn count_edges<UE>(view: &View<'_, UE>) -> usize {
    match view.inside {
        Some(inside) => count_shown(&inside.edges),
        None => view.mesh.num_undirected_edges(),
    }
}

/// Counts the triangles that are shown.
fn count_triangles<UE>(view: &View<'_, UE>) -> usize {
    match view.inside {
        Some(inside) => count_shown(&inside.triangles),
        None => view.mesh.num_faces() - 1,
    }
}

/// Counts the vertices on the hull: all that there are, if they stand on one line.
fn hull_size<UE>(mesh: &EdgeMesh<UE>) -> usize {
    if mesh.num_faces() == 1 {
        mesh.num_vertices()
    } else {
        HullIterator::new(mesh).count()
    }
}

/// Writes the points and triangles in the Object File Format. Points keep their numbers, so those
/// that equal an earlier one belong to no triangle.
fn write_off<UE>(alloc: Global, writer: &mut impl Write, view: &View<'_, UE>) -> io::Result<()> {
    let triangles = shown_triangles(alloc, view)?;
    writeln!(writer, "OFF")?;
    writeln!(writer, "{} {} 0", view.points.len(), triangles.len())?;
    write_points(writer, view, "")?;
    write_corners(writer, &triangles, "3 ", 0)
}

/// Writes them as OBJ, which counts points from 1.
fn write_obj<UE>(alloc: Global, writer: &mut impl Write, view: &View<'_, UE>) -> io::Result<()> {
    let triangles = shown_triangles(alloc, view)?;
    write_points(writer, view, "v ")?;
    write_corners(writer, &triangles, "f ", 1)
}

/// Writes the coordinates of each point.
fn write_coordinates<UE>(writer: &mut impl Write, view: &View<'_, UE>) -> io::Result<()> {
    for point in view.points {
        writeln!(writer, "{}", view.unit.shown(*point))?;
    }
    Ok(())
}

/// Writes the coordinates of each point, and 0 as the third one, behind some words.
fn write_points<UE>(writer: &mut impl Write, view: &View<'_, UE>, before: &str) -> io::Result<()> {
    for point in view.points {
        writeln!(writer, "{before}{} 0", view.unit.shown(*point))?;
    }
    Ok(())
}

/// Writes the corners of each triangle, the least number first, behind some words. Points are counted
/// from a number on.
fn write_corners(
    writer: &mut impl Write,
    triangles: &[Triangle],
    before: &str,
    first: u64,
) -> io::Result<()> {
    for triangle in triangles {
        let [a, b, c] = dcel_output::corners(*triangle).map(|corner| (corner as u64).saturating_add(
            first,
        ));
        writeln!(writer, "{before}{a} {b} {c}")?;
    }
    Ok(())
}
