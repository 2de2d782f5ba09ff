//! Where places are.

use crate::arguments::Arguments;
use crate::drawn::Drawn;
use crate::fault::{Fault, Wrong};
use crate::task::Task;
use crate::timing::tell_time;
use crate::triangulating::triangulate;
use dcel_delaunay::{InsertionError, Mesh, PositionInTriangulation};
use dcel_programs::Progress;
use spade_dcel::handles::FixedDirectedEdgeHandle;
use std::io::{self, Write};
use std::rt::Clock;
use std::time::Instant;

/// Triangulates the points of a task, and writes where each of its places is.
pub fn locate(
    rt: &(impl Clock + Eprint + AllocGlobal),
    writer: &mut impl Write,
    progress: Progress,
    arguments: &Arguments,
    task: &Task,
) -> Result<(), Fault> {
    let drawn = triangulate(rt, progress, arguments, task)?;
    write_places(rt, writer, arguments, task, &drawn)
}

/// Writes where each place of a task is, and tells how long it took to find that.
fn write_places(
    rt: &(impl Clock + Eprint + AllocGlobal),
    writer: &mut impl Write,
    arguments: &Arguments,
    task: &Task,
    drawn: &Drawn,
) -> Result<(), Fault> {
    let start = Instant::now(rt)?;
    if !drawn.triangulation.is_whole() {
        return Err(Fault::Input(Wrong::Insertion(InsertionError::Unfinished)));
    }
    let positions = drawn.triangulation.locate_all(rt.alloc(), &task.places)?;
    tell_time(rt, arguments, start, " to locate the places")?;
    match write_positions(writer, drawn, &positions) {
        Ok(()) => Ok(()),
        Err(error) => Err(Fault::Output(error)),
    }
}

/// Writes a line for each position.
fn write_positions(
    writer: &mut impl Write,
    drawn: &Drawn,
    positions: &[PositionInTriangulation],
) -> io::Result<()> {
    for position in positions {
        write_position(writer, drawn, *position)?;
    }
    Ok(())
}

/// Writes the line of a position: its name, and by numbers the triangle, in the order in which they
/// are written, or the points.
fn write_position(
    writer: &mut impl Write,
    drawn: &Drawn,
    position: PositionInTriangulation,
) -> io::Result<()> {
    match position {
        PositionInTriangulation::OnFace(face) => {
            writeln!(writer, "OnFace {}", face.index().saturating_sub(1))
        }
        PositionInTriangulation::OnEdge(edge) => {
            let (from, to) = ends(drawn, edge)?;
            writeln!(writer, "OnEdge {} {}", from.min(to), from.max(to))
        }
        PositionInTriangulation::OnVertex(vertex) => {
            writeln!(writer, "OnVertex {}", number(drawn, vertex.index())?)
        }
        PositionInTriangulation::OutsideOfConvexHull(edge) => {
            let (from, to) = ends(drawn, edge)?;
            writeln!(writer, "OutsideOfConvexHull {from} {to}")
        }
        PositionInTriangulation::BeyondLine(vertex) => {
            writeln!(writer, "BeyondLine {}", number(drawn, vertex.index())?)
        }
        PositionInTriangulation::NoTriangulation => writeln!(writer, "NoTriangulation"),
    }
}

/// Returns the numbers of the points at the ends of a half edge.
fn ends(drawn: &Drawn, edge: FixedDirectedEdgeHandle) -> io::Result<(u32, u32)> {
    let mesh: &Mesh = drawn.triangulation.dcel();
    match mesh.get_directed_edge(edge) {
        Some(edge) => Ok((
            number(drawn, edge.from().index())?,
            number(drawn, edge.to().index())?,
        )),
        None => Err(io::Error::other("there is no such edge")),
    }
}

/// Returns the number of the point at the vertex of this number.
fn number(drawn: &Drawn, vertex: usize) -> io::Result<u32> {
    match drawn.names.numbers.get(vertex) {
        Some(number) => Ok(*number),
        None => Err(io::Error::other("a vertex has no point")),
    }
}
