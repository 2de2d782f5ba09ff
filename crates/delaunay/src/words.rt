//! The words of half edges.

use crate::view::View;
use dcel_delaunay::Point;
use spade_dcel::handles::{FaceHandle, PossiblyOuterTag, VertexHandle};
use std::alloc::Global;
use std::io::{self, Write};

/// A face of the triangulation.
type Face<'a, UE> = FaceHandle<'a, PossiblyOuterTag, Point, (), UE, ()>;

/// A vertex of it.
type Vertex<'a, UE> = VertexHandle<'a, Point, (), UE, ()>;

/// Writes the counts, the half edges round each face by `next`, and those out of each point by
/// `ccw`, from the least on. A point that equals an earlier one is a vertex without edges.
///
/// Nothing is written before there is all memory that it takes.
pub fn write_words<UE>(
    alloc: Global,
    writer: &mut impl Write,
    view: &View<'_, UE>,
) -> io::Result<()> {
    let vertices = vertices_by_point(alloc, view)?;
    writeln!(
        writer,
        "vertices {} edges {} faces {}",
        view.points.len(),
        view.mesh.num_undirected_edges(),
        view.mesh.num_faces()
    )?;
    write_faces(writer, view)?;
    write_vertices(writer, &vertices)
}

/// Writes the half edges round each face.
fn write_faces<UE>(writer: &mut impl Write, view: &View<'_, UE>) -> io::Result<()> {
    for face in view.mesh.live_faces() {
        write!(writer, "F{}", face.index())?;
        write_round(writer, face)?;
        writeln!(writer)?;
    }
    Ok(())
}

/// Writes the half edges out of each of these vertices.
fn write_vertices<UE>(
    writer: &mut impl Write,
    vertices: &[Option<Vertex<'_, UE>>],
) -> io::Result<()> {
    for vertex in vertices {
        write!(writer, "out")?;
        if let Some(vertex) = vertex {
            write_turn(writer, *vertex)?;
        }
        writeln!(writer)?;
    }
    Ok(())
}

/// Returns for each point the vertex of which it has the least number.
fn vertices_by_point<'a, UE>(
    alloc: Global,
    view: &'a View<'_, UE>,
) -> io::Result<Vec<Option<Vertex<'a, UE>>>> {
    let mut vertices = vec![in alloc; None; view.points.len()]?;
    for vertex in view.mesh.vertices() {
        if let Some(place) = vertices.get_mut(view.number(vertex.index())?) {
            *place = Some(vertex);
        }
    }
    Ok(vertices)
}

/// Writes the half edges round a face, from the least on.
fn write_round<UE>(writer: &mut impl Write, face: Face<'_, UE>) -> io::Result<()> {
    let mut least = Least::NONE;
    for edge in face.directed_edges() {
        least.see(edge.index());
    }
    let before = face.directed_edges().take(least.place);
    for edge in face.directed_edges().skip(least.place).chain(before) {
        write!(writer, " {}", edge.index())?;
    }
    Ok(())
}

/// Writes the half edges out of a vertex, from the least on.
fn write_turn<UE>(writer: &mut impl Write, vertex: Vertex<'_, UE>) -> io::Result<()> {
    let mut least = Least::NONE;
    for edge in vertex.out_edges() {
        least.see(edge.index());
    }
    let before = vertex.out_edges().take(least.place);
    for edge in vertex.out_edges().skip(least.place).chain(before) {
        write!(writer, " {}", edge.index())?;
    }
    Ok(())
}

/// The least of some numbers.
#[derive(Clone, Copy)]
struct Least {
    /// It.
    number: usize,
    /// How many were before it.
    place: usize,
    /// How many there are.
    count: usize,
}

impl Least {
    /// That of none.
    const NONE: Least = Least {
        number: usize::MAX,
        place: 0,
        count: 0,
    };

    /// Sees another number.
    fn see(&mut self, number: usize) {
        if number < self.number {
            self.number = number;
            self.place = self.count;
        }
        self.count = self.count.saturating_add(1);
    }
}
