//! Meshes as files.

use crate::arguments::Format;
use crate::meshing::{Mesh, Solid, list_corners, list_turn, list_word};
use dcel_programs::Text;
use std::alloc::Global;
use std::io::{self, Write};

/// A mesh in a format.
#[derive(Clone, Copy)]
pub struct Written<'a> {
    /// The format.
    pub format: Format,
    /// The mesh.
    pub solid: &'a Solid,
}

impl<'a> Text for Written<'a> {
    fn write_to(&self, alloc: Global, writer: &mut impl Write) -> io::Result<()> {
        match self.format {
            Format::Off => write_off(alloc, writer, self.solid),
            Format::Obj => write_obj(alloc, writer, self.solid),
            Format::Ply => write_ply(alloc, writer, self.solid),
            Format::Words => write_words(alloc, writer, self.solid),
        }
    }
}

/// Writes the mesh in the Object File Format.
fn write_off(alloc: Global, writer: &mut impl Write, solid: &Solid) -> io::Result<()> {
    let (vertices, faces) = (solid.mesh.num_vertices(), solid.num_faces());
    writeln!(writer, "OFF\n{vertices} {faces} 0")?;
    write_elements(alloc, writer, solid)
}

/// Writes the mesh as PLY.
fn write_ply(alloc: Global, writer: &mut impl Write, solid: &Solid) -> io::Result<()> {
    let (vertices, faces) = (solid.mesh.num_vertices(), solid.num_faces());
    writeln!(writer, "ply\nformat ascii 1.0\nelement vertex {vertices}")?;
    writeln!(
        writer,
        "property double x\nproperty double y\nproperty double z"
    )?;
    writeln!(
        writer,
        "element face {faces}\nproperty list int int vertex_indices\nend_header"
    )?;
    write_elements(alloc, writer, solid)
}

/// Writes a line for each vertex, and then one for each face.
fn write_elements(alloc: Global, writer: &mut impl Write, solid: &Solid) -> io::Result<()> {
    for vertex in solid.mesh.vertices() {
        writeln!(writer, "{}", vertex.data())?;
    }
    write_faces(alloc, writer, solid, Row::Counted)
}

/// Writes the mesh as OBJ, which counts vertices from 1.
fn write_obj(alloc: Global, writer: &mut impl Write, solid: &Solid) -> io::Result<()> {
    for vertex in solid.mesh.vertices() {
        writeln!(writer, "v {}", vertex.data())?;
    }
    write_faces(alloc, writer, solid, Row::Named)
}

/// How a line has a face.
#[derive(Clone, Copy)]
enum Row {
    /// How many corners it has, and these, from 0 on.
    Counted,
    /// The letter f, and the corners, from 1 on.
    Named,
}

/// Writes a line for each face.
fn write_faces(alloc: Global, writer: &mut impl Write, solid: &Solid, row: Row) -> io::Result<()> {
    let mut corners = Vec::new(alloc);
    for place in 0..solid.num_faces() {
        if let Some(face) = solid.face(place) {
            list_corners(face, &mut corners)?;
            write_row(writer, &corners, row)?;
        }
    }
    Ok(())
}

/// Writes the line of a face.
fn write_row(writer: &mut impl Write, corners: &[usize], row: Row) -> io::Result<()> {
    match row {
        Row::Counted => {
            write!(writer, "{}", corners.len())?;
            write_numbers(writer, corners, 0)
        }
        Row::Named => {
            write!(writer, "f")?;
            write_numbers(writer, corners, 1)
        }
    }
}

/// Writes the counts, the word of each face, and the half edges out of each vertex. If the outer
/// face is one of the surface, a last line has its place among the faces.
fn write_words(alloc: Global, writer: &mut impl Write, solid: &Solid) -> io::Result<()> {
    let mesh = &solid.mesh;
    writeln!(
        writer,
        "vertices {} edges {} faces {}",
        mesh.num_vertices(),
        mesh.num_undirected_edges(),
        mesh.num_faces()
    )?;
    write_rounds(alloc, writer, mesh)?;
    write_turns(alloc, writer, mesh)?;
    if let Some(place) = solid.outer {
        writeln!(writer, "closed {place}")?;
    }
    Ok(())
}

/// Writes the half edges round each face.
fn write_rounds(alloc: Global, writer: &mut impl Write, mesh: &Mesh) -> io::Result<()> {
    let mut halves = Vec::new(alloc);
    for face in mesh.live_faces() {
        write!(writer, "F{}", face.index())?;
        list_word(face, &mut halves)?;
        write_numbers(writer, &halves, 0)?;
    }
    Ok(())
}

/// Writes the half edges out of each vertex.
fn write_turns(alloc: Global, writer: &mut impl Write, mesh: &Mesh) -> io::Result<()> {
    let mut halves = Vec::new(alloc);
    for vertex in mesh.live_vertices() {
        write!(writer, "out")?;
        list_turn(vertex, &mut halves)?;
        write_numbers(writer, &halves, 0)?;
    }
    Ok(())
}

/// Writes these numbers, counted from `first` on, and ends the line.
fn write_numbers(writer: &mut impl Write, numbers: &[usize], first: usize) -> io::Result<()> {
    for number in numbers {
        write!(writer, " {}", number.saturating_add(first))?;
    }
    writeln!(writer)
}
