//! How much a surface has of what.

use crate::meshing::Solid;
use dcel_programs::Text;
use std::alloc::{AllocError, Global};
use std::fmt::{self, Formatter};
use std::io::{self, Write};

/// How much a surface has of what. Borders and the genus are those of a surface on which each side
/// belongs to one face, and the corners of each vertex are one turn.
#[derive(Clone, Copy, Drop)]
pub struct Stats {
    /// How many vertices there are, those without a face too.
    pub vertices: usize,
    /// How many edges.
    pub edges: usize,
    /// How many faces, the outer one not among them unless the surface is closed.
    pub faces: usize,
    /// How many connected parts, vertices without an edge left aside.
    pub parts: usize,
    /// How many loops of sides that no face lies beyond.
    pub borders: usize,
    /// How many handles, those of all parts together.
    pub genus: usize,
}

impl fmt::Display for Stats {
    /// Writes what decides whether the surface can be a mesh.
    fn fmt<W: fmt::Write>(&self, f: &mut Formatter<W>) -> fmt::Result {
        write!(
            f,
            "{} part{}, {} border{}, genus {}",
            self.parts,
            plural(self.parts),
            self.borders,
            plural(self.borders),
            self.genus
        )
    }
}

fn plural(count: usize) -> &'static str {
    if count == 1 { "" } else { "s" }
}

impl Text for Stats {
    fn write_to(&self, _: Global, writer: &mut impl Write) -> io::Result<()> {
        let rows = [
            ("vertices", self.vertices),
            ("edges", self.edges),
            ("faces", self.faces),
            ("parts", self.parts),
            ("borders", self.borders),
            ("genus", self.genus),
        ];
        for (name, count) in rows {
            writeln!(writer, "{name} {count}")?;
        }
        Ok(())
    }
}

impl Stats {
    /// Tells it of a mesh, which lies on a sphere.
    pub fn of_mesh(solid: &Solid) -> Stats {
        let has_edges = solid.mesh.num_undirected_edges() > 0;
        let parts = if has_edges { 1 } else { 0 };
        Stats {
            vertices: solid.mesh.num_vertices(),
            edges: solid.mesh.num_undirected_edges(),
            faces: solid.num_faces(),
            parts,
            borders: if solid.outer.is_some() { 0 } else { parts },
            genus: 0,
        }
    }

    /// Tells it of faces by their corners, which are vertices.
    pub fn of_faces(
        alloc: Global,
        vertices: usize,
        faces: &[Vec<u32>],
    ) -> Result<Stats, AllocError> {
        let mut sides = Vec::new(alloc);
        list_sides(faces, &mut sides)?;
        sides.sort()?;
        Stats::of_sides(alloc, vertices, faces.len(), &sides)
    }

    /// Tells it of so many faces by their sides, in order.
    fn of_sides(
        alloc: Global,
        vertices: usize,
        faces: usize,
        sides: &[(u32, u32)],
    ) -> Result<Stats, AllocError> {
        let edges = count_edges(alloc, sides)?;
        let borders = count_borders(alloc, vertices, sides)?;
        let (used, parts) = count_parts(alloc, vertices, sides)?;
        // Vertices with a face, minus edges, plus faces, are twice the parts, minus the borders,
        // minus twice the genus.
        let above = edges.saturating_add(parts.saturating_mul(2));
        let below = used.saturating_add(faces).saturating_add(borders);
        Ok(Stats {
            vertices,
            edges,
            faces,
            parts,
            borders,
            genus: above.saturating_sub(below) / 2,
        })
    }
}

/// Lists from where to where the sides of faces lead.
pub fn list_sides(faces: &[Vec<u32>], sides: &mut Vec<(u32, u32)>) -> Result<(), AllocError> {
    for corners in faces {
        let behind = corners.iter().skip(1).chain(corners.first());
        for (from, to) in corners.iter().zip(behind) {
            sides.push((*from, *to))?;
        }
    }
    Ok(())
}

/// Counts the edges that sides belong to.
fn count_edges(alloc: Global, sides: &[(u32, u32)]) -> Result<usize, AllocError> {
    let mut edges = Vec::new(alloc);
    for (from, to) in sides {
        edges.push((*from.min(to), *from.max(to)))?;
    }
    edges.sort()?;
    edges.dedup();
    Ok(edges.len())
}

/// Counts the loops of sides that no other one leads back from.
fn count_borders(
    alloc: Global,
    vertices: usize,
    sides: &[(u32, u32)],
) -> Result<usize, AllocError> {
    let mut before = vec![in alloc; None; vertices]?;
    note_borders(sides, &mut before);
    let mut count: usize = 0;
    for vertex in 0..vertices {
        if take_loop(vertex, &mut before) {
            count = count.saturating_add(1);
        }
    }
    Ok(count)
}

/// Notes at each vertex the start of a side to it that no other one leads back from.
fn note_borders(sides: &[(u32, u32)], before: &mut [Option<u32>]) {
    for (from, to) in sides {
        if sides.binary_search(&(*to, *from)).is_err() {
            if let Some(side) = before.get_mut(*to as usize) {
                *side = Some(*from);
            }
        }
    }
}

/// Takes out the loop that leads from a vertex, if there is one.
fn take_loop(vertex: usize, before: &mut [Option<u32>]) -> bool {
    let mut at = vertex;
    for steps in 0..before.len() {
        match before.get_mut(at) {
            Some(side) => match side.take() {
                Some(next) => at = next as usize,
                None => return steps > 0,
            },
            None => return steps > 0,
        }
    }
    true
}

/// Counts the vertices that sides start at, and the parts that sides connect them to.
fn count_parts(
    alloc: Global,
    vertices: usize,
    sides: &[(u32, u32)],
) -> Result<(usize, usize), AllocError> {
    let mut part_of = vec![in alloc; None; vertices]?;
    number_parts(alloc, sides, &mut part_of)
}

/// Notes of each vertex that sides, in order, start at, in which part these connect it to others,
/// and counts the vertices and the parts. Parts are numbered in the order of their least vertices.
pub fn number_parts(
    alloc: Global,
    sides: &[(u32, u32)],
    part_of: &mut [Option<usize>],
) -> Result<(usize, usize), AllocError> {
    let (mut used, mut parts): (usize, usize) = (0, 0);
    for (from, _) in sides {
        if is_reached(part_of, *from) {
            continue;
        }
        used = used.saturating_add(reach(alloc, *from, sides, parts, part_of)?);
        parts = parts.saturating_add(1);
    }
    Ok((used, parts))
}

/// Returns whether a vertex has a part; what is no vertex counts as such.
fn is_reached(part_of: &[Option<usize>], vertex: u32) -> bool {
    match part_of.get(vertex as usize) {
        Some(part) => part.is_some(),
        None => true,
    }
}

/// Notes a part at the vertices that sides lead to from this one, and counts them.
fn reach(
    alloc: Global,
    first: u32,
    sides: &[(u32, u32)],
    part: usize,
    part_of: &mut [Option<usize>],
) -> Result<usize, AllocError> {
    let mut found = vec![in alloc; first]?;
    note(first, part, part_of);
    for place in 0..part_of.len() {
        let Some(vertex) = found.get(place).copied() else {
            break;
        };
        let start = sides.partition_point(|side| side.0 < vertex);
        for (from, to) in sides.get(start..).unwrap_or(sides) {
            if *from != vertex {
                break;
            }
            if !is_reached(part_of, *to) {
                note(*to, part, part_of);
                found.push(*to)?;
            }
        }
    }
    Ok(found.len())
}

fn note(vertex: u32, part: usize, part_of: &mut [Option<usize>]) {
    if let Some(known) = part_of.get_mut(vertex as usize) {
        *known = Some(part);
    }
}
