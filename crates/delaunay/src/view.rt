//! What is written and drawn of a triangulation.

ghost use Rattle.std.specs.Prelude.{◌≡◌};
ghost use Rattle.dcel_maps.specs.Removals.{Closed};

use crate::unit::Unit;
use dcel_delaunay::{EdgeMesh, Point};
use std::io;

/// What is written and drawn: a mesh whose edges have data of some type, or some of its triangles.
#[derive(Drop)]
pub struct View<'a, UE> {
    /// The mesh.
    pub mesh: &'a EdgeMesh<UE>,
    /// The number of the point at each vertex.
    pub numbers: &'a [u32],
    /// The points, equal ones included.
    pub points: &'a [Point],
    /// What their coordinates stand for.
    pub unit: Unit,
    /// Which edges are marked, if some may be.
    pub is_marked: Option<&'a [bool]>,
    /// What is inside an outline, if nothing else is shown.
    pub inside: Option<&'a Inside>,
    /// Whether angles and areas belong to its counts.
    pub is_measured: bool,
    ghost closed: { mesh.now.shape.removal ≡ Closed },
}

/// What is inside an outline.
#[derive(Drop)]
pub struct Inside {
    /// Which triangles are.
    pub triangles: Vec<bool>,
    /// Which edges have one of these triangles on a side.
    pub edges: Vec<bool>,
}

impl<'a, UE> View<'a, UE> {
    /// Returns the number of the point at the vertex of this number. It fails if none stands there.
    pub fn number(&self, vertex: usize) -> io::Result<usize> {
        match self.numbers.get(vertex) {
            Some(number) => Ok(*number as usize),
            None => Err(io::Error::other("a vertex has no point")),
        }
    }

    /// Returns whether an inner face is shown. All are if there is no outline.
    pub fn shows_face(&self, face: usize) -> bool {
        match self.inside {
            Some(inside) => inside.triangles.get(face.saturating_sub(1)) == Some(&true),
            None => true,
        }
    }

    /// Returns whether an edge is shown. All are if all triangles are.
    pub fn shows_edge(&self, edge: usize) -> bool {
        match self.inside {
            Some(inside) => inside.edges.get(edge) == Some(&true),
            None => true,
        }
    }
}

/// Counts what is shown.
pub fn count_shown(is_shown: &[bool]) -> usize {
    is_shown.iter().filter(|is_shown| **is_shown).count()
}
