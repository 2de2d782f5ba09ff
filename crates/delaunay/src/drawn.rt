//! A triangulation as it is written and drawn.

ghost use Rattle.std.specs.Prelude.{◌≡◌, IfOk, List, None, Some, map};
ghost use Rattle.dcel_planar.specs.Outcomes.{IsWholeMesh};
ghost use Rattle.dcel_delaunay.specs.Bulk.{StandAt};
ghost use Rattle.dcel_delaunay.specs.Triangulated.{mesh_in};
ghost use Rattle.dcel_predicates.specs.declared.point.Point.{Point};
ghost use Rattle.dcel_output.specs.Numbering.{NumbersVertices};
ghost use Rattle.delaunay.specs.Answers.{HasConstraints, HasVertices, IsDrawn};

use crate::arguments::Arguments;
use crate::fault::Fault;
use crate::task::Task;
use crate::view::View;
use dcel_delaunay::Triangulation;
use dcel_output::Triangulated;
use spade_dcel::handles::FixedVertexHandle;
use std::alloc::{AllocError, Global};

/// A triangulation of the points that are left, and which of them are at its vertices.
#[derive(Drop)]
pub struct Drawn {
    /// The triangulation.
    pub triangulation: Triangulation,
    /// Which points are at its vertices.
    pub names: Names,
}

/// Which points are at the vertices of a triangulation.
#[derive(Drop)]
pub struct Names {
    /// The least number of a point that is left at each vertex.
    pub numbers: Vec<u32>,
    /// For each point the vertex at which it stands, if it or one that equals it is left. It has none
    /// where nothing asks for them.
    pub vertices: Vec<Option<FixedVertexHandle>>,
}

impl Drawn {
    /// Returns what is written and drawn of it.
    pub fn view<'a>(&'a self, task: &'a Task) -> View<'a, ()>
        ensures mesh { result.mesh.now ≡ mesh_in self.now.triangulation }
        ensures numbers { result.numbers.now ≡ self.now.names.numbers.items }
        ensures all { result.inside ≡ None }
    {
        View {
            mesh: self.triangulation.dcel(),
            numbers: &self.names.numbers,
            points: &task.points,
            unit: task.unit,
            is_marked: None,
            inside: None,
            is_measured: false,
        }
    }
}

/// Returns what is drawn where all points are left.
pub fn all_there(
    alloc: Global,
    arguments: &Arguments,
    inserted: Triangulated,
) -> Result<Drawn, Fault>
    ensures drawn { IfOk result (λ drawn. (points : List Point) → IsWholeMesh inserted.triangulation.planar
        → NumbersVertices (mesh_in inserted.triangulation) points inserted.numbers.items → IsDrawn points drawn) }
    ensures vertices { IfOk result (λ drawn. (points : List Point) → StandAt (mesh_in inserted.triangulation) points inserted.vertices.items
        → HasConstraints arguments.now → HasVertices points drawn) }
{
    let vertices = vertices_asked_for(alloc, arguments, &inserted.vertices)?;
    Ok(Drawn {
        triangulation: inserted.triangulation,
        names: Names {
            numbers: inserted.numbers,
            vertices,
        },
    })
}

/// Returns the vertex of each point, if constraints ask for them.
fn vertices_asked_for(
    alloc: Global,
    arguments: &Arguments,
    vertices: &[FixedVertexHandle],
) -> Result<Vec<Option<FixedVertexHandle>>, AllocError>
    ensures { IfOk result (λ all. HasConstraints arguments.now → all.items ≡ map Some vertices.now) }
{
    if arguments.has_constraints() {
        each_there(alloc, vertices)
    } else {
        Ok(Vec::new(alloc))
    }
}

/// Returns that each of these vertices is there.
fn each_there(
    alloc: Global,
    vertices: &[FixedVertexHandle],
) -> Result<Vec<Option<FixedVertexHandle>>, AllocError>
    ensures { IfOk result (λ all. all.items ≡ map Some vertices.now) }
{
    let mut all = Vec::with_capacity(alloc, vertices.len())?;
    for vertex in vertices {
        all.push(Some(*vertex))?;
    }
    Ok(all)
}
