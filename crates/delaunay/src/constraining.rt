//! Constraints put into a triangulation.

ghost use Rattle.std.specs.Prelude.{◌≡◌, IfOk, List, None, map, option_copied};
ghost use Rattle.dcel_constrained.specs.Constrained.{marked_mesh};
ghost use Rattle.dcel_delaunay.specs.Bulk.{AnswersEach};
ghost use Rattle.dcel_delaunay.specs.Triangulated.{mesh_in};
ghost use Rattle.dcel_output.specs.Constraining.{AreConstrainedTriangles, StandsThere};
ghost use Rattle.dcel_output.specs.Numbering.{NumbersVertices};
ghost use Rattle.dcel_predicates.specs.declared.point.Point.{Point};
ghost use Rattle.delaunay.specs.Outlined.{IsInsideOf};
ghost use Rattle.delaunay.specs.Segments.{segment_of, segments_of};

use crate::arguments::Arguments;
use crate::drawn::{Drawn, Names};
use crate::fault::{Fault, Wrong};
use crate::outlining::inside;
use crate::quoting::Sentence;
use crate::reading::in_file;
use crate::segments::segments_of;
use crate::task::Task;
use crate::view::{Inside, View};
use dcel_constrained::ConstrainedTriangulation;
use dcel_delaunay::{InsertionError, Triangulation};
use dcel_output::{SegmentError, constrain};
use dcel_regions::Mark;
use std::alloc::{AllocError, Global};

/// A constrained triangulation of points.
#[derive(Drop)]
pub struct Constrained {
    /// The triangulation.
    triangulation: ConstrainedTriangulation,
    /// Which points are at its vertices.
    names: Names,
    /// Which of its edges are marked.
    is_marked: Vec<bool>,
    /// What is inside the outline, if there is one.
    inside: Option<Inside>,
}

impl Constrained {
    /// Puts the constraints into a triangulation, and then the sides of the outline.
    pub fn of(
        alloc: Global,
        arguments: &Arguments,
        task: &Task,
        drawn: Drawn,
    ) -> Result<Self, Fault>
        ensures numbers { IfOk result (λ c. c.names.numbers.items ≡ drawn.names.numbers.items) }
        ensures triangles { IfOk result (λ c. (points : List Point) → NumbersVertices (mesh_in drawn.triangulation) points drawn.names.numbers.items
            → AnswersEach (StandsThere (mesh_in drawn.triangulation)) points drawn.names.vertices.items
            → AreConstrainedTriangles points drawn.names.vertices.items (segments_of task.now.constraints.items task.now.outline.items) (marked_mesh c.triangulation) drawn.names.numbers.items) }
        ensures all { IfOk result (λ c. arguments.now.outline ≡ None → c.inside ≡ None) }
        ensures inside { IfOk result (λ c. ¬ (arguments.now.outline ≡ None)
            → IsInsideOf (marked_mesh c.triangulation) drawn.names.vertices.items (map segment_of task.now.outline.items) c.inside) }
    {
        let names = drawn.names;
        let triangulation = triangulation_of(alloc, arguments, task, drawn.triangulation, &names)?;
        let inside = inside_of(alloc, arguments, task, &names, &triangulation)?;
        let is_marked = marks(alloc, &triangulation)?;
        Ok(Constrained {
            triangulation,
            names,
            is_marked,
            inside,
        })
    }

    /// Returns what is written and drawn of it.
    pub fn view<'a>(&'a self, task: &'a Task) -> View<'a, Mark>
        ensures mesh { result.mesh.now ≡ marked_mesh self.now.triangulation }
        ensures numbers { result.numbers.now ≡ self.now.names.numbers.items }
        ensures inside { option_copied result.inside ≡ self.now.inside }
    {
        View {
            mesh: self.triangulation.dcel(),
            numbers: &self.names.numbers,
            points: &task.points,
            unit: task.unit,
            is_marked: Some(&self.is_marked),
            inside: self.inside.as_ref(),
            is_measured: false,
        }
    }
}

/// Makes constraints of the segments that the files join.
pub fn triangulation_of(
    alloc: Global,
    arguments: &Arguments,
    task: &Task,
    triangulation: Triangulation,
    names: &Names,
) -> Result<ConstrainedTriangulation, Fault>
    ensures { IfOk result (λ t. (points : List Point) → NumbersVertices (mesh_in triangulation) points names.now.numbers.items
        → AnswersEach (StandsThere (mesh_in triangulation)) points names.now.vertices.items
        → AreConstrainedTriangles points names.now.vertices.items (segments_of task.now.constraints.items task.now.outline.items) (marked_mesh t) names.now.numbers.items) }
{
    // It is whole unless memory ran out.
    if !triangulation.is_whole() {
        return Err(Fault::Input(Wrong::Insertion(InsertionError::Unfinished)));
    }
    let segments = segments_of(alloc, &task.constraints, &task.outline)?;
    match constrain(alloc, triangulation, &names.vertices, &segments) {
        Ok(triangulation) => Ok(triangulation),
        Err(error) => Err(fault_of(alloc, arguments, task, error)),
    }
}

/// Returns the fault for segments that can't all be constraints.
fn fault_of(alloc: Global, arguments: &Arguments, task: &Task, error: SegmentError) -> Fault {
    match error {
        SegmentError::NoVertex(number) => {
            at_line(
                alloc,
                arguments,
                task,
                number,
                Wrong::Said(Sentence::RemovedPoint),
            )
        }
        SegmentError::OneVertex(number) => at_line(
            alloc,
            arguments,
            task,
            number,
            Wrong::Said(Sentence::OnePoint),
        ),
        SegmentError::Crosses(number) => at_line(
            alloc,
            arguments,
            task,
            number,
            Wrong::Said(Sentence::Crossing),
        ),
        SegmentError::OutOfMemory => Fault::OutOfMemory(AllocError),
    }
}

/// Returns what is wrong with the line that joins the segment of this number: constraints come
/// first, then sides of the outline.
pub fn at_line(
    alloc: Global,
    arguments: &Arguments,
    task: &Task,
    number: usize,
    wrong: Wrong,
) -> Fault {
    if let Some(join) = task.constraints.get(number) {
        let line = join.line;
        return in_file(alloc, arguments.constraints, Fault::Line { line, wrong });
    }
    match task
        .outline
        .get(number.saturating_sub(task.constraints.len()))
    {
        Some(join) => {
            let line = join.line;
            in_file(alloc, arguments.outline, Fault::Line { line, wrong })
        }
        None => Fault::Input(wrong),
    }
}

/// Returns what is inside the outline, if there is one.
pub fn inside_of(
    alloc: Global,
    arguments: &Arguments,
    task: &Task,
    names: &Names,
    triangulation: &ConstrainedTriangulation,
) -> Result<Option<Inside>, Fault>
    ensures all { IfOk result (λ inside. arguments.now.outline ≡ None → inside ≡ None) }
    ensures inside { IfOk result (λ inside. ¬ (arguments.now.outline ≡ None)
        → IsInsideOf (marked_mesh triangulation.now) names.now.vertices.items (map segment_of task.now.outline.items) inside) }
{
    match arguments.outline {
        None => Ok(None),
        Some(path) => match inside(alloc, triangulation.dcel(), &names.vertices, &task.outline) {
            Ok(inside) => Ok(Some(inside)),
            Err(fault) => Err(in_file(alloc, Some(path), fault)),
        },
    }
}

/// Tells of each edge whether it is marked.
pub fn marks(
    alloc: Global,
    triangulation: &ConstrainedTriangulation,
) -> Result<Vec<bool>, AllocError> {
    let mut marks = Vec::new(alloc);
    for edge in triangulation.dcel().live_undirected_edges() {
        marks.push(triangulation.is_constraint(edge.fix()))?;
    }
    Ok(marks)
}
