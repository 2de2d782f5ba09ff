//! Triangulations refined.

use crate::answering::write_drawn;
use crate::arguments::Arguments;
use crate::constraining::{inside_of, marks, triangulation_of};
use crate::counts::Added;
use crate::drawn::{Drawn, Names};
use crate::fault::{Fault, Wrong};
use crate::limits::Limits;
use crate::splitting::split_triangulation_of;
use crate::task::Task;
use crate::timing::tell_time;
use crate::triangulating::triangulate;
use crate::view::{Inside, View};
use dcel_constrained::{ConstrainedTriangulation, ConstraintError};
use dcel_delaunay::{InsertionError, Point, Triangulation, lists};
use dcel_planar::point_of;
use dcel_programs::Progress;
use dcel_refinement::{RefinementParameters, are_refined, refine_faces};
use dcel_regions::Mark;
use spade_dcel::handles::FixedVertexHandle;
use std::alloc::{AllocError, Global};
use std::io::Write;
use std::rt::{Clock, Files};
use std::time::Instant;

/// A constrained triangulation with the points that were added to it.
#[derive(Drop)]
struct Refinement {
    triangulation: ConstrainedTriangulation,
    /// The number of the point at each vertex.
    numbers: Vec<u32>,
    /// The points, and behind them those that were added.
    points: Vec<Point>,
    is_marked: Vec<bool>,
    inside: Inside,
    /// Whether it was refined.
    is_refined: bool,
    /// Whether each triangle inside is as asked.
    is_done: bool,
}

/// Splits constraints where they cross, refines the triangulation of a task's points, whichever is
/// asked for, and writes what is asked for of it. If a triangle isn't as asked in the end, it writes
/// what there is, and fails.
pub fn answer_refined<W: Write>(
    rt: &(impl Files + Clock + Print + Eprint + AllocGlobal),
    writer: &mut W,
    progress: Progress,
    arguments: &Arguments,
    task: &Task,
    limits: Option<Limits>,
) -> Result<(), Fault> {
    let drawn = triangulate(rt, progress, arguments, task)?;
    let refinement = refinement_of(rt, arguments, task, drawn, limits)?;
    write_refinement(rt, writer, arguments, task, &refinement)
}

/// Puts the constraints in, and then adds points.
fn refinement_of(
    rt: &(impl Clock + Eprint + AllocGlobal),
    arguments: &Arguments,
    task: &Task,
    drawn: Drawn,
    limits: Option<Limits>,
) -> Result<Refinement, Fault> {
    let names = drawn.names;
    let triangulation = laid_in_time(rt, arguments, task, drawn.triangulation, &names)?;
    Refinement::of(rt, arguments, task, &names, triangulation, limits)
}

/// Writes what is asked for, and reports how many points were added, or that some triangle isn't as
/// asked.
fn write_refinement<W: Write>(
    rt: &(impl Files + Print + Eprint + AllocGlobal),
    writer: &mut W,
    arguments: &Arguments,
    task: &Task,
    refinement: &Refinement,
) -> Result<(), Fault> {
    let added = Added(refinement.points.len().saturating_sub(task.points.len()));
    write_drawn(rt, writer, arguments, &refinement.view(task), &[])?;
    if !refinement.is_done {
        return Err(Fault::Input(Wrong::NotRefined(added)));
    }
    eprintln!(rt; "delaunay: {added}")?;
    Ok(())
}

impl Refinement {
    /// Refines a triangulation with the constraints of a task, if there are limits.
    fn of(
        rt: &(impl Clock + Eprint + AllocGlobal),
        arguments: &Arguments,
        task: &Task,
        names: &Names,
        triangulation: ConstrainedTriangulation,
        limits: Option<Limits>,
    ) -> Result<Self, Fault> {
        let mut triangulation = triangulation;
        match limits {
            None => Refinement::whole(rt.alloc(), arguments, task, names, triangulation),
            Some(limits) => {
                let parameters = limits.parameters(task.unit);
                refine_in_time(rt, arguments, task, names, &mut triangulation, &parameters)?;
                let mut whole = Refinement::whole(
                    rt.alloc(),
                    arguments,
                    task,
                    names,
                    triangulation,
                )?;
                let mesh = whole.triangulation.dcel();
                whole.is_refined = true;
                whole.is_done = are_refined(mesh, &whole.inside.triangles, &parameters);
                Ok(whole)
            }
        }
    }

    /// Numbers the points, and finds what is inside.
    fn whole(
        alloc: Global,
        arguments: &Arguments,
        task: &Task,
        names: &Names,
        triangulation: ConstrainedTriangulation,
    ) -> Result<Self, Fault> {
        let inside = inside(alloc, arguments, task, names, &triangulation)?;
        Ok(Refinement {
            numbers: numbers(alloc, task, names, &triangulation)?,
            points: points(alloc, task, names, &triangulation)?,
            is_marked: marks(alloc, &triangulation)?,
            triangulation,
            inside,
            is_refined: false,
            is_done: true,
        })
    }

    /// Returns what is written and drawn of it.
    fn view<'a>(&'a self, task: &'a Task) -> View<'a, Mark> {
        View {
            mesh: self.triangulation.dcel(),
            numbers: &self.numbers,
            points: &self.points,
            unit: task.unit,
            is_marked: Some(&self.is_marked),
            inside: Some(&self.inside),
            is_measured: self.is_refined,
        }
    }
}

/// Makes constraints of the segments that files join, and reports how long that took, if asked.
fn laid_in_time(
    rt: &(impl Clock + Eprint + AllocGlobal),
    arguments: &Arguments,
    task: &Task,
    triangulation: Triangulation,
    names: &Names,
) -> Result<ConstrainedTriangulation, Fault> {
    let start = Instant::now(rt)?;
    let triangulation = laid(rt.alloc(), arguments, task, triangulation, names)?;
    match tell_time(rt, arguments, start, " to put in constraints") {
        Ok(()) => Ok(triangulation),
        Err(fault) => Err(fault),
    }
}

/// Refines a triangulation, and reports how long that took, if asked.
fn refine_in_time(
    rt: &(impl Clock + Eprint + AllocGlobal),
    arguments: &Arguments,
    task: &Task,
    names: &Names,
    triangulation: &mut ConstrainedTriangulation,
    parameters: &RefinementParameters,
) -> Result<(), Fault> {
    let start = Instant::now(rt)?;
    refine(
        rt.alloc(),
        arguments,
        task,
        names,
        triangulation,
        parameters,
    )?;
    tell_time(rt, arguments, start, " to refine")
}

/// Makes constraints of the segments that files join.
fn laid(
    alloc: Global,
    arguments: &Arguments,
    task: &Task,
    triangulation: Triangulation,
    names: &Names,
) -> Result<ConstrainedTriangulation, Fault> {
    if arguments.splits_crossings {
        split_triangulation_of(alloc, arguments, task, triangulation, names)
    } else {
        triangulation_of(alloc, arguments, task, triangulation, names)
    }
}

/// Refines what is inside the outline; or all, and then sides of the hull are split as constraints are.
fn refine(
    alloc: Global,
    arguments: &Arguments,
    task: &Task,
    names: &Names,
    triangulation: &mut ConstrainedTriangulation,
    parameters: &RefinementParameters,
) -> Result<(), Fault> {
    if arguments.outline.is_none() {
        let hull = lists::hull(alloc, triangulation.dcel())?;
        add_border(triangulation, &hull)?;
    }
    let inside = inside(alloc, arguments, task, names, triangulation)?;
    match refine_faces(triangulation, alloc, parameters, &inside.triangles) {
        Ok(()) => Ok(()),
        Err(error) => Err(Fault::Input(Wrong::Insertion(error))),
    }
}

/// Makes constraints of the sides of a closed curve, given by vertices.
fn add_border(
    triangulation: &mut ConstrainedTriangulation,
    curve: &[u32],
) -> Result<(), AllocError> {
    let ends = curve.iter().skip(1).chain(curve.iter().take(1));
    for (from, to) in curve.iter().zip(ends) {
        let from = FixedVertexHandle::new(*from as usize);
        let to = FixedVertexHandle::new(*to as usize);
        if let Err(ConstraintError::OutOfMemory) = triangulation.try_add_constraint(from, to) {
            return Err(AllocError);
        }
    }
    Ok(())
}

/// Returns what is inside the outline, or that all triangles are.
fn inside(
    alloc: Global,
    arguments: &Arguments,
    task: &Task,
    names: &Names,
    triangulation: &ConstrainedTriangulation,
) -> Result<Inside, Fault> {
    match inside_of(alloc, arguments, task, names, triangulation)? {
        Some(inside) => Ok(inside),
        None => Ok(all_inside(alloc, triangulation)?),
    }
}

/// Returns that all triangles and edges are inside.
fn all_inside(
    alloc: Global,
    triangulation: &ConstrainedTriangulation,
) -> Result<Inside, AllocError> {
    let mesh = triangulation.dcel();
    let mut triangles = Vec::new(alloc);
    for _face in 1..mesh.num_faces() {
        triangles.push(true)?;
    }
    let mut edges = Vec::new(alloc);
    for _edge in 0..mesh.num_undirected_edges() {
        edges.push(true)?;
    }
    Ok(Inside { triangles, edges })
}

/// Returns the number of the point at each vertex: those that were added come behind all others.
fn numbers(
    alloc: Global,
    task: &Task,
    names: &Names,
    triangulation: &ConstrainedTriangulation,
) -> Result<Vec<u32>, Fault> {
    let mut numbers = Vec::new(alloc);
    numbers.extend_from_slice(&names.numbers)?;
    let mut next = task.points.len();
    for _vertex in names.numbers.len()..triangulation.dcel().num_vertices() {
        let Ok(number) = u32::try_from(next) else {
            return Err(Fault::Input(Wrong::Insertion(InsertionError::TooManyPoints)));
        };
        numbers.push(number)?;
        next = next.saturating_add(1);
    }
    Ok(numbers)
}

/// Returns the points of a task, and behind them those that were added.
fn points(
    alloc: Global,
    task: &Task,
    names: &Names,
    triangulation: &ConstrainedTriangulation,
) -> Result<Vec<Point>, AllocError> {
    let mut points = Vec::new(alloc);
    points.extend_from_slice(&task.points)?;
    for vertex in triangulation.dcel().vertices().skip(names.numbers.len()) {
        points.push(point_of(vertex))?;
    }
    Ok(points)
}
