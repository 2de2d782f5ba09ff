//! Refinement: points are inserted until all is good.

ghost use Rattle.std.specs.Prelude.{◌≡◌, ◌↔◌, ◌+◌, IfErr, IfOk, OnOk, length};
ghost use Rattle.dcel_constrained.specs.Constrained.{marked_mesh};
ghost use Rattle.dcel_constrained.specs.Splitting.{SplitsMarked};
ghost use Rattle.dcel_delaunay.specs.Bulk.{FailsToInsertAll};
ghost use Rattle.dcel_maps.specs.Shapes.{IsMesh};
ghost use Rattle.dcel_planar.specs.Outcomes.{IsWholeMesh};
ghost use Rattle.dcel_refinement.specs.Quality.{IsGood};
ghost use Rattle.dcel_refinement.specs.Refined.{AddsAtMost, Reports, ReportsOf};

use crate::due::Due;
use crate::judging::{count_exceptions, is_good};
use crate::parameters::RefinementParameters;
use dcel_constrained::ConstrainedTriangulation;
use dcel_planar::InsertionError;
use spade_dcel::laws::every_mesh;
use std::alloc::{AllocError, Allocator};

/// What a refinement came to.
#[derive(Clone, Copy, PartialEq, Eq, Debug)]
pub enum Refined {
    /// Each triangle to be refined is as wanted.
    Done {
        /// The number of vertices added.
        added: usize,
        /// The number of exceptions: corners between two constraints that are smaller than asked.
        excepted: usize,
    },
    /// Some triangle to be refined isn't as wanted: as many vertices were added as allowed, or none
    /// was found that would make it better, as where two constraints meet in a small angle or a
    /// constraint has no point with whole coordinates left between its ends.
    Stopped {
        /// The number of vertices added.
        added: usize,
        /// The number of exceptions: corners between two constraints that are smaller than asked.
        excepted: usize,
    },
}

/// Adds vertices until each triangle has the wanted angles and area, or until as many were added as
/// allowed.
///
/// All vertices stay, with their numbers; those that are new come after them. Constraints stay: one on
/// which vertices are added becomes constraints from one to the next, and no other edge is one. The
/// result is exact: [`Refined::Done`] means that each corner of the faces to be refined has at least
/// the angle, unless both its sides are constraints, and each of these faces at most the area. It also
/// has the number of those exceptions.
///
/// New vertices have whole coordinates, so a segment can be split only where it has a point with whole
/// coordinates between its ends: multiply all coordinates by a power of two first, as 4096.
///
/// If memory or numbers run out, the vertices added so far stay; after
/// [`Unfinished`](InsertionError::Unfinished), [`finish`](ConstrainedTriangulation::finish) goes on with
/// what is left to do.
pub fn refine<A: Allocator + Clone>(
    triangulation: &mut ConstrainedTriangulation<A>,
    alloc: A,
    parameters: &RefinementParameters,
) -> Result<Refined, InsertionError>
    ensures adds { AddsAtMost (marked_mesh triangulation.old) (marked_mesh triangulation.new) parameters.now.max_additional_vertices }
    ensures splits { SplitsMarked (marked_mesh triangulation.old) (marked_mesh triangulation.new) }
    ensures whole { OnOk result (IsWholeMesh triangulation.new.planar) }
    ensures reports { IfOk result (Reports (marked_mesh triangulation.old) (marked_mesh triangulation.new) parameters.now) }
    ensures fails { IfErr result (FailsToInsertAll triangulation.old.planar triangulation.new.planar) }
{
    every_mesh(triangulation.dcel());
    let before = triangulation.dcel().num_vertices();
    add_vertices(triangulation, &alloc, parameters, None)?;
    Ok(judged(triangulation, alloc, parameters, before)?)
}

/// Adds vertices as [`refine`] does, where other faces are to be refined than the parameters name: the
/// inner faces whose flag is set, of flags in the order of the faces' numbers, and what becomes of them.
/// Where the flags of two faces side by side differ, the edge between them should be a constraint: other
/// edges are flipped.
///
/// [`are_refined`](crate::are_refined) tests, for the faces that there are then, whether each is as
/// wanted. What stays, and what failures leave, is as after [`refine`].
pub fn refine_faces<A: Allocator + Clone>(
    triangulation: &mut ConstrainedTriangulation<A>,
    alloc: A,
    parameters: &RefinementParameters,
    is_wanted: &[bool],
) -> Result<(), InsertionError>
    ensures adds { AddsAtMost (marked_mesh triangulation.old) (marked_mesh triangulation.new) parameters.now.max_additional_vertices }
    ensures splits { SplitsMarked (marked_mesh triangulation.old) (marked_mesh triangulation.new) }
    ensures whole { OnOk result (IsWholeMesh triangulation.new.planar) }
    ensures fails { IfErr result (FailsToInsertAll triangulation.old.planar triangulation.new.planar) }
{
    add_vertices(triangulation, &alloc, parameters, Some(is_wanted))
}

/// Finishes the triangulation, and inserts points until none is due, or as many are inserted as
/// allowed. Faces are to be refined as their flags say, or as the parameters do.
fn add_vertices<A: Allocator + Clone>(
    triangulation: &mut ConstrainedTriangulation<A>,
    alloc: &A,
    parameters: &RefinementParameters,
    is_wanted: Option<&[bool]>,
) -> Result<(), InsertionError>
    ensures adds { AddsAtMost (marked_mesh triangulation.old) (marked_mesh triangulation.new) parameters.now.max_additional_vertices }
    ensures splits { SplitsMarked (marked_mesh triangulation.old) (marked_mesh triangulation.new) }
    ensures whole { OnOk result (IsWholeMesh triangulation.new.planar) }
    ensures fails { IfErr result (FailsToInsertAll triangulation.old.planar triangulation.new.planar) }
{
    every_mesh(triangulation.dcel());
    let Ok(()) = triangulation.finish() else {
        every_mesh(triangulation.dcel());
        return Err(InsertionError::OutOfMemory);
    };
    every_mesh(triangulation.dcel());
    let mut due = all_due(triangulation, alloc, parameters, is_wanted)?;
    add_all(triangulation, parameters, &mut due)
}

/// Lists all that is to be looked at first.
fn all_due<A: Allocator + Clone>(
    triangulation: &ConstrainedTriangulation<A>,
    alloc: &A,
    parameters: &RefinementParameters,
    is_wanted: Option<&[bool]>,
) -> Result<Due<A>, AllocError> {
    let mut due = Due::new(alloc.clone()?)?;
    match is_wanted {
        Some(flags) => due.take_flags(flags)?,
        None => {
            let depths = triangulation.regions(alloc.clone()?)?;
            due.take_depths(&depths, parameters.faces)?;
        }
    }
    due.list_all(triangulation.dcel(), parameters)?;
    Ok(due)
}

/// Inserts points until none is due, or as many are inserted as allowed.
fn add_all<A: Allocator + Clone>(
    triangulation: &mut ConstrainedTriangulation<A>,
    parameters: &RefinementParameters,
    due: &mut Due<A>,
) -> Result<(), InsertionError>
    requires whole { IsWholeMesh triangulation.old.planar }
    ensures adds { AddsAtMost (marked_mesh triangulation.old) (marked_mesh triangulation.new) parameters.now.max_additional_vertices }
    ensures splits { SplitsMarked (marked_mesh triangulation.old) (marked_mesh triangulation.new) }
    ensures whole { OnOk result (IsWholeMesh triangulation.new.planar) }
    ensures fails { IfErr result (FailsToInsertAll triangulation.old.planar triangulation.new.planar) }
    ensures mesh { IsMesh (marked_mesh triangulation.new) }
{
    every_mesh(triangulation.dcel());
    for _vertex in 0..parameters.max_additional_vertices {
        let goes_on = add_one(triangulation, parameters, due)?;
        if !goes_on {
            return Ok(());
        }
    }
    Ok(())
}

/// Inserts the next point, and returns whether there was one.
fn add_one<A: Allocator + Clone>(
    triangulation: &mut ConstrainedTriangulation<A>,
    parameters: &RefinementParameters,
    due: &mut Due<A>,
) -> Result<bool, InsertionError>
    requires whole { IsWholeMesh triangulation.old.planar }
    ensures adds { AddsAtMost (marked_mesh triangulation.old) (marked_mesh triangulation.new) 1 }
    ensures splits { SplitsMarked (marked_mesh triangulation.old) (marked_mesh triangulation.new) }
    ensures whole { OnOk result (IsWholeMesh triangulation.new.planar) }
    ensures fails { IfErr result (FailsToInsertAll triangulation.old.planar triangulation.new.planar) }
    ensures mesh { IsMesh (marked_mesh triangulation.new) }
{
    every_mesh(triangulation.dcel());
    let Some(placement) = due.next_placement(triangulation.dcel(), parameters)? else {
        return Ok(false);
    };
    let inserted = triangulation.insert(placement.point);
    every_mesh(triangulation.dcel());
    let vertex = inserted?;
    due.list_around(triangulation.dcel(), vertex, placement, parameters)?;
    Ok(true)
}

/// Returns what the refinement came to.
fn judged<A: Allocator + Clone>(
    triangulation: &ConstrainedTriangulation<A>,
    alloc: A,
    parameters: &RefinementParameters,
    before: usize,
) -> Result<Refined, AllocError>
    ensures { IfOk result (ReportsOf (marked_mesh triangulation.now) parameters.now before) }
{
    every_mesh(triangulation.dcel());
    let depths = triangulation.regions(alloc)?;
    let added = triangulation.dcel().num_vertices().saturating_sub(before);
    let excepted = count_exceptions(triangulation.dcel(), &depths, parameters);
    if is_good(triangulation.dcel(), &depths, parameters) {
        Ok(Refined::Done { added, excepted })
    } else {
        Ok(Refined::Stopped { added, excepted })
    }
}
