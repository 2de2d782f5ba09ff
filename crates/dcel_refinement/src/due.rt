//! What is still to be looked at.

use crate::centers::off_center;
use crate::parameters::{RefinedFaces, RefinementParameters};
use crate::points::{Corners, Side, side_of};
use crate::queue::{Queue, Ranked};
use crate::ranks::Sides;
use crate::segments::{is_encroached, split_point};
use crate::ways::{End, encroached, walk};
use dcel_constrained::ConstrainedMesh;
use dcel_predicates::{Point, orient2d};
use spade_dcel::handles::{FixedDirectedEdgeHandle, FixedVertexHandle};
use std::alloc::{AllocError, Allocator};

/// A point to be inserted.
#[derive(Clone, Copy)]
pub(crate) struct Placement {
    /// The point.
    pub point: Point,
    // The constraint on which it lies, and whether the faces on its sides are refined; or the point
    // twice, in a face that is.
    from: Point,
    to: Point,
    is_left_refined: bool,
    is_right_refined: bool,
}

/// Constraints and triangles that are still to be looked at.
#[derive(Drop)]
pub(crate) struct Due<A: Allocator> {
    // Half edges that are constraints, or were.
    constraints: Vec<FixedDirectedEdgeHandle, A>,
    // A half edge of each triangle.
    triangles: Queue<A>,
    // Of each face, whether it is one of those to be refined.
    refined: Vec<bool, A>,
    // Room for a search: nothing between calls.
    search: Vec<FixedDirectedEdgeHandle, A>,
}

impl<A: Allocator + Clone> Due<A> {
    /// Lists nothing.
    pub(crate) fn new(alloc: A) -> Result<Due<A>, AllocError> {
        let constraints = Vec::new(alloc.clone()?);
        let triangles = Queue::new(alloc.clone()?)?;
        let refined = Vec::new(alloc.clone()?);
        let search = Vec::new(alloc);
        Ok(Due {
            constraints,
            triangles,
            refined,
            search,
        })
    }
}

impl<A: Allocator> Due<A> {
    /// Notes which faces are to be refined, by their depths.
    pub(crate) fn take_depths(
        &mut self,
        depths: &[usize],
        faces: RefinedFaces,
    ) -> Result<(), AllocError> {
        for (face, depth) in depths.iter().enumerate() {
            self.refined.push(match faces {
                RefinedFaces::All => face > 0,
                RefinedFaces::Inside => *depth % 2 == 1,
            })?;
        }
        Ok(())
    }

    /// Notes which faces are to be refined, by the flags of the inner faces.
    pub(crate) fn take_flags(&mut self, flags: &[bool]) -> Result<(), AllocError> {
        self.refined.push(false)?;
        self.refined.extend_from_slice(flags)
    }

    /// Lists all constraints, and all bad triangles.
    pub(crate) fn list_all(
        &mut self,
        mesh: &ConstrainedMesh<A>,
        parameters: &RefinementParameters,
    ) -> Result<(), AllocError> {
        for number in 0..mesh.num_directed_edges() {
            self.list(mesh, FixedDirectedEdgeHandle::new(number), parameters)?;
        }
        Ok(())
    }

    // Lists a half edge as a constraint if it is one, and its triangle if that is bad.
    fn list(
        &mut self,
        mesh: &ConstrainedMesh<A>,
        half: FixedDirectedEdgeHandle,
        parameters: &RefinementParameters,
    ) -> Result<(), AllocError> {
        let Some(side) = side_of(mesh, half) else {
            return Ok(());
        };
        if side.is_constraint {
            self.constraints.push(half)?;
        }
        // Of the half edges of a triangle the one with the least number says that it is due.
        if half < side.next && half < side.prev {
            self.list_triangle(mesh, half, parameters)?;
        }
        Ok(())
    }

    // Lists the triangle of a half edge, if it is bad.
    fn list_triangle(
        &mut self,
        mesh: &ConstrainedMesh<A>,
        half: FixedDirectedEdgeHandle,
        parameters: &RefinementParameters,
    ) -> Result<(), AllocError> {
        if let Some(rank) = self.rank(mesh, half, parameters) {
            self.triangles.push(Ranked { half, rank })?;
        }
        Ok(())
    }

    fn is_refined(&self, face: usize) -> bool {
        self.refined.get(face).copied().unwrap_or(false)
    }

    /// Returns the next point to be inserted, if there is one.
    pub(crate) fn next_placement(
        &mut self,
        mesh: &ConstrainedMesh<A>,
        parameters: &RefinementParameters,
    ) -> Result<Option<Placement>, AllocError> {
        if let Some(split) = self.next_split(mesh) {
            return Ok(Some(split));
        }
        for _triangle in 0..self.triangles.len() {
            let Some(ranked) = self.triangles.pop() else {
                return Ok(None);
            };
            if let Some(placement) = self.placement_for(mesh, ranked, parameters)? {
                return Ok(Some(placement));
            }
        }
        Ok(None)
    }

    // Returns where the next encroached constraint is to be split.
    fn next_split(&mut self, mesh: &ConstrainedMesh<A>) -> Option<Placement> {
        for _constraint in 0..self.constraints.len() {
            let half = self.constraints.pop()?;
            if self.is_due(mesh, half)
                && let Some(split) = self.split(mesh, half)
            {
                return Some(split);
            }
        }
        None
    }

    // Returns whether a half edge is a constraint whose opposite corner, in a triangle to be refined,
    // is inside its diametral circle.
    fn is_due(&self, mesh: &ConstrainedMesh<A>, half: FixedDirectedEdgeHandle) -> bool {
        match side_of(mesh, half) {
            Some(side) => {
                let Corners { from, to, opposite } = side.corners;
                side.is_constraint
                    && self.is_refined(side.face)
                    && is_encroached(from, to, opposite)
            }
            None => false,
        }
    }

    // Returns where a constraint is to be split, if it can be.
    fn split(&self, mesh: &ConstrainedMesh<A>, half: FixedDirectedEdgeHandle) -> Option<Placement> {
        let side = side_of(mesh, half)?;
        let beyond = side_of(mesh, half.rev())?;
        if !side.is_constraint {
            return None;
        }
        Some(Placement {
            point: split_point(mesh, half)?,
            from: side.corners.from,
            to: side.corners.to,
            is_left_refined: self.is_refined(side.face),
            is_right_refined: self.is_refined(beyond.face),
        })
    }

    // Returns the point to be inserted for the triangle of a half edge, if it is to be refined and
    // still has its rank: one near its center, or one on a constraint that is in the way.
    fn placement_for(
        &mut self,
        mesh: &ConstrainedMesh<A>,
        ranked: Ranked,
        parameters: &RefinementParameters,
    ) -> Result<Option<Placement>, AllocError> {
        let half = ranked.half;
        if self.rank(mesh, half, parameters) != Some(ranked.rank) {
            return Ok(None);
        }
        let Some(center) = center_of(mesh, half, parameters) else {
            return Ok(None);
        };
        let wall = match walk(mesh, half, center) {
            End::In(found) => encroached(mesh, found, center, &mut self.search)?,
            End::Before(wall) => Some(wall),
            End::Nowhere => return Ok(None),
        };
        let Some(wall) = wall else {
            return Ok(Some(Placement {
                point: center,
                from: center,
                to: center,
                is_left_refined: true,
                is_right_refined: true,
            }));
        };
        let Some(split) = self.split(mesh, wall) else {
            return Ok(None);
        };
        // The triangle may still be there, and bad, when the constraint is split.
        self.triangles.push(ranked)?;
        Ok(Some(split))
    }

    // Returns the rank of the triangle of a half edge, if it is to be refined and isn't good.
    fn rank(
        &self,
        mesh: &ConstrainedMesh<A>,
        half: FixedDirectedEdgeHandle,
        parameters: &RefinementParameters,
    ) -> Option<usize> {
        let first = side_of(mesh, half)?;
        if !self.is_refined(first.face) {
            return None;
        }
        let next = side_of(mesh, first.next)?;
        let prev = side_of(mesh, first.prev)?;
        Sides { first, next, prev }.rank(parameters)
    }

    /// Lists what is new around a vertex that was inserted.
    pub(crate) fn list_around(
        &mut self,
        mesh: &ConstrainedMesh<A>,
        vertex: FixedVertexHandle,
        placement: Placement,
        parameters: &RefinementParameters,
    ) -> Result<(), AllocError> {
        let Some(start) = out_edge(mesh, vertex) else {
            return Ok(());
        };
        let mut half = start;
        for _spoke in 0..mesh.num_directed_edges() {
            let Some(side) = side_of(mesh, half) else {
                return Ok(());
            };
            let before = side.prev;
            self.list_spoke(mesh, half, side, placement)?;
            self.list_triangle(mesh, half, parameters)?;
            half = before.rev();
            if half == start {
                return Ok(());
            }
        }
        Ok(())
    }

    // Lists a half edge of a new vertex, and the side across from it, where they are constraints, and
    // notes whether the triangle between them is to be refined.
    fn list_spoke(
        &mut self,
        mesh: &ConstrainedMesh<A>,
        half: FixedDirectedEdgeHandle,
        side: Side,
        placement: Placement,
    ) -> Result<(), AllocError> {
        let is_refined = side.face > 0 && is_in_refined(side.corners, placement);
        self.set_refined(side.face, is_refined)?;
        if side.is_constraint {
            self.constraints.push(half)?;
            self.constraints.push(half.rev())?;
        }
        if is_refined {
            self.constraints.push(side.next)?;
        }
        Ok(())
    }

    fn set_refined(&mut self, face: usize, is_refined: bool) -> Result<(), AllocError> {
        for _face in self.refined.len()..face.saturating_add(1) {
            self.refined.push(false)?;
        }
        if let Some(place) = self.refined.get_mut(face) {
            *place = is_refined;
        }
        Ok(())
    }
}

// Returns the point that is to be inserted for the triangle of a half edge, if there is one.
fn center_of<A: Allocator>(
    mesh: &ConstrainedMesh<A>,
    half: FixedDirectedEdgeHandle,
    parameters: &RefinementParameters,
) -> Option<Point> {
    off_center(side_of(mesh, half)?.corners, parameters.angle)
}

// Returns whether a triangle at a new vertex is one of those to be refined: by the side of the split
// constraint on which it lies.
fn is_in_refined(corners: Corners, placement: Placement) -> bool {
    let Placement { from, to, .. } = placement;
    if orient2d(from, to, corners.to) > 0 || orient2d(from, to, corners.opposite) > 0 {
        placement.is_left_refined
    } else {
        placement.is_right_refined
    }
}

// Returns a half edge that starts at a vertex.
fn out_edge<A: Allocator>(
    mesh: &ConstrainedMesh<A>,
    vertex: FixedVertexHandle,
) -> Option<FixedDirectedEdgeHandle> {
    Some(mesh.get_vertex(vertex)?.out_edge()?.fix())
}
