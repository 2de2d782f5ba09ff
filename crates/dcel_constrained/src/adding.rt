//! Segments made constraints, unless marked edges are in their way.

ghost use Rattle.std.specs.Prelude.{IfErr, IfOk, IsTrue, OnErr, OnOk, ◌↔◌, ◌≡◌, ◌≤◌};
ghost use Rattle.dcel_constrained.specs.Blocking.{FailsToAdd};
ghost use Rattle.dcel_constrained.specs.Channels.{HasVertices};
ghost use Rattle.dcel_constrained.specs.Constrained.{marked_mesh};
ghost use Rattle.dcel_constrained.specs.Constraints.{HasConstraint, IsFreeWay, KeepsMarked, MarksOnly};
ghost use Rattle.dcel_constrained.specs.Laying.{IsLaidIfFree};
ghost use Rattle.dcel_constrained.specs.Soundness.{CanAdd, MarksAnother};
ghost use Rattle.dcel_maps.specs.Shapes.{IsMesh};
ghost use Rattle.dcel_planar.specs.Outcomes.{IsWholeMesh};

use crate::errors::ConstraintError;
use crate::segments::blocking::blocking;
use crate::segments::chains::{lay_if_free, lay_on_line};
use crate::triangulation::ConstrainedTriangulation;
use spade_dcel::handles::FixedVertexHandle;
use spade_dcel::laws::every_mesh;
use std::alloc::{AllocError, Allocator};

impl<A: Allocator + Clone> ConstrainedTriangulation<A> {
    /// Makes the segment between two vertices one of marked edges, as
    /// [`add_constraint`](Self::add_constraint) does, and returns whether some edge is marked then that
    /// wasn't; unless a marked edge would be crossed. Any numbers may be given.
    ///
    /// If one of them is no vertex, the result is [`NoVertex`](ConstraintError::NoVertex), and if
    /// marked edges are in the way, [`Blocked`](ConstraintError::Blocked) with all of them, each once:
    /// for these it looks at each edge. Then no edge is marked that wasn't, a whole triangulation
    /// ([`is_whole`](Self::is_whole)) is as it was, and any other is whole now.
    ///
    /// If memory runs out, the result is [`OutOfMemory`](ConstraintError::OutOfMemory). If the segment
    /// can be added, parts of it may be marked then. The next call, or [`finish`](Self::finish), goes
    /// on with what is left to do, and the same call adds the rest.
    pub fn try_add_constraint(
        &mut self,
        from: FixedVertexHandle,
        to: FixedVertexHandle,
    ) -> Result<bool, ConstraintError<A>>
        ensures constrained { OnOk result (HasConstraint (marked_mesh self.new) from to) }
        ensures added { IfOk result (λ added. IsTrue added ↔ MarksAnother (marked_mesh self.old) (marked_mesh self.new)) }
        ensures whole { OnOk result (IsWholeMesh self.new.planar) }
        ensures refuses { IfErr result (FailsToAdd self.old.planar self.new.planar from to) }
        ensures keeps { KeepsMarked (marked_mesh self.old) (marked_mesh self.new) }
        ensures only { MarksOnly (marked_mesh self.old) (marked_mesh self.new) from to }
        ensures points { (marked_mesh self.new).vertex_data ≡ (marked_mesh self.old).vertex_data }
        ensures edges { (marked_mesh self.old).shape.edges ≤ (marked_mesh self.new).shape.edges }
        ensures same { IsWholeMesh self.old.planar → ¬ MarksAnother (marked_mesh self.old) (marked_mesh self.new)
            → (marked_mesh self.new ≡ marked_mesh self.old) × IsWholeMesh self.new.planar }
        ensures can { OnOk result (CanAdd (marked_mesh self.new) from to) }
        ensures again { CanAdd (marked_mesh self.old) from to → CanAdd (marked_mesh self.new) from to }
        ensures same_edges { IsWholeMesh self.old.planar → (marked_mesh self.new).shape.edges ≡ (marked_mesh self.old).shape.edges }
    {
        every_mesh(&self.planar.dcel);
        let Ok(()) = self.finish() else {
            every_mesh(&self.planar.dcel);
            return Err(ConstraintError::OutOfMemory);
        };
        every_mesh(&self.planar.dcel);
        let vertices = self.planar.dcel.num_vertices();
        if from.index() >= vertices {
            return Err(ConstraintError::NoVertex);
        }
        if to.index() >= vertices {
            return Err(ConstraintError::NoVertex);
        }
        let Ok(added) = self.add_if_free(from, to) else {
            return Err(ConstraintError::OutOfMemory);
        };
        match added {
            Some(added) => Ok(added),
            None => Err(self.what_blocks(from, to)),
        }
    }

    /// Makes the segment between two vertices one of marked edges, and returns whether some edge is
    /// marked then that wasn't; unless it crosses a marked edge: then nothing changes, and the result is
    /// `None`.
    fn add_if_free(
        &mut self,
        from: FixedVertexHandle,
        to: FixedVertexHandle,
    ) -> Result<Option<bool>, AllocError>
        requires whole { IsWholeMesh self.old.planar }
        requires ends { HasVertices (marked_mesh self.old).shape from to }
        ensures laid { IfOk result (IsLaidIfFree (marked_mesh self.old) (marked_mesh self.new) from to) }
        ensures tested { OnErr result (MarksAnother (marked_mesh self.old) (marked_mesh self.new) → IsFreeWay (marked_mesh self.old) from to) }
        ensures keeps { KeepsMarked (marked_mesh self.old) (marked_mesh self.new) }
        ensures only { MarksOnly (marked_mesh self.old) (marked_mesh self.new) from to }
        ensures points { (marked_mesh self.new).vertex_data ≡ (marked_mesh self.old).vertex_data }
        ensures edges { (marked_mesh self.new).shape.edges ≡ (marked_mesh self.old).shape.edges }
        ensures same { ¬ MarksAnother (marked_mesh self.old) (marked_mesh self.new) → (marked_mesh self.new ≡ marked_mesh self.old) × IsWholeMesh self.new.planar }
        ensures whole { OnOk result (IsWholeMesh self.new.planar) }
        ensures mesh { IsMesh (marked_mesh self.new) }
    {
        every_mesh(&self.planar.dcel);
        if from == to {
            return Ok(Some(false));
        }
        if self.planar.dcel.num_faces() == 1 {
            return Ok(Some(lay_on_line(&mut self.planar.dcel, from, to)));
        }
        lay_if_free(&mut self.planar, from, to, &mut self.crossed)
    }

    /// Returns the edges in the way of a segment that can't be added, or that there was no memory for
    /// them.
    fn what_blocks(&self, from: FixedVertexHandle, to: FixedVertexHandle) -> ConstraintError<A>
        requires whole { IsWholeMesh self.now.planar }
        requires ends { HasVertices (marked_mesh self.now).shape from to }
        requires not { ¬ CanAdd (marked_mesh self.now) from to }
        ensures { FailsToAdd self.now.planar self.now.planar from to result }
    {
        let Ok(alloc) = self.planar.dcel.allocator().clone() else {
            return ConstraintError::OutOfMemory;
        };
        match blocking(&self.planar.dcel, from, to, alloc) {
            Ok(edges) => ConstraintError::Blocked(edges),
            Err(_) => ConstraintError::OutOfMemory,
        }
    }
}
