//! A new constrained triangulation, and one of points and segments at once.

ghost use Rattle.std.specs.Prelude.{◌≡◌, ◌+◌, ◌<◌, ℕ, [], All, Contains, IfErr, IfOk, OnOk, Some, length, slice_get};
ghost use Rattle.dcel_constrained.specs.Constrained.{marked_mesh};
ghost use Rattle.dcel_constrained.specs.Loading.{AreLaid, ArePartsOf, FailsToLay, FailsToLoad};
ghost use Rattle.dcel_constrained.specs.Soundness.{HasNoConstraint};
ghost use Rattle.dcel_delaunay.specs.Bulk.{StandAt};
ghost use Rattle.dcel_maps.specs.Shapes.{IsMesh};
ghost use Rattle.dcel_planar.specs.Outcomes.{IsWholeMesh};

use crate::bulk::item_of;
use crate::errors::{LoadError, not_added, not_inserted};
use crate::triangulation::ConstrainedTriangulation;
use dcel_delaunay::Triangulation;
use dcel_planar::Point;
use spade_dcel::handles::FixedVertexHandle;
use spade_dcel::laws::every_mesh;
use std::alloc::{AllocError, Allocator};

/// A segment between two points of a list, by their numbers.
#[derive(Clone, Copy, PartialEq, Eq, Debug)]
pub struct Segment {
    /// The number of the point where it starts.
    pub from: usize,
    /// The number of the point where it ends.
    pub to: usize,
}

impl<A: Allocator + Clone> ConstrainedTriangulation<A> {
    /// Creates a constrained triangulation of no points. If memory runs out it returns `AllocError`.
    pub fn new(alloc: A) -> Result<Self, AllocError>
        ensures empty { IfOk result (λ t. (marked_mesh t).vertex_data ≡ []) }
        ensures free { IfOk result (λ t. HasNoConstraint (marked_mesh t)) }
        ensures whole { IfOk result (λ t. IsWholeMesh t.planar) }
    {
        let none = Triangulation::new(alloc.clone()?)?;
        Self::convert(none, alloc)
    }

    /// Makes a constrained triangulation of points and of segments between them, each of which is one
    /// of marked edges then; no other edges are marked. Each vertex is at one of the points. Returns it,
    /// whole, with the vertex of each point, in the order of the points.
    ///
    /// Segments may meet at their ends, end on others, or overlap. It fails if one crosses an earlier
    /// one, or ends at the number of no point: [`Crosses`](LoadError::Crosses) or
    /// [`NoPoint`](LoadError::NoPoint) has the number of such a segment. It also fails if memory or
    /// numbers run out.
    pub fn bulk_load(
        alloc: A,
        points: &[Point],
        segments: &[Segment],
    ) -> Result<(Self, Vec<FixedVertexHandle, A>), LoadError>
        ensures stand { IfOk result (λ loaded. StandAt (marked_mesh loaded.0) points.now loaded.1.items) }
        ensures points { IfOk result (λ loaded. All (Contains points.now) (marked_mesh loaded.0).vertex_data) }
        ensures laid { IfOk result (λ loaded. AreLaid (marked_mesh loaded.0) loaded.1.items segments.now (length segments.now)) }
        ensures only { IfOk result (λ loaded. ArePartsOf (marked_mesh loaded.0) loaded.1.items segments.now (length segments.now)) }
        ensures whole { IfOk result (λ loaded. IsWholeMesh loaded.0.planar) }
        ensures fails { IfErr result (FailsToLoad points.now segments.now) }
    {
        let mut triangulation = Self::new(alloc.clone()?)?;
        let vertices = match triangulation.insert_all(alloc, points) {
            Ok(vertices) => vertices,
            Err(error) => {
                every_mesh(&triangulation.planar.dcel);
                return Err(not_inserted(error));
            }
        };
        every_mesh(&triangulation.planar.dcel);
        for number in 0..segments.len() {
            triangulation.lay_numbered(&vertices, segments, number)?;
        }
        Ok((triangulation, vertices))
    }

    /// Makes the segment of this number one of marked edges, if there is one.
    fn lay_numbered(
        &mut self,
        vertices: &[FixedVertexHandle],
        segments: &[Segment],
        number: usize,
    ) -> Result<(), LoadError>
        requires whole { IsWholeMesh self.old.planar }
        requires vertices { (i v : ℕ) → slice_get vertices.now i ≡ Some v → v < length (marked_mesh self.old).vertex_data }
        ensures laid { OnOk result (AreLaid (marked_mesh self.old) vertices.now segments.now number → AreLaid (marked_mesh self.new) vertices.now segments.now (number + 1)) }
        ensures parts { OnOk result (ArePartsOf (marked_mesh self.old) vertices.now segments.now number → ArePartsOf (marked_mesh self.new) vertices.now segments.now (number + 1)) }
        ensures points { (marked_mesh self.new).vertex_data ≡ (marked_mesh self.old).vertex_data }
        ensures whole { OnOk result (IsWholeMesh self.new.planar) }
        ensures mesh { IsMesh (marked_mesh self.new) }
        ensures fails { IfErr result (FailsToLay (marked_mesh self.old) vertices.now segments.now number) }
    {
        every_mesh(&self.planar.dcel);
        let Some(segment) = item_of(segments, number) else {
            return Ok(());
        };
        let Some(from) = item_of(vertices, segment.from) else {
            return Err(LoadError::NoPoint(number));
        };
        let Some(to) = item_of(vertices, segment.to) else {
            return Err(LoadError::NoPoint(number));
        };
        let added = self.try_add_constraint(from, to);
        every_mesh(&self.planar.dcel);
        match added {
            Ok(_) => Ok(()),
            Err(error) => Err(not_added(error, number)),
        }
    }
}
