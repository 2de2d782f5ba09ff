//! Segments between points, made constraints.

ghost use Rattle.std.specs.Prelude.{◌≡◌, ◌⊎◌, ℕ, IfErr, IfOk, List, OnOk, length};
ghost use Rattle.dcel_constrained.specs.Constrained.{marked_mesh};
ghost use Rattle.dcel_constrained.specs.Constraints.{KeepsMarked};
ghost use Rattle.dcel_delaunay.specs.Bulk.{AnswersEach};
ghost use Rattle.dcel_delaunay.specs.Triangulated.{mesh_in};
ghost use Rattle.dcel_maps.specs.Shapes.{IsMesh};
ghost use Rattle.dcel_output.specs.Constraining.{AreChains, AreConstrainedTriangles, FailsToConstrain, IsChain, IsNotLaid, IsOn, IsReasonFor, LieOnSegments, StandsThere, vertex_at};
ghost use Rattle.dcel_output.specs.Numbering.{NumbersVertices};
ghost use Rattle.dcel_planar.specs.Outcomes.{IsWholeMesh};
ghost use Rattle.dcel_predicates.specs.declared.point.Point.{Point};
ghost use Rattle.dcel_regions.specs.Marked.{IsMarked};

use dcel_constrained::{ConstrainedTriangulation, ConstraintError, Segment};
use dcel_delaunay::Triangulation;
use spade_dcel::handles::FixedVertexHandle;
use spade_dcel::laws::every_mesh;
use std::alloc::Allocator;

/// Why segments are not made constraints. Segments have their numbers, from 0 on.
#[derive(Clone, Copy)]
pub enum SegmentError {
    /// An end of this segment has no vertex.
    NoVertex(usize),
    /// Both ends of this segment have the same vertex.
    OneVertex(usize),
    /// This segment crosses an earlier one, in a point that is an end of neither.
    Crosses(usize),
    /// There was no memory, or no number for an edge.
    OutOfMemory,
}

/// Makes a constrained triangulation of a Delaunay triangulation and of segments between points,
/// each of which is a chain of constraints then; no other edges are constraints.
///
/// It takes over the mesh of the triangulation. The vertex of each point is given; a point that was
/// removed has none. The vertices keep their points and numbers.
///
/// Asks for a whole triangulation ([`is_whole`](Triangulation::is_whole)). The error names a segment
/// that has no two vertices or crosses an earlier one; it is
/// [`OutOfMemory`](SegmentError::OutOfMemory) if memory or numbers run out.
pub fn constrain<A: Allocator + Clone>(
    alloc: A,
    triangulation: Triangulation<A>,
    vertices: &[Option<FixedVertexHandle>],
    segments: &[Segment],
) -> Result<ConstrainedTriangulation<A>, SegmentError>
    requires { IsWholeMesh triangulation.planar }
    ensures points { IfOk result (λ t. (marked_mesh t).vertex_data ≡ (mesh_in triangulation).vertex_data) }
    ensures chains { IfOk result (λ t. AreChains (marked_mesh t) vertices.now segments.now (length segments.now)) }
    ensures only { IfOk result (λ t. LieOnSegments (marked_mesh t) vertices.now segments.now (length segments.now)) }
    ensures triangles { IfOk result (λ t. (points : List Point) (numbers : List ℕ) → NumbersVertices (mesh_in triangulation) points numbers
        → AnswersEach (StandsThere (mesh_in triangulation)) points vertices.now → AreConstrainedTriangles points vertices.now segments.now (marked_mesh t) numbers) }
    ensures whole { IfOk result (λ t. IsWholeMesh t.planar) }
    ensures fails { IfErr result (FailsToConstrain (mesh_in triangulation) vertices.now segments.now) }
{
    every_mesh(triangulation.dcel());
    let Ok(mut constrained) = ConstrainedTriangulation::convert(triangulation, alloc) else {
        return Err(SegmentError::OutOfMemory);
    };
    every_mesh(constrained.dcel());
    for number in 0..segments.len() {
        lay(&mut constrained, vertices, segments[number], number)?;
    }
    every_mesh(constrained.dcel());
    Ok(constrained)
}

/// Makes a segment, which has this number, a chain of constraints.
fn lay<A: Allocator + Clone>(
    triangulation: &mut ConstrainedTriangulation<A>,
    vertices: &[Option<FixedVertexHandle>],
    segment: Segment,
    number: usize,
) -> Result<(), SegmentError>
    requires { IsWholeMesh triangulation.old.planar }
    ensures chain { OnOk result ((halves : List ℕ) × IsChain (marked_mesh triangulation.new) vertices.now segment halves) }
    ensures only { OnOk result ((u : ℕ) → IsMarked (marked_mesh triangulation.new) u → IsMarked (marked_mesh triangulation.old) u ⊎ IsOn (marked_mesh triangulation.new) vertices.now segment u) }
    ensures keeps { KeepsMarked (marked_mesh triangulation.old) (marked_mesh triangulation.new) }
    ensures points { (marked_mesh triangulation.new).vertex_data ≡ (marked_mesh triangulation.old).vertex_data }
    ensures whole { OnOk result (IsWholeMesh triangulation.new.planar) }
    ensures mesh { IsMesh (marked_mesh triangulation.new) }
    ensures fails { IfErr result (IsNotLaid (marked_mesh triangulation.old) vertices.now segment number) }
{
    every_mesh(triangulation.dcel());
    let Some(from) = vertex_at(vertices, segment.from) else {
        return Err(SegmentError::NoVertex(number));
    };
    let Some(to) = vertex_at(vertices, segment.to) else {
        return Err(SegmentError::NoVertex(number));
    };
    if from == to {
        return Err(SegmentError::OneVertex(number));
    }
    let added = triangulation.try_add_constraint(from, to);
    every_mesh(triangulation.dcel());
    match added {
        Ok(_) => Ok(()),
        Err(error) => Err(not_laid(error, number)),
    }
}

/// Returns the vertex of the point of this number, if it has one.
pub(crate) fn vertex_at(
    vertices: &[Option<FixedVertexHandle>],
    number: usize,
) -> Option<FixedVertexHandle>
    ensures { result ≡ vertex_at vertices.now number }
{
    match vertices.get(number) {
        Some(vertex) => *vertex,
        None => None,
    }
}

/// Returns why the segment of this number isn't made a chain of constraints.
fn not_laid<A: Allocator>(error: ConstraintError<A>, number: usize) -> SegmentError
    ensures { IsReasonFor number error result }
{
    match error {
        ConstraintError::NoVertex => SegmentError::NoVertex(number),
        ConstraintError::Blocked(_) => SegmentError::Crosses(number),
        ConstraintError::OutOfMemory => SegmentError::OutOfMemory,
    }
}
