//! What numbers at the vertices of a triangulation say of its points, and that a constrained one
//! leaves none out. A call of a law does nothing.

ghost use Rattle.std.specs.Prelude.{◌≡◌, ◌≢◌, ◌<◌, ℕ, List, Option, length};
ghost use Rattle.dcel_constrained.specs.declared.load.Segment.{Segment};
ghost use Rattle.dcel_maps.specs.Shapes.{IsLive, Mesh, origin_of};
ghost use Rattle.dcel_planar.specs.Outcomes.{IsWholeMesh};
ghost use Rattle.dcel_plane.specs.Plane.{point_at};
ghost use Rattle.dcel_predicates.specs.declared.point.Point.{Point};
ghost use Rattle.dcel_delaunay.specs.Triangles.{AreDelaunayTriangles, point_numbered};
ghost use Rattle.dcel_delaunay.specs.Triangulated.{mesh_in};
ghost use Rattle.dcel_regions.specs.declared.mark.Mark.{Mark};
ghost use Rattle.dcel_output.specs.Constraining.{AreConstrainedTriangles};
ghost use Rattle.dcel_output.specs.LeftOut.{with_one_left_out, without_edges};
ghost use Rattle.dcel_output.specs.Numbering.{IsNearestNumbered, IsNearestPoint, NumbersVertices, triangles_numbered};
ghost use Rattle.dcel_output.specs.Whole.{IsDelaunayMesh};

use dcel_delaunay::Triangulation;
use spade_dcel::laws::every_mesh;
use std::alloc::Allocator;

/// The mesh of a whole triangulation is a Delaunay triangulation of the points whose numbers its
/// vertices have.
pub fn whole_meshes_are_delaunay<A: Allocator>(triangulation: &Triangulation<A>)
    ensures { (points : List Point) (numbers : List ℕ) → IsWholeMesh triangulation.now.planar → NumbersVertices (mesh_in triangulation.now) points numbers
        → IsDelaunayMesh points (mesh_in triangulation.now) numbers }
{
    let mesh = triangulation.dcel();
    every_mesh(mesh);
}

/// The triangles of a whole triangulation, by the numbers of points that its vertices have, are a
/// Delaunay triangulation of these points.
pub fn numbered_triangles_are_delaunay<A: Allocator>(triangulation: &Triangulation<A>)
    ensures { (points : List Point) (numbers : List ℕ) → IsWholeMesh triangulation.now.planar → NumbersVertices (mesh_in triangulation.now) points numbers
        → AreDelaunayTriangles points (triangles_numbered (mesh_in triangulation.now) numbers) }
{
    let mesh = triangulation.dcel();
    every_mesh(mesh);
}

/// The number at a vertex of a whole triangulation that is nearest to a place is that of a point that
/// is.
pub fn nearest_numbers_are_nearest<A: Allocator>(triangulation: &Triangulation<A>)
    ensures { (points : List Point) (numbers : List ℕ) → IsWholeMesh triangulation.now.planar → NumbersVertices (mesh_in triangulation.now) points numbers
        → (place : Point) (n : Option ℕ) → IsNearestNumbered (mesh_in triangulation.now) numbers place n → IsNearestPoint points place n }
{
    let mesh = triangulation.dcel();
    every_mesh(mesh);
}

/// A constrained triangulation leaves no point out: an edge starts at each, once two of them differ.
///
/// Two meshes are excluded, whatever the points: one with two vertices and no edge, and a triangle
/// with a fourth vertex that has no edge.
pub fn constrained_triangulations_leave_no_point_out<DE, F>()
    ensures edges { (points : List Point) (vertices : List (Option ℕ)) (segments : List Segment) (m : Mesh Point DE Mark F) (numbers : List ℕ)
        → AreConstrainedTriangles points vertices segments m numbers
        → (i j k : ℕ) → i < length points → j < length points → k < length points → point_numbered points i ≢ point_numbered points j
        → (h : ℕ) × IsLive m.shape h × (point_at m (origin_of m.shape h) ≡ point_numbered points k) }
    ensures without_edges { (p q : Point) (points : List Point) (vertices : List (Option ℕ)) (segments : List Segment) (numbers : List ℕ)
        → ¬ AreConstrainedTriangles points vertices segments (without_edges p q) numbers }
    ensures one_left_out { (a b c d : Point) (points : List Point) (vertices : List (Option ℕ)) (segments : List Segment) (numbers : List ℕ)
        → ¬ AreConstrainedTriangles points vertices segments (with_one_left_out a b c d) numbers }
{}
