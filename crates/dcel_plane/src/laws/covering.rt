//! Laws of triangulations as a whole. These calls compute nothing; whoever makes one learns what it
//! ensures.
//!
//! In all of them `at` says where each vertex is. The first four ask for conditions one by one
//! and speak of half edges, so that they serve within a proof;
//! [`local_conditions_make_a_delaunay_triangulation`] asks for all together, and speaks of vertices
//! and faces.

ghost use Rattle.std.specs.Prelude.{◌≡◌, ◌≢◌, ◌⊎◌, ◌<◌, ℕ, Bool, false, List, pos, ◌≤ℤ◌};
ghost use Rattle.dcel_predicates.specs.declared.point.Point.{Point};
ghost use Rattle.dcel_predicates.specs.Determinants.{incircle_of, orient2d_of};
ghost use Rattle.dcel_maps.specs.Shapes.{IsLive, IsMesh, Mesh, end_of, face_of, origin_of};
ghost use Rattle.dcel_maps.specs.Triangulations.{AllTriangles};
ghost use Rattle.dcel_plane.specs.Plane.{IsCircled, IsInner, IsLocallyDelaunay, TrianglesTurnLeft};
ghost use Rattle.dcel_plane.specs.covering.Covering.{Covers, CoversHull, HasDisjointTriangles, HasEmptyCircles, IsApart, IsConvex, IsHull, dot};
ghost use Rattle.dcel_plane.specs.covering.Delaunay.{HasCornerVertices, LiesInSomeTriangle, IsDelaunayTriangulation, LiesInHull};
ghost use Rattle.dcel_plane.specs.covering.Places.{AreDisjoint, Place};
ghost use Rattle.dcel_plane.specs.covering.Round.{GoesRoundOnce};
ghost use Rattle.dcel_plane.specs.covering.Sight.{SeesOver};

/// No vertex is inside the circle of any triangle, if none is inside the circle of a triangle
/// beside its own, and the outer face is a convex hull that passes each vertex once.
///
/// This is Delaunay's lemma. A vertex without an edge isn't spoken of.
pub fn no_vertex_lies_inside_a_circle<V, DE, UE, F>()
    ensures { (at : ℕ → Point) (m : Mesh V DE UE F) → IsMesh m → AllTriangles m.shape → IsLocallyDelaunay at m.shape
        → IsConvex at m.shape → IsHull at m.shape → HasEmptyCircles at m.shape }
{}

/// No vertex that is seen from a triangle lies inside its circle, if each inner edge that hides
/// nothing is locally Delaunay.
///
/// This is what makes a triangulation constrained Delaunay, where the constraints hide (L. P. Chew,
/// "Constrained Delaunay triangulations", 1989). The outer face may look like anything.
pub fn no_vertex_in_sight_lies_inside_a_circle<V, DE, UE, F>()
    ensures { (hides : ℕ → Bool) (at : ℕ → Point) (m : Mesh V DE UE F) → IsMesh m → AllTriangles m.shape → TrianglesTurnLeft at m.shape
        → ((u : ℕ) → IsInner m.shape u → hides u ≡ false → ¬ IsCircled at m.shape u)
        → (f a b c v : ℕ) (way : List ℕ) → HasCornerVertices m.shape f a b c → SeesOver hides at m.shape f v way
        → incircle_of (at a) (at b) (at c) (at v) ≤ℤ pos 0 }
{}

/// No two triangles overlap, if all go round counterclockwise, and the outer face is a convex hull
/// that passes each vertex once, whether the mesh is Delaunay or not.
pub fn triangles_dont_overlap<V, DE, UE, F>()
    ensures { (at : ℕ → Point) (m : Mesh V DE UE F) → IsMesh m → AllTriangles m.shape → TrianglesTurnLeft at m.shape
        → IsConvex at m.shape → IsHull at m.shape → HasDisjointTriangles at m.shape }
{}

/// Under the same conditions no vertex is in an inner triangle or on its border but its corners.
pub fn vertices_lie_in_no_triangle<V, DE, UE, F>()
    ensures { (at : ℕ → Point) (m : Mesh V DE UE F) → IsMesh m → AllTriangles m.shape → TrianglesTurnLeft at m.shape
        → IsConvex at m.shape → IsHull at m.shape → IsApart at m.shape }
{}

/// The triangles of a Delaunay mesh cover each place that no half edge of the outer face has on its
/// left, whatever the outer face looks like.
pub fn triangles_cover_the_hull<V, DE, UE, F>()
    ensures { (at : ℕ → Point) (m : Mesh V DE UE F) → IsMesh m → AllTriangles m.shape → IsLocallyDelaunay at m.shape → CoversHull at m.shape }
{}

/// A mesh of triangles whose edges meet Delaunay's condition and whose outer face is a convex hull,
/// which can be tested vertex by vertex and edge by edge, is a Delaunay triangulation of all its
/// vertices.
///
/// * `circles`: no vertex is inside the circle of any triangle.
/// * `apart`: no place is inside two triangles, and `covered`: each place of the hull is in one.
/// * `corners`: each vertex is a corner of a triangle, and `alone`: none is in a triangle but its
///   corners.
/// * `distinct`: a point has one vertex.
/// * `right`, `between`: no vertex is outside of a half edge of the outer face, or on it between
///   its ends, and `once`: the outer face passes no vertex twice. So it goes round the convex hull.
pub fn local_conditions_make_a_delaunay_triangulation<V, DE, UE, F>()
    ensures circles { (at : ℕ → Point) (m : Mesh V DE UE F) → IsMesh m → IsDelaunayTriangulation at m.shape
        → (f a b c v : ℕ) → HasCornerVertices m.shape f a b c → v < m.shape.vertices → incircle_of (at a) (at b) (at c) (at v) ≤ℤ pos 0 }
    ensures apart { (at : ℕ → Point) (m : Mesh V DE UE F) → IsMesh m → IsDelaunayTriangulation at m.shape
        → (f g a b c a' b' c' : ℕ) → HasCornerVertices m.shape f a b c → HasCornerVertices m.shape g a' b' c' → f ≢ g
        → AreDisjoint (at a) (at b) (at c) (at a') (at b') (at c') }
    ensures covered { (at : ℕ → Point) (m : Mesh V DE UE F) → IsMesh m → IsDelaunayTriangulation at m.shape
        → (p : Place) → LiesInHull at m.shape p → LiesInSomeTriangle at m.shape p }
    ensures corners { (at : ℕ → Point) (m : Mesh V DE UE F) → IsMesh m → IsDelaunayTriangulation at m.shape
        → (v : ℕ) → v < m.shape.vertices → (f : ℕ) × (b : ℕ) × (c : ℕ) × HasCornerVertices m.shape f v b c }
    ensures alone { (at : ℕ → Point) (m : Mesh V DE UE F) → IsMesh m → IsDelaunayTriangulation at m.shape
        → (f a b c v : ℕ) → HasCornerVertices m.shape f a b c → v < m.shape.vertices → Covers (at a) (at b) (at c) (at v) → (v ≡ a) ⊎ ((v ≡ b) ⊎ (v ≡ c)) }
    ensures distinct { (at : ℕ → Point) (m : Mesh V DE UE F) → IsMesh m → IsDelaunayTriangulation at m.shape
        → (v w : ℕ) → v < m.shape.vertices → w < m.shape.vertices → (at v).x ≡ (at w).x → (at v).y ≡ (at w).y → v ≡ w }
    ensures right { (at : ℕ → Point) (m : Mesh V DE UE F) → IsMesh m → IsDelaunayTriangulation at m.shape
        → (h v : ℕ) → IsLive m.shape h → face_of m.shape h ≡ 0 → v < m.shape.vertices
        → orient2d_of (at (origin_of m.shape h)) (at (end_of m.shape h)) (at v) ≤ℤ pos 0 }
    ensures between { (at : ℕ → Point) (m : Mesh V DE UE F) → IsMesh m → IsDelaunayTriangulation at m.shape
        → (h v : ℕ) → IsLive m.shape h → face_of m.shape h ≡ 0 → v < m.shape.vertices
        → orient2d_of (at (origin_of m.shape h)) (at (end_of m.shape h)) (at v) ≡ pos 0
        → pos 0 ≤ℤ dot (at (origin_of m.shape h)) (at (end_of m.shape h)) (at v) }
    ensures once { (at : ℕ → Point) (m : Mesh V DE UE F) → IsMesh m → IsDelaunayTriangulation at m.shape
        → (h k : ℕ) → IsLive m.shape h → IsLive m.shape k → face_of m.shape h ≡ 0 → face_of m.shape k ≡ 0
        → origin_of m.shape h ≡ origin_of m.shape k → h ≡ k }
{}

/// Whether the outer face is a convex hull that passes each vertex once, and no two vertices are
/// at one point, can be tested edge by edge: the outer face has inner faces on its other side, never
/// turns left, and goes round once.
///
/// * `convex`, `hull`: then it is one, of a mesh of triangles that go round counterclockwise.
/// * `round`: if it is one, and there is an inner half edge, then it goes round so.
pub fn convex_hulls_are_told_edge_by_edge<V, DE, UE, F>()
    ensures convex { (at : ℕ → Point) (m : Mesh V DE UE F) → IsMesh m → AllTriangles m.shape → TrianglesTurnLeft at m.shape
        → GoesRoundOnce at m.shape → IsConvex at m.shape }
    ensures hull { (at : ℕ → Point) (m : Mesh V DE UE F) → IsMesh m → AllTriangles m.shape → TrianglesTurnLeft at m.shape
        → GoesRoundOnce at m.shape → IsHull at m.shape }
    ensures round { (at : ℕ → Point) (m : Mesh V DE UE F) → IsMesh m → AllTriangles m.shape → TrianglesTurnLeft at m.shape
        → (h : ℕ) → IsLive m.shape h → 0 < face_of m.shape h → IsConvex at m.shape → IsHull at m.shape → GoesRoundOnce at m.shape }
{}
