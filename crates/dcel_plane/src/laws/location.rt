//! Laws of walks towards a point, of where it is, and of the vertex nearest to it. These calls
//! compute nothing; whoever makes one learns what it ensures.
//!
//! In all of them `at` says where each vertex is. A walk crosses an edge that has the point
//! strictly on its other side, as the visibility walk of O. Devillers, S. Pion and M. Teillaud does
//! ("Walking in a triangulation", 2001). On a line it goes from vertex to vertex.

ghost use Rattle.std.specs.Prelude.{◌≡◌, ◌≢◌, ◌⊎◌, List, [], ◌∷◌, length, map, ◌<◌, ◌≤◌, ◌+◌, ◌*◌, ◌/◌, ℕ, ℤ, pos, ◌<ℤ◌, ◌≤ℤ◌};
ghost use Rattle.dcel_fixed.specs.HalfEdges.{rev};
ghost use Rattle.dcel_predicates.specs.declared.point.Point.{Point};
ghost use Rattle.dcel_predicates.specs.Determinants.{orient2d_of, squared_distance_of};
ghost use Rattle.dcel_maps.specs.Conditions.{IsLineEnd};
ghost use Rattle.dcel_maps.specs.Maps.{count};
ghost use Rattle.dcel_maps.specs.Shapes.{IsLive, IsMesh, Mesh, Shape, edge_is_live, end_of, face_count, face_is_live, face_of, next_of, origin_of, prev_of};
ghost use Rattle.dcel_maps.specs.Triangulations.{AllTriangles};
ghost use Rattle.dcel_maps.specs.Walking.{live_half_edges};
ghost use Rattle.dcel_maps.specs.Words.{count_of, word_of};
ghost use Rattle.dcel_plane.specs.Plane.{IsLeftOf, IsLocallyDelaunay, LiesInFace, TrianglesTurnLeft};
ghost use Rattle.dcel_plane.specs.hull.Straight.{IsStraight, dot_of_steps};
ghost use Rattle.dcel_plane.specs.location.Locating.{HasBeyond, HasCorner, HasEdge, HasPlace, HasSpot, IsBefore, LiesBeyond, LiesOn, Passes, StandsAt, Walks, orient2d_along};
ghost use Rattle.dcel_plane.specs.hull.Worked.{corner};
ghost use Rattle.dcel_plane.specs.covering.Covering.{Covers, IsConvex, IsHull};
ghost use Rattle.dcel_plane.specs.covering.Delaunay.{IsDelaunayTriangulation};
ghost use Rattle.dcel_plane.specs.location.Nearest.{HasNoNearerNeighbor, IsNearest};

/// A walk towards a point, across edges that have it strictly on the other side, comes to no
/// triangle twice (`once`), if the mesh is Delaunay.
///
/// * `few`: the faces it has come to and the outer face are no more than there are faces.
/// * `edges`: the half edges it has crossed are no more than there are edges.
/// * `last`: when it has come to each triangle, the next step leads out of the hull.
pub fn walks_end<V, DE, UE, F>()
    ensures once { (at : ℕ → Point) (m : Mesh V DE UE F) (p : Point) (start stop : ℕ) (list : List ℕ) → IsMesh m → AllTriangles m.shape → IsLocallyDelaunay at m.shape
        → Walks at m.shape p start list stop → (f : ℕ) → count_of f (stop ∷ map (face_of m.shape) list) ≤ 1 }
    ensures few { (at : ℕ → Point) (m : Mesh V DE UE F) (p : Point) (start h : ℕ) (list : List ℕ) → IsMesh m → AllTriangles m.shape → IsLocallyDelaunay at m.shape
        → IsLive m.shape h → 0 < face_of m.shape h → Walks at m.shape p start list (face_of m.shape h)
        → (length list + 2 ≤ count (face_is_live m.shape) (face_count m.shape)) × (length list + 2 ≤ face_count m.shape) }
    ensures edges { (at : ℕ → Point) (m : Mesh V DE UE F) (p : Point) (start stop : ℕ) (list : List ℕ) → IsMesh m → AllTriangles m.shape → IsLocallyDelaunay at m.shape
        → Walks at m.shape p start list stop → (length list ≤ count (edge_is_live m.shape) m.shape.edges) × (length list ≤ m.shape.edges) }
    ensures last { (at : ℕ → Point) (m : Mesh V DE UE F) (p : Point) (start h : ℕ) (list : List ℕ) → IsMesh m → AllTriangles m.shape → IsLocallyDelaunay at m.shape
        → Walks at m.shape p start list (face_of m.shape h) → HasBeyond at m.shape p h
        → count (face_is_live m.shape) (face_count m.shape) ≤ length list + 2 → face_of m.shape (rev h) ≡ 0 }
{}

/// A point that no side of an inner triangle has on its right is strictly inside of it, or strictly
/// between the ends of a side, or at a corner: in one of these places only, as no vertex is
/// strictly inside of a triangle, nor strictly between the ends of an edge.
pub fn places_found_are_exact<V, DE, UE, F>()
    ensures found { (at : ℕ → Point) (m : Mesh V DE UE F) (p : Point) (h : ℕ) → IsMesh m → AllTriangles m.shape → TrianglesTurnLeft at m.shape
        → IsLive m.shape h → 0 < face_of m.shape h → pos 0 ≤ℤ orient2d_along at m.shape h p → pos 0 ≤ℤ orient2d_along at m.shape (next_of m.shape h) p
        → pos 0 ≤ℤ orient2d_along at m.shape (prev_of m.shape h) p
        → LiesInFace at m.shape (face_of m.shape h) p ⊎ (HasEdge at m.shape p (face_of m.shape h) ⊎ HasCorner at m.shape p (face_of m.shape h)) }
    ensures apart { (at : ℕ → Point) (s : Shape) (p : Point) (f : ℕ) → LiesInFace at s f p → ¬ HasEdge at s p f }
    ensures inside { (at : ℕ → Point) (m : Mesh V DE UE F) (p : Point) (h k : ℕ) → IsMesh m → AllTriangles m.shape → TrianglesTurnLeft at m.shape
        → IsConvex at m.shape → IsHull at m.shape → IsLive m.shape h → 0 < face_of m.shape h → LiesInFace at m.shape (face_of m.shape h) p
        → IsLive m.shape k → ¬ StandsAt at p (origin_of m.shape k) }
    ensures edge { (at : ℕ → Point) (m : Mesh V DE UE F) (p : Point) (h k : ℕ) → IsMesh m → AllTriangles m.shape → TrianglesTurnLeft at m.shape
        → IsConvex at m.shape → IsHull at m.shape → IsLive m.shape h → LiesOn at m.shape p h → IsLive m.shape k → ¬ StandsAt at p (origin_of m.shape k) }
    ensures one_face { (at : ℕ → Point) (m : Mesh V DE UE F) (p : Point) (h f x y z : ℕ) → IsMesh m → AllTriangles m.shape → TrianglesTurnLeft at m.shape
        → IsConvex at m.shape → IsHull at m.shape → IsLive m.shape h → 0 < face_of m.shape h → LiesInFace at m.shape (face_of m.shape h) p
        → 0 < f → word_of m.shape.words f ≡ x ∷ y ∷ z ∷ [] → f ≢ face_of m.shape h
        → ¬ Covers (at (origin_of m.shape x)) (at (origin_of m.shape y)) (at (origin_of m.shape z)) p }
    ensures no_edge { (at : ℕ → Point) (m : Mesh V DE UE F) (p : Point) (h k : ℕ) → IsMesh m → AllTriangles m.shape → TrianglesTurnLeft at m.shape
        → IsConvex at m.shape → IsHull at m.shape → IsLive m.shape h → 0 < face_of m.shape h → LiesInFace at m.shape (face_of m.shape h) p
        → IsLive m.shape k → ¬ LiesOn at m.shape p k }
    ensures one_edge { (at : ℕ → Point) (m : Mesh V DE UE F) (p : Point) (i h k : ℕ) → IsMesh m → AllTriangles m.shape → TrianglesTurnLeft at m.shape
        → IsConvex at m.shape → IsHull at m.shape → IsLive m.shape i → 0 < face_of m.shape i → IsLive m.shape h → LiesOn at m.shape p h
        → IsLive m.shape k → LiesOn at m.shape p k → (k ≡ h) ⊎ (k ≡ rev h) }
{}

/// A step out of the hull leads to an outer half edge that has the point on its left: then no vertex
/// is there, and it is in no inner triangle, nor on the border of one.
pub fn points_beyond_the_hull_are_outside<V, DE, UE, F>()
    ensures step { (at : ℕ → Point) (m : Mesh V DE UE F) (p : Point) (h : ℕ) → IsMesh m → AllTriangles m.shape → TrianglesTurnLeft at m.shape
        → HasBeyond at m.shape p h → IsLive m.shape (rev h) × IsLeftOf at m.shape p (rev h) }
    ensures vertex { (at : ℕ → Point) (m : Mesh V DE UE F) (p : Point) (e k : ℕ) → IsMesh m → AllTriangles m.shape → TrianglesTurnLeft at m.shape
        → IsConvex at m.shape → IsLive m.shape e → face_of m.shape e ≡ 0 → IsLeftOf at m.shape p e → IsLive m.shape k → ¬ StandsAt at p (origin_of m.shape k) }
    ensures triangle { (at : ℕ → Point) (m : Mesh V DE UE F) (p : Point) (e f x y z : ℕ) → IsMesh m → AllTriangles m.shape → TrianglesTurnLeft at m.shape
        → IsConvex at m.shape → IsLive m.shape e → face_of m.shape e ≡ 0 → IsLeftOf at m.shape p e → 0 < f → word_of m.shape.words f ≡ x ∷ y ∷ z ∷ []
        → ¬ Covers (at (origin_of m.shape x)) (at (origin_of m.shape y)) (at (origin_of m.shape z)) p }
    ensures edge { (at : ℕ → Point) (m : Mesh V DE UE F) (p : Point) (e h k : ℕ) → IsMesh m → AllTriangles m.shape → TrianglesTurnLeft at m.shape
        → IsConvex at m.shape → IsHull at m.shape → IsLive m.shape e → face_of m.shape e ≡ 0 → IsLeftOf at m.shape p e
        → IsLive m.shape h → 0 < face_of m.shape h → IsLive m.shape k → ¬ LiesOn at m.shape p k }
{}

/// So from each inner triangle a walk finds where a point is, or a half edge of the hull that has it
/// on its left.
pub fn walks_find_a_place<V, DE, UE, F>()
    ensures { (at : ℕ → Point) (m : Mesh V DE UE F) (p : Point) (h : ℕ) → IsMesh m → AllTriangles m.shape → IsLocallyDelaunay at m.shape
        → IsLive m.shape h → 0 < face_of m.shape h → HasSpot at m.shape p }
{}

/// A point on the line of a path is at a vertex, or is strictly between the ends of an edge, or
/// beyond an end of the line: in one of these places only.
pub fn places_on_a_line_are_exact<V, DE, UE, F>()
    ensures some { (at : ℕ → Point) (m : Mesh V DE UE F) (p : Point) (h : ℕ) → IsMesh m → IsStraight at m.shape → IsLive m.shape h
        → orient2d_along at m.shape h p ≡ pos 0 → HasPlace at m.shape p }
    ensures near { (at : ℕ → Point) (m : Mesh V DE UE F) (p : Point) (h : ℕ) → IsMesh m → IsStraight at m.shape → IsLive m.shape h
        → orient2d_along at m.shape h p ≡ pos 0 → LiesOn at m.shape p h ⊎ (StandsAt at p (origin_of m.shape h) ⊎ (StandsAt at p (end_of m.shape h)
        ⊎ (LiesBeyond at m.shape p h ⊎ LiesBeyond at m.shape p (rev h)))) }
    ensures edge { (at : ℕ → Point) (m : Mesh V DE UE F) (p : Point) (h k : ℕ) → IsMesh m → IsStraight at m.shape → IsLive m.shape h
        → LiesOn at m.shape p h → IsLive m.shape k → ¬ StandsAt at p (origin_of m.shape k) }
    ensures end { (at : ℕ → Point) (m : Mesh V DE UE F) (p : Point) (h k : ℕ) → IsMesh m → IsStraight at m.shape → IsLive m.shape h
        → IsLineEnd m.shape (end_of m.shape h) → LiesBeyond at m.shape p h → IsLive m.shape k → ¬ StandsAt at p (origin_of m.shape k) × ¬ LiesOn at m.shape p k }
    ensures one_edge { (at : ℕ → Point) (m : Mesh V DE UE F) (p : Point) (h k : ℕ) → IsMesh m → IsStraight at m.shape → IsLive m.shape h
        → LiesOn at m.shape p h → IsLive m.shape k → LiesOn at m.shape p k → (k ≡ h) ⊎ (k ≡ rev h) }
    ensures one_end { (at : ℕ → Point) (m : Mesh V DE UE F) (p : Point) (h k : ℕ) → IsMesh m → IsStraight at m.shape → IsLive m.shape h
        → IsLineEnd m.shape (end_of m.shape h) → LiesBeyond at m.shape p h → IsLive m.shape k → IsLineEnd m.shape (end_of m.shape k)
        → LiesBeyond at m.shape p k → end_of m.shape k ≡ end_of m.shape h }
{}

/// A walk along a path goes on at each vertex that isn't an end of the line, with the point ahead, and
/// passes no half edge twice, so it ends.
pub fn walks_along_a_line_end<V, DE, UE, F>()
    ensures next { (at : ℕ → Point) (m : Mesh V DE UE F) (h : ℕ) → IsMesh m → IsStraight at m.shape → IsLive m.shape h → ¬ IsLineEnd m.shape (end_of m.shape h)
        → IsLive m.shape (next_of m.shape h) × (origin_of m.shape (next_of m.shape h) ≡ end_of m.shape h) × (next_of m.shape h ≢ rev h) }
    ensures prev { (at : ℕ → Point) (m : Mesh V DE UE F) (h : ℕ) → IsMesh m → IsStraight at m.shape → IsLive m.shape h → ¬ IsLineEnd m.shape (origin_of m.shape h)
        → IsLive m.shape (rev (prev_of m.shape h)) × (origin_of m.shape (rev (prev_of m.shape h)) ≡ end_of m.shape (rev h))
        × (rev (prev_of m.shape h) ≢ rev (rev h)) }
    ensures ahead { (at : ℕ → Point) (m : Mesh V DE UE F) (p : Point) (h g : ℕ) → IsMesh m → IsStraight at m.shape → IsLive m.shape h → IsLive m.shape g
        → origin_of m.shape g ≡ end_of m.shape h → g ≢ rev h → LiesBeyond at m.shape p h → (orient2d_along at m.shape g p ≡ pos 0) × ¬ LiesBeyond at m.shape p (rev g) }
    ensures few { (at : ℕ → Point) (m : Mesh V DE UE F) (start h : ℕ) (list : List ℕ) → IsMesh m → IsStraight at m.shape → IsLive m.shape h
        → Passes m.shape start list h → (length list + 1 ≤ live_half_edges m.shape) × (length list + 1 ≤ 2 * m.shape.edges) }
{}

/// A point on a line is beyond an end of a segment just where it comes after it, or before it, from
/// left to right, and upwards where the line is vertical.
pub fn points_on_a_line_have_an_order()
    ensures after { (a b p : Point) → orient2d_of a b p ≡ pos 0 → IsBefore a b → (IsBefore b p → pos 0 <ℤ dot_of_steps a b p) × (¬ IsBefore b p → dot_of_steps a b p ≤ℤ pos 0) }
    ensures before { (a b p : Point) → orient2d_of a b p ≡ pos 0 → IsBefore a b → (IsBefore p a → pos 0 <ℤ dot_of_steps b a p) × (¬ IsBefore p a → dot_of_steps b a p ≤ℤ pos 0) }
{}

/// A vertex none of whose neighbors is nearer to a point than itself is nearest to it, wherever the
/// point is: in a Delaunay triangulation, and on the line of a path.
///
/// So a walk from neighbor to neighbor that comes nearer with each step ends at a nearest vertex.
pub fn no_nearer_neighbor_makes_a_vertex_nearest<V, DE, UE, F>()
    ensures triangles { (at : ℕ → Point) (m : Mesh V DE UE F) (q : Point) (v : ℕ) → IsMesh m → IsDelaunayTriangulation at m.shape → v < m.shape.vertices
        → HasNoNearerNeighbor at m.shape q v → IsNearest at m.shape q v }
    ensures line { (at : ℕ → Point) (m : Mesh V DE UE F) (q : Point) (h k : ℕ) → IsMesh m → IsStraight at m.shape → IsLive m.shape h → IsLive m.shape k
        → HasNoNearerNeighbor at m.shape q (origin_of m.shape h) → squared_distance_of (at (origin_of m.shape h)) q ≤ℤ squared_distance_of (at (origin_of m.shape k)) q }
{}
