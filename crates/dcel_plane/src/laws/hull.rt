//! Laws of the hull: which edits keep it, and how it is closed again. These calls compute nothing;
//! whoever makes one learns what it ensures.
//!
//! In all of them `at` says where each vertex is. An outer half edge has the hull on its right,
//! so a vertex on its left is beyond the hull, and the outer face *turns in* where the next half
//! edge ends on the left. A hull is kept by the edits inside of it. A vertex beyond it is put beside
//! an edge; then triangles are closed where the outer face turns in beside that vertex, and when it
//! does so nowhere the hull is convex again. Before there is a triangle, the mesh is a straight line.
//!
//! Where a law asks that what an edit makes is a mesh, that is what the edit's call ensures.

ghost use Rattle.std.specs.Prelude.{◌≡◌, List, ◌<◌, ◌≤◌, ◌+◌, ◌*◌, ◌/◌, ℕ, ℤ, pos, ◌<ℤ◌, ◌≤ℤ◌};
ghost use Rattle.dcel_fixed.specs.HalfEdges.{rev};
ghost use Rattle.dcel_predicates.specs.declared.point.Point.{Point};
ghost use Rattle.dcel_predicates.specs.Determinants.{orient2d_of};
ghost use Rattle.dcel_maps.specs.Conditions.{CanFlip, IsLineEnd, IsTriangle};
ghost use Rattle.dcel_maps.specs.edits.Create.{first_edge_added};
ghost use Rattle.dcel_maps.specs.edits.Flip.{edge_flipped};
ghost use Rattle.dcel_maps.specs.edits.Line.{line_extended};
ghost use Rattle.dcel_maps.specs.edits.Outside.{face_closed, face_put_beside};
ghost use Rattle.dcel_maps.specs.edits.Split.{edge_split, edge_split_on_line, half_edge_split};
ghost use Rattle.dcel_maps.specs.edits.Triangle.{triangle_alone, vertex_inserted};
ghost use Rattle.dcel_maps.specs.Shapes.{IsLive, IsMesh, Mesh, end_of, face_of, next_of, origin_of, prev_of};
ghost use Rattle.dcel_maps.specs.Triangulations.{AllTriangles};
ghost use Rattle.dcel_plane.specs.Plane.{IsLeftOf, LiesAcross, LiesInFace, TrianglesTurnLeft, TurnsLeft};
ghost use Rattle.dcel_plane.specs.covering.Delaunay.{IsDelaunayTriangulation};
ghost use Rattle.dcel_plane.specs.hull.Closing.{IsClosedBeside, IsClosing, IsThick, IsThin};
ghost use Rattle.dcel_plane.specs.hull.Straight.{IsStraight, dot_of_steps};
ghost use Rattle.dcel_plane.specs.hull.Worked.{corner};
ghost use Rattle.dcel_plane.specs.covering.Covering.{IsConvex, IsHull, dot};

/// A triangle alone is a Delaunay triangulation and has a hull, if its vertices 1, 0 and 2 go round
/// counterclockwise.
pub fn first_triangles_have_a_hull<V, DE, UE, F>()
    ensures convex { (at : ℕ → Point) (vertices : V × V × V) (halves : List DE) (edges : List UE) (faces : List F)
        → TurnsLeft (at 1) (at 0) (at 2) → IsConvex at (triangle_alone vertices halves edges faces).shape }
    ensures hull { (at : ℕ → Point) (vertices : V × V × V) (halves : List DE) (edges : List UE) (faces : List F)
        → TurnsLeft (at 1) (at 0) (at 2) → IsHull at (triangle_alone vertices halves edges faces).shape }
    ensures triangulation { (at : ℕ → Point) (vertices : V × V × V) (halves : List DE) (edges : List UE) (faces : List F)
        → TurnsLeft (at 1) (at 0) (at 2) → IsDelaunayTriangulation at (triangle_alone vertices halves edges faces).shape }
{}

/// `flip_cw` between two inner triangles keeps the hull, wherever their corners are.
pub fn flips_keep_the_hull<V, DE, UE, F>()
    ensures convex { (at : ℕ → Point) (m : Mesh V DE UE F) (u : ℕ) → IsMesh m → CanFlip m.shape u → 0 < face_of m.shape (2 * u)
        → 0 < face_of m.shape (2 * u + 1) → IsConvex at m.shape → IsConvex at (edge_flipped m u).shape }
    ensures hull { (at : ℕ → Point) (m : Mesh V DE UE F) (u : ℕ) → IsMesh m → CanFlip m.shape u → 0 < face_of m.shape (2 * u)
        → 0 < face_of m.shape (2 * u + 1) → IsHull at m.shape → IsHull at (edge_flipped m u).shape }
{}

/// `insert_into_triangle` keeps the hull if the vertex is on the left of each half edge of the
/// triangle.
pub fn insertions_keep_the_hull<V, DE, UE, F>()
    ensures convex { (at : ℕ → Point) (m : Mesh V DE UE F) (v f : ℕ) (halves : List DE) (edges : List UE) (faces : List F)
        → IsMesh m → AllTriangles m.shape → TrianglesTurnLeft at m.shape → 0 < f → IsTriangle m.shape f → LiesInFace at m.shape f (at v)
        → IsMesh (vertex_inserted m v f halves edges faces)
        → IsConvex at m.shape → IsHull at m.shape → IsConvex at (vertex_inserted m v f halves edges faces).shape }
    ensures hull { (at : ℕ → Point) (m : Mesh V DE UE F) (v f : ℕ) (halves : List DE) (edges : List UE) (faces : List F)
        → IsMesh m → AllTriangles m.shape → TrianglesTurnLeft at m.shape → 0 < f → IsTriangle m.shape f → LiesInFace at m.shape f (at v)
        → IsMesh (vertex_inserted m v f halves edges faces)
        → IsConvex at m.shape → IsHull at m.shape → IsHull at (vertex_inserted m v f halves edges faces).shape }
{}

/// `split_edge` keeps the hull if the vertex is on the left of each half edge of the two triangles
/// but the halves of the edge.
pub fn splits_keep_the_hull<V, DE, UE, F>()
    ensures convex { (at : ℕ → Point) (m : Mesh V DE UE F) (e v : ℕ) (halves : List DE) (edges : List UE) (faces : List F)
        → IsMesh m → AllTriangles m.shape → TrianglesTurnLeft at m.shape → IsLive m.shape e → 0 < face_of m.shape e → 0 < face_of m.shape (rev e)
        → LiesAcross at m.shape e (at v) → LiesAcross at m.shape (rev e) (at v) → IsMesh (edge_split m e v halves edges faces)
        → IsConvex at m.shape → IsHull at m.shape → IsConvex at (edge_split m e v halves edges faces).shape }
    ensures hull { (at : ℕ → Point) (m : Mesh V DE UE F) (e v : ℕ) (halves : List DE) (edges : List UE) (faces : List F)
        → IsMesh m → AllTriangles m.shape → TrianglesTurnLeft at m.shape → IsLive m.shape e → 0 < face_of m.shape e → 0 < face_of m.shape (rev e)
        → LiesAcross at m.shape e (at v) → LiesAcross at m.shape (rev e) (at v) → IsMesh (edge_split m e v halves edges faces)
        → IsConvex at m.shape → IsHull at m.shape → IsHull at (edge_split m e v halves edges faces).shape }
{}

/// `split_half_edge` keeps the hull if its other half is on the outer face, the vertex is on the
/// left of the other half edges of the triangle, and on the edge's line.
pub fn half_splits_keep_the_hull<V, DE, UE, F>()
    ensures convex { (at : ℕ → Point) (m : Mesh V DE UE F) (e v : ℕ) (halves : List DE) (edges : List UE) (faces : List F)
        → IsMesh m → TrianglesTurnLeft at m.shape → IsLive m.shape e → IsTriangle m.shape (face_of m.shape e) → 0 < face_of m.shape e → face_of m.shape (rev e) ≡ 0
        → LiesAcross at m.shape e (at v) → orient2d_of (at (origin_of m.shape e)) (at (end_of m.shape e)) (at v) ≡ pos 0
        → IsMesh (half_edge_split m e v halves edges faces)
        → IsConvex at m.shape → IsHull at m.shape → IsConvex at (half_edge_split m e v halves edges faces).shape }
    ensures hull { (at : ℕ → Point) (m : Mesh V DE UE F) (e v : ℕ) (halves : List DE) (edges : List UE) (faces : List F)
        → IsMesh m → TrianglesTurnLeft at m.shape → IsLive m.shape e → IsTriangle m.shape (face_of m.shape e) → 0 < face_of m.shape e → face_of m.shape (rev e) ≡ 0
        → LiesAcross at m.shape e (at v) → orient2d_of (at (origin_of m.shape e)) (at (end_of m.shape e)) (at v) ≡ pos 0
        → IsMesh (half_edge_split m e v halves edges faces)
        → IsConvex at m.shape → IsHull at m.shape → IsHull at (half_edge_split m e v halves edges faces).shape }
{}

/// `create_new_face_adjacent_to_edge` begins a closing if an outer half edge of a convex hull has the
/// vertex on its left: the hull is convex but for the corners beside the vertex.
///
/// `thick`: with an inner triangle there are three old vertices that aren't on one line.
pub fn triangles_beside_begin_a_closing<V, DE, UE, F>()
    ensures closing { (at : ℕ → Point) (m : Mesh V DE UE F) (e v : ℕ) (halves : List DE) (edges : List UE) (faces : List F)
        → IsMesh m → IsLive m.shape e → face_of m.shape e ≡ 0 → IsLeftOf at m.shape (at v) e → IsMesh (face_put_beside m e v halves edges faces)
        → IsConvex at m.shape → IsHull at m.shape → IsClosing at (face_put_beside m e v halves edges faces).shape v }
    ensures hull { (at : ℕ → Point) (m : Mesh V DE UE F) (e v : ℕ) (halves : List DE) (edges : List UE) (faces : List F)
        → IsMesh m → IsLive m.shape e → face_of m.shape e ≡ 0 → IsLeftOf at m.shape (at v) e → IsMesh (face_put_beside m e v halves edges faces)
        → IsConvex at m.shape → IsHull at m.shape → IsHull at (face_put_beside m e v halves edges faces).shape }
    ensures thick { (at : ℕ → Point) (m : Mesh V DE UE F) (e v h : ℕ) (halves : List DE) (edges : List UE) (faces : List F)
        → IsMesh m → IsLive m.shape e → face_of m.shape e ≡ 0 → IsLeftOf at m.shape (at v) e → IsMesh (face_put_beside m e v halves edges faces)
        → AllTriangles m.shape → TrianglesTurnLeft at m.shape → IsConvex at m.shape → IsHull at m.shape → IsLive m.shape h → 0 < face_of m.shape h
        → IsThick at (face_put_beside m e v halves edges faces).shape v }
{}

/// `create_single_face_between_edge_and_next` goes on with a closing, at any corner where the outer
/// face turns in.
pub fn closed_triangles_keep_the_closing<V, DE, UE, F>()
    ensures closing { (at : ℕ → Point) (m : Mesh V DE UE F) (t e : ℕ) (halves : List DE) (edges : List UE) (faces : List F)
        → IsMesh m → IsLive m.shape e → face_of m.shape e ≡ 0 → IsLeftOf at m.shape (at (end_of m.shape (next_of m.shape e))) e
        → IsMesh (face_closed m e halves edges faces)
        → IsClosing at m.shape t → IsClosing at (face_closed m e halves edges faces).shape t }
    ensures hull { (at : ℕ → Point) (m : Mesh V DE UE F) (t e : ℕ) (halves : List DE) (edges : List UE) (faces : List F)
        → IsMesh m → IsLive m.shape e → face_of m.shape e ≡ 0 → IsLeftOf at m.shape (at (end_of m.shape (next_of m.shape e))) e
        → IsMesh (face_closed m e halves edges faces)
        → IsClosing at m.shape t → IsHull at m.shape → IsHull at (face_closed m e halves edges faces).shape }
    ensures thick { (at : ℕ → Point) (m : Mesh V DE UE F) (t e : ℕ) (halves : List DE) (edges : List UE) (faces : List F)
        → IsMesh m → IsLive m.shape e → face_of m.shape e ≡ 0 → IsLeftOf at m.shape (at (end_of m.shape (next_of m.shape e))) e
        → IsMesh (face_closed m e halves edges faces)
        → IsClosing at m.shape t → IsThick at m.shape t → IsThick at (face_closed m e halves edges faces).shape t }
    ensures thin { (at : ℕ → Point) (m : Mesh V DE UE F) (t e : ℕ) (halves : List DE) (edges : List UE) (faces : List F)
        → IsMesh m → IsLive m.shape e → face_of m.shape e ≡ 0 → IsLeftOf at m.shape (at (end_of m.shape (next_of m.shape e))) e
        → IsMesh (face_closed m e halves edges faces)
        → IsClosing at m.shape t → IsThin at m.shape t → IsThin at (face_closed m e halves edges faces).shape t }
{}

/// While triangles are closed on one side of the new vertex, the corner on its other side doesn't
/// begin to turn in.
pub fn closed_corners_stay_closed<V, DE, UE, F>()
    ensures after { (at : ℕ → Point) (m : Mesh V DE UE F) (t e : ℕ) (halves : List DE) (edges : List UE) (faces : List F)
        → IsMesh m → IsLive m.shape e → face_of m.shape e ≡ 0 → IsLeftOf at m.shape (at (end_of m.shape (next_of m.shape e))) e
        → IsMesh (face_closed m e halves edges faces) → IsClosing at m.shape t → IsHull at m.shape
        → ((h : ℕ) → IsLive m.shape h → face_of m.shape h ≡ 0 → origin_of m.shape h ≡ t → orient2d_of (at (end_of m.shape h)) (at (end_of m.shape (next_of m.shape h))) (at t) ≤ℤ pos 0)
        → ((h : ℕ) → IsLive (face_closed m e halves edges faces).shape h → face_of (face_closed m e halves edges faces).shape h ≡ 0 → origin_of (face_closed m e halves edges faces).shape h ≡ t → orient2d_of (at (end_of (face_closed m e halves edges faces).shape h)) (at (end_of (face_closed m e halves edges faces).shape (next_of (face_closed m e halves edges faces).shape h))) (at t) ≤ℤ pos 0) }
    ensures before { (at : ℕ → Point) (m : Mesh V DE UE F) (t e : ℕ) (halves : List DE) (edges : List UE) (faces : List F)
        → IsMesh m → IsLive m.shape e → face_of m.shape e ≡ 0 → IsLeftOf at m.shape (at (end_of m.shape (next_of m.shape e))) e
        → IsMesh (face_closed m e halves edges faces) → IsClosing at m.shape t → IsHull at m.shape
        → ((h : ℕ) → IsLive m.shape h → face_of m.shape h ≡ 0 → end_of m.shape h ≡ t → orient2d_of (at (origin_of m.shape (prev_of m.shape h))) (at (origin_of m.shape h)) (at t) ≤ℤ pos 0)
        → ((h : ℕ) → IsLive (face_closed m e halves edges faces).shape h → face_of (face_closed m e halves edges faces).shape h ≡ 0 → end_of (face_closed m e halves edges faces).shape h ≡ t → orient2d_of (at (origin_of (face_closed m e halves edges faces).shape (prev_of (face_closed m e halves edges faces).shape h))) (at (origin_of (face_closed m e halves edges faces).shape h)) (at t) ≤ℤ pos 0) }
{}

/// So it is where the old vertices are a line.
pub fn closed_corners_stay_closed_from_a_line<V, DE, UE, F>()
    ensures after { (at : ℕ → Point) (m : Mesh V DE UE F) (t e : ℕ) (halves : List DE) (edges : List UE) (faces : List F)
        → IsMesh m → IsLive m.shape e → face_of m.shape e ≡ 0 → IsLeftOf at m.shape (at (end_of m.shape (next_of m.shape e))) e
        → IsMesh (face_closed m e halves edges faces) → AllTriangles m.shape → TrianglesTurnLeft at m.shape → IsClosing at m.shape t → IsThin at m.shape t
        → ((h : ℕ) → IsLive m.shape h → face_of m.shape h ≡ 0 → origin_of m.shape h ≡ t → orient2d_of (at (end_of m.shape h)) (at (end_of m.shape (next_of m.shape h))) (at t) ≤ℤ pos 0)
        → ((h : ℕ) → IsLive (face_closed m e halves edges faces).shape h → face_of (face_closed m e halves edges faces).shape h ≡ 0 → origin_of (face_closed m e halves edges faces).shape h ≡ t → orient2d_of (at (end_of (face_closed m e halves edges faces).shape h)) (at (end_of (face_closed m e halves edges faces).shape (next_of (face_closed m e halves edges faces).shape h))) (at t) ≤ℤ pos 0) }
    ensures before { (at : ℕ → Point) (m : Mesh V DE UE F) (t e : ℕ) (halves : List DE) (edges : List UE) (faces : List F)
        → IsMesh m → IsLive m.shape e → face_of m.shape e ≡ 0 → IsLeftOf at m.shape (at (end_of m.shape (next_of m.shape e))) e
        → IsMesh (face_closed m e halves edges faces) → AllTriangles m.shape → TrianglesTurnLeft at m.shape → IsClosing at m.shape t → IsThin at m.shape t
        → ((h : ℕ) → IsLive m.shape h → face_of m.shape h ≡ 0 → end_of m.shape h ≡ t → orient2d_of (at (origin_of m.shape (prev_of m.shape h))) (at (origin_of m.shape h)) (at t) ≤ℤ pos 0)
        → ((h : ℕ) → IsLive (face_closed m e halves edges faces).shape h → face_of (face_closed m e halves edges faces).shape h ≡ 0 → end_of (face_closed m e halves edges faces).shape h ≡ t → orient2d_of (at (origin_of (face_closed m e halves edges faces).shape (prev_of (face_closed m e halves edges faces).shape h))) (at (origin_of (face_closed m e halves edges faces).shape h)) (at t) ≤ℤ pos 0) }
{}

/// A closing is at its end when neither corner beside the new vertex turns in: then the outer face is
/// a convex hull, if the old vertices aren't all on one line.
pub fn closed_hulls_are_convex<V, DE, UE, F>()
    ensures { (at : ℕ → Point) (m : Mesh V DE UE F) (t : ℕ) → IsMesh m → IsClosing at m.shape t → IsThick at m.shape t → IsHull at m.shape
        → IsClosedBeside at m.shape t → IsConvex at m.shape }
{}

/// The outer face of a convex hull turns in nowhere, so no triangle can be closed there.
pub fn convex_hulls_turn_in_nowhere<V, DE, UE, F>()
    ensures { (at : ℕ → Point) (m : Mesh V DE UE F) (e : ℕ) → IsMesh m → IsConvex at m.shape → IsLive m.shape e → face_of m.shape e ≡ 0
        → ¬ IsLeftOf at m.shape (at (end_of m.shape (next_of m.shape e))) e }
{}

/// `setup_initial_two_vertices` makes a straight line, if the vertices are at two points.
pub fn first_edges_are_straight<V, DE, UE, F>()
    ensures { (at : ℕ → Point) (m : Mesh V DE UE F) (a b : ℕ) (halves : List DE) (edges : List UE)
        → ((at a).x ≡ (at b).x → (at a).y ≡ (at b).y → ⊥) → IsStraight at (first_edge_added m a b halves edges).shape }
{}

/// `extend_line` keeps a line straight if the vertex is on it, beyond that end.
pub fn extensions_keep_a_line_straight<V, DE, UE, F>()
    ensures { (at : ℕ → Point) (m : Mesh V DE UE F) (end tip h : ℕ) (halves : List DE) (edges : List UE)
        → IsMesh m → IsLineEnd m.shape end → IsStraight at m.shape → IsLive m.shape h → end_of m.shape h ≡ end
        → orient2d_of (at (origin_of m.shape h)) (at end) (at tip) ≡ pos 0 → pos 0 <ℤ dot_of_steps (at (origin_of m.shape h)) (at end) (at tip)
        → IsMesh (line_extended m end tip halves edges) → IsStraight at (line_extended m end tip halves edges).shape }
{}

/// `split_edge_when_all_vertices_on_line` keeps a line straight if the vertex is on the edge,
/// strictly between its ends.
pub fn line_splits_keep_a_line_straight<V, DE, UE, F>()
    ensures { (at : ℕ → Point) (m : Mesh V DE UE F) (e v : ℕ) (halves : List DE) (edges : List UE)
        → IsMesh m → IsLive m.shape e → orient2d_of (at (origin_of m.shape e)) (at (end_of m.shape e)) (at v) ≡ pos 0
        → dot (at (origin_of m.shape e)) (at (end_of m.shape e)) (at v) <ℤ pos 0 → IsMesh (edge_split_on_line m e v halves edges)
        → IsStraight at m.shape → IsStraight at (edge_split_on_line m e v halves edges).shape }
{}

/// A vertex put beside an edge of a straight line, on its left, begins a closing too.
pub fn triangles_beside_a_line_begin_a_closing<V, DE, UE, F>()
    ensures closing { (at : ℕ → Point) (m : Mesh V DE UE F) (e v : ℕ) (halves : List DE) (edges : List UE) (faces : List F)
        → IsMesh m → IsStraight at m.shape → IsLive m.shape e → face_of m.shape e ≡ 0 → IsLeftOf at m.shape (at v) e
        → IsMesh (face_put_beside m e v halves edges faces) → IsClosing at (face_put_beside m e v halves edges faces).shape v }
    ensures thin { (at : ℕ → Point) (m : Mesh V DE UE F) (e v : ℕ) (halves : List DE) (edges : List UE) (faces : List F)
        → IsMesh m → IsStraight at m.shape → IsLive m.shape e → face_of m.shape e ≡ 0 → IsLeftOf at m.shape (at v) e
        → IsMesh (face_put_beside m e v halves edges faces) → IsThin at (face_put_beside m e v halves edges faces).shape v }
{}

/// When such a closing is at its end, the outer face is a convex hull that passes each vertex once.
pub fn closings_from_a_line_end_in_a_hull<V, DE, UE, F>()
    ensures convex { (at : ℕ → Point) (m : Mesh V DE UE F) (t : ℕ) → IsMesh m → AllTriangles m.shape → TrianglesTurnLeft at m.shape
        → IsClosing at m.shape t → IsThin at m.shape t → IsClosedBeside at m.shape t → IsConvex at m.shape }
    ensures hull { (at : ℕ → Point) (m : Mesh V DE UE F) (t : ℕ) → IsMesh m → AllTriangles m.shape → TrianglesTurnLeft at m.shape
        → IsClosing at m.shape t → IsThin at m.shape t → IsClosedBeside at m.shape t → IsHull at m.shape }
{}

/// One worked mesh has a hull, and meets all conditions of a Delaunay triangulation: none of them is
/// beyond what a mesh can be.
pub fn a_worked_mesh<V, DE, UE, F>()
    ensures convex { (vertices : V × V × V) (halves : List DE) (edges : List UE) (faces : List F) → IsConvex corner (triangle_alone vertices halves edges faces).shape }
    ensures hull { (vertices : V × V × V) (halves : List DE) (edges : List UE) (faces : List F) → IsHull corner (triangle_alone vertices halves edges faces).shape }
    ensures triangulation { (vertices : V × V × V) (halves : List DE) (edges : List UE) (faces : List F)
        → IsDelaunayTriangulation corner (triangle_alone vertices halves edges faces).shape }
{}
