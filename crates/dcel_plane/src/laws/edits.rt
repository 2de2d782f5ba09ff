//! Laws of edits: which keep triangles positively oriented and edges locally Delaunay. These calls
//! compute nothing; whoever makes one learns what it ensures.
//!
//! In all of them `at` says where each vertex is. Each edit has two clauses: `plane`, by which
//! a mesh in the plane stays one, and `due`, by which a list that had each edge with a corner
//! inside the circle of the other side has each such edge again, with a few edges more. A mesh in
//! the plane for which nothing is listed is Delaunay.

ghost use Rattle.std.specs.Prelude.{◌≡◌, ◌<◌, ◌++◌, ◌*◌, ◌+◌, ℕ, List, [], pos};
ghost use Rattle.dcel_fixed.specs.HalfEdges.{rev};
ghost use Rattle.dcel_predicates.specs.declared.point.Point.{Point};
ghost use Rattle.dcel_predicates.specs.Determinants.{orient2d_of};
ghost use Rattle.dcel_maps.specs.Conditions.{CanFlip, IsTriangle};
ghost use Rattle.dcel_maps.specs.edits.Create.{vertex_appended};
ghost use Rattle.dcel_maps.specs.edits.Flip.{edge_flipped};
ghost use Rattle.dcel_maps.specs.edits.Outside.{face_closed, face_put_beside};
ghost use Rattle.dcel_maps.specs.edits.Split.{edge_split, half_edge_split};
ghost use Rattle.dcel_maps.specs.edits.Triangle.{triangle_alone, vertex_inserted};
ghost use Rattle.dcel_maps.specs.Shapes.{IsLive, IsMesh, Mesh, end_of, face_count, face_of, next_of, origin_of};
ghost use Rattle.dcel_plane.specs.Edges.{edges_put_beside, edges_closed, edges_half_split, edges_inserted, edges_of_flip, edges_split};
ghost use Rattle.dcel_plane.specs.Volume.{volume_below};
ghost use Rattle.dcel_plane.specs.Plane.{IsCircled, IsInner, IsLeftOf, IsLocallyDelaunay, LiesAcross, LiesInFace, ListsCircled, TrianglesTurnLeft, TurnsLeft, point_at};

/// A mesh in the plane is Delaunay if no edge is left to list.
pub fn nothing_is_left_to_flip<V, DE, UE, F>()
    ensures { (at : ℕ → Point) (m : Mesh V DE UE F) → TrianglesTurnLeft at m.shape → ListsCircled at m.shape [] → IsLocallyDelaunay at m.shape }
{}

/// Of a Delaunay mesh nothing must be listed.
pub fn nothing_is_due_at_first<V, DE, UE, F>()
    ensures { (at : ℕ → Point) (m : Mesh V DE UE F) (due : List ℕ) → IsLocallyDelaunay at m.shape → ListsCircled at m.shape due }
{}

/// A mesh whose only face is the outer one is Delaunay, wherever its vertices are.
///
/// So is each mesh of no edge, of one edge, and each path.
pub fn lines_are_delaunay<V, DE, UE, F>()
    ensures { (at : ℕ → Point) (m : Mesh V DE UE F) → IsMesh m → face_count m.shape ≡ 1 → IsLocallyDelaunay at m.shape }
{}

/// A triangle alone is in the plane if its vertices 1, 0 and 2 go round counterclockwise.
pub fn first_triangles_lie_in_the_plane<V, DE, UE, F>()
    ensures { (at : ℕ → Point) (vertices : V × V × V) (halves : List DE) (edges : List UE) (faces : List F)
        → TurnsLeft (at 1) (at 0) (at 2) → TrianglesTurnLeft at (triangle_alone vertices halves edges faces).shape }
{}

/// A vertex that is appended is where its datum says, and moves nothing.
pub fn appended_vertices_move_nothing<DE, UE, F>()
    ensures stands { (m : Mesh Point DE UE F) (p : Point) → IsMesh m → point_at (vertex_appended m p) m.shape.vertices ≡ p }
    ensures others { (m : Mesh Point DE UE F) (p : Point) (v : ℕ) → IsMesh m → v < m.shape.vertices → point_at m v ≡ point_at (vertex_appended m p) v }
    ensures plane { (m : Mesh Point DE UE F) (p : Point) → IsMesh m → TrianglesTurnLeft (point_at m) m.shape
        → TrianglesTurnLeft (point_at (vertex_appended m p)) (vertex_appended m p).shape }
    ensures due { (m : Mesh Point DE UE F) (p : Point) (due : List ℕ) → IsMesh m → ListsCircled (point_at m) m.shape due
        → ListsCircled (point_at (vertex_appended m p)) (vertex_appended m p).shape due }
{}

/// Where numbers are that no vertex has doesn't matter.
pub fn other_numbers_stand_anywhere<V, DE, UE, F>()
    ensures plane { (at to : ℕ → Point) (m : Mesh V DE UE F) → IsMesh m → ((v : ℕ) → v < m.shape.vertices → at v ≡ to v)
        → TrianglesTurnLeft at m.shape → TrianglesTurnLeft to m.shape }
    ensures due { (at to : ℕ → Point) (m : Mesh V DE UE F) (due : List ℕ) → IsMesh m → ((v : ℕ) → v < m.shape.vertices → at v ≡ to v)
        → ListsCircled at m.shape due → ListsCircled to m.shape due }
{}

/// `insert_into_triangle` keeps a mesh in the plane if the vertex is on the left of each half
/// edge of the triangle.
pub fn insertions_keep_the_plane<V, DE, UE, F>()
    ensures plane { (at : ℕ → Point) (m : Mesh V DE UE F) (v f : ℕ) (halves : List DE) (edges : List UE) (faces : List F)
        → IsMesh m → IsTriangle m.shape f → LiesInFace at m.shape f (at v)
        → TrianglesTurnLeft at m.shape → TrianglesTurnLeft at (vertex_inserted m v f halves edges faces).shape }
    ensures due { (at : ℕ → Point) (m : Mesh V DE UE F) (v f : ℕ) (halves : List DE) (edges : List UE) (faces : List F) (due : List ℕ)
        → IsMesh m → IsTriangle m.shape f → LiesInFace at m.shape f (at v) → IsMesh (vertex_inserted m v f halves edges faces)
        → ListsCircled at m.shape due → ListsCircled at (vertex_inserted m v f halves edges faces).shape (due ++ edges_inserted m f) }
{}

/// `split_edge` keeps a mesh in the plane if the vertex is on the left of each half edge of the
/// two triangles but the halves of the edge.
pub fn splits_keep_the_plane<V, DE, UE, F>()
    ensures plane { (at : ℕ → Point) (m : Mesh V DE UE F) (e v : ℕ) (halves : List DE) (edges : List UE) (faces : List F)
        → IsMesh m → IsLive m.shape e → IsTriangle m.shape (face_of m.shape e) → IsTriangle m.shape (face_of m.shape (rev e))
        → LiesAcross at m.shape e (at v) → LiesAcross at m.shape (rev e) (at v)
        → TrianglesTurnLeft at m.shape → TrianglesTurnLeft at (edge_split m e v halves edges faces).shape }
    ensures due { (at : ℕ → Point) (m : Mesh V DE UE F) (e v : ℕ) (halves : List DE) (edges : List UE) (faces : List F) (due : List ℕ)
        → IsMesh m → IsLive m.shape e → IsTriangle m.shape (face_of m.shape e) → IsTriangle m.shape (face_of m.shape (rev e))
        → IsMesh (edge_split m e v halves edges faces)
        → ListsCircled at m.shape due → ListsCircled at (edge_split m e v halves edges faces).shape (due ++ edges_split m.shape e) }
{}

/// `split_half_edge` keeps a mesh in the plane if its other half is on the outer face, and the
/// vertex is on the left of the other half edges of the triangle.
pub fn half_splits_keep_the_plane<V, DE, UE, F>()
    ensures plane { (at : ℕ → Point) (m : Mesh V DE UE F) (e v : ℕ) (halves : List DE) (edges : List UE) (faces : List F)
        → IsMesh m → IsLive m.shape e → IsTriangle m.shape (face_of m.shape e) → 0 < face_of m.shape e → face_of m.shape (rev e) ≡ 0
        → LiesAcross at m.shape e (at v)
        → TrianglesTurnLeft at m.shape → TrianglesTurnLeft at (half_edge_split m e v halves edges faces).shape }
    ensures due { (at : ℕ → Point) (m : Mesh V DE UE F) (e v : ℕ) (halves : List DE) (edges : List UE) (faces : List F) (due : List ℕ)
        → IsMesh m → IsLive m.shape e → IsTriangle m.shape (face_of m.shape e) → 0 < face_of m.shape e → face_of m.shape (rev e) ≡ 0
        → IsMesh (half_edge_split m e v halves edges faces)
        → ListsCircled at m.shape due → ListsCircled at (half_edge_split m e v halves edges faces).shape (due ++ edges_half_split m.shape e) }
{}

/// `create_new_face_adjacent_to_edge` keeps a mesh in the plane if the half edge is on the outer
/// face, and the vertex is on the left of it.
pub fn triangles_beside_keep_the_plane<V, DE, UE, F>()
    ensures plane { (at : ℕ → Point) (m : Mesh V DE UE F) (e v : ℕ) (halves : List DE) (edges : List UE) (faces : List F)
        → IsMesh m → IsLive m.shape e → face_of m.shape e ≡ 0 → IsLeftOf at m.shape (at v) e
        → TrianglesTurnLeft at m.shape → TrianglesTurnLeft at (face_put_beside m e v halves edges faces).shape }
    ensures due { (at : ℕ → Point) (m : Mesh V DE UE F) (e v : ℕ) (halves : List DE) (edges : List UE) (faces : List F) (due : List ℕ)
        → IsMesh m → IsLive m.shape e → face_of m.shape e ≡ 0 → IsMesh (face_put_beside m e v halves edges faces)
        → ListsCircled at m.shape due → ListsCircled at (face_put_beside m e v halves edges faces).shape (due ++ edges_put_beside m.shape e) }
{}

/// `create_single_face_between_edge_and_next` keeps a mesh in the plane if the next half edge ends
/// on the left of the half edge.
pub fn closed_triangles_keep_the_plane<V, DE, UE, F>()
    ensures plane { (at : ℕ → Point) (m : Mesh V DE UE F) (e : ℕ) (halves : List DE) (edges : List UE) (faces : List F)
        → IsMesh m → IsLive m.shape e → IsLeftOf at m.shape (at (end_of m.shape (next_of m.shape e))) e
        → TrianglesTurnLeft at m.shape → TrianglesTurnLeft at (face_closed m e halves edges faces).shape }
    ensures due { (at : ℕ → Point) (m : Mesh V DE UE F) (e : ℕ) (halves : List DE) (edges : List UE) (faces : List F) (due : List ℕ)
        → IsMesh m → IsLive m.shape e → IsMesh (face_closed m e halves edges faces)
        → ListsCircled at m.shape due → ListsCircled at (face_closed m e halves edges faces).shape (due ++ edges_closed m.shape e) }
{}

/// `flip_cw` keeps a mesh in the plane if the edge is between two inner triangles, and a corner
/// of one inside the circle of the other.
pub fn flips_keep_the_plane<V, DE, UE, F>()
    ensures can { (at : ℕ → Point) (m : Mesh V DE UE F) (u : ℕ) → IsMesh m → IsInner m.shape u → IsCircled at m.shape u → CanFlip m.shape u }
    ensures plane { (at : ℕ → Point) (m : Mesh V DE UE F) (u : ℕ) → IsMesh m → IsInner m.shape u → IsCircled at m.shape u
        → TrianglesTurnLeft at m.shape → TrianglesTurnLeft at (edge_flipped m u).shape }
    ensures due { (at : ℕ → Point) (m : Mesh V DE UE F) (u : ℕ) (due : List ℕ) → IsMesh m → CanFlip m.shape u
        → ListsCircled at m.shape due → ListsCircled at (edge_flipped m u).shape (due ++ edges_of_flip m.shape u) }
{}

/// Such a flip makes the volume less that is below the mesh, lifted onto a paraboloid.
///
/// So no run of such flips is longer than the volume was at first.
pub fn flips_lower_the_volume_below<V, DE, UE, F>()
    ensures { (at : ℕ → Point) (m : Mesh V DE UE F) (u : ℕ) → IsMesh m → IsInner m.shape u → IsCircled at m.shape u → TrianglesTurnLeft at m.shape
        → volume_below at (edge_flipped m u).shape < volume_below at m.shape }
{}

/// A point that is on an edge between two inner triangles, and on the left of the other sides of
/// one of them, is so of the other one too.
pub fn points_on_an_edge_lie_across_both_sides<V, DE, UE, F>()
    ensures { (at : ℕ → Point) (m : Mesh V DE UE F) (e : ℕ) (p : Point)
        → IsMesh m → IsLive m.shape e → IsTriangle m.shape (face_of m.shape e) → IsTriangle m.shape (face_of m.shape (rev e))
        → 0 < face_of m.shape e → 0 < face_of m.shape (rev e) → TrianglesTurnLeft at m.shape
        → orient2d_of (at (origin_of m.shape e)) (at (end_of m.shape e)) p ≡ pos 0
        → LiesAcross at m.shape e p → LiesAcross at m.shape (rev e) p }
{}
