//! Laws of a vertex put into a Delaunay triangulation, and of the flips around it. These calls
//! compute nothing; whoever makes one learns what it ensures.
//!
//! The triangles at the vertex are its star, and the edges across from it in these are its link. Other
//! circles are empty (`HasEmptyCirclesBut`) if no other vertex is inside the circle of a triangle away
//! from the star, nor, of a triangle of the star, inside the circle and on the vertex's side of the
//! link edge. Then only edges of the link are ever to be flipped, so each one needs one test (C. L.
//! Lawson, "Software for C1 surface interpolation", 1977; L. J. Guibas and J. Stolfi, "Primitives for
//! the manipulation of general subdivisions and the computation of Voronoi diagrams", 1985).

ghost use Rattle.std.specs.Prelude.{◌≡◌, ◌<◌, ◌*◌, ◌+◌, ◌∷◌, [], ◌++◌, ℕ, List, pos};
ghost use Rattle.dcel_fixed.specs.HalfEdges.{rev};
ghost use Rattle.dcel_predicates.specs.Determinants.{orient2d_of};
ghost use Rattle.dcel_predicates.specs.declared.point.Point.{Point};
ghost use Rattle.dcel_maps.specs.Conditions.{IsTriangle};
ghost use Rattle.dcel_maps.specs.edits.Create.{vertex_appended};
ghost use Rattle.dcel_maps.specs.edits.Flip.{edge_flipped};
ghost use Rattle.dcel_maps.specs.edits.Outside.{face_closed, face_put_beside};
ghost use Rattle.dcel_maps.specs.edits.Split.{edge_split, half_edge_split};
ghost use Rattle.dcel_maps.specs.edits.Triangle.{vertex_inserted};
ghost use Rattle.dcel_maps.specs.Shapes.{IsLive, IsMesh, Mesh, end_of, face_of, next_of, origin_of, prev_of};
ghost use Rattle.dcel_plane.specs.covering.Covering.{HasEmptyCircles};
ghost use Rattle.dcel_plane.specs.Plane.{IsCircled, IsInner, LiesAcross, LiesInFace, ListsCircled, TrianglesTurnLeft};
ghost use Rattle.dcel_plane.specs.star.Star.{HasEmptyCirclesBut, HasNoneOnLeft, IsLinkEdge, IsSpoke, edges_beside};

/// Where no vertex is inside a circle, other circles are empty for any vertex, also for a number that
/// no vertex has yet.
///
/// * `moved`: only where vertices are matters.
/// * `appended`: a vertex that is appended changes nothing.
pub fn delaunay_triangulations_have_empty_circles_but_one<V, DE, UE, F>()
    ensures empty { (at : ℕ → Point) (m : Mesh V DE UE F) (v : ℕ) → HasEmptyCircles at m.shape → HasEmptyCirclesBut at m.shape v }
    ensures moved { (at to : ℕ → Point) (m : Mesh V DE UE F) (v : ℕ) → IsMesh m → ((w : ℕ) → w < m.shape.vertices → at w ≡ to w)
        → HasEmptyCirclesBut at m.shape v → HasEmptyCirclesBut to m.shape v }
    ensures appended { (at : ℕ → Point) (m : Mesh Point DE UE F) (p : Point) (v : ℕ) → HasEmptyCirclesBut at m.shape v
        → HasEmptyCirclesBut at (vertex_appended m p).shape v }
{}

/// `insert_into_triangle` keeps other circles empty, if the vertex is on the left of each half edge of
/// the triangle.
pub fn insertions_keep_other_circles_empty<V, DE, UE, F>()
    ensures { (at : ℕ → Point) (m : Mesh V DE UE F) (v f : ℕ) (halves : List DE) (edges : List UE) (faces : List F)
        → IsMesh m → 0 < f → IsTriangle m.shape f → LiesInFace at m.shape f (at v) → TrianglesTurnLeft at m.shape
        → HasEmptyCirclesBut at m.shape v → HasEmptyCirclesBut at (vertex_inserted m v f halves edges faces).shape v }
{}

/// So do `split_edge`, between two triangles, and `split_half_edge`, of one, if the vertex is on the
/// line of the edge, and on the left of the other sides of the triangles.
pub fn splits_keep_other_circles_empty<V, DE, UE, F>()
    ensures whole { (at : ℕ → Point) (m : Mesh V DE UE F) (v e : ℕ) (halves : List DE) (edges : List UE) (faces : List F)
        → IsMesh m → IsLive m.shape e → IsTriangle m.shape (face_of m.shape e) → IsTriangle m.shape (face_of m.shape (rev e))
        → 0 < face_of m.shape e → 0 < face_of m.shape (rev e) → TrianglesTurnLeft at m.shape
        → orient2d_of (at (origin_of m.shape e)) (at (end_of m.shape e)) (at v) ≡ pos 0
        → LiesAcross at m.shape e (at v) → LiesAcross at m.shape (rev e) (at v)
        → HasEmptyCirclesBut at m.shape v → HasEmptyCirclesBut at (edge_split m e v halves edges faces).shape v }
    ensures half { (at : ℕ → Point) (m : Mesh V DE UE F) (v e : ℕ) (halves : List DE) (edges : List UE) (faces : List F)
        → IsMesh m → IsLive m.shape e → IsTriangle m.shape (face_of m.shape e) → 0 < face_of m.shape e → face_of m.shape (rev e) ≡ 0
        → TrianglesTurnLeft at m.shape → orient2d_of (at (origin_of m.shape e)) (at (end_of m.shape e)) (at v) ≡ pos 0 → LiesAcross at m.shape e (at v)
        → HasEmptyCirclesBut at m.shape v → HasEmptyCirclesBut at (half_edge_split m e v halves edges faces).shape v }
{}

/// So do `create_new_face_adjacent_to_edge` and `create_single_face_between_edge_and_next`, if no
/// other vertex is on the left of the edge that is across from the vertex in the new triangle.
pub fn triangles_beside_keep_other_circles_empty<V, DE, UE, F>()
    ensures beside { (at : ℕ → Point) (m : Mesh V DE UE F) (v e : ℕ) (halves : List DE) (edges : List UE) (faces : List F)
        → IsMesh m → IsLive m.shape e → face_of m.shape e ≡ 0 → HasNoneOnLeft at m.shape v e
        → HasEmptyCirclesBut at m.shape v → HasEmptyCirclesBut at (face_put_beside m e v halves edges faces).shape v }
    ensures closed_at_end { (at : ℕ → Point) (m : Mesh V DE UE F) (v e : ℕ) (halves : List DE) (edges : List UE) (faces : List F)
        → IsMesh m → IsLive m.shape e → end_of m.shape (next_of m.shape e) ≡ v → HasNoneOnLeft at m.shape v e
        → HasEmptyCirclesBut at m.shape v → HasEmptyCirclesBut at (face_closed m e halves edges faces).shape v }
    ensures closed_at_start { (at : ℕ → Point) (m : Mesh V DE UE F) (v e : ℕ) (halves : List DE) (edges : List UE) (faces : List F)
        → IsMesh m → IsLive m.shape e → origin_of m.shape e ≡ v → HasNoneOnLeft at m.shape v (next_of m.shape e)
        → HasEmptyCirclesBut at m.shape v → HasEmptyCirclesBut at (face_closed m e halves edges faces).shape v }
{}

/// No edge of the vertex is ever to be flipped: one that is has the vertex across from it.
pub fn only_edges_of_the_link_are_circled<V, DE, UE, F>()
    ensures spokes { (at : ℕ → Point) (m : Mesh V DE UE F) (u v : ℕ) → IsMesh m → IsInner m.shape u → TrianglesTurnLeft at m.shape
        → HasEmptyCirclesBut at m.shape v → IsSpoke m.shape v u → ¬ IsCircled at m.shape u }
    ensures link { (at : ℕ → Point) (m : Mesh V DE UE F) (u v : ℕ) → IsMesh m → IsInner m.shape u → TrianglesTurnLeft at m.shape
        → HasEmptyCirclesBut at m.shape v → IsCircled at m.shape u → IsLinkEdge m.shape v u }
{}

/// A flip of such an edge keeps other circles empty, and only the other sides of the triangle
/// beyond the edge, which are new in the link, may have to be flipped then.
///
/// The edge was the last of the list, and the two sides replace it. `near` and `far` are for the half
/// that has the vertex across from it.
pub fn flips_keep_other_circles_empty<V, DE, UE, F>()
    ensures kept { (at : ℕ → Point) (m : Mesh V DE UE F) (u v : ℕ) → IsMesh m → IsInner m.shape u → IsCircled at m.shape u → TrianglesTurnLeft at m.shape
        → HasEmptyCirclesBut at m.shape v → HasEmptyCirclesBut at (edge_flipped m u).shape v }
    ensures near { (at : ℕ → Point) (m : Mesh V DE UE F) (u v : ℕ) (due : List ℕ) → IsMesh m → IsInner m.shape u → IsCircled at m.shape u → TrianglesTurnLeft at m.shape
        → HasEmptyCirclesBut at m.shape v → origin_of m.shape (prev_of m.shape (2 * u)) ≡ v
        → ListsCircled at m.shape (due ++ u ∷ []) → ListsCircled at (edge_flipped m u).shape (due ++ edges_beside m.shape (2 * u + 1)) }
    ensures far { (at : ℕ → Point) (m : Mesh V DE UE F) (u v : ℕ) (due : List ℕ) → IsMesh m → IsInner m.shape u → IsCircled at m.shape u → TrianglesTurnLeft at m.shape
        → HasEmptyCirclesBut at m.shape v → origin_of m.shape (prev_of m.shape (2 * u + 1)) ≡ v
        → ListsCircled at m.shape (due ++ u ∷ []) → ListsCircled at (edge_flipped m u).shape (due ++ edges_beside m.shape (2 * u)) }
{}
