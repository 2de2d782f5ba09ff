//! Laws of removal: which flips take edges from a vertex, and what is left where it is taken out.
//! These calls compute nothing; whoever makes one learns what it ensures.

ghost use Rattle.std.specs.Prelude.{◌≡◌, ◌≢◌, ◌⊎◌, List, ◌∷◌, ◌++◌, length, map, reverse, ◌<◌, ◌≤◌, ◌+◌, ◌-◌, ◌*◌, ◌/◌, true, ℕ, suc, ℤ, pos, ◌≤ℤ◌};
ghost use Rattle.dcel_predicates.specs.declared.point.Point.{Point};
ghost use Rattle.dcel_predicates.specs.Determinants.{orient2d_of};
ghost use Rattle.dcel_maps.specs.Borders.{IsBorderLoop};
ghost use Rattle.dcel_maps.specs.Conditions.{CanFlip};
ghost use Rattle.dcel_maps.specs.Degenerate.{CanRemoveDegenerate, HasFewOutEdges};
ghost use Rattle.dcel_maps.specs.edits.Degenerate.{removed_degenerate};
ghost use Rattle.dcel_maps.specs.edits.Fill.{hole_filled};
ghost use Rattle.dcel_maps.specs.edits.Flip.{edge_flipped};
ghost use Rattle.dcel_maps.specs.edits.Strip.{strip_cut};
ghost use Rattle.dcel_maps.specs.Removals.{Cleaned, Closed};
ghost use Rattle.dcel_maps.specs.Renumbered.{new_edge};
ghost use Rattle.dcel_maps.specs.Renumbering.{cleaned_up, moved, vertex_taken_out};
ghost use Rattle.dcel_maps.specs.Shapes.{IsLive, IsMesh, Mesh, end_of, face_count, face_of, next_of, origin_of, prev_of, vertex_is_live};
ghost use Rattle.dcel_maps.specs.Strips.{IsEdgeStrip, IsStripAround};
ghost use Rattle.dcel_maps.specs.Triangulations.{AllTriangles};
ghost use Rattle.dcel_maps.specs.Walking.{IsOutEdge, IsRoundTrip, ListsOnce, ccw_of, walk_of};
ghost use Rattle.dcel_maps.specs.Words.{count_of};
ghost use Rattle.dcel_plane.specs.Plane.{ListsCircled, TrianglesTurnLeft, TurnsLeft};
ghost use Rattle.dcel_plane.specs.removal.Wheels.{CanFlipInPlane, CanTurnAt, EarsLeft, IsFan, IsFlattened, IsFlippable, IsHollow, IsWheel, LeadsAcross, LiesBetween, LiesOnHull, MakesTwo, TrianglesTurnLeftBut, turns};
ghost use Rattle.dcel_plane.specs.covering.Covering.{IsConvex, IsHull};
ghost use Rattle.dcel_plane.specs.hull.Straight.{IsStraight};

/// Of five or more triangles around a point, an edge can be flipped so that both of its triangles
/// turn left.
pub fn five_neighbors_can_be_fewer()
    ensures { (v : Point) (u : ℕ → Point) (k : ℕ) → IsWheel v u k → 4 < k → (i : ℕ) × (i < k) × IsFlippable v u i }
{}

/// Of four too, or the point is between two neighbors that don't follow each other.
pub fn four_neighbors_can_be_fewer()
    ensures either { (v : Point) (u : ℕ → Point) → IsWheel v u 4 → ((i : ℕ) × (i < 4) × IsFlippable v u i) ⊎ ((i : ℕ) × (i < 2) × LiesBetween v u i) }
    ensures triangles { (v : Point) (u : ℕ → Point) → IsWheel v u 4
        → (i : ℕ) × (i < 4) × (pos 0 ≤ℤ orient2d_of v (u i) (u (i + 2))) × TurnsLeft (u i) (u (i + 1)) (u (i + 2)) × TurnsLeft (u (i + 2)) (u (i + 3)) (u i) }
{}

/// The triangles around an inner vertex go round it once.
pub fn inner_vertices_have_wheels<V, DE, UE, F>()
    ensures { (at : ℕ → Point) (m : Mesh V DE UE F) (h : ℕ) (w : List ℕ) → IsMesh m → AllTriangles m.shape → TrianglesTurnLeft at m.shape
        → IsConvex at m.shape → IsHull at m.shape → IsLive m.shape h
        → ((k : ℕ) → IsLive m.shape k → origin_of m.shape k ≡ origin_of m.shape h → 0 < face_of m.shape k) → IsRoundTrip (ccw_of m.shape) h w
        → IsWheel (at (origin_of m.shape h)) (λ i. at (end_of m.shape (turns (ccw_of m.shape) i h))) (length w) }
{}

/// An inner vertex of five or more edges has one that can be flipped.
pub fn vertices_of_five_have_an_edge_to_flip<V, DE, UE, F>()
    ensures { (at : ℕ → Point) (m : Mesh V DE UE F) (h : ℕ) (w : List ℕ) → IsMesh m → AllTriangles m.shape → TrianglesTurnLeft at m.shape
        → IsConvex at m.shape → IsHull at m.shape → IsLive m.shape h
        → ((k : ℕ) → IsLive m.shape k → origin_of m.shape k ≡ origin_of m.shape h → 0 < face_of m.shape k) → IsRoundTrip (ccw_of m.shape) h w
        → 4 < length w → (e : ℕ) × (0 < count_of e w) × CanFlipInPlane at m.shape (e / 2) }
{}

/// One of four edges has too, or two of its edges lead opposite ways.
pub fn vertices_of_four_have_an_edge_to_flip_or_lead_across<V, DE, UE, F>()
    ensures { (at : ℕ → Point) (m : Mesh V DE UE F) (h : ℕ) (w : List ℕ) → IsMesh m → AllTriangles m.shape → TrianglesTurnLeft at m.shape
        → IsConvex at m.shape → IsHull at m.shape → IsLive m.shape h
        → ((k : ℕ) → IsLive m.shape k → origin_of m.shape k ≡ origin_of m.shape h → 0 < face_of m.shape k) → IsRoundTrip (ccw_of m.shape) h w
        → length w ≡ 4 → ((e : ℕ) × (0 < count_of e w) × CanFlipInPlane at m.shape (e / 2)) ⊎ ((e : ℕ) × (0 < count_of e w) × LeadsAcross at m.shape e) }
{}

/// The neighbors of an inner vertex of three edges turn left.
pub fn neighbors_of_three_turn_left<V, DE, UE, F>()
    ensures { (at : ℕ → Point) (m : Mesh V DE UE F) (h : ℕ) (w : List ℕ) → IsMesh m → AllTriangles m.shape → TrianglesTurnLeft at m.shape
        → IsConvex at m.shape → IsHull at m.shape → IsLive m.shape h
        → ((k : ℕ) → IsLive m.shape k → origin_of m.shape k ≡ origin_of m.shape h → 0 < face_of m.shape k) → IsRoundTrip (ccw_of m.shape) h w
        → length w ≡ 3 → TurnsLeft (at (end_of m.shape h)) (at (end_of m.shape (turns (ccw_of m.shape) 1 h))) (at (end_of m.shape (turns (ccw_of m.shape) 2 h))) }
{}

/// A flip takes one half edge from each end of its edge, and a vertex inside stays inside.
pub fn flips_take_an_edge_from_a_vertex<V, DE, UE, F>()
    ensures fewer { (m : Mesh V DE UE F) (e : ℕ) (w after : List ℕ) → IsMesh m → CanFlip m.shape (e / 2)
        → ListsOnce (IsOutEdge m.shape (origin_of m.shape e)) w → ListsOnce (IsOutEdge (edge_flipped m (e / 2)).shape (origin_of m.shape e)) after
        → length w ≡ length after + 1 }
    ensures inner { (m : Mesh V DE UE F) (e v : ℕ) → IsMesh m → CanFlip m.shape (e / 2) → 0 < face_of m.shape (2 * (e / 2)) → 0 < face_of m.shape (2 * (e / 2) + 1)
        → ((k : ℕ) → IsLive m.shape k → origin_of m.shape k ≡ v → 0 < face_of m.shape k)
        → (k : ℕ) → IsLive (edge_flipped m (e / 2)).shape k → origin_of (edge_flipped m (e / 2)).shape k ≡ v → 0 < face_of (edge_flipped m (e / 2)).shape k }
{}

/// The neighbors of a vertex of four edges make two triangles without it, from one of them on.
pub fn neighbors_of_four_make_two_triangles<V, DE, UE, F>()
    ensures { (at : ℕ → Point) (m : Mesh V DE UE F) (h : ℕ) (w : List ℕ) → IsMesh m → AllTriangles m.shape → TrianglesTurnLeft at m.shape
        → IsConvex at m.shape → IsHull at m.shape → IsLive m.shape h
        → ((k : ℕ) → IsLive m.shape k → origin_of m.shape k ≡ origin_of m.shape h → 0 < face_of m.shape k) → IsRoundTrip (ccw_of m.shape) h w
        → length w ≡ 4 → (e : ℕ) × (0 < count_of e w) × MakesTwo at m.shape e }
{}

/// A vertex given up, and the hole filled: the mesh stays in the plane if the new triangles turn
/// left, as they do where there were three, and where there were four and the border begins at the
/// right one; and the hull stays as it is.
pub fn filled_holes_stay_in_the_plane<V, DE, UE, F>()
    ensures ears { (at : ℕ → Point) (m : Mesh V DE UE F) (v p q r : ℕ) (rest border : List ℕ) (halves : List DE) (edges : List UE) (faces : List F)
        → IsMesh m → m.shape.removal ≡ Closed → IsBorderLoop m.shape border v → reverse border ≡ p ∷ q ∷ r ∷ rest
        → EarsLeft at (origin_of m.shape) (origin_of m.shape p) q r rest → TrianglesTurnLeft at m.shape → TrianglesTurnLeft at (hole_filled m v border halves edges faces).shape }
    ensures three { (at : ℕ → Point) (m : Mesh V DE UE F) (v : ℕ) (border : List ℕ) (halves : List DE) (edges : List UE) (faces : List F)
        → IsMesh m → AllTriangles m.shape → TrianglesTurnLeft at m.shape → IsConvex at m.shape → IsHull at m.shape → m.shape.removal ≡ Closed
        → IsBorderLoop m.shape border v → length border ≡ 3 → TrianglesTurnLeft at (hole_filled m v border halves edges faces).shape }
    ensures four { (at : ℕ → Point) (m : Mesh V DE UE F) (v : ℕ) (border : List ℕ) (halves : List DE) (edges : List UE) (faces : List F)
        → IsMesh m → AllTriangles m.shape → TrianglesTurnLeft at m.shape → IsConvex at m.shape → IsHull at m.shape → m.shape.removal ≡ Closed
        → (loop : IsBorderLoop m.shape border v) → length border ≡ 4 → MakesTwo at m.shape loop.first
        → TrianglesTurnLeft at (hole_filled m v border halves edges faces).shape }
    ensures due { (at : ℕ → Point) (m : Mesh V DE UE F) (v : ℕ) (border : List ℕ) (halves : List DE) (edges : List UE) (faces : List F) (due list : List ℕ)
        → IsMesh m → m.shape.removal ≡ Closed → IsBorderLoop m.shape border v
        → ((h : ℕ) → IsLive (hole_filled m v border halves edges faces).shape h → face_count m.shape ≤ face_of (hole_filled m v border halves edges faces).shape h
        → 0 < count_of (h / 2) list)
        → ListsCircled at m.shape due → ListsCircled at (hole_filled m v border halves edges faces).shape (due ++ list) }
    ensures convex { (at : ℕ → Point) (m : Mesh V DE UE F) (v : ℕ) (border : List ℕ) (halves : List DE) (edges : List UE) (faces : List F)
        → IsMesh m → m.shape.removal ≡ Closed → IsBorderLoop m.shape border v → IsConvex at m.shape → IsConvex at (hole_filled m v border halves edges faces).shape }
    ensures hull { (at : ℕ → Point) (m : Mesh V DE UE F) (v : ℕ) (border : List ℕ) (halves : List DE) (edges : List UE) (faces : List F)
        → IsMesh m → m.shape.removal ≡ Closed → IsBorderLoop m.shape border v → IsHull at m.shape → IsHull at (hole_filled m v border halves edges faces).shape }
{}

/// So it does, with its hull, when the removal is cleaned up, and the vertex taken out, whose
/// number the last one gets.
pub fn other_numbers_keep_plane_and_hull<V, DE, UE, F>()
    ensures cleanup { (at : ℕ → Point) (m : Mesh V DE UE F) → IsMesh m → IsMesh (cleaned_up m)
        → (TrianglesTurnLeft at m.shape → TrianglesTurnLeft at (cleaned_up m).shape) × (IsConvex at m.shape → IsConvex at (cleaned_up m).shape) × (IsHull at m.shape → IsHull at (cleaned_up m).shape) }
    ensures due { (at : ℕ → Point) (m : Mesh V DE UE F) (due : List ℕ) → IsMesh m → IsMesh (cleaned_up m)
        → ListsCircled at m.shape due → ListsCircled at (cleaned_up m).shape (map (new_edge m.shape) due) }
    ensures vertex_due { (at after : ℕ → Point) (m : Mesh V DE UE F) (v : ℕ) (due : List ℕ) → IsMesh m → m.shape.removal ≡ Cleaned v → IsMesh (vertex_taken_out m v)
        → ((w : ℕ) → vertex_is_live m.shape w ≡ true → after (moved (m.shape.vertices - 1) v w) ≡ at w)
        → ListsCircled at m.shape due → ListsCircled after (vertex_taken_out m v).shape due }
    ensures vertex { (at after : ℕ → Point) (m : Mesh V DE UE F) (v : ℕ) → IsMesh m → m.shape.removal ≡ Cleaned v → IsMesh (vertex_taken_out m v)
        → ((w : ℕ) → vertex_is_live m.shape w ≡ true → after (moved (m.shape.vertices - 1) v w) ≡ at w)
        → (TrianglesTurnLeft at m.shape → TrianglesTurnLeft after (vertex_taken_out m v).shape) × (IsConvex at m.shape → IsConvex after (vertex_taken_out m v).shape)
        × (IsHull at m.shape → IsHull after (vertex_taken_out m v).shape) }
{}

/// So it is with a straight line.
pub fn other_numbers_keep_a_line<V, DE, UE, F>()
    ensures cleanup { (at : ℕ → Point) (m : Mesh V DE UE F) → IsMesh m → IsMesh (cleaned_up m) → IsStraight at m.shape → IsStraight at (cleaned_up m).shape }
    ensures vertex { (at after : ℕ → Point) (m : Mesh V DE UE F) (v : ℕ) → IsMesh m → m.shape.removal ≡ Cleaned v → IsMesh (vertex_taken_out m v)
        → ((w : ℕ) → vertex_is_live m.shape w ≡ true → after (moved (m.shape.vertices - 1) v w) ≡ at w)
        → IsStraight at m.shape → IsStraight after (vertex_taken_out m v).shape }
{}

/// Of the triangles at a corner of the hull, an edge can be flipped, or the hull goes along the
/// other sides without the corner, or the corner is between two others, with one triangle less.
pub fn corners_of_the_hull_can_have_fewer_or_go()
    ensures { (v : Point) (u : ℕ → Point) (k : ℕ) → IsFan v u k → 1 < k
        → ((i : ℕ) × (i + 2 ≤ k) × IsFlippable v u i) ⊎ (IsHollow v u k ⊎ LiesOnHull v u k) }
{}

/// The triangles at a corner of the hull make a fan: an edge can be flipped, or the corner can go.
pub fn corners_of_the_hull_have_an_edge_to_flip_or_can_go<V, DE, UE, F>()
    ensures fan { (at : ℕ → Point) (m : Mesh V DE UE F) (h : ℕ) (w : List ℕ) → IsMesh m → AllTriangles m.shape → TrianglesTurnLeft at m.shape
        → IsConvex at m.shape → IsHull at m.shape → IsLive m.shape h → face_of m.shape h ≡ 0 → IsRoundTrip (ccw_of m.shape) h w
        → IsFan (at (origin_of m.shape h)) (λ i. at (end_of m.shape (turns (ccw_of m.shape) (suc i) h))) (length w - 1) }
    ensures turn { (at : ℕ → Point) (m : Mesh V DE UE F) (h : ℕ) (w : List ℕ) → IsMesh m → AllTriangles m.shape → TrianglesTurnLeft at m.shape
        → IsConvex at m.shape → IsHull at m.shape → IsLive m.shape h → face_of m.shape h ≡ 0 → IsRoundTrip (ccw_of m.shape) h w → 2 < length w
        → ((e : ℕ) × (0 < count_of e w) × CanFlipInPlane at m.shape (e / 2))
        ⊎ (IsHollow (at (origin_of m.shape h)) (λ i. at (end_of m.shape (turns (ccw_of m.shape) (suc i) h))) (length w - 1)
        ⊎ LiesOnHull (at (origin_of m.shape h)) (λ i. at (end_of m.shape (turns (ccw_of m.shape) (suc i) h))) (length w - 1)) }
{}

/// Each corner of the hull has a strip, if there is a triangle.
pub fn corners_of_the_hull_have_a_strip<V, DE, UE, F>()
    ensures { (at : ℕ → Point) (m : Mesh V DE UE F) (h g : ℕ) → IsMesh m → AllTriangles m.shape → TrianglesTurnLeft at m.shape
        → IsConvex at m.shape → IsHull at m.shape → IsLive m.shape h → face_of m.shape h ≡ 0 → IsLive m.shape g → 0 < face_of m.shape g
        → IsStripAround m.shape (origin_of m.shape h) h }
{}

/// Where none of its edges can be flipped, a corner is hollow, or is between its neighbors on the hull.
pub fn corners_without_an_edge_to_flip_can_go<V, DE, UE, F>()
    ensures hollow { (at : ℕ → Point) (m : Mesh V DE UE F) (h g : ℕ) → IsMesh m → AllTriangles m.shape → TrianglesTurnLeft at m.shape
        → IsConvex at m.shape → IsHull at m.shape → IsLive m.shape h → face_of m.shape h ≡ 0
        → ((e : ℕ) → IsOutEdge m.shape (origin_of m.shape h) e → ¬ CanFlipInPlane at m.shape (e / 2)) → IsLive m.shape g → 0 < face_of m.shape g
        → ¬ (orient2d_of (at (origin_of m.shape h)) (at (end_of m.shape h)) (at (end_of m.shape (ccw_of m.shape h))) ≡ pos 0)
        → IsHollow (at (origin_of m.shape h)) (λ i. at (end_of m.shape (turns (ccw_of m.shape) (suc i) h))) (length (walk_of m.shape (ccw_of m.shape) h) - 1) }
    ensures between { (at : ℕ → Point) (m : Mesh V DE UE F) (h g : ℕ) → IsMesh m → AllTriangles m.shape → TrianglesTurnLeft at m.shape
        → IsConvex at m.shape → IsHull at m.shape → IsLive m.shape h → face_of m.shape h ≡ 0
        → ((e : ℕ) → IsOutEdge m.shape (origin_of m.shape h) e → ¬ CanFlipInPlane at m.shape (e / 2)) → IsLive m.shape g → 0 < face_of m.shape g
        → orient2d_of (at (origin_of m.shape h)) (at (end_of m.shape h)) (at (end_of m.shape (ccw_of m.shape h))) ≡ pos 0
        → LiesOnHull (at (origin_of m.shape h)) (λ i. at (end_of m.shape (turns (ccw_of m.shape) (suc i) h))) (length (walk_of m.shape (ccw_of m.shape) h) - 1) }
{}

/// Where no neighbor of a corner turns left, what is in the corner's angle, but in none of its
/// triangles, is on the right of all sides that face the corner: the hull can go along them.
pub fn hollow_corners_leave_all_on_the_right()
    ensures { (v x : Point) (u : ℕ → Point) (k : ℕ) → IsFan v u k → IsHollow v u k → 0 < k
        → pos 0 ≤ℤ orient2d_of v (u 0) x → pos 0 ≤ℤ orient2d_of v x (u k)
        → ((j : ℕ) → j < k → pos 0 ≤ℤ orient2d_of v (u j) x → pos 0 ≤ℤ orient2d_of v x (u (j + 1)) → orient2d_of (u j) (u (j + 1)) x ≤ℤ pos 0)
        → (i : ℕ) → i < k → orient2d_of (u i) (u (i + 1)) x ≤ℤ pos 0 }
{}

/// A corner of the hull cut off with its triangles: the mesh stays in the plane, the hull is convex
/// again where no neighbor turned left, and passes each vertex once, if a triangle is left; if none
/// is, what is left is a straight line.
pub fn hollow_corners_can_be_cut_off<V, DE, UE, F>()
    ensures plane { (at : ℕ → Point) (m : Mesh V DE UE F) (list : List ℕ) → IsMesh m → m.shape.removal ≡ Closed → IsEdgeStrip m.shape list
        → TrianglesTurnLeft at m.shape → TrianglesTurnLeft at (strip_cut m list).shape }
    ensures due { (at : ℕ → Point) (m : Mesh V DE UE F) (list due : List ℕ) → IsMesh m → m.shape.removal ≡ Closed → IsEdgeStrip m.shape list
        → ListsCircled at m.shape due → ListsCircled at (strip_cut m list).shape due }
    ensures convex { (at : ℕ → Point) (m : Mesh V DE UE F) (list : List ℕ) → IsMesh m → m.shape.removal ≡ Closed → (strip : IsEdgeStrip m.shape list)
        → AllTriangles m.shape → TrianglesTurnLeft at m.shape → IsConvex at m.shape → IsHull at m.shape
        → IsHollow (at strip.vertex) (λ i. at (end_of m.shape (turns (ccw_of m.shape) (suc i) strip.half))) (length (walk_of m.shape (ccw_of m.shape) strip.half) - 1)
        → IsConvex at (strip_cut m list).shape }
    ensures hull { (at : ℕ → Point) (m : Mesh V DE UE F) (list : List ℕ) → IsMesh m → m.shape.removal ≡ Closed → (strip : IsEdgeStrip m.shape list)
        → AllTriangles m.shape → TrianglesTurnLeft at m.shape → IsConvex at m.shape → IsHull at m.shape
        → IsHollow (at strip.vertex) (λ i. at (end_of m.shape (turns (ccw_of m.shape) (suc i) strip.half))) (length (walk_of m.shape (ccw_of m.shape) strip.half) - 1)
        → (g : ℕ) → IsLive m.shape g → 0 < face_of m.shape g → origin_of m.shape g ≢ strip.vertex → origin_of m.shape (next_of m.shape g) ≢ strip.vertex
        → origin_of m.shape (prev_of m.shape g) ≢ strip.vertex → IsHull at (strip_cut m list).shape }
    ensures outline { (at : ℕ → Point) (m : Mesh V DE UE F) (list : List ℕ) → IsMesh m → m.shape.removal ≡ Closed → (strip : IsEdgeStrip m.shape list)
        → AllTriangles m.shape → TrianglesTurnLeft at m.shape → IsConvex at m.shape → IsHull at m.shape
        → IsHollow (at strip.vertex) (λ i. at (end_of m.shape (turns (ccw_of m.shape) (suc i) strip.half))) (length (walk_of m.shape (ccw_of m.shape) strip.half) - 1)
        → (g : ℕ) → IsLive (strip_cut m list).shape g → 0 < face_of (strip_cut m list).shape g → IsHull at (strip_cut m list).shape }
    ensures line { (at : ℕ → Point) (m : Mesh V DE UE F) (list : List ℕ) → IsMesh m → m.shape.removal ≡ Closed → (strip : IsEdgeStrip m.shape list)
        → AllTriangles m.shape → TrianglesTurnLeft at m.shape → IsConvex at m.shape → IsHull at m.shape
        → IsHollow (at strip.vertex) (λ i. at (end_of m.shape (turns (ccw_of m.shape) (suc i) strip.half))) (length (walk_of m.shape (ccw_of m.shape) strip.half) - 1)
        → (g : ℕ) → IsLive m.shape g → 0 < face_of m.shape g → ((x : ℕ) → IsLive (strip_cut m list).shape x → face_of (strip_cut m list).shape x ≡ 0)
        → IsStraight at (strip_cut m list).shape }
{}

/// A corner that is between its neighbors on the hull, with one more neighbor: a flip leaves a flat
/// triangle there and no other, and then the corner can be cut off.
pub fn flat_corners_can_be_cut_off<V, DE, UE, F>()
    ensures turn { (at : ℕ → Point) (m : Mesh V DE UE F) (h : ℕ) (w : List ℕ) → IsMesh m → AllTriangles m.shape → TrianglesTurnLeft at m.shape
        → IsConvex at m.shape → IsHull at m.shape → IsLive m.shape h → face_of m.shape h ≡ 0 → IsRoundTrip (ccw_of m.shape) h w
        → LiesOnHull (at (origin_of m.shape h)) (λ i. at (end_of m.shape (turns (ccw_of m.shape) (suc i) h))) (length w - 1)
        → CanTurnAt at m.shape (turns (ccw_of m.shape) 2 h / 2) (origin_of m.shape h) }
    ensures flattened { (at : ℕ → Point) (m : Mesh V DE UE F) (h : ℕ) → IsMesh m → AllTriangles m.shape → TrianglesTurnLeft at m.shape
        → IsConvex at m.shape → IsHull at m.shape → IsLive m.shape h → face_of m.shape h ≡ 0
        → LiesOnHull (at (origin_of m.shape h)) (λ i. at (end_of m.shape (turns (ccw_of m.shape) (suc i) h))) (length (walk_of m.shape (ccw_of m.shape) h) - 1)
        → IsFlattened at (edge_flipped m (turns (ccw_of m.shape) 2 h / 2)).shape (origin_of m.shape h) h }
    ensures flip { (at : ℕ → Point) (m : Mesh V DE UE F) (u v : ℕ) → IsMesh m → CanTurnAt at m.shape u v → TrianglesTurnLeft at m.shape
        → TrianglesTurnLeftBut at (edge_flipped m u).shape v }
    ensures plane { (at : ℕ → Point) (m : Mesh V DE UE F) (list : List ℕ) → IsMesh m → m.shape.removal ≡ Closed → (strip : IsEdgeStrip m.shape list)
        → TrianglesTurnLeftBut at m.shape strip.vertex → TrianglesTurnLeft at (strip_cut m list).shape }
    ensures convex { (at : ℕ → Point) (m : Mesh V DE UE F) (list : List ℕ) → IsMesh m → m.shape.removal ≡ Closed → (strip : IsEdgeStrip m.shape list)
        → AllTriangles m.shape → IsConvex at m.shape → IsHull at m.shape → length (walk_of m.shape (ccw_of m.shape) strip.half) ≡ 2
        → orient2d_of (at strip.vertex) (at (end_of m.shape (ccw_of m.shape strip.half))) (at (end_of m.shape strip.half)) ≡ pos 0
        → IsConvex at (strip_cut m list).shape }
    ensures hull { (at : ℕ → Point) (m : Mesh V DE UE F) (list : List ℕ) → IsMesh m → m.shape.removal ≡ Closed → (strip : IsEdgeStrip m.shape list)
        → AllTriangles m.shape → IsConvex at m.shape → IsHull at m.shape → length (walk_of m.shape (ccw_of m.shape) strip.half) ≡ 2
        → orient2d_of (at strip.vertex) (at (end_of m.shape (ccw_of m.shape strip.half))) (at (end_of m.shape strip.half)) ≡ pos 0
        → IsHull at (strip_cut m list).shape }
{}

/// A flip after which both triangles turn left keeps a mesh in the plane, circled or not.
pub fn turning_flips_keep_the_plane<V, DE, UE, F>()
    ensures { (at : ℕ → Point) (m : Mesh V DE UE F) (u : ℕ) → IsMesh m → CanFlipInPlane at m.shape u → TrianglesTurnLeft at m.shape → TrianglesTurnLeft at (edge_flipped m u).shape }
{}

/// On a straight line one or two half edges lead out of each vertex that has one.
pub fn straight_lines_are_paths<V, DE, UE, F>()
    ensures { (at : ℕ → Point) (m : Mesh V DE UE F) (v h : ℕ) → IsMesh m → IsStraight at m.shape → IsOutEdge m.shape v h → HasFewOutEdges m.shape v }
{}

/// `remove_when_degenerate` keeps a line straight, down to nothing.
pub fn vertices_of_a_line_can_go<V, DE, UE, F>()
    ensures { (at after : ℕ → Point) (m : Mesh V DE UE F) (v : ℕ) → IsMesh m → CanRemoveDegenerate m.shape v → IsMesh (removed_degenerate m v)
        → ((w : ℕ) → w < m.shape.vertices → w ≢ v → after (moved (m.shape.vertices - 1) v w) ≡ at w)
        → IsStraight at m.shape → IsStraight after (removed_degenerate m v).shape }
{}
