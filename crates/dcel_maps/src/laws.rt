//! Laws of the definitions. These calls compute nothing; whoever makes one learns what it ensures.

ghost use Rattle.std.specs.Prelude.{◌≡◌, ◌-◌, ℕ, true, false, List, [], ◌∷◌, ◌++◌, length, ◌≢◌, ◌↔◌, ◌*◌, ◌<◌, Bool, slice_index};
ghost use Rattle.dcel_fixed.specs.HalfEdges.{rev};
ghost use Rattle.dcel_maps.specs.Borders.{IsBorderLoop};
ghost use Rattle.dcel_maps.specs.Conditions.{CanFlip, CanSwapRemove, IsBridge, IsLineEnd};
ghost use Rattle.dcel_maps.specs.Count.{Counts, IsCounted, live_edges, used_vertices};
ghost use Rattle.dcel_maps.specs.Degenerate.{CanRemoveDegenerate};
ghost use Rattle.dcel_maps.specs.EditLists.{ComesBy, EditKind, edges_after, nothing};
ghost use Rattle.dcel_maps.specs.EditExamples.{DataUpdated, EdgeSplit, FirstEdgeAdded, HalfSplit, LineSplit, VertexInserted, VerticesSwapped};
ghost use Rattle.dcel_maps.specs.edits.Create.{first_edge_added, first_edge_alone, outer_alone, vertex_appended};
ghost use Rattle.dcel_maps.specs.edits.DefaultData.{NewData};
ghost use Rattle.dcel_maps.specs.edits.Degenerate.{path_given_up, removed_degenerate};
ghost use Rattle.dcel_maps.specs.edits.Fill.{hole_filled, ring_remeshed};
ghost use Rattle.dcel_maps.specs.edits.Flip.{GoesRound, edge_flipped};
ghost use Rattle.dcel_maps.specs.edits.Line.{line_extended};
ghost use Rattle.dcel_maps.specs.edits.Outside.{face_closed, face_put_beside};
ghost use Rattle.dcel_maps.specs.edits.Rename.{vertices_swapped};
ghost use Rattle.dcel_maps.specs.edits.Split.{edge_split, edge_split_on_line, half_edge_split};
ghost use Rattle.dcel_maps.specs.edits.Strip.{strip_cut};
ghost use Rattle.dcel_maps.specs.edits.Triangle.{triangle_alone, vertex_inserted};
ghost use Rattle.dcel_maps.specs.edits.Whole.{cleared, with_data};
ghost use Rattle.dcel_maps.specs.Elementary.{Chord, FirstEdge, Renamed, Spur, Subdivide, Unchord, Unspur, Unsubdivide};
ghost use Rattle.dcel_maps.specs.Examples.{FillsSquare, FillsTriangle, GoesFromHoleToHole, IsRingFrom, gathered, inside_triangle, on_edge, scattered, two_triangles};
ghost use Rattle.dcel_maps.specs.Headline.{CountsTwo, FacesAreCycles, VerticesAreCycles};
ghost use Rattle.dcel_maps.specs.HeadlineExamples.{pinched, torus, with_idle_face, without_anchors};
ghost use Rattle.dcel_maps.specs.InsertedBack.{CanInsertLast, IsBackWithoutLast, inserted_with, removed_with};
ghost use Rattle.dcel_maps.specs.Maps.{Connected, Map, count};
ghost use Rattle.dcel_maps.specs.PathExamples.{BothGone, EndGone, MiddleGone};
ghost use Rattle.dcel_maps.specs.RegionExamples.{AreNoRings, FillsOneFace, FillsThreeFaces, FillsTwoFaces};
ghost use Rattle.dcel_maps.specs.Regions.{IsRegionRing};
ghost use Rattle.dcel_maps.specs.Removals.{Cleaned, Closed, Removal, gives_up_vertex};
ghost use Rattle.dcel_maps.specs.Renumbered.{AreNumbered, LeavesLive, new_face, new_half};
ghost use Rattle.dcel_maps.specs.Renumbering.{cleaned_up, vertex_taken_out, moved, renumbered, with_removal};
ghost use Rattle.dcel_maps.specs.Shapes.{IsMesh, IsSphere, Mesh, face_of, vertex_is_live, IsAnchored, IsLive, IsSound, Shape, map_of, origin_of};
ghost use Rattle.dcel_maps.specs.StripExamples.{CornerCut, CornerOfThreeCut, EndCut};
ghost use Rattle.dcel_maps.specs.theory.Sound.{Sound, Sphere};
ghost use Rattle.dcel_maps.specs.Triangulations.{AllTriangles, KeepsTriangles};
ghost use Rattle.dcel_maps.specs.Words.{total_length};

/// Two triangles that lie beside each other are no sphere: their vertices, minus their edges, plus
/// their faces, are four.
pub fn two_triangles_are_no_sphere()
    ensures { ¬ IsSphere two_triangles }
{}

/// An edge of a mesh that can be flipped can be flipped three times more, and after the fourth flip
/// each half edge has its `next`, its `prev`, its origin and its face again.
///
/// No datum has moved. Only anchors may be others.
pub fn four_flips_go_round<V, DE, UE, F>()
    ensures { (m : Mesh V DE UE F) (u : ℕ) → IsMesh m → CanFlip m.shape u → GoesRound m u }
{}

/// A swap is its own way back: two vertices of a mesh that are swapped twice are what they were,
/// and so is all else.
pub fn two_swaps_change_nothing<V, DE, UE, F>()
    ensures { (m : Mesh V DE UE F) (a b : ℕ) → IsMesh m
        → vertex_is_live m.shape a ≡ true → vertex_is_live m.shape b ≡ true
        → vertices_swapped (vertices_swapped m a b) a b ≡ m }
{}

/// A vertex that is swapped with itself is what it was, and so is all else.
pub fn a_swap_of_one_vertex_changes_nothing<V, DE, UE, F>()
    ensures { (m : Mesh V DE UE F) (v : ℕ) → IsMesh m → vertex_is_live m.shape v ≡ true → vertices_swapped m v v ≡ m }
{}

/// Seven examples show what edits make of small meshes: words, origins, anchors and data.
pub fn edits_make_these_meshes()
    ensures first_edge { FirstEdgeAdded }
    ensures line_split { LineSplit }
    ensures edge_split { EdgeSplit }
    ensures half_split { HalfSplit }
    ensures vertex_inserted { VertexInserted }
    ensures vertices_swapped { VerticesSwapped }
    ensures data { DataUpdated }
{}

/// Three examples say what is left once a vertex is cut off.
///
/// This vertex is a corner of a triangle that has a vertex in it, a corner of a triangle alone, or
/// an end of a line, which is a strip without triangles.
pub fn strips_are_cut_off()
    ensures corner_of_three { CornerOfThreeCut }
    ensures corner { CornerCut }
    ensures end { EndCut }
{}

/// Two holes and what fills them: of a vertex inside a triangle, one face, and of a vertex on an
/// edge, two faces with an edge between them.
///
/// Each ring is what comes after the out edges of the vertex.
pub fn two_holes_are_filled()
    ensures triangle { IsRingFrom inside_triangle.shape (1 ∷ 3 ∷ 5 ∷ []) 7 × FillsTriangle }
    ensures square { IsRingFrom on_edge.shape (1 ∷ 11 ∷ 8 ∷ 5 ∷ []) 7 × FillsSquare }
{}

/// Three regions and what fills them: the face of a triangle, and of a triangle with a vertex in it
/// two faces and all three.
///
/// Cleanup leaves no removal open. Their ring read from elsewhere, and other faces beside the edge,
/// are none.
pub fn three_regions_are_filled()
    ensures one { FillsOneFace }
    ensures two { FillsTwoFaces }
    ensures three { FillsThreeFaces }
    ensures none { AreNoRings }
{}

/// Elements that are taken out from the largest down: the last one goes from hole to hole until
/// none is left below it.
pub fn the_last_goes_from_hole_to_hole()
    ensures { GoesFromHoleToHole }
{}

/// A removal closed: a triangle with an edge, a face and a vertex given up becomes one without
/// them.
pub fn a_scattered_triangle_is_gathered()
    ensures { vertex_taken_out (cleaned_up scattered) 1 ≡ gathered }
{}

/// Three examples say what is left of a degenerate mesh once a vertex is removed.
///
/// A line loses an end, two vertices lose one and then the other, and a line loses a vertex in its
/// middle.
pub fn vertices_of_lines_are_removed()
    ensures end { EndGone }
    ensures both { BothGone }
    ensures middle { MiddleGone }
{}

/// An insertion can be taken back.
///
/// The last vertex, if it is inserted into a triangle and then isolated along any of its border
/// loops, cleaned up and taken out, leaves each word, origin, number and datum of before, without
/// the vertex. Only the triangle's datum is a new one, and only anchors may be others.
pub fn an_inserted_vertex_comes_out_again<V, DE, UE, F>()
    ensures { (m : Mesh V DE UE F) (v f : ℕ) (border : List ℕ) (new : NewData DE UE F 3 2)
        (filling : NewData DE UE F (length border - 3) (length border - 2)) → IsMesh m → CanInsertLast m v f
        → IsBorderLoop (inserted_with m v f new).shape border v
        → IsBackWithoutLast m f filling.face_data (removed_with (inserted_with m v f new) v border filling) }
{}

/// A region filled anew gives up no vertex, and cleanup alone closes its removal.
pub fn cleanup_closes_a_region<V, DE, UE, F>()
    ensures no_vertex { (m : Mesh V DE UE F) (border edges faces : List ℕ) (new_halves : List DE) (new_edges : List UE) (new_faces : List F)
        → IsRegionRing m.shape border edges faces
        → (v : ℕ) → gives_up_vertex (ring_remeshed m border edges faces new_halves new_edges new_faces).shape.removal v ≡ false }
    ensures closes { (m : Mesh V DE UE F) (border edges faces : List ℕ) (new_halves : List DE) (new_edges : List UE) (new_faces : List F)
        → IsRegionRing m.shape border edges faces
        → (cleaned_up (ring_remeshed m border edges faces new_halves new_edges new_faces)).shape.removal ≡ Closed }
{}

/// New meshes have no live inner face but triangles.
pub fn new_meshes_are_triangulated<V, DE, UE, F>()
    ensures new { (datum : F) → AllTriangles (outer_alone {V = V} {DE = DE} {UE = UE} datum).shape }
    ensures fixed { (vertices : List V) (a b : ℕ) (halves : List DE) (edges : List UE) (faces : List F)
        → AllTriangles (first_edge_alone vertices a b halves edges faces).shape }
    ensures triangle { (vertices : V × V × V) (halves : List DE) (edges : List UE) (faces : List F)
        → AllTriangles (triangle_alone vertices halves edges faces).shape }
{}

/// Where each live inner face of a mesh is a triangle, it is so after an edit that adds something.
///
/// Two edits ask for more: where a face is put beside a half edge, this lies on the outer face, and
/// where one side of an edge is split, the other half does. Elsewhere these two leave an inner face
/// with a half edge more.
pub fn growth_keeps_triangles<V, DE, UE, F>()
    ensures append { (m : Mesh V DE UE F) (datum : V) → KeepsTriangles m (vertex_appended m datum) }
    ensures setup { (m : Mesh V DE UE F) (a b : ℕ) (halves : List DE) (edges : List UE) → KeepsTriangles m (first_edge_added m a b halves edges) }
    ensures extend { (m : Mesh V DE UE F) (end tip : ℕ) (halves : List DE) (edges : List UE)
        → IsMesh m → IsLineEnd m.shape end → KeepsTriangles m (line_extended m end tip halves edges) }
    ensures on_line { (m : Mesh V DE UE F) (e middle : ℕ) (halves : List DE) (edges : List UE)
        → IsMesh m → IsBridge m.shape e → KeepsTriangles m (edge_split_on_line m e middle halves edges) }
    ensures close { (m : Mesh V DE UE F) (e : ℕ) (halves : List DE) (edges : List UE) (faces : List F)
        → KeepsTriangles m (face_closed m e halves edges faces) }
    ensures beside { (m : Mesh V DE UE F) (e tip : ℕ) (halves : List DE) (edges : List UE) (faces : List F)
        → face_of m.shape e ≡ 0 → KeepsTriangles m (face_put_beside m e tip halves edges faces) }
    ensures insert { (m : Mesh V DE UE F) (v f : ℕ) (halves : List DE) (edges : List UE) (faces : List F)
        → KeepsTriangles m (vertex_inserted m v f halves edges faces) }
    ensures one_side { (m : Mesh V DE UE F) (e middle : ℕ) (halves : List DE) (edges : List UE) (faces : List F)
        → face_of m.shape (rev e) ≡ 0 → KeepsTriangles m (half_edge_split m e middle halves edges faces) }
    ensures both_sides { (m : Mesh V DE UE F) (e middle : ℕ) (halves : List DE) (edges : List UE) (faces : List F)
        → KeepsTriangles m (edge_split m e middle halves edges faces) }
{}

/// The same for edits that add nothing: an edge flipped, vertices swapped, other data, and a mesh
/// cleared.
pub fn changes_keep_triangles<V, DE, UE, F, W, DX, UX, G>()
    ensures flip { (m : Mesh V DE UE F) (u : ℕ) → KeepsTriangles m (edge_flipped m u) }
    ensures swap { (m : Mesh V DE UE F) (a b : ℕ) → KeepsTriangles m (vertices_swapped m a b) }
    ensures data { (m : Mesh V DE UE F) (vertices : List W) (halves : List DX) (edges : List UX) (faces : List G)
        → KeepsTriangles m (with_data m vertices halves edges faces) }
    ensures clear { (m : Mesh V DE UE F) → KeepsTriangles m (cleared m) }
{}

/// The same for removals, from the opening to the end: what is given up is no live face, new faces
/// are triangles, and renumbering keeps the words.
pub fn removals_keep_triangles<V, DE, UE, F>()
    ensures isolate { (m : Mesh V DE UE F) (v : ℕ) (border : List ℕ) (halves : List DE) (edges : List UE) (faces : List F)
        → m.shape.removal ≡ Closed → KeepsTriangles m (hole_filled m v border halves edges faces) }
    ensures remesh { (m : Mesh V DE UE F) (border gone_edges gone_faces : List ℕ) (halves : List DE) (edges : List UE) (faces : List F)
        → m.shape.removal ≡ Closed → KeepsTriangles m (ring_remeshed m border gone_edges gone_faces halves edges faces) }
    ensures strip { (m : Mesh V DE UE F) (list : List ℕ) → m.shape.removal ≡ Closed → KeepsTriangles m (strip_cut m list) }
    ensures cleanup { (m : Mesh V DE UE F) → IsMesh m → KeepsTriangles m (cleaned_up m) }
    ensures remove { (m : Mesh V DE UE F) (v : ℕ) → CanSwapRemove m.shape v → KeepsTriangles m (vertex_taken_out m v) }
    ensures degenerate { (m : Mesh V DE UE F) (v : ℕ) → CanRemoveDegenerate m.shape v → KeepsTriangles m (removed_degenerate m v) }
{}

/// What is live when a removal is cleaned up, or when a vertex is taken out, stays with its word,
/// its origin, its anchor and its data, all but this vertex. So does what is live once a vertex of a
/// path and one of its edges are given up, when both are taken out at once.
///
/// Only its number may change, by one short rule: write the numbers of all elements of its kind in
/// a list, and put the last item at the place of each that goes, from the largest down. The new
/// number of what stays is the place where its old one stands then.
pub fn removals_leave_what_is_live<V, DE, UE, F>()
    ensures cleanup { (m : Mesh V DE UE F) → IsMesh m → LeavesLive m (cleaned_up m) (new_half m.shape) (λ v. v) (new_face m.shape) }
    ensures places { (m : Mesh V DE UE F) → IsMesh m → AreNumbered m.shape }
    ensures vertex { (m : Mesh V DE UE F) (v : ℕ) → IsMesh m → CanSwapRemove m.shape v
        → LeavesLive (with_removal m (Cleaned v)) (vertex_taken_out m v) (λ h. h) (moved (m.shape.vertices - 1) v) (λ f. f) }
    ensures vertex_places { (m : Mesh V DE UE F) (v w : ℕ) → IsMesh m → CanSwapRemove m.shape v → w < m.shape.vertices → w ≢ v
        → slice_index (renumbered m.shape.vertices (v ∷ [])) (moved (m.shape.vertices - 1) v w) ≡ w }
    ensures degenerate { (m : Mesh V DE UE F) (v : ℕ) → IsMesh m → CanRemoveDegenerate m.shape v → m.shape.vertices ≢ 1
        → LeavesLive (path_given_up m v) (removed_degenerate m v) (new_half (path_given_up m v).shape) (moved (m.shape.vertices - 1) v) (λ f. f) }
    ensures degenerate_places { (m : Mesh V DE UE F) (v : ℕ) → IsMesh m → CanRemoveDegenerate m.shape v → m.shape.vertices ≢ 1
        → AreNumbered (path_given_up m v).shape }
    ensures degenerate_alone { (m : Mesh V DE UE F) (v : ℕ) → IsMesh m → CanRemoveDegenerate m.shape v → m.shape.vertices ≡ 1
        → LeavesLive (with_removal m (Cleaned v)) (removed_degenerate m v) (λ h. h) (moved (m.shape.vertices - 1) v) (λ f. f) }
    ensures degenerate_vertex_places { (m : Mesh V DE UE F) (v w : ℕ) → IsMesh m → CanRemoveDegenerate m.shape v → w < m.shape.vertices → w ≢ v
        → slice_index (renumbered m.shape.vertices (v ∷ [])) (moved (m.shape.vertices - 1) v w) ≡ w }
{}

/// Each part of the headline leaves something out.
///
/// In turn these are a triangle of its own beside another one, which isn't connected; a torus,
/// whose vertices, minus edges, plus faces are none; two triangles with one vertex in common, round
/// which there are two cycles; a vertex that was given up while an out edge is still live; an inner
/// face without a half edge; and a vertex without an anchor where edges start.
pub fn the_headline_leaves_out<V, DE, UE, F>()
    ensures apart { ¬ Connected (map_of two_triangles) }
    ensures torus { ¬ CountsTwo torus }
    ensures pinched { ¬ VerticesAreCycles pinched }
    ensures spokes { (m : Mesh V DE UE F) (given_up : Removal) (h : ℕ) → IsLive (with_removal m given_up).shape h
        → gives_up_vertex given_up (origin_of m.shape h) ≡ true → ¬ VerticesAreCycles (with_removal m given_up).shape }
    ensures idle { ¬ FacesAreCycles with_idle_face }
    ensures unanchored { ¬ IsAnchored without_anchors }
{}

/// Six elementary edits take a sound map on the sphere to another one: connected, and with vertices
/// that have an edge, minus edges, plus faces, two.
///
/// A spur is added, or dropped; an edge is subdivided, or two are joined; a word is cut by a chord,
/// or two words are joined. A first edge makes such a map, and other numbers keep it one. What is
/// said of maps is said of sound shapes.
pub fn elementary_edits_keep_a_sphere()
    ensures first { (T : Map) (h a b : ℕ) → FirstEdge T h a b → Sound T × Sphere T }
    ensures spur_added { (S T : Map) (a h v : ℕ) → Sound S → Sphere S → Spur S T a h v → Sound T × Sphere T }
    ensures spur_dropped { (S T : Map) (a h v : ℕ) → Sound T → Sphere T → Unspur S T a h v → Sound S × Sphere S }
    ensures edge_subdivided { (S T : Map) (h k v : ℕ) → Sound S → Sphere S → Subdivide S T h k v → Sound T × Sphere T }
    ensures edges_joined { (S T : Map) (h k v : ℕ) → Sound T → Sphere T → Unsubdivide S T h k v → Sound S × Sphere S }
    ensures word_cut { (S T : Map) (p q h g : ℕ) (arc : ℕ → Bool) → Sound S → Sphere S → Chord S T p q h g arc → Sound T × Sphere T }
    ensures words_joined { (S T : Map) (p q h g : ℕ) (arc : ℕ → Bool) → Sound T → Sphere T → Unchord S T p q h g arc → Sound S × Sphere S }
    ensures renumbered { (S T : Map) (half back vertex face : ℕ → ℕ) → Sound S → Sphere S → Renamed S T half back vertex face
        → Sound T × Sphere T }
    ensures shapes { (s : Shape) → IsSound s → Sound (map_of s) × (IsSphere s ↔ Sphere (map_of s)) }
{}

/// Tells what lists of elementary edits do.
///
/// A list leads from a sound map on the sphere, as the map of nothing is, to another one, and its
/// kinds tell how many edges are live then. One list can come after another.
pub fn lists_of_edits_keep_a_sphere()
    ensures nothing { Sound nothing × Sphere nothing }
    ensures keeps { (kinds : List EditKind) (S T : Map) → Sound S → Sphere S → ComesBy kinds S T → Sound T × Sphere T }
    ensures counts { (kinds : List EditKind) (S T : Map) → Sound S → Sphere S → ComesBy kinds S T
        → count T.edge T.edges ≡ edges_after kinds (count S.edge S.edges) }
    ensures then { (kinds more : List EditKind) (S M T : Map) → ComesBy kinds S M → ComesBy more M T → ComesBy (kinds ++ more) S T }
{}

/// The lengths of all words add up to the number of live half edges.
pub fn words_have_each_half_edge()
    ensures { (s : Shape) → IsSound s → total_length s.words ≡ 2 * live_edges s }
{}

/// Where an edge stands and each live inner face is a triangle, the live edges are three times the
/// vertices with a live edge, minus three, minus the length of the hull.
pub fn triangles_are_counted<V, DE, UE, F>()
    ensures { (m : Mesh V DE UE F) → IsMesh m → Counts m }
{}

/// A triangle with a vertex in it: six edges, four vertices and a hull of three.
pub fn a_triangle_is_counted()
    ensures edges { live_edges inside_triangle.shape ≡ 6 }
    ensures vertices { used_vertices inside_triangle.shape ≡ 4 }
    ensures count { IsCounted inside_triangle.shape 3 }
{}
