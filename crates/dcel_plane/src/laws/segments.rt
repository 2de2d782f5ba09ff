//! Laws of segments: which edges cross one, and how flips make it an edge. These calls compute
//! nothing; whoever makes one learns what it ensures.

ghost use Rattle.std.specs.Prelude.{◌≡◌, ◌≢◌, ◌⊎◌, List, [], ◌∷◌, ◌++◌, ◌<◌, ◌/◌, ℕ, pos, ◌<ℤ◌, ◌≤ℤ◌};
ghost use Rattle.dcel_fixed.specs.HalfEdges.{rev};
ghost use Rattle.dcel_predicates.specs.declared.point.Point.{Point};
ghost use Rattle.dcel_maps.specs.edits.Flip.{edge_flipped};
ghost use Rattle.dcel_maps.specs.Shapes.{IsLive, IsMesh, Mesh, Shape, end_of, face_of, next_of, origin_of, prev_of};
ghost use Rattle.dcel_maps.specs.Triangulations.{AllTriangles};
ghost use Rattle.dcel_maps.specs.Words.{count_of};
ghost use Rattle.dcel_plane.specs.Plane.{ListsCircled, TrianglesTurnLeft};
ghost use Rattle.dcel_plane.specs.covering.Covering.{CoversHull, IsConvex, IsHull, dot};
ghost use Rattle.dcel_plane.specs.removal.Wheels.{CanFlipInPlane};
ghost use Rattle.dcel_plane.specs.segments.Segments.{AreEnds, BeginsAt, BecomesCrossing, CanTurnEach, Crosses, IsChannel, IsClear, IsPeak, TriangulatesItsHull, LeadsAlong, NarrowerBefore, NotWiderAfter, corner_beyond, flipped_each, orient2d_by, touched, widths};

/// From a vertex a segment leads along an edge, or through a triangle and across its far side.
pub fn segments_begin_at_an_edge_or_in_a_triangle<V, DE, UE, F>()
    ensures { (at : ℕ → Point) (m : Mesh V DE UE F) (v w h : ℕ) → IsMesh m → AllTriangles m.shape → TrianglesTurnLeft at m.shape → IsConvex at m.shape → IsHull at m.shape
        → v ≢ w → AreEnds m.shape v w → IsLive m.shape h → 0 < face_of m.shape h
        → ((k : ℕ) × LeadsAlong at m.shape v w k) ⊎ ((k : ℕ) × BeginsAt at m.shape v w k) }
{}

/// From an edge that it crosses it leads across another side of the triangle beyond, by the side on
/// which the corner beyond is, or to that corner: its end, or a vertex between its ends.
pub fn crossed_edges_lead_on<V, DE, UE, F>()
    ensures right { (at : ℕ → Point) (m : Mesh V DE UE F) (v w h : ℕ) → IsMesh m → AllTriangles m.shape → TrianglesTurnLeft at m.shape → IsConvex at m.shape → IsHull at m.shape
        → AreEnds m.shape v w → Crosses at m.shape v w h → orient2d_by at v w (corner_beyond m.shape h) <ℤ pos 0
        → Crosses at m.shape v w (prev_of m.shape (rev h)) }
    ensures left { (at : ℕ → Point) (m : Mesh V DE UE F) (v w h : ℕ) → IsMesh m → AllTriangles m.shape → TrianglesTurnLeft at m.shape → IsConvex at m.shape → IsHull at m.shape
        → AreEnds m.shape v w → Crosses at m.shape v w h → pos 0 <ℤ orient2d_by at v w (corner_beyond m.shape h)
        → Crosses at m.shape v w (next_of m.shape (rev h)) }
    ensures end { (at : ℕ → Point) (m : Mesh V DE UE F) (v w h : ℕ) → IsMesh m → AllTriangles m.shape → TrianglesTurnLeft at m.shape → IsConvex at m.shape → IsHull at m.shape
        → AreEnds m.shape v w → Crosses at m.shape v w h → orient2d_by at v w (corner_beyond m.shape h) ≡ pos 0
        → pos 0 ≤ℤ dot (at v) (at w) (at (corner_beyond m.shape h)) → corner_beyond m.shape h ≡ w }
{}

/// So two vertices with no vertex between them have an edge, or the segment between them crosses a
/// list of edges, one after another.
pub fn segments_are_edges_or_cross_some<V, DE, UE, F>()
    ensures { (at : ℕ → Point) (m : Mesh V DE UE F) (v w h : ℕ) → IsMesh m → AllTriangles m.shape → TrianglesTurnLeft at m.shape → IsConvex at m.shape → IsHull at m.shape
        → v ≢ w → AreEnds m.shape v w → IsClear at m.shape v w → IsLive m.shape h → 0 < face_of m.shape h
        → ((e : ℕ) × IsLive m.shape e × (origin_of m.shape e ≡ v) × (end_of m.shape e ≡ w)) ⊎ ((list : List ℕ) × IsChannel at m.shape v w list) }
{}

/// The list, unless it is empty, has each half edge that the segment crosses from right to left.
pub fn channels_list_each_crossing<V, DE, UE, F>()
    ensures { (at : ℕ → Point) (m : Mesh V DE UE F) (v w h : ℕ) (list : List ℕ) → IsMesh m → AllTriangles m.shape → TrianglesTurnLeft at m.shape → IsConvex at m.shape → IsHull at m.shape
        → IsClear at m.shape v w → IsChannel at m.shape v w list → list ≢ [] → Crosses at m.shape v w h → 0 < count_of h list }
{}

/// A half edge that crosses the segment can be flipped, if the corners of its triangles are between its
/// ends, in the direction across the segment.
pub fn peaks_can_turn<V, DE, UE, F>()
    ensures { (at : ℕ → Point) (m : Mesh V DE UE F) (v w h : ℕ) (front back : List ℕ) → IsMesh m → AllTriangles m.shape → TrianglesTurnLeft at m.shape → IsConvex at m.shape
        → IsChannel at m.shape v w (front ++ (h ∷ back)) → IsPeak at m.shape v w h → CanFlipInPlane at m.shape (h / 2) }
{}

/// They do so if it is wider than the one before it in the list, and no narrower than the one after
/// it. The list has such a one.
pub fn channels_have_a_peak<V, DE, UE, F>()
    ensures between { (at : ℕ → Point) (m : Mesh V DE UE F) (v w h : ℕ) (front back : List ℕ) → IsMesh m → AllTriangles m.shape → TrianglesTurnLeft at m.shape → IsConvex at m.shape
        → IsChannel at m.shape v w (front ++ (h ∷ back)) → NarrowerBefore at m.shape v w front h → NotWiderAfter at m.shape v w h back
        → IsPeak at m.shape v w h }
    ensures some { (at : ℕ → Point) (m : Mesh V DE UE F) (v w h : ℕ) (rest : List ℕ) → IsMesh m → AllTriangles m.shape → TrianglesTurnLeft at m.shape → IsConvex at m.shape
        → IsChannel at m.shape v w (h ∷ rest)
        → (front : List ℕ) × (top : ℕ) × (back : List ℕ) × (h ∷ rest ≡ front ++ (top ∷ back)) × IsPeak at m.shape v w top }
{}

/// Flipped, it leaves the list, or stays in its place and gets narrower.
pub fn flipped_peaks_leave_a_channel<V, DE, UE, F>()
    ensures { (at : ℕ → Point) (m : Mesh V DE UE F) (v w h : ℕ) (front back : List ℕ) → IsMesh m → AllTriangles m.shape → TrianglesTurnLeft at m.shape → IsConvex at m.shape
        → IsChannel at m.shape v w (front ++ (h ∷ back)) → IsPeak at m.shape v w h
        → (new : List ℕ) × BecomesCrossing at m.shape v w h new × IsChannel at (edge_flipped m (h / 2)).shape v w (front ++ (new ++ back))
        × (widths at (edge_flipped m (h / 2)).shape v w (front ++ (new ++ back)) <ℤ widths at m.shape v w (front ++ (h ∷ back))) }
{}

/// The sum of the widths, which falls with each flip, is positive as long as one is left.
pub fn widths_are_positive()
    ensures { (at : ℕ → Point) (s : Shape) (v w h : ℕ) (rest : List ℕ) → IsChannel at s v w (h ∷ rest) → pos 0 <ℤ widths at s v w (h ∷ rest) }
{}

/// When none is left, the segment is an edge.
pub fn empty_channels_are_edges<V, DE, UE, F>()
    ensures { (at : ℕ → Point) (m : Mesh V DE UE F) (v w : ℕ) → IsMesh m → AllTriangles m.shape → v ≢ w → IsChannel at m.shape v w []
        → (h : ℕ) × IsLive m.shape h × (origin_of m.shape h ≡ v) × (end_of m.shape h ≡ w) }
{}

/// Flips of edges, each between two triangles that go round counterclockwise afterwards too, keep a mesh
/// in the plane with its hull, and leave each place covered that was: so its triangles cover the hull,
/// Delaunay or not.
pub fn turning_flips_keep_plane_hull_and_cover<V, DE, UE, F>()
    ensures planar { (at : ℕ → Point) (m : Mesh V DE UE F) (list : List ℕ) → TriangulatesItsHull at m → CanTurnEach at m list → TriangulatesItsHull at (flipped_each m list) }
    ensures covers { (at : ℕ → Point) (m : Mesh V DE UE F) (list : List ℕ) → TriangulatesItsHull at m → CanTurnEach at m list
        → CoversHull at m.shape → CoversHull at (flipped_each m list).shape }
{}

/// Triangles that go round counterclockwise cover each place that no half edge of the outer face has on
/// its left, whether the mesh is Delaunay or not, and whatever the outer face looks like.
pub fn triangles_in_the_plane_cover_the_hull<V, DE, UE, F>()
    ensures { (at : ℕ → Point) (m : Mesh V DE UE F) → IsMesh m → AllTriangles m.shape → TrianglesTurnLeft at m.shape → CoversHull at m.shape }
{}

/// By flips of the edges that the segment between them crosses, two vertices with no vertex between
/// them get an edge, and the mesh stays in the plane with its hull. No other edge is flipped, and an
/// edge that breaks Delaunay's condition broke it before, or is at a triangle that changed.
pub fn segments_can_become_edges<V, DE, UE, F>()
    ensures { (at : ℕ → Point) (m : Mesh V DE UE F) (v w h : ℕ) → TriangulatesItsHull at m → v ≢ w → AreEnds m.shape v w → IsClear at m.shape v w
        → IsLive m.shape h → 0 < face_of m.shape h
        → (list : List ℕ) × CanTurnEach at m list × TriangulatesItsHull at (flipped_each m list)
        × ((e : ℕ) × IsLive (flipped_each m list).shape e × (origin_of (flipped_each m list).shape e ≡ v) × (end_of (flipped_each m list).shape e ≡ w))
        × ((u : ℕ) → 0 < count_of u list → (k : ℕ) × Crosses at m.shape v w k × (k / 2 ≡ u))
        × ((due : List ℕ) → ListsCircled at m.shape due → ListsCircled at (flipped_each m list).shape (due ++ touched m list)) }
{}
