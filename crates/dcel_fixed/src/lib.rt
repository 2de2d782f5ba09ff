//! Fixed handles of a half-edge mesh: the numbers of its vertices, half edges, edges and faces,
//! each with a type of its own. The crate uses no other; start with [`FixedHandleImpl`].
//!
//! A fixed handle borrows no mesh. It names an element of whatever mesh it is passed to, so it can
//! be stored, copied and compared while the mesh changes. The mesh decides whether it has an
//! element with that number.
//!
//! Edge `u` consists of the half edges `2 * u`, which is called normalized, and `2 * u + 1`. Face 0
//! is the outer face.
#![tactic(auto)]

ghost use Rattle.std.specs.Prelude.{◌≡◌, ℕ, ◌+◌, ◌*◌, ◌/◌, ◌%◌, ◌^◌, ◌<◌, ◌↔◌, IsTrue, IsNone, IfSome, [], ◌∷◌, codes, List};
ghost use Rattle.dcel_fixed.specs.HalfEdges.{rev};

use std::fmt;
use std::fmt::Debug;
use std::hash::Hash;
use std::marker::{Model, PhantomData};

/// Marks handles of vertices.
#[derive(Clone, Copy, PartialEq, Eq, PartialOrd, Ord, Debug, Default, Hash)]
pub struct VertexTag;

/// Marks handles of half edges.
#[derive(Clone, Copy, PartialEq, Eq, PartialOrd, Ord, Debug, Default, Hash)]
pub struct DirectedEdgeTag;

/// Marks handles of edges, each a pair of half edges.
#[derive(Clone, Copy, PartialEq, Eq, PartialOrd, Ord, Debug, Default, Hash)]
pub struct UndirectedEdgeTag;

/// Marks handles of faces.
#[derive(Clone, Copy, PartialEq, Eq, PartialOrd, Ord, Debug, Default, Hash)]
pub struct FaceTag;

/// Marks handles of half edges of the Voronoi diagram.
///
/// Each has the number of the half edge that it is dual to.
#[derive(Clone, Copy, PartialEq, Eq, PartialOrd, Ord, Debug, Default, Hash)]
pub struct DirectedVoronoiEdgeTag;

/// Marks handles of edges of the Voronoi diagram.
///
/// Each has the number of the edge that it is dual to.
#[derive(Clone, Copy, PartialEq, Eq, PartialOrd, Ord, Debug, Default, Hash)]
pub struct UndirectedVoronoiEdgeTag;

/// Marks handles of faces of the Voronoi diagram.
///
/// Each has the number of the vertex that it is dual to.
#[derive(Clone, Copy, PartialEq, Eq, PartialOrd, Ord, Debug, Default, Hash)]
pub struct VoronoiFaceTag;

/// A tag that says whether a handle may name the outer face: [`InnerTag`] or [`PossiblyOuterTag`].
pub trait InnerOuterMarker: Copy + Ord + Debug + Default + Hash {
    // The bytes that `debug_string` returns.
    ghost name: { List ℕ };

    /// Returns the name of the marker, such as `Inner`.
    fn debug_string() -> &'static str
        ensures { result.now ≡ name };
}

/// Marks handles that aren't meant for the outer face.
///
/// A face with this marker may still have number 0: whoever creates the handle has to rule that
/// out. Calls that need an inner face ask for one.
#[derive(Clone, Copy, PartialEq, Eq, PartialOrd, Ord, Debug, Default, Hash)]
pub struct InnerTag;

/// Marks handles of faces that may name the outer face.
#[derive(Clone, Copy, PartialEq, Eq, PartialOrd, Ord, Debug, Default, Hash)]
pub struct PossiblyOuterTag;

impl InnerOuterMarker for InnerTag {
    ghost name = { codes "Inner" };

    fn debug_string() -> &'static str {
        "Inner"
    }
}

impl InnerOuterMarker for PossiblyOuterTag {
    ghost name = { codes "PossiblyOuter" };

    fn debug_string() -> &'static str {
        "PossiblyOuter"
    }
}

/// The number of an element, below 2^32, with its kind and its marker as types.
///
/// Contracts see the number alone, and only the number counts for `==`, `<` and the hash. Use the
/// aliases, such as [`FixedVertexHandle`].
#[derive_where(Clone, Copy, PartialEq, Eq, PartialOrd, Ord, Hash)]
pub struct FixedHandleImpl<Kind, InnerOuter: InnerOuterMarker> {
    index: u32,
    #[derive_where(skip)]
    kind: PhantomData<Kind>,
    #[derive_where(skip)]
    inner_outer: PhantomData<InnerOuter>,
}

impl<Kind, InnerOuter: InnerOuterMarker> Model for FixedHandleImpl<Kind, InnerOuter> {
    ghost Value = { ℕ };

    ghost view = { λ handle. handle.index };

    ghost inverse = { λ n. record { index = n; kind = record {}; inner_outer = record {} } };
}

/// The number of a vertex.
pub type FixedVertexHandle = FixedHandleImpl<VertexTag, InnerTag>;

/// The number of a half edge.
pub type FixedDirectedEdgeHandle = FixedHandleImpl<DirectedEdgeTag, InnerTag>;

/// The number of an edge.
pub type FixedUndirectedEdgeHandle = FixedHandleImpl<UndirectedEdgeTag, InnerTag>;

/// The number of a face, the outer one only with [`PossiblyOuterTag`].
pub type FixedFaceHandle<InnerOuter> = FixedHandleImpl<FaceTag, InnerOuter>;

/// The outer face, which every mesh has: face 0.
pub const OUTER_FACE: FixedFaceHandle<PossiblyOuterTag> = FixedHandleImpl {
    index: 0,
    kind: PhantomData,
    inner_outer: PhantomData,
};

/// The same as [`OUTER_FACE`].
pub const OUTER_FACE_HANDLE: FixedFaceHandle<PossiblyOuterTag> = OUTER_FACE;

/// Creates the handle of the face `index`.
///
/// Asks that the number is below 2^32.
#[inline]
pub fn new_fixed_face_handle(index: usize) -> FixedFaceHandle<PossiblyOuterTag>
    requires { index < 2 ^ 32 }
    ensures { result ≡ index }
{
    FixedHandleImpl::new(index)
}

/// Returns the number of the other half edge of the same edge, for numbers that aren't handles yet.
///
/// It differs only in the last bit, so it is below 2^32 if the number is.
#[inline]
#[tactic(auto, using(crate::proofs::Halves::xor_one, crate::proofs::Halves::rev_within))]
pub fn other_half(half: usize) -> usize
    ensures value { result ≡ rev half }
    ensures in_range { half < 2 ^ 32 → result < 2 ^ 32 }
{
    half ^ 1
}

impl<Kind, InnerOuter: InnerOuterMarker> FixedHandleImpl<Kind, InnerOuter> {
    /// Creates the handle of the element `index`.
    ///
    /// Asks that the number is below 2^32.
    #[inline]
    pub fn new(index: usize) -> Self
        requires { index < 2 ^ 32 }
        ensures { result ≡ index }
    {
        FixedHandleImpl::new_internal(index as u32)
    }

    /// Returns the number of the element, which is below 2^32.
    #[inline]
    pub fn index(&self) -> usize
        ensures value { result ≡ self.now }
        ensures in_range { result < 2 ^ 32 }
    {
        self.index as usize
    }

    /// Returns the handle with the same number and another marker.
    ///
    /// It gives [`InnerTag`] to face 0 too; to exclude the outer face, use
    /// [`as_inner`](FixedFaceHandle::as_inner).
    #[inline]
    pub fn adjust_inner_outer<TargetInnerOuter: InnerOuterMarker>(
        &self,
    ) -> FixedHandleImpl<Kind, TargetInnerOuter>
        ensures { result ≡ self.now }
    {
        FixedHandleImpl::new_internal(self.index)
    }

    #[inline]
    fn new_internal(index: u32) -> Self
        ensures { result ≡ index }
    {
        FixedHandleImpl {
            index,
            kind: PhantomData,
            inner_outer: PhantomData,
        }
    }
}

impl FixedVertexHandle {
    /// Creates the handle of the vertex `index`.
    ///
    /// Asks that the number is below 2^32.
    #[inline]
    pub fn from_index(index: usize) -> Self
        requires { index < 2 ^ 32 }
        ensures { result ≡ index }
    {
        Self::new(index)
    }
}

impl FixedDirectedEdgeHandle {
    /// Creates the handle of the normalized half edge of the edge `index`.
    ///
    /// Asks that the edge's number is below 2^31, so that the half edge's is below 2^32.
    #[inline]
    pub fn new_normalized(index: usize) -> Self
        requires { index < 2 ^ 31 }
        ensures { result ≡ 2 * index }
    {
        Self::new(2 * index)
    }

    /// Returns whether this is the normalized half edge of its edge, the one with the even number.
    #[inline]
    pub fn is_normalized(self) -> bool
        ensures { IsTrue result ↔ (self % 2 ≡ 0) }
    {
        self.index % 2 == 0
    }

    /// Returns the other half edge of the same edge.
    ///
    /// Its number differs only in the last bit.
    #[inline]
    #[tactic(auto, using(crate::proofs::Halves::xor_one))]
    pub fn rev(self) -> Self
        ensures { result ≡ rev self }
    {
        Self::new_internal(self.index ^ 1)
    }

    /// Returns the edge that this half edge belongs to.
    #[inline]
    pub fn as_undirected(self) -> FixedUndirectedEdgeHandle
        ensures { result ≡ self / 2 }
    {
        FixedHandleImpl::new_internal(self.index / 2)
    }
}

impl FixedUndirectedEdgeHandle {
    /// Returns the edge's normalized half edge.
    ///
    /// Asks that the edge's number is below 2^31.
    #[inline]
    pub fn as_directed(self) -> FixedDirectedEdgeHandle
        requires { self < 2 ^ 31 }
        ensures { result ≡ 2 * self }
    {
        FixedDirectedEdgeHandle::new_normalized(self.index())
    }

    /// Returns both half edges of the edge, the normalized one first.
    ///
    /// Asks that the edge's number is below 2^31.
    #[inline]
    #[tactic(auto, using(crate::proofs::Halves::halves))]
    pub fn directed_edges(self) -> [FixedDirectedEdgeHandle; 2]
        requires { self < 2 ^ 31 }
        ensures { result ≡ (2 * self) ∷ (2 * self + 1) ∷ [] }
    {
        let normalized = self.as_directed();
        [normalized, normalized.rev()]
    }
}

impl FixedFaceHandle<PossiblyOuterTag> {
    /// Returns whether this is the outer face.
    #[inline]
    pub fn is_outer(self) -> bool
        ensures { IsTrue result ↔ (self ≡ 0) }
    {
        self == OUTER_FACE
    }

    /// Returns the same face with the marker of inner faces, or None for the outer face.
    #[inline]
    pub fn as_inner(self) -> Option<FixedFaceHandle<InnerTag>>
        ensures outer { IsNone result ↔ (self ≡ 0) }
        ensures inner { IfSome result (λ face. face ≡ self) }
    {
        if self.is_outer() {
            None
        } else {
            Some(self.adjust_inner_outer())
        }
    }
}

impl<Kind, InnerOuter: InnerOuterMarker> Debug for FixedHandleImpl<Kind, InnerOuter> {
    /// Writes only the number, for example `FixedHandle { index: 3 }`.
    fn fmt<W: fmt::Write>(&self, f: &mut fmt::Formatter<W>) -> fmt::Result {
        f.debug_struct("FixedHandle")
            .field("index", &self.index)
            .finish()
    }
}
