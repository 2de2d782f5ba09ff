//! Debug output of borrowed handles.
//!
//! No contract says what is written.

ghost use Rattle.std.specs.Prelude.{◌*◌, ◌<◌};

use crate::dcel::Dcel;
use crate::handles::definitions::{
    DirectedEdgeHandle, FaceHandle, UndirectedEdgeHandle, VertexHandle,
};
use crate::laws::every_mesh;
use dcel_fixed::{FixedDirectedEdgeHandle, FixedVertexHandle, InnerTag, PossiblyOuterTag};
use std::alloc::Allocator;
use std::fmt;
use std::fmt::Debug;

impl<'a, V, DE, UE, F, A: Allocator> Debug for VertexHandle<'a, V, DE, UE, F, A> {
    /// Writes its number, for example `VertexHandle(3)`.
    fn fmt<W: fmt::Write>(&self, f: &mut fmt::Formatter<W>) -> fmt::Result {
        write!(f, "VertexHandle({})", self.index())
    }
}

impl<'a, V, DE, UE, F, A: Allocator> Debug for DirectedEdgeHandle<'a, V, DE, UE, F, A> {
    /// Writes its number and the vertices where it starts and ends, for example
    /// `DirectedEdgeHandle - id: 6 (FixedHandle { index: 0 } -> FixedHandle { index: 3 })`.
    ///
    /// The vertices of a given-up half edge may be stale.
    fn fmt<W: fmt::Write>(&self, f: &mut fmt::Formatter<W>) -> fmt::Result {
        let [start, end] = stored_ends(self.dcel, self.fix());
        write!(
            f,
            "DirectedEdgeHandle - id: {} ({start:?} -> {end:?})",
            self.index()
        )
    }
}

impl<'a, V, DE, UE, F, A: Allocator> Debug for UndirectedEdgeHandle<'a, V, DE, UE, F, A> {
    /// Writes its number and the vertices where its normalized half edge starts and ends, for
    /// example
    /// `UndirectedEdgeHandle - id: 3 (FixedHandle { index: 0 } <-> FixedHandle { index: 3 })`.
    ///
    /// The vertices of a given-up edge may be stale.
    fn fmt<W: fmt::Write>(&self, f: &mut fmt::Formatter<W>) -> fmt::Result {
        let [start, end] = stored_ends(self.dcel, self.as_directed().fix());
        write!(
            f,
            "UndirectedEdgeHandle - id: {} ({start:?} <-> {end:?})",
            self.index()
        )
    }
}

impl<'a, V, DE, UE, F, A: Allocator> Debug for FaceHandle<'a, PossiblyOuterTag, V, DE, UE, F, A> {
    /// Writes `OuterFace` for the outer face, and the text of an inner face for any other.
    fn fmt<W: fmt::Write>(&self, f: &mut fmt::Formatter<W>) -> fmt::Result {
        match self.as_inner() {
            Some(face) => Debug::fmt(&face, f),
            None => write!(f, "OuterFace"),
        }
    }
}

impl<'a, V, DE, UE, F, A: Allocator> Debug for FaceHandle<'a, InnerTag, V, DE, UE, F, A> {
    /// Writes its number and the numbers of its [`vertices`](FaceHandle::vertices), for example
    /// `FaceHandle - id: 1 (3, 1, 0)`.
    ///
    /// A face without an anchor, such as a given-up one, is written `FaceHandle - id: 1 (none)`.
    fn fmt<W: fmt::Write>(&self, f: &mut fmt::Formatter<W>) -> fmt::Result {
        let face = self
            .dcel
            .face(self.fix().adjust_inner_outer::<PossiblyOuterTag>());
        match face.adjacent_edge() {
            Some(edge) => write!(
                f,
                "FaceHandle - id: {} ({}, {}, {})",
                self.index(),
                edge.prev().from().index(),
                edge.from().index(),
                edge.next().from().index()
            ),
            None => write!(f, "FaceHandle - id: {} (none)", self.index()),
        }
    }
}

// Reads the ends as stored, without checking that the half edge is live: printing must work for
// given-up edges too.
#[tactic(auto, using(dcel_fixed::proofs::Halves::halves))]
fn stored_ends<V, DE, UE, F, A: Allocator>(
    dcel: &Dcel<V, DE, UE, F, A>,
    edge: FixedDirectedEdgeHandle,
) -> [FixedVertexHandle; 2]
    requires { edge < 2 * dcel.now.shape.edges }
{
    [dcel.stored_origin(edge), dcel.stored_origin(edge.rev())]
}
