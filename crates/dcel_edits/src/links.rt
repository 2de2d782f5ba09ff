//! The links of a new half edge.

ghost use Rattle.std.specs.Prelude.{◌≡◌, ◌<◌, ◌^◌};

use dcel_fixed::{FixedDirectedEdgeHandle, FixedFaceHandle, FixedVertexHandle, PossiblyOuterTag};
use dcel_store::HalfEdgeLinks;

/// Returns the links of a half edge: the next and the previous half edge, its face, and its origin.
pub fn links(
    next: FixedDirectedEdgeHandle,
    prev: FixedDirectedEdgeHandle,
    face: FixedFaceHandle<PossiblyOuterTag>,
    origin: FixedVertexHandle,
) -> HalfEdgeLinks
    ensures { result ≡ record { next = next; prev = prev; face = face; origin = origin } }
{
    HalfEdgeLinks {
        next,
        prev,
        face,
        origin,
    }
}

/// Returns the links of a half edge from numbers.
pub(crate) fn numbered_links(next: usize, prev: usize, face: usize, origin: usize) -> HalfEdgeLinks
    requires few_next { next < 2 ^ 32 }
    requires few_prev { prev < 2 ^ 32 }
    requires few_faces { face < 2 ^ 32 }
    requires few_vertices { origin < 2 ^ 32 }
    ensures { result ≡ record { next = next; prev = prev; face = face; origin = origin } }
{
    links(
        FixedDirectedEdgeHandle::new(next),
        FixedDirectedEdgeHandle::new(prev),
        FixedFaceHandle::new(face),
        FixedVertexHandle::new(origin),
    )
}
