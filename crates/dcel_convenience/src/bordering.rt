//! The border of a mesh: what is around its outer face.

ghost use Rattle.std.specs.Prelude.{◌≡◌, IfOk, map};
ghost use Rattle.dcel_maps.specs.Shapes.{origin_of};
ghost use Rattle.dcel_maps.specs.Words.{TurnsTo, word_of};
ghost use Rattle.spade_dcel.specs.Faces.{face_edges_of};

use spade_dcel::dcel::Dcel;
use spade_dcel::handles::{FixedDirectedEdgeHandle, FixedVertexHandle};
use std::alloc::{AllocError, Allocator};

/// Returns the half edges around the outer face, each once, in the order of `next`, from the face's
/// anchor on.
///
/// The outer face is to their left, and the mesh to their right. An edge with the outer face on
/// both sides comes twice, as its two halves. A mesh without edges has an empty border. If memory
/// runs out it returns `AllocError`.
pub fn border<V, DE, UE, F, A: Allocator, B: Allocator>(
    alloc: B,
    dcel: &Dcel<V, DE, UE, F, A>,
) -> Result<Vec<FixedDirectedEdgeHandle, B>, AllocError>
    ensures edges { IfOk result (λ border. border.items ≡ face_edges_of dcel.now 0) }
    ensures word { IfOk result (λ border. TurnsTo (word_of dcel.now.shape.words 0) border.items) }
{
    let mut border = Vec::new(alloc);
    for edge in dcel.outer_face().directed_edges() {
        border.push(edge.fix())?;
    }
    Ok(border)
}

/// Returns the vertices around the outer face: where the half edges of the [`border`] start.
///
/// A vertex that the outer face meets several times comes as often. If memory runs out it returns
/// `AllocError`.
pub fn border_vertices<V, DE, UE, F, A: Allocator, B: Allocator>(
    alloc: B,
    dcel: &Dcel<V, DE, UE, F, A>,
) -> Result<Vec<FixedVertexHandle, B>, AllocError>
    ensures { IfOk result (λ border. border.items ≡ map (origin_of dcel.now.shape) (face_edges_of dcel.now 0)) }
{
    let mut border = Vec::new(alloc);
    for edge in dcel.outer_face().directed_edges() {
        border.push(edge.from().fix())?;
    }
    Ok(border)
}
