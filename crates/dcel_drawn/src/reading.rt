//! The rounds of faces, by number.

ghost use Rattle.std.specs.Prelude.{◌≡◌, [], true, false};
ghost use Rattle.dcel_maps.specs.Shapes.{face_is_live};
ghost use Rattle.dcel_maps.specs.Walking.{in_mesh};
ghost use Rattle.spade_dcel.specs.Faces.{face_edges_of};

use spade_dcel::dcel::Dcel;
use spade_dcel::handles::{FixedFaceHandle, PossiblyOuterTag};
use spade_dcel::iterators::{CircularIterator, HullNextBackFn};
use std::alloc::Allocator;

/// The half edges round a face.
pub type Round<'a, V, DE, UE, F, A> = CircularIterator<'a, V, DE, UE, F, HullNextBackFn, A>;

/// Returns the half edges round a face, of which there are none if it is given up or no face.
pub fn round<V, DE, UE, F, A: Allocator>(
    mesh: &Dcel<V, DE, UE, F, A>,
    face: FixedFaceHandle<PossiblyOuterTag>,
) -> Round<'_, V, DE, UE, F, A>
    ensures mesh { result.mesh ≡ mesh.now }
    ensures live { face_is_live mesh.now.shape face ≡ true → result.items ≡ in_mesh mesh.now (face_edges_of mesh.now face) }
    ensures given_up { face_is_live mesh.now.shape face ≡ false → result.items ≡ [] }
{
    match mesh.get_face(face) {
        Some(face) => face.directed_edges(),
        None => CircularIterator::empty_of(mesh),
    }
}
