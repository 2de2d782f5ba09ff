//! The live inner faces, borrowed, in the order of their numbers.

ghost use Rattle.std.specs.Prelude.{◌≡◌, ◌<◌, true, IfSome};
ghost use Rattle.std.specs.Iterator.{YieldsFirstBy, YieldsLastBy, item_count};
ghost use Rattle.dcel_maps.specs.Kinds.{Faces};
ghost use Rattle.dcel_maps.specs.Numbers.{numbers_between};
ghost use Rattle.dcel_maps.specs.Shapes.{face_count, face_is_live};
ghost use Rattle.dcel_maps.specs.Walking.{in_mesh};
ghost use Rattle.spade_dcel.specs.Handles.{mesh_behind, number_of};
ghost use Rattle.spade_dcel.specs.Live.{live_ones};

use crate::dcel::Dcel;
use crate::handles::FaceHandle;
use crate::iterators::live_iterator::LiveIterator;
use dcel_fixed::{FaceTag, InnerTag};
use std::alloc::{Allocator, Global};
use std::marker::Model;

/// The live inner faces of a mesh, borrowed, in the order of their numbers
/// ([`Dcel::live_inner_faces`](crate::dcel::Dcel::live_inner_faces)).
///
/// Each face is known to be live and not the outer one when it is returned, so a loop needn't test
/// it.
///
/// It does not allocate. Contracts see the faces still to come, each as its mesh and its number.
/// `next` and `next_back` may be mixed freely.
#[derive(Drop)]
pub struct LiveInnerFaceIterator<'a, V, DE, UE, F, A: Allocator = Global> {
    faces: LiveIterator<'a, V, DE, UE, F, FaceTag, InnerTag, A>,
}

impl<'a, V, DE, UE, F, A: Allocator> Model for LiveInnerFaceIterator<'a, V, DE, UE, F, A> {
    ghost use Rattle.std.specs.Prelude.{ℕ, List, ◌<◌, All};
    ghost use Rattle.dcel_maps.specs.Shapes.{Mesh};

    ghost Value = { List (Mesh V DE UE F × ℕ) };

    ghost view = { λ inner. inner.faces };

    ghost invariant = { λ inner. All (λ face. 0 < face.1) inner.faces };
}

impl<'a, V, DE, UE, F, A: Allocator> LiveInnerFaceIterator<'a, V, DE, UE, F, A> {
    /// Creates an iterator over the live inner faces.
    #[inline]
    pub fn new(dcel: &'a Dcel<V, DE, UE, F, A>) -> Self
        ensures items { result ≡ live_ones Faces (in_mesh dcel.now (numbers_between 1 (face_count dcel.now.shape))) }
    {
        LiveInnerFaceIterator {
            faces: LiveIterator::among(dcel.inner_faces()),
        }
    }
}

impl<'a, V, DE, UE, F, A: Allocator> Iterator for LiveInnerFaceIterator<'a, V, DE, UE, F, A> {
    type Item = FaceHandle<'a, InnerTag, V, DE, UE, F, A>;

    ghost next_gives = { λ s r t. YieldsFirstBy (λ face. (mesh_behind face, number_of face)) (λ faces. faces) s r t
        × IfSome r (λ face. (face_is_live (mesh_behind face).shape (number_of face) ≡ true) × (0 < number_of face)) };

    ghost remaining = { item_count (λ faces. faces) };

    #[inline]
    fn next(&mut self) -> Option<FaceHandle<'a, InnerTag, V, DE, UE, F, A>> {
        self.faces.next()
    }
}

impl<'a, V, DE, UE, F, A: Allocator> DoubleEndedIterator
    for LiveInnerFaceIterator<'a, V, DE, UE, F, A> {
    ghost next_back_gives = { λ s r t. YieldsLastBy (λ face. (mesh_behind face, number_of face)) (λ faces. faces) s r t
        × IfSome r (λ face. (face_is_live (mesh_behind face).shape (number_of face) ≡ true) × (0 < number_of face)) };

    #[inline]
    fn next_back(&mut self) -> Option<FaceHandle<'a, InnerTag, V, DE, UE, F, A>> {
        self.faces.next_back()
    }
}
