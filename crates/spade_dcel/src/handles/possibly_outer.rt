//! Distinguishing the outer face from inner faces.

ghost use Rattle.std.specs.Prelude.{◌≡◌, ◌<◌, ◌↔◌, IfSome, IsNone, IsTrue};
ghost use Rattle.spade_dcel.specs.Handles.{mesh_behind, number_of};

use crate::handles::definitions::{DynamicHandleImpl, FaceHandle};
use dcel_fixed::{InnerTag, PossiblyOuterTag};
use std::alloc::Allocator;

impl<'a, V, DE, UE, F, A: Allocator> FaceHandle<'a, PossiblyOuterTag, V, DE, UE, F, A> {
    /// Returns whether it is the outer face.
    #[inline]
    pub fn is_outer(&self) -> bool
        ensures { IsTrue result ↔ (number_of self.now ≡ 0) }
    {
        self.fix().is_outer()
    }

    /// Returns the same face marked as an inner one, or None for the outer face.
    #[inline]
    pub fn as_inner(&self) -> Option<FaceHandle<'a, InnerTag, V, DE, UE, F, A>>
        ensures outer { IsNone result ↔ (number_of self.now ≡ 0) }
        ensures inner { IfSome result (λ face. number_of face ≡ number_of self.now) }
        ensures mesh { IfSome result (λ face. mesh_behind face ≡ mesh_behind self.now) }
        ensures above { IfSome result (λ face. 0 < number_of face) }
    {
        let face = self.fix().as_inner()?;
        Some(DynamicHandleImpl::new(self.dcel, face))
    }
}
